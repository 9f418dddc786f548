//! The forms of a run's final part.

/// What a run prints at its end.
#[derive(Clone, Copy, Debug, PartialEq, Eq)]
pub enum Form {
    /// The standing as a table.
    Table,
    /// The standing as CSV, for a spreadsheet.
    Csv,
    /// The journal, from which a later run can start.
    Journal,
}
