//! Entry lists, as race offices keep them: comma-separated values with a column of sails.

ghost use Rattle.std.specs.Prelude.{◌≡◌, ◌≤◌, ◌⊎◌, ◌++◌, ◌∷◌, [], Ok, Err, None, Some, length, map};
ghost use Rattle.std.specs.Prelude.{position, IfOk, IfErr, OnOk};
ghost use Rattle.std.specs.List.{IsDistinct, list_all};
ghost use Rattle.csv.specs.Records.{fields_of};
ghost use Rattle.regatta_terms.specs.Sails.{sail_of};
ghost use Rattle.regatta_terms.specs.Words.{is_space};
ghost use Rattle.regatta_scores.specs.Journal.{same_sail};
ghost use Rattle.regatta_tables.specs.EntryLists.{entries_of_text, entries_under, fault_in};
ghost use Rattle.regatta_tables.specs.EntryLists.{fault_of_field, is_blank, is_sail_heading};
ghost use Rattle.regatta_tables.specs.EntryLists.{number_of_entries_fault};
ghost use Rattle.regatta_tables.specs.EntryLists.{row_of_entries_fault, sails_in, without_spaces};

use crate::records::{fields_in, records_of, without_spaces};
use csv::ByteRecord;
use regatta_scores::Items;
use regatta_terms::{MAX_BOATS, Sail};
use std::alloc::{AllocError, Global};
use thiserror::Error;

/// The sails of an entry list, in the order of its rows.
pub type Sails = Items<Sail>;

/// Why an entry list can't be read: the first that applies. Rows count the records of the list from
/// 1, which is the header.
#[derive(Clone, Copy, Debug, PartialEq, Eq, Error)]
pub enum EntriesFault {
    /// The header has no column of sails, or there is no header.
    #[error("entries fault 1: no column of sails in row 1")]
    NoColumn,
    /// A record has no field in the column of sails.
    #[error("entries fault 2: no sail in row {row}")]
    BadRow {
        /// The row of the record.
        row: usize,
    },
    /// The field in the column of sails isn't a sail number.
    #[error("entries fault 3: bad sail in row {row}")]
    BadSail {
        /// The row of the field.
        row: usize,
    },
    /// The sail is in an earlier row, too.
    #[error("entries fault 4: sail in row {row} for the second time")]
    Twice {
        /// The row of the second one.
        row: usize,
    },
    /// [`MAX_BOATS`](regatta_terms::MAX_BOATS) sails are in earlier rows.
    #[error("entries fault 5: more than {most} sails, from row {row}", most = MAX_BOATS)]
    TooMany {
        /// The row of the first sail too many.
        row: usize,
    },
    /// An allocation failed.
    #[error("entries fault 6: no memory")]
    NoMemory,
}

impl EntriesFault {
    /// The number that the program prints for the fault.
    pub fn number(self) -> u8
        ensures { result ≡ number_of_entries_fault self }
    {
        match self {
            EntriesFault::NoColumn => 1,
            EntriesFault::BadRow { .. } => 2,
            EntriesFault::BadSail { .. } => 3,
            EntriesFault::Twice { .. } => 4,
            EntriesFault::TooMany { .. } => 5,
            EntriesFault::NoMemory => 6,
        }
    }

    /// The row of the fault: the header's if there is no column of sails, `None` if an allocation
    /// failed.
    pub fn row(self) -> Option<usize>
        ensures { result ≡ row_of_entries_fault self }
    {
        match self {
            EntriesFault::NoColumn => Some(1),
            EntriesFault::BadRow { row }
            | EntriesFault::BadSail { row }
            | EntriesFault::Twice { row }
            | EntriesFault::TooMany { row } => Some(row),
            EntriesFault::NoMemory => None,
        }
    }
}

/// Reads the sails that an entry list names, at most as many as may be entered. They are those in
/// the first column headed `Sail`, `SailNo` or `SailNumber`, in letters of either case. Spaces
/// don't matter, and blank records are skipped. The records are those that `csv` reads by default,
/// so the text may be any bytes.
///
/// # Errors
///
/// The first fault of the list, or `NoMemory` if an allocation fails.
pub fn read_entries(alloc: Global, text: &[u8]) -> Result<Sails, EntriesFault>
    ensures ok { IfOk result (λ sails. entries_of_text text.now ≡ Ok sails) }
    ensures few { IfOk result (λ sails. length sails ≤ MAX_BOATS) }
    ensures once { IfOk result (λ sails. IsDistinct same_sail sails) }
    ensures fault { IfErr result (λ fault.
        (fault ≡ EntriesFault.NoMemory) ⊎ (entries_of_text text.now ≡ Err fault)) }
{
    let Ok(records) = records_of(alloc, text) else {
        return Err(EntriesFault::NoMemory);
    };
    let Some((header, records)) = records.as_slice().split_first() else {
        return Err(EntriesFault::NoColumn);
    };
    let Ok(column) = sail_column(alloc, header) else {
        return Err(EntriesFault::NoMemory);
    };
    let Some(column) = column else {
        return Err(EntriesFault::NoColumn);
    };
    read_sails(alloc, column, records)
}

/// The number of the first column with a heading of sails, counted from 0.
pub(crate) fn sail_column(alloc: Global, header: &ByteRecord) -> Result<Option<usize>, AllocError>
    ensures { IfOk result (λ column.
        column ≡ position is_sail_heading (fields_of header.now)) }
{
    let fields = fields_in(alloc, header)?;
    for (column, field) in fields.iter().enumerate() {
        if is_sail_heading(alloc, field)? {
            return Ok(Some(column));
        }
    }
    Ok(None)
}

/// Whether a field of the header is the heading of a column of sails.
fn is_sail_heading(alloc: Global, field: &[u8]) -> Result<bool, AllocError>
    ensures { IfOk result (λ heads. heads ≡ is_sail_heading field.now) }
{
    let mut name = without_spaces(alloc, field)?;
    name.make_ascii_uppercase();
    let name = name.as_slice();
    Ok(
        name == b"SAIL".as_slice()
            || name == b"SAILNO".as_slice()
            || name == b"SAILNUMBER".as_slice(),
    )
}

/// The sails of the records after the header, from the fields of that column.
fn read_sails(alloc: Global, column: usize, records: &[ByteRecord]) -> Result<Sails, EntriesFault>
    ensures ok { IfOk result (λ sails.
        entries_under (Some column) (map fields_of records.now) ≡ Ok sails) }
    ensures few { IfOk result (λ sails. length sails ≤ MAX_BOATS) }
    ensures once { IfOk result (λ sails. IsDistinct same_sail sails) }
    ensures fault { IfErr result (λ fault. (fault ≡ EntriesFault.NoMemory)
        ⊎ (entries_under (Some column) (map fields_of records.now) ≡ Err fault)) }
{
    let mut sails = Vec::new(alloc);
    for (number, boat) in records.iter().enumerate() {
        match add_sail(alloc, column, number + 2, boat, &mut sails) {
            Ok(()) => {}
            Err(fault) => return Err(fault),
        }
    }
    Ok(Items::new(sails))
}

/// Adds the sail of the boat in that row, or none if the record is blank. `sails` are those of the
/// rows before it. An `Err` may leave more of them.
fn add_sail(
    alloc: Global,
    column: usize,
    row: usize,
    boat: &ByteRecord,
    sails: &mut Vec<Sail>,
) -> Result<(), EntriesFault>
    ensures sound { OnOk result (
        fault_in column row sails.old.items (fields_of boat.now) ≡ None) }
    ensures added { OnOk result (sails.new.items
        ≡ sails.old.items ++ sails_in column (fields_of boat.now ∷ [])) }
    ensures fault { IfErr result (λ fault. (fault ≡ EntriesFault.NoMemory)
        ⊎ (fault_in column row sails.old.items (fields_of boat.now) ≡ Some fault)) }
{
    let Ok(fields) = fields_in(alloc, boat) else {
        return Err(EntriesFault::NoMemory);
    };
    add_named(alloc, column, row, &fields, sails)
}

/// The same, given the fields of the record.
fn add_named(
    alloc: Global,
    column: usize,
    row: usize,
    fields: &[&[u8]],
    sails: &mut Vec<Sail>,
) -> Result<(), EntriesFault>
    ensures sound { OnOk result (
        fault_in column row sails.old.items (map (λ field. field.now) fields.now) ≡ None) }
    ensures added { OnOk result (sails.new.items
        ≡ sails.old.items ++ sails_in column (map (λ field. field.now) fields.now ∷ [])) }
    ensures fault { IfErr result (λ fault. (fault ≡ EntriesFault.NoMemory)
        ⊎ (fault_in column row sails.old.items (map (λ field. field.now) fields.now)
        ≡ Some fault)) }
{
    if is_blank(fields) {
        return Ok(());
    }
    let Some(field) = fields.get(column) else {
        return Err(EntriesFault::BadRow { row });
    };
    let sail = read_sail(alloc, row, field, sails)?;
    if sails.push(sail).is_err() {
        return Err(EntriesFault::NoMemory);
    }
    Ok(())
}

/// Whether all fields are empty or spaces.
pub(crate) fn is_blank(fields: &[&[u8]]) -> bool
    ensures { result ≡ is_blank (map (λ field. field.now) fields.now) }
{
    for field in fields {
        if !are_spaces(field) {
            return false;
        }
    }
    true
}

fn are_spaces(text: &[u8]) -> bool
    ensures { result ≡ list_all is_space text.now }
{
    text.iter().all(|byte| *byte == b' ')
}

/// The sail in a field of that row, given the sails of the rows before it.
fn read_sail(alloc: Global, row: usize, field: &[u8], sails: &[Sail]) -> Result<Sail, EntriesFault>
    ensures ok { IfOk result (λ sail. sail_of (without_spaces field.now) ≡ Some sail) }
    ensures sound { OnOk result (fault_of_field row sails.now (Some field.now) ≡ None) }
    ensures fault { IfErr result (λ fault. (fault ≡ EntriesFault.NoMemory)
        ⊎ (fault_of_field row sails.now (Some field.now) ≡ Some fault)) }
{
    let Ok(name) = without_spaces(alloc, field) else {
        return Err(EntriesFault::NoMemory);
    };
    let Some(sail) = Sail::read(&name) else {
        return Err(EntriesFault::BadSail { row });
    };
    if sails.contains(&sail) {
        return Err(EntriesFault::Twice { row });
    }
    if sails.len() >= MAX_BOATS {
        return Err(EntriesFault::TooMany { row });
    }
    Ok(sail)
}
