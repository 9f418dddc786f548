//! The standing of a series.
ghost use Rattle.std.specs.Prelude.{◌≡◌, length};
ghost use Rattle.regatta_scores.specs.Abbreviations.{abbrev_text};

use crate::items::Items;
use regatta_terms::{Code, PenaltyKind, RaceNo, Sail, Tenths};

/// The abbreviation in a cell (RRS A10): a code, a penalty or redress.
#[derive(Clone, Copy, Debug, PartialEq, Eq)]
pub enum Abbrev {
    /// A code.
    Code(Code),
    /// A 20% penalty under RRS 30.2.
    Zfp,
    /// A Scoring Penalty under RRS 44.3.
    Scp,
    /// Redress was given (RRS A9).
    Rdg,
}

impl Abbrev {
    /// The three letters that RRS A10 uses.
    pub fn text(self) -> &'static str
        ensures text { result.now ≡ abbrev_text self }
        ensures three { length result.now ≡ 3 }
    {
        match self {
            Abbrev::Code(code) => code.text(),
            Abbrev::Zfp => PenaltyKind::Zfp.text(),
            Abbrev::Scp => PenaltyKind::Scp.text(),
            Abbrev::Rdg => "RDG",
        }
    }
}

/// One boat's score in one race.
#[derive(Clone, Copy, Debug, PartialEq, Eq)]
pub struct Cell {
    /// The points, in tenths, with penalties and redress.
    pub points: Tenths,
    /// Why she has these points, unless they are for her place alone.
    pub mark: Option<Abbrev>,
    /// Whether the score is excluded from the series score.
    pub dropped: bool,
}

/// One boat's scores, one for each scored race.
pub type Cells = Items<Cell>;

/// One boat's row of the standing.
#[derive(Drop)]
pub struct Row {
    /// The boat's sail number.
    pub sail: Sail,
    /// One more than the number of boats that beat her.
    pub rank: u16,
    /// Whether another boat has this rank.
    pub tied: bool,
    /// The series score, in tenths (RRS A2.1).
    pub net: u32,
    /// Her scores, one for each scored race, in order of races.
    pub cells: Cells,
}

/// The rows of a standing, in order of rank and then sail.
pub type Rows = Items<Row>;

/// Race numbers, in rising order.
pub type Races = Items<RaceNo>;

/// The standing: the scored races, and one row for each boat entered.
#[derive(Drop)]
pub struct Standing {
    /// The scored races, in order of number.
    pub races: Races,
    /// One row for each boat entered, in order of rank and then sail.
    pub rows: Rows,
}
