//! Why a list of ratings or a sheet of times isn't taken.

ghost use Rattle.std.specs.Prelude.{◌≡◌};
ghost use Rattle.regatta_times.specs.Faults.{number_of_fault, row_of_fault, fault_of_sails};
ghost use Rattle.regatta_times.specs.Faults.{fault_of_time};

use crate::correcting::TimesFault;
use regatta_tables::EntriesFault;
use regatta_terms::Sail;
use thiserror::Error;

/// Why a list of ratings or a sheet of times isn't taken: the first fault that applies. Rows count
/// the records from 1, which is the header. A fault of a time names the boat.
#[derive(Clone, Copy, Debug, PartialEq, Eq, Error)]
pub enum SheetFault {
    /// The sails can't be read, as those of an entry list: faults 1 to 5.
    #[error("{0}")]
    Sails(EntriesFault),
    /// The header of the ratings has no column with the heading asked for.
    #[error("no column of ratings")]
    NoRatings,
    /// The rating isn't one of the system.
    #[error("the rating isn't one of the system")]
    BadRating { row: usize },
    /// The boat has no rating.
    #[error("{sail:?} has no rating")]
    NoRating { row: usize, sail: Sail },
    /// A start, a finish or an elapsed time can't be read.
    #[error("a time can't be read")]
    BadTime { row: usize },
    /// There is neither an elapsed time, nor a finish and a start.
    #[error("neither an elapsed time, nor a start and a finish")]
    NoTime { row: usize },
    /// There are an elapsed time and a finish.
    #[error("an elapsed time and a finish")]
    TwoTimes { row: usize },
    /// By the clock the finish is before the start, and the race doesn't go past midnight.
    #[error("{sail:?} finishes before she starts")]
    FinishBeforeStart { row: usize, sail: Sail },
    /// The laps aren't 1 to 99, or some boats have laps and some have none.
    #[error("the laps aren't 1 to 99, or boats above have none")]
    BadLaps { row: usize },
    /// The distance can't be read, or time on distance lacks one.
    #[error("the distance is missing, or isn't 0.01 to 999.99 miles")]
    BadDistance { row: usize },
    /// Laps are given for another system than Portsmouth.
    #[error("{sail:?} has laps, which only Portsmouth takes")]
    NotOfSystem { row: usize, sail: Sail },
    /// More time is allowed than the boat took.
    #[error("the corrected time of {sail:?} is below zero")]
    Negative { row: usize, sail: Sail },
    /// The corrected time, rounded, is above 999,999 seconds.
    #[error("the corrected time of {sail:?} is above 999999 seconds")]
    TooLong { row: usize, sail: Sail },
    /// An allocation failed.
    #[error("no memory")]
    NoMemory,
}

impl SheetFault {
    /// The number that the program prints for the fault: from 1 to 5 those of an entry list.
    pub fn number(&self) -> u8
        ensures { result ≡ number_of_fault self.now }
    {
        match self {
            SheetFault::Sails(fault) => fault.number(),
            SheetFault::NoRatings => 7,
            SheetFault::BadRating { .. } => 8,
            SheetFault::NoRating { .. } => 9,
            SheetFault::BadTime { .. } => 10,
            SheetFault::NoTime { .. } => 11,
            SheetFault::TwoTimes { .. } => 12,
            SheetFault::FinishBeforeStart { .. } => 13,
            SheetFault::BadLaps { .. } => 14,
            SheetFault::BadDistance { .. } => 15,
            SheetFault::NotOfSystem { .. } => 16,
            SheetFault::Negative { .. } => 17,
            SheetFault::TooLong { .. } => 18,
            SheetFault::NoMemory => 6,
        }
    }

    /// The row of the fault, the header's if a column is missing; `None` if an allocation failed.
    pub fn row(&self) -> Option<usize>
        ensures { result ≡ row_of_fault self.now }
    {
        match self {
            SheetFault::Sails(fault) => fault.row(),
            SheetFault::NoRatings => Some(1),
            SheetFault::BadRating { row }
            | SheetFault::NoRating { row, .. }
            | SheetFault::BadTime { row }
            | SheetFault::NoTime { row }
            | SheetFault::TwoTimes { row }
            | SheetFault::FinishBeforeStart { row, .. }
            | SheetFault::BadLaps { row }
            | SheetFault::BadDistance { row }
            | SheetFault::NotOfSystem { row, .. }
            | SheetFault::Negative { row, .. }
            | SheetFault::TooLong { row, .. } => Some(*row),
            SheetFault::NoMemory => None,
        }
    }
}

/// The fault of a list whose sails have that one.
pub(crate) fn fault_of_sails(fault: EntriesFault) -> SheetFault
    ensures { result ≡ fault_of_sails fault }
{
    match fault {
        EntriesFault::NoMemory => SheetFault::NoMemory,
        EntriesFault::NoColumn
        | EntriesFault::BadRow { .. }
        | EntriesFault::BadSail { .. }
        | EntriesFault::Twice { .. }
        | EntriesFault::TooMany { .. } => SheetFault::Sails(fault),
    }
}

/// The fault of a boat's corrected time, with her row and her sail.
pub(crate) fn fault_of_time(row: usize, sail: Sail, fault: TimesFault) -> SheetFault
    ensures { result ≡ fault_of_time row sail fault }
{
    match fault {
        TimesFault::NotOfSystem => SheetFault::NotOfSystem { row, sail },
        TimesFault::Negative => SheetFault::Negative { row, sail },
        TimesFault::TooLong => SheetFault::TooLong { row, sail },
    }
}
