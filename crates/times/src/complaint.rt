//! Why the program stops early, and what it says about it.
ghost use Rattle.std.specs.Prelude.{◌≡◌, ◌≢◌};
ghost use Rattle.times.specs.Complaints.{status_of};

use regatta_arguments::Stop;
use regatta_times::SheetFault;
use std::alloc::AllocError;
use thiserror::Error;

/// Why the program stops early. Its text is what the program says on standard error.
#[derive(Clone, Copy, Debug, PartialEq, Eq, Error)]
pub(crate) enum Complaint {
    /// The race isn't a number from 1 to 40.
    #[error("times: settings fault 1: the race isn't 1 to 40")]
    BadRace,
    /// The system isn't known.
    #[error("times: settings fault 2: the system isn't tcf, py or tod")]
    BadSystem,
    /// The rule for rounding isn't known.
    #[error("times: settings fault 3: the rounding isn't half-up, half-down, down or up")]
    BadRounding,
    /// The list of ratings can't be read.
    #[error("times: ratings fault {number} row {row}: {fault}")]
    Ratings {
        number: u8,
        row: usize,
        fault: SheetFault,
    },
    /// The sheet can't be read, or a time can't be corrected.
    #[error("times: sheet fault {number} row {row}: {fault}")]
    Sheet {
        number: u8,
        row: usize,
        fault: SheetFault,
    },
    /// What may stop any program.
    #[error("times: {}", .0.text())]
    Stop(Stop),
}

impl Complaint {
    /// The status that the program ends with, from 1 to 3.
    pub(crate) fn status(self) -> u8
        ensures value { result ≡ status_of self }
        ensures some { result ≢ 0 }
    {
        match self {
            Complaint::BadRace | Complaint::BadSystem | Complaint::BadRounding => 2,
            Complaint::Ratings { .. } | Complaint::Sheet { .. } => 1,
            Complaint::Stop(stop) => stop.status(),
        }
    }

    /// The complaint about the list of ratings.
    pub(crate) fn of_ratings(fault: SheetFault) -> Complaint {
        match fault.row() {
            Some(row) => Complaint::Ratings {
                number: fault.number(),
                row,
                fault,
            },
            None => Complaint::Stop(Stop::NoMemory),
        }
    }

    /// The complaint about the sheet, or about a time in it.
    pub(crate) fn of_sheet(fault: SheetFault) -> Complaint {
        match fault.row() {
            Some(row) => Complaint::Sheet {
                number: fault.number(),
                row,
                fault,
            },
            None => Complaint::Stop(Stop::NoMemory),
        }
    }
}

impl From<AllocError> for Complaint {
    fn from(_: AllocError) -> Complaint {
        Complaint::Stop(Stop::NoMemory)
    }
}

impl From<Stop> for Complaint {
    fn from(stop: Stop) -> Complaint {
        Complaint::Stop(stop)
    }
}
