//! Why any program may stop early.
ghost use Rattle.std.specs.Prelude.{◌≡◌, ◌≢◌};
ghost use Rattle.regatta_arguments.specs.Stops.{status_of, text_of};

use regatta_streams::ReadFault;
use std::io::ErrorKind;

/// Why a program stops early, whatever it was asked for.
#[derive(Clone, Copy, Debug, PartialEq, Eq)]
pub enum Stop {
    /// The input or a file is too long.
    TooLong,
    /// A file or a stream fails.
    Device,
    /// An allocation failed.
    NoMemory,
}

impl Stop {
    /// The status that the program ends with, 1 or 3.
    pub fn status(self) -> u8
        ensures value { result ≡ status_of self }
        ensures some { result ≢ 0 }
    {
        match self {
            Stop::TooLong => 1,
            Stop::Device | Stop::NoMemory => 3,
        }
    }

    /// What the program says of it on standard error, after its name.
    pub fn text(self) -> &'static str
        ensures { result.now ≡ text_of self }
    {
        match self {
            Stop::TooLong => "input too long",
            Stop::Device => "device fault",
            Stop::NoMemory => "no memory",
        }
    }
}

/// Why a file can't be opened.
impl From<ErrorKind> for Stop {
    fn from(kind: ErrorKind) -> Stop {
        match kind {
            ErrorKind::OutOfMemory => Stop::NoMemory,
            _ => Stop::Device,
        }
    }
}

impl From<ReadFault> for Stop {
    fn from(fault: ReadFault) -> Stop {
        match fault {
            ReadFault::Stream => Stop::Device,
            ReadFault::TooLong => Stop::TooLong,
            ReadFault::NoMemory => Stop::NoMemory,
        }
    }
}
