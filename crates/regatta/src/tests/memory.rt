//! Each allocation refused in turn: calls that allocate, on a short input, with more and more bytes
//! left to them until none is refused. A call is a line of a list. It is refused at least once, and
//! each time it answers as out of memory and as nothing else.

use super::*;
use hoard::{Caller, FINE_RUNS, Hoard, MOST_RUNS, Outcome, are_refused, bytes_left, is_sanitized};
use regatta_scores::Standing;
use regatta_tables::{Journal, read_journal};
use std::alloc::AllocError;
use std::fs::{File, Files};

mod boards;
mod hoard;
mod offices;
mod runs;
mod scoring;
mod texts;

/// The outcome of a call that didn't answer as out of memory.
fn ordinary_if(is_right: bool) -> Outcome {
    if is_right {
        Outcome::Ordinary
    } else {
        Outcome::Other
    }
}

/// The outcome of a call that answered as out of memory.
fn out_of_memory_if(is_kept: bool) -> Outcome {
    if is_kept {
        Outcome::OutOfMemory
    } else {
        Outcome::Other
    }
}

/// The outcome of a call, if what it leaves is as it should be. Whoever holds much calls this rather
/// than branch, since each branch is proved to give all of it back.
fn outcome_if(is_kept: bool, outcome: Outcome) -> Outcome {
    if is_kept { outcome } else { Outcome::Other }
}

/// The outcome of a call whose only error is out of memory.
fn outcome_of(answer: Result<bool, AllocError>) -> Outcome {
    match answer {
        Ok(is_right) => ordinary_if(is_right),
        Err(_) => Outcome::OutOfMemory,
    }
}

/// The beginning of a text that a call appends to: as long as the least block that the heap gives,
/// so that appending anything asks for more.
const BEFORE: &[u8] = b"what stood there before.";
