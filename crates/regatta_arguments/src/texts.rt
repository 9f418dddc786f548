//! Texts that a program reads whole.
ghost use Rattle.std.specs.Prelude.{◌≤◌, IfOk, length};
ghost use Rattle.regatta_streams.specs.Texts.{IsAllOf};

use crate::stop::Stop;
use regatta_streams::{Foreign, Source, read_text};
use std::alloc::Global;
use std::fs::{self, Files};

/// The most bytes of a text that is read whole: a file, or the input of a program that reads all of
/// it.
pub const TEXT_LIMIT: u32 = 1_048_576;

/// Reads the whole input, [`TEXT_LIMIT`] bytes at most.
///
/// # Errors
///
/// `TooLong` if a byte past the limit comes, `Device` if a read fails, `NoMemory` if an allocation
/// fails.
pub fn text_of<R: Source>(alloc: Global, input: &mut R) -> Result<Vec<u8>, Stop>
    ensures { IfOk result (λ text. IsAllOf (R.remaining input.old) TEXT_LIMIT text.items) }
{
    match read_text(alloc, input, TEXT_LIMIT) {
        Ok(text) => Ok(text),
        Err(fault) => Err(Stop::from(fault)),
    }
}

/// Reads the whole file, [`TEXT_LIMIT`] bytes at most.
///
/// # Errors
///
/// Those of [`text_of`], and `Device` if the file can't be opened.
pub fn text_at<H: Files + AllocGlobal>(rt: &H, path: &str) -> Result<Vec<u8>, Stop>
    ensures { IfOk result (λ text. length text.items ≤ TEXT_LIMIT) }
{
    match fs::open(rt, path) {
        Ok(file) => text_of(rt.alloc(), &mut Foreign::new(file)),
        Err(error) => Err(Stop::from(error.kind())),
    }
}
