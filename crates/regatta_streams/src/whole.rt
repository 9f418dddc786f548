//! Whole texts read from a stream or written to one.
ghost use Rattle.std.specs.Prelude.{◌≡◌, ◌+◌, ◌<◌, length, IfOk, IfSome, OnOk, IsErrOf};
ghost use Rattle.std.specs.Io.KnownBytes.{IsAtEnd, Keeps};
ghost use Rattle.regatta_streams.specs.Calls.{WritesWhole};
ghost use Rattle.regatta_streams.specs.Faults.{failed_calls_in};
ghost use Rattle.regatta_streams.specs.Texts.{GaveAtMost, IsAllOf};

use crate::stream::{Sink, Source, StreamFault};
use std::alloc::Global;
use thiserror::Error;

/// Why a text wasn't read.
#[derive(Clone, Copy, Debug, PartialEq, Eq, Error)]
pub enum ReadFault {
    /// A read of the stream failed.
    #[error("a read failed")]
    Stream,
    /// The stream gave a byte past the limit.
    #[error("the text is too long")]
    TooLong,
    /// An allocation for the text failed.
    #[error("no memory")]
    NoMemory,
}

/// The most bytes that one read asks for.
const PIECE: usize = 4096;

/// Reads the whole stream, `limit` bytes at most.
///
/// # Errors
///
/// `Stream` if a read fails, `NoMemory` if an allocation fails. `TooLong` if a byte past the limit
/// comes: no further byte is read.
pub fn read_text<R: Source>(alloc: Global, input: &mut R, limit: u32) -> Result<Vec<u8>, ReadFault>
    ensures text { IfOk result (λ text. IsAllOf (R.remaining input.old) limit text.items) }
    ensures end { OnOk result (IsAtEnd (R.remaining input.new)) }
    ensures long { IsErrOf result ReadFault.TooLong →
        IfSome (R.remaining input.old) (λ given. limit < length given) }
    ensures taken { GaveAtMost (limit + 1) (R.remaining input.old) (R.remaining input.new) }

    // What was written stays.
    ensures keeps { Keeps (R.contents input.old) (R.contents input.new) }

    // A failed read is reported as `Stream` and as nothing else.
    ensures failed { R.failures input.new ≡ R.failures input.old + failed_calls_in result }
{
    let most = limit as usize;
    let mut buffer = [0; PIECE];
    let mut text = Vec::new(alloc);
    while text.len() <= most {
        let room = PIECE.min(most + 1 - text.len());
        let Ok(count) = input.read(&mut buffer[..room]) else {
            return Err(ReadFault::Stream);
        };
        if count == 0 {
            return Ok(text);
        }
        if text.extend_from_slice(&buffer[..count]).is_err() {
            return Err(ReadFault::NoMemory);
        }
    }
    Err(ReadFault::TooLong)
}

/// Writes all of the bytes.
///
/// # Errors
///
/// If a write fails. Some first part of the bytes is written then, perhaps none, never all.
pub fn write_all<W: Sink>(output: &mut W, bytes: &[u8]) -> Result<(), StreamFault>
    ensures { WritesWhole W.failures W.failed_reads W.remaining W.contents output.old output.new
        result bytes.now }
{
    let mut rest = bytes;
    while !rest.is_empty() {
        let Ok(taken) = output.write(rest) else {
            return Err(StreamFault);
        };
        rest = &rest[taken..];
    }
    Ok(())
}
