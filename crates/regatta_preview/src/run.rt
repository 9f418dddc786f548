//! A preview, from an input stream to an output stream.

ghost use Rattle.std.specs.Prelude.{◌≡◌, ◌⊎◌, ◌+◌, OnOk, IsErrOf};
ghost use Rattle.std.specs.Io.KnownBytes.{Appends, Keeps};
ghost use Rattle.regatta_board.specs.Replays.{first_refused};
ghost use Rattle.regatta_streams.specs.Texts.{AppendsPrefix};
ghost use Rattle.regatta_preview.specs.Previews.{previewed};
ghost use Rattle.regatta_preview.specs.Runs.{AreCounted, IsStartOf, IsTaken, IsUntouched, OfLines};
ghost use Rattle.regatta_preview.specs.Runs.{WritesAtMost, failed_writes_in};
ghost use Rattle.regatta_preview.specs.Runs.{read_fault as read_fault_of, start_fault as start_fault_of};

use crate::whole::write_preview;
use regatta_board::{Board, ReplayFault, replayed};
use regatta_streams::{ReadFault, Sink, Source, read_text, write_all};
use regatta_terms::{Entry, Refusal, Role, Rules};
use std::alloc::Global;
use thiserror::Error;

/// The most bytes of an input.
pub const INPUT_LIMIT: u32 = 1_048_576;

/// Why a preview isn't written.
#[derive(Clone, Copy, Debug, PartialEq, Eq, Error)]
pub enum PreviewFault {
    /// The entry of the start at place `at`, counted from 1, is refused by those before it.
    #[error("entry {at} of the start: {refusal}")]
    Start { at: u32, refusal: Refusal },
    /// A read of the input failed.
    #[error("a read failed")]
    Read,
    /// A write to the output failed.
    #[error("a write failed")]
    Write,
    /// A byte past the limit came.
    #[error("the input is longer than 1,048,576 bytes")]
    InputTooLong,
    /// An allocation failed.
    #[error("no memory")]
    NoMemory,
}

/// Why a document isn't printed.
#[derive(Clone, Copy)]
enum PrintFault {
    /// A write failed.
    Write,
    /// An allocation failed.
    NoMemory,
}

fn start_fault(fault: ReplayFault) -> PreviewFault
    ensures { result ≡ start_fault_of fault }
{
    match fault {
        ReplayFault::Refused { at, refusal } => PreviewFault::Start { at, refusal },
        ReplayFault::NoMemory => PreviewFault::NoMemory,
    }
}

fn read_fault(fault: ReadFault) -> PreviewFault
    ensures { result ≡ read_fault_of fault }
{
    match fault {
        ReadFault::Stream => PreviewFault::Read,
        ReadFault::TooLong => PreviewFault::InputTooLong,
        ReadFault::NoMemory => PreviewFault::NoMemory,
    }
}

/// Prints the document of what lines would do to a board's journal: the text is made whole and then
/// written.
fn print<W: Sink>(
    alloc: Global,
    board: &Board,
    role: Role,
    lines: &[u8],
    output: &mut W,
) -> Result<(), PrintFault>
    ensures wrote { OnOk result (Appends (W.contents output.old) (W.contents output.new)
        (previewed board.now.rules board.now.entries role lines.now)) }
    ensures writes { W.failures output.new ≡ W.failures output.old + failed_writes_in result }
    ensures cut { IsErrOf result PrintFault.Write → AppendsPrefix (W.contents output.old)
        (W.contents output.new) (previewed board.now.rules board.now.entries role lines.now) }
    ensures silent { IsErrOf result PrintFault.NoMemory → output.new ≡ output.old }
{
    let mut text = Vec::new(alloc);
    if write_preview(alloc, board, role, lines, &mut text).is_err() {
        return Err(PrintFault::NoMemory);
    }
    if write_all(output, &text).is_err() {
        return Err(PrintFault::Write);
    }
    Ok(())
}

/// Prints what the lines of a text would do to a journal with the entries of `start`, under the given
/// rules. The first line is sent in this role. The whole text is read first, and nothing is kept.
///
/// # Errors
///
/// `Start` if an entry of the start is refused by those before it: nothing is read or written then.
/// `Read` if a read fails, and `InputTooLong` if a byte past [`INPUT_LIMIT`] comes: nothing is
/// written then. `Write` if the write fails: some first part of the document is written then.
/// `NoMemory` if an allocation fails: nothing is written then.
pub fn preview<R: Source, W: Sink>(
    alloc: Global,
    input: &mut R,
    output: &mut W,
    rules: &Rules,
    start: &[Entry],
    role: Role,
) -> Result<(), PreviewFault>
    // Exactly the document is written, of all that the reader gives.
    ensures wrote { OnOk result (OfLines (R.remaining input.old) (λ text. Appends
        (W.contents output.old) (W.contents output.new)
        (previewed rules.now start.now role text))) }

    // If an entry of the start is refused, the result is the first of them, or `NoMemory`.
    ensures start { IsStartOf rules.now start.now result }

    // Nothing is read or written then, and after any other fault but `Write` nothing is written.
    ensures untouched { IsUntouched (first_refused rules.now start.now) input.old input.new output.old
        output.new result }

    // A failed device is reported as its own fault and as nothing else.
    ensures counted { AreCounted (R.failures input.old) (R.failures input.new)
        (W.failures output.old) (W.failures output.new) result }

    // At most one byte more than the limit is read, and the input is too long only if that came.
    ensures taken { IsTaken (R.remaining input.old) (R.remaining input.new) result }

    // After a failed write a first part of the document is written.
    ensures cut { IsErrOf result PreviewFault.Write → OfLines (R.remaining input.old)
        (λ text. AppendsPrefix (W.contents output.old) (W.contents output.new)
        (previewed rules.now start.now role text)) }

    // Whatever the result, nothing is written, or the document, or a beginning of it.
    ensures at_most { Keeps (W.contents output.old) (W.contents output.new)
        ⊎ OfLines (R.remaining input.old) (λ text. WritesAtMost
        (previewed rules.now start.now role text) (W.contents output.old)
        (W.contents output.new)) }
{
    let board = match replayed(alloc, rules, start) {
        Ok(board) => board,
        Err(fault) => return Err(start_fault(fault)),
    };
    let text = match read_text(alloc, input, INPUT_LIMIT) {
        Ok(text) => text,
        Err(fault) => return Err(read_fault(fault)),
    };
    match print(alloc, &board, role, &text, output) {
        Ok(()) => Ok(()),
        Err(PrintFault::Write) => Err(PreviewFault::Write),
        Err(PrintFault::NoMemory) => Err(PreviewFault::NoMemory),
    }
}
