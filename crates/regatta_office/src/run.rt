//! A run, from an input stream to an output stream.
ghost use Rattle.std.specs.Prelude.{◌≡◌, ◌≢◌, ◌<◌, ◌≤◌, None, Some, OnOk, IfOk, IfSome, IsErrOf};
ghost use Rattle.std.specs.Io.KnownBytes.{Appends, Keeps};
ghost use Rattle.regatta_board.specs.Replays.{first_refused};
ghost use Rattle.regatta_office.specs.declared.run.TheConstants.{INPUT_LIMIT};
ghost use Rattle.regatta_office.specs.Coming.{BreaksOff, IsWithin, Talked, coming, said_from};
ghost use Rattle.regatta_office.specs.Faults.{AreCounted, AreRunCounted};
ghost use Rattle.regatta_office.specs.Faults.{scribe_fault as scribe_fault_of};
ghost use Rattle.regatta_office.specs.Faults.{start_fault as start_fault_of};
ghost use Rattle.regatta_office.specs.Scribes.{point};
ghost use Rattle.regatta_office.specs.Starts.{IsStartOf};
ghost use Rattle.regatta_office.specs.Transcript.{WritesRun, final_text, run_text};

use crate::final_part::print_final;
use crate::form::Form;
use crate::scribe::{Scribe, ScribeFault};
use regatta_board::{ReplayFault, replayed};
use regatta_streams::{Sink, Source};
use regatta_terms::{Entry, Refusal, Rules};
use std::alloc::Global;
use thiserror::Error;

/// The most bytes of an input whose lines are answered.
pub const INPUT_LIMIT: u32 = 1_048_576;

/// The most bytes that one read asks for.
const PIECE: usize = 4096;

/// Why a run stopped.
#[derive(Clone, Copy, Debug, PartialEq, Eq, Error)]
pub enum RunFault {
    /// The entry of the start at place `at`, counted from 1, is refused by those before it.
    #[error("entry {at} of the start: {refusal}")]
    Start { at: u32, refusal: Refusal },
    /// A read of the input failed.
    #[error("a read failed")]
    Read,
    /// A write to the output failed.
    #[error("a write failed")]
    Write,
    /// A byte past the limit came, without a QUIT before it.
    #[error("the input is longer than 1,048,576 bytes")]
    InputTooLong,
    /// An allocation failed.
    #[error("no memory")]
    NoMemory,
}

pub(crate) fn start_fault(fault: ReplayFault) -> RunFault
    ensures { result ≡ start_fault_of fault }
{
    match fault {
        ReplayFault::Refused { at, refusal } => RunFault::Start { at, refusal },
        ReplayFault::NoMemory => RunFault::NoMemory,
    }
}

fn scribe_fault(fault: ScribeFault) -> RunFault
    ensures { result ≡ scribe_fault_of fault }
{
    match fault {
        ScribeFault::Write => RunFault::Write,
        ScribeFault::NoMemory => RunFault::NoMemory,
    }
}

/// Reads a piece of the input, and writes the text for the lines that end in it. At most `most`
/// bytes are answered. Returns the number of bytes read, or `None` at the end of the run.
fn turn<R: Source, W: Sink>(
    scribe: &mut Scribe,
    input: &mut R,
    output: &mut W,
    most: usize,
    buffer: &mut [u8; PIECE],
) -> Result<Option<usize>, RunFault>
    requires { most ≤ INPUT_LIMIT }
    ensures talked { IfOk result (Talked (R.remaining input.old) (R.remaining input.new)
        (W.contents output.old) (W.contents output.new) (point scribe.old) (point scribe.new)) }
    ensures count { IfOk result (λ count. IfSome count (λ n. (0 < n) × (n ≤ most))) }
    ensures within { IfOk result (λ count. count ≡ None →
        IfSome (R.remaining input.old) (IsWithin (coming (point scribe.old)) most)) }
    ensures breaks { BreaksOff (coming (point scribe.old)) None most (R.remaining input.old)
        (R.remaining input.new) (W.contents output.old) (W.contents output.new) result }
    ensures counted { AreCounted (R.failures input.old) (R.failures input.new)
        (W.failures output.old) (W.failures output.new) result }
    ensures read { IsErrOf result RunFault.Read → (output.new ≡ output.old)
        × Keeps (R.remaining input.old) (R.remaining input.new) }
{
    let piece = &mut buffer[..PIECE.min(most + 1)];
    let Ok(count) = input.read(piece) else {
        return Err(RunFault::Read);
    };
    if count == 0 {
        return match scribe.finish(output) {
            Ok(()) => Ok(None),
            Err(fault) => Err(scribe_fault(fault)),
        };
    }
    match scribe.take_all(&piece[..count.min(most)], output) {
        Ok(false) => {}
        Ok(true) => return Ok(None),
        Err(fault) => return Err(scribe_fault(fault)),
    }
    if most < count {
        return Err(RunFault::InputTooLong);
    }
    Ok(Some(count))
}

/// Answers the lines of the input, up to QUIT or its end.
fn answer_all<R: Source, W: Sink>(
    scribe: &mut Scribe,
    input: &mut R,
    output: &mut W,
) -> Result<(), RunFault>
    ensures talked { OnOk result (Talked (R.remaining input.old) (R.remaining input.new)
        (W.contents output.old) (W.contents output.new) (point scribe.old) (point scribe.new)
        None) }
    ensures within { OnOk result (IfSome (R.remaining input.old)
        (IsWithin (coming (point scribe.old)) INPUT_LIMIT)) }
    ensures breaks { BreaksOff (coming (point scribe.old)) None INPUT_LIMIT
        (R.remaining input.old) (R.remaining input.new) (W.contents output.old)
        (W.contents output.new) result }
    ensures counted { AreCounted (R.failures input.old) (R.failures input.new)
        (W.failures output.old) (W.failures output.new) result }
{
    let mut most = INPUT_LIMIT as usize;
    let mut buffer = [0; PIECE];
    loop {
        match turn(scribe, input, output, most, &mut buffer) {
            Ok(Some(count)) => most -= count,
            Ok(None) => return Ok(()),
            Err(fault) => return Err(fault),
        }
    }
}

/// Answers the lines of a text as seat 1, at first in the role of the scorer, on a board with the
/// entries of `start`, under the given rules. The writer gets the text for each line, up to QUIT or
/// the end of the text, and then the final journal in the form asked for.
///
/// The text is read in pieces and answered line by line: it is never held whole.
///
/// # Errors
///
/// `Start` if an entry of the start is refused by those before it: nothing is written then. `Read`
/// or `Write` if the device fails, `InputTooLong` if a byte past [`INPUT_LIMIT`] comes without a
/// QUIT before it, `NoMemory` if an allocation fails. Lines before the fault were answered. The
/// final part isn't written, except for some first part of it if its own write fails.
pub fn replay<R: Source, W: Sink>(
    alloc: Global,
    input: &mut R,
    output: &mut W,
    rules: &Rules,
    start: &[Entry],
    form: Form,
) -> Result<(), RunFault>
    // The lines of the text that the reader gives are answered, however its bytes are cut. What is
    // printed last is a table that fits Appendix A for the final journal, its CSV or the journal,
    // and nothing else.
    ensures appendix_a { OnOk result (IfSome (R.remaining input.old) (λ text.
        WritesRun rules.now start.now form text (W.contents output.old) (W.contents output.new))) }
    // The same, with the transcript and the table as they are computed.
    ensures answered { OnOk result (IfSome (R.remaining input.old) (λ text. Appends
        (W.contents output.old) (W.contents output.new)
        (run_text rules.now start.now form text))) }
    // A run that returns `Ok` has answered no more bytes than the limit.
    ensures within { OnOk result (IfSome (R.remaining input.old)
        (IsWithin (said_from rules.now start.now) INPUT_LIMIT)) }

    // If an entry of the start is refused, the result is the first of them, or `NoMemory`. Nothing
    // is read or written then.
    ensures start { IsStartOf rules.now start.now result }
    ensures unmoved { first_refused rules.now start.now ≢ None →
        (input.new ≡ input.old) × (output.new ≡ output.old) }

    // A failed device is reported as its own fault and as nothing else.
    ensures counted { AreRunCounted (R.failures input.old) (R.failures input.new)
        (W.failures output.old) (W.failures output.new) result }

    // Every run reads at most one byte more than the limit. One that fails has written the replies to
    // the lines that had ended, within the limit. After a failed write it is some first part of the
    // whole text. Out of memory, it is the replies to some first lines.
    ensures breaks { BreaksOff (said_from rules.now start.now)
        (Some (final_text rules.now form)) INPUT_LIMIT (R.remaining input.old)
        (R.remaining input.new) (W.contents output.old) (W.contents output.new) result }
{
    let board = match replayed(alloc, rules, start) {
        Ok(board) => board,
        Err(fault) => return Err(start_fault(fault)),
    };
    let mut scribe = Scribe::new(alloc, board);
    if let Err(fault) = answer_all(&mut scribe, input, output) {
        return Err(fault);
    }
    match print_final(alloc, scribe.board(), form, output) {
        Ok(()) => Ok(()),
        Err(fault) => Err(scribe_fault(fault)),
    }
}
