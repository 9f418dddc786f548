//! The standing of a series explained, as the program prints it.
ghost use Rattle.std.specs.Prelude.{◌≡◌, ◌≢◌, ◌+◌, None, OnOk, IsErrOf};
ghost use Rattle.std.specs.Io.KnownBytes.{Appends};
ghost use Rattle.regatta_board.specs.Replays.{first_refused};
ghost use Rattle.regatta_explain.specs.Explained.{explained};
ghost use Rattle.regatta_streams.specs.Texts.{AppendsPrefix};
ghost use Rattle.regatta_office.specs.Asked.{AtMostExplainOf, IsExplainOf, WritesAtMost};
ghost use Rattle.regatta_office.specs.Faults.{failed_writes_in, failed_writes_of};
ghost use Rattle.regatta_office.specs.Starts.{IsStartOf};

use crate::complaint::Complaint;
use crate::options::SeriesOptions;
use crate::run::{RunFault, start_fault};
use crate::scribe::ScribeFault;
use crate::series::beginning_of;
use regatta_board::{Board, replayed};
use regatta_explain::write_explained;
use regatta_streams::{Sink, write_all};
use regatta_terms::{Entry, Rules};
use std::alloc::Global;
use std::fs::Files;

/// Prints the document of a board: the text is made whole and then written.
fn print_board<W: Sink>(alloc: Global, board: &Board, output: &mut W) -> Result<(), ScribeFault>
    ensures wrote { OnOk result (Appends (W.contents output.old) (W.contents output.new)
        (explained board.now.rules board.now.entries)) }
    ensures writes { W.failures output.new ≡ W.failures output.old + failed_writes_in result }
    ensures cut { IsErrOf result ScribeFault.Write → AppendsPrefix (W.contents output.old)
        (W.contents output.new) (explained board.now.rules board.now.entries) }
    ensures silent { IsErrOf result ScribeFault.NoMemory → output.new ≡ output.old }
    ensures at_most { WritesAtMost (explained board.now.rules board.now.entries)
        (W.contents output.old) (W.contents output.new) }
{
    let mut text = Vec::new(alloc);
    if write_explained(alloc, board, &mut text).is_err() {
        return Err(ScribeFault::NoMemory);
    }
    if write_all(output, &text).is_err() {
        return Err(ScribeFault::Write);
    }
    Ok(())
}

/// Prints the document of the journal `start` under the given rules.
///
/// # Errors
///
/// `Start` if an entry is refused by those before it: nothing is written then. `Write` if the write
/// fails: some first part of the text is written then. `NoMemory` if there is no memory for the text:
/// nothing is written then.
pub fn explain<W: Sink>(
    alloc: Global,
    rules: &Rules,
    start: &[Entry],
    output: &mut W,
) -> Result<(), RunFault>
    // Exactly the text of the document is written.
    ensures wrote { OnOk result (Appends (W.contents output.old) (W.contents output.new)
        (explained rules.now start.now)) }

    // If an entry of the start is refused, the result is the first of them, or `NoMemory`. Nothing
    // is written then.
    ensures start { IsStartOf rules.now start.now result }
    ensures unmoved { first_refused rules.now start.now ≢ None → output.new ≡ output.old }

    // A failed write is reported as that and as nothing else; a first part of the text is written.
    ensures writes { W.failures output.new ≡ W.failures output.old + failed_writes_of result }
    ensures cut { IsErrOf result RunFault.Write → AppendsPrefix (W.contents output.old)
        (W.contents output.new) (explained rules.now start.now) }
    ensures silent { IsErrOf result RunFault.NoMemory → output.new ≡ output.old }

    // Whatever the result, nothing is written, or the text, or a beginning of it.
    ensures at_most { WritesAtMost (explained rules.now start.now) (W.contents output.old)
        (W.contents output.new) }
{
    let board = match replayed(alloc, rules, start) {
        Ok(board) => board,
        Err(fault) => return Err(start_fault(fault)),
    };
    match print_board(alloc, &board, output) {
        Ok(()) => Ok(()),
        Err(ScribeFault::Write) => Err(RunFault::Write),
        Err(ScribeFault::NoMemory) => Err(RunFault::NoMemory),
    }
}

/// Prints the document of the journal that a series starts with.
pub(crate) fn explain_series<H: Files + AllocGlobal, W: Sink>(
    rt: &H,
    series: &SeriesOptions<'_>,
    output: &mut W,
) -> Result<(), Complaint>
    ensures done { OnOk result (IsExplainOf series.now (W.contents output.old)
        (W.contents output.new)) }
    ensures at_most { AtMostExplainOf series.now (W.contents output.old) (W.contents output.new) }
{
    let alloc = rt.alloc();
    let begin = beginning_of(rt, series)?;
    let start = begin.start.as_slice();
    explain(alloc, &begin.rules, start, output)?;
    Ok(())
}
