//! The final part of a run.
ghost use Rattle.std.specs.Prelude.{◌≡◌, ◌++◌, OnOk};
ghost use Rattle.regatta_office.specs.FinalParts.{PrintsFinal};
ghost use Rattle.regatta_office.specs.Transcript.{final_text};

use crate::form::Form;
use crate::scribe::ScribeFault;
use regatta_board::Board;
use regatta_streams::{Sink, write_all};
use regatta_tables::{write_csv, write_journal, write_table};
use std::alloc::{AllocError, Global};

fn write_final(
    alloc: Global,
    board: &Board,
    form: Form,
    out: &mut Vec<u8>,
) -> Result<(), AllocError>
    ensures { OnOk result (out.new.items ≡ out.old.items
        ++ final_text board.now.rules form board.now.entries) }
{
    match form {
        Form::Table => write_table(&board.standing()?, out),
        Form::Csv => write_csv(alloc, &board.standing()?, out),
        Form::Journal => write_journal(board.entries(), out),
    }
}

/// Prints the journal of the board in the form asked for. Its standing, which is the table printed,
/// fits the sentences of Appendix A. The text is made whole and then written.
///
/// # Errors
///
/// `Write` if the write fails: some first part of the text is written then. `NoMemory` if there is
/// no memory for the text: nothing is written then.
pub(crate) fn print_final<W: Sink>(
    alloc: Global,
    board: &Board,
    form: Form,
    output: &mut W,
) -> Result<(), ScribeFault>
    ensures { PrintsFinal W.failures W.contents board.now.rules form board.now.entries output.old
        output.new result }
{
    board.standing_fits();
    let mut text = Vec::new(alloc);
    if write_final(alloc, board, form, &mut text).is_err() {
        return Err(ScribeFault::NoMemory);
    }
    if write_all(output, &text).is_err() {
        return Err(ScribeFault::Write);
    }
    Ok(())
}
