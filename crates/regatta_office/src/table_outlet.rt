//! Where the table of a kept office goes.
ghost use mathlib.Core.List.{IsPrefix};
ghost use Rattle.regatta_office.specs.FinalParts.{PrintsFinal};
ghost use Rattle.regatta_office.specs.declared.form.Form.TheVariants.{Table};

use crate::final_part::print_final;
use crate::form::Form;
use crate::scribe::ScribeFault;
use regatta_board::Board;
use regatta_keeper::{Kept, KeptName};
use regatta_streams::{Device, Sink};
use std::alloc::Global;

/// Where the table of a kept office goes. It takes no bytes: only the table of a journal, for evidence
/// that this is kept.
pub(crate) trait TableOutlet: Device {
    /// Prints the table of the board's journal, which is a beginning of the one that is kept.
    ///
    /// # Errors
    ///
    /// `Write` if the write fails: some first part of the table is written then. `NoMemory` if there is
    /// no memory for the text: nothing is written then.
    fn print_table<N: KeptName>(
        &mut self,
        alloc: Global,
        board: &Board,
        kept: &Kept<N>,
    ) -> Result<(), ScribeFault>
        requires kept { IsPrefix board.now.entries kept.now }
        ensures { PrintsFinal Self.failures Self.contents board.now.rules Table board.now.entries
            self.old self.new result };
}

impl<W: Sink> TableOutlet for W {
    fn print_table<N: KeptName>(
        &mut self,
        alloc: Global,
        board: &Board,
        _kept: &Kept<N>,
    ) -> Result<(), ScribeFault> {
        print_final(alloc, board, Form::Table, self)
    }
}
