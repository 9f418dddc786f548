//! A run in progress: it takes pieces of a text, and writes the text for the lines that have ended.
ghost use Rattle.std.specs.Prelude.{◌≡◌, ◌+◌, ◌++◌, ◌∷◌, [], false, ℕ, List, IfOk, OnOk};
ghost use Rattle.std.specs.Prelude.{OnErr, IsErrOf, Some, ◌<◌, length};
ghost use Rattle.std.specs.List.{list_any};
ghost use Rattle.regatta_terms.specs.Lines.{line_of};
ghost use Rattle.regatta_terms.specs.TextLines.{is_line_end};
ghost use Rattle.regatta_office.specs.Coming.{Broke, Cuts, Finished, IsPart, Stops, Took, Went};
ghost use Rattle.regatta_office.specs.Faults.{failed_writes_in};
ghost use Rattle.regatta_office.specs.Scribes.{point, point_after};
ghost use Rattle.regatta_office.specs.Transcript.{is_quit as is_quit_of};
ghost use Rattle.regatta_office.specs.Turns.{text_after};
ghost use Rattle.regatta_terms.specs.declared.command.Role.TheVariants.{Scorer};

use crate::answers::{answer, is_quit};
use crate::ends::line_end;
use crate::shown::Shown;
use regatta_board::Board;
use regatta_streams::{Sink, StreamFault, write_all};
use regatta_talk::Cutter;
use regatta_terms::{Line, LineFault, Role, read_line};
use std::alloc::{AllocError, Global};

/// The number of unwritten bytes from which on they are written before another line is answered.
const DUE_LIMIT: usize = 4096;

/// Why a scribe stops writing.
#[derive(Clone, Copy, Debug, PartialEq, Eq)]
pub(crate) enum ScribeFault {
    /// A write failed.
    Write,
    /// An allocation failed.
    NoMemory,
}

/// What a line asks for, or its first fault. An empty line isn't cut into words.
#[tactic(auto, using(crate::proofs::HeardFacts::nothing_reads))]
fn asked_by(line: &[u8]) -> Result<Line, LineFault>
    ensures { result ≡ line_of line.now }
{
    if line.is_empty() {
        return Err(LineFault::NoSuchWord);
    }
    read_line(line)
}

/// The board, the role of the next lines, the current line, and the text not written yet.
#[derive(Drop)]
pub(crate) struct Scribe {
    board: Shown,
    role: Role,
    cutter: Cutter,
    due: Vec<u8>,
}

impl Scribe {
    /// A run on this board, at first in the role of the scorer.
    pub(crate) fn new(alloc: Global, board: Board) -> Scribe
        ensures { point result ≡ record {
          rules = board.rules;
          talk = record { role = Scorer; journal = board.entries };
          line = [];
        } }
    {
        Scribe {
            board: Shown::new(alloc, board),
            role: Role::Scorer,
            cutter: Cutter::new(),
            due: Vec::new(alloc),
        }
    }

    /// The board after the lines so far.
    pub(crate) fn board(&self) -> &Board
        ensures rules { result.now.rules ≡ (point self.now).rules }
        ensures journal { result.now.entries ≡ (point self.now).talk.journal }
    {
        self.board.board()
    }

    /// Does what a line asks for, and appends its text to the unwritten one. Returns whether it ends
    /// the run.
    fn answer(&mut self, asked: Result<Line, LineFault>) -> Result<bool, AllocError>
        ensures quit { IfOk result (λ quit. quit ≡ is_quit_of asked) }
        ensures due { OnOk result (self.new.due.items ≡ self.old.due.items
            ++ text_after (point self.old).rules (point self.old).talk asked) }
        ensures after { OnOk result (point self.new
            ≡ point_after (point self.old) asked (point self.old).line) }
        ensures err { OnErr result (self.new.due.items ≡ self.old.due.items) }
    {
        answer(&mut self.board, &mut self.role, asked, &mut self.due)?;
        Ok(is_quit(&asked))
    }

    /// Does what the current line asks for, and appends its text to the unwritten one. Returns
    /// whether it ends the run.
    fn end_line(&mut self) -> Result<bool, AllocError>
        ensures quit { IfOk result (λ quit. quit ≡ is_quit_of (line_of (point self.old).line)) }
        ensures due { OnOk result (self.new.due.items ≡ self.old.due.items
            ++ text_after (point self.old).rules (point self.old).talk
            (line_of (point self.old).line)) }
        ensures after { OnOk result (point self.new
            ≡ point_after (point self.old) (line_of (point self.old).line) []) }
        ensures err { OnErr result (self.new.due.items ≡ self.old.due.items) }
    {
        let asked = asked_by(self.cutter.line());
        self.cutter.clear();
        let quit = self.answer(asked)?;
        Ok(quit)
    }

    /// Takes the rest of the current line and its line feed. Returns whether the line ends the run.
    /// A line that is whole is read where it lies.
    fn take_line(&mut self, rest: &[u8]) -> Result<bool, AllocError>
        requires { list_any is_line_end rest.now ≡ false }
        ensures went { IfOk result (λ quit. Went (Some self.old.due.items)
            (Some self.new.due.items) (rest.now ++ 10 ∷ []) (point self.old) (point self.new)
            quit) }
        ensures err { OnErr result (self.new.due.items ≡ self.old.due.items) }
    {
        if !self.cutter.line().is_empty() {
            self.cutter.hear(rest);
            return self.end_line();
        }
        self.answer(asked_by(rest))
    }

    /// Takes the rest of the current line from a piece, or all of the piece if no line ends in it.
    /// Returns the number of bytes taken, or `None` if the line ends the run.
    #[tactic(auto, using(crate::proofs::Gathering::none_ends, crate::proofs::Gathering::whole_line, crate::proofs::Gathering::took_piece, crate::proofs::Gathering::took_line, crate::proofs::Gathering::took_quit))]
    fn take(&mut self, piece: &[u8]) -> Result<Option<usize>, AllocError>
        requires { 0 < length piece.now }
        ensures count { IfOk result (IsPart piece.now) }
        ensures took { IfOk result (Took (Some self.old.due.items) (Some self.new.due.items)
            piece.now (point self.old) (point self.new)) }
        ensures err { OnErr result (self.new.due.items ≡ self.old.due.items) }
    {
        let end = line_end(piece);
        if end == piece.len() {
            self.cutter.hear(piece);
            return Ok(Some(end));
        }
        match self.take_line(&piece[..end]) {
            Ok(false) => Ok(Some(end + 1)),
            Ok(true) => Ok(None),
            Err(fault) => Err(fault),
        }
    }

    /// Takes a piece of the text, up to the end of the run or to a line after which [`DUE_LIMIT`]
    /// is reached. Returns the number of bytes taken, or `None` at the end of the run.
    ///
    /// # Errors
    ///
    /// If an allocation fails. The text for the lines before it is still to be written.
    fn gather(&mut self, piece: &[u8]) -> Result<Option<usize>, AllocError>
        requires { 0 < length piece.now }
        ensures count { IfOk result (IsPart piece.now) }
        ensures took { IfOk result (Took (Some []) (Some self.new.due.items) piece.now
            (point self.old) (point self.new)) }
        ensures broke { OnErr result (Broke (Some []) (Some self.new.due.items) piece.now
            (point self.old)) }
    {
        self.due.clear();
        let mut taken = 0;
        while taken < piece.len() {
            match self.take(&piece[taken..]) {
                Ok(Some(count)) => taken += count,
                Ok(None) => return Ok(None),
                Err(fault) => return Err(fault),
            }
            if DUE_LIMIT <= self.due.len() {
                return Ok(Some(taken));
            }
        }
        Ok(Some(taken))
    }

    /// Takes as much of a piece as `gather` does, and writes the text for it. Returns the number of
    /// bytes taken, or `None` at the end of the run.
    fn take_some<W: Sink>(
        &mut self,
        piece: &[u8],
        output: &mut W,
    ) -> Result<Option<usize>, ScribeFault>
        requires { 0 < length piece.now }
        ensures count { IfOk result (IsPart piece.now) }
        ensures took { IfOk result (Took (W.contents output.old) (W.contents output.new) piece.now
            (point self.old) (point self.new)) }
        ensures writes { W.failures output.new ≡ W.failures output.old + failed_writes_in result }
        ensures cut { IsErrOf result ScribeFault.Write → (rest : List ℕ) →
            Cuts (W.contents output.old) (W.contents output.new) (point self.old)
            (piece.now ++ rest) }
        ensures broke { IsErrOf result ScribeFault.NoMemory →
            Broke (W.contents output.old) (W.contents output.new) piece.now (point self.old) }
    {
        let gathered = self.gather(piece);
        if let Err(StreamFault) = write_all(output, &self.due) {
            return Err(ScribeFault::Write);
        }
        match gathered {
            Ok(count) => Ok(count),
            Err(AllocError) => Err(ScribeFault::NoMemory),
        }
    }

    /// Takes a piece of the text, up to the end of the run. Returns whether the run ended.
    pub(crate) fn take_all<W: Sink>(
        &mut self,
        piece: &[u8],
        output: &mut W,
    ) -> Result<bool, ScribeFault>
        ensures went { IfOk result (λ quit. Went (W.contents output.old) (W.contents output.new)
            piece.now (point self.old) (point self.new) quit) }
        ensures writes { W.failures output.new ≡ W.failures output.old + failed_writes_in result }
        ensures cut { IsErrOf result ScribeFault.Write → (rest : List ℕ) →
            Cuts (W.contents output.old) (W.contents output.new) (point self.old)
            (piece.now ++ rest) }
        ensures stopped { IsErrOf result ScribeFault.NoMemory → (rest : List ℕ) →
            Stops (W.contents output.old) (W.contents output.new) (point self.old)
            (piece.now ++ rest) }
    {
        let mut taken = 0;
        while taken < piece.len() {
            match self.take_some(&piece[taken..], output) {
                Ok(Some(count)) => taken += count,
                Ok(None) => return Ok(true),
                Err(fault) => return Err(fault),
            }
        }
        Ok(false)
    }

    /// Ends the text: a last line without LF counts as a line unless it is empty.
    pub(crate) fn finish<W: Sink>(&mut self, output: &mut W) -> Result<(), ScribeFault>
        ensures finished { OnOk result (Finished (W.contents output.old) (W.contents output.new)
            (point self.old) (point self.new)) }
        ensures writes { W.failures output.new ≡ W.failures output.old + failed_writes_in result }
        ensures cut { IsErrOf result ScribeFault.Write →
            Cuts (W.contents output.old) (W.contents output.new) (point self.old) [] }
        ensures silent { IsErrOf result ScribeFault.NoMemory → output.new ≡ output.old }
    {
        if self.cutter.line().is_empty() {
            return Ok(());
        }
        self.due.clear();
        let Ok(_) = self.end_line() else {
            return Err(ScribeFault::NoMemory);
        };
        match write_all(output, &self.due) {
            Ok(()) => Ok(()),
            Err(StreamFault) => Err(ScribeFault::Write),
        }
    }
}
