//! Receipts for commands that were run.
ghost use Rattle.std.specs.Prelude.{◌≡◌, length};
ghost use Rattle.regatta_desk.specs.Receipts.{EndsWith, receipt_of};

use regatta_terms::{Answer, Entry};
use regatta_watch::{Note, OfficeName};
use std::marker::{Model, PhantomData};

/// Evidence that a command was run: its answer, and a note of the journal that ends with its entry.
///
/// It is seen as the entry's place, the answer and that journal.
#[derive(Drop)]
pub struct Receipt<N: OfficeName> {
    pub(crate) answer: Answer,
    pub(crate) entry: Entry,
    pub(crate) note: Note,
    of: PhantomData<N>,
}

impl<N: OfficeName> Model for Receipt<N> {
    ghost use Rattle.std.specs.Prelude.{◌≡◌, length};
    ghost use Rattle.regatta_desk.specs.Receipts.{ReceiptValue, EndsWith};

    ghost Value = { ReceiptValue };

    ghost view = { λ r. record {
      place = r.answer.place;
      answer = r.answer;
      journal = r.note.journal;
    } };

    ghost invariant = { λ r.
        (r.answer.place ≡ length r.note.journal)
        × EndsWith r.note.journal r.entry
        × (r.note.history ≡ N.history) };
}

impl<N: OfficeName> Receipt<N> {
    pub(crate) fn new(answer: Answer, entry: Entry, note: Note) -> Receipt<N>
        requires place { answer.place ≡ length note.journal }
        requires ends { EndsWith note.journal entry }
        requires history { note.history ≡ N.history }
        ensures { result ≡ receipt_of answer note.journal }
    {
        Receipt {
            answer,
            entry,
            note,
            of: PhantomData,
        }
    }

    /// The place of the command's entry in the journal, counted from 1. It is the last entry.
    pub fn place(&self) -> u32
        ensures place { result ≡ self.now.place }
        ensures last { result ≡ length self.now.journal }
    {
        self.answer.place
    }

    /// The answer to the command.
    pub fn answer(&self) -> Answer
        ensures { result ≡ self.now.answer }
    {
        self.answer
    }
}
