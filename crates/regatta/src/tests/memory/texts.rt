//! The calls that write and read texts, and that make a tape.

use super::*;
use regatta_board::standing_of;
use regatta_office::start_of;
use regatta_tables::{
    EntriesFault, JournalFault, Sails, read_entries, write_csv, write_journal, write_reply,
    write_sheet, write_table,
};
use regatta_terms::{Reply, Sail, read_entry, write_entry};

/// A journal: A and B tie for first, and C is third. Then A is disqualified (RRS A6.1, A7).
const FILE: &[u8] = b"REGATTA 2\n1 1 SCORER ENTER A\n1 2 SCORER ENTER B\n\
    1 3 SCORER ENTER C\n1 4 SCORER FINISH 1 A\n1 5 SCORER TIE 1 B A\n\
    1 6 SCORER FINISH 1 C\n1 7 SCORER SCORE 1\n1 8 JURY MARK 1 A DSQ\n";

/// The table after its entries.
const TABLE: &[u8] = b"TABLE 3 RACES 1\n1 B 1.0 1.0\n2 C 2.0 2.0\n3 A 4.0 4.0/DSQ\n";

/// What `SHOW` prints of these entries.
const SHEET: &[u8] = b"JOURNAL 8\n1 1 SCORER ENTER A\n1 2 SCORER ENTER B\n\
    1 3 SCORER ENTER C\n1 4 SCORER FINISH 1 A\n1 5 SCORER TIE 1 B A\n\
    1 6 SCORER FINISH 1 C\n1 7 SCORER SCORE 1\n1 8 JURY MARK 1 A DSQ\n\
    TABLE 3 RACES 1\n1 B 1.0 1.0\n2 C 2.0 2.0\n3 A 4.0 4.0/DSQ\nEND\n";

/// The results as CSV.
const CSV: &[u8] = b"rank,sail,net,R1\n1,B,1.0,1.0\n2,C,2.0,2.0\n3,A,4.0,4.0/DSQ\n";

/// An entry list with other columns than sails.
static LIST: &[u8] = b"Boat,Sail,Club\nWind,gbr 12,X\n\"A, B\",NED7\n";

/// The texts that are written.
#[derive(Drop)]
enum Text {
    Entry,
    Journal,
    Table,
    Csv,
    Sheet,
    Reply,
}

/// The calls that write, each with its text, that read, and that make a tape.
#[derive(Drop)]
enum Call {
    Write(Text, &'static [u8]),
    ReadJournal,
    ReadEntries,
    Start,
    Tape,
}

/// The outcome of reading a journal.
fn journal_outcome(alloc: Global) -> Outcome {
    match read_journal(alloc, FILE) {
        Ok(journal) => ordinary_if(journal.as_slice().len() == 8),
        Err(why) => out_of_memory_if(why == JournalFault::NoMemory),
    }
}

/// The outcome of reading an entry list.
fn list_outcome(alloc: Global) -> Outcome {
    match read_entries(alloc, LIST) {
        Ok(sails) => ordinary_if(match sails.as_slice() {
            [one, two] => one.text() == "GBR12" && two.text() == "NED7",
            _ => false,
        }),
        Err(why) => out_of_memory_if(why == EntriesFault::NoMemory),
    }
}

/// Whether a series starts with the entries of the list's two sails.
fn starts(alloc: Global, sails: &[Sail]) -> Result<bool, AllocError> {
    Ok(match start_of(alloc, &[], sails)?.as_slice() {
        [one, two] => {
            read_entry(b"1 1 SCORER ENTER GBR12") == Ok(*one)
                && read_entry(b"1 2 SCORER ENTER NED7") == Ok(*two)
        }
        _ => false,
    })
}

/// Whether a tape is made, with nothing on it.
fn makes_tape(alloc: Global) -> Result<bool, AllocError> {
    Ok(Tape::new(alloc, FILE, 7, PLENTY, 100)?.written().is_empty())
}

/// What the texts are made of.
#[derive(Drop)]
struct Texts {
    alloc: Global,
    journal: Journal,
    standing: Standing,
    sails: Sails,
}

impl Texts {
    /// Appends the text.
    fn write(&self, what: &Text, text: &mut Vec<u8>) -> Result<(), AllocError> {
        let entries = self.journal.as_slice();
        match what {
            Text::Entry => match entries.first() {
                Some(entry) => write_entry(entry, text),
                None => Ok(()),
            },
            Text::Journal => write_journal(entries, text),
            Text::Table => write_table(&self.standing, text),
            Text::Csv => write_csv(self.alloc, &self.standing, text),
            Text::Sheet => write_sheet(entries, &self.standing, text),
            Text::Reply => write_reply(&Reply::Bye, text),
        }
    }

    /// The outcome of appending the text. After a refusal there is what was there, and no less room.
    fn append_outcome(&self, what: &Text, wanted: &[u8], text: &mut Vec<u8>) -> Outcome {
        let room = text.capacity();
        match self.write(what, text) {
            Ok(()) => ordinary_if(text.strip_prefix(BEFORE) == Some(wanted)),
            Err(_) => out_of_memory_if(text.as_slice() == BEFORE && room <= text.capacity()),
        }
    }
}

impl Caller<Call> for Texts {
    fn outcome(&mut self, call: &Call, hoard: &mut Hoard, bytes: usize) -> Outcome {
        let Ok(mut text) = Vec::from_slice(self.alloc, BEFORE) else {
            return Outcome::Other;
        };
        hoard.leave(bytes);
        let outcome = match call {
            Call::Write(what, wanted) => self.append_outcome(what, wanted, &mut text),
            Call::ReadJournal => journal_outcome(self.alloc),
            Call::ReadEntries => list_outcome(self.alloc),
            Call::Start => outcome_of(starts(self.alloc, self.sails.as_slice())),
            Call::Tape => outcome_of(makes_tape(self.alloc)),
        };
        hoard.give_back();
        outcome
    }
}

/// The texts of a series in which a boat is disqualified, and of an entry list.
fn texts_of(alloc: Global) -> Option<Texts> {
    let journal = read_journal(alloc, FILE).ok()?;
    let sails = read_entries(alloc, LIST).ok()?;
    match standing_of(alloc, &default_rules(), journal.as_slice()) {
        Ok(standing) => Some(Texts {
            alloc,
            journal,
            standing,
            sails,
        }),
        Err(_) => None,
    }
}

static CALLS: [Call; 10] = [
    Call::Write(Text::Entry, b"1 1 SCORER ENTER A"),
    Call::Write(Text::Journal, FILE),
    Call::Write(Text::Table, TABLE),
    Call::Write(Text::Csv, CSV),
    Call::Write(Text::Sheet, SHEET),
    Call::Write(Text::Reply, b"BYE\n"),
    Call::ReadJournal,
    Call::ReadEntries,
    Call::Start,
    Call::Tape,
];

/// Whether all texts are written and read, and a tape is made, with each allocation refused first.
fn are_texts_refused<R: Files + AllocGlobal>(rt: &R) -> bool {
    match texts_of(rt.alloc()) {
        Some(mut texts) => are_refused(rt, &mut texts, &CALLS),
        None => false,
    }
}

#[test]
fn texts_and_tapes_run_out_of_memory(rt: HostRuntime) {
    assert!(rt; are_texts_refused(&rt));
}
