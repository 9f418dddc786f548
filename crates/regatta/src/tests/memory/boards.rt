//! The calls of the board.

use super::super::offices::has_table;
use super::*;
use regatta_board::{Board, ReplayFault, standing_of};
use regatta_terms::Refusal;

/// The calls of a board and of its journal.
#[derive(Drop)]
enum Call {
    Open,
    /// The next entry of the journal is prepared.
    Prepare,
    /// It is appended.
    Apply,
    /// The standing of the board after the last entry.
    Standing,
    /// The standing of all entries.
    StandingOf,
}

/// Every command by finishes: A is disqualified, cleared and struck
/// out, goes ahead of B and has a penalty of one point, and C is given a score.
static FINISHES: &[u8] = b"1 1 SCORER ENTER A\n1 2 SCORER ENTER B\n1 3 SCORER ENTER C\n\
    1 4 SCORER FINISH 1 A\n1 5 SCORER TIE 1 B A\n1 6 SCORER FINISH 1 C\n1 7 SCORER SCORE 1\n\
    1 8 JURY MARK 1 A DSQ\n1 9 JURY CLEAR 1 A\n1 10 SCORER STRIKE 1 A\n\
    1 11 SCORER BEFORE 1 A B\n1 12 JURY PENALTY 1 A SCP\n1 13 JURY REDRESS 1 C 1.5\n\
    1 14 SCORER UNSCORE 1\n1 15 SCORER SCORE 1\n";

static FINISHES_TABLE: &[u8] = b"TABLE 3 RACES 1\n1 C 1.5 1.5/RDG\n2= A 2.0 2.0/SCP\n\
    2= B 2.0 2.0\n";

/// A race by corrected times, of which two are equal (RRS A3, A7).
static TIMES: &[u8] = b"1 1 SCORER ENTER A\n1 2 SCORER ENTER B\n1 3 SCORER ENTER C\n\
    1 4 SCORER TIME 1 A 3605\n1 5 SCORER TIME 1 B 3600\n1 6 SCORER TIME 1 C 3605\n\
    1 7 SCORER SCORE 1\n";

static TIMES_TABLE: &[u8] = b"TABLE 3 RACES 1\n1 B 1.0 1.0\n2= A 2.5 2.5\n2= C 2.5 2.5\n";

/// The outcome of opening a board.
fn open_outcome(alloc: Global, rules: Rules) -> Outcome {
    match Board::open(alloc, rules) {
        Ok(board) => ordinary_if(board.len() == 0),
        Err(_) => Outcome::OutOfMemory,
    }
}

/// The entry that was prepared, and its place.
fn prepared(board: &Board, entry: Entry) -> Result<(Entry, u32), Refusal> {
    let staged = board.prepare(entry)?;
    Ok((*staged.entry(), staged.place()))
}

/// The outcome of preparing the entry.
fn prepare_outcome(board: &Board, entry: Entry) -> Outcome {
    match prepared(board, entry) {
        Ok((found, place)) => ordinary_if(found == entry && place as usize == board.len() + 1),
        Err(why) => out_of_memory_if(why == Refusal::NoMemory),
    }
}

/// The outcome of appending the entry. After a refusal the journal has no more entries.
fn apply_outcome(board: &mut Board, entry: Entry) -> Outcome {
    let before = board.len();
    match board.apply(entry) {
        Ok(answer) => ordinary_if(board.len() == before + 1 && answer.place as usize == before + 1),
        Err(why) => out_of_memory_if(why == Refusal::NoMemory && board.len() == before),
    }
}

/// A board that takes the entries of a journal, and its table once it has them all.
#[derive(Drop)]
struct Clerk<'a> {
    alloc: Global,
    rules: Rules,
    entries: &'a [Entry],
    table: &'static [u8],
    board: &'a mut Board,
}

impl Clerk<'_> {
    /// The outcome of a call that makes no standing.
    fn call_outcome(&mut self, call: &Call) -> Outcome {
        match (call, self.entries.get(self.board.len())) {
            (Call::Open, _) => open_outcome(self.alloc, self.rules),
            (Call::Prepare, Some(next)) => prepare_outcome(self.board, *next),
            (Call::Apply, Some(next)) => apply_outcome(self.board, *next),
            _ => Outcome::Other,
        }
    }

    /// The standing of the board, whose one error is out of memory, or of the journal's entries.
    fn standing(&self, call: &Call) -> Result<Standing, ReplayFault> {
        match call {
            Call::StandingOf => standing_of(self.alloc, &self.rules, self.entries),
            _ => self.board.standing().or(Err(ReplayFault::NoMemory)),
        }
    }

    /// The outcome of making a standing with `bytes` bytes left, by its table.
    fn standing_outcome(&self, call: &Call, hoard: &mut Hoard, bytes: usize) -> Outcome {
        hoard.leave(bytes);
        let standing = self.standing(call);
        hoard.give_back();
        match standing {
            Ok(standing) => ordinary_if(has_table(self.alloc, &standing, self.table)),
            Err(why) => out_of_memory_if(why == ReplayFault::NoMemory),
        }
    }
}

impl Caller<Call> for Clerk<'_> {
    fn outcome(&mut self, call: &Call, hoard: &mut Hoard, bytes: usize) -> Outcome {
        if let Call::Standing | Call::StandingOf = call {
            return self.standing_outcome(call, hoard, bytes);
        }
        hoard.leave(bytes);
        let outcome = self.call_outcome(call);
        hoard.give_back();
        outcome
    }
}

/// The calls by which a board takes this many entries one by one.
fn calls_of(alloc: Global, entries: usize) -> Result<Vec<Call>, AllocError> {
    let mut calls = vec![in alloc; Call::Open, Call::StandingOf]?;
    for _ in 0..entries {
        calls.push(Call::Prepare)?;
        calls.push(Call::Apply)?;
    }
    calls.push(Call::Standing)?;
    Ok(calls)
}

/// Whether each of these calls is refused first, on a new board.
fn are_calls_refused<R: Files + AllocGlobal>(
    rt: &R,
    rules: Rules,
    entries: &[Entry],
    table: &'static [u8],
    calls: &[Call],
) -> bool {
    match Board::open(rt.alloc(), rules) {
        Ok(mut board) => {
            let mut clerk = Clerk {
                alloc: rt.alloc(),
                rules,
                entries,
                table,
                board: &mut board,
            };
            are_refused(rt, &mut clerk, calls)
        }
        Err(_) => false,
    }
}

/// Whether each call with the entries of this journal is refused first; the table is theirs.
fn is_board_refused<R: Files + AllocGlobal>(
    rt: &R,
    rules: Rules,
    text: &[u8],
    table: &'static [u8],
) -> Result<bool, Fail> {
    let journal = read_journal(rt.alloc(), text).ok().ok_or("a journal")?;
    let entries = journal.as_slice();
    let calls = calls_of(rt.alloc(), entries.len())?;
    Ok(are_calls_refused(rt, rules, entries, table, &calls))
}

#[test]
fn a_board_runs_out_of_memory(rt: HostRuntime) -> Result<(), Fail> {
    assert!(rt; is_board_refused(&rt, default_rules(), FINISHES, FINISHES_TABLE)?);
    Ok(())
}

#[test]
fn a_board_by_times_runs_out_of_memory(rt: HostRuntime) -> Result<(), Fail> {
    assert!(rt; is_board_refused(&rt, handicap_rules(), TIMES, TIMES_TABLE)?);
    Ok(())
}
