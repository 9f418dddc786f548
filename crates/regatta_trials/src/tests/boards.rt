//! A board's calls, and its standing beside the one computed from its entries: contracts say that
//! they agree, and these tests that the calls do answer.

use super::*;
use regatta_board::{Board, ReplayFault, standing_of};
use regatta_scores::Standing;
use regatta_tables::{Journal, read_journal, write_table};
use regatta_terms::{Absent, Command, Refusal, Role, Sail};

/// A and B tie for first, and C is third. Then A is disqualified.
static DISQUALIFIED: &[u8] = b"1 1 SCORER ENTER A\n1 2 SCORER ENTER B\n1 3 SCORER ENTER C\n\
    1 4 FINISH FINISH 1 A\n1 5 FINISH TIE 1 B A\n1 6 FINISH FINISH 1 C\n1 7 SCORER SCORE 1\n\
    1 8 JURY MARK 1 A DSQ\n";

/// D is entered late, and C's score for not finishing gets a point worse (RRS A2.2, A5.2).
static LATE: &[u8] = b"1 1 SCORER ENTER A\n1 2 SCORER ENTER B\n1 3 SCORER ENTER C\n\
    1 4 FINISH FINISH 1 A\n1 5 FINISH FINISH 1 B\n1 6 SCORER MARK 1 C DNF\n\
    1 7 SCORER SCORE 1\n1 8 SCORER ENTER D\n";

/// A's average as redress in race 2 follows her place in race 1 (RRS A9).
static AVERAGE: &[u8] = b"1 1 SCORER ENTER A\n1 2 SCORER ENTER B\n1 3 SCORER FINISH 1 A\n\
    1 4 SCORER FINISH 1 B\n1 5 SCORER FINISH 2 B\n1 6 SCORER SCORE 1\n1 7 SCORER SCORE 2\n\
    1 8 JURY REDRESS 2 A ALL\n1 9 SCORER STRIKE 1 A\n1 10 SCORER BEFORE 1 A B\n";

/// A has her average in race 1, made of race 2 alone, where a late entry costs her a point more.
static LATE_AND_AVERAGE: &[u8] = b"1 1 SCORER ENTER A\n1 2 SCORER ENTER B\n\
    1 3 SCORER FINISH 1 A\n1 4 SCORER FINISH 1 B\n1 5 SCORER FINISH 2 B\n1 6 SCORER SCORE 1\n\
    1 7 SCORER SCORE 2\n1 8 JURY REDRESS 1 A ALL\n1 9 SCORER ENTER C\n";

/// Decisions on one boat, each in place of the one before (RRS A5, A9, A10).
static DECIDED: &[u8] = b"1 1 SCORER ENTER A\n1 2 SCORER FINISH 1 A\n1 3 SCORER SCORE 1\n\
    1 4 JURY MARK 1 A DSQ\n1 5 JURY CLEAR 1 A\n1 6 JURY REDRESS 1 A 2.5\n";

/// Three boats by corrected times, two of them equal, in a race that counts: A is struck, timed as
/// before, struck and timed again, and then disqualified (RRS A3, A6.1, A7).
static TIMED: &[u8] = b"1 1 SCORER ENTER A\n1 2 SCORER ENTER B\n1 3 SCORER ENTER C\n\
    1 4 FINISH TIME 1 A 3605\n1 5 FINISH TIME 1 B 3600\n1 6 FINISH TIME 1 C 3605\n\
    1 7 SCORER SCORE 1\n1 8 SCORER STRIKE 1 A\n1 9 SCORER TIME 1 A 3605\n\
    1 10 SCORER STRIKE 1 A\n1 11 SCORER TIME 1 A 3599\n1 12 JURY MARK 1 A DSQ\n";

/// The journal with this text.
fn journal_of(alloc: Global, text: &[u8]) -> Result<Journal, Fail> {
    let journal = read_journal(alloc, text).ok().ok_or("a journal")?;
    Ok(journal)
}

/// Whether two standings have one table.
fn have_one_table(alloc: Global, one: &Standing, other: &Standing) -> Result<bool, Fail> {
    let (mut first, mut second) = (Vec::new(alloc), Vec::new(alloc));
    write_table(one, &mut first)?;
    write_table(other, &mut second)?;
    Ok(first.as_slice() == second.as_slice())
}

/// Whether the board's standing is the one computed from its entries.
fn is_of_its_entries(alloc: Global, board: &Board) -> Result<bool, Fail> {
    let recomputed = standing_of(alloc, board.rules(), board.entries());
    match (board.standing(), recomputed) {
        (Ok(kept), Ok(made)) => have_one_table(alloc, &kept, &made),
        _ => Ok(false),
    }
}

/// Whether the board takes the entry, and its standing is that of its entries then.
fn is_taken(alloc: Global, board: &mut Board, entry: Entry) -> Result<bool, Fail> {
    if board.apply(entry).is_err() {
        return Ok(false);
    }
    is_of_its_entries(alloc, board)
}

/// Whether the board takes these entries one by one, and its standing is that of its entries after
/// each of them.
fn are_taken(alloc: Global, board: &mut Board, entries: &[Entry]) -> Result<bool, Fail> {
    for entry in entries {
        if !is_taken(alloc, board, *entry)? {
            return Ok(false);
        }
    }
    Ok(true)
}

/// Whether the standing is that of the entries after each entry of this journal.
fn is_so_throughout(alloc: Global, rules: Rules, text: &[u8]) -> Result<bool, Fail> {
    let journal = journal_of(alloc, text)?;
    match Board::open(alloc, rules) {
        Ok(mut board) => are_taken(alloc, &mut board, journal.as_slice()),
        Err(_) => Ok(false),
    }
}

#[test]
fn a_standing_is_that_of_its_entries(rt: HostRuntime) -> Result<(), Fail> {
    for text in [DISQUALIFIED, LATE, AVERAGE, LATE_AND_AVERAGE, DECIDED] {
        let rules = Rules::new(Absent::A52, None, &[], false).unwrap();
        assert!(rt; is_so_throughout(rt.alloc(), rules, text)?);
    }
    let by_times = Rules::new(Absent::A52, None, &[], true).unwrap();
    assert!(rt; is_so_throughout(rt.alloc(), by_times, TIMED)?);
    Ok(())
}

/// The board of the journal with this text.
fn board_of(alloc: Global, text: &[u8]) -> Result<Board, Fail> {
    let journal = journal_of(alloc, text)?;
    let board = regatta_board::replayed(alloc, &default_rules(), journal.as_slice());
    Ok(board.ok().ok_or("a lawful journal")?)
}

/// For how many races a command was scored that the board takes.
fn rescored(board: &mut Board, entry: Entry) -> Option<u32> {
    match board.prepare(entry) {
        Ok(staged) => {
            let rescored = staged.rescored();
            let _ = board.commit(staged);
            Some(rescored)
        }
        Err(_) => None,
    }
}

/// Whether the board takes these entries one by one, and scores as many races for each.
fn are_rescored(board: &mut Board, entries: &[Entry], counts: &[u32]) -> bool {
    for (entry, count) in entries.iter().zip(counts) {
        if rescored(board, *entry) != Some(*count) {
            return false;
        }
    }
    entries.len() == counts.len()
}

/// Whether a new board takes the entries of this journal, and scores as many races for each.
fn scores_races(alloc: Global, text: &[u8], counts: &[u32]) -> Result<bool, Fail> {
    let journal = journal_of(alloc, text)?;
    match Board::open(alloc, default_rules()) {
        Ok(mut board) => Ok(are_rescored(&mut board, journal.as_slice(), counts)),
        Err(_) => Ok(false),
    }
}

/// No race is scored for a command of a race that doesn't count, one for each other command of a
/// race, and all that count for a late entry.
#[test]
fn a_command_scores_few_races(rt: HostRuntime) -> Result<(), Fail> {
    let counts = [0, 0, 0, 0, 0, 1, 1, 1, 1, 1];
    assert!(rt; scores_races(rt.alloc(), AVERAGE, &counts)?);
    let counts = [0, 0, 0, 0, 0, 1, 1, 1, 2];
    assert!(rt; scores_races(rt.alloc(), LATE_AND_AVERAGE, &counts)?);
    Ok(())
}

/// Seat 1 has sent its eighth entry, and sends another under that number.
#[test]
fn a_number_of_a_seat_is_used_once(rt: HostRuntime) -> Result<(), Fail> {
    let mut board = board_of(rt.alloc(), DISQUALIFIED)?;
    let sail = Sail::read(b"D").ok_or("a sail")?;
    let late = Command::Enter { sail };
    let entry = Entry::new(1, 8, Role::Scorer, late).ok_or("an entry")?;
    let refused = board.apply(entry);
    assert!(rt; refused == Err(Refusal::OldNumber { last: 8 }) && board.len() == 8);
    Ok(())
}

/// Why the journal with this text has no standing.
fn fault_of(alloc: Global, text: &[u8]) -> Result<Option<ReplayFault>, Fail> {
    let journal = journal_of(alloc, text)?;
    Ok(standing_of(alloc, &default_rules(), journal.as_slice()).err())
}

#[test]
fn an_entry_that_is_refused_is_named(rt: HostRuntime) -> Result<(), Fail> {
    let fault = fault_of(rt.alloc(), b"1 1 SCORER ENTER A\n1 1 SCORER ENTER B\n")?;
    let refusal = Refusal::OldNumber { last: 1 };
    assert!(rt; fault == Some(ReplayFault::Refused { at: 2, refusal }));
    Ok(())
}
