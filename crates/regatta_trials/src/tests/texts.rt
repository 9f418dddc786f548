//! What faults and refusals print: no contract says so.

use super::*;
use regatta_office::{DoorFault, ServeFault};
use regatta_streams::ReadFault;
use regatta_tables::{EntriesFault, JournalFault};
use regatta_terms::{LineFault, Refusal, RulesFault};
use std::fmt::Display;

/// Whether each of these prints as the text beside it.
fn are_printed<T: Display>(alloc: Global, cases: &[(T, &str)]) -> Result<bool, Fail> {
    for (fault, wanted) in cases {
        let text = format!(in alloc; "{fault}")?;
        if text.as_str() != *wanted {
            return Ok(false);
        }
    }
    Ok(true)
}

static REFUSALS: [(Refusal, &str); 16] = [
    (Refusal::NoMemory, "refused 1: no memory"),
    (Refusal::JournalFull, "refused 2: the journal is full"),
    (
        Refusal::OldNumber { last: 8 },
        "refused 3: the number isn't above 8",
    ),
    (Refusal::NotYours, "refused 4: not for this role"),
    (Refusal::EntryFull, "refused 5: the entry list is full"),
    (Refusal::AlreadyEntered, "refused 6: entered before"),
    (Refusal::NotEntered, "refused 7: not entered"),
    (Refusal::AlreadyPlaced, "refused 8: placed before"),
    (Refusal::NotPlaced, "refused 9: not placed"),
    (Refusal::Decided, "refused 10: decided by the jury"),
    (
        Refusal::PenaltyLimit,
        "refused 11: no more penalties of this kind",
    ),
    (Refusal::NothingToClear, "refused 12: nothing to clear"),
    (Refusal::AlreadyScored, "refused 13: scored before"),
    (Refusal::NotScored, "refused 14: not scored"),
    (Refusal::NoFinisher, "refused 15: no finisher"),
    (Refusal::WrongSystem, "refused 16: wrong system"),
];

static LINES: [(LineFault, &str); 10] = [
    (LineFault::TooLong, "fault 20: more than 80 bytes"),
    (LineFault::NoSuchWord, "fault 21: no such word"),
    (LineFault::WrongCount, "fault 22: wrong number of words"),
    (LineFault::BadSail, "fault 23: bad sail"),
    (LineFault::BadRace, "fault 24: bad race"),
    (LineFault::BadPoints, "fault 25: bad points"),
    (LineFault::BadCode, "fault 26: bad code"),
    (LineFault::BadRole, "fault 27: bad role"),
    (LineFault::BadNumber, "fault 28: bad number"),
    (LineFault::BadSeconds, "fault 29: bad seconds"),
];

static RULES: [(RulesFault, &str); 6] = [
    (
        RulesFault::ScpOutOfRange,
        "rules fault 1: the amount of a scoring penalty is not from 1 to 99",
    ),
    (
        RulesFault::TooMany,
        "rules fault 2: more than four thresholds",
    ),
    (
        RulesFault::NotRising,
        "rules fault 3: the thresholds don't rise",
    ),
    (
        RulesFault::BelowTwo,
        "rules fault 4: a threshold is below 2",
    ),
    (
        RulesFault::AboveForty,
        "rules fault 5: a threshold is above 40",
    ),
    (RulesFault::BadText, "rules fault 6: a text can't be read"),
];

static ENTRIES: [(EntriesFault, &str); 6] = [
    (
        EntriesFault::NoColumn,
        "entries fault 1: no column of sails in row 1",
    ),
    (
        EntriesFault::BadRow { row: 3 },
        "entries fault 2: no sail in row 3",
    ),
    (
        EntriesFault::BadSail { row: 3 },
        "entries fault 3: bad sail in row 3",
    ),
    (
        EntriesFault::Twice { row: 3 },
        "entries fault 4: sail in row 3 for the second time",
    ),
    (
        EntriesFault::TooMany { row: 502 },
        "entries fault 5: more than 500 sails, from row 502",
    ),
    (EntriesFault::NoMemory, "entries fault 6: no memory"),
];

static JOURNALS: [(JournalFault, &str); 4] = [
    (
        JournalFault::BadLine {
            line: 2,
            fault: LineFault::WrongCount,
        },
        "journal fault 1: line 2: fault 22: wrong number of words",
    ),
    (
        JournalFault::TooMany { line: 8194 },
        "journal fault 2: more than 8192 entries, from line 8194",
    ),
    (JournalFault::NoMemory, "journal fault 3: no memory"),
    (
        JournalFault::BadVersion,
        "journal fault 4: unknown version in line 1",
    ),
];

static RUNS: [(RunFault, &str); 5] = [
    (
        RunFault::Start {
            at: 3,
            refusal: Refusal::AlreadyEntered,
        },
        "entry 3 of the start: refused 6: entered before",
    ),
    (RunFault::Read, "a read failed"),
    (RunFault::Write, "a write failed"),
    (
        RunFault::InputTooLong,
        "the input is longer than 1,048,576 bytes",
    ),
    (RunFault::NoMemory, "no memory"),
];

static READS: [(ReadFault, &str); 3] = [
    (ReadFault::Stream, "a read failed"),
    (ReadFault::TooLong, "the text is too long"),
    (ReadFault::NoMemory, "no memory"),
];

static SERVING: [(ServeFault, &str); 3] = [
    (ServeFault::Door, "the door failed"),
    (ServeFault::Thread, "no thread, or a seat didn't come back"),
    (ServeFault::NoMemory, "no memory"),
];

#[test]
fn refusals_and_faults_have_their_texts(rt: HostRuntime) -> Result<(), Fail> {
    let alloc = rt.alloc();
    assert!(rt; are_printed(alloc, &REFUSALS)?);
    assert!(rt; are_printed(alloc, &LINES)?);
    assert!(rt; are_printed(alloc, &RULES)?);
    assert!(rt; are_printed(alloc, &ENTRIES)?);
    assert!(rt; are_printed(alloc, &JOURNALS)?);
    assert!(rt; are_printed(alloc, &RUNS)?);
    assert!(rt; are_printed(alloc, &READS)?);
    assert!(rt; are_printed(alloc, &SERVING)?);
    assert!(rt; are_printed(alloc, &[(DoorFault, "the door failed")])?);
    Ok(())
}
