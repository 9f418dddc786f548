//! What the program says of each fault, and its status: no contract says so.

use super::*;
use regatta_arguments::Stop;
use regatta_office::{Complaint, DoorFault, OpenFault, ServeFault};
use regatta_preview::PreviewFault;
use regatta_streams::ReadFault;
use regatta_tables::{EntriesFault, JournalFault};
use regatta_terms::{LineFault, Refusal, RulesFault};
use std::alloc::AllocError;
use std::io::ErrorKind;

static TEXTS: [(Complaint, &str, u8); 7] = [
    (Complaint::Rules { number: 6 }, "regatta: rules fault 6", 2),
    (
        Complaint::Entries {
            number: 5,
            row: 502,
        },
        "regatta: entries fault 5 row 502",
        1,
    ),
    (
        Complaint::Journal {
            number: 2,
            line: 8194,
        },
        "regatta: journal fault 2 line 8194",
        1,
    ),
    (
        Complaint::Start { number: 15, at: 9 },
        "regatta: start refused 15 at 9",
        1,
    ),
    (Complaint::TooLong, "regatta: input too long", 1),
    (Complaint::Device, "regatta: device fault", 3),
    (Complaint::NoMemory, "regatta: no memory", 3),
];

#[test]
fn complaints_have_their_texts_and_statuses(rt: HostRuntime) -> Result<(), Fail> {
    for (complaint, text, status) in &TEXTS {
        let said = format!(in rt.alloc(); "{complaint}")?;
        assert_eq!(rt; said.as_str(), *text);
        assert_eq!(rt; complaint.status(), *status);
    }
    Ok(())
}

static RUNS: [(RunFault, Complaint); 5] = [
    (
        RunFault::Start {
            at: 3,
            refusal: Refusal::AlreadyEntered,
        },
        Complaint::Start { number: 6, at: 3 },
    ),
    (RunFault::Read, Complaint::Device),
    (RunFault::Write, Complaint::Device),
    (RunFault::InputTooLong, Complaint::TooLong),
    (RunFault::NoMemory, Complaint::NoMemory),
];

static PREVIEWS: [(PreviewFault, Complaint); 5] = [
    (
        PreviewFault::Start {
            at: 3,
            refusal: Refusal::AlreadyEntered,
        },
        Complaint::Start { number: 6, at: 3 },
    ),
    (PreviewFault::Read, Complaint::Device),
    (PreviewFault::Write, Complaint::Device),
    (PreviewFault::InputTooLong, Complaint::TooLong),
    (PreviewFault::NoMemory, Complaint::NoMemory),
];

static STOPS: [(Stop, Complaint); 3] = [
    (Stop::TooLong, Complaint::TooLong),
    (Stop::Device, Complaint::Device),
    (Stop::NoMemory, Complaint::NoMemory),
];

static READS: [(ReadFault, Stop); 3] = [
    (ReadFault::Stream, Stop::Device),
    (ReadFault::TooLong, Stop::TooLong),
    (ReadFault::NoMemory, Stop::NoMemory),
];

static KINDS: [(ErrorKind, Stop); 2] = [
    (ErrorKind::OutOfMemory, Stop::NoMemory),
    (ErrorKind::NotFound, Stop::Device),
];

static RULES: [(RulesFault, Complaint); 1] = [(
    RulesFault::NotRising,
    Complaint::Rules { number: 3 },
)];

static ENTRIES: [(EntriesFault, Complaint); 2] = [
    (
        EntriesFault::TooMany { row: 502 },
        Complaint::Entries {
            number: 5,
            row: 502,
        },
    ),
    (EntriesFault::NoMemory, Complaint::NoMemory),
];

static JOURNALS: [(JournalFault, Complaint); 4] = [
    (
        JournalFault::BadLine {
            line: 7,
            fault: LineFault::NoSuchWord,
        },
        Complaint::Journal { number: 1, line: 7 },
    ),
    (
        JournalFault::TooMany { line: 8194 },
        Complaint::Journal {
            number: 2,
            line: 8194,
        },
    ),
    (
        JournalFault::BadVersion,
        Complaint::Journal { number: 4, line: 1 },
    ),
    (JournalFault::NoMemory, Complaint::NoMemory),
];

static OPENINGS: [(OpenFault, Complaint); 4] = [
    (
        OpenFault::Refused {
            at: 2,
            refusal: Refusal::AlreadyEntered,
        },
        Complaint::Start { number: 6, at: 2 },
    ),
    (OpenFault::BadSeats, Complaint::Device),
    (OpenFault::NoReader, Complaint::Device),
    (OpenFault::NoMemory, Complaint::NoMemory),
];

static SERVINGS: [(ServeFault, Complaint); 3] = [
    (ServeFault::Door, Complaint::Device),
    (ServeFault::Thread, Complaint::Device),
    (ServeFault::NoMemory, Complaint::NoMemory),
];

/// Whether each of these faults becomes the complaint, or the cause, beside it.
fn are_complaints<F: Copy + Into<C>, C: PartialEq + Drop>(cases: &[(F, C)]) -> bool {
    for (fault, wanted) in cases {
        let found: C = (*fault).into();
        if found != *wanted {
            return false;
        }
    }
    true
}

#[test]
fn faults_have_their_complaints(rt: HostRuntime) {
    assert!(rt; are_complaints(&RUNS));
    assert!(rt; are_complaints(&PREVIEWS));
    assert!(rt; are_complaints(&STOPS));
    assert!(rt; are_complaints(&READS));
    assert!(rt; are_complaints(&KINDS));
    assert!(rt; are_complaints(&RULES));
    assert!(rt; are_complaints(&ENTRIES));
    assert!(rt; are_complaints(&JOURNALS));
    assert!(rt; are_complaints(&OPENINGS));
    assert!(rt; are_complaints(&SERVINGS));
    assert!(rt; are_complaints(&[(AllocError, Complaint::NoMemory)]));
    assert!(rt; are_complaints(&[(DoorFault, Complaint::Device)]));
}
