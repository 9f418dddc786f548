ghost use Rattle.std.specs.Prelude.{◌<◌};

use super::*;
use crate::{Streams, status_of};
use regatta_tables::read_journal;
use regatta_terms::Refusal;

/// A run without a start: its text, and what it writes.
struct Talk {
    text: &'static str,
    written: &'static str,
}

static TALKS: [Talk; 9] = [
    Talk {
        text: "SHOW",
        written: "JOURNAL 0\nTABLE 0 RACES\nEND\nTABLE 0 RACES\n",
    },
    Talk {
        text: "ENTER C\nENTER A\nENTER B\n",
        written: "OK 1 1 0.0\nOK 2 1= 0.0\nOK 3 1= 0.0\n\
            TABLE 3 RACES\n1= A 0.0\n1= B 0.0\n1= C 0.0\n",
    },
    Talk {
        text: "ENTER A\nENTER B\nENTER C\nFINISH 1 A\nTIE 1 B A\nFINISH 1 C\nSCORE 1\n",
        written: "OK 1 1 0.0\nOK 2 1= 0.0\nOK 3 1= 0.0\nOK 4 1= 0.0\nOK 5 1= 0.0\nOK 6 1= 0.0\n\
            OK 7\nTABLE 3 RACES 1\n1= A 1.5 1.5\n1= B 1.5 1.5\n3 C 3.0 3.0\n",
    },
    Talk {
        text: "ENTER A\nENTER B\nENTER C\nFINISH 1 A\nTIE 1 B A\nFINISH 1 C\nSCORE 1\nROLE JURY\n\
            MARK 1 A DSQ\n",
        written: "OK 1 1 0.0\nOK 2 1= 0.0\nOK 3 1= 0.0\nOK 4 1= 0.0\nOK 5 1= 0.0\nOK 6 1= 0.0\n\
            OK 7\nROLE JURY\nOK 8 3 4.0\n\
            TABLE 3 RACES 1\n1 B 1.0 1.0\n2 C 2.0 2.0\n3 A 4.0 4.0/DSQ\n",
    },
    Talk {
        text: "ENTER A\nENTER B\nENTER C\nFINISH 1 A\nFINISH 1 B\nMARK 1 C DNF\nSCORE 1\nENTER D\n",
        written: "OK 1 1 0.0\nOK 2 1= 0.0\nOK 3 1= 0.0\nOK 4 1= 0.0\nOK 5 1= 0.0\nOK 6 1= 0.0\n\
            OK 7\nOK 8 3= 5.0\n\
            TABLE 4 RACES 1\n1 A 1.0 1.0\n2 B 2.0 2.0\n3= C 5.0 5.0/DNF\n3= D 5.0 5.0/DNC\n",
    },
    Talk {
        text: "ENTER A\nENTER B\nENTER C\nFINISH 1 A\nTIE 1 B A\nFINISH 1 C\nSCORE 1\nROLE JURY\n\
            MARK 1 A DSQ\nROLE FINISH\nMARK 1 B DSQ\nROLE SCORER\nMARK 1 A RET\n",
        written: "OK 1 1 0.0\nOK 2 1= 0.0\nOK 3 1= 0.0\nOK 4 1= 0.0\nOK 5 1= 0.0\nOK 6 1= 0.0\n\
            OK 7\nROLE JURY\nOK 8 3 4.0\nROLE FINISH\nNO 4\nROLE SCORER\nNO 10\n\
            TABLE 3 RACES 1\n1 B 1.0 1.0\n2 C 2.0 2.0\n3 A 4.0 4.0/DSQ\n",
    },
    Talk {
        text: "ENTER A\nENTER B\nFINISH 1 B\nFINISH 1 A\nSCORE 1\n",
        written: "OK 1 1 0.0\nOK 2 1= 0.0\nOK 3 1= 0.0\nOK 4 1= 0.0\nOK 5\n\
            TABLE 2 RACES 1\n1 B 1.0 1.0\n2 A 2.0 2.0\n",
    },
    Talk {
        text: "ENTER A\nENTER B\nFINISH 1 A\nSCORE 1\n",
        written: "OK 1 1 0.0\nOK 2 1= 0.0\nOK 3 1= 0.0\nOK 4\n\
            TABLE 2 RACES 1\n1 A 1.0 1.0\n2 B 3.0 3.0/DNC\n",
    },
    Talk {
        text: "ENTER A\nENTER A\nFINISH 1 B\nTIE 1 A A\nSTRIKE 1 A\nSCORE 1\nUNSCORE 1\n\
            CLEAR 1 A\nFINISH 1 A\nFINISH 1 A\nTIE 1 A A\nSCORE 1\nSCORE 1\nMARK 1 A DSQ\n\
            ROLE JURY\nMARK 1 A DSQ\nREDRESS 1 A ALL\nPENALTY 1 A ZFP\nROLE SCORER\nCLEAR 1 A\n\
            RANK A\nRANK B\nROLE JURY\nCLEAR 1 A\nREDRESS 1 A 2.5\nREDRESS 1 A ALL\nQUIT\n\
            ENTER C\n",
        written: "OK 1 1 0.0\nNO 6\nNO 7\nNO 9\nNO 9\nNO 15\nNO 14\nNO 12\nOK 2 1 0.0\nNO 8\n\
            NO 8\nOK 3\nNO 13\nNO 4\nROLE JURY\nOK 4 1 2.0\nNO 10\nNO 10\nROLE SCORER\nNO 10\n\
            RANK 1 2.0\nNO 7\nROLE JURY\nOK 5 1 1.0\nOK 6 1 2.5\nNO 10\nBYE\n\
            TABLE 1 RACES 1\n1 A 2.5 2.5/RDG\n",
    },
];

/// How a run over these tapes ends. It has no contract, so that its callers are proved quickly.
fn end_of(
    alloc: Global,
    input: &mut Tape,
    output: &mut Tape,
    start: &[Entry],
) -> Result<(), RunFault> {
    replay(alloc, input, output, &default_rules(), start, Form::Table)
}

/// What a run over memory writes for a text that it reads in pieces of `piece` bytes, and how it ends.
fn replayed(
    alloc: Global,
    text: &[u8],
    piece: usize,
    start: &[Entry],
) -> Result<(Tape, Result<(), RunFault>), Fail>
    requires { 0 < piece }
{
    let mut input = Tape::new(alloc, text, piece, PLENTY, 0)?;
    let mut output = Tape::new(alloc, b"", 1, 0, 1000)?;
    let ended = end_of(alloc, &mut input, &mut output, start);
    Ok((output, ended))
}

/// Whether a run over this text, in pieces of `piece` bytes, succeeds and writes this.
fn says(alloc: Global, text: &[u8], piece: usize, written: &[u8]) -> Result<bool, Fail>
    requires { 0 < piece }
{
    let (output, ended) = replayed(alloc, text, piece, &[])?;
    Ok(ended == Ok(()) && output.written() == written)
}

#[test]
fn lines_are_answered_and_the_table_is_printed(rt: HostRuntime) -> Result<(), Fail> {
    for talk in &TALKS {
        for piece in [1, 7, 5000] {
            let (text, written) = (talk.text.as_bytes(), talk.written.as_bytes());
            assert!(rt; says(rt.alloc(), text, piece, written)?, "at {}", talk.text);
        }
    }
    Ok(())
}

/// A start that replays, under default rules: how the run of one line ends, and what it writes.
struct Started {
    start: &'static [u8],
    how: Result<(), RunFault>,
    written: &'static str,
}

/// A seat whose number is the greatest has no next one; a jury may not enter a boat.
static STARTED: [Started; 2] = [
    Started {
        start: b"1 4294967295 SCORER ENTER A\n",
        how: Ok(()),
        written: "NO 3\nTABLE 1 RACES\n1 A 0.0\n",
    },
    Started {
        start: b"1 1 JURY ENTER A\n",
        how: Err(RunFault::Start {
            at: 1,
            refusal: Refusal::NotYours,
        }),
        written: "",
    },
];

/// Whether a run from this start ends so.
fn starts(alloc: Global, run: &Started) -> Result<bool, Fail> {
    let start = read_journal(alloc, run.start).ok().ok_or("a journal")?;
    let entries = start.as_slice();
    let (output, ended) = replayed(alloc, b"ENTER B\n", 7, entries)?;
    Ok(ended == run.how && output.written() == run.written.as_bytes())
}

#[test]
fn a_start_is_replayed_or_refused(rt: HostRuntime) -> Result<(), Fail> {
    for run in &STARTED {
        assert!(rt; starts(rt.alloc(), run)?);
    }
    Ok(())
}

/// The whole program replays lines over memory, and prints the results in the form asked for.
#[test]
fn the_program_replays(rt: HostRuntime) -> Result<(), Fail> {
    let mut streams = Streams::new(rt.alloc(), b"ENTER A\nFINISH 1 A\nSCORE 1\n", PLENTY)?;
    let status = status_of(&rt, &["replay", "--print", "csv"], &mut streams);
    assert_eq!(rt; status, 0);
    let written = "OK 1 1 0.0\nOK 2 1 0.0\nOK 3\nrank,sail,net,R1\n1,A,1.0,1.0\n";
    assert!(rt; streams.has_written(written));
    Ok(())
}
