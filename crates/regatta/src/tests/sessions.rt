//! Sessions one after another at one seat, and a gate that stops one and is told of lines.
ghost use Rattle.std.specs.Prelude.{◌≡◌};

use super::offices::{answered, enter, one_seat, opened_office};
use super::wires::ends_of;
use super::*;
use regatta_office::{
    Device, End, Failures, Foreign, Gate, Office, OfficeName, OpenGate, Opened, Pass, Sink, Source,
    StreamFault, session,
};
use regatta_tables::write_entries;
use regatta_terms::{Command, Refusal};
use std::marker::Brand;
use std::os::unix::net::UnixStream;
use std::sync::atomic::{AtomicU64, Ordering};
use std::sync::{Arc, Wait};

/// Whether the entries of the office's journal are this text.
pub(crate) fn has_journal<N: OfficeName, H: Wait + Drop, R: Wait>(
    rt: &R,
    alloc: Global,
    office: &Office<N, H>,
    journal: &[u8],
) -> bool {
    let desk = office.desk(rt);
    let mut text = Vec::new(alloc);
    let is_written = write_entries(desk.board().entries(), &mut text).is_ok();
    is_written && text.as_slice() == journal
}

/// The place in the journal of a command as scorer through the lock, or its refusal.
pub(crate) fn place_of<N: OfficeName, H: Wait + Drop, R: Wait>(
    rt: &R,
    office: &Office<N, H>,
    pass: &mut Pass<N>,
    command: Command,
) -> Result<u32, Refusal> {
    let receipt = answered(rt, office, pass, command)?;
    Ok(receipt.place())
}

/// What a watcher sends who comes to enter a boat, and goes in mid-line.
static LOOKS_FIRST: &[u8] = b"SHOW\r\nENTER A\nRANK A\nROLE JURY\nNOPE\nENT";

/// The replies to it.
static FIRST_REPLIES: &[u8] = b"JOURNAL 0\nTABLE 0 RACES\nEND\nOK 1 1 0.0\nRANK 1 0.0\nROLE JURY\n\
    NO 21\n";

/// How a session on this pass ends. It has no contract, so that its callers are proved quickly.
fn end_of<N: OfficeName, H: Wait + Drop, R: Wait, S: Source + Sink, G: Gate>(
    rt: &R,
    alloc: Global,
    stream: &mut S,
    office: &Office<N, H>,
    pass: &mut Pass<N>,
    gate: &G,
) -> End {
    session(rt, alloc, stream, office, pass, gate)
}

/// Whether a session on this pass over this text, in small pieces, ends so, and is sent these
/// replies.
pub(crate) fn is_answered<N: OfficeName, H: Wait + Drop, R: Wait>(
    rt: &R,
    alloc: Global,
    office: &Office<N, H>,
    pass: &mut Pass<N>,
    text: &[u8],
    end: End,
    replies: &[u8],
) -> bool {
    match Tape::new(alloc, text, 7, PLENTY, 1000) {
        Ok(mut tape) => {
            let ended = end_of(rt, alloc, &mut tape, office, pass, &OpenGate);
            ended == end && tape.written() == replies
        }
        Err(_) => false,
    }
}

/// Whether two sessions, one after the other, are answered: the second begins as the scorer,
/// whatever the first ended as.
fn are_answered<N: OfficeName, H: Wait + Drop, R: Wait>(
    rt: &R,
    alloc: Global,
    office: &Office<N, H>,
    pass: &mut Pass<N>,
) -> bool {
    let (text, replies) = (b"ENTER B\nQUIT\n", b"OK 2 1= 0.0\nBYE\n");
    is_answered(
        rt,
        alloc,
        office,
        pass,
        LOOKS_FIRST,
        End::Closed,
        FIRST_REPLIES,
    ) && is_answered(rt, alloc, office, pass, text, End::Quit, replies)
}

/// Whether a boat that is entered through the lock is the entry at this place, or is refused so.
fn is_placed<N: OfficeName, H: Wait + Drop, R: Wait>(
    rt: &R,
    office: &Office<N, H>,
    pass: &mut Pass<N>,
    sail: &[u8],
    place: Result<u32, Refusal>,
) -> bool {
    match enter(sail) {
        Some(command) => place_of(rt, office, pass, command) == place,
        None => false,
    }
}

/// Whether the pass is shown as many entries.
fn shows<N: OfficeName>(pass: &mut Pass<N>, entries: usize) -> bool {
    match pass.show() {
        Ok(sheet) => sheet.journal.as_slice().len() == entries,
        Err(_) => false,
    }
}

/// Whether then, through the lock, one command is refused and two are taken, and the sheet has all
/// four entries.
fn runs_on<N: OfficeName, H: Wait + Drop, R: Wait>(
    rt: &R,
    office: &Office<N, H>,
    pass: &mut Pass<N>,
) -> bool {
    is_placed(rt, office, pass, b"A", Err(Refusal::AlreadyEntered))
        && is_placed(rt, office, pass, b"C", Ok(3))
        && is_placed(rt, office, pass, b"D", Ok(4))
        && shows(pass, 4)
}

/// The journal then.
static FOUR_BOATS: &[u8] = b"1 1 SCORER ENTER A\n1 2 SCORER ENTER B\n1 3 SCORER ENTER C\n\
    1 4 SCORER ENTER D\n";

/// Whether two sessions are answered, and commands after them.
fn goes_on<N: OfficeName, H: Wait + Drop, R: Wait>(rt: &R, alloc: Global, opened: Opened<H>) -> bool
    requires { (opened.history ≡ N.history) × (opened.rules ≡ N.rules) }
{
    match one_seat::<N, H>(opened) {
        Some((office, mut pass)) => {
            are_answered(rt, alloc, &office, &mut pass)
                & runs_on(rt, &office, &mut pass)
                & has_journal(rt, alloc, &office, FOUR_BOATS)
        }
        None => false,
    }
}

#[test]
fn the_desk_goes_on_after_two_sessions(rt: HostRuntime) -> Result<(), Fail> {
    let opened = opened_office(&rt, rt.alloc(), 1).ok_or("an office")?;
    assert!(rt; goes_on::<Brand, _, _>(&rt, rt.alloc(), opened));
    Ok(())
}

/// The office's end of a client, which counts its writes.
#[derive(Drop)]
struct Wire {
    stream: Foreign<UnixStream>,
    writes: Arc<AtomicU64, Global>,
    failures: Failures,
    failed_reads: Failures,
}

impl Device for Wire {
    ghost failures = { λ w. w.failures.count };

    ghost failed_reads = { λ w. w.failed_reads.count };
}

impl Source for Wire {
    fn read(&mut self, buf: &mut [u8]) -> Result<usize, StreamFault> {
        match self.stream.read(buf) {
            Ok(count) => Ok(count),
            Err(_) => {
                self.failures = self.failures.one_more();
                self.failed_reads = self.failed_reads.one_more();
                Err(StreamFault)
            }
        }
    }
}

impl Sink for Wire {
    fn write(&mut self, buf: &[u8]) -> Result<usize, StreamFault> {
        match self.stream.write(buf) {
            Ok(taken) => {
                self.writes.fetch_add(1, Ordering::SeqCst);
                Ok(taken)
            }
            Err(_) => {
                self.failures = self.failures.one_more();
                Err(StreamFault)
            }
        }
    }
}

/// Lets the first three lines of a session through. Notes two digits for each line that it is told
/// of: the line's number, and how often the client had been written to.
#[derive(Drop)]
struct Notes {
    writes: Arc<AtomicU64, Global>,
    told: AtomicU64,
}

impl Gate for Notes {
    fn before(&self, _seat: u8, line: u64) -> bool {
        line < 4
    }

    fn after(&self, _seat: u8, line: u64) {
        let earlier = self.told.load(Ordering::SeqCst).wrapping_mul(100);
        let writes = self.writes.load(Ordering::SeqCst);
        let digits = line.wrapping_mul(10).wrapping_add(writes);
        self.told
            .store(earlier.wrapping_add(digits), Ordering::SeqCst);
    }

    fn ended(&self, _seat: u8, _end: End) {}
}

/// The office's end of a client whose own end is this stream's, with a gate that is told of writes.
fn wire_of(stream: UnixStream, gate: &Notes) -> Result<Wire, AllocError> {
    Ok(Wire {
        stream: Foreign::new(stream),
        writes: Arc::try_clone(&gate.writes)?,
        failures: Failures::none(),
        failed_reads: Failures::none(),
    })
}

/// An unknown word, a line that is too long, and two commands.
static FOUR_LINES: &[u8] = b"NOPE\n\
    XXXXXXXXXXXXXXXXXXXXXXXXXXXXXXXXXXXXXXXXXXXXXXXXXXXXXXXXXXXXXXXXXXXXXXXXXXXXXXXXX\n\
    ENTER A\nENTER B\n";

/// Whether a session over the first stream is stopped, and one over the other can't write.
fn are_ended<N: OfficeName, H: Wait + Drop, R: Wait>(
    rt: &R,
    alloc: Global,
    office: &Office<N, H>,
    pass: &mut Pass<N>,
    one: &mut Wire,
    two: &mut Wire,
    gate: &Notes,
) -> bool {
    let first = end_of(rt, alloc, one, office, pass, gate);
    let second = end_of(rt, alloc, two, office, pass, gate);
    first == End::Stopped && second == End::WriteFault
}

/// Whether the sessions of these clients end so, and leave the entries of A and C.
fn are_stopped<N: OfficeName, H: Wait + Drop, R: Wait>(
    rt: &R,
    alloc: Global,
    opened: Opened<H>,
    one: &mut Wire,
    two: &mut Wire,
    gate: &Notes,
) -> bool
    requires { (opened.history ≡ N.history) × (opened.rules ≡ N.rules) }
{
    match one_seat::<N, H>(opened) {
        Some((office, mut pass)) => {
            are_ended(rt, alloc, &office, &mut pass, one, two, gate)
                & has_journal(
                    rt,
                    alloc,
                    &office,
                    b"1 1 SCORER ENTER A\n1 2 SCORER ENTER C\n",
                )
        }
        None => false,
    }
}

/// Whether it is so at an office that is opened for it.
fn is_heeded<R: Wait>(rt: &R, alloc: Global, one: &mut Wire, two: &mut Wire, gate: &Notes) -> bool {
    match opened_office(rt, alloc, 1) {
        Some(opened) => are_stopped::<Brand, _, _>(rt, alloc, opened, one, two, gate),
        None => false,
    }
}

/// Lines that can't be read count, too, and the line that isn't let through changes nothing. The gate
/// is told of each line after its reply, but not if that can't be written: the second client has
/// gone.
#[test]
fn a_gate_stops_a_session_and_is_told_of_replies(rt: HostRuntime) -> Result<(), Fail> {
    let alloc = rt.alloc();
    let (first, _client) = ends_of(&rt, FOUR_LINES)?;
    let (second, gone) = ends_of(&rt, b"ENTER C\n")?;
    drop(gone);
    let gate = Notes {
        writes: Arc::new(alloc, AtomicU64::new(0))?,
        told: AtomicU64::new(0),
    };
    let mut one = wire_of(first, &gate)?;
    let mut two = wire_of(second, &gate)?;
    assert!(rt; is_heeded(&rt, alloc, &mut one, &mut two, &gate));
    assert_eq!(rt; gate.told.load(Ordering::SeqCst), 112_233);
    Ok(())
}
