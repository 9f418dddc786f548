//! Replays, the program and serving.
ghost use Rattle.std.specs.Prelude.{◌≡◌};

use super::super::offices::opened_office;
use super::super::serving::{Served, leaves};
use super::super::wires::{Wires, door_of, was_sent};
use super::*;
use regatta_office::{Form, OfficeName, OpenGate, Opened, RunFault, ServeFault, replay, serve};
use std::io::Read;
use std::marker::Brand;
use std::net::{Net, TcpListener, TcpStream};
use std::sync::Wait;
use std::thread::Threads;
use std::time::Clock;

/// A race of two boats.
static LINES: &[u8] = b"ENTER A\nENTER B\nFINISH 1 B\nFINISH 1 A\nSCORE 1\n";

static REPLIES: &[u8] = b"OK 1 1 0.0\nOK 2 1= 0.0\nOK 3 1= 0.0\nOK 4 1= 0.0\nOK 5\n";

static TABLE: &[u8] = b"TABLE 2 RACES 1\n1 B 1.0 1.0\n2 A 2.0 2.0\n";

/// Whether these are whole replies to some first lines.
fn are_first_replies(written: &[u8]) -> bool {
    REPLIES.starts_with(written) && (written.is_empty() || written.ends_with(b"\n"))
}

/// Whether these are all replies and the table.
fn is_whole(written: &[u8]) -> bool {
    written.starts_with(REPLIES)
        && written.ends_with(TABLE)
        && written.len() == REPLIES.len() + TABLE.len()
}

/// The outcome of a replay over these tapes with `bytes` bytes left. After a refusal whole replies
/// were written, and no final part.
fn replay_over(
    alloc: Global,
    hoard: &mut Hoard,
    bytes: usize,
    input: &mut Tape,
    output: &mut Tape,
) -> Outcome {
    hoard.leave(bytes);
    let ended = replay(alloc, input, output, &default_rules(), &[], Form::Table);
    hoard.give_back();
    match ended {
        Ok(()) => ordinary_if(is_whole(output.written())),
        Err(RunFault::NoMemory) => out_of_memory_if(are_first_replies(output.written())),
        Err(_) => Outcome::Other,
    }
}

/// The same, over tapes that are made for it.
pub(super) fn replay_outcome(alloc: Global, hoard: &mut Hoard, bytes: usize) -> Outcome {
    match (
        Tape::new(alloc, LINES, 7, PLENTY, 0),
        Tape::new(alloc, b"", 7, 0, 400),
    ) {
        (Ok(mut input), Ok(mut output)) => {
            replay_over(alloc, hoard, bytes, &mut input, &mut output)
        }
        _ => Outcome::Other,
    }
}

/// What the program is called with, and how it ends: its status, whether it writes all replies and
/// the table, and what it says on standard error.
#[derive(Drop)]
struct Words {
    words: &'static [&'static str],
    status: u8,
    writes: bool,
    says: &'static [u8],
}

/// The outcome of a run of the program by its status, what it wrote, and what it said. After a refusal
/// whole replies were written, and nothing else.
fn run_outcome(call: &Words, status: u8, written: &[u8], said: &[u8]) -> Outcome {
    if status == 3 && said == b"regatta: no memory\n".as_slice() {
        return out_of_memory_if(are_first_replies(written));
    }
    let is_written = if call.writes {
        is_whole(written)
    } else {
        written.is_empty()
    };
    ordinary_if(is_written && status == call.status && said == call.says)
}

/// The outcome of a run of the program with `bytes` bytes left.
fn program_outcome<R>(rt: &R, hoard: &mut Hoard, bytes: usize, call: &Words) -> Outcome
where
    R: Files<File = File>
        + AllocGlobal
        + Threads
        + Wait
        + Net<Listener = TcpListener, Stream = TcpStream>
        + Clock
        + Sync,
    R::Dir: Send + Sync,
{
    let Ok(mut streams) = Streams::new(rt.alloc(), LINES, 4000) else {
        return Outcome::Other;
    };
    hoard.leave(bytes);
    let status = status_of(rt, call.words, &mut streams);
    hoard.give_back();
    run_outcome(
        call,
        status,
        streams.output.written(),
        streams.errors.written(),
    )
}

/// How many runs of the program go through the bytes by units, before these jump to the next room:
/// 32 KiB, since reading its arguments allocates as well.
const PROGRAM_FINE_RUNS: usize = 2048;

/// Whether a run of the program is refused first. It goes by no `Caller`: of a runtime in a trait no
/// proof knows that threads may share it.
fn is_run_refused<R>(rt: &R, hoard: &mut Hoard, call: &Words) -> bool
where
    R: Files<File = File>
        + AllocGlobal
        + Threads
        + Wait
        + Net<Listener = TcpListener, Stream = TcpStream>
        + Clock
        + Sync,
    R::Dir: Send + Sync,
{
    for run in 0..MOST_RUNS {
        let outcome = program_outcome(rt, hoard, bytes_left(run, PROGRAM_FINE_RUNS), call);
        if let Some(passed) = hoard.verdict(outcome) {
            return passed;
        }
    }
    false
}

/// Whether these runs of the program are refused first. With a sanitizer's heap none is made. It goes
/// on after a run that fails: a way out of the loop would be one more that is proved to give the
/// hoard back.
fn are_runs_refused<R>(rt: &R, calls: &[Words]) -> bool
where
    R: Files<File = File>
        + AllocGlobal
        + Threads
        + Wait
        + Net<Listener = TcpListener, Stream = TcpStream>
        + Clock
        + Sync,
    R::Dir: Send + Sync,
{
    let is_sanitized = is_sanitized(rt);
    match Hoard::new(rt.alloc()) {
        Ok(Some(mut hoard)) => {
            let mut passed = true;
            for call in calls {
                passed = is_run_refused(rt, &mut hoard, call) && passed;
            }
            passed
        }
        Ok(None) => is_sanitized,
        Err(_) => false,
    }
}

/// A path at which no socket can be made.
const NOWHERE: &str = "/no/such/folder/race.sock";

/// A replay; and a run that serves, which reads its arguments, opens and splits an office, and finds
/// that its socket can't be made.
static RUNS: [Words; 2] = [
    Words {
        words: &["replay"],
        status: 0,
        writes: true,
        says: b"",
    },
    Words {
        words: &["serve", "--socket", NOWHERE, "--clients", "2"],
        status: 3,
        writes: false,
        says: b"regatta: device fault\n",
    },
];

#[test]
fn the_program_runs_out_of_memory(rt: HostRuntime) {
    assert!(rt; are_runs_refused(&rt, &RUNS));
}

/// The fault by which serving one client ends with `bytes` bytes left.
fn serve_at<N, H, R>(
    rt: &R,
    alloc: Global,
    hoard: &mut Hoard,
    bytes: usize,
    opened: Opened<H>,
    door: &mut Wires,
) -> Option<ServeFault>
where
    N: OfficeName + Send + Sync,
    H: Wait + Drop + Send,
    R: Threads + Wait + Net + Clock + Sync,
    requires { (opened.history ≡ N.history) × (opened.rules ≡ N.rules) }
{
    match opened.split::<N>() {
        Ok((office, passes)) => {
            hoard.leave(bytes);
            let served = serve(rt, alloc, &office, door, passes, &OpenGate);
            hoard.give_back();
            served.err()
        }
        Err(_) => None,
    }
}

/// The same, at an office that is opened for it.
fn serve_once<R: Threads + Wait + Net + Clock + Sync>(
    rt: &R,
    alloc: Global,
    hoard: &mut Hoard,
    bytes: usize,
    door: &mut Wires,
) -> Option<ServeFault> {
    match opened_office(rt, alloc, 1) {
        Some(opened) => serve_at::<Brand, _, _>(rt, alloc, hoard, bytes, opened, door),
        None => None,
    }
}

/// What a client is refused for lack of memory: the whole serving, or a thread of their own.
#[derive(Clone, Copy, PartialEq, Eq)]
enum Refused {
    Serving,
    Thread,
}

/// What a client is refused with `bytes` bytes left. If there is no thread, the client gets `BUSY`,
/// and serving goes on. The client sends nothing, so that nothing unread resets the stream.
fn refused_at<R: Threads + Wait + Net + Clock + Sync>(
    rt: &R,
    alloc: Global,
    hoard: &mut Hoard,
    bytes: usize,
) -> Result<Option<Refused>, Fail> {
    let (mut door, mut theirs) = door_of(rt, alloc, b"")?;
    let fault = serve_once(rt, alloc, hoard, bytes, &mut door);
    drop(door);
    let mut replies = Vec::new(alloc);
    let _ = theirs.read_to_end(&mut replies);
    Ok(match fault {
        Some(ServeFault::NoMemory) if replies.is_empty() => Some(Refused::Serving),
        None if replies.as_slice() == b"BUSY\n".as_slice() => Some(Refused::Thread),
        _ => None,
    })
}

/// Whether serving is refused its memory, and then its thread, with each allocation refused first.
fn is_serving_refused<R: Threads + Wait + Net + Clock + Sync>(
    rt: &R,
    alloc: Global,
    hoard: &mut Hoard,
) -> Result<bool, Fail> {
    let (mut memory, mut threads) = (0u32, 0u32);
    for turn in 0..512 {
        match refused_at(rt, alloc, hoard, bytes_left(turn, FINE_RUNS))? {
            Some(Refused::Serving) => memory = memory.saturating_add(1),
            Some(Refused::Thread) => threads = threads.saturating_add(1),
            None => return Ok(false),
        }
    }
    Ok(hoard.has_left() && 0 < memory && 0 < threads)
}

/// The same, with a hoard of its own. With a sanitizer's heap it isn't tried.
fn is_refused<R>(rt: &R) -> Result<bool, Fail>
where
    R: Files<File = File>
        + AllocGlobal
        + Threads
        + Wait
        + Net<Listener = TcpListener, Stream = TcpStream>
        + Clock
        + Sync,
    R::Dir: Send + Sync,
{
    let (alloc, is_sanitized) = (rt.alloc(), is_sanitized(rt));
    match Hoard::new(alloc)? {
        Some(mut hoard) => is_serving_refused(rt, alloc, &mut hoard),
        None => Ok(is_sanitized),
    }
}

/// If all memory is taken, there is no thread, so no session begins that could run out of memory.
/// With ample memory the client is served.
#[test]
fn serving_runs_out_of_memory(rt: HostRuntime) -> Result<(), Fail> {
    let alloc = rt.alloc();
    assert!(rt; is_refused(&rt)?);
    let (mut door, mut end) = door_of(&rt, alloc, b"ENTER A\n")?;
    let left = Served {
        passes: 1,
        journal: b"1 1 SCORER ENTER A\n",
    };
    assert!(rt; leaves(&rt, alloc, 1, &mut door, &OpenGate, &left));
    assert!(rt; was_sent(alloc, &mut end, b"OK 1 1 0.0\n"));
    Ok(())
}
