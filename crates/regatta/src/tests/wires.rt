//! Clients made beforehand: their streams, a door that gives them, and a gate that holds one line
//! back.

use super::*;
use regatta_office::{Device, Door, DoorFault, End, Failures, Foreign, Gate};
use std::io::{Read, Write};
use std::net::{Net, Shutdown};
use std::os::unix::net::UnixStream;
use std::sync::Wait;
use std::sync::atomic::{AtomicU64, Ordering};
use std::time::Clock;

/// How often a line that is held back is checked before it is given up.
const MOST_TURNS: u64 = 500_000_000;

/// The office's end of a client who sends this text and no more, and the client's own end.
pub(crate) fn ends_of<R: Net>(rt: &R, text: &[u8]) -> Result<(UnixStream, UnixStream), Fail> {
    let (ours, mut theirs) = UnixStream::pair(rt).ok().ok_or("a pair of sockets")?;
    theirs.write_all(text).ok().ok_or("a write")?;
    theirs.shutdown(Shutdown::Write).ok().ok_or("an end")?;
    Ok((ours, theirs))
}

/// Whether a client was sent this text, and then the end of the stream.
pub(crate) fn was_sent(alloc: Global, theirs: &mut UnixStream, text: &[u8]) -> bool {
    let mut found = Vec::new(alloc);
    theirs.read_to_end(&mut found).is_ok() && found.as_slice() == text
}

/// A door that gives these clients, the last of them first, and then closes.
#[derive(Drop)]
pub(crate) struct Wires {
    clients: Vec<Foreign<UnixStream>>,
    given: Failures,
    is_closed: bool,
}

impl Wires {
    fn new(clients: Vec<Foreign<UnixStream>>) -> Wires {
        Wires {
            clients,
            given: Failures::none(),
            is_closed: false,
        }
    }
}

/// A door that gives one client, who sends this text, and the client's own end.
pub(crate) fn door_of<R: Net>(
    rt: &R,
    alloc: Global,
    text: &[u8],
) -> Result<(Wires, UnixStream), Fail> {
    let (ours, theirs) = ends_of(rt, text)?;
    let clients = vec![in alloc; Foreign::new(ours)]?;
    Ok((Wires::new(clients), theirs))
}

/// A door that gives two clients, and the clients' own ends. The first enters A and quits; the other
/// enters B and closes the stream.
pub(crate) fn door_of_two<R: Net>(rt: &R, alloc: Global) -> Result<(Wires, [UnixStream; 2]), Fail> {
    let (one, first) = ends_of(rt, b"ENTER A\nQUIT\n")?;
    let (two, second) = ends_of(rt, b"ENTER B\n")?;
    let clients = vec![in alloc; Foreign::new(two), Foreign::new(one)]?;
    Ok((Wires::new(clients), [first, second]))
}

impl Device for Wires {
    ghost failures = { λ _. 0 };
}

impl Door for Wires {
    ghost given = { λ d. d.given.count };

    ghost closed = { λ d. d.is_closed };

    type Stream = Foreign<UnixStream>;

    fn next<R: Wait + Clock>(&mut self, _rt: &R) -> Result<Option<Foreign<UnixStream>>, DoorFault> {
        if let Some(client) = self.clients.pop() {
            self.given = self.given.one_more();
            return Ok(Some(client));
        }
        self.is_closed = true;
        Ok(None)
    }
}

/// A gate that holds line 1 of seat 1 until line 1 of seat 2 was answered, and keeps how sessions
/// ended.
#[derive(Drop)]
pub(crate) struct Hold {
    second: AtomicU64,
    ends: AtomicU64,
}

impl Hold {
    pub(crate) fn new() -> Hold {
        Hold {
            second: AtomicU64::new(0),
            ends: AtomicU64::new(0),
        }
    }

    /// How sessions ended: the sum of a digit for each, ten times as much for another seat than 1.
    pub(crate) fn ends(&self) -> u64 {
        self.ends.load(Ordering::SeqCst)
    }
}

/// How a session ended, as a digit.
fn digit(end: End) -> u64 {
    match end {
        End::Quit => 1,
        End::Closed => 2,
        End::ReadFault => 3,
        End::WriteFault => 4,
        End::Stopped => 5,
        End::NoMemory => 6,
        End::NotKept => 7,
    }
}

/// Whether the count stops being 0, within as many looks as there may be.
fn comes(count: &AtomicU64) -> bool {
    for _ in 0..MOST_TURNS {
        if count.load(Ordering::SeqCst) != 0 {
            return true;
        }
    }
    false
}

impl Gate for Hold {
    fn before(&self, seat: u8, line: u64) -> bool {
        (seat, line) != (1, 1) || comes(&self.second)
    }

    fn after(&self, seat: u8, line: u64) {
        if seat == 2 && line == 1 {
            self.second.fetch_add(1, Ordering::SeqCst);
        }
    }

    fn ended(&self, seat: u8, end: End) {
        let place = if seat == 1 { 1u64 } else { 10 };
        self.ends
            .fetch_add(digit(end).wrapping_mul(place), Ordering::SeqCst);
    }
}
