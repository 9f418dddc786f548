//! The office's end of a client's socket.
ghost use Rattle.std.specs.Prelude.{◌≡◌};

use crate::stopping::{Stopping, read_patiently};
use crate::writing::write_again;
use std::io;
use std::io::{Read, Write};
use std::net::Shutdown;
use std::os::unix::net::UnixStream;
use std::time::Duration;

/// The text of `Reply::Busy`, for a client who can't be served.
pub(crate) const BUSY: &[u8] = b"BUSY\n";

/// The most bytes that one read asks for.
const PIECE: usize = 4096;

/// How long a write to a client may wait, in seconds. A write that was taken in part succeeds, so a
/// client who never reads loses their seat after at most twice as long.
const WRITE_LIMIT: u64 = 60;

/// How long a read may wait before it looks whether the office has stopped, in seconds.
const READ_LIMIT: u64 = 1;

/// What ends a connection, by a handle of its own to the client's socket.
///
/// If a Unix socket is closed with unread bytes, the client's connection is reset, and the client
/// may not see how its session ended. So when this is dropped, the socket is shut and what came
/// before is read. The client then reads its replies and the end of the stream.
struct Ending {
    socket: UnixStream,
}

impl Ending {
    /// What ends the connection over this socket. `None` if the system gives no second handle, for
    /// example because no descriptor is left.
    fn of(socket: &UnixStream) -> Option<Ending> {
        let socket = socket.try_clone().ok()?;
        Some(Ending { socket })
    }
}

/// Tells a client for whom the system has no descriptor that there is no seat, and ends the
/// connection. Whether the client reads it changes nothing.
pub(crate) fn refuse(socket: UnixStream) {
    let mut ending = Ending { socket };
    let _ = ending.socket.write_all(BUSY);
}

impl Drop for Ending {
    fn drop(self) {
        let Ending { mut socket } = self;
        if socket.shutdown(Shutdown::Both).is_ok() {
            read_rest(&mut socket);
        }
    }
}

/// Sets the time limits of a socket: that of its writes, and that of its reads if the office may stop.
/// The result is false if the system sets none.
fn set_limits(socket: &UnixStream, stops: bool) -> bool {
    let limit = Duration::from_secs(WRITE_LIMIT);
    if socket.set_write_timeout(Some(limit)).is_err() {
        return false;
    }
    if !stops {
        return true;
    }
    let limit = Duration::from_secs(READ_LIMIT);
    socket.set_read_timeout(Some(limit)).is_ok()
}

/// The connection over a socket that was accepted. `None` if the system gives no second descriptor
/// for it, or no time limits; the client is then turned away. With `stopping`, its reads fail once
/// the office has stopped.
pub(crate) fn connection_of(
    socket: UnixStream,
    stopping: Option<Stopping>,
) -> Option<Connection<UnixStream>> {
    match Ending::of(&socket) {
        Some(ending) if set_limits(&socket, stopping.is_some()) => {
            Some(Connection::new(socket, ending, stopping))
        }
        _ => {
            refuse(socket);
            None
        }
    }
}

/// Reads what came before the socket was shut. It never waits, since no more can come.
fn read_rest(socket: &mut UnixStream) {
    let mut unread = [0; PIECE];
    for _ in 0..u64::MAX {
        match socket.read(&mut unread) {
            Ok(0) | Err(_) => return,
            Ok(_) => {}
        }
    }
}

/// The office's end of a client's socket, or of another such stream. It passes that stream's bytes
/// through, and ends the connection when it is dropped.
#[derive(Drop)]
pub struct Connection<S> {
    stream: S,
    ending: Ending,
    stopping: Option<Stopping>,
}

impl<S> Connection<S> {
    /// The connection that was accepted.
    fn new(stream: S, ending: Ending, stopping: Option<Stopping>) -> Connection<S>
        ensures { result.stream ≡ stream }
    {
        Connection {
            stream,
            ending,
            stopping,
        }
    }
}

impl<S: Read> Read for Connection<S> {
    ghost remaining = { λ connection. S.remaining connection.stream };

    fn read(&mut self, buf: &mut [u8]) -> io::Result<usize> {
        match &self.stopping {
            Some(stopping) => read_patiently(&mut self.stream, stopping, buf),
            None => self.stream.read(buf),
        }
    }
}

impl<S: Write> Write for Connection<S> {
    ghost contents = { λ connection. S.contents connection.stream };

    fn write(&mut self, buf: &[u8]) -> io::Result<usize> {
        write_again(&mut self.stream, buf)
    }

    fn flush(&mut self) -> io::Result<()> {
        self.stream.flush()
    }
}
