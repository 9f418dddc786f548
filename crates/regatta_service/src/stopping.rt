//! Silent clients of an office that has stopped.
ghost use Rattle.std.specs.Prelude.{◌≡◌, None, IfSome};
ghost use Rattle.std.specs.Io.{ReadsAtMost};
ghost use Rattle.std.specs.Io.KnownBytes.{Keeps, ReadConsumes};

use std::alloc::{AllocError, Global};
use std::io;
use std::io::{ErrorKind, Read};
use std::sync::Arc;
use std::sync::atomic::{AtomicBool, Ordering};

/// Shows a door and its streams that the office has stopped. The door then fails within a second, and
/// so does a read that waits for a client. No contract says so.
#[derive(Drop)]
pub struct Stopping {
    flag: Arc<AtomicBool, Global>,
}

impl Stopping {
    /// Nothing has stopped yet.
    ///
    /// # Errors
    ///
    /// If memory runs out.
    pub(crate) fn new(alloc: Global) -> Result<Stopping, AllocError> {
        let flag = Arc::new(alloc, AtomicBool::new(false))?;
        Ok(Stopping { flag })
    }

    /// A second handle.
    pub(crate) fn share(&self) -> Option<Stopping> {
        let flag = Arc::try_clone(&self.flag).ok()?;
        Some(Stopping { flag })
    }

    /// Ends the waiting for clients and for their lines.
    pub fn stop(&self) {
        self.flag.store(true, Ordering::SeqCst);
    }

    /// Whether the office has stopped.
    pub(crate) fn is_set(&self) -> bool {
        self.flag.load(Ordering::SeqCst)
    }
}

/// Whether a call that failed may just be made again: its time limit has passed, or a signal has
/// ended it.
pub(crate) fn passes(why: &io::Error) -> bool {
    matches!(why.kind(), ErrorKind::WouldBlock | ErrorKind::Interrupted)
}

/// Reads once, unless the office has stopped. `None` if nothing has come, and the read may be made again.
fn read_once<S: Read>(
    stream: &mut S,
    stopping: &Stopping,
    buf: &mut [u8],
) -> Option<io::Result<usize>>
    ensures bound { IfSome result (λ read. ReadsAtMost read buf.new) }
    ensures bytes { IfSome result (λ read. ReadConsumes (S.remaining stream.old)
        (S.remaining stream.new) read buf.new) }
    ensures keeps { result ≡ None → Keeps (S.remaining stream.old) (S.remaining stream.new) }
{
    // A client who goes on sending doesn't hold an office that has stopped.
    if stopping.is_set() {
        return Some(Err(io::Error::from(ErrorKind::TimedOut)));
    }
    match stream.read(buf) {
        Ok(count) => Some(Ok(count)),
        Err(why) => {
            if passes(&why) {
                return None;
            }
            Some(Err(why))
        }
    }
}

/// Reads from a stream whose reads have a time limit, however often that passes, until the office
/// has stopped.
pub(crate) fn read_patiently<S: Read>(
    stream: &mut S,
    stopping: &Stopping,
    buf: &mut [u8],
) -> io::Result<usize>
    ensures bound { ReadsAtMost result buf.new }
    ensures bytes { ReadConsumes (S.remaining stream.old) (S.remaining stream.new) result buf.new }
{
    for _ in 0..u64::MAX {
        if let Some(read) = read_once(stream, stopping, buf) {
            return read;
        }
    }
    Err(io::Error::from(ErrorKind::TimedOut))
}
