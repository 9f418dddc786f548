//! Writes that a signal may end.
ghost use Rattle.std.specs.Prelude.{◌≡◌, None, IfSome};
ghost use Rattle.std.specs.Io.{WritesAtMost};
ghost use Rattle.std.specs.Io.KnownBytes.{Keeps, WriteAppends};

use std::io;
use std::io::{ErrorKind, Write};

/// Writes once. `None` if a signal has ended the call, which then took no byte.
fn write_once<S: Write>(stream: &mut S, buf: &[u8]) -> Option<io::Result<usize>>
    ensures bound { IfSome result (λ wrote. WritesAtMost wrote buf.now) }
    ensures bytes { IfSome result (λ wrote. WriteAppends (S.contents stream.old)
        (S.contents stream.new) wrote buf.now) }
    ensures keeps { result ≡ None → Keeps (S.contents stream.old) (S.contents stream.new) }
{
    match stream.write(buf) {
        Ok(count) => Some(Ok(count)),
        Err(why) => {
            if why.kind() == ErrorKind::Interrupted {
                return None;
            }
            Some(Err(why))
        }
    }
}

/// Writes to a stream whose writes have a time limit. A call that a signal ends, as when the program is
/// stopped and goes on, is made again.
pub(crate) fn write_again<S: Write>(stream: &mut S, buf: &[u8]) -> io::Result<usize>
    ensures bound { WritesAtMost result buf.now }
    ensures bytes { WriteAppends (S.contents stream.old) (S.contents stream.new) result buf.now }
{
    for _ in 0..u64::MAX {
        if let Some(wrote) = write_once(stream, buf) {
            return wrote;
        }
    }
    Err(io::Error::from(ErrorKind::TimedOut))
}
