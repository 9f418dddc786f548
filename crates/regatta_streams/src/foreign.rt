//! Readers and writers of std as streams.
ghost use Rattle.std.specs.Prelude.{◌≡◌};
ghost use Rattle.std.specs.Io.KnownBytes.{ReadConsumes, WriteAppends};

use crate::failures::Failures;
use crate::stream::{Device, Sink, Source, StreamFault};
use std::io::{Read, Write};

/// A reader or writer of std as a stream, for example standard input or a socket. Its bytes pass
/// through unchanged. They are unknown (`None`): no contract knows what a file or a socket holds.
#[derive(Drop)]
pub struct Foreign<X> {
    inner: X,
    failures: Failures,
    failed_reads: Failures,
}

impl<X> Foreign<X> {
    ghost use Rattle.regatta_streams.specs.Foreigns.{failed_calls};

    /// A stream over `inner`. None of its calls has failed yet.
    pub fn new(inner: X) -> Foreign<X>
        ensures over { result.inner ≡ inner }
        ensures well { failed_calls result ≡ 0 }
    {
        Foreign {
            inner,
            failures: Failures::none(),
            failed_reads: Failures::none(),
        }
    }
}

impl<X> Device for Foreign<X> {
    ghost use Rattle.regatta_streams.specs.Foreigns.{failed_calls, failed_reads};

    ghost failures = { failed_calls };

    ghost failed_reads = { failed_reads };
}

impl<X: Read> Source for Foreign<X> {
    ghost use Rattle.regatta_streams.specs.Calls.{IsRead};
    ghost use Rattle.regatta_streams.specs.Foreigns.{failed_calls, failed_reads, inner_bytes};
    ghost use Rattle.regatta_streams.specs.Foreigns.{unknown};

    fn read(&mut self, buf: &mut [u8]) -> Result<usize, StreamFault>
        ensures is_read { IsRead failed_calls failed_reads unknown unknown self.old self.new
            result buf.new }

        // The reader's bytes, its end and its faults pass through as they are.
        ensures handed_on { ReadConsumes (inner_bytes X.remaining self.old)
            (inner_bytes X.remaining self.new) result buf.new }
    {
        match self.inner.read(buf) {
            Ok(n) => Ok(n),
            Err(_) => {
                self.failures = self.failures.one_more();
                self.failed_reads = self.failed_reads.one_more();
                Err(StreamFault)
            }
        }
    }
}

impl<X: Write> Sink for Foreign<X> {
    ghost use Rattle.regatta_streams.specs.Calls.{IsWrite};
    ghost use Rattle.regatta_streams.specs.Foreigns.{failed_calls, failed_reads, inner_bytes};
    ghost use Rattle.regatta_streams.specs.Foreigns.{unknown};

    fn write(&mut self, buf: &[u8]) -> Result<usize, StreamFault>
        ensures is_write { IsWrite failed_calls failed_reads unknown unknown self.old self.new
            result buf.now }

        // The writer gets these bytes, and the result is the number that it took.
        ensures handed_on { WriteAppends (inner_bytes X.contents self.old)
            (inner_bytes X.contents self.new) result buf.now }
    {
        match self.inner.write(buf) {
            Ok(taken) if taken > 0 || buf.is_empty() => Ok(taken),
            _ => {
                self.failures = self.failures.one_more();
                Err(StreamFault)
            }
        }
    }
}
