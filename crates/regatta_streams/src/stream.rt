//! The traits of streams: what gives bytes, and what takes them.
ghost use Rattle.std.specs.Prelude.{ℕ, List, Option, None};

/// A read or a write that failed, for whatever reason.
#[derive(Clone, Copy, Debug, PartialEq, Eq)]
pub struct StreamFault;

/// What reads or writes. It is seen with the number of its calls that have failed and how many of
/// those were reads, the bytes that it still gives, and the bytes that it took. Bytes may be unknown
/// (`None`): those to be read of what only writes are, and those written of what only reads.
pub trait Device {
    ghost failures: { Self → ℕ };

    ghost failed_reads: { Self → ℕ } = { λ _. 0 };

    ghost remaining: { Self → Option (List ℕ) } = { λ _. None };

    ghost contents: { Self → Option (List ℕ) } = { λ _. None };
}

/// A reader.
pub trait Source: Device {
    ghost use Rattle.regatta_streams.specs.Calls.{IsRead};

    /// Reads into the front of `buf`, and returns the number of bytes read: 0 only at the end, or
    /// if `buf` is empty. A failed read gives no byte, and is counted. What was written stays.
    fn read(&mut self, buf: &mut [u8]) -> Result<usize, StreamFault>
        ensures { IsRead Self.failures Self.failed_reads Self.remaining Self.contents self.old
            self.new result buf.new };
}

/// A writer.
pub trait Sink: Device {
    ghost use Rattle.regatta_streams.specs.Calls.{IsWrite};

    /// Writes the first bytes of `buf`, and returns how many: at least one, unless `buf` is empty.
    /// A failed write takes none, and is counted. What is still to be read stays.
    fn write(&mut self, buf: &[u8]) -> Result<usize, StreamFault>
        ensures { IsWrite Self.failures Self.failed_reads Self.remaining Self.contents self.old
            self.new result buf.now };
}
