//! Where covered replies go.
ghost use Rattle.regatta_streams.specs.Calls.{WritesWhole};

use crate::sealed::CoveredReply;
use regatta_streams::{Device, Sink, Source, StreamFault, write_all};

/// What a session reads from and writes its replies to. It takes no bytes: only replies that `C` has
/// covered.
pub trait Outlet<C>: Source {
    /// Writes all of a covered reply.
    ///
    /// # Errors
    ///
    /// If a write fails. Some first part of the reply is written then, perhaps none, never all.
    fn write_reply(&mut self, reply: &CoveredReply<C>) -> Result<(), StreamFault>
        ensures { WritesWhole Self.failures Self.failed_reads Self.remaining Self.contents self.old
            self.new result reply.now };
}

impl<C, S: Source + Sink> Outlet<C> for S {
    fn write_reply(&mut self, reply: &CoveredReply<C>) -> Result<(), StreamFault> {
        write_all(self, reply.bytes())
    }
}
