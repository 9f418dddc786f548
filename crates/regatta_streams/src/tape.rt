//! Streams over memory.
ghost use Rattle.std.specs.Prelude.{◌≡◌, ◌<◌, ◌↔◌, [], length, take, IfOk, OnErr, IsErr};

use crate::failures::Failures;
use crate::stream::{Device, Sink, Source, StreamFault};
use std::alloc::{AllocError, Global};
use std::marker::Model;

/// A stream over memory. It gives an input in pieces, keeps what is written, and fails after chosen
/// numbers of bytes. So a test sees what a run reads and writes, and what it does when a device
/// fails.
#[derive(Drop)]
pub struct Tape {
    input: Vec<u8>,
    at: usize,
    piece: usize,
    gives: usize,
    output: Vec<u8>,
    takes: usize,
    failures: Failures,
    failed_reads: Failures,
}

impl Model for Tape {
    ghost use Rattle.std.specs.Prelude.{◌+◌, ◌<◌, ◌≤◌, drop, vec_len, vec_capacity};
    ghost use Rattle.regatta_streams.specs.Tapes.{TapeParts};

    ghost Value = { TapeParts };

    ghost view = { λ t. record {
      rest = drop t.at t.input.items;
      written = t.output.items;
      piece = t.piece;
      gives = t.gives;
      takes = t.takes;
      failures = t.failures.count;
      failed_reads = t.failed_reads.count;
    } };

    ghost invariant = { λ t. (t.at ≤ vec_len t.input) × (0 < t.piece)
        × (vec_len t.output + t.takes ≤ vec_capacity t.output) };
}

impl Tape {
    ghost use Rattle.regatta_streams.specs.Tapes.{piece_len};

    /// A tape that gives `input` in pieces of at most `piece` bytes. A read fails once `give` bytes
    /// were given, even if the input ends just there. A write of some bytes fails once `take` bytes
    /// were taken. Room for these is allocated here; no later call allocates.
    ///
    /// # Errors
    ///
    /// If an allocation fails.
    pub fn new(
        alloc: Global,
        input: &[u8],
        piece: usize,
        give: usize,
        take: usize,
    ) -> Result<Tape, AllocError>
        requires { 0 < piece }
        ensures { IfOk result (λ tape. tape ≡ record {
          rest = input.now;
          written = [];
          piece = piece;
          gives = give;
          takes = take;
          failures = 0;
          failed_reads = 0;
        }) }
    {
        Ok(Tape {
            input: Vec::from_slice(alloc, input)?,
            at: 0,
            piece,
            gives: give,
            output: Vec::with_capacity(alloc, take)?,
            takes: take,
            failures: Failures::none(),
            failed_reads: Failures::none(),
        })
    }

    fn next_len(&self, room: usize) -> usize
        ensures { result ≡ piece_len self.now room }
    {
        let left = self.input.len() - self.at;
        self.piece.min(self.gives.min(left.min(room)))
    }

    /// The bytes written so far.
    pub fn written(&self) -> &[u8]
        ensures { result.now ≡ self.now.written }
    {
        self.output.as_slice()
    }
}

impl Device for Tape {
    ghost use Rattle.regatta_streams.specs.Tapes.{failed_calls, failed_reads, rest_of, written_of};

    ghost failures = { failed_calls };

    ghost failed_reads = { failed_reads };

    ghost remaining = { rest_of };

    ghost contents = { written_of };
}

impl Source for Tape {
    ghost use Rattle.regatta_streams.specs.Calls.{IsRead};
    ghost use Rattle.regatta_streams.specs.Tapes.{failed_calls, failed_reads, rest_of, written_of};
    ghost use Rattle.regatta_streams.specs.Tapes.{piece_len, after_read, after_failed_read};

    fn read(&mut self, buf: &mut [u8]) -> Result<usize, StreamFault>
        ensures is_read { IsRead failed_calls failed_reads rest_of written_of self.old self.new
            result buf.new }

        // It fails exactly when it has given all that it may. Otherwise it gives as much as it can.
        ensures fails { IsErr result ↔ (self.old.gives ≡ 0) }
        ensures given { IfOk result (λ n. n ≡ piece_len self.old (length buf.old)) }
        ensures buffer { IfOk result (λ n. take n buf.new ≡ take n self.old.rest) }
        ensures ok { IfOk result (λ n. self.new ≡ after_read self.old n) }
        ensures err { OnErr result (self.new ≡ after_failed_read self.old) }
    {
        if self.gives == 0 {
            self.failures = self.failures.one_more();
            self.failed_reads = self.failed_reads.one_more();
            return Err(StreamFault);
        }
        let n = self.next_len(buf.len());
        buf[..n].copy_from_slice(&self.input.as_slice()[self.at..self.at + n]);
        self.at += n;
        self.gives -= n;
        Ok(n)
    }
}

impl Sink for Tape {
    ghost use Rattle.regatta_streams.specs.Calls.{IsWrite};
    ghost use Rattle.regatta_streams.specs.Tapes.{failed_calls, failed_reads, rest_of, written_of};
    ghost use Rattle.regatta_streams.specs.Tapes.{taken_len, after_write, after_failed_write};

    fn write(&mut self, buf: &[u8]) -> Result<usize, StreamFault>
        ensures is_write { IsWrite failed_calls failed_reads rest_of written_of self.old self.new
            result buf.now }

        // It fails exactly when there are bytes and no room. Otherwise it takes as many as fit.
        ensures fails { IsErr result ↔ ((self.old.takes ≡ 0) × (0 < length buf.now)) }
        ensures taken { IfOk result (λ n. n ≡ taken_len self.old buf.now) }
        ensures ok { IfOk result (λ n. self.new ≡ after_write self.old (take n buf.now)) }
        ensures err { OnErr result (self.new ≡ after_failed_write self.old) }
    {
        let n = buf.len().min(self.takes);
        if n == 0 && !buf.is_empty() {
            self.failures = self.failures.one_more();
            return Err(StreamFault);
        }
        self.output.extend_from_slice(&buf[..n]).unwrap();
        self.takes -= n;
        Ok(n)
    }
}
