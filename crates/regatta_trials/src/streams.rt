//! Runs of the program over memory.

use regatta_office::{Tape, program};
use std::alloc::{AllocError, Global};
use std::fs::{File, Files};
use std::net::{Net, TcpListener, TcpStream};
use std::sync::Wait;
use std::thread::Threads;
use std::time::Clock;

/// More bytes than any run of a test gives or takes.
pub const PLENTY: usize = 4_000_000;

/// The most bytes that a run of a test writes to standard error.
const MOST_SAID: usize = 10_000;

/// The most bytes of the input that one read gives: few, so that lines are cut.
const PIECE: usize = 7;

/// The three standard streams of a run of the program, over memory.
#[derive(Drop)]
pub struct Streams {
    pub input: Tape,
    pub output: Tape,
    pub errors: Tape,
}

impl Streams {
    /// An input of this text, an output that takes `takes` bytes, and room for what is said.
    ///
    /// # Errors
    ///
    /// If an allocation fails.
    pub fn new(alloc: Global, text: &[u8], takes: usize) -> Result<Streams, AllocError> {
        Ok(Streams {
            input: Tape::new(alloc, text, PIECE, PLENTY, 0)?,
            output: Tape::new(alloc, b"", PIECE, 0, takes)?,
            errors: Tape::new(alloc, b"", PIECE, 0, MOST_SAID)?,
        })
    }

    /// Whether just this was written to standard output, and nothing to standard error.
    pub fn has_written(&self, written: &str) -> bool {
        self.output.written() == written.as_bytes() && self.errors.written().is_empty()
    }
}

/// The status of a run of the program over these streams.
pub fn status_of<R>(rt: &R, words: &[&str], streams: &mut Streams) -> u8
where
    R: Files<File = File>
        + AllocGlobal
        + Threads
        + Wait
        + Net<Listener = TcpListener, Stream = TcpStream>
        + Clock
        + Sync,
    R::Dir: Send + Sync,
{
    let Streams {
        input,
        output,
        errors,
    } = streams;
    program(rt, words, input, output, errors)
}
