//! Streams of bytes whose contracts name the bytes that they give and take.
#![tactic(auto)]

mod failures;
mod foreign;
mod stream;
mod tape;
mod whole;

pub use failures::Failures;
pub use foreign::Foreign;
pub use stream::{Device, Sink, Source, StreamFault};
pub use tape::Tape;
pub use whole::{ReadFault, read_text, write_all};
