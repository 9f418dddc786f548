//! Tests of the race office through its public calls: worked races and series, boards, replays over
//! memory, what a crash leaves of a kept file, and the texts of faults. What needs threads or all of
//! the memory is tested beside the program, and what needs the built program by `tests/`.
//!
//! What tests share is here, too: series rules, sheets of races, the streams of a run of the program
//! over memory, and a simulator of crashes.
#![tactic(auto)]

mod memory;
mod memory_file;
mod rules;
mod sheets;
mod streams;

pub use memory::MemoryLog;
pub use memory_file::MemoryFile;
pub use rules::{default_rules, handicap_rules};
pub use sheets::sheet_after;
pub use streams::{PLENTY, Streams, status_of};

#[cfg(test)]
mod tests;
