//! The vocabulary of the race office as one JSON document: codes, kinds of penalty, roles, lines,
//! refusals, faults and limits.
//!
//! It is made of the tables that the office itself reads, so a tool that takes its words from here
//! holds none of its own.
#![tactic(auto)]

mod codes;
mod forms;
mod rows;
mod senders;
mod sentences;
mod words;

pub use sentences::{name_of_fault, name_of_refusal};
pub use words::write_words;
