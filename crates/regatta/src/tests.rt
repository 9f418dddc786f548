use regatta_office::Tape;
use regatta_terms::{Entry, Rules};
use regatta_trials::{PLENTY, Streams, default_rules, handicap_rules, status_of};
use std::alloc::{AllocError, Global};
use std::test::Fail;

mod memory;
mod offices;
mod serving;
mod sessions;
mod wires;
