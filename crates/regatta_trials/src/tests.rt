use crate::{PLENTY, default_rules};
use regatta_office::{Form, RunFault, Tape, replay};
use regatta_terms::{Absent, Entry, Rules};
use std::alloc::Global;
use std::test::Fail;

mod boards;
mod complaints;
mod crashes;
mod keepers;
mod replays;
mod scores;
mod texts;
