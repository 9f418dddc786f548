//! The entries that a series starts with.
ghost use Rattle.std.specs.Prelude.{◌≡◌, IfOk};
ghost use Rattle.regatta_office.specs.Starts.{start_of as start_of_both};

use regatta_board::{REPLAY_SEAT, last_number_of, next_entry};
use regatta_scores::Items;
use regatta_tables::Journal;
use regatta_terms::{Command, Entry, Role, Sail};
use std::alloc::{AllocError, Global};

/// The entries, followed by an Enter for each sail. Seat 1 sends these as scorer, and its numbers
/// continue. So a series may start from a journal, an entry list, or both.
///
/// # Errors
///
/// If an allocation fails.
pub fn start_of(alloc: Global, entries: &[Entry], sails: &[Sail]) -> Result<Journal, AllocError>
    ensures { IfOk result (λ start. start ≡ start_of_both entries.now sails.now) }
{
    let mut start = Vec::from_slice(alloc, entries)?;
    let mut last = last_number_of(entries, REPLAY_SEAT);
    for sail in sails {
        let entry = next_entry(
            REPLAY_SEAT,
            last,
            Role::Scorer,
            Command::Enter { sail: *sail },
        );
        last = entry.nth();
        start.push(entry)?;
    }
    Ok(Items::new(start))
}
