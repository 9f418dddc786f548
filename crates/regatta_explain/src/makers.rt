//! Parts of a document, made from a table and a journal.

ghost use Rattle.std.specs.Prelude.{◌≡◌, ◌+◌, ◌<◌, ◌≤◌, ◌^◌, length, nat_eq, sum_by};
ghost use Rattle.std.specs.Prelude.{if◌then◌else◌};
ghost use Rattle.std.specs.List.{list_any};
ghost use Rattle.regatta_terms.specs.declared.limits.TheConstants.{MAX_RACES};
ghost use Rattle.regatta_terms.specs.Effects.{effect};
ghost use Rattle.regatta_explain.specs.Depends.{last_that_matters, matters as matters_by};
ghost use Rattle.regatta_explain.specs.Explained.{boat_part};

use crate::parts::BoatPart;
use regatta_scores::{Cell, Row};
use regatta_terms::{Command, Entry, RaceNo};

/// Whether the race is among these.
fn is_among(race: RaceNo, races: &[RaceNo]) -> bool
    ensures { result ≡ list_any (λ other. nat_eq other race) races.now }
{
    races.iter().any(|other| other.get() == race.get())
}

/// Whether the table depends on a command, if these races count.
fn matters(command: Command, races: &[RaceNo]) -> bool
    ensures { result ≡ matters_by races.now (effect command) }
{
    match command {
        Command::Enter { .. } | Command::Score { .. } | Command::Unscore { .. } => true,
        Command::Finish { race, .. }
        | Command::Tie { race, .. }
        | Command::Before { race, .. }
        | Command::Time { race, .. }
        | Command::Strike { race, .. }
        | Command::Mark { race, .. }
        | Command::Penalise { race, .. }
        | Command::Redress { race, .. }
        | Command::Clear { race, .. } => is_among(race, races),
    }
}

/// The place of the last that matters, one more than `at` if the one there does.
fn later(last: usize, at: usize, holds: bool) -> usize
    requires { at < 2 ^ 63 }
    ensures { result ≡ (if holds then at + 1 else last) }
{
    if holds { at + 1 } else { last }
}

/// The place in the journal of the last entry on which the table depends, from 1; 0 if there is
/// none. The races are those that count.
pub fn last_entry(entries: &[Entry], races: &[RaceNo]) -> usize
    ensures { result ≡ last_that_matters races.now entries.now }
{
    let mut last = 0;
    for i in 0..entries.len() {
        last = later(last, i, matters(entries[i].command(), races));
    }
    last
}

/// The sum of all scores of a boat, in tenths.
fn total(cells: &[Cell]) -> u32
    requires { length cells.now ≤ MAX_RACES }
    ensures { result ≡ sum_by (λ cell. cell.points) cells.now }
{
    let mut total = 0;
    for cell in cells {
        total += cell.points.get();
    }
    total
}

/// A boat's place in the series, by her row of the table.
pub fn place_of(row: &Row) -> BoatPart
    requires { length row.now.cells ≤ MAX_RACES }
    ensures { result ≡ boat_part row.now }
{
    BoatPart {
        sail: row.sail,
        rank: row.rank,
        tied: row.tied,
        net: row.net,
        total: total(row.cells.as_slice()),
    }
}
