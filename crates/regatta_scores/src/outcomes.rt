//! What a line and a cell take of a boat's outcome in one race.
ghost use Rattle.std.specs.Prelude.{◌≡◌, ℕ};
ghost use Rattle.regatta_scores.specs.Outcomes.{redress_by, score_of};
ghost use Rattle.regatta_scores.specs.Sheet.{nothing_held};

use crate::boats::{Averaged, RaceScore};
use crate::codes::is_dne;
use crate::marks::mark;
use crate::points::tenths;
use crate::sheet::Held;
use crate::table::Abbrev;
use regatta_terms::{Code, Redress, Tenths};

/// What came of a boat in a race.
#[derive(Clone, Copy)]
pub(crate) struct Outcome {
    /// Her points before redress (RRS A4 to A7, 30.2, 44.3(c)).
    pub(crate) plain: Tenths,
    /// Her code, penalties and redress.
    pub(crate) held: Held,
    /// Whether she is in the finishing order (RRS A3).
    pub(crate) placed: bool,
}

/// Her points given as redress, else those before redress.
fn award_or(plain: Tenths, held: &Held) -> Tenths
    ensures { result ≡ (redress_by plain held.now.redress).0 }
{
    match held.redress {
        Some(Redress::Points(points)) => tenths(points.get()),
        None | Some(Redress::AllRaces | Redress::RacesBefore) => plain,
    }
}

fn averages_by(redress: Option<Redress>) -> Averaged
    ensures { (plain : ℕ) → result ≡ (redress_by plain redress).1 }
{
    match redress {
        None | Some(Redress::Points(_)) => Averaged::OverNone,
        Some(Redress::AllRaces) => Averaged::OverAll,
        Some(Redress::RacesBefore) => Averaged::OverBefore,
    }
}

/// The score of a boat that holds nothing.
pub(crate) fn bare_score(plain: Tenths, placed: bool) -> RaceScore
    ensures { result ≡ score_of (record { plain = plain; held = nothing_held; placed = placed }) }
{
    RaceScore {
        points: plain,
        averaged: Averaged::OverNone,
        dne: false,
        mark: if placed {
            None
        } else {
            Some(Abbrev::Code(Code::Dnc))
        },
    }
}

/// Her score, by her outcome.
pub(crate) fn score_of(outcome: &Outcome) -> RaceScore
    ensures { result ≡ score_of outcome.now }
{
    score_by(outcome.plain, &outcome.held, outcome.placed)
}

/// Her score, by the parts of her outcome: so nothing is copied for each boat of a race.
pub(crate) fn score_by(plain: Tenths, held: &Held, placed: bool) -> RaceScore
    ensures { result ≡ score_of (record { plain = plain; held = held.now; placed = placed }) }
{
    RaceScore {
        points: award_or(plain, held),
        averaged: averages_by(held.redress),
        dne: held.code.is_some_and(is_dne),
        mark: mark(held, placed),
    }
}
