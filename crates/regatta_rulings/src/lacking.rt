//! Whether a boat holds what a decision gives.

ghost use Rattle.std.specs.Prelude.{◌≡◌, Some, true};
ghost use Rattle.regatta_scores.specs.Journal.{held as held_of};
ghost use Rattle.regatta_board.specs.Refusals.{is_entered as is_entered_in};
ghost use Rattle.regatta_rulings.specs.LackedLines.{is_met as is_met_by, is_points as is_points_of};

use crate::bars::{both, gives_points, held_in, is_out};
use crate::decision::{Decision, Ruling};
use regatta_board::Board;
use regatta_scores::Held;
use regatta_terms::{Redress, Tenths};

/// Whether redress is these points.
fn is_award(points: Tenths, redress: &Redress) -> bool
    ensures { result ≡ is_points_of points (Some redress.now) }
{
    match redress {
        Redress::Points(award) => award.get() == points.get(),
        Redress::AllRaces => false,
        Redress::RacesBefore => false,
    }
}

fn is_points(points: Tenths, held: &Held) -> bool
    ensures { result ≡ is_points_of points held.now.redress }
{
    match &held.redress {
        Some(redress) => is_award(points, redress),
        None => false,
    }
}

fn is_met_by_held(ruling: &Ruling, points: Tenths, held: Held) -> bool
    ensures { result ≡ is_met_by ruling.now points held }
{
    let unmarked = both(is_out(ruling), held.code.is_none());
    let holds = both(is_points(points, &held), !unmarked);
    both(gives_points(ruling), holds)
}

/// Returns whether the boat of a decision holds the decision's points in the race, and the DNF of
/// TLE, by the journal. She then lacks no line of it.
///
/// `false` for NSC and REINSTATE, which give no points.
pub fn is_met(board: &Board, decision: &Decision, points: Tenths) -> bool
    requires { is_entered_in board.now.entries decision.now.sail ≡ true }
    ensures { result ≡ is_met_by decision.now.ruling points
        (held_of board.now.entries decision.now.race decision.now.sail) }
{
    let held = held_in(board, decision.race, decision.sail);
    is_met_by_held(&decision.ruling, points, held)
}
