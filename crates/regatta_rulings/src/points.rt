//! What a decision comes to, on the board of a journal without the redress that decisions gave.

ghost use Rattle.std.specs.Prelude.{◌≡◌, ◌+◌, ◌-◌, ◌*◌, ◌<◌, ◌≤◌, IfOk, IfSome, None, true};
ghost use Rattle.std.specs.Prelude.{length};
ghost use Rattle.std.specs.List.{filter_map, last_or};
ghost use Rattle.regatta_terms.specs.declared.limits.TheConstants.{MAX_BOATS, MAX_RACES};
ghost use Rattle.regatta_scores.specs.Journal.{same_sail};
ghost use Rattle.regatta_scores.specs.RacePoints.{dnf, journal_race};
ghost use Rattle.regatta_board.specs.Refusals.{is_entered};
ghost use Rattle.regatta_rulings.specs.Averages.{average_of as average_of_races};
ghost use Rattle.regatta_rulings.specs.RulingPoints.{last_points as last_points_of, limited_by as limited_by_of};
ghost use Rattle.regatta_rulings.specs.RulingPoints.{points_by as points_by_of};
ghost use Rattle.regatta_rulings.specs.RulingPoints.{ruling_points as ruling_points_of};
ghost use Rattle.regatta_rulings.specs.RulingPoints.{figures_in, newer, plain_with_penalty};
ghost use Rattle.regatta_rulings.specs.RulingPoints.{shared_points as shared_points_of};

use crate::averaging::{SailedRace, average_of};
use crate::decision::{Bar, Decision, Ruling};
use crate::shares::{limit_points, limited, penalised, tenths};
use regatta_board::{Board, SailGroup};
use regatta_terms::{RaceNo, Sail, Tenths};
use std::alloc::{AllocError, Global};

/// The points for a place that is shared by this number of boats, if there are any (RRS A4, A7).
fn shared_points(place: u16, sharing: u16) -> Option<u32>
    ensures { result ≡ shared_points_of place sharing }
{
    if sharing > 0 {
        Some(10 * u32::from(place) + 5 * u32::from(sharing - 1))
    } else {
        None
    }
}

/// The later of two points, if there are some.
fn later(so_far: Option<u32>, points: Option<u32>) -> Option<u32>
    ensures { result ≡ newer points so_far }
{
    match points {
        Some(points) => Some(points),
        None => so_far,
    }
}

/// The points of the last place by the groups of a race.
#[tactic(auto, using(crate::proofs::PointFacts::last_step))]
fn last_of(groups: &[SailGroup]) -> Option<u32>
    ensures { result ≡ last_or None
        (filter_map (λ group. shared_points_of group.place group.sharing) groups.now) }
{
    let mut last = None;
    for group in groups {
        last = later(last, shared_points(group.place, group.sharing));
    }
    last
}

/// Returns the points of the race's last place, in tenths: those of the last group in which a boat
/// finished, whatever penalties or redress change them for the boat there (RRS A4, A7). `None` if
/// nobody finished.
///
/// # Errors
///
/// If memory runs out.
pub fn last_points(alloc: Global, board: &Board, race: RaceNo) -> Result<Option<u32>, AllocError>
    ensures { IfOk result (λ last. last
        ≡ last_points_of (journal_race board.now.rules board.now.entries race)) }
{
    let groups = board.groups(alloc, race)?;
    Ok(last_of(groups.as_slice()))
}

/// The score of a time limit, if it has points.
fn limited_by(dnf: u16, penalty: u32, points: Option<u64>) -> Result<Tenths, Bar>
    requires dnf { dnf ≤ MAX_BOATS + 1 }
    requires points { IfSome points (λ points. points ≤ 10000000000) }
    ensures { result ≡ limited_by_of dnf penalty points }
{
    match points {
        Some(points) => Ok(limited(dnf, points, penalty)),
        None => Err(Bar::NobodyFinished),
    }
}

/// What a decision about a boat is worked out from.
#[derive(Clone, Copy)]
struct Figures {
    /// The race's DNF score.
    dnf: u16,
    /// The points of its last place, in tenths.
    last: Option<u32>,
    /// Her score without the decision.
    plain: Tenths,
    /// What her penalties add, in whole points.
    penalty: u32,
}

/// What a decision comes to by these figures, and by her points in the races that count.
fn points_by(
    figures: Figures,
    race: u8,
    sailed: &[SailedRace],
    ruling: &Ruling,
) -> Result<Tenths, Bar>
    requires dnf { figures.dnf ≤ MAX_BOATS + 1 }
    requires few { length sailed.now ≤ MAX_RACES }
    ensures { result ≡ points_by_of (λ races. average_of_races races race sailed.now)
        figures.dnf figures.last figures.plain figures.penalty ruling.now }
{
    match ruling {
        Ruling::Penalty(_, amount) => Ok(penalised(figures.dnf, figures.plain, *amount)),
        Ruling::TimeLimit(limit) => {
            let points = limit_points(figures.last, *limit);
            limited_by(figures.dnf, figures.penalty, points)
        }
        Ruling::NotSailed => Ok(tenths(10 * u32::from(figures.dnf))),
        Ruling::Average(races) => average_of(races, race, sailed),
        Ruling::Duty(races) => average_of(races, race, sailed),
        Ruling::Reinstate => Ok(figures.plain),
    }
}

/// The race's DNF score (RRS A5.2, A5.3).
#[tactic(auto, using(crate::proofs::PointFacts::dnf_small))]
fn dnf_of(alloc: Global, board: &Board, race: RaceNo) -> Result<u16, AllocError>
    ensures value { IfOk result (λ found. found ≡ dnf same_sail board.now.rules
        (journal_race board.now.rules board.now.entries race)) }
    ensures bound { IfOk result (λ found. found ≤ MAX_BOATS + 1) }
{
    let _few = board.boats();
    let basis = board.race_basis(alloc, race)?;
    Ok(basis.dnf)
}

/// The score of a boat that is entered, and what her penalties add to it, in whole points.
fn plain_of(
    alloc: Global,
    board: &Board,
    race: RaceNo,
    sail: Sail,
) -> Result<(Tenths, u32), AllocError>
    requires { is_entered board.now.entries sail ≡ true }
    ensures { IfOk result (λ found. found ≡ plain_with_penalty same_sail board.now.rules
        (journal_race board.now.rules board.now.entries race) sail) }
{
    let number = board.number(sail);
    let scorings = board.scorings(alloc, race)?;
    let scoring = scorings.as_slice()[number];
    Ok((scoring.plain, scoring.penalty))
}

/// The figures of a boat that is entered.
fn figures_of(alloc: Global, board: &Board, race: RaceNo, sail: Sail) -> Result<Figures, AllocError>
    requires { is_entered board.now.entries sail ≡ true }
    ensures value { IfOk result (λ figures. figures ≡ figures_in same_sail board.now.rules
        (journal_race board.now.rules board.now.entries race) sail) }
    ensures dnf { IfOk result (λ figures. figures.dnf ≤ MAX_BOATS + 1) }
{
    let dnf = dnf_of(alloc, board, race)?;
    let last = last_points(alloc, board, race)?;
    let (plain, penalty) = plain_of(alloc, board, race, sail)?;
    Ok(Figures {
        dnf,
        last,
        plain,
        penalty,
    })
}

/// Returns what a decision comes to, on the board of the journal without the redress that decisions
/// gave. `sailed` is what an average looks at: her points in each race that counts.
///
/// # Errors
///
/// If memory runs out. Inside: `NobodyFinished` for points after the last place of a race that
/// nobody finished; and the errors of [`average_of`].
pub fn ruling_points(
    alloc: Global,
    board: &Board,
    decision: &Decision,
    sailed: &[SailedRace],
) -> Result<Result<Tenths, Bar>, AllocError>
    requires entered { is_entered board.now.entries decision.now.sail ≡ true }
    requires few { length sailed.now ≤ MAX_RACES }
    ensures { IfOk result (λ found. found ≡ ruling_points_of same_sail board.now.rules
        (journal_race board.now.rules board.now.entries decision.now.race)
        (λ races. average_of_races races decision.now.race sailed.now)
        decision.now.sail decision.now.ruling) }
{
    let figures = figures_of(alloc, board, decision.race, decision.sail)?;
    Ok(points_by(figures, decision.race.get(), sailed, &decision.ruling))
}
