//! Points with redress (RRS A9).
ghost use Rattle.std.specs.Prelude.{◌≡◌, ℕ, ◌+◌, ◌*◌, ◌/◌, ◌<◌, ◌≤◌, List, [], length, map, All};
ghost use Rattle.std.specs.Prelude.{IfOk, false, slice_index_or};
ghost use Rattle.regatta_terms.specs.declared.limits.TheConstants.{MAX_RACES};
ghost use Rattle.regatta_scores.specs.Averages.{is_own};
ghost use Rattle.regatta_scores.specs.RaceScores.{item_score, points};
ghost use Rattle.regatta_scores.specs.Redressing.{IsRead, average_or, averaged_at, is_over_all};
ghost use Rattle.regatta_scores.specs.declared.boats.RaceScore.{RaceScore};

use crate::boats::{Averaged, RaceScore, RowItem};
use crate::items::{Items, PerRace, Points};
use crate::outcomes::{Outcome, score_of};
use crate::points::tenths;
use crate::sheet::{Held, NOTHING_HELD};
use regatta_terms::Tenths;
use std::alloc::{AllocError, Global};

fn is_own(score: &RaceScore) -> bool
    ensures { result ≡ is_own score.now.averaged }
{
    matches!(score.averaged, Averaged::OverNone)
}

fn is_over_all(score: &RaceScore) -> bool
    ensures { result ≡ is_over_all score.now.averaged }
{
    matches!(score.averaged, Averaged::OverAll)
}

/// The races that an average counts: how many, and the sum of her points in them.
#[derive(Clone, Copy)]
pub(crate) struct Counted {
    number: u32,
    sum: u32,
}

/// No races.
pub(crate) const NO_RACES: Counted = Counted { number: 0, sum: 0 };

/// The average of some points, rounded to the nearest tenth.
#[tactic(auto, using(crate::proofs::AverageBounds::average_small))]
fn average(number: u32, sum: u32) -> Tenths
    requires some { 0 < number }
    requires few { number ≤ MAX_RACES }
    requires small { sum ≤ 65535 * number }
    ensures { result ≡ (2 * sum + number) / (2 * number) }
{
    tenths((2 * sum + number) / (2 * number))
}

/// The average, or her score without redress if no race is counted.
fn average_or(plain: Tenths, over: Counted) -> Tenths
    requires few { over.number ≤ MAX_RACES }
    requires small { over.sum ≤ 65535 * over.number }
    ensures { result ≡ average_or plain over.number over.sum }
{
    if over.number == 0 {
        plain
    } else {
        average(over.number, over.sum)
    }
}

/// Appends her points in one more race, and returns what an average over the races so far counts.
///
/// An average over all other races isn't known yet. The race is appended to `over_all`, and her
/// points without redress stand in for it.
pub(crate) fn push_points(
    points: &mut PerRace<Tenths>,
    over_all: &mut PerRace<u8>,
    so_far: Counted,
    score: &RaceScore,
) -> Counted
    requires few { length points.old.items < MAX_RACES }
    requires waiting { length over_all.old.items < MAX_RACES }
    requires number { so_far.number ≤ MAX_RACES }
    requires small { so_far.sum ≤ 65535 * so_far.number }
    ensures { (scores : List RaceScore) → (n : ℕ)
        → IsRead scores n points.old.items over_all.old.items so_far
        → n < length scores → score.now ≡ slice_index_or scores n score.now
        → IsRead scores (n + 1) points.new.items over_all.new.items result }
{
    if is_own(score) {
        points.push(score.points);
        return Counted {
            number: so_far.number + 1,
            sum: so_far.sum + score.points.get(),
        };
    }
    push_average(points, over_all, so_far, score);
    so_far
}

/// Appends her points in one more race, in which an average replaces them.
fn push_average(
    points: &mut PerRace<Tenths>,
    over_all: &mut PerRace<u8>,
    so_far: Counted,
    score: &RaceScore,
)
    requires few { length points.old.items < MAX_RACES }
    requires waiting { length over_all.old.items < MAX_RACES }
    requires number { so_far.number ≤ MAX_RACES }
    requires small { so_far.sum ≤ 65535 * so_far.number }
    ensures { (scores : List RaceScore) → (n : ℕ)
        → IsRead scores n points.old.items over_all.old.items so_far
        → n < length scores → score.now ≡ slice_index_or scores n score.now
        → is_own score.now.averaged ≡ false
        → IsRead scores (n + 1) points.new.items over_all.new.items so_far }
{
    if is_over_all(score) {
        over_all.push(points.len() as u8);
        points.push(score.points);
    } else {
        points.push(average_or(score.points, so_far));
    }
}

/// Puts an average over what is counted into the points of these races.
pub(crate) fn put_averages(points: &mut [Tenths], races: &[u8], over: Counted)
    requires races { All (λ race. race < length points.old) races.now }
    requires few { over.number ≤ MAX_RACES }
    requires small { over.sum ≤ 65535 * over.number }
    ensures { points.new ≡ averaged_at over.number over.sum points.old races.now }
{
    for &race in races {
        let race = usize::from(race);
        points[race] = average_or(points[race], over);
    }
}

fn item_score(item: &RowItem) -> RaceScore
    ensures { result ≡ item_score item.now }
{
    let held = Held {
        redress: item.redress,
        ..NOTHING_HELD
    };
    score_of(&Outcome {
        plain: item.plain,
        held,
        placed: true,
    })
}

fn item_scores(row: &[RowItem]) -> PerRace<RaceScore>
    requires { length row.now ≤ MAX_RACES }
    ensures value { result.items ≡ map item_score row.now }
    ensures few { length result.items ≤ MAX_RACES }
{
    let mut scores = PerRace::new();
    for item in row {
        scores.push(item_score(item));
    }
    scores
}

/// Appends one boat's points, and returns what an average over all races counts.
fn push_all(
    points: &mut PerRace<Tenths>,
    over_all: &mut PerRace<u8>,
    scores: &[RaceScore],
) -> Counted
    requires few { length scores.now ≤ MAX_RACES }
    requires points { points.old.items ≡ [] }
    requires over_all { over_all.old.items ≡ [] }
    ensures { IsRead scores.now (length scores.now) points.new.items over_all.new.items result }
{
    let mut so_far = NO_RACES;
    for score in scores {
        so_far = push_points(points, over_all, so_far, score);
    }
    so_far
}

/// Returns one boat's points with redress, over the scored races in order (RRS A9), in a list that
/// it allocates.
///
/// Points given as redress are taken as they are. An average is over her points in the other races,
/// or in the races before, rounded to the nearest tenth with 0.05 upward. Races in which her
/// redress is an average don't count; if no race is left, her points are those without redress. At
/// most [`MAX_RACES`](regatta_terms::MAX_RACES) races. The only error is a failed allocation.
pub fn averages(alloc: Global, row: &[RowItem]) -> Result<Points, AllocError>
    requires { length row.now ≤ MAX_RACES }
    ensures { IfOk result (λ found. found ≡ points row.now) }
{
    let scores = item_scores(row);
    let mut points = PerRace::new();
    let mut over_all = PerRace::new();
    let all = push_all(&mut points, &mut over_all, &scores);
    put_averages(points.as_mut_slice(), &over_all, all);
    let found = Vec::from_slice(alloc, &points)?;
    Ok(Items::new(found))
}
