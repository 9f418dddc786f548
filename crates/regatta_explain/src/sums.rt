//! The sum of the points that an average counts (RRS A9).

ghost use Rattle.std.specs.Prelude.{◌≡◌, ◌*◌, ◌<◌, ◌≤◌, filter, if◌then◌else◌, length, remove, take, zip};
ghost use Rattle.regatta_terms.specs.declared.limits.TheConstants.{MAX_RACES};
ghost use Rattle.regatta_scores.specs.Averages.{is_own as is_own_by};
ghost use Rattle.regatta_explain.specs.Averaged.{counted, counted_sum, has_own};

use crate::averaging::is_own;
use regatta_scores::{Averaged, RaceScore};
use regatta_terms::RaceNo;

/// Her points, unless an average replaces them.
fn own_points(score: &RaceScore) -> u32
    ensures value { result ≡ (if is_own_by score.now.averaged then score.now.points else 0) }
    ensures small { result ≤ 65535 }
{
    if is_own(score) { score.points.get() } else { 0 }
}

/// The sum of her points in the races in which no average replaces them.
fn own_sum(races: &[RaceNo], scores: &[RaceScore]) -> u32
    requires equal { length races.now ≡ length scores.now }
    requires few { length races.now ≤ MAX_RACES }
    ensures value { result ≡ counted_sum (filter has_own (zip races.now scores.now)) }
    ensures small { result ≤ 65535 * length races.now }
{
    let mut sum = 0;
    for i in 0..races.len() {
        sum += own_points(&scores[i]);
    }
    sum
}

/// That in the races before this one.
fn sum_before(races: &[RaceNo], scores: &[RaceScore], at: usize) -> u32
    requires equal { length races.now ≡ length scores.now }
    requires within { at < length races.now }
    requires few { length races.now ≤ MAX_RACES }
    ensures { result ≡ counted_sum (filter has_own (take at (zip races.now scores.now))) }
{
    own_sum(&races[..at], &scores[..at])
}

/// That in all other races.
fn sum_of_others(races: &[RaceNo], scores: &[RaceScore], at: usize) -> u32
    requires equal { length races.now ≡ length scores.now }
    requires within { at < length races.now }
    requires few { length races.now ≤ MAX_RACES }
    ensures { result ≡ counted_sum (filter has_own (remove (zip races.now scores.now) at)) }
{
    own_sum(&races[..at], &scores[..at]) + own_sum(&races[at + 1..], &scores[at + 1..])
}

/// The sum of the points that count in an average of race `at` of these, in tenths.
pub(crate) fn averaged_sum(races: &[RaceNo], scores: &[RaceScore], at: usize, over: Averaged) -> u32
    requires equal { length races.now ≡ length scores.now }
    requires within { at < length races.now }
    requires few { length races.now ≤ MAX_RACES }
    ensures { result ≡ counted_sum (counted (zip races.now scores.now) at over) }
{
    match over {
        Averaged::OverNone => 0,
        Averaged::OverAll => sum_of_others(races, scores, at),
        Averaged::OverBefore => sum_before(races, scores, at),
    }
}
