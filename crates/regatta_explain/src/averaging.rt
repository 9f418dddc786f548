//! Which scores an average counts (RRS A9).

ghost use Rattle.std.specs.Prelude.{◌≡◌, ◌<◌, ◌++◌, filter, length, remove, take, zip, IfOk, OnOk};
ghost use Rattle.regatta_scores.specs.Averages.{is_own as is_own_by};
ghost use Rattle.regatta_explain.specs.Averaged.{counted, counted_races, has_own, own_race};

use regatta_scores::{Averaged, Items, RaceScore};
use regatta_terms::RaceNo;
use std::alloc::{AllocError, Global};

/// Whether no average replaces her points.
pub(crate) fn is_own(score: &RaceScore) -> bool
    ensures { result ≡ is_own_by score.now.averaged }
{
    matches!(score.averaged, Averaged::OverNone)
}

/// Appends the race, unless an average replaces her points in it.
fn push_if_own(counted: &mut Vec<RaceNo>, race: RaceNo, score: &RaceScore) -> Result<(), AllocError>
    ensures { OnOk result (counted.new.items
        ≡ counted.old.items ++ own_race race score.now) }
{
    if is_own(score) {
        counted.push(race)?;
    }
    Ok(())
}

/// Appends the races in which no average replaces her points.
fn push_own(
    counted: &mut Vec<RaceNo>,
    races: &[RaceNo],
    scores: &[RaceScore],
) -> Result<(), AllocError>
    requires { length races.now ≡ length scores.now }
    ensures { OnOk result (counted.new.items
        ≡ counted.old.items ++ counted_races (filter has_own (zip races.now scores.now))) }
{
    for i in 0..races.len() {
        push_if_own(counted, races[i], &scores[i])?;
    }
    Ok(())
}

/// Appends those of the races before this one.
fn push_before(
    counted: &mut Vec<RaceNo>,
    races: &[RaceNo],
    scores: &[RaceScore],
    at: usize,
) -> Result<(), AllocError>
    requires equal { length races.now ≡ length scores.now }
    requires within { at < length races.now }
    ensures { OnOk result (counted.new.items
        ≡ counted.old.items ++ counted_races (filter has_own (take at (zip races.now scores.now)))) }
{
    push_own(counted, &races[..at], &scores[..at])?;
    Ok(())
}

/// Appends those of all other races.
fn push_others(
    counted: &mut Vec<RaceNo>,
    races: &[RaceNo],
    scores: &[RaceScore],
    at: usize,
) -> Result<(), AllocError>
    requires equal { length races.now ≡ length scores.now }
    requires within { at < length races.now }
    ensures { OnOk result (counted.new.items
        ≡ counted.old.items ++ counted_races (filter has_own (remove (zip races.now scores.now) at))) }
{
    push_own(counted, &races[..at], &scores[..at])?;
    push_own(counted, &races[at + 1..], &scores[at + 1..])?;
    Ok(())
}

/// Appends those that count in an average of race `at`.
fn push_averaged(
    averaged: &mut Vec<RaceNo>,
    races: &[RaceNo],
    scores: &[RaceScore],
    at: usize,
    over: Averaged,
) -> Result<(), AllocError>
    requires equal { length races.now ≡ length scores.now }
    requires within { at < length races.now }
    ensures { OnOk result (averaged.new.items
        ≡ averaged.old.items ++ counted_races (counted (zip races.now scores.now) at over)) }
{
    match over {
        Averaged::OverNone => Ok(()),
        Averaged::OverAll => push_others(averaged, races, scores, at),
        Averaged::OverBefore => push_before(averaged, races, scores, at),
    }
}

/// The races that count in an average of race `at` of these.
///
/// # Errors
///
/// If memory runs out.
pub fn averaged_races(
    alloc: Global,
    races: &[RaceNo],
    scores: &[RaceScore],
    at: usize,
    over: Averaged,
) -> Result<Items<RaceNo>, AllocError>
    requires equal { length races.now ≡ length scores.now }
    requires within { at < length races.now }
    ensures { IfOk result (λ averaged.
        averaged ≡ counted_races (counted (zip races.now scores.now) at over)) }
{
    let mut averaged = Vec::new(alloc);
    push_averaged(&mut averaged, races, scores, at, over)?;
    Ok(Items::new(averaged))
}
