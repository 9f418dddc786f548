//! The scores of one race, in one walk over its order and one over what the boats hold.
ghost use Rattle.std.specs.Prelude.{◌≡◌, ℕ, ◌+◌, ◌*◌, ◌<◌, ◌≤◌, ◌^◌, length, unwrap_or, nat_eq};
ghost use Rattle.std.specs.Prelude.{All, IfOk, OnOk, OnErr, None, Some, slice_index_or};
ghost use Rattle.regatta_terms.specs.declared.limits.TheConstants.{MAX_BOATS, MAX_PENALTIES};
ghost use Rattle.regatta_scores.specs.PlacedPoints.{most_place_points};
ghost use Rattle.regatta_scores.specs.RacePoints.{dnf as dnf_of, race_of};
ghost use Rattle.regatta_scores.specs.RaceScores.{race_scores};
ghost use Rattle.regatta_scores.specs.SheetFacts.{IsSheet};
ghost use Rattle.regatta_scores.specs.Walk.{bare_with, points_by, rescored};
ghost use Rattle.regatta_scores.specs.Walk.{HasBareScores, IsRescored, PutsScore};

use crate::boats::{RaceScore, RaceScores};
use crate::groups::Groups;
use crate::items::Items;
use crate::outcomes::{bare_score, score_by};
use crate::points::{entered, finishers, number_came, placed_points, plain, shared_points, tenths};
use crate::sheet::{Held, RaceSheet};
use crate::work::Work;
use regatta_terms::{Absent, Rules};
use std::alloc::{AllocError, Global};

/// The race's DNF score in whole points. Under A5.2 nobody has to be counted.
fn dnf_score(alloc: Global, rules: &Rules, order: &Groups, held: &[Held]) -> Result<u32, AllocError>
    requires { IsSheet order.now held.now }
    ensures value { IfOk result (λ dnf. dnf ≡ dnf_of nat_eq rules.now (race_of order.now held.now)) }
    ensures bound { IfOk result (λ dnf. dnf ≤ MAX_BOATS + 1) }
{
    match rules.absent() {
        Absent::A52 => Ok(entered(held) + 1),
        Absent::A53 => {
            let placed = placed_points(alloc, order, held)?;
            Ok(number_came(held, &placed) + 1)
        }
    }
}

/// The score of a boat that isn't in the order and holds nothing.
fn not_come(entered: u32) -> RaceScore
    requires { entered ≤ MAX_BOATS }
    ensures { result ≡ bare_with entered None }
{
    bare_score(tenths(10 * (entered + 1)), false)
}

/// The score of a boat that has these points for a place and holds nothing.
fn placed_score(points: u32) -> RaceScore
    requires { points ≤ most_place_points }
    ensures { (entered : ℕ) → result ≡ bare_with entered (Some points) }
{
    bare_score(tenths(points), true)
}

/// The points for her place, by the score that she has if she holds nothing.
fn points_by(score: &RaceScore) -> Option<u32>
    ensures { result ≡ points_by score.now }
{
    match score.mark {
        None => Some(score.points.get()),
        Some(_) => None,
    }
}

/// Gives the boats of the group this score.
fn put(scores: &mut [RaceScore], group: &[u16], score: &RaceScore)
    requires { All (λ boat. boat < length scores.old) group.now }
    ensures { PutsScore scores.old scores.new group.now score.now }
{
    for &boat in group {
        scores[usize::from(boat)] = *score;
    }
}

/// The score that each boat has if she holds nothing, by her place among those without a code.
fn bare_scores(alloc: Global, order: &Groups, held: &[Held]) -> Result<Vec<RaceScore>, AllocError>
    requires { IsSheet order.now held.now }
    ensures { IfOk result (λ scores. HasBareScores order.now held.now scores.items) }
{
    let mut scores = vec![in alloc; not_come(entered(held)); held.len()]?;
    let mut place = 1;
    for i in 0..order.len() {
        let group = order.group(i);
        let sharing = finishers(held, group);
        put(
            &mut scores,
            group,
            &placed_score(shared_points(place, sharing)),
        );
        place += sharing;
    }
    Ok(scores)
}

/// Her score with what she holds, in place of the one that she has if she holds nothing.
fn rescore(score: &mut RaceScore, rules: &Rules, held: &Held, entered: u32, dnf: u32)
    requires points { unwrap_or (points_by score.old) 0 ≤ most_place_points }
    requires entered { entered ≤ MAX_BOATS }
    requires dnf { dnf ≤ MAX_BOATS + 1 }
    requires penalties { (held.now.zfp ≤ MAX_PENALTIES)
        × (held.now.scp ≤ MAX_PENALTIES) }
    ensures { score.new ≡ rescored rules.now entered dnf held.now score.old }
{
    // Most boats hold nothing.
    if held.is_nothing() {
        return;
    }
    let placed = points_by(score);
    let plain = plain(rules, held, placed, entered, dnf);
    *score = score_by(plain, held, placed.is_some());
}

/// Puts each boat's score with what she holds in place of her bare one.
fn rescore_all(scores: &mut [RaceScore], rules: &Rules, held: &[Held], dnf: u32)
    requires few { length held.now ≤ MAX_BOATS }
    requires one_each { length scores.old ≡ length held.now }
    requires points { All (λ score. unwrap_or (points_by score) 0 ≤ most_place_points) scores.old }
    requires dnf { dnf ≤ MAX_BOATS + 1 }
    requires penalties { All (λ h. (h.zfp ≤ MAX_PENALTIES) × (h.scp ≤ MAX_PENALTIES)) held.now }
    ensures { IsRescored rules.now dnf held.now scores.old scores.new }
{
    let entered = entered(held);
    for boat in 0..held.len() {
        rescore(&mut scores[boat], rules, &held[boat], entered, dnf);
    }
}

fn scores(alloc: Global, sheet: &RaceSheet, rules: &Rules) -> Result<Vec<RaceScore>, AllocError>
    ensures { IfOk result (λ scores. scores.items ≡ race_scores rules.now sheet.now) }
{
    let order = sheet.order();
    let held = sheet.all_held();
    let dnf = dnf_score(alloc, rules, order, held)?;
    let mut scores = bare_scores(alloc, order, held)?;
    rescore_all(&mut scores, rules, held, dnf);
    Ok(scores)
}

/// Returns the score of each boat on the sheet, before averages, in the order of the boats' numbers.
/// A score is the points for her place or her code, made worse by penalties (RRS A4 to A7, 30.2,
/// 44.3(c)), or the points given as redress (A9(c)).
///
/// It walks the order once, and under A5.3 once more to count who came. It adds one race to `work`,
/// whose count has to be below the greatest `u32`. The only error is a failed allocation; it leaves
/// `work` unchanged.
pub fn race_scores(
    alloc: Global,
    sheet: &RaceSheet,
    rules: &Rules,
    work: &mut Work,
) -> Result<RaceScores, AllocError>
    requires { work.old + 1 < 2 ^ 32 }
    ensures ok { IfOk result (λ scores. scores ≡ race_scores rules.now sheet.now) }
    ensures counted { OnOk result (work.new ≡ work.old + 1) }
    ensures err { OnErr result (work.new ≡ work.old) }
{
    let scores = scores(alloc, sheet, rules)?;
    work.add_one();
    Ok(Items::new(scores))
}
