//! What a race is scored by, its groups with their places, and each boat's score in its parts.
ghost use Rattle.std.specs.Prelude.{◌≡◌, ◌*◌, ◌+◌, ◌<◌, ◌≤◌, length, map, nat_eq, unwrap_or, All, IfOk};
ghost use Rattle.std.specs.List.{range_with_len};
ghost use Rattle.regatta_terms.specs.declared.limits.TheConstants.{MAX_BOATS, MAX_PENALTIES};
ghost use Rattle.regatta_scores.specs.Details.{placed_groups as placed_groups_of};
ghost use Rattle.regatta_scores.specs.Details.{race_basis as race_basis_of, scoring as scoring_of};
ghost use Rattle.regatta_scores.specs.Details.{scoring_with, status_code};
ghost use Rattle.regatta_scores.specs.Details.{sheet_group as sheet_group_of};
ghost use Rattle.regatta_scores.specs.PlacedPoints.{most_place_points};
ghost use Rattle.regatta_scores.specs.RacePoints.{race_of, status_by};
ghost use Rattle.regatta_scores.specs.Sheet.{boats};
ghost use Rattle.regatta_scores.specs.SheetFacts.{IsSheet};

use crate::boats::RaceScore;
use crate::groups::Groups;
use crate::items::Items;
use crate::outcomes::score_by;
use crate::points::{
    base, dnf, entered, finishers, has_come, number_came, penalty_points, placed_points, plain,
    tenths, twenty_percent,
};
use crate::sheet::{Held, RaceSheet};
use regatta_terms::{Code, Rules, Tenths};
use std::alloc::{AllocError, Global};

/// What a race is scored by. Scores are in whole points.
#[derive(Clone, Copy, Debug, PartialEq, Eq)]
pub struct RaceBasis {
    /// How many boats are entered in the series.
    pub entered: u16,
    /// How many boats came to the starting area (RRS A5.3).
    pub came: u16,
    /// Its DNF score (RRS A5.2, A5.3).
    pub dnf: u16,
    /// 20% of its DNF score, to the nearest whole point (RRS 44.3(c)).
    pub twenty_percent: u16,
}

/// A boat's score in a race before averages, in its parts.
#[derive(Clone, Copy, Debug, PartialEq, Eq)]
pub struct Scoring {
    /// The code by which she is scored; `None` if she finished.
    pub status: Option<Code>,
    /// Whether she came to the starting area (RRS A5.3).
    pub came: bool,
    /// Her code, penalties and redress.
    pub held: Held,
    /// Her score for her place or her code (RRS A4 to A7).
    pub base: Tenths,
    /// What her penalties add, in whole points (RRS 30.2, 44.3(c)).
    pub penalty: u32,
    /// Her score with penalties, without redress.
    pub plain: Tenths,
    /// Her score with points given as redress, before averages (RRS A9).
    pub score: RaceScore,
}

/// A group of a sheet's finishing order.
#[derive(Drop)]
pub struct SheetGroup {
    /// One more than the number of boats that finished in the groups ahead (RRS A4, A6.1).
    pub place: u16,
    /// How many of its boats finished, and share the place (RRS A7).
    pub sharing: u16,
    /// The numbers of its boats, those with a code among them.
    pub boats: Items<u16>,
}

/// A number of boats, or one more.
fn small(number: u32) -> u16
    requires { number ≤ MAX_BOATS + 1 }
    ensures { result ≡ number }
{
    number as u16
}

/// Returns what the race on a sheet is scored by (RRS A5.2, A5.3, 44.3(c)).
///
/// The only error is a failed allocation.
pub fn race_basis(alloc: Global, sheet: &RaceSheet, rules: &Rules) -> Result<RaceBasis, AllocError>
    ensures { IfOk result (λ basis.
        basis ≡ race_basis_of nat_eq rules.now (race_of sheet.now.order sheet.now.held)) }
{
    let held = sheet.all_held();
    let placed = placed_points(alloc, sheet.order(), held)?;
    let dnf = dnf(rules, held, &placed);
    Ok(RaceBasis {
        entered: small(entered(held)),
        came: small(number_came(held, &placed)),
        dnf: small(dnf),
        twenty_percent: small(twenty_percent(dnf)),
    })
}

/// The code by which a boat with this code is scored: DNC if she has none and isn't in the order.
fn status(code: Option<Code>, placed: bool) -> Option<Code>
    ensures { result ≡ status_code (status_by code placed) }
{
    match code {
        Some(code) => Some(code),
        None if placed => None,
        None => Some(Code::Dnc),
    }
}

/// Her score in its parts, by what she holds and her points for a place.
fn boat_scoring(rules: &Rules, held: &Held, placed: Option<u32>, entered: u32, dnf: u32) -> Scoring
    requires points { unwrap_or placed 0 ≤ most_place_points }
    requires entered { entered ≤ MAX_BOATS }
    requires dnf { dnf ≤ MAX_BOATS + 1 }
    requires penalties { (held.now.zfp ≤ MAX_PENALTIES)
        × (held.now.scp ≤ MAX_PENALTIES) }
    ensures { result ≡ scoring_with rules.now held.now placed entered dnf }
{
    let plain = plain(rules, held, placed, entered, dnf);
    Scoring {
        status: status(held.code, placed.is_some()),
        came: has_come(held, placed),
        held: *held,
        base: tenths(base(held.code, placed, entered, dnf)),
        penalty: penalty_points(rules, dnf, held),
        plain,
        score: score_by(plain, held, placed.is_some()),
    }
}

#[tactic(auto, using(crate::proofs::Ranges::ranges))]
fn each_scoring(alloc: Global, sheet: &RaceSheet, rules: &Rules) -> Result<Vec<Scoring>, AllocError>
    ensures { IfOk result (λ all. all.items
        ≡ map (scoring_of nat_eq rules.now (race_of sheet.now.order sheet.now.held))
        (range_with_len 0 (boats sheet.now))) }
{
    let order = sheet.order();
    let held = sheet.all_held();
    let placed = placed_points(alloc, order, held)?;
    let entered = entered(held);
    let dnf = dnf(rules, held, &placed);
    let mut all = Vec::with_capacity(alloc, held.len())?;
    for boat in 0..held.len() {
        all.push_reserved(boat_scoring(rules, &held[boat], placed[boat], entered, dnf));
    }
    Ok(all)
}

/// Returns the score of each boat on the sheet in its parts, in the order of the boats' numbers (RRS
/// A4 to A7, 30.2, 44.3(c)).
///
/// The only error is a failed allocation.
pub fn scorings(
    alloc: Global,
    sheet: &RaceSheet,
    rules: &Rules,
) -> Result<Items<Scoring>, AllocError>
    ensures { IfOk result (λ all. all
        ≡ map (scoring_of nat_eq rules.now (race_of sheet.now.order sheet.now.held))
        (range_with_len 0 (boats sheet.now))) }
{
    let all = each_scoring(alloc, sheet, rules)?;
    Ok(Items::new(all))
}

/// A copy of a group, with its place.
fn sheet_group(
    alloc: Global,
    place: u32,
    sharing: u32,
    group: &[u16],
) -> Result<SheetGroup, AllocError>
    requires place { place ≤ MAX_BOATS + 1 }
    requires sharing { sharing ≤ MAX_BOATS }
    ensures { IfOk result (λ found.
        found ≡ record { place = place; sharing = sharing; boats = group.now }) }
{
    let boats = Vec::from_slice(alloc, group)?;
    Ok(SheetGroup {
        place: small(place),
        sharing: small(sharing),
        boats: Items::new(boats),
    })
}

fn each_group(alloc: Global, order: &Groups, held: &[Held]) -> Result<Vec<SheetGroup>, AllocError>
    requires { IsSheet order.now held.now }
    ensures { IfOk result (λ groups. groups.items
        ≡ map sheet_group_of (placed_groups_of (race_of order.now held.now))) }
{
    let mut groups = Vec::with_capacity(alloc, order.len())?;
    let mut place = 1;
    for i in 0..order.len() {
        let group = order.group(i);
        let sharing = finishers(held, group);
        groups.push(sheet_group(alloc, place, sharing, group)?)?;
        place += sharing;
    }
    Ok(groups)
}

/// Returns the groups of the sheet's finishing order with their places (RRS A4, A6.1, A7), the best
/// first. Their boats are on the sheet.
///
/// The only error is a failed allocation.
pub fn placed_groups(alloc: Global, sheet: &RaceSheet) -> Result<Items<SheetGroup>, AllocError>
    ensures value { IfOk result (λ groups. groups
        ≡ map sheet_group_of (placed_groups_of (race_of sheet.now.order sheet.now.held))) }
    ensures within { IfOk result (λ groups.
        All (λ group. All (λ boat. boat < boats sheet.now) group.boats) groups) }
{
    let groups = each_group(alloc, sheet.order(), sheet.all_held())?;
    Ok(Items::new(groups))
}
