//! Shares of a DNF score, rounded once, and the scores that they lead to.

ghost use Rattle.std.specs.Prelude.{◌≡◌, ◌+◌, ◌*◌, ◌<◌, ◌≤◌, Some, None, IfSome};
ghost use Rattle.regatta_terms.specs.declared.limits.TheConstants.{MAX_BOATS};
ghost use Rattle.regatta_rulings.specs.Shares.{amount_points as amount_points_of};
ghost use Rattle.regatta_rulings.specs.Shares.{limit_points as limit_points_of};
ghost use Rattle.regatta_rulings.specs.Shares.{limited as limited_of, penalised as penalised_of};
ghost use Rattle.regatta_rulings.specs.Shares.{IsNearest, nearest as nearest_of, share as share_of};

use crate::decision::{Amount, Limit};
use regatta_terms::Tenths;

/// A fraction, rounded to the nearest whole number, a half upward.
#[tactic(auto, using(crate::proofs::Rounding::nearest_is))]
pub(crate) fn nearest(numerator: u64, denominator: u64) -> u64
    requires numerator { numerator < 4000000000 }
    requires denominator { (0 < denominator) × (denominator < 4000000000) }
    ensures value { result ≡ nearest_of numerator denominator }
    ensures nearest { IsNearest numerator denominator result }
{
    (2 * numerator + denominator) / (2 * denominator)
}

/// A percentage of a race's DNF score, both in whole points: to the nearest whole point, a half
/// upward (RRS 44.3(c)).
pub fn share(percent: u8, dnf: u16) -> u32
    ensures value { result ≡ share_of percent dnf }
    ensures nearest { IsNearest (percent * dnf) 100 result }
{
    nearest(u64::from(percent) * u64::from(dnf), 100) as u32
}

/// What a penalty adds to a score, in tenths.
fn amount_points(dnf: u16, amount: Amount) -> u32
    ensures { result ≡ amount_points_of dnf amount }
{
    match amount {
        Amount::Percent(percent) => 10 * share(percent, dnf),
        Amount::Plus(points) => points.get(),
    }
}

/// A score made worse by a penalty in a race with this DNF score, up to the DNF score. A score that
/// is no better than that stays (RRS 44.3(c)).
pub fn penalised(dnf: u16, before: Tenths, amount: Amount) -> Tenths
    requires { dnf ≤ MAX_BOATS + 1 }
    ensures { result ≡ penalised_of dnf before amount }
{
    let worst = 10 * u32::from(dnf);
    let worse = before.get() + amount_points(dnf, amount);
    tenths(before.get().max(worse.min(worst)))
}

/// The points of a time limit without penalties, by those of the last place.
pub(crate) fn limit_points(last: Option<u32>, limit: Limit) -> Option<u64>
    ensures value { result ≡ limit_points_of last limit }
    ensures bound { IfSome result (λ points. points ≤ 10000000000) }
{
    match limit {
        Limit::Score(points) => Some(u64::from(points.get())),
        Limit::AfterLast(more) => match last {
            Some(last) => Some(u64::from(last) + 10 * u64::from(more)),
            None => None,
        },
    }
}

/// The score of a boat that didn't finish within the time limit, in a race with this DNF score: her
/// points in tenths with her penalties in whole points. It is no worse than the DNF score.
pub fn limited(dnf: u16, points: u64, penalty: u32) -> Tenths
    requires dnf { dnf ≤ MAX_BOATS + 1 }
    requires points { points ≤ 10000000000 }
    ensures { result ≡ limited_of dnf points penalty }
{
    tenths((points + 10 * u64::from(penalty)).min(10 * u64::from(dnf)) as u32)
}

pub(crate) fn tenths(points: u32) -> Tenths
    requires { points ≤ 65535 }
    ensures { result ≡ points }
{
    Tenths::new(points).unwrap()
}
