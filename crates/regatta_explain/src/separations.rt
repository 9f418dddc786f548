//! Which rule separates two boats with the same series score (RRS A8.1, A8.2).

ghost use Rattle.std.specs.Prelude.{◌≡◌, ◌≤◌, ◌⊎◌, find, length};
ghost use Rattle.regatta_terms.specs.declared.limits.TheConstants.{MAX_RACES};
ghost use Rattle.regatta_explain.specs.Separations.{compared_back, compared_from, differ};
ghost use Rattle.regatta_explain.specs.Separations.{separation_by, unlike as unlike_of};

use crate::parts::{Compared, Separation};
use regatta_terms::{RaceNo, Tenths};

/// Two scores and their place, if they differ.
fn unlike(at: u8, first: Tenths, second: Tenths) -> Option<Compared>
    ensures { result ≡ unlike_of at first second }
{
    if first.get() == second.get() {
        return None;
    }
    Some(Compared { at, first, second })
}

/// The lesser of two lengths.
fn shorter(first: usize, second: usize) -> usize
    ensures at_first { result ≤ first }
    ensures at_second { result ≤ second }
    ensures one { (result ≡ first) ⊎ (result ≡ second) }
{
    if first < second { first } else { second }
}

/// The first difference of the scores that count, from best to worst (RRS A8.1).
pub fn first_difference(first: &[Tenths], second: &[Tenths]) -> Option<Compared>
    requires { length first.now ≤ MAX_RACES }
    ensures { result ≡ find differ (compared_from 1 first.now second.now) }
{
    let count = shorter(first.len(), second.len());
    for i in 0..count {
        if let Some(found) = unlike(i as u8 + 1, first[i], second[i]) {
            return Some(found);
        }
    }
    None
}

/// The first difference of all scores, from the last race back (RRS A8.2).
pub fn last_difference(races: &[RaceNo], first: &[Tenths], second: &[Tenths]) -> Option<Compared>
    requires first_long { length first.now ≡ length races.now }
    requires second_long { length second.now ≡ length races.now }
    ensures { result ≡ find differ (compared_back races.now first.now second.now) }
{
    for back in 0..races.len() {
        let at = races.len() - 1 - back;
        if let Some(found) = unlike(races[at].get(), first[at], second[at]) {
            return Some(found);
        }
    }
    None
}

/// The rule that separates them, from the first difference of each rule.
pub fn separation_of(best: Option<Compared>, last: Option<Compared>) -> Separation
    ensures { result ≡ separation_by best last }
{
    match (best, last) {
        (Some(best), _) => Separation::ByBest(best),
        (None, Some(last)) => Separation::ByLast(last),
        (None, None) => Separation::ByNothing,
    }
}
