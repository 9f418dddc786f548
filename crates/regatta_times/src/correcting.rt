//! The corrected time of a boat.

ghost use Rattle.std.specs.Prelude.{◌≡◌, ◌≤◌, ◌<◌, ◌^◌, ◌↔◌, Err, IfOk, IsTrue};
ghost use Rattle.regatta_times.specs.Corrected.{exact_time, corrected_time, on_time, on_distance};
ghost use Rattle.regatta_times.specs.Corrected.{by_portsmouth, with_distance};
ghost use Rattle.regatta_times.specs.Corrected.{RoundsExact, has_laps_of_another_system};
ghost use Rattle.regatta_times.specs.Corrected.{allows_too_much, is_too_long};

use crate::fraction::{Fraction, Rounding, round};
use crate::laps::Laps;
use crate::numbers::{Allowance, Distance, Elapsed, Factor, PortsmouthNumber};
use crate::rating::Rating;
use thiserror::Error;

/// Why there is no corrected time: the first that applies, in this order.
#[derive(Clone, Copy, Debug, PartialEq, Eq, Error)]
pub enum TimesFault {
    /// Laps are given, but the rating isn't a Portsmouth number.
    #[error("laps are given for another system than Portsmouth")]
    NotOfSystem,
    /// More time is allowed for the distance than the boat took.
    #[error("the corrected time is below zero")]
    Negative,
    /// The corrected time, rounded, is above 999,999 seconds.
    #[error("the corrected time is above 999999 seconds")]
    TooLong,
}

/// The corrected time under Portsmouth, before it is rounded.
fn by_number(elapsed: Elapsed, number: PortsmouthNumber, laps: Option<Laps>) -> Fraction
    ensures value { result ≡ by_portsmouth elapsed number laps }
    ensures divides { 0 < result.denominator }
    ensures small { result.denominator ≤ 10 ^ 12 }
    ensures short { result.numerator < 10 ^ 11 }
{
    let seconds = u64::from(elapsed.get());
    let number = u64::from(number.get());
    match laps {
        None => Fraction {
            numerator: seconds * 1000,
            denominator: number,
        },
        Some(laps) => Fraction {
            numerator: seconds * u64::from(laps.most()) * 1000,
            denominator: u64::from(laps.own()) * number,
        },
    }
}

/// The corrected time by a factor, before it is rounded.
fn by_factor(elapsed: Elapsed, factor: Factor) -> Fraction
    ensures value { result ≡ on_time elapsed factor }
    ensures short { result.numerator < 10 ^ 11 }
{
    Fraction {
        numerator: u64::from(elapsed.get()) * u64::from(factor.get()),
        denominator: 10_000,
    }
}

/// The corrected time by an allowance for the distance, before it is rounded.
fn by_distance(
    elapsed: Elapsed,
    allowance: Allowance,
    distance: Distance,
) -> Result<Fraction, TimesFault>
    ensures value { result ≡ on_distance elapsed allowance distance }
    ensures divides { IfOk result (λ time. time.denominator ≡ 10000) }
    ensures short { IfOk result (λ time. time.numerator < 10 ^ 11) }
{
    let sailed = u64::from(elapsed.get()) * 10_000;
    let allowed = u64::from(allowance.get()) * u64::from(distance.get());
    if sailed < allowed {
        return Err(TimesFault::Negative);
    }
    Ok(Fraction {
        numerator: sailed - allowed,
        denominator: 10_000,
    })
}

/// The corrected time by a negative allowance for the distance, before it is rounded.
fn with_addition(elapsed: Elapsed, allowance: Allowance, distance: Distance) -> Fraction
    ensures value { result ≡ with_distance elapsed allowance distance }
    ensures short { result.numerator < 10 ^ 11 }
{
    let sailed = u64::from(elapsed.get()) * 10_000;
    let added = u64::from(allowance.get()) * u64::from(distance.get());
    Fraction {
        numerator: sailed + added,
        denominator: 10_000,
    }
}

/// The corrected time as a fraction, before it is rounded.
pub(crate) fn exact(
    elapsed: Elapsed,
    rating: Rating,
    laps: Option<Laps>,
) -> Result<Fraction, TimesFault>
    ensures value { result ≡ exact_time elapsed rating laps }
    ensures divides { IfOk result (λ time. 0 < time.denominator) }
    ensures small { IfOk result (λ time. time.denominator ≤ 10 ^ 12) }
    ensures short { IfOk result (λ time. time.numerator < 10 ^ 11) }
{
    match rating {
        Rating::Portsmouth(number) => Ok(by_number(elapsed, number, laps)),
        Rating::TimeOnTime(factor) => match laps {
            None => Ok(by_factor(elapsed, factor)),
            Some(_) => Err(TimesFault::NotOfSystem),
        },
        Rating::TimeOnDistance(allowance, distance) => match laps {
            None => by_distance(elapsed, allowance, distance),
            Some(_) => Err(TimesFault::NotOfSystem),
        },
        Rating::AddedOnDistance(allowance, distance) => match laps {
            None => Ok(with_addition(elapsed, allowance, distance)),
            Some(_) => Err(TimesFault::NotOfSystem),
        },
    }
}

/// The corrected time in whole seconds, computed exactly and rounded once, at the end. Laps are
/// given only for Portsmouth racing in which boats may sail fewer laps than the most.
///
/// # Errors
///
/// The first fault in the order of [`TimesFault`].
#[tactic(auto, using(crate::proofs::FaultFacts::fault_facts))]
pub fn corrected(
    elapsed: Elapsed,
    rating: Rating,
    laps: Option<Laps>,
    rounding: Rounding,
) -> Result<u32, TimesFault>
    ensures value { result ≡ corrected_time elapsed rating laps rounding }
    ensures meaning { IfOk result (RoundsExact rounding (exact_time elapsed rating laps)) }
    ensures range { IfOk result (λ seconds. seconds ≤ 999999) }

    // these say when each fault comes: exactly then
    ensures not_of_system { (result ≡ Err TimesFault.NotOfSystem)
        ↔ IsTrue (has_laps_of_another_system rating laps) }
    ensures negative { (result ≡ Err TimesFault.Negative)
        ↔ IsTrue (allows_too_much elapsed rating laps) }
    ensures too_long { (result ≡ Err TimesFault.TooLong)
        ↔ IsTrue (is_too_long rounding (exact_time elapsed rating laps)) }
{
    let time = exact(elapsed, rating, laps)?;
    let seconds = round(rounding, time);
    if seconds <= 999_999 {
        Ok(seconds as u32)
    } else {
        Err(TimesFault::TooLong)
    }
}
