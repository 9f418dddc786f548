//! Averages of a boat's points in other races (RRS A9).

ghost use Rattle.std.specs.Prelude.{◌≡◌, ◌+◌, ◌*◌, ◌<◌, ◌≤◌, nat_eq, length, filter};
ghost use Rattle.std.specs.Prelude.{Some, None, Ok, Err, sum_by, if◌then◌else◌};
ghost use Rattle.std.specs.List.{find, list_any};
ghost use Rattle.regatta_terms.specs.declared.limits.TheConstants.{MAX_RACES};
ghost use Rattle.regatta_rulings.specs.Averages.{average_of as average_of_races, bar_of};
ghost use Rattle.regatta_rulings.specs.Averages.{is_average as is_average_in, is_chosen as is_chosen_by};
ghost use Rattle.regatta_rulings.specs.Averages.{is_scored as is_scored_in};
ghost use Rattle.regatta_rulings.specs.Averages.{is_counted as is_counted_by, is_open as is_open_in};
ghost use Rattle.regatta_rulings.specs.Shares.{nearest as nearest_of};

use crate::decision::{Bar, Races};
use crate::shares::{nearest, tenths};
use regatta_terms::Tenths;

/// A race that counts for the series, as an average of one boat looks at it.
#[derive(Clone, Copy, Debug, PartialEq, Eq)]
pub struct SailedRace {
    /// Its number.
    pub race: u8,
    /// Whether she came to the starting area.
    pub came: bool,
    /// Whether she has an average there.
    pub averaged: bool,
    /// Her points there, by a decision if there is one.
    pub points: Tenths,
}

/// Whether two races are the same.
fn is_race(race: u8, other: u8) -> bool
    ensures { result ≡ nat_eq race other }
{
    race == other
}

/// Whether these races have that one.
pub(crate) fn names(races: &[u8], race: u8) -> bool
    ensures { result ≡ list_any (nat_eq race) races.now }
{
    races.iter().any(|other| is_race(race, *other))
}

/// Whether a race counts for the series.
fn is_scored(sailed: &[SailedRace], race: u8) -> bool
    ensures { result ≡ is_scored_in sailed.now race }
{
    sailed.iter().any(|other| is_race(race, other.race))
}

/// Whether a decision chooses this race for an average in another.
fn is_chosen(races: &Races, race: u8, other: &SailedRace) -> bool
    ensures { result ≡ is_chosen_by races.now race other.now }
{
    match races {
        Races::Chosen(races) => names(races.as_slice(), other.race),
        Races::Sailed => other.came,
        Races::Others => true,
        Races::Earlier => other.race < race,
    }
}

/// Whether the average counts it.
fn is_counted(races: &Races, race: u8, other: &SailedRace) -> bool
    ensures { result ≡ is_counted_by races.now race other.now }
{
    other.race != race && !other.averaged && is_chosen(races, race, other)
}

fn is_open(sailed: &[SailedRace], race: u8) -> bool
    ensures { result ≡ is_open_in sailed.now race }
{
    !is_scored(sailed, race)
}

fn is_average(sailed: &[SailedRace], race: u8) -> bool
    ensures { result ≡ is_average_in sailed.now race }
{
    sailed
        .iter()
        .any(|other| other.race == race && other.averaged)
}

fn first_open(sailed: &[SailedRace], races: &[u8]) -> Option<u8>
    ensures { result ≡ find (is_open_in sailed.now) races.now }
{
    races.iter().copied().find(|race| is_open(sailed, *race))
}

fn first_average(sailed: &[SailedRace], races: &[u8]) -> Option<u8>
    ensures { result ≡ find (is_average_in sailed.now) races.now }
{
    races.iter().copied().find(|race| is_average(sailed, *race))
}

/// Why an average can't count the races that it names.
fn bar(sailed: &[SailedRace], races: &Races) -> Option<Bar>
    ensures { result ≡ bar_of sailed.now races.now }
{
    let Races::Chosen(races) = races else {
        return None;
    };
    match first_open(sailed, races.as_slice()) {
        Some(race) => Some(Bar::Open(race)),
        None => match first_average(sailed, races.as_slice()) {
            Some(race) => Some(Bar::OfAverage(race)),
            None => None,
        },
    }
}

/// How many races an average counts, and the sum of her points there.
#[derive(Clone, Copy)]
struct Tally {
    number: u32,
    sum: u32,
}

/// These with one more race, if it is counted.
fn with_race(so_far: Tally, is_counted: bool, points: Tenths) -> Tally
    requires number { so_far.number < 1000 }
    requires sum { so_far.sum ≤ 65535 * so_far.number }
    ensures number { result.number ≡ so_far.number + (if is_counted then 1 else 0) }
    ensures sum { result.sum ≡ so_far.sum + (if is_counted then points else 0) }
    ensures bound { result.sum ≤ 65535 * result.number }
{
    if is_counted {
        Tally {
            number: so_far.number + 1,
            sum: so_far.sum + points.get(),
        }
    } else {
        so_far
    }
}

#[tactic(auto, using(crate::proofs::AverageFacts::number_more, crate::proofs::AverageFacts::sum_more))]
fn counted(sailed: &[SailedRace], races: &Races, race: u8) -> Tally
    requires { length sailed.now ≤ MAX_RACES }
    ensures number { result.number ≡ length (filter (is_counted_by races.now race) sailed.now) }
    ensures sum { result.sum
        ≡ sum_by (λ other. other.points) (filter (is_counted_by races.now race) sailed.now) }
    ensures few { result.number ≤ MAX_RACES }
    ensures bound { result.sum ≤ 65535 * result.number }
{
    let mut so_far = Tally { number: 0, sum: 0 };
    for other in sailed {
        so_far = with_race(so_far, is_counted(races, race, other), other.points);
    }
    so_far
}

/// Returns a boat's average in `race`, from her points in the races that count for the series (RRS
/// A9(a), A9(b)): to the nearest tenth, 0.05 upward. It counts neither `race` itself, nor a race in
/// which she has an average.
///
/// # Errors
///
/// `Open` with the first race that the decision names and that isn't one of `sailed`; `OfAverage`
/// with the first that it names in which she has an average; `NoRace` if no race is left.
pub fn average_of(races: &Races, race: u8, sailed: &[SailedRace]) -> Result<Tenths, Bar>
    requires { length sailed.now ≤ MAX_RACES }
    ensures { result ≡ average_of_races races.now race sailed.now }
{
    match bar(sailed, races) {
        Some(bar) => Err(bar),
        None => average(counted(sailed, races, race)),
    }
}

fn average(over: Tally) -> Result<Tenths, Bar>
    requires few { over.number ≤ MAX_RACES }
    requires bound { over.sum ≤ 65535 * over.number }
    ensures { result ≡ (if nat_eq over.number 0 then Err Bar.NoRace
        else Ok (nearest_of over.sum over.number)) }
{
    if over.number == 0 {
        return Err(Bar::NoRace);
    }
    Ok(tenths(nearest(u64::from(over.sum), u64::from(over.number)) as u32))
}
