//! The fields of a row of a sheet, each read by itself.

ghost use Rattle.std.specs.Prelude.{◌≡◌};
ghost use Rattle.regatta_times.specs.Sheets.{above, by_clock, by_watch, distance_above, distance_at};
ghost use Rattle.regatta_times.specs.Sheets.{elapsed_at, from_start, handicap_at, lacks_laps};
ghost use Rattle.regatta_times.specs.Sheets.{laps_above, laps_at, laps_given, laps_of, rating_at};
ghost use Rattle.regatta_times.specs.Sheets.{start_above, start_at};

use crate::clock::{ClockFault, between};
use crate::digits::number_within;
use crate::fault::SheetFault;
use crate::numbers::{Distance, Elapsed, TimeOfDay};
use crate::rating::Rating;
use crate::ratings::{Rated, handicap_for};
use crate::reading::{read_distance, read_elapsed, read_time_of_day};
use crate::sheet::Boat;
use crate::system::Handicap;
use regatta_terms::Sail;

/// Her rating, from the list.
pub(crate) fn handicap_at(
    row: usize,
    sail: &Sail,
    ratings: &[Rated],
) -> Result<Handicap, SheetFault>
    ensures { result ≡ handicap_at row sail.now ratings.now }
{
    match handicap_for(sail, ratings) {
        Some(handicap) => Ok(handicap),
        None => Err(SheetFault::NoRating { row, sail: *sail }),
    }
}

fn start_above(boats: &[Boat]) -> Option<TimeOfDay>
    ensures { result ≡ start_above boats.now }
{
    match boats.last() {
        Some(boat) => boat.start,
        None => None,
    }
}

fn laps_above(boats: &[Boat]) -> Option<u8>
    ensures { result ≡ laps_above boats.now }
{
    match boats.last() {
        Some(boat) => boat.laps,
        None => None,
    }
}

fn distance_above(boats: &[Boat]) -> Option<Distance>
    ensures { result ≡ distance_above boats.now }
{
    match boats.last() {
        Some(boat) => boat.distance,
        None => None,
    }
}

/// Her start, or that of the boat above if the field is empty.
pub(crate) fn start_at(
    row: usize,
    boats: &[Boat],
    text: &[u8],
) -> Result<Option<TimeOfDay>, SheetFault>
    ensures { result ≡ start_at row boats.now text.now }
{
    if text.is_empty() {
        return Ok(start_above(boats));
    }
    match read_time_of_day(text) {
        Some(start) => Ok(Some(start)),
        None => Err(SheetFault::BadTime { row }),
    }
}

/// Her elapsed time from a start, if there is one.
fn from_start(
    row: usize,
    sail: &Sail,
    overnight: bool,
    start: &Option<TimeOfDay>,
    finish: TimeOfDay,
) -> Result<Elapsed, SheetFault>
    ensures { result ≡ from_start row sail.now overnight start.now finish }
{
    let Some(start) = start else {
        return Err(SheetFault::NoTime { row });
    };
    match between(*start, finish, overnight) {
        Ok(elapsed) => Ok(elapsed),
        Err(ClockFault::FinishBeforeStart) => {
            Err(SheetFault::FinishBeforeStart { row, sail: *sail })
        }
    }
}

/// Her elapsed time by the clock.
fn by_clock(
    row: usize,
    sail: &Sail,
    overnight: bool,
    start: &Option<TimeOfDay>,
    finish: &[u8],
) -> Result<Elapsed, SheetFault>
    ensures { result ≡ by_clock row sail.now overnight start.now finish.now }
{
    if finish.is_empty() {
        return Err(SheetFault::NoTime { row });
    }
    match read_time_of_day(finish) {
        Some(finish) => from_start(row, sail, overnight, start, finish),
        None => Err(SheetFault::BadTime { row }),
    }
}

/// Her elapsed time as it is given.
fn by_watch(row: usize, elapsed: &[u8], finish: &[u8]) -> Result<Elapsed, SheetFault>
    ensures { result ≡ by_watch row elapsed.now finish.now }
{
    if !finish.is_empty() {
        return Err(SheetFault::TwoTimes { row });
    }
    match read_elapsed(elapsed) {
        Some(elapsed) => Ok(elapsed),
        None => Err(SheetFault::BadTime { row }),
    }
}

/// Her elapsed time, as it is given or by the clock.
pub(crate) fn elapsed_at(
    row: usize,
    sail: &Sail,
    overnight: bool,
    start: &Option<TimeOfDay>,
    elapsed: &[u8],
    finish: &[u8],
) -> Result<Elapsed, SheetFault>
    ensures { result ≡ elapsed_at row sail.now overnight start.now elapsed.now finish.now }
{
    if elapsed.is_empty() {
        by_clock(row, sail, overnight, start, finish)
    } else {
        by_watch(row, elapsed, finish)
    }
}

/// From 1 to 99 laps, in one or two digits.
fn read_laps(text: &[u8]) -> Option<u8>
    ensures { result ≡ laps_of text.now }
{
    let laps = number_within(1, 2, 1, 99, text)?;
    Some(laps as u8)
}

/// Whether there is a boat above, and she has no laps.
fn lacks_laps(boats: &[Boat]) -> bool
    ensures { result ≡ lacks_laps (above boats.now) }
{
    match boats.last() {
        Some(boat) => boat.laps.is_none(),
        None => false,
    }
}

/// Her laps, which a race's boats all have, or none.
fn laps_given(row: usize, boats: &[Boat], text: &[u8]) -> Result<Option<u8>, SheetFault>
    ensures { result ≡ laps_given row boats.now text.now }
{
    if lacks_laps(boats) {
        return Err(SheetFault::BadLaps { row });
    }
    match read_laps(text) {
        Some(laps) => Ok(Some(laps)),
        None => Err(SheetFault::BadLaps { row }),
    }
}

/// Her laps, or those of the boat above if the field is empty.
pub(crate) fn laps_at(row: usize, boats: &[Boat], text: &[u8]) -> Result<Option<u8>, SheetFault>
    ensures { result ≡ laps_at row boats.now text.now }
{
    if text.is_empty() {
        Ok(laps_above(boats))
    } else {
        laps_given(row, boats, text)
    }
}

/// The distance, or that of the boat above if the field is empty.
pub(crate) fn distance_at(
    row: usize,
    boats: &[Boat],
    text: &[u8],
) -> Result<Option<Distance>, SheetFault>
    ensures { result ≡ distance_at row boats.now text.now }
{
    if text.is_empty() {
        return Ok(distance_above(boats));
    }
    match read_distance(text) {
        Some(distance) => Ok(Some(distance)),
        None => Err(SheetFault::BadDistance { row }),
    }
}

/// Her rating in this race. Only an allowance needs the distance.
pub(crate) fn rating_at(
    row: usize,
    handicap: Handicap,
    distance: &Option<Distance>,
) -> Result<Rating, SheetFault>
    ensures { result ≡ rating_at row handicap distance.now }
{
    match handicap {
        Handicap::ByFactor(factor) => Ok(Rating::TimeOnTime(factor)),
        Handicap::ByNumber(number) => Ok(Rating::Portsmouth(number)),
        Handicap::ByAllowance(allowance) => match distance {
            Some(miles) => Ok(Rating::TimeOnDistance(allowance, *miles)),
            None => Err(SheetFault::BadDistance { row }),
        },
        Handicap::ByAddition(allowance) => match distance {
            Some(miles) => Ok(Rating::AddedOnDistance(allowance, *miles)),
            None => Err(SheetFault::BadDistance { row }),
        },
    }
}
