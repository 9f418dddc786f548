//! The corrected times of a race's boats.

ghost use Rattle.std.specs.Prelude.{◌≡◌, ◌⊎◌, ◌≤◌, [], Ok, Err, IfOk, IfErr};
ghost use Rattle.regatta_times.specs.Timings.{laps_with, more_laps, most_laps, seconds_of, timed_after};
ghost use Rattle.regatta_times.specs.Timings.{timed_of, timed_with, times_of_boats};

use crate::correcting::corrected;
use crate::fault::{SheetFault, fault_of_time};
use crate::fraction::Rounding;
use crate::laps::Laps;
use crate::numbers::Elapsed;
use crate::rating::Rating;
use crate::sheet::Boat;
use regatta_terms::Sail;
use std::alloc::Global;

/// A boat with her corrected time, and all that it was computed from.
#[derive(Clone, Copy, Debug)]
pub struct Timed {
    /// Her sail.
    pub sail: Sail,
    /// Her rating, and the distance if the system needs it.
    pub rating: Rating,
    /// Her elapsed time.
    pub elapsed: Elapsed,
    /// Her laps and the most of the race, if laps were counted.
    pub laps: Option<Laps>,
    /// Her corrected time in whole seconds, from 0 to 999,999.
    pub seconds: u32,
}

fn more_laps(most: u8, laps: Option<u8>) -> u8
    ensures { result ≡ more_laps most laps }
{
    match laps {
        Some(laps) => { if most < laps { laps } else { most } }
        None => most,
    }
}

/// The most laps that any boat sailed; 0 if none has any.
#[tactic(auto, using(crate::proofs::SheetFacts::most_from, crate::proofs::SheetFacts::most_end))]
fn most_laps(boats: &[Boat]) -> u8
    ensures { result ≡ most_laps 0 boats.now }
{
    let mut most = 0;
    for boat in boats {
        most = more_laps(most, boat.laps);
    }
    most
}

/// A boat's laps with the most of the race.
fn laps_with(most: u8, row: usize, laps: Option<u8>) -> Result<Option<Laps>, SheetFault>
    ensures { result ≡ laps_with most row laps }
{
    let Some(laps) = laps else {
        return Ok(None);
    };
    match Laps::new(laps, most) {
        Some(laps) => Ok(Some(laps)),
        None => Err(SheetFault::BadLaps { row }),
    }
}

/// A boat with her corrected time, given her laps and the most.
fn timed_with(rounding: Rounding, boat: &Boat, laps: Option<Laps>) -> Result<Timed, SheetFault>
    ensures { result ≡ timed_with rounding boat.now laps }
{
    let seconds = seconds_of(rounding, boat, &laps)?;
    Ok(Timed {
        sail: boat.sail,
        rating: boat.rating,
        elapsed: boat.elapsed,
        laps,
        seconds,
    })
}

/// A boat's corrected time, given her laps and the most.
fn seconds_of(rounding: Rounding, boat: &Boat, laps: &Option<Laps>) -> Result<u32, SheetFault>
    ensures { result ≡ seconds_of rounding boat.now laps.now }
{
    let seconds = match laps {
        Some(laps) => corrected(boat.elapsed, boat.rating, Some(*laps), rounding),
        None => corrected(boat.elapsed, boat.rating, None, rounding),
    };
    match seconds {
        Ok(seconds) => Ok(seconds),
        Err(fault) => Err(fault_of_time(boat.row, boat.sail, fault)),
    }
}

/// A boat with her corrected time.
fn timed_of(rounding: Rounding, most: u8, boat: &Boat) -> Result<Timed, SheetFault>
    ensures { result ≡ timed_of rounding most boat.now }
{
    let laps = laps_with(most, boat.row, boat.laps)?;
    let timed = timed_with(rounding, boat, laps)?;
    Ok(timed)
}

/// Computes the corrected times of a race's boats, in the order of the sheet. Each is computed
/// exactly and rounded once; laps count against the most of all boats.
///
/// # Errors
///
/// The fault of the first boat that has one, or `NoMemory` if an allocation fails before it.
pub fn times_of_boats(
    alloc: Global,
    rounding: Rounding,
    boats: &[Boat],
) -> Result<Vec<Timed>, SheetFault>
    ensures ok { IfOk result (λ times. times_of_boats rounding boats.now ≡ Ok times.items) }
    ensures fault { IfErr result (λ fault. (fault ≡ SheetFault.NoMemory)
        ⊎ (times_of_boats rounding boats.now ≡ Err fault)) }
{
    let most = most_laps(boats);
    match times_with(alloc, rounding, most, boats) {
        Ok(times) => Ok(times),
        Err(fault) => Err(fault),
    }
}

/// The same, given the most laps.
fn times_with(
    alloc: Global,
    rounding: Rounding,
    most: u8,
    boats: &[Boat],
) -> Result<Vec<Timed>, SheetFault>
    ensures ok { IfOk result (λ times.
        timed_after rounding most [] boats.now ≡ Ok times.items) }
    ensures fault { IfErr result (λ fault. (fault ≡ SheetFault.NoMemory)
        ⊎ (timed_after rounding most [] boats.now ≡ Err fault)) }
{
    // A loop that fills a list has to name the types of its parts.
    let _parts: Option<Laps> = None;
    let mut times = Vec::new(alloc);
    for boat in boats {
        let timed = match timed_of(rounding, most, boat) {
            Ok(timed) => timed,
            Err(fault) => return Err(fault),
        };
        if times.push(timed).is_err() {
            return Err(SheetFault::NoMemory);
        }
    }
    Ok(times)
}
