//! What a run is to do, from the texts of its options.
ghost use Rattle.std.specs.Prelude.{◌≡◌, Some, IfOk};
ghost use Rattle.times.specs.Asked.{settings_of};

use crate::complaint::Complaint;
use regatta_terms::RaceNo;
use regatta_times::{Rounding, System, read_race, read_rounding, read_system};

/// What is printed of the corrected times.
#[derive(Clone, Copy, Debug, PartialEq, Eq)]
pub(crate) enum Form {
    /// The lines that the office reads.
    TimeLines,
    /// The sum for each boat.
    TimeSums,
}

/// The race, its system and the rule for rounding.
#[derive(Clone, Copy, Debug)]
pub(crate) struct Settings {
    pub(crate) race: RaceNo,
    pub(crate) system: System,
    pub(crate) rounding: Rounding,
}

/// Reads the settings from their texts.
///
/// # Errors
///
/// `BadRace`, `BadSystem` or `BadRounding`: the first text that isn't of its form.
pub(crate) fn settings_of(race: &str, system: &str, rounding: &str) -> Result<Settings, Complaint>
    ensures { IfOk result (λ settings.
        settings_of race.now system.now rounding.now ≡ Some settings) }
{
    let Some(race) = read_race(race.as_bytes()) else {
        return Err(Complaint::BadRace);
    };
    let Some(system) = read_system(system.as_bytes()) else {
        return Err(Complaint::BadSystem);
    };
    let Some(rounding) = read_rounding(rounding.as_bytes()) else {
        return Err(Complaint::BadRounding);
    };
    Ok(Settings {
        race,
        system,
        rounding,
    })
}
