//! The names of races, systems and rules for rounding, for a command line.

ghost use Rattle.std.specs.Prelude.{◌≡◌};
ghost use Rattle.regatta_times.specs.Names.{race_of_text, rounding_of, system_of};

use crate::digits::number_within;
use crate::fraction::Rounding;
use crate::system::System;
use regatta_terms::{MAX_RACES, RaceNo};

/// The race that a text of one or two digits names, as in a line of the office; `None` for every
/// other text.
pub fn read_race(text: &[u8]) -> Option<RaceNo>
    ensures { result ≡ race_of_text text.now }
{
    let number = number_within(1, 2, 1, u64::from(MAX_RACES), text)?;
    RaceNo::new(number as u8)
}

/// The system that `tcf`, `py` or `tod` names; `None` for every other text.
pub fn read_system(text: &[u8]) -> Option<System>
    ensures { result ≡ system_of text.now }
{
    if text == b"tcf".as_slice() {
        Some(System::Tcf)
    } else if text == b"py".as_slice() {
        Some(System::Py)
    } else if text == b"tod".as_slice() {
        Some(System::Tod)
    } else {
        None
    }
}

/// The rule that `half-up`, `half-down`, `down` or `up` names; `None` for every other text.
pub fn read_rounding(text: &[u8]) -> Option<Rounding>
    ensures { result ≡ rounding_of text.now }
{
    if text == b"half-up".as_slice() {
        Some(Rounding::HalfUp)
    } else if text == b"half-down".as_slice() {
        Some(Rounding::HalfDown)
    } else if text == b"down".as_slice() {
        Some(Rounding::Down)
    } else if text == b"up".as_slice() {
        Some(Rounding::Up)
    } else {
        None
    }
}
