//! Races that a decision names.

ghost use Rattle.std.specs.Prelude.{◌≡◌, ◌≤◌, length};
ghost use Rattle.regatta_terms.specs.declared.limits.TheConstants.{MAX_RACES};
ghost use Rattle.regatta_rulings.specs.RaceLists.{in_slots};

use std::marker::Model;

/// At most 40 races, by their numbers, in the order in which they are named. Contracts see a plain
/// list.
#[derive(Clone, Copy, Debug, PartialEq, Eq)]
pub struct RaceList {
    slots: [u8; 40],
    count: usize,
}

impl Model for RaceList {
    ghost use Rattle.std.specs.Prelude.{List, ℕ, length, take};
    ghost use Rattle.regatta_rulings.specs.RaceLists.{IsStored, in_slots};

    ghost Value = { List ℕ };

    ghost view = { λ list. take list.count list.slots };

    ghost invariant = { λ list. IsStored list.slots list.count };

    ghost inverse = { λ races. record { slots = in_slots races; count = length races } };

    ghost inverse_ok = { λ list stored i. record {
      slots = stored.padding i;
      count = stored.holds i;
    } };
}

/// The races in their slots, padded with zeros.
#[tactic(auto, using(crate::proofs::Stored::rest_is_zeros))]
fn slots_of(races: &[u8]) -> [u8; 40]
    requires { length races.now ≤ MAX_RACES }
    ensures { result ≡ in_slots races.now }
{
    let mut slots = [0; 40];
    slots[..races.len()].copy_from_slice(races);
    slots
}

impl RaceList {
    /// Makes a list of these races.
    #[tactic(auto, using(crate::proofs::Stored::slots_are_stored))]
    pub fn new(races: &[u8]) -> RaceList
        requires { length races.now ≤ MAX_RACES }
        ensures { result ≡ races.now }
    {
        RaceList {
            slots: slots_of(races),
            count: races.len(),
        }
    }

    /// The races, in the order in which they are named.
    pub fn as_slice(&self) -> &[u8]
        ensures value { result.now ≡ self.now }
        ensures few { length result.now ≤ MAX_RACES }
    {
        &self.slots[..self.count]
    }
}
