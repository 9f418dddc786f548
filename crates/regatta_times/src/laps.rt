//! Laps, for races in which slower boats may sail fewer of them.

ghost use Rattle.std.specs.Prelude.{◌≡◌, ◌≤◌, nat_le, ◌&&◌, if◌then◌else◌, Some, None};
ghost use Rattle.regatta_times.specs.Laps.{LapCounts, are_laps};

use std::marker::Model;

/// How many laps a boat sailed, and the most that any boat sailed: 1 to 99 each, and a boat's own
/// are no more than the most.
#[derive(Clone, Copy, Debug, PartialEq, Eq)]
pub struct Laps {
    sailed: u8,
    at_most: u8,
}

impl Model for Laps {
    ghost use Rattle.std.specs.Prelude.{IsTrue};
    ghost use Rattle.regatta_times.specs.Laps.{LapCounts, are_laps};

    ghost Value = { LapCounts };

    ghost view = { λ laps. record { own = laps.sailed; most = laps.at_most } };

    ghost invariant = { λ laps. IsTrue (are_laps laps.sailed laps.at_most) };

    ghost inverse = { λ laps. record { sailed = laps.own; at_most = laps.most } };
}

impl Laps {
    /// Her own laps, and the most of any boat; `None` where they aren't 1 to 99 each, or where her
    /// own are more than the most.
    pub fn new(own: u8, most: u8) -> Option<Laps>
        ensures { result ≡ (if are_laps own most
            then Some (record { own = own; most = most }) else None) }
    {
        if 1 <= own && own <= most && most <= 99 {
            Some(Laps {
                sailed: own,
                at_most: most,
            })
        } else {
            None
        }
    }

    /// How many laps the boat sailed.
    pub fn own(self) -> u8
        ensures value { result ≡ self.own }
        ensures range { (1 ≤ result) × (result ≤ 99) }
    {
        self.sailed
    }

    /// How many laps any boat sailed at most.
    pub fn most(self) -> u8
        ensures value { result ≡ self.most }
        ensures range { (1 ≤ result) × (result ≤ 99) }
    {
        self.at_most
    }
}
