//! The systems of rating, and a boat's rating as her class's list has it.

use crate::numbers::{Allowance, Factor, PortsmouthNumber};

/// A system by which elapsed times are corrected.
#[derive(Clone, Copy, Debug, PartialEq, Eq)]
pub enum System {
    /// Time on time: a time-correction factor (TCF).
    Tcf,
    /// The Portsmouth Yardstick.
    Py,
    /// Time on distance: an allowance for each nautical mile, which may be negative.
    Tod,
}

/// What a boat's rating says, whatever the race.
#[derive(Clone, Copy, Debug, PartialEq, Eq)]
pub enum Handicap {
    /// A time-correction factor.
    ByFactor(Factor),
    /// A Portsmouth number.
    ByNumber(PortsmouthNumber),
    /// So much time is taken off for each mile.
    ByAllowance(Allowance),
    /// So much time is added for each mile.
    ByAddition(Allowance),
}
