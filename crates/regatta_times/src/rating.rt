//! The rating of a boat, under one of three systems.

use crate::numbers::{Allowance, Distance, Factor, PortsmouthNumber};

/// The rating of a boat, by the system under which it corrects her elapsed time.
#[derive(Clone, Copy, Debug, PartialEq, Eq)]
pub enum Rating {
    /// The elapsed time is multiplied by a factor.
    TimeOnTime(Factor),
    /// The elapsed time is multiplied by 1,000 and divided by the boat's number; where boats sail
    /// different numbers of laps, it is first raised to the most laps.
    Portsmouth(PortsmouthNumber),
    /// So much time is taken off for each mile of the course.
    TimeOnDistance(Allowance, Distance),
    /// So much time is added for each mile of the course: a negative allowance, as the fastest boats
    /// have in systems whose scale begins at a slower one.
    AddedOnDistance(Allowance, Distance),
}
