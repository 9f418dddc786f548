//! The time between start and finish, by the clock.

ghost use Rattle.std.specs.Prelude.{◌≡◌, ℕ, ◌≤◌, ◌<◌, ◌+◌, nat_le, if◌then◌else◌, Some, None};
ghost use Rattle.std.specs.Prelude.{IfOk};
ghost use Rattle.regatta_times.specs.Clock.{time_between};

use crate::numbers::Elapsed;
use std::marker::Model;
use thiserror::Error;

/// A time of day, in whole seconds past midnight, from 0 to 86,399.
#[derive(Clone, Copy, Debug, PartialEq, Eq, PartialOrd, Ord, Hash)]
pub struct TimeOfDay {
    seconds: u32,
}

impl Model for TimeOfDay {
    ghost Value = { ℕ };

    ghost view = { λ time. time.seconds };

    ghost invariant = { λ time. time.seconds ≤ 86399 };

    ghost inverse = { λ n. record { seconds = n } };
}

impl TimeOfDay {
    /// A time of day, in seconds past midnight; `None` above 86,399.
    pub fn new(seconds: u32) -> Option<TimeOfDay>
        ensures { result ≡ (if nat_le seconds 86399 then Some seconds else None) }
    {
        if seconds <= 86_399 {
            Some(TimeOfDay { seconds })
        } else {
            None
        }
    }

    /// How many seconds past midnight, from 0 to 86,399.
    pub fn get(self) -> u32
        ensures value { result ≡ self }
        ensures range { self ≤ 86399 }
    {
        self.seconds
    }
}

/// Why there is no elapsed time.
#[derive(Clone, Copy, Debug, PartialEq, Eq, Error)]
pub enum ClockFault {
    /// By the clock the finish is before the start, and the race doesn't go past midnight.
    #[error("the finish is before the start")]
    FinishBeforeStart,
}

/// Finish minus start. In a race that may go past midnight (`overnight`), a finish that the clock
/// shows before the start is one of the next day; so a race takes less than 24 hours.
///
/// # Errors
///
/// `FinishBeforeStart` where the clock shows the finish before the start and the race isn't
/// overnight.
pub fn between(start: TimeOfDay, finish: TimeOfDay, overnight: bool) -> Result<Elapsed, ClockFault>
    ensures value { result ≡ time_between start finish overnight }
    ensures range { IfOk result (λ elapsed. elapsed ≤ 86399) }
{
    let (start, finish) = (start.get(), finish.get());
    if start <= finish {
        Ok(Elapsed::of(finish - start))
    } else if overnight {
        Ok(Elapsed::of(finish + 86_400 - start))
    } else {
        Err(ClockFault::FinishBeforeStart)
    }
}
