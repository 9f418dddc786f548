//! The corrected times on a race sheet (RRS A3).
ghost use Rattle.std.specs.Prelude.{◌≡◌, ◌<◌, ◌++◌, ◌∷◌, [], length, replicate, slice_set};
ghost use Rattle.std.specs.Prelude.{None, IfOk};
ghost use Rattle.regatta_terms.specs.declared.limits.TheConstants.{MAX_BOATS};
ghost use Rattle.regatta_scores.specs.Sheet.{time_of};

use regatta_terms::Seconds;
use std::alloc::{AllocError, Global};
use std::marker::Model;

/// The corrected time of each boat, if she was placed by one. No list is made before a boat has a
/// time: copies of these times don't allocate until then.
#[derive(Drop)]
pub(crate) struct BoatTimes {
    /// The times of the first boats.
    seconds: Vec<Option<Seconds>>,
    /// The number of boats after them, none of whom has a time.
    further: u16,
}

impl Model for BoatTimes {
    ghost use Rattle.std.specs.Prelude.{List, Option, ℕ, ◌++◌, replicate, None};

    ghost Value = { List (Option ℕ) };

    ghost view = { λ t. t.seconds.items ++ replicate t.further None };
}

impl BoatTimes {
    pub(crate) fn none(alloc: Global, boats: u16) -> BoatTimes
        ensures { result ≡ replicate boats None }
    {
        BoatTimes {
            seconds: Vec::new(alloc),
            further: boats,
        }
    }

    pub(crate) fn of(&self, boat: u16) -> Option<Seconds>
        ensures { result ≡ time_of self.now boat }
    {
        match self.seconds.get(usize::from(boat)) {
            Some(time) => *time,
            None => None,
        }
    }

    pub(crate) fn copy(&self, alloc: Global) -> Result<BoatTimes, AllocError>
        ensures { IfOk result (λ copy. copy ≡ self.now) }
    {
        Ok(BoatTimes {
            seconds: Vec::from_slice(alloc, &self.seconds)?,
            further: self.further,
        })
    }

    /// Copies the times, with one more boat.
    pub(crate) fn with_boat(&self, alloc: Global) -> Result<BoatTimes, AllocError>
        requires { length self.now < MAX_BOATS }
        ensures { IfOk result (λ new. new ≡ self.now ++ None ∷ []) }
    {
        Ok(BoatTimes {
            seconds: Vec::from_slice(alloc, &self.seconds)?,
            further: self.further + 1,
        })
    }

    /// Copies the times, with this one of the boat, into a list with an item for each boat.
    pub(crate) fn with_time(
        &self,
        alloc: Global,
        boat: u16,
        time: Option<Seconds>,
    ) -> Result<BoatTimes, AllocError>
        requires { boat < length self.now }
        ensures { IfOk result (λ new. new ≡ slice_set self.now boat time) }
    {
        let boats = self.seconds.len() + usize::from(self.further);
        let mut seconds = Vec::with_capacity(alloc, boats)?;
        seconds.extend_from_slice(&self.seconds)?;
        seconds.resize(boats, None)?;
        seconds[usize::from(boat)] = time;
        Ok(BoatTimes {
            seconds,
            further: 0,
        })
    }

    /// Copies the times, without that of the boat, if she has one.
    pub(crate) fn without(&self, alloc: Global, boat: u16) -> Result<BoatTimes, AllocError>
        requires { boat < length self.now }
        ensures { IfOk result (λ new. new ≡ slice_set self.now boat None) }
    {
        match self.of(boat) {
            Some(_) => self.with_time(alloc, boat, None),
            None => self.copy(alloc),
        }
    }
}
