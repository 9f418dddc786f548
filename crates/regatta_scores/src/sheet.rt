//! One race: the finishing order, and each boat's code, penalties and redress.
ghost use Rattle.std.specs.Prelude.{◌≡◌, ◌<◌, ◌≤◌, ◌↔◌, ℕ, [], nat_eq, slice_get, Some, IsTrue};
ghost use Rattle.std.specs.Prelude.{◌++◌, ◌∷◌, length, slice_set, IfOk, false};
ghost use Rattle.regatta_terms.specs.declared.limits.TheConstants.{MAX_BOATS, MAX_PENALTIES};
ghost use Rattle.regatta_scores.specs.Journal.{holds_nothing};
ghost use Rattle.regatta_scores.specs.Sheet.{boats, empty_sheet, nothing_held, time_of};
ghost use Rattle.regatta_scores.specs.Order.{stands_in};
ghost use Rattle.regatta_scores.specs.SheetFacts.{IsSheet, IsWhole, Allows};
ghost use Rattle.regatta_scores.specs.declared.sheet.Change.TheVariants as add;
ghost use Rattle.regatta_scores.specs.Changes.{after};

use crate::boat_times::BoatTimes;
use crate::groups::Groups;
use crate::{orders, timed};
use regatta_terms::{Code, Redress, Seconds};
use std::alloc::{AllocError, Global};
use std::marker::Model;

/// A boat's code, penalties and redress in one race.
#[derive(Clone, Copy, Debug, Default, PartialEq, Eq)]
pub struct Held {
    /// The code by which she is scored instead of her finishing place, if any (RRS A10).
    pub code: Option<Code>,
    /// The number of her 20% penalties for breaking RRS 30.2, at most
    /// [`MAX_PENALTIES`](regatta_terms::MAX_PENALTIES).
    pub zfp: u8,
    /// The number of her Scoring Penalties (RRS 44.3), at most
    /// [`MAX_PENALTIES`](regatta_terms::MAX_PENALTIES).
    pub scp: u8,
    /// The redress that replaces her score, if any (RRS A9).
    pub redress: Option<Redress>,
}

impl Held {
    /// Whether she has no code, no penalty and no redress.
    pub fn is_nothing(&self) -> bool
        ensures { result ≡ holds_nothing self.now }
    {
        self.code.is_none() && self.zfp == 0 && self.scp == 0 && self.redress.is_none()
    }
}

/// No code, no penalty and no redress.
pub const NOTHING_HELD: Held = Held {
    code: None,
    zfp: 0,
    scp: 0,
    redress: None,
};

/// One race: the finishing order, in groups of tied boats (RRS A3, A7), what each boat holds, and
/// the corrected time of each boat that was placed by one. Boats are numbered from 0, in the order
/// of the entry list. There are at most [`MAX_BOATS`](regatta_terms::MAX_BOATS).
#[derive(Drop)]
pub struct RaceSheet {
    order: Groups,
    held: Vec<Held>,
    seconds: BoatTimes,
}

impl Model for RaceSheet {
    ghost use Rattle.regatta_scores.specs.Sheet.{Sheet};

    ghost Value = { Sheet };

    ghost view = { λ s. record {
      order = s.order;
      held = s.held.items;
      seconds = s.seconds;
    } };

    ghost use Rattle.regatta_scores.specs.SheetFacts.{IsWhole};

    ghost invariant = { λ s. IsWhole s.order s.held.items s.seconds };
}

/// Copies what the boats hold, for one more boat, who holds nothing.
fn held_with_boat(alloc: Global, all: &[Held]) -> Result<Vec<Held>, AllocError>
    ensures { IfOk result (λ new. new.items ≡ all.now ++ nothing_held ∷ []) }
{
    let mut new = Vec::with_capacity(alloc, all.len() + 1)?;
    new.extend_from_slice(all)?;
    new.push(NOTHING_HELD)?;
    Ok(new)
}

/// Copies what the boats hold, with this for one of them.
fn held_with_change(
    alloc: Global,
    all: &[Held],
    boat: u16,
    held: Held,
) -> Result<Vec<Held>, AllocError>
    requires { boat < length all.now }
    ensures { IfOk result (λ new. new.items ≡ slice_set all.now boat held) }
{
    let mut new = Vec::from_slice(alloc, all)?;
    new[usize::from(boat)] = held;
    Ok(new)
}

impl RaceSheet {
    /// Makes a sheet of at most [`MAX_BOATS`](regatta_terms::MAX_BOATS) boats, on which no boat is
    /// placed or holds anything.
    ///
    /// The only error is a failed allocation.
    #[tactic(auto, using(crate::proofs::Fresh::fresh_whole))]
    pub fn new(alloc: Global, boats: u16) -> Result<RaceSheet, AllocError>
        requires { boats ≤ MAX_BOATS }
        ensures { IfOk result (λ sheet. sheet ≡ empty_sheet boats) }
    {
        Ok(RaceSheet {
            order: Groups::new(alloc),
            held: vec![in alloc; NOTHING_HELD; usize::from(boats)]?,
            seconds: BoatTimes::none(alloc, boats),
        })
    }

    /// Whether the boat, one of the sheet's, is in the finishing order, with or without a code.
    pub fn placed(&self, boat: u16) -> bool
        requires { boat < boats self.now }
        ensures { result ≡ stands_in nat_eq boat self.now.order }
    {
        self.order.contains(boat)
    }

    /// The code, penalties and redress of the boat, one of the sheet's.
    pub fn held(&self, boat: u16) -> Held
        requires { boat < boats self.now }
        ensures value { slice_get self.now.held boat ≡ Some result }
        ensures few { (result.zfp ≤ MAX_PENALTIES) × (result.scp ≤ MAX_PENALTIES) }
    {
        self.held[usize::from(boat)]
    }

    /// The corrected time by which the boat, one of the sheet's, was placed, if any.
    pub fn seconds(&self, boat: u16) -> Option<Seconds>
        requires { boat < boats self.now }
        ensures { result ≡ time_of self.now.seconds boat }
    {
        self.seconds.of(boat)
    }

    /// Whether the finishing order is empty.
    pub fn is_empty(&self) -> bool
        ensures order { IsTrue result ↔ (self.now.order ≡ []) }
        ensures nobody { IsTrue result
            ↔ ((boat : ℕ) → stands_in nat_eq boat self.now.order ≡ false) }
    {
        self.order.is_empty()
    }

    /// Returns a copy of the sheet after a change that the sheet allows:
    ///
    /// - A boat may be added below [`MAX_BOATS`](regatta_terms::MAX_BOATS) boats.
    /// - The boats that a change names are on the sheet.
    /// - A boat that is placed (last, tied, ahead or by her time) isn't in the order yet.
    /// - The boat that she joins or goes ahead of, and a boat that goes out, are in the order.
    /// - A boat holds at most [`MAX_PENALTIES`](regatta_terms::MAX_PENALTIES) penalties of each
    /// kind.
    ///
    /// The only error is a failed allocation.
    pub fn after(&self, change: Change) -> Result<RaceSheet, AllocError>
        requires { Allows self.now change }
        ensures { IfOk result (λ sheet. sheet ≡ after self.now change) }
    {
        let alloc = *self.held.allocator();
        self.changed(alloc, change)
    }

    fn changed(&self, alloc: Global, change: Change) -> Result<RaceSheet, AllocError>
        requires { Allows self.now change }
        ensures { IfOk result (λ sheet. sheet ≡ after self.now change) }
    {
        match change {
            Change::AddBoat => self.with_boat(alloc),
            Change::Last { boat } => {
                let order = orders::with_last(alloc, &self.order, boat)?;
                self.with_order(alloc, order)
            }
            Change::Join { boat, other } => {
                let order = orders::joined(alloc, &self.order, boat, other)?;
                self.with_order(alloc, order)
            }
            Change::Ahead { boat, other } => {
                let order = orders::with_ahead(alloc, &self.order, boat, other)?;
                self.with_order(alloc, order)
            }
            Change::Timed { boat, seconds } => {
                let order = timed::with_time(alloc, &self.order, &self.seconds, boat, seconds)?;
                let times = self.seconds.with_time(alloc, boat, Some(seconds))?;
                self.with_places(alloc, order, times)
            }
            Change::Out { boat } => {
                let order = orders::without(alloc, &self.order, boat)?;
                let times = self.seconds.without(alloc, boat)?;
                self.with_places(alloc, order, times)
            }
            Change::Hold { boat, held } => self.with_held(alloc, boat, held),
        }
    }

    fn with_boat(&self, alloc: Global) -> Result<RaceSheet, AllocError>
        requires { boats self.now < MAX_BOATS }
        ensures { IfOk result (λ sheet. sheet ≡ after self.now add.AddBoat) }
    {
        let order = self.order.copy(alloc)?;
        let held = held_with_boat(alloc, &self.held)?;
        let seconds = self.seconds.with_boat(alloc)?;
        Ok(RaceSheet {
            order,
            held,
            seconds,
        })
    }

    fn with_held(&self, alloc: Global, boat: u16, one: Held) -> Result<RaceSheet, AllocError>
        requires { Allows self.now (add.Hold boat one) }
        ensures { IfOk result (λ sheet. sheet ≡ after self.now (add.Hold boat one)) }
    {
        let order = self.order.copy(alloc)?;
        let held = held_with_change(alloc, &self.held, boat, one)?;
        let seconds = self.seconds.copy(alloc)?;
        Ok(RaceSheet {
            order,
            held,
            seconds,
        })
    }

    fn with_order(&self, alloc: Global, order: Groups) -> Result<RaceSheet, AllocError>
        requires { IsWhole order self.now.held self.now.seconds }
        ensures { IfOk result (λ sheet. sheet ≡ record {
          order = order;
          held = self.now.held;
          seconds = self.now.seconds;
        }) }
    {
        let times = self.seconds.copy(alloc)?;
        self.with_places(alloc, order, times)
    }

    fn with_places(
        &self,
        alloc: Global,
        order: Groups,
        times: BoatTimes,
    ) -> Result<RaceSheet, AllocError>
        requires { IsWhole order self.now.held times }
        ensures { IfOk result (λ sheet. sheet ≡ record {
          order = order;
          held = self.now.held;
          seconds = times;
        }) }
    {
        Ok(RaceSheet {
            order,
            held: Vec::from_slice(alloc, &self.held)?,
            seconds: times,
        })
    }

    pub(crate) fn order(&self) -> &Groups
        ensures value { result.now ≡ self.now.order }
        ensures sheet { IsSheet self.now.order self.now.held }
    {
        &self.order
    }

    pub(crate) fn all_held(&self) -> &[Held]
        ensures { result.now ≡ self.now.held }
    {
        &self.held
    }
}

/// One change of a sheet. A boat that is placed has no place before.
#[derive(Clone, Copy, Debug, PartialEq, Eq)]
pub enum Change {
    /// Adds a boat with the next number, without a place, that holds nothing.
    AddBoat,
    /// Places the boat last, in a group of her own.
    Last { boat: u16 },
    /// Places the boat in the group of the other (RRS A7).
    Join { boat: u16, other: u16 },
    /// Places the boat directly ahead of the other's group, in a group of her own.
    Ahead { boat: u16, other: u16 },
    /// Places the boat by this corrected time (RRS A3), in one group with those of the same time
    /// (RRS A7).
    Timed { boat: u16, seconds: Seconds },
    /// Takes the boat out of the order; an empty group goes.
    Out { boat: u16 },
    /// Replaces what the boat holds.
    Hold { boat: u16, held: Held },
}
