//! The entry list.
ghost use Rattle.std.specs.Prelude.{◌≡◌, ◌<◌, ◌≤◌, ◌++◌, ◌∷◌, [], length, slice_index_or};
ghost use Rattle.std.specs.Prelude.{position, false, IfOk};
ghost use Rattle.std.specs.List.{list_any};
ghost use Rattle.regatta_scores.specs.Journal.{same_sail};
ghost use Rattle.regatta_board.specs.Refusals.{limits};

use indexmap::IndexMap;
use regatta_terms::Sail;
use std::alloc::{AllocError, Global};
use std::marker::Model;

/// The number of the boat at this index of the entry list.
pub(crate) fn number_at(index: usize) -> u16
    requires { index ≤ limits.boats }
    ensures { result ≡ index }
{
    index as u16
}

/// The boats entered, in order of entry, each once. A boat's number is her position in the list,
/// from 0.
#[derive(Drop)]
pub(crate) struct Boats {
    numbers: IndexMap<Sail, u16>,
}

impl Model for Boats {
    ghost use Rattle.std.specs.Prelude.{List};
    ghost use Rattle.indexmap.specs.IndexMap.{keys};
    ghost use Rattle.regatta_terms.specs.declared.sail.Sail as sails;
    ghost use Rattle.regatta_board.specs.EntryList.{IsNumbered};

    ghost Value = { List sails.Sail };

    ghost view = { λ b. keys b.numbers };

    ghost invariant = { λ b. IsNumbered b.numbers.entries };
}

impl Boats {
    pub(crate) fn new(alloc: Global) -> Boats
        ensures { result ≡ [] }
    {
        Boats {
            numbers: IndexMap::new(alloc),
        }
    }

    pub(crate) fn len(&self) -> usize
        ensures { result ≡ length self.now }
    {
        self.numbers.len()
    }

    /// The number of the boat, if she is in the list.
    pub(crate) fn number(&self, boat: Sail) -> Option<u16>
        ensures { result ≡ position (same_sail boat) self.now }
    {
        let (_, _, number) = self.numbers.get_full(&boat)?;
        Some(*number)
    }

    pub(crate) fn at(&self, number: usize) -> Sail
        requires { number < length self.now }
        ensures { result ≡ slice_index_or self.now number [] }
    {
        *self.numbers.get_index(number).unwrap().0
    }

    /// The number of the next boat.
    pub(crate) fn next_number(&self) -> u16
        requires { length self.now < limits.boats }
        ensures { result ≡ length self.now }
    {
        number_at(self.len())
    }

    /// Copies the list and appends a boat.
    pub(crate) fn with(&self, boat: Sail) -> Result<Boats, AllocError>
        requires few { length self.now < limits.boats }
        requires new { list_any (same_sail boat) self.now ≡ false }
        ensures { IfOk result (λ boats. boats ≡ self.now ++ boat ∷ []) }
    {
        let mut numbers = self.numbers.clone()?;
        numbers.insert(boat, self.next_number())?;
        Ok(Boats { numbers })
    }
}
