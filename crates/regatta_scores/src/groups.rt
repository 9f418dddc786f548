//! A finishing order as one list of boats and the position where each group ends (RRS A3, A7).
ghost use Rattle.std.specs.Prelude.{◌≡◌, ◌<◌, ◌≤◌, ◌^◌, ◌++◌, ◌∷◌, [], length, map, take, drop};
ghost use Rattle.std.specs.Prelude.{IsTrue, ◌↔◌, IfOk, OnOk, if◌then◌else◌, nat_eq, slice_index_or};
ghost use Rattle.std.specs.Prelude.{All, ℕ, true, false};
ghost use Rattle.regatta_scores.specs.Order.{in_group, stands_in};
ghost use Rattle.regatta_scores.specs.Groups.{begin, cut, moved_end, Rises};

use std::alloc::{AllocError, Global};
use std::marker::Model;

/// A finishing order: groups of tied boats, the best first.
#[derive(Drop)]
pub struct Groups {
    boats: Vec<u16>,
    ends: Vec<usize>,
}

impl Model for Groups {
    ghost use Rattle.std.specs.Prelude.{List, ℕ, length};
    ghost use Rattle.regatta_scores.specs.Groups.{cut, Rises};

    ghost Value = { List (List ℕ) };

    ghost view = { λ g. cut g.boats.items 0 g.ends.items };

    ghost invariant = { λ g. Rises 0 g.ends.items (length g.boats.items) };
}

/// The position of the group's first boat, by the ends of the groups. After the last group, it is
/// the number of boats.
fn begin(ends: &[usize], at: usize) -> usize
    requires { at ≤ length ends.now }
    ensures { result ≡ begin ends.now at }
{
    if at == 0 { 0 } else { ends[at - 1] }
}

#[tactic(auto, using(crate::proofs::Cut::group_is, crate::proofs::Cut::group_bounds))]
fn group_in<'a>(boats: &'a [u16], ends: &[usize], at: usize) -> &'a [u16]
    requires rises { Rises 0 ends.now (length boats.now) }
    requires at { at < length ends.now }
    ensures { result.now ≡ slice_index_or (cut boats.now 0 ends.now) at [] }
{
    &boats[begin(ends, at)..ends[at]]
}

/// Appends these ends, moved: boats that began at `begin` now follow `ahead` others.
fn push_ends(
    ends: &mut Vec<usize>,
    rest: &[usize],
    begin: usize,
    ahead: usize,
) -> Result<(), AllocError>
    requires low { All (λ end. begin ≤ end) rest.now }
    requires high { All (λ end. moved_end begin ahead end < 2 ^ 64) rest.now }
    ensures { OnOk result
        (ends.new.items ≡ ends.old.items ++ map (moved_end begin ahead) rest.now) }
{
    for end in rest {
        ends.push(*end - begin + ahead)?;
    }
    Ok(())
}

impl Groups {
    pub(crate) fn new(alloc: Global) -> Groups
        ensures { result ≡ [] }
    {
        Groups {
            boats: Vec::new(alloc),
            ends: Vec::new(alloc),
        }
    }

    #[tactic(auto, using(crate::proofs::Cut::many_groups))]
    pub(crate) fn len(&self) -> usize
        ensures value { result ≡ length self.now }
        ensures fits { result < 2 ^ 63 }
    {
        self.ends.len()
    }

    #[tactic(auto, using(crate::proofs::Cut::no_groups))]
    pub(crate) fn is_empty(&self) -> bool
        ensures { IsTrue result ↔ (self.now ≡ []) }
    {
        self.len() == 0
    }

    #[tactic(auto, using(crate::proofs::Cut::many_groups))]
    pub(crate) fn group(&self, at: usize) -> &[u16]
        requires { at < length self.now }
        ensures { result.now ≡ slice_index_or self.now at [] }
    {
        group_in(&self.boats, &self.ends, at)
    }

    pub(crate) fn contains(&self, boat: u16) -> bool
        ensures { result ≡ stands_in nat_eq boat self.now }
    {
        self.boats.contains(&boat)
    }

    /// The position of the first group with the boat, or the number of groups if she is in none.
    #[tactic(auto, using(crate::proofs::Splices::stands_first))]
    pub(crate) fn group_with(&self, boat: u16) -> usize
        ensures found { stands_in nat_eq boat self.now ≡ true → result < length self.now }
        ensures bound { result ≤ length self.now }
        ensures fits { result < 2 ^ 63 }
        ensures before { (k : ℕ) → k < result
            → in_group nat_eq boat (slice_index_or self.now k []) ≡ false }
        ensures here { result < length self.now
            → in_group nat_eq boat (slice_index_or self.now result []) ≡ true }
    {
        for at in 0..self.len() {
            if self.group(at).contains(&boat) {
                return at;
            }
        }
        self.len()
    }

    /// Copies the first groups, with room for the others, one more and one more boat.
    #[tactic(auto, using(crate::proofs::Cut::many_groups, crate::proofs::Cut::begin_within))]
    pub(crate) fn first(&self, alloc: Global, many: usize) -> Result<Groups, AllocError>
        requires { many ≤ length self.now }
        ensures { IfOk result (λ new. new ≡ take many self.now) }
    {
        let mut boats = Vec::with_capacity(alloc, self.boats.len() + 1)?;
        boats.extend_from_slice(&self.boats[..begin(&self.ends, many)])?;
        let mut ends = Vec::with_capacity(alloc, self.ends.len() + 1)?;
        ends.extend_from_slice(&self.ends[..many])?;
        Ok(Groups { boats, ends })
    }

    /// Appends the groups of an order from one position on.
    #[tactic(auto, using(crate::proofs::Cut::many_groups, crate::proofs::Cut::begin_within))]
    pub(crate) fn followed_by(self, order: &Groups, from: usize) -> Result<Groups, AllocError>
        requires { from ≤ length order.now }
        ensures { IfOk result (λ new. new ≡ self ++ drop from order.now) }
    {
        let Groups {
            mut boats,
            mut ends,
        } = self;
        let ahead = boats.len();
        let begin = begin(&order.ends, from);
        boats.extend_from_slice(&order.boats[begin..])?;
        push_ends(&mut ends, &order.ends[from..], begin, ahead)?;
        Ok(Groups { boats, ends })
    }

    /// Appends a group.
    pub(crate) fn push(&mut self, group: &[u16]) -> Result<(), AllocError>
        ensures { OnOk result (self.new ≡ self.old ++ group.now ∷ []) }
    {
        self.ends.reserve(1)?;
        self.boats.extend_from_slice(group)?;
        self.ends.push_reserved(self.boats.len());
        Ok(())
    }

    /// Appends a group if it is `wanted`.
    pub(crate) fn push_if(&mut self, group: &[u16], wanted: bool) -> Result<(), AllocError>
        ensures { OnOk result (self.new ≡ self.old ++ (if wanted then group.now ∷ [] else [])) }
    {
        if wanted {
            self.push(group)?;
            Ok(())
        } else {
            Ok(())
        }
    }

    pub(crate) fn copy(&self, alloc: Global) -> Result<Groups, AllocError>
        ensures { IfOk result (λ copy. copy ≡ self.now) }
    {
        Ok(Groups {
            boats: Vec::from_slice(alloc, &self.boats)?,
            ends: Vec::from_slice(alloc, &self.ends)?,
        })
    }
}
