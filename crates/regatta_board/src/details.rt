//! What is told of a race beside the table: what it is scored by, its groups with their places, and
//! each boat's score in its parts.
ghost use Rattle.std.specs.Prelude.{◌≡◌, ◌<◌, ◌≤◌, length, map, true, All, IfOk};
ghost use Rattle.regatta_scores.specs.Details.{placed_groups as placed_groups_of};
ghost use Rattle.regatta_scores.specs.Details.{race_basis as race_basis_of, scoring};
ghost use Rattle.regatta_scores.specs.Journal.{entered, held as held_of, is_scored as is_scored_by};
ghost use Rattle.regatta_scores.specs.Journal.{order as order_of, same_sail, time as time_of};
ghost use Rattle.regatta_scores.specs.Order.{is_empty};
ghost use Rattle.regatta_scores.specs.RacePoints.{journal_race};
ghost use Rattle.regatta_board.specs.Details.{boat_at, named_group as named_group_of, sail_group};
ghost use Rattle.regatta_board.specs.KeptJournal.{number as number_of};
ghost use Rattle.regatta_board.specs.Refusals.{is_entered, limits};

use crate::board::Board;
use crate::boats::{Boats, number_at};
use regatta_scores::{
    Held, Items, RaceBasis, Scoring, SheetGroup, placed_groups, race_basis, scorings,
};
use regatta_terms::{RaceNo, Sail, Seconds};
use std::alloc::{AllocError, Global};

/// A group of a race's finishing order.
#[derive(Drop)]
pub struct SailGroup {
    /// One more than the number of boats that finished in the groups ahead (RRS A4, A6.1).
    pub place: u16,
    /// How many of its boats finished, and share the place (RRS A7).
    pub sharing: u16,
    /// Its boats, those with a code among them.
    pub boats: Items<Sail>,
}

/// The boats with these numbers.
fn named(alloc: Global, boats: &Boats, numbers: &[u16]) -> Result<Vec<Sail>, AllocError>
    requires { All (λ number. number < length boats.now) numbers.now }
    ensures { IfOk result (λ sails. sails.items ≡ map (boat_at boats.now) numbers.now) }
{
    let mut sails = Vec::with_capacity(alloc, numbers.len())?;
    for &number in numbers {
        sails.push(boats.at(usize::from(number)))?;
    }
    Ok(sails)
}

/// A group with its boats instead of their numbers.
fn named_group(alloc: Global, boats: &Boats, group: &SheetGroup) -> Result<SailGroup, AllocError>
    requires { All (λ number. number < length boats.now) group.now.boats }
    ensures { IfOk result (λ found. found ≡ named_group_of boats.now group.now) }
{
    let sails = named(alloc, boats, group.boats.as_slice())?;
    Ok(SailGroup {
        place: group.place,
        sharing: group.sharing,
        boats: Items::new(sails),
    })
}

fn named_groups(
    alloc: Global,
    boats: &Boats,
    groups: &[SheetGroup],
) -> Result<Vec<SailGroup>, AllocError>
    requires { All (λ group. All (λ number. number < length boats.now) group.boats) groups.now }
    ensures { IfOk result (λ found. found.items ≡ map (named_group_of boats.now) groups.now) }
{
    let mut found = Vec::with_capacity(alloc, groups.len())?;
    for group in groups {
        found.push(named_group(alloc, boats, group)?)?;
    }
    Ok(found)
}

impl Board {
    /// How many boats are entered.
    pub fn boats(&self) -> usize
        ensures value { result ≡ length (entered self.now.entries) }
        ensures few { result ≤ limits.boats }
    {
        self.kept().boats()
    }

    /// The boat with this number, her position in the entry list from 0.
    pub fn boat(&self, number: usize) -> Sail
        requires { number < length (entered self.now.entries) }
        ensures { result ≡ boat_at (entered self.now.entries) number }
    {
        self.kept().entry_list().at(number)
    }

    /// The number of a boat that is entered.
    pub fn number(&self, boat: Sail) -> usize
        requires { is_entered self.now.entries boat ≡ true }
        ensures value { result ≡ number_of self.now.entries boat }
        ensures within { result < length (entered self.now.entries) }
        ensures hers { boat_at (entered self.now.entries) result ≡ boat }
    {
        usize::from(self.kept().number(boat).unwrap())
    }

    /// Whether the race counts.
    pub fn is_scored(&self, race: RaceNo) -> bool
        ensures { result ≡ is_scored_by self.now.entries race }
    {
        self.kept().is_scored(race)
    }

    /// Whether the race's finishing order is empty.
    pub fn has_no_order(&self, race: RaceNo) -> bool
        ensures { result ≡ is_empty (order_of self.now.rules self.now.entries race) }
    {
        self.kept().has_no_finisher(race)
    }

    /// The code, penalties and redress of the boat with this number in the race.
    pub fn held(&self, race: RaceNo, number: usize) -> Held
        requires { number < length (entered self.now.entries) }
        ensures { result
            ≡ held_of self.now.entries race (boat_at (entered self.now.entries) number) }
    {
        self.kept().held(race, number_at(number))
    }

    /// The corrected time of the boat with this number in the race, if one is in force (RRS A3).
    pub fn seconds(&self, race: RaceNo, number: usize) -> Option<Seconds>
        requires { number < length (entered self.now.entries) }
        ensures { result
            ≡ time_of self.now.entries race (boat_at (entered self.now.entries) number) }
    {
        self.kept().sheet(race).seconds(number_at(number))
    }

    /// What the race is scored by (RRS A5.2, A5.3, 44.3(c)).
    ///
    /// # Errors
    ///
    /// If memory runs out.
    pub fn race_basis(&self, alloc: Global, race: RaceNo) -> Result<RaceBasis, AllocError>
        ensures { IfOk result (λ basis. basis ≡ race_basis_of same_sail self.now.rules
            (journal_race self.now.rules self.now.entries race)) }
    {
        let basis = race_basis(alloc, self.kept().sheet(race), self.rules())?;
        Ok(basis)
    }

    /// The score of each boat in the race in its parts, in the order of the entry list (RRS A4 to
    /// A7, 30.2, 44.3(c)).
    ///
    /// # Errors
    ///
    /// If memory runs out.
    pub fn scorings(&self, alloc: Global, race: RaceNo) -> Result<Items<Scoring>, AllocError>
        ensures { IfOk result (λ all. all
            ≡ map (scoring same_sail self.now.rules
            (journal_race self.now.rules self.now.entries race)) (entered self.now.entries)) }
    {
        let all = scorings(alloc, self.kept().sheet(race), self.rules())?;
        Ok(all)
    }

    /// The groups of the race's finishing order with their places (RRS A4, A6.1, A7), the best
    /// first.
    ///
    /// # Errors
    ///
    /// If memory runs out.
    pub fn groups(&self, alloc: Global, race: RaceNo) -> Result<Items<SailGroup>, AllocError>
        ensures { IfOk result (λ groups. groups
            ≡ map sail_group
            (placed_groups_of (journal_race self.now.rules self.now.entries race))) }
    {
        let kept = self.kept();
        let numbered = placed_groups(alloc, kept.sheet(race))?;
        let groups = named_groups(alloc, kept.entry_list(), numbered.as_slice())?;
        Ok(Items::new(groups))
    }
}
