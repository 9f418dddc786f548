//! The races of a document, made from a board.

ghost use Rattle.std.specs.Prelude.{◌≡◌, ◌<◌, ◌++◌, ◌∷◌, [], length, map, filter, IfOk, OnOk};
ghost use Rattle.std.specs.Prelude.{if◌then◌else◌};
ghost use Rattle.std.specs.List.{list_any, range_with_len};
ghost use Rattle.regatta_terms.specs.declared.limits.TheConstants.{MAX_RACES};
ghost use Rattle.regatta_scores.specs.Details.{scoring as scoring_of};
ghost use Rattle.regatta_terms.specs.Entries.{IsRace};
ghost use Rattle.regatta_scores.specs.Journal.{entered, same_sail};
ghost use Rattle.regatta_scores.specs.RacePoints.{journal_race};
ghost use Rattle.regatta_explain.specs.Explained.{is_recorded as is_recorded_by};
ghost use Rattle.regatta_explain.specs.Explained.{held_part as held_part_of, race_part as race_part_of};
ghost use Rattle.regatta_explain.specs.Explained.{race_rows as race_rows_of, rules_part as rules_part_of};
ghost use Rattle.regatta_explain.specs.Made.{group_by, groups_of, has_something_by, held_by};
ghost use Rattle.regatta_board.specs.Details.{boat_at};

use crate::parts::{GroupPart, HeldPart, RacePart, RaceRows, RulesPart};
use regatta_board::{Board, SailGroup};
use regatta_scores::{Items, Scoring};
use regatta_terms::{Code, MAX_RACES, RaceNo, Redress, Rules, Sail, Seconds};
use std::alloc::{AllocError, Global};

/// The rules, as the document has them.
pub(crate) fn rules_part(alloc: Global, rules: &Rules) -> Result<RulesPart, AllocError>
    ensures { IfOk result (λ part. part ≡ rules_part_of rules.now) }
{
    let thresholds = Vec::from_slice(alloc, rules.thresholds())?;
    Ok(RulesPart {
        absent: rules.absent(),
        scp: rules.scp(),
        thresholds: Items::new(thresholds),
        handicap: rules.handicap(),
    })
}

/// What a race is scored by.
#[tactic(auto, unfolding(crate::specs::Explained::race_part))]
fn race_part(alloc: Global, board: &Board, race: RaceNo) -> Result<RacePart, AllocError>
    ensures { IfOk result (λ part. part ≡ race_part_of board.now.rules board.now.entries race) }
{
    let basis = board.race_basis(alloc, race)?;
    Ok(RacePart {
        race,
        counts: board.is_scored(race),
        entered: basis.entered,
        came: basis.came,
        dnf: basis.dnf,
        twenty_percent: basis.twenty_percent,
    })
}

/// A group, as the document has it.
fn group_part(alloc: Global, group: &SailGroup) -> Result<GroupPart, AllocError>
    ensures { IfOk result (λ part. part ≡ group_by group.now) }
{
    let boats = Vec::from_slice(alloc, group.boats.as_slice())?;
    Ok(GroupPart {
        place: group.place,
        sharing: group.sharing,
        boats: Items::new(boats),
    })
}

fn group_parts(alloc: Global, groups: &[SailGroup]) -> Result<Vec<GroupPart>, AllocError>
    ensures { IfOk result (λ parts. parts.items ≡ map group_by groups.now) }
{
    let mut parts = Vec::with_capacity(alloc, groups.len())?;
    for group in groups {
        parts.push(group_part(alloc, group)?)?;
    }
    Ok(parts)
}

/// The groups of a race.
#[tactic(auto, unfolding(crate::specs::Made::groups_of))]
fn race_groups(alloc: Global, board: &Board, race: RaceNo) -> Result<Items<GroupPart>, AllocError>
    ensures { IfOk result (λ parts. parts ≡ groups_of board.now.rules board.now.entries race) }
{
    let groups = board.groups(alloc, race)?;
    let parts = group_parts(alloc, groups.as_slice())?;
    Ok(Items::new(parts))
}

/// What a boat has in a race, from her score there and her time.
#[tactic(auto, unfolding(crate::specs::Made::held_by))]
fn held_part(sail: Sail, scoring: &Scoring, seconds: Option<Seconds>) -> HeldPart
    ensures { result ≡ held_by sail scoring.now seconds }
{
    HeldPart {
        sail,
        status: scoring.status,
        came: scoring.came,
        code: scoring.held.code,
        zfp: scoring.held.zfp,
        scp: scoring.held.scp,
        redress: scoring.held.redress,
        seconds,
    }
}

/// What the boat with this number has in a race.
fn held_at(board: &Board, race: RaceNo, number: usize, scorings: &[Scoring]) -> HeldPart
    requires scorings { scorings.now
        ≡ map (scoring_of same_sail board.now.rules
        (journal_race board.now.rules board.now.entries race)) (entered board.now.entries) }
    requires number { number < length (entered board.now.entries) }
    ensures { result ≡ held_part_of board.now.rules board.now.entries race
        (boat_at (entered board.now.entries) number) }
{
    let seconds = board.seconds(race, number);
    held_part(board.boat(number), &scorings[number], seconds)
}

/// What each boat has in a race, in order of entry.
fn held_parts(
    alloc: Global,
    board: &Board,
    race: RaceNo,
    scorings: &[Scoring],
) -> Result<Vec<HeldPart>, AllocError>
    requires { scorings.now
        ≡ map (scoring_of same_sail board.now.rules
        (journal_race board.now.rules board.now.entries race)) (entered board.now.entries) }
    ensures { IfOk result (λ parts. parts.items
        ≡ map (held_part_of board.now.rules board.now.entries race)
        (entered board.now.entries)) }
{
    // The proof learns of these types.
    let _parts: (Option<Code>, Option<Redress>, Option<Seconds>) = (None, None, None);
    let mut parts = Vec::with_capacity(alloc, board.boats())?;
    for number in 0..board.boats() {
        parts.push(held_at(board, race, number, scorings))?;
    }
    Ok(parts)
}

/// The rows of a race.
#[tactic(auto, unfolding(crate::specs::Explained::race_rows, crate::specs::Explained::race_part, crate::specs::Made::groups_of))]
pub(crate) fn race_rows(alloc: Global, board: &Board, race: RaceNo) -> Result<RaceRows, AllocError>
    ensures { IfOk result (λ rows. rows ≡ race_rows_of board.now.rules board.now.entries race) }
{
    let part = race_part(alloc, board, race)?;
    let groups = race_groups(alloc, board, race)?;
    let scorings = board.scorings(alloc, race)?;
    let boats = held_parts(alloc, board, race, scorings.as_slice())?;
    Ok(RaceRows {
        race: part,
        groups,
        boats: Items::new(boats),
    })
}

/// Whether the boat with this number has a time or holds something in a race.
#[tactic(auto, unfolding(crate::specs::Made::has_something_by))]
fn has_something(board: &Board, race: RaceNo, number: usize) -> bool
    requires { number < length (entered board.now.entries) }
    ensures { result ≡ has_something_by board.now.entries race
        (boat_at (entered board.now.entries) number) }
{
    board.seconds(race, number).is_some() || !board.held(race, number).is_nothing()
}

/// Whether a boat has a time or holds something in a race.
fn is_something_held(board: &Board, race: RaceNo) -> bool
    ensures { result ≡ list_any (has_something_by board.now.entries race)
        (entered board.now.entries) }
{
    for number in 0..board.boats() {
        if has_something(board, race, number) {
            return true;
        }
    }
    false
}

/// Whether something is recorded of a race.
#[tactic(auto, unfolding(crate::specs::Explained::is_recorded, crate::specs::Made::has_something_by))]
fn is_recorded(board: &Board, race: RaceNo) -> bool
    ensures { result ≡ is_recorded_by board.now.rules board.now.entries race }
{
    if board.is_scored(race) {
        return true;
    }
    if !board.has_no_order(race) {
        return true;
    }
    is_something_held(board, race)
}

/// Appends the race if something is recorded of it.
fn push_recorded(races: &mut Vec<RaceNo>, board: &Board, race: u8) -> Result<(), AllocError>
    requires { IsRace race }
    ensures { OnOk result (races.new.items ≡ races.old.items
        ++ (if is_recorded_by board.now.rules board.now.entries race then race ∷ [] else [])) }
{
    let race = RaceNo::new(race).unwrap();
    if is_recorded(board, race) {
        races.push(race)?;
    }
    Ok(())
}

/// The races of which something is recorded.
pub(crate) fn recorded_races(alloc: Global, board: &Board) -> Result<Vec<RaceNo>, AllocError>
    ensures { IfOk result (λ races. races.items
        ≡ filter (is_recorded_by board.now.rules board.now.entries)
        (range_with_len 1 MAX_RACES)) }
{
    let mut races = Vec::new(alloc);
    for i in 0..MAX_RACES {
        push_recorded(&mut races, board, i + 1)?;
    }
    Ok(races)
}

/// The rows of these races.
fn rows_of(alloc: Global, board: &Board, races: &[RaceNo]) -> Result<Vec<RaceRows>, AllocError>
    ensures { IfOk result (λ rows. rows.items
        ≡ map (race_rows_of board.now.rules board.now.entries) races.now) }
{
    let mut rows = Vec::with_capacity(alloc, races.len())?;
    for &race in races {
        rows.push(race_rows(alloc, board, race)?)?;
    }
    Ok(rows)
}

/// The rows of all races of which something is recorded.
pub(crate) fn all_race_rows(alloc: Global, board: &Board) -> Result<Items<RaceRows>, AllocError>
    ensures { IfOk result (λ rows. rows
        ≡ map (race_rows_of board.now.rules board.now.entries)
        (filter (is_recorded_by board.now.rules board.now.entries)
        (range_with_len 1 MAX_RACES))) }
{
    let races = recorded_races(alloc, board)?;
    let rows = rows_of(alloc, board, &races)?;
    Ok(Items::new(rows))
}
