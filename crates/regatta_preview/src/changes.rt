//! Whose rank, net or scores change by the lines.

ghost use Rattle.std.specs.Prelude.{◌≡◌, ◌++◌, ◌∷◌, [], filter, map, IfOk, OnOk};
ghost use Rattle.std.specs.Prelude.{if◌then◌else◌, nat_eq};
ghost use Rattle.std.specs.List.{list_any, position, slice_get};
ghost use Rattle.std.specs.Option.{option_copied, option_map};
ghost use Rattle.regatta_terms.specs.Entries.{IsRace};
ghost use Rattle.regatta_preview.specs.Changes.{cells_differ as cells_differ_by, cells_of as cells_by};
ghost use Rattle.regatta_preview.specs.Changes.{change_since as change_since_by};
ghost use Rattle.regatta_preview.specs.Changes.{changes as changes_by};
ghost use Rattle.regatta_preview.specs.Changes.{has_changed as has_changed_by, has_score as has_score_by};
ghost use Rattle.regatta_preview.specs.Changes.{mark_word as mark_word_by, row_of as row_by};
ghost use Rattle.regatta_preview.specs.Changes.{score_change as score_change_by};
ghost use Rattle.regatta_preview.specs.Changes.{score_changes as score_changes_by};
ghost use Rattle.regatta_preview.specs.Changes.{score_differs as score_differs_by, score_in as score_by};
ghost use Rattle.regatta_preview.specs.Changes.{scores_differ as scores_differ_by};
ghost use Rattle.regatta_preview.specs.Moves.{place_of as place_by};

use crate::moves::{has_moved, place_of};
use crate::parts::{Change, Move, ScoreChange};
use regatta_board::Board;
use regatta_scores::{Abbrev, Cell, Items, Row, Standing};
use regatta_terms::{MAX_RACES, RaceNo, Sail, Touched};
use std::alloc::{AllocError, Global};

/// A boat's row of a table, if she has one.
fn row_of(rows: &[Row], boat: Sail) -> Option<&Row>
    ensures { option_copied result ≡ row_by rows.now boat }
{
    rows.iter().find(|row| boat == row.sail)
}

/// The scores of a boat's row; none without one.
fn cells_of(row: Option<&Row>) -> &[Cell]
    ensures { result.now ≡ cells_by (option_copied row.entry) }
{
    match row {
        Some(row) => row.cells.as_slice(),
        None => &[],
    }
}

/// The position of a race among those that count.
fn position_of(races: &[RaceNo], race: RaceNo) -> Option<usize>
    ensures { result ≡ position (λ other. nat_eq other race) races.now }
{
    races.iter().position(|other| other.get() == race.get())
}

/// The score at a position, if there is one.
fn cell_at(cells: &[Cell], at: usize) -> Option<Cell>
    ensures { result ≡ slice_get cells.now at }
{
    cells.get(at).copied()
}

/// A boat's score in a race, by the races that count and her scores in them.
fn score_in(races: &[RaceNo], cells: &[Cell], race: RaceNo) -> Option<Cell>
    ensures { result ≡ score_by races.now cells.now race }
{
    match position_of(races, race) {
        Some(at) => cell_at(cells, at),
        None => None,
    }
}

/// A boat's score in a race in one standing, and then in another, by her scores in both.
fn score_change(
    first: &Standing,
    was: &[Cell],
    last: &Standing,
    cells: &[Cell],
    race: RaceNo,
) -> ScoreChange
    ensures { result ≡ score_change_by first.now.races was.now last.now.races cells.now race }
{
    ScoreChange {
        race,
        before: score_in(first.races.as_slice(), was, race),
        after: score_in(last.races.as_slice(), cells, race),
    }
}

/// Whether the boat has a score there in one of the two.
fn has_score(score: &ScoreChange) -> bool
    ensures { result ≡ has_score_by score.now }
{
    score.before.is_some() || score.after.is_some()
}

/// Appends a boat's score in a race if she has one there.
fn push_if_scored(scores: &mut Vec<ScoreChange>, score: ScoreChange) -> Result<(), AllocError>
    ensures { OnOk result (scores.new.items ≡ scores.old.items
        ++ (if has_score_by score then score ∷ [] else [])) }
{
    // The proof learns of these types.
    let _parts: (Option<Cell>, Option<Abbrev>) = (None, None);
    if has_score(&score) {
        scores.push(score)?;
    }
    Ok(())
}

/// A boat's score in the race with this number.
fn score_change_at(
    first: &Standing,
    was: &[Cell],
    last: &Standing,
    cells: &[Cell],
    race: u8,
) -> ScoreChange
    requires { IsRace race }
    ensures { result ≡ score_change_by first.now.races was.now last.now.races cells.now race }
{
    score_change(first, was, last, cells, RaceNo::new(race).unwrap())
}

/// A boat's scores in the races that count in one of the two.
fn score_changes(
    alloc: Global,
    first: &Standing,
    was: &[Cell],
    last: &Standing,
    cells: &[Cell],
) -> Result<Vec<ScoreChange>, AllocError>
    ensures { IfOk result (λ scores. scores.items
        ≡ score_changes_by first.now.races was.now last.now.races cells.now) }
{
    let mut scores = Vec::new(alloc);
    for i in 0..MAX_RACES {
        push_if_scored(&mut scores, score_change_at(first, was, last, cells, i + 1))?;
    }
    Ok(scores)
}

/// An abbreviation as it is printed; nothing if there is none.
fn mark_word(mark: Option<Abbrev>) -> &'static [u8]
    ensures { result.now ≡ mark_word_by mark }
{
    match mark {
        Some(mark) => mark.text().as_bytes(),
        None => b"",
    }
}

/// Whether the points, the abbreviation or the exclusion changed.
fn cells_differ(before: &Cell, after: &Cell) -> bool
    ensures { result ≡ cells_differ_by before.now after.now }
{
    before.points.get() != after.points.get()
        || mark_word(before.mark) != mark_word(after.mark)
        || before.dropped != after.dropped
}

/// The same, or one of the two isn't there.
fn scores_differ(before: &Option<Cell>, after: &Option<Cell>) -> bool
    ensures { result ≡ scores_differ_by before.now after.now }
{
    match (before, after) {
        (None, None) => false,
        (None, Some(_)) | (Some(_), None) => true,
        (Some(before), Some(after)) => cells_differ(before, after),
    }
}

fn score_differs(score: &ScoreChange) -> bool
    ensures { result ≡ score_differs_by score.now }
{
    scores_differ(&score.before, &score.after)
}

/// Whether one of these scores changed.
fn any_differs(scores: &[ScoreChange]) -> bool
    ensures { result ≡ list_any score_differs_by scores.now }
{
    scores.iter().any(|score| score_differs(score))
}

/// Whether the boat is new, or stands otherwise, or one of her scores changed.
fn has_changed(change: &Change) -> bool
    ensures { result ≡ has_changed_by change.now }
{
    has_moved(&change.step) || any_differs(change.scores.as_slice())
}

/// A boat's rank and net, by her row if she has one.
fn place_if_any(row: Option<&Row>) -> Option<Touched>
    ensures { result ≡ option_map place_by (option_copied row.entry) }
{
    match row {
        Some(row) => Some(place_of(row)),
        None => None,
    }
}

/// A boat's place and scores in a standing, and then by her row of another.
#[tactic(auto, unfolding(crate::specs::Changes::change_since))]
fn change_since(
    alloc: Global,
    first: &Standing,
    last: &Standing,
    row: &Row,
) -> Result<Change, AllocError>
    ensures { IfOk result (λ change. change ≡ change_since_by first.now last.now row.now) }
{
    let was = row_of(first.rows.as_slice(), row.sail);
    let scores = score_changes(alloc, first, cells_of(was), last, row.cells.as_slice())?;
    Ok(Change {
        step: Move {
            sail: row.sail,
            before: place_if_any(was),
            after: place_of(row),
        },
        scores: Items::new(scores),
    })
}

/// Appends a change if it is one.
fn push_if_changed(changes: &mut Vec<Change>, change: Change) -> Result<(), AllocError>
    ensures { OnOk result (changes.new.items ≡ changes.old.items
        ++ (if has_changed_by change then change ∷ [] else [])) }
{
    if has_changed(&change) {
        changes.push(change)?;
    }
    Ok(())
}

/// The boats that change from one standing to another, in the order of these rows of the latter.
fn changes_of(
    alloc: Global,
    first: &Standing,
    last: &Standing,
    rows: &[Row],
) -> Result<Vec<Change>, AllocError>
    ensures { IfOk result (λ changes. changes.items ≡ filter has_changed_by
        (map (change_since_by first.now last.now) rows.now)) }
{
    let mut changes = Vec::new(alloc);
    for row in rows {
        push_if_changed(&mut changes, change_since(alloc, first, last, row)?)?;
    }
    Ok(changes)
}

/// The boats whose rank, net or scores on the second board aren't those on the first, in the order
/// of its table. Both have the same rules.
///
/// # Errors
///
/// If memory runs out.
#[tactic(auto, unfolding(crate::specs::Changes::changes, crate::specs::Changes::changes_between))]
pub fn changes_since(
    alloc: Global,
    first: &Board,
    last: &Board,
) -> Result<Items<Change>, AllocError>
    requires { last.now.rules ≡ first.now.rules }
    ensures { IfOk result (λ changes. changes
        ≡ changes_by first.now.rules first.now.entries last.now.entries) }
{
    let before = first.standing()?;
    let after = last.standing()?;
    let changes = changes_of(alloc, &before, &after, after.rows.as_slice())?;
    Ok(Items::new(changes))
}
