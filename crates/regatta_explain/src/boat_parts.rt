//! The boats of a document, made from a board and its table.

ghost use Rattle.std.specs.Prelude.{◌≡◌, ◌<◌, ◌≤◌, All, length, map, slice_index_or, zip, IfOk};
ghost use Rattle.regatta_terms.specs.declared.limits.TheConstants.{MAX_RACES};
ghost use Rattle.regatta_scores.specs.Journal.{scored};
ghost use Rattle.regatta_explain.specs.Explained.{boat_rows as boat_rows_of};
ghost use Rattle.regatta_explain.specs.Made.{IsRowOf, score_by, scores_by, scorings_of};
ghost use Rattle.regatta_explain.specs.Made.{score_in as score_in_by};

use crate::averaging::averaged_races;
use crate::makers::place_of;
use crate::parts::{BoatRows, ScorePart};
use crate::sums::averaged_sum;
use regatta_board::Board;
use regatta_scores::{Cell, Items, RaceScore, Row, Scoring};
use regatta_terms::RaceNo;
use std::alloc::{AllocError, Global};

/// The scores of all boats in each of these races, in their parts.
pub(crate) fn all_scorings(
    alloc: Global,
    board: &Board,
    races: &[RaceNo],
) -> Result<Vec<Items<Scoring>>, AllocError>
    ensures { IfOk result (λ all. all.items
        ≡ map (scorings_of board.now.rules board.now.entries) races.now) }
{
    let mut all = Vec::with_capacity(alloc, races.len())?;
    for &race in races {
        all.push(board.scorings(alloc, race)?)?;
    }
    Ok(all)
}

/// The scores before averages of the boat with this number, in each race.
fn scores_of(
    alloc: Global,
    scorings: &[Items<Scoring>],
    number: usize,
) -> Result<Vec<RaceScore>, AllocError>
    requires { All (λ race. number < length race) scorings.now }
    ensures { IfOk result (λ scores. scores.items ≡ map (score_in_by number) scorings.now) }
{
    let mut scores = Vec::with_capacity(alloc, scorings.len())?;
    for race in scorings {
        scores.push(score_at(race.as_slice(), number))?;
    }
    Ok(scores)
}

/// The score before averages of the boat with this number.
fn score_at(scorings: &[Scoring], number: usize) -> RaceScore
    requires { number < length scorings.now }
    ensures { result ≡ score_in_by number scorings.now }
{
    scorings[number].score
}

/// A boat's score in race `at` of those that count.
#[tactic(auto, unfolding(crate::specs::Made::score_by))]
fn score_part(
    alloc: Global,
    races: &[RaceNo],
    scores: &[RaceScore],
    at: usize,
    scoring: &Scoring,
    cell: &Cell,
) -> Result<ScorePart, AllocError>
    requires equal { length races.now ≡ length scores.now }
    requires within { at < length races.now }
    requires few { length races.now ≤ MAX_RACES }
    ensures { IfOk result (λ part. part ≡ score_by (zip races.now scores.now) at
        (slice_index_or races.now at 0) scoring.now cell.now) }
{
    let over = scoring.score.averaged;
    let averaged = averaged_races(alloc, races, scores, at, over)?;
    Ok(ScorePart {
        race: races[at],
        status: scoring.status,
        base: scoring.base,
        penalty: scoring.penalty,
        plain: scoring.plain,
        redress: scoring.held.redress,
        averaged,
        sum: averaged_sum(races, scores, at, over),
        points: cell.points,
        mark: cell.mark,
        excluded: cell.dropped,
    })
}

/// The scores of the boat with this number in the races that count.
fn score_parts(
    alloc: Global,
    races: &[RaceNo],
    scorings: &[Items<Scoring>],
    number: usize,
    cells: &[Cell],
) -> Result<Vec<ScorePart>, AllocError>
    requires equal { length scorings.now ≡ length races.now }
    requires cells { length cells.now ≡ length races.now }
    requires within { All (λ race. number < length race) scorings.now }
    requires few { length races.now ≤ MAX_RACES }
    ensures { IfOk result (λ parts. parts.items
        ≡ scores_by races.now scorings.now number cells.now) }
{
    let scores = scores_of(alloc, scorings, number)?;
    let mut parts = Vec::with_capacity(alloc, races.len())?;
    for at in 0..races.len() {
        let scoring = &scorings[at].as_slice()[number];
        parts.push(score_part(alloc, races, &scores, at, scoring, &cells[at])?)?;
    }
    Ok(parts)
}

/// The rows of a boat, by her row of the table.
fn boat_rows(
    alloc: Global,
    board: &Board,
    races: &[RaceNo],
    scorings: &[Items<Scoring>],
    row: &Row,
) -> Result<BoatRows, AllocError>
    requires races { races.now ≡ scored board.now.entries }
    requires scorings { scorings.now
        ≡ map (scorings_of board.now.rules board.now.entries) races.now }
    requires row { IsRowOf board.now.rules board.now.entries row.now }
    ensures { IfOk result (λ rows.
        rows ≡ boat_rows_of board.now.rules board.now.entries row.now) }
{
    let number = board.number(row.sail);
    let cells = row.cells.as_slice();
    let scores = score_parts(alloc, races, scorings, number, cells)?;
    Ok(BoatRows {
        boat: place_of(row),
        scores: Items::new(scores),
    })
}

fn each_boat(
    alloc: Global,
    board: &Board,
    races: &[RaceNo],
    scorings: &[Items<Scoring>],
    rows: &[Row],
) -> Result<Vec<BoatRows>, AllocError>
    requires races { races.now ≡ scored board.now.entries }
    requires scorings { scorings.now
        ≡ map (scorings_of board.now.rules board.now.entries) races.now }
    requires rows { All (IsRowOf board.now.rules board.now.entries) rows.now }
    ensures { IfOk result (λ boats. boats.items
        ≡ map (boat_rows_of board.now.rules board.now.entries) rows.now) }
{
    let mut boats = Vec::with_capacity(alloc, rows.len())?;
    for row in rows {
        boats.push(boat_rows(alloc, board, races, scorings, row)?)?;
    }
    Ok(boats)
}

/// The rows of all boats, in the order of the table.
pub(crate) fn all_boat_rows(
    alloc: Global,
    board: &Board,
    races: &[RaceNo],
    rows: &[Row],
) -> Result<Items<BoatRows>, AllocError>
    requires races { races.now ≡ scored board.now.entries }
    requires rows { All (IsRowOf board.now.rules board.now.entries) rows.now }
    ensures { IfOk result (λ boats. boats
        ≡ map (boat_rows_of board.now.rules board.now.entries) rows.now) }
{
    let scorings = all_scorings(alloc, board, races)?;
    let boats = each_boat(alloc, board, races, &scorings, rows)?;
    Ok(Items::new(boats))
}
