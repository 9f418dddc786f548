//! Neighbours of a table with the same series score, and what separates them.

ghost use Rattle.std.specs.Prelude.{◌≡◌, ◌≤◌, ◌++◌, ◌∷◌, [], All, length, map, nat_eq};
ghost use Rattle.std.specs.Prelude.{IfOk, OnOk, if◌then◌else◌};
ghost use Rattle.regatta_terms.specs.declared.limits.TheConstants.{MAX_RACES};
ghost use Rattle.regatta_explain.specs.Explained.{neighbours as neighbours_of};
ghost use Rattle.regatta_explain.specs.Made.{line_of_row, neighbour_by};
ghost use Rattle.regatta_explain.specs.Separations.{separation as separation_of_lines};

use crate::parts::{NeighbourPart, Separation};
use crate::separations::{first_difference, last_difference, separation_of};
use regatta_scores::{BoatLine, Cell, Items, PerRace, Row};
use regatta_terms::{RaceNo, Tenths};
use std::alloc::{AllocError, Global};

/// The points of cells.
fn points_of(cells: &[Cell]) -> PerRace<Tenths>
    requires { length cells.now ≤ MAX_RACES }
    ensures { result.items ≡ map (λ cell. cell.points) cells.now }
{
    let mut points = PerRace::new();
    for cell in cells {
        points.push(cell.points);
    }
    points
}

/// Which cells are excluded.
fn flags_of(cells: &[Cell]) -> PerRace<bool>
    requires { length cells.now ≤ MAX_RACES }
    ensures { result.items ≡ map (λ cell. cell.dropped) cells.now }
{
    let mut flags = PerRace::new();
    for cell in cells {
        flags.push(cell.dropped);
    }
    flags
}

/// A boat's line, by her row of a table.
fn line_of(row: &Row) -> BoatLine
    requires { length row.now.cells ≤ MAX_RACES }
    ensures { result ≡ line_of_row row.now }
{
    let cells = row.cells.as_slice();
    BoatLine::of(&points_of(cells), &flags_of(cells))
}

/// What separates two boats with these lines.
fn separation(races: &[RaceNo], first: &BoatLine, second: &BoatLine) -> Separation
    requires first { length first.now.points ≡ length races.now }
    requires second { length second.now.points ≡ length races.now }
    ensures { result ≡ separation_of_lines races.now first.now second.now }
{
    let best = first_difference(&first.best_to_worst(), &second.best_to_worst());
    let last = last_difference(races, first.points(), second.points());
    separation_of(best, last)
}

/// Two neighbours, and what separates them.
#[tactic(auto, unfolding(crate::specs::Made::neighbour_by))]
fn neighbour_part(races: &[RaceNo], first: &Row, second: &Row) -> NeighbourPart
    requires few { length races.now ≤ MAX_RACES }
    requires first { length first.now.cells ≡ length races.now }
    requires second { length second.now.cells ≡ length races.now }
    ensures { result ≡ neighbour_by races.now (first.now, second.now) }
{
    NeighbourPart {
        first: first.sail,
        second: second.sail,
        rule: separation(races, &line_of(first), &line_of(second)),
    }
}

/// Appends two neighbours if they have the same series score.
fn push_neighbours(
    parts: &mut Vec<NeighbourPart>,
    races: &[RaceNo],
    first: &Row,
    second: &Row,
) -> Result<(), AllocError>
    requires few { length races.now ≤ MAX_RACES }
    requires first { length first.now.cells ≡ length races.now }
    requires second { length second.now.cells ≡ length races.now }
    ensures { OnOk result (parts.new.items ≡ parts.old.items
        ++ (if nat_eq first.now.net second.now.net
        then neighbour_by races.now (first.now, second.now) ∷ [] else [])) }
{
    // The proof learns of this type.
    let _rule = Separation::ByNothing;
    if first.net == second.net {
        parts.push(neighbour_part(races, first, second))?;
    }
    Ok(())
}

/// All neighbours of a table that have the same series score.
fn each_neighbours(
    alloc: Global,
    races: &[RaceNo],
    rows: &[Row],
) -> Result<Vec<NeighbourPart>, AllocError>
    requires few { length races.now ≤ MAX_RACES }
    requires cells { All (λ row. length row.cells ≡ length races.now) rows.now }
    ensures { IfOk result (λ parts. parts.items
        ≡ map (neighbour_by races.now) (neighbours_of rows.now)) }
{
    let mut parts = Vec::new(alloc);
    for i in 1..rows.len() {
        push_neighbours(&mut parts, races, &rows[i - 1], &rows[i])?;
    }
    Ok(parts)
}

/// Neighbours of a table that have the same series score, and what separates them.
pub(crate) fn neighbour_parts(
    alloc: Global,
    races: &[RaceNo],
    rows: &[Row],
) -> Result<Items<NeighbourPart>, AllocError>
    requires few { length races.now ≤ MAX_RACES }
    requires cells { All (λ row. length row.cells ≡ length races.now) rows.now }
    ensures { IfOk result (λ parts. parts
        ≡ map (neighbour_by races.now) (neighbours_of rows.now)) }
{
    let parts = each_neighbours(alloc, races, rows)?;
    Ok(Items::new(parts))
}
