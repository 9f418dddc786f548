//! A boat's row of the table.
ghost use Rattle.std.specs.Prelude.{◌≡◌, ◌<◌, length, All, IfOk};
ghost use Rattle.regatta_scores.specs.RaceScores.{scores_in};
ghost use Rattle.regatta_scores.specs.Lines.{cells as cells_of, row_by};

use crate::boats::{Place, RaceScore};
use crate::items::Items;
use crate::line::RaceColumn;
use crate::ranking::BoatLine;
use crate::table::{Cell, Row};
use regatta_terms::{Sail, Tenths};
use std::alloc::{AllocError, Global};

fn cell(score: &RaceScore, points: Tenths, dropped: bool) -> Cell
    ensures { result ≡ record { points = points; mark = score.now.mark; dropped = dropped } }
{
    Cell {
        points,
        mark: score.mark,
        dropped,
    }
}

/// The cells of the boat with this number.
fn cells(
    alloc: Global,
    columns: &[RaceColumn<'_>],
    boat: usize,
    points: &[Tenths],
    flags: &[bool],
) -> Result<Vec<Cell>, AllocError>
    requires within { All (λ column. boat < length column) columns.now }
    requires points { length points.now ≡ length columns.now }
    requires flags { length flags.now ≡ length columns.now }
    ensures { IfOk result (λ found.
        found.items ≡ cells_of (scores_in columns.now boat) points.now flags.now) }
{
    let mut found = Vec::with_capacity(alloc, columns.len())?;
    for i in 0..columns.len() {
        found.push_reserved(cell(columns[i].score(boat), points[i], flags[i]));
    }
    Ok(found)
}

/// Returns the row of the boat with this number, from her line and her place (RRS A8, A10).
///
/// The only error is a failed allocation.
pub fn boat_row(
    alloc: Global,
    columns: &[RaceColumn<'_>],
    boat: usize,
    sail: Sail,
    place: Place,
    line: &BoatLine,
) -> Result<Row, AllocError>
    requires within { All (λ column. boat < length column) columns.now }
    requires long { length line.now.points ≡ length columns.now }
    ensures { IfOk result (λ found.
        found ≡ row_by sail place line.now (scores_in columns.now boat)) }
{
    let cells = cells(alloc, columns, boat, line.points(), line.excluded())?;
    Ok(Row {
        sail,
        rank: place.rank,
        tied: place.tied,
        net: line.net(),
        cells: Items::new(cells),
    })
}
