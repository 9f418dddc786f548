//! The whole document of a board.

ghost use Rattle.std.specs.Prelude.{◌≡◌, ◌≤◌, ◌++◌, ◌+◌, ◌<◌, take, length, vec_len, vec_capacity, IfOk, OnOk, OnErr};
ghost use Rattle.regatta_board.specs.Refusals.{limits};
ghost use Rattle.regatta_explain.specs.Depends.{last_that_matters};
ghost use Rattle.regatta_explain.specs.Explained.{document, explained};

use crate::after_parts::all_ranks;
use crate::boat_parts::all_boat_rows;
use crate::documents::write_document;
use crate::makers::last_entry;
use crate::neighbour_parts::neighbour_parts;
use crate::parts::Document;
use crate::race_parts::{all_race_rows, rules_part};
use regatta_board::Board;
use regatta_terms::RaceNo;
use std::alloc::{AllocError, Global};

/// The place of the last entry on which the table depends.
fn last_place(board: &Board, races: &[RaceNo]) -> u32
    ensures { result ≡ last_that_matters races.now board.now.entries }
{
    // From its contract the proof learns that a place fits.
    let _ = board.len();
    last_entry(board.entries(), races) as u32
}

/// Makes the document of a board's journal.
///
/// # Errors
///
/// If memory runs out.
#[tactic(auto, unfolding(crate::specs::Explained::document))]
pub fn document_of(alloc: Global, board: &Board) -> Result<Document, AllocError>
    ensures { IfOk result (λ made. made ≡ document board.now.rules board.now.entries) }
{
    let table = board.standing()?;
    let races = table.races.as_slice();
    let rows = table.rows.as_slice();
    let rules = rules_part(alloc, board.rules())?;
    let recorded = all_race_rows(alloc, board)?;
    let boats = all_boat_rows(alloc, board, races, rows)?;
    let neighbours = neighbour_parts(alloc, races, rows)?;
    let after_each = all_ranks(alloc, board, races)?;
    Ok(Document {
        rules,
        last_entry: last_place(board, races),
        races: recorded,
        boats,
        neighbours,
        after_each,
    })
}

/// Appends the text of the document of a board's journal.
///
/// # Errors
///
/// If memory runs out.
pub fn write_explained(alloc: Global, board: &Board, out: &mut Vec<u8>) -> Result<(), AllocError>
    ensures { OnOk result
        (out.new.items ≡ out.old.items ++ explained board.now.rules board.now.entries) }
{
    let made = document_of(alloc, board)?;
    write_document(&made, out)?;
    Ok(())
}
