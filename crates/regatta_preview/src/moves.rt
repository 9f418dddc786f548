//! Who stands otherwise after the lines than before them.

ghost use Rattle.std.specs.Prelude.{◌≡◌, ◌++◌, ◌∷◌, [], filter, map, IfOk, OnOk};
ghost use Rattle.std.specs.Prelude.{if◌then◌else◌};
ghost use Rattle.regatta_preview.specs.Moves.{differ as differ_by, has_moved as has_moved_by};
ghost use Rattle.regatta_preview.specs.Moves.{move_since as move_since_by, place_of as place_by};
ghost use Rattle.regatta_preview.specs.Moves.{moves as moves_by};

use crate::parts::Move;
use regatta_board::Board;
use regatta_scores::{Items, Row};
use regatta_terms::Touched;
use std::alloc::{AllocError, Global};

/// A boat's rank and net, by her row of a table.
pub(crate) fn place_of(row: &Row) -> Touched
    ensures { result ≡ place_by row.now }
{
    Touched {
        rank: row.rank,
        tied: row.tied,
        net: row.net,
    }
}

/// Whether rank or net changed, or the rank is shared now and wasn't, or the reverse.
fn differ(before: &Touched, after: &Touched) -> bool
    ensures { result ≡ differ_by before.now after.now }
{
    before.rank != after.rank || before.tied != after.tied || before.net != after.net
}

/// Whether the boat is new, or stands otherwise.
pub(crate) fn has_moved(step: &Move) -> bool
    ensures { result ≡ has_moved_by step.now }
{
    match &step.before {
        None => true,
        Some(before) => differ(before, &step.after),
    }
}

/// A boat's rank and net on the first board, and then by her row of a later table.
fn move_since(first: &Board, row: &Row) -> Move
    ensures { result ≡ move_since_by first.now.rules first.now.entries row.now }
{
    Move {
        sail: row.sail,
        before: first.rank(row.sail),
        after: place_of(row),
    }
}

/// Appends a step if the boat has moved by it.
fn push_if_moved(moves: &mut Vec<Move>, step: Move) -> Result<(), AllocError>
    ensures { OnOk result (moves.new.items ≡ moves.old.items
        ++ (if has_moved_by step then step ∷ [] else [])) }
{
    if has_moved(&step) {
        moves.push(step)?;
    }
    Ok(())
}

/// The boats that have moved, in the order of these rows.
fn moves_of(alloc: Global, first: &Board, rows: &[Row]) -> Result<Vec<Move>, AllocError>
    ensures { IfOk result (λ moves. moves.items ≡ filter has_moved_by
        (map (move_since_by first.now.rules first.now.entries) rows.now)) }
{
    let mut moves = Vec::new(alloc);
    for row in rows {
        push_if_moved(&mut moves, move_since(first, row))?;
    }
    Ok(moves)
}

/// The boats that stand otherwise on the second board than on the first, in the order of its table.
/// Both have the same rules.
///
/// # Errors
///
/// If memory runs out.
#[tactic(auto, unfolding(crate::specs::Moves::moves))]
pub fn moves_since(alloc: Global, first: &Board, last: &Board) -> Result<Items<Move>, AllocError>
    requires { last.now.rules ≡ first.now.rules }
    ensures { IfOk result (λ moves. moves
        ≡ moves_by first.now.rules first.now.entries last.now.entries) }
{
    let table = last.standing()?;
    let moves = moves_of(alloc, first, table.rows.as_slice())?;
    Ok(Items::new(moves))
}
