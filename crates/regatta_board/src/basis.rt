//! The board that a command was prepared on.
ghost use Rattle.std.specs.Prelude.{◌≡◌};
ghost use Rattle.std.specs.Borrow.{ftrue};
ghost use Rattle.regatta_board.specs.BoardFacts.{BoardValue};

use crate::board::Board;
use std::marker::Model;

/// The board that a command was prepared on. Only clauses use it: it has no bytes.
#[derive(Drop)]
pub(crate) struct Basis {
    pub ghost board: { BoardValue },
}

impl Model for Basis {
    ghost also_owns = { λ _. ftrue };
}

impl Basis {
    /// Records the board as it is now.
    pub(crate) fn of(board: &Board) -> Basis
        ensures { result.board ≡ board.now }
    {
        Basis {}
    }
}
