//! What a preview says, row by row.

use regatta_scores::{Cell, Items};
use regatta_terms::{RaceNo, Reply, Role, Sail, Touched};

/// The reply to a line.
#[derive(Clone, Copy)]
pub enum LineReply {
    /// A reply of one line.
    Short(Reply),
    /// The sheet of a journal with so many entries, to SHOW.
    Sheet(u32),
}

/// A boat that stands otherwise after the lines than before them.
#[derive(Clone, Copy)]
pub struct Move {
    /// The boat.
    pub sail: Sail,
    /// Her rank and net before the lines; `None` if she wasn't entered.
    pub before: Option<Touched>,
    /// Her rank and net after them.
    pub after: Touched,
}

/// A boat's score in a race that counts before the lines or after them.
#[derive(Clone, Copy)]
pub struct ScoreChange {
    /// The race.
    pub race: RaceNo,
    /// Her score before the lines; `None` if the race didn't count, or if she wasn't entered.
    pub before: Option<Cell>,
    /// Her score after them; `None` if the race doesn't count.
    pub after: Option<Cell>,
}

/// A boat whose rank, net or scores are others after the lines than before them.
#[derive(Drop)]
pub struct Change {
    /// The boat, and her rank and net before the lines and after them.
    pub step: Move,
    /// Her scores in the races that count before the lines or after them.
    pub scores: Items<ScoreChange>,
}

/// What lines would do.
#[derive(Drop)]
pub struct Preview {
    /// The role of the first line.
    pub role: Role,
    /// The reply to each line.
    pub replies: Items<LineReply>,
    /// The boats that move, in the order of the last table.
    pub moves: Items<Move>,
    /// The boats whose rank, net or scores change, in the same order.
    pub changes: Items<Change>,
}
