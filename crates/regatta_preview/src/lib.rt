//! What lines would do to a series: the reply to each, which boats would move, and whose scores would
//! change.
//!
//! A preview is one JSON object. It has sails, numbers and fixed words alone. Nothing is kept.
#![tactic(auto)]

mod answers;
mod changes;
mod documents;
mod moves;
mod parts;
mod rows;
mod run;
mod talks;
mod whole;

pub use changes::changes_since;
pub use documents::write_document;
pub use moves::moves_since;
pub use parts::{Change, LineReply, Move, Preview, ScoreChange};
pub use run::{INPUT_LIMIT, PreviewFault, preview};
pub use talks::take_lines;
pub use whole::{preview_of, write_preview};
