//! What a run and a session share: cutting a text that comes in pieces into lines, who answers a
//! line, room for a reply, and the replies to lines.
#![tactic(auto)]

mod asked;
mod cutter;
pub mod laws;
mod replies;
mod room;

pub use asked::{ApartLine, AskedLine, DeskLine, Next};
pub use cutter::Cutter;
pub use regatta_tables::REPLY_ROOM;
pub use replies::{answer_apart, ranked, reply_apart, reply_of};
pub use room::{make_room, write_fitting};
