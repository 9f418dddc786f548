//! The desk under its lock, and the passes: with a pass, a seat runs commands at the desk and
//! watches without the lock.
#![tactic(auto)]

mod answers;
mod desk;
mod last_sheet;
mod office;
mod opening;
mod pass;
mod receipt;
mod sheet;
mod told;

pub use answers::{answer_alone, answer_show};
pub use desk::Desk;
pub use office::{Office, Opened};
pub use opening::OpenFault;
pub use pass::Pass;
pub use receipt::Receipt;
pub use regatta_talk::Next;
pub use regatta_watch::{Note, OfficeName, ShowFault};
pub use sheet::Sheet;
