//! The journal of a shared office, kept in a log: a reply stays sealed until all that it was made
//! from is on the disk.
#![tactic(auto)]

mod covered;
mod covers;
mod keeper;
mod kept;
pub mod laws;
mod mark;
mod need;
mod outlet;
mod reply_room;
mod round;
mod sealed;
mod store;

pub use covered::{Covered, cover_all};
pub use covers::{Covers, KeptBy, Uncovered};
pub use keeper::{CoverFault, Keeper, KeeperFault, Unkept};
pub use kept::{Book, Kept, KeptName};
pub use mark::Mark;
pub use need::{Need, NotKept};
pub use outlet::Outlet;
pub use reply_room::ReplyRoom;
pub use sealed::{CoveredReply, Sealed};
