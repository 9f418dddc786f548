//! What is wrong with the text of a journal or of a kept file, and with an entry list: all of it, and
//! where.
//!
//! A check is one JSON object. It has numbers and fixed words alone, none of the text.
#![tactic(auto)]

mod documents;
mod entry_rows;
mod lines;
mod parts;
mod rows;
mod whole;

pub use documents::write_document;
pub use parts::{Check, Fault, Kind, Place, RowFault, RowKind, Torn};
pub use whole::{check_of_journal, check_of_kept, write_check_of_journal, write_check_of_kept};
