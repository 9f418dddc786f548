//! A race office's texts: replies, tables, sheets, journals and entry lists.
#![tactic(auto)]

mod cells;
mod entries;
mod journals;
pub mod laws;
mod listed;
mod page;
mod pieces;
mod records;
mod replies;
mod results;
mod rows;
mod sheets;
mod shown;
mod tables;

pub use entries::{EntriesFault, Sails, read_entries};
pub use journals::{Journal, JournalFault, first_line, read_journal, write_entries, write_journal};
pub use listed::{Listed, listed_rows};
pub use records::{fields_in, records_of, without_spaces};
pub use replies::{REPLY_ROOM, write_reply};
pub use results::write_csv;
pub use sheets::{write_sheet, write_sheet_of};
pub use shown::ShownText;
pub use tables::write_table;
