//! JSON documents, written piece by piece: fixed words, numbers, sails and rows of a list.
//!
//! Nothing here escapes a letter, so what is written as a string has none that JSON would escape.
#![tactic(auto)]

mod fields;
mod pieces;
mod rows;

pub use fields::{
    push_count, push_flag, push_mark, push_number, push_points, push_quoted, push_race_no,
    push_string, push_tenths, push_text, push_value, push_word,
};
pub use pieces::{flag, push_pieces, settle};
pub use rows::{ItemWriter, push_rows, push_values};
