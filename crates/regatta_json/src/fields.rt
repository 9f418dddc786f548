//! Names of fields, each followed by a value.

ghost use Rattle.std.specs.Prelude.{decimal};
ghost use Rattle.regatta_json.specs.Fields.{field, mark_value, number_value, quoted};
ghost use Rattle.regatta_json.specs.Pushed.{Pushed};
ghost use Rattle.regatta_json.specs.Rows.{flag_text};
ghost use Rattle.regatta_terms.specs.Entries.{points_text};

use crate::pieces::{flag, push_pieces};
use itoa::Buffer;
use regatta_scores::Abbrev;
use regatta_terms::{RaceNo, Tenths, points_word};
use std::alloc::AllocError;

/// Appends a text.
///
/// # Errors
///
/// As [`push_pieces`].
pub fn push_text(text: &[u8], out: &mut Vec<u8>) -> Result<(), AllocError>
    ensures { Pushed text.now out.old out.new result }
{
    out.extend_from_slice(text)?;
    Ok(())
}

/// Appends a name and a word.
///
/// # Errors
///
/// As [`push_pieces`].
#[tactic(auto, using(crate::proofs::Texts::two_pieces))]
pub fn push_word(name: &[u8], word: &[u8], out: &mut Vec<u8>) -> Result<(), AllocError>
    ensures { Pushed (field name.now word.now) out.old out.new result }
{
    push_pieces(out, &[name, word])
}

/// Appends a name and a truth value.
///
/// # Errors
///
/// As [`push_pieces`].
pub fn push_flag(name: &[u8], holds: bool, out: &mut Vec<u8>) -> Result<(), AllocError>
    ensures { Pushed (field name.now (flag_text holds)) out.old out.new result }
{
    push_word(name, flag(holds), out)
}

/// Appends a name and a number.
///
/// # Errors
///
/// As [`push_pieces`].
pub fn push_number(name: &[u8], number: u32, out: &mut Vec<u8>) -> Result<(), AllocError>
    ensures { Pushed (field name.now (decimal number)) out.old out.new result }
{
    let mut digits = Buffer::new();
    push_word(name, digits.format(number).as_bytes(), out)
}

/// Appends a name and points.
///
/// # Errors
///
/// As [`push_pieces`].
pub fn push_points(name: &[u8], tenths: u32, out: &mut Vec<u8>) -> Result<(), AllocError>
    ensures { Pushed (field name.now (points_text tenths)) out.old out.new result }
{
    let mut word = [0; 11];
    push_word(name, points_word(&mut word, tenths), out)
}

/// Appends a name and a count.
///
/// # Errors
///
/// As [`push_pieces`].
pub fn push_count(name: &[u8], count: u16, out: &mut Vec<u8>) -> Result<(), AllocError>
    ensures { Pushed (field name.now (decimal count)) out.old out.new result }
{
    push_number(name, u32::from(count), out)
}

/// Appends a name and a race.
///
/// # Errors
///
/// As [`push_pieces`].
pub fn push_race_no(name: &[u8], race: RaceNo, out: &mut Vec<u8>) -> Result<(), AllocError>
    ensures { Pushed (field name.now (decimal race)) out.old out.new result }
{
    push_number(name, u32::from(race.get()), out)
}

/// Appends a name and a score.
///
/// # Errors
///
/// As [`push_pieces`].
pub fn push_tenths(name: &[u8], tenths: Tenths, out: &mut Vec<u8>) -> Result<(), AllocError>
    ensures { Pushed (field name.now (points_text tenths)) out.old out.new result }
{
    push_points(name, tenths.get(), out)
}

/// Appends a word as a string.
///
/// # Errors
///
/// As [`push_pieces`].
#[tactic(auto, unfolding(crate::specs::Fields::quoted))]
pub fn push_quoted(word: &[u8], out: &mut Vec<u8>) -> Result<(), AllocError>
    ensures { Pushed (quoted word.now) out.old out.new result }
{
    push_pieces(out, &[b"\"", word, b"\""])
}

/// Appends a name and a word as a string.
///
/// # Errors
///
/// As [`push_pieces`].
#[tactic(auto, unfolding(crate::specs::Fields::quoted))]
pub fn push_string(name: &[u8], word: &[u8], out: &mut Vec<u8>) -> Result<(), AllocError>
    ensures { Pushed (field name.now (quoted word.now)) out.old out.new result }
{
    push_pieces(out, &[name, b"\"", word, b"\""])
}

/// Appends a name and an abbreviation, or null.
///
/// # Errors
///
/// As [`push_pieces`].
#[tactic(auto, unfolding(crate::specs::Fields::mark_value))]
pub fn push_mark(name: &[u8], mark: Option<Abbrev>, out: &mut Vec<u8>) -> Result<(), AllocError>
    ensures { Pushed (field name.now (mark_value mark)) out.old out.new result }
{
    match mark {
        Some(mark) => push_string(name, mark.text().as_bytes(), out),
        None => push_word(name, b"null", out),
    }
}

/// Appends a name and a number, or null.
///
/// # Errors
///
/// As [`push_pieces`].
#[tactic(auto, unfolding(crate::specs::Fields::number_value))]
pub fn push_value(name: &[u8], number: Option<u32>, out: &mut Vec<u8>) -> Result<(), AllocError>
    ensures { Pushed (field name.now (number_value number)) out.old out.new result }
{
    match number {
        Some(number) => push_number(name, number, out),
        None => push_word(name, b"null", out),
    }
}
