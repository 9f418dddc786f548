//! The whole document.

ghost use Rattle.std.specs.Prelude.{◌≡◌, ◌≤◌, ◌<◌, ◌++◌, ◌+◌, take, length, vec_len};
ghost use Rattle.std.specs.Prelude.{vec_capacity, OnOk, OnErr, IsOk, decimal};
ghost use Rattle.regatta_json.specs.Pushed.{Pushed};
ghost use Rattle.regatta_words.specs.WordsText.{marks_text, lines_text, answers_text};
ghost use Rattle.regatta_words.specs.WordsText.{series_limits, other_limits};
ghost use Rattle.regatta_words.specs.WordsText.{words_text};

use crate::forms::FORMS;
use crate::rows::{CodeRows, FaultRows, FormRows, KindRows, RefusalRows, RoleRows};
use crate::senders::{Example, an_example};
use crate::sentences::{FAULTS, REFUSALS, ROLES};
use itoa::Buffer;
use regatta_json::{push_pieces, push_rows, settle};
use regatta_terms::{
    Code, MAX_BOATS, MAX_ENTRIES, MAX_LINE, MAX_PENALTIES, MAX_RACES, MAX_SCP_POINTS, MAX_SEATS,
    PenaltyKind,
};
use std::alloc::AllocError;

/// Appends the document.
///
/// # Errors
///
/// `AllocError` if an allocation fails, and never if `out` has room for the text. After an error
/// `out` has its old contents; its capacity is never less.
pub fn write_words(out: &mut Vec<u8>) -> Result<(), AllocError>
    ensures ok { OnOk result (out.new.items ≡ out.old.items ++ words_text) }
    ensures err { OnErr result (out.new.items ≡ out.old.items) }
    ensures room { vec_capacity out.old ≤ vec_capacity out.new }
    ensures fits { vec_len out.old + length words_text ≤ vec_capacity out.old → IsOk result }
{
    let start = out.len();
    let pushed = push_words(&an_example(), out);
    settle(out, start, pushed)
}

/// Appends the same text, but an `Err` leaves some first part of it.
#[tactic(auto, unfolding(crate::specs::WordsText::words_text))]
fn push_words(of: &Example, out: &mut Vec<u8>) -> Result<(), AllocError>
    ensures { Pushed words_text out.old out.new result }
{
    push_marks(of, out)?;
    push_lines(of, out)?;
    push_answers(out)?;
    push_series_limits(out)?;
    push_other_limits(out)?;
    Ok(())
}

/// Appends codes and kinds of penalty.
#[tactic(auto, unfolding(crate::specs::WordsText::marks_text))]
fn push_marks(of: &Example, out: &mut Vec<u8>) -> Result<(), AllocError>
    ensures ok { OnOk result (out.new.items ≡ out.old.items ++ marks_text) }
    ensures err { OnErr result (take (vec_len out.old) out.new.items ≡ out.old.items) }
    ensures room { vec_capacity out.old ≤ vec_capacity out.new }
    ensures full { OnErr result (vec_capacity out.old < vec_len out.old + length marks_text) }
{
    push_pieces(out, &[b"{\"codes\":[\n"])?;
    push_rows(&CodeRows(of), &Code::ALL, out)?;
    push_pieces(out, &[b"\n],\n\"penalties\":[\n"])?;
    push_rows(&KindRows, &[PenaltyKind::Zfp, PenaltyKind::Scp], out)?;
    Ok(())
}

/// Appends roles and forms of lines.
#[tactic(auto, unfolding(crate::specs::WordsText::lines_text))]
fn push_lines(of: &Example, out: &mut Vec<u8>) -> Result<(), AllocError>
    ensures { Pushed lines_text out.old out.new result }
{
    push_pieces(out, &[b"\n],\n\"roles\":[\n"])?;
    push_rows(&RoleRows, &ROLES, out)?;
    push_pieces(out, &[b"\n],\n\"lines\":[\n"])?;
    push_rows(&FormRows(of), &FORMS, out)?;
    Ok(())
}

/// Appends refusals and faults.
#[tactic(auto, unfolding(crate::specs::WordsText::answers_text))]
fn push_answers(out: &mut Vec<u8>) -> Result<(), AllocError>
    ensures ok { OnOk result (out.new.items ≡ out.old.items ++ answers_text) }
    ensures err { OnErr result (take (vec_len out.old) out.new.items ≡ out.old.items) }
    ensures room { vec_capacity out.old ≤ vec_capacity out.new }
    ensures full { OnErr result (vec_capacity out.old < vec_len out.old + length answers_text) }
{
    push_pieces(out, &[b"\n],\n\"refusals\":[\n"])?;
    push_rows(&RefusalRows, &REFUSALS, out)?;
    push_pieces(out, &[b"\n],\n\"faults\":[\n"])?;
    push_rows(&FaultRows, &FAULTS, out)?;
    Ok(())
}

/// Appends a limit after its name.
fn push_limit(name: &[u8], limit: u32, out: &mut Vec<u8>) -> Result<(), AllocError>
    ensures { Pushed (name.now ++ decimal limit) out.old out.new result }
{
    let mut digits = Buffer::new();
    push_pieces(out, &[name, digits.format(limit).as_bytes()])
}

/// Appends the limits of a series.
#[tactic(auto, unfolding(crate::specs::WordsText::series_limits))]
fn push_series_limits(out: &mut Vec<u8>) -> Result<(), AllocError>
    ensures { Pushed series_limits out.old out.new result }
{
    push_limit(b"\n],\n\"limits\":{\"boats\":", MAX_BOATS as u32, out)?;
    push_limit(b",\"races\":", MAX_RACES as u32, out)?;
    push_limit(b",\"entries\":", MAX_ENTRIES as u32, out)?;
    Ok(())
}

/// Appends the limits of penalties, lines and seats.
#[tactic(auto, unfolding(crate::specs::WordsText::other_limits))]
fn push_other_limits(out: &mut Vec<u8>) -> Result<(), AllocError>
    ensures { Pushed other_limits out.old out.new result }
{
    push_limit(b",\"penalties\":", MAX_PENALTIES as u32, out)?;
    push_limit(b",\"scp_points\":", MAX_SCP_POINTS as u32, out)?;
    push_limit(b",\"line_bytes\":", MAX_LINE as u32, out)?;
    push_limit(b",\"seats\":", MAX_SEATS as u32, out)?;
    push_pieces(out, &[b"}}\n"])?;
    Ok(())
}
