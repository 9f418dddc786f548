//! Rows of boats, and of their scores.

ghost use Rattle.std.specs.Prelude.{◌≡◌, IfSome};
ghost use Rattle.regatta_json.specs.Pushed.{Pushed};
ghost use Rattle.regatta_explain.specs.Made.{has_no_redress as has_no_redress_by, mark_text};
ghost use Rattle.regatta_explain.specs.Rows.{base_text, average_text, points_part, score_text};
ghost use Rattle.regatta_explain.specs.Rows.{boat_text};

use crate::fields::{push_races, push_redress, push_status};
use crate::parts::{BoatPart, ScorePart};
use regatta_json::{
    push_count, push_flag, push_mark, push_number, push_pieces, push_points, push_race_no,
    push_tenths, push_text, push_word,
};
use std::alloc::AllocError;

/// Appends a boat's score before redress.
#[tactic(auto, unfolding(crate::specs::Rows::base_text))]
fn push_base(part: &ScorePart, out: &mut Vec<u8>) -> Result<(), AllocError>
    ensures { Pushed (base_text part.now) out.old out.new result }
{
    push_race_no(b"{\"race\":", part.race, out)?;
    push_status(b",\"status\":\"", part.status, out)?;
    push_tenths(b"\",\"base\":", part.base, out)?;
    push_number(b",\"penalty\":", part.penalty, out)?;
    push_tenths(b",\"plain\":", part.plain, out)?;
    Ok(())
}

/// Appends her redress, and the scores that an average counts, one after another.
#[tactic(auto, unfolding(crate::specs::Rows::average_text))]
fn push_each_average(part: &ScorePart, out: &mut Vec<u8>) -> Result<(), AllocError>
    ensures { Pushed (average_text part.now) out.old out.new result }
{
    push_redress(b",\"redress\":", part.redress, out)?;
    push_pieces(out, &[b",\"averaged\":["])?;
    push_races(&part.averaged, out)?;
    push_points(b"],\"sum\":", part.sum, out)?;
    Ok(())
}

/// Whether she has no redress, and so no average.
fn has_no_redress(part: &ScorePart) -> bool
    ensures { result ≡ has_no_redress_by part.now }
{
    part.redress.is_none() && part.averaged.as_slice().is_empty() && part.sum == 0
}

/// The text of no redress, if she has none.
fn bare_average(part: &ScorePart) -> Option<&'static [u8]>
    ensures { IfSome result (λ text. text.now ≡ average_text part.now) }
{
    if has_no_redress(part) {
        Some(b",\"redress\":null,\"averaged\":[],\"sum\":0.0")
    } else {
        None
    }
}

/// Appends her redress, and the scores that an average counts.
// Most boats have none.
fn push_average(part: &ScorePart, out: &mut Vec<u8>) -> Result<(), AllocError>
    ensures { Pushed (average_text part.now) out.old out.new result }
{
    match bare_average(part) {
        Some(text) => push_text(text, out),
        None => push_each_average(part, out),
    }
}

/// Appends her abbreviation, and whether the score is excluded, one after another.
#[tactic(auto, unfolding(crate::specs::Made::mark_text))]
fn push_each_mark(part: &ScorePart, out: &mut Vec<u8>) -> Result<(), AllocError>
    ensures { Pushed (mark_text part.now) out.old out.new result }
{
    push_mark(b",\"mark\":", part.mark, out)?;
    push_flag(b",\"excluded\":", part.excluded, out)?;
    push_pieces(out, &[b"}"])?;
    Ok(())
}

/// The text of no abbreviation, if there is none, and of whether the score is excluded.
#[tactic(auto, unfolding(crate::specs::Made::mark_text, regatta_json::specs::Fields::mark_value))]
fn bare_mark(part: &ScorePart) -> Option<&'static [u8]>
    ensures { IfSome result (λ text. text.now ≡ mark_text part.now) }
{
    match (part.mark, part.excluded) {
        (Some(_), _) => None,
        (None, true) => Some(b",\"mark\":null,\"excluded\":true}"),
        (None, false) => Some(b",\"mark\":null,\"excluded\":false}"),
    }
}

/// Appends her abbreviation, and whether the score is excluded.
// Most scores have no abbreviation.
fn push_last(part: &ScorePart, out: &mut Vec<u8>) -> Result<(), AllocError>
    ensures { Pushed (mark_text part.now) out.old out.new result }
{
    match bare_mark(part) {
        Some(text) => push_text(text, out),
        None => push_each_mark(part, out),
    }
}

/// Appends her points.
#[tactic(auto, unfolding(crate::specs::Rows::points_part, crate::specs::Made::mark_text))]
fn push_result(part: &ScorePart, out: &mut Vec<u8>) -> Result<(), AllocError>
    ensures { Pushed (points_part part.now) out.old out.new result }
{
    push_tenths(b",\"points\":", part.points, out)?;
    push_last(part, out)?;
    Ok(())
}

/// Appends the row of a boat's score in a race.
#[tactic(auto, unfolding(crate::specs::Rows::score_text))]
pub(crate) fn push_score(part: &ScorePart, out: &mut Vec<u8>) -> Result<(), AllocError>
    ensures { Pushed (score_text part.now) out.old out.new result }
{
    push_base(part, out)?;
    push_average(part, out)?;
    push_result(part, out)?;
    Ok(())
}

/// Appends a boat's place in the series.
#[tactic(auto, unfolding(crate::specs::Rows::boat_text))]
pub(crate) fn push_boat(part: &BoatPart, out: &mut Vec<u8>) -> Result<(), AllocError>
    ensures { Pushed (boat_text part.now) out.old out.new result }
{
    push_word(b"{\"sail\":\"", part.sail.as_bytes(), out)?;
    push_count(b"\",\"rank\":", part.rank, out)?;
    push_flag(b",\"tied\":", part.tied, out)?;
    push_points(b",\"net\":", part.net, out)?;
    push_points(b",\"total\":", part.total, out)?;
    Ok(())
}
