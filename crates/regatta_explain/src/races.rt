//! Rows of races.

ghost use Rattle.std.specs.Prelude.{◌≡◌, IfSome};
ghost use Rattle.regatta_json.specs.Pushed.{Pushed};
ghost use Rattle.regatta_explain.specs.Made.{holdings_text, is_bare as is_bare_by};
ghost use Rattle.regatta_explain.specs.Rows.{group_text, status_text, held_text};
ghost use Rattle.regatta_explain.specs.Rows.{penalties_text, redress_text};
ghost use Rattle.regatta_explain.specs.Rows.{race_head, race_scores_text, race_text};

use crate::fields::{push_code, push_redress, push_sails, push_seconds, push_status};
use crate::parts::{GroupPart, HeldPart, RacePart};
use regatta_json::{
    push_count, push_flag, push_number, push_pieces, push_race_no, push_text, push_word,
};
use std::alloc::AllocError;

/// Appends the row of a group.
#[tactic(auto, unfolding(crate::specs::Rows::group_text))]
pub(crate) fn push_group(part: &GroupPart, out: &mut Vec<u8>) -> Result<(), AllocError>
    ensures { Pushed (group_text part.now) out.old out.new result }
{
    push_count(b"{\"place\":", part.place, out)?;
    push_count(b",\"sharing\":", part.sharing, out)?;
    push_pieces(out, &[b",\"boats\":["])?;
    push_sails(&part.boats, out)?;
    push_pieces(out, &[b"]}"])?;
    Ok(())
}

/// Appends how a boat is scored.
#[tactic(auto, unfolding(crate::specs::Rows::status_text))]
fn push_scored(part: &HeldPart, out: &mut Vec<u8>) -> Result<(), AllocError>
    ensures { Pushed (status_text part.now) out.old out.new result }
{
    push_word(b"{\"sail\":\"", part.sail.as_bytes(), out)?;
    push_status(b"\",\"status\":\"", part.status, out)?;
    push_flag(b"\",\"came\":", part.came, out)?;
    Ok(())
}

/// Appends her code and penalties.
#[tactic(auto, unfolding(crate::specs::Rows::penalties_text))]
fn push_penalties(part: &HeldPart, out: &mut Vec<u8>) -> Result<(), AllocError>
    ensures { Pushed (penalties_text part.now) out.old out.new result }
{
    push_code(b",\"code\":", part.code, out)?;
    push_number(b",\"zfp\":", u32::from(part.zfp), out)?;
    push_number(b",\"scp\":", u32::from(part.scp), out)?;
    Ok(())
}

/// Appends her redress and her time.
#[tactic(auto, unfolding(crate::specs::Rows::redress_text))]
fn push_redress_and_time(part: &HeldPart, out: &mut Vec<u8>) -> Result<(), AllocError>
    ensures { Pushed (redress_text part.now) out.old out.new result }
{
    push_redress(b",\"redress\":", part.redress, out)?;
    push_seconds(b",\"seconds\":", part.seconds, out)?;
    push_pieces(out, &[b"}"])?;
    Ok(())
}

/// The text of no code, penalty, redress and time, if she has none.
#[tactic(auto, unfolding(crate::specs::Made::holdings_text))]
fn bare_holdings(part: &HeldPart) -> Option<&'static [u8]>
    ensures { IfSome result (λ text. text.now ≡ holdings_text part.now) }
{
    if is_bare(part) {
        Some(b",\"code\":null,\"zfp\":0,\"scp\":0,\"redress\":null,\"seconds\":null}")
    } else {
        None
    }
}

/// Whether a boat has no code, penalty, redress and time in a race.
fn is_bare(part: &HeldPart) -> bool
    ensures { result ≡ is_bare_by part.now }
{
    part.code.is_none()
        && part.zfp == 0
        && part.scp == 0
        && part.redress.is_none()
        && part.seconds.is_none()
}

/// Appends her code, penalties, redress and time, one after another.
#[tactic(auto, unfolding(crate::specs::Made::holdings_text))]
fn push_each_holding(part: &HeldPart, out: &mut Vec<u8>) -> Result<(), AllocError>
    ensures { Pushed (holdings_text part.now) out.old out.new result }
{
    push_penalties(part, out)?;
    push_redress_and_time(part, out)?;
    Ok(())
}

/// Appends her code, penalties, redress and time.
// Most boats have none of them.
fn push_holdings(part: &HeldPart, out: &mut Vec<u8>) -> Result<(), AllocError>
    ensures { Pushed (holdings_text part.now) out.old out.new result }
{
    match bare_holdings(part) {
        Some(text) => push_text(text, out),
        None => push_each_holding(part, out),
    }
}

/// Appends the row of a boat in a race.
#[tactic(auto, unfolding(crate::specs::Rows::held_text, crate::specs::Made::holdings_text))]
pub(crate) fn push_held(part: &HeldPart, out: &mut Vec<u8>) -> Result<(), AllocError>
    ensures { Pushed (held_text part.now) out.old out.new result }
{
    push_scored(part, out)?;
    push_holdings(part, out)?;
    Ok(())
}

/// Appends a race, whether it counts, and how many boats are entered.
#[tactic(auto, unfolding(crate::specs::Rows::race_head))]
fn push_race_head(part: &RacePart, out: &mut Vec<u8>) -> Result<(), AllocError>
    ensures { Pushed (race_head part.now) out.old out.new result }
{
    push_race_no(b"{\"race\":", part.race, out)?;
    push_flag(b",\"counts\":", part.counts, out)?;
    push_count(b",\"entered\":", part.entered, out)?;
    Ok(())
}

/// Appends how many came, and the DNF score and 20% of it.
#[tactic(auto, unfolding(crate::specs::Rows::race_scores_text))]
fn push_race_scores(part: &RacePart, out: &mut Vec<u8>) -> Result<(), AllocError>
    ensures { Pushed (race_scores_text part.now) out.old out.new result }
{
    push_count(b",\"came\":", part.came, out)?;
    push_count(b",\"dnf\":", part.dnf, out)?;
    push_count(b",\"twenty_percent\":", part.twenty_percent, out)?;
    Ok(())
}

/// Appends what a race is scored by.
#[tactic(auto, unfolding(crate::specs::Rows::race_text))]
pub(crate) fn push_race(part: &RacePart, out: &mut Vec<u8>) -> Result<(), AllocError>
    ensures { Pushed (race_text part.now) out.old out.new result }
{
    push_race_head(part, out)?;
    push_race_scores(part, out)?;
    Ok(())
}
