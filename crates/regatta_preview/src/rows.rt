//! The rows of a preview.

ghost use Rattle.regatta_json.specs.Fields.{field};
ghost use Rattle.regatta_json.specs.Pushed.{Pushed};
ghost use Rattle.regatta_json.specs.Rows.{rows};
ghost use Rattle.regatta_preview.specs.Rows.{answer_row, cell_text, cell_value, change_row, move_row};
ghost use Rattle.regatta_preview.specs.Rows.{move_text, no_row, place_text, place_value, rank_row};
ghost use Rattle.regatta_preview.specs.Rows.{reply_row, role_row, score_row, sheet_row, short_row};

use crate::parts::{Change, LineReply, Move, ScoreChange};
use regatta_json::{
    ItemWriter, push_count, push_flag, push_mark, push_number, push_points, push_race_no,
    push_rows, push_tenths, push_text, push_word,
};
use regatta_scores::{Cell, Items};
use regatta_terms::{Answer, Reply, Role, Touched};
use regatta_words::{name_of_fault, name_of_refusal};
use std::alloc::AllocError;

/// Appends a boat's rank and net.
#[tactic(auto, unfolding(crate::specs::Rows::place_text))]
fn push_place(place: &Touched, out: &mut Vec<u8>) -> Result<(), AllocError>
    ensures { Pushed (place_text place.now) out.old out.new result }
{
    push_count(b"{\"rank\":", place.rank, out)?;
    push_flag(b",\"tied\":", place.tied, out)?;
    push_points(b",\"net\":", place.net, out)?;
    push_text(b"}", out)?;
    Ok(())
}

/// Appends a name, and a boat's rank and net.
fn push_named_place(name: &[u8], place: &Touched, out: &mut Vec<u8>) -> Result<(), AllocError>
    ensures { Pushed (field name.now (place_text place.now)) out.old out.new result }
{
    push_text(name, out)?;
    push_place(place, out)?;
    Ok(())
}

/// Appends a name, and a boat's rank and net, or null.
#[tactic(auto, unfolding(crate::specs::Rows::place_value))]
fn push_place_if_any(
    name: &[u8],
    place: &Option<Touched>,
    out: &mut Vec<u8>,
) -> Result<(), AllocError>
    ensures { Pushed (field name.now (place_value place.now)) out.old out.new result }
{
    match place {
        Some(place) => push_named_place(name, place, out),
        None => push_word(name, b"null", out),
    }
}

/// Appends the place of an accepted entry, and its boat.
#[tactic(auto, unfolding(crate::specs::Rows::answer_row))]
fn push_answer(answer: &Answer, out: &mut Vec<u8>) -> Result<(), AllocError>
    ensures { Pushed (answer_row answer.now) out.old out.new result }
{
    push_number(b"{\"reply\":\"OK\",\"entry\":", answer.place, out)?;
    push_place_if_any(b",\"boat\":", &answer.touched, out)?;
    push_text(b"}", out)?;
    Ok(())
}

/// Appends the number and the name of a refusal or a fault.
#[tactic(auto, unfolding(crate::specs::Rows::no_row))]
fn push_no(number: u8, name: &[u8], out: &mut Vec<u8>) -> Result<(), AllocError>
    ensures { Pushed (no_row number name.now) out.old out.new result }
{
    push_number(b"{\"reply\":\"NO\",\"number\":", u32::from(number), out)?;
    push_word(b",\"name\":\"", name, out)?;
    push_text(b"\"}", out)?;
    Ok(())
}

/// Appends the role that was set.
#[tactic(auto, unfolding(crate::specs::Rows::role_row))]
fn push_role(role: Role, out: &mut Vec<u8>) -> Result<(), AllocError>
    ensures { Pushed (role_row role) out.old out.new result }
{
    push_word(
        b"{\"reply\":\"ROLE\",\"role\":\"",
        role.text().as_bytes(),
        out,
    )?;
    push_text(b"\"}", out)?;
    Ok(())
}

/// Appends the rank and net that were asked for.
#[tactic(auto, unfolding(crate::specs::Rows::rank_row))]
fn push_rank(place: &Touched, out: &mut Vec<u8>) -> Result<(), AllocError>
    ensures { Pushed (rank_row place.now) out.old out.new result }
{
    push_named_place(b"{\"reply\":\"RANK\",\"boat\":", place, out)?;
    push_text(b"}", out)?;
    Ok(())
}

/// Appends a reply of one line.
#[tactic(auto, unfolding(crate::specs::Rows::short_row))]
fn push_short(reply: &Reply, out: &mut Vec<u8>) -> Result<(), AllocError>
    ensures { Pushed (short_row reply.now) out.old out.new result }
{
    match reply {
        Reply::Done(answer) => push_answer(answer, out),
        Reply::Refused(why) => push_no(why.number(), name_of_refusal(*why), out),
        Reply::Fault(fault) => push_no(fault.number(), name_of_fault(*fault), out),
        Reply::RoleSet(role) => push_role(*role, out),
        Reply::Ranked(place) => push_rank(place, out),
        Reply::Bye => push_text(b"{\"reply\":\"BYE\"}", out),
        Reply::Busy => push_text(b"{\"reply\":\"BUSY\"}", out),
        Reply::Closed => push_text(b"{\"reply\":\"CLOSED\"}", out),
    }
}

/// Appends the number of entries of a sheet.
#[tactic(auto, unfolding(crate::specs::Rows::sheet_row))]
fn push_sheet(entries: u32, out: &mut Vec<u8>) -> Result<(), AllocError>
    ensures { Pushed (sheet_row entries) out.old out.new result }
{
    push_number(b"{\"reply\":\"JOURNAL\",\"entries\":", entries, out)?;
    push_text(b"}", out)?;
    Ok(())
}

/// Appends the reply to a line.
#[tactic(auto, unfolding(crate::specs::Rows::reply_row))]
pub(crate) fn push_reply(reply: &LineReply, out: &mut Vec<u8>) -> Result<(), AllocError>
    ensures { Pushed (reply_row reply.now) out.old out.new result }
{
    match reply {
        LineReply::Short(reply) => push_short(reply, out),
        LineReply::Sheet(entries) => push_sheet(*entries, out),
    }
}

/// Appends a boat's place before the lines and after them.
#[tactic(auto, unfolding(crate::specs::Rows::move_text))]
fn push_step(step: &Move, out: &mut Vec<u8>) -> Result<(), AllocError>
    ensures { Pushed (move_text step.now) out.old out.new result }
{
    push_word(b"{\"sail\":\"", step.sail.as_bytes(), out)?;
    push_place_if_any(b"\",\"before\":", &step.before, out)?;
    push_named_place(b",\"after\":", &step.after, out)?;
    Ok(())
}

/// Appends a boat that moves.
#[tactic(auto, unfolding(crate::specs::Rows::move_row))]
pub(crate) fn push_move(step: &Move, out: &mut Vec<u8>) -> Result<(), AllocError>
    ensures { Pushed (move_row step.now) out.old out.new result }
{
    push_step(step, out)?;
    push_text(b"}", out)?;
    Ok(())
}

/// Appends a score.
#[tactic(auto, unfolding(crate::specs::Rows::cell_text))]
fn push_cell(cell: &Cell, out: &mut Vec<u8>) -> Result<(), AllocError>
    ensures { Pushed (cell_text cell.now) out.old out.new result }
{
    push_tenths(b"{\"points\":", cell.points, out)?;
    push_mark(b",\"mark\":", cell.mark, out)?;
    push_flag(b",\"excluded\":", cell.dropped, out)?;
    push_text(b"}", out)?;
    Ok(())
}

/// Appends a name and a score.
fn push_named_cell(name: &[u8], cell: &Cell, out: &mut Vec<u8>) -> Result<(), AllocError>
    ensures { Pushed (field name.now (cell_text cell.now)) out.old out.new result }
{
    push_text(name, out)?;
    push_cell(cell, out)?;
    Ok(())
}

/// Appends a name and a score, or null.
#[tactic(auto, unfolding(crate::specs::Rows::cell_value))]
fn push_cell_if_any(name: &[u8], cell: &Option<Cell>, out: &mut Vec<u8>) -> Result<(), AllocError>
    ensures { Pushed (field name.now (cell_value cell.now)) out.old out.new result }
{
    match cell {
        Some(cell) => push_named_cell(name, cell, out),
        None => push_word(name, b"null", out),
    }
}

/// Appends a boat's score in a race before the lines and after them.
#[tactic(auto, unfolding(crate::specs::Rows::score_row))]
fn push_score(score: &ScoreChange, out: &mut Vec<u8>) -> Result<(), AllocError>
    ensures { Pushed (score_row score.now) out.old out.new result }
{
    push_race_no(b"{\"race\":", score.race, out)?;
    push_cell_if_any(b",\"before\":", &score.before, out)?;
    push_cell_if_any(b",\"after\":", &score.after, out)?;
    push_text(b"}", out)?;
    Ok(())
}

/// Scores as rows.
struct Scores;

impl ItemWriter<ScoreChange> for Scores {
    ghost use Rattle.regatta_preview.specs.Rows.{score_row as text_of};

    ghost text = { λ _ item. text_of item };

    fn push_item(&self, item: &ScoreChange, out: &mut Vec<u8>) -> Result<(), AllocError> {
        push_score(item, out)
    }
}

/// Appends scores as rows.
fn push_scores(items: &Items<ScoreChange>, out: &mut Vec<u8>) -> Result<(), AllocError>
    ensures { Pushed (rows score_row items.now) out.old out.new result }
{
    push_rows(&Scores, items.as_slice(), out)
}

/// Appends a boat whose rank, net or scores change.
#[tactic(auto, unfolding(crate::specs::Rows::change_row))]
pub(crate) fn push_change(change: &Change, out: &mut Vec<u8>) -> Result<(), AllocError>
    ensures { Pushed (change_row change.now) out.old out.new result }
{
    push_step(&change.step, out)?;
    push_text(b",\"scores\":[\n", out)?;
    push_scores(&change.scores, out)?;
    push_text(b"\n]}", out)?;
    Ok(())
}
