//! The whole document.

ghost use Rattle.regatta_json.specs.Pushed.{Pushed, Written};
ghost use Rattle.regatta_json.specs.Rows.{rows};
ghost use Rattle.regatta_preview.specs.Documents.{changes_text, document_text, moves_text, replies_text};
ghost use Rattle.regatta_preview.specs.Rows.{change_row, move_row, reply_row};

use crate::parts::{Change, LineReply, Move, Preview};
use crate::rows::{push_change, push_move, push_reply};
use regatta_json::{ItemWriter, push_rows, push_text, push_word, settle};
use regatta_scores::Items;
use std::alloc::AllocError;

/// Appends the document.
///
/// # Errors
///
/// `AllocError` if an allocation fails, and never if `out` has room for the text. After an error
/// `out` has its old contents; its capacity is never less.
pub fn write_document(preview: &Preview, out: &mut Vec<u8>) -> Result<(), AllocError>
    ensures { Written (document_text preview.now) out.old out.new result }
{
    let start = out.len();
    let pushed = push_document(preview, out);
    settle(out, start, pushed)
}

/// Appends the same text, but an `Err` leaves some first part of it.
#[tactic(auto, unfolding(crate::specs::Documents::document_text))]
fn push_document(preview: &Preview, out: &mut Vec<u8>) -> Result<(), AllocError>
    ensures { Pushed (document_text preview.now) out.old out.new result }
{
    push_role_and_replies(preview, out)?;
    push_all_moves(preview, out)?;
    push_all_changes(preview, out)?;
    Ok(())
}

/// Appends the role of the first line, and the reply to each line.
#[tactic(auto, unfolding(crate::specs::Documents::replies_text))]
fn push_role_and_replies(preview: &Preview, out: &mut Vec<u8>) -> Result<(), AllocError>
    ensures { Pushed (replies_text preview.now) out.old out.new result }
{
    push_word(b"{\"role\":\"", preview.role.text().as_bytes(), out)?;
    push_text(b"\",\n\"replies\":[\n", out)?;
    push_replies(&preview.replies, out)?;
    Ok(())
}

/// Appends the boats that move.
#[tactic(auto, unfolding(crate::specs::Documents::moves_text))]
fn push_all_moves(preview: &Preview, out: &mut Vec<u8>) -> Result<(), AllocError>
    ensures { Pushed (moves_text preview.now) out.old out.new result }
{
    push_text(b"\n],\n\"moves\":[\n", out)?;
    push_moves(&preview.moves, out)?;
    Ok(())
}

/// Appends the boats whose rank, net or scores change.
#[tactic(auto, unfolding(crate::specs::Documents::changes_text))]
fn push_all_changes(preview: &Preview, out: &mut Vec<u8>) -> Result<(), AllocError>
    ensures { Pushed (changes_text preview.now) out.old out.new result }
{
    push_text(b"\n],\n\"changes\":[\n", out)?;
    push_changes(&preview.changes, out)?;
    push_text(b"\n]}\n", out)?;
    Ok(())
}

/// Replies as rows.
struct Replies;

impl ItemWriter<LineReply> for Replies {
    ghost use Rattle.regatta_preview.specs.Rows.{reply_row as text_of};

    ghost text = { λ _ item. text_of item };

    fn push_item(&self, item: &LineReply, out: &mut Vec<u8>) -> Result<(), AllocError> {
        push_reply(item, out)
    }
}

/// Appends replies as rows.
fn push_replies(items: &Items<LineReply>, out: &mut Vec<u8>) -> Result<(), AllocError>
    ensures { Pushed (rows reply_row items.now) out.old out.new result }
{
    push_rows(&Replies, items.as_slice(), out)
}

/// Boats that move, as rows.
struct Moves;

impl ItemWriter<Move> for Moves {
    ghost use Rattle.regatta_preview.specs.Rows.{move_row as text_of};

    ghost text = { λ _ item. text_of item };

    fn push_item(&self, item: &Move, out: &mut Vec<u8>) -> Result<(), AllocError> {
        push_move(item, out)
    }
}

/// Appends boats that move, as rows.
fn push_moves(items: &Items<Move>, out: &mut Vec<u8>) -> Result<(), AllocError>
    ensures { Pushed (rows move_row items.now) out.old out.new result }
{
    push_rows(&Moves, items.as_slice(), out)
}

/// Boats whose rank, net or scores change, as rows.
struct Changes;

impl ItemWriter<Change> for Changes {
    ghost use Rattle.regatta_preview.specs.Rows.{change_row as text_of};

    ghost text = { λ _ item. text_of item };

    fn push_item(&self, item: &Change, out: &mut Vec<u8>) -> Result<(), AllocError> {
        push_change(item, out)
    }
}

/// Appends boats whose rank, net or scores change, as rows.
fn push_changes(items: &Items<Change>, out: &mut Vec<u8>) -> Result<(), AllocError>
    ensures { Pushed (rows change_row items.now) out.old out.new result }
{
    push_rows(&Changes, items.as_slice(), out)
}
