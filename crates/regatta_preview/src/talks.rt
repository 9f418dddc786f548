//! The lines of a text, taken one after another.

ghost use Rattle.std.specs.Prelude.{◌≡◌, ◌≤◌, length, IfOk, OnOk};
ghost use Rattle.regatta_terms.specs.TextLines.{lines};
ghost use Rattle.regatta_preview.specs.Boards.{talk_of};
ghost use Rattle.regatta_preview.specs.Talks.{talked};
ghost use Rattle.regatta_preview.specs.Rests.{lines_after};

use crate::answers::{answer, next_of};
use crate::parts::LineReply;
use regatta_board::Board;
use regatta_tables::first_line;
use regatta_talk::{AskedLine, Next};
use regatta_terms::{Role, read_line};
use std::alloc::{AllocError, Global};

/// The text after a line: nothing if the line ends the session.
fn rest_after(next: Next, rest: &[u8]) -> &[u8]
    ensures lines { lines result.now ≡ lines_after next (lines rest.now) }
    ensures shorter { length result.now ≤ length rest.now }
{
    match next {
        Next::Go => rest,
        Next::End => &[],
    }
}

/// Does what each line of a text asks for, on the board, up to the first QUIT, and returns the
/// replies. The first line is sent in this role.
///
/// # Errors
///
/// If memory runs out.
pub fn take_lines(
    alloc: Global,
    board: &mut Board,
    role: Role,
    text: &[u8],
) -> Result<Vec<LineReply>, AllocError>
    ensures replies { IfOk result (λ replies. replies.items
        ≡ (talked board.old.rules (talk_of board.old role) (lines text.now)).replies) }
    ensures journal { OnOk result (board.new.entries
        ≡ (talked board.old.rules (talk_of board.old role) (lines text.now)).journal) }
    ensures rules { OnOk result (board.new.rules ≡ board.old.rules) }
{
    let mut replies = Vec::new(alloc);
    let mut role = role;
    let mut rest = text;
    while !rest.is_empty() {
        let (line, others) = first_line(rest);
        let asked = AskedLine::of(read_line(line));
        replies.push(answer(board, &mut role, asked)?)?;
        rest = rest_after(next_of(asked), others);
    }
    Ok(replies)
}
