//! Replies to lines, and what the lines do.

ghost use Rattle.std.specs.Prelude.{◌≡◌, length, IfOk, OnOk, OnErr};
ghost use Rattle.regatta_board.specs.Runs.{sent};
ghost use Rattle.regatta_talk.specs.Replies.{next_after};
ghost use Rattle.regatta_preview.specs.Talks.{desk_journal, desk_reply, reply_to, talk_after};
ghost use Rattle.regatta_preview.specs.Boards.{talk_of};
ghost use Rattle.regatta_preview.specs.Boards.{is_out_of_memory as is_out_of_memory_by};

use crate::parts::LineReply;
use regatta_board::{Board, REPLAY_SEAT, next_entry};
use regatta_talk::{AskedLine, DeskLine, Next, ranked, reply_apart, reply_of};
use regatta_terms::{Command, Entry, Refusal, Reply, Role};
use std::alloc::AllocError;

/// The command as the next entry of the seat of a replay.
fn entry_of(board: &Board, role: Role, command: Command) -> Entry
    ensures { result ≡ sent board.now.entries role command }
{
    next_entry(REPLAY_SEAT, board.last_of(REPLAY_SEAT), role, command)
}

fn is_out_of_memory(why: Refusal) -> bool
    ensures { result ≡ is_out_of_memory_by why }
{
    matches!(why, Refusal::NoMemory)
}

/// Does a command, and returns its reply. Out of memory is no reply.
fn do_command(board: &mut Board, role: Role, command: Command) -> Result<Reply, AllocError>
    ensures reply { IfOk result (λ reply. reply
        ≡ desk_reply board.old.rules (talk_of board.old role) (DeskLine.Do command)) }
    ensures journal { OnOk result (board.new ≡ record board.old {
      entries = desk_journal board.old.rules (talk_of board.old role) (DeskLine.Do command);
    }) }
{
    match board.apply(entry_of(board, role, command)) {
        Ok(answer) => Ok(reply_of(Ok(answer))),
        Err(why) => {
            if is_out_of_memory(why) {
                return Err(AllocError);
            }
            Ok(reply_of(Err(why)))
        }
    }
}

/// The number of entries of the journal.
fn entries_of(board: &Board) -> u32
    ensures { result ≡ length board.now.entries }
{
    board.len() as u32
}

/// Whether lines after this one are answered.
pub(crate) fn next_of(asked: AskedLine) -> Next
    ensures { result ≡ next_after asked }
{
    match asked {
        AskedLine::Desk(_) | AskedLine::Show => Next::Go,
        AskedLine::Apart(line) => line.next(),
    }
}

/// Does what a line asks of the desk, and returns its reply.
fn answer_desk(board: &mut Board, role: Role, line: DeskLine) -> Result<Reply, AllocError>
    ensures reply { IfOk result (λ reply. reply
        ≡ desk_reply board.old.rules (talk_of board.old role) line) }
    ensures journal { OnOk result (board.new ≡ record board.old {
      entries = desk_journal board.old.rules (talk_of board.old role) line;
    }) }
{
    match line {
        DeskLine::Do(command) => do_command(board, role, command),
        DeskLine::Rank(sail) => Ok(ranked(board.rank(sail))),
    }
}

/// Does what a line asks for, and returns its reply.
///
/// # Errors
///
/// If memory runs out.
pub(crate) fn answer(
    board: &mut Board,
    role: &mut Role,
    asked: AskedLine,
) -> Result<LineReply, AllocError>
    ensures reply { IfOk result (λ reply. reply
        ≡ reply_to board.old.rules (talk_of board.old role.old) asked) }
    ensures talk { OnOk result (talk_of board.new role.new
        ≡ talk_after board.old.rules (talk_of board.old role.old) asked) }
    ensures rules { OnOk result (board.new.rules ≡ board.old.rules) }
{
    match asked {
        AskedLine::Desk(line) => {
            let reply = answer_desk(board, *role, line)?;
            Ok(LineReply::Short(reply))
        }
        AskedLine::Show => Ok(LineReply::Sheet(entries_of(board))),
        AskedLine::Apart(line) => Ok(LineReply::Short(reply_apart(role, line))),
    }
}
