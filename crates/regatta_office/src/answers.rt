//! Carries out the lines of a replay, and answers them.
ghost use Rattle.std.specs.Prelude.{◌≡◌, ◌++◌, Ok, IfOk, OnOk, OnErr};
ghost use Rattle.regatta_board.specs.Answers.{rank_of};
ghost use Rattle.regatta_tables.specs.ReplyTexts.{reply_text};
ghost use Rattle.regatta_talk.specs.Replies.{ranked as ranked_by};
ghost use Rattle.regatta_board.specs.Runs.{sent};
ghost use Rattle.regatta_office.specs.Transcript.{is_quit as is_quit_of};
ghost use Rattle.regatta_office.specs.Answers.{Answered, board_after, talk_of};
ghost use Rattle.regatta_office.specs.Turns.{is_out_of_memory as is_out_of_memory_by, reply_to};

use crate::shown::Shown;
use regatta_board::{REPLAY_SEAT, next_entry};
use regatta_talk::{ApartLine, answer_apart, make_room, ranked, reply_of, write_fitting};
use regatta_terms::{Command, Entry, Line, LineFault, Refusal, Reply, Role, Sail};
use std::alloc::AllocError;

fn entry_of(board: &Shown, role: Role, command: Command) -> Entry
    ensures { result ≡ sent board.now.entries role command }
{
    next_entry(REPLAY_SEAT, board.last_of(REPLAY_SEAT), role, command)
}

fn is_out_of_memory(why: Refusal) -> bool
    ensures { result ≡ is_out_of_memory_by why }
{
    matches!(why, Refusal::NoMemory)
}

/// Does a command, and returns its reply. Out of memory is no reply: it ends the run.
fn do_command(board: &mut Shown, role: Role, command: Command) -> Result<Reply, AllocError>
    ensures reply { IfOk result (λ reply. reply
        ≡ reply_to board.old.rules (talk_of board.old role) command) }
    ensures journal { OnOk result (board.new ≡ board_after board.old role command) }
    ensures err { OnErr result (board.new ≡ board.old) }
{
    match board.apply(entry_of(board, role, command)) {
        Ok(answer) => Ok(reply_of(Ok(answer))),
        Err(why) => {
            if is_out_of_memory(why) {
                return Err(AllocError);
            }
            Ok(reply_of(Err(why)))
        }
    }
}

/// Makes room for the reply first, so that no command takes effect without one.
fn answer_command(
    board: &mut Shown,
    role: Role,
    command: Command,
    out: &mut Vec<u8>,
) -> Result<(), AllocError>
    ensures text { OnOk result (out.new.items ≡ out.old.items
        ++ reply_text (reply_to board.old.rules (talk_of board.old role) command)) }
    ensures journal { OnOk result (board.new ≡ board_after board.old role command) }
    ensures err { OnErr result ((board.new ≡ board.old) × (out.new.items ≡ out.old.items)) }
{
    make_room(out)?;
    let reply = do_command(board, role, command)?;
    write_fitting(&reply, out);
    Ok(())
}

fn answer_rank(board: &Shown, sail: Sail, out: &mut Vec<u8>) -> Result<(), AllocError>
    ensures text { OnOk result (out.new.items ≡ out.old.items
        ++ reply_text (ranked_by (rank_of board.now.rules board.now.entries sail))) }
    ensures err { OnErr result (out.new.items ≡ out.old.items) }
{
    make_room(out)?;
    write_fitting(&ranked(board.rank(sail)), out);
    Ok(())
}

/// Does what a line asks for, and appends the text to write for it.
fn answer_line(
    board: &mut Shown,
    role: &mut Role,
    line: Line,
    out: &mut Vec<u8>,
) -> Result<(), AllocError>
    ensures { Answered (Ok line) board.old board.new role.old role.new out.old out.new result }
{
    match line {
        Line::Do(command) => answer_command(board, *role, command, out),
        Line::Rank(sail) => answer_rank(board, sail, out),
        Line::Show => board.show(out),
        Line::SetRole(next) => answer_apart(role, ApartLine::SetRole(next), out),
        Line::Quit => answer_apart(role, ApartLine::Quit, out),
    }
}

/// Does what a line asks for, if it can be read, and appends the text to write for it.
pub(crate) fn answer(
    board: &mut Shown,
    role: &mut Role,
    asked: Result<Line, LineFault>,
    out: &mut Vec<u8>,
) -> Result<(), AllocError>
    ensures { Answered asked board.old board.new role.old role.new out.old out.new result }
{
    match asked {
        Ok(line) => answer_line(board, role, line, out),
        Err(fault) => answer_apart(role, ApartLine::Fault(fault), out),
    }
}

pub(crate) fn is_quit(asked: &Result<Line, LineFault>) -> bool
    ensures { result ≡ is_quit_of asked.now }
{
    matches!(asked, Ok(Line::Quit))
}
