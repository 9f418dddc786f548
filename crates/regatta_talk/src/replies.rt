//! The replies to lines.
ghost use Rattle.std.specs.Prelude.{◌≡◌, ◌+◌, ◌≤◌, ◌++◌, IsOk, OnOk, OnErr, vec_len};
ghost use Rattle.std.specs.Prelude.{vec_capacity};
ghost use Rattle.regatta_tables.specs.ReplyTexts.{reply_text};
ghost use Rattle.regatta_tables.specs.declared.replies.TheConstants.{REPLY_ROOM};
ghost use Rattle.regatta_talk.specs.Replies.{ranked as ranked_by, reply_apart as apart};
ghost use Rattle.regatta_talk.specs.Replies.{reply_of as reply_by, role_apart};

use crate::asked::ApartLine;
use crate::room::{make_room, write_fitting};
use regatta_terms::{Answer, Refusal, Reply, Role, Touched};
use std::alloc::AllocError;

/// The reply to a command, from the board's answer to its entry.
pub fn reply_of(answered: Result<Answer, Refusal>) -> Reply
    ensures { result ≡ reply_by answered }
{
    match answered {
        Ok(answer) => Reply::Done(answer),
        Err(refusal) => Reply::Refused(refusal),
    }
}

/// The reply to RANK, from the boat's row of the standing. A boat without a row isn't entered.
pub fn ranked(row: Option<Touched>) -> Reply
    ensures { result ≡ ranked_by row }
{
    match row {
        Some(touched) => Reply::Ranked(touched),
        None => Reply::Refused(Refusal::NotEntered),
    }
}

/// Answers a line that asks nothing of the board. The role changes only once there is room for the
/// reply. If `out` has room already, nothing is allocated.
///
/// # Errors
///
/// If the allocation for the reply fails; never if `out` has room already. The role, the bytes and
/// the room then stay as they were.
pub fn answer_apart(role: &mut Role, line: ApartLine, out: &mut Vec<u8>) -> Result<(), AllocError>
    ensures text { OnOk result (out.new.items ≡ out.old.items ++ reply_text (apart line)) }
    ensures role { OnOk result (role.new ≡ role_apart line role.old) }
    ensures room { vec_capacity out.old ≤ vec_capacity out.new }
    ensures fits { vec_len out.old + REPLY_ROOM ≤ vec_capacity out.old → IsOk result }
    ensures stays { vec_len out.old + REPLY_ROOM ≤ vec_capacity out.old
        → vec_capacity out.new ≡ vec_capacity out.old }
    ensures err { OnErr result ((role.new ≡ role.old) × (out.new.items ≡ out.old.items)
        × (vec_capacity out.new ≡ vec_capacity out.old)) }
{
    make_room(out)?;
    let reply = reply_apart(role, line);
    write_fitting(&reply, out);
    Ok(())
}

/// Sets the role if the line asks for that, and returns the reply.
pub fn reply_apart(role: &mut Role, line: ApartLine) -> Reply
    ensures reply { result ≡ apart line }
    ensures role { role.new ≡ role_apart line role.old }
{
    match line {
        ApartLine::SetRole(next) => {
            *role = next;
            Reply::RoleSet(next)
        }
        ApartLine::Quit => Reply::Bye,
        ApartLine::Fault(fault) => Reply::Fault(fault),
    }
}
