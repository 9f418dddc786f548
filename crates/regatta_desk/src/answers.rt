//! The answers to lines: from the desk, or from a pass alone.
ghost use Rattle.std.specs.Prelude.{◌≡◌, ◌≢◌, ◌+◌, ◌≤◌, Ok, IsOk, IfOk, OnOk, OnErr, All, vec_len};
ghost use Rattle.std.specs.Prelude.{vec_capacity};
ghost use mathlib.Core.List.{IsPrefix};
ghost use Rattle.regatta_talk.specs.Replies.{asked_line, next_after, role_after};
ghost use Rattle.regatta_tables.specs.declared.replies.TheConstants.{REPLY_ROOM};
ghost use Rattle.regatta_desk.specs.Replies.{DeskAppends, DidCommand, PassAppends, Ranked, Shows};

use crate::desk::Desk;
use crate::pass::Pass;
use regatta_talk::{AskedLine, Next, answer_apart, make_room, ranked, write_fitting};
use regatta_terms::{Command, Line, LineFault, Refusal, Reply, Role, Sail};
use regatta_watch::{OfficeName, ShowFault};
use std::alloc::AllocError;
use std::sync::Wait;

impl<N: OfficeName, R: Wait + Drop> Desk<N, R> {
    /// Runs the command for the pass in this role, and returns the reply. Each journal that the pass had
    /// been told of is a beginning of the one that the desk had before.
    pub fn command_reply<W: Wait>(
        &mut self,
        rt: &W,
        pass: &mut Pass<N>,
        role: Role,
        command: Command,
    ) -> Reply
        ensures replied { DidCommand N.rules role command self.old self.new pass.old pass.new
            result }
        ensures told { All (λ j. IsPrefix j self.old.entries) pass.old.told }
    {
        match self.run(rt, pass, role, command) {
            Ok(receipt) => Reply::Done(receipt.answer()),
            Err(why) => Reply::Refused(why),
        }
    }

    /// The reply to RANK: looks the boat up. Each journal that the pass was told of is a beginning of the
    /// desk's.
    pub fn rank_reply(&mut self, pass: &mut Pass<N>, sail: Sail) -> Reply
        ensures replied { Ranked N.rules sail self.old self.new pass.old pass.new result }
        ensures told { All (λ j. IsPrefix j self.old.entries) pass.old.told }
    {
        self.cover(pass);
        ranked(self.board().rank(sail))
    }

    /// Answers a line with a command or RANK, and appends the reply. A line that isn't for the desk gets
    /// none, and changes nothing. Each journal that the pass had been told of is a beginning of the one
    /// that the desk had before. If `out` has room for a reply, its capacity stays.
    ///
    /// # Errors
    ///
    /// If the allocation for the reply fails; never if `out` has room for a reply. Nothing has
    /// changed then, and the capacity is the same.
    pub fn answer<W: Wait>(
        &mut self,
        rt: &W,
        pass: &mut Pass<N>,
        role: Role,
        line: Line,
        out: &mut Vec<u8>,
    ) -> Result<(), AllocError>
        ensures ok { OnOk result (DeskAppends N.rules (asked_line (Ok line)) role self.old self.new
            pass.old pass.new out.old.items out.new.items) }
        ensures told { All (λ j. IsPrefix j self.old.entries) pass.old.told }
        ensures room { vec_capacity out.old ≤ vec_capacity out.new }
        ensures fits { vec_len out.old + REPLY_ROOM ≤ vec_capacity out.old → IsOk result }
        ensures stays { vec_len out.old + REPLY_ROOM ≤ vec_capacity out.old
            → vec_capacity out.new ≡ vec_capacity out.old }
        ensures err { OnErr result ((self.new ≡ self.old) × (pass.new ≡ pass.old)
            × (out.new.items ≡ out.old.items)
            × (vec_capacity out.new ≡ vec_capacity out.old)) }
    {
        if let Err(why) = make_room(out) {
            self.cover(pass);
            return Err(why);
        }
        match line {
            Line::Do(command) => {
                let reply = self.command_reply(rt, pass, role, command);
                write_fitting(&reply, out);
                Ok(())
            }
            Line::Rank(sail) => {
                let reply = self.rank_reply(pass, sail);
                write_fitting(&reply, out);
                Ok(())
            }
            Line::Show | Line::SetRole(_) | Line::Quit => {
                self.cover(pass);
                Ok(())
            }
        }
    }
}

/// Answers SHOW, in bytes that have room for a reply: appends the sheet of the published journal, or a
/// reply in its place. It takes no lock, and waits for nobody.
pub fn answer_show<N: OfficeName>(pass: &mut Pass<N>, out: &mut Vec<u8>)
    requires { vec_len out.old + REPLY_ROOM ≤ vec_capacity out.old }
    ensures text { Shows N.rules pass.old pass.new out.old.items out.new.items }
    ensures room { vec_capacity out.old ≤ vec_capacity out.new }
{
    let reply = match pass.show() {
        Ok(sheet) => {
            if pass.write(&sheet, out).is_ok() {
                return;
            }
            Reply::Refused(Refusal::NoMemory)
        }
        Err(ShowFault::Closed) => Reply::Closed,
        Err(ShowFault::NoMemory) => Reply::Refused(Refusal::NoMemory),
    };
    write_fitting(&reply, out);
}

/// Answers a line that is neither a command nor RANK. It takes no lock, and waits for nobody. A line
/// that is for the desk gets no reply, and changes nothing.
///
/// The answer to SHOW is a sheet, CLOSED if the publication lets no reader in, or a refusal if
/// there is no memory for the sheet.
///
/// # Errors
///
/// If the allocation for a reply fails; never if `out` has room for a reply. Nothing has changed
/// then, and the capacity is the same.
pub fn answer_alone<N: OfficeName>(
    pass: &mut Pass<N>,
    role: &mut Role,
    asked: Result<Line, LineFault>,
    out: &mut Vec<u8>,
) -> Result<Next, AllocError>
    ensures text { OnOk result
        (PassAppends N.rules (asked_line asked) pass.old pass.new out.old.items out.new.items) }
    ensures role { OnOk result (role.new ≡ role_after (asked_line asked) role.old) }
    ensures next { IfOk result (λ next. next ≡ next_after (asked_line asked)) }
    ensures room { vec_capacity out.old ≤ vec_capacity out.new }
    ensures fits { vec_len out.old + REPLY_ROOM ≤ vec_capacity out.old → IsOk result }
    ensures stays { asked_line asked ≢ AskedLine.Show
        → vec_len out.old + REPLY_ROOM ≤ vec_capacity out.old
        → vec_capacity out.new ≡ vec_capacity out.old }
    ensures err { OnErr result ((role.new ≡ role.old) × (pass.new ≡ pass.old)
        × (out.new.items ≡ out.old.items)
        × (vec_capacity out.new ≡ vec_capacity out.old)) }
{
    match AskedLine::of(asked) {
        AskedLine::Desk(_) => Ok(Next::Go),
        AskedLine::Show => {
            make_room(out)?;
            answer_show(pass, out);
            Ok(Next::Go)
        }
        AskedLine::Apart(line) => {
            answer_apart(role, line, out)?;
            Ok(line.next())
        }
    }
}
