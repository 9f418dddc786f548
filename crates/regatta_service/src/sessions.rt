//! The session of one client, whose lines are answered one after another.
ghost use Rattle.std.specs.Prelude.{◌≡◌, ◌≢◌, ◌+◌, [], false, Ok, Err, None, IfErr, IfSome};
ghost use Rattle.std.specs.Prelude.{IsSome, OnOk};
ghost use Rattle.regatta_talk.specs.Replies.{asked_line, is_for_desk, next_after, role_after};
ghost use Rattle.regatta_talk.specs.declared.asked.AskedLine.TheVariants.{Desk};
ghost use Rattle.regatta_talk.specs.declared.asked.DeskLine.TheVariants.{Do, Rank};
ghost use Rattle.regatta_service.specs.Ends.{ReadsNothing, SealsRefused, failures_so_far};
ghost use Rattle.regatta_service.specs.Lines.{Prepared};
ghost use Rattle.regatta_service.specs.LinesTaken.{DidLine, Took, WentOn, asked_from, asks, point};
ghost use Rattle.regatta_service.specs.Partings.{IsServed, IsSession};

use crate::gate::Gate;
use regatta_desk::{Office, OfficeName, Pass};
use regatta_keeper::{Covers, Outlet, ReplyRoom, Sealed, Uncovered};
use regatta_streams::{Device, Sink, Source};
use regatta_talk::{ApartLine, Cutter, Next};
use regatta_terms::{Command, Line, LineFault, Role, Sail, read_line};
use std::alloc::Global;
use std::sync::Wait;
use std::thread;

/// The most bytes that one read asks for.
const PIECE: usize = 512;

/// How often a session yields to others after it has answered SHOW.
const TURNS: u32 = 16;

/// How a session ended.
#[derive(Clone, Copy, Debug, PartialEq, Eq)]
pub enum End {
    /// QUIT came and was answered.
    Quit,
    /// The client's stream has ended.
    Closed,
    /// A read of the stream failed.
    ReadFault,
    /// A write to the stream failed.
    WriteFault,
    /// The gate stopped a line. Or the desk's journal didn't begin with what the pass has seen,
    /// which no run has met.
    Stopped,
    /// There was no memory for replies. The session has then read nothing.
    NoMemory,
    /// A line was answered, and its reply stays sealed, since what it was made from isn't kept.
    /// Without a keeper no session ends so.
    NotKept,
}

/// What a session does with a line: the sealed reply, whether it then goes on, and how often it yields
/// to other threads first.
#[derive(Drop)]
struct Said<N: OfficeName, C> {
    reply: Sealed<N, C>,
    next: Next,
    turns: u32,
}

impl<N: OfficeName, C> Said<N, C> {
    /// A reply after which the session goes on at once.
    fn at_once(reply: Sealed<N, C>) -> Said<N, C>
        ensures { (result.reply ≡ reply) × (result.next ≡ Next.Go) }
    {
        Said {
            reply,
            next: Next::Go,
            turns: 0,
        }
    }
}

/// Yields to other threads that often.
fn yield_to_others(turns: u32) {
    for _ in 0..turns {
        thread::yield_now();
    }
}

/// A client of the office, and what is kept from line to line beside the pass: the role, the number
/// of the last line, and the buffered part of the current line.
#[derive(Drop)]
struct Talk<'a, N: OfficeName, H: Wait + Drop, G: Gate> {
    office: &'a Office<N, H>,
    gate: &'a G,
    role: Role,
    line: u64,
    cutter: Cutter,
}

impl<N: OfficeName, H: Wait + Drop, G: Gate> Talk<'_, N, H, G> {
    /// Takes the lock and has the desk do a command, in the session's role. The pass is told of the
    /// journal that the answer comes from.
    ///
    /// `None`, and nothing is done, if the desk's journal doesn't begin with the one that the pass
    /// has seen. No run has returned that; no clause says so.
    fn do_command<C: Covers<N>, R: Wait>(
        &self,
        rt: &R,
        room: ReplyRoom,
        pass: &mut Pass<N>,
        covers: &C,
        command: Command,
    ) -> Option<Said<N, C>>
        ensures answered { IfSome result (λ said. Prepared N.rules (Desk (Do command)) self.now.role
            pass.old pass.new said.reply.text said.reply.needs (C.book covers.now)) }
        ensures next { IfSome result (λ said. said.next ≡ Next.Go) }
        ensures unanswered { result ≡ None → pass.new ≡ pass.old }
    {
        let mut guard = self.office.desk(rt);
        let desk = &mut *guard;
        if !desk.confirm(pass) {
            return None;
        }
        desk.tell(pass);
        let reply = desk.command_reply(rt, pass, self.role, command);
        Some(Said::at_once(Sealed::of_desk(room, reply, desk, covers)))
    }

    /// The same for RANK: has the desk look the boat up.
    fn rank<C: Covers<N>, R: Wait>(
        &self,
        rt: &R,
        room: ReplyRoom,
        pass: &mut Pass<N>,
        covers: &C,
        sail: Sail,
    ) -> Option<Said<N, C>>
        ensures answered { IfSome result (λ said. Prepared N.rules (Desk (Rank sail)) self.now.role
            pass.old pass.new said.reply.text said.reply.needs (C.book covers.now)) }
        ensures next { IfSome result (λ said. said.next ≡ Next.Go) }
        ensures unanswered { result ≡ None → pass.new ≡ pass.old }
    {
        let mut guard = self.office.desk(rt);
        let desk = &mut *guard;
        if !desk.confirm(pass) {
            return None;
        }
        desk.tell(pass);
        let reply = desk.rank_reply(pass, sail);
        Some(Said::at_once(Sealed::of_desk(room, reply, desk, covers)))
    }

    /// Does what a line asks for, and makes its reply, which is sealed. If there is no answer
    /// (`None`), nothing has changed.
    fn answer<C: Covers<N>, R: Wait>(
        &mut self,
        rt: &R,
        room: ReplyRoom,
        pass: &mut Pass<N>,
        covers: &C,
        line: Result<Line, LineFault>,
    ) -> Option<Said<N, C>>
        ensures answered { IfSome result (λ said. Prepared N.rules (asked_line line) self.old.role
            pass.old pass.new said.reply.text said.reply.needs (C.book covers.now)) }
        ensures role { IfSome result (λ _.
            self.new.role ≡ role_after (asked_line line) self.old.role) }
        ensures next { IfSome result (λ said. said.next ≡ next_after (asked_line line)) }
        ensures none { result ≡ None → (pass.new ≡ pass.old) × (self.new.role ≡ self.old.role) }

        // Only the desk may leave a line unanswered.
        ensures alone { is_for_desk (asked_line line) ≡ false → IsSome result }
        ensures cutter { self.new.cutter ≡ self.old.cutter }
    {
        match &line {
            Ok(Line::Do(command)) => self.do_command(rt, room, pass, covers, *command),
            Ok(Line::Rank(sail)) => self.rank(rt, room, pass, covers, *sail),
            Ok(Line::Show) => Some(Said {
                reply: Sealed::show(room, rt, self.office, pass, covers),
                next: Next::Go,
                turns: TURNS,
            }),
            Ok(Line::SetRole(role)) => {
                let line = ApartLine::SetRole(*role);
                Some(Said::at_once(Sealed::apart(room, &mut self.role, line)))
            }
            Ok(Line::Quit) => Some(Said {
                reply: Sealed::apart(room, &mut self.role, ApartLine::Quit),
                next: Next::End,
                turns: 0,
            }),
            Err(fault) => {
                let line = ApartLine::Fault(*fault);
                Some(Said::at_once(Sealed::apart(room, &mut self.role, line)))
            }
        }
    }

    /// Answers the current line. The reply is written once what it was made from is kept. The room
    /// is given back for the next one.
    ///
    /// # Errors
    ///
    /// How the session ended at the line.
    fn answer_line<C: Covers<N>, R: Wait, S: Outlet<C>>(
        &mut self,
        rt: &R,
        room: ReplyRoom,
        stream: &mut S,
        pass: &mut Pass<N>,
        covers: &mut C,
    ) -> Result<ReplyRoom, End>
        ensures failures { S.failures stream.new ≡ S.failures stream.old + failures_so_far result }

        // What was done with the line, in the session's role, by how the session ended or that it
        // goes on. The next line then starts empty.
        ensures did { DidLine N.rules result (asks self.old.cutter)
            (point self.old.role pass.old (S.contents stream.old) (C.book covers.old))
            (point self.new.role pass.new (S.contents stream.new) (C.book covers.new)) }
        ensures cut { OnOk result (self.new.cutter ≡ []) }

        ensures refused { SealsRefused C.refused covers.old covers.new result }
        ensures unread { ReadsNothing S.remaining S.failed_reads stream.old stream.new }
    {
        self.line = self.line.saturating_add(1);
        if !self.gate.before(pass.seat(), self.line) {
            return Err(End::Stopped);
        }
        let line = read_line(self.cutter.line());
        let Some(said) = self.answer(rt, room, pass, &*covers, line) else {
            return Err(End::Stopped);
        };
        self.cutter.clear();
        let Said { reply, next, turns } = said;
        let Ok(reply) = reply.cover(rt, self.office, covers) else {
            return Err(End::NotKept);
        };
        if stream.write_reply(&reply).is_err() {
            return Err(End::WriteFault);
        }
        self.gate.after(pass.seat(), self.line);
        yield_to_others(turns);
        match next {
            Next::Go => Ok(reply.into_room()),
            Next::End => Err(End::Quit),
        }
    }

    /// Answers the lines that end in these bytes, up to one that ends the session.
    ///
    /// # Errors
    ///
    /// How the session ended.
    fn take_all<C: Covers<N>, R: Wait, S: Outlet<C>>(
        &mut self,
        rt: &R,
        room: ReplyRoom,
        stream: &mut S,
        pass: &mut Pass<N>,
        covers: &mut C,
        piece: &[u8],
    ) -> Result<ReplyRoom, End>
        ensures failures { S.failures stream.new ≡ S.failures stream.old + failures_so_far result }

        // Each line is answered once and in order, up to one at which the session ends. If there is
        // none, the session goes on with what is then buffered of the current line.
        ensures goes_on { OnOk result (WentOn N.rules self.old.cutter piece.now
            (point self.old.role pass.old (S.contents stream.old) (C.book covers.old))
            self.new.cutter
            (point self.new.role pass.new (S.contents stream.new) (C.book covers.new))) }
        ensures ended { IfErr result (λ end. Took N.rules end
            (asked_from self.old.cutter piece.now)
            (point self.old.role pass.old (S.contents stream.old) (C.book covers.old))
            (point self.new.role pass.new (S.contents stream.new) (C.book covers.new))) }

        // If it ended, then at a line: not by a read, and not for want of memory.
        ensures at_line { (result ≢ Err End.Closed) × (result ≢ Err End.ReadFault)
            × (result ≢ Err End.NoMemory) }

        ensures refused { SealsRefused C.refused covers.old covers.new result }
        ensures unread { ReadsNothing S.remaining S.failed_reads stream.old stream.new }
    {
        let mut room = room;
        for byte in piece {
            if self.cutter.take(*byte) {
                match self.answer_line(rt, room, stream, pass, covers) {
                    Ok(left) => room = left,
                    Err(end) => return Err(end),
                }
            }
        }
        Ok(room)
    }
}

/// Serves one client, as [`session_kept`] does, with room for replies.
pub(crate) fn session_with<N, H, R, C, S, G>(
    rt: &R,
    room: ReplyRoom,
    stream: &mut S,
    office: &Office<N, H>,
    pass: &mut Pass<N>,
    gate: &G,
    covers: &mut C,
) -> End
where
    N: OfficeName,
    H: Wait + Drop,
    R: Wait,
    C: Covers<N>,
    S: Outlet<C>,
    G: Gate,
    ensures served { IsServed N.rules S.remaining S.contents S.failures S.failed_reads stream.old
        stream.new pass.old pass.new (C.book covers.old) (C.book covers.new)
        (C.refused covers.new) result }
    ensures covered { result ≢ End.NotKept → C.refused covers.new ≡ C.refused covers.old }
{
    let mut talk = Talk {
        office,
        gate,
        role: Role::Scorer,
        line: 0,
        cutter: Cutter::new(),
    };
    let mut room = room;
    let mut buffer = [0; PIECE];
    for _ in rt.forever() {
        let Ok(count) = stream.read(&mut buffer) else {
            return End::ReadFault;
        };
        if count == 0 {
            return End::Closed;
        }
        match talk.take_all(rt, room, stream, pass, covers, &buffer[..count]) {
            Ok(left) => room = left,
            Err(end) => return end,
        }
    }
    unreachable!()
}

/// Serves one client, as [`session`] does. Each reply is written once `covers` has covered what it
/// was made from: `stream` takes no byte otherwise. If it refuses, the session ends as `NotKept`.
pub fn session_kept<N, H, R, C, S, G>(
    rt: &R,
    alloc: Global,
    stream: &mut S,
    office: &Office<N, H>,
    pass: &mut Pass<N>,
    gate: &G,
    covers: &mut C,
) -> End
where
    N: OfficeName,
    H: Wait + Drop,
    R: Wait,
    C: Covers<N>,
    S: Outlet<C>,
    G: Gate,
    // The lines that ended in the bytes that the stream gave were answered as the session's end
    // says, starting in the scorer's role, and exactly their replies were written. If there is a
    // book of what is kept, it has for each reply a journal that begins with the one that the reply
    // was made from.
    ensures session { IsSession N.rules S.remaining S.contents S.failures S.failed_reads stream.old
        stream.new pass.old pass.new (C.book covers.old) (C.book covers.new)
        (C.refused covers.new) result }
    ensures covered { result ≢ End.NotKept → C.refused covers.new ≡ C.refused covers.old }

    // Without memory for replies nothing is done.
    ensures no_memory { result ≡ End.NoMemory → (stream.new ≡ stream.old) × (pass.new ≡ pass.old) }
{
    let Ok(room) = ReplyRoom::new(alloc) else {
        return End::NoMemory;
    };
    session_with(rt, room, stream, office, pass, gate, covers)
}

/// Serves one client: answers each line that ends in LF, up to QUIT. A line that is too long gets
/// one reply, which says so. The session starts in the scorer's role. What was committed stays,
/// however the session ends.
pub fn session<N: OfficeName, H: Wait + Drop, R: Wait, S: Source + Sink, G: Gate>(
    rt: &R,
    alloc: Global,
    stream: &mut S,
    office: &Office<N, H>,
    pass: &mut Pass<N>,
    gate: &G,
) -> End
    // A failed call of the stream ends the session and is reported as what it is, a read as a read
    // and a write as a write. Otherwise no call failed. No reply stays sealed.
    ensures session { IsSession N.rules S.remaining S.contents S.failures S.failed_reads stream.old
        stream.new pass.old pass.new None None false result }
    ensures said { result ≢ End.NotKept }

    // Without memory for replies nothing is done.
    ensures no_memory { result ≡ End.NoMemory → (stream.new ≡ stream.old) × (pass.new ≡ pass.old) }
{
    session_kept(rt, alloc, stream, office, pass, gate, &mut Uncovered)
}
