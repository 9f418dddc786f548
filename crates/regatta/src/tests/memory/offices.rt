//! The calls of an office.
ghost use Rattle.std.specs.Prelude.{◌≡◌};

use super::super::offices::{enter, is_shown, one_seat, opened_office, two_seats};
use super::super::sessions::{has_journal, is_answered, place_of};
use super::runs::replay_outcome;
use super::*;
use regatta_office::{
    End, Office, OfficeName, OpenFault, OpenGate, Opened, Pass, ShowFault, answer_alone, session,
};
use regatta_terms::{Command, Line, Refusal, Role, read_entry};
use std::marker::Brand;
use std::sync::Wait;

/// An office with two seats; seat 1 has entered A. That she is read and is in it, the test of its
/// seats sees.
fn opened_with_a<R: Wait>(rt: &R, alloc: Global) -> Result<Opened<&R>, OpenFault> {
    let start = read_entry(b"1 1 SCORER ENTER A").ok();
    Office::open(rt, alloc, &default_rules(), 2, start.as_slice())
}

/// The outcome of opening such an office.
fn open_outcome<R: Wait>(rt: &R, alloc: Global) -> Outcome {
    match opened_with_a(rt, alloc).err() {
        None => Outcome::Ordinary,
        Some(why) => out_of_memory_if(why == OpenFault::NoMemory || why == OpenFault::NoReader),
    }
}

/// How many passes an office is split into.
fn passes_made<N: OfficeName, H: Wait + Drop>(opened: Opened<H>) -> Option<usize>
    requires history { opened.history ≡ N.history }
    requires rules { opened.rules ≡ N.rules }
{
    let (_, passes) = opened.split::<N>().ok()?;
    Some(passes.len())
}

/// The outcome of splitting an office that was just opened, with `bytes` bytes left.
fn split_outcome<R: Wait>(rt: &R, alloc: Global, hoard: &mut Hoard, bytes: usize) -> Outcome {
    let Some(opened) = opened_office(rt, alloc, 2) else {
        return Outcome::Other;
    };
    hoard.leave(bytes);
    let made = passes_made::<Brand, _>(opened);
    hoard.give_back();
    match made {
        Some(passes) => ordinary_if(passes == 2),
        None => Outcome::OutOfMemory,
    }
}

/// What a client is sent with ample memory.
static TALK: &[u8] = b"OK 1 1 0.0\nJOURNAL 1\n1 1 SCORER ENTER A\nTABLE 1 RACES\n1 A 0.0\nEND\n\
    BYE\n";

/// What a client is sent if there was no memory for the first line alone.
static NOBODY_ENTERED: &[u8] = b"NO 1\nJOURNAL 0\nTABLE 0 RACES\nEND\nBYE\n";

/// The outcome of a session by its end, what was written and the last number of the seat: memory ran
/// out for a reply, or a line was answered so.
fn session_outcome(end: End, written: &[u8], last: u32) -> Outcome {
    if end == End::NoMemory {
        return out_of_memory_if(written.is_empty() && last == 0);
    }
    if end != End::Quit {
        return Outcome::Other;
    }
    if written == TALK {
        return ordinary_if(last == 1);
    }
    out_of_memory_if(match last {
        0 => written == NOBODY_ENTERED || written == b"NO 1\nNO 1\nBYE\n".as_slice(),
        _ => last == 1 && written == b"OK 1 1 0.0\nNO 1\nBYE\n".as_slice(),
    })
}

/// The outcome of a session at the one seat of an office, with `bytes` bytes left.
fn session_with<N: OfficeName, H: Wait + Drop, R: Wait>(
    rt: &R,
    alloc: Global,
    hoard: &mut Hoard,
    bytes: usize,
    opened: Opened<H>,
    tape: &mut Tape,
) -> Outcome
    requires { (opened.history ≡ N.history) × (opened.rules ≡ N.rules) }
{
    match one_seat::<N, H>(opened) {
        Some((office, mut pass)) => {
            hoard.leave(bytes);
            let end = session(rt, alloc, tape, &office, &mut pass, &OpenGate);
            hoard.give_back();
            let outcome = session_outcome(end, tape.written(), pass.last());
            outcome_if(
                has_journal(rt, alloc, &office, journal_of(pass.last())),
                outcome,
            )
        }
        None => Outcome::Other,
    }
}

/// The same, at an office that is opened for it.
fn session_at<R: Wait>(rt: &R, alloc: Global, hoard: &mut Hoard, bytes: usize) -> Outcome {
    let Ok(mut tape) = Tape::new(alloc, b"ENTER A\nSHOW\nQUIT\n", 100, 1000, 1000) else {
        return Outcome::Other;
    };
    match opened_office(rt, alloc, 1) {
        Some(opened) => session_with::<Brand, _, _>(rt, alloc, hoard, bytes, opened, &mut tape),
        None => Outcome::Other,
    }
}

/// The sheet before race 1 is scored.
static ENTERED: &[u8] = b"JOURNAL 1\n1 1 SCORER ENTER A\nTABLE 1 RACES\n1 A 0.0\nEND\n";

/// The sheet after that.
static SCORED: &[u8] = b"JOURNAL 3\n1 1 SCORER ENTER A\n1 2 SCORER FINISH 1 A\n1 3 SCORER SCORE 1\n\
    TABLE 1 RACES 1\n1 A 1.0 1.0\nEND\n";

/// What a seat is sent that asks for the scored sheet, enters B and asks again.
static SCORED_AND_ENTERED: &[u8] = b"JOURNAL 3\n1 1 SCORER ENTER A\n1 2 SCORER FINISH 1 A\n\
    1 3 SCORER SCORE 1\nTABLE 1 RACES 1\n1 A 1.0 1.0\nEND\nOK 4 2 3.0\n\
    JOURNAL 4\n1 1 SCORER ENTER A\n1 2 SCORER FINISH 1 A\n1 3 SCORER SCORE 1\n2 1 SCORER ENTER B\n\
    TABLE 2 RACES 1\n1 A 1.0 1.0\n2 B 3.0 3.0/DNC\nEND\n";

/// Whether seat 2 is answered these first lines, and seat 1 then scores race 1.
fn is_scored<N: OfficeName, H: Wait + Drop, R: Wait>(
    rt: &R,
    alloc: Global,
    office: &Office<N, H>,
    first: &mut Pass<N>,
    second: &mut Pass<N>,
    lines: &[u8],
    replies: &[u8],
) -> bool {
    let (text, done) = (b"FINISH 1 A\nSCORE 1\n", b"OK 2 1 0.0\nOK 3\n");
    is_answered(rt, alloc, office, second, lines, End::Closed, replies)
        & is_answered(rt, alloc, office, first, text, End::Closed, done)
}

/// Whether the seat is answered with ample memory: SHOW, a command, and SHOW again.
fn goes_on<N: OfficeName, H: Wait + Drop, R: Wait>(
    rt: &R,
    alloc: Global,
    office: &Office<N, H>,
    pass: &mut Pass<N>,
) -> bool {
    let text = b"SHOW\nENTER B\nSHOW\n";
    is_answered(
        rt,
        alloc,
        office,
        pass,
        text,
        End::Closed,
        SCORED_AND_ENTERED,
    )
}

/// The outcome of seat 2's answer to SHOW, once it was answered its first lines and race 1 was scored
/// by seat 1. Whatever came of it, the seat goes on.
fn sheet_with<N: OfficeName, H: Wait + Drop, R: Wait>(
    rt: &R,
    alloc: Global,
    hoard: &mut Hoard,
    bytes: usize,
    opened: Opened<H>,
    out: &mut Vec<u8>,
    lines: &[u8],
    replies: &[u8],
) -> Outcome
    requires { (opened.history ≡ N.history) × (opened.rules ≡ N.rules) }
{
    match two_seats::<N, H>(opened) {
        Some((office, mut first, mut second)) => {
            let is_ready = is_scored(rt, alloc, &office, &mut first, &mut second, lines, replies);
            hoard.leave(bytes);
            let outcome = alone_outcome(&mut second, Some(SCORED), out);
            hoard.give_back();
            outcome_if(is_ready & goes_on(rt, alloc, &office, &mut second), outcome)
        }
        None => Outcome::Other,
    }
}

/// The same, at an office that is opened for it.
fn sheet_at<R: Wait>(
    rt: &R,
    alloc: Global,
    hoard: &mut Hoard,
    bytes: usize,
    lines: &[u8],
    replies: &[u8],
) -> Outcome {
    let Ok(mut out) = Vec::from_slice(alloc, BEFORE) else {
        return Outcome::Other;
    };
    match opened_with_a(rt, alloc) {
        Ok(opened) => {
            sheet_with::<Brand, _, _>(rt, alloc, hoard, bytes, opened, &mut out, lines, replies)
        }
        Err(_) => Outcome::Other,
    }
}

/// The calls that open an office, or are made at one that was just opened. A replay is here, too: a
/// test of its own would need a hoard of its own.
#[derive(Drop)]
enum OfficeCall {
    Open,
    Split,
    Session,
    /// SHOW from a seat that was shown nothing yet.
    FirstSheet,
    /// SHOW from a seat that keeps the ledger of an earlier sheet, which lacks the newer entries.
    NextSheet,
    Replay,
}

/// Offices that are opened, and replays.
#[derive(Drop)]
struct Offices<'a, R: AllocGlobal + Wait> {
    rt: &'a R,
}

impl<R: AllocGlobal + Wait> Caller<OfficeCall> for Offices<'_, R> {
    fn outcome(&mut self, call: &OfficeCall, hoard: &mut Hoard, bytes: usize) -> Outcome {
        let alloc = self.rt.alloc();
        match call {
            OfficeCall::Open => {
                hoard.leave(bytes);
                let outcome = open_outcome(self.rt, alloc);
                hoard.give_back();
                outcome
            }
            OfficeCall::Split => split_outcome(self.rt, alloc, hoard, bytes),
            OfficeCall::Session => session_at(self.rt, alloc, hoard, bytes),
            OfficeCall::FirstSheet => sheet_at(self.rt, alloc, hoard, bytes, b"", b""),
            OfficeCall::NextSheet => sheet_at(self.rt, alloc, hoard, bytes, b"SHOW\n", ENTERED),
            OfficeCall::Replay => replay_outcome(alloc, hoard, bytes),
        }
    }
}

static OFFICE_CALLS: [OfficeCall; 6] = [
    OfficeCall::Open,
    OfficeCall::Split,
    OfficeCall::Session,
    OfficeCall::FirstSheet,
    OfficeCall::NextSheet,
    OfficeCall::Replay,
];

#[test]
fn offices_sessions_and_replays_run_out_of_memory(rt: HostRuntime) {
    assert!(rt; are_refused(&rt, &mut Offices { rt: &rt }, &OFFICE_CALLS));
}

/// The sail of the boat that is entered after `entered` others.
fn next_sail(entered: u32) -> &'static [u8] {
    match entered {
        0 => b"A",
        1 => b"B",
        _ => b"C",
    }
}

/// The entries by which seat 1 has entered `entered` boats.
fn journal_of(entered: u32) -> &'static [u8] {
    match entered {
        0 => b"",
        1 => b"1 1 SCORER ENTER A\n",
        2 => b"1 1 SCORER ENTER A\n1 2 SCORER ENTER B\n",
        _ => b"1 1 SCORER ENTER A\n1 2 SCORER ENTER B\n1 3 SCORER ENTER C\n",
    }
}

/// The outcome of the desk's answer to a command, by its place.
fn run_outcome<N: OfficeName, H: Wait + Drop, R: Wait>(
    rt: &R,
    office: &Office<N, H>,
    pass: &mut Pass<N>,
    command: Command,
) -> Outcome {
    match place_of(rt, office, pass, command) {
        Ok(place) => ordinary_if(place == pass.last()),
        Err(why) => out_of_memory_if(why == Refusal::NoMemory),
    }
}

/// The outcome by a reply: memory ran out if there is no room for it, or if it is `NO 1`. It comes
/// after what was there, and there is no less room than there was.
fn reply_outcome(is_answered: bool, out: &Vec<u8>, room: usize, wanted: &[u8]) -> Outcome {
    let refusal: &[u8] = if is_answered { b"NO 1\n" } else { b"" };
    match out.strip_prefix(BEFORE) {
        Some(reply) if is_answered && reply == wanted => Outcome::Ordinary,
        Some(reply) => out_of_memory_if(reply == refusal && room <= out.capacity()),
        None => Outcome::Other,
    }
}

/// The outcome of the desk's answer to the line of a command that enters a second boat.
fn answer_outcome<N: OfficeName, H: Wait + Drop, R: Wait>(
    rt: &R,
    office: &Office<N, H>,
    pass: &mut Pass<N>,
    command: Command,
    out: &mut Vec<u8>,
) -> Outcome {
    let room = out.capacity();
    let mut desk = office.desk(rt);
    let answer = desk.answer(rt, pass, Role::Scorer, Line::Do(command), out);
    reply_outcome(answer.is_ok(), out, room, b"OK 2 1= 0.0\n")
}

/// The outcome of showing one entry.
fn show_outcome<N: OfficeName>(pass: &mut Pass<N>) -> Outcome {
    match pass.show() {
        Ok(sheet) => ordinary_if(sheet.journal.as_slice().len() == 1),
        Err(why) => out_of_memory_if(why == ShowFault::NoMemory),
    }
}

/// The outcome of a pass's own answer to a scorer, who asks for SHOW, if it is to be this text, or else
/// to be the jury.
fn alone_outcome<N: OfficeName>(
    pass: &mut Pass<N>,
    sheet: Option<&[u8]>,
    out: &mut Vec<u8>,
) -> Outcome {
    let (line, wanted, becomes): (Line, &[u8], Role) = match sheet {
        Some(text) => (Line::Show, text, Role::Scorer),
        None => (Line::SetRole(Role::Jury), b"ROLE JURY\n", Role::Jury),
    };
    let room = out.capacity();
    let mut role = Role::Scorer;
    let is_answered = answer_alone(pass, &mut role, Ok(line), out).is_ok();
    let is_role = sheet.is_none();
    match reply_outcome(is_answered, out, room, wanted) {
        Outcome::Ordinary => ordinary_if(role == becomes),
        // a role is refused only if there is no room for the reply
        Outcome::OutOfMemory => out_of_memory_if(role == Role::Scorer && !(is_role && is_answered)),
        Outcome::Other => Outcome::Other,
    }
}

/// The calls of an office's seats.
#[derive(Drop)]
enum SeatCall {
    /// Seat 1 enters the next boat.
    Run,
    /// Seat 1 sends the line that enters the second boat.
    Answer,
    /// Seat 2 is shown one entry.
    Show,
    /// Seat 2 asks to be the jury.
    AnswerRole,
}

/// An office with two seats; seat 1 has entered `entered` boats.
#[derive(Drop)]
struct Seats<'a, N: OfficeName, H: Wait + Drop, R: Wait> {
    rt: &'a R,
    alloc: Global,
    office: Office<N, H>,
    first: Pass<N>,
    second: Pass<N>,
    entered: u32,
}

impl<N: OfficeName, H: Wait + Drop, R: Wait> Seats<'_, N, H, R> {
    /// Counts one boat more, if the call has entered her.
    fn count_boat(&mut self, call: &SeatCall, outcome: Outcome) {
        if let (SeatCall::Run | SeatCall::Answer, Outcome::Ordinary) = (call, outcome) {
            self.entered = self.entered.saturating_add(1);
        }
    }

    /// Whether the journal has these boats, seat 1 knows that it has sent them, and seat 2 is shown them.
    fn has_entered(&mut self) -> bool {
        let journal = journal_of(self.entered);
        self.first.last() == self.entered
            && has_journal(self.rt, self.alloc, &self.office, journal)
            && is_shown(self.alloc, &mut self.second, journal)
    }

    /// The outcome of a call, with a command to enter the next boat, and what a reply is appended to.
    fn call_outcome(&mut self, call: &SeatCall, command: Command, out: &mut Vec<u8>) -> Outcome {
        match call {
            SeatCall::Run => run_outcome(self.rt, &self.office, &mut self.first, command),
            SeatCall::Answer => {
                answer_outcome(self.rt, &self.office, &mut self.first, command, out)
            }
            SeatCall::Show => show_outcome(&mut self.second),
            SeatCall::AnswerRole => alone_outcome(&mut self.second, None, out),
        }
    }
}

impl<N: OfficeName, H: Wait + Drop, R: Wait> Caller<SeatCall> for Seats<'_, N, H, R> {
    fn outcome(&mut self, call: &SeatCall, hoard: &mut Hoard, bytes: usize) -> Outcome {
        let Some(command) = enter(next_sail(self.entered)) else {
            return Outcome::Other;
        };
        let Ok(mut out) = Vec::from_slice(self.alloc, BEFORE) else {
            return Outcome::Other;
        };
        hoard.leave(bytes);
        let outcome = self.call_outcome(call, command, &mut out);
        hoard.give_back();
        self.count_boat(call, outcome);
        outcome_if(self.has_entered(), outcome)
    }
}

/// Whether these calls of the seats are made, with each allocation refused first, once seat 1 has
/// entered `entered` boats.
fn are_refused_at<N: OfficeName, H: Wait + Drop, R: Files + AllocGlobal + Wait>(
    rt: &R,
    opened: Opened<H>,
    entered: u32,
    calls: &[SeatCall],
) -> bool
    requires { (opened.history ≡ N.history) × (opened.rules ≡ N.rules) }
{
    match two_seats::<N, H>(opened) {
        Some((office, first, second)) => {
            let mut seats = Seats {
                rt,
                alloc: rt.alloc(),
                office,
                first,
                second,
                entered,
            };
            are_refused(rt, &mut seats, calls)
        }
        None => false,
    }
}

/// The same, at an office that was opened for it.
fn are_seats_refused<R: Files + AllocGlobal + Wait>(
    rt: &R,
    opened: Option<Opened<&R>>,
    entered: u32,
    calls: &[SeatCall],
) -> bool {
    match opened {
        Some(opened) => are_refused_at::<Brand, _, _>(rt, opened, entered, calls),
        None => false,
    }
}

/// After each refusal of the first command the desk has no entry, the seat has sent none, and the
/// other seat is shown none.
#[test]
fn entering_runs_out_of_memory(rt: HostRuntime) {
    let opened = opened_office(&rt, rt.alloc(), 2);
    assert!(rt; are_seats_refused(&rt, opened, 0, &[SeatCall::Run]));
}

static SEAT_CALLS: [SeatCall; 4] = [
    SeatCall::AnswerRole,
    SeatCall::Show,
    SeatCall::Answer,
    SeatCall::Run,
];

#[test]
fn seats_run_out_of_memory(rt: HostRuntime) {
    let opened = opened_with_a(&rt, rt.alloc()).ok();
    assert!(rt; are_seats_refused(&rt, opened, 1, &SEAT_CALLS));
}
