//! An office and its seats: how it opens, and what passes are shown beside the desk.
ghost use Rattle.std.specs.Prelude.{◌≡◌};

use super::*;
use regatta_office::{
    Next, Office, OfficeName, OpenFault, Opened, Pass, Receipt, Sheet, ShowFault, answer_alone,
};
use regatta_scores::Standing;
use regatta_tables::{write_entries, write_table};
use regatta_terms::{Command, Line, Refusal, Role, Sail, read_entry};
use std::marker::Brand;
use std::sync::Wait;

/// The command that enters a boat.
pub(crate) fn enter(sail: &[u8]) -> Option<Command> {
    let sail = Sail::read(sail)?;
    Some(Command::Enter { sail })
}

/// What a command as scorer is answered through the lock.
pub(crate) fn answered<N: OfficeName, H: Wait + Drop, R: Wait>(
    rt: &R,
    office: &Office<N, H>,
    pass: &mut Pass<N>,
    command: Command,
) -> Result<Receipt<N>, Refusal> {
    let mut desk = office.desk(rt);
    desk.run(rt, pass, Role::Scorer, command)
}

/// The receipt for a boat that is entered.
fn entered<N: OfficeName, H: Wait + Drop, R: Wait>(
    rt: &R,
    office: &Office<N, H>,
    pass: &mut Pass<N>,
    sail: &[u8],
) -> Option<Receipt<N>> {
    answered(rt, office, pass, enter(sail)?).ok()
}

/// An office with `seats` seats in which nothing was entered. It has no contract, so that its callers
/// are proved quickly.
pub(crate) fn opened_office<R: Wait>(rt: &R, alloc: Global, seats: u8) -> Option<Opened<&R>> {
    Office::open(rt, alloc, &default_rules(), seats, &[]).ok()
}

/// An office and the passes of its two seats.
pub(crate) fn two_seats<N: OfficeName, H: Wait + Drop>(
    opened: Opened<H>,
) -> Option<(Office<N, H>, Pass<N>, Pass<N>)>
    requires history { opened.history ≡ N.history }
    requires rules { opened.rules ≡ N.rules }
{
    let (office, mut passes) = opened.split::<N>().ok()?;
    let second = passes.pop()?;
    let first = passes.pop()?;
    Some((office, first, second))
}

/// An office and the pass of its one seat.
pub(crate) fn one_seat<N: OfficeName, H: Wait + Drop>(
    opened: Opened<H>,
) -> Option<(Office<N, H>, Pass<N>)>
    requires history { opened.history ≡ N.history }
    requires rules { opened.rules ≡ N.rules }
{
    let (office, mut passes) = opened.split::<N>().ok()?;
    let pass = passes.pop()?;
    Some((office, pass))
}

/// Whether the entries of a sheet are this text.
fn has_entries(alloc: Global, sheet: &Sheet, journal: &[u8]) -> bool {
    let mut text = Vec::new(alloc);
    let is_written = write_entries(sheet.journal.as_slice(), &mut text).is_ok();
    is_written && text.as_slice() == journal
}

/// Whether a standing's table is this text.
pub(crate) fn has_table(alloc: Global, standing: &Standing, table: &[u8]) -> bool {
    let mut text = Vec::new(alloc);
    let is_written = write_table(standing, &mut text).is_ok();
    is_written && text.as_slice() == table
}

/// Whether the pass is shown this journal.
pub(crate) fn is_shown<N: OfficeName>(alloc: Global, pass: &mut Pass<N>, journal: &[u8]) -> bool {
    match pass.show() {
        Ok(sheet) => has_entries(alloc, &sheet, journal),
        Err(_) => false,
    }
}

#[test]
fn offices_open_by_their_seats_and_start(rt: HostRuntime) -> Result<(), Fail> {
    let rules = default_rules();
    for seats in [0, 17] {
        let opened = Office::open(&rt, rt.alloc(), &rules, seats, &[]);
        assert_eq!(rt; opened.err(), Some(OpenFault::BadSeats));
    }
    let start = read_entry(b"1 1 JURY ENTER A").ok();
    let opened = Office::open(&rt, rt.alloc(), &rules, 16, start.as_slice());
    let refused = OpenFault::Refused {
        at: 1,
        refusal: Refusal::NotYours,
    };
    assert_eq!(rt; opened.err(), Some(refused));
    Ok(())
}

/// The journal once seat 1 has entered A, and once seat 2 has entered B, and the table then.
static ONE: &[u8] = b"1 1 SCORER ENTER A\n";

static BOTH: &[u8] = b"1 1 SCORER ENTER A\n2 1 SCORER ENTER B\n";

static TABLE: &[u8] = b"TABLE 2 RACES\n1= A 0.0\n1= B 0.0\n";

/// Whether both seats are shown the first entry while the desk is held, seat 2 also before it has
/// learnt the receipt.
fn show_beside_a_guard<N: OfficeName, H: Wait + Drop, R: Wait>(
    rt: &R,
    alloc: Global,
    office: &Office<N, H>,
    first: &mut Pass<N>,
    second: &mut Pass<N>,
    receipt: Receipt<N>,
) -> bool {
    let _desk = office.desk(rt);
    let are_shown = is_shown(alloc, first, ONE) & is_shown(alloc, second, ONE);
    second.learn(receipt);
    are_shown & is_shown(alloc, second, ONE)
}

/// Whether the pass is shown what both seats ran, with its table.
fn is_shown_both<N: OfficeName>(alloc: Global, pass: &mut Pass<N>) -> bool {
    match pass.show() {
        Ok(sheet) => {
            has_entries(alloc, &sheet, BOTH) && has_table(alloc, &sheet.standing, TABLE)
        }
        Err(_) => false,
    }
}

/// Whether seat 1 is shown what both ran, once seat 2 has entered B and seat 1 has learnt of it.
fn learns_and_shows<N: OfficeName, H: Wait + Drop, R: Wait>(
    rt: &R,
    alloc: Global,
    office: &Office<N, H>,
    first: &mut Pass<N>,
    second: &mut Pass<N>,
) -> bool {
    match entered(rt, office, second, b"B") {
        Some(receipt) => {
            first.learn(receipt);
            is_shown_both(alloc, first)
        }
        None => false,
    }
}

/// Whether both seats are shown what seat 1 ran, and then seat 1 what both ran.
fn are_shown<N: OfficeName, H: Wait + Drop, R: Wait>(
    rt: &R,
    alloc: Global,
    office: &Office<N, H>,
    first: &mut Pass<N>,
    second: &mut Pass<N>,
) -> bool {
    match entered(rt, office, first, b"A") {
        Some(receipt) => {
            show_beside_a_guard(rt, alloc, office, first, second, receipt)
                & learns_and_shows(rt, alloc, office, first, second)
        }
        None => false,
    }
}

/// Whether the answer to SHOW is `CLOSED`.
fn answers_closed<N: OfficeName>(alloc: Global, pass: &mut Pass<N>) -> bool {
    let mut role = Role::Scorer;
    let mut out = Vec::new(alloc);
    let next = answer_alone(pass, &mut role, Ok(Line::Show), &mut out);
    next == Ok(Next::Go) && out.as_slice() == b"CLOSED\n".as_slice()
}

/// Whether nothing is shown, and SHOW is answered so.
fn is_closed<N: OfficeName>(alloc: Global, pass: &mut Pass<N>) -> bool {
    pass.show().err() == Some(ShowFault::Closed) && answers_closed(alloc, pass)
}

/// Whether the seats are shown what they ran, and nothing once the office is gone.
fn tells<N: OfficeName, H: Wait + Drop, R: Wait>(rt: &R, alloc: Global, opened: Opened<H>) -> bool
    requires history { opened.history ≡ N.history }
    requires rules { opened.rules ≡ N.rules }
{
    match two_seats::<N, H>(opened) {
        Some((office, mut first, mut second)) => {
            let is_told = are_shown(rt, alloc, &office, &mut first, &mut second);
            drop(office);
            is_told & is_closed(alloc, &mut first)
        }
        None => false,
    }
}

#[test]
fn seats_show_and_tell(rt: HostRuntime) -> Result<(), Fail> {
    let opened = opened_office(&rt, rt.alloc(), 2).ok_or("an office")?;
    assert!(rt; tells::<Brand, _, _>(&rt, rt.alloc(), opened));
    Ok(())
}
