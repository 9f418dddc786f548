//! How an office is opened, named and shared.
ghost use Rattle.std.specs.Prelude.{◌≡◌, ◌<◌, ◌≤◌, ◌⊎◌, ◌↔◌, true, Err, All, vec_len};
ghost use Rattle.std.specs.Prelude.{IfOk, IfErr, OnOk};
ghost use Rattle.regatta_board.specs.Refusals.{limits, is_lawful};
ghost use Rattle.regatta_terms.specs.declared.limits.TheConstants.{MAX_SEATS};
ghost use Rattle.regatta_watch.specs.Views.{Sees};
ghost use Rattle.regatta_desk.specs.Offices.{AreSeated, IsOpenFault, IsOpenedWith, seated};

use crate::desk::Desk;
use crate::opening::{OpenFault, board_of, watched};
use crate::pass::{Pass, Seen};
use crate::told::Told;
use regatta_board::Board;
use regatta_terms::{Entry, MAX_SEATS, Rules};
use regatta_watch::{History, JournalNote, Note, OfficeName, Publisher, SharedHistory, Watcher};
use std::alloc::{AllocError, Global};
use std::marker::{Brand, Model};
use std::sync::{Mutex, MutexGuard, Wait};
use std::thread::yield_now;

/// How often a thread tries to take the lock, and gives up its turn, before it sleeps for it: waking
/// a thread takes longer than most commands.
const TRIES_FOR_THE_LOCK: u32 = 200;

/// An office that isn't locked yet.
///
/// It is seen as its series rules, its journal, the number of its seats, and its history.
#[derive(Drop)]
pub struct Opened<R: Wait + Drop> {
    alloc: Global,
    board: Board,
    publisher: Publisher<R>,
    history: History,
    watchers: Vec<Watcher>,
}

impl<R: Wait + Drop> Model for Opened<R> {
    ghost use Rattle.std.specs.Prelude.{◌≡◌, ◌≤◌, All, vec_len};
    ghost use Rattle.regatta_terms.specs.declared.limits.TheConstants.{MAX_SEATS};
    ghost use Rattle.regatta_watch.specs.Views.{looking};
    ghost use Rattle.regatta_desk.specs.Desks.{AtRest};
    ghost use Rattle.regatta_desk.specs.Offices.{OpenedValue};

    ghost Value = { OpenedValue };

    ghost view = { λ o. record {
      rules = o.board.rules;
      entries = o.board.entries;
      seats = vec_len o.watchers;
      history = o.history.history;
    } };

    ghost invariant = { λ o.
        AtRest o.board o.publisher o.history o.board.rules o.history.history
        × All (λ w. w ≡ looking o.publisher.published) o.watchers.items
        × (vec_len o.watchers ≤ MAX_SEATS) };
}

/// The desk behind its lock.
#[derive(Drop)]
pub struct Office<N: OfficeName, R: Wait + Drop> {
    desk: Mutex<Desk<N, R>>,
}

impl<N: OfficeName, R: Wait + Drop> Office<N, R> {
    /// Waits for the lock and returns the desk. There is no other way to it.
    pub fn desk<W: Wait>(&self, rt: &W) -> MutexGuard<'_, Desk<N, R>> {
        for _ in 0..TRIES_FOR_THE_LOCK {
            if let Some(desk) = self.desk.try_lock() {
                return desk;
            }
            yield_now();
        }
        self.desk.lock(rt)
    }
}

impl<R: Wait + Drop> Office<Brand, R> {
    /// Opens an office with `seats` seats and the journal `start`. The office has no name yet.
    /// Opening takes no lock. Its type lets it wait, and no clause says that it doesn't.
    ///
    /// # Errors
    ///
    /// `BadSeats` exactly when the seats aren't 1 to [`MAX_SEATS`](regatta_terms::MAX_SEATS).
    /// Otherwise `Refused` with the first entry that those before it refuse, `NoReader` if the
    /// publication has no room for a reader, or `NoMemory` if an allocation fails.
    pub fn open(
        rt: R,
        alloc: Global,
        rules: &Rules,
        seats: u8,
        start: &[Entry],
    ) -> Result<Opened<R>, OpenFault>
        ensures opened { IfOk result (IsOpenedWith rules.now start.now seats) }
        ensures lawful { OnOk result (is_lawful limits rules.now start.now ≡ true) }
        ensures bad_seats { (result ≡ Err OpenFault.BadSeats)
            ↔ ((seats ≡ 0) ⊎ (MAX_SEATS < seats)) }
        ensures refused { IfErr result (IsOpenFault rules.now start.now) }
    {
        if seats == 0 || seats > MAX_SEATS {
            return Err(OpenFault::BadSeats);
        }
        let board = board_of(alloc, rules, start)?;
        // Called for its contract: the journal is lawful.
        let _ = board.entries();
        opened_with(rt, alloc, board, seats)
    }
}

/// The office of a board, with a watcher for each seat.
fn opened_with<R: Wait + Drop>(
    rt: R,
    alloc: Global,
    board: Board,
    seats: u8,
) -> Result<Opened<R>, OpenFault>
    requires some { 0 < seats }
    requires few { seats ≤ MAX_SEATS }
    ensures opened { IfOk result (IsOpenedWith board.rules board.entries seats) }
    ensures fault { IfErr result (λ f. (f ≡ OpenFault.NoReader) ⊎ (f ≡ OpenFault.NoMemory)) }
{
    let (history, publisher, watchers) = watched(rt, alloc, &board, seats)?;
    Ok(Opened {
        alloc,
        board,
        publisher,
        history,
        watchers,
    })
}

impl<R: Wait + Drop> Opened<R> {
    /// A note of the journal that the office starts with.
    pub fn start_note(&mut self) -> Note
        ensures same { self.new ≡ self.old }
        ensures journal { result.journal ≡ self.old.entries }
        ensures history { result.history ≡ self.old.history }
    {
        self.history.note()
    }

    /// Puts the desk behind its lock, and returns it with a pass for each seat, in order from 1.
    /// The caller picks N for this office.
    ///
    /// # Errors
    ///
    /// If an allocation fails. The office is then gone.
    pub fn split<N: OfficeName>(self) -> Result<(Office<N, R>, Vec<Pass<N>>), AllocError>
        requires history { self.history ≡ N.history }
        requires rules { self.rules ≡ N.rules }
        ensures passes { IfOk result (λ t. AreSeated self.entries t.1.items) }
        ensures count { IfOk result (λ t. vec_len t.1 ≡ self.seats) }
    {
        let Opened {
            alloc,
            board,
            publisher,
            mut history,
            watchers,
        } = self;
        let passes = passes_of(alloc, &board, &mut history, watchers)?;
        let desk = Desk::new(board, publisher, history);
        Ok((
            Office {
                desk: Mutex::new(desk),
            },
            passes,
        ))
    }
}

/// A pass for each of these watchers, in order of seat from 1.
fn passes_of<N: OfficeName>(
    alloc: Global,
    board: &Board,
    history: &mut History,
    watchers: Vec<Watcher>,
) -> Result<Vec<Pass<N>>, AllocError>
    requires few { vec_len watchers ≤ MAX_SEATS }
    requires journal { history.old.journal ≡ board.now.entries }
    requires history { history.old.history ≡ N.history }
    requires watchers { All (λ w. Sees w board.now.entries N.rules N.history) watchers.items }
    ensures same { history.new ≡ history.old }
    ensures passes { IfOk result (λ v. AreSeated board.now.entries v.items) }
    ensures count { IfOk result (λ v. vec_len v ≡ vec_len watchers) }
{
    let mut passes = Vec::with_capacity(alloc, watchers.len())?;
    for watcher in watchers {
        let shared = history.share()?;
        let pass = pass_of(alloc, board, history, shared, watcher, passes.len());
        passes.push(pass)?;
    }
    Ok(passes)
}

/// The pass of the seat after `before` others.
fn pass_of<N: OfficeName>(
    alloc: Global,
    board: &Board,
    history: &mut History,
    shared: SharedHistory,
    watcher: Watcher,
    before: usize,
) -> Pass<N>
    requires few { before < MAX_SEATS }
    requires journal { history.old.journal ≡ board.now.entries }
    requires history { history.old.history ≡ N.history }
    requires shared { shared ≡ N.history }
    requires watcher { Sees watcher board.now.entries N.rules N.history }
    ensures same { history.new ≡ history.old }
    ensures pass { result ≡ seated board.now.entries before }
{
    let seat = before as u8 + 1;
    let seen = Seen {
        journal: JournalNote {
            note: history.note(),
            last: None,
        },
        length: board.len(),
    };
    Pass::new(
        alloc,
        seat,
        board.last_of(seat),
        watcher,
        seen,
        Told::none(history.listener(), shared),
    )
}
