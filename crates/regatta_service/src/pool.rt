//! The passes that are free, and the clients to whom the others are lent.
ghost use Rattle.std.specs.Prelude.{◌≡◌, ◌≢◌, ◌+◌, ◌<◌, ◌++◌, Some, None, map, take, length, All};
ghost use Rattle.std.specs.Prelude.{IfOk, IfErr, IfSome, OnOk, OnErr};
ghost use Rattle.regatta_service.specs.Pools.{Finds, Lends, with_pass};

use crate::room::NoRoom;
use regatta_desk::{OfficeName, Pass};
use std::alloc::{AllocError, Global};
use std::marker::Model;
use std::thread::SpawnError;

mod clients;
mod ended;
mod promise;

pub(crate) use clients::TurnedAway;
pub(crate) use ended::Ended;
pub(crate) use promise::{Parted, Serves};

/// What there is none of for a client.
#[derive(Clone, Copy, Debug, PartialEq, Eq)]
pub(crate) enum Lack {
    Seat,
    Thread,
    Memory,
}

/// A client with the pass that is lent to them, and the pass's slot in the pool. Only a pool lends
/// a pass, and only a pool takes it back, so no one else parts the client's stream from it.
#[derive(Drop)]
pub(crate) struct Seated<N: OfficeName, S> {
    slot: usize,
    pass: Pass<N>,
    stream: S,
}

/// A client who can't be served, and why. Only a pool makes one.
#[derive(Drop)]
pub(crate) struct Unseated<S> {
    stream: S,
    why: Lack,
}

/// A client whose session has ended and whose pass is back. The stream closes when this is dropped.
#[derive(Drop)]
pub(crate) struct Leaving<S> {
    _stream: S,
}

/// The session of a client whose pass is back. Only `Pool::take_back` makes one.
#[derive(Drop)]
pub(crate) struct Gone<N: OfficeName, S, C> {
    ended: Ended<N, S, C>,
}

/// What it takes to refuse a client a thread. It comes with the pass that is lent to them.
#[derive(Drop)]
pub(crate) struct Ticket {
    slot: usize,
}

/// The passes, each in a slot of its own. The slot is empty while a client has the pass, so taking
/// the pass back allocates nothing.
///
/// A pool is seen as its slots, and the one whose client is refused a thread, if any.
#[derive(Drop)]
pub(crate) struct Pool<N: OfficeName> {
    slots: Vec<Option<Pass<N>>>,
    refused: Option<usize>,
}

impl<N: OfficeName> Model for Pool<N> {
    ghost use Rattle.regatta_service.specs.Pools.{PoolParts};

    ghost Value = { PoolParts };

    ghost view = { λ p. record { slots = p.slots.items; refused = p.refused } };
}

/// The slot of the pass with the lowest seat, with that seat, among the slots up to `slot`. `found`
/// is the same for the slots before it.
#[tactic(auto, using(crate::proofs::Lowest::one_more))]
fn lowest_to<N: OfficeName>(
    slots: &[Option<Pass<N>>],
    slot: usize,
    found: Option<(usize, u8)>,
) -> Option<(usize, u8)>
    requires slot { slot < length slots.now }
    requires before { Finds (take slot slots.now) found }
    ensures { Finds (take (slot + 1) slots.now) result }
{
    let Some(pass) = &slots[slot] else {
        return found;
    };
    match found {
        None => Some((slot, pass.seat())),
        Some((_, seat)) => {
            if seat <= pass.seat() {
                return found;
            }
            Some((slot, pass.seat()))
        }
    }
}

impl<N: OfficeName> Pool<N> {
    /// A pool of these passes. None is lent yet.
    ///
    /// # Errors
    ///
    /// If an allocation fails.
    #[tactic(auto, using(crate::proofs::Lowest::slot_more))]
    pub(crate) fn new(alloc: Global, passes: Vec<Pass<N>>) -> Result<Pool<N>, AllocError>
        ensures slots { IfOk result (λ pool. pool.slots ≡ map Some passes.items) }
        ensures refused { IfOk result (λ pool. pool.refused ≡ None) }
    {
        let mut slots = Vec::with_capacity(alloc, passes.len())?;
        for pass in passes {
            slots.push(Some(pass))?;
        }
        Ok(Pool {
            slots,
            refused: None,
        })
    }

    /// The slot of the free pass with the lowest seat, and that seat.
    #[tactic(auto, using(crate::proofs::Lowest::finds_all))]
    fn lowest(&self) -> Option<(usize, u8)>
        ensures { Finds self.now.slots result }
    {
        let mut found = None;
        for slot in 0..self.slots.len() {
            found = lowest_to(&self.slots, slot, found);
        }
        found
    }

    /// Lends the pass with the lowest seat to a client, if one is free.
    ///
    /// # Errors
    ///
    /// If none is free. The client is then unseated.
    pub(crate) fn lend<S>(&mut self, stream: S) -> Result<(Ticket, Seated<N, S>), Unseated<S>>
        ensures lent { IfOk result (λ made. Lends self.old self.new made.1.slot made.1.pass) }
        ensures client { IfOk result (λ made. made.1.stream ≡ stream) }
        ensures ticket { IfOk result (λ made. made.0.slot ≡ made.1.slot) }
        ensures none { OnErr result (All (λ slot. slot ≡ None) self.old.slots) }
        ensures same { OnErr result (self.new ≡ self.old) }
        ensures away { IfErr result (λ client. (client.stream ≡ stream)
            × (client.why ≡ Lack.Seat)) }
    {
        let Some((slot, _)) = self.lowest() else {
            return Err(Unseated {
                stream,
                why: Lack::Seat,
            });
        };
        let Some(pass) = self.slots[slot].take() else {
            unreachable!()
        };
        self.refused = None;
        Ok((Ticket { slot }, Seated { slot, pass, stream }))
    }

    /// Notes that no thread is available for the client with this ticket: a spawn failed.
    pub(crate) fn refuse<F>(&mut self, ticket: Ticket, _refused: &SpawnError<F>)
        ensures { self.new ≡ record self.old { refused = Some ticket.slot } }
    {
        self.refused = Some(ticket.slot);
    }

    /// The client, who may now be served.
    ///
    /// # Errors
    ///
    /// If they are refused a thread. They are then unseated.
    pub(crate) fn begin<S>(&mut self, client: Seated<N, S>) -> Result<Seated<N, S>, Unseated<S>>
        ensures begun { IfOk result (λ same. same ≡ client) }
        ensures same { OnOk result (self.new ≡ self.old) }
        ensures admitted { OnOk result (self.old.refused ≢ Some client.slot) }
        ensures refused { OnErr result (self.old.refused ≡ Some client.slot) }
        ensures back { OnErr result (self.new ≡ with_pass self.old client.slot client.pass) }
        ensures away { IfErr result (λ left. (left.stream ≡ client.stream)
            × (left.why ≡ Lack.Thread)) }
    {
        match self.refused {
            Some(slot) if slot == client.slot => Err(self.unseat(client, Lack::Thread)),
            Some(_) | None => Ok(client),
        }
    }

    /// Unseats a client for whose replies there is no memory.
    pub(crate) fn give_up<S>(&mut self, client: Seated<N, S>, _why: &NoRoom) -> Unseated<S>
        ensures back { self.new ≡ with_pass self.old client.slot client.pass }
        ensures away { (result.stream ≡ client.stream) × (result.why ≡ Lack.Memory) }
    {
        self.unseat(client, Lack::Memory)
    }

    /// Takes back the pass of a client who was served. Stream and pass are still as the session left
    /// them.
    pub(crate) fn take_back<S, C>(
        &mut self,
        client: Seated<N, S>,
        ended: Ended<N, S, C>,
    ) -> (Leaving<S>, Gone<N, S, C>)
        requires stream { client.stream ≡ ended.left.value }
        requires pass { client.pass ≡ ended.after.value }
        ensures back { self.new ≡ with_pass self.old client.slot client.pass }
        ensures gone { result.1.ended ≡ ended }
    {
        let Seated { slot, pass, stream } = client;
        self.put(slot, pass);
        (Leaving { _stream: stream }, Gone { ended })
    }

    /// Takes back the pass of a client who can't be served.
    fn unseat<S>(&mut self, client: Seated<N, S>, why: Lack) -> Unseated<S>
        ensures back { self.new ≡ with_pass self.old client.slot client.pass }
        ensures away { (result.stream ≡ client.stream) × (result.why ≡ why) }
    {
        let Seated { slot, pass, stream } = client;
        self.put(slot, pass);
        Unseated { stream, why }
    }

    /// Puts a pass back into its slot.
    fn put(&mut self, slot: usize, pass: Pass<N>)
        ensures { self.new ≡ with_pass self.old slot pass }
    {
        if let Some(empty) = self.slots.get_mut(slot) {
            *empty = Some(pass);
        }
    }

    /// Appends the passes, in the order of their slots, to a list that has room for them. `None` if
    /// one is still lent.
    #[tactic(auto, using(crate::proofs::Lowest::pass_more))]
    pub(crate) fn into_passes(self, mut passes: Vec<Pass<N>>) -> Option<Vec<Pass<N>>>
        ensures { IfSome result (λ back. map Some back.items
            ≡ map Some passes.items ++ self.slots) }
    {
        let Pool { slots, refused: _ } = self;
        for slot in slots {
            passes.push(slot?).ok()?;
        }
        Some(passes)
    }
}
