//! Clients, from the door to the end of their session.
ghost use Rattle.std.specs.Prelude.{◌≡◌, ◌≢◌, ◌+◌, IfOk, IfErr};
ghost use Rattle.regatta_service.specs.Keepings.{IsFresh};
ghost use Rattle.regatta_service.specs.Partings.{IsServed, IsTurnedAway};

use crate::count::Count;
use crate::gate::Gate;
use crate::keeping::Keeping;
use crate::pool::{Lack, Parted, Pool, Seated, Serves};
use crate::room::session_room;
use regatta_desk::{Office, OfficeName};
use regatta_keeper::Covers;
use regatta_streams::{Device, Sink, Source};
use std::alloc::Global;
use std::marker::{Model, PhantomData};
use std::sync::{Mutex, Wait};
use std::thread::{PromisedHandle, Scope};

/// The number of clients with such a stream who were admitted: each was given to a thread that
/// promised them a session, was served at once, or was turned away with `BUSY`. Replies of these
/// sessions are covered by a `C`. It has no bytes: only contracts see the number.
#[derive(Drop)]
pub struct Admitted<S, C> {
    clients: Count,
    of: PhantomData<(S, C)>,
}

impl<S, C> Model for Admitted<S, C> {
    ghost use Rattle.std.specs.Prelude.{ℕ};

    ghost Value = { ℕ };

    ghost view = { λ a. a.clients };
}

impl<S, C> Admitted<S, C> {
    /// No client yet.
    pub(crate) fn none() -> Admitted<S, C>
        ensures { result ≡ 0 }
    {
        Admitted {
            clients: Count::none(),
            of: PhantomData,
        }
    }

    /// Counts one more client.
    fn count(&mut self)
        ensures { self.new ≡ self.old + 1 }
    {
        self.clients = self.clients.one_more();
    }
}

/// Serves a client with the pass that is lent to them, and frees the seat. If they can't be served,
/// turns them away.
fn attend<N, H, R, K, S, G>(
    rt: &R,
    alloc: Global,
    client: Seated<N, S>,
    office: &Office<N, H>,
    keeping: &K,
    pool: &Mutex<Pool<N>>,
    gate: &G,
) -> Parted<N, S, K::Session>
where
    N: OfficeName,
    H: Wait + Drop,
    R: Wait,
    K: Keeping<N>,
    S: Source + Sink + Drop,
    G: Gate,
    // A session was run on this client's stream and with their pass, and the seat was freed.
    ensures session { IfOk result (λ gone. (gone.ended.given.value ≡ client.stream)
        × (gone.ended.before.value ≡ client.pass)) }
    ensures fresh { IfOk result (λ gone. IsFresh (K.Session.book gone.ended.begun.value)) }
    ensures served { IfOk result (λ gone. IsServed N.rules S.remaining S.contents S.failures
        S.failed_reads client.stream gone.ended.left.value client.pass gone.ended.after.value
        (K.Session.book gone.ended.begun.value) (K.Session.book gone.ended.covers)
        (K.Session.refused gone.ended.covers) gone.ended.end) }

    // Or they were turned away, but not for lack of a seat.
    ensures away { IfErr result (λ away. (away.given.value ≡ client.stream)
        × (away.why ≢ Lack.Seat)) }
    ensures told { IfErr result (λ away. IsTurnedAway S.remaining S.contents S.failures
        S.failed_reads client.stream away.left.value) }
{
    let begun = pool.lock(rt).begin(client);
    let mut client = match begun {
        Ok(client) => client,
        Err(unseated) => return Err(unseated.turn_away()),
    };
    match session_room(rt, alloc, keeping) {
        Ok((room, covers)) => {
            let ended = client.serve(rt, room, office, gate, covers);
            // The seat is free before the stream is closed, so a client who sees the end of their
            // session may come again at once.
            let (_leaving, gone) = pool.lock(rt).take_back(client, ended);
            Ok(gone)
        }
        Err(why) => {
            let unseated = pool.lock(rt).give_up(client, &why);
            Err(unseated.turn_away())
        }
    }
}

/// Admits a client to the lowest free seat, where a thread of their own serves them. If no seat is
/// free, or no thread is available, turns them away.
pub(crate) fn admit<'s, E: 's, N, H, R, K, S, G>(
    rt: &'s R,
    alloc: Global,
    scope: &Scope<'s, E>,
    office: &'s Office<N, H>,
    keeping: &'s K,
    pool: &'s Mutex<Pool<N>>,
    gate: &'s G,
    admitted: &mut Admitted<S, K::Session>,
    stream: S,
) -> Result<PromisedHandle<Parted<N, S, K::Session>, Serves<N, S>>, Parted<N, S, K::Session>>
where
    N: OfficeName + Send + Sync + 's,
    H: Wait + Drop + Send + 's,
    R: Wait + Sync + 's,
    K: Keeping<N> + Sync + 's,
    K::Session: 's,
    S: Source + Sink + Send + Drop + 's,
    G: Gate + Sync + 's,
    ensures counted { admitted.new ≡ admitted.old + 1 }

    // The thread promises to serve this stream, or it was parted with here.
    ensures seated { IfOk result (λ thread. thread.promise.given.value ≡ stream) }
    ensures session { IfErr result (λ parted. IfOk parted (λ gone.
        (gone.ended.given.value ≡ stream)
        × IsServed N.rules S.remaining S.contents S.failures S.failed_reads stream
        gone.ended.left.value gone.ended.before.value gone.ended.after.value
        (K.Session.book gone.ended.begun.value) (K.Session.book gone.ended.covers)
        (K.Session.refused gone.ended.covers) gone.ended.end)) }
    ensures away { IfErr result (λ parted. IfErr parted (λ away.
        (away.given.value ≡ stream)
        × IsTurnedAway S.remaining S.contents S.failures S.failed_reads stream
        away.left.value)) }
{
    admitted.count();
    let lent = pool.lock(rt).lend(stream);
    let (ticket, client) = match lent {
        Ok(seated) => seated,
        Err(unseated) => return Err(Err(unseated.turn_away())),
    };
    let promise = client.promise();
    match scope.spawn_with(
        promise,
        move || attend(rt, alloc, client, office, keeping, pool, gate),
    ) {
        Ok(thread) => Ok(thread),
        Err(refused) => {
            // The refused closure finds the refusal, and turns the client away.
            pool.lock(rt).refuse(ticket, &refused);
            Err((refused.value)())
        }
    }
}
