//! Clients served side by side.
ghost use Rattle.std.specs.Prelude.{◌≡◌, ◌+◌, map, true, IfErr, IfOk, IsErrOf, IsTrue};
ghost use Rattle.regatta_service.specs.Faults.{EndsAdmission, IfBegun, door_failures_in};
ghost use Rattle.regatta_service.specs.Servings.{AskedDoor, SeatsBack, ServesEach, seats_in};

use crate::door::Door;
use crate::gate::Gate;
use crate::keeping::{ByKeeper, Keeping};
use crate::parting::{Admitted, admit};
use crate::pool::Pool;
use regatta_desk::{Office, OfficeName, Pass};
use regatta_keep::Log;
use regatta_keeper::{Keeper, KeptBy, KeptName, Uncovered};
use regatta_streams::Device;
use std::alloc::{AllocError, Global};
use std::sync::{Mutex, Wait};
use std::thread;
use std::thread::{Scope, Threads};
use std::time::Clock;
use thiserror::Error;

/// Why serving ended early.
#[derive(Clone, Copy, Debug, PartialEq, Eq, Error)]
pub enum ServeFault {
    /// The door failed.
    #[error("the door failed")]
    Door,
    /// A seat didn't come back.
    #[error("no thread, or a seat didn't come back")]
    Thread,
    /// An allocation failed.
    #[error("no memory")]
    NoMemory,
    /// The log failed: no reply is covered any more. Without a keeper serving never ends so.
    #[error("the log failed")]
    Keep,
}

/// Admits one client after another, until the door is closed or the keeper has stopped. Returns how
/// many, too.
fn accept_all<'s, E: 's, N, H, R, K, D, G>(
    rt: &'s R,
    alloc: Global,
    scope: &Scope<'s, E>,
    office: &'s Office<N, H>,
    keeping: &'s K,
    pool: &'s Mutex<Pool<N>>,
    door: &mut D,
    gate: &'s G,
) -> (Result<(), ServeFault>, Admitted<D::Stream, K::Session>)
where
    N: OfficeName + Send + Sync + 's,
    H: Wait + Drop + Send + 's,
    R: Threads + Wait + Clock + Sync + 's,
    K: Keeping<N> + Sync + 's,
    K::Session: 's,
    D: Door,
    D::Stream: 's,
    G: Gate + Sync + 's,
    ensures door { D.failures door.new ≡ D.failures door.old + door_failures_in result.0 }
    ensures each { D.given door.new ≡ D.given door.old + result.1 }
    ensures closed { IfBegun result.0 (D.closed door.new ≡ true) }
    ensures fault { IfErr result.0 (λ f. EndsAdmission K.stops f) }
{
    let mut admitted = Admitted::none();
    for _ in rt.forever() {
        let Ok(next) = door.next(&*rt) else {
            return (Err(ServeFault::Door), admitted);
        };
        let Some(stream) = next else {
            return (Ok(()), admitted);
        };
        let _ = admit(
            rt,
            alloc,
            scope,
            office,
            keeping,
            pool,
            gate,
            &mut admitted,
            stream,
        );
        if keeping.has_stopped(rt) {
            return (Err(ServeFault::Keep), admitted);
        }
    }
    unreachable!()
}

/// Does nothing, but this use of a returned reference ties it to the parameter that it borrows.
fn take_back<T>(x: &mut T)
    ensures { x.new ≡ x.old }
{}

/// The seats of these passes, the lowest first.
fn seats_of<N: OfficeName>(alloc: Global, passes: &[Pass<N>]) -> Result<Vec<u8>, AllocError>
    ensures { IfOk result (λ seats. SeatsBack passes.now seats.items) }
{
    let mut seats = Vec::with_capacity(alloc, passes.len())?;
    for pass in passes {
        seats.push(pass.seat())?;
    }
    seats.sort_unstable();
    Ok(seats)
}

/// Whether these are the passes of exactly these seats, in this order.
fn are_seated<N: OfficeName>(passes: &[Pass<N>], seats: &[u8]) -> bool
    ensures { IsTrue result → map (λ p. p.seat) passes.now ≡ seats.now }
{
    passes.iter().map(|p| p.seat()).eq(seats.iter().copied())
}

/// The passes, if all of these seats are back in the pool. `empty` has room for them.
fn passes_back<N: OfficeName>(
    pool: Pool<N>,
    empty: Vec<Pass<N>>,
    seats: &[u8],
) -> Result<Vec<Pass<N>>, ServeFault>
    ensures seats { IfOk result (λ passes. map (λ p. p.seat) passes.items ≡ seats.now) }
    ensures door { door_failures_in result ≡ 0 }
    ensures fault { IfErr result (λ f. f ≡ ServeFault.Thread) }
{
    let Some(passes) = pool.into_passes(empty) else {
        return Err(ServeFault::Thread);
    };
    if !are_seated(&passes, seats) {
        return Err(ServeFault::Thread);
    }
    Ok(passes)
}

/// Serves the door's clients, over what keeps what they are answered from, and counts them.
fn serve_over<N, H, R, K, D, G>(
    rt: &R,
    alloc: Global,
    office: &Office<N, H>,
    keeping: &K,
    door: &mut D,
    passes: Vec<Pass<N>>,
    gate: &G,
) -> (
    Result<Vec<Pass<N>>, ServeFault>,
    Admitted<D::Stream, K::Session>,
)
where
    N: OfficeName + Send + Sync,
    H: Wait + Drop + Send,
    R: Threads + Wait + Clock + Sync,
    K: Keeping<N> + Sync,
    D: Door,
    G: Gate + Sync,
    ensures served { ServesEach D.failures D.given D.closed passes.items door.old door.new result.1
        result.0 }
    ensures stopped { IsErrOf result.0 ServeFault.Keep → K.stops ≡ true }
{
    let Ok(seats) = seats_of(alloc, &passes) else {
        return (Err(ServeFault::NoMemory), Admitted::none());
    };
    // Allocated now, so that no allocation is left to fail after clients were served.
    let Ok(empty) = Vec::with_capacity(alloc, passes.len()) else {
        return (Err(ServeFault::NoMemory), Admitted::none());
    };
    let mut passes = passes;
    passes.sort_unstable_by_key(|pass| pass.seat());
    let Ok(pool) = Pool::new(alloc, passes) else {
        return (Err(ServeFault::NoMemory), Admitted::none());
    };
    let pool = Mutex::new(pool);
    let shared = &pool;
    let (served, door_back) = thread::scope(
        thread::scope_env(),
        rt,
        move |scope| -> (
            (Result<(), ServeFault>, Admitted<D::Stream, K::Session>),
            &mut D,
        )
            ensures same { result.1.ghost_name ≡ door.entry.ghost_name }
            ensures failures { D.failures result.1.now
                ≡ D.failures door.entry.now + door_failures_in result.0.0 }
            ensures each { D.given result.1.now ≡ D.given door.entry.now + result.0.1 }
            ensures closed { IfBegun result.0.0 (D.closed result.1.now ≡ true) }
            ensures fault { IfErr result.0.0 (λ f. EndsAdmission K.stops f) }
        {
            let served = accept_all(rt, alloc, scope, office, keeping, shared, &mut *door, gate);
            (served, door)
        },
    );
    take_back(door_back);
    let (served, admitted) = served;
    if let Err(fault) = served {
        return (Err(fault), admitted);
    }
    (passes_back(pool.into_inner(), empty, &seats), admitted)
}

/// Serves the door's clients, as [`serve`] does, and counts them.
///
/// # Errors
///
/// As `serve`.
pub fn serve_each<N, H, R, D, G>(
    rt: &R,
    alloc: Global,
    office: &Office<N, H>,
    door: &mut D,
    passes: Vec<Pass<N>>,
    gate: &G,
) -> (
    Result<Vec<Pass<N>>, ServeFault>,
    Admitted<D::Stream, Uncovered>,
)
where
    N: OfficeName + Send + Sync,
    H: Wait + Drop + Send,
    R: Threads + Wait + Clock + Sync,
    D: Door,
    G: Gate + Sync,
    ensures served { ServesEach D.failures D.given D.closed passes.items door.old door.new result.1
        result.0 }
    ensures going { IsErrOf result.0 ServeFault.Keep → ⊥ }
{
    let served = serve_over(rt, alloc, office, &Uncovered, door, passes, gate);
    served
}

/// Serves the door's clients over a keeper, as [`serve_each`] does. A reply is written once all that
/// it was made from is on the disk. Once the log has failed, no client gets a reply any more: each
/// session ends as [`End::NotKept`](crate::End::NotKept) at its next line, and serving ends after
/// the next client.
///
/// # Errors
///
/// As `serve`, and `Keep` if the log has failed.
pub fn serve_kept<'k, N, L, H, R, D, G>(
    rt: &R,
    alloc: Global,
    office: &Office<N, H>,
    keeper: &'k Mutex<Keeper<N, L>>,
    door: &mut D,
    passes: Vec<Pass<N>>,
    gate: &G,
) -> (
    Result<Vec<Pass<N>>, ServeFault>,
    Admitted<D::Stream, KeptBy<'k, N, L>>,
)
where
    N: KeptName + Send + Sync,
    L: Log + Send + Drop,
    H: Wait + Drop + Send,
    R: Threads + Wait + Clock + Sync,
    D: Door,
    G: Gate + Sync,
    ensures served { ServesEach D.failures D.given D.closed passes.items door.old door.new result.1
        result.0 }
{
    let keeping = ByKeeper { keeper };
    let served = serve_over(rt, alloc, office, &keeping, door, passes, gate);
    served
}

/// Serves the door's clients until it closes, each on a thread of its own, at the lowest free seat.
/// A client who finds no free seat, or for whom there is no thread or no memory for replies, gets
/// `BUSY` and is turned away. When this returns, all sessions have ended. The passes come back in
/// order of seat.
///
/// # Errors
///
/// `Door` if the door fails, `Thread` if a seat doesn't come back, and `NoMemory` if an allocation
/// fails. What was committed stays. The passes are gone.
pub fn serve<N, H, R, D, G>(
    rt: &R,
    alloc: Global,
    office: &Office<N, H>,
    door: &mut D,
    passes: Vec<Pass<N>>,
    gate: &G,
) -> Result<Vec<Pass<N>>, ServeFault>
where
    N: OfficeName + Send + Sync,
    H: Wait + Drop + Send,
    R: Threads + Wait + Clock + Sync,
    D: Door,
    G: Gate + Sync,
    ensures seats { IfOk result (λ back. SeatsBack passes.items (seats_in back.items)) }
    ensures door { AskedDoor D.failures D.closed door.old door.new result }
    ensures going { IsErrOf result ServeFault.Keep → ⊥ }
{
    let (back, _) = serve_each(rt, alloc, office, door, passes, gate);
    back
}
