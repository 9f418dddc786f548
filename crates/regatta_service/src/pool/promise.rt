//! What a thread promises of its client.
ghost use Rattle.std.specs.Prelude.{◌≡◌, ◌≢◌, IfOk, IfErr};
ghost use Rattle.regatta_service.specs.Keepings.{IsFresh};
ghost use Rattle.regatta_service.specs.Partings.{IsServed, IsTurnedAway};

use crate::pool::{Gone, Lack, Seated, TurnedAway};
use regatta_desk::{OfficeName, Pass};
use regatta_keeper::Covers;
use regatta_streams::{Device, Sink, Source};
use std::snapshot::Snapshot;
use std::thread::Promise;

/// How a client was parted with: they had a session and their pass is back, or they were turned
/// away. The stream itself is closed by then.
pub(crate) type Parted<N, S, C> = Result<Gone<N, S, C>, TurnedAway<S>>;

/// What a thread promises when it is given a client: they have a session with the pass that is lent
/// to them and give it back, or are turned away for lack of a thread or of memory. Only
/// `Seated::promise` makes one.
#[derive(Drop)]
pub(crate) struct Serves<N: OfficeName, S> {
    given: Snapshot<S>,
    lent: Snapshot<Pass<N>>,
}

impl<N, S, C> Promise<Parted<N, S, C>> for Serves<N, S>
where
    N: OfficeName,
    S: Source + Sink,
    C: Covers<N>,
{
    ghost use Rattle.regatta_service.specs.declared.pool.Lack.{Lack};

    ghost kept_by = { λ promise parted.
        IfOk parted (λ gone. (gone.ended.given.value ≡ promise.given.value)
        × (gone.ended.before.value ≡ promise.lent.value)
        × IsFresh (C.book gone.ended.begun.value)
        × IsServed N.rules S.remaining S.contents S.failures S.failed_reads promise.given.value
        gone.ended.left.value promise.lent.value gone.ended.after.value
        (C.book gone.ended.begun.value) (C.book gone.ended.covers)
        (C.refused gone.ended.covers) gone.ended.end)
        × IfErr parted (λ away. (away.given.value ≡ promise.given.value)
        × (away.why ≢ Lack.Seat)
        × IsTurnedAway S.remaining S.contents S.failures S.failed_reads
        promise.given.value away.left.value) };
}

impl<N: OfficeName, S> Seated<N, S> {
    /// What a thread promises when it is given this client.
    pub(crate) fn promise(&self) -> Serves<N, S>
        ensures given { result.given.value ≡ self.now.stream }
        ensures lent { result.lent.value ≡ self.now.pass }
    {
        Serves {
            given: Snapshot::of(&self.stream),
            lent: Snapshot::of(&self.pass),
        }
    }
}
