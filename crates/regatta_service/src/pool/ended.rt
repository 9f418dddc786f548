//! The session of a client who has a pass.
ghost use Rattle.std.specs.Prelude.{◌≡◌};
ghost use Rattle.regatta_service.specs.Partings.{IsServed};

use crate::gate::Gate;
use crate::pool::Seated;
use crate::sessions::{End, session_with};
use regatta_desk::{Office, OfficeName, Pass};
use regatta_keeper::{Covers, Outlet, ReplyRoom};
use regatta_streams::Device;
use std::snapshot::Snapshot;
use std::sync::Wait;

/// A session at the desk of N's office that has ended: how, its stream and its pass as they were
/// before and after, and who covered its replies, as they were when it began and as they are. Only
/// this file makes one, of a session that it ran.
#[derive(Drop)]
pub(crate) struct Ended<N: OfficeName, S, C> {
    end: End,
    given: Snapshot<S>,
    left: Snapshot<S>,
    before: Snapshot<Pass<N>>,
    after: Snapshot<Pass<N>>,
    begun: Snapshot<C>,
    covers: C,
}

/// Serves a client, as [`session_kept`](crate::session_kept) does, with room for replies, and then calls
/// `Gate::ended`.
fn ended_session<N, H, R, C, S, G>(
    rt: &R,
    room: ReplyRoom,
    stream: &mut S,
    office: &Office<N, H>,
    pass: &mut Pass<N>,
    gate: &G,
    covers: C,
) -> Ended<N, S, C>
where
    N: OfficeName,
    H: Wait + Drop,
    R: Wait,
    C: Covers<N> + Drop,
    S: Outlet<C>,
    G: Gate,
    ensures given { result.given.value ≡ stream.old }
    ensures left { result.left.value ≡ stream.new }
    ensures before { result.before.value ≡ pass.old }
    ensures after { result.after.value ≡ pass.new }
    ensures begun { result.begun.value ≡ covers }
    ensures served { IsServed N.rules S.remaining S.contents S.failures S.failed_reads stream.old
        stream.new pass.old pass.new (C.book covers) (C.book result.covers)
        (C.refused result.covers) result.end }
{
    let mut covers = covers;
    let begun = Snapshot::of(&covers);
    let given = Snapshot::of(&*stream);
    let before = Snapshot::of(&*pass);
    let end = session_with(rt, room, stream, office, pass, gate, &mut covers);
    gate.ended(pass.seat(), end);
    Ended {
        end,
        given,
        left: Snapshot::of(&*stream),
        before,
        after: Snapshot::of(&*pass),
        begun,
        covers,
    }
}

impl<N: OfficeName, S> Seated<N, S> {
    /// Serves the client with their pass, and then calls `Gate::ended`.
    pub(crate) fn serve<H: Wait + Drop, R: Wait, C: Covers<N> + Drop, G: Gate>(
        &mut self,
        rt: &R,
        room: ReplyRoom,
        office: &Office<N, H>,
        gate: &G,
        covers: C,
    ) -> Ended<N, S, C>
    where
        S: Outlet<C>,
        ensures slot { self.new.slot ≡ self.old.slot }
        ensures stream { (result.given.value ≡ self.old.stream)
            × (result.left.value ≡ self.new.stream) }
        ensures pass { (result.before.value ≡ self.old.pass)
            × (result.after.value ≡ self.new.pass) }
        ensures begun { result.begun.value ≡ covers }
        ensures served { IsServed N.rules S.remaining S.contents S.failures S.failed_reads
            self.old.stream self.new.stream self.old.pass self.new.pass (C.book covers)
            (C.book result.covers) (C.refused result.covers) result.end }
    {
        ended_session(
            rt,
            room,
            &mut self.stream,
            office,
            &mut self.pass,
            gate,
            covers,
        )
    }
}
