//! Clients who are turned away.
ghost use Rattle.std.specs.Prelude.{◌≡◌};
ghost use Rattle.regatta_service.specs.Partings.{IsTurnedAway};

use crate::connection::BUSY;
use crate::pool::{Lack, Unseated};
use regatta_streams::{Device, Sink, Source, write_all};
use std::snapshot::Snapshot;

/// A client who was told that there is no seat: what there was none of, and the stream as it was
/// before and after. Only `turn_away` makes one, of an unseated client.
#[derive(Drop)]
pub(crate) struct TurnedAway<S> {
    why: Lack,
    given: Snapshot<S>,
    left: Snapshot<S>,
}

impl<S: Source + Sink + Drop> Unseated<S> {
    /// Tells the client that there is no seat. Whether they read it changes nothing.
    pub(crate) fn turn_away(self) -> TurnedAway<S>
        ensures why { result.why ≡ self.why }
        ensures given { result.given.value ≡ self.stream }
        ensures told { IsTurnedAway S.remaining S.contents S.failures S.failed_reads self.stream
            result.left.value }
    {
        let Unseated { stream, why } = self;
        let mut stream = stream;
        let given = Snapshot::of(&stream);
        let _ = write_all(&mut stream, BUSY);
        TurnedAway {
            why,
            given,
            left: Snapshot::of(&stream),
        }
    }
}
