//! Room for the replies of a session.
ghost use Rattle.std.specs.Prelude.{◌≡◌, false, IfOk};
ghost use Rattle.regatta_service.specs.Keepings.{IsFresh};

use crate::keeping::Keeping;
use regatta_desk::OfficeName;
use regatta_keeper::{Covers, ReplyRoom};
use std::alloc::{AllocError, Global};
use std::sync::Wait;

/// Shows that there was no memory for replies. It has no bytes, and only this file makes one.
#[derive(Drop)]
pub(crate) struct NoRoom {
    _made_here: (),
}

/// What a session needs: room for its replies, and who covers them.
///
/// # Errors
///
/// If there is no memory for them.
pub(crate) fn session_room<N: OfficeName, R: Wait, K: Keeping<N>>(
    rt: &R,
    alloc: Global,
    keeping: &K,
) -> Result<(ReplyRoom, K::Session), NoRoom>
    ensures fresh { IfOk result (λ made. IsFresh (K.Session.book made.1)) }
    ensures well { IfOk result (λ made. K.Session.refused made.1 ≡ false) }
{
    let Ok(room) = ReplyRoom::new(alloc) else {
        return Err(NoRoom { _made_here: () });
    };
    match keeping.begin(rt) {
        Ok(covers) => Ok((room, covers)),
        Err(AllocError) => Err(NoRoom { _made_here: () }),
    }
}
