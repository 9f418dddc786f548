//! Who keeps what clients are answered from.
ghost use Rattle.std.specs.Prelude.{◌≡◌, Bool, true, false, IfOk, IsTrue};
ghost use Rattle.regatta_service.specs.Keepings.{IsFresh};

use regatta_desk::OfficeName;
use regatta_keep::Log;
use regatta_keeper::{Covers, Keeper, KeptBy, KeptName, Uncovered};
use std::alloc::AllocError;
use std::sync::{Mutex, Wait};

/// Who keeps what the clients of an office are answered from: nobody, or a keeper.
pub(crate) trait Keeping<N: OfficeName> {
    /// Who covers the replies of one session.
    type Session: Covers<N> + Send + Drop;

    /// Whether it may stop.
    ghost stops: { Bool };

    /// Who covers the replies of a session that begins. Its book, if it has one, is empty.
    ///
    /// # Errors
    ///
    /// If memory runs out.
    fn begin<R: Wait>(&self, rt: &R) -> Result<Self::Session, AllocError>
        ensures fresh { IfOk result (λ s. IsFresh (Self.Session.book s)) }
        ensures well { IfOk result (λ s. Self.Session.refused s ≡ false) };

    /// Whether it has stopped: no reply is covered any more.
    fn has_stopped<R: Wait>(&self, rt: &R) -> bool
        ensures { IsTrue result → Self.stops ≡ true };
}

impl<N: OfficeName> Keeping<N> for Uncovered {
    type Session = Uncovered;

    ghost stops = { false };

    fn begin<R: Wait>(&self, _rt: &R) -> Result<Uncovered, AllocError> {
        Ok(Uncovered)
    }

    fn has_stopped<R: Wait>(&self, _rt: &R) -> bool {
        false
    }
}

/// The keeper of an office.
#[derive(Drop)]
pub(crate) struct ByKeeper<'k, N: KeptName, L: Log + Drop> {
    pub(crate) keeper: &'k Mutex<Keeper<N, L>>,
}

impl<'k, N: KeptName + Send, L: Log + Drop + Send> Keeping<N> for ByKeeper<'k, N, L> {
    type Session = KeptBy<'k, N, L>;

    ghost stops = { true };

    fn begin<R: Wait>(&self, rt: &R) -> Result<KeptBy<'k, N, L>, AllocError> {
        let session = KeptBy::new(rt, self.keeper)?;
        Ok(session)
    }

    fn has_stopped<R: Wait>(&self, rt: &R) -> bool {
        let guard = self.keeper.lock(rt);
        !guard.goes_on()
    }
}
