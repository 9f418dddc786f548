//! The abbreviation in a cell of the standing.
ghost use Rattle.std.specs.Prelude.{◌≡◌};
ghost use Rattle.regatta_scores.specs.RacePoints.{status_by};
ghost use Rattle.regatta_scores.specs.Marks.{mark_by};

use crate::sheet::Held;
use crate::table::Abbrev;
use regatta_terms::Code;

/// The abbreviation in the cell of a boat with these decisions (RRS A10); `placed` is whether she
/// is in the finishing order. It is RDG with redress, else her code, or DNC if she has neither a
/// code nor a place, else ZFP, else SCP, else none.
pub(crate) fn mark(held: &Held, placed: bool) -> Option<Abbrev>
    ensures { result ≡ mark_by held.now.redress (status_by held.now.code placed) held.now.zfp
        held.now.scp }
{
    if held.redress.is_some() {
        return Some(Abbrev::Rdg);
    }
    match held.code {
        Some(code) => Some(Abbrev::Code(code)),
        None if !placed => Some(Abbrev::Code(Code::Dnc)),
        None if held.zfp > 0 => Some(Abbrev::Zfp),
        None if held.scp > 0 => Some(Abbrev::Scp),
        None => None,
    }
}
