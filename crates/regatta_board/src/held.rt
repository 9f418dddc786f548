//! What a boat holds in a race, her code, penalties and redress, and one more decision on it.
ghost use Rattle.std.specs.Prelude.{◌≡◌, ◌<◌, ◌≤◌, Some};
ghost use Rattle.regatta_terms.specs.Effects.{Marks, Penalises, Redresses};
ghost use Rattle.regatta_scores.specs.Changes.{with_decision};
ghost use Rattle.regatta_board.specs.Refusals as refusals;

use regatta_scores::Held;
use regatta_terms::{Code, MAX_PENALTIES, PenaltyKind, Redress};

/// Whether she has a decision of the protest committee.
pub(crate) fn is_decided(held: &Held) -> bool
    ensures { result ≡ refusals.is_decided held.now }
{
    held.code.is_some_and(Code::takes_hearing) || held.redress.is_some()
}

pub(crate) fn penalties(kind: PenaltyKind, held: &Held) -> u8
    ensures { result ≡ refusals.penalties kind held.now }
{
    match kind {
        PenaltyKind::Zfp => held.zfp,
        PenaltyKind::Scp => held.scp,
    }
}

pub(crate) fn with_penalty(held: Held, kind: PenaltyKind) -> Held
    requires below { refusals.penalties kind held < MAX_PENALTIES }
    requires few { (held.zfp ≤ MAX_PENALTIES) × (held.scp ≤ MAX_PENALTIES) }
    ensures value { result ≡ with_decision held (Penalises kind) }
    ensures few { (result.zfp ≤ MAX_PENALTIES) × (result.scp ≤ MAX_PENALTIES) }
{
    match kind {
        PenaltyKind::Zfp => Held {
            zfp: held.zfp + 1,
            ..held
        },
        PenaltyKind::Scp => Held {
            scp: held.scp + 1,
            ..held
        },
    }
}

/// What she holds, with this code instead of any other.
pub(crate) fn with_code(held: Held, code: Code) -> Held
    ensures { result ≡ with_decision held (Marks code) }
{
    Held {
        code: Some(code),
        ..held
    }
}

/// What she holds, with this redress instead of any other.
pub(crate) fn with_redress(held: Held, redress: Redress) -> Held
    ensures { result ≡ with_decision held (Redresses redress) }
{
    Held {
        redress: Some(redress),
        ..held
    }
}
