//! What each code and each kind of penalty means.

ghost use Rattle.std.specs.Prelude.{◌≡◌};
ghost use Rattle.regatta_scores.specs.RacePoints.{Coded, came as came_by};
ghost use Rattle.regatta_words.specs.Meanings.{scored_text, is_breach as breaks_rule};
ghost use Rattle.regatta_words.specs.Meanings.{meaning as meaning_of, rule as rule_of};
ghost use Rattle.regatta_words.specs.Meanings.{kind_meaning as meaning_of_kind};
ghost use Rattle.regatta_words.specs.Meanings.{can_be_excluded, kind_rule as rule_of_kind};

use regatta_terms::{Code, PenaltyKind};

/// The meaning of a code, in a few words (RRS A10).
pub(crate) fn meaning(code: Code) -> &'static [u8]
    ensures { result.now ≡ meaning_of code }
{
    match code {
        Code::Dnc => b"did not come to the starting area",
        Code::Dns => b"did not start",
        Code::Ocs => b"on the course side at the start",
        Code::Ufd => b"broke the flag U rule",
        Code::Bfd => b"broke the black flag rule",
        Code::Dnf => b"did not finish",
        Code::Ret => b"retired",
        Code::Dsq => b"disqualified",
        Code::Dne => b"disqualified; the score can't be excluded",
    }
}

/// The rules that a code is about, if its abbreviation names none other than RRS A10.
pub(crate) fn rule(code: Code) -> &'static [u8]
    ensures { result.now ≡ rule_of code }
{
    match code {
        Code::Dnc => b"A10",
        Code::Dns => b"A10",
        Code::Ocs => b"28.1, 30.1",
        Code::Ufd => b"30.3",
        Code::Bfd => b"30.4",
        Code::Dnf => b"A10",
        Code::Ret => b"A10",
        Code::Dsq => b"A10",
        Code::Dne => b"90.3(b)",
    }
}

/// Whether a boat with this code broke a rule.
pub(crate) fn is_breach(code: Code) -> bool
    ensures { result ≡ breaks_rule code }
{
    match code {
        Code::Dnc => false,
        Code::Dns => false,
        Code::Ocs => true,
        Code::Ufd => true,
        Code::Bfd => true,
        Code::Dnf => false,
        Code::Ret => false,
        Code::Dsq => true,
        Code::Dne => true,
    }
}

/// Whether a boat with this code came to the starting area (RRS A5.3).
pub(crate) fn came(code: Code) -> bool
    ensures { result ≡ came_by (Coded code) }
{
    match code {
        Code::Dnc => false,
        Code::Dns => true,
        Code::Ocs => true,
        Code::Ufd => true,
        Code::Bfd => true,
        Code::Dnf => true,
        Code::Ret => true,
        Code::Dsq => true,
        Code::Dne => true,
    }
}

/// `DNC` or `DNF`: a boat with this code has the points of a boat with that one (RRS A5.2, A5.3).
#[tactic(auto, unfolding(crate::specs::Meanings::scored_text))]
pub(crate) fn scores_as(code: Code) -> &'static [u8]
    ensures { result.now ≡ scored_text code }
{
    match code {
        Code::Dnc => b"DNC",
        Code::Dns => b"DNF",
        Code::Ocs => b"DNF",
        Code::Ufd => b"DNF",
        Code::Bfd => b"DNF",
        Code::Dnf => b"DNF",
        Code::Ret => b"DNF",
        Code::Dsq => b"DNF",
        Code::Dne => b"DNF",
    }
}

/// Whether a score by this code can be excluded (RRS A2.1, 90.3(b)).
#[tactic(auto, unfolding(crate::specs::Meanings::can_be_excluded))]
pub(crate) fn is_excludable(code: Code) -> bool
    ensures { result ≡ can_be_excluded code }
{
    match code {
        Code::Dnc => true,
        Code::Dns => true,
        Code::Ocs => true,
        Code::Ufd => true,
        Code::Bfd => true,
        Code::Dnf => true,
        Code::Ret => true,
        Code::Dsq => true,
        Code::Dne => false,
    }
}

/// The meaning of a kind of penalty.
pub(crate) fn kind_meaning(kind: PenaltyKind) -> &'static [u8]
    ensures { result.now ≡ meaning_of_kind kind }
{
    match kind {
        PenaltyKind::Zfp => b"20% penalty for breaking rule 30.2",
        PenaltyKind::Scp => b"Scoring Penalty",
    }
}

/// The rule that a kind of penalty is about.
pub(crate) fn kind_rule(kind: PenaltyKind) -> &'static [u8]
    ensures { result.now ≡ rule_of_kind kind }
{
    match kind {
        PenaltyKind::Zfp => b"30.2",
        PenaltyKind::Scp => b"44.3",
    }
}
