//! The kinds of decisions, and their words.

ghost use Rattle.std.specs.Prelude.{◌≡◌};
ghost use Rattle.regatta_rulings.specs.DecisionLines.{kind_of as kind_of_word};

use crate::words::is_keyword;

/// The kind of a decision.
#[derive(Clone, Copy, Debug, PartialEq, Eq)]
pub(crate) enum Kind {
    Dpi,
    Prp,
    T1,
    Scp,
    Tle,
    Nsc,
    Avg,
    Duty,
    Reinstate,
}

/// The kind that a word names, in letters of any case.
pub(crate) fn kind_of(word: &[u8]) -> Option<Kind>
    ensures { result ≡ kind_of_word word.now }
{
    if is_keyword(word, b"DPI") {
        Some(Kind::Dpi)
    } else if is_keyword(word, b"PRP") {
        Some(Kind::Prp)
    } else if is_keyword(word, b"T1") {
        Some(Kind::T1)
    } else if is_keyword(word, b"SCP") {
        Some(Kind::Scp)
    } else if is_keyword(word, b"TLE") {
        Some(Kind::Tle)
    } else if is_keyword(word, b"NSC") {
        Some(Kind::Nsc)
    } else if is_keyword(word, b"AVG") {
        Some(Kind::Avg)
    } else if is_keyword(word, b"DUTY") {
        Some(Kind::Duty)
    } else if is_keyword(word, b"REINSTATE") {
        Some(Kind::Reinstate)
    } else {
        None
    }
}
