//! How each code is scored.
ghost use Rattle.std.specs.Prelude.{◌≡◌, ◌+◌, ◌*◌, ◌≤◌, ℕ, Some};
ghost use Rattle.regatta_terms.specs.declared.limits.TheConstants.{MAX_BOATS};
ghost use Rattle.regatta_scores.specs.RacePoints.{Coded, base_by, came as came_by};
ghost use Rattle.regatta_scores.specs.RacePoints.{is_dne as is_dne_by};

use regatta_terms::Code;

/// Whether a boat with this code came to the starting area (RRS A5.3).
pub(crate) fn came(code: Code) -> bool
    ensures { result ≡ came_by (Coded code) }
{
    match code {
        Code::Dnc => false,
        Code::Dns => true,
        Code::Ocs => true,
        Code::Ufd => true,
        Code::Bfd => true,
        Code::Dnf => true,
        Code::Ret => true,
        Code::Dsq => true,
        Code::Dne => true,
    }
}

/// The score of a boat with this code, in whole points (RRS A5.2, A5.3).
pub(crate) fn coded_points(code: Code, entered: u32, dnf: u32) -> u32
    requires entered { entered ≤ MAX_BOATS }
    requires dnf { dnf ≤ MAX_BOATS + 1 }
    ensures value { (place_points : ℕ) → 10 * result ≡ base_by (Coded code) place_points entered dnf }
    ensures bound { result ≤ MAX_BOATS + 1 }
{
    match code {
        Code::Dnc => entered + 1,
        Code::Dns => dnf,
        Code::Ocs => dnf,
        Code::Ufd => dnf,
        Code::Bfd => dnf,
        Code::Dnf => dnf,
        Code::Ret => dnf,
        Code::Dsq => dnf,
        Code::Dne => dnf,
    }
}

/// Whether the code is a disqualification that is not excludable (RRS 90.3(b)).
pub(crate) fn is_dne(code: Code) -> bool
    ensures { result ≡ is_dne_by (Some code) }
{
    match code {
        Code::Dnc => false,
        Code::Dns => false,
        Code::Ocs => false,
        Code::Ufd => false,
        Code::Bfd => false,
        Code::Dnf => false,
        Code::Ret => false,
        Code::Dsq => false,
        Code::Dne => true,
    }
}
