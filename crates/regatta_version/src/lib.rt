//! The version of the programs, in one place for both.
#![tactic(auto)]

/// The version that `--version` prints, of both programs. It is that of the package in which they
/// come.
pub const VERSION: &str = "1.0";
