//! A number that only clauses read.
ghost use Rattle.std.specs.Prelude.{◌≡◌, ◌+◌, ℕ};
ghost use Rattle.std.specs.Borrow.{ftrue};

use std::marker::Model;

/// The number of a device's calls that have failed. Only contracts read it: it takes no bytes and
/// can't overflow.
#[derive(Drop)]
pub struct Failures {
    pub ghost count: { ℕ },
}

impl Model for Failures {
    ghost also_owns = { λ _. ftrue };
}

// It owns nothing.
unsafe impl Send for Failures {}

impl Failures {
    /// The count of a device without a failed call.
    pub fn none() -> Failures
        ensures { result.count ≡ 0 }
    {
        Failures {}
    }

    /// The count after one more failed call.
    pub fn one_more(&self) -> Failures
        ensures { result.count ≡ self.now.count + 1 }
    {
        Failures {}
    }
}
