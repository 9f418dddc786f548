//! A number that only contracts see.
ghost use Rattle.std.specs.Prelude.{◌≡◌, ◌+◌};

use regatta_streams::Failures;
use std::marker::Model;

/// How often something was done. It takes no bytes: only contracts see the number.
#[derive(Drop)]
pub(crate) struct Count {
    times: Failures,
}

impl Model for Count {
    ghost use Rattle.std.specs.Prelude.{ℕ};

    ghost Value = { ℕ };

    ghost view = { λ c. c.times.count };
}

impl Count {
    /// Not yet.
    pub(crate) fn none() -> Count
        ensures { result ≡ 0 }
    {
        Count {
            times: Failures::none(),
        }
    }

    /// Once more.
    pub(crate) fn one_more(&self) -> Count
        ensures { result ≡ self.now + 1 }
    {
        Count {
            times: self.times.one_more(),
        }
    }
}
