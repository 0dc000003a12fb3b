//! A count that stays at its greatest value once it is reached.

ghost use Rattle.std.specs.Prelude.{◌≡◌, ℕ};
ghost use Rattle.tt_stream.specs.Counts.{count_after};

use std::marker::Model;

/// How often something happened, at most 2^64 - 1.
#[derive(Clone, Copy)]
pub(crate) struct Count(u64);

impl Model for Count {
    ghost Value = { ℕ };

    ghost view = { λ count. count.0 };

    ghost inverse = { λ n. record { 0 = n } };
}

impl Count {
    pub(crate) fn zero() -> Count
        ensures { result ≡ 0 }
    {
        Count(0)
    }

    pub(crate) fn risen(self) -> Count
        ensures { result ≡ count_after self 1 }
    {
        let Count(before) = self;
        Count(before.saturating_add(1))
    }

    pub(crate) fn get(self) -> u64
        ensures { result ≡ self }
    {
        self.0
    }
}
