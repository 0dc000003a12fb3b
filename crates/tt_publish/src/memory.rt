//! A clock in memory, for tests and for proofs over runs. It gives the readings of a list, and fails at a chosen call.

ghost use Rattle.std.specs.Prelude.{◌≡◌, ◌↔◌, ◌⊎◌, [], Some, None, OnOk, OnErr, IsErr, MatchResult};
ghost use Rattle.tt_stream.specs.Counts.{HasFailed, count_after};
ghost use Rattle.tt_publish.specs.Clock.{ClockState, GivesNext};

use crate::clocks::Clock;
use crate::faults::ClockFault;
use std::marker::Model;

/// A clock over readings in memory. It fails if no reading is left.
#[derive(Drop)]
pub struct MemoryClock<'a> {
    left: &'a [u64],
    fails_at: Option<u64>,
    calls: u64,
    failures: u64,
}

impl<'a> Model for MemoryClock<'a> {
    ghost Value = { ClockState };

    ghost view = { λ c. record { left = c.left.now; fails_at = c.fails_at; calls = c.calls; failures = c.failures } };
}

impl<'a> MemoryClock<'a> {
    /// A clock that gives these readings in order, in nanoseconds. Call number `fails_at`, counted from 1, fails and
    /// gives none of them. `None` names no call.
    pub fn new(readings: &'a [u64], fails_at: Option<u64>) -> Self
        ensures { result ≡ record { left = readings.entry.now; fails_at = fails_at; calls = 0; failures = 0 } }
    {
        MemoryClock {
            left: readings,
            fails_at,
            calls: 0,
            failures: 0,
        }
    }
}

impl<'a> Clock for MemoryClock<'a> {
    ghost gives = { GivesNext };

    ghost failed = { λ clock. clock.failures };

    /// Gives the next reading. Fails at call number `fails_at`, and if no reading is left.
    fn read(&mut self) -> Result<u64, ClockFault>
        ensures gave { MatchResult result (λ reading. GivesNext self.old (Some reading) self.new) (λ _. GivesNext self.old None self.new) }
        ensures sound { OnOk result (self.new.failures ≡ self.old.failures) }
        ensures cause { OnErr result (HasFailed self.old.failures self.new.failures) }

        ensures fails { IsErr result ↔ ((self.old.fails_at ≡ Some (count_after self.old.calls 1)) ⊎ (self.old.left ≡ [])) }
        ensures ok { OnOk result (self.new ≡ record self.old { left = self.new.left; calls = count_after self.old.calls 1 }) }
        ensures err { OnErr result (self.new ≡ record self.old { calls = count_after self.old.calls 1; failures = count_after self.old.failures 1 }) }
    {
        self.calls = self.calls.saturating_add(1);
        if self.fails_at != Some(self.calls) {
            if let Some((reading, rest)) = self.left.split_first() {
                self.left = rest;
                return Ok(*reading);
            }
        }
        self.failures = self.failures.saturating_add(1);
        Err(ClockFault::Failed)
    }

    fn failures(&self) -> u64 {
        self.failures
    }
}
