//! A reference in memory, for tests and for proofs over runs: it gives the times of a list, and fails when it is told
//! to.

ghost use Rattle.std.specs.Prelude.{◌≡◌, ◌≤◌, ◌↔◌, ◌⊎◌, Some, None, OnOk, OnErr, IfOk, IsErr, MatchResult};
ghost use Rattle.tt_span.specs.Time.{max_time};
ghost use Rattle.tt_stream.specs.Counts.{HasFailed, count_after};
ghost use Rattle.tt_master.specs.Reference.{ReferenceState, GivesNext, HasNoTime};

use crate::faults::RefFault;
use crate::references::Reference;
use std::marker::Model;
use tt_span::MAX_TIME;

/// A reference over times in memory.
#[derive(Drop)]
pub struct MemoryReference<'a> {
    left: &'a [u64],
    fails_at: Option<u64>,
    calls: u64,
    failures: u64,
}

impl<'a> Model for MemoryReference<'a> {
    ghost Value = { ReferenceState };

    ghost view = { λ r. record { left = r.left.now; fails_at = r.fails_at; calls = r.calls; failures = r.failures } };
}

impl<'a> MemoryReference<'a> {
    /// A reference that gives these times one after the other, in nanoseconds. Its call number `fails_at`, counted from
    /// 1, fails and takes no time of the list; with `None` no call does. It also fails if no time is left, or if the
    /// next one is above `MAX_TIME`.
    pub fn new(times: &'a [u64], fails_at: Option<u64>) -> Self
        ensures { result ≡ record { left = times.entry.now; fails_at = fails_at; calls = 0; failures = 0 } }
    {
        MemoryReference {
            left: times,
            fails_at,
            calls: 0,
            failures: 0,
        }
    }
}

impl<'a> Reference for MemoryReference<'a> {
    ghost gives = { GivesNext };

    ghost failed = { λ reference. reference.failures };

    /// The next time. Fails at the call that is to fail, if no time is left, and if the next one is above `MAX_TIME`.
    fn read(&mut self) -> Result<u64, RefFault>
        ensures gave { MatchResult result (λ time. GivesNext self.old (Some time) self.new) (λ _. GivesNext self.old None self.new) }
        ensures in_time { IfOk result (λ time. time ≤ max_time) }
        ensures sound { OnOk result (self.new.failures ≡ self.old.failures) }
        ensures cause { OnErr result (HasFailed self.old.failures self.new.failures) }

        ensures fails { IsErr result ↔ ((self.old.fails_at ≡ Some (count_after self.old.calls 1)) ⊎ HasNoTime self.old.left) }
        ensures ok { OnOk result (self.new ≡ record self.old { left = self.new.left; calls = count_after self.old.calls 1 }) }
        ensures err { OnErr result (self.new ≡ record self.old { calls = count_after self.old.calls 1; failures = count_after self.old.failures 1 }) }
    {
        self.calls = self.calls.saturating_add(1);
        if self.fails_at != Some(self.calls) {
            if let Some((time, rest)) = self.left.split_first() {
                if *time <= MAX_TIME {
                    self.left = rest;
                    return Ok(*time);
                }
            }
        }
        self.failures = self.failures.saturating_add(1);
        Err(RefFault::Failed)
    }

    fn failures(&self) -> u64 {
        self.failures
    }
}
