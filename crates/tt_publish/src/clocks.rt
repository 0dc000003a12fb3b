//! Clocks that count their failures.

ghost use Rattle.std.specs.Prelude.{◌≡◌, ℕ, Option, Some, None, OnOk, OnErr, MatchResult};
ghost use Rattle.tt_stream.specs.Counts.{HasFailed};

use crate::faults::ClockFault;

/// A machine's clock.
pub trait Clock {
    /// What a call gave: the clock before the call, the reading or None, and the clock after the call. A clock that
    /// keeps a list of its readings names the next one here. A real clock claims nothing.
    ghost gives: { Self → Option ℕ → Self → Type 0 };

    /// Its failures so far. The count stays at 2^64 - 1 once it is reached.
    ghost failed: { Self → ℕ };

    /// What the clock shows, in nanoseconds. A fault is answered only if the clock failed.
    fn read(&mut self) -> Result<u64, ClockFault>
        ensures gave { MatchResult result (λ reading. gives self.old (Some reading) self.new) (λ _. gives self.old None self.new) }
        ensures sound { OnOk result (failed self.new ≡ failed self.old) }
        ensures cause { OnErr result (HasFailed (failed self.old) (failed self.new)) };

    /// Its failures so far, at most 2^64 - 1.
    fn failures(&self) -> u64
        ensures { result ≡ failed self.now };
}
