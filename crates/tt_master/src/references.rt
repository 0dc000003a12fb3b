//! References that count their failures.

ghost use Rattle.std.specs.Prelude.{◌≡◌, ◌≤◌, ℕ, Option, Some, None, IfOk, OnOk, OnErr, MatchResult};
ghost use Rattle.tt_span.specs.Time.{max_time};
ghost use Rattle.tt_stream.specs.Counts.{HasFailed};

use crate::faults::RefFault;

/// The device from which a master reads the time.
pub trait Reference {
    /// The reference before a call, what the call gave, and the reference after it. A reference that keeps a list of
    /// its times names the next one here; a real device claims nothing.
    ghost gives: { Self → Option ℕ → Self → Type 0 };

    /// Its failures so far. The count stays at 2^64 - 1 once it is reached.
    ghost failed: { Self → ℕ };

    /// The time, in nanoseconds, at most `MAX_TIME`. A fault is answered only if the reference failed.
    fn read(&mut self) -> Result<u64, RefFault>
        ensures gave { MatchResult result (λ time. gives self.old (Some time) self.new) (λ _. gives self.old None self.new) }
        ensures in_time { IfOk result (λ time. time ≤ max_time) }
        ensures sound { OnOk result (failed self.new ≡ failed self.old) }
        ensures cause { OnErr result (HasFailed (failed self.old) (failed self.new)) };

    /// Its failures so far, at most 2^64 - 1.
    fn failures(&self) -> u64
        ensures { result ≡ failed self.now };
}
