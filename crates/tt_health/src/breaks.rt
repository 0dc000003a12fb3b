//! Publications that do not meet.

ghost use Rattle.std.specs.Prelude.{◌≡◌, ◌-◌, ◌≤◌, ◌↔◌, IsTrue, false};
ghost use Rattle.tt_span.specs.Time.{cut, max_time};
ghost use Rattle.tt_span.specs.Interval.{IsInterval, Meets};
ghost use Rattle.tt_span.specs.Drift.{aged};
ghost use Rattle.tt_publish.specs.Reading.{CanBeReadAt, reading_at};
ghost use Rattle.tt_health.specs.Break.{IsUnmet};

use tt_publish::FusedSpan;
use tt_span::{Drift, MAX_TIME, Span};

/// The span of the last publication when the clock shows `clock`, in nanoseconds: aged by what the clock has gone on
/// since, as a reading of it is. Where `clock` is below the clock of the publication, it is aged by nothing; it is never
/// aged by more than [`MAX_TIME`].
pub fn aged_last(last: &FusedSpan, drift: Drift, clock: u64) -> Span
    ensures value { result ≡ aged drift last.now.span (cut (clock - last.now.clock)) }
    ensures reading { clock ≤ max_time → result ≡ reading_at drift last.now clock }
    ensures valid { IsInterval result }
{
    drift.age(&last.span, clock.saturating_sub(last.clock).min(MAX_TIME))
}

/// Whether a publication meets the last one of the same life: some time lies in both its span and the last one's, aged
/// to the clock reading of the new one by the drift of the machine. Two publications of one life that do not meet prove
/// that an assumption on this life is broken (the laws `meeting_laws` of `tt_consistency`).
///
/// True also where the clock of the new one is below that of the last, or above [`MAX_TIME`]: no publication has such a
/// clock, and nothing can be told by it.
pub fn meets_last(last: &FusedSpan, drift: Drift, fused: &FusedSpan) -> bool
    // What `MeetsAged` of tt_world says of two publications, and `HasUnmet`, which `unmet_breaks` begins with.
    ensures meets { IsTrue result ↔ (CanBeReadAt last.now fused.now.clock → Meets (reading_at drift last.now fused.now.clock) fused.now.span) }
    ensures unmet { (result ≡ false) ↔ IsUnmet drift last.now fused.now }
{
    if fused.clock < last.clock || fused.clock > MAX_TIME {
        return true;
    }
    aged_last(last, drift, fused.clock).meets(&fused.span)
}
