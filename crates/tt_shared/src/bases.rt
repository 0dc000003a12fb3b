//! The bases of a publication: fused spans, and what a reader needs to age them.

ghost use Rattle.std.specs.Prelude.{◌≡◌, ◌<◌, ◌≤◌, ◌⊎◌, IfOk, IfErr};
ghost use Rattle.tt_publish.specs.Reading.{CanBeReadAt, reading_at};
ghost use Rattle.tt_shared.specs.declared.faults.SharedFault.TheVariants.{ClockBack, TooWide};
ghost use Rattle.tt_shared.specs.Slot.{no_base};

use crate::faults::SharedFault;
use tt_publish::{FusedSpan, Reading};
use tt_span::{Drift, Span};

/// A fused span, and the drift of the clock by which it was fused.
#[derive(Clone, Copy)]
pub(crate) struct Base {
    pub(crate) fused: FusedSpan,
    pub(crate) drift: Drift,
}

/// The second base of a publication: by `CLOCK_MONOTONIC`, for readers that cannot read the clock of the file.
#[derive(Clone, Copy, Debug, PartialEq, Eq)]
pub struct SlewedBase {
    /// A span, and the reading of `CLOCK_MONOTONIC` at which it held the true time, in nanoseconds.
    pub fused: FusedSpan,
    /// The drift of `CLOCK_MONOTONIC` since then.
    pub drift: Drift,
    /// The last reading of `CLOCK_MONOTONIC` at which it is fresh, in nanoseconds.
    pub valid_until: u64,
    /// The last reading of `CLOCK_MONOTONIC` at which a reader may use it, in nanoseconds. 2^64 - 1: there is no limit. 0:
    /// there is no second base.
    pub usable_until: u64,
}

impl SlewedBase {
    /// No second base: all its numbers are 0.
    pub fn none() -> SlewedBase
        ensures { result ≡ no_base }
    {
        SlewedBase {
            fused: FusedSpan {
                clock: 0,
                span: Span::new(0, 0).unwrap(),
            },
            drift: Drift::new(0).unwrap(),
            valid_until: 0,
            usable_until: 0,
        }
    }

    /// The reading when `CLOCK_MONOTONIC` shows `clock`, in nanoseconds: the span, aged by what that clock has gone on since.
    /// Refuses, in this order: 802 `ClockBack` where `clock` is below the clock of this base, or above the greatest time;
    /// 1708 `TooWide` where it is above `usable_until`.
    pub(crate) fn read_at(&self, clock: u64) -> Result<Reading, SharedFault>
        ensures read { IfOk result (λ reading. CanBeReadAt self.now.fused clock × (clock ≤ self.now.usable_until)
            × (reading ≡ reading_at self.now.drift self.now.fused clock)) }
        ensures refused { IfErr result (λ fault. ((fault ≡ ClockBack) × (CanBeReadAt self.now.fused clock → ⊥))
            ⊎ ((fault ≡ TooWide) × CanBeReadAt self.now.fused clock × (self.now.usable_until < clock))) }
    {
        read_until(&self.fused, self.drift, self.usable_until, clock)
    }
}

/// The reading of a fused span when its clock, of this drift, shows `clock`, in nanoseconds. It may be used up to the
/// reading `usable_until`. Refuses, in this order: 802 `ClockBack` where `clock` is below the clock of the span, or above
/// the greatest time; 1708 `TooWide` where it is above `usable_until`.
pub(crate) fn read_until(
    fused: &FusedSpan,
    drift: Drift,
    usable_until: u64,
    clock: u64,
) -> Result<Reading, SharedFault>
    ensures read { IfOk result (λ reading. CanBeReadAt fused.now clock × (clock ≤ usable_until) × (reading ≡ reading_at drift fused.now clock)) }
    ensures refused { IfErr result (λ fault. ((fault ≡ ClockBack) × (CanBeReadAt fused.now clock → ⊥))
        ⊎ ((fault ≡ TooWide) × CanBeReadAt fused.now clock × (usable_until < clock))) }
{
    let Ok(reading) = fused.read_at(drift, clock) else {
        return Err(SharedFault::ClockBack);
    };
    if clock > usable_until {
        return Err(SharedFault::TooWide);
    }
    Ok(reading)
}
