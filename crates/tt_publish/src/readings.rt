//! Readings of the time.

ghost use Rattle.std.specs.Prelude.{◌≡◌, ◌↔◌, IsTrue, IsOk, IfOk, IsErrOf};
ghost use Rattle.tt_span.specs.Interval.{IsInterval};
ghost use Rattle.tt_publish.specs.declared.readings.FusedSpan.{FusedSpan};
ghost use Rattle.tt_publish.specs.Reading.{HasPassed, IsToCome, CanBeReadAt, reading_at, fused_span_of};

use crate::faults::ReadFault;
use std::marker::Model;
use tt_daemon::Fused;
use tt_span::{Drift, MAX_TIME, Span};

/// An interval that holds the true time, in nanoseconds, as `TT.now()` gives it.
#[derive(Clone, Copy, Debug, PartialEq, Eq)]
pub struct Reading {
    span: Span,
}

impl Model for Reading {
    ghost use Rattle.tt_span.specs.Interval.{Interval};

    ghost Value = { Interval };

    ghost view = { λ r. r.span };

    ghost inverse = { λ i. record { span = i } };
}

impl Reading {
    /// The reading of a span.
    pub fn of(span: Span) -> Reading
        ensures { result ≡ span }
    {
        Reading { span }
    }

    /// The earliest that the true time may be, in nanoseconds.
    pub fn earliest(&self) -> u64
        ensures value { result ≡ self.now.lo }
        ensures valid { IsInterval self.now }
    {
        self.span.lo()
    }

    /// The latest that the true time may be, in nanoseconds.
    pub fn latest(&self) -> u64
        ensures value { result ≡ self.now.hi }
        ensures valid { IsInterval self.now }
    {
        self.span.hi()
    }

    /// Whether the time `t`, in nanoseconds, has surely passed, as `TT.after(t)`: it is below the earliest.
    pub fn after(&self, t: u64) -> bool
        ensures { IsTrue result ↔ HasPassed self.now t }
    {
        t < self.earliest()
    }

    /// Whether the time `t`, in nanoseconds, has surely not arrived, as `TT.before(t)`: it is above the latest.
    pub fn before(&self, t: u64) -> bool
        ensures { IsTrue result ↔ IsToCome self.now t }
    {
        self.latest() < t
    }
}

/// What is read of a fusion: the fused span, and what the clock showed when it was fused, in nanoseconds.
#[derive(Clone, Copy, Debug, PartialEq, Eq)]
pub struct FusedSpan {
    pub clock: u64,
    pub span: Span,
}

impl FusedSpan {
    /// The reading when the clock shows `clock`, in nanoseconds, on a machine whose clock has this drift: the fused
    /// span, aged by what the clock has gone on since the fusion. Refuses with 802 `ClockBack` if `clock` is below the
    /// clock reading of the fusion, or above [`MAX_TIME`].
    pub fn read_at(&self, drift: Drift, clock: u64) -> Result<Reading, ReadFault>
        ensures answered { IsOk result ↔ CanBeReadAt self.now clock }
        ensures value { IfOk result (λ reading. reading ≡ reading_at drift self.now clock) }
        ensures clock_back { IsErrOf result ReadFault.ClockBack ↔ (¬ CanBeReadAt self.now clock) }
    {
        if clock < self.clock || clock > MAX_TIME {
            return Err(ReadFault::ClockBack);
        }
        Ok(Reading::of(drift.age(&self.span, clock - self.clock)))
    }
}

/// A fusion with its certificate, which can be read at a clock reading.
pub trait ReadAt {
    /// What is read of it.
    ghost fused_span: { Self → FusedSpan };

    /// The reading when the clock shows `clock`, as [`FusedSpan::read_at`] gives it.
    fn read_at(&self, drift: Drift, clock: u64) -> Result<Reading, ReadFault>
        ensures answered { IsOk result ↔ CanBeReadAt (fused_span self.now) clock }
        ensures value { IfOk result (λ reading. reading ≡ reading_at drift (fused_span self.now) clock) }
        ensures clock_back { IsErrOf result ReadFault.ClockBack ↔ (¬ CanBeReadAt (fused_span self.now) clock) };
}

impl ReadAt for Fused {
    ghost fused_span = { λ fused. fused_span_of fused };

    fn read_at(&self, drift: Drift, clock: u64) -> Result<Reading, ReadFault> {
        let read = FusedSpan {
            clock: self.clock(),
            span: self.span(),
        };
        read.read_at(drift, clock)
    }
}
