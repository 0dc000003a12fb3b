//! Closed intervals of time.

ghost use Rattle.std.specs.Prelude.{◌≡◌, ◌+◌, ◌<◌, ◌≤◌, ◌↔◌, IsTrue, IsOk, IfOk, IsErrOf, MatchOption};
ghost use Rattle.tt_span.specs.Time.{max_time};
ghost use Rattle.tt_span.specs.Interval.{Interval, IsInterval, whole as whole_of_time, Holds, Meets, Within, IsHull, IsIntersection};
ghost use Rattle.tt_span.specs.Fault.{number_of};

use std::marker::Model;
use thiserror::Error;

/// The greatest time and the greatest clock reading: 4 * 10^18 nanoseconds, some 126 years.
pub const MAX_TIME: u64 = 4_000_000_000_000_000_000;

/// Why two numbers are not the ends of a span.
#[derive(Clone, Copy, Debug, PartialEq, Eq, Error)]
pub enum SpanFault {
    #[error("the lower end is above the upper end")]
    Backwards,
    #[error("the upper end is above the greatest time")]
    PastMax,
}

impl SpanFault {
    /// The fault's number: 101 for `Backwards`, 102 for `PastMax`.
    pub fn number(&self) -> u16
        ensures { result ≡ number_of self.now }
    {
        match self {
            SpanFault::Backwards => 101,
            SpanFault::PastMax => 102,
        }
    }
}

/// A closed interval of time, in nanoseconds: its ends are in order, and the upper one is at most [`MAX_TIME`].
#[derive(Clone, Copy, Debug, PartialEq, Eq)]
pub struct Span {
    lo: u64,
    hi: u64,
}

impl Model for Span {
    ghost use Rattle.tt_span.specs.Interval.{Interval, IsInterval};

    ghost Value = { Interval };

    ghost view = { λ s. record { lo = s.lo; hi = s.hi } };

    ghost invariant = { λ s. IsInterval (record { lo = s.lo; hi = s.hi }) };

    ghost inverse = { λ i. record { lo = i.lo; hi = i.hi } };
}

impl Span {
    /// The span from `lo` to `hi`, both in nanoseconds. Refuses, in this order: 101 `Backwards` where `hi` is
    /// below `lo`, 102 `PastMax` where `hi` is above [`MAX_TIME`].
    pub fn new(lo: u64, hi: u64) -> Result<Span, SpanFault>
        ensures taken { IsOk result ↔ ((lo ≤ hi) × (hi ≤ max_time)) }
        ensures value { IfOk result (λ s. s ≡ record { lo = lo; hi = hi }) }
        ensures backwards { IsErrOf result SpanFault.Backwards ↔ (hi < lo) }
        ensures past_max { IsErrOf result SpanFault.PastMax ↔ ((lo ≤ hi) × (max_time < hi)) }
    {
        if hi < lo {
            return Err(SpanFault::Backwards);
        }
        if hi > MAX_TIME {
            return Err(SpanFault::PastMax);
        }
        Ok(Span { lo, hi })
    }

    /// The span of two ends that are in order, the upper one at most [`MAX_TIME`].
    pub(crate) fn between(lo: u64, hi: u64) -> Span
        requires ordered { lo ≤ hi }
        requires in_time { hi ≤ max_time }
        ensures { result ≡ record { lo = lo; hi = hi } }
    {
        Span { lo, hi }
    }

    /// The span that holds every time, from 0 to [`MAX_TIME`].
    pub fn whole() -> Span
        ensures { result ≡ whole_of_time }
    {
        Span {
            lo: 0,
            hi: MAX_TIME,
        }
    }

    /// The lower end, in nanoseconds.
    pub fn lo(&self) -> u64
        ensures value { result ≡ self.now.lo }
        ensures valid { IsInterval self.now }
    {
        self.lo
    }

    /// The upper end, in nanoseconds.
    pub fn hi(&self) -> u64
        ensures value { result ≡ self.now.hi }
        ensures valid { IsInterval self.now }
    {
        self.hi
    }

    /// Whether the time `x`, in nanoseconds, lies in the span. Both ends lie in it.
    pub fn contains(&self, x: u64) -> bool
        ensures { IsTrue result ↔ Holds self.now x }
    {
        self.lo <= x && x <= self.hi
    }

    /// Whether some time lies in both spans. Spans that touch at one point meet.
    pub fn meets(&self, other: &Span) -> bool
        ensures { IsTrue result ↔ Meets self.now other.now }
    {
        self.lo <= other.hi && other.lo <= self.hi
    }

    /// The least span that contains both spans, and what lies between them.
    pub fn hull(&self, other: &Span) -> Span
        ensures least { IsHull self.now other.now result }
        ensures valid { IsInterval result }
    {
        Span {
            lo: self.lo.min(other.lo),
            hi: self.hi.max(other.hi),
        }
    }

    /// The span of the times that lie in both, or None where there are none.
    pub fn intersect(&self, other: &Span) -> Option<Span>
        ensures common { MatchOption result (Meets self.now other.now → ⊥) (λ s. IsIntersection self.now other.now s) }
        ensures valid { MatchOption result (Meets self.now other.now → ⊥) (λ s. IsInterval s) }
    {
        let lo = self.lo.max(other.lo);
        let hi = self.hi.min(other.hi);
        if lo <= hi {
            Some(Span { lo, hi })
        } else {
            None
        }
    }
}
