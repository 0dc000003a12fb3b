//! Where times stand on an axis.

ghost use Rattle.std.specs.Prelude.{◌≡◌, ◌≤◌};
ghost use Rattle.tt_top.specs.Ruler.{ruler_over, ruler_of, place_of, left_of, extent_of, time_at};

use crate::bars::Reach;
use crate::views::SourceView;
use tt_span::Span;

/// How many units an axis is long.
pub(crate) const LENGTH: u64 = 800;

/// How many units of it are free at each end.
const FREE: u64 = 40;

/// How many units a span has at least, so that it can be seen.
const LEAST: u64 = 4;

/// What the units of an axis are: unit u shows the times from `start + u * step` on, and before those of unit u + 1. All in
/// nanoseconds. A step of 0 is one of 1.
#[derive(Clone, Copy)]
pub(crate) struct Ruler {
    pub(crate) start: u64,
    pub(crate) step: u64,
}

impl Ruler {
    /// The axis on which these sources and the fused span stand, if that is known, with 40 units free at each end.
    pub(crate) fn of(fused: &Option<Span>, sources: &[SourceView]) -> Ruler
        ensures { result ≡ ruler_of fused.now sources.now }
    {
        match fused {
            Some(fused) => Ruler::over(Reach::of(fused, sources)),
            None => Ruler { start: 0, step: 1 },
        }
    }

    /// The axis on which these times stand.
    fn over(reach: Reach) -> Ruler
        ensures { result ≡ ruler_over reach }
    {
        let step = reach.hi.saturating_sub(reach.lo) / (LENGTH - 2 * FREE) + 1;
        Ruler {
            start: reach.lo.saturating_sub(step.saturating_mul(FREE)),
            step,
        }
    }

    /// The unit of a time; 0 for all before the axis, and its length for all behind it.
    fn place(self, time: u64) -> u64
        ensures value { result ≡ place_of self time }
        ensures most { result ≤ 800 }
    {
        (time.saturating_sub(self.start) / self.step.max(1)).min(LENGTH)
    }

    /// The unit at which a span begins.
    pub(crate) fn left(self, span: &Span) -> u64
        ensures value { result ≡ left_of self span.now }
        ensures most { result ≤ 796 }
    {
        self.place(span.lo()).min(LENGTH - LEAST)
    }

    /// How many units a span has: up to the unit of its end, at least four.
    pub(crate) fn extent(self, span: &Span) -> u64
        ensures value { result ≡ extent_of self span.now }
    {
        let left = self.left(span);
        let right = (self.place(span.hi()) + 1).min(LENGTH);
        right.saturating_sub(left).max(LEAST)
    }

    /// The first time of a unit.
    pub(crate) fn time(self, unit: u64) -> u64
        ensures value { result ≡ time_at self unit }
    {
        self.start.saturating_add(self.step.saturating_mul(unit))
    }
}
