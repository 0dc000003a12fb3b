//! How fast the time of a source goes against the clock of the machine.

ghost use Rattle.std.specs.Prelude.{◌≡◌, ◌+◌, ◌-◌, ◌*◌, ◌/◌, ◌≤◌, ℕ, Some, IfSome};
ghost use Rattle.tt_span.specs.Interval.{Holds};
ghost use Rattle.tt_health.specs.Rate.{IsRateOf, is_due as is_due_after, new_track, parts_of, rate_between as rate_between_spans, rate_of, track_after};
ghost use Rattle.tt_health.specs.declared.rates.Sample.{Sample as TheSample};

use tt_span::Span;

/// The shortest baseline of a full track, in nanoseconds: 1000 s.
const BASELINE: u64 = 1_000_000_000_000;

/// The shortest baseline by which a rate is told, in nanoseconds.
const SHORTEST: u64 = 1_000_000_000;

/// A billion: rates are in parts of it.
const BILLION: u128 = 1_000_000_000;

/// In which span the time of a source lay when the clock of the machine showed `clock`, in nanoseconds.
#[derive(Clone, Copy)]
pub struct Sample {
    pub clock: u64,
    pub span: Span,
}

/// The samples of a source by which its rate is told: the first of the baseline, the one that takes its place
/// when the baseline is long enough, and the last.
#[derive(Clone, Copy)]
pub struct Track {
    pub first: Option<Sample>,
    pub second: Option<Sample>,
    pub last: Option<Sample>,
}

/// How fast the time of a source goes against the clock of the machine: faster by `size` parts per billion, or slower
/// where `below` is set, with an error of at most `error` parts per billion both ways.
#[derive(Clone, Copy)]
pub struct Rate {
    pub below: bool,
    pub size: u64,
    pub error: u64,
}

/// An amount as parts per billion of another, rounded down.
fn parts(amount: u128, whole: u128) -> u64
    requires amount { amount ≤ 8000000000000000000 + whole }
    requires least { 2000000000 ≤ whole }
    requires most { whole ≤ 40000000000000000000 }
    ensures value { result ≡ parts_of amount whole }
    ensures bound { result ≤ 4000000001000000000 }
{
    (amount * BILLION / whole) as u64
}

/// The rate between two samples that lie so many nanoseconds apart by the clock.
fn rate_between(first: &Span, last: &Span, length: u64) -> Rate
    requires { 1000000000 ≤ length }
    ensures { result ≡ rate_between_spans first.now last.now length }
{
    let twice = 2 * u128::from(length);
    let to = u128::from(last.lo()) + u128::from(last.hi());
    let from = u128::from(first.lo()) + u128::from(first.hi()) + twice;
    let spread = u128::from(last.hi() - last.lo()) + u128::from(first.hi() - first.lo());
    Rate {
        below: to < from,
        size: parts(to.abs_diff(from), twice),
        error: parts(spread, twice) + 2,
    }
}

/// Whether a sample comes so late after the second one that it begins a new baseline.
fn is_due(second: &Sample, sample: &Sample) -> bool
    ensures { result ≡ is_due_after second.now sample.now }
{
    sample.clock.saturating_sub(second.clock) >= BASELINE
}

impl Track {
    /// A track without samples.
    pub fn new() -> Track
        ensures value { result ≡ new_track }
    {
        Track {
            first: None,
            second: None,
            last: None,
        }
    }

    /// The track after one more sample, which becomes the last one. The first sample of all is the first of the
    /// baseline, and the second too. When a new one comes 1000 s after the second by the clock or later, the second
    /// becomes the first, and the new one the second. So the baseline, from the first to the last, is from 1000 s to
    /// 2000 s long once there is enough and samples keep coming.
    pub fn after(&self, sample: Sample) -> Track
        ensures value { result ≡ track_after self.now sample }
    {
        match self.second {
            None => Track {
                first: Some(sample),
                second: Some(sample),
                last: Some(sample),
            },
            Some(second) => {
                if is_due(&second, &sample) {
                    Track {
                        first: Some(second),
                        second: Some(sample),
                        last: Some(sample),
                    }
                } else {
                    Track {
                        first: self.first,
                        second: self.second,
                        last: Some(sample),
                    }
                }
            }
        }
    }

    /// How fast the time of the source goes against the clock, by the first sample and the last. None where the
    /// baseline is shorter than a second.
    ///
    /// The error is half the width of both spans together, by the length of the baseline, and at most two parts per
    /// billion more, since all is rounded to whole parts. If both spans hold the time of the source, it holds for the
    /// time between the two samples.
    pub fn rate(&self) -> Option<Rate>
        ensures value { result ≡ rate_of self.now }
        // While the clock went on from the first sample to the last, the time of the source went on from `from` to `to`.
        ensures holds { (first last : TheSample) (from to : ℕ) → self.now.first ≡ Some first → self.now.last ≡ Some last → Holds first.span from → Holds last.span to →
            IfSome result (λ rate. IsRateOf rate (last.clock - first.clock) from to) }
    {
        let first = self.first?;
        let last = self.last?;
        let length = last.clock.saturating_sub(first.clock);
        if length < SHORTEST {
            return None;
        }
        Some(rate_between(&first.span, &last.span, length))
    }
}
