//! The drift of a clock in one life of its machine.

ghost use Rattle.std.specs.Prelude.{◌≡◌, ◌≤◌, ◌<◌, ◌^◌};
ghost use Rattle.tt_span.specs.Time.{max_time};
ghost use Rattle.tt_audit.specs.Pace.{pace_after, is_in_pace, slow_mark as slow_mark_of, fast_mark as fast_mark_of};

use tt_span::MAX_TIME;

/// A million. A widening is a number of millionths of the time between two moments, rounded up.
const MILLION: u128 = 1_000_000;

/// What is kept of the moments of a clock, to tell whether a later one breaks the drift bound with any of them. Each
/// moment has two marks, and the greatest of each is kept. A moment breaks the bound exactly if one of its marks is
/// below the greatest by a million or more.
#[derive(Clone, Copy)]
pub struct Pace {
    pub slow: u128,
    pub fast: u128,
}

impl Pace {
    /// No moment was seen.
    pub fn new() -> Pace
        ensures { result ≡ record { slow = 0; fast = 0 } }
    {
        Pace { slow: 0, fast: 0 }
    }

    /// Whether a moment keeps the drift bound with each moment that was seen. At the moment the clock showed `clock` at
    /// the true time `at`, both in nanoseconds; `ppm` is the bound, in parts per million.
    pub fn keeps(&self, ppm: u32, clock: u64, at: u64) -> bool
        requires drift { ppm ≤ 1000000 }
        requires clock { clock ≤ max_time }
        requires time { at ≤ max_time }
        ensures { result ≡ is_in_pace ppm self.now (record { clock = clock; time = at }) }
    {
        self.slow < slow_mark(ppm, clock, at) + MILLION
            && self.fast < fast_mark(ppm, clock, at) + MILLION
    }

    /// What is kept after this moment was seen too.
    pub fn with(&self, ppm: u32, clock: u64, at: u64) -> Pace
        requires drift { ppm ≤ 1000000 }
        requires clock { clock ≤ max_time }
        requires time { at ≤ max_time }
        ensures { result ≡ pace_after ppm self.now (record { clock = clock; time = at }) }
    {
        Pace {
            slow: slow_mark(ppm, clock, at).max(self.slow),
            fast: fast_mark(ppm, clock, at).max(self.fast),
        }
    }
}

/// The mark that becomes too low if the clock is too slow.
fn slow_mark(ppm: u32, clock: u64, at: u64) -> u128
    requires drift { ppm ≤ 1000000 }
    requires clock { clock ≤ max_time }
    requires time { at ≤ max_time }
    ensures value { result ≡ slow_mark_of ppm (record { clock = clock; time = at }) }
    ensures bound { result < 2 ^ 100 }
{
    (MILLION + u128::from(ppm)) * u128::from(clock) + MILLION * u128::from(MAX_TIME - at)
}

/// The mark that becomes too low if the clock is too fast.
fn fast_mark(ppm: u32, clock: u64, at: u64) -> u128
    requires drift { ppm ≤ 1000000 }
    requires clock { clock ≤ max_time }
    requires time { at ≤ max_time }
    ensures value { result ≡ fast_mark_of ppm (record { clock = clock; time = at }) }
    ensures bound { result < 2 ^ 100 }
{
    MILLION * u128::from(at) + (MILLION - u128::from(ppm)) * u128::from(MAX_TIME - clock)
}
