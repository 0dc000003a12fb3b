//! Which rates of a clock a drift covers.

ghost use Rattle.std.specs.Prelude.{◌≡◌, ℕ, ◌-◌, ◌≤◌};
ghost use Rattle.tt_span.specs.Drift.{max_drift, widening};
ghost use Rattle.tt_outline.specs.Rate.{GainsAtMost, LosesAtMost, gain_covered, loss_covered};

use tt_span::Drift;

/// A million, of which a drift counts parts.
const MILLION: u64 = 1_000_000;

/// A billion, of which rates count parts.
const BILLION: u64 = 1_000_000_000;

/// The most that a clock may lose by this drift, in parts of a billion of true time, rounded down. A drift bounds the error as
/// a part of the clock's own distance, which is the shorter one here: so it is less than the drift.
pub(crate) fn loss_covered(drift: Drift) -> u64
    ensures value { result ≡ loss_covered drift }
    // While a clock that loses no more goes on by d, it is wrong by what the drift allows, and no more.
    ensures covers { (d e : ℕ) → d ≤ e → LosesAtMost result d e → e - d ≤ widening drift d }
{
    let ppm = u64::from(drift.ppm());
    ppm * BILLION / (MILLION + ppm)
}

/// The most that a clock may gain by this drift, in parts of a billion of true time, rounded down: more than the drift.
pub(crate) fn gain_covered(drift: Drift) -> u64
    ensures value { result ≡ gain_covered drift }
    // While a clock that gains no more goes on by d, it is wrong by what the drift allows, and no more.
    ensures covers { (d e : ℕ) → e ≤ d → GainsAtMost result d e → d - e ≤ widening drift d }
{
    let ppm = u64::from(drift.ppm());
    ppm * BILLION / (MILLION - ppm)
}
