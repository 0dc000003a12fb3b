//! What a clock may gain or lose, and how a span ages.

ghost use Rattle.std.specs.Prelude.{◌≡◌, ℕ, ◌+◌, ◌<◌, ◌≤◌, ◌↔◌, List, [], ◌∷◌, IsSome, IfSome};
ghost use Rattle.tt_span.specs.Time.{max_time};
ghost use Rattle.tt_span.specs.Interval.{Interval, IsInterval, Holds};
ghost use Rattle.tt_span.specs.Drift.{max_drift, widening, IsWidening, Moment, KeepsDrift, aged, aged_low, aged_high};

use crate::spans::{MAX_TIME, Span};
use std::marker::Model;

/// The greatest drift, in parts per million.
pub const MAX_DRIFT: u32 = 100_000;

/// A million: a drift is counted in parts of it.
const MILLION: u64 = 1_000_000;

/// A bound on what a clock gains or loses, in parts per million, from 0 to [`MAX_DRIFT`]. Spanner assumes 200 (OSDI
/// 2012, section 3).
#[derive(Clone, Copy, Debug, PartialEq, Eq)]
pub struct Drift {
    ppm: u32,
}

impl Model for Drift {
    ghost use Rattle.std.specs.Prelude.{ℕ, ◌≤◌};
    ghost use Rattle.tt_span.specs.Drift.{max_drift};

    ghost Value = { ℕ };

    ghost view = { λ d. d.ppm };

    ghost invariant = { λ d. d.ppm ≤ max_drift };

    ghost inverse = { λ n. record { ppm = n } };
}

impl Drift {
    /// The drift of `ppm` parts per million. None where `ppm` is above [`MAX_DRIFT`].
    pub fn new(ppm: u32) -> Option<Drift>
        ensures taken { IsSome result ↔ (ppm ≤ max_drift) }
        ensures value { IfSome result (λ d. d ≡ ppm) }
    {
        if ppm <= MAX_DRIFT {
            Some(Drift { ppm })
        } else {
            None
        }
    }

    /// The drift in parts per million.
    pub fn ppm(&self) -> u32
        ensures value { result ≡ self.now }
        ensures bound { self.now ≤ max_drift }
    {
        self.ppm
    }

    /// What the clock may be wrong by after it has gone on by `d` nanoseconds: `d` times the drift, rounded up to a
    /// whole nanosecond. Requires: `d` is at most [`MAX_TIME`].
    pub fn widen(&self, d: u64) -> u64
        requires { d ≤ max_time }
        ensures value { result ≡ widening self.now d }
        ensures least { IsWidening self.now d result }
        ensures bound { result ≤ d }
    {
        let ppm = u64::from(self.ppm);
        d / MILLION * ppm + (d % MILLION * ppm).div_ceil(MILLION)
    }

    /// The earliest true time when the clock has gone on by `d` since the true time `x`: `x + d` less the widening of
    /// `d`, cut at [`MAX_TIME`]. All are in nanoseconds. The widening is never above `d`. Requires: `d` is at most
    /// [`MAX_TIME`].
    pub fn age_low(&self, x: u64, d: u64) -> u64
        requires { d ≤ max_time }
        ensures value { result ≡ aged_low self.now x d }
        ensures in_time { result ≤ max_time }
        ensures forward { widening self.now d ≤ d }
    {
        x.saturating_add(d - self.widen(d)).min(MAX_TIME)
    }

    /// The latest true time when the clock has gone on by `d` since the true time `x`: `x + d` plus the widening of
    /// `d`, cut at [`MAX_TIME`]. All are in nanoseconds. Requires: `d` is at most [`MAX_TIME`].
    pub fn age_high(&self, x: u64, d: u64) -> u64
        requires { d ≤ max_time }
        ensures value { result ≡ aged_high self.now x d }
        ensures in_time { result ≤ max_time }
    {
        x.saturating_add(d + self.widen(d)).min(MAX_TIME)
    }

    /// The span after the clock has gone on by `d` nanoseconds: moved by `d`, widened both ways by the widening of `d`,
    /// and each end cut at [`MAX_TIME`]. If it held the true time before, and the clock kept the drift, it holds the
    /// true time now. Requires: `d` is at most [`MAX_TIME`].
    pub fn age(&self, span: &Span, d: u64) -> Span
        requires { d ≤ max_time }
        ensures ages { result ≡ aged self.now span.now d }
        ensures valid { IsInterval result }
        // This holds in every run in which the clock keeps the drift bound, and true time neither falls nor passes the
        // greatest time.
        ensures holds { (before now : Moment) → KeepsDrift self.now (before ∷ now ∷ []) → before.clock + d ≡ now.clock →
            before.time ≤ now.time → now.time ≤ max_time → Holds span.now before.time → Holds result now.time }
    {
        Span::between(self.age_low(span.lo(), d), self.age_high(span.hi(), d))
    }
}

/// Laws of the widening. It is the least whole number that is at least the distance times the drift. It is 0 for no
/// distance, and never falls as the distance grows. For a distance in two parts it is at most the sum of the widenings
/// of both. Up to the greatest drift it is never above the distance.
pub fn drift_laws()
    ensures least { (ppm d : ℕ) → IsWidening ppm d (widening ppm d) }
    ensures nothing { (ppm : ℕ) → widening ppm 0 ≡ 0 }
    ensures rises { (ppm c d : ℕ) → c ≤ d → widening ppm c ≤ widening ppm d }
    ensures subadditive { (ppm c d : ℕ) → widening ppm (c + d) ≤ widening ppm c + widening ppm d }
    ensures bound { (ppm d : ℕ) → ppm ≤ max_drift → widening ppm d ≤ d }
{}
