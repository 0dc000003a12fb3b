//! Watches of the real-time clock beside another clock.

ghost use Rattle.std.specs.Prelude.{◌≡◌, ◌+◌, ◌-◌, ◌*◌, ◌<◌, ◌≤◌, ◌↔◌, ℕ, List, ◌∷◌, ◌++◌, false, IsTrue};
ghost use Rattle.std.specs.List.{AllByRecursion};
ghost use Rattle.tt_span.specs.Time.{max_time};
ghost use Rattle.tt_span.specs.Interval.{Holds};
ghost use Rattle.tt_span.specs.Drift.{widening, distance};
ghost use Rattle.tt_master.specs.Watch.{Allowance, Look, IsLook, Sight, IsSteady, IsTrueIn, IsExplained, shown_at, changed_over, looks_in, looked, watched, no_look, no_step};

use std::marker::Model;
use tt_span::{Drift, MAX_TIME};

/// By how much the real-time clock goes otherwise than a clock that is slewed alike, in parts per million, where nobody
/// steps it: by nothing, and this leaves room.
const SLEW: u32 = 500;

/// By how much a difference of readings that were cut to whole nanoseconds may change beside this, in nanoseconds.
const ROUNDING: u64 = 2;

/// Watches the real-time clock beside another clock, and notices once what it shows can't be explained by what is allowed.
///
/// In contracts it is what is allowed, whether more was seen, how far ahead of the other clock the time may have been at
/// the last look, and what the other clock showed before it.
#[derive(Clone, Copy, Debug, PartialEq, Eq)]
pub struct RealTimeWatch {
    slack: u64,
    rate: Drift,
    broken: bool,
    lo: u64,
    hi: u64,
    since: u64,
}

impl Model for RealTimeWatch {
    ghost use Rattle.std.specs.Prelude.{◌≤◌};
    ghost use Rattle.tt_span.specs.Time.{max_time};
    ghost use Rattle.tt_master.specs.Watch.{WatchState};

    ghost Value = { WatchState };

    ghost view = { λ w. record { allowed = record { slack = w.slack; rate = w.rate }; broken = w.broken; ahead = record { lo = w.lo; hi = w.hi }; since = w.since } };

    ghost invariant = { λ w. (w.slack ≤ max_time) × (w.hi ≤ 12000000000000000000) × (w.since ≤ max_time) };

    ghost inverse = { λ w. record { slack = w.allowed.slack; rate = w.allowed.rate; broken = w.broken; lo = w.ahead.lo; hi = w.ahead.hi; since = w.since } };
}

impl RealTimeWatch {
    /// A watch for steps, which an operator or a program does. The other clock is one that is slewed as the real-time clock is:
    /// `CLOCK_MONOTONIC` of Linux. Allowed are 500 parts per million.
    pub fn of_steps() -> RealTimeWatch
        ensures value { result ≡ no_look no_step }
    {
        RealTimeWatch::new(0, Drift::new(SLEW).unwrap())
    }

    /// A watch of the statement that the real-time clock is off by at most `uncertainty` nanoseconds whenever it is read. The
    /// other clock is one that nobody slews, and that has this drift. Requires: the uncertainty is at most `MAX_TIME`.
    pub fn of_statement(uncertainty: u64, drift: Drift) -> RealTimeWatch
        requires uncertainty_in { uncertainty ≤ max_time }
        ensures value { result ≡ no_look (record { slack = uncertainty; rate = drift }) }
    {
        RealTimeWatch::new(uncertainty, drift)
    }

    /// A watch before its first look.
    fn new(slack: u64, rate: Drift) -> RealTimeWatch
        requires { slack ≤ max_time }
        ensures { result ≡ no_look (record { slack = slack; rate = rate }) }
    {
        RealTimeWatch {
            slack,
            rate,
            broken: false,
            lo: 0,
            hi: 2 * MAX_TIME + slack,
            since: 0,
        }
    }

    /// Takes one more look, and answers whether more than is allowed was seen, at this look or an earlier one. All numbers are
    /// in nanoseconds: the real-time clock showed `real`, after the other clock had shown `before`, and before it showed
    /// `after`. [`watch_laws`] says what this tells. Requires: `before` is at most `after`, and no number is above `MAX_TIME`.
    pub fn look(&mut self, before: u64, real: u64, after: u64) -> bool
        requires ordered { before ≤ after }
        requires in_time { after ≤ max_time }
        requires real_in { real ≤ max_time }
        ensures value { self.new ≡ looked (record { before = before; real = real; after = after }) self.old }
        ensures seen { result ≡ self.new.broken }
    {
        if self.broken {
            return true;
        }
        let change = changed(self.rate, after.saturating_sub(self.since));
        let least = (real + MAX_TIME - after).saturating_sub(self.slack);
        let most = real + MAX_TIME - before + self.slack;
        let lo = least.max(self.lo.saturating_sub(change));
        let hi = most.min(self.hi + change);
        if lo <= hi {
            self.lo = lo;
            self.hi = hi;
            self.since = before;
        } else {
            self.broken = true;
        }
        self.broken
    }
}

/// By how much a distance of two clocks changes at most at this rate, while one of them goes on by `d` nanoseconds.
fn changed(rate: Drift, d: u64) -> u64
    requires { d ≤ max_time }
    ensures value { result ≡ widening rate d + 2 }
    ensures bound { result ≤ d + 2 }
{
    rate.widen(d) + ROUNDING
}

/// Laws of these watches, over looks of which the newest stands first. More than is allowed was seen exactly if no run of
/// distances from the other clock explains the looks: each within the slack of what its look shows, and no two neighbours
/// further apart than the rate allows from before the one look until after the other, and 2 nanoseconds.
///
/// So a watch for steps is silent as long as the real-time clock is only slewed, and one of a statement as long as the
/// statement is true and the other clock keeps its drift, however the real-time clock is slewed or stepped meanwhile. A change
/// between any two looks is seen that is greater than twice the slack, what the rate allows between them, and the durations
/// of both. What was seen is said for ever.
pub fn watch_laws()
    ensures exact { (a : Allowance) (looks : List Look) → AllByRecursion IsLook looks → IsTrue (watched a looks).broken ↔ ((d : ℕ) → IsExplained a looks d → ⊥) }
    ensures no_false_alarm { (a : Allowance) (sights : List Sight) → IsSteady a sights → (watched a (looks_in sights)).broken ≡ false }
    ensures true_statement { (a : Allowance) (sights : List Sight) → IsTrueIn a sights → (watched a (looks_in sights)).broken ≡ false }
    ensures seen { (a : Allowance) (look : Look) (between : List Look) (first : Look) (looks : List Look) (c d : ℕ) →
        AllByRecursion IsLook (look ∷ (between ++ (first ∷ looks))) → Holds (shown_at first) c → Holds (shown_at look) d →
        2 * a.slack + changed_over a look between first + (first.after - first.before) + (look.after - look.before) < distance c d →
        IsTrue (watched a (look ∷ (between ++ (first ∷ looks)))).broken }
    ensures stays { (a : Allowance) (looks : List Look) (look : Look) → IsTrue (watched a looks).broken → IsTrue (watched a (look ∷ looks)).broken }
{}
