//! The spans in the answers of masters.

ghost use Rattle.std.specs.Prelude.{◌≡◌, ◌+◌, ◌<◌, ◌≤◌, ◌↔◌, ℕ};
ghost use Rattle.tt_span.specs.Time.{max_time};
ghost use Rattle.tt_span.specs.Interval.{IsInterval, Holds};
ghost use Rattle.tt_master.specs.declared.acts.Act.{Act};
ghost use Rattle.tt_master.specs.declared.acts.Act.TheVariants.{Honest};
ghost use Rattle.tt_master.specs.Act.{later_by, earlier_by, span_played as span_of_act};

use crate::acts::Act;
use tt_span::{MAX_TIME, Span};

/// The span of an act when the reference gives this time: the time plus and minus the uncertainty, both ends moved by
/// the act, and then cut at 0 and [`MAX_TIME`].
pub(crate) fn span_played(uncertainty: u64, act: Act, time: u64) -> Span
    requires uncertainty_in { uncertainty ≤ max_time }
    requires time_in { time ≤ max_time }
    ensures value { result ≡ span_of_act uncertainty act time }
    ensures holds { act ≡ Honest → Holds result time }
{
    let (lo, hi) = match act {
        Act::Ahead(k) => (
            time.saturating_add(k).saturating_sub(uncertainty),
            (time + uncertainty).saturating_add(k),
        ),
        Act::Behind(k) => (
            time.saturating_sub(uncertainty.saturating_add(k)),
            (time + uncertainty).saturating_sub(k),
        ),
        _ => (time.saturating_sub(uncertainty), time + uncertainty),
    };
    Span::new(lo.min(MAX_TIME), hi.min(MAX_TIME)).unwrap()
}

/// The interval in which the time lies where a clock shows `time` and is off by at most `uncertainty`, both in
/// nanoseconds: the span of an honest answer, from the time less the uncertainty to the time and the uncertainty, cut at
/// 0 and [`MAX_TIME`]. Requires: both are at most `MAX_TIME`.
pub fn stated_span(uncertainty: u64, time: u64) -> Span
    requires uncertainty_in { uncertainty ≤ max_time }
    requires time_in { time ≤ max_time }
    ensures value { result ≡ span_of_act uncertainty Honest time }
    ensures holds { Holds result time }
{
    span_played(uncertainty, Act::Honest, time)
}

/// Laws of these spans. The ends always form a span. The span of an honest answer holds exactly the times that differ
/// from the time of the reference by at most the uncertainty. Apart from 0 and the greatest time, the span of any act
/// holds exactly the times between its ends before the cut.
pub fn act_laws()
    ensures valid { (uncertainty : ℕ) (act : Act) (time : ℕ) → IsInterval (span_of_act uncertainty act time) }
    ensures honest { (uncertainty time x : ℕ) → time ≤ max_time → x ≤ max_time →
        Holds (span_of_act uncertainty Honest time) x ↔ ((time ≤ x + uncertainty) × (x ≤ time + uncertainty)) }
    ensures moved { (uncertainty : ℕ) (act : Act) (time x : ℕ) → 0 < x → x < max_time →
        Holds (span_of_act uncertainty act time) x ↔ ((time + later_by act ≤ x + uncertainty + earlier_by act) × (x + earlier_by act ≤ time + uncertainty + later_by act)) }
{}
