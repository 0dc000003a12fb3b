//! The second base of what is shared, for readers that cannot read the machine's clock.

ghost use Rattle.std.specs.Prelude.{◌≡◌, ◌≢◌, ◌≤◌, ◌<◌, ◌-◌, ◌^◌, ℕ, List, ◌∷◌, if◌then◌else◌, Some, None};
ghost use Rattle.tt_span.specs.Time.{max_time};
ghost use Rattle.tt_span.specs.Drift.{AgreesWith, KeepsDrift, Moment, distance};
ghost use Rattle.tt_span.specs.Interval.{Holds};
ghost use Rattle.tt_publish.specs.Reading.{CanBeReadAt, reading_at};
ghost use Rattle.tt_shared.specs.declared.bases.SlewedBase.{SlewedBase as TheBase};
ghost use Rattle.tt_shared.specs.declared.slots.SharedSpan.{SharedSpan as TheSpan};
ghost use Rattle.tt_shared.specs.Looking.{word_of};
ghost use Rattle.tt_shared.specs.Seeing.{IsSeen};
ghost use Rattle.tt_shared.specs.Slot.{IsShared, IsSlotOf, no_base};
ghost use Rattle.tt_consistency.specs.Reads.{IsNoEarlier};
ghost use Rattle.tt_consistency.specs.Timeline.{HeldTrueTime};
ghost use Rattle.tt_host.specs.Slew.{KeepsSlew};
ghost use Rattle.tt_host.specs.declared.slews.SlewLook.{SlewLook as TheLook};
ghost use Rattle.tt_sharing.specs.Slewed.{BothClocks, IsAtLook, base_by, by_raw, by_slewed, is_forward, slew_drift, slewed_drift, span_over, with_slewed};

use crate::shares::usable_until;
use tt_host::SlewLook;
use tt_publish::FusedSpan;
use tt_shared::{SharedSpan, SlewedBase};
use tt_span::{Drift, MAX_DRIFT, MAX_TIME, Span};

/// The drift of `CLOCK_MONOTONIC` on a machine whose clock has this drift, where the two clocks go apart by at most `slew`
/// parts per million of what `CLOCK_MONOTONIC` goes on by: the sum of both, and of their product, rounded up. None where
/// that is above the greatest drift.
pub fn slew_drift(drift: Drift, slew: u32) -> Option<Drift>
    ensures value { result ≡ slew_drift drift slew }
{
    let slew = u64::from(slew);
    let sum = u64::from(drift.ppm()) + slew + drift.widen(slew);
    if sum > u64::from(MAX_DRIFT) {
        return None;
    }
    Drift::new(sum as u32)
}

/// What a publication says over the whole of a look: from its earliest when the look began to its latest when the look was
/// over. None where the look is not in order: its readings are not in time, or the machine's clock went back in it, or
/// behind the publication.
fn span_over(shared: &SharedSpan, look: &SlewLook) -> Option<Span>
    ensures value { result ≡ (if is_forward shared.now look.now then Some (span_over shared.now look.now) else None) }
{
    let clock = shared.fused.clock;
    if look.before < clock
        || look.after < look.before
        || look.after > MAX_TIME
        || look.slewed > MAX_TIME
    {
        return None;
    }
    let span = shared.fused.span;
    let earliest = shared.drift.age_low(span.lo(), look.before - clock);
    let latest = shared.drift.age_high(span.hi(), look.after - clock);
    Some(Span::new(earliest, latest).unwrap())
}

/// The second base of a publication by a look, if the look gives one.
#[tactic(auto, unfolding(crate::specs::Slewed::base_by))]
fn base_by(shared: &SharedSpan, look: &SlewLook, slew: u32, most: u64) -> Option<SlewedBase>
    ensures value { result ≡ base_by shared.now look.now slew most }
{
    let drift = slew_drift(shared.drift, slew)?;
    let span = span_over(shared, look)?;
    let usable_until = usable_until(look.slewed, &span, drift, most);
    if usable_until == 0 {
        return None;
    }
    let fresh = shared.valid_until.saturating_sub(look.after);
    Some(SlewedBase {
        fused: FusedSpan {
            clock: look.slewed,
            span,
        },
        drift,
        valid_until: look.slewed.saturating_add(fresh),
        usable_until,
    })
}

/// The publication with its second base, by this look at `CLOCK_MONOTONIC`: its clock is the look's reading, its span is what
/// the publication says over the whole of the look, and its drift is [`slew_drift`]. A reading by it is at most `most`
/// nanoseconds wide, and it is fresh for as long as the publication is after the look.
///
/// The publication is given as it is where the drift would be above the greatest, where a reading of the look is above the
/// greatest time, where the machine's clock went back in the look, or behind the publication, or where the base could not
/// be used at any reading.
pub fn with_slewed(shared: &SharedSpan, look: &SlewLook, slew: u32, most: u64) -> SharedSpan
    ensures value { result ≡ with_slewed shared.now look.now slew most }
{
    let mut given = *shared;
    if let Some(base) = base_by(shared, look, slew, most) {
        given.slewed = base;
    }
    given
}

/// Laws, not a call to make: what the second base says to readers of the shared file that read `CLOCK_MONOTONIC`.
///
/// `base` is the second base that a look gives, while the machine's clock is one that nobody slews. There is one premise
/// that no contract here gives: that `CLOCK_MONOTONIC` goes at most `slew` parts per million faster or slower than the
/// machine's clock from the look to the reading (`KeepsSlew`).
pub fn slewed_laws()
    // A publication in range can be written and read with its second base.
    ensures in_range { (shared : TheSpan) (look : TheLook) (slew most : ℕ) → IsShared shared → IsShared (with_slewed shared look slew most) }

    // The second base that a reader of the file finds is the one that the look gave, if the publication had none before.
    ensures found { (published : ℕ → TheSpan) (n : ℕ) (index bytes : List ℕ) (found shared : TheSpan) (look : TheLook) (slew most : ℕ) →
        IsSeen published n index bytes index → published n ≡ with_slewed shared look slew most → shared.slewed ≡ no_base →
        IsShared (published n) → IsSlotOf (word_of index) found bytes → found.slewed.usable_until ≢ 0 →
        base_by shared look slew most ≡ Some found.slewed }

    // The second base held the true time at its look, if the publication held it at a moment of the machine's life, the
    // machine's clock keeps its drift bound over this moment and that of the look, and the look is no earlier.
    ensures holds_then { (shared : TheSpan) (look : TheLook) (slew most : ℕ) (base : TheBase) (at : BothClocks) (moments : List Moment) →
        IsShared shared → base_by shared look slew most ≡ Some base → IsAtLook look at →
        HeldTrueTime moments shared.fused → KeepsDrift shared.drift (by_raw at ∷ moments) →
        IsNoEarlier moments shared.fused at.time → at.time ≤ max_time → Holds base.fused.span at.time }

    // Where the machine's clock kept its drift bound between two moments, and CLOCK_MONOTONIC its bound against that clock,
    // CLOCK_MONOTONIC kept the drift of the second base.
    ensures drift { (drift slew : ℕ) (a b : BothClocks) → AgreesWith drift (by_raw a) (by_raw b) → KeepsSlew slew (distance a.raw b.raw) (distance a.slewed b.slewed) →
        AgreesWith (slewed_drift drift slew) (by_slewed a) (by_slewed b) }

    // So a reading by the second base, no earlier than its look, holds the true time of its own moment.
    ensures holds { (shared : TheSpan) (look : TheLook) (slew most : ℕ) (base : TheBase) (at now : BothClocks) (moments : List Moment) →
        IsShared shared → base_by shared look slew most ≡ Some base → IsAtLook look at →
        HeldTrueTime moments shared.fused → KeepsDrift shared.drift (by_raw now ∷ by_raw at ∷ moments) →
        KeepsSlew slew (distance now.raw at.raw) (distance now.slewed at.slewed) →
        IsNoEarlier moments shared.fused at.time → at.time ≤ now.time → now.time ≤ max_time → CanBeReadAt base.fused now.slewed →
        Holds (reading_at base.drift base.fused now.slewed) now.time }

    // A reading by the second base that a reader of the file may use is no wider than the machine allows, if it allows
    // less than 2^64 - 1.
    ensures narrow { (shared : TheSpan) (look : TheLook) (slew most : ℕ) (base : TheBase) (clock : ℕ) →
        base_by shared look slew most ≡ Some base → most < 2 ^ 64 - 1 → base.fused.clock ≤ clock → clock ≤ base.usable_until →
        (reading_at base.drift base.fused clock).hi - (reading_at base.drift base.fused clock).lo ≤ most }
{}
