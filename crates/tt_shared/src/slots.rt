//! Publications as the bytes of a slot.

ghost use Rattle.std.specs.Prelude.{◌≡◌, ◌≢◌, ◌+◌, ◌<◌, ◌≤◌, ◌⊎◌, List, ℕ, length, if◌then◌else◌, Ok, Err, IfOk, IfErr, false};
ghost use Rattle.tt_publish.specs.Reading.{CanBeReadAt, reading_at};
ghost use Rattle.tt_shared.specs.declared.faults.SharedFault.{SharedFault};
ghost use Rattle.tt_shared.specs.declared.faults.SharedFault.TheVariants.{Nothing, ClockBack, BadSlot, TooWide, NoSlewed};
ghost use Rattle.tt_shared.specs.declared.slots.SharedSpan.{SharedSpan};
ghost use Rattle.tt_shared.specs.Layout.{slot_len};
ghost use Rattle.tt_shared.specs.Slot.{IsShared, IsSlotOf, base_of, slot_of};
ghost use Rattle.tt_shared.specs.Reading.{number_at as number_at_place, base_at, slewed_at, is_out, is_padded as is_padded_slot, is_other as is_other_slot, read_of};

use crate::bases::{Base, SlewedBase, read_until};
use crate::faults::SharedFault;
use crate::layout::{SLOT_LEN, USED_LEN};
use tt_publish::{FusedSpan, Reading};
use tt_span::{Drift, MAX_DRIFT, MAX_TIME, Span};

/// The length of a second base, in bytes.
const BASE_LEN: usize = 48;

/// A publication as other processes read it: a fused span by the clock of the file, and what a reader needs to age it.
#[derive(Clone, Copy, Debug, PartialEq, Eq)]
pub struct SharedSpan {
    /// The fused span, and the clock reading at which it was made, in nanoseconds.
    pub fused: FusedSpan,
    /// The last clock reading at which it is fresh, in nanoseconds. Later the daemon is late or gone: a reading still
    /// holds the true time, and grows wider.
    pub valid_until: u64,
    /// The last clock reading at which a reader may use it, in nanoseconds. 2^64 - 1: there is no limit. 0: nothing is
    /// published any more.
    pub usable_until: u64,
    /// The epoch of the daemon's life. It is greater than the epoch of each earlier life.
    pub epoch: u64,
    /// The number of the publication in that life.
    pub number: u64,
    /// The drift of the machine's clock.
    pub drift: Drift,
    /// The same by `CLOCK_MONOTONIC`, or none.
    pub slewed: SlewedBase,
}

/// The bytes of a second base.
fn encode_base(base: &SlewedBase) -> [u8; BASE_LEN]
    ensures { result ≡ base_of base.now }
{
    let mut bytes = [0; BASE_LEN];
    bytes[..8].copy_from_slice(&base.fused.clock.to_le_bytes());
    bytes[8..16].copy_from_slice(&base.fused.span.lo().to_le_bytes());
    bytes[16..24].copy_from_slice(&base.fused.span.hi().to_le_bytes());
    bytes[24..32].copy_from_slice(&u64::from(base.drift.ppm()).to_le_bytes());
    bytes[32..40].copy_from_slice(&base.valid_until.to_le_bytes());
    bytes[40..].copy_from_slice(&base.usable_until.to_le_bytes());
    bytes
}

/// The bytes of the slot of a publication, under the index of its count as a little-endian number. Never refuses.
#[tactic(auto, unfolding(crate::specs::Slot::slot_of))]
pub fn encode(index: u64, shared: &SharedSpan) -> [u8; SLOT_LEN]
    ensures { result ≡ slot_of index shared.now }
{
    let mut bytes = [0; SLOT_LEN];
    bytes[..8].copy_from_slice(&index.to_le_bytes());
    bytes[8..16].copy_from_slice(&shared.fused.clock.to_le_bytes());
    bytes[16..24].copy_from_slice(&shared.fused.span.lo().to_le_bytes());
    bytes[24..32].copy_from_slice(&shared.fused.span.hi().to_le_bytes());
    bytes[32..40].copy_from_slice(&shared.valid_until.to_le_bytes());
    bytes[40..48].copy_from_slice(&shared.epoch.to_le_bytes());
    bytes[48..56].copy_from_slice(&shared.number.to_le_bytes());
    bytes[56..64].copy_from_slice(&u64::from(shared.drift.ppm()).to_le_bytes());
    bytes[64..72].copy_from_slice(&shared.usable_until.to_le_bytes());
    bytes[72..USED_LEN].copy_from_slice(&encode_base(&shared.slewed));
    bytes
}

/// The number in the eight bytes from place `at` on, the lowest first.
fn number_at(bytes: &[u8], at: usize) -> u64
    requires { at + 8 ≤ length bytes.now }
    ensures { result ≡ number_at_place bytes.now at }
{
    let part = &bytes[at..at + 8];
    u64::from_le_bytes([
        part[0], part[1], part[2], part[3], part[4], part[5], part[6], part[7],
    ])
}

/// Whether zeros alone stand behind the numbers of a slot.
fn is_padded(bytes: &[u8]) -> bool
    requires { length bytes.now ≡ slot_len }
    ensures { result ≡ is_padded_slot bytes.now }
{
    bytes[USED_LEN..] == [0; SLOT_LEN - USED_LEN]
}

/// Whether the bytes are not a slot of the index.
fn is_other(index: u64, bytes: &[u8]) -> bool
    ensures value { result ≡ is_other_slot index bytes.now }
    ensures len { result ≡ false → length bytes.now ≡ slot_len }
{
    bytes.len() != SLOT_LEN || !is_padded(bytes) || number_at(bytes, 0) != index
}

/// The base whose clock stands at place `clock_at`, with the two ends of its span behind it, and whose drift stands at
/// place `drift_at`, if its numbers are in range.
fn base_in(bytes: &[u8], clock_at: usize, drift_at: usize) -> Result<Base, SharedFault>
    requires len { length bytes.now ≡ slot_len }
    requires clock_in { clock_at + 24 ≤ slot_len }
    requires drift_in { drift_at + 8 ≤ slot_len }
    ensures { result ≡ (if is_out (base_at bytes.now clock_at drift_at) then Err BadSlot else Ok (base_at bytes.now clock_at drift_at)) }
{
    let clock = number_at(bytes, clock_at);
    let drift = number_at(bytes, drift_at);
    if clock > MAX_TIME || drift > u64::from(MAX_DRIFT) {
        return Err(SharedFault::BadSlot);
    }
    let ends = Span::new(
        number_at(bytes, clock_at + 8),
        number_at(bytes, clock_at + 16),
    );
    let (Ok(span), Some(drift)) = (ends, Drift::new(drift as u32)) else {
        return Err(SharedFault::BadSlot);
    };
    Ok(Base {
        fused: FusedSpan { clock, span },
        drift,
    })
}

/// The second base at its place, if its numbers are in range.
fn slewed_in(bytes: &[u8]) -> Result<SlewedBase, SharedFault>
    requires { length bytes.now ≡ slot_len }
    ensures { result ≡ (if is_out (base_at bytes.now 72 96) then Err BadSlot else Ok (slewed_at bytes.now)) }
{
    let base = base_in(bytes, 72, 96)?;
    Ok(SlewedBase {
        fused: base.fused,
        drift: base.drift,
        valid_until: number_at(bytes, 104),
        usable_until: number_at(bytes, 112),
    })
}

/// What the bytes of a slot say, if they are the slot of `index`.
#[tactic(auto, unfolding(crate::specs::Reading::read_of))]
fn slot_at(index: u64, bytes: &[u8]) -> Result<SharedSpan, SharedFault>
    ensures { result ≡ read_of index bytes.now }
{
    if is_other(index, bytes) {
        return Err(SharedFault::BadSlot);
    }
    let first = base_in(bytes, 8, 56)?;
    let slewed = slewed_in(bytes)?;
    Ok(SharedSpan {
        fused: first.fused,
        valid_until: number_at(bytes, 32),
        usable_until: number_at(bytes, 64),
        epoch: number_at(bytes, 40),
        number: number_at(bytes, 48),
        drift: first.drift,
        slewed,
    })
}

/// The publication in these bytes of a slot. Refuses with 1703 `BadSlot` where they are not the slot of `index`, or one
/// of its numbers is out of range.
pub fn decode(index: u64, bytes: &[u8]) -> Result<SharedSpan, SharedFault>
    // If a publication is read, the bytes are its slot, each of them.
    ensures found { IfOk result (λ p. IsShared p × (bytes.now ≡ slot_of index p)) }
    // If the bytes are the slot of a publication, it is read.
    ensures taken { (p : SharedSpan) → IsShared p → bytes.now ≡ slot_of index p → result ≡ Ok p }
    ensures refused { IfErr result (λ fault. fault ≡ BadSlot) }
{
    slot_at(index, bytes)
}

impl SharedSpan {
    /// The reading when the clock shows `clock`, in nanoseconds: its span, aged by what the clock has gone on since.
    /// Refuses, in this order: 802 `ClockBack` where `clock` is below the clock of the publication, or above the greatest
    /// time; 1708 `TooWide` where it is above `usable_until`.
    pub(crate) fn read_at(&self, clock: u64) -> Result<Reading, SharedFault>
        ensures read { IfOk result (λ reading. CanBeReadAt self.now.fused clock × (clock ≤ self.now.usable_until)
            × (reading ≡ reading_at self.now.drift self.now.fused clock)) }
        ensures refused { IfErr result (λ fault. ((fault ≡ ClockBack) × (CanBeReadAt self.now.fused clock → ⊥))
            ⊎ ((fault ≡ TooWide) × CanBeReadAt self.now.fused clock × (self.now.usable_until < clock))) }
    {
        read_until(&self.fused, self.drift, self.usable_until, clock)
    }
}

/// The reading of the publication in these bytes of a slot, when the clock shows `clock`, in nanoseconds: its span,
/// aged by what the clock has gone on since. Refuses, in this order: 801 `Nothing` where the index is 0, since nothing
/// was published; 1703 `BadSlot` where the bytes are not the slot of a publication under `index`; 801 `Nothing` where
/// `usable_until` is 0, since nothing is published any more; 802 `ClockBack` where `clock` is below the clock of the
/// publication, or above the greatest time; 1708 `TooWide` where it is above `usable_until`.
pub fn read(index: u64, bytes: &[u8], clock: u64) -> Result<Reading, SharedFault>
    ensures nothing { index ≡ 0 → result ≡ Err Nothing }
    // The slot of a publication gives exactly what the publication gives.
    ensures exact { (p : SharedSpan) → IsSlotOf index p bytes.now → index ≢ 0 → p.usable_until ≢ 0 →
        (CanBeReadAt p.fused clock → clock ≤ p.usable_until → result ≡ Ok (reading_at p.drift p.fused clock))
        × (CanBeReadAt p.fused clock → p.usable_until < clock → result ≡ Err TooWide)
        × ((CanBeReadAt p.fused clock → ⊥) → result ≡ Err ClockBack) }
    ensures ended { (p : SharedSpan) → IsSlotOf index p bytes.now → p.usable_until ≡ 0 → result ≡ Err Nothing }
    // Nothing else gives a reading.
    ensures sound { IfOk result (λ reading. (p : SharedSpan) × IsSlotOf index p bytes.now × (p.usable_until ≢ 0) × CanBeReadAt p.fused clock
        × (clock ≤ p.usable_until) × (reading ≡ reading_at p.drift p.fused clock)) }
    ensures bad { ((p : SharedSpan) → IsSlotOf index p bytes.now → ⊥) → index ≢ 0 → result ≡ Err BadSlot }
{
    if index == 0 {
        return Err(SharedFault::Nothing);
    }
    let shared = decode(index, bytes)?;
    if shared.usable_until == 0 {
        return Err(SharedFault::Nothing);
    }
    shared.read_at(clock)
}

/// The reading of the second base of the publication in these bytes of a slot, when `CLOCK_MONOTONIC` shows `clock`, in
/// nanoseconds: its span, aged by its own drift over what that clock has gone on since. Refuses, in this order: 801
/// `Nothing` where the index is 0; 1703 `BadSlot` where the bytes are not the slot of a publication under `index`; 801
/// `Nothing` where its `usable_until` is 0; 1710 `NoSlewed` where that of its second base is 0, since there is none; 802
/// `ClockBack` where `clock` is below the clock of the second base, or above the greatest time; 1708 `TooWide` where it is
/// above the `usable_until` of the second base.
pub fn read_slewed(index: u64, bytes: &[u8], clock: u64) -> Result<Reading, SharedFault>
    ensures nothing { index ≡ 0 → result ≡ Err Nothing }
    // The slot of a publication gives exactly what its second base gives.
    ensures exact { (p : SharedSpan) → IsSlotOf index p bytes.now → index ≢ 0 → p.usable_until ≢ 0 → p.slewed.usable_until ≢ 0 →
        (CanBeReadAt p.slewed.fused clock → clock ≤ p.slewed.usable_until → result ≡ Ok (reading_at p.slewed.drift p.slewed.fused clock))
        × (CanBeReadAt p.slewed.fused clock → p.slewed.usable_until < clock → result ≡ Err TooWide)
        × ((CanBeReadAt p.slewed.fused clock → ⊥) → result ≡ Err ClockBack) }
    ensures ended { (p : SharedSpan) → IsSlotOf index p bytes.now → p.usable_until ≡ 0 → result ≡ Err Nothing }
    ensures none { (p : SharedSpan) → IsSlotOf index p bytes.now → index ≢ 0 → p.usable_until ≢ 0 → p.slewed.usable_until ≡ 0 → result ≡ Err NoSlewed }
    // Nothing else gives a reading.
    ensures sound { IfOk result (λ reading. (p : SharedSpan) × IsSlotOf index p bytes.now × (p.usable_until ≢ 0) × (p.slewed.usable_until ≢ 0)
        × CanBeReadAt p.slewed.fused clock × (clock ≤ p.slewed.usable_until) × (reading ≡ reading_at p.slewed.drift p.slewed.fused clock)) }
    ensures bad { ((p : SharedSpan) → IsSlotOf index p bytes.now → ⊥) → index ≢ 0 → result ≡ Err BadSlot }
{
    if index == 0 {
        return Err(SharedFault::Nothing);
    }
    let shared = decode(index, bytes)?;
    if shared.usable_until == 0 {
        return Err(SharedFault::Nothing);
    }
    if shared.slewed.usable_until == 0 {
        return Err(SharedFault::NoSlewed);
    }
    shared.slewed.read_at(clock)
}

/// Two publications in range with the same slot are the same.
pub fn one_spelling()
    ensures { (i j : ℕ) (p q : SharedSpan) → IsShared p → IsShared q → slot_of i p ≡ slot_of j q → p ≡ q }
{}
