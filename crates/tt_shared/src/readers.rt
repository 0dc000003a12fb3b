//! Readings of a shared file.

ghost use Rattle.std.specs.Prelude.{◌≡◌, ◌≢◌, ◌⊎◌, ◌<◌, ◌≤◌, ℕ, List, Some, None, IfOk, IfErr, IsErrOf, nat_le};
ghost use Rattle.tt_publish.specs.Reading.{CanBeReadAt, reading_at};
ghost use Rattle.tt_shared.specs.declared.faults.SharedFault.{SharedFault as TheFault};
ghost use Rattle.tt_shared.specs.declared.faults.SharedFault.TheVariants.{Nothing, ClockBack, ClockFailed, CannotOpen, BadSlot, Contended, TooWide};
ghost use Rattle.tt_shared.specs.declared.slots.SharedSpan.{SharedSpan as Published};
ghost use Rattle.tt_shared.specs.Slot.{IsSlotOf};
ghost use Rattle.tt_shared.specs.Looking.{word_of, IsNamedBy, Tries, GivesUp, SeesNothing, Fails, EndsBy, Finds};

use crate::faults::SharedFault;
use crate::files::FileView;
use crate::indexes::count_of;
use crate::layout::{SLOT_LEN, slot_place};
use crate::places::ReadPlace;
use crate::slots::decode;
use tt_host::HostClock;
use tt_publish::{Clock, Reading};

/// How often a reader tries to copy a slot.
const MAX_TRIES: u32 = 1000;

/// A copy of a slot, and the index before and after it.
#[derive(Drop)]
struct Copied {
    index: [u8; 8],
    bytes: [u8; SLOT_LEN],
    again: [u8; 8],
}

/// The offset of the slot that an index names, in bytes.
fn offset_of(index: &[u8; 8]) -> u64
    ensures { IsNamedBy index.now result }
{
    slot_place(count_of(index))
}

/// One try: the index, the slot that it names, and the index again.
fn try_copy<P: ReadPlace>(place: &mut P) -> Result<Copied, SharedFault>
    ensures tried { IfOk result (λ c. Tries P.looks place.old c.index c.bytes c.again place.new) }
    ensures ended { IfErr result (λ fault. ((fault ≡ Nothing) × SeesNothing P.looks place.old place.new) ⊎ ((fault ≡ CannotOpen) × Fails P.looks place.old place.new)) }
{
    let Some(index) = place.index() else {
        return Err(SharedFault::CannotOpen);
    };
    if u64::from_le_bytes(index) == 0 {
        return Err(SharedFault::Nothing);
    }
    let Some(bytes) = place.slot(offset_of(&index)) else {
        return Err(SharedFault::CannotOpen);
    };
    let Some(again) = place.index() else {
        return Err(SharedFault::CannotOpen);
    };
    Ok(Copied {
        index,
        bytes,
        again,
    })
}

/// Tries until both looks show the same index.
fn copy<P: ReadPlace>(place: &mut P) -> Result<Copied, SharedFault>
    ensures found { IfOk result (λ c. Finds P.looks c.index c.bytes place.old place.new) }
    ensures ended { IfErr result (λ fault. ((fault ≡ Nothing) × EndsBy P.looks (SeesNothing P.looks) place.old place.new)
        ⊎ (((fault ≡ CannotOpen) × EndsBy P.looks (Fails P.looks) place.old place.new)
        ⊎ ((fault ≡ Contended) × GivesUp P.looks place.old place.new))) }
{
    for _ in 0..MAX_TRIES {
        let copied = try_copy(place)?;
        if copied.again == copied.index {
            return Ok(copied);
        }
    }
    Err(SharedFault::Contended)
}

/// A reading of a shared file.
#[derive(Clone, Copy, Debug, PartialEq, Eq)]
pub struct SharedReading {
    /// The reading.
    pub reading: Reading,
    /// Whether the clock had not passed `valid_until` of the publication. If it had, the daemon is late or gone. The
    /// reading still holds the true time, and grows wider.
    pub fresh: bool,
}

/// A reader of a shared file.
#[derive(Drop)]
pub struct SharedReader<P> {
    place: P,
}

impl<P> SharedReader<P> {
    /// A reader of this place.
    pub fn new(place: P) -> SharedReader<P>
        ensures { result.place ≡ place }
    {
        SharedReader { place }
    }
}

impl SharedReader<FileView> {
    /// The clock by which the file is read, as its head names it.
    pub fn clock(&self) -> HostClock
        ensures { result ≡ self.now.place.clock }
    {
        self.place.clock
    }
}

impl<P: ReadPlace> SharedReader<P> {
    /// The reading of the last publication, by its first base: `clock` has to be the clock of the file. It copies the slot
    /// until the looks at the index before and after the copy show the same. Then it reads the clock. So the publication
    /// was made before the clock was read.
    ///
    /// Refuses, in this order: 801 `Nothing` where nothing was published, 1701 `CannotOpen` where the file could not be
    /// read, 1704 `Contended` where each of 1,000 tries met another publication, 1703 `BadSlot` where no daemon wrote
    /// the slot, 801 `Nothing` where its `usable_until` is 0, since nothing is published any more: all these without
    /// reading the clock. Then 803 `ClockFailed` where the clock failed, 802 `ClockBack` where it shows less than the clock
    /// of the publication, or more than the greatest time, 1708 `TooWide` where it shows more than `usable_until`.
    pub fn now<C: Clock>(&mut self, clock: &mut C) -> Result<SharedReading, SharedFault>
        ensures read { IfOk result (λ seen. (index bytes : List ℕ) × (p : Published) × (c : ℕ)
            × Finds P.looks index bytes self.old.place self.new.place × IsSlotOf (word_of index) p bytes
            × (p.usable_until ≢ 0) × C.gives clock.old (Some c) clock.new × CanBeReadAt p.fused c × (c ≤ p.usable_until)
            × (seen.reading ≡ reading_at p.drift p.fused c) × (seen.fresh ≡ nat_le c p.valid_until)) }
        ensures nothing { IsErrOf result Nothing → (EndsBy P.looks (SeesNothing P.looks) self.old.place self.new.place
            ⊎ ((index bytes : List ℕ) × (p : Published) × Finds P.looks index bytes self.old.place self.new.place
            × IsSlotOf (word_of index) p bytes × (p.usable_until ≡ 0))) × (clock.new ≡ clock.old) }
        ensures cannot_open { IsErrOf result CannotOpen → EndsBy P.looks (Fails P.looks) self.old.place self.new.place × (clock.new ≡ clock.old) }
        ensures contended { IsErrOf result Contended → GivesUp P.looks self.old.place self.new.place × (clock.new ≡ clock.old) }
        ensures bad { IsErrOf result BadSlot → (index bytes : List ℕ) × Finds P.looks index bytes self.old.place self.new.place
            × ((p : Published) → IsSlotOf (word_of index) p bytes → ⊥) × (clock.new ≡ clock.old) }
        ensures clock_failed { IsErrOf result ClockFailed → (index bytes : List ℕ) × (p : Published)
            × Finds P.looks index bytes self.old.place self.new.place × IsSlotOf (word_of index) p bytes
            × (p.usable_until ≢ 0) × C.gives clock.old None clock.new }
        ensures clock_back { IsErrOf result ClockBack → (index bytes : List ℕ) × (p : Published) × (c : ℕ)
            × Finds P.looks index bytes self.old.place self.new.place × IsSlotOf (word_of index) p bytes
            × (p.usable_until ≢ 0) × C.gives clock.old (Some c) clock.new × (CanBeReadAt p.fused c → ⊥) }
        ensures too_wide { IsErrOf result TooWide → (index bytes : List ℕ) × (p : Published) × (c : ℕ)
            × Finds P.looks index bytes self.old.place self.new.place × IsSlotOf (word_of index) p bytes
            × (p.usable_until ≢ 0) × C.gives clock.old (Some c) clock.new × CanBeReadAt p.fused c × (p.usable_until < c) }
        ensures never { IsErrOf result SharedFault.BadFile → ⊥ }
    {
        let copied = copy(&mut self.place)?;
        let index = copied.index;
        let bytes = copied.bytes;
        let shared = decode(u64::from_le_bytes(index), &bytes)?;
        if shared.usable_until == 0 {
            return Err(SharedFault::Nothing);
        }
        let Ok(at) = clock.read() else {
            return Err(SharedFault::ClockFailed);
        };
        match shared.read_at(at) {
            Ok(reading) => Ok(SharedReading {
                reading,
                fresh: at <= shared.valid_until,
            }),
            Err(fault) => Err(fault),
        }
    }
}
