//! The writer of a shared file, and the two writes of a publication.

ghost use Rattle.std.specs.Prelude.{◌≡◌, ◌+◌, ◌<◌, ◌^◌, ◌↔◌, ◌⊎◌, true, false, OnOk, OnErr, IsErrOf};
ghost use Rattle.tt_stream.specs.Counts.{HasFailed};
ghost use Rattle.tt_span.specs.Time.{max_time};
ghost use Rattle.tt_shared.specs.Index.{index_at};
ghost use Rattle.tt_shared.specs.Writing.{TellerState, slot_write, index_write, Publishes, StopsShort};

use crate::faults::{PlaceFault, WriteFault};
use crate::indexes::{count_of, index_of, turn_of};
use crate::layout::{SLOT_LEN, slot_place};
use crate::places::Place;
use crate::slots::{SharedSpan, encode};
use std::marker::Model;
use tt_span::MAX_TIME;

/// The writer of a shared file. A file has to have one writer only; the lock that [`open_file`](crate::open_file) takes
/// sees to that.
///
/// In contracts it is its place, how many publications stand in the file, and whether a write failed.
#[derive(Drop)]
pub struct SharedTeller<P> {
    place: P,
    count: u64,
    broken: bool,
}

impl<P> Model for SharedTeller<P> {
    ghost Value = { TellerState P };

    ghost view = { λ t. record { place = t.place; count = t.count; broken = t.broken } };
}

/// The first write of the publication after `count` others: its slot.
fn next_slot(count: u64, shared: &SharedSpan) -> (u64, [u8; SLOT_LEN])
    requires { count + 1 < 2 ^ 64 }
    ensures { record { offset = result.0; bytes = result.1 } ≡ slot_write (count + 1) shared.now }
{
    let next = count + 1;
    (
        slot_place(next),
        encode(u64::from_le_bytes(index_of(next)), shared),
    )
}

/// The second write of the publication after `count` others: the byte of the index that changes.
fn next_counter(count: u64) -> (u64, [u8; 1])
    requires { count + 1 < 2 ^ 64 }
    ensures { record { offset = result.0; bytes = result.1 } ≡ index_write count }
{
    let turn = turn_of(count);
    (16 + turn as u64, [index_of(count + 1)[turn]])
}

impl<P> SharedTeller<P> {
    /// The writer of a place that shows this index. It goes on behind the publications that this index counts.
    pub fn resume(place: P, index: &[u8; 8]) -> SharedTeller<P>
        ensures place { result.place ≡ place }
        ensures learned { index_at result.count ≡ index.now }
        ensures whole { result.broken ≡ false }
    {
        SharedTeller {
            place,
            count: count_of(index),
            broken: false,
        }
    }
}

impl<P: Place> SharedTeller<P> {
    /// How many publications stand in the file, through all lives of the daemon.
    pub fn count(&self) -> u64
        ensures { result ≡ self.now.count }
    {
        self.count
    }

    /// How many writes of its place failed.
    pub fn failures(&self) -> u64
        ensures { result ≡ P.failed self.now.place }
    {
        self.place.failures()
    }

    /// Puts a publication into the file, by two writes: its slot, and then one byte of the index. Refuses, in this
    /// order: 1706 `Broken` where an earlier write failed, 805 `UsedUp` after 2^64 - 1 publications, 802 `ClockBack`
    /// where the clock of the publication is above the greatest time: by these nothing is written. Then 1705 `Failed`
    /// where a write failed: the file shows its readers the publication before or this one, and this writer writes no
    /// more. Drop it, and open the file again.
    pub fn publish(&mut self, shared: &SharedSpan) -> Result<(), WriteFault>
        ensures published { OnOk result (Publishes P.does self.old.count shared.now self.old.place self.new.place) }
        ensures counted { OnOk result ((self.new.count ≡ self.old.count + 1) × (self.new.broken ≡ false)) }
        ensures broken { IsErrOf result WriteFault.Broken ↔ (self.old.broken ≡ true) }
        ensures used_up { IsErrOf result WriteFault.UsedUp ↔ ((self.old.broken ≡ false) × (self.old.count + 1 ≡ 2 ^ 64)) }
        ensures clock_back { IsErrOf result WriteFault.ClockBack ↔ ((self.old.broken ≡ false) × (self.old.count + 1 < 2 ^ 64) × (max_time < shared.now.fused.clock)) }
        // A call that refuses made no write, or its last write failed, and then no later call writes.
        ensures stopped { OnErr result ((self.new ≡ self.old) ⊎ (StopsShort P.does self.old.count shared.now self.old.place self.new.place × (self.new.broken ≡ true))) }
        ensures cause { IsErrOf result WriteFault.Failed → StopsShort P.does self.old.count shared.now self.old.place self.new.place × HasFailed (P.failed self.old.place) (P.failed self.new.place) }
        ensures never { (IsErrOf result WriteFault.CannotOpen → ⊥) × (IsErrOf result WriteFault.Locked → ⊥) × (IsErrOf result WriteFault.OtherClock → ⊥) }
        ensures sound { OnOk result (P.failed self.new.place ≡ P.failed self.old.place) }
        ensures nothing { self.old.broken ≡ true → self.new ≡ self.old }
    {
        if self.broken {
            return Err(WriteFault::Broken);
        }
        if self.count == u64::MAX {
            return Err(WriteFault::UsedUp);
        }
        if shared.fused.clock > MAX_TIME {
            return Err(WriteFault::ClockBack);
        }
        match self.write_next(shared) {
            Ok(()) => {}
            Err(_) => return Err(WriteFault::Failed),
        }
        self.count += 1;
        Ok(())
    }

    /// The two writes of the next publication, in their order. It is broken after one that failed.
    fn write_next(&mut self, shared: &SharedSpan) -> Result<(), PlaceFault>
        requires room { self.old.count + 1 < 2 ^ 64 }
        requires whole { self.old.broken ≡ false }
        ensures count { self.new.count ≡ self.old.count }
        ensures published { OnOk result (Publishes P.does self.old.count shared.now self.old.place self.new.place) }
        ensures usable { OnOk result (self.new.broken ≡ false) }
        ensures sound { OnOk result (P.failed self.new.place ≡ P.failed self.old.place) }
        ensures stopped { OnErr result (StopsShort P.does self.old.count shared.now self.old.place self.new.place × (self.new.broken ≡ true) × HasFailed (P.failed self.old.place) (P.failed self.new.place)) }
    {
        self.broken = true;
        let (offset, slot) = next_slot(self.count, shared);
        self.place.write_all_at(offset, &slot)?;
        let (offset, counter) = next_counter(self.count);
        self.place.write_all_at(offset, &counter)?;
        self.broken = false;
        Ok(())
    }
}
