//! A shared file in memory.

ghost use Rattle.std.specs.Prelude.{◌≡◌, ◌+◌, ◌<◌, ◌≤◌, ℕ, true, false, length, nat_lt, OnOk, OnErr, is_ok};
ghost use Rattle.tt_stream.specs.Counts.{HasFailed, count_after};
ghost use Rattle.tt_shared.specs.Layout.{file_len};
ghost use Rattle.tt_shared.specs.Writing.{Write, StopsShort};
ghost use Rattle.tt_shared.specs.Seeing.{DiesWriting};
ghost use Rattle.tt_shared.specs.declared.slots.SharedSpan.{SharedSpan};
ghost use Rattle.tt_shared.specs.Memory.{MemoryState, MemoryDoes, MemoryShows, put};

use crate::faults::PlaceFault;
use crate::layout::{FILE_LEN, SLOT_LEN};
use crate::places::{Place, ReadPlace};
use std::marker::Model;

/// A shared file in memory, for tests. It fails at one of its writes, if it is told to, and keeps the first half of the
/// bytes of that write.
///
/// In contracts it is its bytes, the number of the write that is to fail, how many writes there were, and how many
/// failed.
#[derive(Drop)]
pub struct MemoryPlace {
    bytes: [u8; FILE_LEN],
    fails_at: Option<u64>,
    calls: u64,
    failures: u64,
}

impl Model for MemoryPlace {
    ghost Value = { MemoryState };

    ghost view = { λ m. record { bytes = m.bytes; fails_at = m.fails_at; calls = m.calls; failures = m.failures } };
}

/// Whether `len` bytes from `offset` on reach past the end of the file.
fn reaches_past(offset: u64, len: usize) -> bool
    ensures { result ≡ nat_lt file_len (offset + len) }
{
    offset > FILE_LEN as u64 || len > FILE_LEN - offset as usize
}

impl MemoryPlace {
    /// A file with these bytes. Its write number `fails_at`, counted from 1, fails; with `None` no write does.
    pub fn new(bytes: [u8; FILE_LEN], fails_at: Option<u64>) -> MemoryPlace
        ensures { result ≡ record { bytes = bytes; fails_at = fails_at; calls = 0; failures = 0 } }
    {
        MemoryPlace {
            bytes,
            fails_at,
            calls: 0,
            failures: 0,
        }
    }

    /// The bytes of the file.
    pub fn bytes(&self) -> [u8; FILE_LEN]
        ensures { result ≡ self.now.bytes }
    {
        self.bytes
    }

    /// Puts the bytes from place `at` on.
    fn put(&mut self, at: usize, bytes: &[u8])
        requires { at + length bytes.now ≤ file_len }
        ensures { self.new ≡ record self.old { bytes = put at bytes.now self.old.bytes } }
    {
        self.bytes[at..at + bytes.len()].copy_from_slice(bytes);
    }
}

impl Place for MemoryPlace {
    ghost does = { MemoryDoes };

    ghost failed = { λ place. place.failures };

    /// Puts the bytes into the file. If they reach past its end, it fails and changes no byte. At the call that is to
    /// fail it puts the first half of them.
    fn write_all_at(&mut self, offset: u64, bytes: &[u8]) -> Result<(), PlaceFault>
        ensures did { MemoryDoes self.old (record { offset = offset; bytes = bytes.now }) (is_ok result) self.new }
        ensures sound { OnOk result (self.new.failures ≡ self.old.failures) }
        ensures cause { OnErr result (HasFailed self.old.failures self.new.failures) }

        ensures counted { (self.new.calls ≡ count_after self.old.calls 1) × (self.new.fails_at ≡ self.old.fails_at) }
    {
        self.calls = self.calls.saturating_add(1);
        if reaches_past(offset, bytes.len()) {
            self.failures = self.failures.saturating_add(1);
            return Err(PlaceFault::Failed);
        }
        if self.fails_at == Some(self.calls) {
            self.put(offset as usize, &bytes[..bytes.len() / 2]);
            self.failures = self.failures.saturating_add(1);
            return Err(PlaceFault::Failed);
        }
        self.put(offset as usize, bytes);
        Ok(())
    }

    fn failures(&self) -> u64 {
        self.failures
    }
}

impl ReadPlace for MemoryPlace {
    ghost looks = { MemoryShows };

    fn index(&mut self) -> Option<[u8; 8]> {
        let mut index = [0; 8];
        index.copy_from_slice(&self.bytes[16..24]);
        Some(index)
    }

    /// Fails where the slot reaches past the end of the file.
    fn slot(&mut self, offset: u64) -> Option<[u8; SLOT_LEN]> {
        if reaches_past(offset, SLOT_LEN) {
            return None;
        }
        let at = offset as usize;
        let mut bytes = [0; SLOT_LEN];
        bytes.copy_from_slice(&self.bytes[at..at + SLOT_LEN]);
        Some(bytes)
    }
}

/// A law, not a call to make. If a write of a writer over memory failed, the file is as if the writer had died then. So
/// its readers find what [`crash_laws`](crate::crash_laws) says.
pub fn memory_laws()
    ensures { (n : ℕ) (p : SharedSpan) (before after : MemoryState) → StopsShort MemoryDoes n p before after → DiesWriting n p before.bytes after.bytes }
{}
