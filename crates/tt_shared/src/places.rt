//! Where a writer puts the bytes of a shared file, and where readers find them.

ghost use Rattle.std.specs.Prelude.{◌≡◌, ℕ, Bool, OnOk, OnErr, is_ok};
ghost use Rattle.tt_stream.specs.Counts.{HasFailed};
ghost use Rattle.tt_shared.specs.Writing.{Write};
ghost use Rattle.tt_shared.specs.Looking.{Look, AtIndex, AtSlot};

use crate::faults::PlaceFault;
use crate::layout::SLOT_LEN;

/// The place that a writer writes to: a file, or memory in tests. It counts its failures.
pub trait Place {
    /// What a write does to the place, and whether it was done whole. A file of the operating system claims nothing.
    ghost does: { Self → Write → Bool → Self → Type 0 };

    /// Its failures so far. The count stays at 2^64 - 1 once it is reached.
    ghost failed: { Self → ℕ };

    /// Writes all the bytes from `offset` on. A fault is answered only if the place failed; some of the bytes may have
    /// been written then.
    fn write_all_at(&mut self, offset: u64, bytes: &[u8]) -> Result<(), PlaceFault>
        ensures did { does self.old (record { offset = offset; bytes = bytes.now }) (is_ok result) self.new }
        ensures sound { OnOk result (failed self.new ≡ failed self.old) }
        ensures cause { OnErr result (HasFailed (failed self.old) (failed self.new)) };

    /// Its failures so far, at most 2^64 - 1.
    fn failures(&self) -> u64
        ensures { result ≡ failed self.now };
}

/// The place that a reader reads: a file, or memory in tests.
pub trait ReadPlace {
    /// What a look gives, and the place after it. A file of the operating system claims nothing.
    ghost looks: { Self → Look → Self → Type 0 };

    /// The eight bytes of the index. None if the look failed.
    fn index(&mut self) -> Option<[u8; 8]>
        ensures { looks self.old (AtIndex result) self.new };

    /// The bytes of the slot that begins at `offset`. None if the look failed.
    fn slot(&mut self, offset: u64) -> Option<[u8; SLOT_LEN]>
        ensures { looks self.old (AtSlot offset result) self.new };
}
