//! Devices that give or take bytes, and count their failures.

ghost use Rattle.std.specs.Prelude.{◌≡◌, ◌<◌, ◌≤◌, ℕ, Bool, true, Option, List, length, IfOk, OnOk, OnErr};
ghost use Rattle.std.specs.Io.KnownBytes.{Keeps, ReadConsumes, WriteAppends};
ghost use Rattle.tt_stream.specs.Counts.{HasFailed, count_after};

use crate::fault::DeviceFault;

/// A device that gives bytes.
pub trait ByteReader {
    /// The bytes that are still to come, if the device keeps them. `None` claims nothing.
    ghost left: { Self → Option (List ℕ) };

    /// Its failures so far. The count stays at 2^64 - 1 once it is reached.
    ghost failed: { Self → ℕ };

    /// The reads that it was asked for so far. The count stays at 2^64 - 1 once it is reached.
    ghost asked: { Self → ℕ };

    /// Puts the next bytes at the front of `buffer`, and answers how many. If the buffer is not empty, 0 says that the
    /// input has ended. A fault is answered only if the device failed, and then no byte was taken from those that are
    /// still to come. Nothing is stated about the buffer behind these bytes, nor about the buffer after a fault.
    fn read(&mut self, buffer: &mut [u8]) -> Result<usize, DeviceFault>
        ensures count { IfOk result (λ n. n ≤ length buffer.new) }
        ensures bytes { ReadConsumes (left self.old) (left self.new) result buffer.new }
        ensures sound { OnOk result (failed self.new ≡ failed self.old) }
        ensures cause { OnErr result (HasFailed (failed self.old) (failed self.new)) }
        ensures asked { asked self.new ≡ count_after (asked self.old) 1 };

    /// Its failures so far, at most 2^64 - 1.
    fn failures(&self) -> u64
        ensures { result ≡ failed self.now };
}

/// A device that takes bytes.
pub trait ByteWriter {
    /// The bytes that were written, if the device keeps them. `None` claims nothing.
    ghost taken: { Self → Option (List ℕ) };

    /// Its failures so far. The count stays at 2^64 - 1 once it is reached.
    ghost failed: { Self → ℕ };

    /// Whether the device holds back none of the bytes that were written.
    ghost flushed: { Self → Bool };

    /// Takes a first part of `bytes`, and answers how many bytes it took. If there are bytes to take, a write that
    /// takes none of them is a failure. A fault is answered only if the device failed, and then no byte was taken.
    fn write(&mut self, bytes: &[u8]) -> Result<usize, DeviceFault>
        ensures count { IfOk result (λ n. n ≤ length bytes.now) }
        ensures some { IfOk result (λ n. 0 < length bytes.now → 0 < n) }
        ensures bytes { WriteAppends (taken self.old) (taken self.new) result bytes.now }
        ensures sound { OnOk result (failed self.new ≡ failed self.old) }
        ensures cause { OnErr result (HasFailed (failed self.old) (failed self.new)) };

    /// Sends what the device holds back. It changes no byte that was written.
    fn flush(&mut self) -> Result<(), DeviceFault>
        ensures bytes { Keeps (taken self.old) (taken self.new) }
        ensures flushed { OnOk result (flushed self.new ≡ true) }
        ensures sound { OnOk result (failed self.new ≡ failed self.old) }
        ensures cause { OnErr result (HasFailed (failed self.old) (failed self.new)) };

    /// Its failures so far, at most 2^64 - 1.
    fn failures(&self) -> u64
        ensures { result ≡ failed self.now };
}
