//! Devices in memory, for tests and for proofs over runs. They give or take bytes piece by piece, and fail at a chosen
//! call.

ghost use Rattle.std.specs.Prelude.{◌≡◌, ◌<◌, ◌≤◌, ◌++◌, ◌↔◌, Some, [], true, false, length, take, drop, min, IfOk, OnOk, OnErr, IsErr};
ghost use Rattle.std.specs.Io.KnownBytes.{Keeps, ReadConsumes, WriteAppends};
ghost use Rattle.tt_stream.specs.Counts.{HasFailed, count_after};
ghost use Rattle.tt_stream.specs.Memory.{ReaderState, WriterState};

use crate::count::Count;
use crate::device::{ByteReader, ByteWriter};
use crate::fault::DeviceFault;
use std::alloc::Global;
use std::marker::Model;

// The number of the call that fails, counted from 1, with the calls and the failures so far.
#[derive(Drop)]
struct Course {
    fails_at: Option<u64>,
    calls: Count,
    failures: Count,
}

impl Course {
    fn new(fails_at: Option<u64>) -> Course
        ensures { result ≡ record { fails_at = fails_at; calls = 0; failures = 0 } }
    {
        Course {
            fails_at,
            calls: Count::zero(),
            failures: Count::zero(),
        }
    }

    // Counts a call. It fails if its number is `fails_at`.
    fn call(&mut self) -> Result<(), DeviceFault>
        ensures fails { IsErr result ↔ (self.old.fails_at ≡ Some (count_after self.old.calls 1)) }
        ensures ok { OnOk result (self.new ≡ record self.old { calls = count_after self.old.calls 1 }) }
        ensures err { OnErr result (self.new ≡ record self.old { calls = count_after self.old.calls 1; failures = count_after self.old.failures 1 }) }
    {
        self.calls = self.calls.risen();
        if self.fails_at == Some(self.calls.get()) {
            return Err(self.fault());
        }
        Ok(())
    }

    // Counts a failure.
    fn fault(&mut self) -> DeviceFault
        ensures { self.new ≡ record self.old { failures = count_after self.old.failures 1 } }
    {
        self.failures = self.failures.risen();
        DeviceFault
    }
}

/// A reader over bytes in memory.
#[derive(Drop)]
pub struct MemoryReader<'a> {
    left: &'a [u8],
    piece: usize,
    course: Course,
}

impl<'a> Model for MemoryReader<'a> {
    ghost Value = { ReaderState };

    ghost view = { λ r. record { left = r.left.now; piece = r.piece; fails_at = r.course.fails_at; calls = r.course.calls; failures = r.course.failures } };

    ghost invariant = { λ r. 0 < r.piece };
}

impl<'a> MemoryReader<'a> {
    /// A reader that gives at most `piece` bytes by each call. Call number `fails_at`, counted from 1, fails. `None`
    /// names no call. Requires: `piece` is not 0.
    pub fn new(bytes: &'a [u8], piece: usize, fails_at: Option<u64>) -> Self
        requires { 0 < piece }
        ensures { result ≡ record { left = bytes.entry.now; piece = piece; fails_at = fails_at; calls = 0; failures = 0 } }
    {
        MemoryReader {
            left: bytes,
            piece,
            course: Course::new(fails_at),
        }
    }
}

impl<'a> ByteReader for MemoryReader<'a> {
    ghost left = { λ reader. Some reader.left };

    ghost failed = { λ reader. reader.failures };

    ghost asked = { λ reader. reader.calls };

    /// Gives some bytes. Their number is the least of three: what is left, what fits into the buffer, and `piece`.
    fn read(&mut self, buffer: &mut [u8]) -> Result<usize, DeviceFault>
        ensures count { IfOk result (λ n. n ≤ length buffer.new) }
        ensures bytes { ReadConsumes (Some self.old.left) (Some self.new.left) result buffer.new }
        ensures sound { OnOk result (self.new.failures ≡ self.old.failures) }
        ensures cause { OnErr result (HasFailed self.old.failures self.new.failures) }
        ensures asked { self.new.calls ≡ count_after self.old.calls 1 }

        ensures gives { IfOk result (λ n. n ≡ min (min (length self.old.left) (length buffer.old)) self.old.piece) }
        ensures fails { IsErr result ↔ (self.old.fails_at ≡ Some (count_after self.old.calls 1)) }
        ensures ok { IfOk result (λ n. self.new ≡ record self.old { left = drop n self.old.left; calls = count_after self.old.calls 1 }) }
        ensures err { OnErr result (self.new ≡ record self.old { calls = count_after self.old.calls 1; failures = count_after self.old.failures 1 }) }
    {
        self.course.call()?;
        let n = self.left.len().min(buffer.len()).min(self.piece);
        let (front, rest) = self.left.split_at(n);
        buffer[..n].copy_from_slice(front);
        self.left = rest;
        Ok(n)
    }

    fn failures(&self) -> u64 {
        self.course.failures.get()
    }
}

/// A writer into memory. It fails if an allocation fails.
#[derive(Drop)]
pub struct MemoryWriter {
    taken: Vec<u8>,
    piece: usize,
    course: Course,
    /// Whether nothing was written since the last flush.
    flushed: bool,
}

impl Model for MemoryWriter {
    ghost Value = { WriterState };

    ghost view = { λ w. record { taken = w.taken.items; piece = w.piece; fails_at = w.course.fails_at; calls = w.course.calls; failures = w.course.failures; flushed = w.flushed } };
}

impl MemoryWriter {
    /// A writer that takes at most `piece` bytes by each call. If `piece` is 0 it takes no byte, and so a write of some
    /// bytes fails. Call number `fails_at`, counted from 1, fails. `None` names no call. A flush is a call too.
    pub fn new(alloc: Global, piece: usize, fails_at: Option<u64>) -> Self
        ensures { result ≡ record { taken = []; piece = piece; fails_at = fails_at; calls = 0; failures = 0; flushed = true } }
    {
        MemoryWriter {
            taken: Vec::new(alloc),
            piece,
            course: Course::new(fails_at),
            flushed: true,
        }
    }

    /// The bytes that were written.
    pub fn taken(&self) -> &[u8]
        ensures { result.now ≡ self.now.taken }
    {
        &self.taken
    }
}

impl ByteWriter for MemoryWriter {
    ghost taken = { λ writer. Some writer.taken };

    ghost failed = { λ writer. writer.failures };

    ghost flushed = { λ writer. writer.flushed };

    /// Takes some bytes. Their number is the lesser of two: the length of `bytes`, and `piece`.
    fn write(&mut self, bytes: &[u8]) -> Result<usize, DeviceFault>
        ensures count { IfOk result (λ n. n ≤ length bytes.now) }
        ensures some { IfOk result (λ n. 0 < length bytes.now → 0 < n) }
        ensures bytes { WriteAppends (Some self.old.taken) (Some self.new.taken) result bytes.now }
        ensures sound { OnOk result (self.new.failures ≡ self.old.failures) }
        ensures cause { OnErr result (HasFailed self.old.failures self.new.failures) }

        ensures takes { IfOk result (λ n. n ≡ min (length bytes.now) self.old.piece) }
        ensures fails { self.old.fails_at ≡ Some (count_after self.old.calls 1) → IsErr result }
        ensures ok { IfOk result (λ n. self.new ≡ record self.old { taken = self.old.taken ++ take n bytes.now; calls = count_after self.old.calls 1; flushed = false }) }
        ensures err { OnErr result (self.new ≡ record self.old { calls = count_after self.old.calls 1; failures = count_after self.old.failures 1 }) }
    {
        self.course.call()?;
        let n = bytes.len().min(self.piece);
        let is_full = n == 0 && !bytes.is_empty();
        if is_full || self.taken.extend_from_slice(&bytes[..n]).is_err() {
            return Err(self.course.fault());
        }
        self.flushed = false;
        Ok(n)
    }

    fn flush(&mut self) -> Result<(), DeviceFault>
        ensures bytes { Keeps (Some self.old.taken) (Some self.new.taken) }
        ensures flushed { OnOk result (self.new.flushed ≡ true) }
        ensures sound { OnOk result (self.new.failures ≡ self.old.failures) }
        ensures cause { OnErr result (HasFailed self.old.failures self.new.failures) }

        ensures fails { IsErr result ↔ (self.old.fails_at ≡ Some (count_after self.old.calls 1)) }
        ensures ok { OnOk result (self.new ≡ record self.old { calls = count_after self.old.calls 1; flushed = true }) }
        ensures err { OnErr result (self.new ≡ record self.old { calls = count_after self.old.calls 1; failures = count_after self.old.failures 1 }) }
    {
        self.course.call()?;
        self.flushed = true;
        Ok(())
    }

    fn failures(&self) -> u64 {
        self.course.failures.get()
    }
}
