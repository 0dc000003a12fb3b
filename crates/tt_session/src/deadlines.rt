//! A reader and a writer of a session that has a deadline.

ghost use Rattle.std.specs.Prelude.{◌≡◌, ◌+◌, ◌<◌, ◌≤◌, ℕ, true, false, length, IfOk, OnOk, OnErr};
ghost use Rattle.std.specs.Io.KnownBytes.{Keeps, ReadConsumes, WriteAppends};
ghost use Rattle.tt_stream.specs.Counts.{HasFailed, count_after};
ghost use Rattle.tt_session.specs.Deadline.{ShowsBefore, WhyEnded};

use crate::timed::{TimedReader, TimedWriter};
use std::marker::Model;
use tt_publish::Clock;
use tt_stream::{ByteReader, ByteWriter, DeviceFault};

/// How long a device may be asked: for all calls together, and for each of them.
#[derive(Clone, Copy, Debug, PartialEq, Eq)]
pub struct Deadline {
    /// The clock reading, in nanoseconds, from which on the device is asked no more.
    pub at: u64,
    /// How often one call asks the device at most, while nothing comes.
    pub tries: u32,
}

/// A reader with a deadline. It asks its device until bytes come or the input ends, as long as its clock shows a time
/// before the deadline. It reads the clock each time before it asks the device. So if the reads of the device end by
/// themselves, as on a socket with a timeout, the session ends soon after its deadline, however many bytes came before.
///
/// A read fails if the device or the clock failed, if the deadline is reached, or if nothing came in
/// [`Deadline::tries`] tries. Each of these counts as a failure of this reader, and takes no byte. If a read of the
/// device gave nothing in time, that is neither the end nor a failure.
#[derive(Drop)]
pub struct DeadlineReader<D, C> {
    device: D,
    clock: C,
    deadline: Deadline,
    failures: u64,
    reads: u64,
}

impl<D, C> Model for DeadlineReader<D, C> {
    ghost use Rattle.tt_session.specs.Deadline.{DeadlineReaderState};

    ghost Value = { DeadlineReaderState D C };

    ghost view = { λ r. record { device = r.device; clock = r.clock; deadline = r.deadline; failures = r.failures; reads = r.reads } };
}

impl<D, C> DeadlineReader<D, C> {
    /// A reader with no failure so far.
    pub fn new(device: D, clock: C, deadline: Deadline) -> Self
        ensures made { result ≡ record { device = device; clock = clock; deadline = deadline; failures = 0; reads = 0 } }
    {
        DeadlineReader {
            device,
            clock,
            deadline,
            failures: 0,
            reads: 0,
        }
    }
}

impl<D: TimedReader, C: Clock> ByteReader for DeadlineReader<D, C> {
    ghost left = { λ reader. D.left reader.device };

    ghost failed = { λ reader. reader.failures };

    ghost asked = { λ reader. reader.reads };

    fn read(&mut self, buffer: &mut [u8]) -> Result<usize, DeviceFault>
        ensures count { IfOk result (λ n. n ≤ length buffer.new) }
        ensures bytes { ReadConsumes (D.left self.old.device) (D.left self.new.device) result buffer.new }
        ensures sound { OnOk result (self.new.failures ≡ self.old.failures) }
        ensures cause { OnErr result (HasFailed self.old.failures self.new.failures) }
        ensures asked { self.new.reads ≡ count_after self.old.reads 1 }

        // If it gives an answer, the clock has just shown a time before the deadline.
        ensures in_time { OnOk result ((n : ℕ) × ShowsBefore C.gives self.old.deadline.at self.old.clock (n + 1) self.new.clock) }
        ensures why { OnErr result (WhyEnded C.gives C.failed self.old.deadline (D.failed self.old.device) (D.failed self.new.device) self.old.clock self.new.clock) }
        ensures same { self.new.deadline ≡ self.old.deadline }
    {
        self.reads = self.reads.saturating_add(1);
        match read_before(&mut self.device, &mut self.clock, self.deadline, buffer) {
            Ok(n) => Ok(n),
            Err(fault) => {
                self.failures = self.failures.saturating_add(1);
                Err(fault)
            }
        }
    }

    fn failures(&self) -> u64 {
        self.failures
    }
}

/// A writer with a deadline. It asks its device until it takes bytes, as long as its clock shows a time before the
/// deadline, as [`DeadlineReader`] does. It asks for a flush once, whatever the time.
///
/// A write fails if the device or the clock failed, if the deadline is reached, or if no byte was taken in
/// [`Deadline::tries`] tries. A flush fails if the device failed. Each of these counts as a failure of this writer, and
/// writes no byte.
#[derive(Drop)]
pub struct DeadlineWriter<D, C> {
    device: D,
    clock: C,
    deadline: Deadline,
    failures: u64,
    /// Whether nothing was written since the last flush.
    flushed: bool,
}

impl<D, C> Model for DeadlineWriter<D, C> {
    ghost use Rattle.tt_session.specs.Deadline.{DeadlineWriterState};

    ghost Value = { DeadlineWriterState D C };

    ghost view = { λ w. record { device = w.device; clock = w.clock; deadline = w.deadline; failures = w.failures; flushed = w.flushed } };
}

impl<D, C> DeadlineWriter<D, C> {
    ghost use Rattle.std.specs.Prelude.{true};

    /// A writer with no failure so far.
    pub fn new(device: D, clock: C, deadline: Deadline) -> Self
        ensures made { result ≡ record { device = device; clock = clock; deadline = deadline; failures = 0; flushed = true } }
    {
        DeadlineWriter {
            device,
            clock,
            deadline,
            failures: 0,
            flushed: true,
        }
    }
}

impl<D: TimedWriter, C: Clock> ByteWriter for DeadlineWriter<D, C> {
    ghost taken = { λ writer. D.taken writer.device };

    ghost failed = { λ writer. writer.failures };

    ghost flushed = { λ writer. writer.flushed };

    fn write(&mut self, bytes: &[u8]) -> Result<usize, DeviceFault>
        ensures count { IfOk result (λ n. n ≤ length bytes.now) }
        ensures some { IfOk result (λ n. 0 < length bytes.now → 0 < n) }
        ensures bytes { WriteAppends (D.taken self.old.device) (D.taken self.new.device) result bytes.now }
        ensures sound { OnOk result (self.new.failures ≡ self.old.failures) }
        ensures cause { OnErr result (HasFailed self.old.failures self.new.failures) }

        // If it gives an answer, the clock has just shown a time before the deadline.
        ensures in_time { OnOk result ((n : ℕ) × ShowsBefore C.gives self.old.deadline.at self.old.clock (n + 1) self.new.clock) }
        ensures why { OnErr result (WhyEnded C.gives C.failed self.old.deadline (D.failed self.old.device) (D.failed self.new.device) self.old.clock self.new.clock) }
        ensures same { self.new.deadline ≡ self.old.deadline }
    {
        self.flushed = false;
        match write_before(&mut self.device, &mut self.clock, self.deadline, bytes) {
            Ok(n) => Ok(n),
            Err(fault) => {
                self.failures = self.failures.saturating_add(1);
                Err(fault)
            }
        }
    }

    fn flush(&mut self) -> Result<(), DeviceFault> {
        match self.device.flush() {
            Ok(()) => {
                self.flushed = true;
                Ok(())
            }
            Err(fault) => {
                self.failures = self.failures.saturating_add(1);
                Err(fault)
            }
        }
    }

    fn failures(&self) -> u64 {
        self.failures
    }
}

/// Asks the device for bytes until some come or the input ends, as long as the clock shows a time before the deadline.
fn read_before<D: TimedReader, C: Clock>(
    device: &mut D,
    clock: &mut C,
    deadline: Deadline,
    buffer: &mut [u8],
) -> Result<usize, DeviceFault>
    ensures count { IfOk result (λ n. n ≤ length buffer.new) }
    ensures bytes { ReadConsumes (D.left device.old) (D.left device.new) result buffer.new }
    ensures in_time { OnOk result ((n : ℕ) × ShowsBefore C.gives deadline.at clock.old (n + 1) clock.new) }
    ensures why { OnErr result (WhyEnded C.gives C.failed deadline (D.failed device.old) (D.failed device.new) clock.old clock.new) }
{
    for _ in 0..deadline.tries {
        let Ok(now) = clock.read() else {
            return Err(DeviceFault);
        };
        if now >= deadline.at {
            return Err(DeviceFault);
        }
        match device.read(buffer) {
            Ok(Some(n)) => return Ok(n),
            Ok(None) => {}
            Err(fault) => return Err(fault),
        }
    }
    Err(DeviceFault)
}

/// Asks the device to take bytes until it takes some, as long as the clock shows a time before the deadline.
fn write_before<D: TimedWriter, C: Clock>(
    device: &mut D,
    clock: &mut C,
    deadline: Deadline,
    bytes: &[u8],
) -> Result<usize, DeviceFault>
    ensures count { IfOk result (λ n. n ≤ length bytes.now) }
    ensures some { IfOk result (λ n. 0 < length bytes.now → 0 < n) }
    ensures bytes { WriteAppends (D.taken device.old) (D.taken device.new) result bytes.now }
    ensures in_time { OnOk result ((n : ℕ) × ShowsBefore C.gives deadline.at clock.old (n + 1) clock.new) }
    ensures why { OnErr result (WhyEnded C.gives C.failed deadline (D.failed device.old) (D.failed device.new) clock.old clock.new) }
{
    for _ in 0..deadline.tries {
        let Ok(now) = clock.read() else {
            return Err(DeviceFault);
        };
        if now >= deadline.at {
            return Err(DeviceFault);
        }
        match device.write(bytes) {
            Ok(Some(n)) => return Ok(n),
            Ok(None) => {}
            Err(fault) => return Err(fault),
        }
    }
    Err(DeviceFault)
}
