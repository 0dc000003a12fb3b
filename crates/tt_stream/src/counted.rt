//! A reader or a writer of the standard library, with its counts.

ghost use Rattle.std.specs.Prelude.{◌≡◌};
ghost use Rattle.tt_stream.specs.Counts.{count_after};

use crate::count::Count;
use crate::device::{ByteReader, ByteWriter};
use crate::fault::DeviceFault;
use std::io::{Read, Write};

/// A reader or a writer of the standard library that counts its failures. Every error is a failure, also an error that
/// says that the call was interrupted: no call is tried again. A write of some bytes that takes none of them is a
/// failure too. What is left or was written is known if the device within says so.
///
/// It is proved that an error is answered only if a failure is counted. The traits of the standard library do not say
/// when a call fails, so two things are only tested: that a failure is counted only if the device within failed, and
/// that a device that does not keep its bytes is asked at all.
#[derive(Drop)]
pub struct Counted<D> {
    device: D,
    failures: Count,
    reads: Count,
    /// Whether nothing was written since the last flush.
    flushed: bool,
}

impl<D> Counted<D> {
    ghost use Rattle.tt_stream.specs.Counted.{counted_device, counted_failures, counted_reads};

    /// A device with no failure so far.
    pub fn new(device: D) -> Self
        ensures device { counted_device result ≡ device }
        ensures failures { counted_failures result ≡ 0 }
        ensures reads { counted_reads result ≡ 0 }
    {
        Counted {
            device,
            failures: Count::zero(),
            reads: Count::zero(),
            flushed: true,
        }
    }

    /// The device within.
    pub fn into_inner(self) -> D
        ensures { result ≡ counted_device self }
    {
        self.device
    }

    // Counts a failure.
    fn fault(&mut self) -> DeviceFault
        ensures device { counted_device self.new ≡ counted_device self.old }
        ensures failures { counted_failures self.new ≡ count_after (counted_failures self.old) 1 }
        ensures reads { counted_reads self.new ≡ counted_reads self.old }
    {
        self.failures = self.failures.risen();
        DeviceFault
    }
}

impl<R: Read> ByteReader for Counted<R> {
    ghost use Rattle.tt_stream.specs.Counted.{counted_device, counted_failures, counted_reads};

    ghost left = { λ counted. R.remaining (counted_device counted) };

    ghost failed = { counted_failures };

    ghost asked = { counted_reads };

    fn read(&mut self, buffer: &mut [u8]) -> Result<usize, DeviceFault> {
        self.reads = self.reads.risen();
        match self.device.read(buffer) {
            Ok(n) => Ok(n),
            Err(_) => Err(self.fault()),
        }
    }

    fn failures(&self) -> u64 {
        self.failures.get()
    }
}

impl<W: Write> ByteWriter for Counted<W> {
    ghost use Rattle.tt_stream.specs.Counted.{counted_device, counted_failures, counted_flushed};

    ghost taken = { λ counted. W.contents (counted_device counted) };

    ghost failed = { counted_failures };

    ghost flushed = { counted_flushed };

    fn write(&mut self, bytes: &[u8]) -> Result<usize, DeviceFault> {
        self.flushed = false;
        match self.device.write(bytes) {
            Ok(n) if n > 0 || bytes.is_empty() => Ok(n),
            _ => Err(self.fault()),
        }
    }

    fn flush(&mut self) -> Result<(), DeviceFault> {
        if self.device.flush().is_err() {
            return Err(self.fault());
        }
        self.flushed = true;
        Ok(())
    }

    fn failures(&self) -> u64 {
        self.failures.get()
    }
}
