//! Devices whose calls may end before anything came.

ghost use Rattle.std.specs.Prelude.{◌≡◌, ◌<◌, ◌≤◌, ℕ, Option, Some, None, List, length, take, IfOk, IfSome, OnOk, OnErr, MatchResult, MatchOption};
ghost use Rattle.std.specs.Io.KnownBytes.{Keeps, ReadConsumes, WriteAppends};
ghost use Rattle.tt_stream.specs.Counts.{HasFailed};
ghost use Rattle.tt_session.specs.Timed.{TimedConsumes, TimedAppends};

use std::io::{ErrorKind, Read, Write};
use tt_stream::DeviceFault;

/// A device that gives bytes. A read may end before any came.
pub trait TimedReader {
    /// The bytes that are still to come, where the device keeps them. `None` claims nothing.
    ghost left: { Self → Option (List ℕ) };

    /// Its failures so far. The count stays at 2^64 - 1 once it is reached.
    ghost failed: { Self → ℕ };

    /// Puts the next bytes at the front of `buffer`, and answers how many. If the buffer is not empty, 0 says that the
    /// input has ended. `None` says that nothing came in time. That is neither the end nor a failure: the next read may
    /// give bytes, and none was lost. A fault is answered only if the device failed, and then no byte was taken.
    fn read(&mut self, buffer: &mut [u8]) -> Result<Option<usize>, DeviceFault>
        ensures count { IfOk result (λ came. IfSome came (λ n. n ≤ length buffer.new)) }
        ensures bytes { TimedConsumes (left self.old) (left self.new) result buffer.new }
        ensures sound { OnOk result (failed self.new ≡ failed self.old) }
        ensures cause { OnErr result (HasFailed (failed self.old) (failed self.new)) };
}

/// A device that takes bytes. A write may end before any was taken.
pub trait TimedWriter {
    /// The bytes that were written, where the device keeps them. `None` claims nothing.
    ghost taken: { Self → Option (List ℕ) };

    /// Its failures so far. The count stays at 2^64 - 1 once it is reached.
    ghost failed: { Self → ℕ };

    /// Takes the first of these bytes, and answers how many. `None` says that none was taken in time. That is not a
    /// failure. If there are bytes to take, a write that takes none of them is a failure. A fault is answered only if
    /// the device failed, and then no byte was taken.
    fn write(&mut self, bytes: &[u8]) -> Result<Option<usize>, DeviceFault>
        ensures count { IfOk result (λ took. IfSome took (λ n. n ≤ length bytes.now)) }
        ensures some { IfOk result (λ took. IfSome took (λ n. 0 < length bytes.now → 0 < n)) }
        ensures bytes { TimedAppends (taken self.old) (taken self.new) result bytes.now }
        ensures sound { OnOk result (failed self.new ≡ failed self.old) }
        ensures cause { OnErr result (HasFailed (failed self.old) (failed self.new)) };

    /// Sends what the device holds back. It changes no byte that was written.
    fn flush(&mut self) -> Result<(), DeviceFault>
        ensures bytes { Keeps (taken self.old) (taken self.new) }
        ensures sound { OnOk result (failed self.new ≡ failed self.old) }
        ensures cause { OnErr result (HasFailed (failed self.old) (failed self.new)) };
}

/// A reader or a writer of the standard library as a device whose calls may end before anything came. If an error says
/// that the call would block, that its time is over or that it was interrupted, nothing came in time. Every other error
/// is a failure, and so is a write of some bytes that takes none.
///
/// What is left or was written is known if the device within says so.
#[derive(Drop)]
pub struct Timed<D> {
    device: D,
    failures: u64,
}

impl<D> Timed<D> {
    ghost use Rattle.tt_session.specs.Timed.{timed_device, timed_failures};

    /// A device with no failure so far.
    pub fn new(device: D) -> Self
        ensures device { timed_device result ≡ device }
        ensures failures { timed_failures result ≡ 0 }
    {
        Timed {
            device,
            failures: 0,
        }
    }

    /// Counts a failure.
    fn fault(&mut self) -> DeviceFault
        ensures device { timed_device self.new ≡ timed_device self.old }
        ensures failures { HasFailed (timed_failures self.old) (timed_failures self.new) }
    {
        self.failures = self.failures.saturating_add(1);
        DeviceFault
    }
}

impl<R: Read> TimedReader for Timed<R> {
    ghost use Rattle.tt_session.specs.Timed.{timed_device, timed_failures};

    ghost left = { λ timed. R.remaining (timed_device timed) };

    ghost failed = { timed_failures };

    fn read(&mut self, buffer: &mut [u8]) -> Result<Option<usize>, DeviceFault> {
        match self.device.read(buffer) {
            Ok(n) => Ok(Some(n)),
            Err(error) if has_ended(error.kind()) => Ok(None),
            Err(_) => Err(self.fault()),
        }
    }
}

impl<W: Write> TimedWriter for Timed<W> {
    ghost use Rattle.tt_session.specs.Timed.{timed_device, timed_failures};

    ghost taken = { λ timed. W.contents (timed_device timed) };

    ghost failed = { timed_failures };

    fn write(&mut self, bytes: &[u8]) -> Result<Option<usize>, DeviceFault> {
        match self.device.write(bytes) {
            Ok(n) if n > 0 || bytes.is_empty() => Ok(Some(n)),
            Ok(_) => Err(self.fault()),
            Err(error) if has_ended(error.kind()) => Ok(None),
            Err(_) => Err(self.fault()),
        }
    }

    fn flush(&mut self) -> Result<(), DeviceFault> {
        match self.device.flush() {
            Ok(()) => Ok(()),
            Err(_) => Err(self.fault()),
        }
    }
}

/// Whether an error of this kind says that the call ended before anything came.
fn has_ended(kind: ErrorKind) -> bool {
    matches!(
        kind,
        ErrorKind::WouldBlock | ErrorKind::TimedOut | ErrorKind::Interrupted
    )
}
