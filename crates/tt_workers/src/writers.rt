//! The writer of a session: replies go to the device of its connection, and what that does not take waits for it.

ghost use Rattle.std.specs.Prelude.{◌≡◌, ◌<◌, ◌≤◌, [], length, IfOk, OnOk, OnErr};
ghost use Rattle.std.specs.Io.KnownBytes.{Keeps, WriteAppends, append_known};
ghost use Rattle.tt_stream.specs.Counts.{HasFailed};

use std::alloc::Global;
use std::io::{ErrorKind, Write};
use std::sync::atomic::{AtomicBool, Ordering};
use tt_stream::{ByteWriter, DeviceFault};

/// Whether an error of this kind says that nothing was taken in time.
fn is_slow(kind: ErrorKind) -> bool {
    matches!(
        kind,
        ErrorKind::WouldBlock | ErrorKind::TimedOut | ErrorKind::Interrupted
    )
}

/// Has this device take more of the replies that it has not taken, from their front: all that it took, and behind that what
/// it has not taken, stays the same. Once it has taken all, they have no room any more. Answers whether it did not fail.
fn send_unsent<D: Write>(device: &mut D, unsent: &mut Vec<u8>, alloc: Global) -> bool
    ensures same { Keeps (append_known (D.contents device.old) unsent.old.items) (append_known (D.contents device.new) unsent.new.items) }
{
    match device.write(unsent.as_slice()) {
        Ok(0) => false,
        Ok(count) => {
            unsent.drain(..count);
            if unsent.is_empty() {
                *unsent = Vec::new(alloc);
            }
            true
        }
        Err(error) => is_slow(error.kind()),
    }
}

/// The writer of a session: the device of its connection, and the replies that it has not taken. It fails if the device
/// fails, if the machine ends, or if it is out of memory. What was written to it is what the device took, and behind that what
/// it has not taken.
#[derive(Drop)]
pub(crate) struct ReplyWriter<'a, D> {
    device: D,
    ended: &'a AtomicBool,
    unsent: Vec<u8>,
    failures: u64,
}

impl<'a, D: Write + Drop> ReplyWriter<'a, D> {
    /// The writer of a session on this device, which has taken all replies. It fails once `ended`.
    pub(crate) fn new(alloc: Global, device: D, ended: &'a AtomicBool) -> Self
        ensures device { result.device ≡ device }
        ensures unsent { result.unsent.items ≡ [] }
        ensures failures { result.failures ≡ 0 }
    {
        ReplyWriter {
            device,
            ended,
            unsent: Vec::new(alloc),
            failures: 0,
        }
    }

    /// Whether the device has not taken all replies.
    pub(crate) fn has_unsent(&self) -> bool {
        !self.unsent.is_empty()
    }

    /// Has the device take more of the replies that it has not taken. What was written to it stays. Answers whether the
    /// device did not fail.
    pub(crate) fn send(&mut self, alloc: Global) -> bool
        ensures same { Keeps (append_known (D.contents self.old.device) self.old.unsent.items) (append_known (D.contents self.new.device) self.new.unsent.items) }
    {
        send_unsent(&mut self.device, &mut self.unsent, alloc)
    }

    /// Counts a failure.
    fn fault(&mut self) -> DeviceFault
        ensures device { self.new.device ≡ self.old.device }
        ensures unsent { self.new.unsent ≡ self.old.unsent }
        ensures rose { HasFailed self.old.failures self.new.failures }
    {
        self.failures = self.failures.saturating_add(1);
        DeviceFault
    }

    /// Has these bytes wait behind those that wait, and answers how many: all. Fails if there is no memory for them.
    fn hold(&mut self, bytes: &[u8]) -> Result<usize, DeviceFault>
        ensures count { IfOk result (λ n. n ≡ length bytes.now) }
        ensures device { self.new.device ≡ self.old.device }
        ensures bytes { WriteAppends (append_known (D.contents self.old.device) self.old.unsent.items) (append_known (D.contents self.new.device) self.new.unsent.items) result bytes.now }
        ensures sound { OnOk result (self.new.failures ≡ self.old.failures) }
        ensures cause { OnErr result (HasFailed self.old.failures self.new.failures) }
    {
        if self.unsent.extend_from_slice(bytes).is_err() {
            return Err(self.fault());
        }
        Ok(bytes.len())
    }

    /// Has the device take these bytes, and those wait that it does not take now. Where there is no memory for these, only
    /// what the device took is written. Requires: none waits, and there are bytes to take.
    fn pass(&mut self, bytes: &[u8]) -> Result<usize, DeviceFault>
        requires none { self.old.unsent.items ≡ [] }
        requires some { 0 < length bytes.now }
        ensures count { IfOk result (λ n. n ≤ length bytes.now) }
        ensures some { IfOk result (λ n. 0 < n) }
        ensures bytes { WriteAppends (append_known (D.contents self.old.device) self.old.unsent.items) (append_known (D.contents self.new.device) self.new.unsent.items) result bytes.now }
        ensures sound { OnOk result (self.new.failures ≡ self.old.failures) }
        ensures cause { OnErr result (HasFailed self.old.failures self.new.failures) }
    {
        match self.device.write(bytes) {
            Ok(0) => Err(self.fault()),
            Ok(count) => {
                let (_, rest) = bytes.split_at(count);
                match self.unsent.extend_from_slice(rest) {
                    Ok(()) => Ok(bytes.len()),
                    Err(_) => Ok(count),
                }
            }
            Err(error) => {
                if is_slow(error.kind()) {
                    self.hold(bytes)
                } else {
                    Err(self.fault())
                }
            }
        }
    }
}

impl<'a, D: Write + Drop> ByteWriter for ReplyWriter<'a, D> {
    ghost use Rattle.std.specs.Prelude.{true};
    ghost use Rattle.std.specs.Io.KnownBytes.{append_known};

    ghost taken = { λ writer. append_known (D.contents writer.device) writer.unsent.items };

    ghost failed = { λ writer. writer.failures };

    ghost flushed = { λ _. true };

    fn write(&mut self, bytes: &[u8]) -> Result<usize, DeviceFault> {
        if self.ended.load(Ordering::SeqCst) {
            return Err(self.fault());
        }
        if self.unsent.is_empty() && !bytes.is_empty() {
            self.pass(bytes)
        } else {
            self.hold(bytes)
        }
    }

    fn flush(&mut self) -> Result<(), DeviceFault> {
        Ok(())
    }

    fn failures(&self) -> u64 {
        self.failures
    }
}
