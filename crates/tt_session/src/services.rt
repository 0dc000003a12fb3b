//! The service that a session calls.

use crate::calls::Call;
use tt_publish::Reading;

/// The service of one session. A refusal is its number; docs/FORMATS.md has the numbers.
pub trait Service {
    ghost use Rattle.tt_session.specs.declared.calls.Call.{Call};

    /// Which calls the service allows: the state before a call, the call with its answer, and the state after it.
    ghost allows: { Self → Call → Self → Type 0 };

    /// A reading of the time.
    fn now(&mut self) -> Result<Reading, u16>
        ensures { allows self.old (Call.Now result) self.new };

    /// Begins the commit with this number: it takes a reading, stamps the commit by it, with a stamp of `floor`
    /// nanoseconds at least, and queues the commit. Answers the stamp, in nanoseconds. After a refusal the number may
    /// come again.
    fn begin(&mut self, number: u64, floor: u64) -> Result<u64, u16>
        ensures { allows self.old (Call.Begin number floor result) self.new };

    /// Sets the lease of the session: the stamps that follow lie in it, as far as the service says. After a refusal the
    /// lease is what it was. A service that keeps no lease refuses with 1101, and nothing is done.
    fn lease(&mut self, lo: u64, hi: u64) -> Result<(), u16>
        ensures { allows self.old (Call.Lease lo hi result) self.new };

    /// One release step: releases each commit whose stamp has surely passed. Answers whether the commit with this
    /// number is released.
    fn pass(&mut self, number: u64) -> Result<bool, u16>
        ensures { allows self.old (Call.Pass number result) self.new };
}
