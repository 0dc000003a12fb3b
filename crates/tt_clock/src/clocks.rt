//! The clock of a machine.

ghost use Rattle.std.specs.Prelude.{◌≡◌, ◌≤◌, IfSome};
ghost use Rattle.tt_span.specs.Time.{max_time};

use std::marker::Model;
use std::time::Clock as SystemClock;
use tt_host::time_after_zero;
use tt_publish::{Clock, ClockFault};

/// A time of at most `MAX_TIME`, or None. It is the handle's monotonic clock now, in nanoseconds, of which no clause
/// speaks. None if that can't be read, or shows a time above.
pub fn reading_of<R: SystemClock>(rt: &R) -> Option<u64>
    ensures in_time { IfSome result (λ time. time ≤ max_time) }
{
    match rt.monotonic() {
        Ok(elapsed) => time_after_zero(elapsed),
        Err(_) => None,
    }
}

/// The machine's clock, in nanoseconds since an arbitrary start: the monotonic clock of the handle, which `tt_host::ByClock`
/// makes the one that the settings name. The daemon, the workers and the readers of a shared file use it. A read fails if the
/// system's clock can't be read, if it shows a time above `MAX_TIME`, or if it shows a time below the last one. So no reading
/// is below one before it.
///
/// Nothing else is claimed of what the system's clock shows. In contracts the clock is its last reading and its
/// failures.
#[derive(Drop)]
pub struct MachineClock<'a, R> {
    rt: &'a R,
    failures: u64,
    last: u64,
}

impl<'a, R> Model for MachineClock<'a, R> {
    ghost use Rattle.tt_clock.specs.Clock.{ClockState};

    ghost Value = { ClockState };

    ghost view = { λ clock. record { last = clock.last; failures = clock.failures } };
}

impl<'a, R: SystemClock> MachineClock<'a, R> {
    /// The clock of this machine.
    pub fn new(rt: &'a R) -> Self
        ensures new { result ≡ record { last = 0; failures = 0 } }
    {
        MachineClock {
            rt,
            failures: 0,
            last: 0,
        }
    }

    /// The last time that it showed, in nanoseconds; 0 before the first reading.
    pub fn last(&self) -> u64
        ensures value { result ≡ self.now.last }
    {
        self.last
    }
}

impl<'a, R: SystemClock> Clock for MachineClock<'a, R> {
    ghost use Rattle.tt_clock.specs.Clock.{MachineGives};

    ghost gives = { MachineGives };

    ghost failed = { λ clock. clock.failures };

    fn read(&mut self) -> Result<u64, ClockFault> {
        if let Some(time) = reading_of(self.rt) {
            if self.last <= time {
                self.last = time;
                return Ok(time);
            }
        }
        self.failures = self.failures.saturating_add(1);
        Err(ClockFault::Failed)
    }

    fn failures(&self) -> u64 {
        self.failures
    }
}
