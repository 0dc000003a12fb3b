//! The clocks of a run.

ghost use Rattle.std.specs.Prelude.{◌≡◌, ◌+◌, ◌<◌, ◌≤◌, None, IfSome, OnSome};
ghost use Rattle.std.specs.Duration.{as_nanos};
ghost use Rattle.tt_span.specs.Time.{max_time};
ghost use Rattle.tt_stream.specs.Counts.{HasFailed};
ghost use Rattle.tt_live.specs.Clock.{LiveGives, new_clock};

use std::marker::Model;
use std::sync::atomic::{AtomicBool, Ordering};
use std::time::{Clock as SystemClock, Duration, Instant};
use tt_host::nanoseconds;
use tt_master::{RefFault, Reference};
use tt_publish::{Clock, ClockFault};
use tt_span::MAX_TIME;

/// The beginning of the clocks of a run: they show `base`, in nanoseconds, when the system's monotonic clock shows
/// `start`.
#[derive(Clone, Copy)]
pub(crate) struct Origin {
    pub(crate) base: u64,
    pub(crate) start: Instant,
}

/// The time, in nanoseconds, when `elapsed` has passed since `base`. None where it is above [`MAX_TIME`].
fn time_after(base: u64, elapsed: Duration) -> Option<u64>
    ensures shown { IfSome result (λ time. (time ≡ base + as_nanos elapsed) × (time ≤ max_time)) }
    ensures past { result ≡ None → max_time < base + as_nanos elapsed }
{
    let Some(elapsed) = nanoseconds(elapsed) else {
        return None;
    };
    let Some(time) = base.checked_add(elapsed) else {
        return None;
    };
    if time <= MAX_TIME { Some(time) } else { None }
}

/// A clock that shows the base of a run plus the time that has elapsed since the run began, by the system's monotonic
/// clock. All clocks of one run show the same time. The masters use it as their reference, and the daemon and the
/// workers as their clock.
///
/// It fails if the system's clock can't be read, above [`MAX_TIME`], and below its last reading. So no reading is below
/// one before it. Nothing else is claimed about what it shows. In contracts the clock is its last reading and its
/// failures.
#[derive(Drop)]
pub(crate) struct LiveClock<'a, R> {
    rt: &'a R,
    origin: Origin,
    /// The last reading, in nanoseconds; 0 before the first.
    last: u64,
    failures: u64,
}

impl<'a, R> Model for LiveClock<'a, R> {
    ghost use Rattle.tt_live.specs.Clock.{LiveState};

    ghost Value = { LiveState };

    ghost view = { λ clock. record { last = clock.last; failures = clock.failures } };
}

impl<'a, R: SystemClock> LiveClock<'a, R> {
    /// A clock of the run with this origin.
    pub(crate) fn new(rt: &'a R, origin: Origin) -> Self
        ensures new { result ≡ new_clock }
    {
        LiveClock {
            rt,
            origin,
            last: 0,
            failures: 0,
        }
    }

    /// The time, in nanoseconds. None where the clock fails, and then the failure is counted.
    fn time(&mut self) -> Option<u64>
        ensures in_time { IfSome result (λ time. time ≤ max_time) }
        ensures gave { LiveGives self.old result self.new }
        ensures sound { OnSome result (self.new.failures ≡ self.old.failures) }
        ensures cause { result ≡ None → HasFailed self.old.failures self.new.failures }
    {
        if let Ok(elapsed) = self.origin.start.elapsed(self.rt) {
            if let Some(time) = time_after(self.origin.base, elapsed) {
                if self.last <= time {
                    self.last = time;
                    return Some(time);
                }
            }
        }
        self.failures = self.failures.saturating_add(1);
        None
    }
}

impl<'a, R: SystemClock> Clock for LiveClock<'a, R> {
    ghost use Rattle.tt_live.specs.Clock.{LiveGives, failures_of};

    ghost gives = { LiveGives };

    ghost failed = { failures_of };

    fn read(&mut self) -> Result<u64, ClockFault> {
        match self.time() {
            Some(time) => Ok(time),
            None => Err(ClockFault::Failed),
        }
    }

    fn failures(&self) -> u64 {
        self.failures
    }
}

impl<'a, R: SystemClock> Reference for LiveClock<'a, R> {
    ghost use Rattle.tt_live.specs.Clock.{LiveGives, failures_of};

    ghost gives = { LiveGives };

    ghost failed = { failures_of };

    fn read(&mut self) -> Result<u64, RefFault> {
        match self.time() {
            Some(time) => Ok(time),
            None => Err(RefFault::Failed),
        }
    }

    fn failures(&self) -> u64 {
        self.failures
    }
}

/// The clock that the reader of a session looks at before each read. It shows 0, and fails once the node's daemon has
/// ended with a fault. So the session then ends soon after the daemon, even if its client sends nothing.
#[derive(Drop)]
pub(crate) struct SessionClock<'a> {
    daemon_failed: &'a AtomicBool,
    failures: u64,
}

impl<'a> SessionClock<'a> {
    /// A clock with no failure so far.
    pub(crate) fn new(daemon_failed: &'a AtomicBool) -> Self {
        SessionClock {
            daemon_failed,
            failures: 0,
        }
    }
}

impl<'a> Clock for SessionClock<'a> {
    ghost gives = { λ _ _ _. Unit {0} };

    ghost failed = { λ clock. clock.failures };

    fn read(&mut self) -> Result<u64, ClockFault> {
        if self.daemon_failed.load(Ordering::SeqCst) {
            self.failures = self.failures.saturating_add(1);
            return Err(ClockFault::Failed);
        }
        Ok(0)
    }

    fn failures(&self) -> u64 {
        self.failures
    }
}
