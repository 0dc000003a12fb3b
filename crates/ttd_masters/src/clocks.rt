//! This computer's clocks.

ghost use Rattle.std.specs.Prelude.{◌≡◌, ◌≤◌, None, IfSome, OnSome};
ghost use Rattle.std.specs.Duration.{as_nanos};
ghost use Rattle.tt_span.specs.Time.{max_time};
ghost use Rattle.tt_stream.specs.Counts.{HasFailed};
ghost use Rattle.ttd_masters.specs.Clocks.{shown_at};

use std::time::{Clock as SystemClock, Duration};
use tt_host::{DeviceClock, HostClock, HostClocks, time_after_zero};
use tt_master::{RefFault, Reference};
use ttd_words::Offset;

/// What a clock with this offset shows at a time since 1970, in nanoseconds. None if that is before 1970 or past
/// `MAX_TIME`.
pub(crate) fn shown_at(offset: Offset, time: Duration) -> Option<u64>
    ensures value { result ≡ shown_at offset (as_nanos time) }
    ensures in_time { IfSome result (λ shown. shown ≤ max_time) }
{
    let shown = match offset {
        Offset::Later(by) => time.checked_add(Duration::from_nanos(by)),
        Offset::Earlier(by) => time.checked_sub(Duration::from_nanos(by)),
    };
    let shown = shown?;
    time_after_zero(shown)
}

/// The reference of a master: this computer's real-time clock, in nanoseconds since 1970, moved by an offset. A read
/// fails if that clock can't be read, or if it would show a time before 1970 or past `MAX_TIME`. Nothing is claimed
/// of what it shows.
#[derive(Drop)]
pub struct RealTime<'a, R> {
    rt: &'a R,
    offset: Offset,
    failures: u64,
}

impl<'a, R: SystemClock> RealTime<'a, R> {
    /// The clock with this offset.
    pub fn new(rt: &'a R, offset: Offset) -> Self {
        RealTime {
            rt,
            offset,
            failures: 0,
        }
    }

    /// The time. None if the clock fails, and then the failure is counted.
    fn time(&mut self) -> Option<u64>
        ensures in_time { IfSome result (λ time. time ≤ max_time) }
        ensures sound { OnSome result (self.new.failures ≡ self.old.failures) }
        ensures cause { result ≡ None → HasFailed self.old.failures self.new.failures }
    {
        if let Ok(since) = self.rt.since_1970() {
            if let Some(time) = shown_at(self.offset, since) {
                return Some(time);
            }
        }
        self.failures = self.failures.saturating_add(1);
        None
    }
}

impl<'a, R: SystemClock> Reference for RealTime<'a, R> {
    ghost gives = { λ _ _ _. Unit {0} };

    ghost failed = { λ clock. clock.failures };

    fn read(&mut self) -> Result<u64, RefFault> {
        match self.time() {
            Some(time) => Ok(time),
            None => Err(RefFault::Failed),
        }
    }

    fn failures(&self) -> u64 {
        self.failures
    }
}

/// The nanoseconds of a second.
const SECOND: u64 = 1_000_000_000;

/// The UTC that a hardware clock shows, in nanoseconds since 1970, where TAI, which it has, is so many seconds ahead. None if
/// it can't be read, or would show a time before 1970 or past `MAX_TIME`.
pub(crate) fn device_time(clock: &DeviceClock, tai_offset: u64) -> Option<u64>
    ensures in_time { IfSome result (λ time. time ≤ max_time) }
{
    let ahead = tai_offset.saturating_mul(SECOND);
    shown_at(Offset::Earlier(ahead), clock.read().ok()?)
}

/// What `CLOCK_MONOTONIC` shows, in nanoseconds, which Linux slews as it slews the real-time clock. None if it can't be read,
/// or shows a time past `MAX_TIME`.
pub(crate) fn slewed_time<R: HostClocks>(rt: &R) -> Option<u64>
    ensures in_time { IfSome result (λ time. time ≤ max_time) }
{
    shown_at(Offset::Later(0), rt.read_clock(HostClock::Monotonic).ok()?)
}
