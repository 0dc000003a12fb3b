//! Readings of the system's clocks, in nanoseconds.

use std::time::Clock as SystemClock;
use tt_host::nanoseconds;

/// The time since 1970, 2^64 - 1 for all that are above; 0 if it can't be read.
pub(crate) fn time_of<R: SystemClock>(rt: &R) -> u64 {
    match rt.since_1970() {
        Ok(elapsed) => nanoseconds(elapsed).unwrap_or(u64::MAX),
        Err(_) => 0,
    }
}

/// What the monotonic clock shows, 2^64 - 1 for all that is above; 0 if it can't be read.
pub(crate) fn clock_of<R: SystemClock>(rt: &R) -> u64 {
    match rt.monotonic() {
        Ok(elapsed) => nanoseconds(elapsed).unwrap_or(u64::MAX),
        Err(_) => 0,
    }
}
