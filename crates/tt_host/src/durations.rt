//! Durations, as numbers of nanoseconds.

ghost use Rattle.std.specs.Prelude.{◌≡◌};
ghost use Rattle.std.specs.Duration.{as_nanos};
ghost use Rattle.tt_host.specs.Duration.{nanoseconds_of, time_of};

use std::time::Duration;
use tt_span::MAX_TIME;

/// A duration in nanoseconds. None if it is above 2^64 - 1 of them.
pub fn nanoseconds(elapsed: Duration) -> Option<u64>
    ensures value { result ≡ nanoseconds_of (as_nanos elapsed) }
{
    u64::try_from(elapsed.as_nanos()).ok()
}

/// The time that a clock shows so long after its zero, in nanoseconds. None if it is above [`MAX_TIME`].
pub fn time_after_zero(elapsed: Duration) -> Option<u64>
    ensures value { result ≡ time_of (as_nanos elapsed) }
{
    match nanoseconds(elapsed) {
        Some(time) if time <= MAX_TIME => Some(time),
        _ => None,
    }
}
