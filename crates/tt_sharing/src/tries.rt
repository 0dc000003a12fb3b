//! When a try to share hangs, and what is logged of one that is over.

ghost use Rattle.std.specs.Prelude.{◌≡◌};
ghost use Rattle.tt_sharing.specs.Share.{event_of_over, hangs};

use crate::sharing::Tried;
use tt_status::LogEvent;

/// For how long a try may last, in nanoseconds, before it is said that it hangs: a second.
const LONGEST: u64 = 1_000_000_000;

/// The number of a try that hangs, in the log of a writer.
pub const HANGS: u64 = 1709;

/// Whether the try that began at the clock reading `since`, 0 for none, hangs when the clock shows `now`: it has lasted
/// longer than a second. All are in nanoseconds.
pub fn hangs(since: u64, now: u64) -> bool
    ensures value { result ≡ hangs since now }
{
    since != 0 && now.saturating_sub(since) > LONGEST
}

/// What is logged of a try that is over. If the log says that it hangs, it says that the sharing is resumed once it was
/// written.
pub fn event_of_over(tried: &Tried, was_told: bool) -> Option<LogEvent>
    ensures value { result ≡ event_of_over tried.now was_told }
{
    if was_told && tried.written {
        return Some(LogEvent::SharingResumed);
    }
    tried.event
}
