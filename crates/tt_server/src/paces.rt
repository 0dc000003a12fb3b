//! How many turns a round has, and how long the pauses between rounds are.

ghost use Rattle.std.specs.Prelude.{◌≡◌, ◌≤◌};
ghost use Rattle.tt_server.specs.Round.{turns_of, waits_on, renewal_after, pause_of};

use tt_telemetry::Totals;

/// How long the rounds before the first publication follow each other quickly, in nanoseconds: two seconds.
const FIRST: u64 = 2_000_000_000;

/// The longest pause before the first publication, in nanoseconds.
const FIRST_PAUSE: u64 = 100_000_000;

/// The shortest pause before a socket is made anew, in nanoseconds.
const RENEWAL: u64 = 100_000_000;

/// The longest pause before a socket is made anew, in nanoseconds: five seconds.
const MAX_RENEWAL: u64 = 5_000_000_000;

/// The number of turns of a round with `sources` sources. It is more than one for each source, so that unexpected
/// packets do not take the turns that answers need.
pub(crate) fn turns_of(sources: usize) -> u32
    ensures { result ≡ turns_of sources }
{
    match u32::try_from(sources) {
        Ok(sources) => sources.saturating_mul(4),
        Err(_) => u32::MAX,
    }
}

/// Whether nothing is published yet, and less than two seconds have passed since the clock reading `began` when the clock
/// shows `now`, in nanoseconds.
pub(crate) fn waits_on(totals: &Totals, began: u64, now: u64) -> bool
    ensures { result ≡ waits_on totals.now began now }
{
    totals.published == 0 && now.saturating_sub(began) < FIRST
}

/// The pause before the socket of the polls is made anew, in nanoseconds; 0 if it is not made anew. It is made anew after
/// a round in which it failed. The pause before that was `last`: each pause is twice the one before, at least a tenth of
/// a second, and at most five seconds.
pub(crate) fn renewal_after(has_failed: bool, last: u64) -> u64
    ensures value { result ≡ renewal_after has_failed last }
    ensures bounded { result ≤ 5000000000 }
{
    if has_failed {
        last.saturating_mul(2).min(MAX_RENEWAL).max(RENEWAL)
    } else {
        0
    }
}

/// The pause before the next round, in nanoseconds: that before the socket is made anew, if it is; else at most a tenth
/// of a second as long as clients wait for the first publication; else `poll`.
pub(crate) fn pause_of(renewal: u64, waits: bool, poll: u64) -> u64
    ensures value { result ≡ pause_of renewal waits poll }
{
    if renewal > 0 {
        renewal
    } else if waits {
        poll.min(FIRST_PAUSE)
    } else {
        poll
    }
}
