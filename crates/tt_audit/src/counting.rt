//! Counts over the replies of a run.

ghost use Rattle.std.specs.Prelude.{◌≡◌, ◌<◌, ◌^◌, length, count_by, sum_by};
ghost use Rattle.std.specs.List.{zip};
ghost use Rattle.tt_audit.specs.Counts.{is_refusal, is_publication, is_reading, is_wrong, released_in};

use crate::ordering::released_by;
use tt_world::{Event, Reply};

/// How many replies are refusals.
pub fn refusals(replies: &[Reply]) -> usize
    ensures { result ≡ count_by is_refusal replies.now }
{
    replies
        .iter()
        .filter(|reply| matches!(reply, Reply::Refused(_)))
        .count()
}

/// How many replies are publications.
pub fn publications(replies: &[Reply]) -> usize
    ensures { result ≡ count_by is_publication replies.now }
{
    replies
        .iter()
        .filter(|reply| matches!(reply, Reply::Published(..)))
        .count()
}

/// How many replies are readings.
pub fn readings(replies: &[Reply]) -> usize
    ensures { result ≡ count_by is_reading replies.now }
{
    replies
        .iter()
        .filter(|reply| matches!(reply, Reply::Read(_)))
        .count()
}

/// Whether a reply is a reading that does not hold this true time.
fn is_wrong_at(at: u64, reply: &Reply) -> bool
    ensures { result ≡ is_wrong at reply.now }
{
    match reply {
        Reply::Read(reading) => !(reading.earliest() <= at && at <= reading.latest()),
        _ => false,
    }
}

/// How many readings do not hold the true time of their event.
pub fn wrong_readings(events: &[Event], replies: &[Reply]) -> usize
    ensures { result ≡ count_by (λ p. is_wrong p.0.at p.1) (zip events.now replies.now) }
{
    events
        .iter()
        .zip(replies)
        .filter(|(event, reply)| is_wrong_at(event.at, reply))
        .count()
}

/// How many commits the replies release.
pub fn released(replies: &[Reply]) -> usize
    requires { sum_by released_in replies.now < 2 ^ 64 }
    ensures { result ≡ sum_by released_in replies.now }
{
    let mut count = 0;
    for reply in replies {
        count += released_by(reply).len();
    }
    count
}
