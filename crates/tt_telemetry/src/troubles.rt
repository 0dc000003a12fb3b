//! What the daemon tells of what troubles it: when that begins, and when it is over.

ghost use Rattle.std.specs.Prelude.{◌≡◌, false};
ghost use Rattle.tt_telemetry.specs.Records.{numbers_where};
ghost use Rattle.tt_telemetry.specs.Trouble.{agreeing, agrees_again, fusion_event, has_failed_after, is_refused_after, is_wide, most_between, resumed_event, sleep_event, stale_event, stood_still, width_event};

use crate::records::{Outcome, Shown, suspects_in};
use crate::statuses::is_among;
use arrayvec::ArrayVec;
use tt_daemon::{DaemonFault, MAX_SOURCES};
use tt_status::LogEvent;

/// A second, in nanoseconds.
const SECOND: u64 = 1_000_000_000;

/// What a machine was troubled by when a round had ended, of what is told when it is over.
#[derive(Clone, Copy)]
pub struct Troubles {
    /// A reading before the round was wider than `max_width`.
    pub wide: bool,
    /// The last fusion was refused.
    pub refused: bool,
    /// The round ended with a fault.
    pub failed: bool,
    /// It was told that too few sources have answered.
    pub stale: bool,
}

impl Troubles {
    /// None, as before the first round.
    pub fn new() -> Troubles
        ensures none { result ≡ record { wide = false; refused = false; failed = false; stale = false } }
    {
        Troubles {
            wide: false,
            refused: false,
            failed: false,
            stale: false,
        }
    }
}

/// Whether the last fusion was refused, after a round that came to this. A round without a fusion leaves that as it was.
pub fn is_refused_after(was_refused: bool, outcome: &Outcome) -> bool
    ensures value { result ≡ is_refused_after was_refused outcome.now }
{
    match outcome {
        Outcome::Published { .. } => false,
        Outcome::Refused(DaemonFault::NoPoint) | Outcome::Refused(DaemonFault::Unknown) => true,
        Outcome::Refused(DaemonFault::ClockBack) | Outcome::Failed(_) | Outcome::Nothing => {
            was_refused
        }
    }
}

/// What is logged of a round that published, if the last fusion before it was refused.
pub fn fusion_event(was_refused: bool, outcome: &Outcome) -> Option<LogEvent>
    ensures value { result ≡ fusion_event was_refused outcome.now }
{
    match outcome {
        Outcome::Published { .. } if was_refused => Some(LogEvent::FusionPublished),
        _ => None,
    }
}

/// Whether the last round ended with a fault, after one that came to this: its link or its clock failed, or its fusion was not
/// published. Where there was no round, that is as it was.
pub fn has_failed_after(had_failed: bool, outcome: &Outcome) -> bool
    ensures value { result ≡ has_failed_after had_failed outcome.now }
{
    match outcome {
        Outcome::Failed(_) | Outcome::Refused(DaemonFault::ClockBack) => true,
        Outcome::Published { .. }
        | Outcome::Refused(DaemonFault::NoPoint)
        | Outcome::Refused(DaemonFault::Unknown) => false,
        Outcome::Nothing => had_failed,
    }
}

/// What is logged of a round that ended without a fault, if the one before ended with one.
pub fn resumed_event(had_failed: bool, outcome: &Outcome) -> Option<LogEvent>
    ensures value { result ≡ resumed_event had_failed outcome.now }
{
    if had_failed && !has_failed_after(had_failed, outcome) {
        Some(LogEvent::RoundsResumed)
    } else {
        None
    }
}

/// What is logged after a round: where it `is_stale`, that `answered` sources have answered within three periods and `needed`
/// are needed; and the first time after that, that this is over. `was_stale` says whether it was so after the round before.
pub fn stale_event(was_stale: bool, is_stale: bool, answered: u64, needed: u64) -> Option<LogEvent>
    ensures value { result ≡ stale_event was_stale is_stale answered needed }
{
    if is_stale {
        Some(LogEvent::SourcesStale { answered, needed })
    } else if was_stale {
        Some(LogEvent::SourcesFresh)
    } else {
        None
    }
}

/// What is logged when it begins that it would not be seen that the host sleeps, and when that is over.
pub fn sleep_event(was_unseen: bool, is_unseen: bool) -> Option<LogEvent>
    ensures value { result ≡ sleep_event was_unseen is_unseen }
{
    match (was_unseen, is_unseen) {
        (false, true) => Some(LogEvent::SleepUnseen),
        (true, false) => Some(LogEvent::SleepSeen),
        _ => None,
    }
}

/// The sources that are suspects of the last publication and not of this one, ascending; none where there is none.
pub fn agreeing_sources(last: &Option<Shown>, shown: &Option<Shown>) -> ArrayVec<u8, MAX_SOURCES>
    ensures value { result.items ≡ agreeing last.now shown.now }
{
    match shown {
        Some(shown) => agreeing_among(suspects_in(last), shown.suspects.as_slice()),
        None => ArrayVec::new(),
    }
}

/// Whether a source is among those before, and not among these.
fn agrees_again(before: &[u8], suspects: &[u8], source: u8) -> bool
    ensures { result ≡ agrees_again before.now suspects.now source }
{
    is_among(source, before) && !is_among(source, suspects)
}

/// The numbers of sources that are among those before and not among these, ascending.
fn agreeing_among(before: &[u8], suspects: &[u8]) -> ArrayVec<u8, MAX_SOURCES>
    ensures value { result.items ≡ numbers_where (agrees_again before.now suspects.now) 16 }
{
    let mut agreeing = ArrayVec::new();
    for source in 0..MAX_SOURCES {
        if agrees_again(before, suspects, source as u8) {
            agreeing.push(source as u8);
        }
    }
    agreeing
}

/// Whether a reading of this width, if there is one, is wider than `limit`, both in nanoseconds: sessions then refuse with 1824.
pub fn is_wide(width: Option<u64>, limit: u64) -> bool
    ensures value { result ≡ is_wide width limit }
{
    match width {
        Some(width) => limit < width,
        None => false,
    }
}

/// What is logged of a reading of this width before a round, if there is one: that it is wider than `limit`, each time; and the
/// first time after that, that it is not. `was_wide` says whether the reading before the last round was.
pub fn width_event(was_wide: bool, width: Option<u64>, limit: u64) -> Option<LogEvent>
    ensures value { result ≡ width_event was_wide width limit }
{
    match width {
        Some(width) if limit < width => Some(LogEvent::WidthAbove { width, limit }),
        _ => {
            if was_wide {
                Some(LogEvent::WidthInBounds)
            } else {
                None
            }
        }
    }
}

/// How long there is between the ends of two rounds at most, in nanoseconds, if a machine does not stand still: `pause`, if
/// the socket is made anew after it, and ten periods and a second; at most 2^64 - 1.
fn most_between(pause: u64, period: u64) -> u64
    ensures { result ≡ most_between pause period }
{
    period
        .saturating_mul(10)
        .saturating_add(SECOND)
        .saturating_add(pause)
}

/// What is logged when a round has ended at the clock reading `now`, and the one before it at `before`, if there was one, in
/// nanoseconds: how long that took, if it is more than a pause of `pause` before a new socket, ten periods and a second.
pub fn stood_still(before: Option<u64>, now: u64, pause: u64, period: u64) -> Option<LogEvent>
    ensures value { result ≡ stood_still before now pause period }
{
    match before {
        Some(before) if now.saturating_sub(before) > most_between(pause, period) => {
            Some(LogEvent::StoodStill {
                lasted: now.saturating_sub(before),
            })
        }
        _ => None,
    }
}
