//! The status of a machine, from what its rounds have counted and noticed and its sessions have done.

ghost use Rattle.std.specs.Prelude.{◌≡◌, ◌<◌};
ghost use Rattle.tt_telemetry.specs.Records.{suspects_in};
ghost use Rattle.tt_telemetry.specs.Status.{age_from, age_in, answered_in, difference_in, each_status, ends_in, error_in, gain_in, is_among, last_break_in, lower_in, slewing_in, source_status, status_of, trip_in, upper_in, width_at, width_in};

use crate::notices::{Notices, needed_by};
use crate::records::{Ends, Shown, SourceTally, Totals, suspects_in};
use tt_daemon::{Config, MAX_SOURCES};
use tt_health::{Answer, BreakMoment, Rate, nth_newest};
use tt_host::{SlewRate, Slewing};
use tt_publish::FusedSpan;
use tt_span::Drift;
use tt_status::{
    BreakReason, Difference, Histogram, LastBreak, REASONS, Slewing as SlewingStatus, SourceStatus,
    Status, UNOPENED,
};

/// Counts of what the sessions and the log have done so far, and of what waits.
#[derive(Clone, Copy)]
pub struct Work {
    pub sessions: u64,
    pub lines: u64,
    pub refused_lines: u64,
    /// The connections that wait for a worker.
    pub waiting: u64,
    /// The connections that were closed before their session began.
    pub unserved: u64,
    /// The workers that have a session.
    pub busy: u64,
    /// The sessions that are open.
    pub open_sessions: u64,
    /// The commits that wait until their stamp has passed.
    pub commits_waiting: u64,
    /// How long commits have waited.
    pub commit_waits: Histogram,
    /// The records that did not fit into the reporter's queue.
    pub left_out: u64,
}

/// What the status says of the machine itself.
#[derive(Clone, Copy)]
pub struct Machine {
    pub number: u64,
    pub epoch: u64,
    pub config: Config,
    /// How many of the sources have made a statement.
    pub known: u64,
    /// Whether a shared file is written.
    pub sharing: bool,
    /// How many lives before this one ended by a break.
    pub broken_lives: u64,
    /// When the last of them did, and why, if that is known.
    pub last_break: Option<BreakMoment>,
}

/// Whether this number is among these.
pub(crate) fn is_among(number: u8, numbers: &[u8]) -> bool
    ensures { result ≡ is_among number numbers.now }
{
    for other in numbers {
        if *other == number {
            return true;
        }
    }
    false
}

/// How long ago the clock showed this when it shows `now`.
fn age_from(clock: Option<u64>, now: u64) -> Option<u64>
    ensures { result ≡ age_from clock now }
{
    match clock {
        Some(clock) => Some(now.saturating_sub(clock)),
        None => None,
    }
}

/// How long ago an answer was received when the clock shows `now`.
fn answered_in(answer: &Option<Answer>, now: u64) -> Option<u64>
    ensures { result ≡ answered_in answer.now now }
{
    match answer {
        Some(answer) => Some(now.saturating_sub(answer.received)),
        None => None,
    }
}

/// The round trip of an answer.
fn trip_in(answer: &Option<Answer>) -> Option<u64>
    ensures { result ≡ trip_in answer.now }
{
    match answer {
        Some(answer) => Some(answer.round_trip()),
        None => None,
    }
}

/// How far the ends of a source's span lie from those of the fused span, in what is shown.
fn ends_in(shown: &Option<Shown>, source: u8) -> Option<Ends>
    requires in_range { source < 16 }
    ensures { result ≡ ends_in shown.now source }
{
    match shown {
        Some(shown) => shown.ends[usize::from(source)],
        None => None,
    }
}

/// How far the lower end lies from that of the fused span, if the source has answered.
fn lower_in(ends: &Option<Ends>, answer: &Option<Answer>) -> Option<Difference>
    ensures { result ≡ lower_in ends.now answer.now }
{
    match answer {
        Some(_) => match ends {
            Some(ends) => Some(ends.lower),
            None => None,
        },
        None => None,
    }
}

/// How far the upper end lies from that of the fused span, if the source has answered.
fn upper_in(ends: &Option<Ends>, answer: &Option<Answer>) -> Option<Difference>
    ensures { result ≡ upper_in ends.now answer.now }
{
    match answer {
        Some(_) => match ends {
            Some(ends) => Some(ends.upper),
            None => None,
        },
        None => None,
    }
}

/// What the clock gains against a source, in parts of what it goes on: what the source loses against the clock.
fn difference_in(rate: &Option<Rate>) -> Option<Difference>
    ensures { result ≡ difference_in rate.now }
{
    match rate {
        Some(rate) => Some(Difference {
            below: !rate.below,
            size: rate.size,
        }),
        None => None,
    }
}

/// What `CLOCK_MONOTONIC` gained against the machine's clock, in parts of what that went on.
pub fn gain_in(rate: Option<SlewRate>) -> Option<Difference>
    ensures value { result ≡ gain_in rate }
{
    match rate {
        Some(rate) => Some(Difference {
            below: rate.below,
            size: rate.size,
        }),
        None => None,
    }
}

/// What is shown of how `CLOCK_MONOTONIC` is slewed.
fn slewing_in(slewing: &Slewing) -> SlewingStatus
    ensures value { result ≡ slewing_in slewing.now }
{
    SlewingStatus {
        rate: gain_in(slewing.rate),
        is_withdrawn: slewing.is_too_fast,
        withdrawals: slewing.begun,
    }
}

/// What is shown of a break that is recorded.
fn last_break_in(moment: Option<BreakMoment>) -> Option<LastBreak>
    ensures value { result ≡ last_break_in moment }
{
    match moment {
        Some(moment) => Some(LastBreak {
            time: moment.time,
            reason: BreakReason::of(moment.reason),
        }),
        None => None,
    }
}

/// By how much this rate may be wrong.
fn error_in(rate: &Option<Rate>) -> Option<u64>
    ensures { result ≡ error_in rate.now }
{
    match rate {
        Some(rate) => Some(rate.error),
        None => None,
    }
}

/// What is known of the seals of the packets from a source.
#[derive(Clone, Copy)]
pub struct SourceSeals {
    /// How many did not open, by the reasons in their order.
    pub unopened: [u64; UNOPENED],
    /// The number of the key under which the last opened that did.
    pub key: Option<u32>,
}

/// Nothing came from it.
pub const NO_SEALS: SourceSeals = SourceSeals {
    unopened: [0; UNOPENED],
    key: None,
};

/// What is known of the answers of a source.
#[derive(Clone, Copy)]
pub struct SourceNotice {
    pub answer: Option<Answer>,
    pub rate: Option<Rate>,
    /// How many packets to it could not be sent.
    pub unsent: u64,
    pub seals: SourceSeals,
}

/// What became of one source when the clock shows `now`.
fn source_status(
    shown: &Option<Shown>,
    counts: &SourceTally,
    notice: &SourceNotice,
    source: u8,
    now: u64,
) -> SourceStatus
    requires in_range { source < 16 }
    ensures value { result ≡ source_status shown.now counts.now notice.now source now }
{
    let ends = ends_in(shown, source);
    SourceStatus {
        suspect: is_among(source, suspects_in(shown)),
        accepted: counts.accepted,
        refused: counts.refused,
        silent: counts.silent,
        unsent: notice.unsent,
        answered: answered_in(&notice.answer, now),
        round_trip: trip_in(&notice.answer),
        lower: lower_in(&ends, &notice.answer),
        upper: upper_in(&ends, &notice.answer),
        refusals: counts.refusals,
        rate: difference_in(&notice.rate),
        rate_error: error_in(&notice.rate),
        unopened: notice.seals.unopened,
        key: notice.seals.key,
    }
}

/// The status of a source of which nothing is known.
const NO_STATUS: SourceStatus = SourceStatus {
    suspect: false,
    accepted: 0,
    refused: 0,
    silent: 0,
    unsent: 0,
    answered: None,
    round_trip: None,
    lower: None,
    upper: None,
    refusals: [0; REASONS],
    rate: None,
    rate_error: None,
    unopened: [0; UNOPENED],
    key: None,
};

/// What became of each source when the clock shows `now`. `unsent` packets to each could not be sent, and `seals` is what is
/// known of the seals of those from it.
fn each_status(
    shown: &Option<Shown>,
    each: &[SourceTally; MAX_SOURCES],
    notices: &Notices,
    unsent: &[u64; MAX_SOURCES],
    seals: &[SourceSeals; MAX_SOURCES],
    now: u64,
) -> [SourceStatus; MAX_SOURCES]
    ensures value { result ≡ each_status shown.now each.now notices.now unsent.now seals.now now }
{
    let mut statuses = [NO_STATUS; MAX_SOURCES];
    for source in 0..MAX_SOURCES {
        let notice = SourceNotice {
            answer: notices.answers[source],
            rate: notices.tracks[source].rate(),
            unsent: unsent[source],
            seals: seals[source],
        };
        statuses[source] = source_status(shown, &each[source], &notice, source as u8, now);
    }
    statuses
}

/// The width of a reading of a fused span when the clock shows `now`, if it can be read.
fn width_at(fused: &FusedSpan, drift: Drift, now: u64) -> Option<u64>
    ensures { result ≡ width_at drift fused.now now }
{
    match fused.read_at(drift, now) {
        Ok(reading) => Some(reading.latest() - reading.earliest()),
        Err(_) => None,
    }
}

/// The width of a reading of what is shown when the clock shows `now`, in nanoseconds. None where there is nothing, or
/// where it can't be read: the clock shows less than it did for it, or more than the greatest time.
pub fn width_shown(shown: &Option<Shown>, drift: Drift, now: u64) -> Option<u64>
    ensures value { result ≡ width_in shown.now drift now }
{
    match shown {
        Some(shown) => width_at(&shown.fused, drift, now),
        None => None,
    }
}

/// The width of a reading of what is shown when the clock shows `now`, and how long ago it was fused.
fn width_and_age(shown: &Option<Shown>, drift: Drift, now: u64) -> (Option<u64>, Option<u64>)
    ensures width { result.0 ≡ width_in shown.now drift now }
    ensures age { result.1 ≡ age_in shown.now now }
{
    match shown {
        Some(shown) => (
            width_at(&shown.fused, drift, now),
            Some(now.saturating_sub(shown.fused.clock)),
        ),
        None => (None, None),
    }
}

/// What a status is made of: the counts of the rounds, the last publication, what was noticed, the packets to each source
/// that could not be sent, the seals of those from it, and the rounds in which a stranger was found.
#[derive(Drop)]
pub struct Account<'a> {
    pub totals: &'a Totals,
    pub shown: &'a Option<Shown>,
    pub notices: &'a Notices,
    pub unsent: &'a [u64; MAX_SOURCES],
    pub seals: &'a [SourceSeals; MAX_SOURCES],
    pub strangers: u64,
}

/// The status of a machine when its clock shows `now`, in nanoseconds: of what its rounds have counted and noticed, of its
/// last publication, of the packets to each source that could not be sent, of the seals of those from it, of strangers, and
/// of its sessions.
pub fn status_of(machine: &Machine, account: &Account<'_>, work: &Work, now: u64) -> Status
    ensures value { result ≡ status_of machine.now account.now.totals.now account.now.shown.now account.now.notices.now account.now.unsent.now account.now.seals.now account.now.strangers work.now now }
{
    let (totals, notices) = (account.totals, account.notices);
    let config = &machine.config;
    let (width, age) = width_and_age(account.shown, config.drift(), now);
    let newest = nth_newest(&notices.answers, config.sources(), 1);
    let needed = needed_by(&notices.answers, config);
    Status {
        machine: machine.number,
        epoch: machine.epoch,
        width,
        age,
        newest: age_from(newest, now),
        needed: age_from(needed, now),
        known: machine.known,
        sources: config.sources() as u64,
        each: each_status(
            account.shown,
            &totals.each,
            notices,
            account.unsent,
            account.seals,
            now,
        ),
        rounds: totals.rounds,
        stale_rounds: notices.stale_rounds,
        published: totals.published,
        refused_answers: totals.refused_answers,
        no_point: totals.no_point,
        too_few: totals.too_few,
        round_trips: notices.trips,
        reading_widths: notices.widths,
        strangers: account.strangers,
        breaks: notices.breaks,
        broken_lives: machine.broken_lives,
        last_break: last_break_in(machine.last_break),
        slept: notices.slept,
        sleep_unseen: notices.sleep_unseen,
        slewing: slewing_in(&notices.slewing),
        sharing: machine.sharing,
        sessions: work.sessions,
        lines: work.lines,
        refused_lines: work.refused_lines,
        waiting: work.waiting,
        unserved: work.unserved,
        workers: config.workers() as u64,
        busy: work.busy,
        open_sessions: work.open_sessions,
        commits_waiting: work.commits_waiting,
        commit_waits: work.commit_waits,
        left_out: work.left_out,
    }
}
