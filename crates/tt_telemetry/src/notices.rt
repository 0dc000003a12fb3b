//! What the daemon has noticed so far: when its sources answered, how their time goes against its clock, and signs that an
//! assumption is broken.

ghost use Rattle.std.specs.Prelude.{◌≡◌, ◌≤◌, ◌-◌, MatchOption};
ghost use Rattle.tt_span.specs.Time.{max_time};
ghost use Rattle.tt_span.specs.Sources.{max_sources};
ghost use Rattle.tt_health.specs.Answers.{answers_after};
ghost use Rattle.tt_health.specs.Break.{IsUnmet};
ghost use Rattle.tt_telemetry.specs.Notice.{TellsApart, TellsUnmet, is_stale, needed_by, with_width};
ghost use Rattle.tt_telemetry.specs.declared.notices.Unmet.{Unmet as TheUnmet};

use crate::records::Shown;
use crate::troubles::Troubles;
use tt_daemon::{Config, Fused, MAX_SOURCES};
use tt_health::{
    Answer, Sample, TRIP_BOUNDS, Track, WIDTH_BOUNDS, aged_last, answers_after, meets_last,
    nth_newest, trip_place, width_place,
};
use tt_host::Slewing;
use tt_publish::FusedSpan;
use tt_rounds::{SourceOutcome, SourceReport};
use tt_sharing::fresh_until;
use tt_span::{Drift, Span};
use tt_status::Histogram;

/// A new publication that does not meet the last one.
#[derive(Clone, Copy)]
pub struct Unmet {
    /// The clock reading of the new one, in nanoseconds.
    pub clock: u64,
    /// Its span.
    pub span: Span,
    /// The span of the last one, aged to this clock reading.
    pub last: Span,
}

/// The new fused span and the last one, if they do not meet.
fn unmet_between(last: &FusedSpan, fused: &FusedSpan, drift: Drift) -> Option<Unmet>
    ensures { MatchOption result (¬ IsUnmet drift last.now fused.now) (TellsApart drift last.now fused.now) }
{
    if meets_last(last, drift, fused) {
        return None;
    }
    Some(Unmet {
        clock: fused.clock,
        span: fused.span,
        last: aged_last(last, drift, fused.clock),
    })
}

/// What was published in a round and what was published last before it, if both are there and do not meet. As long as
/// at most f sources are faulty and the clock keeps its drift bound, they meet: `tt_consistency::meeting_laws`.
pub fn unmet_of(last: &Option<Shown>, shown: &Option<Shown>, drift: Drift) -> Option<Unmet>
    ensures told { MatchOption result ((unmet : TheUnmet) → TellsUnmet drift last.now shown.now unmet → ⊥) (TellsUnmet drift last.now shown.now) }
{
    match last {
        Some(last) => match shown {
            Some(shown) => unmet_between(&last.fused, &shown.fused, drift),
            None => None,
        },
        None => None,
    }
}

/// The clock reading of the (n - f)-th newest of the last answers of the n sources. None if fewer have answered.
pub fn needed_by(answers: &[Option<Answer>; MAX_SOURCES], config: &Config) -> Option<u64>
    ensures value { result ≡ needed_by answers.now config.now }
{
    nth_newest(
        answers,
        config.sources(),
        config.sources() - config.faulty(),
    )
}

/// Whether fewer than n - f sources have answered within three periods when the clock shows `now`.
pub fn is_stale(needed: Option<u64>, period: u64, now: u64) -> bool
    requires { period ≤ max_time }
    ensures value { result ≡ is_stale needed period now }
{
    match needed {
        Some(clock) => fresh_until(clock, period) < now,
        None => true,
    }
}

/// How many of the first `sources` sources have answered within three periods when the clock shows `now`.
pub fn fresh_answers(
    answers: &[Option<Answer>; MAX_SOURCES],
    sources: usize,
    period: u64,
    now: u64,
) -> u64
    requires in_range { sources ≤ max_sources }
    requires in_time { period ≤ max_time }
{
    let mut count: u64 = 0;
    for source in 0..sources {
        if let Some(answer) = &answers[source] {
            if fresh_until(answer.received, period) >= now {
                count = count.saturating_add(1);
            }
        }
    }
    count
}

/// No round trip is counted.
const NO_TRIPS: Histogram = Histogram {
    bounds: TRIP_BOUNDS,
    counts: [0; 13],
    sum: 0,
};

/// No width is counted.
const NO_WIDTHS: Histogram = Histogram {
    bounds: WIDTH_BOUNDS,
    counts: [0; 13],
    sum: 0,
};

/// Counts one more round trip.
fn count_trip(trips: &mut Histogram, trip: u64) {
    let place = trip_place(trip);
    trips.counts[place] = trips.counts[place].saturating_add(1);
    trips.sum = trips.sum.saturating_add(trip);
}

/// Counts one more width.
fn count_width(widths: &mut Histogram, width: u64)
    ensures value { widths.new ≡ with_width widths.old width }
{
    let place = width_place(width);
    widths.counts[place] = widths.counts[place].saturating_add(1);
    widths.sum = widths.sum.saturating_add(width);
}

/// What the daemon has noticed so far in this life.
#[derive(Clone, Copy)]
pub struct Notices {
    /// The last answer of each source that was accepted.
    pub answers: [Option<Answer>; MAX_SOURCES],
    /// How the time of each source goes against the clock.
    pub tracks: [Track; MAX_SOURCES],
    /// The round trips of the answers.
    pub trips: Histogram,
    /// The widths of the publications.
    pub widths: Histogram,
    /// The rounds after which fewer than n - f sources had answered within three periods.
    pub stale_rounds: u64,
    /// The signs that an assumption is broken.
    pub breaks: u64,
    /// For how long the host slept, in nanoseconds.
    pub slept: u64,
    /// Whether the last look for that failed.
    pub sleep_unseen: bool,
    /// How `CLOCK_MONOTONIC` is slewed.
    pub slewing: Slewing,
    /// What it was troubled by when the last round had ended.
    pub troubles: Troubles,
}

/// Whether an answer was accepted.
fn is_accepted(source: &SourceReport) -> bool {
    matches!(source.outcome, SourceOutcome::Accepted { .. })
}

impl Notices {
    /// Nothing is noticed.
    pub fn new() -> Notices {
        Notices {
            answers: [None; MAX_SOURCES],
            tracks: [Track::new(); MAX_SOURCES],
            trips: NO_TRIPS,
            widths: NO_WIDTHS,
            stale_rounds: 0,
            breaks: 0,
            slept: 0,
            sleep_unseen: false,
            slewing: Slewing::new(),
            troubles: Troubles::new(),
        }
    }

    /// The answers of a round with this report are noticed.
    pub fn hear(&mut self, sources: &[SourceReport; MAX_SOURCES])
        ensures answers { self.new.answers ≡ answers_after self.old.answers sources.now }
    {
        self.answers = answers_after(&self.answers, sources);
        for source in 0..MAX_SOURCES {
            if let Some(answer) = &self.answers[source] {
                if is_accepted(&sources[source]) {
                    count_trip(&mut self.trips, answer.round_trip());
                }
            }
        }
    }

    /// A publication with this span is noticed: its width is counted, and nothing else is changed.
    pub fn measure(&mut self, span: &Span)
        ensures value { self.new ≡ record self.old { widths = with_width self.old.widths (span.now.hi - span.now.lo) } }
    {
        count_width(&mut self.widths, span.hi() - span.lo());
    }

    /// Leaves the counts of answers as they are. It notices this fusion, and the spans of the sources that answered in a
    /// round with this report.
    pub fn track(&mut self, sources: &[SourceReport; MAX_SOURCES], fused: &Fused)
        ensures same { self.new.answers ≡ self.old.answers }
    {
        for source in 0..MAX_SOURCES {
            if is_accepted(&sources[source]) {
                if let Some(span) = fused.spans().get(source) {
                    self.tracks[source] = self.tracks[source].after(Sample {
                        clock: fused.clock(),
                        span: *span,
                    });
                }
            }
        }
    }
}
