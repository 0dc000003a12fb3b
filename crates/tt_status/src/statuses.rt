//! The status of a machine.

ghost use Rattle.std.specs.Prelude.{◌≡◌, ◌<◌, ◌++◌, OnOk, map, string_bytes};
ghost use Rattle.std.specs.List.{flat_map};
ghost use Rattle.tt_status.specs.Metric.{metric_text, sample_text};
ghost use Rattle.tt_status.specs.Status.{build_metric, publication_metrics, known_metrics, refusal_place, unopened_place, subject_of, value_of, sample_of, source_metric, source_metrics, source_round_metrics, source_answer_metrics, source_rate_metrics, source_seal_metrics, round_metrics, refusals_metric, metrics_of, status_text};

use crate::breaks::{LastBreak, push_breaks, push_last_break};
use crate::digits::Difference;
use crate::histograms::Histogram;
use crate::infos::push_source_infos;
use crate::lines::RefusedFusion;
use crate::metrics::{Kind, Outcome, Row, Subject, Value, push_head, push_rows, push_sample};
use crate::services::{push_clients, push_histograms, push_workers, push_written};
use crate::slewings::{Slewing, push_slewing};
use std::alloc::AllocError;
use tt_seal::SealFault;
use tt_source::SourceFault;

/// The greatest number of sources of a status.
pub const MAX_SOURCES: usize = 16;

/// How many reasons there are for which an answer of a source is refused.
pub const REASONS: usize = 7;

/// How many reasons there are for which a packet does not open.
pub const UNOPENED: usize = 3;

/// The rounds of a source, by outcome.
const OUTCOMES: [Aspect; 3] = [
    Aspect::Rounds(Outcome::Accepted),
    Aspect::Rounds(Outcome::Refused),
    Aspect::Rounds(Outcome::Silent),
];

/// The rounds of a source in which its answers were refused, by the reason of the last one.
const REFUSALS: [Aspect; 6] = [
    Aspect::Refusals(SourceFault::ClockBack),
    Aspect::Refusals(SourceFault::NoncesUsedUp),
    Aspect::Refusals(SourceFault::BadMessage),
    Aspect::Refusals(SourceFault::NotMine),
    Aspect::Refusals(SourceFault::OtherEpoch),
    Aspect::Refusals(SourceFault::NotOutstanding),
];

/// The packets from a source that did not open, by the reason.
const UNOPENED_PACKETS: [Aspect; 3] = [
    Aspect::Unopened(SealFault::Length),
    Aspect::Unopened(SealFault::UnknownKey),
    Aspect::Unopened(SealFault::WrongTag),
];

/// What became of one source, at one moment.
#[derive(Clone, Copy)]
pub struct SourceStatus {
    /// Whether it is a suspect of the last fusion.
    pub suspect: bool,
    /// In how many rounds an answer of it was accepted.
    pub accepted: u64,
    /// In how many rounds answers of it came, and all were refused.
    pub refused: u64,
    /// In how many rounds no answer of it came.
    pub silent: u64,
    /// How many packets to it could not be sent.
    pub unsent: u64,
    /// How long ago its last accepted answer came, in nanoseconds; none before the first.
    pub answered: Option<u64>,
    /// The round trip of that answer, in nanoseconds.
    pub round_trip: Option<u64>,
    /// The lower end of its span minus that of the fused span, at the last publication, in nanoseconds.
    pub lower: Option<Difference>,
    /// The upper end of its span minus that of the fused span, at the last publication, in nanoseconds.
    pub upper: Option<Difference>,
    /// In how many rounds answers of it came, all were refused, and the last one for the reason of this place, which
    /// [`refusal_place`] gives. That of 401 is not shown, since a source that is asked is one.
    pub refusals: [u64; REASONS],
    /// What the machine's clock gains against the source, in parts per billion of what it goes on: above 0 where it goes
    /// faster than the source, below 0 where it goes slower.
    pub rate: Option<Difference>,
    /// By how much that may be wrong, in parts per billion.
    pub rate_error: Option<u64>,
    /// How many packets from it did not open, for the reason of each place, which [`unopened_place`] gives.
    pub unopened: [u64; UNOPENED],
    /// The number of the key under which its last packet opened; none before the first, and where it has no keys.
    pub key: Option<u32>,
}

/// The place of the refusals for a reason among those of a [`SourceStatus`].
pub fn refusal_place(reason: SourceFault) -> usize
    ensures value { result ≡ refusal_place reason }
    ensures in_range { result < 7 }
{
    match reason {
        SourceFault::NoSource => 0,
        SourceFault::ClockBack => 1,
        SourceFault::NoncesUsedUp => 2,
        SourceFault::BadMessage => 3,
        SourceFault::NotMine => 4,
        SourceFault::OtherEpoch => 5,
        SourceFault::NotOutstanding => 6,
    }
}

/// The place of the packets that did not open for a reason among those of a [`SourceStatus`].
pub fn unopened_place(reason: SealFault) -> usize
    ensures value { result ≡ unopened_place reason }
    ensures in_range { result < 3 }
{
    match reason {
        SealFault::Length => 0,
        SealFault::UnknownKey => 1,
        SealFault::WrongTag => 2,
    }
}

/// What a machine has done and knows, at one moment.
#[derive(Clone, Copy)]
pub struct Status {
    /// The number of the machine.
    pub machine: u64,
    /// The epoch of this life.
    pub epoch: u64,
    /// The width of a reading now, in nanoseconds; none before the first publication.
    pub width: Option<u64>,
    /// How long ago the last publication was fused, in nanoseconds; none before the first.
    pub age: Option<u64>,
    /// How long ago the newest accepted answer came, in nanoseconds; none before the first.
    pub newest: Option<u64>,
    /// How long ago the last accepted answer came of the source that is the (n - f)-th by that, the newest first, in
    /// nanoseconds; none before so many have answered.
    pub needed: Option<u64>,
    /// How many of the sources have made a statement.
    pub known: u64,
    /// How many sources are asked, at most [`MAX_SOURCES`]: only so many are shown.
    pub sources: u64,
    /// What became of each source. Those behind the first `sources` are not shown.
    pub each: [SourceStatus; MAX_SOURCES],
    /// How many rounds were made.
    pub rounds: u64,
    /// How many of them published.
    pub published: u64,
    /// How many answers of sources were refused.
    pub refused_answers: u64,
    /// How many fusions were refused with 504: more than f sources are faulty.
    pub no_point: u64,
    /// How many fusions were refused with 701: too few sources are known.
    pub too_few: u64,
    /// How many rounds there were after which fewer than n - f sources had answered within three periods.
    pub stale_rounds: u64,
    /// How many packets came from addresses that are no source's.
    pub strangers: u64,
    /// How many signs of a broken assumption there were in this life.
    pub breaks: u64,
    /// How many lives before this one ended by a broken assumption, as recorded at the start.
    pub broken_lives: u64,
    /// When the last of them noticed that, and why, as recorded at the start; none if that is not known.
    pub last_break: Option<LastBreak>,
    /// For how long the host has slept in this life, in nanoseconds.
    pub slept: u64,
    /// Whether it would not be seen that the host sleeps: the last look failed.
    pub sleep_unseen: bool,
    /// How the slewed clock goes, and what readers by it are told.
    pub slewing: Slewing,
    /// Whether a shared file is written. It is not if there is none, or if its writing has ended.
    pub sharing: bool,
    /// How many sessions have ended.
    pub sessions: u64,
    /// How many lines of clients were answered.
    pub lines: u64,
    /// How many of them were answered `refused`.
    pub refused_lines: u64,
    /// How many connections wait for a worker.
    pub waiting: u64,
    /// How many connections were closed before their session began.
    pub unserved: u64,
    /// How many workers there are. Each serves its sessions by turns.
    pub workers: u64,
    /// How many of them have a session.
    pub busy: u64,
    /// How many sessions are open.
    pub open_sessions: u64,
    /// How many commits wait.
    pub commits_waiting: u64,
    /// How long commits have waited.
    pub commit_waits: Histogram,
    /// The round trips of accepted answers.
    pub round_trips: Histogram,
    /// The widths of the publications.
    pub reading_widths: Histogram,
    /// How many lines of the log, statuses and texts of evidence were left out because no place was free for them.
    pub left_out: u64,
}

/// A number of each source.
#[derive(Clone, Copy)]
enum Aspect {
    /// Whether it is a suspect.
    Suspicion,
    /// The rounds with this outcome.
    Rounds(Outcome),
    /// The rounds in which its answers were refused, the last one for this reason.
    Refusals(SourceFault),
    /// The packets to it that could not be sent.
    Unsent,
    /// How long ago its last accepted answer came.
    Answered,
    /// The round trip of that answer.
    RoundTrip,
    /// The lower end of its span against that of the fused one.
    Lower,
    /// The upper end of its span against that of the fused one.
    Upper,
    /// What the machine's clock gains against it.
    Rate,
    /// The error of that.
    RateError,
    /// The packets from it that did not open for this reason.
    Unopened(SealFault),
    /// The key under which its last packet opened.
    Key,
}

impl Aspect {
    /// What a sample of this number is of.
    fn subject(self, source: u64) -> Subject
        ensures { result ≡ subject_of self source }
    {
        match self {
            Aspect::Rounds(outcome) => Subject::OutcomeOf(source, outcome),
            Aspect::Refusals(reason) => Subject::RefusedOf(source, reason),
            Aspect::Unopened(reason) => Subject::UnopenedOf(source, reason),
            _ => Subject::Source(source),
        }
    }

    /// The number of a source.
    fn value(self, source: &SourceStatus) -> Value
        ensures { result ≡ value_of self source.now }
    {
        match self {
            Aspect::Suspicion => Value::Flag(source.suspect),
            Aspect::Rounds(Outcome::Accepted) => Value::Whole(source.accepted),
            Aspect::Rounds(Outcome::Refused) => Value::Whole(source.refused),
            Aspect::Rounds(Outcome::Silent) => Value::Whole(source.silent),
            Aspect::Refusals(reason) => Value::Whole(source.refusals[refusal_place(reason)]),
            Aspect::Unsent => Value::Whole(source.unsent),
            Aspect::Answered => Value::Nanos(source.answered),
            Aspect::RoundTrip => Value::Nanos(source.round_trip),
            Aspect::Lower => Value::Signed(source.lower),
            Aspect::Upper => Value::Signed(source.upper),
            Aspect::Rate => Value::Signed(source.rate),
            Aspect::RateError => Value::Nanos(source.rate_error),
            Aspect::Unopened(reason) => Value::Whole(source.unopened[unopened_place(reason)]),
            Aspect::Key => Value::Key(source.key),
        }
    }
}

/// A metric of numbers of each source: its name, what it says, its kind, and the numbers.
#[derive(Clone, Copy)]
struct SourceRow<'a> {
    name: &'a str,
    help: &'a str,
    kind: Kind,
    aspects: &'a [Aspect],
}

/// Adds the status to a text, in the format that Prometheus collects (its text format, version 0.0.4). Each metric has
/// its help and its type once, before all of its samples, and each sample has the label `machine`. Times are in seconds,
/// with nine digits behind the point, and `NaN` where there are none. The counts of a histogram are of all values that
/// are at most a bound, and stay at 2^64 - 1. Behind all other metrics stand the addresses of the sources, in their order.
/// Refuses only if it is out of memory; then the text may have a part of it at its end.
pub fn push_status(
    text: &mut String,
    status: &Status,
    addresses: &[String],
) -> Result<(), AllocError>
    ensures written { OnOk result (string_bytes text.new ≡ string_bytes text.old ++ status_text status.now (map string_bytes addresses.now)) }
{
    push_numbers(text, status)?;
    push_source_infos(text, status.machine, addresses)
}

/// Adds the metrics of numbers.
fn push_numbers(text: &mut String, status: &Status) -> Result<(), AllocError>
    ensures { OnOk result (string_bytes text.new ≡ string_bytes text.old ++ flat_map (metric_text status.now.machine) (metrics_of status.now)) }
{
    push_build(text, status.machine)?;
    push_publication(text, status)?;
    push_known(text, status)?;
    push_sources(text, status)?;
    push_rounds(text, status)?;
    push_refusals(text, status)?;
    push_breaks(text, status)?;
    push_last_break(text, status.machine, &status.last_break)?;
    push_slewing(text, status.machine, &status.slewing)?;
    push_clients(text, status)?;
    push_workers(text, status)?;
    push_histograms(text, status)?;
    push_written(text, status)
}

/// Adds the metric that names the version.
fn push_build(text: &mut String, machine: u64) -> Result<(), AllocError>
    ensures { OnOk result (string_bytes text.new ≡ string_bytes text.old ++ metric_text machine build_metric) }
{
    let name = "truetime_build_info";
    push_head(
        text,
        name,
        "The version of the program; the value is always 1.",
        Kind::Gauge,
    )?;
    push_sample(text, name, machine, Subject::Version, Value::Whole(1))
}

/// Adds the epoch, and what the last publication shows.
fn push_publication(text: &mut String, status: &Status) -> Result<(), AllocError>
    ensures { OnOk result (string_bytes text.new ≡ string_bytes text.old
        ++ flat_map (metric_text status.now.machine) (publication_metrics status.now)) }
{
    push_rows(
        text,
        status.machine,
        &[
            Row {
                name: "truetime_epoch",
                help: "The epoch of this life of the machine.",
                kind: Kind::Gauge,
                value: Value::Whole(status.epoch),
            },
            Row {
                name: "truetime_width_seconds",
                help: "The width of a reading now; NaN before the first publication.",
                kind: Kind::Gauge,
                value: Value::Nanos(status.width),
            },
            Row {
                name: "truetime_fusion_age_seconds",
                help: "How long ago the last fusion was made that was published; NaN before the first.",
                kind: Kind::Gauge,
                value: Value::Nanos(status.age),
            },
        ],
    )
}

/// Adds how many sources there are, and how old what they have answered is.
fn push_known(text: &mut String, status: &Status) -> Result<(), AllocError>
    ensures { OnOk result (string_bytes text.new ≡ string_bytes text.old
        ++ flat_map (metric_text status.now.machine) (known_metrics status.now)) }
{
    push_rows(
        text,
        status.machine,
        &[
            Row {
                name: "truetime_sources",
                help: "The sources that are asked.",
                kind: Kind::Gauge,
                value: Value::Whole(status.sources),
            },
            Row {
                name: "truetime_sources_known",
                help: "The sources that have made a statement in this life.",
                kind: Kind::Gauge,
                value: Value::Whole(status.known),
            },
            Row {
                name: "truetime_newest_answer_age_seconds",
                help: "How long ago the newest accepted answer came; NaN before the first.",
                kind: Kind::Gauge,
                value: Value::Nanos(status.newest),
            },
            Row {
                name: "truetime_needed_answer_age_seconds",
                help: "Within what time n - f sources have answered last; NaN before they have.",
                kind: Kind::Gauge,
                value: Value::Nanos(status.needed),
            },
        ],
    )
}

/// Adds the numbers of the sources.
fn push_sources(text: &mut String, status: &Status) -> Result<(), AllocError>
    ensures { OnOk result (string_bytes text.new ≡ string_bytes text.old
        ++ flat_map (metric_text status.now.machine) (source_metrics status.now)) }
{
    push_source_rounds(text, status)?;
    push_source_answers(text, status)?;
    push_source_rates(text, status)?;
    push_source_seals(text, status)
}

/// Adds what became of the sources in the rounds.
fn push_source_rounds(text: &mut String, status: &Status) -> Result<(), AllocError>
    ensures { OnOk result (string_bytes text.new ≡ string_bytes text.old
        ++ flat_map (metric_text status.now.machine) (source_round_metrics status.now)) }
{
    push_source_rows(
        text,
        status,
        &[
            SourceRow {
                name: "truetime_source_suspect",
                help: "1 if the source is a suspect of the last fusion, else 0.",
                kind: Kind::Gauge,
                aspects: &[Aspect::Suspicion],
            },
            SourceRow {
                name: "truetime_source_rounds_total",
                help: "Rounds by what became of the source.",
                kind: Kind::Counter,
                aspects: &OUTCOMES,
            },
            SourceRow {
                name: "truetime_source_rounds_refused_total",
                help: "Rounds in which all answers of the source were refused, by the number of the last refusal.",
                kind: Kind::Counter,
                aspects: &REFUSALS,
            },
            SourceRow {
                name: "truetime_source_packets_unsent_total",
                help: "Packets to the source that could not be sent.",
                kind: Kind::Counter,
                aspects: &[Aspect::Unsent],
            },
        ],
    )
}

/// Adds what the last accepted answers of the sources say.
fn push_source_answers(text: &mut String, status: &Status) -> Result<(), AllocError>
    ensures { OnOk result (string_bytes text.new ≡ string_bytes text.old
        ++ flat_map (metric_text status.now.machine) (source_answer_metrics status.now)) }
{
    push_source_rows(
        text,
        status,
        &[
            SourceRow {
                name: "truetime_source_answer_age_seconds",
                help: "How long ago the last accepted answer of the source came; NaN before the first.",
                kind: Kind::Gauge,
                aspects: &[Aspect::Answered],
            },
            SourceRow {
                name: "truetime_source_round_trip_seconds",
                help: "The round trip of that answer; NaN before the first.",
                kind: Kind::Gauge,
                aspects: &[Aspect::RoundTrip],
            },
            SourceRow {
                name: "truetime_source_lower_seconds",
                help: "The lower end of the source's span minus that of the fused one, at the last publication; NaN where there is none.",
                kind: Kind::Gauge,
                aspects: &[Aspect::Lower],
            },
            SourceRow {
                name: "truetime_source_upper_seconds",
                help: "The upper end of the source's span minus that of the fused one, at the last publication; NaN where there is none.",
                kind: Kind::Gauge,
                aspects: &[Aspect::Upper],
            },
        ],
    )
}

/// Adds how the machine's clock goes against the sources.
fn push_source_rates(text: &mut String, status: &Status) -> Result<(), AllocError>
    ensures { OnOk result (string_bytes text.new ≡ string_bytes text.old
        ++ flat_map (metric_text status.now.machine) (source_rate_metrics status.now)) }
{
    push_source_rows(
        text,
        status,
        &[
            SourceRow {
                name: "truetime_source_clock_rate_ratio",
                help: "What the machine's clock gains against the source, as a part of its own time; NaN where it is not known.",
                kind: Kind::Gauge,
                aspects: &[Aspect::Rate],
            },
            SourceRow {
                name: "truetime_source_clock_rate_error_ratio",
                help: "By how much that part may be wrong; NaN where it is not known.",
                kind: Kind::Gauge,
                aspects: &[Aspect::RateError],
            },
        ],
    )
}

/// Adds which packets of the sources did not open, and under which keys the others did.
fn push_source_seals(text: &mut String, status: &Status) -> Result<(), AllocError>
    ensures { OnOk result (string_bytes text.new ≡ string_bytes text.old
        ++ flat_map (metric_text status.now.machine) (source_seal_metrics status.now)) }
{
    push_source_rows(
        text,
        status,
        &[
            SourceRow {
                name: "truetime_source_packets_unopened_total",
                help: "Packets from the source that did not open, by the number of the reason.",
                kind: Kind::Counter,
                aspects: &UNOPENED_PACKETS,
            },
            SourceRow {
                name: "truetime_source_key",
                help: "The number of the key under which the last packet of the source opened; NaN where there is none.",
                kind: Kind::Gauge,
                aspects: &[Aspect::Key],
            },
        ],
    )
}

/// Adds these metrics of the sources.
fn push_source_rows(
    text: &mut String,
    status: &Status,
    rows: &[SourceRow<'_>],
) -> Result<(), AllocError>
    ensures { OnOk result (string_bytes text.new ≡ string_bytes text.old
        ++ flat_map (λ row. metric_text status.now.machine (source_metric row.aspects.now row.name.now row.help.now row.kind status.now)) rows.now) }
{
    for row in rows {
        push_source_row(text, status, row)?;
    }
    Ok(())
}

/// Adds a metric of the sources: the numbers of each source that is asked.
fn push_source_row(
    text: &mut String,
    status: &Status,
    row: &SourceRow<'_>,
) -> Result<(), AllocError>
    ensures { OnOk result (string_bytes text.new ≡ string_bytes text.old
        ++ metric_text status.now.machine (source_metric row.now.aspects.now row.now.name.now row.now.help.now row.now.kind status.now)) }
{
    push_head(text, row.name, row.help, row.kind)?;
    let shown = status.sources.min(MAX_SOURCES as u64) as usize;
    for number in 0..shown {
        let source = &status.each[number];
        push_source(
            text,
            status.machine,
            row.name,
            row.aspects,
            number as u64,
            source,
        )?;
    }
    Ok(())
}

/// Adds these numbers of a source.
fn push_source(
    text: &mut String,
    machine: u64,
    name: &str,
    aspects: &[Aspect],
    number: u64,
    source: &SourceStatus,
) -> Result<(), AllocError>
    ensures { OnOk result (string_bytes text.new ≡ string_bytes text.old
        ++ flat_map (λ aspect. sample_text name.now machine (sample_of number source.now aspect)) aspects.now) }
{
    for aspect in aspects {
        push_sample(
            text,
            name,
            machine,
            aspect.subject(number),
            aspect.value(source),
        )?;
    }
    Ok(())
}

/// Adds what became of the rounds.
fn push_rounds(text: &mut String, status: &Status) -> Result<(), AllocError>
    ensures { OnOk result (string_bytes text.new ≡ string_bytes text.old
        ++ flat_map (metric_text status.now.machine) (round_metrics status.now)) }
{
    push_rows(
        text,
        status.machine,
        &[
            Row {
                name: "truetime_rounds_total",
                help: "Rounds that were made.",
                kind: Kind::Counter,
                value: Value::Whole(status.rounds),
            },
            Row {
                name: "truetime_publications_total",
                help: "Rounds that published.",
                kind: Kind::Counter,
                value: Value::Whole(status.published),
            },
            Row {
                name: "truetime_answers_refused_total",
                help: "Answers of sources that were refused.",
                kind: Kind::Counter,
                value: Value::Whole(status.refused_answers),
            },
            Row {
                name: "truetime_rounds_stale_total",
                help: "Rounds after which fewer than n - f sources had answered within three periods.",
                kind: Kind::Counter,
                value: Value::Whole(status.stale_rounds),
            },
        ],
    )
}

/// Adds how many fusions were refused, for each reason.
fn push_refusals(text: &mut String, status: &Status) -> Result<(), AllocError>
    ensures { OnOk result (string_bytes text.new ≡ string_bytes text.old
        ++ metric_text status.now.machine (refusals_metric status.now)) }
{
    let (name, machine) = ("truetime_fusions_refused_total", status.machine);
    push_head(
        text,
        name,
        "Refused fusions: 504 if more than f sources are faulty, 701 if too few are known.",
        Kind::Counter,
    )?;
    let no_point = Subject::Refusal(RefusedFusion::NoPoint);
    push_sample(text, name, machine, no_point, Value::Whole(status.no_point))?;
    let too_few = Subject::Refusal(RefusedFusion::TooFewKnown);
    push_sample(text, name, machine, too_few, Value::Whole(status.too_few))
}
