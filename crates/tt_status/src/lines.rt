//! The lines of a log.

ghost use Rattle.std.specs.Prelude.{◌≡◌, ◌++◌, OnOk, string_bytes};
ghost use Rattle.jiff_core.specs.declared.civil.date.Date.{Date as Day};
ghost use Rattle.tt_status.specs.Moment.{IsDateOf};
ghost use Rattle.tt_status.specs.Event.{event_line, head_text, left_out_text, end_text, field, rate_field, address_field, level_of, name_of, fields_of, refusal_number_of, priority_text, number_told, place_told};

use crate::digits::{Difference, push_rate};
use crate::moments::{date_of, push_moment};
use crate::priorities::{LogStyle, priority_of};
use crate::told::{push_place, push_words};
use jiff_core::civil::Date;
use std::alloc::AllocError;
use std::net::SocketAddr;
use tt_daemon::DaemonFault;

/// Why a fusion is refused.
#[derive(Clone, Copy)]
pub enum RefusedFusion {
    /// No point lies in the spans of enough sources: more than f sources are faulty.
    NoPoint,
    /// Too few sources are known.
    TooFewKnown,
}

impl RefusedFusion {
    /// The number of the refusal, as [`DaemonFault::number`] has it: 504 for `NoPoint`, 701 for `TooFewKnown`.
    pub fn number(self) -> u64
        ensures value { result ≡ refusal_number_of self }
    {
        let fault = match self {
            RefusedFusion::NoPoint => DaemonFault::NoPoint,
            RefusedFusion::TooFewKnown => DaemonFault::Unknown,
        };
        u64::from(fault.number())
    }
}

/// The form of the lines of a log.
#[derive(Clone, Copy)]
pub enum LogFormat {
    /// Names and values, as `level=warn event=clock_back`.
    Text,
    /// One object of JSON on each line.
    Json,
}

/// An event that an operator wants to see, or may have to act on.
#[derive(Clone, Copy)]
pub enum LogEvent {
    /// The machine has started in this epoch, and serves clients at this port.
    Started {
        machine: u64,
        epoch: u64,
        port: u64,
    },
    /// The first publication of this life, with its width in nanoseconds.
    FirstPublication {
        width: u64,
    },
    /// No answer of this source came in a round.
    SourceSilent {
        source: u64,
    },
    /// An answer of this source was accepted, and none was in the round before.
    SourceAnswers {
        source: u64,
    },
    /// This source is a suspect of the fusion: its span does not meet the fused span.
    SourceSuspect {
        source: u64,
    },
    /// This source is no suspect of the fusion, and was one of the fusion before.
    SourceAgrees {
        source: u64,
    },
    /// A fusion was refused for this reason.
    FusionRefused {
        reason: RefusedFusion,
    },
    /// A fusion was published, and the one before was refused.
    FusionPublished,
    /// The clock could not be read, or went back.
    ClockBack,
    /// This many answers of sources were refused in a round.
    AnswersRefused {
        count: u64,
    },
    /// A round ended with the fault of this number: its link failed, or its fusion was not published.
    RoundFailed {
        number: u64,
    },
    /// A round ended without a fault, and the one before with one.
    RoundsResumed,
    /// The shared file is no longer written, because of the fault of this number.
    SharingEnded {
        number: u64,
    },
    /// The shared file is written again.
    SharingResumed,
    /// The status file was not written, for the reason of this number of the system, errno; 0 where it has none.
    StatusUnwritten {
        errno: u64,
    },
    /// The status file is written again.
    StatusWritten,
    /// A connection was not accepted, for the reason of this number of the system, errno.
    NotAccepted {
        errno: u64,
    },
    /// At the start, others than its owner may write the folder of the state.
    StateLoose,
    /// At the start, others than its owner may write the file of the epoch.
    EpochLoose,
    /// At the start, others than its owner may write the shared file.
    SharedLoose,
    /// The machine ends in order.
    Ended,
    /// This master answers polls at this port from now on.
    MasterStarted {
        source: u64,
        port: u64,
    },
    /// A master's link or reference failed, with this number: 1501 or 304.
    MasterFailed {
        number: u64,
    },
    /// A master's link and reference work again.
    MasterResumed,
    /// The socket for polls failed with this number, and is made anew after this pause in nanoseconds.
    SocketRenewed {
        number: u64,
        pause: u64,
    },
    /// A publication has lasted this long so far, in nanoseconds: a reader has not left its reading.
    PublicationSlow {
        lasted: u64,
    },
    /// A packet to this source could not be sent.
    SourceUnsent {
        source: u64,
    },
    /// An assumption of the service is broken: at this clock reading the fused span and the last published one, aged to
    /// it, do not meet. All are in nanoseconds.
    AssumptionBroken {
        clock: u64,
        lower: u64,
        upper: u64,
        last_lower: u64,
        last_upper: u64,
    },
    /// The host slept, for so long in nanoseconds.
    HostSlept {
        slept: u64,
    },
    /// The machine is a guest whose clock was disrupted, as its host says.
    GuestDisrupted,
    /// That the host sleeps would not be seen: `CLOCK_BOOTTIME` or `CLOCK_MONOTONIC` can't be read.
    SleepUnseen,
    /// That the host sleeps would be seen again.
    SleepSeen,
    /// How many descriptors the process may have, how many all sessions want, and how many sessions there is room for.
    Descriptors {
        limit: u64,
        needed: u64,
        sessions: u64,
    },
    /// Only this many sources have answered within three periods, which is fewer than are needed.
    SourcesStale {
        answered: u64,
        needed: u64,
    },
    /// As many sources as are needed have answered within three periods again.
    SourcesFresh,
    /// The start waits for so long in nanoseconds, since so many lives ended by a broken assumption one behind the other.
    StartPaused {
        pause: u64,
        breaks: u64,
    },
    /// The evidence was not written, for the reason of this number of the system, errno; 0 where it has none.
    EvidenceUnwritten {
        errno: u64,
    },
    /// The newest evidence is written again.
    EvidenceWritten,
    /// A packet came from this address, which is no source's.
    Stranger {
        address: SocketAddr,
    },
    /// The name of this source has no address, or none that could be found.
    SourceUnresolved {
        source: u64,
    },
    /// The name of this source has this address from now on.
    SourceResolved {
        source: u64,
        address: SocketAddr,
    },
    /// The file of keys was read, and has this many.
    KeysRead {
        keys: u64,
    },
    /// The file of keys was refused with this number, because of this line; 0 where no line is at fault. The keys before
    /// stay.
    KeysRefused {
        number: u64,
        line: u64,
    },
    /// This many packets so far did not open under a key of the file.
    PollsUnopened {
        count: u64,
    },
    /// The address to listen at is not up. It is tried again after this pause in nanoseconds.
    AddressAwaited {
        pause: u64,
    },
    /// From now on this master answers no poll, for the reason of this number: 2401 to 2408.
    MasterSilent {
        number: u64,
    },
    /// This master answers polls again.
    MasterAnswers,
    /// The span of an answer of this master, or a reading of this machine before a round, is wider than it shall be. Both are
    /// in nanoseconds.
    WidthAbove {
        width: u64,
        limit: u64,
    },
    /// The span of an answer of this master, or a reading of this machine before a round, is not wider than it shall be any more.
    WidthInBounds,
    /// The machine stood still: this long, in nanoseconds, it ended no round.
    StoodStill {
        lasted: u64,
    },
    /// The real-time clock was stepped, or is off by more than was stated: this master is silent until it is started again.
    ClockStepped,
    /// A reply of this server of a master was refused with this number.
    ServerRefused {
        server: u64,
        number: u64,
    },
    /// No reply of this server of a master came to a request.
    ServerSilent {
        server: u64,
    },
    /// A reply of this server of a master was accepted, and the request before had none, or a refused one.
    ServerAnswers {
        server: u64,
    },
    /// Readers of the shared file by `CLOCK_MONOTONIC` are told nothing, since it gained this against `CLOCK_MONOTONIC_RAW`
    /// in a round, more than the setting `slew` allows. The rate, counted in parts per billion, and the bound are
    /// told in parts per million.
    SlewTooFast {
        rate: Difference,
        slew: u64,
    },
    /// Readers by `CLOCK_MONOTONIC` are told something again.
    SlewInBounds,
}

impl LogEvent {
    /// The level of the event in a line.
    fn level(self) -> &'static str
        ensures { result.now ≡ level_of self }
    {
        match self {
            LogEvent::Started { .. }
            | LogEvent::FirstPublication { .. }
            | LogEvent::SourceAnswers { .. }
            | LogEvent::SourceAgrees { .. }
            | LogEvent::FusionPublished
            | LogEvent::RoundsResumed
            | LogEvent::MasterResumed
            | LogEvent::SleepSeen
            | LogEvent::SourcesFresh
            | LogEvent::ServerAnswers { .. }
            | LogEvent::SharingResumed
            | LogEvent::StatusWritten
            | LogEvent::EvidenceWritten
            | LogEvent::WidthInBounds
            | LogEvent::Ended
            | LogEvent::Descriptors { .. }
            | LogEvent::MasterStarted { .. }
            | LogEvent::SourceResolved { .. }
            | LogEvent::KeysRead { .. }
            | LogEvent::MasterAnswers
            | LogEvent::SlewInBounds => "info",
            LogEvent::ClockStepped
            | LogEvent::AssumptionBroken { .. }
            | LogEvent::HostSlept { .. }
            | LogEvent::GuestDisrupted => "error",
            _ => "warn",
        }
    }

    /// The number of a refusal among its fields, if it has one.
    pub fn number(self) -> Option<u64>
        ensures value { result ≡ number_told self }
    {
        match self {
            LogEvent::FusionRefused { reason } => Some(reason.number()),
            LogEvent::RoundFailed { number }
            | LogEvent::SharingEnded { number }
            | LogEvent::MasterFailed { number }
            | LogEvent::MasterSilent { number }
            | LogEvent::SocketRenewed { number, .. }
            | LogEvent::KeysRefused { number, .. }
            | LogEvent::ServerRefused { number, .. } => Some(number),
            _ => None,
        }
    }

    /// The place among the sources of a machine, or among the servers of a master, of which it tells without an address.
    pub fn place(self) -> Option<u64>
        ensures value { result ≡ place_told self }
    {
        match self {
            LogEvent::SourceSilent { source }
            | LogEvent::SourceAnswers { source }
            | LogEvent::SourceSuspect { source }
            | LogEvent::SourceAgrees { source }
            | LogEvent::SourceUnsent { source }
            | LogEvent::SourceUnresolved { source } => Some(source),
            LogEvent::ServerRefused { server, .. }
            | LogEvent::ServerSilent { server }
            | LogEvent::ServerAnswers { server } => Some(server),
            _ => None,
        }
    }

    /// The name of the event in a line.
    fn name(self) -> &'static str
        ensures { result.now ≡ name_of self }
    {
        match self {
            LogEvent::Started { .. } => "started",
            LogEvent::FirstPublication { .. } => "first_publication",
            LogEvent::SourceSilent { .. } => "source_silent",
            LogEvent::SourceAnswers { .. } => "source_answers",
            LogEvent::SourceSuspect { .. } => "source_suspect",
            LogEvent::SourceAgrees { .. } => "source_agrees",
            LogEvent::FusionRefused { .. } => "fusion_refused",
            LogEvent::FusionPublished => "fusion_published",
            LogEvent::ClockBack => "clock_back",
            LogEvent::AnswersRefused { .. } => "answers_refused",
            LogEvent::RoundFailed { .. } => "round_failed",
            LogEvent::RoundsResumed => "rounds_resumed",
            LogEvent::SharingEnded { .. } => "sharing_ended",
            LogEvent::SharingResumed => "sharing_resumed",
            LogEvent::StatusUnwritten { .. } => "status_unwritten",
            LogEvent::StatusWritten => "status_written",
            LogEvent::NotAccepted { .. } => "not_accepted",
            LogEvent::StateLoose => "state_loose",
            LogEvent::EpochLoose => "epoch_loose",
            LogEvent::SharedLoose => "shared_loose",
            LogEvent::Ended => "ended",
            LogEvent::MasterStarted { .. } => "master_started",
            LogEvent::MasterFailed { .. } => "master_failed",
            LogEvent::MasterResumed => "master_resumed",
            LogEvent::SocketRenewed { .. } => "socket_renewed",
            LogEvent::PublicationSlow { .. } => "publication_slow",
            LogEvent::SourceUnsent { .. } => "source_unsent",
            LogEvent::AssumptionBroken { .. } => "assumption_broken",
            LogEvent::HostSlept { .. } => "host_slept",
            LogEvent::GuestDisrupted => "guest_disrupted",
            LogEvent::SleepUnseen => "sleep_unseen",
            LogEvent::SleepSeen => "sleep_seen",
            LogEvent::Descriptors { .. } => "descriptors",
            LogEvent::SourcesStale { .. } => "sources_stale",
            LogEvent::SourcesFresh => "sources_fresh",
            LogEvent::StartPaused { .. } => "start_paused",
            LogEvent::EvidenceUnwritten { .. } => "evidence_unwritten",
            LogEvent::EvidenceWritten => "evidence_written",
            LogEvent::Stranger { .. } => "stranger",
            LogEvent::SourceUnresolved { .. } => "source_unresolved",
            LogEvent::SourceResolved { .. } => "source_resolved",
            LogEvent::KeysRead { .. } => "keys_read",
            LogEvent::KeysRefused { .. } => "keys_refused",
            LogEvent::PollsUnopened { .. } => "polls_unopened",
            LogEvent::AddressAwaited { .. } => "address_awaited",
            LogEvent::MasterSilent { .. } => "master_silent",
            LogEvent::MasterAnswers => "master_answers",
            LogEvent::WidthAbove { .. } => "width_above",
            LogEvent::WidthInBounds => "width_in_bounds",
            LogEvent::StoodStill { .. } => "stood_still",
            LogEvent::ClockStepped => "clock_stepped",
            LogEvent::ServerRefused { .. } => "server_refused",
            LogEvent::ServerSilent { .. } => "server_silent",
            LogEvent::ServerAnswers { .. } => "server_answers",
            LogEvent::SlewTooFast { .. } => "slew_too_fast",
            LogEvent::SlewInBounds => "slew_in_bounds",
        }
    }
}

/// An event, when it was, in nanoseconds since 1970, and how many of its kind were left out before it.
#[derive(Clone, Copy)]
pub struct LogLine {
    pub time: u64,
    pub event: LogEvent,
    pub left_out: u64,
}

/// Adds the line of an event to a text: where a journal reads it, its priority; its time, in UTC, its level and its name, its
/// numbers and addresses, `words` as `text` and `address` as `address`, how many of its kind were left out before it if any were, and a line feed. As
/// text it is like `time=2026-11-26T23:41:51.123456789Z level=warn event=fusion_refused number=504 text="no time is possible"`,
/// and as JSON like
/// `{"time":"2026-11-26T23:41:51.123456789Z","level":"warn","event":"fusion_refused","number":504,"text":"no time is possible"}`.
/// Numbers of nanoseconds have names that end in `_ns`, those of parts per million in `_ppm`. Words and an address are left
/// out where they are empty, or have a quotation mark, a backslash or a control character, and an address with a space too.
/// Refuses only if it is out of memory; then the text may have a part of the line at its end.
pub fn push_event(
    text: &mut String,
    style: LogStyle,
    line: LogLine,
    words: &str,
    address: &str,
) -> Result<(), AllocError>
    ensures written { OnOk result ((date : Day) × IsDateOf line.time date
        × (string_bytes text.new ≡ string_bytes text.old ++ event_line style date line words.now address.now)) }
{
    push_dated(text, style, date_of(line.time), line, words, address)
}

/// Adds the line of an event, the date of whose time is given.
fn push_dated(
    text: &mut String,
    style: LogStyle,
    date: Date,
    line: LogLine,
    words: &str,
    address: &str,
) -> Result<(), AllocError>
    ensures { OnOk result (string_bytes text.new ≡ string_bytes text.old ++ event_line style date line words.now address.now) }
{
    push_priority(text, style.is_journal, line.event)?;
    push_head(text, style.format, date, line.time, line.event)?;
    push_fields(text, style.format, line.event)?;
    push_words(text, style.format, words)?;
    push_place(text, style.format, address)?;
    push_left_out(text, style.format, line.left_out)?;
    push_end(text, style.format)
}

/// Adds the priority of an event, where a journal reads it.
fn push_priority(text: &mut String, is_journal: bool, event: LogEvent) -> Result<(), AllocError>
    ensures { OnOk result (string_bytes text.new ≡ string_bytes text.old ++ priority_text is_journal event) }
{
    if is_journal {
        return text.push_str(priority_of(event.level()));
    }
    Ok(())
}

/// Adds how many lines of a kind were left out, if any were.
fn push_left_out(text: &mut String, format: LogFormat, left_out: u64) -> Result<(), AllocError>
    ensures { OnOk result (string_bytes text.new ≡ string_bytes text.old ++ left_out_text format left_out) }
{
    if left_out > 0 {
        return push_field(text, format, "left_out", left_out);
    }
    Ok(())
}

/// Adds the end of a line.
fn push_end(text: &mut String, format: LogFormat) -> Result<(), AllocError>
    ensures { OnOk result (string_bytes text.new ≡ string_bytes text.old ++ end_text format) }
{
    match format {
        LogFormat::Text => text.push_str("\n"),
        LogFormat::Json => text.push_str("}\n"),
    }
}

/// Adds the time, the level and the name of an event.
fn push_head(
    text: &mut String,
    format: LogFormat,
    date: Date,
    time: u64,
    event: LogEvent,
) -> Result<(), AllocError>
    ensures { OnOk result (string_bytes text.new ≡ string_bytes text.old ++ head_text format date time event) }
{
    match format {
        LogFormat::Text => {
            text.push_str("time=")?;
            push_moment(text, date, time)?;
            text.push_str(" level=")?;
            text.push_str(event.level())?;
            text.push_str(" event=")?;
            text.push_str(event.name())
        }
        LogFormat::Json => {
            text.push_str("{\"time\":\"")?;
            push_moment(text, date, time)?;
            text.push_str("\",\"level\":\"")?;
            text.push_str(event.level())?;
            text.push_str("\",\"event\":\"")?;
            text.push_str(event.name())?;
            text.push_str("\"")
        }
    }
}

/// Adds a name and its number.
fn push_field(
    text: &mut String,
    format: LogFormat,
    name: &str,
    value: u64,
) -> Result<(), AllocError>
    ensures { OnOk result (string_bytes text.new ≡ string_bytes text.old ++ field format name.now value) }
{
    match format {
        LogFormat::Text => write!(text, " {name}={value}"),
        LogFormat::Json => write!(text, ",\"{name}\":{value}"),
    }
}

/// Adds a rate of an event, in parts per million.
fn push_part(
    text: &mut String,
    format: LogFormat,
    name: &str,
    rate: Difference,
) -> Result<(), AllocError>
    ensures { OnOk result (string_bytes text.new ≡ string_bytes text.old ++ rate_field format name.now rate) }
{
    match format {
        LogFormat::Text => write!(text, " {name}=")?,
        LogFormat::Json => write!(text, ",\"{name}\":")?,
    }
    push_rate(text, rate)
}

/// Adds the address of an event.
fn push_address(text: &mut String, format: LogFormat, address: SocketAddr) -> Result<(), AllocError>
    ensures { OnOk result (string_bytes text.new ≡ string_bytes text.old ++ address_field format address) }
{
    match format {
        LogFormat::Text => write!(text, " address={address}"),
        LogFormat::Json => write!(text, ",\"address\":\"{address}\""),
    }
}

/// Adds the numbers and the address of an event.
fn push_fields(text: &mut String, format: LogFormat, event: LogEvent) -> Result<(), AllocError>
    ensures { OnOk result (string_bytes text.new ≡ string_bytes text.old ++ fields_of format event) }
{
    match event {
        LogEvent::Started {
            machine,
            epoch,
            port,
        } => {
            push_field(text, format, "machine", machine)?;
            push_field(text, format, "epoch", epoch)?;
            push_field(text, format, "port", port)
        }
        LogEvent::FirstPublication { width } => push_field(text, format, "width_ns", width),
        LogEvent::SourceSilent { source } => push_field(text, format, "source", source),
        LogEvent::SourceSuspect { source } => push_field(text, format, "source", source),
        LogEvent::SourceAgrees { source } => push_field(text, format, "source", source),
        LogEvent::FusionRefused { reason } => push_field(text, format, "number", reason.number()),
        LogEvent::MasterFailed { number } => push_field(text, format, "number", number),
        LogEvent::MasterStarted { source, port } => {
            push_field(text, format, "source", source)?;
            push_field(text, format, "port", port)
        }
        LogEvent::AnswersRefused { count } => push_field(text, format, "count", count),
        LogEvent::RoundFailed { number } => push_field(text, format, "number", number),
        LogEvent::SharingEnded { number } => push_field(text, format, "number", number),
        LogEvent::SocketRenewed { number, pause } => {
            push_field(text, format, "number", number)?;
            push_field(text, format, "pause_ns", pause)
        }
        LogEvent::PublicationSlow { lasted } => push_field(text, format, "lasted_ns", lasted),
        LogEvent::SourceUnsent { source } => push_field(text, format, "source", source),
        LogEvent::SourceAnswers { source } => push_field(text, format, "source", source),
        LogEvent::StoodStill { lasted } => push_field(text, format, "lasted_ns", lasted),
        LogEvent::AssumptionBroken {
            clock,
            lower,
            upper,
            last_lower,
            last_upper,
        } => {
            push_field(text, format, "clock_ns", clock)?;
            push_field(text, format, "lower_ns", lower)?;
            push_field(text, format, "upper_ns", upper)?;
            push_field(text, format, "last_lower_ns", last_lower)?;
            push_field(text, format, "last_upper_ns", last_upper)
        }
        LogEvent::HostSlept { slept } => push_field(text, format, "slept_ns", slept),
        LogEvent::Descriptors {
            limit,
            needed,
            sessions,
        } => {
            push_field(text, format, "limit", limit)?;
            push_field(text, format, "needed", needed)?;
            push_field(text, format, "sessions", sessions)
        }
        LogEvent::SourcesStale { answered, needed } => {
            push_field(text, format, "answered", answered)?;
            push_field(text, format, "needed", needed)
        }
        LogEvent::StartPaused { pause, breaks } => {
            push_field(text, format, "pause_ns", pause)?;
            push_field(text, format, "breaks", breaks)
        }
        LogEvent::StatusUnwritten { errno } => push_field(text, format, "errno", errno),
        LogEvent::NotAccepted { errno } => push_field(text, format, "errno", errno),
        LogEvent::EvidenceUnwritten { errno } => push_field(text, format, "errno", errno),
        LogEvent::Stranger { address } => push_address(text, format, address),
        LogEvent::SourceUnresolved { source } => push_field(text, format, "source", source),
        LogEvent::SourceResolved { source, address } => {
            push_field(text, format, "source", source)?;
            push_address(text, format, address)
        }
        LogEvent::KeysRead { keys } => push_field(text, format, "keys", keys),
        LogEvent::KeysRefused { number, line } => {
            push_field(text, format, "number", number)?;
            push_field(text, format, "line", line)
        }
        LogEvent::PollsUnopened { count } => push_field(text, format, "count", count),
        LogEvent::AddressAwaited { pause } => push_field(text, format, "pause_ns", pause),
        LogEvent::MasterSilent { number } => push_field(text, format, "number", number),
        LogEvent::WidthAbove { width, limit } => {
            push_field(text, format, "width_ns", width)?;
            push_field(text, format, "limit_ns", limit)
        }
        LogEvent::ServerRefused { server, number } => {
            push_field(text, format, "server", server)?;
            push_field(text, format, "number", number)
        }
        LogEvent::ServerSilent { server } => push_field(text, format, "server", server),
        LogEvent::ServerAnswers { server } => push_field(text, format, "server", server),
        LogEvent::SlewTooFast { rate, slew } => {
            push_part(text, format, "rate_ppm", rate)?;
            push_field(text, format, "slew_ppm", slew)
        }
        LogEvent::FusionPublished
        | LogEvent::ClockBack
        | LogEvent::RoundsResumed
        | LogEvent::SharingResumed
        | LogEvent::StatusWritten
        | LogEvent::StateLoose
        | LogEvent::EpochLoose
        | LogEvent::SharedLoose
        | LogEvent::Ended
        | LogEvent::MasterResumed
        | LogEvent::GuestDisrupted
        | LogEvent::SleepUnseen
        | LogEvent::SleepSeen
        | LogEvent::SourcesFresh
        | LogEvent::EvidenceWritten
        | LogEvent::MasterAnswers
        | LogEvent::WidthInBounds
        | LogEvent::ClockStepped
        | LogEvent::SlewInBounds => Ok(()),
    }
}
