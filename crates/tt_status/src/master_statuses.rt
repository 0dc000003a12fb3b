//! The status of a master.

ghost use Rattle.std.specs.Prelude.{◌≡◌, ◌++◌, OnOk, string_bytes};
ghost use Rattle.std.specs.List.{flat_map};
ghost use Rattle.tt_status.specs.Master.{master_sample_text, master_metric_text, master_build_metric, keys_metric, keys_refused_metric, sealed_sample, answers_metric, dropped_name, dropped_sample, dropped_metric, unanswered_metric, width_metrics, own_metrics, master_status_text};
ghost use Rattle.tt_status.specs.Metric.{single};
ghost use Rattle.tt_status.specs.Status.{count};
ghost use Rattle.tt_status.specs.declared.metrics.Kind.TheVariants.{Gauge};
ghost use Rattle.tt_status.specs.declared.metrics.Value.TheVariants.{Nanos};

use crate::metrics::{Kind, Subject, Value, push_head, push_labelled};
use crate::server_statuses::{ServerStatus, push_servers};
use crate::statuses::{UNOPENED, unopened_place};
use std::alloc::AllocError;
use tt_seal::SealFault;

/// How many reasons there are for which a packet is not answered.
pub const UNANSWERED: usize = 11;

/// The numbers of the reasons for which a packet is not answered, by their places.
const NUMBERS: [u64; UNANSWERED] = [
    301, 302, 303, 2401, 2402, 2403, 2404, 2405, 2406, 2407, 2408,
];

/// How many answers a master has sealed under one key.
#[derive(Clone, Copy)]
pub struct KeyAnswers {
    /// The number of the key.
    pub key: u32,
    /// How many answers were sealed under it.
    pub answers: u64,
}

/// What a master has done, at one moment.
#[derive(Drop)]
pub struct MasterStatus {
    /// The number of the source that the master is.
    pub source: u64,
    /// How many keys it has.
    pub keys: u64,
    /// How often its file of keys was refused.
    pub keys_refused: u64,
    /// How many answers it has sealed under each key, in the order in which they are shown.
    pub sealed: Vec<KeyAnswers>,
    /// How many answers it has given that were not sealed.
    pub unsealed: u64,
    /// How many packets it has dropped since they did not open, for the reason of each place, which [`unopened_place`]
    /// gives.
    pub dropped: [u64; UNOPENED],
    /// How many packets it has not answered, for the reason of each place: 301, 302, 303 and 2401 to 2408, in this order.
    pub unanswered: [u64; UNANSWERED],
    /// The width of the last answer's span, in nanoseconds; none before the first.
    pub width: Option<u64>,
    /// The greatest width of an answer's span since the status before, in nanoseconds; none where there was no answer.
    pub widest: Option<u64>,
    /// What it knows of each of its NTP servers, in their order. Empty where it stands on this computer's clock.
    pub servers: Vec<ServerStatus>,
}

/// Adds the status of a master to a text, in the format that Prometheus collects (its text format, version 0.0.4). Each
/// metric has its help and its type once, before all of its samples, and each sample has the label `source`, the number of
/// the source that the master is. The answers under each key follow in the order of `sealed`, and behind them those that
/// were not sealed, under `key="none"`. The metrics of the servers have the label `server` too, the place of the server in
/// `servers`; where there are no servers, none of these metrics is there. Times are in seconds, with nine digits behind the
/// point, and `NaN` where there are none. Refuses only if it is out of memory; then the text may have a part of it at its
/// end.
pub fn push_master_status(text: &mut String, status: &MasterStatus) -> Result<(), AllocError>
    ensures written { OnOk result (string_bytes text.new ≡ string_bytes text.old ++ master_status_text status.now) }
{
    push_own(text, status)?;
    push_servers(text, status.source, &status.servers)
}

/// Adds what the master has done itself.
fn push_own(text: &mut String, status: &MasterStatus) -> Result<(), AllocError>
    ensures { OnOk result (string_bytes text.new ≡ string_bytes text.old
        ++ flat_map (master_metric_text status.now.source) (own_metrics status.now)) }
{
    push_master_build(text, status.source)?;
    push_keys(text, status)?;
    push_keys_refused(text, status)?;
    push_answers(text, status)?;
    push_dropped(text, status)?;
    push_unanswered(text, status)?;
    push_widths(text, status)
}

/// Adds the metric that names the version.
fn push_master_build(text: &mut String, source: u64) -> Result<(), AllocError>
    ensures { OnOk result (string_bytes text.new ≡ string_bytes text.old ++ master_metric_text source master_build_metric) }
{
    let name = "truetime_master_build_info";
    push_head(
        text,
        name,
        "The version of the program; the value is always 1.",
        Kind::Gauge,
    )?;
    push_count(text, name, source, Subject::Version, 1)
}

/// Adds how many keys the master has.
fn push_keys(text: &mut String, status: &MasterStatus) -> Result<(), AllocError>
    ensures { OnOk result (string_bytes text.new ≡ string_bytes text.old ++ master_metric_text status.now.source (keys_metric status.now)) }
{
    let name = "truetime_master_keys";
    push_head(text, name, "The keys that the master has.", Kind::Gauge)?;
    push_count(text, name, status.source, Subject::Machine, status.keys)
}

/// Adds how often the file of keys was refused.
fn push_keys_refused(text: &mut String, status: &MasterStatus) -> Result<(), AllocError>
    ensures { OnOk result (string_bytes text.new ≡ string_bytes text.old ++ master_metric_text status.now.source (keys_refused_metric status.now)) }
{
    let name = "truetime_master_keys_refused_total";
    push_head(
        text,
        name,
        "How often the file of keys was refused; the keys before stay.",
        Kind::Counter,
    )?;
    push_count(
        text,
        name,
        status.source,
        Subject::Machine,
        status.keys_refused,
    )
}

/// Adds how many answers were given, by their key.
fn push_answers(text: &mut String, status: &MasterStatus) -> Result<(), AllocError>
    ensures { OnOk result (string_bytes text.new ≡ string_bytes text.old ++ master_metric_text status.now.source (answers_metric status.now)) }
{
    let name = "truetime_master_answers_total";
    push_head(
        text,
        name,
        "Answers by the number of the key that they are sealed under; none for those that are not sealed.",
        Kind::Counter,
    )?;
    push_sealed(text, name, status.source, &status.sealed)?;
    push_count(
        text,
        name,
        status.source,
        Subject::Key(None),
        status.unsealed,
    )
}

/// Adds how many answers were sealed under each key.
fn push_sealed(
    text: &mut String,
    name: &str,
    source: u64,
    sealed: &[KeyAnswers],
) -> Result<(), AllocError>
    ensures { OnOk result (string_bytes text.new ≡ string_bytes text.old
        ++ flat_map (λ one. master_sample_text name.now source (sealed_sample one)) sealed.now) }
{
    for one in sealed {
        push_count(text, name, source, Subject::Key(Some(one.key)), one.answers)?;
    }
    Ok(())
}

/// Adds how many packets were dropped, by the reason.
fn push_dropped(text: &mut String, status: &MasterStatus) -> Result<(), AllocError>
    ensures { OnOk result (string_bytes text.new ≡ string_bytes text.old ++ master_metric_text status.now.source (dropped_metric status.now)) }
{
    push_head(
        text,
        "truetime_master_dropped_total",
        "Packets that were dropped since they did not open, by the number of the reason.",
        Kind::Counter,
    )?;
    push_dropped_for(text, status, SealFault::Length)?;
    push_dropped_for(text, status, SealFault::UnknownKey)?;
    push_dropped_for(text, status, SealFault::WrongTag)
}

/// Adds how many packets were dropped for a reason.
fn push_dropped_for(
    text: &mut String,
    status: &MasterStatus,
    reason: SealFault,
) -> Result<(), AllocError>
    ensures { OnOk result (string_bytes text.new ≡ string_bytes text.old
        ++ master_sample_text dropped_name status.now.source (dropped_sample status.now reason)) }
{
    push_count(
        text,
        "truetime_master_dropped_total",
        status.source,
        Subject::Unopened(reason),
        status.dropped[unopened_place(reason)],
    )
}

/// Adds how many packets were not answered, by the reason.
fn push_unanswered(text: &mut String, status: &MasterStatus) -> Result<(), AllocError>
    ensures { OnOk result (string_bytes text.new ≡ string_bytes text.old ++ master_metric_text status.now.source (unanswered_metric status.now)) }
{
    let name = "truetime_master_unanswered_total";
    push_head(
        text,
        name,
        "Packets that were not answered, by the number of the reason.",
        Kind::Counter,
    )?;
    for place in 0..UNANSWERED {
        let reason = Subject::Reason(NUMBERS[place]);
        push_count(text, name, status.source, reason, status.unanswered[place])?;
    }
    Ok(())
}

/// Adds how wide the answers were.
fn push_widths(text: &mut String, status: &MasterStatus) -> Result<(), AllocError>
    ensures { OnOk result (string_bytes text.new ≡ string_bytes text.old
        ++ flat_map (master_metric_text status.now.source) (width_metrics status.now)) }
{
    push_width(
        text,
        "truetime_master_width_seconds",
        "The width of the last answer's span; NaN before the first.",
        status.source,
        status.width,
    )?;
    push_width(
        text,
        "truetime_master_width_max_seconds",
        "The greatest width of an answer's span since the status before; NaN where there was no answer.",
        status.source,
        status.widest,
    )
}

/// Adds the metric of a width.
fn push_width(
    text: &mut String,
    name: &str,
    help: &str,
    source: u64,
    width: Option<u64>,
) -> Result<(), AllocError>
    ensures { OnOk result (string_bytes text.new ≡ string_bytes text.old
        ++ master_metric_text source (single name.now help.now Gauge (Nanos width))) }
{
    push_head(text, name, help, Kind::Gauge)?;
    push_labelled(
        text,
        name,
        "source",
        source,
        Subject::Machine,
        Value::Nanos(width),
    )
}

/// Adds the line of a count of a master.
fn push_count(
    text: &mut String,
    name: &str,
    source: u64,
    subject: Subject,
    number: u64,
) -> Result<(), AllocError>
    ensures { OnOk result (string_bytes text.new ≡ string_bytes text.old
        ++ master_sample_text name.now source (count subject number)) }
{
    push_labelled(text, name, "source", source, subject, Value::Whole(number))
}
