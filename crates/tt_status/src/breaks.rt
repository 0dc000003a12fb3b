//! What the status of a machine shows of broken assumptions, and when and why the last life broke.

ghost use Rattle.std.specs.Prelude.{◌≡◌, ◌++◌, [], ◌∷◌, OnOk, string_bytes};
ghost use Rattle.std.specs.List.{flat_map};
ghost use Rattle.tt_status.specs.Metric.{metric_text};
ghost use Rattle.tt_status.specs.Reason.{number_of, reason_of, reason_told, reason_word};
ghost use Rattle.tt_status.specs.Status.{break_metrics, break_time_metric, last_break_metrics, metrics_of_break, reason_metric, reason_metrics};

use crate::lines::LogEvent;
use crate::metrics::{Kind, Row, Subject, Value, push_head, push_rows, push_sample};
use crate::statuses::Status;
use std::alloc::AllocError;

/// Why a life knew that an assumption is broken.
#[derive(Clone, Copy)]
pub enum BreakReason {
    /// Two of its publications did not meet: `assumption_broken`.
    Unmet,
    /// The host slept: `host_slept`.
    Slept,
    /// The guest's clock was disrupted: `guest_disrupted`.
    Disrupted,
}

impl BreakReason {
    /// The reason that this event tells of: [`BreakReason::Unmet`] unless it says that the host slept, or that the guest was
    /// disrupted.
    pub fn told_by(event: &LogEvent) -> BreakReason
        ensures value { result ≡ reason_told event.now }
    {
        match event {
            LogEvent::HostSlept { .. } => BreakReason::Slept,
            LogEvent::GuestDisrupted => BreakReason::Disrupted,
            _ => BreakReason::Unmet,
        }
    }

    /// Its number in a record: 1, 2 and 3, in their order.
    pub fn number(self) -> u64
        ensures value { result ≡ number_of self }
    {
        match self {
            BreakReason::Unmet => 1,
            BreakReason::Slept => 2,
            BreakReason::Disrupted => 3,
        }
    }

    /// The reason of this number. None for any other number: that of a newer version.
    pub fn of(number: u64) -> Option<BreakReason>
        ensures value { result ≡ reason_of number }
    {
        if number == 1 {
            Some(BreakReason::Unmet)
        } else if number == 2 {
            Some(BreakReason::Slept)
        } else if number == 3 {
            Some(BreakReason::Disrupted)
        } else {
            None
        }
    }

    /// The name of its event.
    pub fn word(self) -> &'static str
        ensures value { result.now ≡ reason_word self }
    {
        match self {
            BreakReason::Unmet => "assumption_broken",
            BreakReason::Slept => "host_slept",
            BreakReason::Disrupted => "guest_disrupted",
        }
    }
}

/// When a life broke, and why.
#[derive(Clone, Copy)]
pub struct LastBreak {
    /// The time since 1970 by the real-time clock of the host, in nanoseconds.
    pub time: u64,
    /// The reason, if it is one of those of this version.
    pub reason: Option<BreakReason>,
}

/// Adds what came of strangers, and what was seen of broken assumptions.
pub(crate) fn push_breaks(text: &mut String, status: &Status) -> Result<(), AllocError>
    ensures { OnOk result (string_bytes text.new ≡ string_bytes text.old
        ++ flat_map (metric_text status.now.machine) (break_metrics status.now)) }
{
    push_rows(
        text,
        status.machine,
        &[
            Row {
                name: "truetime_strangers_total",
                help: "Packets from addresses that are no source's.",
                kind: Kind::Counter,
                value: Value::Whole(status.strangers),
            },
            Row {
                name: "truetime_assumption_breaks_total",
                help: "Signs that an assumption of the service is broken.",
                kind: Kind::Counter,
                value: Value::Whole(status.breaks),
            },
            Row {
                name: "truetime_broken_lives_total",
                help: "Lives before this one that ended since an assumption was broken.",
                kind: Kind::Counter,
                value: Value::Whole(status.broken_lives),
            },
            Row {
                name: "truetime_slept_seconds_total",
                help: "For how long the host has slept in this life.",
                kind: Kind::Counter,
                value: Value::Nanos(Some(status.slept)),
            },
            Row {
                name: "truetime_sleep_unseen",
                help: "1 as long as it would not be seen that the host sleeps, else 0.",
                kind: Kind::Gauge,
                value: Value::Flag(status.sleep_unseen),
            },
        ],
    )
}

/// Adds when the last life broke, and why, if that is known.
pub(crate) fn push_last_break(
    text: &mut String,
    machine: u64,
    last: &Option<LastBreak>,
) -> Result<(), AllocError>
    ensures { OnOk result (string_bytes text.new ≡ string_bytes text.old
        ++ flat_map (metric_text machine) (last_break_metrics last.now)) }
{
    match last {
        Some(last) => push_break(text, machine, last),
        None => Ok(()),
    }
}

/// Adds when a life broke, and why, if that is known.
fn push_break(text: &mut String, machine: u64, last: &LastBreak) -> Result<(), AllocError>
    ensures { OnOk result (string_bytes text.new ≡ string_bytes text.old
        ++ flat_map (metric_text machine) (metrics_of_break last.now)) }
{
    push_break_time(text, machine, last.time)?;
    push_some_reason(text, machine, last.reason)
}

/// Adds when a life broke.
fn push_break_time(text: &mut String, machine: u64, time: u64) -> Result<(), AllocError>
    ensures { OnOk result (string_bytes text.new ≡ string_bytes text.old
        ++ flat_map (metric_text machine) (break_time_metric time ∷ [])) }
{
    push_rows(
        text,
        machine,
        &[Row {
            name: "truetime_last_break_timestamp_seconds",
            help: "When the last life that broke noticed it, since 1970; not there where none is recorded.",
            kind: Kind::Gauge,
            value: Value::Nanos(Some(time)),
        }],
    )
}

/// Adds why a life broke, if that is known.
fn push_some_reason(
    text: &mut String,
    machine: u64,
    reason: Option<BreakReason>,
) -> Result<(), AllocError>
    ensures { OnOk result (string_bytes text.new ≡ string_bytes text.old
        ++ flat_map (metric_text machine) (reason_metrics reason)) }
{
    match reason {
        Some(reason) => push_reason(text, machine, reason),
        None => Ok(()),
    }
}

/// Adds why a life broke.
fn push_reason(text: &mut String, machine: u64, reason: BreakReason) -> Result<(), AllocError>
    ensures { OnOk result (string_bytes text.new ≡ string_bytes text.old
        ++ flat_map (metric_text machine) (reason_metric reason ∷ [])) }
{
    let name = "truetime_last_break_info";
    push_head(
        text,
        name,
        "The event by which that life broke; the value is always 1.",
        Kind::Gauge,
    )?;
    push_sample(text, name, machine, Subject::Break(reason), Value::Whole(1))
}
