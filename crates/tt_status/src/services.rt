//! What the status of a machine shows of what it does for clients, and of what it writes for others.

ghost use Rattle.std.specs.Prelude.{◌≡◌, ◌++◌, OnOk, string_bytes};
ghost use Rattle.std.specs.List.{flat_map};
ghost use Rattle.tt_status.specs.Metric.{metric_text};
ghost use Rattle.tt_status.specs.Status.{client_metrics, worker_metrics, histogram_metrics, written_metrics};

use crate::histograms::push_histogram;
use crate::metrics::{Kind, Row, Value, push_rows};
use crate::statuses::Status;
use std::alloc::AllocError;

/// Adds what was done for clients, and who waits.
pub(crate) fn push_clients(text: &mut String, status: &Status) -> Result<(), AllocError>
    ensures { OnOk result (string_bytes text.new ≡ string_bytes text.old
        ++ flat_map (metric_text status.now.machine) (client_metrics status.now)) }
{
    push_rows(
        text,
        status.machine,
        &[
            Row {
                name: "truetime_sessions_total",
                help: "Sessions that have ended.",
                kind: Kind::Counter,
                value: Value::Whole(status.sessions),
            },
            Row {
                name: "truetime_lines_total",
                help: "Lines of clients that were answered.",
                kind: Kind::Counter,
                value: Value::Whole(status.lines),
            },
            Row {
                name: "truetime_lines_refused_total",
                help: "Lines of clients that were refused.",
                kind: Kind::Counter,
                value: Value::Whole(status.refused_lines),
            },
            Row {
                name: "truetime_connections_waiting",
                help: "Connections that wait for a worker.",
                kind: Kind::Gauge,
                value: Value::Whole(status.waiting),
            },
            Row {
                name: "truetime_connections_unserved_total",
                help: "Connections that were closed before their session began.",
                kind: Kind::Counter,
                value: Value::Whole(status.unserved),
            },
        ],
    )
}

/// Adds who serves clients, and what they wait for.
pub(crate) fn push_workers(text: &mut String, status: &Status) -> Result<(), AllocError>
    ensures { OnOk result (string_bytes text.new ≡ string_bytes text.old
        ++ flat_map (metric_text status.now.machine) (worker_metrics status.now)) }
{
    push_rows(
        text,
        status.machine,
        &[
            Row {
                name: "truetime_workers",
                help: "Workers, each of which serves its sessions by turns.",
                kind: Kind::Gauge,
                value: Value::Whole(status.workers),
            },
            Row {
                name: "truetime_workers_busy",
                help: "Workers that have a session.",
                kind: Kind::Gauge,
                value: Value::Whole(status.busy),
            },
            Row {
                name: "truetime_sessions_open",
                help: "Sessions that are open.",
                kind: Kind::Gauge,
                value: Value::Whole(status.open_sessions),
            },
            Row {
                name: "truetime_commits_waiting",
                help: "Commits that wait.",
                kind: Kind::Gauge,
                value: Value::Whole(status.commits_waiting),
            },
        ],
    )
}

/// Adds the histograms.
pub(crate) fn push_histograms(text: &mut String, status: &Status) -> Result<(), AllocError>
    ensures { OnOk result (string_bytes text.new ≡ string_bytes text.old
        ++ flat_map (metric_text status.now.machine) (histogram_metrics status.now)) }
{
    push_histogram(
        text,
        status.machine,
        "truetime_commit_wait_seconds",
        "How long commits have waited.",
        &status.commit_waits,
    )?;
    push_histogram(
        text,
        status.machine,
        "truetime_round_trip_seconds",
        "The round trips of accepted answers.",
        &status.round_trips,
    )?;
    push_histogram(
        text,
        status.machine,
        "truetime_reading_width_seconds",
        "The widths of the publications.",
        &status.reading_widths,
    )
}

/// Adds what is written for others.
pub(crate) fn push_written(text: &mut String, status: &Status) -> Result<(), AllocError>
    ensures { OnOk result (string_bytes text.new ≡ string_bytes text.old
        ++ flat_map (metric_text status.now.machine) (written_metrics status.now)) }
{
    push_rows(
        text,
        status.machine,
        &[
            Row {
                name: "truetime_sharing",
                help: "1 as long as a shared file is written, else 0.",
                kind: Kind::Gauge,
                value: Value::Flag(status.sharing),
            },
            Row {
                name: "truetime_records_left_out_total",
                help: "Lines of the log, statuses and texts of evidence for which no place was free.",
                kind: Kind::Counter,
                value: Value::Whole(status.left_out),
            },
        ],
    )
}
