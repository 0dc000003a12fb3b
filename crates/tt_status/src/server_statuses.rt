//! The status of the servers of a master.

ghost use Rattle.std.specs.Prelude.{◌≡◌, ◌++◌, OnOk, string_bytes};
ghost use Rattle.std.specs.List.{flat_map};
ghost use Rattle.tt_status.specs.Master.{master_metric_text};
ghost use Rattle.tt_status.specs.Server.{server_value, server_metric, server_time_metrics, server_count_metrics, server_metrics};

use crate::metrics::{Kind, Subject, Value, push_head, push_labelled};
use std::alloc::AllocError;

/// What a master knows of one of its NTP servers, at one moment.
#[derive(Clone, Copy)]
pub struct ServerStatus {
    /// The number of the reason for which it gives no time: 2401 to 2408; 0 where it gives one.
    pub silence: u64,
    /// Its stratum; 0 where it is not known.
    pub stratum: u64,
    /// Half the width of what its last good reply states, in nanoseconds; 0 where nothing is known.
    pub distance: u64,
    /// How long ago that reply was asked for, in nanoseconds; 0 where nothing is known.
    pub age: u64,
    /// The leap second that it announces: 1 one that is inserted, 2 one that is deleted, 0 none.
    pub leap: u64,
    /// How many requests were sent to it.
    pub asked: u64,
    /// How many replies of it were taken.
    pub taken: u64,
    /// How many replies of it were refused.
    pub refused: u64,
    /// How many of its replies gave a kiss code in place of the time.
    pub kisses: u64,
    /// The width of its span now, in nanoseconds; none where it gives no time.
    pub width: Option<u64>,
}

/// A number of each server.
#[derive(Clone, Copy)]
enum ServerAspect {
    /// Why it gives no time.
    Silence,
    /// Its stratum.
    Stratum,
    /// Half the width of what its last good reply states.
    Distance,
    /// How long ago that reply was asked for.
    Age,
    /// The leap second that it announces.
    Leap,
    /// The requests to it.
    Asked,
    /// Its replies that were taken.
    Taken,
    /// Its replies that were refused.
    Refused,
    /// Its replies that gave a kiss code in place of the time.
    Kisses,
    /// The width of its span.
    Width,
}

impl ServerAspect {
    /// The number of a server.
    fn value(self, server: &ServerStatus) -> Value
        ensures { result ≡ server_value self server.now }
    {
        match self {
            ServerAspect::Silence => Value::Whole(server.silence),
            ServerAspect::Stratum => Value::Whole(server.stratum),
            ServerAspect::Distance => Value::Nanos(Some(server.distance)),
            ServerAspect::Age => Value::Nanos(Some(server.age)),
            ServerAspect::Leap => Value::Whole(server.leap),
            ServerAspect::Asked => Value::Whole(server.asked),
            ServerAspect::Taken => Value::Whole(server.taken),
            ServerAspect::Refused => Value::Whole(server.refused),
            ServerAspect::Kisses => Value::Whole(server.kisses),
            ServerAspect::Width => Value::Nanos(server.width),
        }
    }
}

/// A metric of a number of each server: its name, what it says, its kind, and the number.
#[derive(Clone, Copy)]
struct ServerRow<'a> {
    name: &'a str,
    help: &'a str,
    kind: Kind,
    aspect: ServerAspect,
}

/// Adds the numbers of the servers of the master that is this source, if it has any.
pub(crate) fn push_servers(
    text: &mut String,
    source: u64,
    servers: &[ServerStatus],
) -> Result<(), AllocError>
    ensures { OnOk result (string_bytes text.new ≡ string_bytes text.old
        ++ flat_map (master_metric_text source) (server_metrics servers.now)) }
{
    if servers.is_empty() {
        return Ok(());
    }
    push_each_server(text, source, servers)
}

/// Adds the numbers of these servers.
fn push_each_server(
    text: &mut String,
    source: u64,
    servers: &[ServerStatus],
) -> Result<(), AllocError>
    ensures { OnOk result (string_bytes text.new ≡ string_bytes text.old
        ++ flat_map (master_metric_text source) (server_time_metrics servers.now ++ server_count_metrics servers.now)) }
{
    push_server_times(text, source, servers)?;
    push_server_counts(text, source, servers)
}

/// Adds what the servers say of the time.
fn push_server_times(
    text: &mut String,
    source: u64,
    servers: &[ServerStatus],
) -> Result<(), AllocError>
    ensures { OnOk result (string_bytes text.new ≡ string_bytes text.old
        ++ flat_map (master_metric_text source) (server_time_metrics servers.now)) }
{
    push_server_rows(
        text,
        source,
        servers,
        &[
            ServerRow {
                name: "truetime_master_server_silence",
                help: "The number of the reason for which the server gives no time; 0 where it gives one.",
                kind: Kind::Gauge,
                aspect: ServerAspect::Silence,
            },
            ServerRow {
                name: "truetime_master_server_stratum",
                help: "The stratum of the server; 0 where it is not known.",
                kind: Kind::Gauge,
                aspect: ServerAspect::Stratum,
            },
            ServerRow {
                name: "truetime_master_server_root_distance_seconds",
                help: "Half the width of what the server's last good reply states; 0 where nothing is known.",
                kind: Kind::Gauge,
                aspect: ServerAspect::Distance,
            },
            ServerRow {
                name: "truetime_master_server_age_seconds",
                help: "How long ago that reply was asked for; 0 where nothing is known.",
                kind: Kind::Gauge,
                aspect: ServerAspect::Age,
            },
            ServerRow {
                name: "truetime_master_server_leap",
                help: "The leap second that the server announces: 1 inserted, 2 deleted, 0 none.",
                kind: Kind::Gauge,
                aspect: ServerAspect::Leap,
            },
        ],
    )
}

/// Adds how many requests and replies there were, and how wide the servers' spans are.
fn push_server_counts(
    text: &mut String,
    source: u64,
    servers: &[ServerStatus],
) -> Result<(), AllocError>
    ensures { OnOk result (string_bytes text.new ≡ string_bytes text.old
        ++ flat_map (master_metric_text source) (server_count_metrics servers.now)) }
{
    push_server_rows(
        text,
        source,
        servers,
        &[
            ServerRow {
                name: "truetime_master_server_requests_total",
                help: "Requests to the server.",
                kind: Kind::Counter,
                aspect: ServerAspect::Asked,
            },
            ServerRow {
                name: "truetime_master_server_replies_total",
                help: "Replies of the server that were taken.",
                kind: Kind::Counter,
                aspect: ServerAspect::Taken,
            },
            ServerRow {
                name: "truetime_master_server_refused_total",
                help: "Replies of the server that were refused.",
                kind: Kind::Counter,
                aspect: ServerAspect::Refused,
            },
            ServerRow {
                name: "truetime_master_server_kisses_total",
                help: "Replies of the server that gave a kiss code in place of the time.",
                kind: Kind::Counter,
                aspect: ServerAspect::Kisses,
            },
            ServerRow {
                name: "truetime_master_server_width_seconds",
                help: "The width of the server's span; NaN where it gives no time.",
                kind: Kind::Gauge,
                aspect: ServerAspect::Width,
            },
        ],
    )
}

/// Adds these metrics of the servers.
fn push_server_rows(
    text: &mut String,
    source: u64,
    servers: &[ServerStatus],
    rows: &[ServerRow<'_>],
) -> Result<(), AllocError>
    ensures { OnOk result (string_bytes text.new ≡ string_bytes text.old
        ++ flat_map (λ row. master_metric_text source (server_metric row.aspect row.name.now row.help.now row.kind servers.now)) rows.now) }
{
    for row in rows {
        push_server_row(text, source, servers, row)?;
    }
    Ok(())
}

/// Adds a metric of the servers: the number of each.
fn push_server_row(
    text: &mut String,
    source: u64,
    servers: &[ServerStatus],
    row: &ServerRow<'_>,
) -> Result<(), AllocError>
    ensures { OnOk result (string_bytes text.new ≡ string_bytes text.old
        ++ master_metric_text source (server_metric row.now.aspect row.now.name.now row.now.help.now row.now.kind servers.now)) }
{
    push_head(text, row.name, row.help, row.kind)?;
    for number in 0..servers.len() {
        let subject = Subject::Server(number as u64);
        let value = row.aspect.value(&servers[number]);
        push_labelled(text, row.name, "source", source, subject, value)?;
    }
    Ok(())
}
