//! The commands with their options and positional arguments, as they are given to clap.

ghost use Rattle.std.specs.Prelude.{◌≡◌, IfOk, false};
ghost use Rattle.clap.specs.Simple.{new_app};
ghost use Rattle.clap.specs.Words.{app_of};
ghost use Rattle.clap.specs.declared.builder.command.Command.TheViews.{out-Command};
ghost use Rattle.ttd_words.specs.CommandLine.{age_app, ask_app, key_app, master_app, read_app, serve_app, top_app, twin_app, with_rows};

use crate::help::{ABOUT_AGE, ABOUT_TWIN};
use crate::options::{Form, OptionValue, Row, arg_of};
use crate::service_help::{ABOUT_ASK, ABOUT_KEY, ABOUT_MASTER, ABOUT_READ, ABOUT_SERVE, ABOUT_TOP};
use clap::Command;
use std::alloc::{AllocError, Global};

/// A command without options, with the texts of its help before and after its usage.
pub(crate) fn plain_command<'a>(
    alloc: Global,
    name: &'a str,
    about: &'a str,
    after: &'a str,
) -> Command<'a>
    ensures app { app_of result ≡ new_app name.entry.now }
    ensures local { (out-Command result).has_globals ≡ false }
{
    Command::new(alloc, name).about(about).after_help(after)
}

/// The command with these options and positional arguments, in their order.
fn with_rows<'a>(alloc: Global, bare: Command<'a>, rows: &[Row]) -> Result<Command<'a>, AllocError>
    requires local { (out-Command bare).has_globals ≡ false }
    ensures app { IfOk result (λ c. app_of c ≡ with_rows rows.now (app_of bare.entry)) }
    ensures local { IfOk result (λ c. (out-Command c).has_globals ≡ false) }
{
    let mut command = bare;
    for row in rows {
        command = command.arg(arg_of(alloc, row))?;
    }
    Ok(command)
}

/// The arguments of `age`.
const AGE: [Row; 4] = [
    Row {
        name: "drift",
        value: "N",
        help: "What the clock may be wrong by, in parts per million, up to 100000",
        form: Form::Option(OptionValue::DefaultDrift),
    },
    Row {
        name: "sent",
        value: "N",
        help: "The clock when the poll was sent",
        form: Form::Option(OptionValue::Number),
    },
    Row {
        name: "got",
        value: "N",
        help: "The clock when the answer came",
        form: Form::Option(OptionValue::Number),
    },
    Row {
        name: "clock",
        value: "N",
        help: "The clock now",
        form: Form::Option(OptionValue::Number),
    },
];

/// The command `age`.
#[tactic(auto, unfolding(crate::specs::CommandLine::age_app))]
pub(crate) fn age_command<'a>(alloc: Global) -> Result<Command<'a>, AllocError>
    ensures app { IfOk result (λ c. app_of c ≡ age_app) }
    ensures local { IfOk result (λ c. (out-Command c).has_globals ≡ false) }
{
    let bare = plain_command(
        alloc,
        "age",
        "Ages the answer to a poll, which is read in hex",
        ABOUT_AGE,
    );
    with_rows(alloc, bare, &AGE)
}

/// The arguments of `twin`.
const TWIN: [Row; 2] = [
    Row {
        name: "event",
        value: "K",
        help: "The reading's event, counted from 0",
        form: Form::Option(OptionValue::Number),
    },
    Row {
        name: "side",
        value: "SIDE",
        help: "The end of the reading at which the true time lies: low or high",
        form: Form::Option(OptionValue::Needed),
    },
];

/// The command `twin`.
#[tactic(auto, unfolding(crate::specs::CommandLine::twin_app))]
pub(crate) fn twin_command<'a>(alloc: Global) -> Result<Command<'a>, AllocError>
    ensures app { IfOk result (λ c. app_of c ≡ twin_app) }
    ensures local { IfOk result (λ c. (out-Command c).has_globals ≡ false) }
{
    let bare = plain_command(
        alloc,
        "twin",
        "Gives the twin of a reading in the run of the script that is read",
        ABOUT_TWIN,
    );
    with_rows(alloc, bare, &TWIN)
}

/// The arguments of `master`.
const MASTER: [Row; 21] = [
    Row {
        name: "source",
        value: "I",
        help: "The source that it is, from 0 to 15",
        form: Form::Option(OptionValue::Source),
    },
    Row {
        name: "listen",
        value: "ADDRESS",
        help: "Where it is asked, over UDP: 127.0.0.1:PORT, or with --keys any address",
        form: Form::Option(OptionValue::Needed),
    },
    Row {
        name: "uncertainty",
        value: "NS",
        help: "Answers by a clock of this computer: what it may be wrong by, in nanoseconds",
        form: Form::Option(OptionValue::Time),
    },
    Row {
        name: "offset",
        value: "NS",
        help: "How far the real-time clock is ahead, in nanoseconds; behind: --offset=-NS [default: 0]",
        form: Form::Option(OptionValue::Any),
    },
    Row {
        name: "act",
        value: "ACT",
        help: "What it does with a poll; the next --act with the next, and the last with all further ones",
        form: Form::Option(OptionValue::Many),
    },
    Row {
        name: "phc",
        value: "PATH",
        help: "Answers by this hardware clock in place of the real-time clock, as /dev/ptp0",
        form: Form::Option(OptionValue::Any),
    },
    Row {
        name: "tai-offset",
        value: "N",
        help: "With --phc: how many seconds TAI, which it shows, is ahead of UTC, up to 100",
        form: Form::Option(OptionValue::TaiOffset),
    },
    Row {
        name: "ntp",
        value: "ADDRESS:PORT",
        help: "Answers by this NTP server; the next --ntp names a further one, up to 16",
        form: Form::Option(OptionValue::Many),
    },
    Row {
        name: "faulty",
        value: "N",
        help: "NTP: how many of the servers may be wrong, fewer than half of them [default: 0]",
        form: Form::Option(OptionValue::Faulty),
    },
    Row {
        name: "margin",
        value: "NS",
        help: "NTP: what a server may be wrong by beyond what it says, in nanoseconds [default: 0]",
        form: Form::Option(OptionValue::Time),
    },
    Row {
        name: "every",
        value: "TIME",
        help: "NTP: from one request to the next, 1ms to 86400s [default: 64s, on this host 1ms]",
        form: Form::Option(OptionValue::Any),
    },
    Row {
        name: "drift",
        value: "N",
        help: "What this computer's oscillator may be wrong by, in parts per million, up to 100000 [default: 200]",
        form: Form::Option(OptionValue::Drift),
    },
    Row {
        name: "max-age",
        value: "TIME",
        help: "NTP: how old a reply may become, 1ms to 86400s [default: 1024s]",
        form: Form::Option(OptionValue::Any),
    },
    Row {
        name: "ntp-key",
        value: "N",
        help: "NTP: the number of the key of --ntp-keys that signs packets, up to 4294967295",
        form: Form::Option(OptionValue::Id),
    },
    Row {
        name: "ntp-keys",
        value: "FILE",
        help: "NTP: the file with this key, in the form of chrony's chrony.keys",
        form: Form::Option(OptionValue::Any),
    },
    Row {
        name: "local",
        value: "",
        help: "NTP: takes a server whose time is that of its own clock alone",
        form: Form::Flag,
    },
    Row {
        name: "warn-width",
        value: "NS",
        help: "The width of an answer above which its log warns, in nanoseconds",
        form: Form::Option(OptionValue::Time),
    },
    Row {
        name: "log",
        value: "FORM",
        help: "The form of its log: text or json",
        form: Form::Option(OptionValue::Log),
    },
    Row {
        name: "keys",
        value: "FILE",
        help: "Its file of keys: it answers polls that are sealed under one of them, and no others",
        form: Form::Option(OptionValue::Any),
    },
    Row {
        name: "status",
        value: "FILE",
        help: "Where it writes its status",
        form: Form::Option(OptionValue::Any),
    },
    Row {
        name: "http",
        value: "ADDRESS:PORT",
        help: "Where it gives /metrics and /health over HTTP; beyond 127.0.0.1 to other hosts, too",
        form: Form::Option(OptionValue::Any),
    },
];

/// The command `master`.
#[tactic(auto, unfolding(crate::specs::CommandLine::master_app))]
pub(crate) fn master_command<'a>(alloc: Global) -> Result<Command<'a>, AllocError>
    ensures app { IfOk result (λ c. app_of c ≡ master_app) }
    ensures local { IfOk result (λ c. (out-Command c).has_globals ≡ false) }
{
    let bare = plain_command(
        alloc,
        "master",
        "Runs a time master, which answers polls by a clock of this computer or by NTP servers",
        ABOUT_MASTER,
    );
    with_rows(alloc, bare, &MASTER)
}

/// The arguments of `serve`.
const SERVE: [Row; 3] = [
    Row {
        name: "file",
        value: "FILE",
        help: "Its configuration, in TOML",
        form: Form::Place,
    },
    Row {
        name: "check",
        value: "",
        help: "Says what it would do, and ends",
        form: Form::Flag,
    },
    Row {
        name: "until-eof",
        value: "",
        help: "Ends when standard input does",
        form: Form::Flag,
    },
];

/// The command `serve`.
#[tactic(auto, unfolding(crate::specs::CommandLine::serve_app))]
pub(crate) fn serve_command<'a>(alloc: Global) -> Result<Command<'a>, AllocError>
    ensures app { IfOk result (λ c. app_of c ≡ serve_app) }
    ensures local { IfOk result (λ c. (out-Command c).has_globals ≡ false) }
{
    let bare = plain_command(
        alloc,
        "serve",
        "Runs a machine of the time service by its configuration",
        ABOUT_SERVE,
    );
    with_rows(alloc, bare, &SERVE)
}

/// The arguments of `ask`.
const ASK: [Row; 3] = [
    Row {
        name: "address",
        value: "ADDRESS|PATH",
        help: "Where the machine listens: 127.0.0.1:PORT, or its Unix socket",
        form: Form::Place,
    },
    Row {
        name: "words",
        value: "WORDS",
        help: "The words of one line; without them the lines of standard input",
        form: Form::Words,
    },
    Row {
        name: "retry",
        value: "N",
        help: "How often a line is sent again while nothing is published, 100 ms apart; up to 9999",
        form: Form::Option(OptionValue::Retry),
    },
];

/// The command `ask`.
#[tactic(auto, unfolding(crate::specs::CommandLine::ask_app))]
pub(crate) fn ask_command<'a>(alloc: Global) -> Result<Command<'a>, AllocError>
    ensures app { IfOk result (λ c. app_of c ≡ ask_app) }
    ensures local { IfOk result (λ c. (out-Command c).has_globals ≡ false) }
{
    let bare = plain_command(
        alloc,
        "ask",
        "Asks a machine of the time service, and prints its replies",
        ABOUT_ASK,
    );
    with_rows(alloc, bare, &ASK)
}

/// The arguments of `read`.
const READ: [Row; 1] = [Row {
    name: "file",
    value: "FILE",
    help: "The shared file",
    form: Form::Place,
}];

/// The command `read`.
#[tactic(auto, unfolding(crate::specs::CommandLine::read_app))]
pub(crate) fn read_command<'a>(alloc: Global) -> Result<Command<'a>, AllocError>
    ensures app { IfOk result (λ c. app_of c ≡ read_app) }
    ensures local { IfOk result (λ c. (out-Command c).has_globals ≡ false) }
{
    let bare = plain_command(
        alloc,
        "read",
        "Reads the time from the file that a machine shares",
        ABOUT_READ,
    );
    with_rows(alloc, bare, &READ)
}

/// The arguments of `top`.
const TOP: [Row; 4] = [
    Row {
        name: "place",
        value: "FILE|ADDRESS",
        help: "Its status file, or where it serves its status: 127.0.0.1:PORT",
        form: Form::Place,
    },
    Row {
        name: "once",
        value: "",
        help: "Shows it once, and ends",
        form: Form::Flag,
    },
    Row {
        name: "columns",
        value: "N",
        help: "The width of the table in columns, from 40 to 300",
        form: Form::Option(OptionValue::Columns),
    },
    Row {
        name: "svg",
        value: "",
        help: "Draws it once as SVG, with the intervals of the sources, and ends",
        form: Form::Flag,
    },
];

/// The command `top`.
#[tactic(auto, unfolding(crate::specs::CommandLine::top_app))]
pub(crate) fn top_command<'a>(alloc: Global) -> Result<Command<'a>, AllocError>
    ensures app { IfOk result (λ c. app_of c ≡ top_app) }
    ensures local { IfOk result (λ c. (out-Command c).has_globals ≡ false) }
{
    let bare = plain_command(
        alloc,
        "top",
        "Shows the status of a machine, twice a second",
        ABOUT_TOP,
    );
    with_rows(alloc, bare, &TOP)
}

/// The arguments of `key`.
const KEY: [Row; 2] = [
    Row {
        name: "id",
        value: "N",
        help: "The number of the key, up to 4294967295; without it a random one",
        form: Form::Option(OptionValue::Id),
    },
    Row {
        name: "name",
        value: "TEXT",
        help: "A name for the reader of the file",
        form: Form::Option(OptionValue::Any),
    },
];

/// The command `key`.
#[tactic(auto, unfolding(crate::specs::CommandLine::key_app))]
pub(crate) fn key_command<'a>(alloc: Global) -> Result<Command<'a>, AllocError>
    ensures app { IfOk result (λ c. app_of c ≡ key_app) }
    ensures local { IfOk result (λ c. (out-Command c).has_globals ≡ false) }
{
    let bare = plain_command(alloc, "key", "Makes a line for a file of keys", ABOUT_KEY);
    with_rows(alloc, bare, &KEY)
}
