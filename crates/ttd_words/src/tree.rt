//! The whole command line, as it is given to clap.

ghost use Rattle.std.specs.Prelude.{◌≡◌, IfOk};
ghost use Rattle.clap.specs.Words.{app_of};
ghost use Rattle.ttd_words.specs.CommandLine.{bare_app, inputs_app, runs_app, servers_app, sources_app, ttd_app};

use crate::commands::{
    age_command, ask_command, key_command, master_command, plain_command, read_command,
    serve_command, top_command, twin_command,
};
use crate::help::{
    ABOUT_ANSWERS, ABOUT_CHECK, ABOUT_FUSE, ABOUT_JUDGE, ABOUT_LIVE, ABOUT_PICTURE, ABOUT_RUN,
    ABOUT_TRACE,
};
use clap::Command;
use std::alloc::{AllocError, Global};
use tt_status::VERSION;

/// The program with no command yet.
#[tactic(auto, unfolding(crate::specs::CommandLine::bare_app))]
fn bare_command<'a>(alloc: Global) -> Result<Command<'a>, AllocError>
    ensures app { IfOk result (λ c. app_of c ≡ bare_app) }
{
    Command::new(alloc, "ttd")
        .about("A time service whose clock readings are intervals that hold the true time")
        .after_help(ABOUT_ANSWERS)
        .version(VERSION)
        .no_binary_name(true)
        .subcommand_required(true)
        .bin_name("ttd")
}

/// The program with the commands that read the answers of sources: `age`, `fuse` and `check`.
fn sources_command<'a>(alloc: Global) -> Result<Command<'a>, AllocError>
    ensures app { IfOk result (λ c. app_of c ≡ sources_app) }
{
    let bare = bare_command(alloc)?;
    let age = age_command(alloc)?;
    let with_age = bare.subcommand(age)?;
    let fuse = plain_command(
        alloc,
        "fuse",
        "Fuses the spans that are read, and prints a certificate",
        ABOUT_FUSE,
    );
    let with_fuse = with_age.subcommand(fuse)?;
    let check = plain_command(
        alloc,
        "check",
        "Checks a certificate for the spans that are read",
        ABOUT_CHECK,
    );
    with_fuse.subcommand(check)
}

/// The program with these commands and the commands on the run of a script: `run`, `trace` and `twin`.
fn runs_command<'a>(alloc: Global) -> Result<Command<'a>, AllocError>
    ensures app { IfOk result (λ c. app_of c ≡ runs_app) }
{
    let with_sources = sources_command(alloc)?;
    let run = plain_command(
        alloc,
        "run",
        "Runs the script that is read, and reports on the run",
        ABOUT_RUN,
    );
    let with_run = with_sources.subcommand(run)?;
    let trace = plain_command(
        alloc,
        "trace",
        "Runs the script that is read, and prints each event with its reply",
        ABOUT_TRACE,
    );
    let with_trace = with_run.subcommand(trace)?;
    let twin = twin_command(alloc)?;
    with_trace.subcommand(twin)
}

/// The program with these commands and all others that read their input and end: `picture`, `live` and `judge`.
fn inputs_command<'a>(alloc: Global) -> Result<Command<'a>, AllocError>
    ensures app { IfOk result (λ c. app_of c ≡ inputs_app) }
{
    let with_runs = runs_command(alloc)?;
    let picture = plain_command(
        alloc,
        "picture",
        "Draws the run of the script that is read",
        ABOUT_PICTURE,
    );
    let with_picture = with_runs.subcommand(picture)?;
    let live = plain_command(
        alloc,
        "live",
        "Runs a machine live on this host, by the script that is read",
        ABOUT_LIVE,
    );
    let with_live = with_picture.subcommand(live)?;
    let judge = plain_command(
        alloc,
        "judge",
        "Judges whether the history of commits that is read is externally consistent",
        ABOUT_JUDGE,
    );
    with_live.subcommand(judge)
}

/// The program with these commands and the services that run until they are ended: `master` and `serve`.
fn servers_command<'a>(alloc: Global) -> Result<Command<'a>, AllocError>
    ensures app { IfOk result (λ c. app_of c ≡ servers_app) }
{
    let with_inputs = inputs_command(alloc)?;
    let master = master_command(alloc)?;
    let with_master = with_inputs.subcommand(master)?;
    let serve = serve_command(alloc)?;
    with_master.subcommand(serve)
}

/// The whole command line: these commands, `ask`, `read`, `top` and `key`.
pub(crate) fn ttd_command<'a>(alloc: Global) -> Result<Command<'a>, AllocError>
    ensures app { IfOk result (λ c. app_of c ≡ ttd_app) }
{
    let servers = servers_command(alloc)?;
    let ask = ask_command(alloc)?;
    let with_ask = servers.subcommand(ask)?;
    let read = read_command(alloc)?;
    let with_read = with_ask.subcommand(read)?;
    let top = top_command(alloc)?;
    let with_top = with_read.subcommand(top)?;
    let key = key_command(alloc)?;
    with_top.subcommand(key)
}
