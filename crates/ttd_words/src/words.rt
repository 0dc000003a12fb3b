//! What the arguments ask for.

ghost use Rattle.std.specs.Prelude.{◌≡◌, ◌≢◌, ◌≤◌, ◌⊎◌, ℕ, List, [], ◌∷◌, codes, Some, Ok, Err, IfErr, IfOk, IfSome, IsSome, IsNone, IsOk, false};
ghost use Rattle.clap.specs.Walk.{first_of, texts};
ghost use Rattle.clap.specs.Words.{FailsBy, found_of, rows_of, subcommand_rows_of};
ghost use Rattle.tt_span.specs.Drift.{max_drift};
ghost use Rattle.tt_daemon.specs.Config.{default_drift};
ghost use Rattle.ttd_words.specs.CommandLine.{faults_of, is_service as names_one, named_by, names_service};
ghost use Rattle.ttd_words.specs.Reading.{AreForHelp, AreMistaken, AreTaken, HasAge, HasNumbers, IsMeant, IsRefused, IsUnlessMemory, Meaning, Request, age_of, ask_of, asked_of, command_named, key_of, master_of, number_at, read_of, request_in, request_named, serve_of, service_named, top_of, twin_of};

use crate::faults::{Given, WordsFault};
use crate::masters::{http_at, time_asked};
use crate::requests::{Asked, Command, Service};
use crate::tree::ttd_command;
use crate::values::{
    columns_at, flag_at, id_at, line_at, listen_at, log_at, name_at, number_given, number_if,
    number_to, path_at, peer_at, side_at, text_at, top_place_at,
};
use clap::error::ErrorKind;
use clap::{ArgMatches, Error};
use std::alloc::Global;
use tt_poll::MAX_SOURCE;
use tt_span::{Drift, MAX_TIME};

/// The most times that a line may be sent again while nothing is published.
pub(crate) const MOST_RETRY: u64 = 9999;

/// Whether this word names a service: a command that speaks to other processes.
pub fn is_service(word: &str) -> bool
    ensures { result ≡ names_one word.now }
{
    matches!(word, "master" | "serve" | "ask" | "read" | "top" | "key")
}

/// The number that was given for an option, or its default. It is there.
fn number_there(matches: &ArgMatches<'_>, id: &str) -> u64
    requires { IsSome (number_at id.now (rows_of (found_of matches.now))) }
    ensures { number_at id.now (rows_of (found_of matches.now)) ≡ Some result }
{
    number_given(matches, id).unwrap()
}

/// The drift that was given, or its default.
fn drift_given(matches: &ArgMatches<'_>) -> Drift
    requires there { IsSome (number_at (codes "drift") (rows_of (found_of matches.now))) }
    requires in_range { IfSome (number_at (codes "drift") (rows_of (found_of matches.now))) (λ drift. drift ≤ max_drift) }
    ensures { number_at (codes "drift") (rows_of (found_of matches.now)) ≡ Some result }
{
    Drift::new(number_there(matches, "drift") as u32).unwrap()
}

/// The command `age` with these options.
fn age_asked(matches: &ArgMatches<'_>) -> Command
    requires { HasAge (rows_of (found_of matches.now)) }
    ensures { age_of (rows_of (found_of matches.now)) ≡ Ok result }
{
    Command::Age {
        drift: drift_given(matches),
        sent: number_there(matches, "sent"),
        got: number_there(matches, "got"),
        clock: number_there(matches, "clock"),
    }
}

/// The command `twin` with these options.
fn twin_asked(matches: &ArgMatches<'_>) -> Result<Command, WordsFault>
    requires { IsSome (number_at (codes "event") (rows_of (found_of matches.now))) }
    ensures { result ≡ twin_of (rows_of (found_of matches.now)) }
{
    let event = number_there(matches, "event");
    match side_at(matches, "side") {
        Ok(side) => Ok(Command::Twin { event, side }),
        Err(fault) => Err(fault),
    }
}

/// The command that clap found, if its options are valid. A service is none.
fn command_asked(matches: &ArgMatches<'_>) -> Result<Command, WordsFault>
    requires { HasNumbers (subcommand_rows_of matches.now) }
    ensures { result ≡ command_named (subcommand_rows_of matches.now) }
{
    let Some((name, options)) = matches.subcommand() else {
        return Err(WordsFault::BadWords);
    };
    match name {
        "age" => Ok(age_asked(options)),
        "fuse" => Ok(Command::Fuse),
        "check" => Ok(Command::Check),
        "run" => Ok(Command::Run),
        "trace" => Ok(Command::Trace),
        "twin" => twin_asked(options),
        "picture" => Ok(Command::Picture),
        "live" => Ok(Command::Live),
        "judge" => Ok(Command::Judge),
        _ => Err(WordsFault::BadWords),
    }
}

/// The service `master` with these options.
#[tactic(auto, unfolding(crate::specs::Reading::master_of))]
fn master_asked<'a>(alloc: Global, matches: &ArgMatches<'a>) -> Result<Service<'a>, WordsFault>
    ensures { IsMeant (master_of (rows_of (found_of matches.now))) result }
{
    let source = number_to(matches, "source", u64::from(MAX_SOURCE))?;
    let keys = path_at(matches, "keys");
    let listen = listen_at(matches, "listen", keys.is_some())?;
    let warn_width = number_if(matches, "warn-width", MAX_TIME)?;
    let log = log_at(matches, "log")?;
    let http = http_at(matches)?;
    let time = time_asked(alloc, matches)?;
    Ok(Service::Master {
        source,
        listen,
        time,
        warn_width,
        log,
        keys,
        status: path_at(matches, "status"),
        http,
    })
}

/// The service `serve` with these options.
fn serve_asked<'a>(matches: &ArgMatches<'a>) -> Result<Service<'a>, WordsFault>
    ensures { IsMeant (serve_of (rows_of (found_of matches.now))) result }
{
    let file = text_at(matches, "file")?;
    Ok(Service::Serve {
        file,
        check: flag_at(matches, "check"),
        until_eof: flag_at(matches, "until-eof"),
    })
}

/// The service `ask` with these options.
#[tactic(auto, unfolding(crate::specs::Reading::ask_of))]
fn ask_asked<'a>(alloc: Global, matches: &ArgMatches<'a>) -> Result<Service<'a>, WordsFault>
    ensures { IsMeant (ask_of (rows_of (found_of matches.now))) result }
{
    let peer = peer_at(matches, "address")?;
    let retry = number_to(matches, "retry", MOST_RETRY)?;
    let line = line_at(alloc, matches, "words")?;
    Ok(Service::Ask { peer, line, retry })
}

/// The service `read` with its file.
fn read_asked<'a>(matches: &ArgMatches<'a>) -> Result<Service<'a>, WordsFault>
    ensures { IsMeant (read_of (rows_of (found_of matches.now))) result }
{
    let file = text_at(matches, "file")?;
    Ok(Service::Read { file })
}

/// The service `top` with these options.
#[tactic(auto, unfolding(crate::specs::Reading::top_of))]
fn top_asked<'a>(matches: &ArgMatches<'a>) -> Result<Service<'a>, WordsFault>
    ensures { IsMeant (top_of (rows_of (found_of matches.now))) result }
{
    let place = top_place_at(matches, "place")?;
    let columns = columns_at(matches, "columns")?;
    let svg = flag_at(matches, "svg");
    let once = flag_at(matches, "once") || svg;
    Ok(Service::Top {
        place,
        once,
        columns,
        svg,
    })
}

/// The service `key` with these options.
fn key_asked<'a>(matches: &ArgMatches<'a>) -> Result<Service<'a>, WordsFault>
    ensures { IsMeant (key_of (rows_of (found_of matches.now))) result }
{
    let id = id_at(matches, "id")?;
    let name = name_at(matches, "name")?;
    Ok(Service::Key { id, name })
}

/// The service that clap found, if its options are valid.
fn service_asked<'a>(alloc: Global, matches: &ArgMatches<'a>) -> Result<Service<'a>, WordsFault>
    ensures { IsMeant (service_named (subcommand_rows_of matches.now)) result }
{
    let Some((name, options)) = matches.subcommand() else {
        return Err(WordsFault::BadWords);
    };
    match name {
        "master" => master_asked(alloc, options),
        "serve" => serve_asked(options),
        "ask" => ask_asked(alloc, options),
        "read" => read_asked(options),
        "top" => top_asked(options),
        "key" => key_asked(options),
        _ => Err(WordsFault::BadWords),
    }
}

/// What clap found: a command or a service, if its options are valid.
pub(crate) fn asked_for<'a>(
    alloc: Global,
    matches: &ArgMatches<'a>,
) -> Result<Asked<'a>, WordsFault>
    requires { HasNumbers (subcommand_rows_of matches.now) }
    ensures { IsUnlessMemory WordsFault.Memory (request_named (subcommand_rows_of matches.now)) (request_in result) }
{
    if is_for_service(matches) {
        match service_asked(alloc, matches) {
            Ok(service) => Ok(Asked::Serve(service)),
            Err(fault) => Err(fault),
        }
    } else {
        match command_asked(matches) {
            Ok(command) => Ok(Asked::Run(command)),
            Err(fault) => Err(fault),
        }
    }
}

/// Whether the command that clap found is a service.
fn is_for_service(matches: &ArgMatches<'_>) -> bool
    ensures { result ≡ names_service (subcommand_rows_of matches.now) }
{
    match matches.subcommand() {
        Some((name, _)) => is_service(name),
        None => false,
    }
}

/// What clap finds in the arguments.
pub(crate) fn parsed<'a>(alloc: Global, words: &'a [&'a str]) -> Result<ArgMatches<'a>, Error>
    ensures named { IfOk result (λ matches. subcommand_rows_of matches ≡ named_by (texts words.entry.now)) }
    ensures fails { FailsBy (faults_of (texts words.entry.now)) result }
{
    ttd_command(alloc)?.try_get_matches_from(words)
}

/// What the arguments after the program's name ask for.
///
/// A number is read as `u64` reads it: decimal digits, with one `+` in front or none; leading zeros are allowed. An
/// offset is decimal digits without leading zeros, behind a `+`, a `-` or nothing. An act is as in a script. The address
/// at which a master listens is one of IPv4 or IPv6 with a port, in the one spelling in which it is printed; without a
/// file of keys it is on the loopback. The address of a machine that is asked, or whose status is shown, is `127.0.0.1:`
/// and a port. Where `ask` or `top` is given a text with a `/`, or one that has no `:` and is not empty, that is the path
/// of a Unix socket, or of a status file. The columns of `top` are from 40 to 300.
///
/// A master has exactly one of an uncertainty and NTP servers, and no option of the other. A hardware clock and how far TAI is
/// ahead are given together, and without the options of the real-time clock. The address of a server is as
/// that at which a master listens, of any host, with a port above 0, as is that of its pages. There are at most 16, none twice, and more than
/// twice as many as may be faulty. A time has a unit, as [`duration_of`](tt_settings::duration_of) reads it, and is from
/// a millisecond to a day. The key of NTP and its file are given together.
///
/// Rejects with [`WordsFault::BadWords`] (1601) arguments that the command line does not take: none at all, an unknown
/// word, an option that is missing or comes twice, a value that is not a number of 64 bits, or one that is too great, as
/// a drift above 100000. Rejects the value of one argument with [`WordsFault::BadValue`]: 1805 for an address that is
/// outside this host, else 1601. Rejects arguments with [`WordsFault::Memory`] (1) where an allocation failed.
/// After `help`, a word that names no command is rejected, or answered with the help of the program.
pub fn read_words<'a>(alloc: Global, words: &'a [&'a str]) -> Result<Asked<'a>, WordsFault>
    ensures taken { AreTaken (texts words.entry.now) → IsOk (asked_of (texts words.entry.now))
        × IsUnlessMemory WordsFault.Memory (asked_of (texts words.entry.now)) (request_in result) }
    ensures mistaken { AreMistaken (texts words.entry.now) → IsRefused (asked_of (texts words.entry.now))
        × IsUnlessMemory WordsFault.Memory (asked_of (texts words.entry.now)) (request_in result) }
    ensures helped { AreForHelp (texts words.entry.now) → IsUnlessMemory WordsFault.Memory (Ok Request.ToHelp) (request_in result) }
    ensures help { request_in result ≡ Ok Request.ToHelp → ¬ AreTaken (texts words.entry.now) }
    ensures commands { (command : Command) → request_in result ≡ Ok (Request.ToRun command) → AreTaken (texts words.entry.now) }
    ensures services { (service : Meaning) → request_in result ≡ Ok (Request.ToServe service) → AreTaken (texts words.entry.now) }
{
    match parsed(alloc, words) {
        Ok(matches) => asked_for(alloc, &matches),
        Err(error) => match error.kind() {
            ErrorKind::DisplayHelp | ErrorKind::DisplayVersion => Ok(Asked::Help),
            ErrorKind::OutOfMemory => Err(WordsFault::Memory),
            _ => Err(WordsFault::BadWords),
        },
    }
}

/// Laws of arguments. Arguments that are taken always ask to run a command or a service. Arguments in which clap finds
/// nothing wrong are taken or are a mistake; and if they name no service, they are taken, or only the side of a `twin`
/// is invalid. No arguments at all are a mistake. `--help`, alone or after a command, asks for help, and so does
/// `--version`. The arguments of one `age`, with the default drift, ask for it with its three numbers. A refusal is never
/// want of memory.
pub fn word_laws()
    ensures total { (words : List (List ℕ)) → AreTaken words → (request : Request) × (asked_of words ≡ Ok request) × (request ≢ Request.ToHelp) }
    ensures judged { (words : List (List ℕ)) → faults_of words ≡ [] → AreTaken words ⊎ AreMistaken words }
    ensures complete { (words : List (List ℕ)) → faults_of words ≡ [] → names_service (named_by words) ≡ false →
        AreTaken words ⊎ (asked_of words ≡ Err (WordsFault.BadValue Given.Side)) }
    ensures fair { (words : List (List ℕ)) → asked_of words ≢ Err WordsFault.Memory }
    ensures nothing { AreMistaken [] }
    ensures help { AreForHelp (codes "--help" ∷ []) × AreForHelp (codes "age" ∷ codes "--help" ∷ []) × AreForHelp (codes "--version" ∷ []) }
    ensures age { asked_of (codes "age" ∷ codes "--sent" ∷ codes "500" ∷ codes "--got" ∷ codes "900" ∷ codes "--clock"
        ∷ codes "30000000900" ∷ []) ≡ Ok (Request.ToRun (Command.Age default_drift 500 900 30000000900)) }
{}
