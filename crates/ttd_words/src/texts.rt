//! The texts for a person about arguments: help, and what is wrong with them. Their wording is clap's own, except about a
//! value that clap takes.

ghost use Rattle.std.specs.Prelude.{◌≡◌, Err, IfErr, IfOk, IsSome, IsNone};
ghost use Rattle.clap.specs.Walk.{texts};
ghost use Rattle.ttd_words.specs.Reading.{AreForHelp, AreMistaken, AreTaken, IsUnlessMemory};

use crate::faults::{Given, WordsFault};
use crate::masters::{is_among, server_in};
use crate::tree::ttd_command;
use crate::words::{asked_for, parsed};
use clap::ArgMatches;
use clap::error::ErrorKind;
use std::alloc::{AllocError, Global};
use std::fmt::Display;
use tt_script::act_in;
use tt_span::MAX_SOURCES;

/// The text of the help, or of the version, that the arguments ask for. They ask for it if
/// [`read_words`](crate::read_words) answers [`Asked::Help`](crate::Asked::Help) to them. The wording is clap's own.
///
/// Rejects with [`WordsFault::BadWords`] (1601) arguments that do not ask for help, and with [`WordsFault::Memory`] (1)
/// where an allocation failed.
pub fn help_text(alloc: Global, words: &[&str]) -> Result<String, WordsFault>
    ensures helped { AreForHelp (texts words.now) → IfErr result (λ fault. fault ≡ WordsFault.Memory) }
    ensures taken { AreTaken (texts words.now) → IsUnlessMemory WordsFault.Memory (Err WordsFault.BadWords) result }
    ensures mistaken { AreMistaken (texts words.now) → IsUnlessMemory WordsFault.Memory (Err WordsFault.BadWords) result }
{
    match parsed(alloc, words) {
        Ok(_) => Err(WordsFault::BadWords),
        Err(error) => match error.kind() {
            ErrorKind::DisplayHelp | ErrorKind::DisplayVersion => {
                format!(in alloc; "{error}").map_err(|_| WordsFault::Memory)
            }
            ErrorKind::OutOfMemory => Err(WordsFault::Memory),
            _ => Err(WordsFault::BadWords),
        },
    }
}

/// The message for standard error about options of which one is missing.
fn missing_mistake(alloc: Global, options: &str) -> Result<String, AllocError> {
    format!(in alloc;
        "error: the following required arguments were not provided:\n  {options}\n\nFor more information, try '--help'.\n"
    )
}

/// The message for standard error about two options of which one has to be left out.
fn pair_mistake<S: Display>(alloc: Global, option: &S, other: &str) -> Result<String, AllocError> {
    format!(in alloc;
        "error: the argument '{option}' cannot be used with '{other}'\n\nFor more information, try '--help'.\n"
    )
}

/// The message for standard error about arguments that are refused though clap takes them.
fn given_mistake(
    alloc: Global,
    matches: &ArgMatches<'_>,
    given: Given,
) -> Result<String, AllocError> {
    match given {
        Given::NoTime => missing_mistake(alloc, "<--uncertainty <NS>|--ntp <ADDRESS:PORT>>"),
        Given::PhcAlone => missing_mistake(alloc, "--tai-offset <N>"),
        Given::TaiOffsetAlone => missing_mistake(alloc, "--phc <PATH>"),
        Given::NtpKeyAlone => missing_mistake(alloc, "--ntp-keys <FILE>"),
        Given::NtpKeysAlone => missing_mistake(alloc, "--ntp-key <N>"),
        Given::BothTimes => pair_mistake(alloc, &"--uncertainty <NS>", "--ntp <ADDRESS:PORT>"),
        Given::WithNtp(option) => pair_mistake(alloc, &option, "--ntp <ADDRESS:PORT>"),
        Given::WithPhc(option) => pair_mistake(alloc, &option, "--phc <PATH>"),
        Given::WithoutNtp(option) => pair_mistake(alloc, &option, "--uncertainty <NS>"),
        _ => value_mistake(alloc, matches, given),
    }
}

/// The argument with such a value of this command, as the help names it, and its name.
fn named_by(given: Given, command: &str) -> (&'static str, &'static str) {
    match given {
        Given::Side => ("--side <SIDE>", "side"),
        Given::Listen | Given::NotLocal => ("--listen <ADDRESS>", "listen"),
        Given::Name => ("--name <TEXT>", "name"),
        Given::Offset => ("--offset <NS>", "offset"),
        Given::Log => ("--log <FORM>", "log"),
        Given::Act => ("--act <ACT>", "act"),
        Given::Ntp | Given::ManyServers | Given::ServerTwice => ("--ntp <ADDRESS:PORT>", "ntp"),
        Given::Faulty => ("--faulty <N>", "faulty"),
        Given::Every => ("--every <TIME>", "every"),
        Given::MaxAge => ("--max-age <TIME>", "max-age"),
        Given::Http => ("--http <ADDRESS:PORT>", "http"),
        _ if command == "top" => ("<FILE|ADDRESS>", "place"),
        _ => ("<ADDRESS|PATH>", "address"),
    }
}

/// The message for standard error about a value that is refused though clap takes it.
fn value_mistake(
    alloc: Global,
    matches: &ArgMatches<'_>,
    given: Given,
) -> Result<String, AllocError> {
    let Some((command, options)) = matches.subcommand() else {
        return Err(AllocError);
    };
    let (name, id) = named_by(given, command);
    let value = match options.get_strs(id) {
        Some(values) => refused_of(given, values),
        None => "",
    };
    format!(in alloc;
        "error: invalid value '{value}' for '{name}'\n\nFor more information, try '--help'.\n"
    )
}

/// Of the values of this argument the one that is refused.
fn refused_of<'a>(given: Given, values: &[&'a str]) -> &'a str {
    for (place, value) in values.iter().enumerate() {
        if is_refused(given, *value, &values[..place]) {
            return *value;
        }
    }
    ""
}

/// Whether a value behind these is refused so.
fn is_refused(given: Given, value: &str, before: &[&str]) -> bool {
    match given {
        Given::Act => act_in(value).is_none(),
        Given::Ntp => server_in(value).is_err(),
        Given::ManyServers => before.len() == MAX_SOURCES,
        Given::ServerTwice => is_among(value, before),
        _ => true,
    }
}

/// The message for standard error about arguments that [`read_words`](crate::read_words) rejects: which argument was not
/// expected or is missing, with a tip and the usage. It has a few lines, each with its line feed. None if the arguments
/// are taken, or if they ask for help. The wording is clap's own.
///
/// Refuses only if an allocation failed.
pub fn mistake_text(alloc: Global, words: &[&str]) -> Result<Option<String>, AllocError>
    ensures taken { AreTaken (texts words.now) → IfOk result (λ text. IsNone text) }
    ensures helped { AreForHelp (texts words.now) → IfOk result (λ text. IsNone text) }
    ensures mistaken { AreMistaken (texts words.now) → IfOk result (λ text. IsSome text) }
{
    match parsed(alloc, words) {
        Ok(matches) => match asked_for(alloc, &matches) {
            Ok(_) => Ok(None),
            Err(WordsFault::Memory) => Err(AllocError),
            Err(WordsFault::BadValue(given)) => Ok(Some(given_mistake(alloc, &matches, given)?)),
            Err(WordsFault::BadWords) => {
                Ok(Some(value_mistake(alloc, &matches, Given::Address)?))
            }
        },
        Err(error) => match error.kind() {
            ErrorKind::DisplayHelp | ErrorKind::DisplayVersion => Ok(None),
            ErrorKind::OutOfMemory => Err(AllocError),
            _ => Ok(Some(format!(in alloc; "{error}")?)),
        },
    }
}

/// What the program does and which commands it has, in a few lines, for standard error if no command was given. The
/// wording is clap's own.
///
/// Refuses only if an allocation failed.
pub fn usage_text(alloc: Global) -> Result<String, AllocError> {
    ttd_command(alloc)?.after_help("").render_help()
}
