//! What clap is told of an option or a positional argument: rows of data, and what is made of them.

ghost use Rattle.std.specs.Prelude.{◌≡◌, false};
ghost use Rattle.clap.specs.Matches.{count_text};
ghost use Rattle.clap.specs.Words.{rule_of};
ghost use Rattle.tt_daemon.specs.Config.{default_drift};
ghost use Rattle.ttd_words.specs.CommandLine.{flag_rule, free_rule, option_rule, place_rule, row_rule, words_rule};

use crate::masters::{MOST_FAULTY, MOST_TAI_OFFSET};
use crate::values::{LEAST_COLUMNS, MOST_COLUMNS, MOST_ID};
use crate::words::MOST_RETRY;
use clap::{Arg, ArgAction, value_parser};
use std::alloc::Global;
use tt_poll::MAX_SOURCE;
use tt_span::{MAX_DRIFT, MAX_TIME};

/// The value of an option `--NAME VALUE`. Where nothing else is said it may be left out, and has no default.
#[derive(Clone, Copy)]
pub(crate) enum OptionValue {
    /// Any text.
    Any,
    /// Any text. It has to be given.
    Needed,
    /// Any text. It may be given often.
    Many,
    /// `text` or `json`, by default `text`.
    Log,
    /// A number of 64 bits. It has to be given.
    Number,
    /// A drift, at most [`MAX_DRIFT`].
    Drift,
    /// The same, by default that of a machine.
    DefaultDrift,
    /// The number of a key, at most [`MOST_ID`].
    Id,
    /// The number of a source, at most [`MAX_SOURCE`]. It has to be given.
    Source,
    /// Nanoseconds, at most [`MAX_TIME`].
    Time,
    /// Seconds that TAI is ahead of UTC, at most [`MOST_TAI_OFFSET`].
    TaiOffset,
    /// A number of servers, at most [`MOST_FAULTY`].
    Faulty,
    /// A number of tries, at most [`MOST_RETRY`], by default 50.
    Retry,
    /// A number of columns, from [`LEAST_COLUMNS`] to [`MOST_COLUMNS`].
    Columns,
}

/// How an argument is given.
#[derive(Clone, Copy)]
pub(crate) enum Form {
    /// As an option with such a value.
    Option(OptionValue),
    /// As a flag `--NAME`.
    Flag,
    /// By its place. It has to be given.
    Place,
    /// As all further words.
    Words,
}

/// An option or a positional argument.
#[derive(Clone, Copy)]
pub(crate) struct Row {
    /// Its name, which an option has behind two hyphens.
    pub(crate) name: &'static str,
    /// The name of its value in the help.
    pub(crate) value: &'static str,
    /// What it is, in the help.
    pub(crate) help: &'static str,
    /// How it is given.
    pub(crate) form: Form,
}

/// The default drift, [`tt_daemon::DEFAULT_DRIFT`], in decimal.
fn default_drift() -> &'static str
    ensures { result.now ≡ count_text default_drift }
{
    "200"
}

/// An option `--NAME VALUE` with any text, which may be left out.
fn free_option<'a>(alloc: Global, name: &'a str, value: &'a str, help: &'a str) -> Arg<'a>
    ensures rule { rule_of result ≡ free_rule name.entry.now }
    ensures local { result.global ≡ false }
{
    Arg::new(alloc, name)
        .long(name)
        .value_name(value)
        .help(help)
}

/// An option `--NAME VALUE` with such a value.
fn option_of<'a>(
    alloc: Global,
    name: &'a str,
    value: &'a str,
    help: &'a str,
    takes: OptionValue,
) -> Arg<'a>
    ensures rule { rule_of result ≡ option_rule takes name.entry.now }
    ensures local { result.global ≡ false }
{
    let free = free_option(alloc, name, value, help);
    let number = value_parser!(u64);
    match takes {
        OptionValue::Any => free,
        OptionValue::Needed => free.required(true),
        OptionValue::Many => free.action(ArgAction::Append),
        OptionValue::Log => free.default_value("text"),
        OptionValue::Number => free.required(true).value_parser(number),
        OptionValue::Drift => free.value_parser(number.range(..=i64::from(MAX_DRIFT))),
        OptionValue::DefaultDrift => free
            .default_value(default_drift())
            .value_parser(number.range(..=i64::from(MAX_DRIFT))),
        OptionValue::Id => free.value_parser(number.range(..=MOST_ID as i64)),
        OptionValue::Source => free
            .required(true)
            .value_parser(number.range(..=i64::from(MAX_SOURCE))),
        OptionValue::Time => free.value_parser(number.range(..=MAX_TIME as i64)),
        OptionValue::TaiOffset => free.value_parser(number.range(..=MOST_TAI_OFFSET as i64)),
        OptionValue::Faulty => free.value_parser(number.range(..=MOST_FAULTY as i64)),
        OptionValue::Retry => free
            .default_value("50")
            .value_parser(number.range(..=MOST_RETRY as i64)),
        OptionValue::Columns => free.value_parser(number.range(
            LEAST_COLUMNS as i64..=MOST_COLUMNS as i64,
        )),
    }
}

/// A flag `--NAME`.
fn flag<'a>(alloc: Global, name: &'a str, help: &'a str) -> Arg<'a>
    ensures rule { rule_of result ≡ flag_rule name.entry.now }
    ensures local { result.global ≡ false }
{
    Arg::new(alloc, name)
        .long(name)
        .action(ArgAction::SetTrue)
        .help(help)
}

/// A required positional argument.
fn place<'a>(alloc: Global, name: &'a str, value: &'a str, help: &'a str) -> Arg<'a>
    ensures rule { rule_of result ≡ place_rule name.entry.now }
    ensures local { result.global ≡ false }
{
    Arg::new(alloc, name)
        .value_name(value)
        .required(true)
        .help(help)
}

/// All further arguments.
fn further<'a>(alloc: Global, name: &'a str, value: &'a str, help: &'a str) -> Arg<'a>
    ensures rule { rule_of result ≡ words_rule name.entry.now }
    ensures local { result.global ≡ false }
{
    Arg::new(alloc, name)
        .value_name(value)
        .action(ArgAction::Append)
        .help(help)
}

/// An argument, as it is given to clap.
pub(crate) fn arg_of<'a>(alloc: Global, row: &Row) -> Arg<'a>
    ensures rule { rule_of result ≡ row_rule row.now }
    ensures local { result.global ≡ false }
{
    match row.form {
        Form::Option(takes) => option_of(alloc, row.name, row.value, row.help, takes),
        Form::Flag => flag(alloc, row.name, row.help),
        Form::Place => place(alloc, row.name, row.value, row.help),
        Form::Words => further(alloc, row.name, row.value, row.help),
    }
}
