//! The settings that are one of a few words.

ghost use Rattle.std.specs.Prelude.{◌≡◌};
ghost use Rattle.toml.specs.View.{view, table_view};
ghost use Rattle.tt_settings.specs.Key.{kind_of};
ghost use Rattle.tt_settings.specs.Form.{act_in, act_of, choice_at, choice_in, choice_of, clock_at, clock_named, conduct_in, log_at, log_format, log_format_of, on_break_at};

use crate::faults::SettingsFault;
use crate::keys::{Key, ValueKind};
use crate::lookups::{found_at, optional_amount, text_in};
use toml::{Table, Value};
use tt_host::HostClock;
use tt_status::LogFormat;

/// What a machine does when it knows that one of its assumptions is broken.
#[derive(Clone, Copy)]
pub enum OnBreak {
    /// `end`: it says so, and ends itself.
    End,
    /// `warn`: it says so, and goes on.
    Warn,
    /// `stay`: it says so, ends itself, and stays down until somebody starts it.
    Stay,
}

/// How a machine writes its log, and what it does when it is not sure enough of the time.
#[derive(Clone, Copy)]
pub(crate) struct Conduct {
    /// The form of its log.
    pub(crate) log: LogFormat,
    /// What it does when an assumption is broken.
    pub(crate) on_break: OnBreak,
    /// The greatest width of a reading that it answers, in nanoseconds, if there is a limit.
    pub(crate) max_width: Option<u64>,
}

/// One of two words.
#[derive(Clone, Copy)]
enum Choice {
    /// The first, which stands for the key where it is absent.
    First,
    /// The second.
    Second,
}

/// Which of the words of this key a text is.
fn choice_of(key: Key, text: &str) -> Option<Choice>
    ensures { result ≡ choice_of (kind_of key) text.now }
{
    match key.kind() {
        ValueKind::Form(words) => {
            if text == words.first() {
                Some(Choice::First)
            } else if text == words.second() {
                Some(Choice::Second)
            } else {
                None
            }
        }
        _ => None,
    }
}

/// Which of the words of this key a value is.
fn choice_in(key: Key, value: &Value) -> Result<Choice, SettingsFault>
    ensures { result ≡ choice_in key (view value.now) }
{
    match choice_of(key, text_in(key, value)?) {
        Some(choice) => Ok(choice),
        None => Err(SettingsFault::WrongValue(key)),
    }
}

/// Which of the words of this key the table has. It is the first if the key is absent.
fn choice_at(table: &Table, key: Key) -> Result<Choice, SettingsFault>
    ensures { result ≡ choice_at key (table_view table.now) }
{
    match found_at(table, key) {
        Some(value) => choice_in(key, value),
        None => Ok(Choice::First),
    }
}

/// The form of a log that each word is.
fn log_format(choice: Choice) -> LogFormat
    ensures { result ≡ log_format choice }
{
    match choice {
        Choice::First => LogFormat::Text,
        Choice::Second => LogFormat::Json,
    }
}

/// The form of a log that a text names: `text` or `json`. `None` for any other text.
pub fn log_format_of(text: &str) -> Option<LogFormat>
    ensures { result ≡ log_format_of text.now }
{
    match choice_of(Key::Log, text) {
        Some(choice) => Some(log_format(choice)),
        None => None,
    }
}

/// The form of the log, which is text if the key is absent.
fn log_at(table: &Table) -> Result<LogFormat, SettingsFault>
    ensures { result ≡ log_at (table_view table.now) }
{
    let choice = choice_at(table, Key::Log)?;
    Ok(log_format(choice))
}

/// The clock that each word is.
fn clock_named(choice: Choice) -> HostClock
    ensures { result ≡ clock_named choice }
{
    match choice {
        Choice::First => HostClock::Raw,
        Choice::Second => HostClock::Monotonic,
    }
}

/// The clock by which a machine measures, which is the raw one if the key is absent.
pub(crate) fn clock_at(table: &Table) -> Result<HostClock, SettingsFault>
    ensures { result ≡ clock_at (table_view table.now) }
{
    let choice = choice_at(table, Key::Clock)?;
    Ok(clock_named(choice))
}

/// What a text has a machine do when an assumption is broken. `None` for any other text.
fn act_of(text: &str) -> Option<OnBreak>
    ensures { result ≡ act_of text.now }
{
    if text == "end" {
        Some(OnBreak::End)
    } else if text == "warn" {
        Some(OnBreak::Warn)
    } else if text == "stay" {
        Some(OnBreak::Stay)
    } else {
        None
    }
}

/// What a value has a machine do when an assumption is broken.
fn act_in(value: &Value) -> Result<OnBreak, SettingsFault>
    ensures { result ≡ act_in (view value.now) }
{
    match act_of(text_in(Key::OnBreak, value)?) {
        Some(act) => Ok(act),
        None => Err(SettingsFault::WrongValue(Key::OnBreak)),
    }
}

/// What a machine does when an assumption is broken: it ends itself if the key is absent.
fn on_break_at(table: &Table) -> Result<OnBreak, SettingsFault>
    ensures { result ≡ on_break_at (table_view table.now) }
{
    match found_at(table, Key::OnBreak) {
        Some(value) => act_in(value),
        None => Ok(OnBreak::End),
    }
}

/// How a machine writes its log, and what it does when it is not sure enough of the time.
#[tactic(auto, unfolding(crate::specs::Form::conduct_in))]
pub(crate) fn conduct_in(table: &Table) -> Result<Conduct, SettingsFault>
    ensures { result ≡ conduct_in (table_view table.now) }
{
    let log = log_at(table)?;
    let on_break = on_break_at(table)?;
    let max_width = optional_amount(table, Key::MaxWidth)?;
    Ok(Conduct {
        log,
        on_break,
        max_width,
    })
}
