//! Metrics in the text format of Prometheus, version 0.0.4.

ghost use Rattle.std.specs.Prelude.{◌≡◌, ◌++◌, OnOk, codes, string_bytes};
ghost use Rattle.std.specs.List.{flat_map};
ghost use Rattle.std.specs.Fmt.{decimal};
ghost use Rattle.tt_status.specs.Digits.{seconds_text};
ghost use Rattle.tt_status.specs.Metric.{kind_word, outcome_word, suffix_of, label_text, labels_text, value_text, head_text, labelled_text, sample_text, metric_text, single};

use crate::breaks::BreakReason;
use crate::digits::{Difference, push_difference, push_seconds};
use crate::lines::RefusedFusion;
use std::alloc::AllocError;
use tt_seal::SealFault;
use tt_source::SourceFault;

/// The version of the program.
pub const VERSION: &str = "0.4.0 (rattle-kit-13)";

/// What numbers a metric has.
#[derive(Clone, Copy)]
pub(crate) enum Kind {
    /// Each may fall.
    Gauge,
    /// None ever falls in one life of the machine.
    Counter,
    /// How many values are at most each bound, their sum and their count. None ever falls in one life of the machine.
    Histogram,
}

impl Kind {
    /// The word for it.
    fn word(self) -> &'static str
        ensures { result.now ≡ kind_word self }
    {
        match self {
            Kind::Gauge => "gauge",
            Kind::Counter => "counter",
            Kind::Histogram => "histogram",
        }
    }
}

/// The number of a sample.
#[derive(Clone, Copy)]
pub(crate) enum Value {
    /// A count or an id.
    Whole(u64),
    /// Shown as 1 if it is so, otherwise as 0.
    Flag(bool),
    /// So many billionths, if they are known. Nanoseconds are shown as seconds, and parts per billion as a ratio.
    Nanos(Option<u64>),
    /// The same of a number that may be below 0.
    Signed(Option<Difference>),
    /// The number of a key, if there is one.
    Key(Option<u32>),
}

/// What became of a source in a round.
#[derive(Clone, Copy)]
pub(crate) enum Outcome {
    Accepted,
    Refused,
    Silent,
}

impl Outcome {
    /// The word for it.
    fn word(self) -> &'static str
        ensures { result.now ≡ outcome_word self }
    {
        match self {
            Outcome::Accepted => "accepted",
            Outcome::Refused => "refused",
            Outcome::Silent => "silent",
        }
    }
}

/// What the number of a sample is of.
#[derive(Clone, Copy)]
pub(crate) enum Subject {
    /// The machine.
    Machine,
    /// The version of the program.
    Version,
    /// The fusions that were refused for this reason.
    Refusal(RefusedFusion),
    /// A life that broke for this reason.
    Break(BreakReason),
    /// This source.
    Source(u64),
    /// The rounds with this outcome of this source.
    OutcomeOf(u64, Outcome),
    /// The rounds in which answers of this source came and all were refused, the last one for this reason.
    RefusedOf(u64, SourceFault),
    /// The packets from this source that did not open for this reason.
    UnopenedOf(u64, SealFault),
    /// The packets that did not open for this reason.
    Unopened(SealFault),
    /// What is sealed under the key of this number; what is not sealed where there is none.
    Key(Option<u32>),
    /// What was done for the reason of this number.
    Reason(u64),
    /// This server of a master.
    Server(u64),
    /// The values of a histogram that are at most this bound, in nanoseconds; all of them where there is none.
    AtMost(Option<u64>),
    /// The sum of the values of a histogram.
    Sum,
    /// How many values a histogram has.
    Count,
}

impl Subject {
    /// What stands behind the name of the metric in a sample of it.
    fn suffix(self) -> &'static str
        ensures { result.now ≡ suffix_of self }
    {
        match self {
            Subject::AtMost(_) => "_bucket",
            Subject::Sum => "_sum",
            Subject::Count => "_count",
            _ => "",
        }
    }
}

/// A metric of one number of the machine: its name, what it says, its kind, and the number.
#[derive(Clone, Copy)]
pub(crate) struct Row<'a> {
    pub(crate) name: &'a str,
    pub(crate) help: &'a str,
    pub(crate) kind: Kind,
    pub(crate) value: Value,
}

/// Adds the metrics of these numbers.
pub(crate) fn push_rows(text: &mut String, machine: u64, rows: &[Row<'_>]) -> Result<(), AllocError>
    ensures { OnOk result (string_bytes text.new ≡ string_bytes text.old
        ++ flat_map (λ row. metric_text machine (single row.name.now row.help.now row.kind row.value)) rows.now) }
{
    for row in rows {
        push_row(text, machine, row)?;
    }
    Ok(())
}

/// Adds the metric of one number.
fn push_row(text: &mut String, machine: u64, row: &Row<'_>) -> Result<(), AllocError>
    ensures { OnOk result (string_bytes text.new ≡ string_bytes text.old
        ++ metric_text machine (single row.now.name.now row.now.help.now row.now.kind row.now.value)) }
{
    push_head(text, row.name, row.help, row.kind)?;
    push_sample(text, row.name, machine, Subject::Machine, row.value)
}

/// Adds the two lines before the samples of a metric.
pub(crate) fn push_head(
    text: &mut String,
    name: &str,
    help: &str,
    kind: Kind,
) -> Result<(), AllocError>
    ensures { OnOk result (string_bytes text.new ≡ string_bytes text.old ++ head_text name.now help.now kind) }
{
    let word = kind.word();
    write!(text, "# HELP {name} {help}\n# TYPE {name} {word}\n")
}

/// Adds the line of a sample of a machine.
pub(crate) fn push_sample(
    text: &mut String,
    name: &str,
    machine: u64,
    subject: Subject,
    value: Value,
) -> Result<(), AllocError>
    ensures { OnOk result (string_bytes text.new ≡ string_bytes text.old
        ++ sample_text name.now machine (record { subject = subject; value = value })) }
{
    push_labelled(text, name, "machine", machine, subject, value)
}

/// Adds the line of a sample, whose first label is this one.
pub(crate) fn push_labelled(
    text: &mut String,
    name: &str,
    label: &str,
    number: u64,
    subject: Subject,
    value: Value,
) -> Result<(), AllocError>
    ensures { OnOk result (string_bytes text.new ≡ string_bytes text.old
        ++ labelled_text label.now name.now number (record { subject = subject; value = value })) }
{
    let suffix = subject.suffix();
    write!(text, "{name}{suffix}{{{label}=\"{number}\"")?;
    push_labels(text, subject)?;
    text.push_str("} ")?;
    push_value(text, value)?;
    text.push_str("\n")
}

/// Adds the labels of a sample behind its first one.
fn push_labels(text: &mut String, subject: Subject) -> Result<(), AllocError>
    ensures { OnOk result (string_bytes text.new ≡ string_bytes text.old ++ labels_text subject) }
{
    match subject {
        Subject::Machine | Subject::Sum | Subject::Count => Ok(()),
        Subject::Version => push_word(text, "version", VERSION),
        Subject::Refusal(reason) => push_number(text, "number", reason.number()),
        Subject::Break(reason) => push_word(text, "event", reason.word()),
        Subject::Source(source) => push_number(text, "source", source),
        Subject::OutcomeOf(source, outcome) => {
            push_number(text, "source", source)?;
            push_word(text, "outcome", outcome.word())
        }
        Subject::RefusedOf(source, fault) => {
            push_number(text, "source", source)?;
            push_number(text, "number", u64::from(fault.number()))
        }
        Subject::UnopenedOf(source, fault) => {
            push_number(text, "source", source)?;
            push_number(text, "number", u64::from(fault.number()))
        }
        Subject::Unopened(fault) => push_number(text, "number", u64::from(fault.number())),
        Subject::Key(Some(key)) => push_number(text, "key", u64::from(key)),
        Subject::Key(None) => push_word(text, "key", "none"),
        Subject::Reason(number) => push_number(text, "number", number),
        Subject::Server(server) => push_number(text, "server", server),
        Subject::AtMost(Some(bound)) => push_bound(text, bound),
        Subject::AtMost(None) => push_word(text, "le", "+Inf"),
    }
}

/// Adds a label whose value is a word.
fn push_word(text: &mut String, name: &str, word: &str) -> Result<(), AllocError>
    ensures { OnOk result (string_bytes text.new ≡ string_bytes text.old ++ label_text name.now word.now) }
{
    write!(text, ",{name}=\"{word}\"")
}

/// Adds a label whose value is a number.
pub(crate) fn push_number(text: &mut String, name: &str, number: u64) -> Result<(), AllocError>
    ensures { OnOk result (string_bytes text.new ≡ string_bytes text.old ++ label_text name.now (decimal number)) }
{
    write!(text, ",{name}=\"{number}\"")
}

/// Adds the label of a bound in nanoseconds.
fn push_bound(text: &mut String, bound: u64) -> Result<(), AllocError>
    ensures { OnOk result (string_bytes text.new ≡ string_bytes text.old ++ label_text (codes "le") (seconds_text bound)) }
{
    text.push_str(",le=\"")?;
    push_seconds(text, bound)?;
    text.push_str("\"")
}

/// Adds the number of a sample.
fn push_value(text: &mut String, value: Value) -> Result<(), AllocError>
    ensures { OnOk result (string_bytes text.new ≡ string_bytes text.old ++ value_text value) }
{
    match value {
        Value::Whole(number) => write!(text, "{number}"),
        Value::Flag(true) => text.push_str("1"),
        Value::Flag(false) => text.push_str("0"),
        Value::Nanos(Some(number)) => push_seconds(text, number),
        Value::Signed(Some(difference)) => push_difference(text, difference),
        Value::Key(Some(key)) => write!(text, "{key}"),
        Value::Nanos(None) | Value::Signed(None) | Value::Key(None) => text.push_str("NaN"),
    }
}
