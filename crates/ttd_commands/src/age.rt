//! The command `age`: ages the answer to a poll.

ghost use Rattle.std.specs.Prelude.{◌≡◌, ◌≢◌, Err, string_bytes};
ghost use Rattle.hex.specs.Hex.{decode_of};
ghost use Rattle.ttd_words.specs.Reading.{IsUnlessMemory};
ghost use Rattle.tt_live.specs.declared.faults.LiveFault.{LiveFault};
ghost use Rattle.ttd_commands.specs.Age.{age_of, aged_hex, aged_of, answer_span_of as answered_of, without_line_feed as without_line_feed_of};
ghost use Rattle.ttd_commands.specs.Command.{HasReply};

use crate::faults::Fault;
use hex::FromHexError;
use std::alloc::Global;
use tt_poll::{Format, Message, Message2, decode, decode2};
use tt_source::{SourceFault, Statement};
use tt_span::{Drift, Span};

/// The options of `age`.
#[derive(Clone, Copy)]
pub(crate) struct Ageing {
    /// The drift of the clock.
    pub(crate) drift: Drift,
    /// The clock when the poll was sent, in nanoseconds.
    pub(crate) sent: u64,
    /// The clock when the answer came, in nanoseconds.
    pub(crate) got: u64,
    /// The clock now, in nanoseconds.
    pub(crate) clock: u64,
}

/// A text without the line feed at its end, if there is one.
fn without_line_feed(text: &[u8]) -> &[u8]
    ensures { result.now ≡ without_line_feed_of text.now }
{
    if text.ends_with(b"\n") {
        text.split_at(text.len() - 1).0
    } else {
        text
    }
}

/// The span of the answer in these bytes, read in the format of the bytes. Bytes that are not a message are refused
/// with the number of the decoder, and a request with 405.
fn answer_span_of(bytes: &[u8]) -> Result<Span, Fault>
    ensures value { result ≡ answered_of bytes.now }
    ensures no_device { result ≢ Err Fault.ReadFailed }
    ensures no_run { (live : LiveFault) → result ≢ Err (Fault.Live live) }
{
    match Format::of(bytes) {
        Format::Ttp1 => match decode(bytes).map_err(Fault::Poll)? {
            Message::Answer(answer) => Ok(answer.span()),
            Message::Request(_) => Err(Fault::Source(SourceFault::NotMine)),
        },
        Format::Ttp2 => match decode2(bytes).map_err(Fault::Poll)? {
            Message2::Answer(answer) => Ok(answer.span()),
            Message2::Request(_) => Err(Fault::Source(SourceFault::NotMine)),
        },
    }
}

/// The aged span of an answer. Clock readings that are out of order are refused with 402.
fn aged(ageing: &Ageing, span: Span) -> Result<Span, Fault>
    ensures value { result ≡ aged_of ageing.now span }
    ensures no_device { result ≢ Err Fault.ReadFailed }
    ensures no_run { (live : LiveFault) → result ≢ Err (Fault.Live live) }
{
    let statement = match Statement::new(span, ageing.sent, ageing.got) {
        Ok(statement) => statement,
        Err(fault) => return Err(Fault::Source(fault)),
    };
    match statement.aged(ageing.drift, ageing.clock) {
        Ok(aged) => Ok(aged),
        Err(fault) => Err(Fault::Source(fault)),
    }
}

/// The aged span of the message in this hex text.
fn aged_from_hex(alloc: Global, ageing: &Ageing, text: &[u8]) -> Result<Span, Fault>
    ensures value { IsUnlessMemory Fault.Memory (aged_hex ageing.now (decode_of text.now)) result }
    ensures no_device { result ≢ Err Fault.ReadFailed }
    ensures no_run { (live : LiveFault) → result ≢ Err (Fault.Live live) }
{
    let bytes = match hex::decode(alloc, text) {
        Ok(bytes) => bytes,
        Err(FromHexError::OutOfMemory) => return Err(Fault::Memory),
        Err(_) => return Err(Fault::BadHex),
    };
    let span = answer_span_of(bytes.as_slice())?;
    aged(ageing, span)
}

/// The answer of `age` to its input: one poll answer of either format in hex, in upper or lower case, with one line
/// feed allowed after it.
///
/// Refuses, in this order: 1602 `BadHex` where the input is not hex; the number of the decoder where it is not a valid
/// poll message; 405 where it is a request; 402 where clock readings are out of order or past the greatest time; and
/// 1 `Memory`.
pub(crate) fn age_text(alloc: Global, ageing: &Ageing, input: &[u8]) -> Result<String, Fault>
    ensures value { HasReply string_bytes (λ reply. reply ≡ age_of ageing.now input.now) result }
    ensures no_device { result ≢ Err Fault.ReadFailed }
    ensures no_run { (live : LiveFault) → result ≢ Err (Fault.Live live) }
{
    let span = aged_from_hex(alloc, ageing, without_line_feed(input))?;
    let low = span.lo();
    let high = span.hi();
    format!(in alloc; "aged {low} {high}\n").map_err(|_| Fault::Memory)
}
