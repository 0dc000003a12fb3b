//! Whole traces.

ghost use Rattle.std.specs.Prelude.{◌≡◌, ◌++◌, IfOk, OnOk, string_bytes};
ghost use Rattle.tt_trace.specs.Trace.{trace_line, trace_text_of, verdict_text};

use crate::events::push_event_text;
use crate::replies::push_reply;
use std::alloc::{AllocError, Global};
use tt_world::{Event, Reply};

/// The text of a run's trace: a line for each event that has a reply, in their order. A line has the number of the
/// event, counted from 0, the event, ` -> `, and the name and the numbers of the reply. Times are in nanoseconds.
/// `Released` has the receipts, least stamp first, each with the session and the number of its commit, its stamp, and
/// the earliest of the reading that released it. ` wrong` stands behind a reading that does not hold the true time of
/// its event.
///
/// Events beyond the last reply have no line, nor have replies beyond the last event. Refuses only if it is out of
/// memory.
pub fn trace_text(alloc: Global, events: &[Event], replies: &[Reply]) -> Result<String, AllocError>
    ensures value { IfOk result (λ text. string_bytes text ≡ trace_text_of events.now replies.now) }
{
    let mut text = String::new(alloc);
    for (number, event) in events.iter().enumerate() {
        if let Some(reply) = replies.get(number) {
            push_trace_line(alloc, &mut text, number as u64, event, reply)?;
        }
    }
    Ok(text)
}

/// Writes the line of an event with this number and this reply at the end.
fn push_trace_line(
    alloc: Global,
    text: &mut String,
    number: u64,
    event: &Event,
    reply: &Reply,
) -> Result<(), AllocError>
    ensures { OnOk result (string_bytes text.new ≡ string_bytes text.old ++ trace_line number event.now reply.now) }
{
    let digits = number.to_string(alloc)?;
    text.push_str(digits.as_str())?;
    text.push_str(" ")?;
    push_event_text(alloc, text, event)?;
    text.push_str(" -> ")?;
    push_reply(alloc, text, reply)?;
    text.push_str(verdict_of(event.at, reply))?;
    text.push_str("\n")
}

/// What stands behind the reply to an event at this true time, in nanoseconds: ` wrong` if it is a reading that does
/// not hold this time, otherwise nothing.
fn verdict_of(at: u64, reply: &Reply) -> &str
    ensures { result.now ≡ verdict_text at reply.now }
{
    match reply {
        Reply::Read(reading) => {
            if reading.earliest() <= at && at <= reading.latest() {
                ""
            } else {
                " wrong"
            }
        }
        _ => "",
    }
}
