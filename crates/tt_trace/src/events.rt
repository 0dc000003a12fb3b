//! Events as text.

ghost use Rattle.std.specs.Prelude.{◌≡◌, ◌++◌, OnOk, string_bytes};
ghost use Rattle.tt_trace.specs.Event.{event_line, event_text, forged_text};

use crate::numbers::push_phrase;
use std::alloc::{AllocError, Global};
use tt_world::{Action, Event, Payload};

/// Writes the line of an event at the end of the text: its word, its true time and its numbers, each behind one space,
/// and a line feed. Times are in nanoseconds, and forged bytes stand in hex. Refuses only if it is out of memory; then
/// the text may have a part of the line at its end.
pub fn push_event(alloc: Global, text: &mut String, event: &Event) -> Result<(), AllocError>
    ensures { OnOk result (string_bytes text.new ≡ string_bytes text.old ++ event_line event.now) }
{
    push_event_text(alloc, text, event)?;
    text.push_str("\n")
}

/// Writes an event at the end, with no line feed.
pub(crate) fn push_event_text(
    alloc: Global,
    text: &mut String,
    event: &Event,
) -> Result<(), AllocError>
    ensures { OnOk result (string_bytes text.new ≡ string_bytes text.old ++ event_text event.now) }
{
    let at = event.at;
    match &event.action {
        Action::Send {
            machine,
            source,
            clock,
        } => push_phrase(
            alloc,
            text,
            "send",
            &[at, u64::from(*machine), u64::from(*source), *clock],
        ),
        Action::Answer { packet, span } => {
            push_phrase(alloc, text, "answer", &[at, *packet, span.lo(), span.hi()])
        }
        Action::Forge {
            machine,
            source,
            payload,
        } => push_forged(
            alloc,
            text,
            &[at, u64::from(*machine), u64::from(*source)],
            payload,
        ),
        Action::Deliver { packet, clock } => {
            push_phrase(alloc, text, "deliver", &[at, *packet, *clock])
        }
        Action::Fuse { machine, clock } => {
            push_phrase(alloc, text, "fuse", &[at, u64::from(*machine), *clock])
        }
        Action::Read {
            machine,
            worker,
            clock,
            publication,
        } => push_phrase(
            alloc,
            text,
            "read",
            &[
                at,
                u64::from(*machine),
                u64::from(*worker),
                *clock,
                *publication,
            ],
        ),
        Action::Arrive {
            machine,
            worker,
            id,
            floor,
        } => push_phrase(
            alloc,
            text,
            "arrive",
            &[
                at,
                u64::from(*machine),
                u64::from(*worker),
                u64::from(id.session),
                id.number,
                *floor,
            ],
        ),
        Action::Stamp { machine, worker } => {
            push_phrase(
                alloc,
                text,
                "stamp",
                &[at, u64::from(*machine), u64::from(*worker)],
            )
        }
        Action::Queue { machine, worker } => {
            push_phrase(
                alloc,
                text,
                "queue",
                &[at, u64::from(*machine), u64::from(*worker)],
            )
        }
        Action::Restart { machine, clock } => {
            push_phrase(alloc, text, "restart", &[at, u64::from(*machine), *clock])
        }
        Action::Lease { machine, lease } => push_phrase(
            alloc,
            text,
            "lease",
            &[at, u64::from(*machine), lease.lo(), lease.hi()],
        ),
        Action::Release { machine, worker } => {
            push_phrase(
                alloc,
                text,
                "release",
                &[at, u64::from(*machine), u64::from(*worker)],
            )
        }
    }
}

/// Writes a forged packet at the end: three numbers, and its bytes in hex.
fn push_forged(
    alloc: Global,
    text: &mut String,
    numbers: &[u64; 3],
    payload: &Payload,
) -> Result<(), AllocError>
    ensures { OnOk result (string_bytes text.new ≡ string_bytes text.old ++ forged_text numbers.now payload.now) }
{
    push_phrase(alloc, text, "forge", numbers)?;
    text.push_str(" ")?;
    let bytes = hex::encode(alloc, payload.as_slice())?;
    text.push_str(bytes.as_str())
}
