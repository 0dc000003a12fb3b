//! Replies as text.

ghost use Rattle.std.specs.Prelude.{◌≡◌, ◌++◌, OnOk, codes, string_bytes};
ghost use Rattle.std.specs.List.{flat_map};
ghost use Rattle.tt_trace.specs.Reply.{receipt_text, reply_text};

use crate::numbers::{push_numbers, push_phrase};
use std::alloc::{AllocError, Global};
use tt_stamp::Receipt;
use tt_world::Reply;

/// Writes a reply at the end: its name and its numbers, with no line feed.
pub(crate) fn push_reply(alloc: Global, text: &mut String, reply: &Reply) -> Result<(), AllocError>
    ensures { OnOk result (string_bytes text.new ≡ string_bytes text.old ++ reply_text reply.now) }
{
    match reply {
        Reply::Sent(packet) => push_phrase(alloc, text, "Sent", &[*packet]),
        Reply::Put(packet) => push_phrase(alloc, text, "Put", &[*packet]),
        Reply::Taken => text.push_str("Taken"),
        Reply::Published(number, span) => {
            push_phrase(alloc, text, "Published", &[*number, span.lo(), span.hi()])
        }
        Reply::Read(reading) => {
            push_phrase(alloc, text, "Read", &[reading.earliest(), reading.latest()])
        }
        Reply::Arrived => text.push_str("Arrived"),
        Reply::Stamped(stamp) => push_phrase(alloc, text, "Stamped", &[*stamp]),
        Reply::Queued => text.push_str("Queued"),
        Reply::Restarted(life) => push_phrase(alloc, text, "Restarted", &[*life]),
        Reply::Leased => text.push_str("Leased"),
        Reply::Released(receipts) => push_released(alloc, text, receipts.as_slice()),
        Reply::Refused(number) => push_phrase(alloc, text, "Refused", &[u64::from(*number)]),
    }
}

/// Writes the reply to a release at the end: its name, and what each receipt says.
fn push_released(alloc: Global, text: &mut String, receipts: &[Receipt]) -> Result<(), AllocError>
    ensures { OnOk result (string_bytes text.new ≡ string_bytes text.old ++ (codes "Released" ++ flat_map receipt_text receipts.now)) }
{
    text.push_str("Released")?;
    for receipt in receipts {
        push_receipt(alloc, text, receipt)?;
    }
    Ok(())
}

/// Writes what a receipt says at the end: session, number, stamp and earliest, each behind one space.
fn push_receipt(alloc: Global, text: &mut String, receipt: &Receipt) -> Result<(), AllocError>
    ensures { OnOk result (string_bytes text.new ≡ string_bytes text.old ++ receipt_text receipt.now) }
{
    let numbers = [
        u64::from(receipt.id.session),
        receipt.id.number,
        receipt.stamp,
        receipt.earliest,
    ];
    push_numbers(alloc, text, &numbers)
}
