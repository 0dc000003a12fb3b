//! The thread of a client.

ghost use Rattle.std.specs.Prelude.{◌≡◌, ◌++◌, [], ◌∷◌, IfOk, IfErr};
ghost use Rattle.tt_live.specs.Fault.{IsSocketFault};

use crate::exchanges::exchange;
use crate::replies::{Meaning, may_answer, meaning_of};
use std::alloc::{AllocError, Global};
use std::thread;
use std::time::{Clock as SystemClock, Duration};
use tt_rounds::NodeFault;
use tt_script::Line;
use tt_stream::{ByteReader, ByteWriter, DeviceFault};

/// How often a client sends one line at most.
pub const MAX_ASKS: u32 = 10_000;

/// How long a client waits before it sends a line again, in milliseconds.
const PAUSE: u64 = 1;

/// The bytes of a line: its text, and a line feed.
fn message_of(alloc: Global, line: &str) -> Result<Vec<u8>, AllocError>
    ensures { IfOk result (λ message. message.items ≡ line.now ++ 10 ∷ []) }
{
    let mut message = Vec::new(alloc);
    message.extend_from_slice(line.as_bytes())?;
    message.push(b'\n')?;
    Ok(message)
}

/// Sends a line and reads its reply. As long as the reply says that nothing is published, it sends the line again, at
/// most [`MAX_ASKS`] times in all. If no session gives this reply to this line, that is a failure.
fn ask<R: SystemClock, I: ByteReader, O: ByteWriter>(
    rt: &R,
    reader: &mut I,
    writer: &mut O,
    message: &[u8],
) -> Result<(), DeviceFault> {
    for _ in 0..MAX_ASKS {
        let Ok(reply) = exchange(reader, writer, message) else {
            return Err(DeviceFault);
        };
        if !may_answer(message, &reply) {
            return Err(DeviceFault);
        }
        if meaning_of(message, &reply) != Meaning::NothingYet {
            return Ok(());
        }
        thread::sleep(rt, Duration::from_millis(PAUSE));
    }
    Ok(())
}

/// Sends the lines of a session one after the other, each after the reply to the line before it. As long as the reply
/// to a line is `refused 801`, the line is sent again, at most [`MAX_ASKS`] times in all. A text with line feeds has
/// several lines, which the line feeds separate.
///
/// Refuses with 1 `Memory`, and with 1501 `LinkFailed` if the connection failed, if it ended before a reply, or if the
/// reply to a line is one that no session gives to it, for instance the reply to another line.
pub(crate) fn talk<R: SystemClock, I: ByteReader, O: ByteWriter>(
    rt: &R,
    alloc: Global,
    reader: &mut I,
    writer: &mut O,
    lines: &[Line],
) -> Result<(), NodeFault>
    ensures fault { IfErr result IsSocketFault }
{
    for text in lines {
        for line in text.as_str().split('\n') {
            let Ok(message) = message_of(alloc, line) else {
                return Err(NodeFault::Memory);
            };
            if ask(rt, reader, writer, &message).is_err() {
                return Err(NodeFault::LinkFailed);
            }
        }
    }
    Ok(())
}
