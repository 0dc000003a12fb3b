//! Replies that are handed over together.

ghost use Rattle.std.specs.Prelude.{◌≡◌, ℕ, ◌+◌, ◌<◌, ◌≤◌, ◌^◌, length, take, IfOk, OnOk, OnErr};
ghost use Rattle.std.specs.Io.KnownBytes.{Appends};
ghost use Rattle.tt_stream.specs.Counts.{HasFailed};
ghost use Rattle.tt_session.specs.Session.{StaysFlushed};
ghost use Rattle.tt_connections.specs.Together.{IsPartOfLine, StepsWritten, StepsCut};

use tt_session::{Replies, Service, Talk};
use tt_stream::{ByteWriter, DeviceFault, write_all};

/// One step of a session over these bytes, whose replies are handed over. Answers how many of the bytes it took: one at
/// least. Nothing of what `replies` has counts: it is room.
pub(crate) fn go_on<W: ByteWriter, S: Service>(
    bytes: &[u8],
    writer: &mut W,
    service: &mut S,
    waits: u32,
    talk: &mut Talk,
    replies: &mut Replies,
) -> Result<usize, DeviceFault>
    requires some { 0 < length bytes.now }
    requires part { IsPartOfLine talk.old.line }
    requires room { talk.old.served.lines + length bytes.now < 2 ^ 64 }
    ensures part { IsPartOfLine talk.new.line }
    ensures some { IfOk result (λ taken. 0 < taken) }
    ensures taken { IfOk result (λ taken. taken ≤ length bytes.now) }
    ensures few { IfOk result (λ taken. talk.new.served.lines ≤ talk.old.served.lines + taken) }
    ensures more { talk.new.served.lines ≤ talk.old.served.lines + length bytes.now }
    ensures ok { IfOk result (λ taken. StepsWritten S.allows waits (W.taken writer.old) service.old talk.old (take taken bytes.now)
        (W.taken writer.new) service.new talk.new) }
    ensures err { OnErr result (StepsCut S.allows waits (W.taken writer.old) service.old talk.old bytes.now
        (W.taken writer.new) service.new talk.new) }
    ensures flushed { OnOk result (StaysFlushed W.flushed writer.old writer.new) }
    ensures sound { OnOk result (W.failed writer.new ≡ W.failed writer.old) }
    ensures cause { OnErr result (HasFailed (W.failed writer.old) (W.failed writer.new)) }
{
    replies.clear();
    let step = talk.step(bytes, service, waits, replies);
    hand_over(writer, replies)?;
    Ok(step.taken)
}

/// Writes these bytes and flushes the writer, if there are any.
fn hand_over<W: ByteWriter>(writer: &mut W, bytes: &[u8]) -> Result<(), DeviceFault>
    ensures ok { OnOk result (Appends (W.taken writer.old) (W.taken writer.new) bytes.now) }
    ensures err { OnErr result ((n : ℕ) × Appends (W.taken writer.old) (W.taken writer.new) (take n bytes.now)) }
    ensures some { OnErr result (0 < length bytes.now) }
    ensures flushed { OnOk result (StaysFlushed W.flushed writer.old writer.new) }
    ensures sound { OnOk result (W.failed writer.new ≡ W.failed writer.old) }
    ensures cause { OnErr result (HasFailed (W.failed writer.old) (W.failed writer.new)) }
{
    if bytes.is_empty() {
        return Ok(());
    }
    write_all(writer, bytes)?;
    writer.flush()
}
