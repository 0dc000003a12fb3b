//! One session from its first byte to its end.

ghost use Rattle.std.specs.Prelude.{◌≡◌, ◌≢◌, ℕ, ◌+◌, ◌<◌, ◌≤◌, ◌^◌, ◌⊎◌, List, [], ◌∷◌, length, Err, OnOk, OnErr, IfOk, IsErrOf};
ghost use Rattle.std.specs.Io.KnownBytes.{IsAtEnd};
ghost use Rattle.tt_stream.specs.Counts.{HasFailed, CountsOn};
ghost use Rattle.tt_session.specs.Lines.{Splits, lines_of, rest_of};
ghost use Rattle.tt_session.specs.Session.{Serves, Breaks, StaysFlushed, BreaksFlushed};
ghost use Rattle.tt_session.specs.Talks.{TalksOn, BreaksIn};
ghost use Rattle.tt_session.specs.declared.serving.Served.{Served};

use crate::faults::ServeFault;
use crate::services::Service;
use crate::talks::Talk;
use tt_stream::{ByteReader, ByteWriter, DeviceFault, write_all};

/// How many bytes one read asks for at most.
const PIECE: usize = 512;

/// How long a session may go on.
#[derive(Clone, Copy, Debug, PartialEq, Eq)]
pub struct Turns {
    /// The most reads. The read that says that the input has ended counts too.
    pub reads: u32,
    /// The most release steps for one line.
    pub waits: u32,
}

/// What a session did.
#[derive(Clone, Copy, Debug, PartialEq, Eq)]
pub struct Served {
    /// The lines that were answered.
    pub lines: u64,
    /// Those of these lines that were answered `refused`.
    pub refused: u64,
}

/// Serves one session: reads lines to the end of the input, and answers each by one reply, in order.
///
/// A line has at most 64 bytes before its line feed; a longer one is answered `refused 1102`. Bytes after the last line
/// feed are not answered. A reply is one call of the writer, or more if the writer takes only a part. It is flushed
/// before further bytes are read. `serve` takes no memory, and waits only if the reader, the writer or the service
/// does.
///
/// Refuses with
/// - 1105 `ReadFailed`: a read failed, or none of `turns.reads` reads said that the input has ended. The replies to the
///   whole lines that were read are written.
/// - 1106 `WriteFailed`: a write or a flush failed. All replies but the last are written, and a first part of the last
///   one; the service was not called after it.
///
/// After a refusal the session is over.
pub fn serve<R: ByteReader, W: ByteWriter, S: Service>(
    reader: &mut R,
    writer: &mut W,
    service: &mut S,
    turns: Turns,
) -> Result<Served, ServeFault>
    // What was read and written is a session over one conversation with the service.
    ensures served { IfOk result (λ served. Serves S.allows turns.waits (R.left reader.old) (R.left reader.new)
        (W.taken writer.old) (W.taken writer.new) service.old service.new served) }
    ensures end { OnOk result (IsAtEnd (R.left reader.new)) }
    ensures read_failed { IsErrOf result ServeFault.ReadFailed → (served : Served) × Serves S.allows turns.waits
        (R.left reader.old) (R.left reader.new) (W.taken writer.old) (W.taken writer.new) service.old service.new served }
    ensures write_failed { IsErrOf result ServeFault.WriteFailed → Breaks S.allows turns.waits (R.left reader.old)
        (R.left reader.new) (W.taken writer.old) (W.taken writer.new) service.old service.new }

    // Each reply was flushed before the next line was answered; what was flushed stays a front of what was written.
    ensures flushed { (result ≢ Err ServeFault.WriteFailed) → StaysFlushed W.flushed writer.old writer.new }
    ensures flushed_before { IsErrOf result ServeFault.WriteFailed → BreaksFlushed S.allows turns.waits (R.left reader.old)
        (R.left reader.new) W.taken W.flushed service.old service.new writer.old writer.new }

    // Each fault has its cause.
    ensures why_read { IsErrOf result ServeFault.ReadFailed → HasFailed (R.failed reader.old) (R.failed reader.new)
        ⊎ ((R.failed reader.new ≡ R.failed reader.old) × CountsOn turns.reads (R.asked reader.old) (R.asked reader.new)) }
    ensures why_write { IsErrOf result ServeFault.WriteFailed → HasFailed (W.failed writer.old) (W.failed writer.new) }
    ensures sound_read { (result ≢ Err ServeFault.ReadFailed) → R.failed reader.new ≡ R.failed reader.old }
    ensures sound_write { (result ≢ Err ServeFault.WriteFailed) → W.failed writer.new ≡ W.failed writer.old }
    ensures turns { (k : ℕ) × (k ≤ turns.reads) × CountsOn k (R.asked reader.old) (R.asked reader.new) }
{
    let mut buffer = [0; PIECE];
    let mut talk = Talk::new();
    for _ in 0..turns.reads {
        let Ok(n) = reader.read(&mut buffer) else {
            return Err(ServeFault::ReadFailed);
        };
        if n == 0 {
            return Ok(talk.served());
        }
        let Ok(()) = hear(&buffer[..n], writer, service, turns.waits, &mut talk) else {
            return Err(ServeFault::WriteFailed);
        };
    }
    Err(ServeFault::ReadFailed)
}

/// Takes further bytes, and answers each line that ends in them. Each reply is written before the next line is answered.
fn hear<W: ByteWriter, S: Service>(
    bytes: &[u8],
    writer: &mut W,
    service: &mut S,
    waits: u32,
    talk: &mut Talk,
) -> Result<(), DeviceFault>
    requires room { talk.old.served.lines + length bytes.now < 2 ^ 64 }
    ensures more { talk.new.served.lines ≤ talk.old.served.lines + length bytes.now }
    ensures ok { OnOk result (TalksOn S.allows waits (W.taken writer.old) service.old talk.old bytes.now
        (W.taken writer.new) service.new talk.new) }
    ensures err { OnErr result (BreaksIn S.allows waits W.taken W.flushed writer.old service.old talk.old bytes.now
        writer.new service.new) }
    ensures flushed { OnOk result (StaysFlushed W.flushed writer.old writer.new) }
    ensures sound { OnOk result (W.failed writer.new ≡ W.failed writer.old) }
    ensures cause { OnErr result (HasFailed (W.failed writer.old) (W.failed writer.new)) }
{
    for byte in bytes {
        take(*byte, writer, service, waits, talk)?;
    }
    Ok(())
}

/// Takes one byte: keeps it, or answers the line if the byte is the line feed.
fn take<W: ByteWriter, S: Service>(
    byte: u8,
    writer: &mut W,
    service: &mut S,
    waits: u32,
    talk: &mut Talk,
) -> Result<(), DeviceFault>
    requires room { talk.old.served.lines + 1 < 2 ^ 64 }
    ensures more { talk.new.served.lines ≤ talk.old.served.lines + 1 }
    ensures ok { OnOk result (TalksOn S.allows waits (W.taken writer.old) service.old talk.old (byte ∷ [])
        (W.taken writer.new) service.new talk.new) }
    ensures err { OnErr result (BreaksIn S.allows waits W.taken W.flushed writer.old service.old talk.old (byte ∷ [])
        writer.new service.new) }
    ensures flushed { OnOk result (StaysFlushed W.flushed writer.old writer.new) }
    ensures sound { OnOk result (W.failed writer.new ≡ W.failed writer.old) }
    ensures cause { OnErr result (HasFailed (W.failed writer.old) (W.failed writer.new)) }
{
    if byte != b'\n' {
        talk.keep(byte);
        return Ok(());
    }
    let judged = talk.end_line(service, waits);
    let text = judged.reply.text();
    write_all(writer, text.as_slice())?;
    writer.flush()
}

/// A law of lines: there is one way to split bytes into lines and a rest, and `lines_of` and `rest_of` compute it.
pub fn line_laws()
    ensures is { (bytes : List ℕ) → Splits bytes (lines_of bytes) (rest_of bytes) }
    ensures only { (bytes : List ℕ) (lines : List (List ℕ)) (rest : List ℕ) → Splits bytes lines rest →
        (lines ≡ lines_of bytes) × (rest ≡ rest_of bytes) }
{}
