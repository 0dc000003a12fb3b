//! One line to a machine, and its reply.

ghost use Rattle.std.specs.Prelude.{◌≡◌, ◌≢◌, ◌∷◌, [], length, IfOk, IfSome, OnOk, Err, IsErrOf};
ghost use Rattle.std.specs.Io.KnownBytes.{Appends, Consumes, IsAtEnd};
ghost use Rattle.tt_stream.specs.Counts.{HasFailed};
ghost use Rattle.tt_live.specs.Exchange.{IsCutOff, IsReply, IsTooLong};

use arrayvec::ArrayVec;
use thiserror::Error;
use tt_stream::{ByteReader, ByteWriter, write_all};

/// The most bytes of a reply, with its line feed.
pub const MAX_REPLY: usize = 128;

/// A reply, with its line feed.
pub type Reply = ArrayVec<u8, MAX_REPLY>;

/// Why a line has no reply. A fault has no number of its own: the caller answers 1501.
#[derive(Clone, Copy, Debug, PartialEq, Eq, Error)]
pub enum ExchangeFault {
    /// The line could not be sent: the connection failed.
    #[error("the connection failed before the line was sent")]
    Unsent,
    /// The connection failed before a whole reply.
    #[error("the connection failed before a whole reply")]
    Failed,
    /// The connection was closed before a whole reply.
    #[error("the connection was closed before a whole reply")]
    Closed,
    /// More than [`MAX_REPLY`] bytes came without a line feed.
    #[error("the reply has more than 128 bytes")]
    TooLong,
}

/// The next byte. Refuses with `Closed` where no byte is left, and with `Failed`.
fn next_byte<I: ByteReader>(reader: &mut I) -> Result<u8, ExchangeFault>
    ensures byte { IfOk result (λ byte. Consumes (I.left reader.old) (I.left reader.new) (byte ∷ [])) }
    ensures closed { IsErrOf result ExchangeFault.Closed → IsAtEnd (I.left reader.old) }
    ensures failed { IsErrOf result ExchangeFault.Failed → HasFailed (I.failed reader.old) (I.failed reader.new) }
    ensures not_unsent { result ≢ Err ExchangeFault.Unsent }
    ensures not_too_long { result ≢ Err ExchangeFault.TooLong }
    ensures sound { OnOk result (I.failed reader.new ≡ I.failed reader.old) }
{
    let mut bytes = [0];
    match reader.read(&mut bytes) {
        Ok(0) => Err(ExchangeFault::Closed),
        Ok(_) => Ok(bytes[0]),
        Err(_) => Err(ExchangeFault::Failed),
    }
}

/// Takes a reply: the bytes up to the first line feed, and it. It reads no byte behind the reply, and one behind the
/// first [`MAX_REPLY`] bytes.
fn take_reply<I: ByteReader>(reader: &mut I) -> Result<Reply, ExchangeFault>
    ensures whole { IfOk result (λ reply. IsReply reply.items) }
    ensures taken { IfOk result (λ reply. Consumes (I.left reader.old) (I.left reader.new) reply.items) }
    ensures closed { IsErrOf result ExchangeFault.Closed → IfSome (I.left reader.old) IsCutOff }
    ensures too_long { IsErrOf result ExchangeFault.TooLong → IfSome (I.left reader.old) IsTooLong }
    ensures failed { IsErrOf result ExchangeFault.Failed → HasFailed (I.failed reader.old) (I.failed reader.new) }
    ensures not_unsent { result ≢ Err ExchangeFault.Unsent }
{
    let mut reply = Reply::new();
    for _ in 0..MAX_REPLY {
        let byte = match next_byte(reader) {
            Ok(byte) => byte,
            Err(fault) => return Err(fault),
        };
        reply.push(byte);
        if byte == b'\n' {
            return Ok(reply);
        }
    }
    match next_byte(reader) {
        Ok(_) => Err(ExchangeFault::TooLong),
        Err(fault) => Err(fault),
    }
}

/// Sends a line, and takes its reply, both with their line feeds: the bytes up to the first line feed. It reads no byte
/// behind the reply. How long it waits is up to the reader and the writer.
///
/// Refuses with `Unsent` where the writer failed; then with `Failed` where the reader failed, with `Closed` where at most
/// [`MAX_REPLY`] bytes were left, without a line feed, and with `TooLong` where the first [`MAX_REPLY`] bytes have no line
/// feed, and another byte came.
pub fn exchange<I: ByteReader, O: ByteWriter>(
    reader: &mut I,
    writer: &mut O,
    line: &[u8],
) -> Result<Reply, ExchangeFault>
    ensures sent { OnOk result (Appends (O.taken writer.old) (O.taken writer.new) line.now) }
    ensures whole { IfOk result (λ reply. IsReply reply.items) }
    ensures taken { IfOk result (λ reply. Consumes (I.left reader.old) (I.left reader.new) reply.items) }
    ensures closed { IsErrOf result ExchangeFault.Closed → IfSome (I.left reader.old) IsCutOff }
    ensures too_long { IsErrOf result ExchangeFault.TooLong → IfSome (I.left reader.old) IsTooLong }
    ensures failed { IsErrOf result ExchangeFault.Failed → HasFailed (I.failed reader.old) (I.failed reader.new) }
    ensures unsent { IsErrOf result ExchangeFault.Unsent → HasFailed (O.failed writer.old) (O.failed writer.new) }
{
    let Ok(()) = write_all(writer, line) else {
        return Err(ExchangeFault::Unsent);
    };
    let Ok(()) = writer.flush() else {
        return Err(ExchangeFault::Unsent);
    };
    take_reply(reader)
}
