//! What is written: an answer, or the one line of a refusal, and for a person what the refusal means.

ghost use Rattle.std.specs.Prelude.{◌≡◌, ℕ, true, take, OnOk, OnErr};
ghost use Rattle.std.specs.Io.KnownBytes.{Appends};
ghost use Rattle.tt_stream.specs.Counts.{HasFailed};
ghost use Rattle.ttd_words.specs.Answer.{Gives, output_of, refusal, refusal_line};

use crate::ending::Status;
use arrayvec::ArrayString;
use itoa::Buffer;
use std::fmt::Display;
use std::io::Eprint;
use tt_stream::{ByteWriter, DeviceFault, write_all};

/// Writes all bytes, and flushes them.
pub fn write<W: ByteWriter>(output: &mut W, bytes: &[u8]) -> Result<(), DeviceFault>
    ensures ok { OnOk result (Appends (W.taken output.old) (W.taken output.new) bytes.now) }
    ensures flushed { OnOk result (W.flushed output.new ≡ true) }
    ensures err { OnErr result ((n : ℕ) × Appends (W.taken output.old) (W.taken output.new) (take n bytes.now)) }
    ensures sound { OnOk result (W.failed output.new ≡ W.failed output.old) }
    ensures cause { OnErr result (HasFailed (W.failed output.old) (W.failed output.new)) }
{
    write_all(output, bytes)?;
    output.flush()
}

/// Writes a text. The program then ends with `status`, unless the writer fails.
pub fn end_with<W: ByteWriter>(output: &mut W, text: &str, status: Status) -> Status
    ensures { Gives (record { text = text.now; status = status }) (output_of W.ByteWriter output.old) (output_of W.ByteWriter output.new) result }
{
    match write(output, text.as_bytes()) {
        Ok(()) => status,
        Err(_) => Status::Device,
    }
}

/// The one line of a refusal: at most 14 bytes, since its number has at most five digits.
fn refusal_line(number: u16) -> ArrayString<16>
    ensures { result.bytes ≡ refusal_line number }
{
    let mut line = ArrayString::new();
    line.push_str("refused ");
    line.push_str(Buffer::new().format(number));
    line.push_str("\n");
    line
}

/// Writes the one line of a refusal with this number. The program then ends with `status`, unless the writer fails.
/// This takes no memory.
pub fn refuse<W: ByteWriter>(output: &mut W, number: u16, status: Status) -> Status
    ensures { Gives (refusal number status) (output_of W.ByteWriter output.old) (output_of W.ByteWriter output.new) result }
{
    let line = refusal_line(number);
    end_with(output, line.as_str(), status)
}

/// Says on standard error what a refusal with this number means, and which command says more. If that can't be written,
/// nothing more is done. This takes no memory.
pub fn explain<H: Eprint, S: Display>(rt: &H, number: u64, sentence: &S) {
    let _ = eprint!(rt; "ttd: refused {number}: {sentence} (ttd explain {number})\n");
}

/// Says on standard error that the output failed: 1605.
pub fn explain_unwritten<H: Eprint>(rt: &H) {
    explain(rt, 1605, &"writing failed");
}
