//! Reading a whole input, and writing a whole answer.

ghost use Rattle.std.specs.Prelude.{◌≡◌, ◌≢◌, ◌<◌, ◌≤◌, ◌+◌, ◌-◌, ◌++◌, ℕ, List, length, vec_len, true, false, IfOk, OnOk, OnErr, IfSome, IsErrOf};
ghost use Rattle.std.specs.Io.KnownBytes.{Appends, Consumes, IsAtEnd};
ghost use Rattle.tt_stream.specs.Counts.{HasFailed, CountsOn, count_after};
ghost use Rattle.tt_stream.specs.DeviceBytes.{ReadsOn, WritesFront};

use crate::device::{ByteReader, ByteWriter};
use crate::fault::{DeviceFault, ReadFault};
use std::alloc::Global;

/// How many bytes one read asks for at most.
const PIECE: usize = 4096;

/// Reads an input to its end by at most `reads` reads, and answers its bytes. At most `most` bytes are allowed. The
/// read that says that the input has ended counts too.
///
/// Refuses with
/// - `Failed`: a read failed. It was the last read.
/// - `TooLong`: more than `most` bytes came. The rest is not read.
/// - `UsedUp`: none of `reads` reads said that the input has ended. This cannot happen if `reads` is above `most`,
///   since a read that does not say so gives at least one byte.
/// - `Memory`: an allocation for the bytes that came failed.
///
/// After a refusal the reader has given a first part of its bytes. This part is lost.
pub fn read_to_end<R: ByteReader>(
    alloc: Global,
    reader: &mut R,
    most: usize,
    reads: u32,
) -> Result<Vec<u8>, ReadFault>
    // The answer is all bytes that were still to come, and no more than are allowed.
    ensures whole { IfOk result (λ bytes. IfSome (R.left reader.old) (λ all. bytes.items ≡ all)) }
    ensures end { OnOk result (IsAtEnd (R.left reader.new)) }
    ensures short { IfOk result (λ bytes. vec_len bytes ≤ most) }

    // When each refusal comes.
    ensures failed { IsErrOf result ReadFault.Failed → HasFailed (R.failed reader.old) (R.failed reader.new) }
    ensures too_long { IsErrOf result ReadFault.TooLong → IfSome (R.left reader.old) (λ all. most < length all) }
    ensures used_up { IsErrOf result ReadFault.UsedUp → CountsOn reads (R.asked reader.old) (R.asked reader.new) }
    ensures enough { IsErrOf result ReadFault.UsedUp → reads ≤ most }
    ensures each { IsErrOf result ReadFault.UsedUp → IfSome (R.left reader.old) (λ all. reads ≤ length all) }
    ensures memory { IsErrOf result ReadFault.Memory → IfSome (R.left reader.old) (λ all. 0 < length all) }

    // What holds in any case.
    ensures sound { (result ≢ Err ReadFault.Failed) → R.failed reader.new ≡ R.failed reader.old }
    ensures rest { ReadsOn (R.left reader.old) (R.left reader.new) }
    ensures turns { (k : ℕ) × (k ≤ reads) × CountsOn k (R.asked reader.old) (R.asked reader.new) }
{
    let mut buffer = [0; PIECE];
    let mut whole = Vec::new(alloc);
    for _ in 0..reads {
        if !read_piece(reader, &mut buffer, &mut whole, most)? {
            return Ok(whole);
        }
    }
    Err(ReadFault::UsedUp)
}

// Makes one read, and appends its bytes to the bytes that came before. Answers whether the input goes on.
fn read_piece<R: ByteReader>(
    reader: &mut R,
    buffer: &mut [u8],
    whole: &mut Vec<u8>,
    most: usize,
) -> Result<bool, ReadFault>
    requires room { 0 < length buffer.old }
    requires short { vec_len whole.old ≤ most }
    ensures short { OnOk result (vec_len whole.new ≤ most) }
    ensures bytes { OnOk result ((piece : List ℕ) × (whole.new.items ≡ whole.old.items ++ piece)
        × Consumes (R.left reader.old) (R.left reader.new) piece) }
    ensures more { IfOk result (λ more. more ≡ true → vec_len whole.old < vec_len whole.new) }
    ensures end { IfOk result (λ more. more ≡ false → IsAtEnd (R.left reader.new)) }
    ensures failed { IsErrOf result ReadFault.Failed → HasFailed (R.failed reader.old) (R.failed reader.new) }
    ensures too_long { IsErrOf result ReadFault.TooLong → (piece : List ℕ) × (most < vec_len whole.old + length piece)
        × Consumes (R.left reader.old) (R.left reader.new) piece }
    ensures memory { IsErrOf result ReadFault.Memory → (piece : List ℕ) × (0 < length piece)
        × Consumes (R.left reader.old) (R.left reader.new) piece }
    ensures not_used_up { result ≢ Err ReadFault.UsedUp }
    ensures sound { (result ≢ Err ReadFault.Failed) → R.failed reader.new ≡ R.failed reader.old }
    ensures rest { ReadsOn (R.left reader.old) (R.left reader.new) }
    ensures asked { R.asked reader.new ≡ count_after (R.asked reader.old) 1 }
{
    let n = reader.read(buffer)?;
    if most - whole.len() < n {
        return Err(ReadFault::TooLong);
    }
    whole.extend_from_slice(&buffer[..n])?;
    Ok(n > 0)
}

/// Writes all bytes, by as many writes as the writer needs. If the writer fails, it has taken a first part of the
/// bytes, and not all of them. What the writer holds back is not sent: `flush` does that.
pub fn write_all<W: ByteWriter>(writer: &mut W, bytes: &[u8]) -> Result<(), DeviceFault>
    ensures ok { OnOk result (Appends (W.taken writer.old) (W.taken writer.new) bytes.now) }
    ensures err { OnErr result (WritesFront (W.taken writer.old) (W.taken writer.new) bytes.now) }
    ensures sound { OnOk result (W.failed writer.new ≡ W.failed writer.old) }
    ensures cause { OnErr result (HasFailed (W.failed writer.old) (W.failed writer.new)) }
{
    let mut rest = bytes;
    while !rest.is_empty() {
        let n = writer.write(rest)?;
        rest = rest.split_at(n).1;
    }
    Ok(())
}
