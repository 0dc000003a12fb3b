//! Lines from a device.

ghost use Rattle.std.specs.Prelude.{◌≡◌, OnOk, OnErr};
ghost use Rattle.tt_stream.specs.Counts.{HasFailed};

use arrayvec::ArrayVec;
use tt_stream::{ByteReader, DeviceFault};

/// The most bytes of a line that are kept, with its line feed. Every line that a machine answers is shorter, and so is
/// every reply.
pub(crate) const MAX_LINE: usize = 256;

/// A line, with its line feed.
pub(crate) type Line = ArrayVec<u8, MAX_LINE>;

/// The next line, with its line feed if it has one: the last line of an input may have none. None at the end of the
/// input. If a line is longer than [`MAX_LINE`] bytes, only its front is kept, with the line feed.
pub(crate) fn read_line<R: ByteReader>(reader: &mut R) -> Result<Option<Line>, DeviceFault>
    ensures sound { OnOk result (R.failed reader.new ≡ R.failed reader.old) }
    ensures cause { OnErr result (HasFailed (R.failed reader.old) (R.failed reader.new)) }
{
    let mut line = Line::new();
    for _ in 0..u64::MAX {
        let mut byte = [0];
        if reader.read(&mut byte)? == 0 {
            break;
        }
        if keep(&mut line, byte[0]) {
            return Ok(Some(line));
        }
    }
    if line.is_empty() {
        return Ok(None);
    }
    Ok(Some(line))
}

/// Keeps a byte of a line, if it is its line feed or if there is room for it and a line feed behind it. Answers whether
/// it is the line feed.
pub(crate) fn keep(line: &mut Line, byte: u8) -> bool {
    if byte == b'\n' {
        end(line);
        return true;
    }
    if line.len() + 1 < MAX_LINE {
        line.push(byte);
    }
    false
}

/// Ends a line with a line feed, if it has none.
pub(crate) fn end(line: &mut Line) {
    if line.last() != Some(&b'\n') && !line.is_full() {
        line.push(b'\n');
    }
}
