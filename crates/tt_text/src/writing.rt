//! Lines to text.

ghost use Rattle.std.specs.Prelude.{◌≡◌, ◌+◌, ◌*◌, ◌<◌, ◌≤◌, ◌++◌, length, OnOk, string_bytes};
ghost use Rattle.tt_text.specs.Line.{line_of};

use arrayvec::ArrayVec;
use itoa::Buffer;
use std::alloc::AllocError;

/// Writes the line of a word and numbers at the end of the text: the word, the numbers, each behind one space, and a
/// line feed. Refuses only if it is out of memory; then the text may have a part of the line at its end.
pub fn push_line(text: &mut String, word: &str, numbers: &[u64]) -> Result<(), AllocError>
    ensures written { OnOk result (string_bytes text.new ≡ string_bytes text.old ++ line_of word.now numbers.now) }
{
    text.push_str(word)?;
    for number in numbers {
        write!(text, " {number}")?;
    }
    text.push_str("\n")
}

/// Writes the line of a word and numbers at the end of these bytes: the word, the numbers, each behind one space, and a
/// line feed.
///
/// A number and its space have at most 21 bytes. Requires: the bytes, the word and 21 bytes for each number are fewer
/// than the `N` bytes of room. It takes no memory.
pub fn put_line<const N: usize>(bytes: &mut ArrayVec<u8, N>, word: &str, numbers: &[u64])
    requires room { length bytes.old.items + length word.now + 21 * length numbers.now < N }
    ensures written { bytes.new.items ≡ bytes.old.items ++ line_of word.now numbers.now }
{
    put(bytes, word.as_bytes());
    for number in numbers {
        bytes.push(b' ');
        put(bytes, Buffer::new().format(*number).as_bytes());
    }
    bytes.push(b'\n');
}

/// Puts these bytes behind those that are there.
fn put<const N: usize>(bytes: &mut ArrayVec<u8, N>, more: &[u8])
    requires { length bytes.old.items + length more.now ≤ N }
    ensures { bytes.new.items ≡ bytes.old.items ++ more.now }
{
    if bytes.try_extend_from_slice(more).is_err() {
        unreachable!()
    }
}
