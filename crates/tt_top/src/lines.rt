//! The first lines of a text.

ghost use Rattle.std.specs.Prelude.{◌≡◌, ◌≤◌, length};
ghost use Rattle.tt_top.specs.Line.{lines_length};

/// How many bytes the first lines of a text have, so many of them, with the ends of all but the last one. It is all of the
/// text if it has fewer.
pub fn lines_of(bytes: &[u8], lines: u64) -> usize
    ensures value { result ≡ lines_length lines bytes.now }
    ensures within { result ≤ length bytes.now }
{
    let mut rest = bytes;
    let mut left = lines;
    while let Some((first, more)) = rest.split_first() {
        if *first == b'\n' {
            if left <= 1 {
                break;
            }
            left -= 1;
        }
        rest = more;
    }
    bytes.len() - rest.len()
}
