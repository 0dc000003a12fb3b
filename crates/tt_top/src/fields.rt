//! Numbers in the texts of a status and of evidence.

ghost use Rattle.std.specs.Prelude.{◌≡◌, IfOk};
ghost use Rattle.std.specs.Option.{option_map};
ghost use Rattle.tt_top.specs.Field.{behind_first, front, again, nth_behind, number_behind, span_front, words_of, value_of};

use std::alloc::{AllocError, Global};
use tt_span::Span;

/// The greatest number to which another digit may be added.
const MOST: u64 = 1_844_674_407_370_955_160;

/// What stands behind the words in the first line of the text that begins with them. `fresh` says whether a line begins at
/// the beginning of the text.
pub(crate) fn behind<'a>(words: &[u8], fresh: bool, text: &'a [u8]) -> Option<&'a [u8]>
    ensures { option_map (λ rest. rest.now) result ≡ behind_first words.now fresh text.now }
{
    let mut rest = text;
    let mut begins = fresh;
    while let Some((first, more)) = rest.split_first() {
        if begins && rest.starts_with(words) {
            return Some(&rest[words.len()..]);
        }
        begins = *first == b'\n';
        rest = more;
    }
    None
}

/// The number in front of the first such byte, and what stands behind that byte. Points between digits do not count. None
/// if anything else stands there, or the number is above 2^64 - 7.
pub(crate) fn number_front(text: &[u8], stop: u8) -> Option<(u64, &[u8])>
    ensures { option_map (λ read. (read.0, read.1.now)) result ≡ front stop 0 text.now }
{
    let mut rest = text;
    let mut number: u64 = 0;
    while let Some((first, more)) = rest.split_first() {
        if *first == stop {
            return Some((number, more));
        }
        if *first != b'.' {
            if !first.is_ascii_digit() || number > MOST {
                return None;
            }
            number = 10 * number + u64::from(*first - b'0');
        }
        rest = more;
    }
    None
}

/// The number behind the words in the first line that begins with them, in front of the first such byte.
pub(crate) fn number_at(text: &[u8], words: &[u8], stop: u8) -> Option<u64>
    ensures { result ≡ number_behind words.now stop text.now }
{
    let rest = behind(words, true, text)?;
    let (number, _) = number_front(rest, stop)?;
    Some(number)
}

/// The span of two numbers with a blank between them, in front of a line feed. None if they are not one.
pub(crate) fn span_at(text: &[u8]) -> Option<Span>
    ensures { result ≡ span_front text.now }
{
    let (lo, rest) = number_front(text, b' ')?;
    let (hi, _) = number_front(rest, b'\n')?;
    Span::new(lo, hi).ok()
}

/// What stands behind the words in the next line that begins with them.
fn next<'a>(words: &[u8], rest: Option<&'a [u8]>) -> Option<&'a [u8]>
    ensures { option_map (λ found. found.now) result ≡ again words.now (option_map (λ from. from.now) rest.entry) }
{
    match rest {
        Some(rest) => behind(words, false, rest),
        None => None,
    }
}

/// What stands behind the words in the line with this number, from 0 on, of those that begin with them.
pub(crate) fn nth<'a>(words: &[u8], number: u64, text: &'a [u8]) -> Option<&'a [u8]>
    ensures { option_map (λ rest. rest.now) result ≡ nth_behind words.now number text.now }
{
    let mut rest = behind(words, true, text);
    for _line in 0..number {
        rest = next(words, rest);
    }
    rest
}

/// The value of a machine's metric with these labels behind the machine's: a whole number, or one with nine digits behind
/// the point in billionths. None where it is none.
pub(crate) fn value(
    alloc: Global,
    status: &[u8],
    machine: u64,
    name: &str,
    labels: &str,
) -> Result<Option<u64>, AllocError>
    ensures { IfOk result (λ value. value ≡ value_of status.now machine name.now labels.now) }
{
    let words = format!(in alloc; "{name}{{machine=\"{machine}\"{labels}}} ")?;
    Ok(number_at(status, words.as_str().as_bytes(), b'\n'))
}
