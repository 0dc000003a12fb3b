//! The line of a key.

ghost use Rattle.std.specs.Prelude.{◌≡◌, ◌↔◌, ◌<◌, ◌^◌, ℕ, List, ◌∷◌, ◌++◌, length, IsTrue, MatchOption};
ghost use Rattle.std.specs.Fmt.{decimal};
ghost use Rattle.hex.specs.Hex.{encode_lower};
ghost use Rattle.tt_seal.specs.Sealing.{SealKey, IsBytes};
ghost use Rattle.tt_keys.specs.Line.{line_of as line_with, is_name as is_name_of, IsName, IsEnding, IsKeyLine, IsNoKeyLine, IsSkipped, Lacks};

use arrayvec::ArrayVec;
use itoa::Buffer;
use tt_files::number_of;
use tt_seal::{KEY_LEN, Key};

/// The most bytes of a key's line without a name.
pub const MAX_LINE: usize = 75;

/// The hexadecimal digits of a key.
const DIGITS: usize = 64;

/// The bytes before the first place of this byte, and those behind it. None where it is nowhere.
pub(crate) fn cut(bytes: &[u8], byte: u8) -> Option<(&[u8], &[u8])>
    ensures { MatchOption result (Lacks byte bytes.now) (λ parts. Lacks byte parts.0.now × (bytes.now ≡ parts.0.now ++ byte ∷ parts.1.now)) }
{
    'bytes: for i in 0..bytes.len() {
        if bytes[i] == byte {
            return Some((&bytes[..i], &bytes[i + 1..]));
        }
    }
    None
}

/// The number of a key that these bytes spell in decimal digits, as it is written.
fn key_number(digits: &[u8]) -> Option<u32>
    ensures { MatchOption result ((n : ℕ) → n < 2 ^ 32 → digits.now ≡ decimal n → ⊥) (λ n. (n < 2 ^ 32) × (digits.now ≡ decimal n)) }
{
    let Some(number) = number_of(digits) else {
        return None;
    };
    let Ok(number) = u32::try_from(number) else {
        return None;
    };
    Some(number)
}

/// The bytes of a key in hexadecimal digits, in lower case.
fn digits_of(bytes: &[u8; KEY_LEN]) -> [u8; DIGITS]
    ensures value { result ≡ encode_lower bytes.now }
    ensures whole { length bytes.now ≡ 32 }
    ensures bytes { IsBytes bytes.now }
{
    let mut digits = [0; DIGITS];
    let _fits = hex::encode_to_slice(bytes, &mut digits);
    digits
}

/// The bytes that these are the hexadecimal digits of, in lower case.
fn bytes_of(digits: &[u8]) -> Option<[u8; KEY_LEN]>
    ensures { MatchOption result ((bytes : List ℕ) → length bytes ≡ 32 → IsBytes bytes → digits.now ≡ encode_lower bytes → ⊥) (λ bytes. (length bytes ≡ 32) × IsBytes bytes × (digits.now ≡ encode_lower bytes)) }
{
    let mut bytes = [0; KEY_LEN];
    let Ok(()) = hex::decode_to_slice(digits, &mut bytes) else {
        return None;
    };
    if digits == digits_of(&bytes).as_slice() {
        Some(bytes)
    } else {
        None
    }
}

/// Whether this is a name: not empty, and each byte a printable character of ASCII that is no blank.
pub fn is_name(name: &[u8]) -> bool
    ensures named { IsTrue result ↔ IsName name.now }
    ensures value { result ≡ is_name_of name.now }
{
    'bytes: for i in 0..name.len() {
        if name[i] <= b' ' || 127 <= name[i] {
            return false;
        }
    }
    !name.is_empty()
}

/// Whether this may follow the digits of a key: nothing, or a blank and a name.
fn is_ending(ending: &[u8]) -> bool
    ensures { IsTrue result ↔ IsEnding ending.now }
{
    match ending {
        [] => true,
        [first, name @ ..] => {
            if *first != b' ' {
                return false;
            }
            is_name(name)
        }
    }
}

/// Whether a line is skipped: an empty one, or one that begins with `#`.
pub(crate) fn is_skipped(line: &[u8]) -> bool
    ensures { IsTrue result ↔ IsSkipped line.now }
{
    match line {
        [] => true,
        [first, ..] => *first == b'#',
    }
}

/// The key with this line: its number, 0 to 2^32 - 1 in decimal digits without leading zeros, a blank, its 32 bytes as 64
/// hexadecimal digits in lower case, and then nothing, or a blank and a name of printable characters of ASCII without
/// blanks. The line is given without its line feed. None for any other bytes.
pub fn key_of_line(line: &[u8]) -> Option<Key>
    ensures read { MatchOption result (IsNoKeyLine line.now) (IsKeyLine line.now) }
{
    let Some((numeral, rest)) = cut(line, b' ') else {
        return None;
    };
    let Some(number) = key_number(numeral) else {
        return None;
    };
    if rest.len() < DIGITS {
        return None;
    }
    let (digits, ending) = rest.split_at(DIGITS);
    if !is_ending(ending) {
        return None;
    }
    let Some(bytes) = bytes_of(digits) else {
        return None;
    };
    Some(Key::new(number, bytes))
}

/// The line of the key with this number and these bytes, without a name and without a line feed. [`key_of_line`] reads it
/// as this key.
pub fn line_of(number: u32, bytes: &[u8; KEY_LEN]) -> ArrayVec<u8, MAX_LINE>
    ensures value { result.items ≡ line_with (record { number = number; bytes = bytes.now }) }
    ensures reads_back { IsKeyLine result.items (record { number = number; bytes = bytes.now }) }
{
    let mut buffer = Buffer::new();
    let mut line = ArrayVec::new();
    line.try_extend_from_slice(buffer.format(number).as_bytes())
        .unwrap();
    line.push(b' ');
    line.try_extend_from_slice(&digits_of(bytes)).unwrap();
    line
}
