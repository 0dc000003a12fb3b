//! chrony's file of keys.

ghost use Rattle.std.specs.Prelude.{◌≡◌, ◌≤◌, ◌++◌, ◌∷◌, length, MatchOption};
ghost use Rattle.std.specs.Fmt.{decimal};
ghost use Rattle.std.specs.List.{prefix_len};
ghost use Rattle.std.specs.Str.{bytes_eq};
ghost use Rattle.tt_upstream.specs.KeyFile.{key_fault_number, is_blank as is_blank_byte, is_mark as is_mark_byte, trimmed as trimmed_of, word_of as word_in, behind as behind_of, hash_named as hash_named_by, key_made, key_of_digits as digits_key, key_of_word as word_key, key_behind as key_in_rest, key_if_asked, key_among as key_among_lines, lines_of, HasNoFeed};

use itoa::Buffer;
use thiserror::Error;
use tt_ntp::{KeyHash, MAX_KEY_LEN, PacketKey};

/// Why a text gives no key. No fault has a part of the text, which is secret.
#[derive(Clone, Copy, Debug, PartialEq, Eq, Error)]
pub enum NtpKeyFault {
    #[error("no line has the number of the key")]
    NoKey,
    #[error("the line of the key has not three words")]
    BadLine,
    #[error("the type of the key is neither SHA1 nor SHA256")]
    OtherType,
    #[error("the number of the key is 0, or it has no bytes, or more than 64, or bad digits")]
    BadKey,
}

impl NtpKeyFault {
    /// The fault's number: 2411 `NoKey`, 2412 `BadLine`, 2413 `OtherType`, 2414 `BadKey`.
    pub fn number(&self) -> u16
        ensures { result ≡ key_fault_number self.now }
    {
        match self {
            NtpKeyFault::NoKey => 2411,
            NtpKeyFault::BadLine => 2412,
            NtpKeyFault::OtherType => 2413,
            NtpKeyFault::BadKey => 2414,
        }
    }
}

/// Whether a byte is a blank.
fn is_blank(byte: u8) -> bool
    ensures { result ≡ is_blank_byte byte }
{
    byte == b' ' || byte == b'\t' || byte == b'\r'
}

/// How many blanks stand at the front.
fn blanks(line: &[u8]) -> usize
    ensures value { result ≡ prefix_len is_blank_byte line.now }
    ensures bound { result ≤ length line.now }
{
    'bytes: for i in 0..line.len() {
        if !is_blank(line[i]) {
            return i;
        }
    }
    line.len()
}

/// How many other bytes stand at the front.
fn marks(line: &[u8]) -> usize
    ensures value { result ≡ prefix_len is_mark_byte line.now }
    ensures bound { result ≤ length line.now }
{
    'bytes: for i in 0..line.len() {
        if is_blank(line[i]) {
            return i;
        }
    }
    line.len()
}

/// A line without the blanks at its front.
fn trimmed(line: &[u8]) -> &[u8]
    ensures { result.now ≡ trimmed_of line.now }
{
    let (_, rest) = line.split_at(blanks(line));
    rest
}

/// The first word of a line, and what stands behind it.
fn parts(line: &[u8]) -> (&[u8], &[u8])
    ensures word { result.0.now ≡ word_in line.now }
    ensures rest { result.1.now ≡ behind_of line.now }
{
    let line = trimmed(line);
    line.split_at(marks(line))
}

/// The hash that a type names.
fn hash_named(name: &[u8]) -> Option<KeyHash>
    ensures { result ≡ hash_named_by name.now }
{
    if name == b"SHA1".as_slice() || name == b"sha1".as_slice() {
        return Some(KeyHash::Sha1);
    }
    if name == b"SHA256".as_slice() || name == b"sha256".as_slice() {
        return Some(KeyHash::Sha256);
    }
    None
}

/// A key of these bytes.
fn key_of(number: u32, hash: KeyHash, bytes: &[u8]) -> Result<PacketKey, NtpKeyFault>
    ensures { result ≡ key_made number hash bytes.now }
{
    match PacketKey::new(number, hash, bytes) {
        Some(key) => Ok(key),
        None => Err(NtpKeyFault::BadKey),
    }
}

/// A key in hexadecimal digits.
fn key_of_digits(number: u32, hash: KeyHash, digits: &[u8]) -> Result<PacketKey, NtpKeyFault>
    ensures { result ≡ digits_key number hash digits.now }
{
    let half = digits.len() / 2;
    if half > MAX_KEY_LEN {
        return Err(NtpKeyFault::BadKey);
    }
    let mut bytes = [0; MAX_KEY_LEN];
    let (front, _) = bytes.split_at_mut(half);
    let Ok(()) = hex::decode_to_slice(digits, front) else {
        return Err(NtpKeyFault::BadKey);
    };
    key_of(number, hash, front)
}

/// A key as a word.
fn key_of_word(number: u32, hash: KeyHash, word: &[u8]) -> Result<PacketKey, NtpKeyFault>
    ensures { result ≡ word_key number hash word.now }
{
    if let Some(digits) = word.strip_prefix(b"HEX:".as_slice()) {
        return key_of_digits(number, hash, digits);
    }
    if let Some(text) = word.strip_prefix(b"ASCII:".as_slice()) {
        return key_of(number, hash, text);
    }
    key_of(number, hash, word)
}

/// The key in what stands behind its number.
fn key_behind(number: u32, rest: &[u8]) -> Result<PacketKey, NtpKeyFault>
    ensures { result ≡ key_in_rest number rest.now }
{
    let (name, rest) = parts(rest);
    if trimmed(rest).is_empty() {
        return Err(NtpKeyFault::BadLine);
    }
    let (word, rest) = parts(rest);
    if !trimmed(rest).is_empty() {
        return Err(NtpKeyFault::BadLine);
    }
    match hash_named(name) {
        Some(hash) => key_of_word(number, hash, word),
        None => Err(NtpKeyFault::OtherType),
    }
}

/// The bytes before the first line feed, and those behind it. None where there is none.
fn cut(text: &[u8]) -> Option<(&[u8], &[u8])>
    ensures { MatchOption result (HasNoFeed text.now) (λ parts. HasNoFeed parts.0.now × (text.now ≡ parts.0.now ++ 10 ∷ parts.1.now)) }
{
    'bytes: for i in 0..text.len() {
        if text[i] == b'\n' {
            return Some((&text[..i], &text[i + 1..]));
        }
    }
    None
}

/// The key of a line, if its first word is the number.
fn key_at(line: &[u8], number: u32, numeral: &[u8]) -> Option<Result<PacketKey, NtpKeyFault>>
    requires { numeral.now ≡ decimal number }
    ensures { result ≡ key_if_asked number line.now }
{
    let (word, rest) = parts(line);
    if word == numeral {
        Some(key_behind(number, rest))
    } else {
        None
    }
}

/// The key with this number in a text as chrony's file of keys: on each line stand, with blanks between them, the number of a
/// key in decimal digits without leading zeros, its type, and the key. A key is hexadecimal digits behind `HEX:`, a text
/// behind `ASCII:`, or a text alone. The first line whose first word is the number counts; what the others hold does not.
///
/// Refuses with 2411 `NoKey` where there is no such line, 2412 `BadLine` where it has not three words, 2413 `OtherType` where
/// the type is neither `SHA1` nor `SHA256`, in upper or in lower case, and 2414 `BadKey` where the digits are none, the key has
/// no bytes or more than 64, or its number is 0.
pub fn packet_key_of(text: &[u8], number: u32) -> Result<PacketKey, NtpKeyFault>
    ensures exact { result ≡ key_among_lines number (lines_of text.now) }
{
    let mut buffer = Buffer::new();
    let numeral = buffer.format(number).as_bytes();
    let mut rest = text;
    'lines: while let Some((line, more)) = cut(rest) {
        if let Some(key) = key_at(line, number, numeral) {
            return key;
        }
        rest = more;
    }
    match key_at(rest, number, numeral) {
        Some(key) => key,
        None => Err(NtpKeyFault::NoKey),
    }
}
