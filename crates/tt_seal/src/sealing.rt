//! Sealing and opening.

ghost use Rattle.std.specs.Prelude.{◌≡◌, ◌≢◌, ◌+◌, ◌<◌, ◌≤◌, ℕ, List, Contains, length, take, drop, IfOk, option_copied};
ghost use Rattle.std.specs.Int.{w32, from_be_bytes};
ghost use Rattle.tt_seal.specs.Sealing.{SealKey, IsKey, IsBytes, tag_of as tag_under, sealing_of, key_with as key_among, HaveOwnNumbers, opened_as, opened_of, IsOpened};
ghost use Rattle.tt_seal.specs.declared.sealing.Opened.{Opened};

use crate::faults::SealFault;
use crate::keys::Key;
use crate::secrets::is_same_secret;
use arrayvec::ArrayVec;

/// The most bytes of a message that is sealed.
pub const MAX_MESSAGE: usize = 40;

/// How many bytes an envelope has more than its message: four for the number of the key, and sixteen for the tag.
pub const EXTRA_LEN: usize = NUMBER_LEN + TAG_LEN;

/// The most bytes of an envelope.
pub const MAX_ENVELOPE: usize = 60;

/// The bytes of the number of a key.
const NUMBER_LEN: usize = 4;

/// The bytes of a tag.
const TAG_LEN: usize = 16;

/// What opens: a message of at most 40 bytes, and the number of the key under which it was sealed.
#[derive(Debug, Drop)]
pub struct Opened {
    pub number: u32,
    pub message: ArrayVec<u8, MAX_MESSAGE>,
}

/// The tag of these bytes under the key.
#[tactic(auto, unfolding(crate::specs::Sealing::tag_of))]
fn tag_of(key: &Key, part: &[u8]) -> [u8; TAG_LEN]
    ensures { result ≡ tag_under key.now.bytes part.now }
{
    let digest = key.hmac(part);
    let mut tag = [0; TAG_LEN];
    tag.copy_from_slice(&digest[..TAG_LEN]);
    tag
}

/// The sealing of a message under the key: the message, the number of the key, big endian, and the first 16 bytes of
/// HMAC-SHA256 over both. Requires: the message has at most 40 bytes.
#[tactic(auto, unfolding(crate::specs::Sealing::sealing_of))]
pub fn seal(message: &[u8], key: &Key) -> ArrayVec<u8, MAX_ENVELOPE>
    requires short { length message.now ≤ 40 }
    ensures value { result.items ≡ sealing_of message.now key.now }
{
    let mut envelope = ArrayVec::new();
    envelope.try_extend_from_slice(message).unwrap();
    envelope
        .try_extend_from_slice(&key.number().to_be_bytes())
        .unwrap();
    let tag = tag_of(key, envelope.as_slice());
    envelope.try_extend_from_slice(&tag).unwrap();
    envelope
}

/// The number in the four bytes from place `at` on, the highest byte first.
fn number_at(bytes: &[u8], at: usize) -> u32
    requires { at + 4 ≤ length bytes.now }
    ensures { result ≡ from_be_bytes w32 (take 4 (drop at bytes.now)) }
{
    let part = &bytes[at..at + NUMBER_LEN];
    u32::from_be_bytes([part[0], part[1], part[2], part[3]])
}

/// The key with this number, if there is one: the first of the list that has it.
pub fn key_with(keys: &[Key], number: u32) -> Option<&Key>
    ensures value { option_copied result ≡ key_among keys.now number }
{
    'keys: for key in keys {
        if key.number() == number {
            return Some(key);
        }
    }
    None
}

/// The message of these bytes, which are at most 40.
fn message_of(bytes: &[u8]) -> ArrayVec<u8, MAX_MESSAGE>
    requires { length bytes.now ≤ 40 }
    ensures { result.items ≡ bytes.now }
{
    let mut message = ArrayVec::new();
    message.try_extend_from_slice(bytes).unwrap();
    message
}

/// What the bytes are under these keys.
#[tactic(auto, unfolding(crate::specs::Sealing::opened_of))]
fn read(bytes: &[u8], keys: &[Key]) -> Result<Opened, SealFault>
    ensures { result ≡ opened_of bytes.now keys.now }
{
    if bytes.len() < EXTRA_LEN || bytes.len() > MAX_ENVELOPE {
        return Err(SealFault::Length);
    }
    let len = bytes.len() - EXTRA_LEN;
    let number = number_at(bytes, len);
    let Some(key) = key_with(keys, number) else {
        return Err(SealFault::UnknownKey);
    };
    let (part, tag) = bytes.split_at(len + NUMBER_LEN);
    if is_same_secret(tag, &tag_of(key, part)) {
        let message = message_of(&bytes[..len]);
        Ok(Opened { number, message })
    } else {
        Err(SealFault::WrongTag)
    }
}

/// The message of an envelope that was sealed under one of these keys, and the number of that key. Where two keys have one
/// number, the first of them counts. Refuses, in this order: 2201 `Length` where there are fewer than 20 bytes or more than
/// 60; 2202 `UnknownKey` where no key has the number; 2203 `WrongTag` where the tag is not that of the message and the
/// number under the key.
pub fn open(bytes: &[u8], keys: &[Key]) -> Result<Opened, SealFault>
    ensures exact { result ≡ opened_of bytes.now keys.now }
    // If a message opens, the bytes are its sealing under the key of the list with that number, each of them.
    ensures found { IfOk result (IsOpened bytes.now keys.now) }
    // If the bytes are the sealing of a message under a key of the list, and no two keys have one number, it opens.
    ensures taken { (message : List ℕ) (key : SealKey) → length message ≤ 40 → IsKey key → HaveOwnNumbers keys.now → Contains keys.now key →
        bytes.now ≡ sealing_of message key → result ≡ Ok (opened_as message key.number) }
{
    read(bytes, keys)
}

/// Laws of envelopes. Bytes open only as the message whose sealing they are, under the key of the list with that number.
/// A sealing under a key of the list opens, as its message and with the number of its key, if no two keys have one number.
pub fn seal_laws()
    ensures found { (bytes : List ℕ) (keys : List SealKey) (opened : Opened) → IsBytes bytes → opened_of bytes keys ≡ Ok opened → IsOpened bytes keys opened }
    ensures taken { (message : List ℕ) (keys : List SealKey) (key : SealKey) → length message ≤ 40 → IsKey key → HaveOwnNumbers keys → Contains keys key →
        opened_of (sealing_of message key) keys ≡ Ok (opened_as message key.number) }
{}
