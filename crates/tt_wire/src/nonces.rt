//! Nonces on the wire.

ghost use Rattle.std.specs.Prelude.{◌≡◌, ◌<◌, ◌≤◌, length};
ghost use Rattle.tt_poll.specs.Spelling.{spelling_of2};
ghost use Rattle.tt_wire.specs.Moving.{moved_nonce as nonce_moved, back_nonce as nonce_back, nonce_of as nonce_in, with_nonce, moved as bytes_moved, moved_back as bytes_back};

use arrayvec::ArrayVec;
use tt_poll::{Answer2, Message2, Request2, decode2, encode_answer2, encode_request2};

/// The most bytes of a packet.
pub const MAX_PACKET: usize = 64;

/// A packet of these bytes.
pub(crate) fn packet_of(bytes: &[u8]) -> ArrayVec<u8, MAX_PACKET>
    requires { length bytes.now ≤ 64 }
    ensures { result.items ≡ bytes.now }
{
    let mut packet = ArrayVec::new();
    packet.try_extend_from_slice(bytes).unwrap();
    packet
}

/// The nonce on the wire.
fn moved_nonce(nonce: u64, ahead: u64) -> u64
    requires { 0 < nonce }
    ensures value { result ≡ nonce_moved ahead nonce }
    ensures in_range { 0 < result }
{
    match nonce.checked_add(ahead) {
        Some(moved) => moved,
        None => nonce - (u64::MAX - ahead),
    }
}

/// The nonce of the daemon.
fn back_nonce(nonce: u64, ahead: u64) -> u64
    requires { 0 < nonce }
    ensures value { result ≡ nonce_back ahead nonce }
    ensures in_range { 0 < result }
{
    if nonce > ahead {
        nonce - ahead
    } else {
        nonce + (u64::MAX - ahead)
    }
}

/// The nonce of a message, which is not 0.
fn nonce_of(message: &Message2) -> u64
    ensures value { result ≡ nonce_in message.now }
    ensures in_range { 0 < result }
{
    match message {
        Message2::Request(request) => request.nonce(),
        Message2::Answer(answer) => answer.nonce(),
    }
}

/// The spelling of the message with another nonce.
fn spelled_with(message: &Message2, nonce: u64) -> ArrayVec<u8, MAX_PACKET>
    requires { 0 < nonce }
    ensures { result.items ≡ spelling_of2 (with_nonce message.now nonce) }
{
    match message {
        Message2::Request(r) => {
            let other = Request2::new(r.machine(), r.source(), nonce, r.epoch()).unwrap();
            packet_of(&encode_request2(&other))
        }
        Message2::Answer(a) => {
            let other = Answer2::new(a.machine(), a.source(), nonce, a.epoch(), a.span()).unwrap();
            packet_of(&encode_answer2(&other))
        }
    }
}

/// The bytes on the wire, for those of the daemon.
#[tactic(auto, unfolding(crate::specs::Moving::moved))]
pub(crate) fn moved(bytes: &[u8], ahead: u64) -> ArrayVec<u8, MAX_PACKET>
    requires { length bytes.now ≤ 64 }
    ensures { result.items ≡ bytes_moved ahead bytes.now }
{
    match decode2(bytes) {
        Ok(message) => spelled_with(&message, moved_nonce(nonce_of(&message), ahead)),
        Err(_) => packet_of(bytes),
    }
}

/// The bytes of the daemon, for those on the wire.
#[tactic(auto, unfolding(crate::specs::Moving::moved_back))]
pub(crate) fn moved_back(bytes: &[u8], ahead: u64) -> ArrayVec<u8, MAX_PACKET>
    requires { length bytes.now ≤ 64 }
    ensures { result.items ≡ bytes_back ahead bytes.now }
{
    match decode2(bytes) {
        Ok(message) => spelled_with(&message, back_nonce(nonce_of(&message), ahead)),
        Err(_) => packet_of(bytes),
    }
}
