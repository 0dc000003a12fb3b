//! A machine's end of the wire.

ghost use Rattle.std.specs.Prelude.{◌≡◌, ◌<◌, ◌≤◌, ◌^◌, length, map, option_map};
ghost use Rattle.tt_wire.specs.Wire.{Wiring, IsWiring, open_wire, keys_in, outgoing_of, incoming_of};

use crate::nonces::{MAX_PACKET, moved, moved_back, packet_of};
use crate::rings::{Ring, keys_of};
use arrayvec::ArrayVec;
use std::alloc::Global;
use std::marker::Model;
use tt_seal::{MAX_MESSAGE, SealFault, open, seal};

/// What came from a peer: a message of the daemon, at most 64 bytes, and the number of the key under which it was sealed,
/// `None` where the peer has no keys.
#[derive(Debug, Drop)]
pub struct Incoming {
    pub number: Option<u32>,
    pub message: ArrayVec<u8, MAX_PACKET>,
}

/// A machine's end of the wire: the keys that it shares with each of its peers, and how far the nonces on the wire are
/// ahead of those of the daemon, less than 2^63.
#[derive(Drop)]
pub struct Wire {
    rings: Vec<Ring>,
    ahead: u64,
}

impl Model for Wire {
    ghost use Rattle.std.specs.Prelude.{map};
    ghost use Rattle.tt_wire.specs.Wire.{Wiring, IsWiring, keys_in};

    ghost Value = { Wiring };

    ghost view = { λ w. record { rings = map keys_in w.rings.items; ahead = w.ahead } };

    ghost invariant = { λ w. IsWiring (record { rings = map keys_in w.rings.items; ahead = w.ahead }) };
}

impl Wire {
    /// An end where no peer is sealed, and where nonces stay.
    pub fn open(alloc: Global) -> Wire
        ensures value { result ≡ open_wire }
    {
        Wire {
            rings: Vec::new(alloc),
            ahead: 0,
        }
    }

    /// The end with these keys, those of peer `i` in ring `i`, where nonces are moved by `ahead`. A peer without a ring,
    /// or with an empty one, is not sealed. Requires: `ahead` is below 2^63.
    pub fn new(rings: Vec<Ring>, ahead: u64) -> Wire
        requires below { ahead < 2 ^ 63 }
        ensures value { result ≡ record { rings = map keys_in rings.items; ahead = ahead } }
    {
        Wire { rings, ahead }
    }

    /// What is sent to the peer for a message of the daemon: the message with its nonce moved, sealed under the first key
    /// of the peer if it has one. `None` where it would not fit: a message of more than 40 bytes to a peer with keys, or
    /// of more than 64 to another one.
    #[tactic(auto, unfolding(crate::specs::Wire::outgoing_of))]
    pub fn outgoing(&self, peer: u8, message: &[u8]) -> Option<ArrayVec<u8, MAX_PACKET>>
        ensures value { option_map (λ v. v.items) result ≡ outgoing_of self.now peer message.now }
        ensures valid { IsWiring self.now }
    {
        let ahead = self.ahead;
        if message.len() > MAX_PACKET {
            return None;
        }
        let bytes = moved(message, ahead);
        let Some(first) = keys_of(&self.rings, peer).first() else {
            return Some(bytes);
        };
        if bytes.len() > MAX_MESSAGE {
            return None;
        }
        Some(packet_of(&seal(&bytes, first)))
    }

    /// What bytes from the peer are: if it has keys, the message of an envelope under one of them, and the number of that
    /// key; otherwise the bytes. The nonce is moved back. Requires: there are at most 64 bytes. Refuses, for a peer with
    /// keys, in this order: 2201 `Length` where the length is not that of an envelope; 2202 `UnknownKey` where the peer
    /// has no key with its number; 2203 `WrongTag` where the tag is not the one under that key.
    #[tactic(auto, unfolding(crate::specs::Wire::incoming_of))]
    pub fn incoming(&self, peer: u8, bytes: &[u8]) -> Result<Incoming, SealFault>
        requires short { length bytes.now ≤ 64 }
        ensures value { result ≡ incoming_of self.now peer bytes.now }
        ensures valid { IsWiring self.now }
    {
        let keys = keys_of(&self.rings, peer);
        if keys.is_empty() {
            let message = moved_back(bytes, self.ahead);
            return Ok(Incoming {
                number: None,
                message,
            });
        }
        let opened = open(bytes, keys)?;
        let message = moved_back(&opened.message, self.ahead);
        Ok(Incoming {
            number: Some(opened.number),
            message,
        })
    }
}
