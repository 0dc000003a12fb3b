//! A master's end of the wire, which answers under the key of the request.

ghost use Rattle.std.specs.Prelude.{◌≡◌, None, IfOk, option_map};
ghost use Rattle.tt_seal.specs.Sealing.{opened_of, IsOpened};
ghost use Rattle.tt_wire.specs.Wire.{Asking, asked_after, answer_of};

use arrayvec::ArrayVec;
use std::marker::Model;
use tt_seal::{Key, MAX_ENVELOPE, MAX_MESSAGE, Opened, SealFault, key_with, open, seal};

/// A master's end of the wire: the keys of those that may ask, and the number of the key of the last request that opened.
/// An answer is sealed under this key, so it opens at the host that asked.
#[derive(Drop)]
pub struct Requests {
    keys: Vec<Key>,
    asked: Option<u32>,
}

impl Model for Requests {
    ghost use Rattle.tt_wire.specs.Wire.{Asking};

    ghost Value = { Asking };

    ghost view = { λ r. record { keys = r.keys.items; asked = r.asked } };
}

impl Requests {
    /// The end with these keys, at which nothing was asked so far.
    pub fn new(keys: Vec<Key>) -> Requests
        ensures value { result ≡ record { keys = keys.items; asked = None } }
    {
        Requests { keys, asked: None }
    }

    /// The number of the key of the last request that opened, if one did.
    pub fn asked(&self) -> Option<u32>
        ensures value { result ≡ self.now.asked }
    {
        self.asked
    }

    /// Takes other keys. What was asked stays.
    pub fn set_keys(&mut self, keys: Vec<Key>)
        ensures after { self.new ≡ record self.old { keys = keys.items } }
    {
        self.keys = keys;
    }

    /// The message of a request that was sealed under one of the keys, and the number of that key, which is kept. Refuses,
    /// in this order, as [`open`]: 2201 `Length`, 2202 `UnknownKey`, 2203 `WrongTag`; then what was asked stays.
    pub fn take(&mut self, bytes: &[u8]) -> Result<Opened, SealFault>
        ensures value { result ≡ opened_of bytes.now self.old.keys }
        ensures after { self.new ≡ record self.old { asked = asked_after result self.old.asked } }
        ensures found { IfOk result (IsOpened bytes.now self.old.keys) }
    {
        let opened = open(bytes, &self.keys)?;
        self.asked = Some(opened.number);
        Ok(opened)
    }

    /// What is sent for an answer to the last request that opened: its sealing under the key of that request. `None` where
    /// no request opened so far, the key is gone, or the message has more than 40 bytes.
    #[tactic(auto, unfolding(crate::specs::Wire::answer_of))]
    pub fn answer(&self, message: &[u8]) -> Option<ArrayVec<u8, MAX_ENVELOPE>>
        ensures value { option_map (λ v. v.items) result ≡ answer_of self.now message.now }
    {
        let number = self.asked?;
        let key = key_with(&self.keys, number)?;
        if message.len() > MAX_MESSAGE {
            return None;
        }
        Some(seal(message, key))
    }
}
