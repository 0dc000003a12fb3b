//! Keys.

ghost use Rattle.std.specs.Prelude.{◌≡◌, ◌++◌, length};
ghost use Rattle.tt_seal.specs.Hmac.{hmac_sha256 as hmac_of};
ghost use Rattle.tt_seal.specs.Sealing.{SealKey, IsKey};

use crate::hmac::{INNER_PAD, OUTER_PAD, padded};
use sha2::{Digest, Sha256};
use std::fmt;
use std::marker::Model;

/// The length of a key, in bytes.
pub const KEY_LEN: usize = 32;

/// A key of 32 bytes with its number, ready for use: both padded blocks of HMAC-SHA256 are hashed already. `Debug` shows
/// only the number.
#[derive(Drop)]
pub struct Key {
    number: u32,
    bytes: [u8; KEY_LEN],
    inner: Sha256,
    outer: Sha256,
}

impl Model for Key {
    ghost use Rattle.std.specs.Prelude.{List, ℕ};
    ghost use Rattle.sha2.specs.Hashers.{Holds256};
    ghost use Rattle.tt_seal.specs.Hmac.{inner_pad, outer_pad};
    ghost use Rattle.tt_seal.specs.Sealing.{SealKey, IsKey};

    ghost Value = { SealKey };

    ghost view = { λ key. record { number = key.number; bytes = key.bytes } };

    ghost invariant = { λ key. IsKey (record { number = key.number; bytes = key.bytes }) × Holds256 key.inner (inner_pad key.bytes) × Holds256 key.outer (outer_pad key.bytes) };
}

impl Key {
    /// The key with this number and these bytes.
    pub fn new(number: u32, bytes: [u8; KEY_LEN]) -> Key
        ensures value { result ≡ record { number = number; bytes = bytes } }
    {
        let mut inner = Sha256::new();
        inner.update(padded(&bytes, INNER_PAD));
        let mut outer = Sha256::new();
        outer.update(padded(&bytes, OUTER_PAD));
        Key {
            number,
            bytes,
            inner,
            outer,
        }
    }

    /// The same key once more.
    pub fn copy(&self) -> Key
        ensures value { result ≡ self.now }
    {
        Key::new(self.number, self.bytes)
    }

    /// The number of the key.
    pub fn number(&self) -> u32
        ensures value { result ≡ self.now.number }
        ensures valid { IsKey self.now }
    {
        self.number
    }

    /// HMAC-SHA256 of the text under this key.
    pub(crate) fn hmac(&self, text: &[u8]) -> [u8; 32]
        ensures { result ≡ hmac_of self.now.bytes text.now }
    {
        let mut inner = self.inner.clone().unwrap();
        inner.update(text);
        let mut outer = self.outer.clone().unwrap();
        outer.update(inner.finalize());
        outer.finalize()
    }
}

impl fmt::Debug for Key {
    fn fmt<W: fmt::Write>(&self, f: &mut fmt::Formatter<W>) -> fmt::Result {
        write!(f, "Key({})", self.number)
    }
}
