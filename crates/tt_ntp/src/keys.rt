//! Symmetric keys.

ghost use Rattle.std.specs.Prelude.{◌≡◌, ◌+◌, ◌<◌, ◌≤◌, ◌^◌, ◌↔◌, ◌++◌, length, take, IsSome, IfSome};
ghost use Rattle.sha1.specs.Sha1.{sha1 as sha1_of};
ghost use Rattle.sha2.specs.Sha256.{sha256 as sha256_of};
ghost use Rattle.tt_ntp.specs.Keyed.{IsPacketKey, digest_of};

use arrayvec::ArrayVec;
use sha1::Sha1;
use sha2::{Digest, Sha256};
use std::fmt;
use std::marker::Model;

/// The most bytes of a key.
pub const MAX_KEY_LEN: usize = 64;

/// The bytes of a digest.
pub(crate) const DIGEST_LEN: usize = 20;

/// The hash of a key.
#[derive(Clone, Copy, Debug, PartialEq, Eq)]
pub enum KeyHash {
    /// SHA-1.
    Sha1,
    /// SHA-256, of which the first 20 bytes count.
    Sha256,
}

/// A symmetric key: its number, the hash that it is for, and its bytes. `Debug` shows only the number.
#[derive(Drop)]
pub struct PacketKey {
    number: u32,
    hash: KeyHash,
    bytes: ArrayVec<u8, MAX_KEY_LEN>,
}

impl Model for PacketKey {
    ghost use Rattle.tt_ntp.specs.Keyed.{PacketKey as KeyValue, IsPacketKey};

    ghost Value = { KeyValue };

    ghost view = { λ key. record { number = key.number; hash = key.hash; bytes = key.bytes.items } };

    ghost invariant = { λ key. IsPacketKey (record { number = key.number; hash = key.hash; bytes = key.bytes.items }) };
}

/// SHA-1 of the key and the packet behind it.
fn sha1_digest(key: &[u8], packet: &[u8]) -> [u8; DIGEST_LEN]
    ensures { result ≡ sha1_of (key.now ++ packet.now) }
{
    let mut hasher = Sha1::new();
    hasher.update(key);
    hasher.update(packet);
    hasher.finalize()
}

/// The first 20 bytes of SHA-256 of the key and the packet behind it.
fn sha256_digest(key: &[u8], packet: &[u8]) -> [u8; DIGEST_LEN]
    ensures { result ≡ take 20 (sha256_of (key.now ++ packet.now)) }
{
    let mut hasher = Sha256::new();
    hasher.update(key);
    hasher.update(packet);
    let whole = hasher.finalize();
    let mut digest = [0; DIGEST_LEN];
    digest.copy_from_slice(&whole[..DIGEST_LEN]);
    digest
}

impl PacketKey {
    /// The key with this number, for this hash, with these bytes. None where the number is 0, which is no key's, or where there
    /// are no bytes or more than 64.
    pub fn new(number: u32, hash: KeyHash, bytes: &[u8]) -> Option<PacketKey>
        ensures taken { IsSome result ↔ ((1 ≤ number) × (1 ≤ length bytes.now) × (length bytes.now ≤ 64)) }
        ensures value { IfSome result (λ key. key ≡ record { number = number; hash = hash; bytes = bytes.now }) }
    {
        if number == 0 || bytes.is_empty() || bytes.len() > MAX_KEY_LEN {
            return None;
        }
        let mut kept = ArrayVec::new();
        kept.try_extend_from_slice(bytes).unwrap();
        Some(PacketKey {
            number,
            hash,
            bytes: kept,
        })
    }

    /// The number of the key, not 0.
    pub fn number(&self) -> u32
        ensures value { result ≡ self.now.number }
        ensures valid { IsPacketKey self.now }
    {
        self.number
    }

    /// The digest of a packet under this key.
    #[tactic(auto, unfolding(crate::specs::Keyed::digest_of))]
    pub(crate) fn digest(&self, packet: &[u8]) -> [u8; DIGEST_LEN]
        ensures { result ≡ digest_of self.now packet.now }
    {
        match self.hash {
            KeyHash::Sha1 => sha1_digest(self.bytes.as_slice(), packet),
            KeyHash::Sha256 => sha256_digest(self.bytes.as_slice(), packet),
        }
    }
}

impl fmt::Debug for PacketKey {
    fn fmt<W: fmt::Write>(&self, f: &mut fmt::Formatter<W>) -> fmt::Result {
        write!(f, "PacketKey({})", self.number)
    }
}
