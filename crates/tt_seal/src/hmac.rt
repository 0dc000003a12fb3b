//! HMAC-SHA256.

ghost use Rattle.std.specs.Prelude.{◌≡◌, ◌++◌, map, bit_xor};
ghost use Rattle.tt_seal.specs.Hmac.{block_key, padded_key, hmac_sha256 as hmac_of};

use sha2::{Digest, Sha256};

/// The length of a block of SHA-256, in bytes.
const BLOCK_LEN: usize = 64;

/// The length of a digest of SHA-256, in bytes.
const DIGEST_LEN: usize = 32;

/// The byte of the inner pad.
pub(crate) const INNER_PAD: u8 = 0x36;

/// The byte of the outer pad.
pub(crate) const OUTER_PAD: u8 = 0x5C;

/// The key as a block: hashed if it is longer than one, and with zeros behind it.
fn block_of(key: &[u8]) -> [u8; BLOCK_LEN]
    ensures { result ≡ block_key key.now }
{
    let mut block = [0; BLOCK_LEN];
    if key.len() > BLOCK_LEN {
        block[..DIGEST_LEN].copy_from_slice(&Sha256::digest(key));
    } else {
        block[..key.len()].copy_from_slice(key);
    }
    block
}

/// The block of the key, each byte exclusive-ored with this one.
pub(crate) fn padded(key: &[u8], byte: u8) -> [u8; BLOCK_LEN]
    ensures { result ≡ padded_key byte key.now }
{
    let block = block_of(key);
    let mut pad = [0; BLOCK_LEN];
    'bytes: for i in 0..BLOCK_LEN {
        pad[i] = byte ^ block[i];
    }
    pad
}

/// HMAC-SHA256 of the text under the key (RFC 2104, FIPS 198-1), each of any length.
pub fn hmac_sha256(key: &[u8], text: &[u8]) -> [u8; DIGEST_LEN]
    ensures value { result ≡ hmac_of key.now text.now }
{
    let mut inner = Sha256::new();
    inner.update(padded(key, INNER_PAD));
    inner.update(text);
    let mut outer = Sha256::new();
    outer.update(padded(key, OUTER_PAD));
    outer.update(inner.finalize());
    outer.finalize()
}
