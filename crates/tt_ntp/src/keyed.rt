//! Packets under a symmetric key.

ghost use Rattle.std.specs.Prelude.{◌≡◌, ℕ, ◌+◌, ◌≤◌, List, length, Ok, IfOk};
ghost use Rattle.std.specs.Str.{bytes_eq};
ghost use Rattle.tt_ntp.specs.Packet.{request_of};
ghost use Rattle.tt_ntp.specs.Reading.{read_of};
ghost use Rattle.tt_ntp.specs.Keyed.{PacketKey as KeyValue, IsPacketKey, IsBytes, digest_of, keyed_of, packet_in, digest_in, keyed_read_of, IsKeyedReply};
ghost use Rattle.tt_ntp.specs.declared.queries.Query.{Query};
ghost use Rattle.tt_ntp.specs.declared.replies.Reply.{Reply};

use crate::decoding::decode;
use crate::faults::NtpFault;
use crate::fields::short_at;
use crate::keys::PacketKey;
use crate::queries::{PACKET_LEN, Query, encode_request};
use crate::replies::Reply;
use tt_seal::is_same_secret;

/// The length of a request and of a reply under a key, in bytes.
pub const KEYED_LEN: usize = 72;

/// Where the digest begins.
const DIGEST_AT: usize = 52;

/// The request with this nonce under the key: the 48 bytes of the request, the number of the key in four, and the digest, the
/// first 20 bytes of the hash of the key and, behind it, the request.
#[tactic(auto, unfolding(crate::specs::Keyed::keyed_of))]
pub fn encode_keyed(nonce: u64, key: &PacketKey) -> [u8; KEYED_LEN]
    ensures value { result ≡ keyed_of (request_of nonce) key.now }
{
    let request = encode_request(nonce);
    let mut bytes = [0; KEYED_LEN];
    bytes[..PACKET_LEN].copy_from_slice(&request);
    bytes[PACKET_LEN..DIGEST_AT].copy_from_slice(&key.number().to_be_bytes());
    bytes[DIGEST_AT..].copy_from_slice(&key.digest(&request));
    bytes
}

/// Whether the digest behind a packet and the number of a key is that of the packet under the key.
fn has_digest(bytes: &[u8], key: &PacketKey) -> bool
    requires { length bytes.now ≡ 72 }
    ensures { result ≡ bytes_eq (digest_in bytes.now) (digest_of key.now (packet_in bytes.now)) }
{
    let (packet, _) = bytes.split_at(PACKET_LEN);
    let (_, digest) = bytes.split_at(DIGEST_AT);
    is_same_secret(digest, &key.digest(packet))
}

/// What the reply to the query says under the key.
#[tactic(auto, unfolding(crate::specs::Keyed::keyed_read_of))]
fn read(bytes: &[u8], query: Query, key: &PacketKey) -> Result<Reply, NtpFault>
    ensures { result ≡ keyed_read_of query key.now bytes.now }
{
    if bytes.len() != KEYED_LEN {
        return Err(NtpFault::Length);
    }
    if short_at(bytes, PACKET_LEN) != key.number() {
        return Err(NtpFault::OtherKey);
    }
    if !has_digest(bytes, key) {
        return Err(NtpFault::WrongDigest);
    }
    let (packet, _) = bytes.split_at(PACKET_LEN);
    decode(packet, query)
}

/// What the reply to the query says, where it came under the key. Refuses, in this order: 2301 `Length` where there are not 72
/// bytes; 2302 `OtherKey` where bytes 48 to 52 are not the number of the key; 2303 `WrongDigest` where the bytes behind
/// them are not the digest of the first 48 under the key; then what `decode` refuses of the first 48 bytes.
pub fn decode_keyed(bytes: &[u8], query: Query, key: &PacketKey) -> Result<Reply, NtpFault>
    ensures exact { result ≡ keyed_read_of query key.now bytes.now }
    // What is read is a packet under the key, each byte of it, and says what the packet says.
    ensures found { IfOk result (IsKeyedReply query key.now bytes.now) }
{
    read(bytes, query, key)
}

/// Laws of packets under a key. What is read under a key is a packet under this key. A packet under the key is read as it is
/// read without one.
pub fn keyed_laws()
    ensures found { (query : Query) (key : KeyValue) (bytes : List ℕ) (reply : Reply) → IsBytes bytes → keyed_read_of query key bytes ≡ Ok reply → IsKeyedReply query key bytes reply }
    ensures same { (query : Query) (key : KeyValue) (packet : List ℕ) → IsPacketKey key → length packet ≡ 48 →
        keyed_read_of query key (keyed_of packet key) ≡ read_of query packet }
{}
