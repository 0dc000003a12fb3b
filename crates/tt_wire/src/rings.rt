//! The keys that are shared with a peer.

ghost use Rattle.std.specs.Prelude.{◌≡◌, [], map, slice_get, unwrap_or};
ghost use Rattle.tt_wire.specs.Wire.{keys_in};

use tt_seal::Key;

/// The keys that are shared with one peer. What is sent is sealed under the first. What comes opens under any of them,
/// so that a new key may be taken into use: it is added behind the old one at both ends, then put first, and then the
/// old one is removed. If there is none, the peer is not sealed.
#[derive(Drop)]
pub struct Ring {
    pub keys: Vec<Key>,
}

/// The keys of the peer, and none where there is no ring.
pub(crate) fn keys_of(rings: &[Ring], peer: u8) -> &[Key]
    ensures { result.now ≡ unwrap_or (slice_get (map keys_in rings.now) peer) [] }
{
    match rings.get(usize::from(peer)) {
        Some(ring) => ring.keys.as_slice(),
        None => &[],
    }
}
