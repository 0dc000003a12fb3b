//! Queries and their requests.

ghost use Rattle.std.specs.Prelude.{◌≡◌};
ghost use Rattle.tt_ntp.specs.Packet.{request_of};

/// The length of a request and of a reply, in bytes.
pub const PACKET_LEN: usize = 48;

/// What a client asks: the nonce of its request, and whether it takes the time of a server that follows nothing but its own
/// clock. Such a server says that it is right to within no more than its precision, however wrong its clock is.
#[derive(Clone, Copy, Debug, PartialEq, Eq)]
pub struct Query {
    pub nonce: u64,
    pub takes_local: bool,
}

/// The request with this nonce: 48 bytes, of which the first is 35 and the last eight are the nonce. A server answers it with
/// the nonce as the origin timestamp.
pub fn encode_request(nonce: u64) -> [u8; PACKET_LEN]
    ensures value { result ≡ request_of nonce }
{
    let mut bytes = [0; PACKET_LEN];
    bytes[0] = 35;
    bytes[40..].copy_from_slice(&nonce.to_be_bytes());
    bytes
}
