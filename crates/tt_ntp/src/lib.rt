//! NTP servers as sources of the time: the request that a client sends, and what a server's reply says of the true time
//! (NTP version 4, RFC 5905).
//!
//! A request has 48 bytes, all 0 but the first, 35 (version 4, mode 3: a client), and the last eight, the nonce, by which the
//! reply is known. A reply has 48 bytes too, the highest of a number first:
//!
//! | bytes | content |
//! |---|---|
//! | 0 | two bits leap indicator, three bits version, three bits mode |
//! | 1 | stratum |
//! | 3 | precision: the exponent of a power of two of a second, signed |
//! | 4..8 | root delay, in 2^-16 seconds |
//! | 8..12 | root dispersion, in 2^-16 seconds |
//! | 12..16 | reference identifier; at stratum 0 a kiss code |
//! | 16..24 | reference timestamp |
//! | 24..32 | origin timestamp: the nonce of the request |
//! | 32..40 | receive timestamp |
//! | 40..48 | transmit timestamp |
//!
//! Under a symmetric key both have 72 bytes: behind the packet stand the number of the key, in four bytes, and a digest.
//!
//! A timestamp counts 2^-32 seconds since 1900, without its multiples of 2^64. It stands for the first time from the
//! beginning of 2024 on that has it.
//!
//! A server says that its clock was wrong by no more than half the root delay and the root dispersion when it read its
//! transmit timestamp. One unit is added to each of the two, since a server may cut them, and the precision, since it may
//! fill the bits below it at random. This is the radius. The span of a [`Reply`] is the transmit timestamp less and more the
//! radius, in nanoseconds since 1970, rounded outward. The server read that timestamp after it had the request and before it
//! sent the reply. So, if the server is right, the span held the true time at some moment from the sending of the request
//! to the receipt of the reply, as the answer to a poll does.
//!
//! ```text
//! let query = Query { nonce, takes_local: false };
//! let request = encode_request(nonce);                   // send these bytes to the server
//! let reply = decode(&bytes, query)?;                    // the bytes that came
//! let statement = reply.statement(margin, sent, got)?;
//! let span = statement.aged(drift, clock)?;              // what the server said, at this clock reading
//! ```
//!
//! - `queries`: requests. `replies`: what a reply says, now and later. `faults`: why it is refused.
//! - `fields`: numbers in bytes. `times`: timestamps, the radius, and nanoseconds. `decoding`: bytes as replies.
//! - `keys`: symmetric keys. `keyed`: packets under one.
//!
//! Nothing here takes memory. Nothing is claimed of who can make a digest, of how long a comparison takes, or that a key
//! leaves memory when it is dropped.
#![tactic(auto)]

mod decoding;
mod faults;
mod fields;
mod keyed;
mod keys;
mod queries;
mod replies;
mod times;

pub use decoding::decode;
pub use faults::NtpFault;
pub use keyed::{KEYED_LEN, decode_keyed, encode_keyed, keyed_laws};
pub use keys::{KeyHash, MAX_KEY_LEN, PacketKey};
pub use queries::{PACKET_LEN, Query, encode_request};
pub use replies::{Leap, Reply, aged_law};
pub use times::era_law;
