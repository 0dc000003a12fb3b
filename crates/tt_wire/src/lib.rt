//! What goes over the wire between a machine and a master: messages with moved nonces, sealed where the peer has keys.
//!
//! A daemon counts its nonces from 1 in each of its lives. On the wire they are ahead by a number that each life draws at
//! random below 2^63: nonce n goes out as n + ahead, counted round within 1 to 2^64 - 1. What comes is moved back. So an
//! answer to a request of another life answers one of this life only if both had the same nonce on the wire, though their
//! epochs and the nonces of the daemon may be the same. Bytes that are no message of TTP2 stay as they are.
//!
//! ```text
//! let wire = Wire::new(rings, ahead);                    // a machine's end: ring i has the keys of peer i
//! let packet = wire.outgoing(peer, &request);            // sealed under the first of them
//! let incoming = wire.incoming(peer, &packet)?;          // opened under any of them: incoming.message, incoming.number
//!
//! let mut requests = Requests::new(keys);                // a master's end: the keys of those that may ask
//! let opened = requests.take(&packet)?;                  // opened under any of them
//! let packet = requests.answer(&answer);                 // sealed under the key of that request
//! ```
//!
//! - `rings`: the keys that are shared with a peer. `nonces`: the moving.
//! - `wires`: `Wire`, a machine's end. `answering`: `Requests`, a master's end.
//! - `laws`: what is known of both.
//!
//! Nothing here takes memory but that of the keys, which its caller made.
#![tactic(auto)]

mod answering;
mod laws;
mod nonces;
mod rings;
mod wires;

pub use answering::Requests;
pub use laws::wire_laws;
pub use nonces::MAX_PACKET;
pub use rings::Ring;
pub use wires::{Incoming, Wire};
