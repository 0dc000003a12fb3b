//! NTP servers above a time master: what is known of each, and what they say together.
//!
//! A [`Server`] is asked now and then, and keeps what its last reply said. [`Server::ask`] notes the request that was sent, and
//! [`Server::hear`] the bytes that came. [`Server::span`] is what the server says of the true time at a reading of the
//! machine's monotonic clock, or why it says nothing: its statement, aged. [`fused`] is what several servers say together.
//!
//! ```text
//! let mut server = Server::new(plan);
//! if server.is_due(now) {
//!     ask_once(&mut line, None, wait, &mut server);  // sends `encode_request(nonce)`, and hears the packets that come
//! }
//! let span = server.span(now)?;
//! ```
//!
//! A leap second is a step of the servers' clocks, and the clocks of several servers need not step at one moment. So a
//! server is silent from a minute before a leap second that it announces, until a reply shows that it is over.
//!
//! - `plans`: how servers are asked, and what is assumed of them.
//! - `news`: what a request and its reply leave. `leaps`: leap seconds. `refusals`: what a refusal means. `tallies`: counts.
//! - `exchanges`: one request and its reply, over any line to the server: [`ask_once`].
//! - `servers`: what is known of one server. `spans`: what it says. `together`: what several say. `laws`: laws of whole runs.
//! - `waits`: what is waited for. `key_files`: the key of a server, in a text as chrony's file of keys.
//!
//! All times are in nanoseconds. Nothing here takes memory, reads a clock or holds a socket.
#![tactic(auto)]

mod exchanges;
mod key_files;
mod laws;
mod leaps;
mod news;
mod plans;
mod refusals;
mod servers;
mod spans;
mod tallies;
mod together;
mod waits;

pub use exchanges::{Exchange, Line, RECEIVED_LEN, Receipt, ask_once};
pub use key_files::{NtpKeyFault, packet_key_of};
pub use laws::{fused_law, leap_law, server_law};
pub use plans::Plan;
pub use servers::Server;
pub use together::fused;
