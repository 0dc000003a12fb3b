//! The workers of a machine, each of which serves many sessions by turns.
//!
//! A [`Worker`] is a post and each session that is open, with its connection: whatever turns there were, each led from the
//! post that it found to the one that it left, and was a turn of one session. [`work`] is what the thread of a worker does:
//! it waits for its connections, and gives each session that has sent something turns over at most 512 bytes.
//!
//! - `workers`: [`Worker`]. `sessions`: a session with its connection, and what it hears. `connections`: what is kept of a
//!   connection beside that, and what of its bytes one turn hears. `writers`: what it takes of the replies, and what waits
//!   for it. `states`: what a thread has beside its sessions. `serving`: [`work`].
//!
//! All of a worker's turns is proved. Over any input it is proved that a session hears what this gives, in order and once,
//! and over any device that its replies are written to it once, in order, and whole. Nothing is claimed of sockets, of when
//! a session has its turn, and of what is counted.
#![tactic(auto)]

mod connections;
mod serving;
mod sessions;
mod states;
mod workers;
mod writers;

pub use connections::SharedStream;
pub use serving::{ClientWorker, work};
pub use states::Tools;
pub use workers::{MAX_SESSIONS, Worker};
