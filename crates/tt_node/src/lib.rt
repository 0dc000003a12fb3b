//! The running node: a daemon and the workers that serve clients, each in a thread of its own.
//!
//! A [`Worker`] is the service of one client's session. [`run_node`] runs a daemon, by the rounds of
//! [`tt_rounds`](tt_rounds), and many workers. They share one list of publications, one sequencer and one book.
//!
//! ```text
//! // a daemon and one worker for each stream, each in a thread of its own
//! let end = run_node(&rt, rt.alloc(), daemon, link, clocks, streams, &gate, limits, &daemon_failed)?;
//! ```
//!
//! - `gates`: the trait `Gate`, which may hold the calls of a worker, and a gate that holds none. `workers`: `Worker`.
//! - `shared_books`: one book of commits that many workers share, and what each of them knows of it.
//! - `nodes`: `run_node`, with its clocks, its limits and its end.
#![tactic(auto)]

mod gates;
mod nodes;
mod shared_books;
mod workers;

pub use gates::{Gate, OpenGate};
pub use nodes::{Clocks, Limits, NodeEnd, WorkerEnd, run_node};
pub use shared_books::{BookView, OpenedBook, SharedBook, WhichBook};
pub use tt_rounds::{Link, LinkFault, NodeFault, Rounds, daemon_rounds, master_rounds};
pub use workers::{MAX_TURNS, Worker};
