//! One machine, live: its masters, its daemon, its workers and their clients, each in a thread of its own.
//!
//! A script says how many sources, workers and rounds there are, what the masters do, and what the clients send.
//! [`live`] runs the script. Polls go over UDP and sessions over TCP, all on this computer. One clock serves the
//! masters, the daemon and the workers. `live` answers how many readings the workers gave, how many of them were wrong,
//! and what the daemon did.
//!
//! ```text
//! let script = tt_script::read(rt.alloc(), text)?;
//! let end = live(&rt, rt.alloc(), &script)?;
//! // end.report.readings: how many readings the workers gave; end.report.wrong: how many of them were wrong
//! // end.rounds.published: how many fusions the daemon published
//! ```
//!
//! - `plans`: which scripts are run, and why one is refused. `faults`: why a run is refused.
//! - `clocks`: the clocks of a run. `sockets`: its sockets.
//! - `masters`: the thread of a master. `clients`: the thread of a client.
//! - [`exchange`] sends one line to a machine, and takes its reply. `replies`: which replies a session may give to a line,
//!   and what a reply means. Every client of sessions stands on these.
//! - `lives`: [`live`], which starts and joins the threads. `reports`: the count of the readings.
#![tactic(auto)]

mod clients;
mod clocks;
mod exchanges;
mod faults;
mod lives;
mod masters;
mod plans;
mod replies;
mod reports;
mod sockets;

pub use clients::MAX_ASKS;
pub use exchanges::{ExchangeFault, MAX_REPLY, Reply, exchange};
pub use faults::LiveFault;
pub use lives::{LiveEnd, MAX_READS, MAX_WAITS, live};
pub use replies::{Meaning, may_answer, meaning_of, refusal_in};
