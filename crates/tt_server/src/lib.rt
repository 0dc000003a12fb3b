//! The server of one machine, which runs as a process of its own. It polls its masters over UDP, fuses their answers,
//! publishes the fusions, and serves clients over TCP and, if its settings name one, over a Unix socket.
//!
//! `ttd serve` makes these calls:
//!
//! ```text
//! let settings = tt_settings::read(alloc, text)?;    // the text of the configuration file
//! if check {
//!     check_start(rt, alloc, &settings)?;            // `ttd serve --check`: whether a start would refuse what it finds
//! } else {
//!     serve(rt, &settings, until_eof)?;              // runs the machine
//! }
//! ```
//!
//! [`serve`] runs the machine in threads. One thread makes the rounds of the daemon. One accepts the connections of
//! clients, and each worker is a thread that serves the sessions of some of them by turns (`tt_workers`). All workers take
//! their stamps from one sequencer, and read one list of publications. `tt_report` has the threads that write
//! the log and the status, and one thread here the shared file, so that no other thread waits for standard error or a file.
//!
//! `tt_settings` decides what the settings mean, `tt_session` and `tt_connections` decide the replies to a session, and
//! `tt_rounds` decides what a round does. `tt_telemetry` says what is counted and noticed of a round, and `tt_sharing` what
//! is shared of it. This crate has the threads, and what they hand on after each round.
//!
//! - `servers`: [`serve`], which starts the threads and ends them. `lives`: [`LifeEnd`], how a life of a machine ended.
//!   `starts`: the parts of a machine. `checks`: [`check_start`], which judges what a start would find. `links`: the link to the masters. `rings`: the keys that are shared with them.
//!   `owns`: the address of its own of the socket for polls. `names`: the thread that looks up names. `states`: what the threads share.
//! - `descriptors`: how many descriptors a machine wants, and how many sessions it takes within its limit.
//! - `rounds`: the thread of the daemon. `paces`: the pauses between rounds. `sharers`: the thread that writes the shared file.
//! - `breaks`: what is recorded of a break, and [`break_laws`]. `evidence`: the evidence of a
//!   publication. `modes`: who may write the files.
//! - `workers`: the threads of the workers. `faults`: why a machine does not serve.
//!
//! The functions over values are proved: the numbers of faults, file modes, and how long the pauses are before a round and
//! before a socket is made anew.
//!
//! Of a life that ends in order, [`serve`] proves from what its threads hand back: the daemon began new, in the epoch that
//! the store gave; its calls came one after the other, at readings of its clock that do not fall; each worker began with a
//! new watch, by a clock with the drift of the settings, with the lease, the interval of the stampers and the bound for
//! floors of the settings; all that it did was turns of its sessions, one after the other, and each session is its turns; and
//! the workers read nothing but what this daemon published. Of a life that is killed each turn of a loop is one call with a
//! contract of its own.
#![tactic(auto)]

mod breaks;
mod checks;
mod descriptors;
mod evidence;
mod faults;
mod hosts;
mod links;
mod lives;
mod modes;
mod names;
mod owns;
mod paces;
mod rings;
mod rounds;
mod servers;
mod sharers;
mod starts;
mod states;
mod watches;
mod workers;

pub use breaks::break_laws;
pub use checks::check_start;
pub use descriptors::{needed_descriptors, sessions_within};
pub use faults::ServerFault;
pub use hosts::ServerHost;
pub use lives::{LifeEnd, WorkerEnd};
pub use names::{HostNames, MAX_FOUND, has_names};
pub use servers::{EndOfInput, serve};
pub use sharers::SharesFile;
pub use tt_host::descriptor_limit;
