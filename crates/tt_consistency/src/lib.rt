//! What is proved of the running service: readings hold the true time, and commits are externally consistent.
//!
//! Any number of machines run. The life of each machine began with a new daemon. The daemon polls sources, fuses and
//! publishes, and stations serve sessions of clients. If at most f sources of each machine are faulty at each of its
//! fusions, and every clock keeps its drift bound, then the commits that clients saw are externally consistent, at any
//! sessions of any machines. The same holds for the workers of nodes, which share a book and which `tt_node` runs.
//!
//! # Rounds as a run of the model
//!
//! A daemon makes steps. A step is what it does at a reading of its clock: it polls a source, takes some bytes, or
//! fuses. The events of the model of true time (`tt_world`) have a list of steps, and the course of a daemon's rounds
//! has one too. Both leave the daemon and its publications exactly as these steps make them.
//!
//! A timeline is a list of what happened, in the order of true time: the steps of the daemon, and the answers that the
//! sources gave. It has events in the model. In these events each packet that came is the answer with the same bytes,
//! given when the timeline says so. If there is no such answer, the packet was made up.
//!
//! The clock readings of a daemon's steps do not fall if none that its clock gave is below one before it. A reading of
//! what the daemon published holds the true time of the moment at which it was taken. Nothing is asked of a look that
//! gave no reading, nor of one whose reading a station refused because the machine is broken or the reading too wide.
//!
//! # Commits of stations
//!
//! Each station has a book of its own. If each of their readings holds the true time of its moment, then a commit that
//! was released before another one came has the smaller stamp. The laws are about the conversations that
//! [`Post::serve`](tt_connections::Post::serve) promises, and about those before whose calls the post served other
//! sessions.
//!
//! # Lives
//!
//! A life is one run of the service on a machine. The law of lives has two kinds of premises: what a run proves of its
//! own life, and what no program can prove of it. The law of cuts asks for the second kind up to some moment alone.
//!
//! # Keys
//!
//! What is assumed of sources follows from what is assumed of masters and of those who hold keys. The law of seals says
//! so.
//!
//! # Terms
//!
//! Where the leader of a shard moves, an engine with consensus grants leases to its terms. If each lease begins above the
//! ends of all before it, then the commits of a later term have the greater stamps, on whatever machines the leaders run.
//!
//! - `runs`: `step_laws`, `round_laws`, `timeline_laws`, `assumption_laws` and `reading_laws`. `meeting`:
//!   `meeting_laws`.
//! - `orders`: `session_laws`, `lease_laws`, `reply_laws`, `order_laws` and `sequencer_laws`.
//! - `services`: `machine_laws`, `service_laws`, `consistency_laws` and `node_laws`.
//! - `lives`: `life_laws`. `cuts`: `cut_laws` and `broken_life_laws`. `node_cuts`: `node_cut_laws`. `stampers`:
//!   `stamper_laws`. `terms`: `term_laws`. `sealed`: `seal_laws`, `master_laws`.
#![tactic(auto)]

mod cuts;
mod lives;
mod meeting;
mod node_cuts;
mod orders;
mod runs;
mod sealed;
mod services;
mod stampers;
mod terms;

pub use cuts::{broken_life_laws, cut_laws};
pub use lives::life_laws;
pub use meeting::meeting_laws;
pub use node_cuts::node_cut_laws;
pub use orders::{lease_laws, order_laws, reply_laws, sequencer_laws, session_laws};
pub use runs::{assumption_laws, reading_laws, round_laws, step_laws, timeline_laws};
pub use sealed::{master_laws, seal_laws};
pub use services::{consistency_laws, machine_laws, node_laws, service_laws};
pub use stampers::stamper_laws;
pub use terms::term_laws;
