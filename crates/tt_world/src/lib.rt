//! The model of true time: machines, sources and clients as a list of events, and what the machines reply.
//!
//! A run is a list of events. Each [`Event`] has its true time, which the code of the machines is never told, and an
//! [`Action`] of one of these kinds:
//!
//! - A machine polls a source. A source answers, or makes bytes up. A packet reaches its machine.
//! - A machine fuses what it knows, and publishes it. A worker reads the time from a publication.
//! - A worker is asked for a commit, stamps it, queues it, and releases the commits of its machine whose stamps have
//!   surely passed.
//! - A machine is granted a lease, or restarts and begins a new life.
//!
//! Packets may be lost, repeated, late and forged; sources may lie; clocks may run wrong. Every list of events is
//! taken: the reply to a bad event is its number, and the event changes nothing.
//!
//! [`run`] gives the replies to a list of events on 1 to 8 machines, each set up by a [`Config`](tt_daemon::Config) of
//! its own. A [`World`] takes the events one by one:
//!
//! ```text
//! let mut world = World::new(alloc, &configs)?;
//! for event in &events {
//!     let reply = world.step(event)?;
//! }
//! ```
//!
//! What they promise, for every list of events:
//!
//! - Each reply is the defined one, which is found by searching back over the events before it.
//! - Every reading holds the true time of its event, as long as at most f sources of each machine are faulty and its
//!   clock keeps its drift bound (Spanner's `TT.now()`, OSDI 2012, section 3).
//! - Every published span is the shortest that is right whichever sources lie (Marzullo and Owicki, 1983).
//! - Under the same assumptions no fusion is refused if enough sources are known.
//! - Two fusions of one life of a machine meet, if the earlier span is aged to the later clock reading, under the
//!   assumptions on this life alone ([`meeting_laws`]).
//! - Every stamp is the least that is at least the latest of the reading, the floor and the start of the machine's
//!   lease, and above all stamps of the machine's life. It lies in the lease (the start rule, OSDI 2012, section
//!   4.1.2).
//! - Under the same assumptions a commit that is released before another arrives, on whatever machine, has the smaller
//!   stamp (commit wait and external consistency, OSDI 2012, sections 4.1.2 and 4.2.1).
//! - The book of each machine is a legal history: a commit is pending if it was queued and no later receipt names it
//!   ([`run_laws`]).
//! - Every publication is shown with the spans that were fused and the canonical certificate of their fusion.
//!
//! Modules:
//!
//! - `events`: events and replies.
//! - `breaches`: what breaks the assumptions of a run.
//! - `packets`: packets in transit between machines and sources.
//! - `publications`: what is shown of a publication.
//! - `workers`: the state of one worker. `machine_actions`: the actions of one machine alone.
//! - `machines`: the state of one machine.
//! - `world`: a whole run, event by event.
//! - `runs`: whole runs. `meeting`: two fusions of one life of a machine.
//! - `faults`: why an event is bad.
#![tactic(auto)]

mod breaches;
mod events;
mod faults;
mod machine_actions;
mod machines;
mod meeting;
mod packets;
mod publications;
mod runs;
mod workers;
mod world;

pub use breaches::Breach;
pub use events::{Action, Event, MAX_PAYLOAD, Payload, Receipts, Reply};
pub use faults::WorldFault;
pub use meeting::meeting_laws;
pub use publications::Shown;
pub use runs::{Trace, run, run_laws};
pub use world::{MAX_MACHINES, World};
