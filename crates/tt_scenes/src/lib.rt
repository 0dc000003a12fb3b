//! What the crates of tests, the memory sweep and the bench share: short calls that make machines and events, and runs
//! that were worked out by hand.
//!
//! Modules:
//!
//! - `events`: machines, spans and events.
//! - `runs`: two worked runs as events.
//! - `worked`: the worked runs as texts: script, trace and report.
#![tactic(auto)]

mod events;
mod runs;
mod worked;

pub use events::{
    answer, arrive, deliver, fuse, fused, machine, queue, read, release, restart, send, span, stamp,
};
pub use runs::{commit_wait, one_liar};
pub use worked::{
    ANY_MAY_LIE, COMMIT_WAIT, DRIFT, FORGED, LAST_TIME, LEASE, ONE_LIAR, REFUSED_EVENTS, RESTART,
    TWO_LIARS, WORKED_RUNS, WorkedRun,
};
