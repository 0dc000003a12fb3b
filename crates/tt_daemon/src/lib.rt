//! One machine's time daemon. It polls its time sources, keeps what they state, and fuses what it knows into a span.
//! The span holds the true time as long as at most f of the sources are faulty and the clock keeps the drift bound.
//!
//! A [`Config`] says how a [`Daemon`] is set up: how many sources it asks, how many of them may be faulty, and the
//! drift of the machine's clock. [`Daemon::poll`] writes a request. [`Daemon::take`] takes exactly the awaited answer.
//! [`Daemon::fuse`] gives a [`Fused`]: the fusion of what all sources stated, aged to this clock reading. The span of a
//! source that has made no statement is the whole of time. A fusion is refused as long as fewer than `n - f` of the n
//! sources have made a statement.
//!
//! ```text
//! let config = Config::new(3, 1, drift, 2)?;     // 3 sources, one of them may be faulty, and 2 workers
//! let mut daemon = Daemon::new(0, &config, 1);   // machine 0 in its first life
//! let request = daemon.poll(0, 5_000)?;          // send these bytes to source 0
//! daemon.take(0, 5_000, &bytes)?;                // the answer of source 0, [40, 60]
//! // source 1 answers [50, 70] in the same way, and source 2 does not answer
//! let fused = daemon.fuse(5_000)?;               // at the same clock reading: fused.span() is [40, 70]
//! ```
//!
//! A [`Fused`] carries everything that it was made of, and the canonical certificate of the fusion. Anybody can check
//! the fusion by the certificate, with `tt_cert`. It is a value of its own: a later fusion, made or refused, does not
//! change it.
//!
//! Times and clock readings are whole nanoseconds, as in `tt_span`. Nothing here takes memory.
//!
//! Modules:
//!
//! - `configs`: the configuration of a machine.
//! - `daemons`: the daemon of a machine.
//! - `fusions`: fusions with everything that they were made of.
//! - `faults`: why a daemon refuses to fuse.
#![tactic(auto)]

mod configs;
mod daemons;
mod faults;
mod fusions;

pub use configs::{Config, ConfigFault, DEFAULT_DRIFT, MAX_WORKERS};
pub use daemons::Daemon;
pub use faults::DaemonFault;
pub use fusions::Fused;
pub use tt_span::MAX_SOURCES;
