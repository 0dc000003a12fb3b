//! Opening and making files at paths where something else may lie: a FIFO, a device, a socket, a folder or a symlink.
//!
//! A type is looked at before the opening, since to open a FIFO can wait for ever. What is opened is compared with what
//! was looked at. A new file is made at a path that was cleared, and never through a symlink. Nothing is claimed of what
//! the calls of the operating system do. Who may write the folder can put another file there between two of these
//! calls: then a call fails, but a FIFO that is put there at that moment can make it wait.
//!
//! ```text
//! let mut how = OpenOptions::new();
//! how.write(true).create(true).mode(0o600);
//! let lock = open_regular(&rt, "state/lock", &how)?;      // refused at once where `lock` is a FIFO
//! replace(&rt, "status", "status.new", b"..", 0o644, false)?;
//! ```
//!
//! - `facts`: what is known of a file, and what is decided by it.
//! - `locking`: `lock_at`.
//! - `opening`: `open_regular`, `create_new` and `replace`.
//! - `numerals`: `number_of`. `processes`: `process_owner`. `reasons`: `Reason`, why a call failed.
#![tactic(auto)]

mod facts;
mod locking;
mod numerals;
mod opening;
mod processes;
mod reasons;

pub use facts::{Facts, Kind, Way, is_only_at, is_same_file, way_of};
pub use locking::lock_at;
pub use numerals::number_of;
pub use opening::{create_new, facts_at, facts_of, link_facts_at, open_regular, replace};
pub use processes::process_owner;
pub use reasons::Reason;
