//! Scripts: a run of the service as text.
//!
//! A script is a TOML document (toml.io, version 1.1). It has the machines of a run, its events, and perhaps a part for
//! a run in threads:
//!
//! ```text
//! event = [
//!   { do = "send", at = 150, machine = 0, source = 0, clock = 0 },
//!   { do = "answer", at = 150, packet = 0, lo = 100, hi = 200 },
//! ]
//!
//! [[machine]]
//! sources = 1
//! faulty = 0
//! workers = 1
//! ```
//!
//! docs/FORMATS.md lists its keys. [`read`] gives the script of a text, or the first refusal in the order of that list,
//! with its place. Keys that are not listed are ignored; [`read_noting`] names them.
//!
//! - `scripts`: a whole script, [`read`] and [`read_noting`].
//! - `keys`: the keys of each table, what each is called, and what it takes. A new key of a table begins there.
//! - `machines`: the machines' configurations.
//! - `words`: the words of events.
//! - `events`: the events, and the keys of each word.
//! - `lives`: the part for a run in threads: [`Live`], its masters and its sessions.
//! - `acts`: the acts of a master.
//! - `lookups`: values of a table by their keys.
//! - `faults`: why and where a text is refused.
//! - `unknown`: keys that no rule names.
#![tactic(auto)]

mod acts;
mod events;
mod faults;
mod keys;
mod lives;
mod lookups;
mod machines;
mod scripts;
mod unknown;
mod words;

pub use acts::{Acts, MAX_ACTS, act_in, act_laws};
pub use events::MAX_EVENTS;
pub use faults::{Misfit, Part, Place, Reason, ScriptFault};
pub use keys::Key;
pub use lives::{Line, Live, LiveMaster, MAX_LIMIT, Session};
pub use scripts::{Script, read, read_noting};
pub use unknown::MAX_UNKNOWN;
pub use words::Word;
