//! Histories that exist in the proofs alone, and what each thread knows of them.
//!
//! A [`History`] is a list of items, which only grows. Its owner adds to it. What a thread has seen of it is a
//! [`Glance`], which takes no bytes. Of two glances at one history, what one has seen is a beginning of what the other
//! has seen, and both are beginnings of the history.
//!
//! ```text
//! let mut history = History::open();
//! history.add(&item);
//! let glance = history.glance();   // has seen this item
//! history.add(&other);
//! history.catch_up(&glance);       // a law: what was seen is a beginning of the history
//! ```
//!
//! A [`ShownNumber`] says how many items are shown. It never falls.
//!
//! All histories of one type of item are chains of one log of the crate `logbook`, which grows by atomic steps.
//!
//! - `entries`: the entries of the log. `steps`: the rule of the log, and the steps on it.
//! - `histories`: one history, and what was seen of it. `numbers`: how many items are shown.
#![tactic(auto)]

mod entries;
mod histories;
mod numbers;
mod steps;

pub use entries::Entry;
pub use histories::{Glance, History};
pub use numbers::ShownNumber;
