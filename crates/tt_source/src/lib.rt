//! What a machine knows of its time sources.
//!
//! A [`Statement`] is one accepted answer of a source, with the clock readings between which it was given. Aged to a
//! later clock reading, it gives a span. The span holds the true time in every run in which the answer was true and the
//! clock kept its drift bound.
//!
//! A [`Table`] keeps, for each source of a machine, one statement and the one poll that waits for an answer.
//! [`Table::poll`] writes the request of a new poll. [`Table::take`] takes exactly the answer to the poll that waits.
//! [`Table::aged`] gives the span of a source at a clock reading, or the whole of time if the source has made no
//! statement. Packets are untrusted: whatever bytes come, only the awaited answer changes the table.
//!
//! ```text
//! let mut table = Table::new(machine, 3, drift, epoch);
//! let request = table.poll(0, sent)?;       // send these bytes to source 0
//! table.take(0, got, &bytes)?;              // the bytes that came from it
//! let span = table.aged(0, clock)?;         // what source 0 stated, at this clock reading
//! ```
//!
//! Nothing here takes memory. `statements` has the statement, `tables` the table, `slots` what it keeps of one source,
//! `faults` the refusals.
#![tactic(auto)]

mod faults;
mod slots;
mod statements;
mod tables;

pub use faults::SourceFault;
pub use statements::Statement;
pub use tables::Table;
