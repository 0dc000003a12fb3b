//! Spans of time, and what the drift of a clock does to them. Almost every other crate of the service uses this one.
//!
//! Time and clock readings are whole nanoseconds from 0 to [`MAX_TIME`]. A [`Span`] is a closed interval of times, in
//! which some true time is said to lie. A [`Drift`] bounds what a clock gains or loses, in parts per million. When the
//! clock has gone on, a span is aged: it is moved as far as the clock, and widened both ways by the drift.
//!
//! ```text
//! let drift = Drift::new(200).ok_or("a drift above MAX_DRIFT")?;
//! let span = Span::new(1_000, 2_000)?;
//! let aged = drift.age(&span, 1_000_000_000);
//! // a second later by the clock: aged.lo() is 999_801_000, and aged.hi() is 1_000_202_000
//! ```
//!
//! Nothing here takes memory. Only the two constructors refuse: they judge the numbers that they are given.
#![tactic(auto)]

mod drifts;
mod sources;
mod spans;

pub use drifts::{Drift, MAX_DRIFT, drift_laws};
pub use sources::MAX_SOURCES;
pub use spans::{MAX_TIME, Span, SpanFault};
