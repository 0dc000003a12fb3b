//! What a daemon notices of itself, of its host and of its sources.
//!
//! The functions here judge numbers that a daemon has read: they read no clock, file or socket themselves, take no memory,
//! and never fail. What they notice is of two kinds. Signs that an assumption of the service is broken: publications that
//! do not meet, a host that slept, a guest whose clock was disrupted. And measures of the sources: since when enough of
//! them have answered, how fast their time goes, how long their answers take.
//!
//! ```text
//! if !meets_last(&last, drift, &fused) { .. }              // too many sources are faulty, or the clock broke its bound
//! let answers = answers_after(&answers, &report.sources);  // after each round
//! let since = nth_newest(&answers, n, n - f);              // since when n - f of the sources have answered
//! ```
//!
//! - `answers`: the last answers of the sources, and since when so many of them have answered.
//! - `breaks`: whether a publication meets the last one, aged to its clock reading.
//! - `pauses`: what is kept of a life that ended by a break, and how long the next start waits.
//! - `rates`: how fast the time of a source goes against the clock of the machine.
//! - `trips`: classes of round trips. `widths`: classes of widths of readings.
#![tactic(auto)]

mod answers;
mod breaks;
mod pauses;
mod rates;
mod trips;
mod widths;

pub use answers::{Answer, answer_laws, answers_after, nth_newest};
pub use breaks::{aged_last, meets_last};
pub use pauses::{
    BreakMoment, BreakRecord, breaks_in_a_row, breaks_recorded, moment_recorded,
    pause_before_start, record_after, record_of, record_text,
};
pub use rates::{Rate, Sample, Track};
pub use trips::{TRIP_BOUNDS, trip_place};
pub use widths::{WIDTH_BOUNDS, width_place};
