//! The fusion of time spans: what a client knows of the time if it has asked several sources and a few of them may be
//! wrong.
//!
//! Each source names a span of time. A source is wrong if its span does not hold the true time, and at most `faulty`
//! sources are wrong. A time is possible if the spans of all sources but at most `faulty` hold it. [`fuse`] answers the
//! least span that holds every possible time. So the answer holds the true time, and no smaller span is sure to hold
//! it. [`suspects`] names the sources whose span does not meet the answer.
//!
//! ```text
//! let spans = [Span::new(0, 10)?, Span::new(5, 15)?, Span::new(8, 20)?, Span::new(100, 110)?];
//! let fused = fuse(&spans, 1)?;
//! // at most one source is wrong, so a time is possible if three spans hold it: fused is [8, 10]
//! let named = suspects(&spans, &fused);
//! // the span of source 3 does not meet [8, 10], the others do: named.as_slice() is [3]
//! ```
//!
//! [`SortedEnds`] has the ends of the spans in order. The fusion and its certificate share these.
//!
//! [`Ends`] is for a machine that fuses the statements of its sources again and again, while the statements age. It
//! keeps the ends by scaled keys. Ageing does not change the order of the keys, so nothing has to be sorted: a new
//! statement changes one key of each kind, and a fusion compares a few keys and ages two.
//!
//! This is the interval function of Marzullo and Owicki, *Maintaining the time in a distributed system* (1983), as
//! Spanner uses it (Corbett et al., OSDI 2012, section 3).
//!
//! - `counts`: how many sources can be fused.
//! - `fusion`: `fuse`, why there may be no fusion, and laws of fusions.
//! - `keys`: the scaled keys of a statement, and the ends that they have at a clock reading.
//! - `network`: sorting a few ends.
//! - `ordered`: keys in ascending order.
//! - `scaled`: `Ends`, fusion over scaled keys.
//! - `sorted`: the ends of spans in order.
//! - `suspecting`: `suspects`, and a law of suspects.
//!
//! Times are whole nanoseconds, as in `tt_span`. Nothing here takes memory.
#![tactic(auto)]

mod counts;
mod fusion;
mod keys;
mod network;
mod ordered;
mod scaled;
mod sorted;
mod suspecting;

pub use counts::{CountFault, check_counts};
pub use fusion::{FuseFault, fuse, fusion_laws};
pub use scaled::Ends;
pub use sorted::SortedEnds;
pub use suspecting::{suspect_laws, suspects};
pub use tt_span::MAX_SOURCES;
