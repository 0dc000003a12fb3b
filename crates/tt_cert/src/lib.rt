//! Certificates of a fusion: evidence that a claimed span is the fusion, which anybody can check.
//!
//! The claim is a span. Of n sources at most f are wrong, so a time is possible if n - f spans hold it. A
//! [`Certificate`] names n - f sources for each end of the claim, whose spans hold that end. It cuts all time below and
//! above the claim into stretches, each with the number of sources that meet it. So it shows that both ends are
//! possible times, and that no time outside the claim is possible. [`check`] says yes exactly if the certificate is
//! valid, and then the claim is the fusion. [`certify`] gives the canonical certificate of a fusion, and [`certify_by`]
//! the same from the ends of the spans in their order. [`write_text`] and [`read_text`] write and read certificates as
//! text, in lines of `tt_text`; its [`line_at`] and [`text_laws`] can be named here too.
//!
//! ```text
//! // the spans [0, 10], [5, 15] and [12, 20], of which at most one is wrong
//! let claim = fuse(&spans, 1)?;                      // [5, 15]
//! let certificate = certify(&spans, 1, &claim);
//! check(&spans, 1, &claim, &certificate)?;           // valid: the claim is the fusion
//! ```
//!
//! - `certificate`: `Certificate` and its `Stretch`es, as values.
//! - `checking`: `check`, and what a certificate shows.
//! - `certifying`: `certify`, `certify_by`.
//! - `sweeping`: stretches of time, cut where spans begin and end.
//! - `reading`: `read_text`. `writing`: `write_text`.
//! - `inline_lists`: a few values that are copied whole.
//! - `faults`: why a certificate, or its text, is refused.
//!
//! Times are whole nanoseconds, as in `tt_span`, and a source's number is its place among the spans, from 0. Only
//! the writing of a text takes memory.
#![tactic(auto)]

mod certificate;
mod certifying;
mod checking;
mod faults;
mod inline_lists;
mod reading;
mod sweeping;
mod writing;

pub use certificate::{Certificate, Stretch};
pub use certifying::{certify, certify_by};
pub use checking::{certificate_laws, check};
pub use faults::CertFault;
pub use reading::read_text;
pub use tt_text::{line_at, text_laws};
pub use writing::write_text;
