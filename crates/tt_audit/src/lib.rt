//! Judges runs of the model: counts, the suspects of each publication, and whether the run kept the assumptions under
//! which its readings and its commits are right.
//!
//! - [`audit`] judges a run by its events and its trace, and answers a [`Report`]: its counts, its suspects and the
//!   first event that breaks the assumptions are exact. If no event breaks them, no reading is wrong and no commit is
//!   out of order. [`report_text`] writes the report.
//! - [`audit_live`] judges the readings of a live service by a reference.
//!
//! ```text
//! let trace = run(alloc, &configs, &events)?;
//! let report = audit(alloc, &configs, &events, &trace)?;
//! // if report.broken is None, report.wrong and report.violations are 0
//! ```
//!
//! The cost of an event does not depend on how many came before. A fusion costs in addition its sources.
//!
//! Modules:
//!
//! - `audits`: a whole audit. `reports`: its report. `writing`: the report as text.
//! - `counting`: counts over the replies.
//! - `suspecting`: the suspects of all publications.
//! - `ordering`: commits out of order.
//! - `watching`: the first event that breaks the assumptions. It uses `packets`, for where each packet goes and whether
//!   it lies, and `paces`, for the drift of each clock.
//! - `live`: readings of a live service.
//! - `faults`: why there is no report.
#![tactic(auto)]

mod audits;
mod counting;
mod faults;
mod live;
mod ordering;
mod paces;
mod packets;
mod reports;
mod suspecting;
mod watching;
mod writing;

pub use audits::audit;
pub use faults::AuditFault;
pub use live::{LiveNote, LiveReport, audit_live, live_laws};
pub use reports::{Broken, Report, Suspect};
pub use writing::{push_verdict, report_text};
