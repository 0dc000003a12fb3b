//! What a daemon counts and notices of its rounds, and the status of its machine.
//!
//! The functions here judge what a round has given: they read no clock, file or socket, and start no thread. What is logged,
//! shown and shared of a round are its records; who makes the rounds hands them on.
//!
//! ```text
//! notices.hear(&report.sources);                                            // after each round
//! let records = records_of(&did, &report, &unsent, &totals, &terms, needed);
//! let unmet = unmet_of(&shown, &records.shown, drift);                      // a sign that an assumption is broken
//! let status = status_of(&machine, &account, &work, now);
//! ```
//!
//! Each of these values is proved exactly: the events of a round in their order, what is counted after it, what is shown
//! and shared of its publication, and each number of the status.
//!
//! - `records`: what is counted, logged, shown and shared of a round. `notices`: what is noticed of it. `statuses`: the status.
//!   `troubles`: when they begin and end, and a machine that stood still.
#![tactic(auto)]

mod notices;
mod records;
mod statuses;
mod troubles;

pub use notices::{Notices, Unmet, fresh_answers, is_stale, needed_by, unmet_of};
pub use records::{
    About, Ends, Events, Outcome, RoundRecords, Shown, SourceTally, Totals, UnsentPackets,
    records_of, suspects_in,
};
pub use statuses::{
    Account, Machine, NO_SEALS, SourceNotice, SourceSeals, Work, gain_in, status_of, width_shown,
};
pub use troubles::{
    Troubles, agreeing_sources, fusion_event, has_failed_after, is_refused_after, is_wide,
    resumed_event, sleep_event, stale_event, stood_still, width_event,
};
