//! What a running machine or master tells its operators: the text of its status file, and the lines of its log.
//!
//! All of it is functions over values: no file is written here.
//!
//! - `statuses`: [`Status`], and its text in the format that Prometheus collects. `slewings`: [`Slewing`], what it shows of the slewed clock.
//!   `breaks`: [`LastBreak`], what it shows of the last life that broke. `services`: what it shows of clients. `master_statuses`: [`MasterStatus`], and its text.
//!   `server_statuses`: [`ServerStatus`], what it shows of a server of a master.
//! - `metrics`, `histograms`: the text of a metric. `infos`: that of the addresses of sources. `digits`, `moments`: numbers with a fixed count of digits, seconds, and UTC.
//! - `lines`: [`LogEvent`], and the line of a log that says it. `priorities`: what a journal reads of it. `told`: the words of a number, and an address.
//! - `limits`: [`Limit`], which lets one line of a kind pass, and the next one after a pause that grows, and counts the others.
#![tactic(auto)]

mod breaks;
mod digits;
mod histograms;
mod infos;
mod limits;
mod lines;
mod master_statuses;
mod metrics;
mod moments;
mod priorities;
mod server_statuses;
mod services;
mod slewings;
mod statuses;
mod told;

pub use breaks::{BreakReason, LastBreak};
pub use digits::Difference;
pub use histograms::{BOUNDS, Histogram};
pub use limits::{LONGEST, Limit, QUIET};
pub use lines::{LogEvent, LogFormat, LogLine, RefusedFusion, push_event};
pub use master_statuses::{KeyAnswers, MasterStatus, UNANSWERED, push_master_status};
pub use metrics::VERSION;
pub use priorities::{LogStyle, is_journal};
pub use server_statuses::ServerStatus;
pub use slewings::Slewing;
pub use statuses::{
    MAX_SOURCES, REASONS, SourceStatus, Status, UNOPENED, push_status, refusal_place,
    unopened_place,
};
pub use told::words_of;
