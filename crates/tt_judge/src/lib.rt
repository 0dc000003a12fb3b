//! The judge of a history of commits: whether it is externally consistent.
//!
//! A history is externally consistent if each commit has a greater stamp than every commit that ended before it began.
//! A database on this service promises this to its clients. It can be checked of any history, however the stamps were
//! made:
//!
//! ```text
//! commit 10 20 7      began at 10, ended at 20, stamp 7
//! commit 30 40 6      violated: it began after the other ended, and its stamp is lower
//! ```
//!
//! - `faults`: `HistoryFault`, why a text is not a history.
//! - `history`: `Commit`, one commit of a history: when it began and ended, and its stamp.
//! - `judging`: `judge`, which counts the commits that were out of order, and names the first.
//! - `order`: commits in the order of one of their times.
//! - `reading`: `read_history`, a history from text.
//! - `writing`: `judgement_text`, the answer as text.
#![tactic(auto)]

mod faults;
mod history;
mod judging;
mod order;
mod reading;
mod terms;
mod writing;

pub use faults::HistoryFault;
pub use history::{Commit, CommitHistory, Line, ShardCommit, ShardTerm};
pub use judging::{Judgement, Violation, consistency_laws, judge};
pub use reading::read_history;
pub use terms::{Conflicts, Rule, TermJudgement, judge_terms, term_laws};
pub use writing::judgement_text;
