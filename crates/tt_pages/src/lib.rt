//! What an HTTP request to a machine is answered: its status, its evidence, and whether it is well. And to a master: its
//! status, and whether it answers polls.
//!
//! All of it is functions over values: no socket is opened here. A request is GET or HEAD of `/`, `/metrics`,
//! `/evidence` or `/health`, by HTTP/1.0 or HTTP/1.1; what stands behind a `?` in its target is ignored, and so are its fields.
//!
//! ```text
//! if let Some(asked) = asked_in(&bytes) {  // None: the head goes on
//!     push_answer(&mut text, alloc, asked, &report)?;
//! }
//! ```
//!
//! - `requests`: [`Asked`], what the bytes of a request ask for.
//! - `healths`: [`Health`], whether a machine is well, and [`Limits`], by what that is judged.
//! - `answers`: the bytes of an answer. `starts`: the page for people.
//! - `masters`: the same for a master, which has neither evidence nor a page for people.
#![tactic(auto)]

mod answers;
mod healths;
mod masters;
mod requests;
mod starts;

pub use answers::{Report, push_answer};
pub use healths::{Health, Limits, health_of};
pub use masters::{MasterHealth, MasterReport, master_health_of, push_master_answer};
pub use requests::{Asked, MAX_FIELDS, MAX_HEAD, Page, Wanted, asked_in};
