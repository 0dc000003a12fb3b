//! The turns of a master over a reference that states intervals: it receives requests and answers them.
//!
//! ```text
//! let mut master = SpanMaster::new(0, reference);
//! let mut tally = Tally::new();
//! let turn = answer_turn(&mut link, &mut master)?;   // receives once, and answers the peer that asked
//! tally.count(turn);                                 // tally.unanswered[place_of(..)] counts a refusal
//! ```
//!
//! - `turns`: [`answer_turn`], one turn, and what came of it.
//! - `tallies`: [`Tally`], what some turns counted.
//! - `laws`: [`answer_laws`], the law of turns over sealed requests.
#![tactic(auto)]

mod laws;
mod tallies;
mod turns;

pub use laws::answer_laws;
pub use tallies::{REASONS, Tally, place_of};
pub use turns::{Turn, answer_turn};
