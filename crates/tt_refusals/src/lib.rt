//! What the numbers of refusals mean: for each number its name, the sentence that the program says of it, and what to do.
//!
//! ```text
//! let refusal = refusal_of(504)?;   // name NoPoint, sentence "no time is possible"
//! ```
//!
//! The rows are those of docs/reference/refusals.md: `tools/reference` writes both from the enums of faults and from
//! `tools/pages/words.toml`.
//!
//! - `rows`: [`Refusal`], and how one is found. `numbers`: [`NUMBERS`]. `low` and `high`: the texts.
#![tactic(auto)]

mod high;
mod low;
mod numbers;
mod rows;

pub use numbers::NUMBERS;
pub use rows::{Refusal, refusal_of};
