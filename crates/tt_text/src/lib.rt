//! Lines of a word and numbers, as text: certificates, sessions, histories and reports are made of such lines.
//!
//! A line is a word, then decimal numbers, each behind one space and without leading zeros, and one line feed, like
//! `claim 5 15`. So each line has one spelling. [`line_at`] and [`numbers_behind`] read a line in exactly this
//! spelling, and [`push_line`] and [`put_line`] write it.
//!
//! - `reading`: `line_at` and `numbers_behind`, `after`, which finds a word, and `text_laws`, for lines of one number
//!   or of a span.
//! - `writing`: `push_line` writes at the end of a text, and takes memory; `put_line` writes into room of a fixed
//!   size, and takes none.
//!
//! Numbers are at most 2^64 - 1, and a line that is read has at most 16 of them. Places in a text count bytes.
#![tactic(auto)]

mod reading;
mod writing;

pub use reading::{after, line_at, numbers_behind, text_laws};
pub use writing::{push_line, put_line};
