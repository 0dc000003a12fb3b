//! A run of the model told to people: as text, and as a picture.
//!
//! [`trace_text`] writes a line for each event: its number, counted from 0, the event with its numbers, an arrow, and
//! the reply with its numbers. `wrong` stands behind a reading that does not hold the true time of its event:
//!
//! ```text
//! 9 fuse 50 0 0 -> Published 1 45 55
//! 10 read 50 0 0 0 1 -> Read 45 55
//! ```
//!
//! [`push_event`] writes the line of one event alone. Each event and each reply has one text, which does not depend on
//! what came before. If it is out of memory, there is no text.
//!
//! [`picture`] draws a run in SVG, by its events and its trace. True time runs from left to right, and each machine has
//! a lane. A line in the lane is the true time. Each reading and each fusion is an upright band from its earliest to its
//! latest, at the true time of its event; a reading is right exactly if its band crosses the line. Below the bands each
//! released commit is a bar from its arrival to its release, with its stamp. Lies have flags above the bands. The text
//! is one tree of elements, and each reading is one band in it.
//!
//! ```text
//! let trace = run(alloc, &configs, &events)?;
//! let svg = picture(alloc, &configs, &events, &trace)?;   // a text for a file that a browser shows
//! ```
//!
//! - `traces`: whole traces. `replies`: replies as text. `events`: events as text. `numbers`: numbers, each behind a
//!   space.
//! - `pictures`: whole pictures. `marks`: what is drawn of a run. `lookups`: what is looked up in earlier events.
//!   `sheets`: the place of a time on the sheet. `drawing`: the marks as text. `framing`: the text around the marks.
//! - `faults`: why there is no picture.
#![tactic(auto)]

mod drawing;
mod events;
mod faults;
mod framing;
mod leaves;
mod lookups;
mod marks;
mod numbers;
mod pictures;
mod replies;
mod sheets;
mod traces;

pub use events::push_event;
pub use faults::PictureFault;
pub use marks::{Band, Course, Flag, Mark};
pub use pictures::{picture, picture_laws};
pub use sheets::Sheet;
pub use traces::trace_text;
