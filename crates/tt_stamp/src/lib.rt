//! Timestamps of commits, and commit wait: the start rule and the commit wait of Spanner (Corbett et al., OSDI 2012,
//! sections 4.1.2 and 4.2.1).
//!
//! The stamp of a commit is the least number that is at least the latest of a reading, the caller's floor and the
//! start of the lease, and above every stamp given before. It is given only if it lies in the lease. A [`Row`] gives
//! the stamps of one thread. A [`Sequencer`] gives the stamps of up to [`MAX_SEATS`] threads, each of which asks with
//! a [`Seat`] of its own: all stamps stand in one legal order, and each seat has seen a beginning of it.
//!
//! A [`Book`] keeps the pending commits. A release with a reading releases each commit whose stamp is below the
//! earliest of that reading, least stamp first. The book keeps a [`Receipt`] of each until its session is forgotten.
//!
//! [`begin_step`] and [`release_step`] take the reading themselves, from a watch of the publications. So no commit is
//! stamped or released by a reading that was taken before the call:
//!
//! ```text
//! // the reading is [150, 250]: the stamp is 250
//! let stamp = begin_step(&rt, &sequencer, &mut seat, &mut watch, &mut clock, floor, &lease)?;
//! book.queue(id, stamp)?;
//! // at [250, 350] this releases nothing, at [251, 351] the commit
//! let released = release_step(&mut book, &mut watch, &mut clock)?;
//! let receipt = book.is_released(id);
//! ```
//!
//! `crates/tt_stamp/CALLING.md` has a whole caller. The modules: `rows` for one thread, `sequencers` for several
//! (`rule` is the rule by which they share a word, `stampings` what seats know, `requests` what a try asks), `books`
//! with `commits` and `standings`, `steps`, and `faults`.
#![tactic(auto)]

mod books;
mod commits;
mod faults;
mod requests;
mod rows;
mod rule;
mod sequencers;
mod stampings;
mod standings;
mod steps;

pub use books::{Book, MAX_WAITING, book_laws, forget_laws};
pub use commits::{Entry, Id, Receipt};
pub use faults::{BeginFault, BookFault, ForgetFault, StampFault};
pub use rows::{MAX_AHEAD, Row, stamp_laws};
pub use sequencers::{MAX_SEATS, Seat, Sequencer, seat_laws};
pub use stampings::Stamping;
pub use steps::{begin_step, release_step};
