//! What a machine shares with the other processes of its host, and when its shared file is tried again.
//!
//! The crate says what is shared of a publication, and until when it may be read. It keeps the shared file open as long as
//! it can be written. After a try that failed the file is closed, and tried again after a pause: a round's at first, then
//! twice the one before, and at most thirty seconds. It says when a try hangs. No thread is here, and nothing is logged: who
//! calls is told the event.
//!
//! ```text
//! let mut share = Share::new(rt, alloc, Some(path));
//! let event = share.begin(poll, now);                                  // at the start
//! let shared = with_slewed(&shared_of(&fused, number, needed, &terms), &look, slew, most);
//! let tried = share.put(shared, poll, now);                      // after each publication
//! let ended = share.put(ended_at(&last, now), poll, now);              // when the machine ends in order
//! let nothing = share.put(withdrawn(epoch, number, drift), poll, now); // once an assumption is broken
//! let is_late = hangs(since, now);                               // by another thread, while a call lasts
//! let event = event_of_over(&tried, was_told);                   // once it is over
//! ```
//!
//! Proved are the values, and the writing of them over any place ([`Sharing`]): where it answers that a publication was
//! written, the place went on by its two writes and by nothing else, and a place that is open is closed for a cause alone.
//! What another process reads is what the machine published ([`shared_laws`]), by the second base too ([`slewed_laws`]).
//!
//! - `shares`: what is shared of a publication, and until when. `bases`: the same by `CLOCK_MONOTONIC`. `sharing`: the
//!   file, as long as it can be written. `tries`: when a try hangs.
#![tactic(auto)]

mod bases;
mod shares;
mod sharing;
mod tries;

pub use bases::{slew_drift, slewed_laws, with_slewed};
pub use shares::{
    RoundTerms, ended_at, folder_and_name, fresh_until, period_of, shared_laws, shared_of,
    usable_until, withdrawn,
};
pub use sharing::{Break, Opener, Share, SharePath, Sharing, Tried};
pub use tries::{HANGS, event_of_over, hangs};
