//! What the programs take of their host: clocks by their numbers, limits, first bytes of small files, and signs that the clock
//! does not show. Of the crates here this one alone calls the C library itself.
//!
//! ```text
//! let rt = ByClock::new(rt, HostClock::Raw);  // a handle whose monotonic clock nobody slews
//! let mut watch = SleepWatch::new();
//! match watch.look(&rt) {                     // before the first poll, and then in each round
//!     Sleep::Slept(nanoseconds) => ..,
//!     Sleep::Unseen | Sleep::Awake => ..,
//! }
//! ```
//!
//! - `clocks`: the clocks of the host, and [`DeviceClock`], one of its devices. `handles`: [`ByClock`].
//! - `hosts`: [`Host`] and [`ServiceHost`], what programs need of the host's handle, each one bound.
//! - `durations`: durations in nanoseconds. `limits`: what the process may have. `files`: files, and their first bytes.
//! - `signs`: looks and watches. `sleeps`: how long the host slept. `slews`: how fast `CLOCK_MONOTONIC` goes. `guests`: what the
//!   host tells a guest of its clock.
//!
//! Nothing is claimed of what the kernel shows.
#![tactic(auto)]

mod clocks;
mod durations;
mod files;
mod guests;
mod handles;
mod hosts;
mod limits;
mod signs;
mod sleeps;
mod slews;
mod sockets;

pub use clocks::{DeviceClock, HostClock, HostClocks};
pub use durations::{nanoseconds, time_after_zero};
pub use files::read_start;
pub use guests::disruptions_in;
pub use handles::{ByClock, ByClocks};
pub use hosts::{Host, ServiceHost};
pub use limits::{descriptor_limit, stack_limit};
pub use signs::{GuestWatch, MOST, Sleep, SleepWatch, look_at_slewed, read_at};
pub use sleeps::{Lead, Look, is_wide, narrowed, sleep_laws, slept_between};
pub use slews::{
    SlewLook, SlewNews, SlewRate, SlewWatch, Slewing, keeps_slew, slew_between, slew_laws,
};
pub use sockets::bound_buffers;
