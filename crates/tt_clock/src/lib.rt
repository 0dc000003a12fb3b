//! The clock by which a machine and a master measure: the monotonic clock of their handle, which never shows less than before.
//!
//! ```text
//! let rt = ByClock::new(rt, HostClock::Raw);  // the clock of the host that it is
//! let mut clock = MachineClock::new(&rt);
//! let now = clock.read()?;                    // not below the reading before
//! let alone = reading_of(&rt);                // one reading, beside no other
//! ```
//!
//! - `clocks`: [`MachineClock`], and [`reading_of`].
//!
//! It is proved that no reading of a [`MachineClock`] is below one before it, and none above 4 * 10^18. Nothing is claimed of what
//! the system's clock shows.
#![tactic(auto)]

mod clocks;

pub use clocks::{MachineClock, reading_of};
