//! The clock of the example.

use tt_publish::{Clock, ClockFault};

/// A clock that moves only in `sleep`, so that each run prints the same. A database reads a clock of the operating
/// system here. docs/EMBEDDING.md says which one to choose.
#[derive(Clone, Copy)]
pub struct SteppedClock {
    shows: u64,
}

impl SteppedClock {
    /// A clock that shows `shows` nanoseconds.
    pub fn at(shows: u64) -> SteppedClock {
        SteppedClock { shows }
    }

    /// Moves the clock forward by this many nanoseconds.
    pub fn sleep(&mut self, nanoseconds: u64) {
        self.shows = self.shows.saturating_add(nanoseconds);
    }
}

impl Clock for SteppedClock {
    // Contracts know nothing about what this clock shows, as with a real clock. It never fails.
    ghost gives = { λ before given after. Unit {0} };

    ghost failed = { λ clock. 0 };

    fn read(&mut self) -> Result<u64, ClockFault> {
        Ok(self.shows)
    }

    fn failures(&self) -> u64 {
        0
    }
}
