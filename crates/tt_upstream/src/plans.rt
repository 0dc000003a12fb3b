//! How servers are asked.

use tt_span::Drift;

/// How a server is asked, and what is assumed of it and of the machine's clock. Times are in nanoseconds.
#[derive(Clone, Copy, Debug, PartialEq, Eq)]
pub struct Plan {
    /// The drift bound of the monotonic clock of the machine.
    pub drift: Drift,
    /// How much further than its own radius a server may be off.
    pub margin: u64,
    /// The pause between requests at first.
    pub every: u64,
    /// How long after its request a reply tells something.
    pub max_age: u64,
    /// Whether the time of a server that follows nothing but its own clock is taken.
    pub takes_local: bool,
}
