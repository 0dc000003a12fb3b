//! What the sessions of a machine have done.

ghost use Rattle.std.specs.Prelude.{◌≡◌, ◌≤◌, ◌+◌, nat_lt};
ghost use Rattle.tt_connections.specs.Session.{place_of};

use std::sync::atomic::{AtomicU64, Ordering};

/// The bounds of the waits that are counted together, in nanoseconds, ascending: from 100 microseconds to one second.
pub const WAIT_BOUNDS: [u64; 12] = [
    100_000,
    250_000,
    500_000,
    1_000_000,
    2_500_000,
    5_000_000,
    10_000_000,
    25_000_000,
    50_000_000,
    100_000_000,
    250_000_000,
    1_000_000_000,
];

/// The place in [`Counts::waits`] of a wait of so many nanoseconds: how many of the [`WAIT_BOUNDS`] lie below it. So it is
/// the place of the first bound that the wait is not above, and 12 if it is above all.
pub fn place_of(wait: u64) -> usize
    ensures value { result ≡ place_of wait }
    ensures within { result ≤ 12 }
{
    WAIT_BOUNDS.iter().filter(|bound| **bound < wait).count()
}

/// What the sessions of a machine do now, and counts of what they have done so far. Each count is modulo 2^64.
#[derive(Drop)]
pub struct Counts {
    /// The sessions that have ended.
    pub sessions: AtomicU64,
    /// The lines that were answered.
    pub lines: AtomicU64,
    /// The lines that were answered `refused`.
    pub refused: AtomicU64,
    /// The sessions that are open now.
    pub open: AtomicU64,
    /// The workers that have a session now.
    pub busy: AtomicU64,
    /// The commits that are queued now and not released.
    pub commits_waiting: AtomicU64,
    /// The commits that were released, by how long they waited ([`place_of`]): from when they were queued until a call of
    /// their session found them released.
    pub waits: [AtomicU64; 13],
    /// The sum of their waits, in nanoseconds.
    pub waited: AtomicU64,
}

impl Counts {
    /// The counts at the start: all 0.
    pub fn new() -> Counts {
        Counts {
            sessions: AtomicU64::new(0),
            lines: AtomicU64::new(0),
            refused: AtomicU64::new(0),
            open: AtomicU64::new(0),
            busy: AtomicU64::new(0),
            commits_waiting: AtomicU64::new(0),
            waits: [
                AtomicU64::new(0),
                AtomicU64::new(0),
                AtomicU64::new(0),
                AtomicU64::new(0),
                AtomicU64::new(0),
                AtomicU64::new(0),
                AtomicU64::new(0),
                AtomicU64::new(0),
                AtomicU64::new(0),
                AtomicU64::new(0),
                AtomicU64::new(0),
                AtomicU64::new(0),
                AtomicU64::new(0),
            ],
            waited: AtomicU64::new(0),
        }
    }

    /// Counts a commit that was released after a wait of so many nanoseconds.
    pub(crate) fn add_wait(&self, wait: u64) {
        self.waits[place_of(wait)].fetch_add(1, Ordering::SeqCst);
        self.waited.fetch_add(wait, Ordering::SeqCst);
    }
}

/// Whether more than `most` nanoseconds have passed from the clock reading `since` to the clock reading `now`.
pub fn is_over(since: u64, most: u64, now: u64) -> bool
    ensures value { result ≡ nat_lt (since + most) now }
{
    now.saturating_sub(since) > most
}
