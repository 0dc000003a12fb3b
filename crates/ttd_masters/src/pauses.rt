//! When a master looks at its file of keys and shows its status, and how long it waits for its address.

ghost use Rattle.std.specs.Prelude.{◌≡◌};
ghost use Rattle.ttd_masters.specs.Pauses.{is_due as is_due_at, next_pause as pause_after};

use std::time::Clock as SystemClock;
use tt_clock::MachineClock;
use tt_publish::Clock;

/// The first pause before a master tries its address again, in milliseconds.
pub(crate) const FIRST_PAUSE: u64 = 1_000;

/// The longest such pause, in milliseconds.
const LONGEST_PAUSE: u64 = 30_000;

/// How much time is between two looks at least, in nanoseconds.
const BETWEEN: u64 = 1_000_000_000;

/// The pause after this one, in milliseconds: twice as long, and 30 seconds at most.
pub(crate) fn next_pause(pause: u64) -> u64
    ensures { result ≡ pause_after pause }
{
    pause.saturating_mul(2).min(LONGEST_PAUSE)
}

/// Whether a look is due at this clock reading, after the last one at that.
fn is_due(last: u64, now: u64) -> bool
    ensures { result ≡ is_due_at last now }
{
    now.saturating_sub(last) >= BETWEEN
}

/// Looks that are a second apart at least, by the monotonic clock.
#[derive(Drop)]
pub(crate) struct Looks<'a, R> {
    clock: MachineClock<'a, R>,
    last: u64,
}

impl<'a, R: SystemClock> Looks<'a, R> {
    /// The first look is due a second after the clock began.
    pub(crate) fn new(rt: &'a R) -> Self {
        Looks {
            clock: MachineClock::new(rt),
            last: 0,
        }
    }

    /// Whether a look is due now. If so, the next is due a second later. None is due while the clock can't be read.
    pub(crate) fn is_due(&mut self) -> bool {
        let Ok(now) = self.clock.read() else {
            return false;
        };
        if !is_due(self.last, now) {
            return false;
        }
        self.last = now;
        true
    }
}
