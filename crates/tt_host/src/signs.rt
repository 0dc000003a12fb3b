//! Signs that the host slept or that a guest was disrupted, which the clock does not show.

ghost use Rattle.std.specs.Prelude.{◌≡◌, true, false};
ghost use Rattle.tt_host.specs.declared.signs.Sleep.TheVariants.{Unseen};

use crate::clocks::{HostClock, HostClocks};
use crate::durations::nanoseconds;
use crate::files::{open_at, read_start};
use crate::guests::disruptions_in;
use crate::sleeps::{Lead, Look, is_wide, narrowed, slept_between};
use crate::slews::SlewLook;
use std::fs::{File, Files};
use std::io;
use std::marker::Model;
use std::time::Duration;

/// How often a round looks at most, where a delay makes a look worthless.
const LOOKS: u32 = 3;

/// The most bytes that are read of a file.
pub const MOST: usize = 64;

/// Reads the first bytes of a file that is no FIFO, which could have it wait. Answers how many.
pub fn read_at<R: Files<File = File>>(
    rt: &R,
    path: &str,
    bytes: &mut [u8; MOST],
) -> io::Result<usize> {
    let mut file = open_at(rt, path)?;
    read_start(&mut file, bytes)
}

/// A time in nanoseconds. None if it can't be read, or has more than 64 bits.
fn nanos_of(read: io::Result<Duration>) -> Option<u64> {
    nanoseconds(read.ok()?)
}

/// One look at how far the clock of the boot leads the monotonic one.
fn look<R: HostClocks>(rt: &R) -> Option<Lead> {
    let before = nanos_of(rt.read_clock(HostClock::Monotonic))?;
    let boot = nanos_of(rt.read_boot())?;
    let after = nanos_of(rt.read_clock(HostClock::Monotonic))?;
    let look = Look {
        before,
        boot,
        after,
    };
    look.lead()
}

/// The best of a few looks: the first that no delay makes wide, or else the last.
fn look_well<R: HostClocks>(rt: &R) -> Option<Lead> {
    let mut lead = look(rt)?;
    for _ in 1..LOOKS {
        if !is_wide(&lead) {
            return Some(lead);
        }
        lead = look(rt)?;
    }
    Some(lead)
}

/// How long a look at both clocks may last without being repeated, in nanoseconds.
const LONG_LOOK: u64 = 2_000;

/// One look at `CLOCK_MONOTONIC` between two readings of the raw clock.
fn slew_look<R: HostClocks>(rt: &R) -> Option<SlewLook> {
    let before = nanos_of(rt.read_clock(HostClock::Raw))?;
    let slewed = nanos_of(rt.read_clock(HostClock::Monotonic))?;
    let after = nanos_of(rt.read_clock(HostClock::Raw))?;
    Some(SlewLook {
        before,
        slewed,
        after,
    })
}

/// A look at `CLOCK_MONOTONIC` between two readings of the raw clock: the first of a few that lasts no longer than two
/// microseconds, or else the last. None if a clock can't be read.
pub fn look_at_slewed<R: HostClocks>(rt: &R) -> Option<SlewLook> {
    let mut look = slew_look(rt)?;
    for _ in 1..LOOKS {
        if look.after.saturating_sub(look.before) <= LONG_LOOK {
            return Some(look);
        }
        look = slew_look(rt)?;
    }
    Some(look)
}

/// Watches how far the time since the start of the host, sleep included, leads the monotonic clock. In contracts it is whether
/// its last look failed.
#[derive(Drop)]
pub struct SleepWatch {
    lead: Option<Lead>,
    /// Whether the last look failed.
    is_blind: bool,
}

impl Model for SleepWatch {
    ghost use Rattle.std.specs.Prelude.{Bool};

    ghost Value = { Bool };

    ghost view = { λ w. w.is_blind };
}

/// What a look of [`SleepWatch::look`] found.
#[derive(Clone, Copy)]
pub enum Sleep {
    /// The host did not sleep, as far as it is seen.
    Awake,
    /// The host slept for so many nanoseconds at least.
    Slept(u64),
    /// It can't be seen now, and could be seen before. The next look tries again.
    Unseen,
}

impl SleepWatch {
    /// No look was made, so none has failed.
    pub fn new() -> SleepWatch
        ensures seen { result ≡ false }
    {
        SleepWatch {
            lead: None,
            is_blind: false,
        }
    }

    /// Whether it would not be seen now that the host sleeps: the last look failed.
    pub fn is_blind(&self) -> bool
        ensures value { result ≡ self.now }
    {
        self.is_blind
    }

    /// Looks whether the host has slept since the last look that saw it. A look that fails changes nothing of what is known.
    pub fn look<R: HostClocks>(&mut self, rt: &R) -> Sleep
        ensures said { result ≡ Unseen → (self.old ≡ false) × (self.new ≡ true) }
        ensures turned { self.old ≡ false → self.new ≡ true → result ≡ Unseen }
    {
        let Some(later) = look_well(rt) else {
            if self.is_blind {
                return Sleep::Awake;
            }
            self.is_blind = true;
            return Sleep::Unseen;
        };
        self.is_blind = false;
        let Some(earlier) = self.lead else {
            self.lead = Some(later);
            return Sleep::Awake;
        };
        let slept = slept_between(&earlier, &later);
        self.lead = Some(narrowed(&earlier, &later));
        if slept > 0 {
            Sleep::Slept(slept)
        } else {
            Sleep::Awake
        }
    }
}

/// Watches the counter of disruptions that a hypervisor gives its guest.
#[derive(Clone, Copy)]
pub struct GuestWatch {
    last: Option<u64>,
}

impl GuestWatch {
    /// No look was made.
    pub fn new() -> GuestWatch {
        GuestWatch { last: None }
    }

    /// Looks whether the counter at this path has changed since the last look that read it.
    pub fn look<R: Files<File = File>>(&mut self, rt: &R, path: &str) -> bool {
        let mut bytes = [0; MOST];
        let Ok(count) = read_at(rt, path, &mut bytes) else {
            return false;
        };
        let Some(bytes) = bytes.get(..count) else {
            return false;
        };
        let Some(counter) = disruptions_in(bytes) else {
            return false;
        };
        let before = self.last;
        self.last = Some(counter);
        match before {
            Some(before) => before != counter,
            None => false,
        }
    }
}
