//! The clocks of the host, by their numbers in Linux.

ghost use Rattle.std.specs.Prelude.{◌≡◌};
ghost use Rattle.tt_host.specs.Clocks.{device_number_of, number_of};

use crate::files::open_at;
use std::fs::{File, Files};
use std::io::{self, Error, ErrorKind};
use std::os::fd::AsRawFd;
use std::time::Duration;

/// A clock of the host by which a machine measures: nobody sets it, and it stands still while the host sleeps.
#[derive(Clone, Copy, Debug, PartialEq, Eq)]
pub enum HostClock {
    /// `CLOCK_MONOTONIC`, which an NTP daemon slews.
    Monotonic,
    /// `CLOCK_MONOTONIC_RAW`: the oscillator alone, which nobody slews.
    Raw,
}

impl HostClock {
    /// Its number in Linux.
    pub fn number(self) -> u32
        ensures value { result ≡ number_of self }
    {
        match self {
            HostClock::Monotonic => 1,
            HostClock::Raw => 4,
        }
    }
}

/// The number of `CLOCK_BOOTTIME` in Linux.
const BOOT: i32 = 7;

/// The clocks of the host. The runtime handle has them. Each is an error if it can't be read, or is before its zero. Nothing
/// else is claimed of what they show.
pub trait HostClocks {
    /// The time since the zero of this clock.
    fn read_clock(&self, clock: HostClock) -> io::Result<Duration>;

    /// The time since the start of the host, by `CLOCK_BOOTTIME`. It is that of `CLOCK_MONOTONIC`, and how long the host has
    /// slept.
    fn read_boot(&self) -> io::Result<Duration>;
}

/// The time of the clock with this number in Linux.
fn time_by(number: i32) -> io::Result<Duration> {
    let mut time = libc::types::timespec {
        tv_sec: 0,
        tv_nsec: 0,
    };
    if libc::clock_gettime(number, &mut time) != 0 || time.tv_sec < 0 {
        return Err(Error::from(ErrorKind::InvalidData));
    }
    let nanos = Duration::from_nanos(time.tv_nsec.unsigned_abs());
    Ok(Duration::from_secs(time.tv_sec.unsigned_abs()).saturating_add(nanos))
}

/// The number in Linux of the clock of a device, by the number of its open file. None where it would be below -2^31.
fn device_number(file: u32) -> Option<i32>
    ensures value { result ≡ device_number_of file }
{
    let low = file.checked_mul(8)?.checked_add(4)?;
    match i32::try_from(low) {
        Ok(low) => Some(-1 - low),
        Err(_) => None,
    }
}

/// A hardware clock of the host, such as that of a network card: a device as `/dev/ptp0`, which is open.
#[derive(Drop)]
pub struct DeviceClock {
    file: File,
}

impl DeviceClock {
    /// The clock at this path. Whether it is one is seen when it is read. An error for a FIFO, which could have it wait.
    pub fn open<R: Files<File = File>>(rt: &R, path: &str) -> io::Result<DeviceClock> {
        let file = open_at(rt, path)?;
        Ok(DeviceClock { file })
    }

    /// The time since the zero of this clock. An error if it can't be read, or is before its zero. Nothing else is claimed of
    /// what it shows.
    pub fn read(&self) -> io::Result<Duration> {
        let number = match u32::try_from(self.file.as_raw_fd()) {
            Ok(file) => device_number(file),
            Err(_) => None,
        };
        match number {
            Some(number) => time_by(number),
            None => Err(Error::from(ErrorKind::InvalidInput)),
        }
    }
}

impl HostClocks for HostRuntime {
    fn read_clock(&self, clock: HostClock) -> io::Result<Duration> {
        time_by(clock.number() as i32)
    }

    fn read_boot(&self) -> io::Result<Duration> {
        time_by(BOOT)
    }
}
