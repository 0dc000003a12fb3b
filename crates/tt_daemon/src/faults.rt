//! Why a daemon refuses to fuse.

ghost use Rattle.std.specs.Prelude.{◌≡◌};
ghost use Rattle.tt_daemon.specs.Fault.{number_of};

use thiserror::Error;

/// Why a daemon refuses to fuse. A refused fusion changes nothing.
#[derive(Clone, Copy, Debug, PartialEq, Eq, Error)]
pub enum DaemonFault {
    #[error("the clock went back, or is past the greatest time")]
    ClockBack,
    #[error("too few sources have made a statement")]
    Unknown,
    #[error("no time is possible")]
    NoPoint,
}

impl DaemonFault {
    /// The fault's number: 402 `ClockBack`, 701 `Unknown`, 504 `NoPoint`.
    pub fn number(&self) -> u16
        ensures { result ≡ number_of self.now }
    {
        match self {
            DaemonFault::ClockBack => 402,
            DaemonFault::Unknown => 701,
            DaemonFault::NoPoint => 504,
        }
    }
}
