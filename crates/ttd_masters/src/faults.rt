//! Why a master does not serve.

ghost use Rattle.std.specs.Prelude.{◌≡◌};
ghost use Rattle.ttd_masters.specs.Fault.{number_of};
ghost use Rattle.ttd_masters.specs.declared.faults.StartFault.TheVariants.{Memory};

use std::alloc::{AllocError, AllocFailed};
use std::net::SocketAddr;
use thiserror::Error;
use tt_files::Reason;
use tt_keys::KeysFault;
use tt_rounds::LinkFault;
use tt_upstream::NtpKeyFault;

/// Why a master does not serve.
#[derive(Clone, Copy, Debug, PartialEq, Eq, Error)]
pub enum StartFault {
    /// What it is to do is out of range.
    #[error("invalid arguments")]
    BadPlan,
    /// A file is longer than 1 MiB.
    #[error("the file is longer than 1048576 bytes")]
    BadFile,
    /// A file is not a regular one, or can't be read.
    #[error("the file can't be read: {0}")]
    ReadFailed(Reason),
    /// It has no socket at its address.
    #[error("no socket can be had at {0}: {1}")]
    CannotListen(SocketAddr, Reason),
    /// It can't listen at the address of its pages.
    #[error("the address for pages can't be listened at: {1}")]
    CannotServePages(SocketAddr, Reason),
    /// It has no socket to ask an NTP server by.
    #[error("no socket can be had to ask {0}: {1}")]
    CannotAsk(SocketAddr, Reason),
    /// The file of keys gives no keys.
    #[error("{0}")]
    Keys(KeysFault),
    /// The file of keys of NTP gives no key with the number.
    #[error("{0}")]
    NtpKeys(NtpKeyFault),
    /// The system gives no random bytes.
    #[error("no random bytes")]
    NoRandom,
    /// A thread can't be started.
    #[error("no thread can be started")]
    NoThread,
    /// Out of memory: an allocation failed.
    #[error("out of memory")]
    Memory,
}

impl StartFault {
    /// The number of the refusal: 1601 `BadPlan`, 1603 `BadFile`, 1604 `ReadFailed`, 1501 `CannotListen` and `CannotAsk`, 1830
    /// `CannotServePages`, the number of the inner fault for `Keys` and `NtpKeys`, 1829 `NoRandom`, 1816 `NoThread`, and 1 `Memory`.
    pub fn number(&self) -> u16
        ensures { result ≡ number_of self.now }
    {
        match self {
            StartFault::BadPlan => 1601,
            StartFault::BadFile => 1603,
            StartFault::ReadFailed(_) => 1604,
            StartFault::CannotListen(_, _) | StartFault::CannotAsk(_, _) => {
                LinkFault::Failed.number()
            }
            StartFault::CannotServePages(_, _) => 1830,
            StartFault::Keys(fault) => fault.number(),
            StartFault::NtpKeys(fault) => fault.number(),
            StartFault::NoRandom => 1829,
            StartFault::NoThread => 1816,
            StartFault::Memory => 1,
        }
    }
}

impl From<AllocError> for StartFault {
    ghost from_gives = { λ _ fault. fault ≡ Memory };

    fn from(_error: AllocError) -> StartFault {
        StartFault::Memory
    }
}

impl<T: Drop> From<AllocFailed<T>> for StartFault {
    ghost from_gives = { λ _ fault. fault ≡ Memory };

    fn from(_error: AllocFailed<T>) -> StartFault {
        StartFault::Memory
    }
}
