//! Why there is no next epoch.

ghost use Rattle.std.specs.Prelude.{◌≡◌};
ghost use Rattle.tt_epoch.specs.Fault.{number_of};

use thiserror::Error;
use tt_files::Reason;

/// Why there is no next epoch.
#[derive(Clone, Copy, Debug, PartialEq, Eq, Error)]
pub enum EpochFault {
    #[error("the epoch can't be read: {0}")]
    ReadFailed(Reason),
    #[error("the folder of the epoch can't be used: {0}")]
    FolderFailed(Reason),
    #[error("the lock of the epoch can't be opened: {0}")]
    LockFailed(Reason),
    #[error("the epoch can't be written: {0}")]
    WriteFailed(Reason),
    #[error("the file is not an epoch file")]
    NotAnEpochFile,
    #[error("no epoch is left")]
    UsedUp,
    #[error("another process holds the folder")]
    Locked,
    #[error("out of memory")]
    Memory,
}

impl EpochFault {
    /// The fault's number: 1811 for `ReadFailed`, 1812 for `FolderFailed`, `LockFailed` and `WriteFailed`, 1813 for `NotAnEpochFile`, 1814 for
    /// `UsedUp`, 1815 for `Locked`, 1 for `Memory`.
    pub fn number(&self) -> u16
        ensures { result ≡ number_of self.now }
    {
        match self {
            EpochFault::ReadFailed(_) => 1811,
            EpochFault::FolderFailed(_) | EpochFault::LockFailed(_) | EpochFault::WriteFailed(_) =>
                1812,
            EpochFault::NotAnEpochFile => 1813,
            EpochFault::UsedUp => 1814,
            EpochFault::Locked => 1815,
            EpochFault::Memory => 1,
        }
    }
}
