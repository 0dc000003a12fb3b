//! The fault of a device, and why an input could not be read whole.

ghost use Rattle.std.specs.Prelude.{◌≡◌};
ghost use Rattle.tt_stream.specs.declared.fault.ReadFault.TheVariants.{Failed, Memory};

use std::alloc::AllocError;
use thiserror::Error;

/// A device failed. Its own count of failures says so too.
#[derive(Clone, Copy, Debug, PartialEq, Eq, Error)]
#[error("the device failed")]
pub struct DeviceFault;

/// Why an input could not be read whole. These faults have no numbers of their own. The caller answers numbers of its
/// own for them, and 1 for `Memory`.
#[derive(Clone, Copy, Debug, PartialEq, Eq, Error)]
pub enum ReadFault {
    /// The reader failed.
    #[error("the reader failed")]
    Failed,
    /// The input has more bytes than are allowed.
    #[error("the input is too long")]
    TooLong,
    /// All allowed reads were made, and none said that the input has ended.
    #[error("the reads are used up")]
    UsedUp,
    /// Out of memory: an allocation for the bytes that came failed.
    #[error("out of memory")]
    Memory,
}

impl From<DeviceFault> for ReadFault {
    ghost from_gives = { λ _ fault. fault ≡ Failed };

    fn from(_fault: DeviceFault) -> ReadFault {
        ReadFault::Failed
    }
}

impl From<AllocError> for ReadFault {
    ghost from_gives = { λ _ fault. fault ≡ Memory };

    fn from(_refused: AllocError) -> ReadFault {
        ReadFault::Memory
    }
}
