//! Why calls are refused.

ghost use Rattle.std.specs.Prelude.{◌≡◌};
ghost use Rattle.tt_shared.specs.Fault.{shared_number_of, write_number_of, place_number_of};

use thiserror::Error;

/// Why there is no reading of a shared file.
#[derive(Clone, Copy, Debug, PartialEq, Eq, Error)]
pub enum SharedFault {
    #[error("nothing was published so far, or nothing is published any more")]
    Nothing,
    #[error("the clock is below that of the publication, or above the greatest time")]
    ClockBack,
    #[error("the clock could not be read")]
    ClockFailed,
    #[error("the file cannot be opened or read")]
    CannotOpen,
    #[error("the file is not a shared file of this boot, or not of the clock of this process")]
    BadFile,
    #[error("no daemon wrote this slot")]
    BadSlot,
    #[error("each try met another publication")]
    Contended,
    #[error("the clock is past the last reading at which the publication may be used")]
    TooWide,
    #[error("the file gives nothing by CLOCK_MONOTONIC")]
    NoSlewed,
}

impl SharedFault {
    /// The fault's number: 801 for `Nothing`, 802 for `ClockBack`, 803 for `ClockFailed`, 1701 for `CannotOpen`,
    /// 1702 for `BadFile`, 1703 for `BadSlot`, 1704 for `Contended`, 1708 for `TooWide`, 1710 for `NoSlewed`.
    pub fn number(&self) -> u16
        ensures { result ≡ shared_number_of self.now }
    {
        match self {
            SharedFault::Nothing => 801,
            SharedFault::ClockBack => 802,
            SharedFault::ClockFailed => 803,
            SharedFault::CannotOpen => 1701,
            SharedFault::BadFile => 1702,
            SharedFault::BadSlot => 1703,
            SharedFault::Contended => 1704,
            SharedFault::TooWide => 1708,
            SharedFault::NoSlewed => 1710,
        }
    }
}

/// Why a publication was not written, or the file was not opened to write it.
#[derive(Clone, Copy, Debug, PartialEq, Eq, Error)]
pub enum WriteFault {
    #[error("the clock of the publication is above the greatest time")]
    ClockBack,
    #[error("no number is left for another publication")]
    UsedUp,
    #[error("the file cannot be opened or made")]
    CannotOpen,
    #[error("a write to the file failed")]
    Failed,
    #[error("an earlier write failed: the file has to be opened again")]
    Broken,
    #[error("another process writes the file")]
    Locked,
    #[error("the clock of this process is not that of the host")]
    OtherClock,
}

impl WriteFault {
    /// The fault's number: 802 for `ClockBack`, 805 for `UsedUp`, 1701 for `CannotOpen`, 1702 for `OtherClock`, 1705 for
    /// `Failed`, 1706 for `Broken`, 1707 for `Locked`.
    pub fn number(&self) -> u16
        ensures { result ≡ write_number_of self.now }
    {
        match self {
            WriteFault::ClockBack => 802,
            WriteFault::UsedUp => 805,
            WriteFault::CannotOpen => 1701,
            WriteFault::Failed => 1705,
            WriteFault::Broken => 1706,
            WriteFault::Locked => 1707,
            WriteFault::OtherClock => SharedFault::BadFile.number(),
        }
    }
}

/// Why a place was not written.
#[derive(Clone, Copy, Debug, PartialEq, Eq, Error)]
pub enum PlaceFault {
    #[error("the place could not be written")]
    Failed,
}

impl PlaceFault {
    /// The fault's number: 1705.
    pub fn number(&self) -> u16
        ensures { result ≡ place_number_of self.now }
    {
        match self {
            PlaceFault::Failed => 1705,
        }
    }
}
