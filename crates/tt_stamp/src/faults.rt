//! Why a stamp was not given, a commit did not begin or was not queued, and a session was not forgotten.

ghost use Rattle.std.specs.Prelude.{◌≡◌};
ghost use Rattle.tt_stamp.specs.Fault.{number_of, begin_number_of, book_number_of, forget_number_of};

use thiserror::Error;
use tt_publish::ReadFault;

/// Why no stamp was given, or a sequencer was not opened.
#[derive(Clone, Copy, Debug, PartialEq, Eq, Error)]
pub enum StampFault {
    #[error("no stamp is left up to the greatest time")]
    UsedUp,
    #[error("the floor is too far ahead of the latest")]
    FloorTooFar,
    #[error("the lease is over")]
    LeaseOver,
    #[error("there are no seats, or too many")]
    Seats,
    #[error("out of memory")]
    Memory,
}

impl StampFault {
    /// The fault's number: 901 `UsedUp`, 902 `FloorTooFar`, 903 `LeaseOver`, 904 `Seats`, 1 `Memory`.
    pub fn number(&self) -> u16
        ensures { result ≡ number_of self.now }
    {
        match self {
            StampFault::UsedUp => 901,
            StampFault::FloorTooFar => 902,
            StampFault::LeaseOver => 903,
            StampFault::Seats => 904,
            StampFault::Memory => 1,
        }
    }
}

/// Why a commit did not begin.
#[derive(Clone, Copy, Debug, PartialEq, Eq, Error)]
pub enum BeginFault {
    /// There was no reading. The seat is as it was.
    #[error("no reading: {0}")]
    Read(ReadFault),
    /// There was a reading, and no stamp was given by it.
    #[error("no stamp: {0}")]
    Stamp(StampFault),
}

impl BeginFault {
    /// The number of the fault within: 801, 802, 803, 901, 902 or 903.
    pub fn number(&self) -> u16
        ensures { result ≡ begin_number_of self.now }
    {
        match self {
            BeginFault::Read(fault) => fault.number(),
            BeginFault::Stamp(fault) => fault.number(),
        }
    }
}

/// Why a commit was not queued. The book is as it was.
#[derive(Clone, Copy, Debug, PartialEq, Eq, Error)]
pub enum BookFault {
    #[error("the queue is full")]
    Full,
    #[error("a commit with this id waits or was released")]
    IdThere,
    #[error("a commit with this stamp waits or was released")]
    StampThere,
    #[error("out of memory")]
    Memory,
}

impl BookFault {
    /// The fault's number: 1001 `Full`, 1002 `IdThere`, 1003 `StampThere`, 1 `Memory`.
    pub fn number(&self) -> u16
        ensures { result ≡ book_number_of self.now }
    {
        match self {
            BookFault::Full => 1001,
            BookFault::IdThere => 1002,
            BookFault::StampThere => 1003,
            BookFault::Memory => 1,
        }
    }
}

/// Why a session was not forgotten. The book is as it was.
#[derive(Clone, Copy, Debug, PartialEq, Eq, Error)]
pub enum ForgetFault {
    #[error("a commit of the session waits")]
    Waits,
    #[error("out of memory")]
    Memory,
}

impl ForgetFault {
    /// The fault's number: 1004 `Waits`, 1 `Memory`.
    pub fn number(&self) -> u16
        ensures { result ≡ forget_number_of self.now }
    {
        match self {
            ForgetFault::Waits => 1004,
            ForgetFault::Memory => 1,
        }
    }
}
