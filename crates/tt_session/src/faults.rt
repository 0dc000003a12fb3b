//! Why the session refuses a line, why a service gave no reading or did not begin a commit, and why a session ended
//! before its input did.

ghost use Rattle.std.specs.Prelude.{◌≡◌};
ghost use Rattle.tt_session.specs.Fault.{line_number_of, commit_number_of, number_of};

use thiserror::Error;
use tt_publish::ReadFault;
use tt_stamp::{BookFault, StampFault};

/// Why the session itself refuses a line. The session goes on.
#[derive(Clone, Copy, Debug, PartialEq, Eq, Error)]
pub enum LineFault {
    /// The line is not a request.
    #[error("the line is not a request")]
    BadLine,
    /// The line has more than 64 bytes.
    #[error("the line is too long")]
    LongLine,
    /// The number of a commit is below the number of the last one.
    #[error("the number of the commit is below the last one")]
    OldId,
    /// The number of a commit is new, and the last commit is not known as released.
    #[error("another commit is pending")]
    OtherWaits,
}

impl LineFault {
    /// The fault's number: 1101 `BadLine`, 1102 `LongLine`, 1103 `OldId`, 1104 `OtherWaits`.
    pub fn number(&self) -> u16
        ensures { result ≡ line_number_of self.now }
    {
        match self {
            LineFault::BadLine => 1101,
            LineFault::LongLine => 1102,
            LineFault::OldId => 1103,
            LineFault::OtherWaits => 1104,
        }
    }
}

/// Why there was no reading, or a commit was not begun.
#[derive(Clone, Copy, Debug, PartialEq, Eq, Error)]
pub enum CommitFault {
    /// There was no reading.
    #[error("no reading: {0}")]
    Read(ReadFault),
    /// There was a reading, and no stamp was given by it.
    #[error("no stamp: {0}")]
    Stamp(StampFault),
    /// A stamp was given, and the commit was not queued. The stamp is lost.
    #[error("not queued: {0}")]
    Queue(BookFault),
}

impl CommitFault {
    /// The number of the fault within: 801, 802, 803, 901, 902, 903, 1001, 1002, 1003 or 1.
    pub fn number(&self) -> u16
        ensures { result ≡ commit_number_of self.now }
    {
        match self {
            CommitFault::Read(fault) => fault.number(),
            CommitFault::Stamp(fault) => fault.number(),
            CommitFault::Queue(fault) => fault.number(),
        }
    }
}

impl From<CommitFault> for u16 {
    ghost from_gives = { λ fault number. number ≡ commit_number_of fault };

    fn from(fault: CommitFault) -> u16 {
        fault.number()
    }
}

/// Why a session ended before its input did.
#[derive(Clone, Copy, Debug, PartialEq, Eq, Error)]
pub enum ServeFault {
    /// The reader failed, or all reads were made and none said that the input has ended.
    #[error("the reader failed, or the reads are used up")]
    ReadFailed,
    /// The writer failed.
    #[error("the writer failed")]
    WriteFailed,
}

impl ServeFault {
    /// The fault's number: 1105 `ReadFailed`, 1106 `WriteFailed`.
    pub fn number(&self) -> u16
        ensures { result ≡ number_of self.now }
    {
        match self {
            ServeFault::ReadFailed => 1105,
            ServeFault::WriteFailed => 1106,
        }
    }
}
