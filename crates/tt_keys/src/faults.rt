//! Why a file gives no keys.

ghost use Rattle.std.specs.Prelude.{◌≡◌};
ghost use Rattle.tt_keys.specs.Fault.{number_of};

use thiserror::Error;
use tt_files::Reason;

/// Why a file gives no keys. No fault has a part of the text, which is secret: only the number of a line, counted from 1.
#[derive(Clone, Copy, Debug, PartialEq, Eq, Error)]
pub enum KeysFault {
    #[error("the file of keys can't be read: {0}")]
    CannotRead(Reason),
    #[error("the user of this process is not known, since /proc/self can't be looked at: {0}")]
    UnknownUser(Reason),
    #[error("the mode of the file of keys is neither 0600 nor 0400")]
    Mode,
    #[error("the file of keys has another owner")]
    Owner,
    #[error("the file of keys is too long")]
    TooLong,
    #[error("line {0} is not a key")]
    BadLine(usize),
    #[error("the key in line {0} has the number of an earlier one")]
    SameNumber(usize),
    #[error("out of memory")]
    Memory,
}

impl KeysFault {
    /// The fault's number: 2211 `CannotRead` and `UnknownUser`, 2212 `Mode`, 2213 `Owner`, 2214 `TooLong`, 2215 `BadLine`, 2216
    /// `SameNumber`, 1 `Memory`.
    pub fn number(&self) -> u16
        ensures { result ≡ number_of self.now }
    {
        match self {
            KeysFault::CannotRead(_) | KeysFault::UnknownUser(_) => 2211,
            KeysFault::Mode => 2212,
            KeysFault::Owner => 2213,
            KeysFault::TooLong => 2214,
            KeysFault::BadLine(_) => 2215,
            KeysFault::SameNumber(_) => 2216,
            KeysFault::Memory => 1,
        }
    }
}
