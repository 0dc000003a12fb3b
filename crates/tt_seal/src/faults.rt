//! Why bytes do not open.

ghost use Rattle.std.specs.Prelude.{◌≡◌};
ghost use Rattle.tt_seal.specs.Fault.{number_of};

use thiserror::Error;

/// Why bytes do not open. The reasons are tested in this order.
#[derive(Clone, Copy, Debug, PartialEq, Eq, Error)]
pub enum SealFault {
    #[error("the length is not that of an envelope")]
    Length,
    #[error("no key has the number")]
    UnknownKey,
    #[error("the tag is not that of the message")]
    WrongTag,
}

impl SealFault {
    /// The fault's number: 2201 `Length`, 2202 `UnknownKey`, 2203 `WrongTag`.
    pub fn number(&self) -> u16
        ensures { result ≡ number_of self.now }
    {
        match self {
            SealFault::Length => 2201,
            SealFault::UnknownKey => 2202,
            SealFault::WrongTag => 2203,
        }
    }
}
