//! Why a call on sources was refused.

ghost use Rattle.std.specs.Prelude.{◌≡◌};
ghost use Rattle.tt_source.specs.Fault.{number_of};

use thiserror::Error;

/// Why a call was refused. A refused call changes nothing.
#[derive(Clone, Copy, Debug, PartialEq, Eq, Error)]
pub enum SourceFault {
    #[error("there is no such source")]
    NoSource,
    #[error("the clock went back, or is past the greatest time")]
    ClockBack,
    #[error("every nonce has been used")]
    NoncesUsedUp,
    #[error("the packet is no poll message")]
    BadMessage,
    #[error("the message is not an answer to this machine from this source")]
    NotMine,
    #[error("the answer is to another life of this machine")]
    OtherEpoch,
    #[error("no poll with this nonce waits for an answer")]
    NotOutstanding,
}

impl SourceFault {
    /// The fault's number: 401 `NoSource`, 402 `ClockBack`, 403 `NoncesUsedUp`, 404 `BadMessage`,
    /// 405 `NotMine`, 407 `OtherEpoch`, 406 `NotOutstanding`.
    pub fn number(&self) -> u16
        ensures { result ≡ number_of self.now }
    {
        match self {
            SourceFault::NoSource => 401,
            SourceFault::ClockBack => 402,
            SourceFault::NoncesUsedUp => 403,
            SourceFault::BadMessage => 404,
            SourceFault::NotMine => 405,
            SourceFault::OtherEpoch => 407,
            SourceFault::NotOutstanding => 406,
        }
    }
}
