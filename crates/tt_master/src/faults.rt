//! Why a master does not answer.

ghost use Rattle.std.specs.Prelude.{◌≡◌};
ghost use Rattle.tt_master.specs.Fault.{reference_number_of, number_of};

use thiserror::Error;

/// Why a reference gave no time.
#[derive(Clone, Copy, Debug, PartialEq, Eq, Error)]
pub enum RefFault {
    #[error("the reference could not be read")]
    Failed,
}

impl RefFault {
    /// The fault's number: 304, as [`MasterFault::Reference`].
    pub fn number(&self) -> u16
        ensures { result ≡ reference_number_of self.now }
    {
        match self {
            RefFault::Failed => 304,
        }
    }
}

/// Why a packet is not answered. The faults are tested in this order.
#[derive(Clone, Copy, Debug, PartialEq, Eq, Error)]
pub enum MasterFault {
    #[error("the bytes are not a valid message")]
    BadMessage,
    #[error("the message names another source")]
    OtherSource,
    #[error("the message is not a request")]
    NotRequest,
    #[error("the reference could not be read")]
    Reference,
}

impl MasterFault {
    /// The fault's number: 301 `BadMessage`, 302 `OtherSource`, 303 `NotRequest`, 304 `Reference`.
    pub fn number(&self) -> u16
        ensures { result ≡ number_of self.now }
    {
        match self {
            MasterFault::BadMessage => 301,
            MasterFault::OtherSource => 302,
            MasterFault::NotRequest => 303,
            MasterFault::Reference => 304,
        }
    }
}
