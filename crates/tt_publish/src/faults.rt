//! Why a call is refused.

ghost use Rattle.std.specs.Prelude.{◌≡◌};
ghost use Rattle.tt_publish.specs.Fault.{clock_number_of, read_number_of, publish_number_of};

use thiserror::Error;

/// Why a clock gave no reading.
#[derive(Clone, Copy, Debug, PartialEq, Eq, Error)]
pub enum ClockFault {
    #[error("the clock could not be read")]
    Failed,
}

impl ClockFault {
    /// The fault's number: 803.
    pub fn number(&self) -> u16
        ensures { result ≡ clock_number_of self.now }
    {
        match self {
            ClockFault::Failed => 803,
        }
    }
}

/// Why there is no reading.
#[derive(Clone, Copy, Debug, PartialEq, Eq, Error)]
pub enum ReadFault {
    #[error("nothing was published so far")]
    Nothing,
    #[error("the clock is below that of the publication, or above the greatest time")]
    ClockBack,
    #[error("the clock could not be read")]
    ClockFailed,
}

impl ReadFault {
    /// The fault's number: 801 for `Nothing`, 802 for `ClockBack`, 803 for `ClockFailed`.
    pub fn number(&self) -> u16
        ensures { result ≡ read_number_of self.now }
    {
        match self {
            ReadFault::Nothing => 801,
            ReadFault::ClockBack => 802,
            ReadFault::ClockFailed => 803,
        }
    }
}

/// Why nothing was opened or published.
#[derive(Clone, Copy, Debug, PartialEq, Eq, Error)]
pub enum PublishFault {
    #[error("the clock is below that of the last publication")]
    ClockBack,
    #[error("no reader slot is free")]
    Places,
    #[error("no number is left for another publication")]
    UsedUp,
    #[error("out of memory")]
    Memory,
}

impl PublishFault {
    /// The fault's number: 802 for `ClockBack`, 804 for `Places`, 805 for `UsedUp`, 1 for `Memory`.
    pub fn number(&self) -> u16
        ensures { result ≡ publish_number_of self.now }
    {
        match self {
            PublishFault::ClockBack => 802,
            PublishFault::Places => 804,
            PublishFault::UsedUp => 805,
            PublishFault::Memory => 1,
        }
    }
}
