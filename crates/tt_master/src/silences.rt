//! Why a reference states no interval, and why a request is then not answered.

ghost use Rattle.std.specs.Prelude.{◌≡◌};
ghost use Rattle.tt_master.specs.Silence.{silence_number_of, no_answer_number_of, unheard_as};

use crate::faults::MasterFault;
use thiserror::Error;

/// Why a reference states no interval in which the time lies.
#[derive(Clone, Copy, Debug, PartialEq, Eq, Error)]
pub enum Silence {
    /// The clock that the interval is aged by could not be read.
    #[error("the clock could not be read")]
    Clock,
    /// No server has answered yet.
    #[error("no server has answered yet")]
    Unanswered,
    /// The last answer is too old.
    #[error("the last answer is too old")]
    Old,
    /// The server's last reply was refused: it gives no time.
    #[error("the last reply was refused")]
    Refused,
    /// The server told this client to stop.
    #[error("the server told this client to stop")]
    Stopped,
    /// A leap second is near.
    #[error("a leap second is near")]
    Leap,
    /// The servers disagree: no time is possible.
    #[error("the servers disagree")]
    Disagreed,
    /// The clock was stepped, or is off by more than was stated.
    #[error("the clock was stepped, or is off by more than was stated")]
    Stepped,
}

impl Silence {
    /// The number of this reason: 2401 `Clock`, 2402 `Unanswered`, 2403 `Old`, 2404 `Refused`, 2405 `Stopped`, 2406
    /// `Leap`, 2407 `Disagreed`, 2408 `Stepped`.
    pub fn number(&self) -> u16
        ensures { result ≡ silence_number_of self.now }
    {
        match self {
            Silence::Clock => 2401,
            Silence::Unanswered => 2402,
            Silence::Old => 2403,
            Silence::Refused => 2404,
            Silence::Stopped => 2405,
            Silence::Leap => 2406,
            Silence::Disagreed => 2407,
            Silence::Stepped => 2408,
        }
    }
}

/// Why a master over a reference of intervals does not answer a packet. The first three are tested first, in this
/// order.
#[derive(Clone, Copy, Debug, PartialEq, Eq, Error)]
pub enum NoAnswer {
    #[error("the bytes are not a valid message")]
    BadMessage,
    #[error("the message names another source")]
    OtherSource,
    #[error("the message is not a request")]
    NotRequest,
    /// The reference states no interval.
    #[error("the reference states no interval: {0}")]
    Silent(Silence),
}

impl NoAnswer {
    /// The number of this refusal: 301 `BadMessage`, 302 `OtherSource`, 303 `NotRequest`, and of `Silent` the number of
    /// its reason, 2401 to 2408.
    pub fn number(&self) -> u16
        ensures { result ≡ no_answer_number_of self.now }
    {
        match self {
            NoAnswer::BadMessage => 301,
            NoAnswer::OtherSource => 302,
            NoAnswer::NotRequest => 303,
            NoAnswer::Silent(silence) => silence.number(),
        }
    }

    /// Why a packet is not answered in which no request to this source was read for this reason.
    pub(crate) fn unheard(fault: MasterFault) -> NoAnswer
        ensures { result ≡ unheard_as fault }
    {
        match fault {
            MasterFault::BadMessage => NoAnswer::BadMessage,
            MasterFault::OtherSource => NoAnswer::OtherSource,
            MasterFault::NotRequest | MasterFault::Reference => NoAnswer::NotRequest,
        }
    }
}
