//! Why an event is bad, or there is no world.

ghost use Rattle.std.specs.Prelude.{◌≡◌};
ghost use Rattle.tt_world.specs.Fault.{number_of};
ghost use Rattle.tt_world.specs.Private.Step.{refusal_reply};

use crate::events::Reply;
use std::alloc::{AllocError, AllocFailed};
use thiserror::Error;

/// Why an event is bad, why there is no world, or out of memory. What is refused changes nothing.
#[derive(Clone, Copy, Debug, PartialEq, Eq, Error)]
pub enum WorldFault {
    #[error("true time fell, or passed the greatest time")]
    TimeBack,
    #[error("the machine's clock went back, or passed the greatest time")]
    ClockBack,
    #[error("there is no such packet")]
    NoPacket,
    #[error("there is no such publication, or the worker has read from a later one")]
    NoPublication,
    #[error("the worker has nothing to do this with")]
    NothingThere,
    #[error("there is no such machine, source or worker")]
    UnknownNumber,
    #[error("the machine has used up the numbers of its lives")]
    LivesUsedUp,
    #[error("there can't be a world of these machines")]
    Machines,
    #[error("out of memory")]
    Memory,
}

impl WorldFault {
    /// The fault's number: 1201 `TimeBack`, 1202 `ClockBack`, 1203 `NoPacket`, 1204 `NoPublication`,
    /// 1205 `NothingThere`, 1206 `UnknownNumber`, 1207 `Machines`, 1208 `LivesUsedUp`, 1 `Memory`.
    pub fn number(&self) -> u16
        ensures { result ≡ number_of self.now }
    {
        match self {
            WorldFault::TimeBack => 1201,
            WorldFault::ClockBack => 1202,
            WorldFault::NoPacket => 1203,
            WorldFault::NoPublication => 1204,
            WorldFault::NothingThere => 1205,
            WorldFault::UnknownNumber => 1206,
            WorldFault::Machines => 1207,
            WorldFault::LivesUsedUp => 1208,
            WorldFault::Memory => 1,
        }
    }
}

impl WorldFault {
    /// The reply to an event that is bad for this reason. Out of memory is not a reply.
    pub(crate) fn as_reply(self) -> Result<Reply, WorldFault>
        ensures { result ≡ refusal_reply self }
    {
        match self {
            WorldFault::Memory => Err(WorldFault::Memory),
            fault => Ok(Reply::Refused(fault.number())),
        }
    }
}

impl From<AllocError> for WorldFault {
    ghost use Rattle.std.specs.Prelude.{◌≡◌};
    ghost use Rattle.tt_world.specs.declared.faults.WorldFault.TheVariants.{Memory};

    ghost from_gives = { λ _ e. e ≡ Memory };

    fn from(_error: AllocError) -> WorldFault {
        WorldFault::Memory
    }
}

impl<T: Drop> From<AllocFailed<T>> for WorldFault {
    ghost use Rattle.std.specs.Prelude.{◌≡◌};
    ghost use Rattle.tt_world.specs.declared.faults.WorldFault.TheVariants.{Memory};

    ghost from_gives = { λ _ e. e ≡ Memory };

    fn from(_error: AllocFailed<T>) -> WorldFault {
        WorldFault::Memory
    }
}
