//! Why there is no twin.

ghost use Rattle.std.specs.Prelude.{◌≡◌};
ghost use Rattle.tt_twin.specs.TwinFault.{number_of};

use std::alloc::{AllocError, AllocFailed};
use thiserror::Error;
use tt_world::WorldFault;

/// Why there is no twin.
#[derive(Clone, Copy, Debug, PartialEq, Eq, Error)]
pub enum TwinFault {
    #[error("there can't be a world of these machines")]
    Machines,
    #[error("the event is not there, or its reply is no reading")]
    NotAReading,
    #[error("the end of the reading lies past the greatest time before it is cut")]
    Cut,
    #[error("out of memory")]
    Memory,
}

impl TwinFault {
    /// The fault's number: 1207 `Machines`, 1401 `NotAReading`, 1402 `Cut`, 1 `Memory`.
    pub fn number(&self) -> u16
        ensures { result ≡ number_of self.now }
    {
        match self {
            TwinFault::Machines => 1207,
            TwinFault::NotAReading => 1401,
            TwinFault::Cut => 1402,
            TwinFault::Memory => 1,
        }
    }
}

impl From<AllocError> for TwinFault {
    ghost use Rattle.std.specs.Prelude.{◌≡◌};
    ghost use Rattle.tt_twin.specs.declared.twin_faults.TwinFault.TheVariants.{Memory};

    ghost from_gives = { λ _ e. e ≡ Memory };

    fn from(_error: AllocError) -> TwinFault {
        TwinFault::Memory
    }
}

impl<T: Drop> From<AllocFailed<T>> for TwinFault {
    ghost use Rattle.std.specs.Prelude.{◌≡◌};
    ghost use Rattle.tt_twin.specs.declared.twin_faults.TwinFault.TheVariants.{Memory};

    ghost from_gives = { λ _ e. e ≡ Memory };

    fn from(_error: AllocFailed<T>) -> TwinFault {
        TwinFault::Memory
    }
}
