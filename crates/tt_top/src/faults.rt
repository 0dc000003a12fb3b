//! Why there is no view.

ghost use Rattle.std.specs.Prelude.{◌≡◌};
ghost use Rattle.tt_top.specs.Fault.{number_of};

use std::alloc::AllocError;
use thiserror::Error;

/// Why there is no view.
#[derive(Clone, Copy, Debug, PartialEq, Eq, Error)]
pub enum ViewFault {
    #[error("the text is not the status of a machine")]
    NotStatus,
    #[error("the text is not the evidence of a publication")]
    NotEvidence,
    #[error("out of memory")]
    Memory,
}

impl ViewFault {
    /// The fault's number: 2601 for `NotStatus`, 2602 for `NotEvidence`, 1 for `Memory`.
    pub fn number(&self) -> u16
        ensures { result ≡ number_of self.now }
    {
        match self {
            ViewFault::NotStatus => 2601,
            ViewFault::NotEvidence => 2602,
            ViewFault::Memory => 1,
        }
    }
}

impl From<AllocError> for ViewFault {
    ghost use Rattle.std.specs.Prelude.{◌≡◌};
    ghost use Rattle.tt_top.specs.declared.faults.ViewFault.TheVariants.{Memory};

    ghost from_gives = { λ _ fault. fault ≡ Memory };

    fn from(_error: AllocError) -> ViewFault {
        ViewFault::Memory
    }
}
