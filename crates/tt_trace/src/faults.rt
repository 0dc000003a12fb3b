//! Why there is no picture.

ghost use Rattle.std.specs.Prelude.{◌≡◌};
ghost use Rattle.tt_trace.specs.Fault.{number_of};

use thiserror::Error;

/// Why a call of this crate refuses.
#[derive(Debug, Clone, Copy, PartialEq, Eq, Error)]
pub enum PictureFault {
    /// Out of memory.
    #[error("out of memory")]
    Memory,
}

impl PictureFault {
    /// The number of the refusal: 1 `Memory`.
    pub fn number(&self) -> u16
        ensures { result ≡ number_of self.now }
    {
        match self {
            PictureFault::Memory => 1,
        }
    }
}
