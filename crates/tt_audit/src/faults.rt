//! Why there is no report.

ghost use Rattle.std.specs.Prelude.{◌≡◌};
ghost use Rattle.tt_audit.specs.Fault.{number_of};

use thiserror::Error;

/// Why a call of this crate refuses.
#[derive(Debug, Clone, Copy, PartialEq, Eq, Error)]
pub enum AuditFault {
    /// Out of memory.
    #[error("out of memory")]
    Memory,
}

impl AuditFault {
    /// The number of the refusal: 1 `Memory`.
    pub fn number(&self) -> u16
        ensures { result ≡ number_of self.now }
    {
        match self {
            AuditFault::Memory => 1,
        }
    }
}
