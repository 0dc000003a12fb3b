//! Why there is no reporter.

ghost use Rattle.std.specs.Prelude.{◌≡◌};
ghost use Rattle.tt_report.specs.Fault.{number_of};

use thiserror::Error;

/// Why there is no reporter.
#[derive(Clone, Copy, Debug, PartialEq, Eq, Error)]
pub enum ReporterFault {
    #[error("a thread could not be started")]
    NoThread,
    #[error("out of memory")]
    Memory,
}

impl ReporterFault {
    /// The number of the fault: 1816 for `NoThread`, 1 for `Memory`.
    pub fn number(&self) -> u16
        ensures value { result ≡ number_of self.now }
    {
        match self {
            ReporterFault::NoThread => 1816,
            ReporterFault::Memory => 1,
        }
    }
}
