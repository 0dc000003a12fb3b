//! Why a text is not a history.

ghost use Rattle.std.specs.Prelude.{◌≡◌};
ghost use Rattle.tt_judge.specs.Fault.{number_of};

use thiserror::Error;

/// Why no history was read.
#[derive(Clone, Copy, Debug, PartialEq, Eq, Error)]
pub enum HistoryFault {
    /// This line of the text, counted from 1, is the first that is not a commit's line.
    #[error("line {0} is not a commit's line")]
    BadLine(usize),
    /// Out of memory.
    #[error("out of memory")]
    Memory,
}

impl HistoryFault {
    /// The fault's number: 1603 `BadLine`, 1 `Memory`.
    pub fn number(&self) -> u16
        ensures { result ≡ number_of self.now }
    {
        match self {
            HistoryFault::BadLine(_) => 1603,
            HistoryFault::Memory => 1,
        }
    }
}
