//! Why a call refuses.

ghost use Rattle.std.specs.Prelude.{◌≡◌};
ghost use Rattle.tt_rounds.specs.Fault.{link_number_of, number_of};

use thiserror::Error;
use tt_publish::PublishFault;
use tt_stamp::StampFault;

/// Why a link did not send or receive.
#[derive(Clone, Copy, Debug, PartialEq, Eq, Error)]
pub enum LinkFault {
    #[error("the link failed")]
    Failed,
}

impl LinkFault {
    /// The fault's number: 1501.
    pub fn number(&self) -> u16
        ensures { result ≡ link_number_of self.now }
    {
        match self {
            LinkFault::Failed => 1501,
        }
    }
}

/// Why the rounds of a daemon, the turns of a master, or a node ended.
#[derive(Clone, Copy, Debug, PartialEq, Eq, Error)]
pub enum NodeFault {
    /// The link failed.
    #[error("the link failed")]
    LinkFailed,
    /// The clock could not be read.
    #[error("the clock could not be read")]
    ClockFailed,
    /// There is no stream, there are too many, there is not one clock for each stream, or a limit is 0.
    #[error("the streams and clocks do not fit the limits")]
    BadLimits,
    /// The gate never let the call pass.
    #[error("the gate is closed")]
    GateClosed,
    /// The reference of a master could not be read.
    #[error("the reference could not be read")]
    ReferenceFailed,
    /// A fusion was not published, or the list of publications was not opened.
    #[error("no publication: {0}")]
    Publish(PublishFault),
    /// No sequencer was opened.
    #[error("no sequencer: {0}")]
    Stamp(StampFault),
    /// An allocation failed, or a thread was not started.
    #[error("out of memory")]
    Memory,
}

impl NodeFault {
    /// The fault's number: 1501 `LinkFailed`, 1502 `ClockFailed`, 1503 `BadLimits`, 1504 `GateClosed`, 304
    /// `ReferenceFailed`, the number of the inner fault for `Publish` and `Stamp`, 1 `Memory`.
    pub fn number(&self) -> u16
        ensures { result ≡ number_of self.now }
    {
        match self {
            NodeFault::LinkFailed => 1501,
            NodeFault::ClockFailed => 1502,
            NodeFault::BadLimits => 1503,
            NodeFault::GateClosed => 1504,
            NodeFault::ReferenceFailed => 304,
            NodeFault::Publish(fault) => fault.number(),
            NodeFault::Stamp(fault) => fault.number(),
            NodeFault::Memory => 1,
        }
    }
}
