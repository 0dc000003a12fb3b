//! Why a run is refused.

ghost use Rattle.std.specs.Prelude.{◌≡◌};
ghost use Rattle.tt_live.specs.declared.faults.LiveFault.TheVariants.{Node};
ghost use Rattle.tt_live.specs.Fault.{number_of};

use thiserror::Error;
use tt_rounds::NodeFault;

/// Why a script is not run live, or why its run ended before it was done.
#[derive(Clone, Copy, Debug, PartialEq, Eq, Error)]
pub enum LiveFault {
    /// The script has no part for a run in threads.
    #[error("the script has no live part")]
    NoLive,
    /// The script does not have exactly one machine, one master for each source, and one session for each worker.
    #[error("the live part does not fit the machine")]
    Unfit,
    /// A device failed, memory ran out, or the node ended with a fault.
    #[error("the node ended: {0}")]
    Node(NodeFault),
}

impl LiveFault {
    /// The fault's number: 1302 `NoLive`, 1303 `Unfit`, the number of the inner fault for `Node`.
    pub fn number(&self) -> u16
        ensures { result ≡ number_of self.now }
    {
        match self {
            LiveFault::NoLive => 1302,
            LiveFault::Unfit => 1303,
            LiveFault::Node(fault) => fault.number(),
        }
    }
}

impl From<NodeFault> for LiveFault {
    ghost from_gives = { λ node fault. fault ≡ Node node };

    fn from(node: NodeFault) -> LiveFault {
        LiveFault::Node(node)
    }
}
