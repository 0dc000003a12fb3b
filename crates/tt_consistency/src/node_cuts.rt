//! The law of cuts of nodes.

ghost use Rattle.std.specs.Prelude.{◌≡◌, ℕ, ◌<◌, ◌≤◌, List, ◌++◌, Some, Ok, All, Contains};
ghost use Rattle.tt_span.specs.Interval.{Interval, Holds};
ghost use Rattle.tt_judge.specs.Consistency.{IsConsistent};
ghost use Rattle.tt_judge.specs.declared.history.Commit.{Commit};
ghost use Rattle.tt_session.specs.declared.calls.Call.{Call};
ghost use Rattle.tt_consistency.specs.Calls.{RoundsCall};
ghost use Rattle.tt_consistency.specs.NodeCuts.{HaveSeenNoMore, IsCutAt, IsNode, IsNodeCut, IsSeenInNodeCut, NodeCut, RestsAt, WorkedAs, node_in, whole_node};
ghost use Rattle.tt_consistency.specs.Order.{BeginsAt, IsCommitted};
ghost use Rattle.tt_consistency.specs.Timed.{CallTimes, times_at};
ghost use Rattle.tt_consistency.specs.Worked.{IsWorking, Look, Node, TimedWorker, look_at};

use crate::services::node_laws;
use tt_node::Gate;
use tt_publish::Clock;

/// The law of cuts of nodes.
///
/// A cut of a node is what its daemon and its workers had done by some moment: the first calls of the daemon, and the first
/// calls of each worker. Each reading in the cut is of a publication in the cut, and each receipt that a worker had seen
/// is of a reading in the cut. Of the clock and the sources the cut assumes only what `node_laws` assumes of a node whose
/// daemon made these calls alone. Nothing is assumed of what came after.
pub fn node_cut_laws<C: Clock, G: Gate, D: Clock, H: Gate>()
    // A cut is a node that works, in the sense of `node_laws`.
    ensures works { (cut : NodeCut C.gives C.failed G.says G.hears) → IsNodeCut cut → IsWorking C.gives C.failed G.says G.hears (node_in cut) }

    // Each reading that a call of a worker took by then holds the true time at which it was taken.
    ensures readings_hold { (cut : NodeCut C.gives C.failed G.says G.hears) (worker : TimedWorker C.gives C.failed G.says G.hears)
        (place : ℕ) (look : Look C) (reading : Interval) →
        IsNodeCut cut → Contains cut.workers worker →
        look_at C.gives C.failed G.says G.hears worker place ≡ Some look → look.answer ≡ Ok reading →
        Holds reading (times_at worker.times place).read }

    // The stamp of a commit is at least the true time at which its reading was taken.
    ensures begun { (cut : NodeCut C.gives C.failed G.says G.hears) (worker : TimedWorker C.gives C.failed G.says G.hears)
        (place number stamp : ℕ) →
        IsNodeCut cut → Contains cut.workers worker → BeginsAt worker.calls place number stamp →
        (times_at worker.times place).read ≤ stamp }

    // If a call answered by then that a commit is released, the stamp of the commit is below the true time of this answer,
    // whichever worker released the commit.
    ensures released { (cut : NodeCut C.gives C.failed G.says G.hears) (worker : TimedWorker C.gives C.failed G.says G.hears)
        (number stamp begun released : ℕ) →
        IsNodeCut cut → Contains cut.workers worker → IsCommitted worker.calls number stamp begun released →
        stamp < (times_at worker.times released).answered }

    // Take two commits, at workers in cuts of any nodes. Suppose that a call answered that the first is released, and that
    // the second came no earlier than this answer. Then the first has the smaller stamp. The second need not be released.
    ensures ordered { (cut : NodeCut C.gives C.failed G.says G.hears) (other_cut : NodeCut D.gives D.failed H.says H.hears)
        (earlier : TimedWorker C.gives C.failed G.says G.hears) (later : TimedWorker D.gives D.failed H.says H.hears)
        (number stamp begun released other_number other_stamp other_begun : ℕ) →
        IsNodeCut cut → Contains cut.workers earlier → IsNodeCut other_cut → Contains other_cut.workers later →
        IsCommitted earlier.calls number stamp begun released → BeginsAt later.calls other_begun other_number other_stamp →
        (times_at earlier.times released).answered ≤ (times_at later.times other_begun).came →
        stamp < other_stamp }

    // So every history of commits that were seen in cuts of any nodes is externally consistent, as `tt_judge` judges it.
    ensures consistent { (cuts : List (NodeCut C.gives C.failed G.says G.hears)) (history : List Commit) →
        All IsNodeCut cuts → All (IsSeenInNodeCut cuts) history → IsConsistent history }

    // A worker has a cut behind each of its calls.
    ensures workers { (whole : TimedWorker C.gives C.failed G.says G.hears) (early later : List Call) (times : List CallTimes) →
        whole.calls ≡ early ++ later →
        (worker : TimedWorker C.gives C.failed G.says G.hears) × (worker.calls ≡ early) × (worker.times ≡ times) × WorkedAs worker whole }

    // Of a cut no more is assumed than of its node. Take first calls of the daemon of a node that works, and a true time at
    // which no call of a worker is between its reading and its answer. There is a cut of these calls and of those that the
    // workers answered by then, if the daemon had published all that the workers had seen.
    ensures no_more { (node : Node C.gives C.failed G.says G.hears) (later calls : List RoundsCall) (time : ℕ) →
        IsNode node → IsWorking C.gives C.failed G.says G.hears node → node.machine.calls ≡ later ++ calls → All (RestsAt time) node.workers →
        (cut : NodeCut C.gives C.failed G.says G.hears) × IsCutAt node calls time cut × (HaveSeenNoMore cut → IsNodeCut cut) }

    // A whole node that works, and whose workers have seen nothing but what it published, is a cut. So these laws say all
    // that `node_laws` says of it.
    ensures wholes { (node : Node C.gives C.failed G.says G.hears) →
        IsNode node → IsWorking C.gives C.failed G.says G.hears node → IsNodeCut (whole_node node) }
{
    node_laws::<C, G, D, H>();
}
