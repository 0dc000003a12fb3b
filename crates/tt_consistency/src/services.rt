//! The laws of running machines, of the sessions that are served on them, and of the commits that are seen there.

ghost use Rattle.std.specs.Prelude.{◌≡◌, ℕ, ◌<◌, ◌≤◌, List, ◌∷◌, ◌++◌, Option, Some, None, Ok, All, Contains};
ghost use Rattle.std.specs.List.{AllByRecursion};
ghost use Rattle.tt_span.specs.Interval.{Interval, Holds};
ghost use Rattle.tt_judge.specs.Consistency.{IsConsistent};
ghost use Rattle.tt_judge.specs.declared.history.Commit.{Commit};
ghost use Rattle.tt_session.specs.Answers.{AnswersLines};
ghost use Rattle.tt_session.specs.declared.begun.Begun.{Begun};
ghost use Rattle.tt_session.specs.declared.replies.LineReply.{LineReply};
ghost use Rattle.tt_consistency.specs.Timed.{TimedSession, IsTimed, times_at};
ghost use Rattle.tt_consistency.specs.Order.{BeginsAt, IsCommitted, IsSeen, IsWithin};
ghost use Rattle.tt_consistency.specs.Told.{IsTold};
ghost use Rattle.tt_world.specs.Meeting.{AllMeet};
ghost use Rattle.tt_consistency.specs.Calls.{RoundsCall};
ghost use Rattle.tt_consistency.specs.Timeline.{HeldTrueTime, Timed};
ghost use Rattle.tt_consistency.specs.Running.{Machine, IsRunning, clock_moments, published_by};
ghost use Rattle.tt_consistency.specs.Served.{IsServedOn, IsSeenOnOneOf};
ghost use Rattle.tt_consistency.specs.Worked.{Look, look_at, TimedWorker, Node, IsWorking, IsSeenAtWorkerOf};

use crate::orders::{order_laws, session_laws};
use tt_connections::Presence;
use tt_node::Gate;
use tt_publish::Clock;
use tt_session::LineReply;

/// Laws of one running machine.
pub fn machine_laws()
    // The calls of its daemon come one after the other. Each of their publications held the true time at a moment of
    // the machine's life at which the clock showed the reading of the publication.
    ensures publications_hold { (machine : Machine) →
        IsRunning machine → AllByRecursion (HeldTrueTime (clock_moments machine)) (published_by machine) }

    // Each of their publications meets every publication of this life before it, aged to its clock reading.
    ensures publications_meet { (machine : Machine) → IsRunning machine → AllMeet machine.config.drift (published_by machine) }

    // It ran up to each of its calls, under the assumptions up to then alone. So the laws of the sessions and the nodes on a
    // machine ask nothing of what came later.
    ensures first_calls { (machine : Machine) (later calls : List RoundsCall) → IsRunning machine → machine.calls ≡ later ++ calls →
        (after timeline : List Timed) × (machine.timeline ≡ after ++ timeline) × IsRunning (record machine { calls = calls; timeline = timeline }) }
{}

/// Laws of one session that is served on a running machine.
pub fn service_laws<C: Clock, V: Presence>()
    // Each of its readings holds the true time at which it was taken.
    ensures readings_hold { (machine : Machine) (session : TimedSession C.gives C.failed V.says) →
        IsRunning machine → IsServedOn C.gives C.failed V.says machine session → IsTimed C.gives C.failed V.says session }

    // So the stamp of a commit lies between the true times at which the commit began and ended.
    ensures stamps_lie_within { (machine : Machine) (session : TimedSession C.gives C.failed V.says) (commit : Commit) →
        IsRunning machine → IsServedOn C.gives C.failed V.says machine session → IsSeen session.calls session.times commit →
        IsWithin commit }

    // So it is for each commit for which the session replies `committed`.
    ensures replies_lie_within { (machine : Machine) (session : TimedSession C.gives C.failed V.says) (waits : ℕ) (lines : List (List ℕ))
        (before : List LineReply) (number stamp : ℕ) (after : List LineReply) (last : Option Begun) →
        IsRunning machine → IsServedOn C.gives C.failed V.says machine session →
        AnswersLines waits None lines session.calls (before ++ LineReply.Committed number stamp ∷ after) last →
        (told : IsTold waits lines session.calls before number stamp) × ((times_at session.times told.begun).read ≤ stamp)
        × (stamp < (times_at session.times told.released).read) }
{
    session_laws::<C, V>();
}

/// Laws of commits, on any number of running machines.
pub fn consistency_laws<C: Clock, V: Presence, D: Clock, W: Presence>()
    // Take two commits, at sessions on any machines. Suppose that a call answered that the first is released, and that
    // the second came no earlier than this answer. Then the first has the smaller stamp.
    ensures ordered { (machine other_machine : Machine) (earlier : TimedSession C.gives C.failed V.says)
        (later : TimedSession D.gives D.failed W.says)
        (number stamp begun released other_number other_stamp other_begun : ℕ) →
        IsRunning machine → IsServedOn C.gives C.failed V.says machine earlier →
        IsRunning other_machine → IsServedOn D.gives D.failed W.says other_machine later →
        IsCommitted earlier.calls number stamp begun released → BeginsAt later.calls other_begun other_number other_stamp →
        (times_at earlier.times released).answered ≤ (times_at later.times other_begun).came →
        stamp < other_stamp }

    // So every history of commits that were seen on these machines is externally consistent, as `tt_judge` judges it.
    ensures consistent { (machines : List Machine) (history : List Commit) →
        All IsRunning machines → All (IsSeenOnOneOf C.gives C.failed V.says machines) history → IsConsistent history }
{
    order_laws::<C, V, D, W>();
}

/// Laws of the workers of running nodes. The workers of one node share a sequencer and a book.
pub fn node_laws<C: Clock, G: Gate, D: Clock, H: Gate>()
    // Each reading that a call of a worker took holds the true time at which it was taken.
    ensures readings_hold { (node : Node C.gives C.failed G.says G.hears) (worker : TimedWorker C.gives C.failed G.says G.hears)
        (place : ℕ) (look : Look C) (reading : Interval) →
        IsWorking C.gives C.failed G.says G.hears node → Contains node.workers worker →
        look_at C.gives C.failed G.says G.hears worker place ≡ Some look → look.answer ≡ Ok reading →
        Holds reading (times_at worker.times place).read }

    // The stamp of a commit is at least the true time at which its reading was taken.
    ensures begun { (node : Node C.gives C.failed G.says G.hears) (worker : TimedWorker C.gives C.failed G.says G.hears)
        (place number stamp : ℕ) →
        IsWorking C.gives C.failed G.says G.hears node → Contains node.workers worker → BeginsAt worker.calls place number stamp →
        (times_at worker.times place).read ≤ stamp }

    // If a call answers that a commit is released, the stamp of the commit is below the true time of this answer,
    // whichever worker released the commit.
    ensures released { (node : Node C.gives C.failed G.says G.hears) (worker : TimedWorker C.gives C.failed G.says G.hears)
        (number stamp begun released : ℕ) →
        IsWorking C.gives C.failed G.says G.hears node → Contains node.workers worker → IsCommitted worker.calls number stamp begun released →
        stamp < (times_at worker.times released).answered }

    // Take two commits, at workers of any nodes. Suppose that a call answered that the first is released, and that the
    // second came no earlier than this answer. Then the first has the smaller stamp. The second need not be released.
    ensures ordered { (node : Node C.gives C.failed G.says G.hears) (other_node : Node D.gives D.failed H.says H.hears)
        (earlier : TimedWorker C.gives C.failed G.says G.hears) (later : TimedWorker D.gives D.failed H.says H.hears)
        (number stamp begun released other_number other_stamp other_begun : ℕ) →
        IsWorking C.gives C.failed G.says G.hears node → Contains node.workers earlier →
        IsWorking D.gives D.failed H.says H.hears other_node → Contains other_node.workers later →
        IsCommitted earlier.calls number stamp begun released → BeginsAt later.calls other_begun other_number other_stamp →
        (times_at earlier.times released).answered ≤ (times_at later.times other_begun).came →
        stamp < other_stamp }

    // So every history of commits that were seen at workers of these nodes is externally consistent, as `tt_judge`
    // judges it.
    ensures consistent { (nodes : List (Node C.gives C.failed G.says G.hears)) (history : List Commit) →
        All (IsWorking C.gives C.failed G.says G.hears) nodes →
        All (IsSeenAtWorkerOf C.gives C.failed G.says G.hears nodes) history → IsConsistent history }
{}
