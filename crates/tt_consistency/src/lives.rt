//! The law of whole lives of machines.

ghost use Rattle.std.specs.Prelude.{◌≡◌, ℕ, ◌<◌, ◌≤◌, List, map, All, Contains};
ghost use Rattle.std.specs.List.{AllByRecursion};
ghost use Rattle.tt_judge.specs.Consistency.{IsConsistent};
ghost use Rattle.tt_judge.specs.declared.history.Commit.{Commit};
ghost use Rattle.tt_consistency.specs.Order.{BeginsAt, IsCommitted};
ghost use Rattle.tt_consistency.specs.Timed.{CallTimes, IsTimed, times_at, timed_of};
ghost use Rattle.tt_publish.specs.Reading.{fused_span_of};
ghost use Rattle.tt_consistency.specs.Timeline.{HeldTrueTime, Timed};
ghost use Rattle.tt_connections.specs.Sessions.{WorkerSession};
ghost use Rattle.tt_consistency.specs.Assumed.{IsAssumed, IsLived, IsSeenInOneOf, IsServedIn, IsTimedIn, TimedLife, machine_of, moments_in};
ghost use Rattle.tt_consistency.specs.Lives.{IsLife, Life, WorkerLife};
ghost use Rattle.tt_consistency.specs.Running.{IsRunning, Start};

use crate::orders::order_laws;
use tt_connections::Presence;
use tt_publish::Clock;

/// The law of whole lives of machines.
///
/// A life is one run of the service on a machine, from its start to its end. Its daemon polls sources, fuses and
/// publishes. Its workers serve sessions of clients. Between two calls of a session its worker may serve other sessions.
///
/// `IsLife` is what a run proves of its own life. The daemon began new, and its calls came one after the other. No reading
/// of its clock was below one before it. Each worker began with a watch that had seen nothing and that reckons with the
/// drift of the configuration. What its watch had seen stayed seen, and its terms stayed the same. It read nothing but what
/// the daemon of this life published.
///
/// `IsAssumed` and `IsTimedIn` are what no program can prove. They say when all this happened in true time, that the clock
/// kept its drift bound, and that at each fusion at most f sources were faulty. A call that was given no reading is asked
/// nothing. No other premise is needed.
pub fn life_laws<C: Clock, V: Presence, D: Clock, W: Presence>()
    // The life is a machine that runs, in the sense of `machine_laws`.
    ensures runs { (waits : ℕ) (life : Life C.gives C.failed V.says waits) (start : Start) (timeline : List Timed) →
        IsLife life → IsAssumed life start timeline → IsRunning (machine_of life start timeline) }

    // Each publication of the life held the true time at a moment of the life at which the clock showed the reading of
    // the publication.
    ensures publications_hold { (waits : ℕ) (life : Life C.gives C.failed V.says waits) (start : Start) (timeline : List Timed) →
        IsLife life → IsAssumed life start timeline →
        AllByRecursion (HeldTrueTime (moments_in start timeline)) (map fused_span_of life.published) }

    // Each reading that a session of a worker was given holds the true time at which it was taken.
    ensures readings_hold { (waits : ℕ) (life : Life C.gives C.failed V.says waits) (start : Start) (timeline : List Timed)
        (worker : WorkerLife C.gives C.failed V.says waits) (session : WorkerSession C.gives C.failed V.says waits)
        (times : List CallTimes) →
        IsLife life → IsAssumed life start timeline → Contains life.workers worker → Contains worker.sessions session →
        IsTimedIn life start timeline session times → IsTimed C.gives C.failed V.says (timed_of session times) }

    // Take two commits, in sessions of any lives of any machines. Suppose that a call answered that the first is
    // released, and that the second came no earlier than this answer. Then the first has the smaller stamp. The second
    // need not be released.
    ensures ordered { (waits other_waits : ℕ) (lived : TimedLife C.gives C.failed V.says waits)
        (other_lived : TimedLife D.gives D.failed W.says other_waits)
        (earlier : WorkerSession C.gives C.failed V.says waits) (later : WorkerSession D.gives D.failed W.says other_waits)
        (times other_times : List CallTimes) (number stamp begun released other_number other_stamp other_begun : ℕ) →
        IsLived lived → IsServedIn lived earlier times → IsLived other_lived → IsServedIn other_lived later other_times →
        IsCommitted (timed_of earlier times).calls number stamp begun released →
        BeginsAt (timed_of later other_times).calls other_begun other_number other_stamp →
        (times_at times released).answered ≤ (times_at other_times other_begun).came →
        stamp < other_stamp }

    // So every history of commits that were seen in these lives is externally consistent, as `tt_judge` judges it.
    ensures consistent { (waits : ℕ) (lives : List (TimedLife C.gives C.failed V.says waits)) (history : List Commit) →
        All IsLived lives → All (IsSeenInOneOf lives) history → IsConsistent history }
{
    order_laws::<C, V, D, W>();
}
