//! The laws of stampers, beside the sessions of machines.

ghost use Rattle.std.specs.Prelude.{◌≡◌, ℕ, ◌<◌, ◌≤◌, List, ◌∷◌, ◌++◌, Some, All, Contains};
ghost use Rattle.tt_span.specs.Interval.{Interval, Holds, Meets};
ghost use Rattle.tt_judge.specs.Consistency.{IsConsistent};
ghost use Rattle.tt_judge.specs.declared.history.Commit.{Commit};
ghost use Rattle.tt_connections.specs.Sessions.{WorkerSession};
ghost use Rattle.tt_consistency.specs.Assumed.{IsLived, TimedLife};
ghost use Rattle.tt_consistency.specs.Lives.{IsLife, Life, WorkerLife};
ghost use Rattle.tt_consistency.specs.Order.{BeginsAt, IsWithin};
ghost use Rattle.tt_consistency.specs.Snapshots.{AreEndedUpTo, Becomes, CommitTable, IsMadeReadable, ShowTheSame};
ghost use Rattle.tt_consistency.specs.Stampers.{FollowsRule, GivenStamp, IsRightStamper, IsSeenAtStamper, IsSeenInEither, Stamper};
ghost use Rattle.tt_consistency.specs.Timed.{CallTimes, timed_of};

use tt_connections::Presence;
use tt_publish::Clock;

/// Laws of stampers: clients that give stamps in a database's own process, each in a lease of its own, by readings of
/// the file that a machine shares. They are assumed to follow the rule of stamps, and each of their readings to hold the
/// true time at which it was taken.
pub fn stamper_laws<C: Clock, V: Presence>()
    // Each stamp of a stamper is above all stamps before it.
    ensures rising { (lease : Interval) (later : List GivenStamp) (one : GivenStamp) (between : List GivenStamp) (other : GivenStamp) (before : List GivenStamp) →
        FollowsRule lease (later ++ (one ∷ (between ++ (other ∷ before)))) → other.stamp < one.stamp }

    // Each stamp lies in the lease of its stamper.
    ensures leased { (stamper : Stamper) (given : GivenStamp) →
        FollowsRule stamper.lease stamper.given → Contains stamper.given given → Holds stamper.lease given.stamp }

    // So the stamps of two stampers whose leases do not meet differ.
    ensures apart { (one other : Stamper) (given other_given : GivenStamp) → (Meets one.lease other.lease → ⊥) →
        FollowsRule one.lease one.given → FollowsRule other.lease other.given →
        Contains one.given given → Contains other.given other_given → given.stamp ≡ other_given.stamp → ⊥ }

    // The stamps of the sessions of a life lie in its lease, and none lies in the interval of the stampers.
    ensures sessions { (waits : ℕ) (life : Life C.gives C.failed V.says waits) (worker : WorkerLife C.gives C.failed V.says waits)
        (session : WorkerSession C.gives C.failed V.says waits) (times : List CallTimes) (place number stamp : ℕ) →
        IsLife life → Contains life.workers worker → Contains worker.sessions session →
        BeginsAt (timed_of session times).calls place number stamp →
        Holds life.lease stamp × ((stampers : Interval) → life.stampers ≡ Some stampers → Holds stampers stamp → ⊥) }

    // The stamp of a commit lies between the true times at which it began and ended.
    ensures within { (stamper : Stamper) (commit : Commit) → IsRightStamper stamper → IsSeenAtStamper stamper commit → IsWithin commit }

    // So every history of commits that were seen in sessions of any lives of any machines, and at any stampers, is
    // externally consistent, as `tt_judge` judges it.
    ensures consistent { (waits : ℕ) (lives : List (TimedLife C.gives C.failed V.says waits)) (stampers : List Stamper) (history : List Commit) →
        All IsLived lives → All IsRightStamper stampers → All (IsSeenInEither lives stampers) history → IsConsistent history }

    // A snapshot that was made readable beside the table of pending commits misses no commit up to its time: each that is
    // ever begun with such a stamp was written or given up by then.
    ensures whole { (stamper : Stamper) (table after : CommitTable) (t : ℕ) (made : IsMadeReadable table t) → IsRightStamper stamper →
        stamper.given ≡ after.begun → Becomes made.read table after → AreEndedUpTo table after.begun t }

    // So it shows the same for ever: no later commit becomes visible at its time.
    ensures unchanging { (stamper : Stamper) (table after : CommitTable) (t : ℕ) (made : IsMadeReadable table t) → IsRightStamper stamper →
        stamper.given ≡ after.begun → Becomes made.read table after → ShowTheSame table after t }

    // In a worked course of a table all that is assumed for this holds.
    ensures worked_snapshot { (stamper : Stamper) × (table : CommitTable) × (after : CommitTable) × (t : ℕ) × (made : IsMadeReadable table t)
        × IsRightStamper stamper × (stamper.given ≡ after.begun) × Becomes made.read table after }
{}
