//! The laws of sessions, of their leases and replies, of the order of their commits, and of the stamps of one sequencer.

ghost use Rattle.std.specs.Prelude.{◌≡◌, ℕ, ◌<◌, ◌≤◌, List, ◌∷◌, ◌++◌, Option, Some, None, All};
ghost use Rattle.tt_span.specs.Interval.{Interval, Holds, Meets};
ghost use Rattle.tt_judge.specs.Consistency.{IsConsistent};
ghost use Rattle.tt_judge.specs.declared.history.Commit.{Commit};
ghost use Rattle.tt_session.specs.Answers.{AnswersLines};
ghost use Rattle.tt_session.specs.declared.begun.Begun.{Begun};
ghost use Rattle.tt_session.specs.declared.calls.Call.{Call};
ghost use Rattle.tt_session.specs.declared.replies.LineReply.{LineReply};
ghost use Rattle.tt_stamp.specs.Stamping.{Continues};
ghost use Rattle.tt_connections.specs.Sessions.{WorkerSession};
ghost use Rattle.tt_consistency.specs.Timed.{CallTimes, TimedSession, IsTimed, times_at, timed_of};
ghost use Rattle.tt_consistency.specs.Order.{BeginsAt, ReleasesAt, LeasesAt, NoLeaseBetween, IsLeasedAt, IsCommitted, IsSeen, IsSeenAtSome, IsWithin, ShareSequencer};
ghost use Rattle.tt_consistency.specs.Told.{IsTold};

use tt_connections::Presence;
use tt_publish::Clock;
use tt_session::LineReply;

/// Laws of one session, whose readings hold the true times at which they were taken.
pub fn session_laws<C: Clock, V: Presence>()
    // The stamp of a commit is at least the true time at which its reading was taken.
    ensures begun { (session : TimedSession C.gives C.failed V.says) (place number stamp : ℕ) →
        IsTimed C.gives C.failed V.says session → BeginsAt session.calls place number stamp →
        (times_at session.times place).read ≤ stamp }

    // If a call answers that a commit is released, the stamp of the commit is below the true time at which this call
    // took its reading.
    ensures released { (session : TimedSession C.gives C.failed V.says) (number stamp begun released : ℕ) →
        IsTimed C.gives C.failed V.says session → IsCommitted session.calls number stamp begun released →
        stamp < (times_at session.times released).read }

    // So if somebody sees a commit begin and end, its stamp lies in between.
    ensures within { (session : TimedSession C.gives C.failed V.says) (commit : Commit) →
        IsTimed C.gives C.failed V.says session → IsSeen session.calls session.times commit → IsWithin commit }

    // So it is for each commit for which the session replies `committed`, by its calls up to that reply.
    ensures told { (session : TimedSession C.gives C.failed V.says) (waits : ℕ) (lines : List (List ℕ)) (before : List LineReply)
        (number stamp : ℕ) (after : List LineReply) (last : Option Begun) →
        IsTimed C.gives C.failed V.says session →
        AnswersLines waits None lines session.calls (before ++ LineReply.Committed number stamp ∷ after) last →
        (told : IsTold waits lines session.calls before number stamp) × ((times_at session.times told.begun).read ≤ stamp)
        × (stamp < (times_at session.times told.released).read) }

    // The law `within`, for a session of a worker, whole or broken off. Between its calls the worker may have served other
    // sessions.
    ensures served { (waits : ℕ) (session : WorkerSession C.gives C.failed V.says waits) (times : List CallTimes) (commit : Commit) →
        IsTimed C.gives C.failed V.says (timed_of session times) → IsSeen (timed_of session times).calls times commit →
        IsWithin commit }
{}

/// Laws of the leases of sessions. Nothing is assumed about readings and times.
pub fn lease_laws<C: Clock, V: Presence, D: Clock, W: Presence>()
    // If a call set the lease of the session, then each stamp after it lies in this lease, as long as no other lease is
    // set.
    ensures leased { (session : TimedSession C.gives C.failed V.says) (place lo hi later number stamp : ℕ) →
        LeasesAt session.calls place lo hi → BeginsAt session.calls later number stamp → place < later →
        NoLeaseBetween session.calls place later → Holds (record { lo = lo; hi = hi }) stamp }

    // So stamps under leases that do not meet differ, in any sessions of any machines.
    ensures apart { (one : TimedSession C.gives C.failed V.says) (other : TimedSession D.gives D.failed W.says)
        (lease other_lease : Interval) (place later number stamp other_place other_later other_number other_stamp : ℕ) →
        (Meets lease other_lease → ⊥) → IsLeasedAt one.calls lease place later number stamp →
        IsLeasedAt other.calls other_lease other_place other_later other_number other_stamp →
        stamp ≡ other_stamp → ⊥ }

    // Each stamp of a session lies in the lease of the machine, whatever lease the session sets.
    ensures machine { (session : TimedSession C.gives C.failed V.says) (place number stamp : ℕ) →
        BeginsAt session.calls place number stamp → Holds session.post.lease stamp }

    // None lies in the interval of the stampers, if the machine has one.
    ensures stampers { (session : TimedSession C.gives C.failed V.says) (place number stamp : ℕ) (stampers : Interval) →
        session.post.stampers ≡ Some stampers → BeginsAt session.calls place number stamp → Holds stampers stamp → ⊥ }
{}

/// Laws of the replies of a session.
pub fn reply_laws()
    // If the session replies that a commit is committed, then one of its calls up to this reply began the commit with
    // that stamp, and a later call answered that the commit is released.
    ensures committed { (waits : ℕ) (lines : List (List ℕ)) (calls : List Call) (before : List LineReply) (number stamp : ℕ)
        (after : List LineReply) (last : Option Begun) →
        AnswersLines waits None lines calls (before ++ LineReply.Committed number stamp ∷ after) last →
        IsTold waits lines calls before number stamp }
{}

/// Laws of any number of sessions, of any stations and machines.
pub fn order_laws<C: Clock, V: Presence, D: Clock, W: Presence>()
    // Take two commits, in sessions of any stations. Suppose that a call answered that the first is released, and that
    // the second came no earlier than this answer. Then the first has the smaller stamp. The second need not be
    // released.
    ensures ordered { (earlier : TimedSession C.gives C.failed V.says) (later : TimedSession D.gives D.failed W.says)
        (number stamp begun released other_number other_stamp other_begun : ℕ) →
        IsTimed C.gives C.failed V.says earlier → IsTimed D.gives D.failed W.says later →
        IsCommitted earlier.calls number stamp begun released → BeginsAt later.calls other_begun other_number other_stamp →
        (times_at earlier.times released).answered ≤ (times_at later.times other_begun).came →
        stamp < other_stamp }

    // So every history of commits that were seen at such sessions is externally consistent, as `tt_judge` judges it.
    ensures consistent { (history : List Commit) → All (IsSeenAtSome C.gives C.failed V.says) history → IsConsistent history }

    // It is enough that each stamp lies between the true times at which its commit began and ended.
    ensures consistent_within { (history : List Commit) → All IsWithin history → IsConsistent history }
{}

/// Laws of the stamps of one sequencer. Nothing is assumed about readings and times.
pub fn sequencer_laws<C: Clock, V: Presence, D: Clock, W: Presence>()
    // In a session each stamp is above all stamps before it.
    ensures rising { (session : TimedSession C.gives C.failed V.says) (place number stamp later other_number other_stamp : ℕ) →
        BeginsAt session.calls place number stamp → BeginsAt session.calls later other_number other_stamp → place < later →
        stamp < other_stamp }

    // The same holds from a session to a later session of the same post. In the later session the seat of the post has
    // seen all that it had seen before.
    ensures next { (session : TimedSession C.gives C.failed V.says) (after : TimedSession D.gives D.failed W.says)
        (place number stamp later other_number other_stamp : ℕ) →
        Continues session.after.post.seat.seen after.post.seat.seen →
        BeginsAt session.calls place number stamp → BeginsAt after.calls later other_number other_stamp →
        stamp < other_stamp }

    // Two posts whose seats are of one sequencer never give the same stamp.
    ensures apart { (one : TimedSession C.gives C.failed V.says) (other : TimedSession D.gives D.failed W.says)
        (place number stamp other_place other_number other_stamp : ℕ) →
        ShareSequencer one.after.post.seat other.after.post.seat →
        BeginsAt one.calls place number stamp → BeginsAt other.calls other_place other_number other_stamp →
        stamp ≡ other_stamp → ⊥ }
{}
