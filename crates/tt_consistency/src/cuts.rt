//! The law of cuts of lives.

ghost use Rattle.std.specs.Prelude.{◌≡◌, ℕ, ◌<◌, ◌≤◌, List, ◌++◌, length, Some, All, Contains};
ghost use Rattle.std.specs.List.{AllByRecursion};
ghost use Rattle.tt_span.specs.Interval.{Interval, Holds};
ghost use Rattle.tt_judge.specs.Consistency.{IsConsistent};
ghost use Rattle.tt_judge.specs.declared.history.Commit.{Commit};
ghost use Rattle.tt_session.specs.declared.calls.Call.{Call};
ghost use Rattle.tt_clock.specs.Clock.{ClockState, MachineGives};
ghost use Rattle.tt_connections.specs.Client.{ClientSays};
ghost use Rattle.tt_connections.specs.Sessions.{WorkerSession};
ghost use Rattle.tt_world.specs.Meeting.{AllMeet, HasUnmet};
ghost use Rattle.tt_consistency.specs.Assumed.{IsAssumed, IsLived, IsServedIn, IsTimedIn, TimedLife, moments_in};
ghost use Rattle.tt_consistency.specs.Calls.{RoundsCall, calls_steps};
ghost use Rattle.tt_consistency.specs.Cuts.{AreLeast, BeginsAs, BreaksBehind, Cut, HasBroken, IsBegunIn, IsCut, IsIn, IsLeastCut, IsReadIn, IsSeenBeside, IsToldOf, life_by, machine_by, published_in, whole_of};
ghost use Rattle.tt_consistency.specs.Lives.{IsLife, Life, WorkerLife};
ghost use Rattle.tt_consistency.specs.Order.{BeginsAt, IsCommitted};
ghost use Rattle.tt_consistency.specs.Running.{IsRunning, Start};
ghost use Rattle.tt_consistency.specs.Stampers.{IsRightStamper, Stamper};
ghost use Rattle.tt_consistency.specs.Timed.{AreInOrder, CallTimes, IsTimed, TimedSession, times_at, timed_of};
ghost use Rattle.tt_consistency.specs.Timeline.{HeldTrueTime, Timed, steps_told};

use crate::orders::order_laws;
use tt_connections::Presence;
use tt_publish::Clock;

/// The law of cuts of lives.
///
/// A cut of a life is what its daemon and its workers had done by some moment of it: the first calls of the daemon, and
/// the first calls of each session. Each reading in the cut is of a publication in the cut. Of the clock and the sources the
/// cut assumes only what `life_laws` assumes of a life whose daemon made these calls alone. Nothing is assumed of what
/// came after.
///
/// So where an assumption breaks, all that came before it stays right. A life that was killed did what a cut of a life
/// does that would have ended in order.
pub fn cut_laws<C: Clock, V: Presence, D: Clock, W: Presence>()
    // A cut is a machine that runs, in the sense of `machine_laws`.
    ensures runs { (waits : ℕ) (cut : Cut C.gives C.failed V.says waits) → IsCut cut → IsRunning (machine_by cut) }

    // Each publication of the cut held the true time at a moment of the cut at which the clock showed the reading of the
    // publication.
    ensures publications_hold { (waits : ℕ) (cut : Cut C.gives C.failed V.says waits) → IsCut cut →
        AllByRecursion (HeldTrueTime (moments_in cut.start cut.timeline)) (published_in cut) }

    // Each publication of the cut meets every publication before it, aged to its clock reading.
    ensures publications_meet { (waits : ℕ) (cut : Cut C.gives C.failed V.says waits) → IsCut cut →
        AllMeet cut.life.config.drift (published_in cut) }

    // Each reading that a session was given by then holds the true time at which it was taken.
    ensures readings_hold { (waits : ℕ) (cut : Cut C.gives C.failed V.says waits) (session : TimedSession C.gives C.failed V.says) →
        IsCut cut → IsIn cut session → IsTimed C.gives C.failed V.says session }

    // Take two commits, in cuts of any lives of any machines. Suppose that a call answered that the first is released, and
    // that the second came no earlier than this answer. Then the first has the smaller stamp. The second need not be
    // released.
    ensures ordered { (waits other_waits : ℕ) (cut : Cut C.gives C.failed V.says waits) (other_cut : Cut D.gives D.failed W.says other_waits)
        (earlier : TimedSession C.gives C.failed V.says) (later : TimedSession D.gives D.failed W.says)
        (number stamp begun released other_number other_stamp other_begun : ℕ) →
        IsCut cut → IsIn cut earlier → IsCut other_cut → IsIn other_cut later →
        IsCommitted earlier.calls number stamp begun released → BeginsAt later.calls other_begun other_number other_stamp →
        (times_at earlier.times released).answered ≤ (times_at later.times other_begun).came →
        stamp < other_stamp }

    // So every history of commits that were seen in cuts of any lives of any machines, and at any stampers, is externally
    // consistent, as `tt_judge` judges it.
    ensures consistent { (waits : ℕ) (cuts : List (Cut C.gives C.failed V.says waits)) (stampers : List Stamper) (history : List Commit) →
        All IsCut cuts → All IsRightStamper stampers → All (IsSeenBeside cuts stampers) history → IsConsistent history }

    // The stamps of a session that began in a life lie in the lease of the life, and none lies in the interval of the
    // stampers. Nothing is assumed of clock, sources and times.
    ensures leased { (waits : ℕ) (life : Life C.gives C.failed V.says waits) (session : TimedSession C.gives C.failed V.says)
        (place number stamp : ℕ) →
        IsLife life → IsBegunIn life session → BeginsAt session.calls place number stamp →
        Holds life.lease stamp × ((stampers : Interval) → life.stampers ≡ Some stampers → Holds stampers stamp → ⊥) }

    // A session of a worker has a cut behind each of its calls.
    ensures sessions { (waits : ℕ) (whole : WorkerSession C.gives C.failed V.says waits) (early later : List Call) (times : List CallTimes) →
        whole.session.calls ≡ early ++ later →
        (session : TimedSession C.gives C.failed V.says) × (session.calls ≡ early) × (session.times ≡ times) × BeginsAs session whole }

    // Each place of each session has a least cut: the calls that the session had made, and as few calls of the daemon as
    // published what it had seen by then. Nothing is assumed.
    ensures there { (waits : ℕ) (life : Life C.gives C.failed V.says waits) (worker : WorkerLife C.gives C.failed V.says waits)
        (whole : WorkerSession C.gives C.failed V.says waits) (early later : List Call) (times : List CallTimes) →
        IsLife life → Contains life.workers worker → Contains worker.sessions whole → whole.session.calls ≡ early ++ later →
        (session : TimedSession C.gives C.failed V.says) × (calls : List RoundsCall)
        × (session.calls ≡ early) × (session.times ≡ times) × IsBegunIn life session × AreLeast life session calls }

    // What happened in a life splits behind the first calls of its daemon, at any place.
    ensures splits { (later calls : List RoundsCall) (all : List Timed) → steps_told all ≡ calls_steps (later ++ calls) →
        (after timeline : List Timed) × (all ≡ after ++ timeline) × (steps_told timeline ≡ calls_steps calls) }

    // So where a whole life and a whole session meet what is assumed of them, each place of the session has a least cut
    // that does.
    ensures least { (waits : ℕ) (lived : TimedLife C.gives C.failed V.says waits) (whole : WorkerSession C.gives C.failed V.says waits)
        (early rest : List Call) (times more : List CallTimes) →
        IsLived lived → IsServedIn lived whole (times ++ more) → whole.session.calls ≡ early ++ rest → length early ≡ length times →
        (cut : Cut C.gives C.failed V.says waits) × (session : TimedSession C.gives C.failed V.says) × IsLeastCut lived early times cut session }

    // Two publications of a cut that do not meet prove that an assumption broke by then.
    ensures unmet_breaks { (waits : ℕ) (cut : Cut C.gives C.failed V.says waits) (later : List RoundsCall) →
        IsLife cut.life → cut.life.calls ≡ later ++ cut.calls → IsToldOf (life_by cut) cut.start cut.timeline →
        HasUnmet cut.life.config.drift (published_in cut) → HasBroken cut }

    // Of a cut no more is assumed than of its life.
    ensures no_more { (waits : ℕ) (life : Life C.gives C.failed V.says waits) (start : Start) (later timeline : List Timed) (calls : List RoundsCall) →
        IsAssumed life start (later ++ timeline) → steps_told timeline ≡ calls_steps calls → IsAssumed (record life { calls = calls }) start timeline }

    // Nor is more assumed of the first calls of a session.
    ensures no_more_read { (waits : ℕ) (life : Life C.gives C.failed V.says waits) (start : Start) (later timeline : List Timed)
        (whole : WorkerSession C.gives C.failed V.says waits) (early rest : List Call) (times more : List CallTimes) →
        IsTimedIn life start (later ++ timeline) whole (times ++ more) → whole.session.calls ≡ early ++ rest → length early ≡ length times →
        (session : TimedSession C.gives C.failed V.says) × (session.calls ≡ early) × (session.times ≡ times) × BeginsAs session whole
        × AreInOrder 0 session.times × IsReadIn life start timeline session }

    // A whole life is a cut, and so are its sessions. So these laws say all that `life_laws` says.
    ensures wholes { (waits : ℕ) (lived : TimedLife C.gives C.failed V.says waits) (session : WorkerSession C.gives C.failed V.says waits)
        (times : List CallTimes) →
        IsLived lived → IsServedIn lived session times → IsCut (whole_of lived) × IsIn (whole_of lived) (timed_of session times) }
{
    order_laws::<C, V, D, W>();
}

/// A law of a worked life, with the clock and the clients of the service.
pub fn broken_life_laws()
    // There is a life that breaks in its last round: what its daemon publishes then does not meet what it published before.
    // So no true times meet what `life_laws` assumes of it. Yet its cut before that round, with a reading and a commit in
    // it, meets all that `cut_laws` assumes.
    ensures worked { (cut : Cut MachineGives (λ (clock : ClockState). clock.failures) ClientSays 1)
        × (reader : TimedSession MachineGives (λ (clock : ClockState). clock.failures) ClientSays) × (reading : Interval)
        × (committer : TimedSession MachineGives (λ (clock : ClockState). clock.failures) ClientSays) × (commit : Commit)
        × BreaksBehind cut reader reading committer commit }
{}
