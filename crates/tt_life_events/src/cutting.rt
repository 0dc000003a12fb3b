//! The law of the list of a cut of a life.

ghost use Rattle.std.specs.Prelude.{◌≡◌, ℕ, ◌<◌, ◌≤◌, List, ◌∷◌, ◌++◌, length};
ghost use mathlib.Core.Logic.{inl};
ghost use Rattle.tt_daemon.specs.Config.{Configuration};
ghost use Rattle.tt_clock.specs.Clock.{ClockState, MachineGives};
ghost use Rattle.tt_connections.specs.Client.{ClientSays};
ghost use Rattle.tt_stamp.specs.Stamping.{Continues};
ghost use Rattle.tt_stamp.specs.declared.stampings.Stamping.{Stamping};
ghost use Rattle.tt_session.specs.declared.calls.Call.{Call};
ghost use Rattle.tt_workers.specs.Happening.{SessionTurn, WorkerEvent};
ghost use Rattle.tt_world.specs.Config.{config_at};
ghost use Rattle.tt_world.specs.Life.{life_at};
ghost use Rattle.tt_world.specs.declared.events.Event.{Event};
ghost use Rattle.tt_consistency.specs.Assumed.{TimedLife};
ghost use Rattle.tt_consistency.specs.Calls.{RoundsCall};
ghost use Rattle.tt_consistency.specs.Cuts.{Cut, IsToldOf, life_by, published_in, whole_of};
ghost use Rattle.tt_consistency.specs.Lives.{IsLife, Life, WorkerLife};
ghost use Rattle.tt_consistency.specs.Running.{Start};
ghost use Rattle.tt_consistency.specs.Sequencer.{ShareOneSequencer};
ghost use Rattle.tt_consistency.specs.Timeline.{BeginsLife, Timed};
ghost use Rattle.tt_life_events.specs.Acts.{IsUnworked};
ghost use Rattle.tt_life_events.specs.Beginnings.{AreWorksIn, HasOneListBy, HasWorkTo, IsWorkedCut, WorkBy, works_of};
ghost use Rattle.tt_life_events.specs.Lists.{HasOneList};
ghost use Rattle.tt_life_events.specs.Turns.{AllTurnsOf, TurnsOf};

use tt_connections::Presence;
use tt_publish::Clock;

/// The law of the list of a cut of a life.
///
/// A cut is what the threads of a machine had done by some moment of its life: the first calls of the daemon, the first
/// turns of each worker, of which the last may have made only its first calls, and the stamps that were given by then. A
/// call that had given its stamp counts as made. All of it is one list of events of the model of true time. Nothing is
/// assumed of what came after.
///
/// So where the clock goes back, or a machine is broken, what came before it still is such a list. A life that was killed
/// did what a cut of a life does that would have ended in order.
pub fn cut_list_laws<C: Clock, V: Presence>()
    // Take the first calls of the daemon of a life whose workers share one sequencer, and what had happened in them as in
    // the law of cuts. Take the first turns of each worker, with true times of these alone, which do not fall. Let no worker
    // have seen more publications than the daemon had made by then. And let a beginning of the history of the sequencer
    // have, under the number of each worker, exactly the stamps that the worker had given. Then each worker has its list,
    // with exactly the readings that it was given and the stamps that it gave. The stamps of all workers merge into a log,
    // which is this history. If true time does not fall along the log either, all lists and that of the daemon are one list
    // in the order of true time. If no clock reading falls in that, it is a list of events of the model: none is bad, and
    // the model replies to each reading and each stamp as the life did. Nothing is assumed about sources.
    ensures is_list { (waits : ℕ) (configs : List Configuration) (base : List Event) (cut : Cut C.gives C.failed V.says waits) (later : List RoundsCall)
        (works : List (WorkBy C.gives C.failed V.says waits)) (history : List Stamping) →
        IsLife cut.life → cut.life.calls ≡ later ++ cut.calls → IsToldOf (life_by cut) cut.start cut.timeline →
        (shared : ShareOneSequencer cut.life.workers) → Continues history shared.history → AreWorksIn cut history 0 cut.life.workers works →
        cut.life.number < length configs → config_at configs cut.life.number ≡ cut.life.config → length cut.life.workers ≤ cut.life.config.workers →
        BeginsLife configs cut.life.number cut.life.epoch cut.start.at cut.start.clock base →
        IsUnworked (config_at configs cut.life.number) base (life_at base cut.life.number) →
        HasOneListBy configs base cut.life cut.start cut.timeline (published_in cut) works history }

    // Up to each call of each turn of a worker there is such work. Of its true times no more is assumed than of those of the
    // whole worker, in a cut or in a whole life.
    ensures no_more { (waits : ℕ) (life : Life C.gives C.failed V.says waits) (start : Start) (later timeline : List Timed)
        (worker : WorkerLife C.gives C.failed V.says waits) (turns : TurnsOf C.gives C.failed V.says waits life start (later ++ timeline) worker)
        (after earlier : List (WorkerEvent C.gives C.failed V.says waits)) (whole : SessionTurn C.gives C.failed V.says) (early rest : List Call) →
        turns.by_turns.events ≡ after ++ inl whole ∷ earlier → whole.calls ≡ early ++ rest →
        HasWorkTo life start timeline worker earlier whole early }

    // All that the workers of a whole life did is such work in the life as a cut of itself, and the list of that is the list
    // of the life. So this law says all that `life_list_laws` says.
    ensures wholes { (waits : ℕ) (configs : List Configuration) (base : List Event) (lived : TimedLife C.gives C.failed V.says waits)
        (turns : AllTurnsOf C.gives C.failed V.says waits lived.life lived.start lived.timeline lived.life.workers) (shared : ShareOneSequencer lived.life.workers) →
        IsLife lived.life →
        AreWorksIn (whole_of lived) shared.history 0 lived.life.workers (works_of C.gives C.failed V.says waits lived.life lived.start lived.timeline lived.life.workers turns)
        × (HasOneListBy configs base lived.life lived.start lived.timeline (published_in (whole_of lived)) (works_of C.gives C.failed V.says waits lived.life lived.start lived.timeline lived.life.workers turns) shared.history
        → HasOneList configs base C.gives C.failed V.says waits lived.life lived.start lived.timeline turns shared.history) }

    // There is a cut of a life of two workers, with the clock and the clients of the service, of which all of this holds. The
    // first worker had begun a commit in a turn that goes on, and given its stamp; the second gives its own later.
    ensures worked { (configs : List Configuration) × (base : List Event) × (cut : Cut MachineGives (λ (clock : ClockState). clock.failures) ClientSays 1)
        × (later : List RoundsCall) × (shared : ShareOneSequencer cut.life.workers) × (history : List Stamping)
        × (works : List (WorkBy MachineGives (λ (clock : ClockState). clock.failures) ClientSays 1))
        × IsWorkedCut configs base cut later shared history works }
{}
