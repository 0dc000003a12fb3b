//! The law of the sessions of a life, by the turns of its workers.

ghost use Rattle.std.specs.Prelude.{ℕ, List, Contains};
ghost use Rattle.tt_stamp.specs.declared.stampings.Stamping.{Stamping};
ghost use Rattle.tt_connections.specs.Sessions.{WorkerSession};
ghost use Rattle.tt_consistency.specs.Assumed.{IsServedIn, TimedLife};
ghost use Rattle.tt_consistency.specs.Cuts.{Cut};
ghost use Rattle.tt_consistency.specs.Lives.{Life, WorkerLife};
ghost use Rattle.tt_consistency.specs.Running.{Start};
ghost use Rattle.tt_consistency.specs.Timed.{CallTimes};
ghost use Rattle.tt_consistency.specs.Timeline.{Timed};
ghost use Rattle.tt_life_events.specs.Beginnings.{IsWorkIn, WorkBy};
ghost use Rattle.tt_life_events.specs.Timing.{AllTimedIn, AreSessionsIn, events_behind};
ghost use Rattle.tt_life_events.specs.Turns.{AllTurnsOf, TurnsOf};

use tt_connections::Presence;
use tt_publish::Clock;

/// The law of the sessions of a life, by the turns of its workers.
///
/// What is assumed of a session follows from what is assumed of the turns in which it was served, since each session is its
/// turns, from state to state. So it is by each moment of a life.
pub fn turn_laws<C: Clock, V: Presence>()
    // Take a worker of a life, with true times of its turns: they do not fall, and each reading was taken at its time. Then
    // all that is assumed of a session holds of each that the worker served, with the true times of its turns.
    ensures timed { (waits : ℕ) (life : Life C.gives C.failed V.says waits) (start : Start) (timeline : List Timed)
        (worker : WorkerLife C.gives C.failed V.says waits) (turns : TurnsOf C.gives C.failed V.says waits life start timeline worker) →
        AllTimedIn life start timeline turns.by_turns.events turns.times }

    // So where all workers of a life have such times, each session of each of them was served in the life, with some true
    // times, as the laws of lives assume it.
    ensures served { (waits : ℕ) (lived : TimedLife C.gives C.failed V.says waits) →
        AllTurnsOf C.gives C.failed V.says waits lived.life lived.start lived.timeline lived.life.workers →
        (worker : WorkerLife C.gives C.failed V.says waits) → Contains lived.life.workers worker →
        (session : WorkerSession C.gives C.failed V.says waits) → Contains worker.sessions session →
        (times : List CallTimes) × IsServedIn lived session times }

    // So it is in a cut of a life. Take what a worker of the life had done by then, as the law of the list of a cut takes it.
    // Then each session that had made a call by then is in the cut, as the law of cuts assumes it, with the true times that
    // its turns had by then: each that had ended is there as a whole, and each that goes on with the calls that it had made.
    // Of these the last may have been made in a turn that goes on.
    ensures cut { (waits : ℕ) (cut : Cut C.gives C.failed V.says waits) (history : List Stamping) (number : ℕ)
        (worker : WorkerLife C.gives C.failed V.says waits) (work : WorkBy C.gives C.failed V.says waits) →
        Contains cut.life.workers worker → (is : IsWorkIn cut history number worker work) →
        AreSessionsIn cut (events_behind work.events is.of_worker.by_turns.events is.of_worker.first) work }
{}
