//! The law of the list of a whole life.

ghost use Rattle.std.specs.Prelude.{◌≡◌, ℕ, ◌<◌, ◌≤◌, List, length};
ghost use Rattle.tt_daemon.specs.Config.{Configuration};
ghost use Rattle.tt_clock.specs.Clock.{ClockState, MachineGives};
ghost use Rattle.tt_connections.specs.Client.{ClientSays};
ghost use Rattle.tt_world.specs.Config.{config_at};
ghost use Rattle.tt_world.specs.Life.{life_at};
ghost use Rattle.tt_world.specs.declared.events.Event.{Event};
ghost use Rattle.tt_consistency.specs.Cuts.{IsToldOf};
ghost use Rattle.tt_consistency.specs.Lives.{IsLife, Life};
ghost use Rattle.tt_consistency.specs.Running.{Start};
ghost use Rattle.tt_consistency.specs.Sequencer.{ShareOneSequencer};
ghost use Rattle.tt_consistency.specs.Timeline.{BeginsLife, Timed};
ghost use Rattle.tt_life_events.specs.Acts.{IsUnworked};
ghost use Rattle.tt_life_events.specs.Lists.{HasOneList, IsWorkedList};
ghost use Rattle.tt_life_events.specs.Turns.{AllTurnsOf};

use tt_connections::Presence;
use tt_publish::Clock;

/// The law of the list of a whole life.
///
/// Its daemon made its rounds, and each of its workers served its sessions by turns, in which it took readings and gave
/// stamps, by its seat of one sequencer. All of it is one list of events of the model of true time.
pub fn life_list_laws<C: Clock, V: Presence>()
    // Take a life whose workers share one sequencer, with true times of all that its threads did: those of its daemon as
    // in the law of cuts, and those of the readings and stamps of its workers, which do not fall in the turns of a worker.
    // Then each worker has its list, in the order of its turns, with exactly the readings that it was given and the stamps
    // that it gave. The stamps of all workers merge into one log, which is the history of the sequencer. If true time does
    // not fall along the log either, all lists and that of the daemon are one list in the order of true time. If no clock
    // reading falls in that, it is a list of events of the model: none is bad, and the model replies to each reading and
    // each stamp as the life did. Nothing is assumed about sources.
    ensures is_list { (waits : ℕ) (configs : List Configuration) (base : List Event) (life : Life C.gives C.failed V.says waits)
        (start : Start) (timeline : List Timed) (turns : AllTurnsOf C.gives C.failed V.says waits life start timeline life.workers) →
        IsLife life → IsToldOf life start timeline → (shared : ShareOneSequencer life.workers) →
        life.number < length configs → config_at configs life.number ≡ life.config → length life.workers ≤ life.config.workers →
        BeginsLife configs life.number life.epoch start.at start.clock base →
        IsUnworked (config_at configs life.number) base (life_at base life.number) →
        HasOneList configs base C.gives C.failed V.says waits life start timeline turns shared.history }

    // There is a life of two workers, with the clock and the clients of the service, of which all of this holds: both read
    // the daemon's publication, and each stamped a commit.
    ensures worked { (configs : List Configuration) × (base : List Event) × (life : Life MachineGives (λ (clock : ClockState). clock.failures) ClientSays 1)
        × (start : Start) × (timeline : List Timed)
        × (turns : AllTurnsOf MachineGives (λ (clock : ClockState). clock.failures) ClientSays 1 life start timeline life.workers)
        × (shared : ShareOneSequencer life.workers)
        × IsWorkedList configs base MachineGives (λ (clock : ClockState). clock.failures) ClientSays 1 life start timeline turns shared }
{}
