//! The law of the list of events of a life.

ghost use Rattle.std.specs.Prelude.{◌≡◌, ℕ, ◌<◌, ◌≤◌, ◌^◌, List, [], length};
ghost use Rattle.tt_span.specs.Time.{max_time};
ghost use Rattle.tt_daemon.specs.Config.{Configuration};
ghost use Rattle.tt_stamp.specs.Stamping.{IsLegalRun};
ghost use Rattle.tt_world.specs.Config.{config_at};
ghost use Rattle.tt_world.specs.Life.{Life, life_at};
ghost use Rattle.tt_world.specs.declared.events.Event.{Event};
ghost use Rattle.tt_consistency.specs.Running.{Start};
ghost use Rattle.tt_consistency.specs.Timeline.{BeginsLife, Timed, restarts_of};
ghost use Rattle.tt_life_events.specs.Acts.{CanBe, IsRunOfAll, IsUnworked, LifeDone, entries_in};
ghost use Rattle.tt_life_events.specs.Merging.{AreInOrder, IsMerge, IsOneList, IsOneListWith, stamps_in};
ghost use Rattle.tt_life_events.specs.Threads.{AreThreads, ClockRises, daemon_list};

/// The law of the list of events of a life.
///
/// A list says what the threads of a machine did in one life, in the order of true time: the steps of the daemon, the
/// answers of the sources, the readings of the workers, and their stamps. It is a list of events of the model. A reading
/// for a commit comes behind the event that asks for the commit, a stamp behind a grant of the lease in which it was given.
/// Releases are readings here: books differ by design, since each session of the service has its own.
pub fn event_list_laws()
    // Let neither true times nor clock readings fall in such a list, let each worker read from publications that were made,
    // and from none older than its last, and let the stamps be a legal history of one sequencer. Then the list is a run of
    // the model. No event of it is bad. The machine makes exactly the steps of the list, at exactly its moments, publishes
    // what they make, and gives exactly its stamps. It replies to each reading and each stamp with those of the list.
    // Nothing is assumed about sources and drift.
    ensures is_run { (configs : List Configuration) (m number seats : ℕ) (base : List Event) (start : Start) (all : List LifeDone) →
        m < length configs → BeginsLife configs m number start.at start.clock base →
        IsUnworked (config_at configs m) base (life_at base m) → length all < 2 ^ 64 →
        CanBe (config_at configs m) m number start all → IsLegalRun seats (entries_in all) →
        IsRunOfAll configs m number base all }

    // So take the threads of a machine in one life: the timeline of its daemon, and what each of its workers did by itself,
    // by true times that fall neither in these orders nor along the history of their sequencer. All of it is one list, in
    // which what the daemon did at some time stands before what the workers did at the same time. Let the clock readings not
    // fall in the list either. Then it is a list as above, and so a run of the model with the replies of the life.
    ensures threads { (configs : List Configuration) (m number seats : ℕ) (base : List Event) (start : Start) (timeline : List Timed)
        (workers : List (List LifeDone)) (history : List LifeDone) →
        m < length configs → BeginsLife configs m number start.at start.clock base →
        IsUnworked (config_at configs m) base (life_at base m) → start.at ≤ max_time →
        AreThreads (config_at configs m) m number start timeline workers seats history →
        (all : List LifeDone) × IsOneListWith max_time (daemon_list timeline) workers history all
        × (ClockRises start.clock all → length all < 2 ^ 64 →
        CanBe (config_at configs m) m number start all × IsLegalRun seats (entries_in all) × IsRunOfAll configs m number base all) }

    // A machine that only restarted has read and stamped nothing.
    ensures unworked { (config : Configuration) (m at clock lives : ℕ) (life : Life) → IsUnworked config (restarts_of m at clock lives) life }

    // In a worked merge of two workers, who both read and stamp by turns, all that is assumed of two seats holds.
    ensures worked { (one other history all : List LifeDone) × AreInOrder 20 one × AreInOrder 20 other × AreInOrder 20 history
        × IsMerge (stamps_in one) (stamps_in other) history × IsOneList 20 one other history all
        × (stamps_in one ≡ [] → ⊥) × (stamps_in other ≡ [] → ⊥) }
{}
