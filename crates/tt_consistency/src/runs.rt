//! The laws of steps, of the course of rounds, of timelines, of the assumptions on sources, and of readings.

ghost use Rattle.std.specs.Prelude.{◌≡◌, ℕ, ◌<◌, ◌≤◌, ◌+◌, ◌-◌, ◌^◌, List, [], ◌∷◌, ◌++◌, map, length, Result, IfOk};
ghost use Rattle.std.specs.List.{AllByRecursion};
ghost use mathlib.Core.List.{IsPrefix};
ghost use Rattle.tt_span.specs.Time.{max_time};
ghost use Rattle.tt_span.specs.Drift.{Moment, KeepsDrift};
ghost use Rattle.tt_span.specs.Interval.{Interval, Holds};
ghost use Rattle.tt_daemon.specs.Config.{Configuration, IsConfiguration};
ghost use Rattle.tt_publish.specs.Known.{WatchState};
ghost use Rattle.tt_publish.specs.Looks.{Looks};
ghost use Rattle.tt_publish.specs.Reading.{fused_span_of, CanBeReadAt, reading_at};
ghost use Rattle.tt_publish.specs.declared.faults.ReadFault.{ReadFault};
ghost use Rattle.tt_publish.specs.declared.readings.FusedSpan.{FusedSpan};
ghost use Rattle.tt_rounds.specs.Course.{Given, Stand, rounds_of};
ghost use Rattle.tt_rounds.specs.Link.{Exchange};
ghost use Rattle.tt_rounds.specs.Making.{Leads};
ghost use Rattle.tt_rounds.specs.declared.faults.NodeFault.{NodeFault};
ghost use Rattle.tt_world.specs.Assumptions.{FewLie};
ghost use Rattle.tt_world.specs.Bad.{accepted};
ghost use Rattle.tt_world.specs.Config.{config_at};
ghost use Rattle.tt_world.specs.Headline.{IsAction};
ghost use Rattle.tt_world.specs.Life.{life_of, life_at};
ghost use Rattle.tt_world.specs.Past.{time_of, clock_of, moments_of, sends_now};
ghost use Rattle.tt_world.specs.declared.events.Event.{Event};
ghost use Rattle.tt_consistency.specs.Calls.{AreInTurn, RiseIn, RoundsCall, calls_steps, kept_after};
ghost use Rattle.tt_consistency.specs.CourseSteps.{IsMadeBy, kept_in, rounds_steps};
ghost use Rattle.tt_consistency.specs.Faulty.{FewFaulty};
ghost use Rattle.tt_consistency.specs.Reads.{IsNoEarlier, IsReadAt};
ghost use Rattle.tt_consistency.specs.Rising.{BeginFrom, IsInTime, StepsRise, TimesRise};
ghost use Rattle.tt_consistency.specs.Steps.{Kept, Step, after_steps, kept_at, new_kept, steps_in};
ghost use Rattle.tt_consistency.specs.Timeline.{AreOf, AreOfTime, BeginsLife, HeldTrueTime, IsRunOf, IsTimeline, Timed, events_of, moments_told, restarts_of, steps_told};

use tt_publish::Clock;

/// Laws of the steps of a machine's daemon in a run of the model. A life has nonces for at most 2^64 - 1 polls.
pub fn step_laws()
    // After every list of events, with any actions, the daemon and the publications of a machine are what the steps of
    // its life make of a new daemon that has published nothing. Nothing is assumed about times, clocks and sources.
    ensures made_by_steps { (configs : List Configuration) (events : List Event) (m : ℕ) →
        sends_now (accepted configs events) m < 2 ^ 64 →
        kept_at configs (accepted configs events) m
        ≡ after_steps (new_kept (config_at configs m) m (life_of (accepted configs events) m)) (steps_in (accepted configs events) m) }

    // Let events follow a base, in the same life of the machine, and let no event be bad. Then the daemon and the
    // publications after these events are what their steps make of the daemon and the publications after the base.
    ensures goes_on_by_steps { (configs : List Configuration) (base events : List Event) (m : ℕ) (steps : List Step) →
        accepted configs (events ++ base) ≡ events ++ base → life_of (events ++ base) m ≡ life_of base m →
        steps_in (events ++ base) m ≡ steps ++ steps_in base m → sends_now (events ++ base) m < 2 ^ 64 →
        kept_at configs (events ++ base) m ≡ after_steps (kept_at configs base m) steps }
{}

/// Laws of the steps in the course of a daemon's rounds.
pub fn round_laws()
    // The rounds may begin with any daemon and any publications. The clock, the link and the memory may give anything,
    // failures included. The rounds leave the daemon and the publications as their steps make them.
    ensures made_by_steps { (rounds turns : ℕ) (stand : Stand) (given : Given) →
        IsMadeBy (kept_in stand) (rounds_steps rounds turns stand given) (rounds_of rounds turns stand given) }

    // So each call that did the course of these rounds left what their steps make. `daemon_rounds` promises that it is
    // such a call.
    ensures call_made_by_steps { (rounds turns : ℕ) (given : Given) (exchanges : List Exchange) (from to : List Exchange → Stand)
        (answer : Result (Unit {0}) NodeFault) → Leads (rounds_of rounds turns) given exchanges from to answer →
        kept_in (to exchanges) ≡ after_steps (kept_in (from [])) (rounds_steps rounds turns (from []) given) }
    // If no reading that the clock gave in some calls is below one before it, then no clock reading of their steps is.
    ensures calls_rise { (from to : ℕ) (calls : List RoundsCall) → RiseIn from calls to → StepsRise from (calls_steps calls) to }

    // So such calls make a timeline, at any true times that do not fall, if it begins at its first clock reading or an
    // earlier one.
    ensures timeline_rises { (begun shown from to : ℕ) (timeline : List Timed) (calls : List RoundsCall) →
        RiseIn from calls to → steps_told timeline ≡ calls_steps calls → TimesRise begun timeline →
        BeginFrom shown (steps_told timeline) → AllByRecursion IsInTime (steps_told timeline) → IsTimeline begun shown timeline }
{}

/// Laws of timelines, for the machines that are configured, after a base. A base is any list of events in which no event is
/// bad.
pub fn timeline_laws()
    // There is a base for each life. After `lives` restarts, at one true time and one clock reading, a machine begins
    // the life with the next number. Its daemon is new. A timeline that begins then goes on from there.
    ensures begins_life { (configs : List Configuration) (m at clock lives : ℕ) →
        m < length configs → at ≤ max_time → clock ≤ max_time → lives < 2 ^ 64 - 1 →
        BeginsLife configs m (lives + 1) at clock (restarts_of m at clock lives) }

    // If neither true times nor clock readings fall, from the end of the base on, a timeline is a run of the model. No
    // event of it is bad. The machine makes exactly the steps of the timeline, at exactly its moments. Nothing is assumed
    // about the answers of the sources.
    ensures is_run { (configs : List Configuration) (m : ℕ) (base : List Event) (timeline : List Timed) →
        m < length configs → accepted configs base ≡ base → AreOf (config_at configs m).sources (steps_told timeline) →
        IsTimeline (time_of base) (clock_of base (life_at base m)) timeline →
        IsRunOf configs m base (events_of base m timeline) (steps_told timeline) (moments_told timeline) }

    // So the rounds of a call, with any true times and any answers of the sources, are a run of the model. If the
    // machine had the daemon and the publications with which the call began, the run leaves it the daemon and the
    // publications that the call left.
    ensures rounds_are_run { (configs : List Configuration) (m : ℕ) (base : List Event) (timeline : List Timed) (rounds turns : ℕ) (given : Given)
        (exchanges : List Exchange) (from to : List Exchange → Stand) (answer : Result (Unit {0}) NodeFault) →
        m < length configs → accepted configs base ≡ base → kept_at configs base m ≡ kept_in (from []) →
        Leads (rounds_of rounds turns) given exchanges from to answer → steps_told timeline ≡ rounds_steps rounds turns (from []) given →
        IsTimeline (time_of base) (clock_of base (life_at base m)) timeline →
        sends_now (events_of base m timeline ++ base) m < 2 ^ 64 →
        IsRunOf configs m base (events_of base m timeline) (steps_told timeline) (moments_told timeline)
        × (kept_at configs (events_of base m timeline ++ base) m ≡ kept_in (to exchanges)) }

    // So, under the assumptions of the model, each publication of such a call held the true time at a moment of the
    // machine's life at which the clock showed the reading of the publication. There are two assumptions. The clock
    // keeps its drift bound over the moments of the timeline and the earlier moments of the life. At each fusion at most f
    // of the packets that were taken last, one from each source, are false. A packet is false if it was made up, or if
    // it is an answer that did not hold the true time when it was given.
    ensures publications_hold { (configs : List Configuration) (m : ℕ) (base : List Event) (timeline : List Timed) (rounds turns : ℕ) (given : Given)
        (exchanges : List Exchange) (from to : List Exchange → Stand) (answer : Result (Unit {0}) NodeFault) →
        m < length configs → accepted configs base ≡ base → kept_at configs base m ≡ kept_in (from []) →
        Leads (rounds_of rounds turns) given exchanges from to answer → steps_told timeline ≡ rounds_steps rounds turns (from []) given →
        IsTimeline (time_of base) (clock_of base (life_at base m)) timeline → sends_now (events_of base m timeline ++ base) m < 2 ^ 64 →
        IsConfiguration (config_at configs m) → AreOfTime timeline → AllByRecursion (λ event. IsAction event.action) base →
        KeepsDrift (config_at configs m).drift (moments_told timeline ++ moments_of base (life_at base m)) →
        FewLie configs (events_of base m timeline ++ base) →
        AllByRecursion (HeldTrueTime (moments_told timeline ++ moments_of base (life_at base m))) (kept_in (to exchanges)).published }
{}

/// Laws of the assumptions on the sources of a running daemon, stated without the events of the model. The machine is
/// in the life with this number since the true time `at`, at which its clock showed `clock`.
pub fn assumption_laws()
    // If at most f sources are faulty at each fusion of a timeline, then at most f of them lie in its events, as the model
    // assumes. The timeline may follow any base after which the machine begins the life.
    ensures few_lie { (configs : List Configuration) (m number at clock : ℕ) (base : List Event) (timeline : List Timed) →
        m < length configs → BeginsLife configs m number at clock base → AreOf (config_at configs m).sources (steps_told timeline) →
        IsTimeline (time_of base) (clock_of base (life_at base m)) timeline → sends_now (events_of base m timeline ++ base) m < 2 ^ 64 →
        FewFaulty (config_at configs m) (record { machine = m; number = number }) timeline → FewLie configs (events_of base m timeline ++ base) }

    // The converse: what is assumed about the sources of a timeline is no more than the model assumes.
    ensures few_are_faulty { (configs : List Configuration) (m number at clock : ℕ) (base : List Event) (timeline : List Timed) →
        m < length configs → BeginsLife configs m number at clock base → AreOf (config_at configs m).sources (steps_told timeline) →
        IsTimeline (time_of base) (clock_of base (life_at base m)) timeline →
        sends_now (events_of base m timeline ++ base) m < 2 ^ 64 → FewLie configs (events_of base m timeline ++ base) →
        FewFaulty (config_at configs m) (record { machine = m; number = number }) timeline }

    // Take calls that are made one after the other. They leave the daemon and the publications that their steps make of
    // what the first call began with. So one timeline covers all these calls, whatever their answers were.
    ensures calls_made_by_steps { (begun : Kept) (calls : List RoundsCall) →
        AreInTurn begun calls → kept_after begun calls ≡ after_steps begun (calls_steps calls) }

    // So let the first of such calls begin with a new daemon. In the timeline of all their steps let true times and clock
    // readings not fall, let the clock keep its drift bound, and let at most f sources be faulty at each fusion. Then
    // each publication of the calls held the true time at a moment of the life at which the clock showed the reading of
    // the publication. No premise of this law names the model.
    ensures publications_hold { (config : Configuration) (m at clock lives : ℕ) (timeline : List Timed) (calls : List RoundsCall) →
        at ≤ max_time → clock ≤ max_time → lives < 2 ^ 64 - 1 → IsConfiguration config →
        AreInTurn (new_kept config m (lives + 1)) calls → steps_told timeline ≡ calls_steps calls →
        IsTimeline at clock timeline → AreOfTime timeline → length timeline < 2 ^ 64 →
        KeepsDrift config.drift (moments_told timeline ++ record { clock = clock; time = at } ∷ []) →
        FewFaulty config (record { machine = m; number = lives + 1 }) timeline →
        AllByRecursion (HeldTrueTime (moments_told timeline ++ record { clock = clock; time = at } ∷ [])) (kept_after (new_kept config m (lives + 1)) calls).published }

    // The same holds after any base after which the machine begins the life. The base may have other machines too.
    ensures publications_hold_after { (configs : List Configuration) (m number at clock : ℕ) (base : List Event) (timeline : List Timed) (calls : List RoundsCall) →
        m < length configs → BeginsLife configs m number at clock base → AllByRecursion (λ event. IsAction event.action) base →
        IsConfiguration (config_at configs m) → AreInTurn (new_kept (config_at configs m) m number) calls → steps_told timeline ≡ calls_steps calls →
        IsTimeline at clock timeline → AreOfTime timeline → length timeline < 2 ^ 64 →
        KeepsDrift (config_at configs m).drift (moments_told timeline ++ record { clock = clock; time = at } ∷ []) →
        FewFaulty (config_at configs m) (record { machine = m; number = number }) timeline →
        AllByRecursion (HeldTrueTime (moments_told timeline ++ record { clock = clock; time = at } ∷ [])) (kept_after (new_kept (config_at configs m) m number) calls).published }
{}

/// Laws of readings. The readings are made from publications that held the true time, as in `timeline_laws`, by the clock
/// of their machine, at a true time that is no earlier than the publication.
pub fn reading_laws<C: Clock>()
    // If the clock keeps its drift bound over the moment of such a reading too, the reading holds the true time of this
    // moment.
    ensures reading_holds { (ppm : ℕ) (moments : List Moment) (publication : FusedSpan) (clock time : ℕ) →
        HeldTrueTime moments publication → KeepsDrift ppm (record { clock = clock; time = time } ∷ moments) →
        IsNoEarlier moments publication time → time ≤ max_time → CanBeReadAt publication clock →
        Holds (reading_at ppm publication clock) time }

    // So each reading that a watch gives holds the true time of its moment, if what the watch has seen is a first part of
    // what was published, and the drift of the watch is the bound that the clock keeps. `Watch::now` answers such a
    // reading. The calls `now`, `begin` and `pass` of a worker or a station take their readings by it. Watches are read
    // in any order, and a watch may have seen less than was published. Of a call that gave no reading nothing is asked.
    ensures look_holds { (ppm : ℕ) (old new : WatchState) (before after : C) (answer : Result Interval ReadFault) (moments : List Moment)
        (published : List FusedSpan) (time : ℕ) →
        old.drift ≡ ppm → Looks C.gives C.failed old before answer new after → AllByRecursion (HeldTrueTime moments) published →
        IsPrefix (map fused_span_of new.items) published → IsReadAt C.gives ppm moments new before after answer time →
        IfOk answer (λ reading. Holds reading time) }
{}
