//! The meeting of two publications of a running daemon.

ghost use Rattle.std.specs.Prelude.{◌≡◌, ◌⊎◌, ℕ, ◌<◌, ◌≤◌, ◌+◌, ◌-◌, ◌^◌, List, [], ◌∷◌, ◌++◌, length, Result};
ghost use Rattle.std.specs.List.{AllByRecursion};
ghost use Rattle.tt_span.specs.Time.{max_time};
ghost use Rattle.tt_span.specs.Drift.{KeepsDrift};
ghost use Rattle.tt_daemon.specs.Config.{Configuration, IsConfiguration};
ghost use Rattle.tt_rounds.specs.Course.{Given, Stand, rounds_of};
ghost use Rattle.tt_rounds.specs.Link.{Exchange};
ghost use Rattle.tt_rounds.specs.Making.{Leads};
ghost use Rattle.tt_rounds.specs.declared.faults.NodeFault.{NodeFault};
ghost use Rattle.tt_world.specs.Assumptions.{FewLie};
ghost use Rattle.tt_world.specs.Bad.{accepted};
ghost use Rattle.tt_world.specs.Config.{config_at};
ghost use Rattle.tt_world.specs.Headline.{IsAction};
ghost use Rattle.tt_world.specs.Life.{life_at};
ghost use Rattle.tt_world.specs.Meeting.{AllMeet, HasUnmet};
ghost use Rattle.tt_world.specs.Past.{time_of, clock_of, moments_of, sends_now};
ghost use Rattle.tt_world.specs.declared.events.Event.{Event};
ghost use Rattle.tt_consistency.specs.Calls.{AreInTurn, RoundsCall, calls_steps, kept_after};
ghost use Rattle.tt_consistency.specs.CourseSteps.{kept_in, rounds_steps};
ghost use Rattle.tt_consistency.specs.Faulty.{FewFaulty};
ghost use Rattle.tt_consistency.specs.Steps.{kept_at, new_kept};
ghost use Rattle.tt_consistency.specs.Timeline.{AreOfTime, BeginsLife, IsTimeline, Timed, events_of, moments_told, steps_told};

/// Laws of two publications of a running daemon. The earlier one is aged to the clock reading of the later one, as a
/// reading of it is. Both then hold the true time of the later fusion, so they meet. The premises are those of the laws
/// `publications_hold`.
pub fn meeting_laws()
    // Under the assumptions of the model each publication of a call meets every publication before it, those before the
    // call included. The call may begin after any base.
    ensures call_meets { (configs : List Configuration) (m : ℕ) (base : List Event) (timeline : List Timed) (rounds turns : ℕ) (given : Given)
        (exchanges : List Exchange) (from to : List Exchange → Stand) (answer : Result (Unit {0}) NodeFault) →
        m < length configs → accepted configs base ≡ base → kept_at configs base m ≡ kept_in (from []) →
        Leads (rounds_of rounds turns) given exchanges from to answer → steps_told timeline ≡ rounds_steps rounds turns (from []) given →
        IsTimeline (time_of base) (clock_of base (life_at base m)) timeline → sends_now (events_of base m timeline ++ base) m < 2 ^ 64 →
        IsConfiguration (config_at configs m) → AreOfTime timeline → AllByRecursion (λ event. IsAction event.action) base →
        KeepsDrift (config_at configs m).drift (moments_told timeline ++ moments_of base (life_at base m)) →
        FewLie configs (events_of base m timeline ++ base) →
        AllMeet (config_at configs m).drift (kept_in (to exchanges)).published }

    // The same of calls that are made one after the other from a new daemon on. No premise names the model.
    ensures publications_meet { (config : Configuration) (m at clock lives : ℕ) (timeline : List Timed) (calls : List RoundsCall) →
        at ≤ max_time → clock ≤ max_time → lives < 2 ^ 64 - 1 → IsConfiguration config →
        AreInTurn (new_kept config m (lives + 1)) calls → steps_told timeline ≡ calls_steps calls →
        IsTimeline at clock timeline → AreOfTime timeline → length timeline < 2 ^ 64 →
        KeepsDrift config.drift (moments_told timeline ++ record { clock = clock; time = at } ∷ []) →
        FewFaulty config (record { machine = m; number = lives + 1 }) timeline →
        AllMeet config.drift (kept_after (new_kept config m (lives + 1)) calls).published }

    // So two publications of such calls that do not meet prove that the clock broke its drift bound, or that more than f
    // sources were faulty at one fusion.
    ensures unmet_breaks { (config : Configuration) (m at clock lives : ℕ) (timeline : List Timed) (calls : List RoundsCall) →
        at ≤ max_time → clock ≤ max_time → lives < 2 ^ 64 - 1 → IsConfiguration config →
        AreInTurn (new_kept config m (lives + 1)) calls → steps_told timeline ≡ calls_steps calls →
        IsTimeline at clock timeline → AreOfTime timeline → length timeline < 2 ^ 64 →
        HasUnmet config.drift (kept_after (new_kept config m (lives + 1)) calls).published →
        (¬ KeepsDrift config.drift (moments_told timeline ++ record { clock = clock; time = at } ∷ []))
        ⊎ (¬ FewFaulty config (record { machine = m; number = lives + 1 }) timeline) }

    // The same after any base after which the machine begins the life. The base may have other machines too.
    ensures publications_meet_after { (configs : List Configuration) (m number at clock : ℕ) (base : List Event) (timeline : List Timed) (calls : List RoundsCall) →
        m < length configs → BeginsLife configs m number at clock base → AllByRecursion (λ event. IsAction event.action) base →
        IsConfiguration (config_at configs m) → AreInTurn (new_kept (config_at configs m) m number) calls → steps_told timeline ≡ calls_steps calls →
        IsTimeline at clock timeline → AreOfTime timeline → length timeline < 2 ^ 64 →
        KeepsDrift (config_at configs m).drift (moments_told timeline ++ record { clock = clock; time = at } ∷ []) →
        FewFaulty (config_at configs m) (record { machine = m; number = number }) timeline →
        AllMeet (config_at configs m).drift (kept_after (new_kept (config_at configs m) m number) calls).published }
{}
