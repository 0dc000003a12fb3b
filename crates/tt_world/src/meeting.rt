//! The meeting of two fusions of one machine.

ghost use Rattle.std.specs.Prelude.{◌<◌, List, [], length};
ghost use Rattle.tt_daemon.specs.Config.{Configuration};
ghost use Rattle.tt_world.specs.Assumptions.{MeetsAssumptions};
ghost use Rattle.tt_world.specs.Bad.{accepted};
ghost use Rattle.tt_world.specs.Config.{config_at};
ghost use Rattle.tt_world.specs.Headline.{AreConfigurations, AreEvents};
ghost use Rattle.tt_world.specs.Life.{Life};
ghost use Rattle.tt_world.specs.Meeting.{AllMeet, BreaksAssumptionIn, FusionsMeet, HasUnmet, MeetsAssumptionsIn};
ghost use Rattle.tt_world.specs.Publications.{publications_of};
ghost use Rattle.tt_world.specs.Reply.{replies_from};
ghost use Rattle.tt_world.specs.declared.events.Event.{Event};

/// Laws of two fusions of one life of a machine, for every list of events. The earlier span is aged to the clock
/// reading of the later fusion: moved by the difference of the clock readings, and widened at both ends by what the
/// drift allows, as a reading of it is. Both then hold the true time of the later fusion, so they meet.
pub fn meeting_laws()
    // What a machine publishes meets all that it published before in the same life, aged to its clock reading, as long
    // as at most f of its sources are faulty and its clock keeps the drift bound in this life. Nothing is assumed of
    // other lives and of other machines.
    ensures fusions_meet { (configs : List Configuration) (events : List Event) → AreConfigurations configs → AreEvents events →
        FusionsMeet configs events (replies_from configs [] events) }

    // The same of the publications of a life, as they are searched back.
    ensures publications_meet { (configs : List Configuration) (past : List Event) (life : Life) → AreConfigurations configs → AreEvents past →
        life.machine < length configs → MeetsAssumptionsIn configs past life →
        AllMeet (config_at configs life.machine).drift (publications_of (config_at configs life.machine) (accepted configs past) life) }

    // So two publications of a life that do not meet prove that the machine's clock broke its drift bound in this life,
    // or that more than f statements were false at one of its fusions.
    ensures unmet_breaks { (configs : List Configuration) (past : List Event) (life : Life) → AreConfigurations configs → AreEvents past →
        life.machine < length configs → HasUnmet (config_at configs life.machine).drift (publications_of (config_at configs life.machine) (accepted configs past) life) →
        BreaksAssumptionIn configs past life }

    // A run that keeps the assumptions keeps those on each of its lives.
    ensures each_life { (configs : List Configuration) (past : List Event) (life : Life) → life.machine < length configs →
        MeetsAssumptions configs past → MeetsAssumptionsIn configs past life }
{}
