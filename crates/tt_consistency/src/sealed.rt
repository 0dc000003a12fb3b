//! The law of masters that share keys with a machine.

ghost use Rattle.std.specs.Prelude.{◌≡◌, ◌∷◌, ℕ, List};
ghost use Rattle.std.specs.List.{AllByRecursion};
ghost use Rattle.tt_daemon.specs.Config.{Configuration};
ghost use Rattle.tt_rounds.specs.Course.{Given, Stand};
ghost use Rattle.tt_seal.specs.Sealing.{SealKey};
ghost use Rattle.tt_wire.specs.Wire.{IsWiring, Wiring, keys_of};
ghost use Rattle.tt_world.specs.Life.{Life};
ghost use Rattle.tt_consistency.specs.Calls.{RoundsCall, calls_steps};
ghost use Rattle.tt_consistency.specs.Coming.{AreHeard, CameAmong, CameUnder};
ghost use Rattle.tt_consistency.specs.CourseSteps.{rounds_steps};
ghost use Rattle.tt_consistency.specs.Faulty.{FewFaulty, IsCorrect};
ghost use Rattle.tt_consistency.specs.Masters.{AllHandedUp, HasFewBadMasters, IsHandedUp};
ghost use Rattle.tt_consistency.specs.Sealed.{AllCameSealed, Did, Done, HasFewBad, IsSafe, Makes, timeline_of};
ghost use Rattle.tt_consistency.specs.Steps.{Step};
ghost use Rattle.tt_consistency.specs.Timeline.{steps_told};

/// The law of masters that share keys with a machine. It says what the laws of lives assume of the sources, by what is
/// assumed of masters and keys.
///
/// `NobodyElse` is what keys are for: nobody but the two who hold a key can make its tags. `IsRightMaster` is what a master
/// owes: each span that it sealed held the true time then, and was the answer to a request that had been sent.
/// `AllCameSealed` is what a link has to keep. Whatever else is on the network is asked nothing: packets may be lost,
/// late, repeated, reordered, or made up.
pub fn seal_laws()
    // The rounds of a daemon take nothing but packets that the link gave.
    ensures takes_came { (rounds turns : ℕ) (stand : Stand) (given : Given) →
        AllByRecursion (CameAmong given.gifts) (rounds_steps rounds turns stand given) }

    // So, where the link handed up over this wire what it gave, each message that calls take from a source with keys is
    // that of a sealing under one of them; that this sealing came, no clause says.
    ensures takes_sealed { (wire : Wiring) (calls : List RoundsCall) →
        IsWiring wire → AreHeard wire calls → AllByRecursion (CameUnder wire) (calls_steps calls) }

    // A source whose master is right, and whose keys nobody else has, is correct.
    ensures correct { (config : Configuration) (life : Life) (wire : Wiring) (all : List Done) (source : ℕ) →
        IsWiring wire → IsSafe config life wire all source → IsCorrect config life (timeline_of all) source }

    // So, where at most f sources are not so, at most f sources are faulty at each fusion.
    ensures few_faulty { (config : Configuration) (life : Life) (wire : Wiring) (all : List Done) →
        IsWiring wire → HasFewBad config life wire all → FewFaulty config life (timeline_of all) }
{}

/// The law of masters that share keys with a machine whose link hands up all that its daemon takes, as that of a round does.
///
/// What is assumed is that at most f masters are bad, or have no keys: `HasGoodMaster` asks of each other one that it is right,
/// and of each key that nobody but the two who hold it makes its tags. That bytes are handed up after they came is the socket's.
pub fn master_laws()
    // What a step takes of calls whose link is so was handed up over the wire, in whatever else is done.
    ensures handed { (wire : Wiring) (calls : List RoundsCall) (all later before : List Done) (at : ℕ) (step : Step) →
        AreHeard wire calls → steps_told (timeline_of all) ≡ calls_steps calls → Did all later at (Makes step) before → IsHandedUp wire step }

    // Where it was handed up of bytes that had come, and its source has keys, these were a sealing under one of them.
    ensures came { (wire : Wiring) (all : List Done) (source : ℕ) (first : SealKey) (others : List SealKey) →
        IsWiring wire → keys_of wire source ≡ first ∷ others → AllHandedUp wire source all → AllCameSealed wire source all }

    // So, where at most f masters are bad, at most f sources are faulty at each fusion.
    ensures few_faulty { (config : Configuration) (life : Life) (wire : Wiring) (all : List Done) →
        IsWiring wire → ((source : ℕ) → AllHandedUp wire source all) → HasFewBadMasters config life wire all → FewFaulty config life (timeline_of all) }
{}
