//! The law of merges: what threads did in true time is one list.

ghost use Rattle.std.specs.Prelude.{◌≡◌, ℕ, List, [], map};
ghost use Rattle.std.specs.List.{AllByRecursion};
ghost use Rattle.tt_life_events.specs.Merging.{AreInOrder, Done, IsMerge, IsMergeBefore, IsMergeOf, IsOneList, IsOneListOf, IsOneListWith, stamps_in};

/// The law of merges, of threads that did something (`A`) or gave a stamp (`S`) at true times.
///
/// Each thread did so in an order of its own, in which no true time falls. The stamps of the seats of one sequencer are
/// its history, and along that no true time falls either. Nothing else is assumed.
pub fn merging_laws<A, S>()
    // What two seats of one sequencer did is one list, in the order of true time: its parts are exactly their lists, each
    // in its order, and its stamps are exactly the history, in its order.
    ensures two { (to top : ℕ) (one other history : List (Done A S)) →
        AreInOrder to one → AreInOrder to other → AreInOrder top history → IsMerge (stamps_in one) (stamps_in other) history →
        (all : List (Done A S)) × IsOneList to one other history all }

    // So is what the seats of any number of workers did.
    ensures workers { (to top : ℕ) (workers : List (List (Done A S))) (history : List (Done A S)) →
        AllByRecursion (AreInOrder to) workers → AreInOrder top history → IsMergeOf (map stamps_in workers) history →
        (all : List (Done A S)) × IsOneListOf to workers history all }

    // So is all of it with what a daemon did, which gives no stamps. What the daemon and a worker did at one time stands in
    // it with that of the daemon first.
    ensures life { (to top : ℕ) (daemon : List (Done A S)) (workers : List (List (Done A S))) (history : List (Done A S)) →
        AreInOrder to daemon → stamps_in daemon ≡ [] → AllByRecursion (AreInOrder to) workers →
        AreInOrder top history → IsMergeOf (map stamps_in workers) history →
        (all : List (Done A S)) × IsOneListWith to daemon workers history all }
{}
