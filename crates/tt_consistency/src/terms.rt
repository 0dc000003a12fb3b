//! The laws of terms, in which the leader of a shard moves from one machine to another.

ghost use Rattle.std.specs.Prelude.{◌≡◌, ℕ, ◌<◌, List, [], ◌∷◌, All};
ghost use Rattle.tt_span.specs.Interval.{IsInterval, Meets};
ghost use Rattle.tt_judge.specs.Terms.{CrossesTerm, HasNoConflict};
ghost use Rattle.tt_judge.specs.declared.history.ShardCommit.{ShardCommit};
ghost use Rattle.tt_judge.specs.declared.terms.Rule.TheVariants.{Terms};
ghost use Rattle.tt_consistency.specs.Terms.{AreGrantedInTurn, Grant, IsGivenAt, IsMadeInTerm};

use tt_connections::Presence;
use tt_publish::Clock;

/// Laws of the terms of a shard. The leader of a term stamps under leases that were granted to this term. Leases of a
/// shard are granted one after the other: each begins above the ends of all before it, and terms do not fall. An engine
/// with consensus is assumed to grant them so, as etcd does in transactions. Nothing is assumed about readings and times,
/// nor whether a leader knows that its term is over.
pub fn term_laws<C: Clock, V: Presence, D: Clock, W: Presence>()
    // Of two commits of a shard the one of the later term has the greater stamp, in any sessions of any machines and lives,
    // and at any stampers.
    ensures terms { (grants : ℕ → List Grant) (earlier later : ShardCommit) → AreGrantedInTurn (grants earlier.shard) →
        IsMadeInTerm C.gives C.failed V.says grants earlier → IsMadeInTerm D.gives D.failed W.says grants later →
        earlier.shard ≡ later.shard → earlier.term < later.term → earlier.stamp < later.stamp }

    // Of two stamps under different grants of a shard the one under the later grant is greater, also within a term.
    ensures rising { (grants : List Grant) (place stamp later_place later_stamp : ℕ) → AreGrantedInTurn grants →
        IsGivenAt C.gives C.failed V.says grants place stamp → IsGivenAt D.gives D.failed W.says grants later_place later_stamp →
        place < later_place → stamp < later_stamp }

    // So no two commits of a shard under different grants have the same stamp.
    ensures apart { (grants : List Grant) (place stamp other_place other_stamp : ℕ) → AreGrantedInTurn grants →
        IsGivenAt C.gives C.failed V.says grants place stamp → IsGivenAt D.gives D.failed W.says grants other_place other_stamp →
        (place ≡ other_place → ⊥) → stamp ≡ other_stamp → ⊥ }

    // So no history of commits that were made in their terms, of any shards, has a conflict of terms, as `tt_judge` judges
    // it.
    ensures judged { (grants : ℕ → List Grant) (commits : List ShardCommit) → ((shard : ℕ) → AreGrantedInTurn (grants shard)) →
        All (IsMadeInTerm C.gives C.failed V.says grants) commits → HasNoConflict Terms commits }

    // There is such a history, with a commit in each of two terms.
    ensures worked { (grants : ℕ → List Grant) × (earlier : ShardCommit) × (later : ShardCommit)
        × ((shard : ℕ) → AreGrantedInTurn (grants shard)) × All (IsMadeInTerm C.gives C.failed V.says grants) (earlier ∷ later ∷ [])
        × (earlier.shard ≡ later.shard) × (earlier.term < later.term) }

    // The order of leases is needed: if leases of two terms meet, there are commits of these terms whose stamps do not rise.
    ensures crossing { (one other : Grant) → IsInterval one.lease → one.term < other.term → Meets one.lease other.lease →
        (earlier : ShardCommit) × (later : ShardCommit)
        × All (IsMadeInTerm C.gives C.failed V.says (λ (shard : ℕ). one ∷ other ∷ [])) (earlier ∷ later ∷ []) × CrossesTerm earlier later }
{}
