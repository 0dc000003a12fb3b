//! Whether the commits of each shard have stamps in the order of its terms, and no stamp twice.

ghost use Rattle.std.specs.Prelude.{◌≡◌, ◌<◌, ◌+◌, ◌↔◌, List, Bool, true, length, IfSome, MatchOption, IsPermutation};
ghost use Rattle.tt_judge.specs.Terms.{BreaksRule, breaks_rule, IsInConflict, is_in_conflict, conflicts_of, HasNoConflict, AreConflictsOf, IsTermJudgementOf};
ghost use Rattle.tt_judge.specs.TermSweep.{shard_commit_at, group_of, rank_of, key_of, AreInKeyOrder, IsSwept, IsExceeding, IsTermVerdict, IsSooner};
ghost use Rattle.tt_judge.specs.declared.history.ShardCommit.{ShardCommit};
ghost use Rattle.tt_judge.specs.declared.terms.Rule.{Rule};

use crate::history::ShardCommit;
use crate::judging::Violation;

/// What a later commit of a shard must keep.
#[derive(Clone, Copy)]
pub enum Rule {
    /// A commit of a later term has a greater stamp than every commit of an earlier term.
    Terms,
    /// No two commits have the same stamp.
    Stamps,
}

/// The commits that contradict another one by a rule.
#[derive(Clone, Copy, Debug, PartialEq, Eq)]
pub struct Conflicts {
    /// How many there are.
    pub count: usize,
    /// The first of them in the history, if there is one, and the commit that it contradicts.
    pub first: Option<Violation>,
}

/// The judgement of the commits of all shards. Only commits of one shard are compared.
#[derive(Clone, Copy, Debug, PartialEq, Eq)]
pub struct TermJudgement {
    /// The commits whose stamp is not above those of all commits of earlier terms of their shard.
    pub terms: Conflicts,
    /// The commits with the stamp of a commit of their shard that stands before them in the history.
    pub stamps: Conflicts,
}

/// Of the commits that were passed: the key of the last one, and those with the greatest stamps of its group, and of
/// lower ranks in its group.
#[derive(Clone, Copy)]
struct Leaders {
    key: (u64, u64, u64),
    all: Option<ShardCommit>,
    earlier: Option<ShardCommit>,
}

/// Judges the commits of a history that name a shard, each shard for itself. `None` if there are none.
///
/// Of several commits that contradict another one by a rule the judgement names the one with the lowest number, and of
/// the commits that it contradicts the one with the greatest stamp; of equal ones the one with the lower number. Takes
/// no memory: it sorts the commits.
pub fn judge_terms(commits: Vec<ShardCommit>) -> Option<TermJudgement>
    ensures { MatchOption result (length commits.items ≡ 0) (IsTermJudgementOf commits.items) }
{
    if commits.is_empty() {
        return None;
    }
    let mut commits = commits;
    let terms = judge_by(&mut commits, Rule::Terms);
    let stamps = judge_by(&mut commits, Rule::Stamps);
    Some(TermJudgement { terms, stamps })
}

/// Judges commits by one rule, and leaves them in another order.
fn judge_by(commits: &mut Vec<ShardCommit>, rule: Rule) -> Conflicts
    ensures permutation { IsPermutation commits.old.items commits.new.items }
    ensures conflicts { AreConflictsOf rule commits.old.items result }
{
    commits.sort_unstable_by_key(|commit| key_of(commit, rule));
    conflicts_in_order(commits.as_slice(), rule)
}

/// The shard of a commit, its group and its rank: a rule compares the commits of one group.
fn key_of(commit: &ShardCommit, rule: Rule) -> (u64, u64, u64)
    ensures { result ≡ key_of rule commit.now }
{
    match rule {
        Rule::Terms => (commit.shard, 0, commit.term),
        Rule::Stamps => (commit.shard, commit.stamp, commit.number as u64),
    }
}

/// Judges commits in the order of their keys by one rule.
fn conflicts_in_order(commits: &[ShardCommit], rule: Rule) -> Conflicts
    requires order { AreInKeyOrder rule commits.now }
    ensures { AreConflictsOf rule commits.now result }
{
    let mut leaders = Leaders {
        key: (0, 0, 0),
        all: None,
        earlier: None,
    };
    let mut count = 0;
    let mut first = None;
    for place in 0..commits.len() {
        let reached = reach(commits, rule, place, leaders);
        let verdict = conflict_of(commits, rule, place, reached);
        count += usize::from(verdict.is_some());
        first = sooner(first, verdict);
        leaders = pass(commits, rule, place, reached);
    }
    Conflicts { count, first }
}

/// Goes on to the key of the commit at this place.
fn reach(commits: &[ShardCommit], rule: Rule, place: usize, leaders: Leaders) -> Leaders
    requires inside { place < length commits.now }
    requires order { AreInKeyOrder rule commits.now }
    requires swept { IsSwept rule commits.now place leaders }
    ensures key { result.key ≡ key_of rule (shard_commit_at commits.now place) }
    ensures swept { IsSwept rule commits.now place result }
{
    let key = key_of(&commits[place], rule);
    if key.0 != leaders.key.0 || key.1 != leaders.key.1 {
        return Leaders {
            key,
            all: None,
            earlier: None,
        };
    }
    if key.2 != leaders.key.2 {
        return Leaders {
            key,
            all: leaders.all,
            earlier: leaders.all,
        };
    }
    leaders
}

/// The conflict of the commit at this place, if it contradicts another one.
fn conflict_of(
    commits: &[ShardCommit],
    rule: Rule,
    place: usize,
    leaders: Leaders,
) -> Option<Violation>
    requires inside { place < length commits.now }
    requires order { AreInKeyOrder rule commits.now }
    requires key { leaders.key ≡ key_of rule (shard_commit_at commits.now place) }
    requires swept { IsSwept rule commits.now place leaders }
    ensures { IsTermVerdict rule commits.now (shard_commit_at commits.now place) result }
{
    let later = commits[place];
    match leaders.earlier {
        Some(earlier) if later.stamp <= earlier.stamp => Some(Violation {
            later: later.number,
            earlier: earlier.number,
        }),
        _ => None,
    }
}

/// Goes on behind the commit at this place.
fn pass(commits: &[ShardCommit], rule: Rule, place: usize, leaders: Leaders) -> Leaders
    requires inside { place < length commits.now }
    requires order { AreInKeyOrder rule commits.now }
    requires key { leaders.key ≡ key_of rule (shard_commit_at commits.now place) }
    requires swept { IsSwept rule commits.now place leaders }
    ensures swept { IsSwept rule commits.now (place + 1) result }
{
    Leaders {
        key: leaders.key,
        all: Some(exceeding(leaders.all, commits[place])),
        earlier: leaders.earlier,
    }
}

/// The commit with the greater stamp, if there are two; of two with the same stamp the one with the lower number.
fn exceeding(leader: Option<ShardCommit>, commit: ShardCommit) -> ShardCommit
    ensures { IsExceeding leader commit result }
{
    match leader {
        Some(other)
            if other.stamp > commit.stamp
                || (other.stamp == commit.stamp && other.number <= commit.number) => { other }
        _ => commit,
    }
}

/// The conflict of the commit that comes first in the history, if there are two.
fn sooner(first: Option<Violation>, next: Option<Violation>) -> Option<Violation>
    ensures { IsSooner first next result }
{
    match (first, next) {
        (Some(one), Some(other)) if other.later < one.later => next,
        (Some(_), _) => first,
        (None, _) => next,
    }
}

/// Laws of the count of conflicts.
pub fn term_laws()
    ensures decided { (rule : Rule) (commits : List ShardCommit) (commit : ShardCommit) →
        (is_in_conflict rule commits commit ≡ true) ↔ IsInConflict rule commits commit }
    ensures none { (rule : Rule) (commits : List ShardCommit) → (conflicts_of rule commits ≡ 0) ↔ HasNoConflict rule commits }
{}
