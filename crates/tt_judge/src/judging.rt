//! Whether a history is externally consistent.

ghost use Rattle.std.specs.Prelude.{◌≡◌, ◌≤◌, ◌<◌, ◌↔◌, ℕ, List, Bool, true, false, length, MatchOption, IfOk, slice_index_or};
ghost use Rattle.tt_judge.specs.declared.history.Commit.{Commit};
ghost use Rattle.tt_judge.specs.declared.order.Moment.TheVariants.{Began, Ended};
ghost use Rattle.tt_judge.specs.Consistency.{commit_at, IsViolated, IsConsistent, is_violated, violations_of, IsGreatestBefore, IsFirstViolation};
ghost use Rattle.tt_judge.specs.Order.{IsOrderOf, entry_at, IsGreatestIfAny};
ghost use Rattle.tt_judge.specs.Sweep.{IsPassed, IsGreater, IsVerdict};

use crate::history::Commit;
use crate::order::{Moment, in_order};
use std::alloc::{AllocError, Global};

/// A commit whose stamp is not above the stamp of another one, which ended before it began. Both are numbers of
/// commits, counted from 0.
#[derive(Clone, Copy, Debug, PartialEq, Eq)]
pub struct Violation {
    pub later: usize,
    pub earlier: usize,
}

/// The judgement of a history.
#[derive(Clone, Copy, Debug, PartialEq, Eq)]
pub struct Judgement {
    /// How many commits there are.
    pub commits: usize,
    /// How many of them are violated: their stamp is not above the stamp of some commit that ended before they began.
    pub violations: usize,
    /// The first of these in the order in which they began, if there is one.
    pub first: Option<Violation>,
}

/// Of the commits that ended before a time: how many there are, and the one with the greatest stamp.
#[derive(Clone, Copy)]
struct Passed {
    count: usize,
    greatest: Option<usize>,
}

/// Judges a history. Its commits may stand in any order, and times may be any numbers.
///
/// If one commit ended at the time at which another began, it did not end before it. Of several violated commits the
/// judgement names the one that began first, and of the commits that it contradicts the one with the greatest stamp; of
/// equal ones the one with the lower number. Takes memory for four numbers of each commit, and refuses only if it is
/// out of memory.
pub fn judge(alloc: Global, commits: &[Commit]) -> Result<Judgement, AllocError>
    ensures commits { IfOk result (λ judgement. judgement.commits ≡ length commits.now) }
    ensures violations { IfOk result (λ judgement. judgement.violations ≡ violations_of commits.now) }
    ensures first { IfOk result (λ judgement. MatchOption judgement.first (IsConsistent commits.now) (IsFirstViolation commits.now)) }
{
    let arrivals = in_order(alloc, commits, Moment::Began)?;
    let endings = in_order(alloc, commits, Moment::Ended)?;
    Ok(judge_in_order(commits, &arrivals, &endings))
}

/// Judges a history. Its commits are also given in the order in which they began, and in the order in which they ended.
fn judge_in_order(
    commits: &[Commit],
    arrivals: &[(u64, usize)],
    endings: &[(u64, usize)],
) -> Judgement
    requires arrivals { IsOrderOf Began commits.now arrivals.now }
    requires endings { IsOrderOf Ended commits.now endings.now }
    ensures commits { result.commits ≡ length commits.now }
    ensures violations { result.violations ≡ violations_of commits.now }
    ensures first { MatchOption result.first (IsConsistent commits.now) (IsFirstViolation commits.now) }
{
    let mut passed = Passed {
        count: 0,
        greatest: None,
    };
    let mut violations = 0;
    let mut first = None;
    for arrival in arrivals {
        let (began, later) = *arrival;
        passed = pass(commits, endings, passed, began);
        let violation = violation_of(commits, passed.greatest, later);
        violations += usize::from(violation.is_some());
        first = first.or(violation);
    }
    Judgement {
        commits: commits.len(),
        violations,
        first,
    }
}

/// Goes on to the commits that ended before this time.
fn pass(commits: &[Commit], endings: &[(u64, usize)], passed: Passed, time: u64) -> Passed
    requires endings { IsOrderOf Ended commits.now endings.now }
    requires passed { IsPassed commits.now endings.now passed.count passed.greatest }
    requires before { (place : ℕ) → place < passed.count → (entry_at endings.now place).0 < time }
    ensures passed { IsPassed commits.now endings.now result.count result.greatest }
    ensures before { (place : ℕ) → place < result.count → (entry_at endings.now place).0 < time }
    ensures greatest { IsGreatestIfAny commits.now time result.greatest }
{
    let mut count = passed.count;
    let mut greatest = passed.greatest;
    while count < endings.len() && endings[count].0 < time {
        greatest = Some(greater(commits, greatest, endings[count].1));
        count += 1;
    }
    Passed { count, greatest }
}

/// The commit with the greater stamp, if there are two; of two with the same stamp the one with the lower number.
fn greater(commits: &[Commit], greatest: Option<usize>, number: usize) -> usize
    requires inside { number < length commits.now }
    requires greatest_inside { MatchOption greatest (0 ≤ number) (λ other. other < length commits.now) }
    ensures { IsGreater commits.now greatest number result }
{
    match greatest {
        None => number,
        Some(other) => {
            let (stamp, other_stamp) = (commits[number].stamp, commits[other].stamp);
            if stamp > other_stamp || (stamp == other_stamp && number < other) {
                number
            } else {
                other
            }
        }
    }
}

/// The violation of a commit, if it is violated. Of the commits that ended before it began, `greatest` has the greatest
/// stamp.
fn violation_of(commits: &[Commit], greatest: Option<usize>, later: usize) -> Option<Violation>
    requires inside { later < length commits.now }
    requires greatest { IsGreatestIfAny commits.now (commit_at commits.now later).began greatest }
    ensures { IsVerdict commits.now later result }
{
    match greatest {
        None => None,
        Some(earlier) => {
            if commits[later].stamp <= commits[earlier].stamp {
                Some(Violation { later, earlier })
            } else {
                None
            }
        }
    }
}

/// Laws of the count of violations.
pub fn consistency_laws()
    ensures decided { (history : List Commit) (commit : Commit) → (is_violated history commit ≡ true) ↔ IsViolated history commit }
    ensures none { (history : List Commit) → (violations_of history ≡ 0) ↔ IsConsistent history }
{}
