//! Histories of commits.

ghost use Rattle.std.specs.Prelude.{◌≡◌, ◌++◌, ◌∷◌, [], length, OnOk};
ghost use Rattle.tt_judge.specs.History.{shard_commits_at};

use std::alloc::{AllocError, Global};

/// A commit: when it began and when it ended, both by one clock, and its stamp.
#[derive(Clone, Copy, Debug, PartialEq, Eq)]
pub struct Commit {
    /// When the client asked for the commit.
    pub began: u64,
    /// When the client was told that it was committed.
    pub ended: u64,
    pub stamp: u64,
}

/// A shard, and a term of its leader.
#[derive(Clone, Copy, Debug, PartialEq, Eq)]
pub struct ShardTerm {
    pub shard: u64,
    pub term: u64,
}

/// A line of a history: a commit, and the shard and the term in which it was made, if it names them.
#[derive(Clone, Copy, Debug, PartialEq, Eq)]
pub struct Line {
    pub commit: Commit,
    pub term: Option<ShardTerm>,
}

/// A commit that names a shard: the term in which it was made, its stamp, and its number in the history, counted from 0.
#[derive(Clone, Copy, Debug, PartialEq, Eq)]
pub struct ShardCommit {
    pub shard: u64,
    pub term: u64,
    pub stamp: u64,
    pub number: usize,
}

/// A history: all its commits in the order of their lines, and apart from them those that name a shard. A commit that
/// names none takes room for three numbers, any other one for seven.
#[derive(Drop)]
pub struct CommitHistory {
    pub commits: Vec<Commit>,
    pub of_shards: Vec<ShardCommit>,
}

impl CommitHistory {
    /// A history of no commits.
    pub(crate) fn new(alloc: Global) -> CommitHistory
        ensures commits { result.commits.items ≡ [] }
        ensures of_shards { result.of_shards.items ≡ [] }
    {
        CommitHistory {
            commits: Vec::new(alloc),
            of_shards: Vec::new(alloc),
        }
    }

    /// Adds a line at the end. Refuses only if it is out of memory.
    pub(crate) fn push(&mut self, line: &Line) -> Result<(), AllocError>
        ensures commits { OnOk result (self.new.commits.items ≡ self.old.commits.items ++ line.now.commit ∷ []) }
        ensures of_shards { OnOk result (self.new.of_shards.items
            ≡ self.old.of_shards.items ++ shard_commits_at (length self.old.commits.items) line.now) }
    {
        if let Some(term) = line.term {
            self.of_shards.push(ShardCommit {
                shard: term.shard,
                term: term.term,
                stamp: line.commit.stamp,
                number: self.commits.len(),
            })?;
        }
        self.commits.push(line.commit)?;
        Ok(())
    }
}
