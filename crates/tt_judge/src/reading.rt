//! Histories from text.

ghost use Rattle.std.specs.Prelude.{◌≡◌, ◌≤◌, List, length, drop, MatchOption, IfOk, IfErr};
ghost use Rattle.tt_judge.specs.History.{IsStored};
ghost use Rattle.tt_judge.specs.HistoryText.{numbers_of, commit_line, IsLine, IsHistoryText, IsHistoryOf, IsReadingFault};
ghost use Rattle.tt_judge.specs.declared.history.Line.{Line};
ghost use Rattle.tt_text.specs.Reading.{ReadsNothing, ReadsUpTo, Anything};

use crate::faults::HistoryFault;
use crate::history::{Commit, CommitHistory, Line, ShardTerm};
use std::alloc::Global;
use tt_text::line_at;

/// The commits of a history's text, in the order of their lines, and those of them that name a shard.
///
/// The text has one line `commit BEGAN ENDED STAMP` or `commit BEGAN ENDED STAMP SHARD TERM` for each commit, in any
/// order. Each line ends with one line feed, and one space stands before each number. A number is decimal, without
/// leading zeros, and at most 2^64 - 1. BEGAN is at most ENDED. An empty text is a history of no commits.
///
/// Refuses any other text with 1603 `BadLine` and the number, counted from 1, of the first line that is not such a
/// line. A last line without its line feed is not such a line. Refuses with 1 `Memory` if there is no memory for a
/// commit before the first bad line: never for an empty text, nor if the first line is bad.
pub fn read_history(alloc: Global, text: &[u8]) -> Result<CommitHistory, HistoryFault>
    ensures found { IfOk result (IsHistoryOf text.now) }
    ensures only { IfOk result (λ history. (lines : List Line) → IsHistoryText text.now lines → IsStored lines history) }
    ensures bad { IfErr result (IsReadingFault text.now) }
{
    let mut history = CommitHistory::new(alloc);
    let mut place = 0;
    while place < text.len() {
        let Some((line, next)) = commit_line_at(text, place) else {
            return Err(HistoryFault::BadLine(history.commits.len() + 1));
        };
        history.push(&line).map_err(|_| HistoryFault::Memory)?;
        place = next;
    }
    Ok(history)
}

/// The commit of the line at that place, and what comes after it.
fn commit_line_at(text: &[u8], at: usize) -> Option<(Line, usize)>
    requires { at ≤ length text.now }
    ensures { MatchOption result (ReadsNothing commit_line IsLine Anything (drop at text.now))
        (λ read. ReadsUpTo commit_line IsLine Anything text.now at read.0 read.1) }
{
    let (numbers, next) = line_at(b"commit", text, at)?;
    let line = line_of(&numbers)?;
    Some((line, next))
}

/// The line of two times in order and a stamp, and of a shard and a term behind them, if there is more.
fn line_of(numbers: &[u64]) -> Option<Line>
    ensures { MatchOption result ((line : Line) → IsLine line → numbers_of line ≡ numbers.now → ⊥)
        (λ line. IsLine line × (numbers_of line ≡ numbers.now)) }
{
    match numbers {
        [began, ended, stamp] if began <= ended => Some(Line {
            commit: Commit {
                began: *began,
                ended: *ended,
                stamp: *stamp,
            },
            term: None,
        }),
        [began, ended, stamp, shard, term] if began <= ended => Some(Line {
            commit: Commit {
                began: *began,
                ended: *ended,
                stamp: *stamp,
            },
            term: Some(ShardTerm {
                shard: *shard,
                term: *term,
            }),
        }),
        _ => None,
    }
}
