//! The command `judge`: whether a history of commits is externally consistent.

ghost use Rattle.std.specs.Prelude.{◌≡◌, ◌≢◌, Err};
ghost use Rattle.tt_live.specs.declared.faults.LiveFault.{LiveFault};
ghost use Rattle.ttd_commands.specs.Answer.{answer_in};
ghost use Rattle.ttd_commands.specs.Command.{HasReply};
ghost use Rattle.ttd_commands.specs.Judging.{IsJudgeReply, TellsJudgement, history_fault_of, is_in_order};

use crate::ending::CommandOutput;
use crate::faults::Fault;
use std::alloc::Global;
use tt_judge::{
    Commit, CommitHistory, HistoryFault, Judgement, TermJudgement, judge, judge_terms,
    judgement_text, read_history,
};

impl From<HistoryFault> for Fault {
    ghost from_gives = { λ history fault. fault ≡ history_fault_of history };

    fn from(history: HistoryFault) -> Fault {
        match history {
            HistoryFault::Memory => Fault::Memory,
            _ => Fault::History(history),
        }
    }
}

/// The answer of `judge` to its input, a history: how many commits there are, how many of them are violated, and the
/// first of these. A commit is violated if its stamp is not above the stamp of some commit that ended before it began.
/// If some commit names a shard, also how many commits of each shard are not above those of an earlier term, and how
/// many have the stamp of another one, and the first of each. The program ends as fine if none of these counts more
/// than 0, otherwise as broken.
///
/// Refuses with 1603 `BadLine` where the input is not a history, and with 1 `Memory`.
pub(crate) fn judge_reply(alloc: Global, input: &[u8]) -> Result<CommandOutput, Fault>
    ensures value { HasReply answer_in (IsJudgeReply input.now) result }
    ensures no_device { result ≢ Err Fault.ReadFailed }
    ensures no_run { (live : LiveFault) → result ≢ Err (Fault.Live live) }
{
    match read_history(alloc, input) {
        Ok(history) => {
            let CommitHistory { commits, of_shards } = history;
            let terms = judge_terms(of_shards);
            judged(alloc, commits.as_slice(), &terms)
        }
        Err(fault) => Err(Fault::from(fault)),
    }
}

/// The judgement of a history, of which these are the commits and the judgement of terms.
fn judged(
    alloc: Global,
    commits: &[Commit],
    terms: &Option<TermJudgement>,
) -> Result<CommandOutput, Fault>
    ensures value { HasReply answer_in (TellsJudgement commits.now terms.now) result }
    ensures no_device { result ≢ Err Fault.ReadFailed }
    ensures no_run { (live : LiveFault) → result ≢ Err (Fault.Live live) }
{
    let Ok(judgement) = judge(alloc, commits) else {
        return Err(Fault::Memory);
    };
    let Ok(text) = judgement_text(alloc, &judgement, terms) else {
        return Err(Fault::Memory);
    };
    Ok(if is_in_order(&judgement, terms) {
        CommandOutput::Fine(text)
    } else {
        CommandOutput::Broken(text)
    })
}

/// Whether no commit is violated, and none is in conflict with another one of its shard.
fn is_in_order(judgement: &Judgement, terms: &Option<TermJudgement>) -> bool
    ensures { result ≡ is_in_order judgement.now terms.now }
{
    match terms {
        None => judgement.violations == 0,
        Some(terms) => {
            judgement.violations == 0 && terms.terms.count == 0 && terms.stamps.count == 0
        }
    }
}
