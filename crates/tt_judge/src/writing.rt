//! The answer of the judge as text.

ghost use Rattle.std.specs.Prelude.{◌≡◌, ◌++◌, IfOk, OnOk, string_bytes};
ghost use Rattle.tt_judge.specs.Text.{count_text, first_text, terms_text, text_of};

use crate::judging::{Judgement, Violation};
use crate::terms::TermJudgement;
use std::alloc::{AllocError, Global};
use tt_text::push_line;

/// The text of a judgement: the line `commits N`, the line `violations N` and, if there is a violation, the line `first
/// LATER EARLIER`, the lines of the two commits, counted from 1. If some commit names a shard, so that there is a
/// judgement of terms, the lines `term_violations N` and `equal_stamps N` follow, and behind each, if its count is not
/// 0, the line `first_term LATER EARLIER` or `first_equal LATER EARLIER`. Refuses only if it is out of memory.
pub fn judgement_text(
    alloc: Global,
    judgement: &Judgement,
    terms: &Option<TermJudgement>,
) -> Result<String, AllocError>
    ensures written { IfOk result (λ text. string_bytes text ≡ text_of judgement.now terms.now) }
{
    let mut text = String::new(alloc);
    push_line(&mut text, "commits", &[judgement.commits as u64])?;
    push_count(
        &mut text,
        "violations",
        judgement.violations,
        "first",
        &judgement.first,
    )?;
    push_terms(&mut text, terms)?;
    Ok(text)
}

/// Writes the lines of the judgement of terms at the end, if there is one.
fn push_terms(text: &mut String, terms: &Option<TermJudgement>) -> Result<(), AllocError>
    ensures { OnOk result (string_bytes text.new ≡ string_bytes text.old ++ terms_text terms.now) }
{
    match terms {
        None => Ok(()),
        Some(judgement) => {
            let (terms, stamps) = (judgement.terms, judgement.stamps);
            push_count(
                text,
                "term_violations",
                terms.count,
                "first_term",
                &terms.first,
            )?;
            push_count(
                text,
                "equal_stamps",
                stamps.count,
                "first_equal",
                &stamps.first,
            )
        }
    }
}

/// Writes the line of a count at the end, and the line of the first violation, if there is one.
fn push_count(
    text: &mut String,
    word: &str,
    count: usize,
    first_word: &str,
    first: &Option<Violation>,
) -> Result<(), AllocError>
    ensures { OnOk result (string_bytes text.new ≡ string_bytes text.old ++ count_text word.now count first_word.now first.now) }
{
    push_line(text, word, &[count as u64])?;
    push_first(text, first_word, first)
}

/// Writes the line of the first violation at the end, if there is one.
fn push_first(text: &mut String, word: &str, first: &Option<Violation>) -> Result<(), AllocError>
    ensures { OnOk result (string_bytes text.new ≡ string_bytes text.old ++ first_text word.now first.now) }
{
    match first {
        None => Ok(()),
        Some(violation) => {
            let later = violation.later as u128 + 1;
            let earlier = violation.earlier as u128 + 1;
            write!(text, "{word} {later} {earlier}\n")
        }
    }
}
