//! The last answers of the sources.

ghost use Rattle.std.specs.Prelude.{◌≡◌, ◌-◌, ◌<◌, ◌⊎◌, ℕ, List, take, Option, MatchOption};
ghost use Rattle.tt_health.specs.Answers.{IsNthNewest, TooFewAnswered, answered_since, answers_after, has_answered_since, last_after, later_of, newest_among, nth_newest};
ghost use Rattle.tt_health.specs.declared.answers.Answer.{Answer as TheAnswer};

use tt_rounds::{SourceOutcome, SourceReport};
use tt_span::MAX_SOURCES;

/// An answer of a source: what the clock of the daemon showed, in nanoseconds, when it polled the source, and when it
/// received the answer.
#[derive(Clone, Copy)]
pub struct Answer {
    pub polled: u64,
    pub received: u64,
}

impl Answer {
    /// How long the answer took, in nanoseconds: 0 where it was received before the poll.
    pub fn round_trip(&self) -> u64
        ensures { result ≡ self.now.received - self.now.polled }
    {
        self.received.saturating_sub(self.polled)
    }
}

/// The last answer of a source after a round with this report, if `last` was its last one before.
fn answer_after(last: &Option<Answer>, report: &SourceReport) -> Option<Answer>
    ensures { result ≡ last_after last.now report.now }
{
    match (report.polled, report.outcome) {
        (Some(polled), SourceOutcome::Accepted { received }) => Some(Answer { polled, received }),
        _ => *last,
    }
}

/// The last answers of the sources after a round with these reports. A source whose answer was accepted in it has this
/// one, with what the clock showed when the daemon polled the source in this round, and when it took the answer. The
/// others keep theirs; so does a source that was not polled, to which no round gives an accepted answer.
pub fn answers_after(
    answers: &[Option<Answer>; MAX_SOURCES],
    sources: &[SourceReport; MAX_SOURCES],
) -> [Option<Answer>; MAX_SOURCES]
    ensures value { result ≡ answers_after answers.now sources.now }
{
    let mut next = *answers;
    for source in 0..MAX_SOURCES {
        next[source] = answer_after(&answers[source], &sources[source]);
    }
    next
}

/// The later of a clock reading and another that may be there.
fn later(received: u64, newest: Option<u64>) -> Option<u64>
    ensures { result ≡ later_of received newest }
{
    match newest {
        None => Some(received),
        Some(other) => Some(received.max(other)),
    }
}

/// Whether the last answer of a source came at this clock reading or later.
fn has_answered(answer: &Option<Answer>, clock: u64) -> bool
    ensures { result ≡ has_answered_since clock answer.now }
{
    match answer {
        None => false,
        Some(answer) => clock <= answer.received,
    }
}

/// How many of these sources have their last answer at this clock reading or later.
fn answered(answers: &[Option<Answer>], clock: u64) -> usize
    ensures { result ≡ answered_since answers.now clock }
{
    answers
        .iter()
        .filter(|answer| has_answered(answer, clock))
        .count()
}

/// The greatest clock reading such that at least `n` of the first `sources` sources have their last answer at it or
/// later, in nanoseconds. None where fewer than `n` of them have answered, and where `n` is 0. There are no more sources
/// than there is room for, so a greater number of them stands for all.
pub fn nth_newest(answers: &[Option<Answer>; MAX_SOURCES], sources: usize, n: usize) -> Option<u64>
    ensures value { result ≡ nth_newest (take sources answers.now) n }
    ensures newest { MatchOption result (TooFewAnswered (take sources answers.now) n) (λ clock. IsNthNewest (take sources answers.now) n clock) }
{
    if n == 0 {
        return None;
    }
    newest_of(&answers[..sources.min(MAX_SOURCES)], n)
}

/// The greatest of the clock readings of these answers since which `n` of them came.
fn newest_of(answers: &[Option<Answer>], n: usize) -> Option<u64>
    ensures { result ≡ newest_among answers.now n answers.now }
{
    let mut newest = None;
    let mut at = answers.len();
    while at > 0 {
        at -= 1;
        if let Some(answer) = answers[at] {
            if n <= answered(answers, answer.received) {
                newest = later(answer.received, newest);
            }
        }
    }
    newest
}

/// Laws of the n-th newest answer. The clock reading since which n sources have answered is found among those of the
/// answers. There is no other such reading.
pub fn answer_laws()
    ensures found { (answers : List (Option TheAnswer)) (n : ℕ) →
        MatchOption (nth_newest answers n) (TooFewAnswered answers n) (λ clock. IsNthNewest answers n clock) }
    ensures only { (answers : List (Option TheAnswer)) (n c d : ℕ) → IsNthNewest answers n c → IsNthNewest answers n d → c ≡ d }
{}
