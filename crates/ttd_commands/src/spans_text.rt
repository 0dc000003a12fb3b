//! Reads spans from text.

ghost use Rattle.std.specs.Prelude.{◌≡◌, ℕ, ◌≤◌, List, [], ◌∷◌, length, drop, MatchOption, IfErr, IfOk, MatchResult};
ghost use Rattle.tt_span.specs.Interval.{Interval, IsInterval};
ghost use Rattle.tt_cert.specs.Reading.{Anything, IsNumber, ReadsNothing, ReadsUpTo};
ghost use Rattle.tt_cert.specs.Text.{ends_of};
ghost use Rattle.ttd_commands.specs.SpansText.{AreNoSpans, AreSpansOf, IsNoSpansText, IsReadingFault, IsSpansText, faulty_line, span_line};

use crate::faults::Fault;
use std::alloc::Global;
use tt_cert::{line_at, text_laws};
use tt_span::Span;

/// The content of a spans text.
#[derive(Drop)]
pub(crate) struct SpansText {
    /// How many of the sources may be wrong.
    pub(crate) faulty: usize,
    /// The span of each source, in the order of their numbers.
    pub(crate) spans: Vec<Span>,
}

/// The content of a spans text: the line `faulty F`, and then one line `span LO HI` for each source, in the order of
/// the source numbers. Times are in nanoseconds. Each line ends with one line feed. One space stands before each
/// number, and numbers have no leading zeros.
///
/// Refuses with 1603 `BadInput` any other text, also one with a number above 2^64 - 1, or with two ends that are not a
/// span; and with 1 `Memory`. The number of sources is not checked.
pub(crate) fn read_spans(alloc: Global, text: &[u8]) -> Result<SpansText, Fault>
    ensures found { IfOk result (λ read. IsSpansText text.now read.faulty read.spans.items) }
    ensures only { IfOk result (λ read. (f : ℕ) (spans : List Interval) → IsSpansText text.now f spans →
        (f ≡ read.faulty) × (spans ≡ read.spans.items)) }
    ensures bad { IfErr result (IsReadingFault (IsNoSpansText text.now)) }
{
    let Some((faulty, next)) = faulty_at(text, 0) else {
        return Err(Fault::BadInput);
    };
    let spans = spans_at(alloc, text, next)?;
    Ok(SpansText {
        faulty: faulty as usize,
        spans,
    })
}

/// How many sources may be wrong, from the line at this place, and the place after this line.
fn faulty_at(text: &[u8], at: usize) -> Option<(u64, usize)>
    requires { at ≤ length text.now }
    ensures { MatchOption result (ReadsNothing faulty_line IsNumber Anything (drop at text.now))
        (λ read. ReadsUpTo faulty_line IsNumber Anything text.now at read.0 read.1) }
{
    text_laws();
    let (numbers, next) = line_at(b"faulty", text, at)?;
    let faulty = one_of(&numbers)?;
    Some((faulty, next))
}

/// The one number of a line.
fn one_of(numbers: &[u64]) -> Option<u64>
    ensures { MatchOption result ((n : ℕ) → IsNumber n → n ∷ [] ≡ numbers.now → ⊥) (λ n. IsNumber n × (n ∷ [] ≡ numbers.now)) }
{
    match numbers {
        [number] => Some(*number),
        _ => None,
    }
}

/// The spans of the lines from this place to the end of the text.
fn spans_at(alloc: Global, text: &[u8], at: usize) -> Result<Vec<Span>, Fault>
    requires { at ≤ length text.now }
    ensures { MatchResult result (λ spans. AreSpansOf (drop at text.now) spans.items)
        (IsReadingFault (AreNoSpans (drop at text.now))) }
{
    text_laws();
    let mut spans = Vec::new(alloc);
    let mut place = at;
    while place < text.len() {
        let Some((span, next)) = span_at(text, place) else {
            return Err(Fault::BadInput);
        };
        spans.push(span).map_err(|_| Fault::Memory)?;
        place = next;
    }
    Ok(spans)
}

/// The span of the line at this place, and the place after this line.
fn span_at(text: &[u8], at: usize) -> Option<(Span, usize)>
    requires { at ≤ length text.now }
    ensures { MatchOption result (ReadsNothing span_line IsInterval Anything (drop at text.now))
        (λ read. ReadsUpTo span_line IsInterval Anything text.now at read.0 read.1) }
{
    text_laws();
    let (numbers, next) = line_at(b"span", text, at)?;
    let span = span_of(&numbers)?;
    Some((span, next))
}

/// The span with these two ends.
fn span_of(numbers: &[u64]) -> Option<Span>
    ensures { MatchOption result ((span : Interval) → IsInterval span → ends_of span ≡ numbers.now → ⊥)
        (λ span. IsInterval span × (ends_of span ≡ numbers.now)) }
{
    match numbers {
        [lo, hi] => Span::new(*lo, *hi).ok(),
        _ => None,
    }
}
