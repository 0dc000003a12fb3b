//! Certificates from text.

ghost use Rattle.std.specs.Prelude.{◌≡◌, ◌≤◌, length, drop, MatchOption, IfOk, IfErr, Ok};
ghost use Rattle.std.specs.List.{flat_map};
ghost use Rattle.tt_span.specs.Interval.{Interval, IsInterval};
ghost use Rattle.tt_span.specs.Sources.{max_sources};
ghost use Rattle.tt_cert.specs.declared.certificate.Stretch.{Stretch};
ghost use Rattle.tt_cert.specs.Proof.{Proof};
ghost use Rattle.tt_text.specs.Line.{line_of, ends_of};
ghost use Rattle.tt_text.specs.Reading.{ReadsNothing, ReadsUpTo, Anything, NoWord};
ghost use Rattle.tt_cert.specs.Text.{numbers_of, stretch_line, claim_word, text_of, AreSources, IsStretch, AreStretches, HasText};

use crate::certificate::{Certificate, Stretch};
use crate::faults::CertFault;
use arrayvec::ArrayVec;
use tt_span::{MAX_TIME, Span};
use tt_text::{after, line_at};

/// The claim and the certificate of this text. Source numbers and stretches keep the order in which they are written.
/// `check` says whether they prove the claim.
///
/// The text has the line `claim LO HI`, then a line `left I I ..` and a line `right I I ..` with 1 to 16 source
/// numbers each, then 0 to 33 lines `below FROM TO DEPTH`, then 0 to 33 lines `above FROM TO DEPTH`. Each line ends
/// with one line feed, and one space stands before each number. Times are nanoseconds, source numbers and depths are
/// at most 255. Refuses any other text with 606 `BadText`: a number with leading zeros or above 2^64 - 1, a claim or a
/// stretch that is not a span, a line out of order, a line too many.
pub fn read_text(text: &[u8]) -> Result<(Span, Certificate), CertFault>
    ensures found { IfOk result (λ read. HasText read.0 read.1 × (text.now ≡ text_of read.0 read.1)) }
    ensures only { (claim : Interval) (proof : Proof) → HasText claim proof → text.now ≡ text_of claim proof →
        result ≡ Ok (claim, proof) }
    ensures bad { IfErr result (λ fault. fault ≡ CertFault.BadText) }
{
    parts_of(text).ok_or(CertFault::BadText)
}

/// The claim and the certificate that the whole text spells.
fn parts_of(text: &[u8]) -> Option<(Span, Certificate)>
    ensures { MatchOption result
        ((claim : Interval) (proof : Proof) → HasText claim proof → text.now ≡ text_of claim proof → ⊥)
        (λ read. HasText read.0 read.1 × (text.now ≡ text_of read.0 read.1)
        × ((claim : Interval) (proof : Proof) → HasText claim proof → text.now ≡ text_of claim proof →
        (claim ≡ read.0) × (proof ≡ read.1))) }
{
    let (claim, after_claim) = claim_at(text, 0)?;
    let (left, after_left) = sources_line_at(b"left", text, after_claim)?;
    let (right, after_right) = sources_line_at(b"right", text, after_left)?;
    let (below, after_below) = stretches_at(b"below", text, after_right)?;
    let (above, end) = stretches_at(b"above", text, after_below)?;
    if end < text.len() {
        return None;
    }
    Some((claim, Certificate::new(left, right, below, above)))
}

/// The claim of the line at that place, and what comes after it.
fn claim_at(text: &[u8], at: usize) -> Option<(Span, usize)>
    requires { at ≤ length text.now }
    ensures { MatchOption result
        (ReadsNothing (λ claim. line_of claim_word (ends_of claim)) IsInterval Anything (drop at text.now))
        (λ read. ReadsUpTo (λ claim. line_of claim_word (ends_of claim)) IsInterval Anything text.now at read.0 read.1) }
{
    let (numbers, next) = line_at(b"claim", text, at)?;
    let claim = claim_of(&numbers)?;
    Some((claim, next))
}

/// The span of two ends.
fn claim_of(numbers: &[u64]) -> Option<Span>
    ensures { MatchOption result ((claim : Interval) → IsInterval claim → ends_of claim ≡ numbers.now → ⊥)
        (λ claim. IsInterval claim × (ends_of claim ≡ numbers.now)) }
{
    match numbers {
        [lo, hi] => Span::new(*lo, *hi).ok(),
        _ => None,
    }
}

/// The source numbers of the line at that place, and what comes after it.
fn sources_line_at(word: &[u8], text: &[u8], at: usize) -> Option<(ArrayVec<u8, 16>, usize)>
    requires { at ≤ length text.now }
    ensures { MatchOption result (ReadsNothing (line_of word.now) AreSources Anything (drop at text.now))
        (λ read. ReadsUpTo (line_of word.now) AreSources Anything text.now at read.0.items read.1) }
{
    let (numbers, next) = line_at(word, text, at)?;
    let sources = sources_of(&numbers)?;
    Some((sources, next))
}

/// The numbers as source numbers, if there is at least one and each is at most 255.
fn sources_of(numbers: &[u64]) -> Option<ArrayVec<u8, 16>>
    requires { length numbers.now ≤ max_sources }
    ensures { MatchOption result (AreSources numbers.now → ⊥) (λ sources. AreSources numbers.now × (sources.items ≡ numbers.now)) }
{
    if numbers.is_empty() {
        return None;
    }
    let mut sources = ArrayVec::new();
    for number in numbers {
        if *number > 255 {
            return None;
        }
        sources.push(*number as u8);
    }
    Some(sources)
}

/// The stretches of the lines at that place that begin with the word, and what comes after them.
fn stretches_at(word: &[u8], text: &[u8], at: usize) -> Option<(ArrayVec<Stretch, 33>, usize)>
    requires { at ≤ length text.now }
    ensures { MatchOption result (ReadsNothing (flat_map (stretch_line word.now)) AreStretches (NoWord word.now) (drop at text.now))
        (λ read. ReadsUpTo (flat_map (stretch_line word.now)) AreStretches (NoWord word.now) text.now at read.0.items read.1) }
{
    let mut found = ArrayVec::new();
    let mut place = at;
    while after(word, text, place).is_some() {
        let (stretch, next) = stretch_at(word, text, place)?;
        if found.is_full() {
            return None;
        }
        found.push(stretch);
        place = next;
    }
    Some((found, place))
}

/// The stretch of the line at that place, and what comes after it.
fn stretch_at(word: &[u8], text: &[u8], at: usize) -> Option<(Stretch, usize)>
    requires { at ≤ length text.now }
    ensures { MatchOption result (ReadsNothing (stretch_line word.now) IsStretch Anything (drop at text.now))
        (λ read. ReadsUpTo (stretch_line word.now) IsStretch Anything text.now at read.0 read.1) }
{
    let (numbers, next) = line_at(word, text, at)?;
    let stretch = stretch_of(&numbers)?;
    Some((stretch, next))
}

/// The stretch of two times and a depth.
fn stretch_of(numbers: &[u64]) -> Option<Stretch>
    ensures { MatchOption result ((s : Stretch) → IsStretch s → numbers_of s ≡ numbers.now → ⊥)
        (λ s. IsStretch s × (numbers_of s ≡ numbers.now)) }
{
    match numbers {
        [from, to, depth] if from <= to && *to <= MAX_TIME && *depth <= 255 => Some(Stretch {
            from: *from,
            to: *to,
            depth: *depth as u8,
        }),
        _ => None,
    }
}
