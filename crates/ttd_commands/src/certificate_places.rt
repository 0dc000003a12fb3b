//! Where a certificate is refused: the bad line of its text, and the time at which its stretches leave a gap.

use crate::places::first_line;
use std::alloc::AllocError;
use tt_cert::{Certificate, Stretch};
use tt_span::{MAX_TIME, Span};
use tt_text::numbers_behind;

/// The most stretches on one side.
const MOST_STRETCHES: u32 = 33;

/// The number of the first bad line of a certificate text, counted from 1, and what the line has to be.
pub(crate) fn bad_certificate_line(text: &[u8]) -> Option<(u64, &'static str)> {
    let (claim, behind_claim) = first_line(text);
    if !is_claim(claim) {
        return Some((1, "it has to be `claim LO HI`"));
    }
    let (left, behind_left) = first_line(behind_claim);
    if !is_set(b"left", left) {
        return Some((2, "it has to be `left I I ..`"));
    }
    let (right, stretches) = first_line(behind_left);
    if !is_set(b"right", right) {
        return Some((3, "it has to be `right I I ..`"));
    }
    bad_stretch_line(stretches)
}

/// The number of the first bad line behind the first three, and what the line has to be.
fn bad_stretch_line(text: &[u8]) -> Option<(u64, &'static str)> {
    let mut rest = text;
    let mut number: u64 = 3;
    let mut below: u32 = 0;
    let mut above: u32 = 0;
    for _ in 0..text.len() {
        if rest.is_empty() {
            return None;
        }
        let (line, others) = first_line(rest);
        number = number.saturating_add(1);
        if above == 0 && below < MOST_STRETCHES && is_stretch(b"below", line) {
            below = below.saturating_add(1);
        } else if above < MOST_STRETCHES && is_stretch(b"above", line) {
            above = above.saturating_add(1);
        } else {
            return Some((
                number,
                "it has to be one of at most 33 `below FROM TO DEPTH`, or behind these of at most 33 `above FROM TO DEPTH`",
            ));
        }
        rest = others;
    }
    None
}

/// Whether a line is the line of a claim.
fn is_claim(line: &[u8]) -> bool {
    let Some(numbers) = numbers_behind(b"claim", line) else {
        return false;
    };
    match numbers.as_slice() {
        [lo, hi] => Span::new(*lo, *hi).is_ok(),
        _ => false,
    }
}

/// Whether a line is this word and some source numbers.
fn is_set(word: &[u8], line: &[u8]) -> bool {
    let Some(numbers) = numbers_behind(word, line) else {
        return false;
    };
    !numbers.is_empty() && numbers.as_slice().iter().all(|number| *number <= 255)
}

/// Whether a line is this word and a stretch.
fn is_stretch(word: &[u8], line: &[u8]) -> bool {
    let Some(numbers) = numbers_behind(word, line) else {
        return false;
    };
    match numbers.as_slice() {
        [from, to, depth] => from <= to && *to <= MAX_TIME && *depth <= 255,
        _ => false,
    }
}

/// Adds where the stretches of a certificate do not lie side by side.
pub(crate) fn note_cover(
    notes: &mut String,
    claim: &Span,
    certificate: &Certificate,
) -> Result<(), AllocError> {
    if let Some(time) = gap_in(certificate.below(), 0, claim.lo()) {
        return write!(
            notes,
            "ttd: below: a stretch has to begin at {time}, and to end before the claim\n"
        );
    }
    let start = claim.hi().saturating_add(1);
    match gap_in(certificate.above(), start, MAX_TIME + 1) {
        Some(time) => write!(
            notes,
            "ttd: above: a stretch has to begin at {time}, and to end by the greatest time\n"
        ),
        None => Ok(()),
    }
}

/// The time at which the next stretch has to begin, if the stretches do not lie side by side from `start` to just
/// before `stop`.
fn gap_in(stretches: &[Stretch], start: u64, stop: u64) -> Option<u64> {
    let mut next = start;
    for stretch in stretches {
        if stretch.from != next || stretch.to < stretch.from || stretch.to >= stop {
            return Some(next);
        }
        next = stretch.to.saturating_add(1);
    }
    if next == stop { None } else { Some(next) }
}
