//! Where an input is refused, in lines for standard error. What such a line says is exact, or it is not said. The
//! wording is not fixed. If it is out of memory, less is written.

use crate::certificate_places::{bad_certificate_line, note_cover};
use crate::check::claim_place;
use crate::ending::CommandOutput;
use crate::faults::Fault;
use crate::spans_text::{SpansText, read_spans};
use std::alloc::{AllocError, Global};
use tt_cert::{CertFault, Certificate, Stretch, read_text};
use tt_span::{Span, SpanFault};
use tt_text::numbers_behind;
use ttd_words::Command;

/// Adds to the notes where the command refused its input. Where a script is refused, the refusal itself says.
pub(crate) fn note(
    alloc: Global,
    notes: &mut String,
    command: &Command,
    input: &[u8],
    reply: &Result<CommandOutput, Fault>,
) {
    let _ = match command {
        Command::Fuse => note_spans(notes, input, reply),
        Command::Check => note_check(alloc, notes, input, reply),
        _ => Ok(()),
    };
}

/// Adds which line of a spans text is bad, if the text was refused because of it.
fn note_spans(
    notes: &mut String,
    text: &[u8],
    reply: &Result<CommandOutput, Fault>,
) -> Result<(), AllocError> {
    if !matches!(reply, Err(Fault::BadInput)) {
        return Ok(());
    }
    match bad_spans_line(text) {
        Some((line, why)) => write!(notes, "ttd: line {line}: {why}\n"),
        None => Ok(()),
    }
}

/// Adds where the spans text or the certificate was refused.
fn note_check(
    alloc: Global,
    notes: &mut String,
    input: &[u8],
    reply: &Result<CommandOutput, Fault>,
) -> Result<(), AllocError> {
    let (front, rest) = input.split_at(claim_place(input));
    note_spans(notes, front, reply)?;
    let Err(Fault::Certificate(fault)) = reply else {
        return Ok(());
    };
    let Ok(read) = read_spans(alloc, front) else {
        return Ok(());
    };
    let Ok((claim, certificate)) = read_text(rest) else {
        return note_text(notes, front, rest);
    };
    note_certificate(notes, &read, &claim, &certificate, *fault)
}

/// Adds which line of a certificate text is bad. The text stands behind the spans text `front`.
fn note_text(notes: &mut String, front: &[u8], text: &[u8]) -> Result<(), AllocError> {
    match bad_certificate_line(text) {
        Some((number, why)) => {
            let line = number.saturating_add(lines_of(front));
            write!(notes, "ttd: line {line}: {why}\n")
        }
        None => Ok(()),
    }
}

/// How many line feeds a text has.
fn lines_of(text: &[u8]) -> u64 {
    text.iter().filter(|byte| **byte == b'\n').count() as u64
}

/// The first line of a text with its line feed, if there is one, and what comes behind it.
pub(crate) fn first_line(text: &[u8]) -> (&[u8], &[u8]) {
    match text.iter().position(|byte| *byte == b'\n') {
        Some(at) => text.split_at(at + 1),
        None => text.split_at(text.len()),
    }
}

/// The number of the first bad line of a spans text, counted from 1, and what is wrong with it.
fn bad_spans_line(text: &[u8]) -> Option<(u64, &str)> {
    let (head, behind) = first_line(text);
    let mut rest = behind;
    let mut number: u64 = 1;
    if !has_one_number(b"faulty", head) {
        return Some((number, "it has to be `faulty N`"));
    }
    for _ in 0..text.len() {
        if rest.is_empty() {
            return None;
        }
        let (line, others) = first_line(rest);
        number = number.saturating_add(1);
        if let Some(why) = span_fault(line) {
            return Some((number, why));
        }
        rest = others;
    }
    None
}

/// Whether a line is this word and one number.
fn has_one_number(word: &[u8], line: &[u8]) -> bool {
    match numbers_behind(word, line) {
        Some(numbers) => numbers.len() == 1,
        None => false,
    }
}

/// What is wrong with the line of a span.
fn span_fault(line: &[u8]) -> Option<&'static str> {
    let Some(numbers) = numbers_behind(b"span", line) else {
        return Some("it has to be `span LO HI`");
    };
    match numbers.as_slice() {
        [lo, hi] => match Span::new(*lo, *hi) {
            Ok(_) => None,
            Err(SpanFault::Backwards) => Some("its ends are out of order"),
            Err(SpanFault::PastMax) => Some("its upper end is past the greatest time"),
        },
        _ => Some("it has to be `span LO HI`"),
    }
}

/// Adds the source or the stretch for which a certificate was refused.
fn note_certificate(
    notes: &mut String,
    read: &SpansText,
    claim: &Span,
    certificate: &Certificate,
    fault: CertFault,
) -> Result<(), AllocError> {
    let spans = read.spans.as_slice();
    let need = spans.len().saturating_sub(read.faulty);
    match fault {
        CertFault::LeftSet => note_set(notes, "left", spans, need, claim.lo(), certificate.left()),
        CertFault::RightSet => note_set(
            notes,
            "right",
            spans,
            need,
            claim.hi(),
            certificate.right(),
        ),
        CertFault::TooDeep | CertFault::Depth => {
            let below = note_stretch(notes, "below", spans, need, certificate.below(), fault)?;
            if !below {
                note_stretch(notes, "above", spans, need, certificate.above(), fault)?;
            }
            Ok(())
        }
        CertFault::Cover => note_cover(notes, claim, certificate),
        _ => Ok(()),
    }
}

/// Adds what is wrong with a set of sources.
fn note_set(
    notes: &mut String,
    word: &str,
    spans: &[Span],
    need: usize,
    end: u64,
    set: &[u8],
) -> Result<(), AllocError> {
    for (place, source) in set.iter().enumerate() {
        let Some(span) = spans.get(usize::from(*source)) else {
            return write!(notes, "ttd: {word}: there is no source {source}\n");
        };
        if !span.contains(end) {
            return write!(notes, "ttd: {word}: source {source} does not hold {end}\n");
        }
        if set.split_at(place).0.contains(source) {
            return write!(notes, "ttd: {word}: source {source} is named twice\n");
        }
    }
    let named = set.len();
    write!(
        notes,
        "ttd: {word}: it names {named} sources, and has to name {need}\n"
    )
}

/// Adds which stretch is too deep, or names another depth. Answers whether there is one.
fn note_stretch(
    notes: &mut String,
    word: &str,
    spans: &[Span],
    need: usize,
    stretches: &[Stretch],
    fault: CertFault,
) -> Result<bool, AllocError> {
    for stretch in stretches {
        let (from, to, depth) = (stretch.from, stretch.to, stretch.depth);
        let met = meeting(spans, from, to);
        let is_it = match fault {
            CertFault::TooDeep => met >= need,
            _ => met != usize::from(depth),
        };
        if is_it {
            write!(
                notes,
                "ttd: {word} {from} {to} {depth}: {met} sources meet it\n"
            )?;
            return Ok(true);
        }
    }
    Ok(false)
}

/// How many of the spans meet a stretch of time.
fn meeting(spans: &[Span], from: u64, to: u64) -> usize {
    spans
        .iter()
        .filter(|span| span.lo() <= to && from <= span.hi())
        .count()
}
