//! The lines of the sources, and that of the fused span.

ghost use Rattle.std.specs.Prelude.{◌≡◌, ◌++◌, OnOk, string_bytes};
ghost use Rattle.std.specs.List.{flat_map};
ghost use Rattle.tt_top.specs.Row.{middle_of, apart_of, offset_between, source_offset, bar_mark, ends_word, state_word, row_text, fused_text, fused_length};

use crate::bars::{Bar, Mark, Scale};
use crate::forms::Form;
use crate::pieces::{Offset, Piece, push_pieces};
use crate::views::SourceView;
use std::alloc::AllocError;
use tt_span::Span;

/// The middle of a span, in nanoseconds.
fn middle(span: &Span) -> u64
    ensures { result ≡ middle_of span.now }
{
    (span.lo() + span.hi()) / 2
}

/// How far the middle of a span lies from that of the fused one.
fn offset(span: &Span, fused: &Span) -> Offset
    ensures { result ≡ offset_between span.now fused.now }
{
    apart(middle(span), fused)
}

/// How far a time lies from the middle of the fused span.
pub(crate) fn apart(here: u64, fused: &Span) -> Offset
    ensures { result ≡ apart_of here fused.now }
{
    let there = middle(fused);
    if here < there {
        Offset {
            below: true,
            size: there - here,
        }
    } else {
        Offset {
            below: false,
            size: here - there,
        }
    }
}

impl SourceView {
    /// How far the middle of its span lies from that of the fused one, if both are known.
    pub(crate) fn offset(&self, fused: &Option<Span>) -> Option<Offset>
        ensures { result ≡ source_offset self.now fused.now }
    {
        match (&self.span, fused) {
            (Some(span), Some(fused)) => Some(offset(span, fused)),
            _ => None,
        }
    }

    /// What its bar is drawn with.
    fn mark(&self, fused: &Option<Span>) -> Mark
        ensures { result ≡ bar_mark self.now fused.now }
    {
        match (&self.span, fused) {
            (_, None) => Mark::Absent,
            (None, Some(_)) => Mark::Unknown,
            (Some(_), Some(_)) => if self.suspect {
                Mark::Suspect
            } else {
                Mark::Source
            },
        }
    }

    /// Which ends of the fused span it holds.
    pub(crate) fn ends(&self) -> &'static str
        ensures { result.now ≡ ends_word self.now }
    {
        if self.holds_lower {
            if self.holds_upper { "[]" } else { "[ " }
        } else {
            if self.holds_upper { " ]" } else { "  " }
        }
    }

    /// What is wrong with it.
    pub(crate) fn state(&self, form: &Form) -> &'static str
        ensures { result.now ≡ state_word self.now form.now }
    {
        let Some(age) = self.age else {
            return " never";
        };
        if self.suspect {
            " suspect"
        } else if age > form.silent_after {
            " silent"
        } else {
            ""
        }
    }
}

/// Writes the lines of sources at the end of the text.
pub(crate) fn push_rows(
    text: &mut String,
    form: &Form,
    scale: Scale,
    fused: &Option<Span>,
    sources: &[SourceView],
) -> Result<(), AllocError>
    ensures { OnOk result (string_bytes text.new ≡ string_bytes text.old ++ flat_map (row_text form.now scale fused.now) sources.now) }
{
    for source in sources {
        push_row(text, form, scale, fused, source)?;
    }
    Ok(())
}

/// Writes the line of a source at the end of the text: its number, its bar, its offset, its round trip, its age, the ends
/// that it holds, and what is wrong with it.
fn push_row(
    text: &mut String,
    form: &Form,
    scale: Scale,
    fused: &Option<Span>,
    source: &SourceView,
) -> Result<(), AllocError>
    ensures { OnOk result (string_bytes text.new ≡ string_bytes text.old ++ row_text form.now scale fused.now source.now) }
{
    let bar = Bar {
        scale,
        mark: source.mark(fused),
        span: source.span,
    };
    let before = if source.number < 10 { "    " } else { "   " };
    push_pieces(
        text,
        &[
            Piece::Word(form.red(source.suspect)),
            Piece::Word(before),
            Piece::Number(source.number),
            Piece::Word(" "),
            Piece::Bar(bar),
            Piece::Word(" "),
            Piece::Offset(source.offset(fused)),
            Piece::Word(" "),
            Piece::Length(source.round_trip),
            Piece::Word(" "),
            Piece::Length(source.age),
            Piece::Word(" "),
            Piece::Word(source.ends()),
            Piece::Word(source.state(form)),
            Piece::Word(form.plain(source.suspect)),
            Piece::Word("\n"),
        ],
    )
}

/// Writes the line of the fused span at the end of the text: its bar, and its width.
pub(crate) fn push_fused(text: &mut String, scale: Scale, fused: &Span) -> Result<(), AllocError>
    ensures { OnOk result (string_bytes text.new ≡ string_bytes text.old ++ fused_text scale fused.now) }
{
    let bar = Bar {
        scale,
        mark: Mark::Fused,
        span: Some(*fused),
    };
    let width = fused.hi() - fused.lo();
    push_pieces(
        text,
        &[
            Piece::Word("fused "),
            Piece::Bar(bar),
            Piece::Word("  "),
            Piece::Length(Some(width)),
            Piece::Word(" wide\n"),
        ],
    )
}
