//! The spans of a view on an axis, as parts of an SVG document.

ghost use Rattle.std.specs.Prelude.{◌≡◌, ◌++◌, ◌≤◌, OnOk, length, string_bytes};
ghost use Rattle.std.specs.List.{flat_map};
ghost use Rattle.tt_top.specs.Chart.{row_of, bar_rect, span_rect, rect_if, label_text, source_chart, fused_label, fused_chart, tick_text, axis_line, axis_text, chart_on, known_chart, no_fused, unknown_chart, spans_chart};

use crate::forms::Form;
use crate::pieces::{Piece, push_pieces, push_word};
use crate::rows::apart;
use crate::rulers::Ruler;
use crate::views::SourceView;
use std::alloc::AllocError;
use tt_span::Span;

/// The most rows that have a place of their own.
const MOST_ROWS: u64 = 1000;

/// Where a row begins, in units from the upper end.
pub(crate) fn row(number: u64) -> u64
    ensures value { result ≡ row_of number }
    ensures most { result ≤ 40000 }
{
    40 * number.min(MOST_ROWS)
}

/// Writes a bar that begins at this unit of the axis and has this length, in a row.
fn push_bar(text: &mut String, left: u64, length: u64, number: u64) -> Result<(), AllocError>
    requires { left ≤ 796 }
    ensures { OnOk result (string_bytes text.new ≡ string_bytes text.old ++ bar_rect left length number) }
{
    push_pieces(
        text,
        &[
            Piece::Word("<rect x=\""),
            Piece::Number(150 + left),
            Piece::Word("\" y=\""),
            Piece::Number(row(number) + 14),
            Piece::Word("\" width=\""),
            Piece::Number(length),
            Piece::Word("\" height=\"24\"/>"),
        ],
    )
}

/// Writes the bar of a span in a row.
fn push_rect(text: &mut String, ruler: Ruler, span: &Span, number: u64) -> Result<(), AllocError>
    ensures { OnOk result (string_bytes text.new ≡ string_bytes text.old ++ span_rect ruler span.now number) }
{
    let left = ruler.left(span);
    let extent = ruler.extent(span);
    push_bar(text, left, extent, number)
}

/// Writes the bar of a span in a row, if there is a span.
fn push_rect_if(
    text: &mut String,
    ruler: Ruler,
    span: &Option<Span>,
    number: u64,
) -> Result<(), AllocError>
    ensures { OnOk result (string_bytes text.new ≡ string_bytes text.old ++ rect_if ruler span.now number) }
{
    match span {
        Some(span) => push_rect(text, ruler, span, number),
        None => Ok(()),
    }
}

/// Writes what stands in front of the bar of a source, and what is told of it where a pointer stands on it.
fn push_label(
    text: &mut String,
    form: &Form,
    fused: &Option<Span>,
    source: &SourceView,
    number: u64,
) -> Result<(), AllocError>
    ensures { OnOk result (string_bytes text.new ≡ string_bytes text.old ++ label_text form.now fused.now source.now number) }
{
    push_pieces(
        text,
        &[
            Piece::Word("<g class=\"source"),
            Piece::Word(source.state(form)),
            Piece::Word("\"><title>source "),
            Piece::Number(source.number),
            Piece::Word(": offset "),
            Piece::Offset(source.offset(fused)),
            Piece::Word(", round trip "),
            Piece::Length(source.round_trip),
            Piece::Word(", age "),
            Piece::Length(source.age),
            Piece::Word("</title><text x=\"8\" y=\""),
            Piece::Number(row(number) + 34),
            Piece::Word("\">"),
            Piece::Number(source.number),
            Piece::Word(source.state(form)),
            Piece::Word("</text>"),
        ],
    )
}

/// Writes the row of a source.
fn push_source(
    text: &mut String,
    form: &Form,
    ruler: Ruler,
    fused: &Option<Span>,
    source: &SourceView,
) -> Result<(), AllocError>
    ensures { OnOk result (string_bytes text.new ≡ string_bytes text.old ++ source_chart form.now ruler fused.now source.now) }
{
    push_label(text, form, fused, source, source.number)?;
    push_rect_if(text, ruler, &source.span, source.number)?;
    push_word(text, "</g>\n")
}

/// Writes the rows of sources.
fn push_sources(
    text: &mut String,
    form: &Form,
    ruler: Ruler,
    fused: &Option<Span>,
    sources: &[SourceView],
) -> Result<(), AllocError>
    ensures { OnOk result (string_bytes text.new ≡ string_bytes text.old ++ flat_map (source_chart form.now ruler fused.now) sources.now) }
{
    for source in sources {
        push_source(text, form, ruler, fused, source)?;
    }
    Ok(())
}

/// Writes the band of the fused span behind all rows, and what stands in front of its bar, which begins at this unit and has
/// this length.
fn push_fused_label(
    text: &mut String,
    left: u64,
    length: u64,
    width: u64,
    number: u64,
) -> Result<(), AllocError>
    requires { left ≤ 796 }
    ensures { OnOk result (string_bytes text.new ≡ string_bytes text.old ++ fused_label left length width number) }
{
    push_pieces(
        text,
        &[
            Piece::Word("<rect class=\"band\" x=\""),
            Piece::Number(150 + left),
            Piece::Word("\" y=\"0\" width=\""),
            Piece::Number(length),
            Piece::Word("\" height=\""),
            Piece::Number(row(number) + 40),
            Piece::Word("\"/>\n<g class=\"fused\"><title>fused: "),
            Piece::Length(Some(width)),
            Piece::Word(" wide</title><text x=\"8\" y=\""),
            Piece::Number(row(number) + 34),
            Piece::Word("\">fused</text>"),
        ],
    )
}

/// Writes the row of the fused span, which is the one with this number.
fn push_fused(text: &mut String, ruler: Ruler, fused: &Span, number: u64) -> Result<(), AllocError>
    ensures { OnOk result (string_bytes text.new ≡ string_bytes text.old ++ fused_chart ruler fused.now number) }
{
    let left = ruler.left(fused);
    let extent = ruler.extent(fused);
    let width = fused.hi() - fused.lo();
    push_fused_label(text, left, extent, width, number)?;
    push_rect(text, ruler, fused, number)?;
    push_word(text, "</g>\n")
}

/// Writes what a unit of the axis shows: how far its time lies from the middle of the fused span.
fn push_tick(
    text: &mut String,
    ruler: Ruler,
    fused: &Span,
    unit: u64,
    number: u64,
) -> Result<(), AllocError>
    requires { unit ≤ 800 }
    ensures { OnOk result (string_bytes text.new ≡ string_bytes text.old ++ tick_text ruler fused.now unit number) }
{
    push_pieces(
        text,
        &[
            Piece::Word("<text class=\"tick\" x=\""),
            Piece::Number(150 + unit),
            Piece::Word("\" y=\""),
            Piece::Number(row(number) + 90),
            Piece::Word("\">"),
            Piece::Offset(Some(apart(ruler.time(unit), fused))),
            Piece::Word("</text>\n"),
        ],
    )
}

/// Writes the line of the axis behind so many rows and that of the fused span, with four marks.
fn push_line(text: &mut String, number: u64) -> Result<(), AllocError>
    ensures { OnOk result (string_bytes text.new ≡ string_bytes text.old ++ axis_line number) }
{
    push_pieces(
        text,
        &[
            Piece::Word("<path class=\"axis\" d=\"M150 "),
            Piece::Number(row(number) + 48),
            Piece::Word("h800m-700 0v10m200-10v10m200-10v10m200-10v10\"/>\n"),
        ],
    )
}

/// Writes the axis behind so many rows and that of the fused span.
fn push_axis(text: &mut String, ruler: Ruler, fused: &Span, number: u64) -> Result<(), AllocError>
    ensures { OnOk result (string_bytes text.new ≡ string_bytes text.old ++ axis_text ruler fused.now number) }
{
    push_line(text, number)?;
    push_tick(text, ruler, fused, 100, number)?;
    push_tick(text, ruler, fused, 300, number)?;
    push_tick(text, ruler, fused, 500, number)?;
    push_tick(text, ruler, fused, 700, number)
}

/// How many sources there are.
pub(crate) fn count(sources: &[SourceView]) -> u64
    ensures value { result ≡ length sources.now }
{
    sources.len() as u64
}

/// Writes the band and the row of the fused span, the rows of sources, and the axis.
fn push_chart(
    text: &mut String,
    form: &Form,
    ruler: Ruler,
    fused: &Span,
    sources: &[SourceView],
) -> Result<(), AllocError>
    ensures { OnOk result (string_bytes text.new ≡ string_bytes text.old ++ chart_on ruler form.now fused.now sources.now) }
{
    let number = count(sources);
    push_fused(text, ruler, fused, number)?;
    push_sources(text, form, ruler, &Some(*fused), sources)?;
    push_axis(text, ruler, fused, number)
}

/// The same on the axis for them.
fn push_known(
    text: &mut String,
    form: &Form,
    fused: &Span,
    sources: &[SourceView],
) -> Result<(), AllocError>
    ensures { OnOk result (string_bytes text.new ≡ string_bytes text.old ++ known_chart form.now fused.now sources.now) }
{
    let ruler = Ruler::of(&Some(*fused), sources);
    push_chart(text, form, ruler, fused, sources)
}

/// Writes that there is no evidence, in place of the fused span.
fn push_no_fused(text: &mut String, number: u64) -> Result<(), AllocError>
    ensures { OnOk result (string_bytes text.new ≡ string_bytes text.old ++ no_fused number) }
{
    push_pieces(
        text,
        &[
            Piece::Word("<text x=\"8\" y=\""),
            Piece::Number(row(number) + 34),
            Piece::Word("\">no evidence file</text>\n"),
        ],
    )
}

/// Writes the rows of sources without bars, and that there is no evidence.
fn push_unknown(text: &mut String, form: &Form, sources: &[SourceView]) -> Result<(), AllocError>
    ensures { OnOk result (string_bytes text.new ≡ string_bytes text.old ++ unknown_chart form.now sources.now) }
{
    let ruler = Ruler { start: 0, step: 1 };
    let number = count(sources);
    push_sources(text, form, ruler, &None, sources)?;
    push_no_fused(text, number)
}

/// Writes the rows of sources, that of the fused span behind the last of them, and the axis. Without a fused span there are
/// no bars, and a text says so.
pub(crate) fn push_spans(
    text: &mut String,
    form: &Form,
    fused: &Option<Span>,
    sources: &[SourceView],
) -> Result<(), AllocError>
    ensures { OnOk result (string_bytes text.new ≡ string_bytes text.old ++ spans_chart form.now fused.now sources.now) }
{
    match fused {
        Some(span) => push_known(text, form, span, sources),
        None => push_unknown(text, form, sources),
    }
}
