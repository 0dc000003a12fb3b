//! The picture of a view, as a part of a page of HTML.

ghost use Rattle.std.specs.Prelude.{◌≡◌, ◌++◌, IfOk, OnOk, string_bytes};
ghost use Rattle.std.specs.List.{flat_map};
ghost use Rattle.tt_top.specs.Drawing.{escaped, title_text, first_cells, last_cells, cells_text, table_text, framed_text, noted_text, drawing_text};
ghost use Rattle.tt_top.specs.Sign.{signs_text};

use crate::forms::Form;
use crate::heads::push_head;
use crate::pieces::{Piece, push_pieces, push_word};
use crate::rises::Past;
use crate::signs::push_all_signs;
use crate::svgs::push_svg;
use crate::views::{SourceView, View};
use std::alloc::{AllocError, Global};
use tt_span::Span;

/// Writes a text as HTML has it.
fn push_escaped(text: &mut String, bytes: &[u8]) -> Result<(), AllocError>
    ensures { OnOk result (string_bytes text.new ≡ string_bytes text.old ++ flat_map escaped bytes.now) }
{
    for byte in bytes {
        push_byte(text, *byte)?;
    }
    Ok(())
}

/// Writes what HTML has for a byte.
fn push_byte(text: &mut String, byte: u8) -> Result<(), AllocError>
    ensures { OnOk result (string_bytes text.new ≡ string_bytes text.old ++ escaped byte) }
{
    if byte == b'<' {
        text.push_str("&lt;")
    } else if byte == b'>' {
        text.push_str("&gt;")
    } else if byte == b'&' {
        text.push_str("&amp;")
    } else {
        text.push(char::from(byte))
    }
}

/// Writes the number of a source and its offset.
fn push_first_cells(
    text: &mut String,
    form: &Form,
    fused: &Option<Span>,
    source: &SourceView,
) -> Result<(), AllocError>
    ensures { OnOk result (string_bytes text.new ≡ string_bytes text.old ++ first_cells form.now fused.now source.now) }
{
    push_pieces(
        text,
        &[
            Piece::Word("<tr class=\"source"),
            Piece::Word(source.state(form)),
            Piece::Word("\"><td>"),
            Piece::Number(source.number),
            Piece::Word("</td><td>"),
            Piece::Offset(source.offset(fused)),
            Piece::Word("</td><td>"),
        ],
    )
}

/// Writes the round trip of a source, its age, the ends that it holds, and what is wrong with it.
fn push_last_cells(text: &mut String, form: &Form, source: &SourceView) -> Result<(), AllocError>
    ensures { OnOk result (string_bytes text.new ≡ string_bytes text.old ++ last_cells form.now source.now) }
{
    push_pieces(
        text,
        &[
            Piece::Length(source.round_trip),
            Piece::Word("</td><td>"),
            Piece::Length(source.age),
            Piece::Word("</td><td>"),
            Piece::Word(source.ends()),
            Piece::Word(source.state(form)),
            Piece::Word("</td></tr>\n"),
        ],
    )
}

/// Writes the line of a source in a table.
fn push_cells(
    text: &mut String,
    form: &Form,
    fused: &Option<Span>,
    source: &SourceView,
) -> Result<(), AllocError>
    ensures { OnOk result (string_bytes text.new ≡ string_bytes text.old ++ cells_text form.now fused.now source.now) }
{
    push_first_cells(text, form, fused, source)?;
    push_last_cells(text, form, source)
}

/// Writes the lines of sources in a table.
fn push_rows(
    text: &mut String,
    form: &Form,
    fused: &Option<Span>,
    sources: &[SourceView],
) -> Result<(), AllocError>
    ensures { OnOk result (string_bytes text.new ≡ string_bytes text.old ++ flat_map (cells_text form.now fused.now) sources.now) }
{
    for source in sources {
        push_cells(text, form, fused, source)?;
    }
    Ok(())
}

/// Writes the table of sources.
fn push_table(
    text: &mut String,
    form: &Form,
    fused: &Option<Span>,
    sources: &[SourceView],
) -> Result<(), AllocError>
    ensures { OnOk result (string_bytes text.new ≡ string_bytes text.old ++ table_text form.now fused.now sources.now) }
{
    push_word(
        text,
        "<table>\n<tr><th>source</th><th>offset</th><th>round trip</th><th>age</th><th>ends</th></tr>\n",
    )?;
    push_rows(text, form, fused, sources)?;
    push_word(text, "</table>\n")
}

/// Writes the line of a machine's life, as a title.
fn push_title(text: &mut String, view: &View) -> Result<(), AllocError>
    ensures { OnOk result (string_bytes text.new ≡ string_bytes text.old ++ title_text view.now) }
{
    push_word(text, "<h1>")?;
    push_head(text, view)?;
    push_word(text, "</h1>\n")
}

/// What an operator may have to act on, as text.
fn signs_in(alloc: Global, form: &Form, past: &Past, view: &View) -> Result<String, AllocError>
    ensures { IfOk result (λ text. string_bytes text ≡ signs_text form.now past.now view.now) }
{
    let mut signs = String::new(alloc);
    push_all_signs(&mut signs, form, past, view)?;
    Ok(signs)
}

/// Writes a text as a part of a page.
fn push_framed(text: &mut String, bytes: &[u8]) -> Result<(), AllocError>
    ensures { OnOk result (string_bytes text.new ≡ string_bytes text.old ++ framed_text bytes.now) }
{
    push_word(text, "<pre class=\"signs\">")?;
    push_escaped(text, bytes)?;
    push_word(text, "</pre>\n")
}

/// Writes what an operator may have to act on.
fn push_noted(
    alloc: Global,
    text: &mut String,
    form: &Form,
    past: &Past,
    view: &View,
) -> Result<(), AllocError>
    ensures { OnOk result (string_bytes text.new ≡ string_bytes text.old ++ noted_text form.now past.now view.now) }
{
    let signs = signs_in(alloc, form, past, view)?;
    push_framed(text, signs.as_bytes())
}

/// Writes the picture of a view at the end of the text, as a part of a page of HTML: the line of the machine's life as its
/// title, the lines that an operator may have to act on, the document that [`push_svg`] writes, and a table of the sources.
/// The form has to be without colour.
///
/// Refuses only if it is out of memory; then the text may have a part of it at its end.
pub fn push_drawing(
    alloc: Global,
    text: &mut String,
    view: &View,
    form: &Form,
    widths: &[u64],
    past: &Past,
) -> Result<(), AllocError>
    ensures written { OnOk result (string_bytes text.new ≡ string_bytes text.old ++ drawing_text form.now view.now widths.now past.now) }
{
    push_title(text, view)?;
    push_noted(alloc, text, form, past, view)?;
    push_svg(text, view, form, widths)?;
    push_table(text, form, &view.fused, view.sources.as_slice())
}
