//! The picture of a view, as text.

ghost use Rattle.std.specs.Prelude.{◌≡◌, ◌++◌, OnOk, string_bytes};
ghost use Rattle.tt_top.specs.Picture.{scaled_text, unscaled_text, bars_text, view_text};

use crate::bars::Scale;
use crate::forms::Form;
use crate::heads::{push_age, push_commits, push_head, push_no_scale, push_scale, push_width};
use crate::rises::Past;
use crate::rows::{push_fused, push_rows};
use crate::signs::push_all_signs;
use crate::views::{SourceView, View};
use std::alloc::AllocError;
use tt_span::Span;

/// What the signs of the picture are.
const LEGEND: &str = "= source  x suspect  # fused  < > beyond  ? none  [ ] ends held\n";

/// Writes the picture of a view at the end of the text: how old it is, a line of the machine's life, the scale, a line for each source
/// with its bar, the fused span, the width of a reading now with `widths`, those of the looks before, the oldest first, in
/// nanoseconds, the commits, a line for each sign that an operator may have to act on, with the time of
/// what is past as `past` has it, and what the signs are.
///
/// Refuses only if it is out of memory; then the text may have a part of it at its end.
pub fn push_view(
    text: &mut String,
    view: &View,
    form: &Form,
    widths: &[u64],
    past: &Past,
) -> Result<(), AllocError>
    ensures written { OnOk result (string_bytes text.new ≡ string_bytes text.old ++ view_text form.now view.now widths.now past.now) }
{
    push_age(text, form)?;
    push_head(text, view)?;
    push_bars(text, view, form)?;
    push_width(text, form, view, widths)?;
    push_commits(text, view)?;
    push_all_signs(text, form, past, view)?;
    text.push_str(LEGEND)
}

/// Writes the scale and the bars at the end of the text.
fn push_bars(text: &mut String, view: &View, form: &Form) -> Result<(), AllocError>
    ensures { OnOk result (string_bytes text.new ≡ string_bytes text.old ++ bars_text form.now view.now) }
{
    let sources = view.sources.as_slice();
    match &view.fused {
        Some(fused) => push_scaled(text, form, fused, sources),
        None => push_unscaled(text, form, sources),
    }
}

/// Writes the scale and the bars of a fused span and of sources at the end of the text.
fn push_scaled(
    text: &mut String,
    form: &Form,
    fused: &Span,
    sources: &[SourceView],
) -> Result<(), AllocError>
    ensures { OnOk result (string_bytes text.new ≡ string_bytes text.old ++ scaled_text form.now fused.now sources.now) }
{
    let scale = Scale::over(fused, sources, form.bar());
    push_scale(text, form, scale)?;
    push_rows(text, form, scale, &Some(*fused), sources)?;
    push_fused(text, scale, fused)
}

/// Writes the lines of sources without bars at the end of the text.
fn push_unscaled(text: &mut String, form: &Form, sources: &[SourceView]) -> Result<(), AllocError>
    ensures { OnOk result (string_bytes text.new ≡ string_bytes text.old ++ unscaled_text form.now sources.now) }
{
    let scale = Scale {
        start: 0,
        step: 1,
        columns: form.bar(),
    };
    push_no_scale(text, form)?;
    push_rows(text, form, scale, &None, sources)
}
