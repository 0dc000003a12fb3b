//! The picture of a view, as SVG: bars on an axis.

ghost use Rattle.std.specs.Prelude.{◌≡◌, ◌++◌, ◌≤◌, OnOk, string_bytes};
ghost use Rattle.tt_top.specs.Svg.{base_of, opening_of, svg_of, svg_text};

use crate::charts::{count, push_spans, row};
use crate::forms::Form;
use crate::histories::push_widths;
use crate::pieces::{Piece, push_pieces, push_word};
use crate::views::View;
use std::alloc::AllocError;

/// How the parts of a document look, on light and on dark ground. Nothing is fetched from elsewhere.
const STYLE: &str = "<style>
svg { --ink: #1c2128; --paper: #ffffff; --line: #6e7781; --source: #2f6fb3; --bad: #c4262e; --fused: #1f7a3a; --band: #d8efdc; background: var(--paper) }
@media (prefers-color-scheme: dark) { svg { --ink: #e6edf3; --paper: #11151a; --line: #8b949e; --source: #6cb0f5; --bad: #ff7b72; --fused: #56d36f; --band: #17361f } }
svg text { font: 28px sans-serif; fill: var(--ink) }
svg .tick { text-anchor: middle }
svg .tick, svg .now { font-size: 26px }
svg .end { text-anchor: end }
svg .axis { stroke: var(--line); stroke-width: 2; fill: none }
svg .source rect { fill: var(--source) }
svg .suspect rect, svg .silent rect { fill: var(--bad) }
svg .suspect text, svg .silent text, svg .never text, svg .wide { fill: var(--bad) }
svg .fused rect { fill: var(--fused) }
svg .band { fill: var(--band) }
svg .width { stroke: var(--source); stroke-width: 4; fill: none }
svg .limit { stroke: var(--bad); stroke-width: 3; stroke-dasharray: 12 8; fill: none }
</style>
";

/// Where the widths of a document of so many sources stand, in units from the upper end.
fn base(sources: u64) -> u64
    ensures value { result ≡ base_of sources }
    ensures most { result ≤ 100000 }
{
    row(sources) + 290
}

/// Writes what a document of so many sources begins with.
fn push_opening(text: &mut String, sources: u64) -> Result<(), AllocError>
    ensures { OnOk result (string_bytes text.new ≡ string_bytes text.old ++ opening_of sources) }
{
    push_pieces(
        text,
        &[
            Piece::Word("<svg xmlns=\"http://www.w3.org/2000/svg\" viewBox=\"0 0 960 "),
            Piece::Number(base(sources) + 50),
            Piece::Word("\" role=\"img\" aria-label=\"spans of all sources, and the width\">\n"),
            Piece::Word(STYLE),
        ],
    )
}

/// Writes the document of a view with so many sources.
fn push_sized(
    text: &mut String,
    view: &View,
    form: &Form,
    widths: &[u64],
    count: u64,
) -> Result<(), AllocError>
    ensures { OnOk result (string_bytes text.new ≡ string_bytes text.old ++ svg_of form.now view.now widths.now count) }
{
    let base = base(count);
    push_opening(text, count)?;
    push_spans(text, form, &view.fused, view.sources.as_slice())?;
    push_widths(text, form, view, base, widths)?;
    push_word(text, "</svg>\n")
}

/// Writes the picture of a view at the end of the text, as an SVG document of 960 units: a bar for the span of each source
/// and for the fused one on an axis of 800 units, from 150 on, whose marks say how far they lie from the middle of the fused
/// span; and below them the last 200 of `widths`, the oldest first, in nanoseconds, four units each, up to the right end.
///
/// A bar begins at the unit of its span's first time and ends with that of its last one. It has at least four units, and
/// stays on the axis. Suspects may lie beyond it. A width has its part of the 150 units that the greatest one has.
///
/// Refuses only if it is out of memory; then the text may have a part of it at its end.
pub fn push_svg(
    text: &mut String,
    view: &View,
    form: &Form,
    widths: &[u64],
) -> Result<(), AllocError>
    ensures written { OnOk result (string_bytes text.new ≡ string_bytes text.old ++ svg_text form.now view.now widths.now) }
{
    let count = count(view.sources.as_slice());
    push_sized(text, view, form, widths, count)
}
