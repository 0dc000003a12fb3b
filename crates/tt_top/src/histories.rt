//! The width over time, as parts of an SVG document.

ghost use Rattle.std.specs.Prelude.{◌≡◌, ◌++◌, ◌≤◌, OnOk, length, string_bytes};
ghost use Rattle.std.specs.List.{flat_map};
ghost use Rattle.tt_top.specs.History.{last_of, greatest_of, height_over, step_text, steps_text, path_start, path_of, steps_path, base_text, top_line, limit_text, history_text};

use crate::forms::Form;
use crate::pieces::{Piece, push_pieces, push_word};
use crate::sparks::most;
use crate::views::View;
use std::alloc::AllocError;

/// How many widths are drawn: the last ones.
pub const STEPS: usize = 200;

/// The last widths, as many as are drawn.
fn last(widths: &[u64]) -> &[u64]
    ensures value { result.now ≡ last_of widths.now }
{
    &widths[widths.len().saturating_sub(STEPS)..]
}

/// How high a width stands where this one is the greatest: 150 units, for that one.
fn height(width: u64, most: u64) -> u64
    ensures value { result ≡ height_over width most }
    ensures high { result ≤ 150 }
{
    let part = u128::from(width) * 150 / u128::from(most.max(1));
    part.min(150) as u64
}

/// Writes a width: a line up and down, and four units on.
fn push_step(text: &mut String, most: u64, width: u64) -> Result<(), AllocError>
    ensures { OnOk result (string_bytes text.new ≡ string_bytes text.old ++ step_text most width) }
{
    let high = height(width, most);
    push_pieces(
        text,
        &[
            Piece::Word("v-"),
            Piece::Number(high),
            Piece::Word("v"),
            Piece::Number(high),
            Piece::Word("m4 0"),
        ],
    )
}

/// Writes widths, the oldest first.
fn push_steps(text: &mut String, most: u64, widths: &[u64]) -> Result<(), AllocError>
    ensures { OnOk result (string_bytes text.new ≡ string_bytes text.old ++ steps_text most widths.now) }
{
    for width in widths {
        push_step(text, most, *width)?;
    }
    Ok(())
}

/// Writes what the lines of so many widths begin with, of which the last one stands at the right end.
fn push_start(text: &mut String, base: u64, count: u64) -> Result<(), AllocError>
    ensures { OnOk result (string_bytes text.new ≡ string_bytes text.old ++ path_start base count) }
{
    push_pieces(
        text,
        &[
            Piece::Word("<path class=\"width\" d=\"M"),
            Piece::Number(952 - 4 * count.min(200)),
            Piece::Word(" "),
            Piece::Number(base),
        ],
    )
}

/// How many widths there are.
fn count(widths: &[u64]) -> u64
    ensures value { result ≡ length widths.now }
{
    widths.len() as u64
}

/// Writes the lines of these widths. `base` is where they stand.
fn push_shown(text: &mut String, base: u64, shown: &[u64]) -> Result<(), AllocError>
    ensures { OnOk result (string_bytes text.new ≡ string_bytes text.old ++ path_of base shown.now) }
{
    let number = count(shown);
    let greatest = most(shown);
    push_start(text, base, number)?;
    push_steps(text, greatest, shown)?;
    push_word(text, "\"/>\n")
}

/// Writes the lines of the last widths.
fn push_path(text: &mut String, base: u64, widths: &[u64]) -> Result<(), AllocError>
    ensures { OnOk result (string_bytes text.new ≡ string_bytes text.old ++ steps_path base widths.now) }
{
    push_shown(text, base, last(widths))
}

/// Writes the line below the widths, what its ends are, and the width of a reading now.
fn push_base(text: &mut String, form: &Form, view: &View, base: u64) -> Result<(), AllocError>
    requires { base ≤ 100000 }
    ensures { OnOk result (string_bytes text.new ≡ string_bytes text.old ++ base_text form.now view.now base) }
{
    push_pieces(
        text,
        &[
            Piece::Word("<path class=\"axis\" d=\"M150 "),
            Piece::Number(base),
            Piece::Word("h800\"/>\n<text x=\"150\" y=\""),
            Piece::Number(base + 34),
            Piece::Word("\">10 min ago</text>\n<text class=\"end\" x=\"950\" y=\""),
            Piece::Number(base + 34),
            Piece::Word("\">now</text>\n<text x=\"8\" y=\""),
            Piece::Number(base.saturating_sub(34)),
            Piece::Word("\">width</text>\n<text class=\"now"),
            Piece::Word(form.wide_word(view.width)),
            Piece::Word("\" x=\"8\" y=\""),
            Piece::Number(base),
            Piece::Word("\">"),
            Piece::Length(view.width),
            Piece::Word("</text>\n"),
        ],
    )
}

/// Writes the greatest width above the others.
fn push_top(text: &mut String, base: u64, greatest: u64) -> Result<(), AllocError>
    ensures { OnOk result (string_bytes text.new ≡ string_bytes text.old ++ top_line base greatest) }
{
    push_pieces(
        text,
        &[
            Piece::Word("<text class=\"end\" x=\"950\" y=\""),
            Piece::Number(base.saturating_sub(158)),
            Piece::Word("\">at most "),
            Piece::Length(Some(greatest)),
            Piece::Word("</text>\n"),
        ],
    )
}

/// The greatest of the last widths.
fn greatest(widths: &[u64]) -> u64
    ensures value { result ≡ greatest_of widths.now }
{
    most(last(widths))
}

/// Writes the line of the greatest width that readings may have, where some width is above it.
fn push_limit(text: &mut String, form: &Form, base: u64, widths: &[u64]) -> Result<(), AllocError>
    ensures { OnOk result (string_bytes text.new ≡ string_bytes text.old ++ limit_text form.now base widths.now) }
{
    let greatest = greatest(widths);
    match form.max_width {
        Some(limit) if limit < greatest => push_pieces(
            text,
            &[
                Piece::Word("<path class=\"limit\" d=\"M150 "),
                Piece::Number(base.saturating_sub(height(limit, greatest))),
                Piece::Word("h800\"/>\n"),
            ],
        ),
        _ => Ok(()),
    }
}

/// Writes the widths, the line below them, and the greatest of them.
pub(crate) fn push_widths(
    text: &mut String,
    form: &Form,
    view: &View,
    base: u64,
    widths: &[u64],
) -> Result<(), AllocError>
    requires { base ≤ 100000 }
    ensures { OnOk result (string_bytes text.new ≡ string_bytes text.old ++ history_text form.now view.now base widths.now) }
{
    push_path(text, base, widths)?;
    push_base(text, form, view, base)?;
    push_limit(text, form, base, widths)?;
    push_top(text, base, greatest(widths))
}
