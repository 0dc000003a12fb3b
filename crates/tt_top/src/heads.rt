//! The lines about the machine: its life, its scale, its width over time, and its commits.

ghost use Rattle.std.specs.Prelude.{◌≡◌, ◌++◌, ◌≤◌, OnOk, string_bytes};
ghost use Rattle.tt_top.specs.Form.{bar_columns};
ghost use Rattle.tt_top.specs.Head.{age_text, head_text, faulty_text, scale_text, no_scale_text, shown_of, range_text, levels_text, width_text, mean_of, sharing_word, commits_text};

use crate::bars::Scale;
use crate::forms::Form;
use crate::pieces::{Piece, push_pieces};
use crate::sparks::{least, most, push_levels};
use crate::views::View;
use std::alloc::AllocError;

/// Writes how old the status is at the end of the text, if that is known, with a mark if it is older than two rounds.
pub(crate) fn push_age(text: &mut String, form: &Form) -> Result<(), AllocError>
    ensures { OnOk result (string_bytes text.new ≡ string_bytes text.old ++ age_text form.now) }
{
    match form.age {
        Some(age) => push_pieces(
            text,
            &[
                Piece::Word(form.red(form.is_old())),
                Piece::Word(if form.is_old() {
                    "! status "
                } else {
                    "status "
                }),
                Piece::Length(Some(age)),
                Piece::Word(" old"),
                Piece::Word(form.plain(form.is_old())),
                Piece::Word("\n"),
            ],
        ),
        None => Ok(()),
    }
}

/// Writes the line of a machine's life at the end of the text.
pub(crate) fn push_head(text: &mut String, view: &View) -> Result<(), AllocError>
    ensures { OnOk result (string_bytes text.new ≡ string_bytes text.old ++ head_text view.now) }
{
    push_pieces(
        text,
        &[
            Piece::Word("machine "),
            Piece::Number(view.life.machine),
            Piece::Word("  epoch "),
            Piece::Number(view.life.epoch),
            Piece::Word("  rounds "),
            Piece::Number(view.life.rounds),
            Piece::Word("  sources "),
            Piece::Number(view.sources.len() as u64),
            Piece::Word("  known "),
            Piece::Number(view.life.known),
        ],
    )?;
    push_faulty(text, &view.faulty)
}

/// Writes how many sources may be wrong, if that is known, and ends the line.
fn push_faulty(text: &mut String, faulty: &Option<u64>) -> Result<(), AllocError>
    ensures { OnOk result (string_bytes text.new ≡ string_bytes text.old ++ faulty_text faulty.now) }
{
    match faulty {
        Some(number) => push_pieces(
            text,
            &[
                Piece::Word("  f "),
                Piece::Number(*number),
                Piece::Word("\n"),
            ],
        ),
        None => text.push_str("\n"),
    }
}

/// Writes the line of a scale at the end of the text: how much a column is, and what stands behind the bars.
pub(crate) fn push_scale(text: &mut String, form: &Form, scale: Scale) -> Result<(), AllocError>
    ensures { OnOk result (string_bytes text.new ≡ string_bytes text.old ++ scale_text form.now scale) }
{
    push_pieces(
        text,
        &[
            Piece::Word("each ="),
            Piece::Length(Some(scale.step)),
            Piece::Blanks(form.bar() - 10),
            Piece::Word("      offset round trip        age ends\n"),
        ],
    )
}

/// Writes the line that stands there in place of a scale where there is no evidence.
pub(crate) fn push_no_scale(text: &mut String, form: &Form) -> Result<(), AllocError>
    ensures { OnOk result (string_bytes text.new ≡ string_bytes text.old ++ no_scale_text form.now) }
{
    push_pieces(
        text,
        &[
            Piece::Word("no evidence file"),
            Piece::Blanks(form.bar() - 10),
            Piece::Word("      offset round trip        age ends\n"),
        ],
    )
}

/// The last of these widths, as many as have a column.
fn shown<'a>(form: &Form, widths: &'a [u64]) -> &'a [u64]
    ensures { result.now ≡ shown_of form.now widths.now }
{
    let columns = form.bar() as usize;
    &widths[widths.len().saturating_sub(columns)..]
}

/// Writes the line of the width at the end of the text: that of a reading now, and the widths before it.
pub(crate) fn push_width(
    text: &mut String,
    form: &Form,
    view: &View,
    widths: &[u64],
) -> Result<(), AllocError>
    ensures { OnOk result (string_bytes text.new ≡ string_bytes text.old ++ width_text form.now view.now widths.now) }
{
    push_pieces(text, &[Piece::Word("width "), Piece::Length(view.width)])?;
    push_history(text, form, shown(form, widths))?;
    text.push_str("\n")
}

/// Writes widths at the end of the text, and the least and the greatest of them. Writes nothing of fewer than two.
fn push_history(text: &mut String, form: &Form, widths: &[u64]) -> Result<(), AllocError>
    ensures { OnOk result (string_bytes text.new ≡ string_bytes text.old ++ levels_text form.now.ascii widths.now) }
{
    if widths.len() < 2 {
        Ok(())
    } else {
        push_range(text, form.ascii, widths)
    }
}

/// Writes widths at the end of the text, and the least and the greatest of them.
fn push_range(text: &mut String, ascii: bool, widths: &[u64]) -> Result<(), AllocError>
    ensures { OnOk result (string_bytes text.new ≡ string_bytes text.old ++ range_text ascii widths.now) }
{
    let from = least(widths);
    let to = most(widths);
    text.push_str("  ")?;
    push_levels(text, ascii, from, to, widths)?;
    push_pieces(
        text,
        &[
            Piece::Word(" "),
            Piece::Length(Some(from)),
            Piece::Word(" to "),
            Piece::Length(Some(to)),
        ],
    )
}

/// What each of so many has of a sum on average, if there are any.
fn mean(sum: u64, count: u64) -> Option<u64>
    ensures { result ≡ mean_of sum count }
{
    if count == 0 { None } else { Some(sum / count) }
}

/// Whether a shared file is written.
fn sharing(sharing: bool) -> &'static str
    ensures { result.now ≡ sharing_word sharing }
{
    if sharing { "yes" } else { "no" }
}

/// Writes the line of the commits at the end of the text: how many wait, how many have waited and how long one of them on
/// average, and whether a shared file is written.
pub(crate) fn push_commits(text: &mut String, view: &View) -> Result<(), AllocError>
    ensures { OnOk result (string_bytes text.new ≡ string_bytes text.old ++ commits_text view.now) }
{
    push_pieces(
        text,
        &[
            Piece::Word("commits waiting "),
            Piece::Number(view.commits.waiting),
            Piece::Word("  waited "),
            Piece::Number(view.commits.waited),
            Piece::Word("  mean wait "),
            Piece::Length(mean(view.commits.together, view.commits.waited)),
            Piece::Word("  shared "),
            Piece::Word(sharing(view.sharing)),
            Piece::Word("\n"),
        ],
    )
}
