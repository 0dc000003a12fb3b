//! The lines of what an operator may have to act on.

ghost use Rattle.std.specs.Prelude.{◌≡◌, ◌++◌, OnOk, string_bytes};
ghost use Rattle.std.specs.List.{flat_map};
ghost use Rattle.tt_top.specs.Sign.{suspects_of, silent_of, is_silent, sign_text, some_text, when_text, whose_text, wide_text, reason_word, broke_text, machine_signs, source_signs, count_signs, signs_text};

use crate::forms::Form;
use crate::pieces::{Piece, push_pieces};
use crate::rises::{Past, Rise};
use crate::views::{Broke, SourceView, View};
use std::alloc::AllocError;

/// For how long it is told that the life before broke, in nanoseconds: ten minutes.
const TOLD: u64 = 600_000_000_000;

/// So many of something, of a source or of the machine, and when that count rose last; without that it is as it is now.
#[derive(Clone, Copy)]
struct Sign<'a> {
    source: Option<u64>,
    count: u64,
    words: &'a str,
    rise: Option<Rise>,
}

/// How many of the sources are suspects.
fn suspects(sources: &[SourceView]) -> u64
    ensures { result ≡ suspects_of sources.now }
{
    sources.iter().filter(|source| source.suspect).count() as u64
}

/// How many of the sources are silent.
fn silent(form: &Form, sources: &[SourceView]) -> u64
    ensures { result ≡ silent_of form.now sources.now }
{
    sources
        .iter()
        .filter(|source| source.is_silent(form))
        .count() as u64
}

impl SourceView {
    /// Whether its last answer is too old.
    fn is_silent(&self, form: &Form) -> bool
        ensures { result ≡ is_silent form.now self.now }
    {
        match self.age {
            Some(age) => age > form.silent_after,
            None => false,
        }
    }
}

/// Writes a line for each sign that there was, at the end of the text.
fn push_signs(
    text: &mut String,
    form: &Form,
    past: &Past,
    signs: &[Sign<'_>],
) -> Result<(), AllocError>
    ensures { OnOk result (string_bytes text.new ≡ string_bytes text.old ++ flat_map (λ sign. sign_text form.now past.now sign.source sign.count sign.words.now sign.rise) signs.now) }
{
    for sign in signs {
        push_sign(text, form, past, sign)?;
    }
    Ok(())
}

/// Writes the line of a sign at the end of the text, if there was any.
fn push_sign(text: &mut String, form: &Form, past: &Past, sign: &Sign<'_>) -> Result<(), AllocError>
    ensures { OnOk result (string_bytes text.new ≡ string_bytes text.old ++ sign_text form.now past.now sign.now.source sign.now.count sign.now.words.now sign.now.rise) }
{
    if sign.count == 0 {
        Ok(())
    } else {
        push_some(text, form, past, sign)
    }
}

/// Writes the line of a sign at the end of the text.
fn push_some(text: &mut String, form: &Form, past: &Past, sign: &Sign<'_>) -> Result<(), AllocError>
    ensures { OnOk result (string_bytes text.new ≡ string_bytes text.old ++ some_text form.now past.now sign.now.source sign.now.count sign.now.words.now sign.now.rise) }
{
    push_pieces(text, &[Piece::Word(form.red(true)), Piece::Word("! ")])?;
    push_whose(text, &sign.source)?;
    push_pieces(text, &[Piece::Number(sign.count), Piece::Word(sign.words)])?;
    push_when(text, past, &sign.rise)?;
    push_pieces(text, &[Piece::Word(form.plain(true)), Piece::Word("\n")])
}

/// Writes when a count rose last, where it is one of what is past.
fn push_when(text: &mut String, past: &Past, rise: &Option<Rise>) -> Result<(), AllocError>
    ensures { OnOk result (string_bytes text.new ≡ string_bytes text.old ++ when_text past.now rise.now) }
{
    match rise {
        Some(rise) => past.push_since(text, *rise),
        None => Ok(()),
    }
}

/// Writes whose sign it is, where that is a source.
fn push_whose(text: &mut String, source: &Option<u64>) -> Result<(), AllocError>
    ensures { OnOk result (string_bytes text.new ≡ string_bytes text.old ++ whose_text source.now) }
{
    match source {
        Some(number) => push_pieces(
            text,
            &[
                Piece::Word("source "),
                Piece::Number(*number),
                Piece::Word(": "),
            ],
        ),
        None => Ok(()),
    }
}

/// Writes the lines of the signs of the machine at the end of the text.
fn push_machine_signs(
    text: &mut String,
    form: &Form,
    past: &Past,
    view: &View,
) -> Result<(), AllocError>
    ensures { OnOk result (string_bytes text.new ≡ string_bytes text.old ++ machine_signs form.now past.now view.now.signs) }
{
    let signs = view.signs;
    let rises = past.machine();
    push_signs(
        text,
        form,
        past,
        &[
            Sign {
                source: None,
                count: signs.breaks,
                words: " signs of a broken assumption",
                rise: Some(rises.breaks),
            },
            Sign {
                source: None,
                count: signs.no_point,
                words: " fusions refused (504): more sources are faulty than may be",
                rise: Some(rises.no_point),
            },
            Sign {
                source: None,
                count: signs.too_few,
                words: " fusions refused (701): too few sources are known",
                rise: Some(rises.too_few),
            },
            Sign {
                source: None,
                count: signs.stale,
                words: " rounds without fresh answers of enough sources",
                rise: Some(rises.stale),
            },
            Sign {
                source: None,
                count: signs.left_out,
                words: " records left out",
                rise: Some(rises.left_out),
            },
        ],
    )
}

/// Writes how many sources are suspects or silent, at the end of the text.
fn push_count_signs(
    text: &mut String,
    form: &Form,
    past: &Past,
    sources: &[SourceView],
) -> Result<(), AllocError>
    ensures { OnOk result (string_bytes text.new ≡ string_bytes text.old ++ count_signs form.now past.now sources.now) }
{
    push_signs(
        text,
        form,
        past,
        &[
            Sign {
                source: None,
                count: suspects(sources),
                words: " suspects",
                rise: None,
            },
            Sign {
                source: None,
                count: silent(form, sources),
                words: " silent sources",
                rise: None,
            },
        ],
    )
}

/// Writes the lines of the signs of a source at the end of the text.
fn push_source_signs(
    text: &mut String,
    form: &Form,
    past: &Past,
    source: &SourceView,
) -> Result<(), AllocError>
    ensures { OnOk result (string_bytes text.new ≡ string_bytes text.old ++ source_signs form.now past.now source.now) }
{
    let rises = past.source(source.number);
    push_signs(
        text,
        form,
        past,
        &[
            Sign {
                source: Some(source.number),
                count: source.unsent,
                words: " packets could not be sent",
                rise: Some(rises.unsent),
            },
            Sign {
                source: Some(source.number),
                count: source.unopened,
                words: " packets did not open",
                rise: Some(rises.unopened),
            },
        ],
    )
}

/// Writes the lines of the signs of sources at the end of the text.
fn push_each_source(
    text: &mut String,
    form: &Form,
    past: &Past,
    sources: &[SourceView],
) -> Result<(), AllocError>
    ensures { OnOk result (string_bytes text.new ≡ string_bytes text.old ++ flat_map (source_signs form.now past.now) sources.now) }
{
    for source in sources {
        push_source_signs(text, form, past, source)?;
    }
    Ok(())
}

/// Writes that readings are wider than clients are given, if they are.
fn push_wide(text: &mut String, form: &Form, view: &View) -> Result<(), AllocError>
    ensures { OnOk result (string_bytes text.new ≡ string_bytes text.old ++ wide_text form.now view.now.width) }
{
    if form.is_wide(view.width) {
        push_pieces(
            text,
            &[
                Piece::Word(form.red(true)),
                Piece::Word("! readings are wider than max_width "),
                Piece::Length(form.max_width),
                Piece::Word(": clients are refused (1824)"),
                Piece::Word(form.plain(true)),
                Piece::Word("\n"),
            ],
        )
    } else {
        Ok(())
    }
}

/// Why the life before broke, if the status says so.
fn reason(broke: &Broke) -> &'static str
    ensures { result.now ≡ reason_word broke.now }
{
    if broke.by_assumption {
        " ago: assumption_broken"
    } else if broke.by_sleep {
        " ago: host_slept"
    } else if broke.by_guest {
        " ago: guest_disrupted"
    } else {
        " ago"
    }
}

/// Writes that the life before broke, for ten minutes after that.
fn push_broke(text: &mut String, form: &Form, broke: &Broke) -> Result<(), AllocError>
    ensures { OnOk result (string_bytes text.new ≡ string_bytes text.old ++ broke_text form.now broke.now) }
{
    let ago = form.time.saturating_sub(broke.at);
    if broke.at == 0 || ago > TOLD {
        Ok(())
    } else {
        push_pieces(
            text,
            &[
                Piece::Word(form.red(true)),
                Piece::Word("! the last life broke "),
                Piece::Length(Some(ago)),
                Piece::Word(reason(broke)),
                Piece::Word(form.plain(true)),
                Piece::Word("\n"),
            ],
        )
    }
}

/// Writes the lines of all signs at the end of the text: how the life before ended, readings that are too wide, those of the
/// machine, and then those of each source.
pub(crate) fn push_all_signs(
    text: &mut String,
    form: &Form,
    past: &Past,
    view: &View,
) -> Result<(), AllocError>
    ensures { OnOk result (string_bytes text.new ≡ string_bytes text.old ++ signs_text form.now past.now view.now) }
{
    push_broke(text, form, &view.broke)?;
    push_wide(text, form, view)?;
    push_machine_signs(text, form, past, view)?;
    push_count_signs(text, form, past, view.sources.as_slice())?;
    push_each_source(text, form, past, view.sources.as_slice())
}
