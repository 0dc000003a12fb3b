//! Pieces of a line, as text.

ghost use Rattle.std.specs.Prelude.{◌≡◌, ◌++◌, ◌<◌, ◌≤◌, OnOk, string_bytes};
ghost use Rattle.std.specs.List.{flat_map};
ghost use Rattle.tt_top.specs.Piece.{blanks_for, in_unit, length_with, length_text, sign_of, offset_text, blanks_text, piece_text};

use crate::bars::Bar;
use std::alloc::AllocError;

/// By how much one time is before or behind another, in nanoseconds.
#[derive(Clone, Copy)]
pub(crate) struct Offset {
    /// Whether it is before the other.
    pub(crate) below: bool,
    /// How far they lie apart.
    pub(crate) size: u64,
}

/// A piece of a line.
#[derive(Clone, Copy)]
pub(crate) enum Piece<'a> {
    /// This text.
    Word(&'a str),
    /// A number in decimal digits.
    Number(u64),
    /// A length of time with its unit, in ten columns.
    Length(Option<u64>),
    /// An offset with its sign and its unit, in eleven columns.
    Offset(Option<Offset>),
    /// So many blanks.
    Blanks(u64),
    /// A bar.
    Bar(Bar),
}

/// Writes pieces at the end of the text.
pub(crate) fn push_pieces(text: &mut String, pieces: &[Piece<'_>]) -> Result<(), AllocError>
    ensures { OnOk result (string_bytes text.new ≡ string_bytes text.old ++ flat_map piece_text pieces.now) }
{
    for piece in pieces {
        push_piece(text, piece)?;
    }
    Ok(())
}

/// Writes a text at the end of the text.
pub(crate) fn push_word(text: &mut String, word: &str) -> Result<(), AllocError>
    ensures { OnOk result (string_bytes text.new ≡ string_bytes text.old ++ word.now) }
{
    text.push_str(word)
}

/// Writes a piece at the end of the text.
fn push_piece(text: &mut String, piece: &Piece<'_>) -> Result<(), AllocError>
    ensures { OnOk result (string_bytes text.new ≡ string_bytes text.old ++ piece_text piece.now) }
{
    match piece {
        Piece::Word(word) => text.push_str(word),
        Piece::Number(number) => write!(text, "{number}"),
        Piece::Length(Some(size)) => push_length(text, "", *size),
        Piece::Length(None) => text.push_str("         -"),
        Piece::Offset(Some(offset)) => push_length(text, offset.sign(), offset.size),
        Piece::Offset(None) => text.push_str("          -"),
        Piece::Blanks(count) => push_blanks(text, *count),
        Piece::Bar(bar) => bar.push(text),
    }
}

impl Offset {
    /// Its sign.
    fn sign(self) -> &'static str
        ensures { result.now ≡ sign_of self }
    {
        if self.size == 0 {
            " "
        } else if self.below {
            "-"
        } else {
            "+"
        }
    }
}

/// Writes a length of time behind a sign, in the unit that keeps its number below 1000 as long as that is at most 1000
/// seconds.
fn push_length(text: &mut String, sign: &str, size: u64) -> Result<(), AllocError>
    ensures { OnOk result (string_bytes text.new ≡ string_bytes text.old ++ length_with sign.now size) }
{
    if size < 1_000_000 {
        push_in_unit(text, sign, size, " us")
    } else if size < 1_000_000_000 {
        push_in_unit(text, sign, size / 1000, " ms")
    } else {
        push_in_unit(text, sign, size / 1_000_000, "  s")
    }
}

/// Writes so many thousandths of a unit behind a sign.
fn push_in_unit(text: &mut String, sign: &str, number: u64, unit: &str) -> Result<(), AllocError>
    ensures { OnOk result (string_bytes text.new ≡ string_bytes text.old ++ in_unit sign.now number unit.now) }
{
    let whole = number / 1000;
    let blanks = blanks_before(whole);
    write!(text, "{blanks}{sign}{whole}.")?;
    write!(
        text,
        "{}{}{}{unit}",
        number / 100 % 10,
        number / 10 % 10,
        number % 10
    )
}

/// The blanks that make three columns of a number below 1000.
fn blanks_before(number: u64) -> &'static str
    ensures { result.now ≡ blanks_for number }
{
    if number < 10 {
        "  "
    } else if number < 100 {
        " "
    } else {
        ""
    }
}

/// Writes so many blanks.
fn push_blanks(text: &mut String, count: u64) -> Result<(), AllocError>
    ensures { OnOk result (string_bytes text.new ≡ string_bytes text.old ++ blanks_text count) }
{
    for _column in 0..count {
        text.push_str(" ")?;
    }
    Ok(())
}
