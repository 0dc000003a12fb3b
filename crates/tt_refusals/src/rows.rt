//! How the row of a number is found.

ghost use Rattle.std.specs.Prelude.{◌≡◌, ◌↔◌, Contains, IsTrue, IsSome, IfSome};

use crate::high::{
    texts_of_15, texts_of_16, texts_of_17, texts_of_18, texts_of_22, texts_of_23, texts_of_24,
    texts_of_26,
};
use crate::low::{
    texts_of_0, texts_of_1, texts_of_2, texts_of_3, texts_of_4, texts_of_5, texts_of_6, texts_of_7,
    texts_of_8, texts_of_9, texts_of_10, texts_of_11, texts_of_12, texts_of_13, texts_of_14,
};
use crate::numbers::NUMBERS;

/// What a number means with which something is refused.
#[derive(Clone, Copy)]
pub struct Refusal {
    /// The number.
    pub number: u64,
    /// The name of the refusal in the program.
    pub name: &'static str,
    /// What the program says of it, with `..` for what varies.
    pub sentence: &'static str,
    /// What it means, and what to do.
    pub meaning: &'static str,
}

/// The texts of a number.
#[derive(Clone, Copy)]
pub(crate) struct Texts {
    /// As [`Refusal::name`].
    pub(crate) name: &'static str,
    /// As [`Refusal::sentence`].
    pub(crate) sentence: &'static str,
    /// As [`Refusal::meaning`].
    pub(crate) meaning: &'static str,
}

impl Texts {
    /// Those of a number with which nothing is refused.
    pub(crate) const EMPTY: Texts = Texts {
        name: "",
        sentence: "",
        meaning: "",
    };
}

/// What this number means, if it is one of [`NUMBERS`]: the answer has this number. None for any other number.
pub fn refusal_of(number: u64) -> Option<Refusal>
    ensures known { IsSome result ↔ Contains NUMBERS number }
    ensures number { IfSome result (λ refusal. refusal.number ≡ number) }
{
    if !is_among(&NUMBERS, number) {
        return None;
    }
    let Texts {
        name,
        sentence,
        meaning,
    } = texts_of(number);
    Some(Refusal {
        number,
        name,
        sentence,
        meaning,
    })
}

/// Whether a number is among these.
fn is_among(numbers: &[u64], number: u64) -> bool
    ensures { IsTrue result ↔ Contains numbers.now number }
{
    numbers.contains(&number)
}

/// The texts of a number; empty ones of a number with which nothing is refused.
fn texts_of(number: u64) -> Texts {
    match number / 100 {
        0 => texts_of_0(number),
        1 => texts_of_1(number),
        2 => texts_of_2(number),
        3 => texts_of_3(number),
        4 => texts_of_4(number),
        5 => texts_of_5(number),
        6 => texts_of_6(number),
        7 => texts_of_7(number),
        8 => texts_of_8(number),
        9 => texts_of_9(number),
        10 => texts_of_10(number),
        11 => texts_of_11(number),
        12 => texts_of_12(number),
        13 => texts_of_13(number),
        14 => texts_of_14(number),
        15 => texts_of_15(number),
        16 => texts_of_16(number),
        17 => texts_of_17(number),
        18 => texts_of_18(number),
        22 => texts_of_22(number),
        23 => texts_of_23(number),
        24 => texts_of_24(number),
        26 => texts_of_26(number),
        _ => Texts::EMPTY,
    }
}
