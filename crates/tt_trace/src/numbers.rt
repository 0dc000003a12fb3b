//! Numbers, each behind a space.

ghost use Rattle.std.specs.Prelude.{◌≡◌, ◌++◌, OnOk, string_bytes};
ghost use Rattle.std.specs.List.{flat_map};
ghost use Rattle.tt_text.specs.Line.{space_and_number};
ghost use Rattle.tt_trace.specs.Phrase.{phrase};

use std::alloc::{AllocError, Global};

/// Writes a word at the end, and numbers, each behind one space.
pub(crate) fn push_phrase(
    alloc: Global,
    text: &mut String,
    word: &str,
    numbers: &[u64],
) -> Result<(), AllocError>
    ensures { OnOk result (string_bytes text.new ≡ string_bytes text.old ++ phrase word.now numbers.now) }
{
    text.push_str(word)?;
    push_numbers(alloc, text, numbers)
}

/// Writes numbers at the end, each behind one space.
pub(crate) fn push_numbers(
    alloc: Global,
    text: &mut String,
    numbers: &[u64],
) -> Result<(), AllocError>
    ensures { OnOk result (string_bytes text.new ≡ string_bytes text.old ++ flat_map space_and_number numbers.now) }
{
    for number in numbers {
        text.push_str(" ")?;
        let digits = number.to_string(alloc)?;
        text.push_str(digits.as_str())?;
    }
    Ok(())
}
