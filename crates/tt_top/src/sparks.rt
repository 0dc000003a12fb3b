//! Widths over time, each as one character.

ghost use Rattle.std.specs.Prelude.{◌≡◌, ◌++◌, ◌≤◌, OnOk, string_bytes};
ghost use Rattle.std.specs.List.{flat_map};
ghost use Rattle.tt_top.specs.Spark.{least_of, most_of, level_of, level_word};

use std::alloc::AllocError;

/// The least of these widths; 2^64 - 1 where there are none.
pub(crate) fn least(widths: &[u64]) -> u64
    ensures { result ≡ least_of widths.now }
{
    let mut least = u64::MAX;
    for width in widths {
        least = least.min(*width);
    }
    least
}

/// The greatest of these widths; 0 where there are none.
pub(crate) fn most(widths: &[u64]) -> u64
    ensures { result ≡ most_of widths.now }
{
    let mut most = 0u64;
    for width in widths {
        most = most.max(*width);
    }
    most
}

/// Which of eight levels a width has, from 0 for the least on.
fn level(least: u64, most: u64, width: u64) -> u128
    ensures { result ≡ level_of least most width }
{
    let above = u128::from(width.saturating_sub(least));
    let range = u128::from(most.saturating_sub(least)) + 1;
    8 * above / range
}

/// The character for a level: a block of that height, or one of eight in ASCII.
fn word(ascii: bool, level: u128) -> &'static str
    ensures { result.now ≡ level_word ascii level }
{
    match level {
        0 => if ascii { "_" } else { "▁" },
        1 => if ascii { "." } else { "▂" },
        2 => if ascii { ":" } else { "▃" },
        3 => if ascii { "-" } else { "▄" },
        4 => if ascii { "=" } else { "▅" },
        5 => if ascii { "+" } else { "▆" },
        6 => if ascii { "*" } else { "▇" },
        _ => if ascii { "#" } else { "█" },
    }
}

/// Writes each width as one character at the end of the text.
pub(crate) fn push_levels(
    text: &mut String,
    ascii: bool,
    least: u64,
    most: u64,
    widths: &[u64],
) -> Result<(), AllocError>
    ensures { OnOk result (string_bytes text.new ≡ string_bytes text.old
        ++ flat_map (λ width. level_word ascii (level_of least most width)) widths.now) }
{
    for width in widths {
        text.push_str(word(ascii, level(least, most, *width)))?;
    }
    Ok(())
}
