//! Numbers with a fixed count of digits, and nanoseconds as seconds.

ghost use Rattle.std.specs.Prelude.{◌≡◌, ◌++◌, OnOk, string_bytes};
ghost use Rattle.tt_status.specs.Digits.{two_digits, three_digits, four_digits, nine_digits, seconds_text, difference_text, millionths_text, rate_text};

use std::alloc::AllocError;

/// A number that may be below 0. A size of 0 is 0, whatever `below` says.
#[derive(Clone, Copy)]
pub struct Difference {
    /// Whether it is below 0.
    pub below: bool,
    /// Its distance from 0.
    pub size: u64,
}

/// Adds the last two digits of a number.
pub(crate) fn push_two_digits(text: &mut String, number: u64) -> Result<(), AllocError>
    ensures { OnOk result (string_bytes text.new ≡ string_bytes text.old ++ two_digits number) }
{
    write!(text, "{}{}", number / 10 % 10, number % 10)
}

/// Adds the last three digits of a number.
fn push_three_digits(text: &mut String, number: u64) -> Result<(), AllocError>
    ensures { OnOk result (string_bytes text.new ≡ string_bytes text.old ++ three_digits number) }
{
    write!(
        text,
        "{}{}{}",
        number / 100 % 10,
        number / 10 % 10,
        number % 10
    )
}

/// Adds the last four digits of a number.
pub(crate) fn push_four_digits(text: &mut String, number: u64) -> Result<(), AllocError>
    ensures { OnOk result (string_bytes text.new ≡ string_bytes text.old ++ four_digits number) }
{
    push_two_digits(text, number / 100)?;
    push_two_digits(text, number)
}

/// Adds the last nine digits of a number.
pub(crate) fn push_nine_digits(text: &mut String, number: u64) -> Result<(), AllocError>
    ensures { OnOk result (string_bytes text.new ≡ string_bytes text.old ++ nine_digits number) }
{
    push_three_digits(text, number / 1_000_000)?;
    push_three_digits(text, number / 1000)?;
    push_three_digits(text, number)
}

/// Adds nanoseconds as seconds, exactly: with nine digits behind the point.
pub(crate) fn push_seconds(text: &mut String, nanoseconds: u64) -> Result<(), AllocError>
    ensures { OnOk result (string_bytes text.new ≡ string_bytes text.old ++ seconds_text nanoseconds) }
{
    write!(text, "{}.", nanoseconds / 1_000_000_000)?;
    push_nine_digits(text, nanoseconds)
}

/// Adds parts per billion as parts per million, exactly: with three digits behind the point.
fn push_millionths(text: &mut String, billionths: u64) -> Result<(), AllocError>
    ensures { OnOk result (string_bytes text.new ≡ string_bytes text.old ++ millionths_text billionths) }
{
    write!(text, "{}.", billionths / 1000)?;
    push_three_digits(text, billionths)
}

/// Adds a rate in parts per billion as parts per million, with `-` before it where it is below 0.
pub(crate) fn push_rate(text: &mut String, rate: Difference) -> Result<(), AllocError>
    ensures { OnOk result (string_bytes text.new ≡ string_bytes text.old ++ rate_text rate) }
{
    if rate.below && rate.size > 0 {
        text.push_str("-")?;
        return push_millionths(text, rate.size);
    }
    push_millionths(text, rate.size)
}

/// Adds a difference in nanoseconds as seconds, with `-` before it where it is below 0.
pub(crate) fn push_difference(text: &mut String, difference: Difference) -> Result<(), AllocError>
    ensures { OnOk result (string_bytes text.new ≡ string_bytes text.old ++ difference_text difference) }
{
    if difference.below && difference.size > 0 {
        text.push_str("-")?;
        return push_seconds(text, difference.size);
    }
    push_seconds(text, difference.size)
}
