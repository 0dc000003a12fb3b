//! Times as RFC 3339 writes them in UTC.

ghost use Rattle.std.specs.Prelude.{◌≡◌, ◌++◌, OnOk, string_bytes, pos, ◌≤ℤ◌};
ghost use Rattle.jiff_core.specs.declared.civil.date.Date.{Date as Day};
ghost use Rattle.tt_status.specs.Moment.{IsDateOf, date_text, clock_text, moment_text};

use crate::digits::{push_four_digits, push_nine_digits, push_two_digits};
use jiff_core::civil::Date;
use std::alloc::AllocError;

/// A second, a minute, an hour and a day, in nanoseconds.
const SECOND: u64 = 1_000_000_000;

const MINUTE: u64 = 60 * SECOND;

const HOUR: u64 = 60 * MINUTE;

const DAY: u64 = 24 * HOUR;

/// How many days the first date of `jiff_core` lies before 1970-01-01.
const BEFORE_1970: u32 = 4_371_587;

/// The date of a time in nanoseconds since 1970. No other date has its day number, and its year is not before 1970.
pub(crate) fn date_of(time: u64) -> Date
    ensures value { IsDateOf time result }
    ensures only { (other : Day) → IsDateOf time other →
        (other.year ≡ result.year) × (other.month ≡ result.month) × (other.day ≡ result.day) }
    ensures since_1970 { pos 1970 ≤ℤ result.year }
{
    Date::from_days_since_min((time / DAY) as u32 + BEFORE_1970)
}

/// Adds a time, whose date is given, like `2026-11-26T23:41:51.123456789Z`.
pub(crate) fn push_moment(text: &mut String, date: Date, time: u64) -> Result<(), AllocError>
    ensures { OnOk result (string_bytes text.new ≡ string_bytes text.old ++ moment_text date time) }
{
    push_date(text, date)?;
    text.push_str("T")?;
    push_clock(text, time)?;
    text.push_str("Z")
}

/// Adds a date.
fn push_date(text: &mut String, date: Date) -> Result<(), AllocError>
    ensures { OnOk result (string_bytes text.new ≡ string_bytes text.old ++ date_text date) }
{
    push_four_digits(text, u64::from(date.year.unsigned_abs()))?;
    text.push_str("-")?;
    push_two_digits(text, u64::from(date.month))?;
    text.push_str("-")?;
    push_two_digits(text, u64::from(date.day))
}

/// Adds the time of the day.
fn push_clock(text: &mut String, time: u64) -> Result<(), AllocError>
    ensures { OnOk result (string_bytes text.new ≡ string_bytes text.old ++ clock_text time) }
{
    push_two_digits(text, time / HOUR % 24)?;
    text.push_str(":")?;
    push_two_digits(text, time / MINUTE % 60)?;
    text.push_str(":")?;
    push_two_digits(text, time / SECOND % 60)?;
    text.push_str(".")?;
    push_nine_digits(text, time)
}
