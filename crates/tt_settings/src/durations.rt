//! Lengths of time with a unit.

ghost use Rattle.std.specs.Prelude.{◌≡◌, ◌*◌, ◌≤◌, IfSome, option_map};
ghost use Rattle.tt_settings.specs.Duration.{in_unit, duration_of, max_amount};

use crate::numerals::number_of;

/// The greatest number before a unit.
const MAX_AMOUNT: u64 = 1_000_000_000;

/// The length of time of this text, in nanoseconds. The text is a whole number up to 1,000,000,000, in decimal digits
/// without leading zeros, and behind it its unit: `ns`, `us`, `ms` or `s`. None for any other text.
pub fn duration_of(text: &str) -> Option<u64>
    ensures value { result ≡ duration_of text.now }
{
    if let Some(time) = in_unit("ns", 1, text) {
        return Some(time);
    }
    if let Some(time) = in_unit("us", 1_000, text) {
        return Some(time);
    }
    if let Some(time) = in_unit("ms", 1_000_000, text) {
        return Some(time);
    }
    in_unit("s", 1_000_000_000, text)
}

/// The length of time of this text, in nanoseconds, if it has this unit, which is `scale` nanoseconds.
fn in_unit(unit: &str, scale: u64, text: &str) -> Option<u64>
    requires small { scale ≤ 1000000000 }
    ensures { result ≡ in_unit unit.now scale text.now }
{
    match text.strip_suffix(unit) {
        Some(digits) => scaled(number_of(MAX_AMOUNT, digits), scale),
        None => None,
    }
}

/// The amount times the scale.
fn scaled(amount: Option<u64>, scale: u64) -> Option<u64>
    requires small { scale ≤ 1000000000 }
    requires bound { IfSome amount (λ n. n ≤ max_amount) }
    ensures { result ≡ option_map (λ n. n * scale) amount }
{
    match amount {
        Some(amount) => Some(amount * scale),
        None => None,
    }
}
