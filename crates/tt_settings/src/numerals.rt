//! Decimal numbers.

ghost use Rattle.std.specs.Prelude.{◌≡◌, ◌≢◌, ◌⊎◌, ◌<◌, ◌≤◌, ◌^◌, length, slice_index, IsTrue, IsFalse, IfSome};
ghost use Rattle.tt_settings.specs.Numeral.{number_of};

/// The number of these decimal digits without leading zeros, up to `most`. None for any other text.
pub fn number_of(most: u64, digits: &str) -> Option<u64>
    ensures value { result ≡ number_of most digits.now }
    ensures bound { IfSome result (λ n. n ≤ most) }
{
    if !begins_plainly(digits.as_bytes()) {
        return None;
    }
    let Ok(number) = digits.parse::<u64>() else {
        return None;
    };
    if number <= most { Some(number) } else { None }
}

/// Whether the digits begin without a plus, and with a zero only if it stands alone.
fn begins_plainly(digits: &[u8]) -> bool
    ensures plain { IsTrue result → (slice_index digits.now 0 ≢ 43) × (slice_index digits.now 0 ≡ 48 → length digits.now ≤ 1) }
    ensures other { IsFalse result → (slice_index digits.now 0 ≡ 43) ⊎ ((slice_index digits.now 0 ≡ 48) × (1 < length digits.now)) }
{
    if digits.is_empty() {
        return true;
    }
    digits[0] != b'+' && (digits[0] != b'0' || digits.len() == 1)
}
