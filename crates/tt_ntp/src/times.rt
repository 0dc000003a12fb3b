//! Timestamps, the radius, and nanoseconds.

ghost use Rattle.std.specs.Prelude.{◌≡◌, ℕ, ◌+◌, ◌-◌, ◌*◌, ◌/◌, ◌%◌, ◌^◌, ◌<◌, ◌≤◌, length};
ghost use Rattle.tt_ntp.specs.Time.{second, ntp_epoch, pivot, time_of as time_of_stamp, precision_of, radius_at, floor_of, ceiling_of};

use crate::fields::short_at;

/// The first moment of 2024, in 2^-32 seconds since 1970.
const PIVOT: u128 = 1_704_067_200 << 32;

/// The timestamp of the first moment of 2024.
const PIVOT_STAMP: u64 = 3_913_056_000 << 32;

/// The time of a timestamp, in 2^-32 seconds since 1970.
pub(crate) fn time_of(stamp: u64) -> u128
    ensures value { result ≡ time_of_stamp stamp }
    ensures small { result < 2 ^ 65 }
{
    PIVOT + u128::from(stamp.wrapping_sub(PIVOT_STAMP))
}

/// The precision of this byte in 2^-32 seconds, at least one. A second or more stands as a second.
fn precision(byte: u8) -> u64
    ensures value { result ≡ precision_of byte }
    ensures small { result ≤ 2 ^ 32 }
{
    if byte < 128 {
        return 1 << 32;
    }
    1 << byte.saturating_sub(224)
}

/// How far the true time may be from the transmit timestamp, in 2^-32 seconds.
pub(crate) fn radius(bytes: &[u8]) -> u64
    requires { length bytes.now ≡ 48 }
    ensures value { result ≡ radius_at bytes.now }
    ensures small { result ≤ 2 ^ 50 }
{
    let delay = u64::from(short_at(bytes, 4));
    let dispersion = u64::from(short_at(bytes, 8));
    (delay + 1) * 32_768 + (dispersion + 1) * 65_536 + precision(bytes[3])
}

/// The last whole nanosecond at or before a time in 2^-32 seconds.
pub(crate) fn floor_nanos(time: u128) -> u128
    requires { time < 2 ^ 66 }
    ensures { result ≡ floor_of time }
{
    time * 1_000_000_000 / 4_294_967_296
}

/// The first whole nanosecond at or after a time in 2^-32 seconds.
pub(crate) fn ceiling_nanos(time: u128) -> u128
    requires { time < 2 ^ 66 }
    ensures { result ≡ ceiling_of time }
{
    (time * 1_000_000_000 + 4_294_967_295) / 4_294_967_296
}

/// A law of timestamps. The time of a timestamp is the one time that has it from the first moment of 2024 on and less than
/// 2^32 seconds later.
pub fn era_law()
    ensures from { (stamp : ℕ) → pivot * second ≤ time_of_stamp stamp }
    ensures to { (stamp : ℕ) → time_of_stamp stamp < (pivot + 2 ^ 32) * second }
    ensures same { (stamp : ℕ) → stamp < 2 ^ 64 → (time_of_stamp stamp + ntp_epoch * second) % 2 ^ 64 ≡ stamp }
{}
