//! Scaled keys: numbers for the ends of a statement's span. Ageing does not change the order of the keys.

ghost use Rattle.std.specs.Prelude.{◌≡◌, ◌+◌, ◌-◌, ◌*◌, ◌/◌, ◌≤◌, ◌↔◌, IsTrue};
ghost use Rattle.tt_span.specs.Time.{max_time};
ghost use Rattle.tt_span.specs.Drift.{max_drift};
ghost use Rattle.tt_fuse.specs.Scaled.{key_bound, key_number, IsKey, low_key_of, high_key_of, low_end_of, high_end_of};

use tt_span::{Drift, MAX_TIME};

/// A million: a drift is counted in parts of it, and keys count millionths of a nanosecond.
const MILLION: u64 = 1_000_000;

/// The clock reading less the most that the clock may be wrong by since it showed 0, in millionths of a nanosecond.
fn least_run(drift: Drift, clock: u64) -> u128
    requires { clock ≤ max_time }
    ensures value { result ≡ clock * (1000000 - drift) }
    ensures bound { result ≤ 4000000000000000000000000 }
    ensures drift_in { drift ≤ max_drift }
{
    u128::from(clock) * u128::from(MILLION - u64::from(drift.ppm()))
}

/// The clock reading plus the most that the clock may be wrong by since it showed 0, in millionths of a nanosecond.
fn greatest_run(drift: Drift, clock: u64) -> u128
    requires { clock ≤ max_time }
    ensures value { result ≡ clock * (1000000 + drift) }
    ensures bound { result ≤ 4400000000000000000000000 }
    ensures drift_in { drift ≤ max_drift }
{
    u128::from(clock) * u128::from(MILLION + u64::from(drift.ppm()))
}

/// The key of a lower end that was received when the clock showed `got`.
#[tactic(auto, unfolding(crate::specs::Scaled::low_key_of))]
pub(crate) fn low_key(drift: Drift, lo: u64, got: u64) -> i128
    requires lo_in { lo ≤ max_time }
    requires got_in { got ≤ max_time }
    ensures value { result ≡ low_key_of drift lo got }
    ensures in_range { IsKey result }
{
    (u128::from(lo) * u128::from(MILLION)) as i128 - least_run(drift, got) as i128
}

/// The key of an upper end whose poll was sent when the clock showed `sent`.
#[tactic(auto, unfolding(crate::specs::Scaled::high_key_of))]
pub(crate) fn high_key(drift: Drift, hi: u64, sent: u64) -> i128
    requires hi_in { hi ≤ max_time }
    requires sent_in { sent ≤ max_time }
    ensures value { result ≡ high_key_of drift hi sent }
    ensures in_range { IsKey result }
{
    (u128::from(hi) * u128::from(MILLION)) as i128 - greatest_run(drift, sent) as i128
}

/// The whole nanoseconds in `scaled` millionths of a nanosecond. A division of 128 bits is slow, so this divides by 64,
/// and then by 15,625 in two halves.
fn nanoseconds(scaled: u128) -> u64
    requires { scaled ≤ 9000000000000000000000000 }
    ensures { result ≡ scaled / 1000000 }
{
    let rest = scaled / 64;
    let front = (rest / 4_294_967_296) as u64;
    let back = (rest % 4_294_967_296) as u64;
    front / 15_625 * 4_294_967_296 + (front % 15_625 * 4_294_967_296 + back) / 15_625
}

/// The lower end of this key when the clock shows `clock`, in millionths of a nanosecond.
fn scaled_low_end(drift: Drift, key: i128, clock: u64) -> u128
    requires in_time { clock ≤ max_time }
    requires in_range { IsKey key }
    requires reached { key_bound ≤ key_number key + clock * (1000000 - drift) }
    ensures value { result ≡ key_number key + clock * (1000000 - drift) - key_bound }
    ensures bound { result ≤ 8400000000000000000000000 }
{
    (key + least_run(drift, clock) as i128) as u128
}

/// The upper end of this key when the clock shows `clock`, in millionths of a nanosecond.
fn scaled_high_end(drift: Drift, key: i128, clock: u64) -> u128
    requires in_time { clock ≤ max_time }
    requires in_range { IsKey key }
    requires reached { key_bound ≤ key_number key + clock * (1000000 + drift) }
    ensures value { result ≡ key_number key + clock * (1000000 + drift) - key_bound }
    ensures bound { result ≤ 8800000000000000000000000 }
{
    (key + greatest_run(drift, clock) as i128) as u128
}

/// The lower end of this key when the clock shows `clock`.
#[tactic(auto, unfolding(crate::specs::Scaled::low_end_of))]
pub(crate) fn low_end(drift: Drift, key: i128, clock: u64) -> u64
    requires in_time { clock ≤ max_time }
    requires in_range { IsKey key }
    requires reached { key_bound ≤ key_number key + clock * (1000000 - drift) }
    ensures { result ≡ low_end_of drift clock key }
{
    nanoseconds(scaled_low_end(drift, key, clock)).min(MAX_TIME)
}

/// The upper end of this key when the clock shows `clock`.
#[tactic(auto, unfolding(crate::specs::Scaled::high_end_of))]
pub(crate) fn high_end(drift: Drift, key: i128, clock: u64) -> u64
    requires in_time { clock ≤ max_time }
    requires in_range { IsKey key }
    requires reached { key_bound ≤ key_number key + clock * (1000000 + drift) }
    ensures { result ≡ high_end_of drift clock key }
{
    let scaled = scaled_high_end(drift, key, clock);
    nanoseconds(scaled + 999_999).min(MAX_TIME)
}

/// Whether the lower end of the key `low` is at most the upper end of the key `high` when the clock shows `clock`.
///
/// In total, rounding moves the two ends by less than two nanoseconds. So comparing them seldom needs a division.
#[tactic(auto, unfolding(crate::specs::Scaled::low_end_of, crate::specs::Scaled::high_end_of))]
pub(crate) fn are_in_order(drift: Drift, low: i128, high: i128, clock: u64) -> bool
    requires in_time { clock ≤ max_time }
    requires low_in_range { IsKey low }
    requires high_in_range { IsKey high }
    requires low_reached { key_bound ≤ key_number low + clock * (1000000 - drift) }
    requires high_reached { key_bound ≤ key_number high + clock * (1000000 + drift) }
    ensures { IsTrue result ↔ (low_end_of drift clock low ≤ high_end_of drift clock high) }
{
    let begins = scaled_low_end(drift, low, clock);
    let ends = scaled_high_end(drift, high, clock);
    if begins <= ends || u128::from(MAX_TIME - 1) * u128::from(MILLION) < ends {
        return true;
    }
    begins < ends + 2_000_000 && nanoseconds(begins) <= nanoseconds(ends + 999_999)
}
