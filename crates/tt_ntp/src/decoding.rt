//! Bytes as replies.

ghost use Rattle.std.specs.Prelude.{◌≡◌, ℕ, ◌+◌, ◌*◌, ◌^◌, ◌≤◌, ◌↔◌, length, nat_lt, ◌==◌, find, None, Some, IfOk, IsErrOf};
ghost use Rattle.tt_span.specs.Time.{max_time};
ghost use Rattle.tt_span.specs.Interval.{Holds};
ghost use Rattle.tt_ntp.specs.Packet.{leap_at, number_at as number_at_place};
ghost use Rattle.tt_ntp.specs.Time.{second, time_of as time_of_stamp, radius_at, IsServerTime, IsOutward, ends_at};
ghost use Rattle.tt_ntp.specs.Reading.{leap_of as leap_of_bits, is_kiss as is_kiss_with, applies, head_faults, kiss_faults, clock_faults, time_faults, first_fault, read_of};

use crate::faults::NtpFault;
use crate::fields::{number_at, short_at};
use crate::queries::{PACKET_LEN, Query};
use crate::replies::{Leap, Reply};
use crate::times::{ceiling_nanos, floor_nanos, radius, time_of};
use tt_span::{MAX_TIME, Span};

/// The greatest radius that is taken, in 2^-32 seconds: a second.
const MAX_RADIUS: u64 = 1 << 32;

/// The kiss code RATE.
const RATE: u32 = 0x5241_5445;

/// The kiss code DENY.
const DENY: u32 = 0x4445_4E59;

/// The kiss code RSTR.
const RESTRICT: u32 = 0x5253_5452;

/// The first three bytes of the reference 127.127.1.x.
const LOCAL: u32 = 0x7F_7F01;

/// The first refusal of bytes that are no reply to the query, if one applies.
#[tactic(auto, unfolding(crate::specs::Reading::applies))]
fn head_fault(bytes: &[u8], query: Query) -> Option<NtpFault>
    ensures value { result ≡ find (applies query bytes.now) head_faults }
    ensures whole { result ≡ None → length bytes.now ≡ 48 }
{
    if bytes.len() != PACKET_LEN {
        return Some(NtpFault::Length);
    }
    if bytes[0] / 8 % 8 != 4 {
        return Some(NtpFault::Version);
    }
    if bytes[0] % 8 != 4 {
        return Some(NtpFault::Mode);
    }
    if number_at(bytes, 24) != query.nonce {
        return Some(NtpFault::Origin);
    }
    None
}

/// Whether the reply is a kiss with this code.
fn is_kiss(bytes: &[u8], code: u32) -> bool
    requires { length bytes.now ≡ 48 }
    ensures { result ≡ is_kiss_with bytes.now code }
{
    bytes[1] == 0 && short_at(bytes, 12) == code
}

/// The first refusal of a kiss, if one applies.
#[tactic(auto, unfolding(crate::specs::Reading::applies))]
fn kiss_fault(bytes: &[u8], query: Query) -> Option<NtpFault>
    requires { length bytes.now ≡ 48 }
    ensures { result ≡ find (applies query bytes.now) kiss_faults }
{
    let _query = query;
    if is_kiss(bytes, RATE) {
        return Some(NtpFault::Rate);
    }
    if is_kiss(bytes, DENY) {
        return Some(NtpFault::Denied);
    }
    if is_kiss(bytes, RESTRICT) {
        return Some(NtpFault::Restricted);
    }
    if bytes[1] == 0 && short_at(bytes, 12) != 0 {
        return Some(NtpFault::Kiss);
    }
    None
}

/// The first refusal of a server that has no time to give, if one applies.
#[tactic(auto, unfolding(crate::specs::Reading::applies))]
fn clock_fault(bytes: &[u8], query: Query) -> Option<NtpFault>
    requires { length bytes.now ≡ 48 }
    ensures { result ≡ find (applies query bytes.now) clock_faults }
{
    if bytes[0] / 64 == 3 || bytes[1] == 0 {
        return Some(NtpFault::Unset);
    }
    if bytes[1] >= 16 {
        return Some(NtpFault::Stratum);
    }
    if !query.takes_local && short_at(bytes, 12) / 256 == LOCAL {
        return Some(NtpFault::Local);
    }
    None
}

/// Whether the timestamp at place `at` is before the one at place `other`.
fn is_before(bytes: &[u8], at: usize, other: usize) -> bool
    requires first { at + 8 ≤ length bytes.now }
    requires second { other + 8 ≤ length bytes.now }
    ensures { result ≡ nat_lt (time_of_stamp (number_at_place bytes.now at)) (time_of_stamp (number_at_place bytes.now other)) }
{
    time_of(number_at(bytes, at)) < time_of(number_at(bytes, other))
}

/// Whether the radius is above a second.
fn is_far(bytes: &[u8]) -> bool
    requires { length bytes.now ≡ 48 }
    ensures { result ≡ nat_lt second (radius_at bytes.now) }
{
    radius(bytes) > MAX_RADIUS
}

/// Whether the upper end is above the greatest time.
fn is_late(bytes: &[u8]) -> bool
    requires { length bytes.now ≡ 48 }
    ensures { result ≡ nat_lt max_time (ends_at bytes.now).hi }
{
    high_end(bytes) > u128::from(MAX_TIME)
}

/// The first refusal of times that are out of order or out of range, if one applies.
#[tactic(auto, unfolding(crate::specs::Reading::applies))]
fn time_fault(bytes: &[u8], query: Query) -> Option<NtpFault>
    requires { length bytes.now ≡ 48 }
    ensures value { result ≡ find (applies query bytes.now) time_faults }
    ensures in_time { result ≡ None → (ends_at bytes.now).hi ≤ max_time }
{
    let _query = query;
    if number_at(bytes, 40) == 0 {
        return Some(NtpFault::NoTransmit);
    }
    if is_before(bytes, 40, 32) {
        return Some(NtpFault::Backwards);
    }
    if is_before(bytes, 40, 16) {
        return Some(NtpFault::Reference);
    }
    if is_far(bytes) {
        return Some(NtpFault::Distance);
    }
    if is_late(bytes) {
        return Some(NtpFault::PastMax);
    }
    None
}

/// The first refusal that applies, if one does.
fn fault_of(bytes: &[u8], query: Query) -> Option<NtpFault>
    ensures value { result ≡ first_fault query bytes.now }
    ensures whole { result ≡ None → length bytes.now ≡ 48 }
    ensures in_time { result ≡ None → (ends_at bytes.now).hi ≤ max_time }
{
    if let Some(fault) = head_fault(bytes, query) {
        return Some(fault);
    }
    if let Some(fault) = kiss_fault(bytes, query) {
        return Some(fault);
    }
    if let Some(fault) = clock_fault(bytes, query) {
        return Some(fault);
    }
    time_fault(bytes, query)
}

/// The first nanosecond at or after the transmit timestamp and the radius.
fn high_end(bytes: &[u8]) -> u128
    requires { length bytes.now ≡ 48 }
    ensures { result ≡ (ends_at bytes.now).hi }
{
    ceiling_nanos(time_of(number_at(bytes, 40)) + u128::from(radius(bytes)))
}

/// The last nanosecond at or before the transmit timestamp less the radius.
fn low_end(bytes: &[u8]) -> u128
    requires { length bytes.now ≡ 48 }
    ensures { result ≡ (ends_at bytes.now).lo }
{
    floor_nanos(time_of(number_at(bytes, 40)).saturating_sub(u128::from(radius(bytes))))
}

/// The transmit timestamp less and more the radius, rounded outward.
fn span_at(bytes: &[u8]) -> Span
    requires whole { length bytes.now ≡ 48 }
    requires in_time { (ends_at bytes.now).hi ≤ max_time }
    ensures { result ≡ ends_at bytes.now }
{
    let low = low_end(bytes);
    let high = high_end(bytes);
    prove!(low <= high);
    Span::new(low as u64, high as u64).unwrap()
}

/// What the bytes say of leap seconds.
fn leap_of(bytes: &[u8]) -> Leap
    requires { length bytes.now ≡ 48 }
    ensures { result ≡ leap_of_bits (leap_at bytes.now) }
{
    match bytes[0] / 64 {
        0 => Leap::No,
        1 => Leap::Inserted,
        _ => Leap::Deleted,
    }
}

/// What the reply to the query says. Refuses, in this order: 2301 `Length` where there are not 48 bytes; 2304 `Version`
/// where the version is not 4; 2305 `Mode` where the mode is not 4; 2306 `Origin` where the origin timestamp is not the nonce;
/// at stratum 0 2307 `Rate`, 2308 `Denied`, 2309 `Restricted` at the kiss codes RATE, DENY, RSTR, and 2310 `Kiss` at any
/// other but 0; 2311 `Unset` where the leap indicator is 3 or the stratum is 0; 2312 `Stratum` where the stratum is 16 or
/// above; 2313 `Local` where the reference identifier is 127.127.1 and any byte, and the query does not take this; 2314
/// `NoTransmit` where the transmit timestamp is 0; 2315 `Backwards` and 2316 `Reference` where it is before the receive
/// timestamp or before the reference timestamp; 2317 `Distance` where the radius is above a second; 2318 `PastMax` where the
/// upper end is above `MAX_TIME`.
#[tactic(auto, unfolding(crate::specs::Reading::read_of))]
pub fn decode(bytes: &[u8], query: Query) -> Result<Reply, NtpFault>
    ensures exact { result ≡ read_of query bytes.now }
    // The span is the transmit timestamp less and more the radius, rounded outward and by less than a nanosecond.
    ensures outward { IfOk result (λ reply. IsOutward bytes.now reply.span) }
    // If the server's clock was off by no more than the radius when it was read, the span holds the true time of that moment.
    ensures holds { IfOk result (λ reply. (x : ℕ) → IsServerTime 0 bytes.now (x * 2 ^ 32) → Holds reply.span x) }
    // The refusal is the first that applies.
    ensures refused { (fault : NtpFault) → IsErrOf result fault ↔ (first_fault query bytes.now ≡ Some fault) }
{
    if let Some(fault) = fault_of(bytes, query) {
        return Err(fault);
    }
    Ok(Reply {
        span: span_at(bytes),
        leap: leap_of(bytes),
        stratum: bytes[1],
    })
}
