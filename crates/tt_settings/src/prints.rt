//! Whether a text is what is printed of a socket address.

ghost use Rattle.std.specs.Prelude.{◌≡◌, ◌≤◌, ◌<◌, ◌+◌, nat_eq, length, option_copied};
ghost use Rattle.std.specs.Cmp.Lexicographic.{pointwise};
ghost use Rattle.std.specs.Char.{digit_char};
ghost use Rattle.std.specs.Fmt.{decimal};
ghost use Rattle.std.specs.Net.Addr.{ipv6_segments};
ghost use Rattle.std.specs.Net.Text.{hex, groups_text, longest_zero_run, hex_groups_text, ipv4_text, ipv6_text, scope_text, socket_text, socket_v4_text, socket_v6_text};
ghost use Rattle.tt_settings.specs.Print.{behind_in, later_groups};

use itoa::Buffer;
use std::net::{Ipv6Addr, SocketAddr, SocketAddrV4, SocketAddrV6};

/// What stands behind these bytes, if there is a text that begins with them.
fn behind<'a>(text: Option<&'a [u8]>, front: &[u8]) -> Option<&'a [u8]>
    ensures { option_copied result ≡ behind_in front.now (option_copied text.entry) }
{
    match text {
        Some(text) => text.strip_prefix(front),
        None => None,
    }
}

/// What stands behind a number in decimal.
fn behind_decimal(text: Option<&[u8]>, number: u32) -> Option<&[u8]>
    ensures { option_copied result ≡ behind_in (decimal number) (option_copied text.entry) }
{
    let mut buffer = Buffer::new();
    behind(text, buffer.format(number).as_bytes())
}

/// A hexadecimal digit, in lower case.
fn digit_char(digit: u8) -> u8
    requires small { digit < 16 }
    ensures { result ≡ digit_char digit }
{
    if digit < 10 {
        b'0' + digit
    } else {
        b'a' + (digit - 10)
    }
}

/// What stands behind a segment in hexadecimal, without leading zeros.
#[tactic(auto, unfolding(std::specs::Net::Text::hex))]
fn behind_hex(text: Option<&[u8]>, segment: u16) -> Option<&[u8]>
    ensures { option_copied result ≡ behind_in (hex segment) (option_copied text.entry) }
{
    let digits = [
        digit_char((segment / 0x1000) as u8),
        digit_char((segment / 0x100 % 16) as u8),
        digit_char((segment / 0x10 % 16) as u8),
        digit_char((segment % 16) as u8),
    ];
    let zeros = if segment >= 0x1000 {
        0
    } else if segment >= 0x100 {
        1
    } else if segment >= 0x10 {
        2
    } else {
        3
    };
    behind(text, &digits[zeros..])
}

/// What stands behind segments, each behind a colon.
fn behind_later<'a>(text: Option<&'a [u8]>, segments: &[u16]) -> Option<&'a [u8]>
    ensures { option_copied result ≡ behind_in (later_groups segments.now) (option_copied text.entry) }
{
    let mut rest = text;
    for segment in segments {
        rest = behind_hex(behind(rest, b":"), *segment);
    }
    rest
}

/// What stands behind segments with colons between them.
#[tactic(auto, using(crate::proofs::Behind::behind_parts, crate::proofs::Behind::behind_nothing))]
fn behind_groups<'a>(text: Option<&'a [u8]>, segments: &[u16]) -> Option<&'a [u8]>
    ensures { option_copied result ≡ behind_in (groups_text segments.now) (option_copied text.entry) }
{
    match segments {
        [first, others @ ..] => behind_later(behind_hex(text, *first), others),
        [] => text,
    }
}

/// The start and the length of the longest run of zeros, and of two such runs the first.
fn longest_zero_run(segments: &[u16]) -> (usize, usize)
    ensures value { result ≡ longest_zero_run segments.now }
    ensures within { result.0 + result.1 ≤ length segments.now }
{
    let mut start = segments.len();
    let mut len = 0;
    let mut run = 0;
    for i in (0..segments.len()).rev() {
        run = if segments[i] == 0 { run + 1 } else { 0 };
        if run >= len {
            start = i;
            len = run;
        }
    }
    (start, len)
}

/// What stands behind segments with the longest run of zeros as two colons.
#[tactic(auto, using(crate::proofs::Behind::behind_parts), unfolding(std::specs::Net::Text::hex_groups_text))]
fn behind_compressed<'a>(text: Option<&'a [u8]>, segments: &[u16]) -> Option<&'a [u8]>
    ensures { option_copied result ≡ behind_in (hex_groups_text segments.now) (option_copied text.entry) }
{
    let (start, run) = longest_zero_run(segments);
    if run > 1 {
        let rest = behind_groups(text, &segments[..start]);
        let rest = behind(rest, b"::");
        behind_groups(rest, &segments[start + run..])
    } else {
        behind_groups(text, segments)
    }
}

/// What stands behind four octets with dots between them.
#[tactic(auto, using(crate::proofs::Behind::behind_parts))]
fn behind_octets(text: Option<&[u8]>, octets: [u8; 4]) -> Option<&[u8]>
    ensures { option_copied result ≡ behind_in (ipv4_text octets) (option_copied text.entry) }
{
    let rest = behind_decimal(text, u32::from(octets[0]));
    let rest = behind(rest, b".");
    let rest = behind_decimal(rest, u32::from(octets[1]));
    let rest = behind(rest, b".");
    let rest = behind_decimal(rest, u32::from(octets[2]));
    let rest = behind(rest, b".");
    behind_decimal(rest, u32::from(octets[3]))
}

/// What stands behind an IPv6 address.
#[tactic(auto, using(crate::proofs::Behind::behind_parts), unfolding(std::specs::Net::Text::ipv6_text))]
fn behind_v6(text: Option<&[u8]>, address: Ipv6Addr) -> Option<&[u8]>
    ensures { option_copied result ≡ behind_in (ipv6_text (ipv6_segments address)) (option_copied text.entry) }
{
    match address.to_ipv4_mapped() {
        Some(four) => behind_octets(behind(text, b"::ffff:"), four.octets()),
        None => behind_compressed(text, &address.segments()),
    }
}

/// What stands behind the scope of an address: nothing is printed of the scope 0.
#[tactic(auto, using(crate::proofs::Behind::behind_parts, crate::proofs::Behind::behind_nothing))]
fn behind_scope(text: Option<&[u8]>, scope: u32) -> Option<&[u8]>
    ensures { option_copied result ≡ behind_in (scope_text scope) (option_copied text.entry) }
{
    if scope == 0 {
        return text;
    }
    behind_decimal(behind(text, b"%"), scope)
}

/// What stands behind an IPv4 socket address.
#[tactic(auto, using(crate::proofs::Behind::behind_parts))]
fn behind_socket_v4(text: Option<&[u8]>, address: SocketAddrV4) -> Option<&[u8]>
    ensures { option_copied result ≡ behind_in (socket_v4_text address) (option_copied text.entry) }
{
    let rest = behind_octets(text, address.ip().octets());
    let rest = behind(rest, b":");
    behind_decimal(rest, u32::from(address.port()))
}

/// What stands behind an IPv6 socket address.
#[tactic(auto, using(crate::proofs::Behind::behind_parts))]
fn behind_socket_v6(text: Option<&[u8]>, address: SocketAddrV6) -> Option<&[u8]>
    ensures { option_copied result ≡ behind_in (socket_v6_text address) (option_copied text.entry) }
{
    let rest = behind(text, b"[");
    let rest = behind_v6(rest, *address.ip());
    let rest = behind_scope(rest, address.scope_id());
    let rest = behind(rest, b"]:");
    behind_decimal(rest, u32::from(address.port()))
}

/// What stands behind a socket address.
fn behind_socket(text: Option<&[u8]>, address: SocketAddr) -> Option<&[u8]>
    ensures { option_copied result ≡ behind_in (socket_text address) (option_copied text.entry) }
{
    match address {
        SocketAddr::V4(four) => behind_socket_v4(text, four),
        SocketAddr::V6(six) => behind_socket_v6(text, six),
    }
}

/// Whether this is the text that is printed of an address.
pub(crate) fn is_text_of(address: SocketAddr, text: &[u8]) -> bool
    ensures { result ≡ pointwise nat_eq (socket_text address) text.now }
{
    match behind_socket(Some(text), address) {
        Some(rest) => rest.is_empty(),
        None => false,
    }
}
