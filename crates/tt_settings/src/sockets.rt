//! Socket addresses as texts.

ghost use Rattle.std.specs.Prelude.{◌≡◌, ◌≢◌, IfSome, IfNone};
ghost use Rattle.std.specs.declared.net.socket_addr.SocketAddr.{SocketAddr};
ghost use Rattle.std.specs.Net.Addr.{ipv4_octets, ipv6_segments};
ghost use Rattle.std.specs.Net.Socket.{IsSocketAddr, socket_flowinfo, socket_scope_id};
ghost use Rattle.std.specs.Net.Text.{socket_text};
ghost use Rattle.tt_settings.specs.Socket.{address_of, is_host_v4, is_host_v6, is_host, is_loopback, is_usable};

use crate::prints::is_text_of;
use std::net::{Ipv4Addr, Ipv6Addr, SocketAddr};

/// The IPv4 or IPv6 address with a port of which this text is the one spelling: the text that is printed of it, as
/// `10.1.0.1:5701` or `[fd00::1]:5701`. None for any other text.
pub fn address_of(text: &str) -> Option<SocketAddr>
    ensures value { result ≡ address_of text.now }
    ensures printed { IfSome result (λ a. socket_text a ≡ text.now) }
    ensures none { IfNone result ((a : SocketAddr) → IsSocketAddr a → socket_flowinfo a ≡ 0 → socket_text a ≢ text.now) }
{
    match text.parse::<SocketAddr>() {
        Ok(address) if is_text_of(address, text.as_bytes()) => Some(address),
        _ => None,
    }
}

/// Whether an address is one of this host: in 127.0.0.0/8, or ::1.
pub fn is_loopback(address: SocketAddr) -> bool
    ensures { result ≡ is_loopback address }
{
    match address {
        SocketAddr::V4(four) => four.ip().octets()[0] == 127,
        SocketAddr::V6(six) => six.ip().segments() == [0, 0, 0, 0, 0, 0, 0, 1],
    }
}

/// Whether an IPv4 address is that of one host: not unspecified and not multicast.
fn is_host_v4(address: Ipv4Addr) -> bool
    ensures { result ≡ is_host_v4 (ipv4_octets address) }
{
    let octets = address.octets();
    octets != [0, 0, 0, 0] && !(224 <= octets[0] && octets[0] <= 239)
}

/// Whether an IPv6 address is that of one host: not unspecified, not multicast, and no IPv4 address that is mapped.
fn is_host_v6(address: Ipv6Addr) -> bool
    ensures { result ≡ is_host_v6 (ipv6_segments address) }
{
    let segments = address.segments();
    segments != [0, 0, 0, 0, 0, 0, 0, 0]
        && segments[0] < 0xff00
        && segments[..6] != [0, 0, 0, 0, 0, 0xffff]
}

/// Whether an address is that of one host.
fn is_host(address: SocketAddr) -> bool
    ensures { result ≡ is_host address }
{
    match address {
        SocketAddr::V4(four) => is_host_v4(*four.ip()),
        SocketAddr::V6(six) => is_host_v6(*six.ip()),
    }
}

/// The scope of an address: 0 unless it is an IPv6 one with a scope.
fn scope_of(address: SocketAddr) -> u32
    ensures { result ≡ socket_scope_id address }
{
    match address {
        SocketAddr::V4(_) => 0,
        SocketAddr::V6(six) => six.scope_id(),
    }
}

/// Whether an address can be asked: that of one host, with a port above 0 and without a scope.
#[tactic(auto, unfolding(crate::specs::Socket::is_usable))]
pub(crate) fn is_usable(address: SocketAddr) -> bool
    ensures { result ≡ is_usable address }
{
    address.port() > 0 && scope_of(address) == 0 && is_host(address)
}
