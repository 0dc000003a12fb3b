//! The addresses of peers, of IPv4 and of IPv6.

ghost use Rattle.std.specs.Prelude.{◌≡◌, ◌↔◌, IsTrue, Some, None, nat_lt, if◌then◌else◌};
ghost use Rattle.tt_rounds.specs.Addresses.{end_of as end_at, IsPlainOf, IsSixOf, IsReachedBy, IsAt, IsPeerAt};

use std::net::{IpAddr, SocketAddr, SocketAddrV4, SocketAddrV6};

/// The end that an address names, whether it is of IPv4 or stands in IPv6: its segments in IPv6, and its port.
#[derive(Clone, Copy)]
pub(crate) struct End {
    segments: [u16; 8],
    port: u16,
}

/// The end that this address names.
fn end_of(address: SocketAddr) -> End
    ensures { result ≡ end_at address }
{
    let segments = match address.ip() {
        IpAddr::V4(four) => four.to_ipv6_mapped().segments(),
        IpAddr::V6(six) => six.segments(),
    };
    End {
        segments,
        port: address.port(),
    }
}

/// The same end by its plain address: an IPv4 address that is mapped into IPv6, as `::ffff:10.0.0.1`, is the IPv4 one.
/// Any other address is unchanged.
pub fn plain_of(address: SocketAddr) -> SocketAddr
    ensures value { IsPlainOf address result }
    ensures same { end_at result ≡ end_at address }
{
    match address {
        SocketAddr::V4(_) => address,
        SocketAddr::V6(six) => match six.ip().to_ipv4_mapped() {
            Some(four) => SocketAddr::V4(SocketAddrV4::new(four, six.port())),
            None => address,
        },
    }
}

/// The same end by its address in IPv6: an IPv4 address is mapped into IPv6. An IPv6 address is unchanged.
fn six_of(address: SocketAddr) -> SocketAddr
    ensures value { IsSixOf address result }
    ensures same { end_at result ≡ end_at address }
{
    match address {
        SocketAddr::V4(four) => {
            let mapped = four.ip().to_ipv6_mapped();
            SocketAddr::V6(SocketAddrV6::new(mapped, four.port(), 0, 0))
        }
        SocketAddr::V6(_) => address,
    }
}

/// The address by which a socket reaches the end of this one. The socket is of IPv6, or of IPv4.
pub(crate) fn address_over(is_six: bool, address: SocketAddr) -> SocketAddr
    ensures value { IsReachedBy is_six address result }
    ensures same { end_at result ≡ end_at address }
{
    if is_six {
        six_of(address)
    } else {
        plain_of(address)
    }
}

/// Whether a peer is at this end.
fn is_at(address: Option<SocketAddr>, there: &End) -> bool
    ensures { IsTrue result ↔ IsAt address there.now }
{
    match address {
        Some(address) => {
            let end = end_of(address);
            end.segments == there.segments && end.port == there.port
        }
        None => false,
    }
}

/// The number of the peer at this place: only the first 256 have one.
fn number_of(place: usize) -> Option<u8>
    ensures { result ≡ (if nat_lt place 256 then Some place else None) }
{
    if place < 256 { Some(place as u8) } else { None }
}

/// The peer with this address, if one has it, whether the addresses are of IPv4 or mapped into IPv6. Flow information and
/// scope are not compared. Peer `i` has the address at place `i`, and only the first 256 have a number.
pub(crate) fn peer_at(addresses: &[Option<SocketAddr>], address: SocketAddr) -> Option<u8>
    ensures { IsPeerAt addresses.now (end_at address) result }
{
    let there = end_of(address);
    'peers: for place in 0..addresses.len() {
        if is_at(addresses[place], &there) {
            return number_of(place);
        }
    }
    None
}
