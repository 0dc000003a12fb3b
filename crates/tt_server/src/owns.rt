//! The address of its own at which the socket for polls is bound.

ghost use Rattle.std.specs.Prelude.{◌≡◌};
ghost use Rattle.std.specs.List.{list_any};
ghost use Rattle.std.specs.declared.net.socket_addr.SocketAddr.TheVariants.{V4, V6};
ghost use Rattle.std.specs.Net.Addr.{ipv4_octets, ipv6_segments};
ghost use Rattle.tt_server.specs.Own.{IsOwn, families_at, first_reached, has_four, instead_of, is_four, own_of, reaches, suits, suits_all, tells_no_six};

use crate::faults::ServerFault;
use std::net::{IpAddr, Ipv4Addr, Ipv6Addr, SocketAddr};
use tt_settings::{MasterSettings, is_loopback};

/// An address of its own for the socket for polls.
#[derive(Clone, Copy)]
pub(crate) enum OwnAddress {
    /// 127.0.0.1
    LocalFour,
    /// ::1
    LocalSix,
    /// 0.0.0.0
    AnyFour,
    /// `::`
    AnySix,
}

/// Where the socket for polls is bound, and what it reaches.
#[derive(Clone, Copy)]
pub(crate) struct Reach {
    pub(crate) own: OwnAddress,
    /// Whether a socket of IPv6 reaches no address of IPv4.
    pub(crate) six_only: bool,
}

impl OwnAddress {
    /// The address itself.
    pub(crate) fn ip(self) -> IpAddr
        ensures value { IsOwn self result }
    {
        match self {
            OwnAddress::LocalFour => IpAddr::V4(Ipv4Addr::new(127, 0, 0, 1)),
            OwnAddress::LocalSix => IpAddr::V6(Ipv6Addr::new(0, 0, 0, 0, 0, 0, 0, 1)),
            OwnAddress::AnyFour => IpAddr::V4(Ipv4Addr::new(0, 0, 0, 0)),
            OwnAddress::AnySix => IpAddr::V6(Ipv6Addr::new(0, 0, 0, 0, 0, 0, 0, 0)),
        }
    }

    /// Where a socket is bound where it can't be bound here, by the number of the operating system's error: one for any
    /// address of IPv6 at any address of IPv4, where the host has no IPv6.
    pub(crate) fn instead(self, code: Option<i32>) -> Option<OwnAddress>
        ensures value { result ≡ instead_of self code }
    {
        match self {
            OwnAddress::AnySix => {
                if tells_no_six(code) {
                    Some(OwnAddress::AnyFour)
                } else {
                    None
                }
            }
            _ => None,
        }
    }
}

/// Whether the number of an error says that the host has no IPv6: EAFNOSUPPORT and EADDRNOTAVAIL.
fn tells_no_six(code: Option<i32>) -> bool
    ensures { result ≡ tells_no_six code }
{
    match code {
        Some(code) => code == 97 || code == 99,
        None => false,
    }
}

/// Whether an address is of IPv4.
fn is_four(address: SocketAddr) -> bool
    ensures { result ≡ is_four address }
{
    match address {
        SocketAddr::V4(_) => true,
        SocketAddr::V6(_) => false,
    }
}

/// Whether a socket at this address of its own is for a master at that address. One whose address is not known yet may
/// have any.
fn suits(own: OwnAddress, place: Option<SocketAddr>) -> bool
    ensures { result ≡ suits own place }
{
    match place {
        Some(address) => match own {
            OwnAddress::LocalFour => is_four(address) && is_loopback(address),
            OwnAddress::LocalSix => !is_four(address) && is_loopback(address),
            OwnAddress::AnyFour => is_four(address),
            OwnAddress::AnySix => true,
        },
        None => match own {
            OwnAddress::AnySix => true,
            _ => false,
        },
    }
}

/// Whether it is for all these masters.
fn suits_all(own: OwnAddress, masters: &[MasterSettings]) -> bool
    ensures { result ≡ suits_all own masters.now }
{
    for master in masters {
        if !suits(own, master.address().socket()) {
            return false;
        }
    }
    true
}

/// The address of its own of a socket for these masters: on loopback where all are on the loopback of one family; any of
/// IPv4 where all are of IPv4; and else any of IPv6, also where one has a name.
pub(crate) fn own_of(masters: &[MasterSettings]) -> OwnAddress
    ensures value { result ≡ own_of masters.now }
{
    if suits_all(OwnAddress::LocalFour, masters) {
        OwnAddress::LocalFour
    } else if suits_all(OwnAddress::LocalSix, masters) {
        OwnAddress::LocalSix
    } else if suits_all(OwnAddress::AnyFour, masters) {
        OwnAddress::AnyFour
    } else {
        OwnAddress::AnySix
    }
}

/// Whether one of the masters has an address of IPv4 in the settings.
fn has_four(masters: &[MasterSettings]) -> bool
    ensures { result ≡ list_any has_four masters.now }
{
    for master in masters {
        if suits(OwnAddress::AnyFour, master.address().socket()) {
            return true;
        }
    }
    false
}

/// Refuses masters of both families with 1828 `MixedFamilies`, where a socket of IPv6 is for IPv6 alone.
pub(crate) fn check_families(reach: Reach, masters: &[MasterSettings]) -> Result<(), ServerFault>
    ensures value { result ≡ families_at reach.own reach.six_only masters.now }
{
    match reach.own {
        OwnAddress::AnySix => {
            if reach.six_only && has_four(masters) {
                Err(ServerFault::MixedFamilies)
            } else {
                Ok(())
            }
        }
        _ => Ok(()),
    }
}

/// Whether a socket reaches an address.
pub(crate) fn reaches(reach: Reach, address: SocketAddr) -> bool
    ensures { result ≡ reaches reach.own reach.six_only address }
{
    match reach.own {
        OwnAddress::LocalFour | OwnAddress::AnyFour => is_four(address),
        OwnAddress::LocalSix => !is_four(address),
        OwnAddress::AnySix => !reach.six_only || !is_four(address),
    }
}

/// The first of these addresses that a socket reaches.
pub(crate) fn first_reached(reach: Reach, found: &[SocketAddr]) -> Option<SocketAddr>
    ensures value { result ≡ first_reached reach.own reach.six_only found.now }
{
    for address in found {
        if reaches(reach, *address) {
            return Some(*address);
        }
    }
    None
}
