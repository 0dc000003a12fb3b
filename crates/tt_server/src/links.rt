//! The link to the masters, with the keys that are shared with them.

ghost use Rattle.std.specs.Prelude.{◌≡◌, IfOk, map};
ghost use Rattle.tt_settings.specs.Master.{Master};
ghost use Rattle.tt_settings.specs.Socket.{address_of};
ghost use Rattle.tt_wire.specs.Wire.{keys_in};
ghost use Rattle.tt_server.specs.Ring.{AreRingsTo, IsWireTo};

use crate::faults::ServerFault;
use crate::names::{NameTable, Names, has_names, patience_of};
use crate::owns::{OwnAddress, Reach, check_families, own_of};
use crate::rings::{draw_ahead, keys_in_file, rings_of};
use crate::starts::fault_of;
use mio::Waker;
use std::alloc::Global;
use std::fs::{File, Files};
use std::io;
use std::net::{Net, SocketAddr, UdpSocket};
use std::random::RandomSource;
use std::sync::Arc;
use std::time::{Clock as SystemClock, Duration};
use tt_files::Reason;
use tt_host::{MOST, read_at};
use tt_rounds::RoundLink;
use tt_settings::{MasterSettings, Settings};
use tt_wire::{Ring, Wire};

/// Whether sockets of IPv6 reach no address of IPv4.
const SIX_ONLY: &str = "/proc/sys/net/ipv6/bindv6only";

/// The link to the masters, and what belongs to it.
#[derive(Drop)]
pub(crate) struct Polling<'a, R> {
    pub(crate) link: RoundLink<'a, R, UdpSocket>,
    pub(crate) reach: Reach,
    /// What is found of the names of masters, if one has a name.
    pub(crate) table: Option<Arc<NameTable, Global>>,
    /// What looks up these names.
    pub(crate) names: Option<Names>,
}

/// Whether the operating system says that sockets of IPv6 reach no address of IPv4.
fn is_six_only<R: Files<File = File>>(rt: &R) -> bool {
    let mut bytes = [0; MOST];
    match read_at(rt, SIX_ONLY, &mut bytes) {
        Ok(count) => count > 0 && bytes[0] == b'1',
        Err(_) => false,
    }
}

/// A socket at this address of its own, at any port.
fn socket_at<R: Net>(rt: &R, own: OwnAddress) -> io::Result<UdpSocket> {
    UdpSocket::bind(rt, (own.ip(), 0))
}

/// The socket for polls, and what it reaches: where the host has no IPv6, it is of IPv4.
fn socket_of<R: Net>(rt: &R, reach: Reach) -> io::Result<(UdpSocket, Reach)> {
    let error = match socket_at(rt, reach.own) {
        Ok(socket) => return Ok((socket, reach)),
        Err(error) => error,
    };
    let Some(own) = reach.own.instead(error.raw_os_error()) else {
        return Err(error);
    };
    let socket = socket_at(rt, own)?;
    Ok((
        socket,
        Reach {
            own,
            six_only: reach.six_only,
        },
    ))
}

/// A socket for polls once more, which is bound as the one before.
pub(crate) fn socket_again<R: Net>(rt: &R, reach: Reach) -> io::Result<UdpSocket> {
    socket_at(rt, reach.own)
}

/// The address of each master, in the order of the sources; none of one that has a name.
fn peers_of(
    alloc: Global,
    masters: &[MasterSettings],
) -> Result<Vec<Option<SocketAddr>>, ServerFault>
    ensures value { IfOk result (λ peers. peers.items ≡ map (λ (m : Master). address_of m.address) masters.now) }
{
    let mut peers = Vec::new(alloc);
    for master in masters {
        if peers.push(master.address().socket()).is_err() {
            return Err(ServerFault::Memory);
        }
    }
    Ok(peers)
}

/// What looks up the names of masters and what it finds, if one of them has a name.
fn names_of(
    alloc: Global,
    masters: &[MasterSettings],
    reach: Reach,
    patience: u64,
) -> Result<(Option<Names>, Option<Arc<NameTable, Global>>), ServerFault> {
    if !has_names(masters) {
        return Ok((None, None));
    }
    match Names::new(alloc, masters, reach, patience) {
        Some((names, table)) => Ok((Some(names), Some(table))),
        None => Err(ServerFault::Memory),
    }
}

/// What the socket for polls is to reach.
fn reach_of<R: Files<File = File>>(rt: &R, settings: &Settings) -> Reach {
    Reach {
        own: own_of(settings.masters()),
        six_only: is_six_only(rt),
    }
}

/// The keys that the settings name for each of the masters. Refuses the file of keys, and masters that the socket for polls
/// does not reach.
fn rings_in_file<R: Files<File = File>>(
    rt: &R,
    alloc: Global,
    settings: &Settings,
    reach: Reach,
) -> Result<Vec<Ring>, ServerFault>
    ensures found { IfOk result (λ rings. AreRingsTo settings.now.masters (map keys_in rings.items)) }
{
    let keys = keys_in_file(rt, alloc, settings)?;
    let masters = settings.masters();
    let rings = rings_of(alloc, keys.as_slice(), masters)?;
    check_families(reach, masters)?;
    Ok(rings)
}

/// Refuses what [`link_to`] would refuse of the files that it reads: the file of keys, and masters of both families.
pub(crate) fn check_rings<R: Files<File = File>>(
    rt: &R,
    alloc: Global,
    settings: &Settings,
) -> Result<(), ServerFault> {
    let reach = reach_of(rt, settings);
    match rings_in_file(rt, alloc, settings, reach) {
        Ok(_) => Ok(()),
        Err(fault) => Err(fault),
    }
}

/// The wire to the masters: the keys that the settings name for each of them, and nonces that are ahead by a number of
/// this life.
fn wire_of<R: Files<File = File> + RandomSource>(
    rt: &R,
    alloc: Global,
    settings: &Settings,
    reach: Reach,
) -> Result<Wire, ServerFault>
    ensures wire { IfOk result (λ wire. IsWireTo settings.now.masters wire) }
{
    let rings = rings_in_file(rt, alloc, settings, reach)?;
    let ahead = draw_ahead(rt)?;
    Ok(Wire::new(rings, ahead))
}

/// The link to the masters of the settings, over a wire with the keys that these name for each of them, and what ends its waits.
pub(crate) fn link_to<'a, R: SystemClock + Net + Files<File = File> + RandomSource>(
    rt: &'a R,
    alloc: Global,
    settings: &Settings,
) -> Result<(Polling<'a, R>, Waker), ServerFault>
    ensures wire { IfOk result (λ made. IsWireTo settings.now.masters made.0.link.hearing.wire) }
{
    let masters = settings.masters();
    let reach = reach_of(rt, settings);
    let wire = wire_of(rt, alloc, settings, reach)?;
    let (socket, reach) = match socket_of(rt, reach) {
        Ok(bound) => bound,
        Err(error) => return Err(fault_of(
            error.kind(),
            ServerFault::CannotPoll(Reason::of(&error)),
        )),
    };
    let peers = peers_of(alloc, masters)?;
    let (names, table) = names_of(alloc, masters, reach, patience_of(settings.pauses()))?;
    let wait = Duration::from_nanos(settings.pauses().wait);
    match RoundLink::over(rt, alloc, socket, peers, wait, wire) {
        Ok((link, waker)) => Ok((
            Polling {
                link,
                reach,
                table,
                names,
            },
            waker,
        )),
        Err(error) => Err(fault_of(error.kind(), ServerFault::CannotPoll(Reason::of(&error)))),
    }
}
