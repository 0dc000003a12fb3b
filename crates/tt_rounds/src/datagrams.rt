//! What a socket for packets gives, and a link over one for a master.

ghost use Rattle.std.specs.Prelude.{◌≡◌, ◌≤◌, length};
ghost use Rattle.tt_stream.specs.Counts.{HasFailed};
ghost use Rattle.tt_rounds.specs.Datagrams.{FitsPacket, look_of as look_of_code};

use crate::awaiting::Fate;
use crate::faults::LinkFault;
use crate::links::{Link, PACKET_LEN};
use std::net::{SocketAddr, UdpSocket};

/// The most packets from unknown addresses that a call of `receive` of a [`UdpLink`] skips.
pub const MAX_STRANGERS: u32 = 64;

/// What one read of a socket gave.
#[derive(Clone, Copy, Debug, PartialEq, Eq)]
pub(crate) enum Arrival {
    /// A packet of this length, from this peer or from an unknown address.
    Came(Option<u8>, usize),
    /// No packet, but one may be there: a signal ended the call, or it told of an earlier packet that was not delivered.
    Again,
    /// No packet is there.
    Nothing,
    /// The socket failed.
    Failed,
}

/// What a read of a socket gave that ended with this error of the system, if it has a number. Nothing is there for 11
/// (it would block) and 110 (the wait ended). Something may be there after a signal, 4, and after an error that tells of
/// a packet that was sent before: not permitted, 1 and 13, or an answer of the network to it, 64, 71, 90, 92, 95, 100,
/// 101, 104, 111, 112 and 113. After any other error the socket is useless.
pub(crate) fn look_of(code: Option<i32>) -> Arrival
    ensures value { result ≡ look_of_code code }
    ensures fits { FitsPacket result }
{
    match code {
        Some(11 | 110) => Arrival::Nothing,
        Some(1 | 4 | 13 | 64 | 71 | 90 | 92 | 95 | 100 | 101 | 104 | 111 | 112 | 113) => {
            Arrival::Again
        }
        _ => Arrival::Failed,
    }
}

/// A socket, and the addresses of its peers. Peer `i` has the address at place `i`.
#[derive(Drop)]
struct Peers {
    socket: UdpSocket,
    addresses: Vec<SocketAddr>,
}

impl Peers {
    /// The peers with these addresses. Only the first 256 of them have a number.
    fn new(socket: UdpSocket, addresses: Vec<SocketAddr>) -> Peers {
        Peers { socket, addresses }
    }

    /// The address of the peer, if it has one.
    fn address(&self, peer: u8) -> Option<SocketAddr> {
        self.addresses.get(usize::from(peer)).copied()
    }

    /// The peer with this address, if one has it.
    fn peer_at(&self, address: SocketAddr) -> Option<u8> {
        for (place, peer) in self.addresses.iter().enumerate() {
            if *peer == address {
                return u8::try_from(place).ok();
            }
        }
        None
    }

    /// Sends the bytes to the address.
    fn send(&self, address: SocketAddr, bytes: &[u8]) -> Fate {
        match self.socket.send_to(bytes, address) {
            Ok(_) => Fate::Went,
            Err(error) => Fate::of(error.raw_os_error()),
        }
    }

    /// Reads the next packet.
    fn look(&self, buffer: &mut [u8; PACKET_LEN]) -> Arrival
        ensures whole { length buffer.new ≡ 64 }
        ensures fits { FitsPacket result }
    {
        let mut bytes = [0; PACKET_LEN];
        let answer = self.socket.recv_from(&mut bytes);
        *buffer = bytes;
        match answer {
            Ok((length, address)) => Arrival::Came(self.peer_at(address), length.min(PACKET_LEN)),
            Err(error) => look_of(error.raw_os_error()),
        }
    }

    /// Reads packets until one comes from a peer or none is there, at most [`MAX_STRANGERS`].
    fn look_for_peer(&self, buffer: &mut [u8; PACKET_LEN]) -> Arrival
        ensures whole { length buffer.new ≡ 64 }
        ensures fits { FitsPacket result }
    {
        for _ in 0..MAX_STRANGERS {
            match self.look(buffer) {
                Arrival::Came(None, _) => {}
                look => return look,
            }
        }
        *buffer = [0; PACKET_LEN];
        Arrival::Nothing
    }
}

/// A link over a UDP socket. It knows its peers by their addresses: peer `i` has the address at place `i`. It is for a
/// master, and for a program that waits for packets that it did not ask for. [`RoundLink`] is for a daemon.
///
/// A wait for a packet is as long as the socket's read timeout, so set one. If the wait ends, or a signal ends it,
/// nothing came. The link skips a packet from any other address and waits for the next one, up to [`MAX_STRANGERS`]
/// times in one call.
///
/// A packet that cannot be sent to the address of a peer is lost, and no fault: a fault says that the peer has no
/// address, or that the socket is useless. Nothing is claimed about what the socket delivers. If a call answers a fault,
/// it has counted a failure.
///
/// [`RoundLink`]: crate::RoundLink
#[derive(Drop)]
pub struct UdpLink {
    peers: Peers,
    failures: u64,
}

impl UdpLink {
    /// The link over this socket to these peers. Only the first 256 of them have a number.
    pub fn new(socket: UdpSocket, peers: Vec<SocketAddr>) -> UdpLink {
        UdpLink {
            peers: Peers::new(socket, peers),
            failures: 0,
        }
    }

    /// Counts a failure.
    fn fault(&mut self) -> LinkFault
        ensures rose { HasFailed self.old.failures self.new.failures }
    {
        self.failures = self.failures.saturating_add(1);
        LinkFault::Failed
    }
}

impl Link for UdpLink {
    ghost does = { λ _ _ _ _. Unit {0} };

    ghost failed = { λ link. link.failures };

    fn send(&mut self, peer: u8, bytes: &[u8]) -> Result<(), LinkFault> {
        let Some(address) = self.peers.address(peer) else {
            return Err(self.fault());
        };
        match self.peers.send(address, bytes) {
            Fate::Went | Fate::Lost => Ok(()),
            Fate::Broke => Err(self.fault()),
        }
    }

    fn receive(&mut self, buffer: &mut [u8; PACKET_LEN]) -> Result<Option<(u8, usize)>, LinkFault> {
        match self.peers.look_for_peer(buffer) {
            Arrival::Came(Some(peer), length) => Ok(Some((peer, length))),
            Arrival::Came(None, _) | Arrival::Again | Arrival::Nothing => Ok(None),
            Arrival::Failed => Err(self.fault()),
        }
    }

    fn failures(&self) -> u64 {
        self.failures
    }
}
