//! A socket for packets, and the addresses of its peers, which may become known later.

ghost use Rattle.std.specs.Prelude.{◌≡◌, ◌≤◌, Some, None, length, slice_set, slice_index_or};
ghost use Rattle.tt_rounds.specs.Addresses.{end_of, IsPeerAt, IsStrangerAfter};
ghost use Rattle.tt_rounds.specs.Datagrams.{FitsPacket};
ghost use Rattle.tt_rounds.specs.Sockets.{LooksOnce, SendsOut};

use crate::addresses::{address_over, peer_at, plain_of};
use crate::awaiting::Fate;
use crate::datagrams::{Arrival, look_of};
use crate::links::PACKET_LEN;
use crate::sockets::PacketSocket;
use std::io;
use std::net::{SocketAddr, UdpSocket};

/// A socket, and the addresses of its peers. Peer `i` has the address at place `i`, if it has one. Only the first 256 have
/// a number.
#[derive(Drop)]
pub(crate) struct Hosts<S> {
    socket: S,
    /// Whether the socket is of IPv6.
    is_six: bool,
    addresses: Vec<Option<SocketAddr>>,
    /// The last sender that is no peer.
    stranger: Option<SocketAddr>,
}

/// Whether the socket is of IPv6.
pub(crate) fn is_six(socket: &UdpSocket) -> io::Result<bool> {
    let address = socket.local_addr()?;
    Ok(address.is_ipv6())
}

impl Hosts<UdpSocket> {
    /// The peers with these addresses, over a socket that is of IPv6 or of IPv4.
    pub(crate) fn new(
        socket: UdpSocket,
        is_six: bool,
        addresses: Vec<Option<SocketAddr>>,
    ) -> Hosts<UdpSocket> {
        Hosts {
            socket,
            is_six,
            addresses,
            stranger: None,
        }
    }

    /// The same peers are reached over this socket from now on, which is of IPv6 or of IPv4. The socket before is closed.
    pub(crate) fn replace(&mut self, socket: UdpSocket, is_six: bool)
        ensures addresses { self.new.addresses ≡ self.old.addresses }
    {
        self.socket = socket;
        self.is_six = is_six;
    }
}

impl<S: PacketSocket> Hosts<S> {
    /// The address of the peer, if it has one.
    pub(crate) fn address(&self, peer: u8) -> Option<SocketAddr>
        ensures { result ≡ slice_index_or self.now.addresses.items peer None }
    {
        let address = self.addresses.get(usize::from(peer))?;
        *address
    }

    /// The peer has this address from now on, or none. A peer without a place has none.
    pub(crate) fn set_address(&mut self, peer: u8, address: Option<SocketAddr>)
        ensures { self.new.addresses.items ≡ slice_set self.old.addresses.items peer address }
    {
        let place = usize::from(peer);
        if place < self.addresses.len() {
            self.addresses[place] = address;
        }
    }

    /// The last sender that is no peer, if there was one since the last call.
    pub(crate) fn stranger(&mut self) -> Option<SocketAddr>
        ensures taken { result ≡ self.old.stranger }
        ensures after { self.new.stranger ≡ None }
    {
        self.stranger.take()
    }

    /// The peer with this address. Where none has it, the address is kept as that of a stranger.
    fn sender(&mut self, address: SocketAddr) -> Option<u8>
        ensures peer { IsPeerAt self.old.addresses.items (end_of address) result }
        ensures stranger { IsStrangerAfter result address self.old.stranger self.new.stranger }
        ensures addresses { self.new.addresses ≡ self.old.addresses }
        ensures six { self.new.is_six ≡ self.old.is_six }
        ensures socket { self.new.socket ≡ self.old.socket }
    {
        let peer = peer_at(&self.addresses, address);
        if peer.is_none() {
            self.stranger = Some(plain_of(address));
        }
        peer
    }

    /// Sends the bytes to the address, in the form by which the socket reaches it.
    pub(crate) fn send(&mut self, address: SocketAddr, bytes: &[u8]) -> Fate
        ensures sends { SendsOut S.does self.old.is_six (Some bytes.now) (Some address) self.old.socket self.new.socket }
        ensures addresses { self.new.addresses ≡ self.old.addresses }
        ensures six { self.new.is_six ≡ self.old.is_six }
    {
        match self
            .socket
            .send_packet(address_over(self.is_six, address), bytes)
        {
            Ok(()) => Fate::Went,
            Err(code) => Fate::of(code),
        }
    }

    /// Reads the next packet, and finds the peer with the address of its sender.
    pub(crate) fn look(&mut self, buffer: &mut [u8; PACKET_LEN]) -> Arrival
        ensures whole { length buffer.new ≡ 64 }
        ensures fits { FitsPacket result }
        ensures looks { LooksOnce S.does self.old.addresses.items self.old.socket result buffer.new self.new.socket }
        ensures addresses { self.new.addresses ≡ self.old.addresses }
        ensures six { self.new.is_six ≡ self.old.is_six }
    {
        match self.socket.next_packet(buffer) {
            Ok((length, address)) => Arrival::Came(self.sender(address), length),
            Err(code) => look_of(code),
        }
    }
}
