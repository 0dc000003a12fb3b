//! The link of a master to the senders of polls.

ghost use Rattle.std.specs.Prelude.{◌≡◌};
ghost use Rattle.tt_stream.specs.Counts.{HasFailed};
ghost use Rattle.ttd_masters.specs.Packets.{is_passing};

use std::io::ErrorKind;
use std::net::{SocketAddr, UdpSocket};
use tt_rounds::{Link, LinkFault, PACKET_LEN};

/// Whether a failed receipt says only that nothing came, or that an earlier packet did not arrive. The socket is as good
/// as before.
fn is_passing(kind: ErrorKind) -> bool
    ensures { result ≡ is_passing kind }
{
    matches!(
        kind,
        ErrorKind::ConnectionRefused
            | ErrorKind::ConnectionReset
            | ErrorKind::HostUnreachable
            | ErrorKind::NetworkUnreachable
            | ErrorKind::NetworkDown
            | ErrorKind::WouldBlock
            | ErrorKind::Interrupted
    )
}

/// A link over a UDP socket. It sends to the sender of the last packet, which is peer 0. It ignores a packet from
/// outside this host, as if nothing had come, unless it is made for senders of any host. A wait for a packet ends with a
/// packet, a failure, or the read timeout of the socket. A packet that can't be sent is a lost packet.
///
/// Nothing is claimed of what the socket delivers. If it answers a fault, it has counted a failure: the socket itself is
/// useless.
#[derive(Drop)]
pub(crate) struct AnsweringLink {
    socket: UdpSocket,
    is_for_all: bool,
    sender: Option<SocketAddr>,
    answers: u64,
    failures: u64,
}

impl AnsweringLink {
    /// The link over this socket, for senders of any host or of this host alone.
    pub(crate) fn new(socket: UdpSocket, is_for_all: bool) -> AnsweringLink {
        AnsweringLink {
            socket,
            is_for_all,
            sender: None,
            answers: 0,
            failures: 0,
        }
    }

    /// How many answers it has sent, at most 2^64 - 1.
    pub(crate) fn answers(&self) -> u64
        ensures { result ≡ self.now.answers }
    {
        self.answers
    }

    /// Counts a failure.
    fn fault(&mut self) -> LinkFault
        ensures rose { HasFailed self.old.failures self.new.failures }
    {
        self.failures = self.failures.saturating_add(1);
        LinkFault::Failed
    }
}

impl Link for AnsweringLink {
    ghost does = { λ _ _ _ _. Unit {0} };

    ghost failed = { λ link. link.failures };

    fn send(&mut self, _peer: u8, bytes: &[u8]) -> Result<(), LinkFault> {
        if let Some(address) = self.sender {
            let _ = self.socket.send_to(bytes, address);
            self.answers = self.answers.saturating_add(1);
        }
        Ok(())
    }

    fn receive(&mut self, buffer: &mut [u8; PACKET_LEN]) -> Result<Option<(u8, usize)>, LinkFault> {
        let mut bytes = [0; PACKET_LEN];
        let came = self.socket.recv_from(&mut bytes);
        *buffer = bytes;
        match came {
            Ok((length, address)) if self.is_for_all || address.ip().is_loopback() => {
                self.sender = Some(address);
                Ok(Some((0, length.min(PACKET_LEN))))
            }
            Ok(_) => Ok(None),
            Err(error) if is_passing(error.kind()) => Ok(None),
            Err(_) => Err(self.fault()),
        }
    }

    fn failures(&self) -> u64 {
        self.failures
    }
}
