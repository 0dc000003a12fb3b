//! Sockets that packets go and come by.

ghost use Rattle.std.specs.Prelude.{◌≡◌, ◌≤◌, length, IfOk};
ghost use Rattle.tt_rounds.specs.Sockets.{SocketStep, Sent, Gave, gave_as};

use crate::links::PACKET_LEN;
use std::net::{SocketAddr, UdpSocket};

/// A device that sends packets to addresses, and gives those that came.
pub trait PacketSocket {
    /// What a call of the socket may do, and the socket after the call. A real socket may do anything.
    ghost does: { Self → SocketStep → Self → Type 0 };

    /// Sends the bytes to the address. Refuses with the number of the system's error, if it has one.
    fn send_packet(&mut self, address: SocketAddr, bytes: &[u8]) -> Result<(), Option<i32>>
        ensures did { does self.old (Sent (record { address = address; bytes = bytes.now })) self.new };

    /// Puts the next packet at the front of the buffer. Answers its length and the address of its sender. If a packet is
    /// longer than the buffer, only its first bytes come. Refuses with the number of the system's error, if it has one.
    fn next_packet(
        &mut self,
        buffer: &mut [u8; PACKET_LEN],
    ) -> Result<(usize, SocketAddr), Option<i32>>
        ensures did { does self.old (Gave (gave_as result buffer.new)) self.new }
        ensures whole { length buffer.new ≡ 64 }
        ensures fits { IfOk result (λ came. came.0 ≤ 64) };
}

impl PacketSocket for UdpSocket {
    ghost does = { λ _ _ _. Unit {0} };

    fn send_packet(&mut self, address: SocketAddr, bytes: &[u8]) -> Result<(), Option<i32>> {
        match self.send_to(bytes, address) {
            Ok(_) => Ok(()),
            Err(error) => Err(error.raw_os_error()),
        }
    }

    fn next_packet(
        &mut self,
        buffer: &mut [u8; PACKET_LEN],
    ) -> Result<(usize, SocketAddr), Option<i32>> {
        let mut bytes = [0; PACKET_LEN];
        let answer = self.recv_from(&mut bytes);
        *buffer = bytes;
        match answer {
            Ok((length, address)) => Ok((length.min(PACKET_LEN), address)),
            Err(error) => Err(error.raw_os_error()),
        }
    }
}
