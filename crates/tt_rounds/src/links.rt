//! Links: how packets are sent and received.

ghost use Rattle.std.specs.Prelude.{◌≡◌, ◌≤◌, ℕ, length, take, IfOk, IfSome, OnOk, OnErr};
ghost use Rattle.tt_stream.specs.Counts.{HasFailed};
ghost use Rattle.tt_rounds.specs.Link.{Call, Gift, Send, Receive, sent_as, came_as};

use crate::faults::LinkFault;

/// The most bytes of a packet that are received.
pub const PACKET_LEN: usize = 64;

/// A device that sends and receives packets. The peers of a daemon are its sources. The peers of a master are the
/// programs that poll it.
pub trait Link {
    /// What a call of the link may give, and the link after the call. A link that keeps its packets says here which it
    /// gives. A real device may give anything.
    ghost does: { Self → Call → Gift → Self → Type 0 };

    /// Its failures so far. The count stays at 2^64 - 1 once it is reached.
    ghost failed: { Self → ℕ };

    /// Sends the bytes to a peer. A fault is answered only if the link failed.
    fn send(&mut self, peer: u8, bytes: &[u8]) -> Result<(), LinkFault>
        ensures did { does self.old (Send (record { peer = peer; bytes = bytes.now })) (sent_as result) self.new }
        ensures sound { OnOk result (failed self.new ≡ failed self.old) }
        ensures cause { OnErr result (HasFailed (failed self.old) (failed self.new)) };

    /// Puts the next packet at the front of the buffer. Answers the peer that it came from, and its length. `None` says
    /// that nothing came. If a packet is longer than the buffer, only its first bytes come. A fault is answered only if
    /// the link failed.
    fn receive(&mut self, buffer: &mut [u8; PACKET_LEN]) -> Result<Option<(u8, usize)>, LinkFault>
        ensures did { does self.old Receive (came_as result buffer.new) self.new }
        ensures whole { length buffer.new ≡ 64 }
        ensures fits { IfOk result (λ came. IfSome came (λ packet. packet.1 ≤ 64)) }
        ensures sound { OnOk result (failed self.new ≡ failed self.old) }
        ensures cause { OnErr result (HasFailed (failed self.old) (failed self.new)) };

    /// Its failures so far, at most 2^64 - 1.
    fn failures(&self) -> u64
        ensures { result ≡ failed self.now };
}

/// Puts the bytes at the front of the buffer, with zeros behind them. Answers their count.
pub(crate) fn put(bytes: &[u8], buffer: &mut [u8; PACKET_LEN]) -> usize
    requires short { length bytes.now ≤ 64 }
    ensures front { take result buffer.new ≡ bytes.now }
    ensures whole { length buffer.new ≡ 64 }
    ensures fits { result ≤ 64 }
{
    let mut packet = [0; PACKET_LEN];
    packet[..bytes.len()].copy_from_slice(bytes);
    *buffer = packet;
    bytes.len()
}
