//! Packets in transit between machines and sources.

ghost use Rattle.std.specs.Prelude.{◌≡◌};
ghost use Rattle.tt_world.specs.Packet.{machine_of_packet, is_asked};

use crate::events::Payload;
use tt_poll::{Answer2, Request2};

/// A packet between a machine and a source.
#[derive(Drop)]
pub enum Packet {
    /// A machine's request.
    Asked(Request2),
    /// A source's answer to a request.
    Answered(Answer2),
    /// Bytes that a source made up.
    Forged {
        machine: u8,
        source: u8,
        payload: Payload,
    },
}

impl Packet {
    /// The machine that it goes to or comes from.
    pub fn machine(&self) -> u8
        ensures { result ≡ machine_of_packet self.now }
    {
        match self {
            Packet::Asked(request) => request.machine(),
            Packet::Answered(answer) => answer.machine(),
            Packet::Forged { machine, .. } => *machine,
        }
    }

    /// Whether it is a request.
    pub fn is_request(&self) -> bool
        ensures { result ≡ is_asked self.now }
    {
        matches!(self, Packet::Asked(_))
    }
}
