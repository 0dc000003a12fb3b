//! One request to a server, and the reply to it, over any line to that server.

ghost use Rattle.std.specs.Prelude.{◌≡◌, [], option_copied};
ghost use Rattle.tt_upstream.specs.Exchange.{Step, Drew, Emptied, Sent, Clocked, received_as, exchanged_of, Exchanges, Hears};

use crate::servers::Server;
use tt_ntp::{NtpFault, PacketKey};

/// The most packets of the server that are looked at while a reply is awaited.
const MAX_PACKETS: u32 = 256;

/// The most bytes of a packet that are looked at. No reply is as long.
pub const RECEIVED_LEN: usize = 128;

/// What a look for a packet gave.
#[derive(Clone, Copy)]
pub enum Receipt {
    /// A packet of the server. So many of its bytes are there.
    Came(usize),
    /// No packet. The reply may still come.
    Passing,
    /// No packet, and the wait is over.
    Ended,
}

/// A line to one server: fresh random numbers, a clock, and a socket that takes packets of that server alone.
pub trait Line {
    /// What a call of the line may give, and the line after the call. A real line may give anything.
    ghost does: { Self → Step → Self → Type 0 };

    /// 64 fresh random bits. None where there are none.
    fn draw(&mut self) -> Option<u64>
        ensures { does self.old (Drew result) self.new };

    /// Drops the packets that lie in the socket.
    fn empty(&mut self)
        ensures { does self.old Emptied self.new };

    /// What the machine's clock shows, in nanoseconds. None where it can't be read.
    fn now(&mut self) -> Option<u64>
        ensures { does self.old (Clocked result) self.new };

    /// Sends the request with this nonce. One that can't be sent is lost.
    fn send(&mut self, nonce: u64)
        ensures { does self.old (Sent nonce) self.new };

    /// Puts the next packet at the front of the buffer.
    fn receive(&mut self, buffer: &mut [u8; RECEIVED_LEN]) -> Receipt
        ensures { does self.old (received_as result buffer.new) self.new };
}

/// What asking a server gave.
#[derive(Clone, Copy)]
pub enum Exchange {
    /// Its reply was taken.
    Taken,
    /// Its reply was refused.
    Refused(NtpFault),
    /// No reply came in time.
    Silent,
    /// There were no random numbers, and no request was sent.
    Unasked,
}

/// What a reply that ended the wait gave.
fn exchanged(heard: Result<(), NtpFault>) -> Exchange
    ensures { result ≡ exchanged_of heard }
{
    match heard {
        Ok(()) => Exchange::Taken,
        Err(fault) => Exchange::Refused(fault),
    }
}

/// Asks the server once, and waits for its reply, under the key if there is one: until the clock shows `wait` nanoseconds more, or
/// the line ends the wait.
///
/// The nonce of the request is 64 bits that were drawn for it, and what lay in the socket before is dropped. So only a packet
/// that came after that is heard, and it counts only if it carries this nonce ([`Server::hear`]). At most 256 packets are
/// heard. `Silent` says that none ended the wait, or that the clock could not be read. `Unasked` says that no bits could be drawn;
/// then nothing was sent, and the server is unchanged.
pub fn ask_once<L: Line>(
    line: &mut L,
    key: Option<&PacketKey>,
    wait: u64,
    server: &mut Server,
) -> Exchange
    ensures asks { Exchanges L.does line.old (option_copied key.entry) server.old line.new server.new result }
{
    let Some(nonce) = line.draw() else {
        return Exchange::Unasked;
    };
    line.empty();
    let Some(sent) = line.now() else {
        return Exchange::Silent;
    };
    server.ask(nonce, sent);
    line.send(nonce);
    hear(line, key, sent.saturating_add(wait), server)
}

/// Hears packets of the server until one ends the wait, or the clock shows `end`, or the line ends the wait.
fn hear<L: Line>(line: &mut L, key: Option<&PacketKey>, end: u64, server: &mut Server) -> Exchange
    ensures { Hears L.does line.old [] (option_copied key.entry) server.old line.new server.new result }
{
    let mut buffer = [0; RECEIVED_LEN];
    for _ in 0..MAX_PACKETS {
        match line.receive(&mut buffer) {
            Receipt::Came(length) => {
                let Some(now) = line.now() else {
                    return Exchange::Silent;
                };
                let heard = server.hear(&buffer[..length.min(RECEIVED_LEN)], key, now);
                if !server.is_awaited() {
                    return exchanged(heard);
                }
                if now >= end {
                    return Exchange::Silent;
                }
            }
            Receipt::Passing => {}
            Receipt::Ended => return Exchange::Silent,
        }
    }
    Exchange::Silent
}
