//! A link for the rounds of a daemon.

ghost use Rattle.std.specs.Prelude.{◌≡◌, ◌↔◌, ◌≤◌, List, Option, true, false, None, is_some, count_by, replicate, length, slice_set, IsErr, IfSome, IfOk, OnOk, OnErr};
ghost use Rattle.std.specs.Duration.{as_nanos};
ghost use Rattle.tt_stream.specs.Counts.{HasFailed};
ghost use Rattle.tt_wire.specs.Wire.{open_wire};
ghost use Rattle.tt_rounds.specs.Awaiting.{full_slot, slot_at, slot_sent, unsent_at, unsent_after};
ghost use Rattle.tt_rounds.specs.Hearing.{opening_at};
ghost use Rattle.tt_rounds.specs.RoundLinks.{DoesOver, FitsDrained, Reads, goes_on as goes_on_after, nanos_left};
ghost use Rattle.tt_rounds.specs.Sockets.{Datagram, Looks, SendsOver};

use crate::awaiting::{Fate, PeerTable};
use crate::datagrams::Arrival;
use crate::faults::LinkFault;
use crate::hosts::{Hosts, is_six};
use crate::links::{Link, PACKET_LEN, put};
use crate::sockets::PacketSocket;
use mio::unix::SourceFd;
use mio::{Events, Interest, Poll, Token, Waker};
use std::alloc::Global;
use std::io::{self, ErrorKind};
use std::net::{Net, SocketAddr, UdpSocket};
use std::os::fd::AsRawFd;
use std::time::{Clock as SystemClock, Duration};
use tt_wire::Wire;

/// The most packets that a [`RoundLink`] drops when a round begins.
pub const MAX_DROPPED: u32 = 1024;

/// The most packets that a [`RoundLink`] reads before it looks at the clock again.
const MAX_READ: u32 = 64;

/// The most events of one wait: one of the socket, and one of the waker.
const MAX_EVENTS: usize = 2;

/// The names of the two in events.
const SOCKET: Token = Token(0);

const WAKER: Token = Token(1);

/// What reading packets gave.
#[derive(Clone, Copy, Debug, PartialEq, Eq)]
enum Drained {
    /// A packet of this peer, of this length, which is handed up.
    Handed(u8, usize),
    /// None that is handed up, and no more is there.
    Empty,
    /// None that is handed up, and more may be there.
    More,
    /// The socket failed.
    Failed,
}

/// Whether the link goes on after this reading: it handed up nothing, and the socket did not fail.
fn goes_on(drained: Drained) -> bool
    ensures { result ≡ goes_on_after drained }
{
    match drained {
        Drained::Handed(_, _) | Drained::Failed => false,
        Drained::Empty | Drained::More => true,
    }
}

/// Reads packets until one is handed up, or none is there. Reads at most [`MAX_READ`]. What is handed up is the message of
/// a packet that opened, and that the socket gave last.
fn drain<S: PacketSocket>(
    hosts: &mut Hosts<S>,
    wire: &Wire,
    table: &mut PeerTable,
    buffer: &mut [u8; PACKET_LEN],
) -> Drained
    ensures whole { length buffer.new ≡ 64 }
    ensures fits { FitsDrained result }
    ensures reads { Reads S.does hosts.old.addresses.items wire.now table.old hosts.old.socket result buffer.new table.new hosts.new.socket }
    ensures addresses { hosts.new.addresses ≡ hosts.old.addresses }
    ensures six { hosts.new.is_six ≡ hosts.old.is_six }
{
    let mut bytes = [0; PACKET_LEN];
    *buffer = [0; PACKET_LEN];
    for _ in 0..MAX_READ {
        match hosts.look(&mut bytes) {
            Arrival::Came(from, length) => {
                if let Some((peer, message)) = table.hear(wire, from, &bytes[..length]) {
                    return Drained::Handed(peer, put(&message, buffer));
                }
            }
            Arrival::Again => {}
            Arrival::Nothing => return Drained::Empty,
            Arrival::Failed => return Drained::Failed,
        }
    }
    Drained::More
}

/// How long a wait that ends at `end` still lasts at this reading of the clock. None if it is over, or if the clock gave
/// no reading.
fn time_left(end: Option<Duration>, now: io::Result<Duration>) -> Option<Duration>
    ensures left { IfSome result (λ left. as_nanos left ≡ nanos_left end now) }
    ensures over { result ≡ None ↔ (nanos_left end now ≡ 0) }
{
    let left = end?.saturating_sub(now.ok()?);
    if left.is_zero() { None } else { Some(left) }
}

/// The socket with what its rounds keep.
#[derive(Drop)]
struct Hearing<'a, R, S> {
    rt: &'a R,
    hosts: Hosts<S>,
    wire: Wire,
    table: PeerTable,
    poll: Poll,
    events: Events,
    /// How long all waits of a round last together.
    wait: Duration,
    /// When the waits of this round end, by the clock of the system.
    end: Option<Duration>,
    /// Whether the last call was to send a packet, and went well.
    sending: bool,
    /// Whether the waker was seen.
    woken: bool,
}

impl<'a, R: SystemClock, S: PacketSocket> Hearing<'a, R, S> {
    /// Begins a round: drops the packets that are there, and sets the time.
    fn begin(&mut self)
        ensures table { self.new.table ≡ record self.old.table { slots = replicate 256 full_slot } }
        ensures wire { self.new.wire ≡ self.old.wire }
        ensures begun { self.new.sending ≡ true }
        ensures addresses { self.new.hosts.addresses ≡ self.old.hosts.addresses }
        ensures six { self.new.hosts.is_six ≡ self.old.hosts.is_six }
        ensures looks { (gave : List (Option Datagram)) × Looks S.does self.old.hosts.socket gave self.new.hosts.socket }
    {
        let mut bytes = [0; PACKET_LEN];
        for _ in 0..MAX_DROPPED {
            match self.hosts.look(&mut bytes) {
                Arrival::Came(_, _) | Arrival::Again => {}
                Arrival::Nothing | Arrival::Failed => break,
            }
        }
        self.table.begin();
        self.end = match self.rt.monotonic() {
            Ok(now) => now.checked_add(self.wait),
            Err(_) => None,
        };
        self.sending = true;
    }

    /// Begins a round, unless one has begun.
    fn begin_once(&mut self)
        ensures begins { self.old.sending ≡ false → self.new.table ≡ record self.old.table { slots = replicate 256 full_slot } }
        ensures goes_on { self.old.sending ≡ true → self.new.table ≡ self.old.table }
        ensures wire { self.new.wire ≡ self.old.wire }
        ensures begun { self.new.sending ≡ true }
        ensures addresses { self.new.hosts.addresses ≡ self.old.hosts.addresses }
        ensures six { self.new.hosts.is_six ≡ self.old.hosts.is_six }
        ensures looks { (gave : List (Option Datagram)) × Looks S.does self.old.hosts.socket gave self.new.hosts.socket }
    {
        if !self.sending {
            self.begin();
        }
    }

    /// Sends a message to the peer, in a round that began: its nonce moved, and sealed where the peer has keys. A message
    /// that does not fit is lost, and so is one to a peer without an address.
    fn send(&mut self, peer: u8, bytes: &[u8]) -> Fate
        ensures begins { self.old.sending ≡ false → self.new.table ≡ record self.old.table { slots = replicate 256 full_slot } }
        ensures goes_on { self.old.sending ≡ true → self.new.table ≡ self.old.table }
        ensures wire { self.new.wire ≡ self.old.wire }
        ensures begun { self.new.sending ≡ true }
        ensures addresses { self.new.hosts.addresses ≡ self.old.hosts.addresses }
        ensures six { self.new.hosts.is_six ≡ self.old.hosts.is_six }
        ensures sends { SendsOver S.does self.old.wire self.old.hosts.is_six self.old.hosts.addresses.items (record { peer = peer; bytes = bytes.now }) self.old.hosts.socket self.new.hosts.socket }
    {
        self.begin_once();
        let Some(packet) = self.wire.outgoing(peer, bytes) else {
            return Fate::Lost;
        };
        match self.hosts.address(peer) {
            Some(address) => self.hosts.send(address, &packet),
            None => Fate::Lost,
        }
    }

    /// Waits until a packet may be there, but not longer than this. Answers whether the wait went well.
    fn pause(&mut self, left: Duration) -> bool
        ensures table { self.new.table ≡ self.old.table }
        ensures wire { self.new.wire ≡ self.old.wire }
        ensures hosts { self.new.hosts ≡ self.old.hosts }
        ensures woken { self.old.woken ≡ true → self.new.woken ≡ true }
    {
        if self.poll.poll(&mut self.events, Some(left)).is_err() {
            return false;
        }
        if self.events.iter().any(|event| event.token() == WAKER) {
            self.woken = true;
        }
        true
    }

    /// Waits for the next packet that is handed up, while a peer is awaited and time is left.
    fn next(&mut self, buffer: &mut [u8; PACKET_LEN]) -> Drained
        ensures whole { length buffer.new ≡ 64 }
        ensures fits { FitsDrained result }
        ensures reads { Reads S.does self.old.hosts.addresses.items self.old.wire self.old.table self.old.hosts.socket result buffer.new self.new.table self.new.hosts.socket }
        ensures wire { self.new.wire ≡ self.old.wire }
        ensures addresses { self.new.hosts.addresses ≡ self.old.hosts.addresses }
        ensures six { self.new.hosts.is_six ≡ self.old.hosts.is_six }
        ensures none_awaited { count_by (λ slot. is_some slot.poll) self.old.table.slots ≡ 0 → result ≡ Drained.Empty }
        ensures woken { self.old.woken ≡ true → result ≡ Drained.Empty }
    {
        for _ in 0..u64::MAX {
            if self.woken || self.table.awaited() == 0 {
                return Drained::Empty;
            }
            let drained = drain(&mut self.hosts, &self.wire, &mut self.table, buffer);
            if !goes_on(drained) {
                return drained;
            }
            let Some(left) = time_left(self.end, self.rt.monotonic()) else {
                return Drained::Empty;
            };
            if drained == Drained::Empty && !self.pause(left) {
                return Drained::Failed;
            }
        }
        Drained::Empty
    }
}

/// A link over UDP for the rounds of a daemon. It knows its peers by their addresses: peer `i` has the address at place
/// `i`, where it is known. An IPv4 address is the same whether it stands in IPv6 or not, so one socket of IPv6 serves
/// peers of both.
///
/// Messages go over its [`Wire`]: their nonces are moved, and they are sealed under the first key of a peer that has keys.
/// A packet from a peer is opened first. If it does not open under a key of this peer, it is counted
/// ([`RoundLink::unopened`]) and changes nothing else: it ends no wait, takes no turn, and is not handed up. What follows
/// speaks of the messages of the packets that open.
///
/// A round begins with the first packet that is sent after a `receive` or after a fault. Then the link drops the packets
/// that still wait in the socket, at most [`MAX_DROPPED`]. So an answer that came too late takes no turn of a later
/// round.
///
/// A peer is awaited if a poll was sent to it in this round, and no answer to this poll has come from it since: an
/// answer is a message of TTP2 with the machine, the source, the nonce and the epoch of the poll. `receive` waits only
/// while a peer is awaited. All waits of a round share one time, the `wait` of [`RoundLink::new`], from the beginning of
/// the round by the clock of the system. If the clock cannot be read, the link does not wait.
///
/// In a round, `receive` hands up at most [`TURNS_PER_PEER`] packets of each peer: the answer to its poll, and up to
/// three others. It drops the others beyond these, and all packets of other addresses, of which it keeps the last one's
/// ([`RoundLink::stranger`]). So what is sent from one address takes no turn of another peer, and what others send takes
/// none of the answer's.
///
/// A packet that cannot be sent to a peer, whatever the reason, is lost: `send` answers that all is well, the peer is
/// not awaited, and [`RoundLink::unsent`] counts the packet. So is a packet to a peer that has no address. A fault says
/// that the socket itself is useless. [`RoundLink::renew`] goes on over another one.
///
/// What the socket did is said by the ghost member of its trait, of which a real socket claims nothing. So nothing is
/// claimed about what the network delivers, or about time. If a call answers a fault, it has counted a
/// failure.
///
/// [`TURNS_PER_PEER`]: crate::TURNS_PER_PEER
#[derive(Drop)]
pub struct RoundLink<'a, R, S> {
    hearing: Hearing<'a, R, S>,
    failures: u64,
}

impl<'a, R: SystemClock> RoundLink<'a, R, UdpSocket> {
    /// The link over this socket to these peers, of which none has keys, as [`RoundLink::over`] with an open wire.
    pub fn new(
        rt: &'a R,
        alloc: Global,
        socket: UdpSocket,
        peers: Vec<SocketAddr>,
        wait: Duration,
    ) -> io::Result<(RoundLink<'a, R, UdpSocket>, Waker)>
    where
        R: Net,
        ensures wire { IfOk result (λ made. made.0.hearing.wire ≡ open_wire) }
    {
        let mut addresses = Vec::new(alloc);
        for peer in &peers {
            if addresses.push(Some(*peer)).is_err() {
                return Err(io::Error::from(ErrorKind::OutOfMemory));
            }
        }
        RoundLink::over(rt, alloc, socket, addresses, wait, Wire::open(alloc))
    }

    /// The link over this socket and this wire to these peers, and a waker: once it was woken, the link waits no more. The
    /// waker may be dropped. A peer without an address is sent nothing until it gets one ([`RoundLink::set_address`]). Only
    /// the first 256 peers have a number. All waits of a round together are as long as `wait`, rounded up to milliseconds.
    ///
    /// The call makes the socket non-blocking. Refuses with the error of the system if this fails, if the socket has no
    /// address of its own, or if the socket and the waker cannot be waited for, and with `OutOfMemory` if an allocation
    /// fails.
    pub fn over(
        rt: &'a R,
        alloc: Global,
        socket: UdpSocket,
        peers: Vec<Option<SocketAddr>>,
        wait: Duration,
        wire: Wire,
    ) -> io::Result<(RoundLink<'a, R, UdpSocket>, Waker)>
    where
        R: Net,
        ensures wire { IfOk result (λ made. made.0.hearing.wire ≡ wire) }
    {
        let events = match Events::with_capacity(alloc, MAX_EVENTS) {
            Ok(events) => events,
            Err(_) => return Err(io::Error::from(ErrorKind::OutOfMemory)),
        };
        let poll = Poll::new(rt)?;
        let waker = Waker::new(poll.registry(), WAKER)?;
        let is_six = is_six(&socket)?;
        listen(&poll, &socket)?;
        let link = RoundLink {
            hearing: Hearing {
                rt,
                hosts: Hosts::new(socket, is_six, peers),
                wire,
                table: PeerTable::new(),
                poll,
                events,
                wait,
                end: None,
                sending: false,
                woken: false,
            },
            failures: 0,
        };
        Ok((link, waker))
    }

    /// Keeps the wire and the count of failures. It goes on over this socket, to the same peers, with a new round. The
    /// call makes the socket non-blocking. Refuses with the error of the system if this fails, if the socket has no address
    /// of its own, or if it cannot be waited for; then nothing has changed.
    pub fn renew(&mut self, socket: UdpSocket) -> io::Result<()>
        ensures same { self.new.failures ≡ self.old.failures }
        ensures wire { self.new.hearing.wire ≡ self.old.hearing.wire }
        ensures addresses { self.new.hearing.hosts.addresses ≡ self.old.hearing.hosts.addresses }
        ensures table { OnOk result (self.new.hearing.table ≡ record self.old.hearing.table { slots = replicate 256 full_slot }) }
        ensures round { OnOk result (self.new.hearing.sending ≡ false) }
        ensures refused { OnErr result (self.new ≡ self.old) }
    {
        let is_six = is_six(&socket)?;
        listen(&self.hearing.poll, &socket)?;
        // The old socket is closed here, which ends the waits for it.
        self.hearing.hosts.replace(socket, is_six);
        self.hearing.table.begin();
        self.hearing.sending = false;
        Ok(())
    }
}

impl<'a, R: SystemClock, S: PacketSocket> RoundLink<'a, R, S> {
    /// The peer has this address from now on, or none. Nothing changes for a number that no peer of [`RoundLink::over`]
    /// has.
    pub fn set_address(&mut self, peer: u8, address: Option<SocketAddr>)
        ensures addresses { self.new.hearing.hosts.addresses.items ≡ slice_set self.old.hearing.hosts.addresses.items peer address }
        ensures table { self.new.hearing.table ≡ self.old.hearing.table }
        ensures wire { self.new.hearing.wire ≡ self.old.hearing.wire }
        ensures same { self.new.failures ≡ self.old.failures }
    {
        self.hearing.hosts.set_address(peer, address);
    }

    /// How many packets from this peer did not open so far, each at most 2^64 - 1: for 2201 `Length`, 2202 `UnknownKey`
    /// and 2203 `WrongTag`, in this order. Those that are dropped when a round begins are not counted.
    pub fn unopened(&self, peer: u8) -> [u64; 3]
        ensures { result ≡ (opening_at self.now.hearing.table.openings peer).unopened }
    {
        self.hearing.table.unopened(peer)
    }

    /// The number of the key under which the last packet from this peer opened. None where none opened so far, or the peer
    /// has no keys.
    pub fn opened(&self, peer: u8) -> Option<u32>
        ensures { result ≡ (opening_at self.now.hearing.table.openings peer).number }
    {
        self.hearing.table.opened(peer)
    }

    /// The last sender that is no peer, if there was one since the last call, by its plain address ([`plain_of`]).
    ///
    /// [`plain_of`]: crate::plain_of
    pub fn stranger(&mut self) -> Option<SocketAddr>
        ensures taken { result ≡ self.old.hearing.hosts.stranger }
        ensures after { self.new.hearing.hosts.stranger ≡ None }
        ensures table { self.new.hearing.table ≡ self.old.hearing.table }
        ensures wire { self.new.hearing.wire ≡ self.old.hearing.wire }
        ensures same { self.new.failures ≡ self.old.failures }
    {
        self.hearing.hosts.stranger()
    }

    /// How many packets to this peer could not be sent so far, at most 2^64 - 1.
    pub fn unsent(&self, peer: u8) -> u64
        ensures { result ≡ unsent_at self.now.hearing.table.unsent peer }
    {
        self.hearing.table.unsent(peer)
    }

    /// Counts a failure. The next packet that is sent begins a round.
    fn fault(&mut self) -> LinkFault
        ensures rose { HasFailed self.old.failures self.new.failures }
        ensures over { self.new.hearing.sending ≡ false }
        ensures table { self.new.hearing.table ≡ self.old.hearing.table }
        ensures wire { self.new.hearing.wire ≡ self.old.hearing.wire }
        ensures hosts { self.new.hearing.hosts ≡ self.old.hearing.hosts }
    {
        self.hearing.sending = false;
        self.failures = self.failures.saturating_add(1);
        LinkFault::Failed
    }

    /// Notes what became of these bytes, which were to be sent to the peer. A packet that was lost is no fault.
    fn settle(&mut self, peer: u8, bytes: &[u8], fate: Fate) -> Result<(), LinkFault>
        ensures lost { IsErr result ↔ (fate ≡ Fate.Broke) }
        ensures wire { self.new.hearing.wire ≡ self.old.hearing.wire }
        ensures hosts { self.new.hearing.hosts ≡ self.old.hearing.hosts }
        ensures slots { self.new.hearing.table.slots ≡ slice_set self.old.hearing.table.slots peer (slot_sent fate bytes.now (slot_at self.old.hearing.table.slots peer)) }
        ensures unsent { self.new.hearing.table.unsent ≡ slice_set self.old.hearing.table.unsent peer (unsent_after fate (unsent_at self.old.hearing.table.unsent peer)) }
        ensures sound { OnOk result (self.new.failures ≡ self.old.failures) }
        ensures cause { OnErr result (HasFailed self.old.failures self.new.failures × (self.new.hearing.sending ≡ false)) }
    {
        self.hearing.table.sent(peer, bytes, fate);
        match fate {
            Fate::Went | Fate::Lost => Ok(()),
            Fate::Broke => Err(self.fault()),
        }
    }
}

/// Makes the socket non-blocking, and has the poll wait for its packets.
fn listen(poll: &Poll, socket: &UdpSocket) -> io::Result<()> {
    socket.set_nonblocking(true)?;
    let number = socket.as_raw_fd();
    poll.registry()
        .register(&mut SourceFd(&number), SOCKET, Interest::READABLE)
}

impl<'a, R: SystemClock, S: PacketSocket> Link for RoundLink<'a, R, S> {
    ghost does = { λ before call gift after. DoesOver S.does (record { wire = before.hearing.wire; addresses = before.hearing.hosts.addresses.items; is_six = before.hearing.hosts.is_six; socket = before.hearing.hosts.socket }) call gift (record { wire = after.hearing.wire; addresses = after.hearing.hosts.addresses.items; is_six = after.hearing.hosts.is_six; socket = after.hearing.hosts.socket }) };

    ghost failed = { λ link. link.failures };

    fn send(&mut self, peer: u8, bytes: &[u8]) -> Result<(), LinkFault> {
        let fate = self.hearing.send(peer, bytes);
        self.settle(peer, bytes, fate)
    }

    fn receive(&mut self, buffer: &mut [u8; PACKET_LEN]) -> Result<Option<(u8, usize)>, LinkFault> {
        self.hearing.sending = false;
        match self.hearing.next(buffer) {
            Drained::Handed(peer, length) => Ok(Some((peer, length))),
            Drained::Empty => Ok(None),
            Drained::More => Ok(None),
            Drained::Failed => Err(self.fault()),
        }
    }

    fn failures(&self) -> u64 {
        self.failures
    }
}
