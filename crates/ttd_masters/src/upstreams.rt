//! NTP servers above a master: for each a socket by which it is asked, and what is known of it.

ghost use Rattle.std.specs.Prelude.{◌≡◌};
ghost use Rattle.ttd_masters.specs.Upstreams.{exchange_event, every_of as pause_between, is_failure, is_passing_receipt, put_off_by, silences_after};

use crate::hosts::AsksServers;
use std::alloc::{AllocError, Global};
use std::io::{self, ErrorKind};
use std::net::{Ipv4Addr, Ipv6Addr, SocketAddr, UdpSocket};
use std::sync::{Arc, Mutex, Wait};
use std::thread;
use std::time::{Clock as SystemClock, Duration};
use tt_clock::reading_of;
use tt_host::{Sleep, SleepWatch};
use tt_ntp::{PacketKey, encode_keyed, encode_request};
use tt_report::Reporter;
use tt_status::LogEvent;
use tt_upstream::{Exchange, Line, Plan, RECEIVED_LEN, Receipt, Server, ask_once};

/// The most packets that are dropped before a request. More do not lie in a socket.
const MAX_STALE: u32 = 1_024;

/// After so many requests in a row without a reply the socket is made anew.
const MAX_SILENCES: u32 = 4;

/// How long the reply of a server on this host is waited for, in milliseconds. The polls of machines wait meanwhile.
const NEAR_WAIT: u64 = 4;

/// How long the reply of a server on another host is waited for, in milliseconds.
const FAR_WAIT: u64 = 1_000;

/// How long a server on this host is left alone after a silence, in nanoseconds. Polls are answered by what is known meanwhile.
const NEAR_REST: u64 = 100_000_000;

/// How long a server is left alone where no request could be sent, in nanoseconds.
const UNSENT_REST: u64 = 1_000_000_000;

/// The number that the log names where there are no random numbers.
const NO_RANDOM: u64 = 1829;

/// The longest sleep of a thread that asks a server, in nanoseconds.
const LONGEST_SLEEP: u64 = 1_000_000_000;

/// The pause between two requests to a server on this host, in nanoseconds, where none was given: it is asked for each poll,
/// and at most 1,000 times a second.
const NEAR_EVERY: u64 = 1_000_000;

/// The pause between two requests to a server on another host, in nanoseconds, where none was given.
const FAR_EVERY: u64 = 64_000_000_000;

/// What is known of a server, which the thread that asks it and the thread that answers polls share.
pub(crate) type SharedServer = Arc<Mutex<Server>, Global>;

/// The pause between two requests, in nanoseconds: what was given, or else by whether the server is on this host.
pub(crate) fn every_of(given: Option<u64>, is_near: bool) -> u64
    ensures { result ≡ pause_between given is_near }
{
    match given {
        Some(every) => every,
        None => { if is_near { NEAR_EVERY } else { FAR_EVERY } }
    }
}

/// Whether a failed receipt says nothing of the reply that is awaited.
fn is_passing(kind: ErrorKind) -> bool
    ensures { result ≡ is_passing_receipt kind }
{
    matches!(
        kind,
        ErrorKind::ConnectionReset
            | ErrorKind::HostUnreachable
            | ErrorKind::NetworkUnreachable
            | ErrorKind::NetworkDown
            | ErrorKind::Interrupted
    )
}

/// The clock reading before which the server is not asked again after this exchange, in nanoseconds.
fn put_off(exchange: Exchange, is_near: bool, now: u64) -> u64
    ensures { result ≡ put_off_by exchange is_near now }
{
    match exchange {
        Exchange::Silent => {
            if is_near {
                now.saturating_add(NEAR_REST)
            } else {
                0
            }
        }
        Exchange::Unasked => now.saturating_add(UNSENT_REST),
        Exchange::Taken | Exchange::Refused(_) => 0,
    }
}

/// How many requests in a row had no reply, with this exchange.
fn silences_with(exchange: Exchange, silences: u32) -> u32
    ensures { result ≡ silences_after exchange silences }
{
    match exchange {
        Exchange::Silent => silences.saturating_add(1),
        Exchange::Unasked => silences,
        Exchange::Taken | Exchange::Refused(_) => 0,
    }
}

/// Whether a request came to nothing.
fn is_failure(exchange: Exchange) -> bool
    ensures { result ≡ is_failure exchange }
{
    !matches!(exchange, Exchange::Taken)
}

/// What is logged of a request to a server: a reply that was refused, that none came, and that there were no random numbers; and
/// the first reply that was accepted, if the request before came to nothing.
fn exchange_event(exchange: Exchange, server: u64, had_failed: bool) -> Option<LogEvent>
    ensures value { result ≡ exchange_event exchange server had_failed }
{
    match exchange {
        Exchange::Taken => {
            if had_failed {
                Some(LogEvent::ServerAnswers { server })
            } else {
                None
            }
        }
        Exchange::Refused(fault) => Some(LogEvent::ServerRefused {
            server,
            number: u64::from(fault.number()),
        }),
        Exchange::Silent => Some(LogEvent::ServerSilent { server }),
        Exchange::Unasked => Some(LogEvent::ServerRefused {
            server,
            number: NO_RANDOM,
        }),
    }
}

/// The socket by which one request is sent, and the source of its nonce.
#[derive(Drop)]
struct UdpLine<'a, H> {
    rt: &'a H,
    socket: &'a UdpSocket,
    key: &'a Option<PacketKey>,
}

impl<'a, H: SystemClock + AsksServers> Line for UdpLine<'a, H> {
    ghost does = { λ _ _ _. Unit {0} };

    fn draw(&mut self) -> Option<u64> {
        self.rt.random_bits()
    }

    fn empty(&mut self) {
        if self.socket.set_nonblocking(true).is_err() {
            return;
        }
        let mut bytes = [0; RECEIVED_LEN];
        for _ in 0..MAX_STALE {
            if let Err(error) = self.socket.recv(&mut bytes) {
                if error.kind() == ErrorKind::WouldBlock {
                    break;
                }
            }
        }
        let _ = self.socket.set_nonblocking(false);
    }

    fn now(&mut self) -> Option<u64> {
        reading_of(self.rt)
    }

    fn send(&mut self, nonce: u64) {
        let _ = match self.key {
            Some(key) => self.socket.send(&encode_keyed(nonce, key)),
            None => self.socket.send(&encode_request(nonce)),
        };
    }

    fn receive(&mut self, buffer: &mut [u8; RECEIVED_LEN]) -> Receipt {
        match self.socket.recv(buffer) {
            Ok(length) => Receipt::Came(length),
            Err(error) if is_passing(error.kind()) => Receipt::Passing,
            Err(_) => Receipt::Ended,
        }
    }
}

/// One server of a master.
#[derive(Drop)]
pub(crate) struct Upstream {
    /// Its place among the servers of the master.
    place: u64,
    address: SocketAddr,
    /// Whether it is on this host.
    is_near: bool,
    /// A socket that takes packets of the server alone. None where there is no way to the server yet.
    socket: Option<UdpSocket>,
    key: Option<PacketKey>,
    server: SharedServer,
    /// How many requests in a row had no reply.
    silences: u32,
    /// Whether the last request came to nothing.
    has_failed: bool,
    /// The clock reading before which it is not asked, in nanoseconds.
    not_before: u64,
    /// Sees that the host slept within an exchange.
    sleep: SleepWatch,
}

impl Upstream {
    /// The server at this address, which is asked from a socket of its own, under the key if there is one. Refuses with the
    /// error of the system if there is no such socket, and with `OutOfMemory` if an allocation fails.
    pub(crate) fn new<H: AsksServers + AllocGlobal>(
        rt: &H,
        place: u64,
        address: SocketAddr,
        key: Option<PacketKey>,
        plan: Plan,
    ) -> io::Result<Upstream> {
        let is_near = address.ip().is_loopback();
        let socket = socket_for(rt, address, wait_of(is_near))?;
        let Ok(server) = Arc::new(rt.alloc(), Mutex::new(Server::new(plan))) else {
            return Err(io::Error::from(ErrorKind::OutOfMemory));
        };
        Ok(Upstream {
            place,
            address,
            is_near,
            socket: connected(socket, address),
            key,
            server,
            silences: 0,
            has_failed: false,
            not_before: 0,
            sleep: SleepWatch::new(),
        })
    }

    /// What is known of it, for the thread that answers polls.
    pub(crate) fn shared(&self) -> Result<SharedServer, AllocError> {
        Arc::try_clone(&self.server)
    }

    /// Asks the server once, and waits for its reply. Logs what is to be logged of that.
    pub(crate) fn ask<H: Wait + SystemClock + AsksServers>(&mut self, rt: &H, reporter: &Reporter) {
        let exchange = self.exchange(rt, reporter);
        self.silences = silences_with(exchange, self.silences);
        self.not_before = put_off(exchange, self.is_near, now_of(rt));
        if let Some(event) = exchange_event(exchange, self.place, self.has_failed) {
            reporter.log(rt, event)
        }
        self.has_failed = is_failure(exchange);
    }

    /// Asks the server if a request is due. A server on this host is asked so, before a poll is answered.
    pub(crate) fn ask_if_due<H: Wait + SystemClock + AsksServers>(
        &mut self,
        rt: &H,
        reporter: &Reporter,
    ) {
        let Some(now) = reading_of(rt) else {
            return;
        };
        if now >= self.not_before && self.server.lock(rt).is_due(now) {
            self.ask(rt, reporter)
        }
    }

    /// Where the host slept since the last look, drops what is known, and logs it.
    fn notice_sleep<H: Wait + SystemClock + AsksServers>(&mut self, rt: &H, reporter: &Reporter) {
        if let Sleep::Slept(slept) = rt.look(&mut self.sleep) {
            self.server.lock(rt).forget();
            reporter.log(rt, LogEvent::HostSlept { slept });
        }
    }

    /// Sends a request, and looks for the reply to it. What it left is dropped where the host slept meanwhile: of a server on
    /// this host whoever answers the poll sees to that, which asked it just then.
    fn exchange<H: Wait + SystemClock + AsksServers>(
        &mut self,
        rt: &H,
        reporter: &Reporter,
    ) -> Exchange {
        self.renew(rt);
        let mut server = *self.server.lock(rt);
        let exchange = match &self.socket {
            Some(socket) => {
                let mut line = UdpLine {
                    rt,
                    socket,
                    key: &self.key,
                };
                let wait = wait_of(self.is_near).saturating_mul(1_000_000);
                ask_once(&mut line, self.key.as_ref(), wait, &mut server)
            }
            None => {
                server.ask(0, now_of(rt));
                Exchange::Silent
            }
        };
        if self.is_near {
            *self.server.lock(rt) = server;
            return exchange;
        }
        if let Sleep::Slept(slept) = rt.look(&mut self.sleep) {
            server.forget();
            reporter.log(rt, LogEvent::HostSlept { slept });
        }
        *self.server.lock(rt) = server;
        exchange
    }

    /// Makes the socket anew where there is none, and after four silences: then also the port is another one. What there is
    /// stays if that fails.
    fn renew<H: AsksServers>(&mut self, rt: &H) {
        if self.socket.is_some() && self.silences < MAX_SILENCES {
            return;
        }
        if let Ok(socket) = socket_for(rt, self.address, wait_of(self.is_near)) {
            if let Some(socket) = connected(socket, self.address) {
                self.socket = Some(socket);
                self.silences = 0;
            }
        }
    }

    /// How long it is until the next request is due, in nanoseconds, and at most a second.
    fn left<H: Wait + SystemClock>(&self, rt: &H) -> u64 {
        let Some(now) = reading_of(rt) else {
            return LONGEST_SLEEP;
        };
        match self.server.lock(rt).left(now) {
            Some(left) => left
                .max(self.not_before.saturating_sub(now))
                .min(LONGEST_SLEEP),
            None => LONGEST_SLEEP,
        }
    }
}

/// How long a reply is waited for, in milliseconds.
fn wait_of(is_near: bool) -> u64 {
    if is_near { NEAR_WAIT } else { FAR_WAIT }
}

/// What the clock of this host shows, or 0 where it can't be read.
fn now_of<H: SystemClock>(rt: &H) -> u64 {
    reading_of(rt).unwrap_or(0)
}

/// A socket to ask a server at this address by. A receipt waits so many milliseconds.
fn socket_for<H: AsksServers>(rt: &H, address: SocketAddr, wait: u64) -> io::Result<UdpSocket> {
    let socket = if address.is_ipv4() {
        rt.bind(SocketAddr::from((Ipv4Addr::UNSPECIFIED, 0)))?
    } else {
        rt.bind(SocketAddr::from((Ipv6Addr::UNSPECIFIED, 0)))?
    };
    socket.set_read_timeout(Some(Duration::from_millis(wait)))?;
    Ok(socket)
}

/// The socket, which takes packets from this address alone from now on. None where there is no way there.
fn connected(socket: UdpSocket, address: SocketAddr) -> Option<UdpSocket> {
    match socket.connect(address) {
        Ok(()) => Some(socket),
        Err(_) => None,
    }
}

/// Asks a server on another host whenever a request is due, and never ends.
pub(crate) fn follow<H: Wait + SystemClock + AsksServers>(
    rt: &H,
    upstream: Upstream,
    reporter: &Reporter,
) {
    let mut upstream = upstream;
    for _ in rt.forever() {
        upstream.notice_sleep(rt, reporter);
        let left = upstream.left(rt);
        if left == 0 {
            upstream.ask(rt, reporter);
        } else {
            thread::sleep(rt, Duration::from_nanos(left));
        }
    }
}
