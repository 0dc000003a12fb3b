//! The sockets of a run, all on this computer.

ghost use Rattle.std.specs.Prelude.{◌≡◌, IfOk, IfErr, vec_len};
ghost use Rattle.tt_live.specs.Fault.{IsSocketFault};

use crate::clocks::SessionClock;
use std::alloc::Global;
use std::io::{self, ErrorKind};
use std::net::{Net, SocketAddr, TcpListener, TcpStream, UdpSocket};
use std::sync::atomic::AtomicBool;
use std::time::{Clock as SystemClock, Duration};
use tt_rounds::{NodeFault, RoundLink, UdpLink};
use tt_session::{Deadline, DeadlineReader, Timed};
use tt_stream::Counted;

/// The address to which sockets are bound: on this computer, at a free port.
const HERE: &str = "127.0.0.1:0";

/// How long the daemon waits for all packets of a round together, in milliseconds.
const ROUND_WAIT: u64 = 20;

/// How long a master waits for a packet, in milliseconds.
const MASTER_WAIT: u64 = 10;

/// How long a read of a session waits for bytes, in milliseconds, before it checks whether the daemon has failed.
const SESSION_WAIT: u64 = 100;

/// A session has no deadline. It ends with its input, or when its clock fails.
const NO_DEADLINE: Deadline = Deadline {
    at: u64::MAX,
    tries: u32::MAX,
};

/// The most connections that are accepted until the connection of a client is among them.
const MAX_ACCEPTS: u32 = 1_000;

/// The fault of a socket that failed with this error.
fn fault_of(error: io::Error) -> NodeFault
    ensures { IsSocketFault result }
{
    if error.kind() == ErrorKind::OutOfMemory {
        NodeFault::Memory
    } else {
        NodeFault::LinkFailed
    }
}

/// A socket for packets, and its address.
fn socket<R: Net>(net: &R) -> io::Result<(UdpSocket, SocketAddr)> {
    let socket = UdpSocket::bind(net, HERE)?;
    let address = socket.local_addr()?;
    Ok((socket, address))
}

/// A socket for packets of a master, and its address. The socket waits a short time for a packet.
fn master_socket<R: Net>(net: &R) -> io::Result<(UdpSocket, SocketAddr)> {
    let (socket, address) = socket(net)?;
    socket.set_read_timeout(Some(Duration::from_millis(MASTER_WAIT)))?;
    Ok((socket, address))
}

/// The links of a run. The peers of the daemon's link are the masters. The peer of each master's link is the daemon.
#[derive(Drop)]
pub(crate) struct Links<'a, R> {
    pub(crate) daemon: RoundLink<'a, R, UdpSocket>,
    pub(crate) masters: Vec<UdpLink>,
}

/// The links between a daemon and `masters` masters.
pub(crate) fn connect_masters<'a, R: Net + SystemClock>(
    rt: &'a R,
    alloc: Global,
    masters: usize,
) -> Result<Links<'a, R>, NodeFault>
    ensures fault { IfErr result IsSocketFault }
{
    let (daemon, address) = socket(rt).map_err(fault_of)?;
    let (mut links, mut addresses) = (Vec::new(alloc), Vec::new(alloc));
    for _ in 0..masters {
        let (socket, own) = master_socket(rt).map_err(fault_of)?;
        let mut peers = Vec::new(alloc);
        peers.push(address).map_err(|_| NodeFault::Memory)?;
        addresses.push(own).map_err(|_| NodeFault::Memory)?;
        links
            .push(UdpLink::new(socket, peers))
            .map_err(|_| NodeFault::Memory)?;
    }
    let wait = Duration::from_millis(ROUND_WAIT);
    // Nobody wakes the daemon: it ends with its last round.
    let (daemon, _waker) = RoundLink::new(rt, alloc, daemon, addresses, wait).map_err(fault_of)?;
    Ok(Links {
        daemon,
        masters: links,
    })
}

/// The two ends of a connection.
#[derive(Drop)]
pub(crate) struct Connection {
    pub(crate) client: TcpStream,
    pub(crate) worker: TcpStream,
}

/// A connection to the listener and from it. The end of the worker waits a short time for bytes.
fn connect<R: Net<Listener = TcpListener, Stream = TcpStream>>(
    net: &R,
    listener: &TcpListener,
) -> io::Result<Connection> {
    let client = TcpStream::connect(net, listener.local_addr()?)?;
    let own = client.local_addr()?;
    client.set_nodelay(true)?;
    for _ in 0..MAX_ACCEPTS {
        let (worker, peer) = listener.accept()?;
        if peer == own {
            worker.set_nodelay(true)?;
            worker.set_read_timeout(Some(Duration::from_millis(SESSION_WAIT)))?;
            return Ok(Connection { client, worker });
        }
    }
    Err(io::Error::from(ErrorKind::ConnectionRefused))
}

/// The reader of a session. The session ends once the daemon has failed.
pub(crate) type SessionReader<'a> = DeadlineReader<Timed<TcpStream>, SessionClock<'a>>;

/// The reader and the writer of a worker.
pub(crate) type WorkerStream<'a> = (SessionReader<'a>, Counted<TcpStream>);

/// The connections of a run: the ends of its clients, and the readers and writers of its workers, in the same order.
#[derive(Drop)]
pub(crate) struct Sessions<'a> {
    pub(crate) clients: Vec<TcpStream>,
    pub(crate) workers: Vec<WorkerStream<'a>>,
}

/// The connections of `count` clients. Their sessions end once the daemon has failed.
pub(crate) fn connect_clients<'a, R: Net<Listener = TcpListener, Stream = TcpStream>>(
    net: &R,
    alloc: Global,
    count: usize,
    daemon_failed: &'a AtomicBool,
) -> Result<Sessions<'a>, NodeFault>
    ensures all { IfOk result (λ sessions. vec_len sessions.workers ≡ count) }
    ensures fault { IfErr result IsSocketFault }
{
    let listener = TcpListener::bind(net, HERE).map_err(fault_of)?;
    let (mut clients, mut workers) = (Vec::new(alloc), Vec::new(alloc));
    for _ in 0..count {
        let Connection { client, worker } = connect(net, &listener).map_err(fault_of)?;
        let writer = worker.try_clone().map_err(fault_of)?;
        clients.push(client).map_err(|_| NodeFault::Memory)?;
        let clock = SessionClock::new(daemon_failed);
        let reader = DeadlineReader::new(Timed::new(worker), clock, NO_DEADLINE);
        workers
            .push((reader, Counted::new(writer)))
            .map_err(|_| NodeFault::Memory)?;
    }
    Ok(Sessions { clients, workers })
}
