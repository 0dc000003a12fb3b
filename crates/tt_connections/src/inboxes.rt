//! Connections that wait for their worker, and what a worker waits with.

ghost use Rattle.std.specs.Prelude.{◌≡◌, nat_lt};
ghost use Rattle.tt_connections.specs.Waiting.{is_crowded_after, has_room};

use mio::unix::SourceFd;
use mio::{Events, Interest, Poll, Token, Waker};
use std::alloc::Global;
use std::collections::VecDeque;
use std::io;
use std::net::{Net, TcpStream};
use std::os::fd::AsRawFd;
use std::sync::atomic::{AtomicUsize, Ordering};
use std::sync::{Mutex, Wait};
use std::time::Duration;

/// The most connections that wait for one worker.
pub const MAX_WAITING: usize = 256;

/// How many events one wait of a worker reports at most.
pub const MAX_EVENTS: usize = 64;

/// The token of a worker's waker. That of a connection is one above its place.
const WAKER: Token = Token(0);

/// How many connections may wait for a worker, at most [`MAX_WAITING`], and how many sessions it may have.
#[derive(Clone, Copy)]
pub struct Room {
    pub waiting: usize,
    pub sessions: usize,
}

/// Whether one more connection may wait beside `waiting` others, where at most `most` may, and never more than
/// [`MAX_WAITING`].
fn has_room(waiting: usize, most: usize) -> bool
    ensures value { result ≡ has_room waiting most }
{
    waiting < most.min(MAX_WAITING)
}

/// Whether workers share their time among sessions: from when more sessions than `workers` are open until fewer are.
pub(crate) fn is_crowded_after(was_crowded: bool, sessions: usize, workers: usize) -> bool
    ensures value { result ≡ is_crowded_after was_crowded sessions workers }
{
    sessions > workers || (was_crowded && sessions == workers)
}

/// What is ready at one connection of a worker.
#[derive(Clone, Copy)]
pub struct Ready {
    /// The place of the connection.
    pub place: usize,
    /// Whether its client sends no more.
    pub closed: bool,
}

/// What a worker waits with: for its connections, and for its inbox.
#[derive(Drop)]
pub struct Watcher {
    poll: Poll,
    events: Events,
}

impl Watcher {
    /// Has the watcher wait for the connection at this place: until it gives bytes or ends, or, with `takes`, until it takes
    /// bytes. What is ready already is reported too.
    pub fn watch(&self, stream: &TcpStream, place: usize, takes: bool) -> io::Result<()> {
        let descriptor = stream.as_raw_fd();
        self.poll.registry().register(
            &mut SourceFd(&descriptor),
            token_of(place),
            interest_in(takes),
        )
    }

    /// Has the watcher report again what is ready at the connection at this place: see [`Watcher::watch`].
    pub fn watch_again(&self, stream: &TcpStream, place: usize, takes: bool) -> io::Result<()> {
        let descriptor = stream.as_raw_fd();
        self.poll.registry().reregister(
            &mut SourceFd(&descriptor),
            token_of(place),
            interest_in(takes),
        )
    }

    /// Waits until something is ready, for at most `most` milliseconds if that is given. Answers whether the system let it
    /// wait.
    pub fn wait(&mut self, most: Option<u64>) -> bool {
        let most = match most {
            Some(most) => Some(Duration::from_millis(most)),
            None => None,
        };
        self.poll.poll(&mut self.events, most).is_ok()
    }

    /// What the last wait reported `number`-th, from 0 on. None where that was the waker, and behind the last.
    pub fn ready(&self, number: usize) -> Option<Ready> {
        let event = self.events.iter().nth(number)?;
        let Token(token) = event.token();
        Some(Ready {
            place: token.checked_sub(1)?,
            closed: event.is_read_closed(),
        })
    }

    /// How many things the last wait reported.
    pub fn count(&self) -> usize {
        self.events.iter().count()
    }
}

/// The token of the connection at this place.
fn token_of(place: usize) -> Token {
    Token(place.wrapping_add(1))
}

/// What is waited for at a connection: bytes, or room for replies. What breaks is reported in any case.
fn interest_in(takes: bool) -> Interest {
    if takes {
        Interest::WRITABLE
    } else {
        Interest::READABLE
    }
}

/// The connections that wait for one worker, at most [`MAX_WAITING`], and how many sessions the worker has. They are
/// taken in the order in which they came.
#[derive(Drop)]
pub struct Inbox {
    room: Room,
    connections: Mutex<VecDeque<TcpStream, Global>>,
    /// How many wait. It is counted beside the queue, so that nobody has to lock it to see.
    waiting: AtomicUsize,
    /// How many wait or have an open session.
    load: AtomicUsize,
    /// Ends the waits of the worker.
    waker: Waker,
    /// What the worker waits with, until its thread takes it.
    watcher: Mutex<Option<Watcher>>,
}

impl Inbox {
    /// The inbox of a worker that has no session, and this room. Refuses with the error of the system, also if it is out of
    /// memory.
    pub fn new<R: Net>(rt: &R, alloc: Global, room: Room) -> io::Result<Inbox> {
        let poll = Poll::new(rt)?;
        let waker = Waker::new(poll.registry(), WAKER)?;
        let events = Events::with_capacity(alloc, MAX_EVENTS)?;
        let connections = VecDeque::with_capacity(alloc, MAX_WAITING)?;
        Ok(Inbox {
            room,
            connections: Mutex::new(connections),
            waiting: AtomicUsize::new(0),
            load: AtomicUsize::new(0),
            waker,
            watcher: Mutex::new(Some(Watcher { poll, events })),
        })
    }

    /// Takes what the worker waits with. None if it was taken before.
    pub fn take_watcher<R: Wait>(&self, rt: &R) -> Option<Watcher> {
        self.watcher.lock(rt).take()
    }

    /// How many sessions the worker may have.
    pub fn most_sessions(&self) -> usize {
        self.room.sessions
    }

    /// How many connections wait.
    pub fn waiting(&self) -> usize {
        self.waiting.load(Ordering::SeqCst)
    }

    /// How many connections wait or have an open session.
    pub fn load(&self) -> usize {
        self.load.load(Ordering::SeqCst)
    }

    /// Whether one more connection may wait. Only the acceptor adds connections, so what it sees here still holds when it
    /// adds one.
    pub(crate) fn has_room(&self) -> bool {
        has_room(self.waiting(), self.room.waiting)
    }

    /// Adds a connection, and wakes the worker. If it is out of memory, the connection is closed. Answers whether it was
    /// added.
    pub(crate) fn put<R: Wait>(&self, rt: &R, connection: TcpStream) -> bool {
        let mut connections = self.connections.lock(rt);
        let is_put = connections.push_back(connection).is_ok();
        if is_put {
            self.load.fetch_add(1, Ordering::SeqCst);
        }
        self.waiting.store(connections.len(), Ordering::SeqCst);
        drop(connections);
        self.wake();
        is_put
    }

    /// Takes the connection that came first, if one waits. Answers also whether the inbox was full before.
    pub(crate) fn take<R: Wait>(&self, rt: &R) -> Option<(TcpStream, bool)> {
        if self.waiting() == 0 {
            return None;
        }
        let mut connections = self.connections.lock(rt);
        let was_full = !has_room(connections.len(), self.room.waiting);
        let connection = connections.pop_front()?;
        self.waiting.store(connections.len(), Ordering::SeqCst);
        Some((connection, was_full))
    }

    /// A session of the worker has ended.
    pub(crate) fn leave(&self) {
        self.load.fetch_sub(1, Ordering::SeqCst);
    }

    /// Ends the wait of the worker that is under way, or else its next.
    pub(crate) fn wake(&self) {
        let _ = self.waker.wake();
    }
}
