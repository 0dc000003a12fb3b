//! Whether the client of a session has left, whether the machine is broken, and how long the client's commits wait.

ghost use Rattle.std.specs.Prelude.{◌≡◌};
ghost use Rattle.tt_connections.specs.Session.{seen_after, is_gone, is_gone_at};

use crate::lines::{Counts, is_over};
use crate::presence::Presence;
use mio::unix::SourceFd;
use mio::{Events, Interest, Poll, Token};
use std::alloc::Global;
use std::io;
use std::marker::Model;
use std::net::{Net, TcpStream};
use std::os::fd::AsRawFd;
use std::sync::atomic::{AtomicBool, AtomicU64, Ordering};
use std::sync::{Mutex, Wait};
use std::time::{Clock as SystemClock, Duration};
use tt_clock::reading_of;

/// How many events one look reports.
const EVENTS: usize = 2;

/// In place of a clock reading, if the clock could not be read. It is above all readings.
const UNREAD: u64 = u64::MAX;

/// What is seen of a connection.
#[derive(Clone, Copy)]
pub(crate) enum Seen {
    /// The client may send more.
    Open,
    /// The client sends no more, but may still read.
    Closed,
    /// Nothing more can be sent or received.
    Broken,
}

/// What is seen of a connection after an event that says that it is broken, or that the client has closed its side. What
/// was seen once stays.
fn seen_after(before: Seen, is_broken: bool, is_closed: bool) -> Seen
    ensures value { result ≡ seen_after before is_broken is_closed }
{
    match before {
        Seen::Broken => Seen::Broken,
        _ if is_broken => Seen::Broken,
        Seen::Closed => Seen::Closed,
        Seen::Open => { if is_closed { Seen::Closed } else { Seen::Open } }
    }
}

/// Whether a client has left when the clock shows `now`: its connection is broken, or it has closed its side, first seen
/// at the clock reading `since`, more than `idle` ago. All are in nanoseconds.
fn is_gone(seen: Seen, since: u64, idle: u64, now: u64) -> bool
    ensures value { result ≡ is_gone seen since idle now }
{
    match seen {
        Seen::Open => false,
        Seen::Closed => is_over(since, idle, now),
        Seen::Broken => true,
    }
}

/// Whether a client has left when the clock shows `now`, or cannot be read. Then only a broken connection says that it
/// has: what fails is the clock, and the next reading of the session says so.
fn is_gone_at(seen: Seen, since: u64, idle: u64, now: Option<u64>) -> bool
    ensures value { result ≡ is_gone_at seen since idle now }
{
    match now {
        Some(now) => is_gone(seen, since, idle, now),
        None => matches!(seen, Seen::Broken),
    }
}

/// What a worker looks at its connections with.
#[derive(Drop)]
pub struct Sight {
    poll: Poll,
    events: Events,
}

impl Sight {
    /// What a worker looks with. Refuses with the error of the system, also if it is out of memory.
    pub fn new<R: Net>(rt: &R, alloc: Global) -> io::Result<Sight> {
        let poll = Poll::new(rt)?;
        let events = Events::with_capacity(alloc, EVENTS)?;
        Ok(Sight { poll, events })
    }

    /// What is seen of this connection by now, of which `seen` was seen before. It takes no byte, and does not wait. If the
    /// system does not let it look, nothing more is seen.
    fn look(&mut self, stream: &TcpStream, seen: Seen) -> Seen {
        let descriptor = stream.as_raw_fd();
        let mut source = SourceFd(&descriptor);
        let registry = self.poll.registry();
        if registry
            .register(&mut source, Token(0), Interest::READABLE)
            .is_err()
        {
            return seen;
        }
        let mut seen = seen;
        if self
            .poll
            .poll(&mut self.events, Some(Duration::from_nanos(0)))
            .is_ok()
        {
            for event in self.events.iter() {
                let is_broken = event.is_error() || event.is_write_closed();
                seen = seen_after(seen, is_broken, event.is_read_closed());
            }
        }
        let _ = self.poll.registry().deregister(&mut source);
        seen
    }
}

/// What is kept of a client as long as its session is open: what was seen of its connection, and since when its commit
/// waits.
#[derive(Drop)]
pub struct Attendance {
    sighted: Mutex<Sighted>,
    /// Whether a commit of the session waits.
    waits: AtomicBool,
    /// The clock reading at which that commit began to wait, in nanoseconds, or [`UNREAD`].
    since: AtomicU64,
}

/// What was seen of a connection.
#[derive(Clone, Copy)]
struct Sighted {
    seen: Seen,
    /// The clock reading at which it was first seen that the client has closed its side. None before that.
    since: Option<u64>,
}

impl Attendance {
    /// What is kept of a client whose session begins.
    pub fn new() -> Attendance {
        Attendance {
            sighted: Mutex::new(Sighted {
                seen: Seen::Open,
                since: None,
            }),
            waits: AtomicBool::new(false),
            since: AtomicU64::new(UNREAD),
        }
    }
}

/// The client of a connection, and whether it is still there.
///
/// It has left if its connection is broken. A client that has closed its side gets the replies to the lines that it sent,
/// and has left once that was seen longer than `idle` ago. Both are seen also if bytes of it are unread. A TCP client that
/// has closed both sides looks like one that has closed its own until a reply is written to it. At the end of the machine
/// all clients have left. While the clock cannot be read, only a broken connection is a client that has left.
///
/// The machine is broken once [`Listeners::break_off`](crate::Listeners::break_off) said so. The commits of the client that
/// wait are counted, and how long they waited. In contracts a client is nothing: nothing is claimed of when it leaves, of
/// when the machine is broken, and of the counts.
#[derive(Drop)]
pub struct Client<'a, R> {
    rt: &'a R,
    stream: &'a TcpStream,
    ended: &'a AtomicBool,
    broken: &'a AtomicBool,
    /// How long a client that has closed its side is still there, in nanoseconds.
    idle: u64,
    sight: &'a Mutex<Sight>,
    counts: &'a Counts,
    attendance: &'a Attendance,
}

impl<'a, R> Model for Client<'a, R> {
    ghost Value = { Unit {0} };

    ghost view = { λ _. tt };
}

impl<'a, R: Wait + SystemClock> Client<'a, R> {
    /// The client of this connection, which its worker looks at with `sight`. `ended` and `broken` say whether the machine
    /// has to end, and whether it is broken. A client that has closed its side is still there for `idle` nanoseconds. Its
    /// commits are counted in `counts`. `attendance` is kept from one turn of the session to the next.
    pub fn new(
        rt: &'a R,
        stream: &'a TcpStream,
        ended: &'a AtomicBool,
        broken: &'a AtomicBool,
        idle: u64,
        sight: &'a Mutex<Sight>,
        counts: &'a Counts,
        attendance: &'a Attendance,
    ) -> Self {
        Client {
            rt,
            stream,
            ended,
            broken,
            idle,
            sight,
            counts,
            attendance,
        }
    }
}

impl<'a, R: Wait + SystemClock> Presence for Client<'a, R> {
    ghost use Rattle.tt_connections.specs.Client.{ClientSays};

    ghost says = { ClientSays };

    fn has_left(&self) -> bool {
        if self.ended.load(Ordering::SeqCst) {
            return true;
        }
        let now = reading_of(self.rt);
        let mut sighted = self.attendance.sighted.lock(self.rt);
        let seen = self.sight.lock(self.rt).look(self.stream, sighted.seen);
        sighted.seen = seen;
        if seen == Seen::Closed && sighted.since.is_none() {
            sighted.since = now;
        }
        let since = sighted.since.or(now).unwrap_or(0);
        is_gone_at(seen, since, self.idle, now)
    }

    fn is_broken(&self) -> bool {
        self.broken.load(Ordering::SeqCst)
    }

    fn clock(&self) -> Option<u64> {
        reading_of(self.rt)
    }

    fn began_waiting(&self) {
        let now = reading_of(self.rt).unwrap_or(UNREAD);
        self.attendance.since.store(now, Ordering::SeqCst);
        if !self.attendance.waits.swap(true, Ordering::SeqCst) {
            self.counts.commits_waiting.fetch_add(1, Ordering::SeqCst);
        }
    }

    fn ended_waiting(&self, is_released: bool) {
        if !self.attendance.waits.swap(false, Ordering::SeqCst) {
            return;
        }
        self.counts.commits_waiting.fetch_sub(1, Ordering::SeqCst);
        let since = self.attendance.since.load(Ordering::SeqCst);
        if let Some(now) = reading_of(self.rt) {
            if is_released && since != UNREAD {
                self.counts.add_wait(now.saturating_sub(since));
            }
        }
    }
}
