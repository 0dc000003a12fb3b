//! The thread that accepts the connections of a machine, and hands them to its workers.

ghost use Rattle.std.specs.Prelude.{◌≡◌, ◌<◌};
ghost use Rattle.tt_connections.specs.Waiting.{hands_over, left_of, pause_of, refusal_in};

use crate::inboxes::{Inbox, MAX_WAITING, is_crowded_after};
use crate::listeners::{Came, Listener};
use mio::unix::SourceFd;
use mio::{Events, Interest, Poll, Token, Waker};
use std::alloc::Global;
use std::net::{Net, TcpStream};
use std::sync::Wait;
use std::sync::atomic::{AtomicBool, AtomicU64, AtomicUsize, Ordering};
use std::time::{Clock as SystemClock, Duration};
use std::{io, thread};
use tt_clock::reading_of;
use tt_files::Reason;

/// How long clients wait for the first publication, in nanoseconds: two seconds.
const FIRST: u64 = 2_000_000_000;

/// How long the acceptor waits after the system refused a connection, in nanoseconds.
const AGAIN: u64 = 100_000_000;

/// The token of the acceptor's waker.
const WAKER: Token = Token(0);

/// The token of both listeners. After each wait the acceptor looks at both, so it need not tell them apart.
const LISTENER: Token = Token(1);

/// How many events one wait reports.
const EVENTS: usize = 4;

/// What the acceptor found at one listener.
#[derive(Clone, Copy)]
pub(crate) enum Turn {
    /// No more connections wait to be accepted.
    Empty,
    /// An inbox is full: the worker that makes room wakes the acceptor.
    Full,
    /// More connections may wait to be accepted.
    More,
    /// The system refused to accept a connection, for this reason.
    Failed(Reason),
}

/// For how long clients still wait for the first publication when the clock shows `now`, in nanoseconds. They wait until
/// two seconds after the clock reading `began`.
fn left_of(began: u64, now: u64) -> u64
    ensures value { result ≡ left_of began now }
{
    FIRST.saturating_sub(now.saturating_sub(began))
}

/// Whether connections are handed to workers when the clock shows `now`: once something is published, and in any case two
/// seconds after the clock reading `began`.
fn hands_over(published: bool, began: u64, now: u64) -> bool
    ensures value { result ≡ hands_over published began now }
{
    published || !(now.saturating_sub(began) < FIRST)
}

/// How long the acceptor waits after its two listeners gave this, in nanoseconds. None if it waits until something comes.
fn pause_of(front: Turn, side: Turn) -> Option<u64>
    ensures value { result ≡ pause_of front side }
{
    match (front, side) {
        (Turn::More, _) | (_, Turn::More) => Some(0),
        (Turn::Failed(_), _) | (_, Turn::Failed(_)) => Some(AGAIN),
        _ => None,
    }
}

/// Why the system refused to accept a connection at one of two listeners, if it did: at the first, or else at the other.
fn refusal_in(front: Turn, side: Turn) -> Option<Reason>
    ensures value { result ≡ refusal_in front side }
{
    match (front, side) {
        (Turn::Failed(reason), _) | (_, Turn::Failed(reason)) => Some(reason),
        _ => None,
    }
}

/// The place that lies `number` places behind `begin`, where `count` places lie in a circle.
fn place_behind(begin: usize, number: usize, count: usize) -> usize
    ensures within { 0 < count → result < count }
{
    if count == 0 {
        return 0;
    }
    begin.saturating_add(number) % count
}

/// A listener, and the inboxes of the workers that serve those who connect at it.
#[derive(Drop)]
pub struct Backlog {
    pub listener: Listener,
    inboxes: Vec<Inbox>,
    /// How many connections wait or have an open session.
    open: AtomicUsize,
    /// Whether the workers share their time among sessions.
    crowded: AtomicBool,
    /// The worker from which on the next one is sought. Only the acceptor uses it.
    next: AtomicUsize,
    /// How many connections were closed before their session began, modulo 2^64.
    unserved: AtomicU64,
}

impl Backlog {
    /// A listener at which no connection waits, with the inbox of each of its workers.
    pub fn new(listener: Listener, inboxes: Vec<Inbox>) -> Backlog {
        Backlog {
            listener,
            inboxes,
            open: AtomicUsize::new(0),
            crowded: AtomicBool::new(false),
            next: AtomicUsize::new(0),
            unserved: AtomicU64::new(0),
        }
    }

    /// The inbox of this worker, from 0 on.
    pub fn inbox(&self, number: usize) -> Option<&Inbox> {
        self.inboxes.get(number)
    }

    /// How many connections wait for a worker.
    fn waiting(&self) -> u64 {
        let mut waiting = 0u64;
        for inbox in &self.inboxes {
            waiting = waiting.saturating_add(inbox.waiting() as u64);
        }
        waiting
    }

    /// Whether the workers share their time among sessions: from when more are open than there are workers until fewer
    /// are. A worker with one session may otherwise wait for its next bytes alone.
    pub fn is_crowded(&self) -> bool {
        self.crowded.load(Ordering::SeqCst)
    }

    /// Notes how many sessions are open now.
    fn note(&self, open: usize) {
        let was_crowded = self.crowded.load(Ordering::SeqCst);
        let crowded = is_crowded_after(was_crowded, open, self.inboxes.len());
        if crowded != was_crowded {
            self.crowded.store(crowded, Ordering::SeqCst);
        }
    }

    /// A session of the worker with this inbox was not begun, since there was no memory or no place for it.
    pub fn turn_away(&self, inbox: &Inbox) {
        self.unserved.fetch_add(1, Ordering::SeqCst);
        self.leave(inbox);
    }

    /// A session of the worker with this inbox has ended.
    pub fn leave(&self, inbox: &Inbox) {
        inbox.leave();
        let open = self.open.fetch_sub(1, Ordering::SeqCst);
        self.note(open.saturating_sub(1));
    }

    /// The inbox of a worker that has the fewest sessions: of those that have, the first one behind the one that was found
    /// last.
    fn least(&self) -> Option<&Inbox> {
        let begin = self.next.load(Ordering::SeqCst);
        let mut least: Option<(usize, &Inbox)> = None;
        for number in 0..self.inboxes.len() {
            let place = place_behind(begin, number, self.inboxes.len());
            if let Some(inbox) = self.inboxes.get(place) {
                match least {
                    Some((_, other)) if other.load() <= inbox.load() => {}
                    _ => least = Some((place, inbox)),
                }
            }
        }
        let (place, inbox) = least?;
        self.next.store(place.saturating_add(1), Ordering::SeqCst);
        Some(inbox)
    }

    /// Accepts the connections that have come, as long as there is room, and hands each to a worker with the fewest
    /// sessions.
    fn accept_all<R: Wait>(&self, rt: &R) -> Turn {
        for _ in 0..MAX_WAITING {
            let Some(inbox) = self.least() else {
                return Turn::Full;
            };
            if !inbox.has_room() {
                return Turn::Full;
            }
            match self.listener.accept() {
                Came::Client(connection) => {
                    if inbox.put(rt, connection) {
                        let open = self.open.fetch_add(1, Ordering::SeqCst);
                        self.note(open.saturating_add(1));
                    } else {
                        self.unserved.fetch_add(1, Ordering::SeqCst);
                    }
                }
                Came::Nobody => {}
                Came::Nothing => return Turn::Empty,
                Came::Failed(reason) => return Turn::Failed(reason),
            }
        }
        Turn::More
    }

    /// Wakes all workers.
    fn wake_all(&self) {
        for inbox in &self.inboxes {
            inbox.wake();
        }
    }
}

/// The listeners of a machine, whether it ends, and whether it is broken. All its threads share them.
#[derive(Drop)]
pub struct Listeners {
    /// The TCP address.
    pub front: Backlog,
    /// The Unix socket, if there is one.
    pub side: Option<Backlog>,
    /// Whether the machine has to end.
    pub ended: AtomicBool,
    /// Whether the machine knows that one of its assumptions is broken. Then its sessions give no reading, begin no commit
    /// and release none.
    pub broken: AtomicBool,
    published: AtomicBool,
    waker: Waker,
}

impl Listeners {
    /// The listeners of a machine that has published nothing so far, and knows of nothing that is broken. `waker` ends a wait
    /// of their acceptor.
    pub fn new(front: Backlog, side: Option<Backlog>, waker: Waker) -> Listeners {
        Listeners {
            front,
            side,
            ended: AtomicBool::new(false),
            broken: AtomicBool::new(false),
            published: AtomicBool::new(false),
            waker,
        }
    }

    /// How many connections wait for a worker.
    pub fn waiting(&self) -> u64 {
        let side = match &self.side {
            Some(side) => side.waiting(),
            None => 0,
        };
        side.saturating_add(self.front.waiting())
    }

    /// How many connections were closed before their session began, modulo 2^64: there was no memory or no place for it.
    pub fn unserved(&self) -> u64 {
        let front = self.front.unserved.load(Ordering::SeqCst);
        match &self.side {
            Some(side) => front.wrapping_add(side.unserved.load(Ordering::SeqCst)),
            None => front,
        }
    }

    /// Says that something is published, so that connections are handed over from now on. It does not wait.
    pub fn open(&self) {
        self.published.store(true, Ordering::SeqCst);
        let _ = self.waker.wake();
    }

    /// Says that one of the assumptions of the machine is broken, for the rest of its life. It does not wait, and ends no
    /// session.
    pub fn break_off(&self) {
        self.broken.store(true, Ordering::SeqCst);
    }

    /// Ends the machine: the acceptor and all workers that wait end their waits. It needs no descriptor and no path.
    pub fn end(&self) {
        self.ended.store(true, Ordering::SeqCst);
        let _ = self.waker.wake();
        self.front.wake_all();
        if let Some(side) = &self.side {
            side.wake_all();
        }
    }

    /// Takes the connection that came first of those that wait in this inbox, if one does. It does not wait.
    pub fn next<R: Wait>(&self, rt: &R, inbox: &Inbox) -> Option<TcpStream> {
        let (connection, was_full) = inbox.take(rt)?;
        if was_full {
            let _ = self.waker.wake();
        }
        Some(connection)
    }
}

/// What the thread that accepts connections waits with.
#[derive(Drop)]
pub struct Acceptor {
    poll: Poll,
    events: Events,
    /// How long the next wait is at most, in nanoseconds. None if it ends only when something comes.
    pause: Option<u64>,
}

impl Acceptor {
    /// An acceptor that waits for nothing so far but its waker. Refuses with the error of the system, also if it is out of
    /// memory.
    pub fn new<R: Net>(rt: &R, alloc: Global) -> io::Result<(Acceptor, Waker)> {
        let poll = Poll::new(rt)?;
        let waker = Waker::new(poll.registry(), WAKER)?;
        let events = Events::with_capacity(alloc, EVENTS)?;
        let acceptor = Acceptor {
            poll,
            events,
            pause: Some(0),
        };
        Ok((acceptor, waker))
    }

    /// Has the acceptor wait for connections at this listener too.
    pub fn watch(&self, listener: &Listener) -> io::Result<()> {
        let descriptor = listener.descriptor();
        self.poll
            .registry()
            .register(&mut SourceFd(&descriptor), LISTENER, Interest::READABLE)
    }

    /// Waits for at most `most` nanoseconds; if there is none, until something comes. If the system refuses to wait, it
    /// sleeps for a tenth of a second.
    fn wait<R: SystemClock>(&mut self, rt: &R, most: Option<u64>) {
        let most = match most {
            Some(most) => Some(Duration::from_nanos(most)),
            None => None,
        };
        if self.poll.poll(&mut self.events, most).is_err() {
            thread::sleep(rt, Duration::from_nanos(AGAIN));
        }
    }

    /// Waits until connections are handed over: until something is published, or two seconds have passed since the clock
    /// reading `began`. If the clock can't be read, it does not wait.
    pub fn wait_for_first<R: Wait + SystemClock>(
        &mut self,
        rt: &R,
        listeners: &Listeners,
        began: u64,
    ) {
        for _ in rt.forever() {
            let now = reading_of(rt).unwrap_or(u64::MAX);
            let published = listeners.published.load(Ordering::SeqCst);
            if listeners.ended.load(Ordering::SeqCst) || hands_over(published, began, now) {
                return;
            }
            self.wait(rt, Some(left_of(began, now)));
        }
        unreachable!()
    }

    /// Waits for connections, and accepts those that have come at both listeners. Answers why the system refused to accept
    /// one, if it did; then the next wait is a tenth of a second.
    pub fn turn<R: Wait + SystemClock>(&mut self, rt: &R, listeners: &Listeners) -> Option<Reason> {
        self.wait(rt, self.pause);
        let front = listeners.front.accept_all(rt);
        let side = match &listeners.side {
            Some(side) => side.accept_all(rt),
            None => Turn::Empty,
        };
        self.pause = pause_of(front, side);
        refusal_in(front, side)
    }
}
