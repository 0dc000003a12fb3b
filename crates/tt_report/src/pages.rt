//! The thread that answers requests over HTTP. It serves several connections by turns.

use crate::clocks::{clock_of, time_of};
use crate::records::{PageLanes, PageShown, Records};
use crate::sources::Addresses;
use crate::visitors::{Turn, Visitor, left_of};
use mio::unix::SourceFd;
use mio::{Events, Interest, Poll, Token};
use std::alloc::{AllocError, Global};
use std::net::{Net, TcpListener};
use std::os::fd::AsRawFd;
use std::sync::{Arc, Wait};
use std::time::{Clock as SystemClock, Duration};
use std::{io, thread};
use tt_pages::{Asked, Limits, Page, Report, Wanted, push_answer};
use tt_status::{Status, push_status};
use tt_top::{Form, Past, View, Widths, push_drawing, read_view};

/// The most connections that are served at a time.
const PLACES: usize = 8;

/// The most connections that are accepted between two turns of those that are served.
const ACCEPTS: usize = 8;

/// The pause after a connection could not be accepted, in nanoseconds.
const PAUSE: u64 = 100_000_000;

/// How often the newest status is looked at, though nobody asks, in nanoseconds: once a second.
const LOOKS: u64 = 1_000_000_000;

/// How many events one wait reports. After each wait all connections are looked at.
const EVENTS: usize = 16;

/// The token of all sockets.
const ANY: Token = Token(0);

/// Where pages are given, and by what the machine is judged.
#[derive(Drop)]
pub struct Pages {
    /// An address of this host.
    pub listener: TcpListener,
    /// By what the machine is judged.
    pub limits: Limits,
    /// Whether they are given to other hosts, too.
    pub is_open: bool,
}

/// What the clocks show, in nanoseconds.
#[derive(Clone, Copy)]
pub(crate) struct Now {
    /// The monotonic one.
    pub(crate) clock: u64,
    /// The time since 1970.
    pub(crate) time: u64,
}

/// What pages show.
pub(crate) trait Shows {
    /// Takes what was handed over meanwhile.
    fn take<R: Wait>(&mut self, rt: &R, lanes: &PageLanes);

    /// The answer to this, when the clocks show `now`. None if it is out of memory.
    fn answer(&mut self, alloc: Global, asked: Asked, now: Now) -> Option<String>;
}

/// What a machine handed over last.
#[derive(Drop)]
pub(crate) struct Newest {
    limits: Limits,
    /// The addresses of its sources.
    addresses: Arc<Addresses, Global>,
    status: Option<Status>,
    /// When the status was handed over, or the thread began: a reading of the monotonic clock, in nanoseconds.
    at: u64,
    evidence: Option<String>,
    /// The widths of the last ten minutes.
    widths: Widths,
    /// What was seen of the statuses that were drawn.
    past: Past,
    /// The part of a page that shows the status, if it was drawn since that was handed over.
    drawing: Option<String>,
}

impl Newest {
    /// Nothing was handed over so far, when the clock shows `now`, by a machine that is judged by these limits, and whose
    /// sources have these addresses.
    pub(crate) fn nothing(now: u64, limits: Limits, addresses: Arc<Addresses, Global>) -> Newest {
        Newest {
            limits,
            addresses,
            status: None,
            at: now,
            evidence: None,
            widths: Widths::new(now),
            past: Past::new(now),
            drawing: None,
        }
    }

    /// What the status shows, with the evidence.
    fn view(&self, alloc: Global) -> Option<View> {
        let mut told = String::new(alloc);
        match &self.status {
            Some(status) => push_status(&mut told, status, self.addresses.all()).ok()?,
            None => return None,
        }
        let evidence = match &self.evidence {
            Some(text) => text.as_bytes(),
            None => &[],
        };
        read_view(alloc, told.as_bytes(), evidence).ok()
    }

    /// Draws the status where that is asked for and not done yet, so once for each status at most.
    fn draw(&mut self, alloc: Global, asked: Asked, now: Now) {
        if self.drawing.is_some() || !wants_drawing(asked) {
            return;
        }
        if let Some(view) = self.view(alloc) {
            self.past.see(&view, now.clock);
            self.drawing = self.drawing_of(alloc, &view, now);
        }
    }

    /// The part of a page that shows this. None if it is out of memory.
    fn drawing_of(&self, alloc: Global, view: &View, now: Now) -> Option<String> {
        let form = Form {
            columns: 80,
            ascii: true,
            colour: false,
            silent_after: self.limits.fresh,
            max_width: self.limits.max_width,
            age: None,
            time: now.time,
        };
        let widths = self.widths.list(alloc).ok()?;
        let mut text = String::new(alloc);
        push_drawing(alloc, &mut text, view, &form, widths.as_slice(), &self.past).ok()?;
        Some(text)
    }
}

impl Shows for Newest {
    fn take<R: Wait>(&mut self, rt: &R, lanes: &PageLanes) {
        if let Some(taken) = lanes.status.take_waiting(rt) {
            let at = taken.at;
            if let PageShown::Machine(status) = taken.shown {
                self.widths.see(status.width.unwrap_or(0), at);
                self.status = Some(status);
                self.at = at;
                self.drawing = None;
            }
        }
        if let Some(text) = lanes.evidence.take_waiting(rt) {
            self.evidence = Some(text);
        }
    }

    fn answer(&mut self, alloc: Global, asked: Asked, now: Now) -> Option<String> {
        self.draw(alloc, asked, now);
        let report = Report {
            status: &self.status,
            addresses: self.addresses.all(),
            age: now.clock.saturating_sub(self.at),
            evidence: &self.evidence,
            drawing: &self.drawing,
            time: now.time,
            limits: self.limits,
        };
        let mut text = String::new(alloc);
        match push_answer(&mut text, alloc, asked, &report) {
            Ok(()) => Some(text),
            Err(_) => None,
        }
    }
}

/// Whether the page for people is asked for.
fn wants_drawing(asked: Asked) -> bool {
    matches!(
        asked,
        Asked::Wants(Wanted::Whole(Some(Page::Start)) | Wanted::Head(Some(Page::Start)))
    )
}

/// The address of pages with the connections that are served, and what their thread waits with.
#[derive(Drop)]
pub(crate) struct PageHost {
    alloc: Global,
    listener: TcpListener,
    is_open: bool,
    poll: Poll,
    events: Events,
    visitors: Vec<Option<Visitor>>,
    /// How long the next wait is at most, in nanoseconds. None for a second.
    pause: Option<u64>,
}

impl PageHost {
    /// The pages at this address of which nobody has asked for any; `is_open` says whether they are given to other hosts, too.
    /// Refuses with the error of the system, also if it is out of memory.
    pub(crate) fn new<R: Net>(
        rt: &R,
        alloc: Global,
        listener: TcpListener,
        is_open: bool,
    ) -> io::Result<PageHost> {
        let poll = Poll::new(rt)?;
        listener.set_nonblocking(true)?;
        let descriptor = listener.as_raw_fd();
        poll.registry()
            .register(&mut SourceFd(&descriptor), ANY, Interest::READABLE)?;
        let events = Events::with_capacity(alloc, EVENTS)?;
        let visitors = no_visitors(alloc)?;
        Ok(PageHost {
            alloc,
            listener,
            is_open,
            poll,
            events,
            visitors,
            pause: Some(0),
        })
    }

    /// Waits until a connection comes, gives something or takes something, or has had its time, for a second at most. If the
    /// system refuses to wait, it sleeps for a tenth of a second.
    fn wait<R: SystemClock>(&mut self, rt: &R) {
        let now = clock_of(rt);
        let mut most = self.pause.unwrap_or(LOOKS);
        for slot in &self.visitors {
            if let Some(visitor) = slot {
                most = most.min(left_of(visitor.began, now));
            }
        }
        let most = Some(Duration::from_nanos(most));
        if self.poll.poll(&mut self.events, most).is_err() {
            thread::sleep(rt, Duration::from_nanos(PAUSE));
        }
    }

    /// Accepts connections that have come, and says how long the next wait is at most because of that.
    fn accept_some(&mut self, now: u64) {
        self.pause = Some(0);
        for _ in 0..ACCEPTS {
            match self.listener.accept() {
                Ok((stream, peer)) => {
                    if self.is_open || peer.ip().is_loopback() {
                        self.put(Visitor::new(self.alloc, stream, now));
                    }
                }
                Err(error) => {
                    self.pause = match error.kind() {
                        io::ErrorKind::WouldBlock => None,
                        _ => Some(PAUSE),
                    };
                    return;
                }
            }
        }
    }

    /// Serves this connection from now on. If all places are taken, the connection that was accepted before all others is
    /// closed.
    fn put(&mut self, visitor: Visitor) {
        if visitor.stream.set_nonblocking(true).is_err() {
            return;
        }
        let descriptor = visitor.stream.as_raw_fd();
        let both = Interest::READABLE | Interest::WRITABLE;
        let registry = self.poll.registry();
        if registry
            .register(&mut SourceFd(&descriptor), ANY, both)
            .is_err()
        {
            return;
        }
        let place = self.next_place();
        if let Some(slot) = self.visitors.get_mut(place) {
            *slot = Some(visitor);
        }
    }

    /// A place that is free, or else that of the connection that was accepted before all others.
    fn next_place(&self) -> usize {
        let mut oldest: Option<(usize, u64)> = None;
        for place in 0..self.visitors.len() {
            match self.visitors.get(place) {
                Some(Some(visitor)) => {
                    let is_older = match oldest {
                        Some((_, began)) => visitor.began < began,
                        None => true,
                    };
                    if is_older {
                        oldest = Some((place, visitor.began));
                    }
                }
                _ => return place,
            }
        }
        match oldest {
            Some((place, _)) => place,
            None => 0,
        }
    }

    /// A turn of each connection, and the end of those that are over or have had their time when the clock shows `now`.
    fn serve_all<S: Shows>(&mut self, newest: &mut S, now: Now) {
        for slot in self.visitors.iter_mut() {
            let goes_on = match slot {
                Some(visitor) => {
                    left_of(visitor.began, now.clock) > 0 && serve(self.alloc, visitor, newest, now)
                }
                None => true,
            };
            if !goes_on {
                *slot = None;
            }
        }
    }
}

/// A turn of this connection. Answers whether it goes on.
fn serve<S: Shows>(alloc: Global, visitor: &mut Visitor, newest: &mut S, now: Now) -> bool {
    let turn = match visitor.turn() {
        Turn::Asks(asked) => match newest.answer(alloc, asked, now) {
            Some(answer) => visitor.give(answer),
            None => Turn::Over,
        },
        turn => turn,
    };
    matches!(turn, Turn::Waits)
}

/// Places at which no connection is served.
fn no_visitors(alloc: Global) -> Result<Vec<Option<Visitor>>, AllocError> {
    let mut visitors = Vec::with_capacity(alloc, PLACES)?;
    for _ in 0..PLACES {
        visitors.push(None)?;
    }
    Ok(visitors)
}

/// Answers requests, one of each connection.
pub(crate) fn give_pages<R: Wait + SystemClock, S: Shows + Drop>(
    rt: &R,
    records: &Records,
    host: PageHost,
    newest: S,
) {
    let mut host = host;
    let mut newest = newest;
    for _ in rt.forever() {
        host.wait(rt);
        newest.take(rt, &records.pages);
        let now = Now {
            clock: clock_of(rt),
            time: time_of(rt),
        };
        host.accept_some(now.clock);
        host.serve_all(&mut newest, now);
    }
    unreachable!()
}
