//! What the reporter's threads share with the threads that log.

use crate::clocks::{clock_of, time_of};
use crate::files::{Break, Shown};
use crate::lanes::Lane;
use crate::limits::{Asked, KINDS, LogLimits};
use std::alloc::{AllocError, Global};
use std::sync::atomic::{AtomicU64, Ordering};
use std::sync::{Arc, Mutex, Wait};
use std::time::Clock as SystemClock;
use tt_master::Silence;
use tt_status::{LogEvent, LogLine, MasterStatus, Status};

/// How many lines may wait to be written.
pub const CAPACITY: usize = 256;

/// The evidence that waits to be written.
#[derive(Drop)]
pub(crate) struct EvidenceLanes {
    /// One place, for the newest evidence.
    pub(crate) newest: Lane<String>,
    /// One place, for that of the newest break. The thread that takes it sleeps at `newest`.
    pub(crate) breaks: Lane<Break>,
}

impl EvidenceLanes {
    /// No evidence was handed over so far.
    fn new(alloc: Global) -> Result<EvidenceLanes, AllocError> {
        Ok(EvidenceLanes {
            newest: Lane::new(alloc, 1)?,
            breaks: Lane::new(alloc, 1)?,
        })
    }
}

/// The status that pages show.
#[derive(Drop)]
pub(crate) enum PageShown {
    /// That of a machine.
    Machine(Status),
    /// That of a master, and why it answered no poll then, if it did not.
    Master(Arc<MasterStatus, Global>, Option<Silence>),
}

/// A status, and the reading of the monotonic clock at which it was handed over, in nanoseconds.
#[derive(Drop)]
pub(crate) struct PageStatus {
    pub(crate) shown: PageShown,
    pub(crate) at: u64,
}

/// What waits to be shown over HTTP. What gives its place to a newer one is not counted as left out.
#[derive(Drop)]
pub(crate) struct PageLanes {
    /// One place, for the newest status.
    pub(crate) status: Lane<PageStatus>,
    /// One place, for the newest evidence.
    pub(crate) evidence: Lane<String>,
}

impl PageLanes {
    /// Nothing was handed over so far.
    fn new(alloc: Global) -> Result<PageLanes, AllocError> {
        Ok(PageLanes {
            status: Lane::new(alloc, 1)?,
            evidence: Lane::new(alloc, 1)?,
        })
    }
}

/// The records that wait to be written, and what is kept of those that were handed over.
#[derive(Drop)]
pub(crate) struct Records {
    pub(crate) lines: Lane<LogLine>,
    /// One place, for the newest status.
    pub(crate) statuses: Lane<Shown>,
    pub(crate) evidence: Box<EvidenceLanes, Global>,
    pub(crate) pages: Box<PageLanes, Global>,
    /// The clock reading at which the publication began that is made now, in nanoseconds; 0 for none.
    pub(crate) since: AtomicU64,
    /// How long a publication may last, in nanoseconds.
    pub(crate) most: AtomicU64,
    limits: Mutex<LogLimits>,
    /// How many records wait, or are being written.
    unwritten: AtomicU64,
    /// How many records found no place.
    left_out: AtomicU64,
}

impl Records {
    /// No record was handed over so far.
    pub(crate) fn new(alloc: Global) -> Result<Records, AllocError> {
        let evidence = boxed_lanes(alloc)?;
        let pages = boxed_pages(alloc)?;
        let lines = Lane::new(alloc, CAPACITY)?;
        let statuses = Lane::new(alloc, 1)?;
        Ok(Records {
            lines,
            statuses,
            evidence,
            pages,
            since: AtomicU64::new(0),
            most: AtomicU64::new(u64::MAX),
            limits: Mutex::new(LogLimits::new()),
            unwritten: AtomicU64::new(0),
            left_out: AtomicU64::new(0),
        })
    }

    /// Hands over the line of an event, unless the pause behind the one before of its kind is not over, or no place is free.
    /// It writes nothing itself.
    pub(crate) fn log<R: Wait + SystemClock>(&self, rt: &R, event: LogEvent) {
        let now = clock_of(rt);
        let time = time_of(rt);
        let admitted = self.admit(rt, Asked { time, event }, now);
        if let Some(left_out) = admitted {
            self.hand_over(
                rt,
                LogLine {
                    time,
                    event,
                    left_out,
                },
            );
        }
    }

    /// Whether a line is handed over at this clock reading, and how many of its kind were left out.
    fn admit<R: Wait>(&self, rt: &R, line: Asked, now: u64) -> Option<u64> {
        let mut limits = self.limits.lock(rt);
        limits.turn(line.event);
        limits.admit(line, now)
    }

    /// Hands over a line that its limit lets pass. If no place is free, it is lost.
    fn hand_over<R: Wait>(&self, rt: &R, line: LogLine) {
        self.unwritten.fetch_add(1, Ordering::SeqCst);
        let fits = self.lines.push(rt, line);
        self.limits.lock(rt).settle(line.event, line.left_out, fits);
        if !fits {
            self.leave_out();
        }
    }

    /// Hands over of each kind the newest line that was left out, if the pause is over and no line came since. Each has the
    /// time at which it was logged.
    pub(crate) fn release<R: Wait + SystemClock>(&self, rt: &R) {
        let now = clock_of(rt);
        for kind in 0..KINDS {
            let released = self.limits.lock(rt).release(kind, now);
            if let Some(line) = released {
                self.hand_over(rt, line);
            }
        }
    }

    /// Hands over a status. One that still waits gives its place to it, and is left out. It writes nothing itself.
    pub(crate) fn show<R: Wait>(&self, rt: &R, status: Shown) {
        self.unwritten.fetch_add(1, Ordering::SeqCst);
        if !self.statuses.push_newest(rt, status) {
            self.leave_out();
        }
    }

    /// Hands over the newest evidence. A text that still waits gives its place to it, and is left out. It writes nothing
    /// itself.
    pub(crate) fn prove<R: Wait>(&self, rt: &R, text: String) {
        self.unwritten.fetch_add(1, Ordering::SeqCst);
        if !self.evidence.newest.push_newest(rt, text) {
            self.leave_out();
        }
    }

    /// Hands over a status for pages. One that still waits gives its place to it.
    pub(crate) fn show_page<R: Wait + SystemClock>(&self, rt: &R, shown: PageShown) {
        let at = clock_of(rt);
        let _ = self.pages.status.push_newest(rt, PageStatus { shown, at });
    }

    /// Hands over the newest evidence for pages. A text that still waits gives its place to it.
    pub(crate) fn prove_page<R: Wait>(&self, rt: &R, text: String) {
        let _ = self.pages.evidence.push_newest(rt, text);
    }

    /// Hands over the evidence of a break. That of a break before, which still waits, gives its place to it, and is left
    /// out. It writes nothing itself.
    pub(crate) fn keep_break<R: Wait>(&self, rt: &R, of: Break) {
        self.unwritten.fetch_add(1, Ordering::SeqCst);
        if !self.evidence.breaks.push_newest(rt, of) {
            self.leave_out();
        }
        self.evidence.newest.wake();
    }

    /// Counts a record that was handed over and found no place.
    fn leave_out(&self) {
        self.left_out.fetch_add(1, Ordering::SeqCst);
        self.unwritten.fetch_sub(1, Ordering::SeqCst);
    }

    /// Counts a record that was written, or was lost on its way.
    pub(crate) fn written(&self) {
        self.unwritten.fetch_sub(1, Ordering::SeqCst);
    }

    /// Whether no record waits and none is being written.
    pub(crate) fn all_written(&self) -> bool {
        self.unwritten.load(Ordering::SeqCst) == 0
    }

    /// How many records found no place, so far.
    pub(crate) fn left_out(&self) -> u64 {
        self.left_out.load(Ordering::SeqCst)
    }
}

/// Lanes of evidence, on the heap.
fn boxed_lanes(alloc: Global) -> Result<Box<EvidenceLanes, Global>, AllocError> {
    let lanes = Box::new(alloc, EvidenceLanes::new(alloc)?)?;
    Ok(lanes)
}

/// Lanes of pages, on the heap.
fn boxed_pages(alloc: Global) -> Result<Box<PageLanes, Global>, AllocError> {
    let lanes = Box::new(alloc, PageLanes::new(alloc)?)?;
    Ok(lanes)
}
