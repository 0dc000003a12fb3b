//! What the thread of a worker has beside its sessions.

use crate::connections::LineCounts;
use std::alloc::Global;
use std::sync::atomic::Ordering;
use std::sync::{Mutex, Wait};
use std::time::Clock as SystemClock;
use tt_clock::reading_of;
use tt_connections::{Backlog, Counts, Inbox, Listeners, Sight, Watcher};
use tt_session::Replies;

/// What a worker borrows, and how long a client may be silent, in nanoseconds.
#[derive(Drop)]
pub struct Tools<'a, R> {
    pub rt: &'a R,
    pub alloc: Global,
    pub listeners: &'a Listeners,
    /// Where its clients connect.
    pub backlog: &'a Backlog,
    /// Where its connections wait for it.
    pub inbox: &'a Inbox,
    pub counts: &'a Counts,
    pub idle: u64,
}

/// What the thread of a worker has beside its sessions: what it borrows, what it waits with, and what it counts.
#[derive(Drop)]
pub(crate) struct ThreadState<'a, R> {
    pub(crate) tools: Tools<'a, R>,
    pub(crate) watcher: Watcher,
    pub(crate) sight: Mutex<Sight>,
    /// How many sessions there are, and of how many bytes are held.
    pub(crate) open: usize,
    pub(crate) held: usize,
    /// The last clock reading, in nanoseconds: behind the last wait.
    pub(crate) clock: u64,
    /// The clock reading at the last look for clients that have had their time.
    pub(crate) looked: u64,
    /// The clock reading at which the shared counts were last told of the lines that were answered.
    pub(crate) told: u64,
    /// What the shared counts do not have yet.
    pub(crate) untold: LineCounts,
    pub(crate) replies: Replies,
}

impl<'a, R: Wait + SystemClock> ThreadState<'a, R> {
    /// A thread without sessions.
    pub(crate) fn new(tools: Tools<'a, R>, watcher: Watcher, sight: Sight) -> Self {
        ThreadState {
            tools,
            watcher,
            sight: Mutex::new(sight),
            open: 0,
            held: 0,
            clock: 0,
            looked: 0,
            told: 0,
            untold: LineCounts {
                lines: 0,
                refused: 0,
            },
            replies: Replies::new(),
        }
    }

    /// Reads the clock, and answers what it shows. The last reading stays as it was if that fails.
    pub(crate) fn read_clock(&mut self) -> Option<u64> {
        let now = reading_of(self.tools.rt)?;
        self.clock = now;
        Some(now)
    }

    /// Tells the shared counts of the lines that were answered since the last time.
    pub(crate) fn tell(&mut self) {
        self.told = self.clock;
        let counts = self.tools.counts;
        if self.untold.lines > 0 {
            counts.lines.fetch_add(self.untold.lines, Ordering::SeqCst);
            self.untold.lines = 0;
        }
        if self.untold.refused > 0 {
            counts
                .refused
                .fetch_add(self.untold.refused, Ordering::SeqCst);
            self.untold.refused = 0;
        }
    }

    /// Counts a session that has begun.
    pub(crate) fn enter(&mut self) {
        let counts = self.tools.counts;
        counts.open.fetch_add(1, Ordering::SeqCst);
        if self.open == 0 {
            counts.busy.fetch_add(1, Ordering::SeqCst);
        }
        self.open = self.open.saturating_add(1);
    }

    /// Counts a session that has ended.
    pub(crate) fn leave(&mut self) {
        let tools = &self.tools;
        self.open = self.open.saturating_sub(1);
        tools.counts.open.fetch_sub(1, Ordering::SeqCst);
        if self.open == 0 {
            tools.counts.busy.fetch_sub(1, Ordering::SeqCst);
        }
        tools.backlog.leave(tools.inbox);
        tools.counts.sessions.fetch_add(1, Ordering::SeqCst);
    }
}
