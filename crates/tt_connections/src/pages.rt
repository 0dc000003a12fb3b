//! The book of a session, and the pause before the next release step of its pending commit.

ghost use Rattle.std.specs.Prelude.{◌≡◌, nat_lt, length, [], None};
ghost use Rattle.tt_stamp.specs.History.{waiting_of};
ghost use Rattle.tt_session.specs.Commits.{ReleasesBy, pause_of};
ghost use Rattle.tt_connections.specs.Session.{pause_left};
ghost use Rattle.tt_connections.specs.Station.{QueuesPage};

use std::alloc::Global;
use std::marker::Model;
use tt_publish::Reading;
use tt_session::{CommitBook, pause_for};
use tt_stamp::{Book, BookFault, Id, Receipt};

/// The book of a session. If no commit is pending, the next one is queued into an empty book. In contracts it is its
/// book.
///
/// It takes memory when the first commit is queued: most sessions have none.
#[derive(Drop)]
pub(crate) struct Page {
    /// None before the first commit.
    commits: Option<Box<Commits>>,
    alloc: Global,
}

/// The commits of a session.
#[derive(Drop)]
struct Commits {
    book: Book,
    /// The stamp of the commit that was queued last, in nanoseconds.
    stamp: u64,
    /// The last release step of this commit, if one was made, and it was not released.
    missed: Option<Missed>,
}

/// A release step that did not release its commit, in nanoseconds.
#[derive(Clone, Copy)]
pub(crate) struct Missed {
    /// The stamp of the commit.
    stamp: u64,
    /// The earliest of the step's reading.
    earliest: u64,
    /// What the clock of the client's device showed then. None if it has none, or if that could not be read.
    clock: Option<u64>,
}

impl Missed {
    /// The pause behind the step: [`pause_for`] the stamp and the earliest of the step's reading.
    pub(crate) fn pause(&self) -> u64
        ensures { result ≡ pause_of self.now.stamp self.now.earliest }
    {
        pause_for(self.stamp, self.earliest)
    }

    /// How much of the pause behind a release step is left, in nanoseconds, and None if the clock of the client's device
    /// could not be read at the step, since what has gone by is never known then. If that clock shows this now, what has
    /// gone by since the step is taken off; nothing is if it can't be read now.
    pub(crate) fn left_by(&self, clock: Option<u64>) -> Option<u64>
        ensures value { result ≡ pause_left (pause_of self.now.stamp self.now.earliest) self.now.clock clock }
    {
        let before = self.clock?;
        let gone = match clock {
            Some(now) => now.saturating_sub(before),
            None => 0,
        };
        Some(self.pause().saturating_sub(gone))
    }
}

impl Model for Page {
    ghost use Rattle.std.specs.Prelude.{List};
    ghost use Rattle.tt_stamp.specs.declared.commits.Entry.{Entry};
    ghost use Rattle.tt_connections.specs.Station.{book_in};

    ghost Value = { List Entry };

    ghost view = { λ p. book_in p.commits (λ b. b.value.book) };
}

impl Page {
    /// The book of a session in which nothing has happened.
    pub(crate) fn new(alloc: Global) -> Self
        ensures { result ≡ [] }
    {
        Page {
            commits: None,
            alloc,
        }
    }

    /// Whether a commit is pending.
    pub(crate) fn is_pending(&self) -> bool
        ensures { result ≡ nat_lt 0 (length (waiting_of self.now)) }
    {
        match &self.commits {
            Some(commits) => commits.book.waiting() > 0,
            None => false,
        }
    }

    /// The last release step of the commit that was queued last, if one was made, and it was not released.
    pub(crate) fn missed(&self) -> Option<Missed> {
        match &self.commits {
            Some(commits) => commits.missed,
            None => None,
        }
    }

    /// Notes a release step that did not release the commit: by a reading with this earliest, when the client's device
    /// showed this.
    pub(crate) fn miss(&mut self, earliest: u64, clock: Option<u64>)
        ensures { self.new ≡ self.old }
    {
        if let Some(commits) = &mut self.commits {
            commits.missed = Some(Missed {
                stamp: commits.stamp,
                earliest,
                clock,
            });
        }
    }
}

impl Commits {
    /// No commits.
    fn new(alloc: Global) -> Self
        ensures { result.book ≡ [] }
    {
        Commits {
            book: Book::new(alloc),
            stamp: 0,
            missed: None,
        }
    }

    /// Queues a commit; if none is pending, into a new book.
    fn queue(&mut self, alloc: Global, id: Id, stamp: u64) -> Result<(), BookFault>
        ensures { QueuesPage self.old.book id stamp result self.new.book }
    {
        if self.book.waiting() == 0 {
            self.book = Book::new(alloc);
        }
        self.book.queue_commit(id, stamp)?;
        self.stamp = stamp;
        self.missed = None;
        Ok(())
    }
}

impl CommitBook for Page {
    ghost queues = { QueuesPage };

    ghost releases = { ReleasesBy };

    fn queue_commit(&mut self, id: Id, stamp: u64) -> Result<(), BookFault> {
        match &mut self.commits {
            Some(commits) => commits.queue(self.alloc, id, stamp),
            None => {
                let Ok(mut commits) = Box::new(self.alloc, Commits::new(self.alloc)) else {
                    return Err(BookFault::Memory);
                };
                let queued = commits.queue(self.alloc, id, stamp);
                self.commits = Some(commits);
                queued
            }
        }
    }

    fn release_commits(&mut self, reading: &Reading, id: Id) -> Option<Receipt> {
        match &mut self.commits {
            Some(commits) => commits.book.release_commits(reading, id),
            None => None,
        }
    }
}
