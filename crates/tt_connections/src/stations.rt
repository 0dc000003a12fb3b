//! The service of one session.

ghost use Rattle.std.specs.Prelude.{◌≡◌, [], Bool, None, Ok};
ghost use Rattle.tt_span.specs.Interval.{whole};
ghost use Rattle.tt_connections.specs.declared.presence.Question.TheVariants.{IsBroken};
ghost use Rattle.tt_connections.specs.Station.{Allows, AnswersReceipt, BeginsAt, LooksPost, SetsLease, admission};

use crate::faults::StationFault;
use crate::pages::Page;
use crate::posts::Post;
use crate::presence::Presence;
use std::alloc::Global;
use std::marker::Model;
use std::sync::Wait;
use tt_publish::{Clock, Reading};
use tt_session::{CommitBook, CommitFault, Service, begin_commit};
use tt_span::Span;
use tt_stamp::Id;

/// The service of one session: the post of its worker, its client, a lease and a book of its own. In contracts it is
/// these four.
///
/// If no commit of the session is pending, the next one is queued into an empty book. At most one commit of a session
/// is pending, so its book has two entries at most, however long it goes on.
#[derive(Drop)]
pub struct Station<'a, 'c, R, C, V> {
    post: Post<'a, R, C>,
    client: &'c V,
    /// Stamps lie in this lease and in that of the machine. It is the whole of time until the client sets one.
    lease: Span,
    book: Page,
}

impl<'a, 'c, R, C, V> Model for Station<'a, 'c, R, C, V> {
    ghost use Rattle.tt_connections.specs.Station.{StationState};

    ghost Value = { StationState C V };

    ghost view = { λ s. record { post = s.post; client = s.client.now; lease = s.lease; book = s.book } };
}

impl<'a, 'c, R: Wait, C: Clock, V: Presence> Station<'a, 'c, R, C, V> {
    /// The service of this client at the beginning of its session.
    pub fn open(post: Post<'a, R, C>, alloc: Global, client: &'c V) -> Self
        ensures opened { result ≡ record { post = post.entry; client = client.now; lease = whole; book = [] } }
    {
        Self::resume(post, client, Span::whole(), Page::new(alloc))
    }

    /// The service of this client in a session that goes on: with this lease and this book.
    pub(crate) fn resume(post: Post<'a, R, C>, client: &'c V, lease: Span, book: Page) -> Self
        ensures resumed { result ≡ record { post = post.entry; client = client.now; lease = lease; book = book } }
    {
        Station {
            post,
            client,
            lease,
            book,
        }
    }

    /// Gives the post back, with the lease and the book of the session, which goes on later.
    pub(crate) fn suspend(self) -> (Post<'a, R, C>, Span, Page)
        ensures post { result.0 ≡ self.entry.post }
        ensures lease { result.1 ≡ self.entry.lease }
        ensures book { result.2 ≡ self.entry.book }
    {
        let Station {
            post,
            lease,
            book,
            ..
        } = self;
        (post, lease, book)
    }

    /// Ends the session, and gives the post back. The client's device is told if a commit is still pending.
    pub fn close(self) -> Post<'a, R, C>
        ensures post { result ≡ self.entry.post }
    {
        if self.book.is_pending() {
            self.client.ended_waiting(false);
        }
        let Station { post, .. } = self;
        post
    }

    /// This reading, if it may be used. Refuses, in this order: 1823 if the machine knows that one of its assumptions is
    /// broken, 1824 if the reading is wider than the terms allow.
    fn admit(&self, reading: Reading) -> Result<Reading, u16>
        ensures { (broken : Bool) × V.says self.now.client IsBroken broken × (result ≡ admission broken self.now.post.max_width reading) }
    {
        if self.client.is_broken() {
            return Err(StationFault::Broken.number());
        }
        if self.post.is_too_wide(&reading) {
            return Err(StationFault::TooWide.number());
        }
        Ok(reading)
    }

    /// One [`Watch::now`](tt_publish::Watch::now), whose reading may be used. Refuses, in this order: 801, 803, 802 as
    /// `now` does, 1823 if the machine knows that one of its assumptions is broken, 1824 if the reading is wider than the
    /// terms allow.
    fn look(&mut self) -> Result<Reading, u16>
        ensures looks { LooksPost C.gives C.failed V.says self.old.client self.old.post result self.new.post }
        ensures same { self.new ≡ record self.old { post = record self.old.post { watch = self.new.post.watch; clock = self.new.post.clock } } }
    {
        let reading = self.post.read().map_err(CommitFault::Read)?;
        self.admit(reading)
    }

    /// Stamps the commit with this number by this reading, and queues it. Answers the stamp. Refuses with 1821 if the floor
    /// lies too far ahead, and as [`begin_commit`] does.
    fn commit_at(&mut self, reading: &Reading, number: u64, floor: u64) -> Result<u64, u16>
        ensures begins { BeginsAt self.old number floor result self.new (Ok reading.now) }
        ensures same { self.new ≡ record self.old { post = record self.old.post { seat = self.new.post.seat }; book = self.new.book } }
    {
        if self.post.is_above_cap(reading, floor.max(self.lease.lo())) {
            return Err(StationFault::FloorAboveCap.number());
        }
        let id = Id { session: 0, number };
        let stamp = begin_commit(
            &mut self.post,
            &mut self.book,
            reading,
            id,
            floor,
            &self.lease,
        )?;
        self.client.began_waiting();
        Ok(stamp)
    }

    /// Waits for what is left of the pause behind the last release step of the commit, if one was made: for all of it if
    /// the client's device has no clock, and not at all if that could not be read at the step, but can now.
    fn wait_on(&self) {
        let Some(missed) = self.book.missed() else {
            return;
        };
        let clock = self.client.clock();
        let left = match missed.left_by(clock) {
            Some(left) => left,
            None if clock.is_none() => missed.pause(),
            None => 0,
        };
        if left > 0 {
            self.post.pause(left);
        }
    }

    /// The answer for a pending commit, after a step by a reading with this earliest: no, or a refusal if the client has
    /// left.
    fn put_off(&mut self, earliest: u64) -> Result<bool, u16>
        ensures answer { AnswersReceipt V.says self.old.client result None }
        ensures same { self.new ≡ self.old }
    {
        if self.client.has_left() {
            return Err(StationFault::ClientLeft.number());
        }
        self.book.miss(earliest, self.client.clock());
        Ok(false)
    }
}

impl<'a, 'c, R: Wait, C: Clock, V: Presence> Service for Station<'a, 'c, R, C, V> {
    ghost allows = { Allows C.gives C.failed V.says };

    /// One [`Watch::now`](tt_publish::Watch::now). Refuses, in this order: 801, 803, 802 as `now` does, 1823 if the
    /// machine knows that one of its assumptions is broken, 1824 if the reading is wider than the terms allow.
    fn now(&mut self) -> Result<Reading, u16> {
        self.look()
    }

    /// One [`Watch::now`](tt_publish::Watch::now), then one [`Sequencer::stamp`](tt_stamp::Sequencer::stamp) by this
    /// reading, in the lease, then one [`Book::queue`] of the commit with this number, under the stamp. Answers the
    /// stamp, in nanoseconds. The lease is what the leases of the session and of the machine have in common, without the
    /// interval of the stampers: on the side of it where the least stamp that reading, floor and leases allow lies.
    ///
    /// Refuses, in this order: 801, 803, 802 if there is no reading, 1823, 1824 if it is not used, as at `now`, 1821 if
    /// the floor, or the lower end of the session's lease, lies further ahead of the latest of the reading than the terms
    /// allow, 903 if nothing is left of the two leases there, 902, 901, 903 if there is no stamp, 1001, 1002, 1003, 1 if the
    /// commit is not queued: then the stamp is lost. After any other refusal the seat has given no stamp, and the book is
    /// as it was.
    fn begin(&mut self, number: u64, floor: u64) -> Result<u64, u16> {
        let now = self.look()?;
        self.commit_at(&now, number, floor)
    }

    /// Sets the lease of the session, by its ends in nanoseconds. Refuses as [`Span::new`] does, and the lease stays:
    /// 101, 102.
    fn lease(&mut self, lo: u64, hi: u64) -> Result<(), u16>
        ensures sets { SetsLease lo hi self.old result self.new }
    {
        match Span::new(lo, hi) {
            Ok(lease) => {
                self.lease = lease;
                Ok(())
            }
            Err(fault) => Err(fault.number()),
        }
    }

    /// One [`Watch::now`](tt_publish::Watch::now), then one [`Book::release`] by this reading. Answers whether the
    /// commit with this number is released then. The first step of a commit is made at once. A pause comes before each
    /// further one: until the stamp should have passed, and at most [`MAX_PAUSE`](tt_session::MAX_PAUSE) and its margin.
    ///
    /// Refuses, in this order: 801, 803, 802 if there is no reading, 1823, 1824 if it is not used, as at `now`, and then
    /// nothing is released, 1822 if the commit is pending and the client has left.
    fn pass(&mut self, number: u64) -> Result<bool, u16> {
        self.wait_on();
        let reading = self.look()?;
        let id = Id { session: 0, number };
        match self.book.release_commits(&reading, id) {
            Some(_) => {
                self.client.ended_waiting(true);
                Ok(true)
            }
            None => self.put_off(reading.earliest()),
        }
    }
}
