//! The service of one thread.

ghost use Rattle.std.specs.Prelude.{◌≡◌};
ghost use Rattle.tt_span.specs.Interval.{whole};
ghost use Rattle.tt_session.specs.Desk.{Allows, id_at};

use crate::commits::{CommitBook, begin_commit};
use crate::faults::{CommitFault, LineFault};
use crate::services::Service;
use std::marker::Model;
use tt_publish::{Clock, Reading, Watch};
use tt_span::Span;
use tt_stamp::{Book, Id, Row};

/// The service of one thread: a watch with its clock, a row of stamps and a book of its own. In contracts it is its
/// parts.
///
/// Commits are numbered within one session. Only `begin` takes memory, from the book's allocator. No call waits.
#[derive(Drop)]
pub struct Desk<C> {
    session: u32,
    watch: Watch,
    clock: C,
    row: Row,
    lease: Span,
    book: Book,
}

impl<C> Model for Desk<C> {
    ghost use Rattle.tt_session.specs.Desk.{DeskState};

    ghost Value = { DeskState C };

    ghost view = { λ d. record { session = d.session; watch = d.watch; clock = d.clock; row = d.row; lease = d.lease; book = d.book } };
}

impl<C> Desk<C> {
    /// The desk of the session with this number. Its lease is the whole of time.
    pub fn new(session: u32, watch: Watch, clock: C, row: Row, book: Book) -> Self
        ensures made { result ≡ record { session = session; watch = watch; clock = clock; row = row; lease = whole; book = book } }
    {
        Desk {
            session,
            watch,
            clock,
            row,
            lease: Span::whole(),
            book,
        }
    }

    /// Sets the lease: from now on stamps lie in it.
    pub fn set_lease(&mut self, lease: Span)
        ensures set { self.new ≡ record self.old { lease = lease } }
    {
        self.lease = lease;
    }

    /// Its book.
    pub fn book(&self) -> &Book
        ensures shows { result.now ≡ self.now.book }
    {
        &self.book
    }

    /// The id of the session's commit with this number.
    fn id(&self, number: u64) -> Id
        ensures { result ≡ id_at self.now number }
    {
        Id {
            session: self.session,
            number,
        }
    }
}

impl<C: Clock> Service for Desk<C> {
    ghost allows = { Allows C.gives C.failed };

    /// One [`Watch::now`]. Refuses as `now` does, in this order: 801, 803, 802.
    fn now(&mut self) -> Result<Reading, u16> {
        let reading = self.watch.now(&mut self.clock).map_err(CommitFault::Read)?;
        Ok(reading)
    }

    /// One [`Watch::now`], then one [`begin_commit`] by this reading: one [`Row::stamp`] in the lease, then one
    /// [`Book::queue`] of the commit with this number, under the stamp. Answers the stamp, in nanoseconds.
    ///
    /// Refuses with the number of the first of these calls that refuses: 801, 803, 802, 902, 901, 903, 1001, 1002,
    /// 1003, 1. If the book refuses, the stamp is lost. After any other refusal the row and the book are as they were.
    fn begin(&mut self, number: u64, floor: u64) -> Result<u64, u16> {
        let id = self.id(number);
        let reading = self.watch.now(&mut self.clock).map_err(CommitFault::Read)?;
        let stamp = begin_commit(
            &mut self.row,
            &mut self.book,
            &reading,
            id,
            floor,
            &self.lease,
        )?;
        Ok(stamp)
    }

    /// The line of a session sets no lease of a desk: refuses with 1101, and nothing is done.
    fn lease(&mut self, _lo: u64, _hi: u64) -> Result<(), u16> {
        Err(LineFault::BadLine.number())
    }

    /// One [`Watch::now`], then one [`Book::release`] by this reading. Answers whether the book has released the commit
    /// with this number. Refuses as the reading does, in this order: 801, 803, 802.
    fn pass(&mut self, number: u64) -> Result<bool, u16> {
        let id = self.id(number);
        let reading = self.watch.now(&mut self.clock).map_err(CommitFault::Read)?;
        let receipt = self.book.release_commits(&reading, id);
        Ok(receipt.is_some())
    }
}
