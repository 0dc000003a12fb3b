//! The steps of a commit, over any source of stamps and any book; and the pause before its next release step.

ghost use Rattle.std.specs.Prelude.{◌≡◌};
ghost use Rattle.tt_stamp.specs.Steps.{Stamps, StampsRow};
ghost use Rattle.tt_session.specs.Commits.{CommitsBy, ReleasesBy, pause_of};
ghost use Rattle.tt_session.specs.Desk.{Queues};

use crate::faults::CommitFault;
use std::marker::Model;
use std::sync::Wait;
use std::thread::Parker;
use std::time::Duration;
use tt_publish::Reading;
use tt_span::Span;
use tt_stamp::{Book, BookFault, Id, Receipt, Row, Seat, Sequencer, StampFault};

/// The longest pause of one release step, in nanoseconds, without the margin: a twentieth of a second.
pub const MAX_PAUSE: u64 = 50_000_000;

/// How much longer a pause is than the time that is missing, in nanoseconds: the clock may be slow.
pub const PAUSE_MARGIN: u64 = 1_000;

/// What gives commits their stamps: a row, or a seat at its sequencer.
pub trait StampSource {
    ghost use Rattle.std.specs.Prelude.{ℕ, Result};
    ghost use Rattle.tt_span.specs.Interval.{Interval};
    ghost use Rattle.tt_stamp.specs.declared.faults.StampFault.{StampFault};

    /// What one stamp does, for a floor, in a lease and by a reading: the source before it, the answer, and the source
    /// after it.
    ghost stamps: { ℕ → Interval → Interval → Self → Result ℕ StampFault → Self → Type 0 };

    /// Gives a stamp of `floor` nanoseconds at least, in the lease, by this reading.
    fn next_stamp(&mut self, reading: &Reading, floor: u64, lease: &Span) -> Result<u64, StampFault>
        ensures { stamps floor lease.now reading.now self.old result self.new };
}

/// A book that commits are queued in and released from: one of its own, or one that threads share.
pub trait CommitBook {
    ghost use Rattle.std.specs.Prelude.{ℕ, Option, Result};
    ghost use Rattle.tt_span.specs.Interval.{Interval};
    ghost use Rattle.tt_stamp.specs.declared.commits.Id.{Id};
    ghost use Rattle.tt_stamp.specs.declared.commits.Receipt.{Receipt};
    ghost use Rattle.tt_stamp.specs.declared.faults.BookFault.{BookFault};

    /// What one queueing of this id under this stamp does: the book before it, the answer, and the book after it.
    ghost queues: { Self → Id → ℕ → Result (Unit {0}) BookFault → Self → Type 0 };

    /// What one release by this reading does: the book before it, the receipt of this id then, and the book after it.
    ghost releases: { Self → Interval → Id → Option Receipt → Self → Type 0 };

    /// Queues a commit under its stamp, in nanoseconds.
    fn queue_commit(&mut self, id: Id, stamp: u64) -> Result<(), BookFault>
        ensures { queues self.old id stamp result self.new };

    /// Releases each commit whose stamp has surely passed by this reading. Answers the receipt of the commit with this
    /// id, if it is released then.
    fn release_commits(&mut self, reading: &Reading, id: Id) -> Option<Receipt>
        ensures { releases self.old reading.now id result self.new };
}

impl StampSource for Row {
    ghost stamps = { StampsRow };

    fn next_stamp(
        &mut self,
        reading: &Reading,
        floor: u64,
        lease: &Span,
    ) -> Result<u64, StampFault> {
        self.stamp(reading, floor, lease)
    }
}

/// A seat at its sequencer, which other threads share, and what makes the pauses of its thread. In contracts it is the
/// seat.
#[derive(Drop)]
pub struct StampSeat<'a, R> {
    rt: &'a R,
    sequencer: &'a Sequencer,
    seat: Seat,
    /// Makes the pauses. Nothing ends one before its time.
    parker: Parker,
}

impl<'a, R> Model for StampSeat<'a, R> {
    ghost use Rattle.std.specs.Prelude.{◌≡◌};
    ghost use Rattle.tt_stamp.specs.Stamping.{SeatState};

    ghost Value = { SeatState };

    ghost view = { λ s. s.seat };

    ghost invariant = { λ s. s.seat.table ≡ s.sequencer.now };
}

impl<'a, R> StampSeat<'a, R> {
    /// A seat at its sequencer. Requires: the seat is of the sequencer.
    pub fn new(rt: &'a R, sequencer: &'a Sequencer, seat: Seat) -> Self
        requires of_it { seat.table ≡ sequencer.now }
        ensures made { result ≡ seat }
    {
        StampSeat {
            rt,
            sequencer,
            seat,
            parker: Parker::new(),
        }
    }

    /// Its seat alone.
    pub fn into_seat(self) -> Seat
        ensures seat { result ≡ self.entry }
    {
        let StampSeat { seat, .. } = self;
        seat
    }
}

impl<'a, R: Wait> StampSeat<'a, R> {
    /// Waits for [`pause_for`] this stamp and this earliest, in nanoseconds.
    pub fn pause(&self, stamp: u64, earliest: u64) {
        let pause = Duration::from_nanos(pause_for(stamp, earliest));
        self.parker.park_timeout(self.rt, pause);
    }
}

impl<'a, R: Wait> StampSource for StampSeat<'a, R> {
    ghost stamps = { Stamps };

    /// One [`Sequencer::stamp`]. It may wait, as that does.
    fn next_stamp(
        &mut self,
        reading: &Reading,
        floor: u64,
        lease: &Span,
    ) -> Result<u64, StampFault> {
        self.sequencer
            .stamp(self.rt, &mut self.seat, reading, floor, lease)
    }
}

impl CommitBook for Book {
    ghost queues = { Queues };

    ghost releases = { ReleasesBy };

    /// One [`Book::queue`].
    fn queue_commit(&mut self, id: Id, stamp: u64) -> Result<(), BookFault> {
        self.queue(id, stamp)
    }

    /// One [`Book::release`], then one [`Book::is_released`].
    #[tactic(auto, using(crate::proofs::Receipts::sure))]
    fn release_commits(&mut self, reading: &Reading, id: Id) -> Option<Receipt> {
        self.release(reading);
        // Its law: the history is legal.
        let _ = self.history();
        self.is_released(id)
    }
}

/// Begins a commit by a reading that was taken: it is stamped by one [`StampSource::next_stamp`], with a stamp of
/// `floor` nanoseconds at least and in the lease, and queued under its stamp by one [`CommitBook::queue_commit`].
/// Answers the stamp, in nanoseconds.
///
/// Refuses as the first of these two that refuses. If the book refuses, the stamp is lost; if there is no stamp, the
/// book is as it was.
pub fn begin_commit<S: StampSource, B: CommitBook>(
    source: &mut S,
    book: &mut B,
    reading: &Reading,
    id: Id,
    floor: u64,
    lease: &Span,
) -> Result<u64, CommitFault>
    ensures { CommitsBy (S.stamps floor lease.now reading.now) B.queues id source.old book.old result source.new book.new }
{
    let stamp = source
        .next_stamp(reading, floor, lease)
        .map_err(CommitFault::Stamp)?;
    book.queue_commit(id, stamp).map_err(CommitFault::Queue)?;
    Ok(stamp)
}

/// How long a service waits, in nanoseconds, after a release step that did not release the commit with this stamp: for
/// the time from the earliest of the step's reading to the stamp, at most [`MAX_PAUSE`], and [`PAUSE_MARGIN`] more.
pub fn pause_for(stamp: u64, earliest: u64) -> u64
    ensures { result ≡ pause_of stamp earliest }
{
    stamp.saturating_sub(earliest).min(MAX_PAUSE) + PAUSE_MARGIN
}
