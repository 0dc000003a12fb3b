//! The service of one worker of a running node.

ghost use Rattle.std.specs.Prelude.{◌≡◌, [], Some, None, IfOk, IfErr, IsErrOf, OnErr};
ghost use Rattle.tt_stream.specs.Counts.{HasFailed};
ghost use Rattle.tt_node.specs.Gating.{Asks};
ghost use Rattle.tt_node.specs.Working.{Works, HasRead, GivesNone, LooksThen, BeginsAt, PassesAt, DoesWhere, Reads, Commits, Releases, QueuesShared, ReleasesShared, Allows, after_asking, with_gate};

use crate::gates::Gate;
use crate::shared_books::{BookView, SharedBook, WhichBook};
use std::alloc::Global;
use std::marker::Model;
use std::sync::Wait;
use tt_audit::LiveNote;
use tt_publish::{Clock, Reading, Watch};
use tt_rounds::NodeFault;
use tt_session::{CommitBook, CommitFault, LineFault, Service, StampSeat, begin_commit};
use tt_span::Span;
use tt_stamp::{BookFault, Id, Receipt, Seat, Sequencer};

/// How often a gate is asked about one call at most.
pub const MAX_TURNS: u32 = 10_000;

/// A commit that was begun, and its stamp.
#[derive(Clone, Copy)]
struct QueuedCommit {
    id: Id,
    stamp: u64,
}

/// The shared book, through the view of one thread. In contracts it is what the view has seen.
#[derive(Drop)]
struct SeenBook<'a, R, J: WhichBook> {
    rt: &'a R,
    book: &'a SharedBook<J>,
    seen: BookView<J>,
    /// The commit that this thread queued last.
    begun: Option<QueuedCommit>,
}

impl<'a, R, J: WhichBook> Model for SeenBook<'a, R, J> {
    ghost use Rattle.std.specs.Prelude.{List};
    ghost use Rattle.tt_stamp.specs.declared.commits.Entry.{Entry};

    ghost Value = { List Entry };

    ghost view = { λ b. b.seen };
}

impl<'a, R, J: WhichBook> SeenBook<'a, R, J> {
    /// The stamp of a commit, in nanoseconds, if this thread queued it last.
    fn stamp_of(&self, id: Id) -> Option<u64> {
        let begun = self.begun?;
        if begun.id == id {
            Some(begun.stamp)
        } else {
            None
        }
    }
}

impl<'a, R: Wait, J: WhichBook> CommitBook for SeenBook<'a, R, J> {
    ghost queues = { QueuesShared };

    ghost releases = { ReleasesShared };

    fn queue_commit(&mut self, id: Id, stamp: u64) -> Result<(), BookFault> {
        self.book.queue(self.rt, &mut self.seen, id, stamp)?;
        self.begun = Some(QueuedCommit { id, stamp });
        Ok(())
    }

    fn release_commits(&mut self, reading: &Reading, id: Id) -> Option<Receipt> {
        self.book
            .release_and_ask(self.rt, &mut self.seen, reading, id)
    }
}

/// The service of one worker, for one session. It takes readings with a watch and a clock of its own. It takes stamps
/// with a seat of its own from the shared sequencer. It queues and releases commits in the shared book, through a view
/// of its own. A gate may hold each of its calls.
///
/// It keeps a note of each reading that `now` gave, with what the clock showed just before and just after it. Contracts
/// see its watch, its clock, its seat, its lease, its notes and what its view has seen.
///
/// Each call first asks the gate, with the session and the number of the call, until the gate says yes. The number
/// counts from 0, and stays at 2^64 - 1 once it is reached. The gate is asked at most [`MAX_TURNS`] times. If it says
/// no each time, the call is rejected with 1504 and does nothing. After each call, refused or not, the gate is told
/// once that the call was answered.
#[derive(Drop)]
pub struct Worker<'a, R, C, G, J: WhichBook> {
    session: u32,
    watch: Watch,
    clock: C,
    seat: StampSeat<'a, R>,
    book: SeenBook<'a, R, J>,
    gate: G,
    lease: Span,
    calls: u64,
    notes: Vec<LiveNote>,
}

impl<'a, R, C, G, J: WhichBook> Model for Worker<'a, R, C, G, J> {
    ghost use Rattle.tt_node.specs.Working.{WorkerState};

    ghost Value = { WorkerState C G };

    ghost view = { λ w. record { session = w.session; gate = w.gate; calls = w.calls; watch = w.watch; clock = w.clock; seat = w.seat; lease = w.lease; notes = w.notes.items; book = w.book } };
}

impl<'a, R: Wait, C: Clock, G: Gate, J: WhichBook> Worker<'a, R, C, G, J> {
    /// The worker of a session. It has no notes yet. Requires: the seat is of the sequencer.
    pub fn new(
        rt: &'a R,
        alloc: Global,
        session: u32,
        watch: Watch,
        clock: C,
        seat: Seat,
        sequencer: &'a Sequencer,
        book: &'a SharedBook<J>,
        book_view: BookView<J>,
        gate: G,
        lease: Span,
    ) -> Self
        requires of_it { seat.table ≡ sequencer.now }
        ensures made { result ≡ record { session = session; gate = gate; calls = 0; watch = watch; clock = clock; seat = seat; lease = lease; notes = []; book = book_view } }
    {
        Worker {
            session,
            watch,
            clock,
            seat: StampSeat::new(rt, sequencer, seat),
            book: SeenBook {
                rt,
                book,
                seen: book_view,
                begun: None,
            },
            gate,
            lease,
            calls: 0,
            notes: Vec::new(alloc),
        }
    }

    /// The notes of the readings that `now` gave, oldest first.
    pub fn notes(&self) -> &[LiveNote]
        ensures shows { result.now ≡ self.now.notes }
    {
        &self.notes
    }
}

impl<'a, R, C: Drop, G: Drop, J: WhichBook> Worker<'a, R, C, G, J> {
    /// Ends the worker. Answers its notes, oldest first, its seat and its watch.
    pub fn into_parts(self) -> (Vec<LiveNote>, Seat, Watch)
        ensures notes { result.0.items ≡ self.entry.notes }
        ensures seat { result.1 ≡ self.entry.seat }
        ensures watch { result.2 ≡ self.entry.watch }
    {
        let Worker {
            notes,
            seat,
            watch,
            ..
        } = self;
        (notes, seat.into_seat(), watch)
    }
}

impl<'a, R: Wait, C: Clock, G: Gate, J: WhichBook> Worker<'a, R, C, G, J> {
    /// Asks the gate about the next call. Answers whether the gate lets it pass, with the session and the number of the
    /// call.
    fn passes(&mut self) -> (bool, u32, u64)
        ensures asks { Asks G.says self.old.session self.old.calls self.old.gate result.0 self.new.gate }
        ensures counted { self.new ≡ after_asking self.old self.new.gate }
        ensures session { result.1 ≡ self.old.session }
        ensures call { result.2 ≡ self.old.calls }
    {
        let call = self.calls;
        self.calls = self.calls.saturating_add(1);
        let passes = ask(&mut self.gate, self.session, call);
        (passes, self.session, call)
    }

    /// Tells the gate that a call was answered.
    fn tell(&mut self, session: u32, call: u64)
        ensures told { G.hears self.old.gate session call self.new.gate }
        ensures kept { self.new ≡ with_gate self.old self.new.gate }
    {
        self.gate.answered(session, call);
    }

    /// Takes a reading, if the gate let the call pass.
    fn read_where(&mut self, passes: bool) -> Result<Reading, u16>
        ensures does { DoesWhere passes (Reads C.gives C.failed) self.old result self.new }
    {
        if passes {
            self.read()
        } else {
            Err(NodeFault::GateClosed.number())
        }
    }

    /// Stamps and queues a commit, if the gate let the call pass.
    fn commit_where(&mut self, passes: bool, number: u64, floor: u64) -> Result<u64, u16>
        ensures does { DoesWhere passes (Commits C.gives C.failed number floor) self.old result self.new }
    {
        if passes {
            self.commit(number, floor)
        } else {
            Err(NodeFault::GateClosed.number())
        }
    }

    /// Makes one release step, if the gate let the call pass.
    fn release_where(&mut self, passes: bool, number: u64) -> Result<bool, u16>
        ensures does { DoesWhere passes (Releases C.gives C.failed number) self.old result self.new }
    {
        if passes {
            self.release(number)
        } else {
            Err(NodeFault::GateClosed.number())
        }
    }

    /// Takes a reading, and keeps a note of it.
    fn read(&mut self) -> Result<Reading, u16>
        ensures works { Works self.old self.new }
        ensures open { ¬ IsErrOf result 1504 }
        ensures seat { self.new.seat ≡ self.old.seat }
        ensures book { self.new.book ≡ self.old.book }
        ensures read { IfOk result (λ reading. HasRead C.gives C.failed self.old reading self.new) }
        ensures unread { OnErr result (self.new.notes ≡ self.old.notes) }
        ensures refused { IfErr result (λ number. GivesNone C.gives C.failed self.old number self.new) }
    {
        if self.notes.reserve(1).is_err() {
            return Err(NodeFault::Memory.number());
        }
        let before = show(&mut self.clock)?;
        let reading = match self.watch.now(&mut self.clock) {
            Ok(reading) => reading,
            Err(fault) => return Err(fault.number()),
        };
        let after = match show(&mut self.clock) {
            Ok(after) => after,
            Err(number) => return Err(number),
        };
        self.notes.push_reserved(LiveNote {
            before,
            after,
            reading,
        });
        Ok(reading)
    }

    /// Takes a reading, and begins a commit by it.
    fn commit(&mut self, number: u64, floor: u64) -> Result<u64, u16>
        ensures works { Works self.old self.new }
        ensures open { ¬ IsErrOf result 1504 }
        ensures notes { self.new.notes ≡ self.old.notes }
        ensures begins { LooksThen C.gives C.failed self.old (λ looked. BeginsAt number floor self.old looked result self.new) self.new }
    {
        let id = Id {
            session: self.session,
            number,
        };
        let reading = self.watch.now(&mut self.clock).map_err(CommitFault::Read)?;
        let stamp = begin_commit(
            &mut self.seat,
            &mut self.book,
            &reading,
            id,
            floor,
            &self.lease,
        )?;
        Ok(stamp)
    }

    /// Makes one release step. Answers whether the commit is released. If it is not, a wait follows, without a lock on
    /// the book.
    fn release(&mut self, number: u64) -> Result<bool, u16>
        ensures works { Works self.old self.new }
        ensures open { ¬ IsErrOf result 1504 }
        ensures seat { self.new.seat ≡ self.old.seat }
        ensures notes { self.new.notes ≡ self.old.notes }
        ensures passes { LooksThen C.gives C.failed self.old (λ looked. PassesAt number self.old looked result self.new) self.new }
    {
        let id = Id {
            session: self.session,
            number,
        };
        let reading = self.watch.now(&mut self.clock).map_err(CommitFault::Read)?;
        let receipt = self.book.release_commits(&reading, id);
        let released = receipt.is_some();
        self.pause(id, reading.earliest(), released);
        Ok(released)
    }

    /// Waits for the stamp of a commit that is not released, if this worker began it last: see [`StampSeat::pause`].
    fn pause(&self, id: Id, earliest: u64, released: bool) {
        if released {
            return;
        }
        if let Some(stamp) = self.book.stamp_of(id) {
            self.seat.pause(stamp, earliest);
        }
    }
}

impl<'a, R: Wait, C: Clock, G: Gate, J: WhichBook> Service for Worker<'a, R, C, G, J> {
    ghost allows = { Allows C.gives C.failed G.says G.hears };

    /// One [`Watch::now`] between two readings of the clock. A note of the three is kept.
    ///
    /// Refuses, in this order: 1504 if the gate is closed, 1 if there is no memory for the note, then as the readings
    /// of the clock and `Watch::now` do: 803, 801, 803, 802, 803. Only an answer with a reading is noted.
    fn now(&mut self) -> Result<Reading, u16> {
        let (passes, session, call) = self.passes();
        let answer = self.read_where(passes);
        self.tell(session, call);
        answer
    }

    /// One [`Watch::now`], then one [`begin_commit`] by this reading: one [`Sequencer::stamp`] in the lease, and one
    /// [`SharedBook::queue`] of the session's commit with this number, under the stamp. Answers the stamp, in
    /// nanoseconds. The book is locked only while the commit is queued.
    ///
    /// Refuses with 1504 if the gate is closed, then with the number of the first of these calls that refuses: 801,
    /// 803, 802, 902, 901, 903, 1001, 1002, 1003, 1. If the book refuses, the stamp is lost.
    fn begin(&mut self, number: u64, floor: u64) -> Result<u64, u16> {
        let (passes, session, call) = self.passes();
        let answer = self.commit_where(passes, number, floor);
        self.tell(session, call);
        answer
    }

    /// A worker keeps no lease of the session: refuses with 1101, and nothing is done. The gate is not asked.
    fn lease(&mut self, _lo: u64, _hi: u64) -> Result<(), u16> {
        Err(LineFault::BadLine.number())
    }

    /// One [`Watch::now`], then one [`SharedBook::release_and_ask`] by this reading. Answers whether the commit is
    /// released then. If it is not released, and it is the commit that was begun last, the call waits before it answers
    /// no: for the time from the earliest of the reading to the stamp, at most [`MAX_PAUSE`](tt_session::MAX_PAUSE) and
    /// its margin. The book is not locked during the wait.
    ///
    /// Refuses with 1504 if the gate is closed, then as the reading does: 801, 803, 802.
    fn pass(&mut self, number: u64) -> Result<bool, u16> {
        let (passes, session, call) = self.passes();
        let answer = self.release_where(passes, number);
        self.tell(session, call);
        answer
    }
}

/// Whether a gate lets a call pass. It is asked until it says yes, at most [`MAX_TURNS`] times.
fn ask<G: Gate>(gate: &mut G, worker: u32, call: u64) -> bool
    ensures asks { Asks G.says worker call gate.old result gate.new }
{
    for _ in 0..MAX_TURNS {
        if gate.may_pass(worker, call) {
            return true;
        }
    }
    false
}

/// What the clock shows.
fn show<C: Clock>(clock: &mut C) -> Result<u64, u16>
    ensures gave { IfOk result (λ reading. C.gives clock.old (Some reading) clock.new) }
    ensures failed { IfErr result (λ number. (number ≡ 803) × C.gives clock.old None clock.new × HasFailed (C.failed clock.old) (C.failed clock.new)) }
{
    match clock.read() {
        Ok(reading) => Ok(reading),
        Err(fault) => Err(fault.number()),
    }
}
