//! What a worker keeps from one session to the next.

ghost use Rattle.std.specs.Prelude.{◌≡◌, ◌+◌, ◌-◌, nat_lt, None, Some, MatchBool};
ghost use Rattle.tt_publish.specs.Looks.{Looks};
ghost use Rattle.tt_connections.specs.Station.{StampsPost, common, room_in};

use std::alloc::Global;
use std::marker::Model;
use std::sync::Wait;
use tt_publish::{Clock, ReadFault, Reading, Watch};
use tt_session::{StampSeat, StampSource};
use tt_span::Span;
use tt_stamp::{Seat, Sequencer, StampFault};

/// The settings by which readings are used and commits are stamped.
#[derive(Clone, Copy, Debug, PartialEq, Eq)]
pub struct Terms {
    /// The lease of the machine, in which stamps lie.
    pub lease: Span,
    /// The interval of the stampers, in which no stamp lies. None if there are no stampers.
    pub stampers: Option<Span>,
    /// How far a floor may lie ahead of the latest of a reading, in nanoseconds. The rule of stamps has a bound too,
    /// [`tt_stamp::MAX_AHEAD`]: the lower of both counts.
    pub ahead: u64,
    /// How wide a reading may be that is used, in nanoseconds. `u64::MAX` where there is no limit.
    pub max_width: u64,
}

impl Terms {
    /// What a stamp that is no less than `least` may lie in, if anything: what this lease and that of the machine have in
    /// common, without the interval of the stampers. Of what is left on both sides of that interval, it is the one on which
    /// the least time of the lease from `least` on lies.
    fn room(&self, lease: &Span, least: u64) -> Option<Span>
        ensures left { let room = room_in self.now.stampers (common lease.now self.now.lease) least in
            MatchBool (nat_lt room.hi room.lo) (result ≡ None) (result ≡ Some room) }
    {
        let lo = lease.lo().max(self.lease.lo());
        let hi = lease.hi().min(self.lease.hi());
        let from = least.max(lo);
        match self.stampers {
            None => Span::new(lo, hi).ok(),
            Some(taken) if from > taken.hi() => Span::new(lo.max(taken.hi() + 1), hi).ok(),
            Some(taken) if from < taken.lo() => Span::new(lo, hi.min(taken.lo() - 1)).ok(),
            Some(_) => None,
        }
    }
}

/// What a worker keeps from one session to the next: a watch and a clock of its own, by which it takes readings, and a
/// seat of its own, with which it asks the sequencer that all workers share for stamps. In contracts a post is its
/// parts.
#[derive(Drop)]
pub struct Post<'a, R, C> {
    pub(crate) alloc: Global,
    watch: Watch,
    clock: C,
    seat: StampSeat<'a, R>,
    terms: Terms,
}

impl<'a, R, C> Model for Post<'a, R, C> {
    ghost use Rattle.tt_connections.specs.Station.{PostState};

    ghost Value = { PostState C };

    ghost view = { λ p. record { watch = p.watch; clock = p.clock; seat = p.seat; lease = p.terms.lease; stampers = p.terms.stampers; ahead = p.terms.ahead; max_width = p.terms.max_width } };
}

impl<'a, R, C: Drop> Post<'a, R, C> {
    /// Ends the worker. Answers its watch and its seat.
    pub fn into_parts(self) -> (Watch, Seat)
        ensures watch { result.0 ≡ self.entry.watch }
        ensures seat { result.1 ≡ self.entry.seat }
    {
        let Post { watch, seat, .. } = self;
        (watch, seat.into_seat())
    }
}

impl<'a, R: Wait, C: Clock> Post<'a, R, C> {
    /// The post of a worker that has served no session. Requires: the seat is of the sequencer.
    pub fn new(
        rt: &'a R,
        alloc: Global,
        watch: Watch,
        clock: C,
        seat: Seat,
        sequencer: &'a Sequencer,
        terms: Terms,
    ) -> Self
        requires of_it { seat.table ≡ sequencer.now }
        ensures made { result ≡ record { watch = watch; clock = clock; seat = seat; lease = terms.lease; stampers = terms.stampers; ahead = terms.ahead; max_width = terms.max_width } }
    {
        Post {
            alloc,
            watch,
            clock,
            seat: StampSeat::new(rt, sequencer, seat),
            terms,
        }
    }

    /// One [`Watch::now`].
    pub(crate) fn read(&mut self) -> Result<Reading, ReadFault>
        ensures looks { Looks C.gives C.failed self.old.watch self.old.clock result self.new.watch self.new.clock }
        ensures same { self.new ≡ record self.old { watch = self.new.watch; clock = self.new.clock } }
    {
        self.watch.now(&mut self.clock)
    }

    /// Whether a floor lies further ahead of the latest of this reading than the terms allow.
    pub(crate) fn is_above_cap(&self, reading: &Reading, floor: u64) -> bool
        ensures { result ≡ nat_lt (reading.now.hi + self.now.ahead) floor }
    {
        floor.saturating_sub(reading.latest()) > self.terms.ahead
    }

    /// Whether this reading is wider than the terms allow.
    pub(crate) fn is_too_wide(&self, reading: &Reading) -> bool
        ensures { result ≡ nat_lt self.now.max_width (reading.now.hi - reading.now.lo) }
    {
        reading.latest().saturating_sub(reading.earliest()) > self.terms.max_width
    }

    /// Waits for so many nanoseconds, at most for the longest pause of a release step: see [`StampSeat::pause`].
    pub(crate) fn pause(&self, left: u64) {
        self.seat.pause(left, 0);
    }
}

impl<'a, R: Wait, C> StampSource for Post<'a, R, C> {
    ghost stamps = { StampsPost };

    /// One [`Sequencer::stamp`] in what this lease and that of the machine have in common, without the interval of the
    /// stampers: on the side of it where the least stamp that the reading, the floor and the leases allow lies. Where there
    /// is nothing, the lease is over, and the sequencer is not asked.
    fn next_stamp(
        &mut self,
        reading: &Reading,
        floor: u64,
        lease: &Span,
    ) -> Result<u64, StampFault> {
        match self.terms.room(lease, reading.latest().max(floor)) {
            Some(room) => self.seat.next_stamp(reading, floor, &room),
            None => Err(StampFault::LeaseOver),
        }
    }
}
