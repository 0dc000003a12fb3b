//! The stamps that one sequencer gives to several threads.

ghost use Rattle.std.specs.Prelude.{◌≡◌, ℕ, ◌<◌, ◌≤◌, ◌↔◌, ◌⊎◌, List, [], All, true, max, map, IfOk, IfErr, OnOk, IsErrOf};
ghost use Rattle.std.specs.List.{range_with_len};
ghost use Rattle.tt_span.specs.Time.{max_time};
ghost use Rattle.tt_span.specs.Interval.{Holds};
ghost use Rattle.tt_stamp.specs.Stamp.{IsTooFar, HasNoStamp, IsPastLease, least_above};
ghost use Rattle.tt_stamp.specs.Stamping.{IsLegalRun, SeatLooks, Gives, Unites, new_seat, stamps_of, last_of, is_in, entries_of, max_seats};
ghost use Rattle.tt_stamp.specs.Steps.{Stamps};
ghost use Rattle.tt_stamp.specs.Sequencing.{joined_view};
ghost use Rattle.tt_stamp.specs.declared.stampings.Stamping.{Stamping};

use crate::faults::StampFault;
use crate::requests::StampRequest;
use crate::rows::MAX_AHEAD;
use crate::rule::{Deal, InTurn, Look, Meet, Try};
use crate::stampings::View;
use atomic_table::{Seat as Token, Table};
use std::alloc::Global;
use std::marker::Model;
use std::sync::Wait;
use tt_publish::Reading;
use tt_span::{MAX_TIME, Span};

/// The most seats of a sequencer.
pub const MAX_SEATS: usize = 32;

/// Gives stamps to up to [`MAX_SEATS`] threads, which share it by reference, each with a seat of its own. In contracts
/// a sequencer is its identity.
#[derive(Drop)]
pub struct Sequencer {
    table: Table<StampRequest, View, u64, InTurn, Global>,
}

impl Model for Sequencer {
    ghost use Rattle.std.specs.Prelude.{◌≡◌};
    ghost use Rattle.atomic_table.specs.Seated.{TableId, table_id_coded};

    ghost Value = { TableId };

    ghost coded = { table_id_coded };

    ghost view = { λ s. s.table.shared.table_id };

    ghost invariant = { λ s. s.table.shared.table_id.words ≡ 1 };
}

/// The access of one thread to a sequencer. It has no bytes. In contracts a seat is its sequencer, how many seats that
/// has, and what the seat knows: its numbers, the stamps that it has seen, and its own among them, newest first. What
/// it has seen is always legal, also after a refusal.
#[derive(Drop)]
pub struct Seat {
    token: Token<StampRequest, View>,
}

impl Model for Seat {
    ghost use Rattle.tt_stamp.specs.Stamping.{SeatState};

    ghost Value = { SeatState };

    ghost use Rattle.tt_stamp.specs.Sequencing.{state_of, IsAtRest};

    ghost view = { λ s. state_of s.token.table_id s.token.me.0 };

    ghost invariant = { λ s. IsAtRest s.token.me };
}

impl Seat {
    /// A law of every seat after any calls: what it has seen is legal, and the entries under its numbers are its own.
    pub fn laws(&self)
        ensures legal { IsLegalRun self.now.seats self.now.seen }
        ensures mine { entries_of self.now.numbers self.now.seen ≡ self.now.own }
    {
        let _ = &self.token;
    }
}

impl Sequencer {
    /// Opens a sequencer that has given no stamp, with this many seats, whose numbers are 0, 1 and so on.
    ///
    /// Refuses, in this order: 904 `Seats` where `seats` is 0 or above [`MAX_SEATS`], 1 `Memory`.
    pub fn open(alloc: Global, seats: usize) -> Result<(Sequencer, Vec<Seat>), StampFault>
        ensures seats { IsErrOf result StampFault.Seats ↔ ((seats ≡ 0) ⊎ (max_seats < seats)) }
        ensures faults { IfErr result (λ e. (e ≡ StampFault.Seats) ⊎ (e ≡ StampFault.Memory)) }
        ensures opened { IfOk result (λ r. r.1.items ≡ map (new_seat r.0 seats) (range_with_len 0 seats)) }
        ensures of_it { IfOk result (λ r. All (λ seat. seat.table ≡ r.0) r.1.items) }
    {
        if seats == 0 || seats > MAX_SEATS {
            return Err(StampFault::Seats);
        }
        let Ok(mut opened) = Vec::with_capacity(alloc, seats) else {
            return Err(StampFault::Memory);
        };
        let Ok((table, mut token)) = Table::of_words(alloc, &[0], &(seats as u64)) else {
            return Err(StampFault::Memory);
        };
        while opened.len() + 1 < seats {
            let next = table.shared.split_seat::<Deal>(&mut token);
            opened.push_reserved(Seat { token: next });
        }
        opened.push_reserved(Seat { token });
        Ok((Sequencer { table }, opened))
    }

    /// Gives a commit its stamp as [`Row::stamp`](crate::Row::stamp) does, after all stamps that any seat of the
    /// sequencer got before, and within the lease. It makes one load and one exchange, and one more exchange each time
    /// that another seat was faster.
    ///
    /// Refuses, in this order: 902 `FloorTooFar`, which leaves the seat as it was; 901 `UsedUp` and 903 `LeaseOver`,
    /// after which the seat may have seen more. It may wait for other threads: nothing promises that an exchange
    /// succeeds.
    pub fn stamp<R: Wait>(
        &self,
        rt: &R,
        seat: &mut Seat,
        reading: &Reading,
        floor: u64,
        lease: &Span,
    ) -> Result<u64, StampFault>
        requires { seat.old.table ≡ self.now }
        ensures stamps { Stamps floor lease.now reading.now seat.old result seat.new }
        ensures legal { IsLegalRun seat.new.seats seat.new.seen }
        ensures mine { entries_of seat.new.numbers seat.new.seen ≡ seat.new.own }
    {
        let latest = reading.latest();
        if floor > latest + MAX_AHEAD {
            seat.laws();
            return Err(StampFault::FloorTooFar);
        }
        let least = latest.max(floor).max(lease.lo());
        let mut word = self.look(seat);
        for _ in rt.forever() {
            let stamp = least.max(word);
            if stamp > MAX_TIME {
                return Err(StampFault::UsedUp);
            }
            if stamp > lease.hi() {
                return Err(StampFault::LeaseOver);
            }
            let request = StampRequest {
                latest,
                floor,
                lease: *lease,
            };
            match self.try_stamp(seat, request, word, stamp) {
                Ok(()) => return Ok(stamp),
                Err(found) => word = found,
            }
        }
        unreachable!()
    }

    /// The last stamp that the seat sees when it looks, if there is one.
    pub fn last(&self, seat: &mut Seat) -> Option<u64>
        requires { seat.old.table ≡ self.now }
        ensures looks { SeatLooks seat.old seat.new }
        ensures value { result ≡ last_of seat.new.seen }
        ensures legal { IsLegalRun seat.new.seats seat.new.seen }
        ensures mine { entries_of seat.new.numbers seat.new.seen ≡ seat.new.own }
    {
        self.look(seat).checked_sub(1)
    }

    /// Makes one seat of two: it has seen what both had seen, and has the numbers and the stamps of both. Once all
    /// seats are joined, it has seen its own stamps alone.
    pub fn join(&self, first: Seat, second: Seat) -> Seat
        requires first { first.table ≡ self.now }
        requires second { second.table ≡ self.now }
        ensures unites { Unites first second result }
    {
        let Seat { mut token } = first;
        let Seat { token: other } = second;
        self.meet(&mut token, other);
        let _ = self.table.shared.load::<Look>(&mut token, 0);
        Seat { token }
    }

    // Makes one token of two. It keeps what each of them knew.
    #[tactic(auto, using(crate::proofs::Turns::join_allowed))]
    fn meet(&self, token: &mut Token<StampRequest, View>, other: Token<StampRequest, View>)
        requires token { token.old.table_id ≡ self.now }
        requires other { other.table_id ≡ self.now }
        requires no_slot { other.me.1 ≡ [] }
        ensures table { token.new.table_id ≡ token.old.table_id }
        ensures both { token.new.me ≡ (joined_view token.old.me.0 other.me.0, token.old.me.1) }
    {
        self.table.shared.join_seat::<Meet>(token, other);
    }

    // Looks at the word, which is the least number above all stamps given.
    fn look(&self, seat: &mut Seat) -> u64
        requires { seat.old.table ≡ self.now }
        ensures looks { SeatLooks seat.old seat.new }
        ensures word { result ≡ least_above (stamps_of seat.new.seen) }
    {
        self.table.shared.load::<Look>(&mut seat.token, 0)
    }

    // Gives the stamp if the word is still what it was. Otherwise it answers the word.
    fn try_stamp(
        &self,
        seat: &mut Seat,
        request: StampRequest,
        word: u64,
        stamp: u64,
    ) -> Result<(), u64>
        requires seat { seat.old.table ≡ self.now }
        requires near { ¬ IsTooFar request.latest request.floor }
        requires least { stamp ≡ max (max (max request.latest request.floor) request.lease.lo) word }
        requires in_time { stamp ≤ max_time }
        requires in_lease { stamp ≤ request.lease.hi }
        ensures given { OnOk result (Gives seat.old seat.new request.latest request.floor request.lease stamp) }
        ensures missed { IfErr result (λ found. SeatLooks seat.old seat.new × (found ≡ least_above (stamps_of seat.new.seen))) }
    {
        let shared = &self.table.shared;
        let found = shared.compare_exchange_with::<Try>(
            &mut seat.token,
            0,
            word,
            stamp + 1,
            &request,
        );
        if found == word { Ok(()) } else { Err(found) }
    }
}

/// Laws of seats. A seat that has all numbers has seen its own stamps alone. Each stamp lies in the lease under which
/// it was given.
pub fn seat_laws()
    ensures alone { (seats : ℕ) (numbers : List ℕ) (seen : List Stamping) → ((n : ℕ) → n < seats → is_in numbers n ≡ true) →
        IsLegalRun seats seen → entries_of numbers seen ≡ seen }
    ensures in_lease { (seats : ℕ) (seen : List Stamping) → IsLegalRun seats seen →
        All (λ entry. Holds entry.lease entry.stamp) seen }
{}
