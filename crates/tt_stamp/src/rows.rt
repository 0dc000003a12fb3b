//! The stamps of one thread.

ghost use Rattle.std.specs.Prelude.{◌≡◌, ℕ, ◌+◌, ◌<◌, ◌≤◌, ◌↔◌, List, ◌∷◌, Some, None, Ok, Err, IfOk, OnErr, IsErrOf};
ghost use Rattle.tt_span.specs.Time.{max_time};
ghost use Rattle.tt_span.specs.Interval.{Interval, Holds, whole};
ghost use Rattle.tt_stamp.specs.Stamp.{IsLeastStamp, HasNoStamp, IsPastLease, IsTooFar, IsAnswer, least_above, stamp_of, greatest_of};

use crate::faults::StampFault;
use std::marker::Model;
use tt_publish::Reading;
use tt_span::{MAX_TIME, Span};

/// How far a floor may lie ahead of the reading's latest, in nanoseconds: ten seconds.
pub const MAX_AHEAD: u64 = 10_000_000_000;

/// The stamps of one thread, in order. In contracts a row is the greatest stamp that it has given, which is the last
/// one.
#[derive(Drop)]
pub struct Row {
    last: Option<u64>,
}

impl Model for Row {
    ghost use Rattle.std.specs.Prelude.{ℕ, ◌≤◌, Option};
    ghost use Rattle.std.specs.Option.{ForSome};
    ghost use Rattle.tt_span.specs.Time.{max_time};

    ghost Value = { Option ℕ };

    ghost view = { λ r. r.last };

    ghost invariant = { λ r. ForSome r.last (λ s. s ≤ max_time) };
}

impl Row {
    /// A row that has given no stamp.
    pub fn new() -> Row
        ensures { result ≡ None }
    {
        Row { last: None }
    }

    /// Gives a commit its stamp, in nanoseconds: the least number up to [`MAX_TIME`] that is at least the latest of the
    /// reading, the floor and the lower end of the lease, and above every stamp given before. It lies in the lease: a
    /// leader gives stamps within its lease alone (Spanner, OSDI 2012, section 4.1.2).
    ///
    /// Refuses, in this order: 902 `FloorTooFar` where the floor is more than [`MAX_AHEAD`] above the latest of the
    /// reading, 901 `UsedUp` where there is no such number, 903 `LeaseOver` where the least one is above the upper end
    /// of the lease. After a refusal the row is as it was.
    pub fn stamp(&mut self, reading: &Reading, floor: u64, lease: &Span) -> Result<u64, StampFault>
        // This holds for any stamps given before of which the row's value is the greatest.
        ensures value { (given : List ℕ) → greatest_of given ≡ self.old →
            result ≡ stamp_of given reading.now.hi floor lease.now }
        ensures least { (given : List ℕ) → greatest_of given ≡ self.old →
            IfOk result (λ s. IsLeastStamp given reading.now.hi floor lease.now s) }
        ensures in_lease { IfOk result (λ s. Holds lease.now s) }
        ensures too_far { IsErrOf result StampFault.FloorTooFar ↔ IsTooFar reading.now.hi floor }
        ensures used_up { (given : List ℕ) → greatest_of given ≡ self.old →
            IsErrOf result StampFault.UsedUp
            ↔ ((¬ IsTooFar reading.now.hi floor) × HasNoStamp given reading.now.hi floor lease.now) }
        ensures lease_over { (given : List ℕ) → greatest_of given ≡ self.old →
            IsErrOf result StampFault.LeaseOver
            ↔ ((¬ IsTooFar reading.now.hi floor) × IsPastLease given reading.now.hi floor lease.now) }

        ensures last { IfOk result (λ s. self.new ≡ Some s) }
        ensures greatest { (given : List ℕ) → greatest_of given ≡ self.old →
            IfOk result (λ s. greatest_of (s ∷ given) ≡ self.new) }
        ensures err { OnErr result (self.new ≡ self.old) }
    {
        let latest = reading.latest();
        if floor > latest + MAX_AHEAD {
            return Err(StampFault::FloorTooFar);
        }
        let stamp = latest.max(floor).max(lease.lo()).max(self.least_free());
        if stamp > MAX_TIME {
            return Err(StampFault::UsedUp);
        }
        if stamp > lease.hi() {
            return Err(StampFault::LeaseOver);
        }
        self.last = Some(stamp);
        Ok(stamp)
    }

    // The least number that is above every stamp given.
    fn least_free(&self) -> u64
        ensures value { (given : List ℕ) → greatest_of given ≡ self.now → result ≡ least_above given }
        ensures bound { result ≤ max_time + 1 }
    {
        match self.last {
            Some(last) => last + 1,
            None => 0,
        }
    }
}

/// Laws of the rule. `stamp_of` gives the least stamp that may be given, or the right reason why there is none. A stamp
/// lies in its lease. A lease of the whole of time is never the reason.
pub fn stamp_laws()
    ensures answer { (given : List ℕ) (latest floor : ℕ) (lease : Interval) →
        IsAnswer given latest floor lease (stamp_of given latest floor lease) }
    ensures in_lease { (given : List ℕ) (latest floor : ℕ) (lease : Interval) →
        IfOk (stamp_of given latest floor lease) (λ s. Holds lease s) }
    ensures whole_lease { (given : List ℕ) (latest floor : ℕ) →
        ¬ IsErrOf (stamp_of given latest floor whole) StampFault.LeaseOver }
{}
