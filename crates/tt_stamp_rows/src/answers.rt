//! What is answered.

ghost use Rattle.std.specs.Prelude.{◌≡◌, ℕ, ◌+◌, ◌^◌, ◌<◌, ◌≤◌, List};
ghost use Rattle.tt_span.specs.Time.{max_time};
ghost use Rattle.tt_span.specs.Interval.{Interval, IsInterval};
ghost use Rattle.tt_stamp.specs.Stamp.{max_ahead, greatest_of, least_above, stamp_of};
ghost use Rattle.tt_stamp_rows.specs.Asked.{given_after, lease_in};
ghost use Rattle.tt_stamp_rows.specs.Answer.{answer_by};
ghost use Rattle.tt_stamp_rows.specs.Grid.{IsAnswerOn, rounded_up, stamp_on};

use crate::lines::{Asked, Limited};
use std::fmt;
use tt_publish::Reading;
use tt_span::{MAX_TIME, Span};
use tt_stamp::{Row, StampFault};

/// What a stamper answers, or a table of pending commits. Times are in nanoseconds.
#[derive(Clone, Copy)]
pub enum Answer {
    /// This stamp.
    Stamp(u64),
    /// No stamp, for the reason of this number.
    Refused(u16),
    /// The table is empty.
    Opened,
    /// A commit with this stamp was begun.
    Begun(u64),
    /// A commit was ended.
    Ended,
    /// No commit with this stamp is pending; or one is, where none may be.
    Invalid,
    /// The watermark.
    Mark(u64),
    /// There is no watermark.
    NoMark,
    Yes,
    No,
}

impl fmt::Display for Answer {
    fn fmt<W: fmt::Write>(&self, f: &mut fmt::Formatter<W>) -> fmt::Result {
        match self {
            Answer::Stamp(stamp) => write!(f, "stamp {stamp}"),
            Answer::Refused(number) => write!(f, "refused {number}"),
            Answer::Opened => f.write_str("open"),
            Answer::Begun(stamp) => write!(f, "begun {stamp}"),
            Answer::Ended => f.write_str("ended"),
            Answer::Invalid => f.write_str("invalid"),
            Answer::Mark(t) => write!(f, "{t}"),
            Answer::NoMark => f.write_str("none"),
            Answer::Yes => f.write_str("yes"),
            Answer::No => f.write_str("no"),
        }
    }
}

/// What a stamper answers that was opened with this lease: 101 or 102 where its ends are those of no span, or else what
/// the rule of stamps says.
pub fn answer_of(asked: &Asked) -> Answer
    ensures backwards { asked.now.lease_hi < asked.now.lease_lo → result ≡ Answer.Refused 101 }
    ensures past_max { asked.now.lease_lo ≤ asked.now.lease_hi → max_time < asked.now.lease_hi → result ≡ Answer.Refused 102 }
    ensures stamp { IsInterval (lease_in asked.now) →
        result ≡ answer_by (stamp_of (given_after asked.now.last) asked.now.reading.hi asked.now.floor (lease_in asked.now)) }
{
    let lease = match Span::new(asked.lease_lo, asked.lease_hi) {
        Ok(lease) => lease,
        Err(fault) => return Answer::Refused(fault.number()),
    };
    match row_after(asked.last).stamp(&asked.reading, asked.floor, &lease) {
        Ok(stamp) => Answer::Stamp(stamp),
        Err(fault) => Answer::Refused(fault.number()),
    }
}

/// A row that has given this stamp, or none where it is 0.
fn row_after(last: u64) -> Row
    requires { last ≤ max_time }
    ensures { result ≡ greatest_of (given_after last) }
{
    let mut row = Row::new();
    if last > 0
        && let Ok(moment) = Span::new(last, last)
    {
        // By this reading it is given: there is no floor, and the lease is the whole of time.
        let _ = row.stamp(&Reading::of(moment), 0, &Span::whole());
    }
    row
}

/// What a stamper answers that was opened with this lease and these limits: 101 or 102 where the lease's ends are those
/// of no span, or else the least stamp on the grid that the rule allows, or 902, 901 or 903, in this order.
pub fn answer_within(limited: &Limited) -> Answer
    ensures backwards { limited.now.asked.lease_hi < limited.now.asked.lease_lo → result ≡ Answer.Refused 101 }
    ensures past_max { limited.now.asked.lease_lo ≤ limited.now.asked.lease_hi → max_time < limited.now.asked.lease_hi → result ≡ Answer.Refused 102 }
    ensures stamp { IsInterval (lease_in limited.now.asked) →
        result ≡ answer_by (stamp_on limited.now.ahead limited.now.grid (given_after limited.now.asked.last) limited.now.asked.reading.hi limited.now.asked.floor (lease_in limited.now.asked)) }
{
    let lease = match Span::new(limited.asked.lease_lo, limited.asked.lease_hi) {
        Ok(lease) => lease,
        Err(fault) => return Answer::Refused(fault.number()),
    };
    match stamp_within(limited, &lease) {
        Ok(stamp) => Answer::Stamp(stamp),
        Err(fault) => Answer::Refused(fault.number()),
    }
}

/// The stamp within this lease, or why there is none.
fn stamp_within(limited: &Limited, lease: &Span) -> Result<u64, StampFault>
    ensures { result ≡ stamp_on limited.now.ahead limited.now.grid (given_after limited.now.asked.last) limited.now.asked.reading.hi limited.now.asked.floor lease.now }
{
    let asked = &limited.asked;
    let latest = asked.reading.latest();
    if asked.floor > latest + limited.ahead {
        return Err(StampFault::FloorTooFar);
    }
    let free = free_after(asked.last);
    let stamp = round_up(
        latest.max(asked.floor).max(lease.lo()).max(free),
        limited.grid,
    );
    if stamp > MAX_TIME {
        return Err(StampFault::UsedUp);
    }
    if stamp > lease.hi() {
        return Err(StampFault::LeaseOver);
    }
    Ok(stamp)
}

/// The least number that is above every stamp given: one more than this one, or 0 where it is 0.
fn free_after(last: u64) -> u64
    requires { last ≤ max_time }
    ensures { result ≡ least_above (given_after last) }
{
    if last > 0 { last + 1 } else { 0 }
}

/// The least multiple of the grid that is no less than a number.
fn round_up(number: u64, grid: u64) -> u64
    requires some { 0 < grid }
    requires room { number + grid < 2 ^ 64 }
    ensures { result ≡ rounded_up grid number }
{
    (number + (grid - 1)) / grid * grid
}

/// Laws of the rule on a grid. `stamp_on` gives the least stamp on the grid that may be given, or the right reason why
/// there is none. With the widest limit, and on the grid of all numbers, it is `stamp_of`.
pub fn grid_laws()
    ensures answer { (ahead grid : ℕ) (given : List ℕ) (latest floor : ℕ) (lease : Interval) → 0 < grid →
        IsAnswerOn ahead grid given latest floor lease (stamp_on ahead grid given latest floor lease) }
    ensures widest { (given : List ℕ) (latest floor : ℕ) (lease : Interval) →
        stamp_on max_ahead 1 given latest floor lease ≡ stamp_of given latest floor lease }
{}
