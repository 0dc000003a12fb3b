//! A table of pending commits.

ghost use Rattle.std.specs.Prelude.{◌≡◌, ◌⊎◌, ◌<◌, ◌≤◌, ◌↔◌, length, Contains, IsTrue, IfSome, IfNone};
ghost use Rattle.tt_span.specs.Interval.{whole};
ghost use Rattle.tt_stamp.specs.Stamp.{stamp_of};
ghost use Rattle.tt_stamp_rows.specs.Table.{no_commits, IsPending, IsSettled, IsWatermark, IsBound, begun_by, IsSaid, after};

use crate::answers::Answer;
use crate::calls::Call;
use arrayvec::ArrayVec;
use std::marker::Model;
use tt_publish::Reading;
use tt_span::Span;
use tt_stamp::Row;

/// How many commits a table may have in all.
pub const MOST: usize = 1024;

/// The commits of one stamper, whose lease is the whole of time. It keeps each stamp that was given, and each that was
/// ended, so that its answers are those that the definitions speak of; it is not made to be fast.
#[derive(Drop)]
pub struct Table {
    row: Row,
    given: ArrayVec<u64, MOST>,
    ended: ArrayVec<u64, MOST>,
}

impl Model for Table {
    ghost use Rattle.std.specs.Prelude.{◌≡◌};
    ghost use Rattle.tt_stamp.specs.Stamp.{greatest_of};
    ghost use Rattle.tt_stamp_rows.specs.Table.{Commits};

    ghost Value = { Commits };

    ghost view = { λ t. record { given = t.given.items; ended = t.ended.items } };

    ghost invariant = { λ t. greatest_of t.given.items ≡ t.row };
}

impl Table {
    /// A table of no commits.
    pub fn new() -> Table
        ensures { result ≡ no_commits }
    {
        Table {
            row: Row::new(),
            given: ArrayVec::new(),
            ended: ArrayVec::new(),
        }
    }

    /// What the table answers to a call; after it, it has the commits that the call begins or ends. None if it would begin or end
    /// a commit, and the table has [`MOST`] of these; it is as it was then.
    pub fn answer(&mut self, call: &Call) -> Option<Answer>
        ensures said { IfSome result (λ answer. IsSaid self.old call.now answer) }
        ensures becomes { IfSome result (λ answer. self.new ≡ after self.old call.now answer) }
        ensures full { IfNone result ((MOST ≤ length self.old.given) ⊎ (MOST ≤ length self.old.ended)) }
        ensures unchanged { IfNone result (self.new ≡ self.old) }
    {
        match call {
            Call::Open => {
                *self = Table::new();
                Some(Answer::Opened)
            }
            Call::Begin(reading, floor) => self.begin(reading, *floor),
            Call::End(stamp) => self.end(*stamp),
            Call::Watermark(earliest) => Some(self.mark(*earliest)),
            Call::Readable(t, earliest) => Some(self.readable(*t, *earliest)),
            Call::Release(stamp, earliest) => Some(self.release(*stamp, *earliest)),
        }
    }

    /// Begins a commit.
    fn begin(&mut self, reading: &Reading, floor: u64) -> Option<Answer>
        ensures said { IfSome result (λ answer. answer ≡ begun_by (stamp_of self.old.given reading.now.hi floor whole)) }
        ensures becomes { IfSome result (λ answer. self.new ≡ after self.old (Call.Begin reading.now floor) answer) }
        ensures full { IfNone result (MOST ≤ length self.old.given) }
        ensures unchanged { IfNone result (self.new ≡ self.old) }
    {
        if self.given.is_full() {
            return None;
        }
        match self.row.stamp(reading, floor, &Span::whole()) {
            Ok(stamp) => {
                self.given.push(stamp);
                Some(Answer::Begun(stamp))
            }
            Err(fault) => Some(Answer::Refused(fault.number())),
        }
    }

    /// Ends a commit, which is written or given up.
    fn end(&mut self, stamp: u64) -> Option<Answer>
        ensures said { IfSome result (λ answer. IsSaid self.old (Call.End stamp) answer) }
        ensures becomes { IfSome result (λ answer. self.new ≡ after self.old (Call.End stamp) answer) }
        ensures full { IfNone result (MOST ≤ length self.old.ended) }
        ensures unchanged { IfNone result (self.new ≡ self.old) }
    {
        if !self.is_pending(stamp) {
            return Some(Answer::Invalid);
        }
        if self.ended.is_full() {
            return None;
        }
        self.ended.push(stamp);
        Some(Answer::Ended)
    }

    /// The watermark, by a reading with this earliest.
    fn mark(&self, earliest: u64) -> Answer
        ensures { IsSaid self.now (Call.Watermark earliest) result }
    {
        match self.watermark(earliest) {
            Some(t) => Answer::Mark(t),
            None => Answer::NoMark,
        }
    }

    /// Whether a snapshot at `t` may be read, by a reading with this earliest.
    fn readable(&self, t: u64, earliest: u64) -> Answer
        ensures { IsSaid self.now (Call.Readable t earliest) result }
    {
        if earliest <= t {
            return Answer::No;
        }
        if self.is_settled(t) {
            return Answer::Yes;
        }
        Answer::No
    }

    /// Whether the commit with this stamp may be told, by a reading with this earliest.
    fn release(&self, stamp: u64, earliest: u64) -> Answer
        ensures { IsSaid self.now (Call.Release stamp earliest) result }
    {
        if self.is_pending(stamp) {
            return Answer::Invalid;
        }
        if stamp < earliest {
            return Answer::Yes;
        }
        Answer::No
    }

    /// The greatest time at which a snapshot may be read, by a reading with this earliest, in nanoseconds.
    fn watermark(&self, earliest: u64) -> Option<u64>
        ensures { IsWatermark self.now earliest result }
    {
        bound_of(self.given.as_slice(), self.ended.as_slice(), earliest).checked_sub(1)
    }

    /// Whether each commit with a stamp up to `t`, in nanoseconds, is ended.
    fn is_settled(&self, t: u64) -> bool
        ensures { IsTrue result ↔ IsSettled self.now t }
    {
        are_settled(self.given.as_slice(), self.ended.as_slice(), t)
    }

    /// Whether a commit with this stamp was begun and is not ended.
    fn is_pending(&self, stamp: u64) -> bool
        ensures { IsTrue result ↔ IsPending self.now stamp }
    {
        is_among(self.given.as_slice(), stamp) && !is_among(self.ended.as_slice(), stamp)
    }
}

/// The least stamp of a pending commit, or the earliest where that is no greater.
fn bound_of(given: &[u64], ended: &[u64], earliest: u64) -> u64
    ensures { IsBound (record { given = given.now; ended = ended.now }) earliest result }
{
    let mut bound = earliest;
    for stamp in given {
        bound = bound_with(ended, *stamp, bound);
    }
    bound
}

/// The lesser of this bound and this stamp, if its commit is not ended.
fn bound_with(ended: &[u64], stamp: u64, bound: u64) -> u64
    ensures lower { result ≤ bound }
    ensures ended { stamp < result → Contains ended.now stamp }
    ensures one { (result ≡ bound) ⊎ ((result ≡ stamp) × (¬ Contains ended.now stamp)) }
{
    if bound <= stamp {
        return bound;
    }
    if is_among(ended, stamp) {
        return bound;
    }
    stamp
}

/// Whether each commit with a stamp up to `t` is ended.
fn are_settled(given: &[u64], ended: &[u64], t: u64) -> bool
    ensures { IsTrue result ↔ IsSettled (record { given = given.now; ended = ended.now }) t }
{
    for stamp in given {
        if !is_settled_at(ended, *stamp, t) {
            return false;
        }
    }
    true
}

/// Whether the commit with this stamp is ended, if the stamp is up to `t`.
fn is_settled_at(ended: &[u64], stamp: u64, t: u64) -> bool
    ensures { IsTrue result ↔ (stamp ≤ t → Contains ended.now stamp) }
{
    if t < stamp {
        return true;
    }
    is_among(ended, stamp)
}

/// Whether a stamp is among these.
fn is_among(stamps: &[u64], stamp: u64) -> bool
    ensures { IsTrue result ↔ Contains stamps.now stamp }
{
    stamps.contains(&stamp)
}
