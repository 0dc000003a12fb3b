//! Fusion over scaled keys, which are never sorted again.

ghost use Rattle.std.specs.Prelude.{◌≡◌, ℕ, ◌+◌, ◌-◌, ◌*◌, ◌<◌, ◌≤◌, ◌↔◌, ◌++◌, length, map, replicate, All, IsSome, IsOk, IfOk, IsErrOf, MatchOption, None};
ghost use Rattle.tt_span.specs.Time.{max_time};
ghost use Rattle.tt_span.specs.Sources.{max_sources};
ghost use Rattle.tt_span.specs.Statement.{Statement};
ghost use Rattle.tt_fuse.specs.Fusion.{IsPossibleTime, IsFusion, HasNoPossibleTime, CanBeFused};
ghost use Rattle.tt_fuse.specs.Ends.{AreEndsOf};
ghost use Rattle.tt_fuse.specs.Stated.{IsStated, nothing_stated, statement_of, with_statement, AreGotBy, AreAmongFirst, AreSpansAt, spans_at, low_of_source, high_of_source};
ghost use Rattle.tt_fuse.specs.Pairs.{IsFound};
ghost use Rattle.tt_fuse.specs.Scaled.{key_bound, key_number, IsKey, AreOrderedAt, low_end_of, high_end_of};

use crate::counts::check_counts;
use crate::fusion::FuseFault;
use crate::keys::{are_in_order, high_end, high_key, low_end, low_key};
use crate::ordered::SortedKeys;
use crate::sorted::SortedEnds;
use arrayvec::ArrayVec;
use std::marker::Model;
use tt_span::{Drift, MAX_DRIFT, MAX_SOURCES, MAX_TIME, Span};

/// What a source stated last: the span of its answer, and the clock readings at which its poll was sent and the answer
/// came.
#[derive(Clone, Copy)]
struct Answered {
    span: Span,
    sent: u64,
    got: u64,
}

impl Model for Answered {
    ghost use Rattle.tt_span.specs.Statement.{Statement};

    ghost Value = { Statement };

    ghost view = { λ a. record { span = a.span; sent = a.sent; got = a.got } };

    ghost inverse = { λ s. record { span = s.span; sent = s.sent; got = s.got } };
}

/// The ends of what the sources of a machine stated last, by keys whose order does not change as the statements age.
///
/// A lower end ages by the time since its answer came, less what the clock may be wrong by. An upper end ages by the
/// time since its poll was sent, plus what the clock may be wrong by. The key of an end is what the end would have been
/// when the clock showed 0. So two lower ends stay in the order of their keys, and so do two upper ends.
///
/// The keys are kept in ascending order, each with its source. An accepted answer changes one key of each kind. A
/// fusion compares a few keys and ages two. The ends of spans that are already aged are put in order without a sort.
#[derive(Drop)]
pub struct Ends {
    drift: Drift,
    answers: [Option<Answered>; MAX_SOURCES],
    lows: SortedKeys,
    highs: SortedKeys,
}

impl Model for Ends {
    ghost use Rattle.tt_fuse.specs.Stated.{Stated};
    ghost use Rattle.tt_fuse.specs.Scaled.{AreKeysOf};

    ghost Value = { Stated };

    ghost view = { λ e. record { drift = e.drift; statements = e.answers } };

    ghost invariant = { λ e. AreKeysOf (record { drift = e.drift; statements = e.answers }) e.lows e.highs };
}

impl Ends {
    /// The ends before any statement, for a machine whose clock has this drift.
    pub fn new(drift: Drift) -> Ends
        ensures value { result ≡ nothing_stated drift }
        ensures valid { IsStated result }
    {
        prove!(drift.ppm() <= MAX_DRIFT);
        Ends {
            drift,
            answers: [None; MAX_SOURCES],
            lows: SortedKeys::new(),
            highs: SortedKeys::new(),
        }
    }

    /// Adds the statement of source `i`, which has none yet: the span of its answer, and the clock readings, in
    /// nanoseconds, at which its poll was sent and the answer came. The other sources' statements stay.
    ///
    /// Requires: `i` is below [`MAX_SOURCES`], source `i` has no statement, `sent` is at most `got`, and `got` is at
    /// most [`MAX_TIME`].
    pub fn insert(&mut self, i: u8, span: &Span, sent: u64, got: u64)
        requires there { i < max_sources }
        requires without { statement_of self.old i ≡ None }
        requires ordered { sent ≤ got }
        requires in_time { got ≤ max_time }
        ensures value { self.new ≡ with_statement self.old i (record { span = span.now; sent = sent; got = got }) }
        ensures valid { IsStated self.new }
    {
        self.lows.insert(low_key(self.drift, span.lo(), got), i);
        self.highs.insert(high_key(self.drift, span.hi(), sent), i);
        self.answers[usize::from(i)] = Some(Answered {
            span: *span,
            sent,
            got,
        });
    }

    /// Replaces the statement of source `i` by this one: the span of its answer, and the clock readings, in
    /// nanoseconds, at which its poll was sent and the answer came. The other sources' statements stay.
    ///
    /// Requires: `i` is below [`MAX_SOURCES`], source `i` has a statement, `sent` is at most `got`, and `got` is at
    /// most [`MAX_TIME`].
    pub fn replace(&mut self, i: u8, span: &Span, sent: u64, got: u64)
        requires there { i < max_sources }
        requires with { IsSome (statement_of self.old i) }
        requires ordered { sent ≤ got }
        requires in_time { got ≤ max_time }
        ensures value { self.new ≡ with_statement self.old i (record { span = span.now; sent = sent; got = got }) }
        ensures valid { IsStated self.new }
    {
        self.lows.replace(i, low_key(self.drift, span.lo(), got));
        self.highs.replace(i, high_key(self.drift, span.hi(), sent));
        self.answers[usize::from(i)] = Some(Answered {
            span: *span,
            sent,
            got,
        });
    }

    /// The ends of these spans, in order. Nothing is aged again, and nothing is sorted.
    ///
    /// Requires: these are the spans of the first sources at some clock reading. The span of a source is the span of
    /// its statement, aged, or the whole of time if it has made none. The reading is at most [`MAX_TIME`], and no
    /// statement came after it. There are at most [`MAX_SOURCES`] spans, and no other source has made a statement.
    pub fn of(&self, spans: &[Span]) -> SortedEnds
        requires { (clock : ℕ) × AreSpansAt self.now clock spans.now }
        ensures value { AreEndsOf spans.now result }
    {
        let lows = self.lows.sources();
        let highs = self.highs.sources();
        let unknown = spans.len() - lows.len();
        SortedEnds::in_order(
            lows_of(lows, spans, unknown),
            highs_of(highs, spans, unknown),
        )
    }

    /// The fusion of the spans of the first `sources` sources when the clock shows `clock`, as [`fuse`](crate::fuse)
    /// gives it. The span of a source is the span of its statement, aged, or the whole of time if it has made none.
    ///
    /// Refuses as `fuse` does, in this order: 501 `NoSource` if there is no source, 502 `TooMany` if there are more
    /// than [`MAX_SOURCES`], 503 `TooFew` if there are fewer than `2 * faulty + 1`, 504 `NoPoint` if no time is
    /// possible, which shows that more than `faulty` sources are wrong.
    ///
    /// Requires: `clock` is at most [`MAX_TIME`], no statement came after it, and only the first `sources` sources have
    /// made statements.
    pub fn fuse(&self, clock: u64, sources: usize, faulty: usize) -> Result<Span, FuseFault>
        requires in_time { clock ≤ max_time }
        requires got { AreGotBy self.now clock }
        requires among { AreAmongFirst self.now sources }
        ensures no_source { IsErrOf result FuseFault.NoSource ↔ (sources ≡ 0) }
        ensures too_many { IsErrOf result FuseFault.TooMany ↔ (max_sources < sources) }
        ensures too_few { IsErrOf result FuseFault.TooFew
            ↔ ((0 < sources) × (sources ≤ max_sources) × (sources < 2 * faulty + 1)) }
        ensures no_point { IsErrOf result FuseFault.NoPoint
            ↔ (CanBeFused sources faulty × HasNoPossibleTime (spans_at self.now clock sources) faulty) }
        ensures answered { IsOk result
            ↔ (CanBeFused sources faulty × ((x : ℕ) × IsPossibleTime (spans_at self.now clock sources) faulty x)) }
        ensures fused { IfOk result (λ span. IsFusion (spans_at self.now clock sources) faulty span) }
    {
        check_counts(sources, faulty)?;
        self.fused(clock, faulty).ok_or(FuseFault::NoPoint)
    }

    /// The fusion when the clock shows `clock` and at most `faulty` of the sources are wrong. None if no time is
    /// possible. The span of a source that has made no statement holds every time, so it does not matter how many such
    /// sources there are.
    ///
    /// It finds the ends as [`SortedEnds::fused`] does, but by keys. It ages only the two that it finds.
    fn fused(&self, clock: u64, faulty: usize) -> Option<Span>
        requires in_time { clock ≤ max_time }
        requires got { AreGotBy self.now clock }
        ensures fused { (n : ℕ) → faulty < n → n ≤ max_sources → AreAmongFirst self.now n →
            MatchOption result (HasNoPossibleTime (spans_at self.now clock n) faulty) (λ span. IsFusion (spans_at self.now clock n) faulty span) }
        ensures valid { IsStated self.now }
    {
        let lows = self.lows.as_slice();
        let highs = self.highs.as_slice();
        if lows.len() <= faulty {
            return Some(Span::whole());
        }
        let starts = &lows[lows.len() - 1 - faulty..];
        let (lo, hi) = first_and_last_at(self.drift, starts, highs, clock)?;
        Span::new(lo, hi).ok()
    }
}

/// The first start and the last end, by their keys, of the pairs that are in order when the clock shows `clock`. None
/// if no pair is in order. A pair is a start and the end at the same place. There may be more ends than starts.
fn first_and_last_at(drift: Drift, starts: &[i128], ends: &[i128], clock: u64) -> Option<(u64, u64)>
    requires in_time { clock ≤ max_time }
    requires enough { length starts.now ≤ length ends.now }
    requires starts_in_range { All IsKey starts.now }
    requires ends_in_range { All IsKey ends.now }
    requires starts_reached { All (λ key. key_bound ≤ key_number key + clock * (1000000 - drift)) starts.now }
    requires ends_reached { All (λ key. key_bound ≤ key_number key + clock * (1000000 + drift)) ends.now }
    ensures { IsFound (map (low_end_of drift clock) starts.now) (map (high_end_of drift clock) ends.now) (length starts.now) result }
{
    let first = first_in_order(drift, starts, ends, clock);
    if first == starts.len() {
        return None;
    }
    let last = last_in_order(drift, starts, ends, clock, first);
    Some((
        low_end(drift, starts[first], clock),
        high_end(drift, ends[last], clock),
    ))
}

/// The place of the first pair that is in order when the clock shows `clock`, or the number of starts if no pair is in
/// order.
fn first_in_order(drift: Drift, starts: &[i128], ends: &[i128], clock: u64) -> usize
    requires in_time { clock ≤ max_time }
    requires enough { length starts.now ≤ length ends.now }
    requires starts_in_range { All IsKey starts.now }
    requires ends_in_range { All IsKey ends.now }
    requires starts_reached { All (λ key. key_bound ≤ key_number key + clock * (1000000 - drift)) starts.now }
    requires ends_reached { All (λ key. key_bound ≤ key_number key + clock * (1000000 + drift)) ends.now }
    ensures within { result ≤ length starts.now }
    ensures there { result < length starts.now → AreOrderedAt drift clock starts.now ends.now result }
    ensures before { (k : ℕ) → k < result → AreOrderedAt drift clock starts.now ends.now k → ⊥ }
{
    let mut first = 0;
    while first < starts.len() && !are_in_order(drift, starts[first], ends[first], clock) {
        first += 1;
    }
    first
}

/// The place of the last pair that is in order when the clock shows `clock`. The pair at `first` is in order then.
fn last_in_order(drift: Drift, starts: &[i128], ends: &[i128], clock: u64, first: usize) -> usize
    requires in_time { clock ≤ max_time }
    requires enough { length starts.now ≤ length ends.now }
    requires starts_in_range { All IsKey starts.now }
    requires ends_in_range { All IsKey ends.now }
    requires starts_reached { All (λ key. key_bound ≤ key_number key + clock * (1000000 - drift)) starts.now }
    requires ends_reached { All (λ key. key_bound ≤ key_number key + clock * (1000000 + drift)) ends.now }
    requires first_in { first < length starts.now }
    requires first_ordered { AreOrderedAt drift clock starts.now ends.now first }
    ensures within { result < length starts.now }
    ensures there { AreOrderedAt drift clock starts.now ends.now result }
    ensures after { (k : ℕ) → result < k → k < length starts.now → AreOrderedAt drift clock starts.now ends.now k → ⊥ }
{
    let mut last = starts.len() - 1;
    while first < last && !are_in_order(drift, starts[last], ends[last], clock) {
        last -= 1;
    }
    last
}

/// The lower ends for `unknown` sources without a statement, all 0, and then the lower ends of the spans of these
/// sources.
fn lows_of(sources: &[u8], spans: &[Span], unknown: usize) -> ArrayVec<u64, 16>
    requires there { All (λ source. source < length spans.now) sources.now }
    requires room { unknown + length sources.now ≤ max_sources }
    ensures { result.items ≡ replicate unknown 0 ++ map (low_of_source spans.now) sources.now }
{
    let mut ends = ArrayVec::from([0; MAX_SOURCES]);
    ends.truncate(unknown);
    for source in sources {
        ends.push(spans[usize::from(*source)].lo());
    }
    ends
}

/// The upper ends of the spans of these sources, and then the upper ends for `unknown` sources without a statement, all
/// the greatest time.
fn highs_of(sources: &[u8], spans: &[Span], unknown: usize) -> ArrayVec<u64, 16>
    requires there { All (λ source. source < length spans.now) sources.now }
    requires room { unknown + length sources.now ≤ max_sources }
    ensures { result.items ≡ map (high_of_source spans.now) sources.now ++ replicate unknown max_time }
{
    let mut ends = ArrayVec::new();
    for source in sources {
        ends.push(spans[usize::from(*source)].hi());
    }
    for _ in 0..unknown {
        ends.push(MAX_TIME);
    }
    ends
}
