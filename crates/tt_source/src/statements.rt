//! One accepted answer of a source.

ghost use Rattle.std.specs.Prelude.{◌≡◌, ℕ, ◌+◌, ◌-◌, ◌<◌, ◌≤◌, ◌↔◌, ◌⊎◌, IsOk, IfOk, IfErr, IsErrOf};
ghost use Rattle.tt_span.specs.Time.{max_time};
ghost use Rattle.tt_span.specs.Interval.{IsInterval, Holds};
ghost use Rattle.tt_source.specs.Statement.{IsStatement, statement_at, IsPossibleNow, uncut_low, uncut_high};

use crate::faults::SourceFault;
use std::marker::Model;
use tt_span::{Drift, MAX_TIME, Span, drift_laws};

/// What a source stated: the span of its answer, and the readings of the machine's clock, in nanoseconds, at
/// which the poll was sent and the answer came.
#[derive(Clone, Copy, Debug, PartialEq, Eq)]
pub struct Statement {
    span: Span,
    sent: u64,
    got: u64,
}

impl Model for Statement {
    ghost use Rattle.tt_source.specs.Statement.{Statement as Stated, IsStatement};

    ghost Value = { Stated };

    ghost view = { λ s. record { span = s.span; sent = s.sent; got = s.got } };

    ghost invariant = { λ s. IsStatement (record { span = s.span; sent = s.sent; got = s.got }) };

    ghost inverse = { λ s. record { span = s.span; sent = s.sent; got = s.got } };
}

impl Statement {
    /// The statement of an answer with this span. Its poll was sent when the clock showed `sent`, and it came when the
    /// clock showed `got`. Refuses with 402 `ClockBack` where `got` is below `sent`, or above [`MAX_TIME`].
    pub fn new(span: Span, sent: u64, got: u64) -> Result<Statement, SourceFault>
        ensures taken { IsOk result ↔ ((sent ≤ got) × (got ≤ max_time)) }
        ensures value { IfOk result (λ s. s ≡ record { span = span; sent = sent; got = got }) }
        ensures refused { IfErr result (λ e. e ≡ SourceFault.ClockBack) }
    {
        if got < sent || got > MAX_TIME {
            return Err(SourceFault::ClockBack);
        }
        prove!(span.lo() <= span.hi());
        Ok(Statement { span, sent, got })
    }

    /// The span of the answer. If the answer is true, the span held the true time at some moment between the two clock
    /// readings.
    pub fn span(&self) -> Span
        ensures value { result ≡ self.now.span }
        ensures valid { IsStatement self.now }
    {
        self.span
    }

    /// The reading of the machine's clock when the poll was sent, in nanoseconds, at most the reading at the receipt.
    pub fn sent(&self) -> u64
        ensures value { result ≡ self.now.sent }
        ensures valid { IsStatement self.now }
    {
        self.sent
    }

    /// The reading of the machine's clock when the answer came, in nanoseconds, at most [`MAX_TIME`].
    pub fn got(&self) -> u64
        ensures value { result ≡ self.now.got }
        ensures valid { IsStatement self.now }
    {
        self.got
    }

    /// The span of the statement when the clock shows `clock`: its lower end aged since the receipt, its upper end
    /// since the sending, each cut at [`MAX_TIME`]. It assumes no least time of transit. Refuses with 402 `ClockBack`
    /// where `clock` is below the receipt, or above [`MAX_TIME`].
    pub fn aged(&self, drift: Drift, clock: u64) -> Result<Span, SourceFault>
        ensures taken { IsOk result ↔ ((self.now.got ≤ clock) × (clock ≤ max_time)) }
        ensures value { IfOk result (λ i. i ≡ statement_at drift self.now clock) }
        ensures refused { IfErr result (λ e. e ≡ SourceFault.ClockBack) }
        ensures valid { IfOk result (λ i. IsInterval i) }
        ensures holds { IfOk result (λ i. (x : ℕ) → IsPossibleNow drift self.now clock x → Holds i x) }

        // No narrower answer is right. An upper end that is not cut is the true time of such a run. So is a lower end
        // that is not cut, where the span's lower end is at least `got - sent`: in that run the answer was given and
        // came at the span's lower end, and the poll was sent `got - sent` before it.
        ensures low_is_possible { IfOk result (λ i. self.now.got - self.now.sent ≤ self.now.span.lo →
            uncut_low drift self.now clock ≤ max_time → IsPossibleNow drift self.now clock i.lo) }
        ensures high_is_possible { IfOk result (λ i. uncut_high drift self.now clock ≤ max_time → IsPossibleNow drift self.now clock i.hi) }
    {
        if clock < self.got || clock > MAX_TIME {
            return Err(SourceFault::ClockBack);
        }
        drift_laws();
        let low = drift.age_low(self.span.lo(), clock - self.got);
        let high = drift.age_high(self.span.hi(), clock - self.sent);
        Ok(Span::new(low, high).unwrap())
    }
}
