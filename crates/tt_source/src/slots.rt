//! What a table keeps of one source.

ghost use Rattle.std.specs.Prelude.{◌≡◌, ◌≤◌, is_some, IfSome};
ghost use Rattle.tt_span.specs.Time.{max_time};
ghost use Rattle.tt_source.specs.Statement.{IsStatement};
ghost use Rattle.tt_source.specs.Table.{unknown_source, waiting_for, statement_of_answer, stated_at};

use crate::faults::SourceFault;
use crate::statements::Statement;
use std::marker::Model;
use tt_poll::Answer2;
use tt_span::{Drift, Span};

/// A poll that waits for its answer: its nonce, and the clock reading at which it was sent.
#[derive(Clone, Copy)]
pub(crate) struct Sending {
    nonce: u64,
    clock: u64,
}

impl Model for Sending {
    ghost use Rattle.tt_source.specs.Table.{Sending as Sent};

    ghost Value = { Sent };

    ghost view = { λ s. record { nonce = s.nonce; clock = s.clock } };

    ghost inverse = { λ s. record { nonce = s.nonce; clock = s.clock } };
}

/// The poll of a source that waits for its answer, and the last answer that was taken.
#[derive(Clone, Copy)]
pub(crate) struct Slot {
    waiting: Option<Sending>,
    statement: Option<Statement>,
}

impl Model for Slot {
    ghost use Rattle.tt_source.specs.Table.{SourceState};

    ghost Value = { SourceState };

    ghost view = { λ s. record { waiting = s.waiting; statement = s.statement } };

    ghost inverse = { λ s. record { waiting = s.waiting; statement = s.statement } };
}

impl Default for Slot {
    ghost is_default = { λ s. s ≡ unknown_source };

    /// A source of which nothing is known.
    fn default() -> Self {
        Slot {
            waiting: None,
            statement: None,
        }
    }
}

impl Slot {
    /// A source that made this statement, and no poll of which waits.
    pub(crate) fn stated(statement: Statement) -> Slot
        ensures { result ≡ record { waiting = None; statement = Some statement } }
    {
        Slot {
            waiting: None,
            statement: Some(statement),
        }
    }

    /// The source after it was polled with `nonce` when the clock showed `clock`.
    pub(crate) fn polled(&self, nonce: u64, clock: u64) -> Slot
        ensures { result ≡ record self.now { waiting = Some (record { nonce = nonce; clock = clock }) } }
    {
        Slot {
            waiting: Some(Sending { nonce, clock }),
            statement: self.statement,
        }
    }

    /// The statement of an answer that came when the clock showed `clock`. Refuses with 406 `NotOutstanding` if no poll
    /// with its nonce waits.
    pub(crate) fn answered(&self, answer: &Answer2, clock: u64) -> Result<Statement, SourceFault>
        requires sent { IfSome self.now.waiting (λ sending. sending.clock ≤ clock) }
        requires in_time { clock ≤ max_time }
        ensures { result ≡ statement_of_answer (waiting_for self.now.waiting answer.now.nonce) answer.now clock }
    {
        match self.waiting {
            Some(sending) if sending.nonce == answer.nonce() => {
                Statement::new(answer.span(), sending.clock, clock)
            }
            _ => Err(SourceFault::NotOutstanding),
        }
    }

    /// The statement of the source, if it has made one.
    pub(crate) fn statement(&self) -> Option<Statement>
        ensures value { result ≡ self.now.statement }
        ensures valid { IfSome result (λ statement. IsStatement statement) }
    {
        let statement = self.statement?;
        prove!(statement.sent() <= statement.got());
        Some(statement)
    }

    /// Whether the source has made a statement.
    pub(crate) fn is_known(&self) -> bool
        ensures { result ≡ is_some self.now.statement }
    {
        self.statement.is_some()
    }

    /// The span of the source when the clock shows `clock`: its statement, aged, or the whole of time if it has made
    /// none.
    pub(crate) fn aged(&self, drift: Drift, clock: u64) -> Result<Span, SourceFault>
        requires got { IfSome self.now.statement (λ statement. statement.got ≤ clock) }
        requires in_time { clock ≤ max_time }
        ensures value { result ≡ Ok (stated_at drift self.now.statement clock) }
    {
        match self.statement {
            Some(statement) => statement.aged(drift, clock),
            None => Ok(Span::whole()),
        }
    }
}
