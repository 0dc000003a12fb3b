//! Answers, with their ranges in their type.

ghost use Rattle.std.specs.Prelude.{◌≡◌, ◌<◌, ◌≤◌, ◌↔◌, ◌⊎◌, IsOk, IfOk, IsErrOf};
ghost use Rattle.tt_poll.specs.Message.{max_machine, max_source, PollRequest, PollAnswer, IsAnswer, answer_to};

use crate::faults::PollFault;
use crate::requests::Request;
use std::marker::Model;
use tt_span::Span;

/// What a source answers: the machine, the source and the nonce of the request, and a span that the source says
/// holds the true time.
#[derive(Clone, Copy, Debug, PartialEq, Eq)]
pub struct Answer {
    request: Request,
    span: Span,
}

impl Model for Answer {
    ghost use Rattle.tt_poll.specs.Message.{PollAnswer, IsAnswer};

    ghost Value = { PollAnswer };

    ghost view = { λ a. record { machine = a.request.machine; source = a.request.source; nonce = a.request.nonce; span = a.span } };

    ghost invariant = { λ a. IsAnswer (record { machine = a.request.machine; source = a.request.source; nonce = a.request.nonce; span = a.span }) };

    ghost inverse = { λ a. record { request = record { machine = a.machine; source = a.source; nonce = a.nonce }; span = a.span } };
}

impl Request {
    /// The answer to this request that the true time lies in `span`. It has the machine, the source and the nonce of
    /// the request.
    pub fn answered(&self, span: Span) -> Answer
        ensures value { result ≡ answer_to self.now span }
    {
        prove!(self.nonce() > 0);
        prove!(span.lo() <= span.hi());
        Answer {
            request: *self,
            span,
        }
    }
}

impl Answer {
    /// The answer of `source` to a request of `machine` with `nonce`, that the true time lies in `span`. Refuses, in
    /// this order: 205 `Number` where the machine is above 7 or the source is above 15, 206 `Nonce` where the nonce is
    /// 0.
    pub fn new(machine: u8, source: u8, nonce: u64, span: Span) -> Result<Answer, PollFault>
        ensures taken { IsOk result ↔ ((machine ≤ max_machine) × (source ≤ max_source) × (0 < nonce)) }
        ensures value { IfOk result (λ a. a ≡ record { machine = machine; source = source; nonce = nonce; span = span }) }
        ensures no_number { IsErrOf result PollFault.Number ↔ ((max_machine < machine) ⊎ (max_source < source)) }
        ensures no_nonce { IsErrOf result PollFault.Nonce ↔ ((machine ≤ max_machine) × (source ≤ max_source) × (nonce ≡ 0)) }
    {
        let request = Request::new(machine, source, nonce)?;
        Ok(request.answered(span))
    }

    /// The request that is answered.
    pub(crate) fn request(&self) -> Request
        ensures { result ≡ record { machine = self.now.machine; source = self.now.source; nonce = self.now.nonce } }
    {
        self.request
    }

    /// The machine that asked, at most 7.
    pub fn machine(&self) -> u8
        ensures value { result ≡ self.now.machine }
        ensures valid { IsAnswer self.now }
    {
        self.request.machine()
    }

    /// The source that answers, at most 15.
    pub fn source(&self) -> u8
        ensures value { result ≡ self.now.source }
        ensures valid { IsAnswer self.now }
    {
        self.request.source()
    }

    /// The nonce of the request, which is not 0.
    pub fn nonce(&self) -> u64
        ensures value { result ≡ self.now.nonce }
        ensures valid { IsAnswer self.now }
    {
        self.request.nonce()
    }

    /// The span that the source says holds the true time.
    pub fn span(&self) -> Span
        ensures value { result ≡ self.now.span }
        ensures valid { IsAnswer self.now }
    {
        self.span
    }
}
