//! Answers with an epoch, with their ranges in their type.

ghost use Rattle.std.specs.Prelude.{◌≡◌, ◌<◌, ◌≤◌, ◌↔◌, ◌⊎◌, IsOk, IfOk, IsErrOf};
ghost use Rattle.tt_poll.specs.Message.{max_machine, max_source, PollRequest2, PollAnswer2, IsAnswer2, answer_to2};

use crate::faults::PollFault;
use crate::requests2::Request2;
use std::marker::Model;
use tt_span::Span;

/// What a source answers to a request of TTP2: the machine, the source, the nonce and the epoch of the request, and a
/// span that the source says holds the true time.
#[derive(Clone, Copy, Debug, PartialEq, Eq)]
pub struct Answer2 {
    request: Request2,
    span: Span,
}

impl Model for Answer2 {
    ghost use Rattle.tt_poll.specs.Message.{PollAnswer2, IsAnswer2};

    ghost Value = { PollAnswer2 };

    ghost view = { λ a. record { machine = a.request.machine; source = a.request.source; nonce = a.request.nonce; epoch = a.request.epoch; span = a.span } };

    ghost invariant = { λ a. IsAnswer2 (record { machine = a.request.machine; source = a.request.source; nonce = a.request.nonce; epoch = a.request.epoch; span = a.span }) };

    ghost inverse = { λ a. record { request = record { machine = a.machine; source = a.source; nonce = a.nonce; epoch = a.epoch }; span = a.span } };
}

impl Request2 {
    /// The answer to this request that the true time lies in `span`. It has the machine, the source, the nonce and the
    /// epoch of the request.
    pub fn answered(&self, span: Span) -> Answer2
        ensures value { result ≡ answer_to2 self.now span }
    {
        prove!(self.nonce() > 0);
        prove!(span.lo() <= span.hi());
        Answer2 {
            request: *self,
            span,
        }
    }
}

impl Answer2 {
    /// The answer of `source` to a request of `machine` with `nonce` and `epoch`, that the true time lies in `span`.
    /// Refuses, in this order: 205 `Number` where the machine is above 7 or the source is above 15, 206 `Nonce` where
    /// the nonce is 0, 208 `Epoch` where the epoch is 0.
    pub fn new(
        machine: u8,
        source: u8,
        nonce: u64,
        epoch: u64,
        span: Span,
    ) -> Result<Answer2, PollFault>
        ensures taken { IsOk result ↔ ((machine ≤ max_machine) × (source ≤ max_source) × (0 < nonce) × (0 < epoch)) }
        ensures value { IfOk result (λ a. a ≡ record { machine = machine; source = source; nonce = nonce; epoch = epoch; span = span }) }
        ensures no_number { IsErrOf result PollFault.Number ↔ ((max_machine < machine) ⊎ (max_source < source)) }
        ensures no_nonce { IsErrOf result PollFault.Nonce ↔ ((machine ≤ max_machine) × (source ≤ max_source) × (nonce ≡ 0)) }
        ensures no_epoch { IsErrOf result PollFault.Epoch ↔ ((machine ≤ max_machine) × (source ≤ max_source) × (0 < nonce) × (epoch ≡ 0)) }
    {
        let request = Request2::new(machine, source, nonce, epoch)?;
        Ok(request.answered(span))
    }

    /// The request that is answered.
    pub(crate) fn request(&self) -> Request2
        ensures { result ≡ record { machine = self.now.machine; source = self.now.source; nonce = self.now.nonce; epoch = self.now.epoch } }
    {
        self.request
    }

    /// The machine that asked, at most 7.
    pub fn machine(&self) -> u8
        ensures value { result ≡ self.now.machine }
        ensures valid { IsAnswer2 self.now }
    {
        self.request.machine()
    }

    /// The source that answers, at most 15.
    pub fn source(&self) -> u8
        ensures value { result ≡ self.now.source }
        ensures valid { IsAnswer2 self.now }
    {
        self.request.source()
    }

    /// The nonce of the request, which is not 0.
    pub fn nonce(&self) -> u64
        ensures value { result ≡ self.now.nonce }
        ensures valid { IsAnswer2 self.now }
    {
        self.request.nonce()
    }

    /// The epoch of the request, which is not 0.
    pub fn epoch(&self) -> u64
        ensures value { result ≡ self.now.epoch }
        ensures valid { IsAnswer2 self.now }
    {
        self.request.epoch()
    }

    /// The span that the source says holds the true time.
    pub fn span(&self) -> Span
        ensures value { result ≡ self.now.span }
        ensures valid { IsAnswer2 self.now }
    {
        self.span
    }
}
