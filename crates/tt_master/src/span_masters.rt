//! Masters over a reference that states intervals.

ghost use Rattle.std.specs.Prelude.{◌≡◌, ◌≤◌, ◌↔◌, ℕ, Err, IfOk, IfErr};
ghost use Rattle.tt_span.specs.Interval.{Holds};
ghost use Rattle.tt_poll.specs.Message.{max_source};
ghost use Rattle.tt_master.specs.Packet.{request_to as request_in, request_to2 as request_in2, packet_to, packet_to2, IsTrueAnswer, IsTrueAnswer2};
ghost use Rattle.tt_master.specs.Silence.{unheard_as};
ghost use Rattle.tt_master.specs.SpanMaster.{SpanMasterState, AnswersBySpan};

use crate::hearing::{packet, packet2, request_to, request_to2};
use crate::silences::NoAnswer;
use crate::span_references::SpanReference;
use std::marker::Model;
use tt_poll::{ANSWER_LEN, ANSWER2_LEN};
use tt_span::Span;

/// A time master that answers the interval which its reference states, such as one made from the replies of other
/// servers.
///
/// In contracts it is the number of the source that it is, and its reference.
#[derive(Drop)]
pub struct SpanMaster<R> {
    source: u8,
    reference: R,
}

impl<R> Model for SpanMaster<R> {
    ghost use Rattle.std.specs.Prelude.{◌≤◌};
    ghost use Rattle.tt_poll.specs.Message.{max_source};
    ghost use Rattle.tt_master.specs.SpanMaster.{SpanMasterState};

    ghost Value = { SpanMasterState R };

    ghost view = { λ m. record { source = m.source; reference = m.reference } };

    ghost invariant = { λ m. m.source ≤ max_source };
}

impl<R: SpanReference> SpanMaster<R> {
    /// The master that is source number `source`, over this reference. Requires: the source is at most 15.
    pub fn new(source: u8, reference: R) -> Self
        requires source_in { source ≤ max_source }
        ensures value { result ≡ record { source = source; reference = reference } }
    {
        SpanMaster { source, reference }
    }

    /// The reference.
    pub fn reference(&self) -> &R
        ensures { result.now ≡ self.now.reference }
    {
        &self.reference
    }

    /// Answers a request of TTP1 with the span that the reference states: this span, and the packet that says it. The
    /// packet has the machine and the nonce of the request. It is a true answer at exactly the times that the span
    /// holds.
    ///
    /// Refuses, in this order: 301 `BadMessage` where the bytes are not a valid message of TTP1, 302 `OtherSource` where
    /// the message names another source, 303 `NotRequest` where it is not a request; and with `Silent`, 2401 to 2408,
    /// where the reference states no interval. After 301 to 303 the reference was not read, and the master is as it
    /// was.
    pub fn answer(&mut self, bytes: &[u8]) -> Result<(Span, [u8; ANSWER_LEN]), NoAnswer>
        ensures refused { IfErr (request_in self.old.source bytes.now) (λ e. (result ≡ Err (unheard_as e)) × (self.new ≡ self.old)) }
        ensures answered { IfOk (request_in self.old.source bytes.now) (λ request.
            AnswersBySpan (λ gave. R.gives self.old.reference gave self.new.reference) (packet_to request) result) }
        ensures holds { IfOk result (λ answer. (time : ℕ) → IsTrueAnswer answer.1 time ↔ Holds answer.0 time) }
        ensures same { self.new ≡ record self.old { reference = self.new.reference } }
    {
        let request = request_to(self.source, bytes).map_err(NoAnswer::unheard)?;
        let span = self.reference.read().map_err(NoAnswer::Silent)?;
        Ok((span, packet(&request, span)))
    }

    /// As [`answer`](SpanMaster::answer), for TTP2: the answer also has the epoch of the request.
    pub fn answer2(&mut self, bytes: &[u8]) -> Result<(Span, [u8; ANSWER2_LEN]), NoAnswer>
        ensures refused { IfErr (request_in2 self.old.source bytes.now) (λ e. (result ≡ Err (unheard_as e)) × (self.new ≡ self.old)) }
        ensures answered { IfOk (request_in2 self.old.source bytes.now) (λ request.
            AnswersBySpan (λ gave. R.gives self.old.reference gave self.new.reference) (packet_to2 request) result) }
        ensures holds { IfOk result (λ answer. (time : ℕ) → IsTrueAnswer2 answer.1 time ↔ Holds answer.0 time) }
        ensures same { self.new ≡ record self.old { reference = self.new.reference } }
    {
        let request = request_to2(self.source, bytes).map_err(NoAnswer::unheard)?;
        let span = self.reference.read().map_err(NoAnswer::Silent)?;
        Ok((span, packet2(&request, span)))
    }
}
