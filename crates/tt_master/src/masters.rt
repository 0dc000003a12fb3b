//! Masters.

ghost use Rattle.std.specs.Prelude.{◌≡◌, ◌≤◌, ℕ, Some, None, Ok, Err, IsOk, IsErrOf, IfOk, IfErr, OnOk, OnErr};
ghost use Rattle.tt_span.specs.Time.{max_time};
ghost use Rattle.tt_span.specs.Interval.{Holds};
ghost use Rattle.tt_stream.specs.Counts.{HasFailed};
ghost use Rattle.tt_poll.specs.Message.{max_source};
ghost use Rattle.tt_master.specs.declared.acts.Act.TheVariants.{Honest, Silent, Garbage, Repeat};
ghost use Rattle.tt_master.specs.Act.{IsTimed, span_played as span_of_act};
ghost use Rattle.tt_master.specs.Packet.{request_to as request_in, request_to2 as request_in2, packet_to, packet_to2, IsTrueAnswer, IsTrueAnswer2, garbage};
ghost use Rattle.tt_master.specs.Master.{MasterState, AnswersByTime, played_after};

use crate::acts::Act;
use crate::faults::MasterFault;
use crate::hearing::{packet, packet2, request_to, request_to2};
use crate::references::Reference;
use crate::spans::span_played;
use std::marker::Model;
use tt_poll::{ANSWER_LEN, ANSWER2_LEN};
use tt_span::Span;

/// The byte of which garbage is made. No message begins with it.
const GARBAGE: u8 = 0xFF;

/// A time master: it answers the requests of machines by the time that its reference shows.
///
/// In contracts it is the number of the source that it is, its uncertainty, its reference, and the last packets that it
/// played, of TTP1 and of TTP2.
#[derive(Drop)]
pub struct Master<R> {
    source: u8,
    uncertainty: u64,
    reference: R,
    played: Option<[u8; ANSWER_LEN]>,
    played2: Option<[u8; ANSWER2_LEN]>,
}

impl<R> Model for Master<R> {
    ghost use Rattle.std.specs.Prelude.{◌≤◌};
    ghost use Rattle.tt_span.specs.Time.{max_time};
    ghost use Rattle.tt_poll.specs.Message.{max_source};
    ghost use Rattle.tt_master.specs.Master.{MasterState};

    ghost Value = { MasterState R };

    ghost view = { λ m. record { source = m.source; uncertainty = m.uncertainty; reference = m.reference; played = m.played; played2 = m.played2 } };

    ghost invariant = { λ m. (m.source ≤ max_source) × (m.uncertainty ≤ max_time) };
}

impl<R: Reference> Master<R> {
    /// The master that is source number `source`, with a reference that is off by at most `uncertainty` nanoseconds. It
    /// has played nothing. Requires: the source is at most 15, the uncertainty at most `MAX_TIME`.
    pub fn new(source: u8, uncertainty: u64, reference: R) -> Self
        requires source_in { source ≤ max_source }
        requires uncertainty_in { uncertainty ≤ max_time }
        ensures value { result ≡ record { source = source; uncertainty = uncertainty; reference = reference; played = None; played2 = None } }
    {
        Master {
            source,
            uncertainty,
            reference,
            played: None,
            played2: None,
        }
    }

    /// Answers a request of TTP1. If the reference shows t, the span of the answer goes from t minus the uncertainty to
    /// t plus the uncertainty, cut at 0 and `MAX_TIME`. The answer has the machine and the nonce of the request.
    ///
    /// Refuses, in this order: 301 `BadMessage` where the bytes are not a valid message, 302 `OtherSource` where they
    /// name another source, 303 `NotRequest` where they are not a request, 304 `Reference` where the reference gave no
    /// time. After the first three the reference was not read, and the master is as it was. The packets that it played
    /// stay in any case.
    pub fn answer(&mut self, bytes: &[u8]) -> Result<[u8; ANSWER_LEN], MasterFault>
        ensures refused { IfErr (request_in self.old.source bytes.now) (λ e. (result ≡ Err e) × (self.new ≡ self.old)) }
        ensures answered { IfOk (request_in self.old.source bytes.now) (λ request.
            AnswersByTime (λ time. R.gives self.old.reference time self.new.reference)
            (λ time. packet_to request (span_of_act self.old.uncertainty Honest time)) result) }
        ensures holds { IfOk result (λ packet. (time : ℕ) × R.gives self.old.reference (Some time) self.new.reference × IsTrueAnswer packet time) }
        ensures same { self.new ≡ record self.old { reference = self.new.reference } }
        ensures sound { ¬ IsErrOf result MasterFault.Reference → R.failed self.new.reference ≡ R.failed self.old.reference }
        ensures cause { IsErrOf result MasterFault.Reference → HasFailed (R.failed self.old.reference) (R.failed self.new.reference) }
    {
        let request = request_to(self.source, bytes)?;
        Ok(packet(&request, self.span(Act::Honest)?))
    }

    /// Does the act on the packet that came, and answers the packet that is sent, or None if nothing is sent. By the
    /// act this is an honest answer, an honest answer with both ends moved before they are cut, nothing, bytes of FF,
    /// or the last packet that this call gave. What [`answer`](Master::answer) gave does not count.
    ///
    /// Refuses in the order of `answer`, also if the act needs no request. 304 `Reference` comes only from an act that
    /// reads the reference: honest, ahead or behind. The other acts leave the reference as it is. A packet that is sent
    /// becomes the last packet that was played; otherwise that stays. After 301 to 303 the master is as it was.
    pub fn play(&mut self, act: Act, bytes: &[u8]) -> Result<Option<[u8; ANSWER_LEN]>, MasterFault>
        ensures refused { IfErr (request_in self.old.source bytes.now) (λ e. (result ≡ Err e) × (self.new ≡ self.old)) }
        ensures timed { IsTimed act → IfOk (request_in self.old.source bytes.now) (λ request.
            AnswersByTime (λ time. R.gives self.old.reference time self.new.reference)
            (λ time. Some (packet_to request (span_of_act self.old.uncertainty act time))) result) }
        ensures silent { act ≡ Silent → IfOk (request_in self.old.source bytes.now) (λ _. result ≡ Ok None) }
        ensures garbage { act ≡ Garbage → IfOk (request_in self.old.source bytes.now) (λ _. result ≡ Ok (Some (garbage 32))) }
        ensures repeats { act ≡ Repeat → IfOk (request_in self.old.source bytes.now) (λ _. result ≡ Ok self.old.played) }
        ensures unread { ¬ IsTimed act → self.new.reference ≡ self.old.reference }
        ensures same { self.new ≡ record self.old { reference = self.new.reference; played = played_after result self.old.played } }
        ensures sound { ¬ IsErrOf result MasterFault.Reference → R.failed self.new.reference ≡ R.failed self.old.reference }
        ensures cause { IsErrOf result MasterFault.Reference → HasFailed (R.failed self.old.reference) (R.failed self.new.reference) }
    {
        let request = request_to(self.source, bytes)?;
        let sent = match act {
            Act::Honest | Act::Ahead(_) | Act::Behind(_) => Some(packet(&request, self.span(act)?)),
            Act::Silent => None,
            Act::Garbage => Some([GARBAGE; ANSWER_LEN]),
            Act::Repeat => self.played,
        };
        self.played = sent.or(self.played);
        Ok(sent)
    }

    /// As [`answer`](Master::answer), for TTP2: the answer also has the epoch of the request.
    pub fn answer2(&mut self, bytes: &[u8]) -> Result<[u8; ANSWER2_LEN], MasterFault>
        ensures refused { IfErr (request_in2 self.old.source bytes.now) (λ e. (result ≡ Err e) × (self.new ≡ self.old)) }
        ensures answered { IfOk (request_in2 self.old.source bytes.now) (λ request.
            AnswersByTime (λ time. R.gives self.old.reference time self.new.reference)
            (λ time. packet_to2 request (span_of_act self.old.uncertainty Honest time)) result) }
        ensures holds { IfOk result (λ packet. (time : ℕ) × R.gives self.old.reference (Some time) self.new.reference × IsTrueAnswer2 packet time) }
        ensures same { self.new ≡ record self.old { reference = self.new.reference } }
        ensures sound { ¬ IsErrOf result MasterFault.Reference → R.failed self.new.reference ≡ R.failed self.old.reference }
        ensures cause { IsErrOf result MasterFault.Reference → HasFailed (R.failed self.old.reference) (R.failed self.new.reference) }
    {
        let request = request_to2(self.source, bytes)?;
        Ok(packet2(&request, self.span(Act::Honest)?))
    }

    /// As [`play`](Master::play), for TTP2: garbage is as long as an answer of TTP2, and the packet that is repeated is
    /// the last one that `play2` gave. The last packet that `play` gave stays what `play` repeats.
    pub fn play2(
        &mut self,
        act: Act,
        bytes: &[u8],
    ) -> Result<Option<[u8; ANSWER2_LEN]>, MasterFault>
        ensures refused { IfErr (request_in2 self.old.source bytes.now) (λ e. (result ≡ Err e) × (self.new ≡ self.old)) }
        ensures timed { IsTimed act → IfOk (request_in2 self.old.source bytes.now) (λ request.
            AnswersByTime (λ time. R.gives self.old.reference time self.new.reference)
            (λ time. Some (packet_to2 request (span_of_act self.old.uncertainty act time))) result) }
        ensures silent { act ≡ Silent → IfOk (request_in2 self.old.source bytes.now) (λ _. result ≡ Ok None) }
        ensures garbage { act ≡ Garbage → IfOk (request_in2 self.old.source bytes.now) (λ _. result ≡ Ok (Some (garbage 40))) }
        ensures repeats { act ≡ Repeat → IfOk (request_in2 self.old.source bytes.now) (λ _. result ≡ Ok self.old.played2) }
        ensures unread { ¬ IsTimed act → self.new.reference ≡ self.old.reference }
        ensures same { self.new ≡ record self.old { reference = self.new.reference; played2 = played_after result self.old.played2 } }
        ensures sound { ¬ IsErrOf result MasterFault.Reference → R.failed self.new.reference ≡ R.failed self.old.reference }
        ensures cause { IsErrOf result MasterFault.Reference → HasFailed (R.failed self.old.reference) (R.failed self.new.reference) }
    {
        let request = request_to2(self.source, bytes)?;
        let sent = match act {
            Act::Honest | Act::Ahead(_) | Act::Behind(_) => Some(packet2(
                &request,
                self.span(act)?,
            )),
            Act::Silent => None,
            Act::Garbage => Some([GARBAGE; ANSWER2_LEN]),
            Act::Repeat => self.played2,
        };
        self.played2 = sent.or(self.played2);
        Ok(sent)
    }

    /// The span of an act by the time that the reference gives. Refuses with 304 `Reference` if it gives none.
    fn span(&mut self, act: Act) -> Result<Span, MasterFault>
        ensures answered { AnswersByTime (λ time. R.gives self.old.reference time self.new.reference)
            (λ time. span_of_act self.old.uncertainty act time) result }
        ensures holds { act ≡ Honest → IfOk result (λ span. (time : ℕ) × R.gives self.old.reference (Some time) self.new.reference × Holds span time) }
        ensures same { self.new ≡ record self.old { reference = self.new.reference } }
        ensures sound { OnOk result (R.failed self.new.reference ≡ R.failed self.old.reference) }
        ensures cause { OnErr result (HasFailed (R.failed self.old.reference) (R.failed self.new.reference)) }
    {
        let Ok(time) = self.reference.read() else {
            return Err(MasterFault::Reference);
        };
        Ok(span_played(self.uncertainty, act, time))
    }
}
