//! What a master reads in the bytes that came, and the packet that it answers.

ghost use Rattle.std.specs.Prelude.{◌≡◌, Some};
ghost use Rattle.tt_master.specs.Packet.{heard_as, heard_as2, request_heard, request_to as request_in, request_to2 as request_in2, packet_to, packet_to2};

use crate::faults::MasterFault;
use tt_poll::{
    ANSWER_LEN, ANSWER2_LEN, Message, Message2, Request, Request2, decode, decode2, encode_answer,
    encode_answer2,
};
use tt_span::Span;

/// A message of either format: the source that it names, and the request if it is one.
#[derive(Drop)]
pub(crate) struct Heard<Q> {
    source: u8,
    request: Option<Q>,
}

impl<Q: Drop> Heard<Q> {
    /// The request, if it is one to this source. Refuses, in this order: 302 `OtherSource` where the message names
    /// another source, 303 `NotRequest` where it is not a request.
    pub(crate) fn request_to(self, source: u8) -> Result<Q, MasterFault>
        ensures { result ≡ request_heard source (Some self) }
    {
        if self.source != source {
            return Err(MasterFault::OtherSource);
        }
        self.request.ok_or(MasterFault::NotRequest)
    }
}

/// The source and the request of a message of TTP1.
fn hear(message: &Message) -> Heard<Request>
    ensures { result ≡ heard_as message.now }
{
    match message {
        Message::Request(request) => Heard {
            source: request.source(),
            request: Some(*request),
        },
        Message::Answer(answer) => Heard {
            source: answer.source(),
            request: None,
        },
    }
}

/// The source and the request of a message of TTP2.
fn hear2(message: &Message2) -> Heard<Request2>
    ensures { result ≡ heard_as2 message.now }
{
    match message {
        Message2::Request(request) => Heard {
            source: request.source(),
            request: Some(*request),
        },
        Message2::Answer(answer) => Heard {
            source: answer.source(),
            request: None,
        },
    }
}

/// The request to this source in these bytes, in TTP1. Refuses, in this order: 301 `BadMessage` where they are not a
/// valid message, 302 `OtherSource`, 303 `NotRequest`.
pub(crate) fn request_to(source: u8, bytes: &[u8]) -> Result<Request, MasterFault>
    ensures { result ≡ request_in source bytes.now }
{
    let message = decode(bytes).map_err(|_| MasterFault::BadMessage)?;
    hear(&message).request_to(source)
}

/// The same of TTP2.
pub(crate) fn request_to2(source: u8, bytes: &[u8]) -> Result<Request2, MasterFault>
    ensures { result ≡ request_in2 source bytes.now }
{
    let message = decode2(bytes).map_err(|_| MasterFault::BadMessage)?;
    hear2(&message).request_to(source)
}

/// The packet that answers this request of TTP1 with the span.
pub(crate) fn packet(request: &Request, span: Span) -> [u8; ANSWER_LEN]
    ensures { result ≡ packet_to request.now span }
{
    encode_answer(&request.answered(span))
}

/// The packet that answers this request of TTP2 with the span, with the epoch of the request.
pub(crate) fn packet2(request: &Request2, span: Span) -> [u8; ANSWER2_LEN]
    ensures { result ≡ packet_to2 request.now span }
{
    encode_answer2(&request.answered(span))
}
