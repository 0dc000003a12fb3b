//! Messages as bytes.

ghost use Rattle.std.specs.Prelude.{◌≡◌};
ghost use Rattle.tt_poll.specs.Spelling.{head_of, ends_of, spelling_of, spelling_of2};
ghost use Rattle.tt_poll.specs.declared.messages.Message.TheVariants as message;
ghost use Rattle.tt_poll.specs.declared.messages.Message2.TheVariants as message2;

use crate::answers::Answer;
use crate::answers2::Answer2;
use crate::format::{
    ANSWER_KIND, ANSWER_LEN, ANSWER2_LEN, Format, REQUEST_KIND, REQUEST_LEN, REQUEST2_LEN,
};
use crate::requests::Request;
use crate::requests2::Request2;
use tt_span::Span;

/// The first bytes of a request or an answer, in both formats.
fn head(format: Format, kind: u8, request: &Request) -> [u8; REQUEST_LEN]
    ensures { result ≡ head_of format kind request.now.machine request.now.source request.now.nonce }
{
    let mut bytes = [0; REQUEST_LEN];
    bytes[..4].copy_from_slice(&format.magic());
    bytes[4] = kind;
    bytes[5] = request.machine();
    bytes[6] = request.source();
    bytes[8..].copy_from_slice(&request.nonce().to_be_bytes());
    bytes
}

/// The two ends of a span.
fn ends(span: &Span) -> [u8; 16]
    ensures { result ≡ ends_of span.now }
{
    let mut bytes = [0; 16];
    bytes[..8].copy_from_slice(&span.lo().to_be_bytes());
    bytes[8..].copy_from_slice(&span.hi().to_be_bytes());
    bytes
}

/// The one spelling of the request, in TTP1.
#[tactic(auto, unfolding(crate::specs::Spelling::spelling_of))]
pub fn encode_request(request: &Request) -> [u8; REQUEST_LEN]
    ensures { result ≡ spelling_of (message.Request request.now) }
{
    head(Format::Ttp1, REQUEST_KIND, request)
}

/// The one spelling of the answer, in TTP1.
#[tactic(auto, unfolding(crate::specs::Spelling::spelling_of))]
pub fn encode_answer(answer: &Answer) -> [u8; ANSWER_LEN]
    ensures { result ≡ spelling_of (message.Answer answer.now) }
{
    let mut bytes = [0; ANSWER_LEN];
    bytes[..16].copy_from_slice(&head(Format::Ttp1, ANSWER_KIND, &answer.request()));
    bytes[16..].copy_from_slice(&ends(&answer.span()));
    bytes
}

/// The one spelling of the request, in TTP2.
#[tactic(auto, unfolding(crate::specs::Spelling::spelling_of2))]
pub fn encode_request2(request: &Request2) -> [u8; REQUEST2_LEN]
    ensures { result ≡ spelling_of2 (message2.Request request.now) }
{
    let mut bytes = [0; REQUEST2_LEN];
    bytes[..16].copy_from_slice(&head(Format::Ttp2, REQUEST_KIND, &request.request()));
    bytes[16..].copy_from_slice(&request.epoch().to_be_bytes());
    bytes
}

/// The one spelling of the answer, in TTP2.
#[tactic(auto, unfolding(crate::specs::Spelling::spelling_of2))]
pub fn encode_answer2(answer: &Answer2) -> [u8; ANSWER2_LEN]
    ensures { result ≡ spelling_of2 (message2.Answer answer.now) }
{
    let request = answer.request();
    let mut bytes = [0; ANSWER2_LEN];
    bytes[..16].copy_from_slice(&head(Format::Ttp2, ANSWER_KIND, &request.request()));
    bytes[16..24].copy_from_slice(&answer.epoch().to_be_bytes());
    bytes[24..].copy_from_slice(&ends(&answer.span()));
    bytes
}
