//! Bytes as messages.

ghost use Rattle.std.specs.Prelude.{◌≡◌, ◌+◌, ◌≤◌, ◌↔◌, ◌⊎◌, List, ℕ, length, if◌then◌else◌, Ok, Err, IfOk, OnOk, IsErrOf};
ghost use Rattle.tt_poll.specs.declared.messages.Message.{Message};
ghost use Rattle.tt_poll.specs.declared.messages.Message2.{Message2};
ghost use Rattle.tt_poll.specs.declared.faults.PollFault.{PollFault};
ghost use Rattle.tt_poll.specs.Format.{format_of, kind_of, request_len_of, answer_len_of};
ghost use Rattle.tt_poll.specs.Spelling.{IsMessage, IsMessage2, spelling_of, spelling_of2};
ghost use Rattle.tt_poll.specs.Reading.{IsBytes, number_at as number_at_place, ends_at, are_no_span, head_read_of, first_poll_fault, read_of, first_poll_fault2, read_of2};

use crate::faults::PollFault;
use crate::format::{ANSWER_KIND, Format, REQUEST_KIND, REQUEST_LEN, REQUEST2_LEN};
use crate::messages::{Message, Message2};
use crate::requests::Request;
use crate::requests2::Request2;
use tt_span::Span;

/// The kind of messages of this length.
fn kind_at_length(format: Format, len: usize) -> u8
    ensures { result ≡ kind_of format len }
{
    if len == format.request_len() {
        REQUEST_KIND
    } else {
        ANSWER_KIND
    }
}

/// The number in the eight bytes from place `at` on, the highest byte first.
fn number_at(bytes: &[u8], at: usize) -> u64
    requires { at + 8 ≤ length bytes.now }
    ensures { result ≡ number_at_place bytes.now at }
{
    let part = &bytes[at..at + 8];
    u64::from_be_bytes([
        part[0], part[1], part[2], part[3], part[4], part[5], part[6], part[7],
    ])
}

/// The span whose ends stand from place `at` on. Refuses with 207 `Span` where they are out of order, or the upper one
/// is above `MAX_TIME`.
fn span_at(bytes: &[u8], at: usize) -> Result<Span, PollFault>
    requires { at + 16 ≤ length bytes.now }
    ensures { result ≡ (if are_no_span (ends_at bytes.now at) then Err PollFault.Span else Ok (ends_at bytes.now at)) }
{
    Span::new(number_at(bytes, at), number_at(bytes, at + 8)).map_err(|_| PollFault::Span)
}

/// The part that both formats share: the request in the first sixteen bytes, or the first refusal of 201 to 206 that
/// applies.
#[tactic(auto, unfolding(crate::specs::Reading::head_read_of))]
fn read_head(format: Format, bytes: &[u8]) -> Result<Request, PollFault>
    ensures value { result ≡ head_read_of format bytes.now }
    ensures whole { OnOk result ((length bytes.now ≡ request_len_of format) ⊎ (length bytes.now ≡ answer_len_of format)) }
{
    if bytes.len() != format.request_len() && bytes.len() != format.answer_len() {
        return Err(PollFault::Length);
    }
    if !bytes.starts_with(&format.magic()) {
        return Err(PollFault::Magic);
    }
    if bytes[4] != kind_at_length(format, bytes.len()) {
        return Err(PollFault::Kind);
    }
    if bytes[7] != 0 {
        return Err(PollFault::Reserved);
    }
    Request::new(bytes[5], bytes[6], number_at(bytes, 8))
}

/// The message of TTP1 with the fields in these bytes, or the first refusal that applies.
#[tactic(auto, unfolding(crate::specs::Reading::head_read_of, crate::specs::Reading::first_poll_fault, crate::specs::Reading::read_of))]
fn read(bytes: &[u8]) -> Result<Message, PollFault>
    ensures { result ≡ read_of bytes.now }
{
    let request = read_head(Format::Ttp1, bytes)?;
    if bytes.len() == REQUEST_LEN {
        return Ok(Message::Request(request));
    }
    let span = span_at(bytes, REQUEST_LEN)?;
    Ok(Message::Answer(request.answered(span)))
}

/// The message of TTP2 with the fields in these bytes, or the first refusal that applies.
#[tactic(auto, unfolding(crate::specs::Reading::head_read_of, crate::specs::Reading::first_poll_fault2, crate::specs::Reading::read_of2))]
fn read2(bytes: &[u8]) -> Result<Message2, PollFault>
    ensures { result ≡ read_of2 bytes.now }
{
    let head = read_head(Format::Ttp2, bytes)?;
    let request = Request2::at_epoch(head, number_at(bytes, 16))?;
    if bytes.len() == REQUEST2_LEN {
        return Ok(Message2::Request(request));
    }
    let span = span_at(bytes, REQUEST2_LEN)?;
    Ok(Message2::Answer(request.answered(span)))
}

/// The message of TTP1 with this spelling. Refuses, in this order: 201 `Length` where the length is neither 16 nor 32;
/// 202 `Magic` where the bytes do not begin with `TTP1`; 203 `Kind` where messages of this length have another kind;
/// 204 `Reserved` where byte 7 is not 0; 205 `Number` where the machine is above 7 or the source is above 15; 206
/// `Nonce` where the nonce is 0; 207 `Span` where the lower end of an answer is above its upper end, or the upper end
/// is above `MAX_TIME`.
pub fn decode(bytes: &[u8]) -> Result<Message, PollFault>
    ensures exact { result ≡ read_of bytes.now }
    // If a message is read, the bytes are its spelling, each of them.
    ensures found { IfOk result (λ m. IsMessage m × (bytes.now ≡ spelling_of m)) }
    // If the bytes are the spelling of a message, it is read.
    ensures taken { (m : Message) → IsMessage m → bytes.now ≡ spelling_of m → result ≡ Ok m }
    ensures refused { (e : PollFault) → IsErrOf result e ↔ (first_poll_fault bytes.now ≡ Some e) }
{
    read(bytes)
}

/// The message of TTP2 with this spelling. Refuses, in this order: 201 `Length` where the length is neither 24 nor 40;
/// 202 `Magic` where the bytes do not begin with `TTP2`; 203 `Kind`, 204 `Reserved`, 205 `Number` and 206 `Nonce` as
/// [`decode`]; 208 `Epoch` where the epoch is 0; 207 `Span` where the lower end of an answer is above its upper end, or
/// the upper end is above `MAX_TIME`.
pub fn decode2(bytes: &[u8]) -> Result<Message2, PollFault>
    ensures exact { result ≡ read_of2 bytes.now }
    // If a message is read, the bytes are its spelling, each of them.
    ensures found { IfOk result (λ m. IsMessage2 m × (bytes.now ≡ spelling_of2 m)) }
    // If the bytes are the spelling of a message, it is read.
    ensures taken { (m : Message2) → IsMessage2 m → bytes.now ≡ spelling_of2 m → result ≡ Ok m }
    ensures refused { (e : PollFault) → IsErrOf result e ↔ (first_poll_fault2 bytes.now ≡ Some e) }
{
    read2(bytes)
}

/// Two messages in range that have the same spelling in TTP1 are the same message.
pub fn one_spelling()
    ensures { (m n : Message) → IsMessage m → IsMessage n → spelling_of m ≡ spelling_of n → m ≡ n }
{}

/// Two messages in range that have the same spelling in TTP2 are the same message.
pub fn one_spelling2()
    ensures { (m n : Message2) → IsMessage2 m → IsMessage2 n → spelling_of2 m ≡ spelling_of2 n → m ≡ n }
{}

/// Laws of reading TTP1. Bytes are read as the message whose spelling they are, and otherwise as the first refusal that
/// applies. The spelling of a message is always a list of bytes, and is read in TTP1.
pub fn reading_laws()
    ensures found { (bytes : List ℕ) (m : Message) → IsBytes bytes → read_of bytes ≡ Ok m → IsMessage m × (bytes ≡ spelling_of m) }
    ensures taken { (m : Message) → IsMessage m → read_of (spelling_of m) ≡ Ok m }
    ensures refused { (bytes : List ℕ) (e : PollFault) → (read_of bytes ≡ Err e) ↔ (first_poll_fault bytes ≡ Some e) }
    ensures bytes { (m : Message) → IsMessage m → IsBytes (spelling_of m) }
    ensures format { (m : Message) → format_of (spelling_of m) ≡ Format.Ttp1 }
{}

/// The same laws of TTP2. A spelling of one format is never a spelling of the other.
pub fn reading_laws2()
    ensures found { (bytes : List ℕ) (m : Message2) → IsBytes bytes → read_of2 bytes ≡ Ok m → IsMessage2 m × (bytes ≡ spelling_of2 m) }
    ensures taken { (m : Message2) → IsMessage2 m → read_of2 (spelling_of2 m) ≡ Ok m }
    ensures refused { (bytes : List ℕ) (e : PollFault) → (read_of2 bytes ≡ Err e) ↔ (first_poll_fault2 bytes ≡ Some e) }
    ensures bytes { (m : Message2) → IsMessage2 m → IsBytes (spelling_of2 m) }
    ensures no_first_format { (m : Message) → read_of2 (spelling_of m) ≡ Err PollFault.Length }
    ensures no_second_format { (m : Message2) → read_of (spelling_of2 m) ≡ Err PollFault.Length }
    ensures format { (m : Message2) → format_of (spelling_of2 m) ≡ Format.Ttp2 }
{}
