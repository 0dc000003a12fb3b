//! Which replies a session may give to a line, and what a reply means for the sender of the line.

ghost use Rattle.std.specs.Prelude.{◌≡◌, ◌≢◌, ◌↔◌, [], ◌∷◌, ℕ, IsTrue, MatchOption, codes};
ghost use Rattle.tt_text.specs.Line.{line_of};
ghost use Rattle.tt_text.specs.Reading.{IsNumber, IsLineOf};
ghost use Rattle.tt_session.specs.Requests.{spelling_of};
ghost use Rattle.tt_session.specs.declared.requests.Request.TheVariants as asks;
ghost use Rattle.tt_live.specs.Exchange.{IsPending, nothing_yet};
ghost use Rattle.tt_live.specs.Replies.{MayAnswer, IsRefusal, GivesAsked, IsReading, IsYesOrNo, IsQuestion, TellsOf, TellsOfAsked};

use tt_span::Span;
use tt_text::numbers_behind;

/// Whether a session may give this reply to this line, whatever it was asked before. It may refuse any line, with a
/// number below 2^16. It answers `now` with a reading, whose ends are in order and at most the greatest time; `after`
/// and `before` with `yes` or `no`; and `commit` with the number of that commit. Line and reply have their line feeds.
pub fn may_answer(line: &[u8], reply: &[u8]) -> bool
    ensures { IsTrue result ↔ MayAnswer line.now reply.now }
{
    is_refusal(reply) || gives_asked(line, reply)
}

/// Whether the reply gives what the line asks for.
fn gives_asked(line: &[u8], reply: &[u8]) -> bool
    ensures { IsTrue result ↔ GivesAsked line.now reply.now }
{
    if answers_now(line, reply) {
        return true;
    }
    answers_question(line, reply) || answers_commit(line, reply)
}

/// The number of a line, if the line is this word and one number.
fn only_number(word: &[u8], line: &[u8]) -> Option<u64>
    ensures { MatchOption result ((n : ℕ) → IsNumber n → line.now ≢ line_of word.now (n ∷ []))
        (λ number. IsLineOf word.now line.now (number ∷ [])) }
{
    let Some(numbers) = numbers_behind(word, line) else {
        return None;
    };
    match numbers.as_slice() {
        [number] => Some(*number),
        _ => None,
    }
}

/// The numbers of a line, if the line is this word and two numbers.
fn two_numbers(word: &[u8], line: &[u8]) -> Option<(u64, u64)>
    ensures { MatchOption result ((m n : ℕ) → IsNumber m → IsNumber n → line.now ≢ line_of word.now (m ∷ n ∷ []))
        (λ both. IsLineOf word.now line.now (both.0 ∷ both.1 ∷ [])) }
{
    let Some(numbers) = numbers_behind(word, line) else {
        return None;
    };
    match numbers.as_slice() {
        [first, second] => Some((*first, *second)),
        _ => None,
    }
}

/// Whether the reply is a refusal, with a number that a refusal may have.
fn is_refusal(reply: &[u8]) -> bool
    ensures { IsTrue result ↔ IsRefusal reply.now }
{
    match only_number(b"refused", reply) {
        Some(number) => number <= u64::from(u16::MAX),
        None => false,
    }
}

/// Whether the line is `now`.
fn asks_now(line: &[u8]) -> bool
    ensures { IsTrue result ↔ line.now ≡ spelling_of asks.Now }
{
    line == b"now\n".as_slice()
}

/// Whether the reply is a reading.
fn is_reading(reply: &[u8]) -> bool
    ensures { IsTrue result ↔ IsReading reply.now }
{
    match two_numbers(b"now", reply) {
        Some((lo, hi)) => Span::new(lo, hi).is_ok(),
        None => false,
    }
}

/// Whether the line is `now` and the reply is a reading.
fn answers_now(line: &[u8], reply: &[u8]) -> bool
    ensures { IsTrue result ↔ (line.now ≡ spelling_of asks.Now) × IsReading reply.now }
{
    asks_now(line) && is_reading(reply)
}

/// Whether the reply is `yes` or `no`.
fn is_yes_or_no(reply: &[u8]) -> bool
    ensures { IsTrue result ↔ IsYesOrNo reply.now }
{
    reply == b"yes\n".as_slice() || reply == b"no\n".as_slice()
}

/// Whether the line is `after T` or `before T`.
fn asks_question(line: &[u8]) -> bool
    ensures { IsTrue result ↔ IsQuestion line.now }
{
    only_number(b"after", line).is_some() || only_number(b"before", line).is_some()
}

/// Whether the line is `after T` or `before T`, and the reply is `yes` or `no`.
fn answers_question(line: &[u8], reply: &[u8]) -> bool
    ensures { IsTrue result ↔ IsQuestion line.now × IsYesOrNo reply.now }
{
    asks_question(line) && is_yes_or_no(reply)
}

/// Whether the reply is this word, this number, and one more number.
fn names(word: &[u8], number: u64, reply: &[u8]) -> bool
    ensures { IsTrue result ↔ (stamp : ℕ) × IsNumber stamp × (reply.now ≡ line_of word.now (number ∷ stamp ∷ [])) }
{
    match two_numbers(word, reply) {
        Some((named, _stamp)) => named == number,
        None => false,
    }
}

/// Whether the reply is `committed ID S` or `waiting ID S` with this number.
fn tells_of(number: u64, reply: &[u8]) -> bool
    ensures { IsTrue result ↔ TellsOf number reply.now }
{
    names(b"committed", number, reply) || names(b"waiting", number, reply)
}

/// Whether the line is `commit ID FLOOR`, and the reply is `committed ID S` or `waiting ID S` with the same number.
fn answers_commit(line: &[u8], reply: &[u8]) -> bool
    ensures { IsTrue result ↔ TellsOfAsked line.now reply.now }
{
    match two_numbers(b"commit", line) {
        Some((number, _floor)) => tells_of(number, reply),
        None => false,
    }
}

/// The reply to a line that needs a reading, while nothing is published.
const NOTHING_YET: &[u8] = b"refused 801\n";

/// What the reply to a line means.
#[derive(Clone, Copy, Debug, PartialEq, Eq)]
pub enum Meaning {
    /// It is the answer.
    Final,
    /// The commit of this line is not committed yet: the line has to be sent again.
    Pending,
    /// Nothing is published yet: the line may be sent again a little later.
    NothingYet,
}

/// What the reply to a line means, both with their line feeds. It is `Pending` if the line is `commit ID FLOOR` and the
/// reply is `waiting ID S` with the same ID, `NothingYet` if the reply is `refused 801`, and `Final` otherwise.
pub fn meaning_of(line: &[u8], reply: &[u8]) -> Meaning
    ensures pending { result ≡ Meaning.Pending ↔ IsPending line.now reply.now }
    ensures nothing_yet { result ≡ Meaning.NothingYet ↔ reply.now ≡ nothing_yet }
{
    if is_pending(line, reply) {
        return Meaning::Pending;
    }
    if reply == NOTHING_YET {
        return Meaning::NothingYet;
    }
    Meaning::Final
}

/// Whether the line asks for a commit, and the reply says that it is not committed yet.
fn is_pending(line: &[u8], reply: &[u8]) -> bool
    ensures { IsTrue result ↔ IsPending line.now reply.now }
{
    match two_numbers(b"commit", line) {
        Some((number, _floor)) => names(b"waiting", number, reply),
        None => false,
    }
}

/// The number of a reply that is `refused N`, with its line feed.
pub fn refusal_in(reply: &[u8]) -> Option<u64>
    ensures { MatchOption result ((n : ℕ) → IsNumber n → reply.now ≢ line_of (codes "refused") (n ∷ []))
        (λ number. IsLineOf (codes "refused") reply.now (number ∷ [])) }
{
    only_number(b"refused", reply)
}
