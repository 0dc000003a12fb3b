//! A master's link, which hands up only sealed requests, and answers each under its key.

ghost use Rattle.std.specs.Prelude.{◌≡◌, [], None, OnOk, OnErr, IfOk, replicate};
ghost use Rattle.tt_seal.specs.Sealing.{IsBytes, opened_of};
ghost use Rattle.tt_wire.specs.Wire.{asked_after};
ghost use Rattle.tt_rounds.specs.Answering.{AnswersSealed, answers_in, count_with, counted_in, counted_for, counts_for, failed_in};

use crate::faults::LinkFault;
use crate::links::{Link, PACKET_LEN, put};
use crate::openings::{REASONS, counted};
use std::alloc::{AllocError, Global};
use tt_seal::{Key, Opened, SealFault};
use tt_wire::Requests;

/// How many answers were sent under a key.
#[derive(Clone, Copy)]
struct KeyCount {
    number: u32,
    answers: u64,
}

impl KeyCount {
    /// The same after one more answer was sent under the key with this number. A count stays at 2^64 - 1.
    fn counted(&self, number: u32) -> KeyCount
        ensures { result ≡ count_with number self.now }
    {
        if self.number == number {
            KeyCount {
                number,
                answers: self.answers.saturating_add(1),
            }
        } else {
            *self
        }
    }
}

/// How many answers were sent under the key with this number.
fn answers_under(counts: &[KeyCount], number: u32) -> u64
    ensures { result ≡ answers_in counts.now number }
{
    'counts: for count in counts {
        if count.number == number {
            return count.answers;
        }
    }
    0
}

/// Counts one more answer under the key with this number, if there is one.
fn count_one(counts: &mut [KeyCount], number: u32)
    ensures { counts.new ≡ counted_in counts.old number }
{
    'counts: for place in 0..counts.len() {
        counts[place] = counts[place].counted(number);
    }
}

/// The counts of these keys, where there were those counts.
fn counts_of(alloc: Global, counts: &[KeyCount], keys: &[Key]) -> Result<Vec<KeyCount>, AllocError>
    ensures { IfOk result (λ made. made.items ≡ counts_for counts.now keys.now) }
{
    let mut made = Vec::new(alloc);
    'keys: for key in keys {
        let number = key.number();
        let answers = answers_under(counts, number);
        made.push(KeyCount { number, answers })?;
    }
    Ok(made)
}

/// A link for a master, over another one. Each of its keys is shared with one host that may poll. It hands a packet up, as
/// the message in it, only if it opens under one of the keys; any other packet is dropped and counted, as if nothing had
/// come. It seals what is sent under the key of the last packet that was handed up. So an answer opens at the host that
/// asked, and at no other.
///
/// If a message has more than 40 bytes, no packet was handed up so far, or the key is gone, nothing is sent, and it counts
/// a failure of its own.
#[derive(Drop)]
pub struct SealedAnswers<L> {
    link: L,
    requests: Requests,
    dropped: [u64; REASONS],
    counts: Vec<KeyCount>,
    failures: u64,
}

impl<L: Link + Drop> SealedAnswers<L> {
    /// The link over this one, with these keys. Refuses if an allocation fails.
    pub fn new(alloc: Global, link: L, keys: Vec<Key>) -> Result<SealedAnswers<L>, AllocError>
        ensures link { IfOk result (λ made. made.link ≡ link) }
        ensures keys { IfOk result (λ made. made.requests ≡ record { keys = keys.items; asked = None }) }
        ensures counts { IfOk result (λ made. made.counts.items ≡ counts_for [] keys.items) }
        ensures none { IfOk result (λ made. (made.dropped ≡ replicate 3 0) × (made.failures ≡ 0)) }
    {
        let counts = counts_of(alloc, &[], &keys)?;
        Ok(SealedAnswers {
            link,
            requests: Requests::new(keys),
            dropped: [0; REASONS],
            counts,
            failures: 0,
        })
    }
}

impl<L: Link> SealedAnswers<L> {
    /// The link under it.
    pub fn link(&self) -> &L
        ensures { result.now ≡ self.now.link }
    {
        &self.link
    }

    /// Takes these keys in place of those before. A key whose number stays keeps its count. Refuses if an allocation fails;
    /// then nothing has changed.
    pub fn set_keys(&mut self, alloc: Global, keys: Vec<Key>) -> Result<(), AllocError>
        ensures keys { OnOk result (self.new.requests ≡ record self.old.requests { keys = keys.items }) }
        ensures counts { OnOk result (self.new.counts.items ≡ counts_for self.old.counts.items keys.items) }
        ensures others { OnOk result ((self.new.link ≡ self.old.link) × (self.new.dropped ≡ self.old.dropped) × (self.new.failures ≡ self.old.failures)) }
        ensures unchanged { OnErr result (self.new ≡ self.old) }
    {
        let counts = counts_of(alloc, &self.counts, &keys)?;
        self.counts = counts;
        self.requests.set_keys(keys);
        Ok(())
    }

    /// How many packets were dropped so far, each at most 2^64 - 1: for 2201 `Length`, 2202 `UnknownKey` and 2203
    /// `WrongTag`, in this order.
    pub fn dropped(&self) -> [u64; 3]
        ensures { result ≡ self.now.dropped }
    {
        self.dropped
    }

    /// How many answers were sent so far under the key with this number, at most 2^64 - 1, and 0 where there is no such
    /// key.
    pub fn answered(&self, number: u32) -> u64
        ensures { result ≡ answers_in self.now.counts.items number }
    {
        answers_under(&self.counts, number)
    }

    /// Counts an answer that went.
    fn count_answer(&mut self)
        ensures counts { self.new.counts.items ≡ counted_for self.old.requests.asked self.old.counts.items }
        ensures others { (self.new.link ≡ self.old.link) × (self.new.requests ≡ self.old.requests) × (self.new.dropped ≡ self.old.dropped) × (self.new.failures ≡ self.old.failures) }
    {
        if let Some(number) = self.requests.asked() {
            count_one(&mut self.counts, number);
        }
    }
}

/// What bytes that came are under the keys, which is noted.
fn opening(requests: &mut Requests, bytes: &[u8]) -> Result<Opened, SealFault>
    ensures value { result ≡ opened_of bytes.now requests.old.keys }
    ensures after { requests.new ≡ record requests.old { asked = asked_after result requests.old.asked } }
    ensures small { IsBytes bytes.now }
{
    requests.take(bytes)
}

impl<L: Link> Link for SealedAnswers<L> {
    ghost does = { λ before call gift after. AnswersSealed L.does before.link (record { asking = before.requests; dropped = before.dropped; counts = before.counts.items }) call gift after.link (record { asking = after.requests; dropped = after.dropped; counts = after.counts.items }) };

    ghost failed = { λ link. failed_in (L.failed link.link) link.failures };

    fn send(&mut self, peer: u8, bytes: &[u8]) -> Result<(), LinkFault> {
        let Some(sealed) = self.requests.answer(bytes) else {
            self.failures = self.failures.saturating_add(1);
            return Err(LinkFault::Failed);
        };
        self.link.send(peer, &sealed)?;
        self.count_answer();
        Ok(())
    }

    fn receive(&mut self, buffer: &mut [u8; PACKET_LEN]) -> Result<Option<(u8, usize)>, LinkFault> {
        let Some((peer, length)) = self.link.receive(buffer)? else {
            return Ok(None);
        };
        match opening(&mut self.requests, &buffer[..length]) {
            Ok(opened) => Ok(Some((peer, put(&opened.message, buffer)))),
            Err(fault) => {
                self.dropped = counted(self.dropped, fault);
                *buffer = [0; PACKET_LEN];
                Ok(None)
            }
        }
    }

    fn failures(&self) -> u64 {
        self.link.failures().saturating_add(self.failures)
    }
}
