//! What a machine knows of all its sources.

ghost use Rattle.std.specs.Prelude.{◌≡◌, ◌<◌, ◌≤◌, ◌↔◌, length, Some, None, Ok, Err, IsOk, IfOk, IfErr, IfSome, OnOk, OnErr};
ghost use Rattle.tt_span.specs.Time.{max_time};
ghost use Rattle.tt_span.specs.Interval.{Interval, IsInterval};
ghost use Rattle.tt_span.specs.Sources.{max_sources};
ghost use Rattle.tt_poll.specs.Message.{max_machine};
ghost use Rattle.tt_poll.specs.Spelling.{spelling_of2};
ghost use Rattle.tt_poll.specs.Reading.{read_of2};
ghost use Rattle.tt_poll.specs.declared.messages.Message2.TheVariants as message;
ghost use Rattle.tt_source.specs.Statement.{IsStatement};
ghost use Rattle.tt_source.specs.Table.{Sending, IsTable, new_table, source_at, poll_of, take_of, statement_of_message, aged_of, is_back as is_back_of, known_of, is_known_of, CanBeCalled, IsAwaitedAnswer};

use crate::faults::SourceFault;
use crate::slots::Slot;
use crate::statements::Statement;
use arrayvec::ArrayVec;
use std::marker::Model;
use tt_poll::{Answer2, Message2, REQUEST2_LEN, Request2, decode2, encode_request2};
use tt_span::{Drift, MAX_SOURCES, MAX_TIME, Span};

/// What one machine knows of its sources, which are numbered from 0: for each at most one poll that waits for its
/// answer, and at most one statement, the last answer that was taken. Spanner's time daemons poll several time masters
/// in the same way (OSDI 2012, section 3). The nonces of all polls of a table are one count, so it recognises an answer
/// to an earlier poll. Its epoch is the number of the machine's life, so it recognises an answer to an earlier life.
///
/// Clock readings are in nanoseconds. Each call that takes one refuses with 402 `ClockBack` a reading below the reading
/// of the last `poll` or `take` that was not refused, or above [`MAX_TIME`]. A refused call changes nothing. In
/// particular later readings are not compared with its reading.
#[derive(Drop)]
pub struct Table {
    machine: u8,
    epoch: u64,
    drift: Drift,
    last: u64,
    clock: u64,
    sources: ArrayVec<Slot, MAX_SOURCES>,
}

impl Model for Table {
    ghost use Rattle.tt_source.specs.Table.{TableState, IsTable};

    ghost Value = { TableState };

    ghost view = { λ t. record { machine = t.machine; epoch = t.epoch; drift = t.drift; last = t.last; clock = t.clock; sources = t.sources.items } };

    ghost invariant = { λ t. IsTable (record { machine = t.machine; epoch = t.epoch; drift = t.drift; last = t.last; clock = t.clock; sources = t.sources.items }) };
}

impl Table {
    /// The table of machine `machine`, from 0 to 7, with `n` sources, from 1 to 16, of which nothing is known.
    /// Statements are aged by `drift`. The machine is in the life `epoch`, which is not 0: only answers to this life
    /// are taken. The first nonce is 1.
    pub fn new(machine: u8, n: usize, drift: Drift, epoch: u64) -> Table
        requires machine_in { machine ≤ max_machine }
        requires some_source { 0 < n }
        requires sources_in { n ≤ max_sources }
        requires some_epoch { 0 < epoch }
        ensures { result ≡ new_table machine n drift 0 epoch }
    {
        Table::resume(machine, n, drift, 0, epoch)
    }

    /// As [`Table::new`], but nonces up to `last` were used before: the first nonce is the one after `last`.
    pub fn resume(machine: u8, n: usize, drift: Drift, last: u64, epoch: u64) -> Table
        requires machine_in { machine ≤ max_machine }
        requires some_source { 0 < n }
        requires sources_in { n ≤ max_sources }
        requires some_epoch { 0 < epoch }
        ensures { result ≡ new_table machine n drift last epoch }
    {
        let mut sources = ArrayVec::from([Slot::default(); MAX_SOURCES]);
        sources.truncate(n);
        Table {
            machine,
            epoch,
            drift,
            last,
            clock: 0,
            sources,
        }
    }

    /// The last nonce that was used, 0 before the first.
    pub fn last(&self) -> u64
        ensures value { result ≡ self.now.last }
        ensures valid { IsTable self.now }
    {
        self.last
    }

    /// How many sources there are, from 1 to 16.
    pub fn sources(&self) -> usize
        ensures value { result ≡ length self.now.sources }
        ensures valid { IsTable self.now }
    {
        self.sources.len()
    }

    /// The place of source `i`, if there is one and the clock reading is not refused.
    fn place(&self, i: u8, clock: u64) -> Result<usize, SourceFault>
        ensures taken { IsOk result ↔ CanBeCalled self.now i clock }
        ensures value { IfOk result (λ index. index ≡ i) }
        ensures refused { IfErr result (λ e. aged_of self.now i clock ≡ Err e) }
        ensures valid { IsTable self.now }
    {
        let index = usize::from(i);
        if index >= self.sources.len() {
            return Err(SourceFault::NoSource);
        }
        if self.is_back(clock) {
            return Err(SourceFault::ClockBack);
        }
        Ok(index)
    }

    /// Whether the clock reading `clock`, in nanoseconds, would be refused with 402 `ClockBack`: it is below the
    /// reading of the last `poll` or `take` that was not refused, if there was one, or above [`MAX_TIME`].
    pub fn is_back(&self, clock: u64) -> bool
        ensures value { result ≡ is_back_of self.now clock }
        ensures valid { IsTable self.now }
    {
        clock < self.clock || clock > MAX_TIME
    }

    /// Polls source `i` when the clock shows `clock`. Answers the bytes of a request with the nonce after the last one
    /// and the table's epoch. This poll of the source now waits for its answer, and an earlier one no longer. The
    /// statement of the source stays. Refuses, in this order: 401 `NoSource` where there is no source `i`, 402
    /// `ClockBack`, 403 `NoncesUsedUp` where the last nonce was `u64::MAX`.
    pub fn poll(&mut self, i: u8, clock: u64) -> Result<[u8; REQUEST2_LEN], SourceFault>
        ensures polled { OnOk result (poll_of self.old i clock ≡ Ok self.new) }
        ensures request { IfOk result (λ bytes. bytes ≡ spelling_of2 (message.Request (record { machine = self.new.machine; source = i; nonce = self.new.last; epoch = self.new.epoch }))) }
        ensures refused { IfErr result (λ e. poll_of self.old i clock ≡ Err e) }
        ensures unchanged { OnErr result (self.new ≡ self.old) }
    {
        let index = self.place(i, clock)?;
        if self.last == u64::MAX {
            return Err(SourceFault::NoncesUsedUp);
        }
        self.last += 1;
        self.clock = clock;
        self.sources[index] = self.sources[index].polled(self.last, clock);
        let request = Request2::new(self.machine, i, self.last, self.epoch).unwrap();
        Ok(encode_request2(&request))
    }

    /// Takes a packet that came from source `i` when the clock showed `clock`. If it is the answer to the poll that
    /// waits, it becomes the source's statement, and no poll of the source waits any more. Refuses, in this order: 401
    /// `NoSource` where there is no source `i`, 402 `ClockBack`, 404 `BadMessage` where the bytes are not a valid
    /// message of TTP2, 405 `NotMine` where they are a request, or an answer for another machine or of another source,
    /// 407 `OtherEpoch` where they are an answer to another life of this machine, 406 `NotOutstanding` where no poll of
    /// the source with this nonce waits.
    pub fn take(&mut self, i: u8, clock: u64, bytes: &[u8]) -> Result<(), SourceFault>
        ensures taken { OnOk result (take_of self.old i clock bytes.now ≡ Ok self.new) }
        ensures refused { IfErr result (λ e. take_of self.old i clock bytes.now ≡ Err e) }
        ensures unchanged { OnErr result (self.new ≡ self.old) }
        // A packet is taken exactly if it is the answer to the poll that waits.
        ensures takes_the_awaited { IsOk result ↔ (CanBeCalled self.old i clock ×
            ((sending : Sending) × (span : Interval) × IsAwaitedAnswer self.old i bytes.now sending span)) }
        // Its span is then the source's statement, from the sending to now, and no poll of the source waits any more.
        ensures stores_the_awaited { OnOk result ((sending : Sending) (span : Interval) → IsAwaitedAnswer self.old i bytes.now sending span →
            source_at self.new i ≡ record { waiting = None; statement = Some (record { span = span; sent = sending.clock; got = clock }) }) }
    {
        let index = self.place(i, clock)?;
        let statement = self.statement_in(i, clock, bytes)?;
        self.clock = clock;
        self.sources[index] = Slot::stated(statement);
        Ok(())
    }

    /// The statement of the packet, if it is taken.
    fn statement_in(&self, i: u8, clock: u64, bytes: &[u8]) -> Result<Statement, SourceFault>
        requires valid { IsTable self.now }
        requires can_be_called { CanBeCalled self.now i clock }
        ensures value { result ≡ statement_of_message self.now.machine self.now.epoch i (source_at self.now i).waiting clock (read_of2 bytes.now) }
        ensures found { OnOk result ((sending : Sending) × (span : Interval) × IsAwaitedAnswer self.now i bytes.now sending span) }
        ensures awaited { (sending : Sending) (span : Interval) → IsAwaitedAnswer self.now i bytes.now sending span →
            result ≡ Ok (record { span = span; sent = sending.clock; got = clock }) }
    {
        let message = decode2(bytes).map_err(|_| SourceFault::BadMessage)?;
        match &message {
            Message2::Request(_) => Err(SourceFault::NotMine),
            Message2::Answer(answer) => self.statement_by(i, clock, answer),
        }
    }

    /// The statement of the answer, if it is an answer of source `i` to this life of this machine.
    fn statement_by(&self, i: u8, clock: u64, answer: &Answer2) -> Result<Statement, SourceFault>
        requires { CanBeCalled self.now i clock }
        ensures { result ≡ statement_of_message self.now.machine self.now.epoch i (source_at self.now i).waiting clock (Ok (message.Answer answer.now)) }
    {
        if answer.machine() != self.machine || answer.source() != i {
            return Err(SourceFault::NotMine);
        }
        if answer.epoch() != self.epoch {
            return Err(SourceFault::OtherEpoch);
        }
        self.sources[usize::from(i)].answered(answer, clock)
    }

    /// The span of source `i` when the clock shows `clock`: its statement, aged, or the whole of time if it has made
    /// none. Refuses, in this order: 401 `NoSource` where there is no source `i`, 402 `ClockBack`.
    pub fn aged(&self, i: u8, clock: u64) -> Result<Span, SourceFault>
        ensures value { result ≡ aged_of self.now i clock }
        ensures valid { IfOk result (λ span. IsInterval span) }
    {
        let index = self.place(i, clock)?;
        self.sources[index].aged(self.drift, clock)
    }

    /// The statement of source `i`: the last of its answers that `take` took. None if it has made none, or if there is
    /// no such source.
    pub fn statement(&self, i: u8) -> Option<Statement>
        ensures value { result ≡ (source_at self.now i).statement }
        ensures in_range { IfSome result (λ statement. IsStatement statement) }
        ensures past { IfSome result (λ statement. statement.got ≤ self.now.clock) }
        ensures valid { IsTable self.now }
    {
        self.sources.get(usize::from(i))?.statement()
    }

    /// How many sources have made a statement.
    pub fn known(&self) -> usize
        ensures value { result ≡ known_of self.now }
        ensures bound { result ≤ length self.now.sources }
    {
        self.sources
            .iter()
            .filter(|source| source.is_known())
            .count()
    }

    /// Whether source `i` has made a statement. False if there is no such source.
    pub fn is_known(&self, i: u8) -> bool
        ensures { result ≡ is_known_of self.now i }
    {
        self.sources
            .get(usize::from(i))
            .is_some_and(|source| source.is_known())
    }
}
