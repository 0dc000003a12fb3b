//! The daemon of one machine.

ghost use Rattle.std.specs.Prelude.{◌≡◌, ℕ, ◌+◌, ◌-◌, ◌<◌, ◌≤◌, ◌↔◌, length, take, All, IsTrue, not, is_some, Some, None, Ok, Err, IsOk, IfOk, IfErr, OnOk, OnErr, IsErrOf, MatchResult};
ghost use Rattle.tt_span.specs.Interval.{Interval, IsInterval};
ghost use Rattle.tt_span.specs.Sources.{max_sources};
ghost use Rattle.tt_poll.specs.Message.{max_machine};
ghost use Rattle.tt_poll.specs.Spelling.{spelling_of2};
ghost use Rattle.tt_poll.specs.declared.messages.Message2.TheVariants as message;
ghost use Rattle.tt_source.specs.Table.{Sending, source_at, poll_of, take_of, known_of, is_known_of, CanBeCalled, IsAwaitedAnswer};
ghost use Rattle.tt_fuse.specs.Fusion.{IsPossibleTime, HasNoPossibleTime};
ghost use Rattle.tt_fuse.specs.Depth.{slow_fusion};
ghost use Rattle.tt_fuse.specs.Stated.{IsStated, statement_of, with_statement};
ghost use Rattle.tt_span.specs.Statement.{IsStatement};
ghost use Rattle.tt_daemon.specs.Publication.{IsPublication};
ghost use Rattle.tt_daemon.specs.Daemon.{IsDaemon, new_daemon, resumed_daemon, IsBack, IsForward, KnowsEnough, spans_of};

use crate::configs::Config;
use crate::faults::DaemonFault;
use crate::fusions::Fused;
use std::marker::Model;
use tt_fuse::{Ends, fusion_laws};
use tt_poll::REQUEST2_LEN;
use tt_source::{SourceFault, Statement, Table};
use tt_span::{MAX_SOURCES, Span};

/// The daemon of one machine: the configuration of the machine, and what is known of its sources. The sources are
/// numbered from 0. The daemon polls them, takes their answers, and fuses what it knows (Spanner's time daemon: OSDI
/// 2012, section 3).
///
/// Clock readings are in nanoseconds. Each call that takes one refuses with 402 `ClockBack` a reading below the reading
/// of the last `poll` or `take` that was not refused, or above [`MAX_TIME`](tt_span::MAX_TIME). A refused call changes
/// nothing. No call takes memory.
#[derive(Drop)]
pub struct Daemon {
    config: Config,
    table: Table,
    /// The ends of what the sources of the table stated last, by keys in order. An accepted answer changes one key of
    /// each kind, so a fusion need not sort.
    ends: Ends,
}

impl Model for Daemon {
    ghost use Rattle.tt_daemon.specs.Daemon.{DaemonState, IsDaemon, AreEndsOfTable};

    ghost Value = { DaemonState };

    ghost view = { λ d. record { config = d.config; table = d.table } };

    ghost invariant = { λ d. IsDaemon (record { config = d.config; table = d.table }) × AreEndsOfTable d.table d.ends };
}

impl Daemon {
    /// The daemon of machine `machine`, from 0 to 7, with this configuration. The machine is in the life `epoch`, which
    /// is not 0. Nothing is known of its sources yet. The first poll has the nonce 1.
    pub fn new(machine: u8, config: &Config, epoch: u64) -> Daemon
        requires machine_in { machine ≤ max_machine }
        requires some_epoch { 0 < epoch }
        ensures value { result ≡ new_daemon machine config.now epoch }
        ensures valid { IsDaemon result }
    {
        Daemon::resume(machine, config, 1, epoch)
    }

    /// As [`Daemon::new`], but the first poll has the nonce `first`, which is not 0. Each further poll has the nonce
    /// after the last one. So 2^64 - `first` polls can be made, and the next one is refused with 403 `NoncesUsedUp`.
    pub fn resume(machine: u8, config: &Config, first: u64, epoch: u64) -> Daemon
        requires machine_in { machine ≤ max_machine }
        requires some_nonce { 0 < first }
        requires some_epoch { 0 < epoch }
        ensures value { result ≡ resumed_daemon machine config.now first epoch }
        ensures first { result.table.last + 1 ≡ first }
        ensures valid { IsDaemon result }
    {
        let table = Table::resume(machine, config.sources(), config.drift(), first - 1, epoch);
        prove!(table.sources() > 0);
        Daemon {
            config: *config,
            table,
            ends: Ends::new(config.drift()),
        }
    }

    /// The configuration that the daemon was made with. No call changes it.
    pub fn config(&self) -> &Config
        ensures value { result.now ≡ self.now.config }
        ensures valid { IsDaemon self.now }
    {
        &self.config
    }

    /// The last nonce that was used. Before the first poll it is the number before the first nonce: 0 for a new daemon.
    pub fn last(&self) -> u64
        ensures value { result ≡ self.now.table.last }
        ensures valid { IsDaemon self.now }
    {
        self.table.last()
    }

    /// How many sources have made a statement.
    pub fn known(&self) -> usize
        ensures value { result ≡ known_of self.now.table }
        ensures valid { IsDaemon self.now }
    {
        self.table.known()
    }

    /// Whether source `i` has made a statement. False if there is no such source.
    pub fn is_known(&self, i: u8) -> bool
        ensures known_source { result ≡ is_known_of self.now.table i }
    {
        self.table.is_known(i)
    }

    /// Polls source `i` when the clock shows `clock`. Answers the bytes of a request with the nonce after the last one
    /// and the daemon's epoch. This poll of the source now waits for its answer, and an earlier one no longer. The
    /// statement of the source stays. Refuses, in this order: 401 `NoSource` if there is no source `i`, 402
    /// `ClockBack`, 403 `NoncesUsedUp` if the last nonce was `u64::MAX`.
    pub fn poll(&mut self, i: u8, clock: u64) -> Result<[u8; REQUEST2_LEN], SourceFault>
        ensures polled { OnOk result (poll_of self.old.table i clock ≡ Ok self.new.table) }
        ensures request { IfOk result (λ bytes. bytes ≡ spelling_of2 (message.Request (record { machine = self.new.table.machine; source = i; nonce = self.new.table.last; epoch = self.new.table.epoch }))) }
        ensures refused { IfErr result (λ e. poll_of self.old.table i clock ≡ Err e) }
        ensures unchanged { OnErr result (self.new ≡ self.old) }
        ensures keeps_config { self.new.config ≡ self.old.config }
        ensures valid { IsDaemon self.new }
    {
        let polled = self.table.poll(i, clock);
        prove!(self.table.sources() > 0);
        polled
    }

    /// Takes a packet that came from source `i` when the clock showed `clock`. If it is the answer to the poll that
    /// waits, it becomes the source's statement, and no poll of the source waits any more. Refuses, in this order: 401
    /// `NoSource` if there is no source `i`, 402 `ClockBack`, 404 `BadMessage` if the bytes are not a valid message of
    /// TTP2, 405 `NotMine` if they are a request, or an answer for another machine or of another source, 407
    /// `OtherEpoch` if they are an answer to another life of this machine, 406 `NotOutstanding` if no poll of the
    /// source with this nonce waits.
    pub fn take(&mut self, i: u8, clock: u64, bytes: &[u8]) -> Result<(), SourceFault>
        ensures taken { OnOk result (take_of self.old.table i clock bytes.now ≡ Ok self.new.table) }
        ensures refused { IfErr result (λ e. take_of self.old.table i clock bytes.now ≡ Err e) }
        ensures unchanged { OnErr result (self.new ≡ self.old) }
        // A packet is taken exactly if it is the answer to the poll that waits.
        ensures takes_the_awaited { IsOk result ↔ (CanBeCalled self.old.table i clock ×
            ((sending : Sending) × (span : Interval) × IsAwaitedAnswer self.old.table i bytes.now sending span)) }
        // Its span is then the source's statement, from the sending to now, and no poll of the source waits any more.
        ensures stores_the_awaited { OnOk result ((sending : Sending) (span : Interval) → IsAwaitedAnswer self.old.table i bytes.now sending span →
            source_at self.new.table i ≡ record { waiting = None; statement = Some (record { span = span; sent = sending.clock; got = clock }) }) }
        ensures keeps_config { self.new.config ≡ self.old.config }
        ensures valid { IsDaemon self.new }
    {
        let was_known = self.table.is_known(i);
        self.table.take(i, clock, bytes)?;
        prove!(self.table.sources() > 0);
        if let Some(statement) = self.table.statement(i) {
            take_up(&mut self.ends, i, &statement, was_known);
        }
        Ok(())
    }

    /// Fuses what is known when the clock shows `clock`. The span of a source is the span of its statement, aged, or
    /// the whole of time if it has made none.
    ///
    /// The machine has n sources, and f of them may be faulty. Refuses, in this order: 402 `ClockBack`, 701 `Unknown`
    /// if fewer than `n - f` sources have made a statement, 504 `NoPoint` if no time is possible, which shows that more
    /// than f sources are faulty.
    ///
    /// Fusing does not change the daemon. Later clock readings are not compared with `clock`.
    pub fn fuse(&mut self, clock: u64) -> Result<Fused, DaemonFault>
        ensures fused { IfOk result (λ p. (p.clock ≡ clock) × (p.spans ≡ spans_of self.old clock) × (p.faulty ≡ self.old.config.faulty)) }
        // So its span is the fusion of these spans, and its certificate is the canonical one.
        ensures publication { IfOk result (λ p. IsPublication p) }
        ensures clock_back { IsErrOf result DaemonFault.ClockBack ↔ IsBack self.old clock }
        ensures unknown { IsErrOf result DaemonFault.Unknown
            ↔ (IsForward self.old clock × (known_of self.old.table < self.old.config.sources - self.old.config.faulty)) }
        ensures no_point { IsErrOf result DaemonFault.NoPoint
            ↔ (IsForward self.old clock × KnowsEnough self.old × HasNoPossibleTime (spans_of self.old clock) self.old.config.faulty) }
        ensures answered { IsOk result
            ↔ (IsForward self.old clock × KnowsEnough self.old × ((x : ℕ) × IsPossibleTime (spans_of self.old clock) self.old.config.faulty x)) }
        // If nothing else is refused, trying each end of each span finds the same.
        ensures found_slowly { IsForward self.old clock → KnowsEnough self.old →
            MatchResult result
            (λ p. slow_fusion (spans_of self.old clock) self.old.config.faulty ≡ Some p.span)
            (λ e. (e ≡ DaemonFault.NoPoint) × (slow_fusion (spans_of self.old clock) self.old.config.faulty ≡ None)) }
        ensures unchanged { self.new ≡ self.old }
        ensures valid { IsDaemon self.new }
    {
        if self.is_back(clock) {
            return Err(DaemonFault::ClockBack);
        }
        if self.table.known() < self.config.sources() - self.config.faulty() {
            return Err(DaemonFault::Unknown);
        }
        self.fused_at(clock)
    }

    /// Whether the clock reading `clock` is refused: it is below the reading of the last `poll` or `take` that was not
    /// refused, or above the greatest time.
    fn is_back(&self, clock: u64) -> bool
        ensures back { IsTrue result ↔ IsBack self.now clock }
        ensures forward { IsTrue (not result) ↔ IsForward self.now clock }
    {
        self.table.is_back(clock)
    }

    /// The fusion of the spans of all sources at a clock reading.
    fn fused_at(&self, clock: u64) -> Result<Fused, DaemonFault>
        requires { IsForward self.now clock }
        ensures fused { IfOk result (λ p. (p.clock ≡ clock) × (p.spans ≡ spans_of self.now clock) × (p.faulty ≡ self.now.config.faulty)) }
        ensures publication { IfOk result (λ p. IsPublication p) }
        ensures no_point { IsErrOf result DaemonFault.NoPoint ↔ HasNoPossibleTime (spans_of self.now clock) self.now.config.faulty }
        ensures answered { IsOk result ↔ ((x : ℕ) × IsPossibleTime (spans_of self.now clock) self.now.config.faulty x) }
        ensures found_slowly { MatchResult result
            (λ p. slow_fusion (spans_of self.now clock) self.now.config.faulty ≡ Some p.span)
            (λ e. (e ≡ DaemonFault.NoPoint) × (slow_fusion (spans_of self.now clock) self.now.config.faulty ≡ None)) }
    {
        fusion_laws();
        let all = self.spans_at(clock);
        let spans = &all[..self.table.sources()];
        let ends = self.ends.of(spans);
        Fused::of(
            clock,
            spans,
            &ends,
            self.config.faulty(),
            DaemonFault::NoPoint,
        )
    }

    /// The spans of all sources at a clock reading, at the front of the array.
    fn spans_at(&self, clock: u64) -> [Span; MAX_SOURCES]
        requires { IsForward self.now clock }
        ensures value { take (length self.now.table.sources) result ≡ spans_of self.now clock }
        ensures valid { All IsInterval result }
    {
        let mut spans = [Span::whole(); MAX_SOURCES];
        for source in 0..self.table.sources() {
            spans[source] = self.table.aged(source as u8, clock).unwrap();
        }
        spans
    }
}

/// Puts the last statement of source `i` into the ends. It replaces an earlier one if the source `was_known`.
fn take_up(ends: &mut Ends, i: u8, statement: &Statement, was_known: bool)
    requires there { i < max_sources }
    requires known { was_known ≡ is_some (statement_of ends.old i) }
    requires valid { IsStatement statement.now }
    ensures value { ends.new ≡ with_statement ends.old i statement.now }
    ensures valid { IsStated ends.new }
{
    let span = statement.span();
    if was_known {
        ends.replace(i, &span, statement.sent(), statement.got());
    } else {
        ends.insert(i, &span, statement.sent(), statement.got());
    }
}
