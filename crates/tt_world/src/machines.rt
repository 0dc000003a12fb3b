//! The state of one machine.

ghost use Rattle.std.specs.Prelude.{◌≡◌, List, [], ℕ, ◌+◌, ◌++◌, ◌<◌, ◌≤◌, length, map, OnOk, OnErr, IfOk, IfErr, IsOk, IfSome, MatchResult, Ok, Err};
ghost use Rattle.std.specs.Vec.{vec_len, vec_capacity};
ghost use Rattle.tt_span.specs.Time.{max_time};
ghost use Rattle.tt_source.specs.Table.{poll_of, take_of, is_known_of};
ghost use Rattle.tt_daemon.specs.Config.{IsConfiguration};
ghost use Rattle.tt_world.specs.Config.{max_machines};
ghost use Rattle.tt_world.specs.Packet.{source_of_packet, bytes_of};
ghost use Rattle.tt_world.specs.Life.{life_at};
ghost use Rattle.tt_world.specs.Private.Machine.{MachineState, IsMachine, machine_of};
ghost use Rattle.tt_world.specs.Headline.{CertificatesProve};
ghost use Rattle.tt_world.specs.Publications.{showing_of};
ghost use Rattle.tt_world.specs.Trace.{outline};
ghost use Rattle.tt_daemon.specs.Daemon.{spans_of};
ghost use Rattle.tt_daemon.specs.Fault.{number_of};
ghost use Rattle.tt_daemon.specs.Publication.{IsPublication};
ghost use Rattle.tt_publish.specs.Reading.{fused_span_of};
ghost use Rattle.tt_world.specs.Reply.{TakesMemory};
ghost use Rattle.tt_world.specs.Private.Step.{is_back_on, with_table, take_turn, publish_turn, fusion_on, readable_on, machine_in, arrive_turn, worker_outcome, machine_outcome, Does};
ghost use Rattle.tt_stamp.specs.declared.commits.Entry.{Entry};
ghost use Rattle.tt_stamp.specs.declared.commits.Receipt.{Receipt};

use crate::events::{Receipts, Reply};
use crate::faults::WorldFault;
use crate::machine_actions::{MachineAction, WorkerAction};
use crate::packets::Packet;
use crate::publications::Shown;
use crate::workers::{Arrival, Task, Worker};
use arrayvec::ArrayVec;
use std::alloc::Global;
use std::marker::Model;
use tt_daemon::{Config, Daemon, DaemonFault, Fused, MAX_WORKERS};
use tt_poll::{encode_answer2, encode_request2};
use tt_publish::FusedSpan;
use tt_source::SourceFault;
use tt_span::{MAX_TIME, Span};
use tt_stamp::{Book, BookFault, Entry, Receipt, Row, book_laws};

/// One machine in its present life: its daemon, the number of the life, its lease, what its clock showed last, what it
/// has published, the greatest stamp that it has given, the book of its commits, and its workers.
#[derive(Drop)]
pub struct Machine {
    daemon: Daemon,
    life: u64,
    lease: Span,
    clock: u64,
    publications: Vec<FusedSpan>,
    row: Row,
    book: Book,
    workers: ArrayVec<Worker, MAX_WORKERS>,
}

impl Model for Machine {
    ghost use Rattle.std.specs.Prelude.{◌≡◌, ◌≤◌, length};
    ghost use Rattle.tt_span.specs.Time.{max_time};
    ghost use Rattle.tt_world.specs.Private.Machine.{MachineState, IsMachine};

    ghost Value = { MachineState };

    ghost view = { λ m. record { daemon = m.daemon; life = m.life; lease = m.lease; clock = m.clock; publications = m.publications.items; row = m.row; book = m.book; workers = m.workers.items } };

    ghost invariant = { λ m. IsMachine (record { daemon = m.daemon; life = m.life; lease = m.lease; clock = m.clock; publications = m.publications.items; row = m.row; book = m.book; workers = m.workers.items }) };
}

impl Machine {
    /// The machine with this number, before anything has happened.
    pub fn new(alloc: Global, number: u8, config: Config) -> Machine
        requires { number < max_machines }
        ensures fresh { result ≡ machine_of config [] (life_at [] number) }
        ensures valid { IsConfiguration config }
    {
        Machine::in_life(alloc, number, config, 1, Span::whole(), 0)
    }

    /// The machine with this number at the beginning of a life, with this lease, when its clock shows `clock`.
    fn in_life(
        alloc: Global,
        number: u8,
        config: Config,
        life: u64,
        lease: Span,
        clock: u64,
    ) -> Machine
        requires machine_in { number < max_machines }
        requires some_life { 0 < life }
        requires in_time { clock ≤ max_time }
        ensures fresh { result ≡ machine_in config number life lease clock }
        ensures valid { IsConfiguration config }
    {
        let mut workers = ArrayVec::from([Worker::new(); MAX_WORKERS]);
        workers.truncate(config.workers());
        Machine {
            daemon: Daemon::new(number, &config, life),
            life,
            lease,
            clock,
            publications: Vec::new(alloc),
            row: Row::new(),
            book: Book::new(alloc),
            workers,
        }
    }

    /// The configuration of the machine.
    pub fn config(&self) -> Config
        ensures value { result ≡ self.now.daemon.config }
        ensures valid { IsMachine self.now }
    {
        *self.daemon.config()
    }

    /// Whether a reading of the clock is refused: it went back, or passed the greatest time.
    pub fn is_back(&self, clock: u64) -> bool
        ensures value { result ≡ is_back_on self.now clock }
        ensures valid { IsMachine self.now }
    {
        clock < self.clock || clock > MAX_TIME
    }

    /// Whether the source has made a statement. False if there is no such source.
    pub fn is_known(&self, source: u8) -> bool
        ensures { result ≡ is_known_of self.now.daemon.table source }
    {
        self.daemon.is_known(source)
    }

    /// Polls a source, and answers the nonce and the number of the life.
    pub fn poll(&mut self, source: u8, clock: u64) -> Result<(u64, u64), SourceFault>
        requires forward { self.old.clock ≤ clock }
        requires in_time { clock ≤ max_time }
        ensures polled { IfOk result (λ made. (poll_of self.old.daemon.table source clock ≡ Ok self.new.daemon.table)
            × (self.new ≡ with_table self.old clock self.new.daemon.table) × (made.0 ≡ self.new.daemon.table.last) × (0 < made.0) × (made.1 ≡ self.new.daemon.table.epoch) × (0 < made.1)) }
        ensures refused { IfErr result (λ e. (poll_of self.old.daemon.table source clock ≡ Err e) × (self.new ≡ record self.old { clock = clock })) }
    {
        self.clock = clock;
        self.daemon.poll(source, clock)?;
        Ok((self.daemon.last(), self.life))
    }

    /// Takes these bytes from a source.
    pub fn take(&mut self, source: u8, clock: u64, bytes: &[u8]) -> Reply
        requires forward { self.old.clock ≤ clock }
        requires in_time { clock ≤ max_time }
        ensures { record { state = self.new; reply = result } ≡ take_turn self.old clock (take_of self.old.daemon.table source clock bytes.now) }
    {
        self.clock = clock;
        match self.daemon.take(source, clock, bytes) {
            Ok(()) => Reply::Taken,
            Err(fault) => Reply::Refused(fault.number()),
        }
    }

    /// Takes a packet.
    pub fn take_packet(&mut self, clock: u64, packet: &Packet) -> Reply
        requires forward { self.old.clock ≤ clock }
        requires in_time { clock ≤ max_time }
        ensures { record { state = self.new; reply = result } ≡ take_turn self.old clock (take_of self.old.daemon.table (source_of_packet packet.now) clock (bytes_of packet.now)) }
    {
        match packet {
            Packet::Asked(request) => self.take(request.source(), clock, &encode_request2(request)),
            Packet::Answered(answer) => self.take(answer.source(), clock, &encode_answer2(answer)),
            Packet::Forged {
                source,
                payload,
                ..
            } => self.take(*source, clock, payload.as_slice()),
        }
    }

    /// Fuses what is known of all sources.
    fn fusion(&mut self, clock: u64) -> Result<Fused, DaemonFault>
        requires forward { self.old.clock ≤ clock }
        requires in_time { clock ≤ max_time }
        ensures value { MatchResult result (λ p. fusion_on self.old clock ≡ Ok (fused_span_of p)) (λ e. fusion_on self.old clock ≡ Err (number_of e)) }
        ensures made { IfOk result (λ p. (p.clock ≡ clock) × (p.spans ≡ spans_of self.old.daemon clock) × (p.faulty ≡ self.old.daemon.config.faulty)) }
        ensures publication { IfOk result (λ p. IsPublication p) }
        ensures unchanged { self.new ≡ self.old }
    {
        self.daemon.fuse(clock)
    }

    /// Fuses what is known of all sources, and publishes it: the fusion is shown after the others, as made by the
    /// machine with this number. Memory is taken only if there is a fusion. Out of memory changes nothing.
    pub fn fuse(
        &mut self,
        machine: u8,
        clock: u64,
        shown: &mut Vec<Shown>,
    ) -> Result<Reply, WorldFault>
        requires forward { self.old.clock ≤ clock }
        requires in_time { clock ≤ max_time }
        ensures fused { IfOk result (λ reply. record { state = self.new; reply = reply } ≡ publish_turn self.old clock (fusion_on self.old clock)) }
        ensures shown { OnOk result (map outline shown.new.items ≡ map outline shown.old.items
            ++ showing_of (record { machine = machine; number = self.old.life }) (length self.old.publications + 1) (spans_of self.old.daemon clock) self.old.daemon.config.faulty (fusion_on self.old clock)) }
        ensures certified { CertificatesProve shown.old.items → CertificatesProve shown.new.items }
        ensures memory { IfErr result (λ e. e ≡ WorldFault.Memory) }
        // Memory is taken only if the fusion is not refused.
        ensures memory_only { OnErr result (IsOk (fusion_on self.old clock)) }
        ensures unchanged { OnErr result ((self.new ≡ self.old) × (shown.new.items ≡ shown.old.items)) }
    {
        match self.fusion(clock) {
            Ok(fused) => {
                self.publications.reserve(1)?;
                shown.reserve(1)?;
                self.clock = clock;
                let number = self.publications.len() as u64 + 1;
                let span = fused.span();
                self.publications.push_reserved(FusedSpan { clock, span });
                shown.push_reserved(Shown {
                    machine,
                    life: self.life,
                    number,
                    fused,
                });
                Ok(Reply::Published(number, span))
            }
            Err(refusal) => {
                self.clock = clock;
                Ok(Reply::Refused(refusal.number()))
            }
        }
    }

    /// Does an action, as the machine with this number, or answers why it is bad: 1202 `ClockBack`, 1204
    /// `NoPublication`, 1205 `NothingThere`, 1206 `UnknownNumber` if there is no such worker, or 1208 `LivesUsedUp`. A
    /// bad action changes nothing, nor does out of memory.
    pub fn act(
        &mut self,
        alloc: Global,
        number: u8,
        machine_action: MachineAction,
    ) -> Result<Reply, WorldFault>
        requires { number < max_machines }
        ensures { Does TakesMemory (machine_outcome number self.old machine_action) self.old result self.new }
    {
        match machine_action {
            MachineAction::Restart(clock) => self.restart(alloc, number, clock),
            MachineAction::Lease(lease) => {
                self.lease = lease;
                Ok(Reply::Leased)
            }
            MachineAction::Work(worker, work) => {
                if usize::from(worker) >= self.workers.len() {
                    return Err(WorldFault::UnknownNumber);
                }
                self.work(alloc, worker, work)
            }
        }
    }

    /// Restarts, as the machine with this number.
    fn restart(&mut self, alloc: Global, number: u8, clock: u64) -> Result<Reply, WorldFault>
        requires { number < max_machines }
        ensures { Does TakesMemory (machine_outcome number self.old (MachineAction.Restart clock)) self.old result self.new }
    {
        if clock > MAX_TIME {
            return Err(WorldFault::ClockBack);
        }
        if self.life == u64::MAX {
            return Err(WorldFault::LivesUsedUp);
        }
        let life = self.life + 1;
        *self = Machine::in_life(alloc, number, self.config(), life, self.lease, clock);
        Ok(Reply::Restarted(life))
    }

    /// Does an action of a worker.
    fn work(&mut self, alloc: Global, worker: u8, work: WorkerAction) -> Result<Reply, WorldFault>
        requires { worker < length self.old.workers }
        ensures { Does TakesMemory (worker_outcome self.old worker work) self.old result self.new }
    {
        match work {
            WorkerAction::Read { clock, publication } => self.read(worker, clock, publication),
            WorkerAction::Arrive(arrival) => Ok(self.arrive(worker, arrival)),
            WorkerAction::Stamp => self.stamp(worker),
            WorkerAction::Queue => self.queue(worker),
            WorkerAction::Release => self.release(alloc, worker),
        }
    }

    /// The worker reads from the publication with this number.
    fn read(&mut self, worker: u8, clock: u64, number: u64) -> Result<Reply, WorldFault>
        requires { worker < length self.old.workers }
        ensures { Does TakesMemory (worker_outcome self.old worker (WorkerAction.Read clock number)) self.old result self.new }
    {
        if self.is_back(clock) {
            return Err(WorldFault::ClockBack);
        }
        let Some(publication) = self.readable(worker, number) else {
            return Err(WorldFault::NoPublication);
        };
        let drift = self.daemon.config().drift();
        let reading = publication.read_at(drift, clock).unwrap();
        self.clock = clock;
        let place = usize::from(worker);
        self.workers[place] = Worker {
            seen: number,
            reading: Some(reading),
            since: Some(reading),
            ..self.workers[place]
        };
        Ok(Reply::Read(reading))
    }

    /// The publication with this number. None if there is no such one, or if the worker has read from a later one.
    fn readable(&self, worker: u8, publication: u64) -> Option<FusedSpan>
        requires { worker < length self.now.workers }
        ensures value { result ≡ readable_on self.now worker publication }
        ensures made_before { IfSome result (λ p. p.clock ≤ self.now.clock) }
    {
        let count = self.publications.len() as u64;
        if publication == 0
            || publication > count
            || publication < self.workers[usize::from(worker)].seen
        {
            return None;
        }
        self.publications.get((publication - 1) as usize).copied()
    }

    /// The worker is asked for a commit.
    fn arrive(&mut self, worker: u8, arrival: Arrival) -> Reply
        requires { worker < length self.old.workers }
        ensures { record { state = self.new; reply = result } ≡ arrive_turn self.old worker arrival }
    {
        let place = usize::from(worker);
        self.workers[place] = Worker {
            task: Some(Task::Arrived(arrival)),
            since: None,
            ..self.workers[place]
        };
        Reply::Arrived
    }

    /// The worker stamps its task by its last reading after it was asked for the commit.
    fn stamp(&mut self, worker: u8) -> Result<Reply, WorldFault>
        requires { worker < length self.old.workers }
        ensures { Does TakesMemory (worker_outcome self.old worker WorkerAction.Stamp) self.old result self.new }
    {
        let place = usize::from(worker);
        let kept = self.workers[place];
        let Some(Task::Arrived(arrival)) = kept.task else {
            return Err(WorldFault::NothingThere);
        };
        let Some(reading) = kept.since else {
            return Err(WorldFault::NothingThere);
        };
        match self.row.stamp(&reading, arrival.floor, &self.lease) {
            Ok(stamp) => {
                let id = arrival.id;
                self.workers[place].task = Some(Task::Stamped { id, stamp });
                Ok(Reply::Stamped(stamp))
            }
            Err(fault) => Ok(Reply::Refused(fault.number())),
        }
    }

    /// The worker queues its stamped task.
    fn queue(&mut self, worker: u8) -> Result<Reply, WorldFault>
        requires { worker < length self.old.workers }
        ensures { Does TakesMemory (worker_outcome self.old worker WorkerAction.Queue) self.old result self.new }
    {
        let place = usize::from(worker);
        let Some(Task::Stamped { id, stamp }) = self.workers[place].task else {
            return Err(WorldFault::NothingThere);
        };
        match self.book.queue(id, stamp) {
            Ok(()) => {
                self.workers[place].task = None;
                Ok(Reply::Queued)
            }
            Err(BookFault::Memory) => Err(WorldFault::Memory),
            Err(fault) => Ok(Reply::Refused(fault.number())),
        }
    }

    /// The worker releases by its last reading.
    fn release(&mut self, alloc: Global, worker: u8) -> Result<Reply, WorldFault>
        requires { worker < length self.old.workers }
        ensures { Does TakesMemory (worker_outcome self.old worker WorkerAction.Release) self.old result self.new }
    {
        let Some(reading) = self.workers[usize::from(worker)].reading else {
            return Err(WorldFault::NothingThere);
        };
        let mut receipts = Vec::with_capacity(alloc, self.book.releasable(&reading))?;
        let count = self.book.release(&reading);
        book_laws();
        let history = self.book.history();
        copy_receipts(&history[history.len() - count..], &mut receipts);
        Ok(Reply::Released(Receipts::of(receipts)))
    }
}

/// Adds the receipts of these entries. Memory for them has been taken.
fn copy_receipts(entries: &[Entry], receipts: &mut Vec<Receipt>)
    requires { vec_len receipts.old + length entries.now ≤ vec_capacity receipts.old }
    ensures { (passed : List Receipt) → entries.now ≡ map (λ receipt. Entry.Passed receipt) passed →
        receipts.new.items ≡ receipts.old.items ++ passed }
{
    for entry in entries {
        let Entry::Passed(receipt) = entry else {
            continue;
        };
        receipts.push_reserved(*receipt);
    }
}
