//! The running node: one daemon and many workers, each in a thread of its own.

ghost use Rattle.std.specs.Prelude.{◌≡◌, ◌≢◌, ◌<◌, ◌≤◌, ◌↔◌, ◌⊎◌, ◌+◌, [], All, Ok, Err, IfOk, IfErr, IfSome, IsSome, IsErrOf, OnOk, IsTrue, vec_len, vec_capacity};
ghost use Rattle.tt_rounds.specs.Fault.{IsRunFault, IsFirstFault};
ghost use Rattle.tt_node.specs.Running.{RunsRounds, RunsNode};
ghost use Rattle.tt_node.specs.Sharing.{AllFrom, AllDown, IsNewSeat, IsServing, ReadsBy, ReadsPublished, ServesAt, ServesWith, SharesSequencer};
ghost use Rattle.tt_publish.specs.Known.{max_watches, new_watch};

use crate::gates::Gate;
use crate::shared_books::{OpenedBook, SharedBook, WhichBook};
use crate::workers::Worker;
use std::alloc::Global;
use std::marker::Brand;
use std::snapshot::Snapshot;
use std::sync::Wait;
use std::sync::atomic::{AtomicBool, Ordering};
use std::thread;
use std::thread::{Promise, PromisedHandle, Scope, Threads};
use tt_audit::LiveNote;
use tt_daemon::Daemon;
use tt_publish::{Clock, MAX_WATCHES, Teller, Told, Watch, open};
use tt_rounds::{Link, NodeFault, Rounds, daemon_rounds};
use tt_session::{ServeFault, Served, Turns, serve};
use tt_span::{Drift, Span};
use tt_stamp::{Seat, Sequencer};
use tt_stream::{ByteReader, ByteWriter};

/// The clocks of a node.
#[derive(Drop)]
pub struct Clocks<C> {
    /// The clock of the daemon.
    pub daemon: C,
    /// The clocks of the workers, one for each stream.
    pub workers: Vec<C>,
}

/// How long a node goes on, and the lease in which it stamps. No limit may be 0.
#[derive(Clone, Copy, Debug)]
pub struct Limits {
    /// How many rounds the daemon makes.
    pub rounds: u32,
    /// How many turns each round has.
    pub turns: u32,
    /// How long each session may go on.
    pub serve: Turns,
    /// The lease of the node's stamps.
    pub lease: Span,
}

/// How a worker ended.
#[derive(Drop)]
pub struct WorkerEnd {
    /// What its session did, or why the session ended before its input did.
    pub served: Result<Served, ServeFault>,
    /// The notes of the readings that it gave, oldest first.
    pub notes: Vec<LiveNote>,
    /// What its watch had seen at its end: the first ones of the publications of the node.
    pub seen: Told,
    /// The seat that it had at its end. The value is for contracts.
    pub seat: Snapshot<Seat>,
}

/// How a node ended.
#[derive(Drop)]
pub struct NodeEnd {
    /// What its daemon did.
    pub rounds: Rounds,
    /// What its daemon published.
    pub published: Told,
    /// How its workers ended, in the order of their streams.
    pub workers: Vec<WorkerEnd>,
    /// The seats of all workers, joined into one. The value is for contracts.
    pub stamps: Snapshot<Seat>,
}

/// What each thread of a node borrows.
struct NodeContext<'a, R, G, J: WhichBook> {
    rt: &'a R,
    alloc: Global,
    book: &'a SharedBook<J>,
    sequencer: &'a Sequencer,
    gate: &'a G,
    limits: &'a Limits,
}

impl<'a, R, G, J: WhichBook> Clone for NodeContext<'a, R, G, J> {
    fn clone(&self) -> Result<Self, std::alloc::AllocError> {
        Ok(NodeContext {
            rt: self.rt,
            alloc: self.alloc,
            book: self.book,
            sequencer: self.sequencer,
            gate: self.gate,
            limits: self.limits,
        })
    }
}

impl<'a, R, G, J: WhichBook> Copy for NodeContext<'a, R, G, J> {}

/// What the thread of a daemon owns.
#[derive(Drop)]
struct DaemonParts<L, C> {
    daemon: Daemon,
    link: L,
    clock: C,
}

/// What the thread of a worker owns besides its stream.
#[derive(Drop)]
struct WorkerParts<C> {
    session: u32,
    seat: Seat,
    watch: Watch,
    clock: C,
}

/// What the threads of all workers own: one of each for each session, in the order of the sessions.
#[derive(Drop)]
struct Posts<C, I, O> {
    seats: Vec<Seat>,
    watches: Vec<Watch>,
    clocks: Vec<C>,
    streams: Vec<(I, O)>,
}

/// What a node is run with besides its book.
#[derive(Drop)]
struct NodeParts<'a, L, C, I, O, G> {
    daemon: DaemonParts<L, C>,
    clocks: Vec<C>,
    streams: Vec<(I, O)>,
    gate: &'a G,
    limits: Limits,
    daemon_failed: &'a AtomicBool,
}

/// What the thread of a daemon does: `rounds` rounds of this daemon, with this link and this clock. It tells what they
/// published, by a teller that had told `opened` before.
#[derive(Drop)]
struct DoesRounds<L, C> {
    daemon: Snapshot<Daemon>,
    link: Snapshot<L>,
    clock: Snapshot<C>,
    opened: Snapshot<Told>,
    rounds: u32,
    turns: u32,
}

impl<L: Link, C: Clock> Promise<(Result<Rounds, NodeFault>, Told)> for DoesRounds<L, C> {
    ghost use Rattle.std.specs.Prelude.{◌≡◌};
    ghost use Rattle.tt_node.specs.Running.{RunsRounds};

    ghost kept_by = { λ p result. RunsRounds C.gives C.failed L.does L.failed p.rounds p.turns p.daemon.value p.clock.value p.link.value result.1.items result.0
        × (result.1.source ≡ p.opened.value.source) };
}

/// What the thread of a worker does: a worker with this gate, lease, watch, clock and seat serves this session.
#[derive(Drop)]
struct ServesSession<C, G> {
    session: u32,
    waits: u32,
    lease: Span,
    gate: Snapshot<G>,
    watch: Snapshot<Watch>,
    clock: Snapshot<C>,
    seat: Snapshot<Seat>,
}

impl<C: Clock, G: Gate> Promise<(WorkerEnd, Seat)> for ServesSession<C, G> {
    ghost use Rattle.std.specs.Prelude.{◌≡◌};
    ghost use Rattle.tt_node.specs.Sharing.{ServesWith};

    ghost kept_by = { λ p result. (result.0.seat.value ≡ result.1)
        × ServesWith C.gives C.failed G.says G.hears p.waits p.session p.gate.value p.lease p.watch.value p.clock.value p.seat.value result.0 };
}

/// Does the first rounds of a daemon. Tells also what they published, even if a fault ended them.
fn first_rounds<R: Wait, L: Link + Drop, C: Clock + Drop>(
    rt: &R,
    daemon: Daemon,
    link: L,
    clock: C,
    teller: &mut Teller,
    rounds: u32,
    turns: u32,
) -> (Result<Rounds, NodeFault>, Told)
    requires nothing { teller.old.items ≡ [] }
    ensures runs { RunsRounds C.gives C.failed L.does L.failed rounds turns daemon clock link result.1.items result.0 }
    ensures source { result.1.source ≡ teller.old.source }
{
    let (mut daemon, mut link, mut clock) = (daemon, link, clock);
    let did = daemon_rounds(
        rt,
        &mut daemon,
        &mut link,
        &mut clock,
        teller,
        rounds,
        turns,
    );
    (did, teller.tell())
}

/// Serves a session by a worker with these parts, and gives its seat back.
fn work<'a, R: Wait, C: Clock + Drop, I: ByteReader, O: ByteWriter, G: Gate + Copy, J: WhichBook>(
    context: NodeContext<'a, R, G, J>,
    parts: WorkerParts<C>,
    reader: &mut I,
    writer: &mut O,
) -> (WorkerEnd, Seat)
    requires of_it { parts.seat.table ≡ context.sequencer.now }
    ensures seat { result.0.seat.value ≡ result.1 }
    ensures serves { ServesWith C.gives C.failed G.says G.hears context.entry.limits.now.serve.waits parts.session context.entry.gate.now context.entry.limits.now.lease parts.watch parts.clock parts.seat result.0 }
{
    let WorkerParts {
        session,
        seat,
        watch,
        clock,
    } = parts;
    let mut worker = Worker::new(
        context.rt,
        context.alloc,
        session,
        watch,
        clock,
        seat,
        context.sequencer,
        context.book,
        context.book.view(context.rt),
        *context.gate,
        context.limits.lease,
    );
    let served = serve(reader, writer, &mut worker, context.limits.serve);
    let (notes, seat, watch) = worker.into_parts();
    let end = WorkerEnd {
        served,
        notes,
        seen: watch.seen(),
        seat: Snapshot::of(&seat),
    };
    (end, seat)
}

/// Starts the thread of a worker, if one can be made.
fn start<
    's,
    E,
    R: Wait + Sync,
    C: Clock + Send + Drop + 's,
    I: ByteReader + Send + Drop + 's,
    O: ByteWriter + Send + Drop + 's,
    G: Gate + Copy + Sync,
    J: WhichBook + Send + Sync,
>(
    scope: &Scope<'s, E>,
    context: NodeContext<'s, R, G, J>,
    parts: WorkerParts<C>,
    stream: (I, O),
) -> Option<PromisedHandle<(WorkerEnd, Seat), ServesSession<C, G>>>
    requires of_it { parts.seat.table ≡ context.sequencer.now }
    ensures promise { IfSome result (λ handle. IsServing context.entry.gate.now context.entry.limits.now.serve.waits context.entry.limits.now.lease parts.watch parts.session parts.seat handle.promise) }
{
    let promise = ServesSession {
        session: parts.session,
        waits: context.limits.serve.waits,
        lease: context.limits.lease,
        gate: Snapshot::of(context.gate),
        watch: Snapshot::of(&parts.watch),
        clock: Snapshot::of(&parts.clock),
        seat: Snapshot::of(&parts.seat),
    };
    let (reader, writer) = stream;
    scope
        .spawn_with(
            promise,
            move || -> (WorkerEnd, Seat)
                requires { parts.seat.table ≡ context.sequencer.now }
                ensures { (result.0.seat.value ≡ result.1)
                    × ServesWith C.gives C.failed G.says G.hears context.entry.limits.now.serve.waits parts.session context.entry.gate.now context.entry.limits.now.lease parts.watch parts.clock parts.seat result.0 }
            {
                let (mut reader, mut writer) = (reader, writer);
                work(context, parts, &mut reader, &mut writer)
            },
        )
        .ok()
}

/// Starts the thread of the daemon, if one can be made.
fn start_daemon<
    's,
    E,
    R: Threads + Wait + Sync,
    L: Link + Send + Drop + 's,
    C: Clock + Send + Drop + 's,
>(
    scope: &Scope<'s, E>,
    rt: &'s R,
    parts: DaemonParts<L, C>,
    teller: &'s mut Teller,
    rounds: u32,
    turns: u32,
) -> Option<PromisedHandle<(Result<Rounds, NodeFault>, Told), DoesRounds<L, C>>>
    requires nothing { teller.old.items ≡ [] }
    ensures promise { IfSome result (λ handle. (handle.promise.rounds ≡ rounds) × (handle.promise.turns ≡ turns)
        × (handle.promise.daemon.value ≡ parts.daemon) × (handle.promise.link.value ≡ parts.link) × (handle.promise.clock.value ≡ parts.clock)
        × (handle.promise.opened.value ≡ teller.old)) }
{
    let DaemonParts {
        daemon,
        link,
        clock,
    } = parts;
    let opened = teller.tell();
    let promise = DoesRounds {
        daemon: Snapshot::of(&daemon),
        link: Snapshot::of(&link),
        clock: Snapshot::of(&clock),
        opened: Snapshot::of(&opened),
        rounds,
        turns,
    };
    let lent = &mut *teller;
    scope
        .spawn_with(
            promise,
            move || -> (Result<Rounds, NodeFault>, Told)
                requires { lent.now.items ≡ [] }
                ensures { RunsRounds C.gives C.failed L.does L.failed rounds turns daemon clock link result.1.items result.0
                    × (result.1.source ≡ lent.entry.now.source) }
            { first_rounds(rt, daemon, link, clock, lent, rounds, turns) },
        )
        .ok()
}

/// Starts the threads of all workers, from the last stream to the first. Answers whether each thread was started. Each
/// watch is a new one of the teller that told `_opened`.
fn start_workers<
    's,
    E,
    R: Wait + Sync,
    C: Clock + Send + Drop + 's,
    I: ByteReader + Send + Drop + 's,
    O: ByteWriter + Send + Drop + 's,
    G: Gate + Copy + Sync,
    J: WhichBook + Send + Sync,
>(
    scope: &Scope<'s, E>,
    context: NodeContext<'s, R, G, J>,
    posts: Posts<C, I, O>,
    handles: &mut Vec<PromisedHandle<(WorkerEnd, Seat), ServesSession<C, G>>>,
    _opened: &Told,
    _drift: &Drift,
) -> bool
    requires none { handles.old.items ≡ [] }
    requires room { vec_len posts.streams ≤ vec_capacity handles.old }
    requires one_each { vec_len posts.seats ≡ vec_len posts.streams }
    requires new { AllFrom (IsNewSeat context.sequencer.now (vec_len posts.streams)) 0 posts.seats.items }
    requires watches { All (λ watch. watch ≡ new_watch _opened.now.source _drift.now) posts.watches.items }
    ensures all { IsTrue result → vec_len handles.new ≡ vec_len posts.streams }
    ensures some { vec_len handles.new ≤ vec_len posts.streams }
    ensures each { AllDown (λ number handle. ServesAt context.entry.sequencer.now (vec_len posts.streams) context.entry.gate.now context.entry.limits.now.serve.waits context.entry.limits.now.lease (new_watch _opened.now.source _drift.now) number handle.promise) (vec_len posts.streams) handles.new.items }
{
    let Posts {
        mut seats,
        mut watches,
        mut clocks,
        mut streams,
    } = posts;
    for _ in 0..streams.len() {
        let Some(stream) = streams.pop() else {
            return false;
        };
        let Ok(session) = u32::try_from(streams.len()) else {
            return false;
        };
        let (Some(seat), Some(watch), Some(clock)) = (seats.pop(), watches.pop(), clocks.pop())
        else {
            return false;
        };
        let parts = WorkerParts {
            session,
            seat,
            watch,
            clock,
        };
        let Some(handle) = start(scope, context, parts, stream) else {
            return false;
        };
        handles.push_reserved(handle);
    }
    true
}

/// Joins all workers, from the one that was started last to the one that was started first, and joins their seats.
fn join_workers<R: Threads, C: Clock, G: Gate, J: WhichBook>(
    context: NodeContext<'_, R, G, J>,
    handles: Vec<PromisedHandle<(WorkerEnd, Seat), ServesSession<C, G>>>,
    ends: Vec<WorkerEnd>,
    _published: &Told,
    _drift: &Drift,
) -> Option<(Vec<WorkerEnd>, Seat)>
    requires none { ends.items ≡ [] }
    requires room { vec_len handles ≤ vec_capacity ends }
    requires each { AllDown (λ number handle. ServesAt context.sequencer.now (vec_len handles) context.gate.now context.limits.now.serve.waits context.limits.now.lease (new_watch _published.now.source _drift.now) number handle.promise) (vec_len handles) handles.items }
    ensures all { IfSome result (λ r. vec_len r.0 ≡ vec_len handles) }
    ensures some { IsSome result ↔ (0 < vec_len handles) }
    ensures shares { IfSome result (λ r. SharesSequencer C.gives C.failed G.says G.hears context.entry.limits.now.serve.waits context.entry.gate.now context.entry.limits.now.lease (new_watch _published.now.source _drift.now) r.0.items r.1) }
    ensures read { IfSome result (λ r. All (ReadsBy _published.now.source _drift.now) r.0.items) }
{
    let (mut handles, mut ends) = (handles, ends);
    let (end, mut all) = handles.pop()?.join(context.rt);
    all.laws();
    ends.push_reserved(end);
    for _ in 0..handles.len() {
        let Some(handle) = handles.pop() else {
            return None;
        };
        let (end, seat) = handle.join(context.rt);
        ends.push_reserved(end);
        all = context.sequencer.join(all, seat);
    }
    Some((ends, all))
}

/// Whether the workers read nothing but these publications.
fn read_published(workers: &[WorkerEnd], published: &Told, _drift: &Drift) -> bool
    requires { All (ReadsBy published.now.source _drift.now) workers.now }
    ensures { IsTrue result ↔ All (ReadsPublished _drift.now published.now) workers.now }
{
    for worker in workers {
        if !worker.seen.is_within(published) {
            return false;
        }
    }
    true
}

/// Joins the workers that were started, in a node in which some were not.
fn drop_workers<R: Threads, C: Clock, G: Gate>(
    rt: &R,
    handles: Vec<PromisedHandle<(WorkerEnd, Seat), ServesSession<C, G>>>,
) {
    let mut handles = handles;
    for _ in 0..handles.len() {
        if let Some(handle) = handles.pop() {
            drop(handle.join(rt));
        }
    }
}

/// Starts the thread of the daemon and the threads of the workers, and joins all that were started.
fn run_threads<
    's,
    E,
    R: Threads + Wait + Sync,
    L: Link + Send + Drop + 's,
    C: Clock + Send + Drop + 's,
    I: ByteReader + Send + Drop + 's,
    O: ByteWriter + Send + Drop + 's,
    G: Gate + Copy + Sync,
    J: WhichBook + Send + Sync,
>(
    scope: &Scope<'s, E>,
    context: NodeContext<'s, R, G, J>,
    parts: DaemonParts<L, C>,
    posts: Posts<C, I, O>,
    teller: &'s mut Teller,
    drift: &'s Drift,
    daemon_failed: &'s AtomicBool,
) -> Result<NodeEnd, NodeFault>
    requires nothing { teller.old.items ≡ [] }
    requires some { 0 < vec_len posts.streams }
    requires one_each { vec_len posts.seats ≡ vec_len posts.streams }
    requires new { AllFrom (IsNewSeat context.sequencer.now (vec_len posts.streams)) 0 posts.seats.items }
    requires watches { All (λ watch. watch ≡ new_watch teller.old.source drift.now) posts.watches.items }
    ensures runs { RunsNode C.gives C.failed L.does L.failed context.entry.limits.now.rounds context.entry.limits.now.turns parts.daemon parts.clock parts.link result }
    ensures all { IfOk result (λ end. vec_len end.workers ≡ vec_len posts.streams) }
    ensures shares { IfOk result (λ end. SharesSequencer C.gives C.failed G.says G.hears context.entry.limits.now.serve.waits context.entry.gate.now context.entry.limits.now.lease (new_watch end.published.source drift.now) end.workers.items end.stamps.value) }
    ensures reads { IfOk result (λ end. All (ReadsPublished drift.now end.published) end.workers.items) }
    ensures fault { IfErr result (λ fault. IsFirstFault fault ⊎ (fault ≡ NodeFault.Memory)) }
{
    let (rt, alloc, limits) = (context.rt, context.alloc, context.limits);
    let Ok(mut handles) = Vec::with_capacity(alloc, posts.streams.len()) else {
        return Err(NodeFault::Memory);
    };
    let Ok(ends) = Vec::with_capacity(alloc, posts.streams.len()) else {
        return Err(NodeFault::Memory);
    };
    let opened = teller.tell();
    let (rounds, turns) = (limits.rounds, limits.turns);
    let Some(running) = start_daemon(scope, rt, parts, teller, rounds, turns) else {
        return Err(NodeFault::Memory);
    };
    let started = start_workers(scope, context, posts, &mut handles, &opened, drift);
    let (did, published) = running.join(rt);
    if did.is_err() {
        daemon_failed.store(true, Ordering::SeqCst);
    }
    if !started {
        drop_workers(rt, handles);
        return Err(NodeFault::Memory);
    }
    let Some((workers, seat)) = join_workers(context, handles, ends, &published, drift) else {
        return Err(NodeFault::Memory);
    };
    // The answer is always yes: a watch sees only what its teller shows, and the daemon has ended. But of a watch the
    // proofs know only that it reads publications of this teller's source.
    if !read_published(&workers, &published, drift) {
        return Err(NodeFault::Memory);
    }
    Ok(NodeEnd {
        rounds: did?,
        published,
        workers,
        stamps: Snapshot::of(&seat),
    })
}

/// Runs a node. One thread does the rounds of the daemon. For each stream, one thread serves the session of the stream.
/// The sessions are numbered from 0, in the order of the streams. All threads work on one list of publications, one
/// sequencer and one book, which this call opens. The service of each session is a [`Worker`], with the clock of the
/// same number.
///
/// Before it answers, the call joins every thread that it started, also if one could not be started. The publications
/// are kept until then. If the daemon's rounds end with a fault, the call sets `daemon_failed`. The workers then go on
/// with the last publication until their sessions end. A reader that looks at the flag can end its session.
///
/// Refuses, in this order: 1503 `BadLimits` where there is no stream, there are more than [`MAX_WATCHES`] streams,
/// there is not one clock for each stream, or a limit is 0 (rounds, turns, reads or waits); 1 where an allocation
/// failed; 804 `Publish` where no reader slot is free; 1 where a thread was not started; then what the daemon's rounds
/// refused: 1501 `LinkFailed`, 1502 `ClockFailed`, 802 `Publish`, 1; never 805.
///
/// A fault of a session is not a fault of the node. Each worker has a copy of the gate. If the gate never lets a call
/// pass, the call is rejected with 1504 and does nothing.
pub fn run_node<
    'n,
    R: Threads + Wait + Sync,
    L: Link + Send + Drop,
    C: Clock + Send + Drop,
    I: ByteReader + Send + Drop,
    O: ByteWriter + Send + Drop,
    G: Gate + Copy + Sync,
>(
    rt: &'n R,
    alloc: Global,
    daemon: Daemon,
    link: L,
    clocks: Clocks<C>,
    streams: Vec<(I, O)>,
    gate: &'n G,
    limits: Limits,
    daemon_failed: &'n AtomicBool,
) -> Result<NodeEnd, NodeFault>
    ensures bad_limits { IsErrOf result NodeFault.BadLimits ↔ ((vec_len streams ≡ 0) ⊎ (max_watches < vec_len streams) ⊎ (vec_len clocks.workers ≢ vec_len streams)
        ⊎ (limits.rounds ≡ 0) ⊎ (limits.turns ≡ 0) ⊎ (limits.serve.reads ≡ 0) ⊎ (limits.serve.waits ≡ 0)) }
    ensures fault { IfErr result IsRunFault }
    // The daemon did the course of its rounds, by what its clock and its link gave. The end says what they did. If the
    // answer is a fault of a device or 802, this fault ended the rounds. For a device, its count of failures rose.
    ensures runs { RunsNode C.gives C.failed L.does L.failed limits.rounds limits.turns daemon clocks.daemon link result }
    ensures done { IfOk result (λ end. end.rounds.done ≡ limits.rounds) }
    ensures all { IfOk result (λ end. vec_len end.workers ≡ vec_len streams) }
    // The seats of all workers are of one sequencer. What all workers have stamped is one legal history. Each worker
    // has its part of the history: the stamps of its own session, in their order, and no others.
    ensures shares { IfOk result (λ end. SharesSequencer C.gives C.failed G.says G.hears limits.serve.waits gate.now limits.lease (new_watch end.published.source daemon.config.drift) end.workers.items end.stamps.value) }
    // The workers read nothing but what this daemon published: each has seen just the first ones of its publications, and
    // each noted reading is the reading of one of them.
    ensures reads { IfOk result (λ end. All (ReadsPublished daemon.config.drift end.published) end.workers.items) }
{
    check_limits(streams.len(), clocks.workers.len(), &limits)?;
    let opened = OpenedBook::new();
    let Clocks {
        daemon: clock,
        workers,
    } = clocks;
    let parts = NodeParts {
        daemon: DaemonParts {
            daemon,
            link,
            clock,
        },
        clocks: workers,
        streams,
        gate,
        limits,
        daemon_failed,
    };
    run_on_book::<R, L, C, I, O, G, Brand>(rt, alloc, opened, parts)
}

/// Runs a node whose limits were checked, on a book that was just opened.
fn run_on_book<
    'n,
    R: Threads + Wait + Sync,
    L: Link + Send + Drop,
    C: Clock + Send + Drop,
    I: ByteReader + Send + Drop,
    O: ByteWriter + Send + Drop,
    G: Gate + Copy + Sync,
    J: WhichBook + Send + Sync,
>(
    rt: &'n R,
    alloc: Global,
    opened: OpenedBook,
    parts: NodeParts<'n, L, C, I, O, G>,
) -> Result<NodeEnd, NodeFault>
    requires book { opened ≡ J.source }
    requires some { 0 < vec_len parts.streams }
    ensures within { ¬ IsErrOf result NodeFault.BadLimits }
    ensures fault { IfErr result IsRunFault }
    ensures runs { RunsNode C.gives C.failed L.does L.failed parts.entry.limits.rounds parts.entry.limits.turns parts.entry.daemon.daemon parts.entry.daemon.clock parts.entry.daemon.link result }
    ensures all { IfOk result (λ end. vec_len end.workers ≡ vec_len parts.entry.streams) }
    ensures shares { IfOk result (λ end. SharesSequencer C.gives C.failed G.says G.hears parts.entry.limits.serve.waits parts.entry.gate.now parts.entry.limits.lease (new_watch end.published.source parts.entry.daemon.daemon.config.drift) end.workers.items end.stamps.value) }
    ensures reads { IfOk result (λ end. All (ReadsPublished parts.entry.daemon.daemon.config.drift end.published) end.workers.items) }
{
    let (book, _) = opened.named::<J>(alloc);
    run_sharing(rt, alloc, &book, parts)
}

/// Runs a node whose limits were checked, on this book.
fn run_sharing<
    'n,
    R: Threads + Wait + Sync,
    L: Link + Send + Drop,
    C: Clock + Send + Drop,
    I: ByteReader + Send + Drop,
    O: ByteWriter + Send + Drop,
    G: Gate + Copy + Sync,
    J: WhichBook + Send + Sync,
>(
    rt: &'n R,
    alloc: Global,
    book: &'n SharedBook<J>,
    parts: NodeParts<'n, L, C, I, O, G>,
) -> Result<NodeEnd, NodeFault>
    requires some { 0 < vec_len parts.streams }
    ensures within { ¬ IsErrOf result NodeFault.BadLimits }
    ensures fault { IfErr result IsRunFault }
    ensures runs { RunsNode C.gives C.failed L.does L.failed parts.entry.limits.rounds parts.entry.limits.turns parts.entry.daemon.daemon parts.entry.daemon.clock parts.entry.daemon.link result }
    ensures all { IfOk result (λ end. vec_len end.workers ≡ vec_len parts.entry.streams) }
    ensures shares { IfOk result (λ end. SharesSequencer C.gives C.failed G.says G.hears parts.entry.limits.serve.waits parts.entry.gate.now parts.entry.limits.lease (new_watch end.published.source parts.entry.daemon.daemon.config.drift) end.workers.items end.stamps.value) }
    ensures reads { IfOk result (λ end. All (ReadsPublished parts.entry.daemon.daemon.config.drift end.published) end.workers.items) }
{
    let Ok((sequencer, seats)) = Sequencer::open(alloc, parts.streams.len()) else {
        return Err(NodeFault::Memory);
    };
    let drift = parts.daemon.daemon.config().drift();
    let (mut teller, watches) = match open(rt, alloc, drift, parts.streams.len()) {
        Ok(opened) => opened,
        Err(fault) => return Err(NodeFault::Publish(fault)),
    };
    let posts = Posts {
        seats,
        watches,
        clocks: parts.clocks,
        streams: parts.streams,
    };
    let (daemon, limits, daemon_failed) = (parts.daemon, parts.limits, parts.daemon_failed);
    let context = NodeContext {
        rt,
        alloc,
        book,
        sequencer: &sequencer,
        gate: parts.gate,
        limits: &limits,
    };
    let (lent, bound) = (&mut teller, &drift);
    let ended = thread::scope(
        thread::scope_env(),
        rt,
        move |scope| -> Result<NodeEnd, NodeFault>
            requires { (lent.now.items ≡ []) × (0 < vec_len posts.streams) × (vec_len posts.seats ≡ vec_len posts.streams)
                × AllFrom (IsNewSeat context.sequencer.now (vec_len posts.streams)) 0 posts.seats.items
                × All (λ watch. watch ≡ new_watch lent.now.source bound.now) posts.watches.items }
        { run_threads(scope, context, daemon, posts, lent, bound, daemon_failed) },
    );
    teller.close(rt);
    ended
}

/// Whether `streams` streams can be served with `clocks` clocks, within these limits.
fn check_limits(streams: usize, clocks: usize, limits: &Limits) -> Result<(), NodeFault>
    ensures taken { OnOk result ((streams ≢ 0) × (clocks ≡ streams) × (streams ≤ max_watches)
        × (limits.now.rounds ≢ 0) × (limits.now.turns ≢ 0) × (limits.now.serve.reads ≢ 0) × (limits.now.serve.waits ≢ 0)) }
    ensures bad_limits { IsErrOf result NodeFault.BadLimits ↔ ((streams ≡ 0) ⊎ (max_watches < streams) ⊎ (clocks ≢ streams)
        ⊎ (limits.now.rounds ≡ 0) ⊎ (limits.now.turns ≡ 0) ⊎ (limits.now.serve.reads ≡ 0) ⊎ (limits.now.serve.waits ≡ 0)) }
    ensures fault { IfErr result (λ fault. fault ≡ NodeFault.BadLimits) }
{
    if streams == 0 || streams > MAX_WATCHES || clocks != streams {
        return Err(NodeFault::BadLimits);
    }
    if limits.rounds == 0 || limits.turns == 0 {
        return Err(NodeFault::BadLimits);
    }
    if limits.serve.reads == 0 || limits.serve.waits == 0 {
        return Err(NodeFault::BadLimits);
    }
    Ok(())
}
