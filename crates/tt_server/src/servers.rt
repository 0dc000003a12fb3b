//! Runs a machine: starts its threads, and ends them in order.

ghost use Rattle.std.specs.Prelude.{◌≡◌, ◌<◌, ◌≤◌, ◌+◌, ◌↔◌, [], All, map, IfOk, IfSome, IsSome, IsTrue, Ok, vec_len, vec_capacity};
ghost use Rattle.std.specs.List.{range_with_len};
ghost use mathlib.Core.List.{IsPrefix};
ghost use Rattle.tt_epoch.specs.Course.{Takes, Reads};
ghost use Rattle.tt_node.specs.Sharing.{AllDown};
ghost use Rattle.tt_publish.specs.Known.{new_watch};
ghost use Rattle.tt_publish.specs.Reading.{fused_span_of};
ghost use Rattle.tt_stamp.specs.Stamping.{new_seat};
ghost use Rattle.tt_server.specs.Break.{EndsBy};
ghost use Rattle.tt_server.specs.Life.{ServerLife, HandShares, TellsOf};
ghost use Rattle.tt_server.specs.Ring.{IsWireTo};
ghost use Rattle.tt_server.specs.Round.{side_workers_of};
ghost use Rattle.tt_server.specs.Thread.{AreNewSeats, AreReady, HasSettings, ServesAt, terms_in};

use crate::breaks::{pause_after_breaks, record_break};
use crate::descriptors::{needed_descriptors, room_of, sessions_within};
use crate::faults::ServerFault;
use crate::hosts::ServerHost;
use crate::links::{Polling, link_to};
use crate::lives::{LifeEnd, WorkerEnd};
use crate::modes::Loose;
use crate::names::{Names, start_names};
use crate::rounds::{Polled, run_daemon};
use crate::sharers::start_sharing;
use crate::starts::{
    acceptor_of, backlog_of, front_of, pages_of, poller_of, publications_of, reporter_of,
    shows_evidence, side_of, sights_of, watch_all,
};
use crate::states::{Ending, Life, ServerState, ThreadContext, say};
use crate::workers::{WorkerHandle, start_worker, worker_seat_of};
use mio::Waker;
use std::alloc::Global;
use std::io::{Input, Read};
use std::net::Net;
use std::sync::{Arc, Wait};
use std::thread;
use std::thread::{JoinHandle, Scope, Threads};
use std::time::Clock as SystemClock;
use tt_clock::{MachineClock, reading_of};
use tt_connections::{Acceptor, Listener, Listeners, Sight};
use tt_epoch::{FolderStore, Store, next_epoch};
use tt_host::{ByClock, descriptor_limit};
use tt_publish::{Teller, Told, Watch};
use tt_report::Pages;
use tt_settings::Settings;
use tt_stamp::{Seat, Sequencer};
use tt_status::LogEvent;

/// How much longer than its `wait` a round may last before that is logged, in nanoseconds: a second.
const SLOW: u64 = 1_000_000_000;

/// How many of the workers serve the clients of the Unix socket: half of them, or none if there is no Unix socket.
fn side_workers_of(workers: usize, has_socket: bool) -> usize
    ensures value { result ≡ side_workers_of workers has_socket }
    ensures some_are_left { result ≤ workers }
{
    if has_socket { workers / 2 } else { 0 }
}

/// What the workers own, as many of each as there are workers, and the sequencer that they share.
#[derive(Drop)]
struct Posts<'a> {
    sequencer: &'a Sequencer,
    seats: Vec<Seat>,
    watches: Vec<Watch>,
    sights: Vec<Sight>,
}

/// Room for the threads of `most` workers, and for what they hand back.
#[derive(Drop)]
struct Joins {
    most: usize,
    handles: Vec<WorkerHandle>,
    ends: Vec<WorkerEnd>,
    ghost no_handle: { handles.items ≡ [] },
    ghost handle_room: { most ≤ vec_capacity handles },
    ghost no_end: { ends.items ≡ [] },
    ghost end_room: { most ≤ vec_capacity ends },
}

impl Joins {
    /// Room for this many workers, none of which is started. None if it is out of memory.
    fn new(alloc: Global, most: usize) -> Option<Joins>
        ensures most { IfSome result (λ joins. joins.most ≡ most) }
    {
        let Ok(handles) = Vec::with_capacity(alloc, most) else {
            return None;
        };
        let Ok(ends) = Vec::with_capacity(alloc, most) else {
            return None;
        };
        Some(Joins {
            most,
            handles,
            ends,
        })
    }
}

/// Starts the threads of all workers, from the last seat to the first. Answers whether all were started. Each watch is a new one
/// of the teller that told `_opened`.
fn start_workers<'s, E, R: Wait + SystemClock + Sync>(
    scope: &Scope<'s, E>,
    context: ThreadContext<'s, R>,
    posts: Posts<'s>,
    handles: &mut Vec<WorkerHandle>,
    _opened: &Told,
) -> bool
    requires none { handles.old.items ≡ [] }
    requires room { vec_len posts.watches ≤ vec_capacity handles.old }
    requires one_each { vec_len posts.seats ≡ vec_len posts.watches }
    requires seats { AreNewSeats posts.sequencer.now (vec_len posts.watches) posts.seats.items }
    requires watches { All (λ watch. watch ≡ new_watch _opened.now.source context.server.now.life.config.drift) posts.watches.items }
    ensures all { IsTrue result → vec_len handles.new ≡ vec_len posts.entry.watches }
    ensures some { vec_len handles.new ≤ vec_len posts.entry.watches }
    ensures each { AllDown (λ number handle. ServesAt (new_watch _opened.now.source context.entry.server.now.life.config.drift) (terms_in context.entry.server.now.life) posts.entry.sequencer.now (vec_len posts.entry.watches) number handle.promise) (vec_len posts.entry.watches) handles.new.items }
{
    let Posts {
        sequencer,
        mut seats,
        mut watches,
        mut sights,
    } = posts;
    let listeners = context.server.listeners;
    let side = side_workers_of(watches.len(), listeners.side.is_some());
    for number in 0..watches.len() {
        let (Some(seat), Some(watch), Some(sight)) = (seats.pop(), watches.pop(), sights.pop())
        else {
            return false;
        };
        let (backlog, place) = match &listeners.side {
            Some(side_entry) if number < side => (side_entry, number),
            _ => (&listeners.front, number.saturating_sub(side)),
        };
        let Some(inbox) = backlog.inbox(place) else {
            return false;
        };
        let worker_seat = worker_seat_of(seat, sequencer);
        let Some(handle) = start_worker(scope, context, backlog, inbox, worker_seat, watch, sight)
        else {
            return false;
        };
        handles.push_reserved(handle);
    }
    true
}

/// Joins all workers of this life, from the one that was started last to the one that was started first, and joins their seats.
/// Answers how each ended, in the order of the seats; None if there is none. Each began with a new watch of the teller that told
/// `_opened`.
fn join_workers<R: Threads>(
    rt: &R,
    sequencer: &Sequencer,
    handles: Vec<WorkerHandle>,
    ends: Vec<WorkerEnd>,
    _opened: &Told,
    _life: &Life,
) -> Option<Vec<WorkerEnd>>
    requires none { ends.items ≡ [] }
    requires room { vec_len handles ≤ vec_capacity ends }
    requires each { AllDown (λ number handle. ServesAt (new_watch _opened.now.source _life.now.config.drift) (terms_in _life.now) sequencer.now (vec_len handles) number handle.promise) (vec_len handles) handles.items }
    ensures all { IfSome result (λ ends. vec_len ends ≡ vec_len handles) }
    ensures some { IsSome result ↔ (0 < vec_len handles) }
    ensures shares { IfSome result (λ ends. HandShares (new_watch _opened.now.source _life.now.config.drift) (terms_in _life.now) ends.items) }
{
    let (mut handles, mut ends) = (handles, ends);
    let (end, mut all) = handles.pop()?.join(rt);
    all.laws();
    ends.push_reserved(end);
    for _ in 0..handles.len() {
        let Some(handle) = handles.pop() else {
            return None;
        };
        let (end, seat) = handle.join(rt);
        ends.push_reserved(end);
        all = sequencer.join(all, seat);
    }
    Some(ends)
}

/// Joins the workers that were started, in a life in which some were not.
fn drop_workers<R: Threads>(rt: &R, handles: Vec<WorkerHandle>) {
    let mut handles = handles;
    for _ in 0..handles.len() {
        if let Some(handle) = handles.pop() {
            drop(handle.join(rt));
        }
    }
}

/// Whether the workers read nothing but these publications.
fn read_published(workers: &[WorkerEnd], published: &Told) -> bool
    requires { All (λ end. end.seen.source ≡ published.now.source) workers.now }
    ensures { IsTrue result → All (λ end. IsPrefix end.seen.items published.now.items) workers.now }
{
    for worker in workers {
        if !worker.seen.is_within(published) {
            return false;
        }
    }
    true
}

/// Accepts connections and hands them to the workers, until the machine ends.
fn accept_all<R: Wait + SystemClock>(
    context: ThreadContext<'_, R>,
    acceptor: Acceptor,
    began: u64,
) {
    let (rt, server) = (context.rt, context.server);
    let mut acceptor = acceptor;
    acceptor.wait_for_first(rt, server.listeners, began);
    for _ in rt.forever() {
        if server.has_ended() {
            return;
        }
        if let Some(reason) = acceptor.turn(rt, server.listeners) {
            let errno = u64::from(reason.number());
            say(context, LogEvent::NotAccepted { errno });
        }
    }
    unreachable!()
}

/// Starts the thread that accepts connections. None if the thread can't be started.
fn start_acceptor<'s, E, R: Wait + SystemClock + Sync>(
    scope: &Scope<'s, E>,
    context: ThreadContext<'s, R>,
    acceptor: Acceptor,
) -> Option<JoinHandle<()>> {
    let began = reading_of(context.rt).unwrap_or(0);
    scope
        .spawn(move || accept_all(context, acceptor, began))
        .ok()
}

/// Standard input, as far as its end tells something. The runtime handle has one. A thread can be given it, since no type of
/// readers belongs to it.
pub trait EndOfInput {
    /// Waits until standard input has ended or fails.
    fn wait_for_end(&self);
}

impl EndOfInput for HostRuntime {
    fn wait_for_end(&self) {
        let mut input = self.reader();
        let mut buffer = [0; 512];
        for _ in 0..u64::MAX {
            match input.read(&mut buffer) {
                Ok(count) if count > 0 => {}
                _ => break,
            }
        }
    }
}

impl<R: EndOfInput> EndOfInput for ByClock<R> {
    fn wait_for_end(&self) {
        self.handle().wait_for_end()
    }
}

/// Waits for the end of standard input, and then asks for the end of the machine.
fn end_with_input<R: EndOfInput>(rt: &R, ending: &Ending) {
    rt.wait_for_end();
    ending.ask();
}

/// Starts the thread that asks for the end of the machine at the end of standard input. It is never joined: a machine that
/// ends before its input does not wait for it. Answers whether it was started.
fn start_end<R: Threads + EndOfInput + Copy + Send + 'static>(
    context: ThreadContext<'_, R>,
) -> bool {
    let rt = *context.rt;
    let Ok(ending) = Arc::try_clone(&context.server.ending) else {
        return false;
    };
    thread::spawn(&rt, move || end_with_input(&rt, &ending)).is_ok()
}

/// Starts all threads except the daemon's. Answers whether all were started. Each watch is a new one of the teller that
/// told `opened`.
fn start_all<'s, E, R: ServerHost>(
    scope: &Scope<'s, E>,
    context: ThreadContext<'s, R>,
    acceptor: Acceptor,
    posts: Posts<'s>,
    handles: &mut Vec<WorkerHandle>,
    opened: &Told,
    names: Option<Names>,
    until_eof: bool,
) -> bool
    requires none { handles.old.items ≡ [] }
    requires room { vec_len posts.watches ≤ vec_capacity handles.old }
    requires one_each { vec_len posts.seats ≡ vec_len posts.watches }
    requires seats { AreNewSeats posts.sequencer.now (vec_len posts.watches) posts.seats.items }
    requires watches { All (λ watch. watch ≡ new_watch opened.now.source context.server.now.life.config.drift) posts.watches.items }
    ensures all { IsTrue result → vec_len handles.new ≡ vec_len posts.entry.watches }
    ensures some { vec_len handles.new ≤ vec_len posts.entry.watches }
    ensures each { AllDown (λ number handle. ServesAt (new_watch opened.now.source context.entry.server.now.life.config.drift) (terms_in context.entry.server.now.life) posts.entry.sequencer.now (vec_len posts.entry.watches) number handle.promise) (vec_len posts.entry.watches) handles.new.items }
{
    if !start_workers(scope, context, posts, handles, opened) {
        return false;
    }
    if start_acceptor(scope, context, acceptor).is_none() {
        return false;
    }
    if until_eof && !start_end(context) {
        return false;
    }
    match names {
        Some(names) => start_names(context.rt, names),
        None => true,
    }
}

/// What the threads of a machine own.
#[derive(Drop)]
struct Parts<'a, R> {
    acceptor: Acceptor,
    polling: Polling<'a, R>,
    posts: Posts<'a>,
    joins: Joins,
}

/// Starts all other threads, makes the rounds of the daemon until the machine ends, and joins the workers.
fn run_threads<'s, E, R: ServerHost>(
    scope: &Scope<'s, E>,
    context: ThreadContext<'s, R>,
    settings: &'s Settings,
    parts: Parts<'s, R>,
    teller: &mut Teller,
    until_eof: bool,
) -> Result<LifeEnd, ServerFault>
    requires nothing { teller.old.items ≡ [] }
    requires meant { HasSettings settings.now context.server.now.life }
    requires ready { AreReady settings.now teller.old.source parts.posts.watches.items parts.posts.sequencer.now parts.posts.seats.items parts.joins.most }
    requires wired { IsWireTo settings.now.masters parts.polling.link.hearing.wire }
    ensures epoch { IfOk result (λ end. end.epoch ≡ context.entry.server.now.life.epoch) }
    ensures life { IfOk result (λ end. (life : ServerLife) × TellsOf settings.now end life) }
{
    let (rt, server) = (context.rt, context.server);
    let path = match settings.shared() {
        Some(path) => Some(path.as_str()),
        None => None,
    };
    let share = start_sharing(context, path)?;
    let Parts {
        acceptor,
        polling,
        posts,
        joins,
    } = parts;
    let Joins {
        mut handles,
        ends,
        ..
    } = joins;
    let opened = teller.tell();
    let Polling {
        link,
        reach,
        table,
        names,
    } = polling;
    let polled = Polled { link, reach, table };
    let sequencer = posts.sequencer;
    let mut poller = poller_of(context, settings, polled, share);
    if !start_all(
        scope,
        context,
        acceptor,
        posts,
        &mut handles,
        &opened,
        names,
        until_eof,
    ) {
        server.end();
        drop_workers(rt, handles);
        return Err(ServerFault::NoThread);
    }
    say_started(context, settings.listen());
    let mut clock = MachineClock::new(rt);
    run_daemon(context, &mut poller, &mut clock, teller);
    server.end();
    poller.end_names();
    let joined = join_workers(rt, sequencer, handles, ends, &opened, &server.life);
    poller.end_sharing(rt);
    let published = teller.tell();
    let Some(workers) = joined else {
        return Err(ServerFault::Memory);
    };
    // The answer is always yes: a watch sees only what its teller shows, and the daemon has ended. But of a watch the
    // proofs know only that it reads publications of this teller's source.
    if !read_published(&workers, &published) {
        return Err(ServerFault::Memory);
    }
    Ok(LifeEnd {
        epoch: server.life.epoch,
        published,
        workers,
        broken: poller.broken(),
    })
}

/// Runs a machine whose epoch is taken. With `until_eof` it returns after the end of standard input.
fn run<'n, R: ServerHost>(
    context: ThreadContext<'n, R>,
    settings: &'n Settings,
    parts: Parts<'n, R>,
    teller: &mut Teller,
    until_eof: bool,
) -> Result<LifeEnd, ServerFault>
    requires nothing { teller.old.items ≡ [] }
    requires meant { HasSettings settings.now context.server.now.life }
    requires ready { AreReady settings.now teller.old.source parts.posts.watches.items parts.posts.sequencer.now parts.posts.seats.items parts.joins.most }
    requires wired { IsWireTo settings.now.masters parts.polling.link.hearing.wire }
    ensures epoch { IfOk result (λ end. end.epoch ≡ context.entry.server.now.life.epoch) }
    ensures life { IfOk result (λ end. (life : ServerLife) × TellsOf settings.now end life) }
{
    let (rt, lent) = (context.rt, teller);
    let ended = thread::scope(
        thread::scope_env(),
        rt,
        move |scope| -> Result<LifeEnd, ServerFault>
            requires { (lent.now.items ≡ []) × HasSettings settings.now context.server.now.life
                × AreReady settings.now lent.now.source parts.posts.watches.items parts.posts.sequencer.now parts.posts.seats.items parts.joins.most
                × IsWireTo settings.now.masters parts.polling.link.hearing.wire }
            ensures { IfOk result (λ end. end.epoch ≡ context.entry.server.now.life.epoch)
                × IfOk result (λ end. (life : ServerLife) × TellsOf settings.entry.now end life) }
        { run_threads(scope, context, settings, parts, lent, until_eof) },
    );
    if ended.is_ok() {
        say(context, LogEvent::Ended);
    }
    ended
}

/// Logs that the machine has started. `listen` is the port that it asked for.
fn say_started<R: Wait + SystemClock>(context: ThreadContext<'_, R>, listen: u16) {
    let server = context.server;
    say(
        context,
        LogEvent::Started {
            machine: u64::from(server.life.machine),
            epoch: server.life.epoch,
            port: u64::from(server.listeners.front.listener.port().unwrap_or(listen)),
        },
    );
}

/// Logs how many descriptors the process may have, how many all sessions want, and how many sessions there is room for.
fn say_descriptors<R: Wait + SystemClock>(context: ThreadContext<'_, R>, limit: Option<u64>) {
    let workers = context.server.life.config.workers();
    if let Some(limit) = limit {
        say(
            context,
            LogEvent::Descriptors {
                limit,
                needed: needed_descriptors(workers as u64),
                sessions: sessions_within(Some(limit), workers),
            },
        );
    }
}

/// What a machine is started with.
#[derive(Drop)]
struct Start<'a> {
    settings: &'a Settings,
    listeners: &'a Listeners,
    waker: Waker,
    until_eof: bool,
    pages: Option<Pages>,
    /// How many descriptors the process may have, where that is known.
    limit: Option<u64>,
}

/// Starts the reporter, takes the next epoch from this store, and runs the machine of this life.
fn run_life<'n, R: ServerHost, S: Store>(
    rt: &'n R,
    alloc: Global,
    start: Start<'n>,
    parts: Parts<'n, R>,
    store: &mut S,
    teller: &mut Teller,
) -> Result<LifeEnd, ServerFault>
    requires nothing { teller.old.items ≡ [] }
    requires ready { AreReady start.settings.now teller.old.source parts.posts.watches.items parts.posts.sequencer.now parts.posts.seats.items parts.joins.most }
    requires wired { IsWireTo start.settings.now.masters parts.polling.link.hearing.wire }
    // The epoch of the life is the one that the store gave.
    ensures epoch { IfOk result (λ end. Takes S.does Reads store.old store.new (Ok end.epoch)) }
    ensures life { IfOk result (λ end. (life : ServerLife) × TellsOf start.entry.settings.now end life) }
{
    let Start {
        settings,
        listeners,
        waker,
        until_eof,
        pages,
        limit,
    } = start;
    let reporter = reporter_of(rt, alloc, settings, pages)?;
    let loose = Loose::found(rt, alloc, settings);
    let Some(ending) = Ending::shared(alloc, waker) else {
        return Err(ServerFault::Memory);
    };
    let last_break = pause_after_breaks(rt, alloc, &reporter, settings.state());
    let epoch = match next_epoch(store) {
        Ok(epoch) => epoch,
        Err(fault) => return Err(ServerFault::Epoch(fault)),
    };
    let life = Life::of(settings, epoch);
    reporter.watch_for(life.pauses.wait.saturating_add(SLOW));
    let has_evidence = shows_evidence(settings);
    let server = ServerState::new(life, listeners, reporter, has_evidence, last_break, ending);
    let context = ThreadContext {
        rt,
        alloc,
        server: &server,
    };
    loose.say_in(context);
    say_descriptors(context, limit);
    let ended = run(context, settings, parts, teller, until_eof);
    if let Ok(end) = &ended {
        if let Some(reason) = end.broken {
            record_break(rt, alloc, settings.state(), reason);
        }
    }
    server.reporter.end(rt);
    ended
}

/// What the workers own, over the seats of this new sequencer, room for their threads, and the publications, none so far.
fn posts_of<'a, R: Net + Wait>(
    rt: &R,
    alloc: Global,
    settings: &Settings,
    sequencer: &'a Sequencer,
    seats: Vec<Seat>,
) -> Result<(Posts<'a>, Joins, Teller), ServerFault>
    requires opened { seats.items ≡ map (new_seat sequencer.now settings.now.config.workers) (range_with_len 0 settings.now.config.workers) }
    ensures nothing { IfOk result (λ made. made.2.items ≡ []) }
    ensures ready { IfOk result (λ made. AreReady settings.now made.2.source made.0.watches.items made.0.sequencer.now made.0.seats.items made.1.most) }
{
    let workers = settings.config().workers();
    let sights = sights_of(rt, alloc, workers)?;
    let Some(joins) = Joins::new(alloc, workers) else {
        return Err(ServerFault::Memory);
    };
    let (teller, watches) = publications_of(rt, alloc, settings)?;
    let posts = Posts {
        sequencer,
        seats,
        watches,
        sights,
    };
    Ok((posts, joins, teller))
}

/// Makes the other parts of a machine that listens and holds its folder, and runs it.
fn run_behind<'n, 'e, R: ServerHost>(
    rt: &'n R,
    alloc: Global,
    start: Start<'n>,
    acceptor: Acceptor,
    polling: Polling<'n, R>,
    store: &mut FolderStore<'e, R>,
) -> Result<LifeEnd, ServerFault>
    requires wired { IsWireTo start.settings.now.masters polling.link.hearing.wire }
    ensures life { IfOk result (λ end. (life : ServerLife) × TellsOf start.entry.settings.now end life) }
{
    watch_all(&acceptor, start.listeners)?;
    let settings = start.settings;
    let Ok((sequencer, seats)) = Sequencer::open(alloc, settings.config().workers()) else {
        return Err(ServerFault::Memory);
    };
    let (posts, joins, mut teller) = posts_of(rt, alloc, settings, &sequencer, seats)?;
    let parts = Parts {
        acceptor,
        polling,
        posts,
        joins,
    };
    let ended = run_life(rt, alloc, start, parts, store, &mut teller);
    teller.close(rt);
    ended
}

/// What a machine has opened before it holds its folder.
#[derive(Drop)]
struct Opened<'n, R> {
    front: Listener,
    acceptor: Acceptor,
    waker: Waker,
    pages: Option<Pages>,
    polling: Polling<'n, R>,
    link_waker: Waker,
}

/// Opens what a machine has before it holds its folder, in this order.
fn open_all<'n, R: ServerHost>(
    rt: &'n R,
    alloc: Global,
    settings: &'n Settings,
) -> Result<Opened<'n, R>, ServerFault>
    ensures wire { IfOk result (λ opened. IsWireTo settings.now.masters opened.polling.link.hearing.wire) }
{
    let front = front_of(rt, settings)?;
    let (acceptor, waker) = acceptor_of(rt, alloc)?;
    let pages = pages_of(rt, settings)?;
    let (polling, link_waker) = link_to(rt, alloc, settings)?;
    Ok(Opened {
        front,
        acceptor,
        waker,
        pages,
        polling,
        link_waker,
    })
}

/// Where all clients come in: at this listener, and at the Unix socket if the settings name one.
fn listeners_of<R: ServerHost>(
    rt: &R,
    alloc: Global,
    settings: &Settings,
    front: Listener,
    waker: Waker,
    limit: Option<u64>,
) -> Result<Listeners, ServerFault> {
    let workers = settings.config().workers();
    let side_workers = side_workers_of(workers, settings.socket().is_some());
    let room = room_of(limit, workers);
    let front = backlog_of(rt, alloc, front, workers - side_workers, room)?;
    let side = side_of(rt, alloc, settings, side_workers, room)?;
    Ok(Listeners::new(front, side, waker))
}

/// Runs a machine that has opened these and holds its folder, and removes its Unix socket in the end.
fn serve_opened<'n, 'e, R: ServerHost>(
    rt: &'n R,
    alloc: Global,
    settings: &'n Settings,
    until_eof: bool,
    opened: Opened<'n, R>,
    store: &mut FolderStore<'e, R>,
) -> Result<LifeEnd, ServerFault>
    requires wired { IsWireTo settings.now.masters opened.polling.link.hearing.wire }
    ensures life { IfOk result (λ end. (life : ServerLife) × TellsOf settings.now end life) }
{
    let Opened {
        front,
        acceptor,
        waker,
        pages,
        polling,
        link_waker,
    } = opened;
    let limit = descriptor_limit();
    let listeners = listeners_of(rt, alloc, settings, front, waker, limit)?;
    let start = Start {
        settings,
        listeners: &listeners,
        waker: link_waker,
        until_eof,
        pages,
        limit,
    };
    let ended = run_behind(rt, alloc, start, acceptor, polling, store);
    if let (Some(side), Some(path)) = (&listeners.side, settings.socket()) {
        side.listener.remove(rt, path.as_str());
    }
    ended
}

/// Runs one machine: it polls, fuses and publishes, and serves clients. It measures by the monotonic clock of `rt`, which has to be the one that the settings name ([`ByClock`]). It returns if the machine is not started. With
/// `until_eof` it ends the machine in order after the end of standard input, and returns. Otherwise it goes on until
/// the process is ended.
///
/// The start, in this order: it listens at the TCP address and at that of the pages if the settings name one, reads the file of keys if the settings name one, draws how far
/// the nonces of this life are ahead on the wire, opens the socket for polls, locks the folder of the epoch for as long as
/// it runs, listens at the Unix socket if the settings name one, takes the memory, opens the publications,
/// starts the reporter's threads, pauses where a break is recorded that is less than a minute old, and takes the next epoch. Then it starts the other threads:
/// those of the shared file if the settings name one, of the workers, of the acceptor, of the end, and of the names if a master has one. Then the daemon makes its rounds. Clients are served after the
/// first publication, or two seconds after the start. If there is a Unix socket, half of the workers serve its clients,
/// and the other workers serve the clients of the TCP address.
///
/// Refuses, in this order: 1807 `CannotListen`, 1830 `CannotServePages`, `Keys` (2211 to 2216), 1827 `NoKey`, 1828 `MixedFamilies`, 1829 `NoRandom`,
/// 1808 `CannotPoll`, `Epoch` (1815 where another process holds the folder,
/// 1812), 1819 `NotSocket`, 1809 `CannotListenSocket`, `Publish`, 1816 `NoThread` for the reporter, `Epoch` (1811 to 1814),
/// 1816 `NoThread`, and 1 `Memory` in place of each. No epoch is taken before all of them but the last `NoThread` have
/// passed. What is at the path of the Unix socket and is not a socket that was left is left alone.
///
/// A shared file that can't be opened is not a refusal: it is logged, and tried again. If others than the owner may write
/// the folder of the state, the file of the epoch or the shared file, as found at the start, that is logged too. The log
/// and the status file are written by the reporter alone.
///
/// It also ends once it knows that an assumption is broken, unless the settings say that this is only logged: from then on
/// no session is given a reading, a stamp or a release, and the shared file says that nothing is published. The break is
/// recorded in the folder of the state, and [`LifeEnd::broken`] says why. Each publication meets the one before it, but for
/// the last one of a life that a break ended. If there is no more than this sign, the reason is [`Unmet`](tt_status::BreakReason::Unmet),
/// and with that reason the last publication does not meet the one before it.
///
/// At the end it wakes all threads, whatever they wait for, joins the workers, and removes the Unix socket if it is still
/// the one that it made. Then it answers the epoch of the life, what its daemon published, and what each worker had seen
/// of that. In contracts this is the end of a life with these settings: its daemon began new, its calls came one after the
/// other, and its workers read nothing but what it published; all that a worker did was turns of its sessions, and what all
/// workers have stamped is one legal history of one sequencer. Each packet that these calls were given was handed up over one
/// wire to the masters of the settings: the keys of each are those with its numbers, from a list of keys of which no two have
/// the same number.
pub fn serve<R: ServerHost>(
    rt: &R,
    settings: &Settings,
    until_eof: bool,
) -> Result<LifeEnd, ServerFault>
    ensures life { IfOk result (λ end. (life : ServerLife) × TellsOf settings.now end life) }
    // Each publication meets the one before it, but for the last one of a life that a break ended. If it ended by that
    // alone, `broken` says so. Where the settings say that a break is only logged, none ends a life.
    ensures breaks { IfOk result (λ end. EndsBy settings.now.on_break settings.now.config.drift (map fused_span_of end.published.items) end.broken) }
{
    let alloc = rt.alloc();
    let opened = open_all(rt, alloc, settings)?;
    let mut store = match FolderStore::open(rt, alloc, settings.state()) {
        Ok(store) => store,
        Err(fault) => return Err(ServerFault::Epoch(fault)),
    };
    let ended = serve_opened(rt, alloc, settings, until_eof, opened, &mut store);
    // The folder stays locked until here.
    drop(store);
    ended
}
