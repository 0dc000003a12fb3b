//! A run: it starts threads, and joins them.

ghost use Rattle.std.specs.Prelude.{◌≡◌, ◌<◌, ◌≤◌, Some, None, Err, IfOk, IfSome, IfErr, vec_len};
ghost use Rattle.tt_poll.specs.Message.{max_source};
ghost use Rattle.tt_publish.specs.Known.{max_watches};
ghost use Rattle.tt_rounds.specs.declared.faults.NodeFault.{NodeFault};
ghost use Rattle.tt_node.specs.declared.nodes.NodeEnd.{NodeEnd};
ghost use Rattle.tt_live.specs.Clock.{new_clock};
ghost use Rattle.tt_live.specs.Fault.{EndsRun, IsEndFault, IsLiveFault, IsSocketFault};
ghost use Rattle.tt_live.specs.Plan.{refusal_of};
ghost use Rattle.tt_live.specs.Running.{IsNodeOf, IsRunOf, RunsScript, TellsNode};

use crate::clients::talk;
use crate::clocks::{LiveClock, Origin};
use crate::faults::LiveFault;
use crate::masters::{play, source_at};
use crate::plans::machine_of;
use crate::reports::report_of;
use crate::sockets::{Links, Sessions, WorkerStream, connect_clients, connect_masters};
use std::alloc::Global;
use std::net::{Net, TcpListener, TcpStream, UdpSocket};
use std::sync::Wait;
use std::sync::atomic::{AtomicBool, Ordering};
use std::thread;
use std::thread::{Promise, PromisedHandle, Scope, Threads};
use std::time::{Clock as SystemClock, Instant};
use tt_audit::LiveReport;
use tt_daemon::{Config, Daemon};
use tt_node::{Clocks, Limits, NodeEnd, OpenGate, run_node};
use tt_rounds::{NodeFault, RoundLink, Rounds, UdpLink};
use tt_script::{Live, LiveMaster, Script, Session};
use tt_session::Turns;
use tt_stream::Counted;

/// The most reads of a session.
pub const MAX_READS: u32 = 1_000_000;

/// The most release steps for one line.
pub const MAX_WAITS: u32 = 10_000;

/// The number of the machine.
const MACHINE: u8 = 0;

/// The number of the machine's life.
const EPOCH: u64 = 1;

/// What a run answers.
#[derive(Clone, Copy, Debug, PartialEq, Eq)]
pub struct LiveEnd {
    /// How many readings there were, and how many of them were wrong.
    pub report: LiveReport,
    /// What the daemon did, and what it refused.
    pub rounds: Rounds,
}

/// What the threads of a run share.
struct LiveContext<'a, R> {
    rt: &'a R,
    alloc: Global,
    origin: Origin,
    ended: &'a AtomicBool,
    daemon_failed: &'a AtomicBool,
    gate: &'a OpenGate,
}

impl<'a, R> Clone for LiveContext<'a, R> {
    fn clone(&self) -> Result<Self, std::alloc::AllocError> {
        Ok(LiveContext {
            rt: self.rt,
            alloc: self.alloc,
            origin: self.origin,
            ended: self.ended,
            daemon_failed: self.daemon_failed,
            gate: self.gate,
        })
    }
}

impl<'a, R> Copy for LiveContext<'a, R> {}

/// How a thread of a master or a client ended.
type End = Result<(), NodeFault>;

/// The promise that a thread of a master or a client ends without a fault, or with a fault that such a thread has.
#[derive(Drop)]
struct EndsSo;

impl Promise<End> for EndsSo {
    ghost use Rattle.std.specs.Prelude.{IfErr};
    ghost use Rattle.tt_live.specs.Fault.{IsEndFault};

    ghost kept_by = { λ _ result. IfErr result IsEndFault };
}

/// A thread of a master or a client that was started.
type Started = PromisedHandle<End, EndsSo>;

/// Starts the thread of a master, if one can be made.
fn start_master<'s, E, R: Wait + SystemClock + Sync>(
    scope: &Scope<'s, E>,
    shared: LiveContext<'s, R>,
    source: u8,
    plan: &'s LiveMaster,
    link: UdpLink,
) -> Option<Started>
    requires is_source { source ≤ max_source }
{
    scope
        .spawn_with(
            EndsSo,
            move || -> End
                requires { source ≤ max_source }
                ensures { IfErr result IsEndFault }
            {
                let mut link = link;
                play(
                    shared.rt,
                    shared.ended,
                    shared.origin,
                    source,
                    plan,
                    &mut link,
                )
            },
        )
        .ok()
}

/// Starts the thread of a client, if one can be made.
fn start_client<'s, E, R: Wait + SystemClock + Sync>(
    scope: &Scope<'s, E>,
    shared: LiveContext<'s, R>,
    session: &'s Session,
    stream: TcpStream,
) -> Option<Started> {
    scope
        .spawn_with(
            EndsSo,
            move || -> End
                ensures { IfErr result IsEndFault }
            {
                let mut reader = Counted::new(&stream);
                let mut writer = Counted::new(&stream);
                talk(
                    shared.rt,
                    shared.alloc,
                    &mut reader,
                    &mut writer,
                    session.lines(),
                )
            },
        )
        .ok()
}

/// Starts the threads of all masters, from the last source to the first. Answers whether each thread was started.
fn start_masters<'s, E, R: Wait + SystemClock + Sync>(
    scope: &Scope<'s, E>,
    shared: LiveContext<'s, R>,
    live: &'s Live,
    links: Vec<UdpLink>,
    handles: &mut Vec<Started>,
) -> bool {
    let mut links = links;
    let masters = live.masters();
    for _ in 0..links.len() {
        let Some(link) = links.pop() else {
            return false;
        };
        let Some(plan) = masters.get(links.len()) else {
            return false;
        };
        let Some(source) = source_at(links.len()) else {
            return false;
        };
        let Some(handle) = start_master(scope, shared, source, plan, link) else {
            return false;
        };
        if handles.push(handle).is_err() {
            return false;
        }
    }
    true
}

/// Starts the threads of all clients, from the client of the last worker to the client of the first. Answers whether
/// each thread was started.
fn start_clients<'s, E, R: Wait + SystemClock + Sync>(
    scope: &Scope<'s, E>,
    shared: LiveContext<'s, R>,
    live: &'s Live,
    streams: Vec<TcpStream>,
    handles: &mut Vec<Started>,
) -> bool {
    let mut streams = streams;
    let sessions = live.sessions();
    for _ in 0..streams.len() {
        let Some(stream) = streams.pop() else {
            return false;
        };
        let Some(session) = sessions.get(streams.len()) else {
            return false;
        };
        let Some(handle) = start_client(scope, shared, session, stream) else {
            return false;
        };
        if handles.push(handle).is_err() {
            return false;
        }
    }
    true
}

/// Joins the threads, from the one that was started last to the one that was started first. Answers the first fault
/// with which one of them ended, in this order.
fn join_all<R: Threads>(rt: &R, handles: Vec<Started>) -> End
    ensures fault { IfErr result IsEndFault }
{
    let mut handles = handles;
    let mut first = Ok(());
    for _ in 0..handles.len() {
        if let Some(handle) = handles.pop() {
            let end = handle.join(rt);
            if first.is_ok() {
                first = end;
            }
        }
    }
    first
}

/// The clocks of a node with `workers` workers.
fn clocks_of<'s, R: SystemClock>(
    shared: LiveContext<'s, R>,
    workers: usize,
) -> Result<Clocks<LiveClock<'s, R>>, NodeFault>
    ensures all { IfOk result (λ clocks. vec_len clocks.workers ≡ workers) }
    ensures new { IfOk result (λ clocks. clocks.daemon ≡ new_clock) }
    ensures fault { IfErr result (λ fault. fault ≡ NodeFault.Memory) }
{
    let mut clocks = Vec::new(shared.alloc);
    for _ in 0..workers {
        if clocks
            .push(LiveClock::new(shared.rt, shared.origin))
            .is_err()
        {
            return Err(NodeFault::Memory);
        }
    }
    Ok(Clocks {
        daemon: LiveClock::new(shared.rt, shared.origin),
        workers: clocks,
    })
}

/// Runs the node over these streams, with one clock for each, unless some thread was not started.
fn run_streams<'s, R: Threads + Wait + SystemClock + Sync>(
    shared: LiveContext<'s, R>,
    config: Config,
    live: &'s Live,
    link: RoundLink<'s, R, UdpSocket>,
    clocks: Clocks<LiveClock<'s, R>>,
    streams: Vec<WorkerStream<'s>>,
    started: bool,
) -> Result<NodeEnd, NodeFault>
    requires some { 0 < vec_len streams }
    requires few { vec_len streams ≤ max_watches }
    requires each { vec_len clocks.workers ≡ vec_len streams }
    requires all { vec_len streams ≡ config.workers }
    requires new { clocks.daemon ≡ new_clock }
    ensures node { IfOk result (IsNodeOf live.now config) }
    ensures fault { IfErr result EndsRun }
{
    if !started {
        // The clients that were started wait for replies until the other ends of their connections are closed.
        drop(streams);
        return Err(NodeFault::Memory);
    }
    let limits = Limits {
        rounds: live.rounds(),
        turns: live.turns(),
        serve: Turns {
            reads: MAX_READS,
            waits: MAX_WAITS,
        },
        lease: live.lease(),
    };
    let daemon = Daemon::new(MACHINE, &config, EPOCH);
    run_node(
        shared.rt,
        shared.alloc,
        daemon,
        link,
        clocks,
        streams,
        shared.gate,
        limits,
        shared.daemon_failed,
    )
}

/// Starts the threads of the masters and the clients, runs the node, and joins all threads that were started.
fn run_threads<'s, E, R: Threads + Wait + SystemClock + Sync>(
    scope: &Scope<'s, E>,
    shared: LiveContext<'s, R>,
    config: Config,
    live: &'s Live,
    links: Links<'s, R>,
    sessions: Sessions<'s>,
) -> Result<NodeEnd, NodeFault>
    requires some { 0 < vec_len sessions.workers }
    requires few { vec_len sessions.workers ≤ max_watches }
    requires all { vec_len sessions.workers ≡ config.workers }
    ensures node { IfOk result (IsNodeOf live.now config) }
    ensures fault { IfErr result EndsRun }
{
    let Links {
        daemon: link,
        masters,
    } = links;
    let Sessions { clients, workers } = sessions;
    let clocks = clocks_of(shared, workers.len())?;
    let (mut playing, mut talking) = (Vec::new(shared.alloc), Vec::new(shared.alloc));
    let started = start_masters(scope, shared, live, masters, &mut playing)
        && start_clients(scope, shared, live, clients, &mut talking);
    let ended = run_streams(shared, config, live, link, clocks, workers, started);
    shared.ended.store(true, Ordering::SeqCst);
    let played = join_all(shared.rt, playing);
    let talked = join_all(shared.rt, talking);
    let end = ended?;
    played?;
    talked?;
    Ok(end)
}

/// The answer of a run whose node ended so. Refuses with 1501 `LinkFailed` if a session broke off, and with 1 `Memory`.
fn end_of(alloc: Global, node: &NodeEnd) -> Result<LiveEnd, NodeFault>
    ensures tells { IfOk result (TellsNode node.now) }
    ensures fault { IfErr result IsSocketFault }
{
    if node.workers.iter().any(|worker| worker.served.is_err()) {
        return Err(NodeFault::LinkFailed);
    }
    match report_of(alloc, &node.workers) {
        Ok(report) => Ok(LiveEnd {
            report,
            rounds: node.rounds,
        }),
        Err(_) => Err(NodeFault::Memory),
    }
}

/// Runs a machine live.
fn run<
    'a,
    R: Threads + Wait + SystemClock + Sync + Net<Listener = TcpListener, Stream = TcpStream>,
>(rt: &'a R, alloc: Global, config: Config, live: &'a Live) -> Result<LiveEnd, NodeFault>
    ensures run { IfOk result (λ end. (node : NodeEnd) × IsRunOf live.now config end node) }
    ensures fault { IfErr result EndsRun }
{
    let (ended, daemon_failed) = (AtomicBool::new(false), AtomicBool::new(false));
    let links = connect_masters(rt, alloc, live.masters().len())?;
    let sessions = connect_clients(rt, alloc, config.workers(), &daemon_failed)?;
    let Ok(start) = Instant::now(rt) else {
        return Err(NodeFault::ClockFailed);
    };
    let origin = Origin {
        base: live.base(),
        start,
    };
    let gate = OpenGate;
    let shared = LiveContext {
        rt,
        alloc,
        origin,
        ended: &ended,
        daemon_failed: &daemon_failed,
        gate: &gate,
    };
    let end = thread::scope(
        thread::scope_env(),
        rt,
        move |scope| -> Result<NodeEnd, NodeFault>
            requires { (0 < vec_len sessions.workers) × (vec_len sessions.workers ≤ max_watches) × (vec_len sessions.workers ≡ config.workers) }
            ensures { IfOk result (IsNodeOf live.entry.now config) × IfErr result EndsRun }
        { run_threads(scope, shared, config, live, links, sessions) },
    )?;
    end_of(alloc, &end)
}

/// Runs the machine of a script live, by the script's part for a run in threads, and judges its readings. Answers how
/// many readings the calls of `now` gave, how many of them were wrong, and what the daemon's rounds did. A reading is
/// wrong if it holds no time from the clock's reading just before the call to the clock's reading just after it.
///
/// Each master is a thread that answers polls over UDP. The node polls and serves by [`run_node`]. Each client is a
/// thread that sends the lines of its session over TCP. All of this is on 127.0.0.1, and the machine is in its first
/// life. One clock serves all of them: it shows the base of the script plus the time that has elapsed since. The
/// masters end after the node. If the daemon ends with a fault, a session ends within 0.1 seconds of this fault and of
/// its last reply. Every thread that was started is joined before the answer.
///
/// Refuses, in this order: 1302 `NoLive` where the script has no such part; 1303 `Unfit` where it does not have exactly
/// one machine, one master for each source, and one session for each worker; then the fault of the node. This is one of
/// these: 1 `Memory` where an allocation failed or a thread was not started, 1501 `LinkFailed` where a socket failed or
/// a session broke off, 1502 `ClockFailed` and 304 `ReferenceFailed` where the clock failed or went back, 802 where a
/// fusion was not published, 804 where no reader slot is free. No clause excludes 804, and no run has shown it.
pub fn live<
    R: Threads + Wait + SystemClock + Sync + Net<Listener = TcpListener, Stream = TcpStream>,
>(rt: &R, alloc: Global, script: &Script) -> Result<LiveEnd, LiveFault>
    ensures refused { IfSome (refusal_of script.now.configs script.now.live) (λ fault. result ≡ Err fault) }
    ensures run { refusal_of script.now.configs script.now.live ≡ None → IfErr result (λ fault. (node : NodeFault) × (fault ≡ LiveFault.Node node)) }
    ensures fault { IfErr result IsLiveFault }
    // The node did what the script says: the rounds and turns of its live part, on a new daemon of machine 0 in epoch 1
    // with the configuration of its machine; all workers stamped in the lease of the live part, and read nothing but what
    // this daemon published. The answer tells the rounds of this node, and counts the readings of its workers.
    ensures node { IfOk result (RunsScript script.now.configs script.now.live) }
{
    let config = machine_of(script)?;
    let Some(live) = script.live() else {
        return Err(LiveFault::NoLive);
    };
    match run(rt, alloc, config, live) {
        Ok(end) => Ok(end),
        Err(fault) => Err(LiveFault::Node(fault)),
    }
}
