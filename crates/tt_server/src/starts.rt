//! The parts of a machine, each made before its threads start.

ghost use Rattle.std.specs.Prelude.{◌≡◌, ◌≢◌, ◌<◌, [], vec_len, All, IfOk, None};
ghost use Rattle.std.specs.declared.io.ErrorKind.TheVariants.{OutOfMemory};
ghost use Rattle.tt_daemon.specs.Config.{IsConfiguration};
ghost use Rattle.tt_daemon.specs.Daemon.{new_daemon};
ghost use Rattle.tt_publish.specs.Known.{new_watch};
ghost use Rattle.tt_server.specs.declared.faults.ServerFault.TheVariants.{Memory};

use crate::faults::ServerFault;
use crate::rounds::{Polled, Poller};
use crate::sharers::Shares;
use crate::states::ThreadContext;
use mio::Waker;
use std::alloc::{AllocError, Global};
use std::fs::Files;
use std::io::{Eprint, ErrorKind};
use std::net::{Net, TcpListener, TcpStream};
use std::sync::Wait;
use std::thread::Threads;
use std::time::Clock as SystemClock;
use tt_connections::{Acceptor, Backlog, Inbox, Listener, ListenerFault, Listeners, Room, Sight};
use tt_daemon::Daemon;
use tt_files::Reason;
use tt_pages::Limits;
use tt_publish::{Teller, Watch, open};
use tt_report::{Addresses, Disk, Journal, Pages, Reporter, ReporterFault};
use tt_settings::{Settings, is_loopback};

/// The acceptor of connections, and what ends its waits.
pub(crate) fn acceptor_of<R: Net>(rt: &R, alloc: Global) -> Result<(Acceptor, Waker), ServerFault> {
    match Acceptor::new(rt, alloc) {
        Ok(made) => Ok(made),
        Err(error) => Err(fault_of(error.kind(), ServerFault::CannotListen(Reason::of(&error)))),
    }
}

/// Why a part is not made where a call of the system failed with an error of this kind: out of memory, or else `fault`.
pub(crate) fn fault_of(kind: ErrorKind, fault: ServerFault) -> ServerFault
    ensures memory { kind ≡ OutOfMemory → result ≡ Memory }
    ensures other { kind ≢ OutOfMemory → result ≡ fault }
{
    match kind {
        ErrorKind::OutOfMemory => ServerFault::Memory,
        _ => fault,
    }
}

/// The listener at the TCP address.
pub(crate) fn front_of<R: Net<Listener = TcpListener, Stream = TcpStream>>(
    rt: &R,
    settings: &Settings,
) -> Result<Listener, ServerFault> {
    match Listener::at_port(rt, settings.listen()) {
        Ok(listener) => Ok(listener),
        Err(error) => Err(fault_of(error.kind(), ServerFault::CannotListen(Reason::of(&error)))),
    }
}

/// The inboxes of so many workers, which have no session so far, each with this room.
fn inboxes_of<R: Net>(
    rt: &R,
    alloc: Global,
    workers: usize,
    room: Room,
) -> Result<Vec<Inbox>, ServerFault> {
    let mut inboxes = Vec::new(alloc);
    for _ in 0..workers {
        let inbox = match Inbox::new(rt, alloc, room) {
            Ok(inbox) => inbox,
            Err(error) => return Err(fault_of(
                error.kind(),
                ServerFault::CannotListen(Reason::of(&error)),
            )),
        };
        if inboxes.push(inbox).is_err() {
            return Err(ServerFault::Memory);
        }
    }
    Ok(inboxes)
}

/// A listener with so many workers, each of this room, where no connection waits.
pub(crate) fn backlog_of<R: Net>(
    rt: &R,
    alloc: Global,
    listener: Listener,
    workers: usize,
    room: Room,
) -> Result<Backlog, ServerFault> {
    Ok(Backlog::new(listener, inboxes_of(rt, alloc, workers, room)?))
}

/// Where pages are given over HTTP, if the settings say so.
pub(crate) fn pages_of<R: Net<Listener = TcpListener, Stream = TcpStream>>(
    rt: &R,
    settings: &Settings,
) -> Result<Option<Pages>, ServerFault> {
    let Some(address) = settings.http() else {
        return Ok(None);
    };
    match TcpListener::bind(rt, address) {
        Ok(listener) => {
            let pauses = settings.pauses();
            let limits = Limits::of(
                settings.max_width(),
                pauses.poll,
                pauses.wait,
                settings.shared().is_some(),
            );
            Ok(Some(Pages {
                listener,
                limits,
                is_open: !is_loopback(address),
            }))
        }
        Err(error) => Err(fault_of(
            error.kind(),
            ServerFault::CannotServePages(Reason::of(&error)),
        )),
    }
}

/// The Unix socket with so many workers, each of this room, if the settings name one. Their inboxes come first, so that no socket is left
/// behind.
pub(crate) fn side_of<R: Files + Net>(
    rt: &R,
    alloc: Global,
    settings: &Settings,
    workers: usize,
    room: Room,
) -> Result<Option<Backlog>, ServerFault> {
    let Some(path) = settings.socket() else {
        return Ok(None);
    };
    let inboxes = inboxes_of(rt, alloc, workers, room)?;
    match Listener::at_path(rt, path.as_str()) {
        Ok(listener) => Ok(Some(Backlog::new(listener, inboxes))),
        Err(ListenerFault::NotSocket) => Err(ServerFault::NotSocket),
        Err(ListenerFault::Failed(reason)) => Err(ServerFault::CannotListenSocket(reason)),
    }
}

/// Has the acceptor wait for connections at all listeners.
pub(crate) fn watch_all(acceptor: &Acceptor, listeners: &Listeners) -> Result<(), ServerFault> {
    if let Err(error) = acceptor.watch(&listeners.front.listener) {
        return Err(fault_of(error.kind(), ServerFault::CannotListen(Reason::of(&error))));
    }
    if let Some(side) = &listeners.side {
        if let Err(error) = acceptor.watch(&side.listener) {
            return Err(fault_of(
                error.kind(),
                ServerFault::CannotListenSocket(Reason::of(&error)),
            ));
        }
    }
    Ok(())
}

/// What each worker looks at its connections with.
pub(crate) fn sights_of<R: Net>(
    rt: &R,
    alloc: Global,
    workers: usize,
) -> Result<Vec<Sight>, ServerFault> {
    let mut sights = Vec::new(alloc);
    for _ in 0..workers {
        let sight = match Sight::new(rt, alloc) {
            Ok(sight) => sight,
            Err(error) => return Err(fault_of(
                error.kind(),
                ServerFault::CannotListen(Reason::of(&error)),
            )),
        };
        if sights.push(sight).is_err() {
            return Err(ServerFault::Memory);
        }
    }
    Ok(sights)
}

/// Whether the settings name a file or pages for the evidence.
pub(crate) fn shows_evidence(settings: &Settings) -> bool {
    settings.evidence().is_some() || settings.http().is_some()
}

/// A fault of the reporter, as one of the machine.
fn fault_of_reporter(fault: ReporterFault) -> ServerFault {
    match fault {
        ReporterFault::NoThread => ServerFault::NoThread,
        ReporterFault::Memory => ServerFault::Memory,
    }
}

/// The addresses of the sources, as the settings have them.
fn addresses_of(alloc: Global, settings: &Settings) -> Result<Addresses, AllocError> {
    let mut texts = Vec::new(alloc);
    for master in settings.masters() {
        texts.push(String::from_str(alloc, master.address().as_str())?)?;
    }
    Ok(Addresses::new(texts))
}

/// The reporter, which gives pages if there is an address for them. Its threads are started here.
pub(crate) fn reporter_of<R>(
    rt: &R,
    alloc: Global,
    settings: &Settings,
    pages: Option<Pages>,
) -> Result<Reporter, ServerFault>
where
    R: Threads + Wait + SystemClock + Eprint + Disk + Journal + Net + Copy + Send + 'static,
{
    let path = match settings.status() {
        Some(path) => Some(path.as_str()),
        None => None,
    };
    let evidence = match settings.evidence() {
        Some(path) => Some(path.as_str()),
        None => None,
    };
    let Ok(addresses) = addresses_of(alloc, settings) else {
        return Err(ServerFault::Memory);
    };
    let form = settings.log();
    let mut reporter = match Reporter::start(rt, alloc, form, path, evidence, addresses) {
        Ok(reporter) => reporter,
        Err(fault) => return Err(fault_of_reporter(fault)),
    };
    if let Some(pages) = pages {
        if let Err(fault) = reporter.give_pages(rt, alloc, pages) {
            return Err(fault_of_reporter(fault));
        }
    }
    Ok(reporter)
}

/// The publications of a machine, none so far, with a reader for each worker.
pub(crate) fn publications_of<R: Wait>(
    rt: &R,
    alloc: Global,
    settings: &Settings,
) -> Result<(Teller, Vec<Watch>), ServerFault>
    ensures nothing { IfOk result (λ opened. opened.0.items ≡ []) }
    ensures count { IfOk result (λ opened. vec_len opened.1 ≡ settings.now.config.workers) }
    ensures watches { IfOk result (λ opened. All (λ watch. watch ≡ new_watch opened.0.source settings.now.config.drift) opened.1.items) }
{
    let config = settings.config();
    match open(rt, alloc, config.drift(), config.workers()) {
        Ok(opened) => Ok(opened),
        Err(fault) => Err(ServerFault::Publish(fault)),
    }
}

/// The state of the daemon's thread at its start, with a new daemon of this life.
pub(crate) fn poller_of<'a, R>(
    context: ThreadContext<'_, R>,
    settings: &'a Settings,
    polled: Polled<'a, R>,
    share: Shares,
) -> Poller<'a, R>
    requires first { 0 < context.server.now.life.epoch }
    ensures daemon { result.daemon ≡ new_daemon settings.now.machine context.entry.server.now.life.config context.entry.server.now.life.epoch }
    ensures configured { IsConfiguration context.entry.server.now.life.config }
    ensures wire { result.polled.link.hearing.wire ≡ polled.entry.link.hearing.wire }
    ensures shown { result.shown ≡ None }
    ensures broken { result.broken ≡ None }
{
    let server = context.server;
    let daemon = Daemon::new(settings.machine(), &server.life.config, server.life.epoch);
    let vmclock = match settings.vmclock() {
        Some(path) => Some(path.as_str()),
        None => None,
    };
    Poller::new(daemon, polled, share, vmclock)
}
