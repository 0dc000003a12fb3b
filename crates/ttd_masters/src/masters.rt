//! The service `master`.

ghost use Rattle.std.specs.Prelude.{◌≡◌, ◌≤◌, IfOk};
ghost use Rattle.tt_poll.specs.Message.{max_source};

use crate::clocks::RealTime;
use crate::faults::StartFault;
use crate::following::servers_of;
use crate::hosts::AsksServers;
use crate::key_files::{KeyFile, say_refusal};
use crate::links::AnsweringLink;
use crate::pauses::{FIRST_PAUSE, Looks, next_pause};
use crate::players::{Acting, Honest, Player, take_turn};
use crate::references::{DeviceTime, KnownTime, StatedTime};
use crate::sealed_masters::{Sealed, answer_sealed};
use crate::standing::open_status;
use crate::telling::told_by;
use std::alloc::{AllocError, Global};
use std::fs::{File, Files};
use std::io::{self, Eprint, ErrorKind};
use std::net::{Net, SocketAddr, TcpListener, UdpSocket};
use std::sync::Wait;
use std::thread;
use std::time::{Clock as SystemClock, Duration};
use tt_files::Reason;
use tt_host::{DeviceClock, Host, ServiceHost};
use tt_keys::KeysFault;
use tt_master::{Act, Master, Silence, SpanMaster};
use tt_poll::MAX_SOURCE;
use tt_report::{Addresses, Disk, Journal, MasterPages, Reporter, ReporterFault};
use tt_seal::Key;
use tt_span::{Drift, MAX_TIME};
use tt_status::{LogEvent, LogFormat};
use ttd_words::MasterTime;

/// How long a master waits for a packet before it looks at its file of keys, in milliseconds.
const READ_WAIT: u64 = 1_000;

/// The nanoseconds of a millisecond.
const MILLI: u64 = 1_000_000;

/// What a master has to do.
#[derive(Clone, Copy)]
pub struct MasterPlan<'a> {
    /// The number of the source that it is.
    pub source: u64,
    /// The address at which it is polled.
    pub listen: SocketAddr,
    /// What its answers stand on.
    pub time: &'a MasterTime<'a>,
    /// The width of an answer in nanoseconds above which its log warns, if there is one.
    pub warn_width: Option<u64>,
    /// The form of its log.
    pub log: LogFormat,
    /// The path of its file of keys. None: it answers open polls of this host.
    pub keys: Option<&'a str>,
    /// The path of its status file. None: it writes none.
    pub status: Option<&'a str>,
    /// The address of its pages over HTTP. None: it has none.
    pub http: Option<SocketAddr>,
}

impl<'a> MasterPlan<'a> {
    /// Whether it shows its status somewhere.
    pub(crate) fn shows_itself(&self) -> bool {
        self.status.is_some() || self.http.is_some()
    }
}

/// Answers polls until the process is ended: by a clock of this computer, or by what NTP servers say. Where acts were given, it
/// does one act for each poll that comes, in their order, and the last one for all further polls; they are for tests. A failure
/// of the link or of the clock is logged, and it goes on after a pause. The log and the status are written, and pages are given,
/// by threads of their own, for which no poll waits.
///
/// It measures by the monotonic clock of `rt`, which has to be one that nobody slews: `CLOCK_MONOTONIC_RAW`
/// ([`ByClock`](tt_host::ByClock)).
///
/// With a file of keys it answers polls from any address that are sealed under one of the keys, each under the key of the
/// poll, and nothing else. Without one it answers open polls of this host.
///
/// Refuses with 1601 `BadPlan` where the source is above [`MAX_SOURCE`] or the uncertainty is above [`MAX_TIME`]; with 2211
/// to 2216 or 1 where the file of keys is refused; with 1830 `CannotServePages` where the address of its pages can't be listened
/// at, and standard error says which; with 1816 or 1 where a thread can't be started; with what refuses the NTP
/// servers ([`servers_of`]); with 1604 `ReadFailed` where the hardware clock can't be opened; and with 1501 `CannotListen` where
/// the socket can't be opened, unless its address is not up.
pub fn serve_polls<H: ServiceHost + Disk + Journal + AsksServers>(
    rt: &H,
    plan: MasterPlan<'_>,
) -> Result<(), StartFault> {
    let Some(path) = plan.keys else {
        return serve_open(rt, plan);
    };
    let mut file = KeyFile::new(path);
    let keys = first_keys(rt, &mut file, path)?;
    serve_sealed(rt, plan, file, keys)
}

/// Answers open polls, until the process is ended.
fn serve_open<H: ServiceHost + Disk + Journal + AsksServers>(
    rt: &H,
    plan: MasterPlan<'_>,
) -> Result<(), StartFault> {
    let reporter = reporter_of(rt, &plan)?;
    let mut player = player_of(rt, &reporter, &plan)?;
    let socket = begin(rt, &reporter, &plan)?;
    let link = AnsweringLink::new(socket, false);
    answer_open(rt, &reporter, &plan, link, &mut player)
}

/// Answers polls that are sealed under one of these keys, the first of this file, until the process is ended.
fn serve_sealed<H: ServiceHost + Disk + Journal + AsksServers>(
    rt: &H,
    plan: MasterPlan<'_>,
    file: KeyFile<'_>,
    keys: Vec<Key>,
) -> Result<(), StartFault> {
    let reporter = reporter_of(rt, &plan)?;
    let mut player = player_of(rt, &reporter, &plan)?;
    let socket = begin(rt, &reporter, &plan)?;
    let link = AnsweringLink::new(socket, true);
    let sealed = Sealed::new(rt, link, file, keys)?;
    answer_sealed(rt, &reporter, &plan, sealed, &mut player)
}

/// The master of this number.
fn source_of(plan: &MasterPlan<'_>) -> Result<u8, StartFault>
    ensures { IfOk result (λ source. (source ≡ plan.now.source) × (source ≤ max_source)) }
{
    if plan.source > u64::from(MAX_SOURCE) {
        return Err(StartFault::BadPlan);
    }
    Ok(plan.source as u8)
}

/// How the master answers polls: honestly, unless other acts were given.
fn player_of<'a, H: ServiceHost + AsksServers>(
    rt: &'a H,
    reporter: &'a Reporter,
    plan: &MasterPlan<'a>,
) -> Result<Player<'a, H>, StartFault> {
    let source = source_of(plan)?;
    match plan.time {
        MasterTime::Stated {
            uncertainty,
            drift,
            offset,
            acts,
        } => {
            if *uncertainty > MAX_TIME {
                return Err(StartFault::BadPlan);
            }
            if acts.as_slice() != [Act::Honest].as_slice() {
                let clock = RealTime::new(rt, *offset);
                let master = Master::new(source, *uncertainty, clock);
                return Ok(Player::Acting(Acting::new(master, acts.as_slice())));
            }
            let known = KnownTime::Stated(StatedTime::new(rt, *offset, *uncertainty, *drift));
            Ok(honest(source, known, plan.warn_width))
        }
        MasterTime::Device {
            path,
            tai_offset,
            uncertainty,
            drift,
        } => {
            let known = device_at(rt, *path, *tai_offset, *uncertainty, *drift)?;
            Ok(honest(source, known, plan.warn_width))
        }
        MasterTime::Ntp(time) => {
            let known = servers_of(rt, reporter, time)?;
            Ok(honest(source, known, plan.warn_width))
        }
    }
}

/// The hardware clock at this path. If it can't be opened, standard error says why.
fn device_at<'a, H: SystemClock + Files<File = File> + Eprint>(
    rt: &'a H,
    path: &str,
    tai_offset: u64,
    uncertainty: u64,
    drift: Drift,
) -> Result<KnownTime<'a, H>, StartFault> {
    if uncertainty > MAX_TIME {
        return Err(StartFault::BadPlan);
    }
    match DeviceClock::open(rt, path) {
        Ok(clock) => {
            let known = DeviceTime::new(rt, clock, tai_offset, uncertainty, drift);
            Ok(KnownTime::Device(known))
        }
        Err(error) => {
            let fault = StartFault::ReadFailed(Reason::of(&error));
            let _ = eprint!(rt; "ttd: {path}: {fault}\n");
            Err(fault)
        }
    }
}

/// A master that answers what it knows.
fn honest<'a, H: Wait + SystemClock + AsksServers>(
    source: u8,
    known: KnownTime<'a, H>,
    warn_width: Option<u64>,
) -> Player<'a, H>
    requires source_in { source ≤ max_source }
{
    Player::Honest(Honest::new(SpanMaster::new(source, known), warn_width))
}

/// The keys of the file at this path. If they are refused, standard error says why, and at which line.
fn first_keys<H: Files<File = File> + Eprint + AllocGlobal>(
    rt: &H,
    file: &mut KeyFile<'_>,
    path: &str,
) -> Result<Vec<Key>, StartFault> {
    match file.look(rt, rt.alloc()) {
        Ok(Some(keys)) => Ok(keys),
        Ok(None) => Ok(Vec::new(rt.alloc())),
        Err(KeysFault::Memory) => Err(StartFault::Memory),
        Err(fault) => {
            say_refusal(rt, path, fault);
            Err(StartFault::Keys(fault))
        }
    }
}

/// The addresses of the servers that a master asks.
fn addresses_of(alloc: Global, time: &MasterTime<'_>) -> Result<Addresses, AllocError> {
    let mut texts = Vec::new(alloc);
    if let MasterTime::Ntp(asked) = time {
        for address in &asked.servers {
            texts.push(format!(in alloc; "{address}")?)?;
        }
    }
    Ok(Addresses::new(texts))
}

/// A fault of the reporter, as one of the master.
fn fault_of_reporter(fault: ReporterFault) -> StartFault {
    match fault {
        ReporterFault::NoThread => StartFault::NoThread,
        ReporterFault::Memory => StartFault::Memory,
    }
}

/// Where pages are given, if there is an address for them. If it can't be listened at, standard error says why.
fn pages_of<H: Host>(rt: &H, plan: &MasterPlan<'_>) -> Result<Option<MasterPages>, StartFault> {
    let Some(address) = plan.http else {
        return Ok(None);
    };
    match TcpListener::bind(rt, address) {
        Ok(listener) => Ok(Some(MasterPages {
            listener,
            is_open: !address.ip().is_loopback(),
        })),
        Err(error) => {
            let fault = StartFault::CannotServePages(address, Reason::of(&error));
            let _ = eprint!(rt; "ttd: {address}: {fault}\n");
            Err(fault)
        }
    }
}

/// The reporter of a master, which gives pages if there is an address for them.
fn reporter_of<H: ServiceHost + Disk + Journal>(
    rt: &H,
    plan: &MasterPlan<'_>,
) -> Result<Reporter, StartFault> {
    let pages = pages_of(rt, plan)?;
    let addresses = addresses_of(rt.alloc(), plan.time)?;
    let started = Reporter::start(rt, rt.alloc(), plan.log, plan.status, None, addresses);
    let mut reporter = started.map_err(fault_of_reporter)?;
    if let Some(pages) = pages {
        let given = reporter.give_master_pages(rt, rt.alloc(), pages);
        given.map_err(fault_of_reporter)?;
    }
    Ok(reporter)
}

/// Why the master answers no poll, if it does not and has pages that say it.
pub(crate) fn look<H: Wait + SystemClock + AsksServers>(
    rt: &H,
    reporter: &Reporter,
    plan: &MasterPlan<'_>,
    player: &mut Player<'_, H>,
) -> Option<Silence> {
    match (plan.http, source_of(plan)) {
        (Some(_), Ok(source)) => player.look(rt, reporter, source),
        _ => None,
    }
}

/// The socket of a master, whose start is logged.
fn begin<H: Wait + SystemClock + Net>(
    rt: &H,
    reporter: &Reporter,
    plan: &MasterPlan<'_>,
) -> Result<UdpSocket, StartFault> {
    let socket = socket_at(rt, reporter, plan.listen)?;
    let port = match port_of(&socket) {
        Ok(port) => u64::from(port),
        Err(error) => return Err(StartFault::CannotListen(plan.listen, Reason::of(&error))),
    };
    let source = plan.source;
    reporter.log(rt, LogEvent::MasterStarted { source, port });
    Ok(socket)
}

/// The port of a socket, whose receipts wait for [`READ_WAIT`] from now on.
fn port_of(socket: &UdpSocket) -> io::Result<u16> {
    socket.set_read_timeout(Some(Duration::from_millis(READ_WAIT)))?;
    Ok(socket.local_addr()?.port())
}

/// A socket at this address. An address that is not up yet is tried again, with growing pauses, and logged.
fn socket_at<H: Wait + SystemClock + Net>(
    rt: &H,
    reporter: &Reporter,
    listen: SocketAddr,
) -> Result<UdpSocket, StartFault> {
    let mut pause = FIRST_PAUSE;
    for _ in rt.forever() {
        match UdpSocket::bind(rt, listen) {
            Ok(socket) => return Ok(socket),
            Err(error) if error.kind() == ErrorKind::AddrNotAvailable => {
                let nanos = pause.saturating_mul(MILLI);
                reporter.log(rt, LogEvent::AddressAwaited { pause: nanos });
                thread::sleep(rt, Duration::from_millis(pause));
                pause = next_pause(pause);
            }
            Err(error) => return Err(StartFault::CannotListen(listen, Reason::of(&error))),
        }
    }
    unreachable!()
}

/// Answers open polls of this host, and never ends. If there is a status file or an address for pages, it shows its status about
/// once a second.
fn answer_open<H: Wait + SystemClock + AsksServers + AllocGlobal>(
    rt: &H,
    reporter: &Reporter,
    plan: &MasterPlan<'_>,
    link: AnsweringLink,
    player: &mut Player<'_, H>,
) -> Result<(), StartFault> {
    let mut link = link;
    let mut looks = Looks::new(rt);
    for _ in rt.forever() {
        take_turn(rt, reporter, &mut link, player);
        if plan.shows_itself() && looks.is_due() {
            let silence = look(rt, reporter, plan, player);
            if let Ok(told) = told_by(rt, player) {
                let status = open_status(rt.alloc(), plan.source, link.answers(), told);
                reporter.show_master(rt, rt.alloc(), status, silence);
            }
        }
    }
    unreachable!()
}
