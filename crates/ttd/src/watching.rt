//! The service `top`: what a machine sees, drawn once or twice a second.

use crate::faults::ServiceFault;
use crate::services::Stop;
use crate::serving::settings_of;
use std::alloc::{AllocError, AllocFailed, Global};
use std::fs::{self, File, Files};
use std::io::{self, Eprint, IsTerminal, Read, Write};
use std::net::{Ipv4Addr, Net, SocketAddr, TcpStream};
use std::os::unix::fs::MetadataExt;
use std::rt::Env;
use std::sync::Arc;
use std::sync::atomic::{AtomicBool, Ordering};
use std::time::{Clock as SystemClock, Duration};
use std::{env, thread};
use tt_clock::MachineClock;
use tt_host::{ByClock, Host, ServiceHost, nanoseconds};
use tt_publish::Clock;
use tt_session::{Deadline, DeadlineReader, Timed};
use tt_settings::{Key, SettingsFault};
use tt_stream::{ByteWriter, ReadFault, read_to_end};
use tt_top::{Form, MAX_COLUMNS, Past, View, ViewFault, lines_of, push_svg, push_view, read_view};
use ttd_masters::{StartFault, bytes_of};
use ttd_words::{TopPlace, write};

/// The pause between two looks, in milliseconds.
const PAUSE: u64 = 500;

/// How long it waits for a connection, and then for the whole of an answer, in seconds.
const LINK_WAIT: u64 = 5;

/// A second, in nanoseconds.
const SECOND: u64 = 1_000_000_000;

/// The most bytes of an answer: 1 MiB.
const MOST_ANSWER: usize = 1_048_576;

/// The columns of a picture where nothing says how many there are.
const DEFAULT_COLUMNS: u64 = 80;

/// After how long a source is called silent where the configuration is not known, in nanoseconds.
const SILENT_AFTER: u64 = 10_000_000_000;

/// What moves the cursor of a terminal to the beginning, and clears the screen.
const CLEAR: &str = "\x1b[H\x1b[2J";

/// What is shown while there is no view.
const NOTHING: &str = "\x1b[H\x1b[2Jno status can be read\n";

/// Where the program prints to, and what it is told there.
pub(crate) trait Screen {
    /// Whether standard output is a terminal.
    fn is_terminal(&self) -> bool;

    /// Waits until a line of standard input begins with `q`. Answers whether one does: else the input has ended, or fails.
    fn waits_for_end(&self) -> bool;
}

impl Screen for HostRuntime {
    fn is_terminal(&self) -> bool {
        self.stdout().is_terminal()
    }

    fn waits_for_end(&self) -> bool {
        let mut input = self.reader();
        let mut buffer = [0; 64];
        let mut begins = true;
        for _ in 0..u64::MAX {
            let count = match input.read(&mut buffer) {
                Ok(count) if count > 0 => count.min(64),
                _ => return false,
            };
            for byte in &buffer[..count] {
                if begins && *byte == b'q' {
                    return true;
                }
                begins = *byte == b'\n';
            }
        }
        false
    }
}

impl<R: Screen> Screen for ByClock<R> {
    fn is_terminal(&self) -> bool {
        self.handle().is_terminal()
    }

    fn waits_for_end(&self) -> bool {
        self.handle().waits_for_end()
    }
}

/// How a machine is shown.
#[derive(Clone, Copy)]
pub(crate) struct Manner {
    /// Whether it is shown once.
    pub(crate) once: bool,
    /// Whether it is drawn once, as SVG.
    pub(crate) svg: bool,
    /// How many columns there are, if that was given.
    pub(crate) columns: Option<u64>,
}

/// Where the texts of a machine are.
#[derive(Drop)]
enum Origin {
    /// In the files with these paths. Without a path there is no evidence.
    Files {
        status: String,
        evidence: Option<String>,
    },
    /// At this port of 127.0.0.1.
    Port(u16),
}

/// What is shown, after how long a source is called silent, and the widest reading that clients are given, if that is known,
/// in nanoseconds.
#[derive(Drop)]
struct Sight {
    origin: Origin,
    silent_after: u64,
    max_width: Option<u64>,
}

/// The text of a status, and that of the evidence, which is empty where there is none.
#[derive(Drop)]
struct Texts {
    status: Vec<u8>,
    evidence: Vec<u8>,
}

/// Why a machine can't be shown.
#[derive(Drop)]
enum LookFault {
    /// There is no connection to the port, or nothing can be asked over it, for this reason of the system.
    Link(io::Error),
    /// The whole answer did not come.
    Answer(ReadFault),
    /// The answer is not one of HTTP with the status 200.
    Code,
    /// There are no bytes of the file with the status.
    Status(StartFault),
    /// What is read shows no machine.
    View(ViewFault),
    /// Out of memory: an allocation failed.
    Memory,
}

impl LookFault {
    /// What the service refuses with.
    fn refusal(&self) -> ServiceFault {
        match self {
            LookFault::Link(_) | LookFault::Answer(_) | LookFault::Code => ServiceFault::LinkFailed,
            LookFault::Status(fault) => ServiceFault::from(*fault),
            LookFault::View(fault) => ServiceFault::View(*fault),
            LookFault::Memory => ServiceFault::Memory,
        }
    }
}

impl From<io::Error> for LookFault {
    fn from(error: io::Error) -> LookFault {
        LookFault::Link(error)
    }
}

impl From<ViewFault> for LookFault {
    fn from(fault: ViewFault) -> LookFault {
        match fault {
            ViewFault::Memory => LookFault::Memory,
            other => LookFault::View(other),
        }
    }
}

impl From<AllocError> for LookFault {
    fn from(_error: AllocError) -> LookFault {
        LookFault::Memory
    }
}

impl<T: Drop> From<AllocFailed<T>> for LookFault {
    fn from(_error: AllocFailed<T>) -> LookFault {
        LookFault::Memory
    }
}

/// Says on standard error why a machine can't be shown, behind the address or the path.
fn say<H: Eprint>(rt: &H, origin: &Origin, fault: &LookFault) {
    let _ = match origin {
        Origin::Port(port) => match fault {
            LookFault::Link(error) => eprint!(rt; "ttd: 127.0.0.1:{port}: {error}\n"),
            LookFault::Answer(ReadFault::TooLong) => {
                eprint!(rt; "ttd: 127.0.0.1:{port}: the answer is longer than 1048576 bytes\n")
            }
            LookFault::Answer(_) => {
                eprint!(rt;
                    "ttd: 127.0.0.1:{port}: the answer does not end, or none comes in {LINK_WAIT} seconds\n"
                )
            }
            LookFault::Code => eprint!(rt;
                "ttd: 127.0.0.1:{port}: no answer of HTTP with the status 200\n"
            ),
            LookFault::View(fault) => eprint!(rt; "ttd: 127.0.0.1:{port}: {fault}\n"),
            _ => Ok(()),
        },
        Origin::Files { status, evidence } => match fault {
            LookFault::Status(StartFault::BadFile) => {
                eprint!(rt; "ttd: {status}: it is longer than 1048576 bytes\n")
            }
            LookFault::Status(StartFault::ReadFailed(reason)) => {
                eprint!(rt; "ttd: {status}: the status can't be read: {reason}\n")
            }
            LookFault::View(ViewFault::NotEvidence) => match evidence {
                Some(path) => eprint!(rt;
                    "ttd: {path}: the text is not the evidence of a publication\n"
                ),
                None => Ok(()),
            },
            LookFault::View(fault) => eprint!(rt; "ttd: {status}: {fault}\n"),
            _ => Ok(()),
        },
    };
}

/// What is kept from one look to the next.
#[derive(Drop)]
struct Looks {
    /// The widths of the looks before, the oldest first, in nanoseconds.
    widths: Vec<u64>,
    past: Past,
    /// How many rounds there were, and the reading of the monotonic clock at the first look that saw as many.
    rounds: Option<u64>,
    since: u64,
}

impl Looks {
    /// No look was made so far.
    fn new<H: Host>(rt: &H) -> Looks {
        let now = monotonic_of(rt);
        Looks {
            widths: Vec::new(rt.alloc()),
            past: Past::new(now),
            rounds: None,
            since: now,
        }
    }

    /// A look is made when the monotonic clock shows `now`.
    fn see(&mut self, view: &View, now: u64) -> Result<(), AllocError> {
        if self.rounds.is_none() {
            self.past = Past::new(now);
        }
        self.past.see(view, now);
        if self.rounds != Some(view.life.rounds) {
            self.rounds = Some(view.life.rounds);
            self.since = now;
        }
        if let Some(width) = view.width {
            if self.widths.len() as u64 >= MAX_COLUMNS {
                let _ = self.widths.remove(0);
            }
            self.widths.push(width)?;
        }
        Ok(())
    }
}

/// What the monotonic clock shows, in nanoseconds; 0 if it can't be read.
fn monotonic_of<H: Host>(rt: &H) -> u64 {
    MachineClock::new(rt).read().unwrap_or(0)
}

/// The time in nanoseconds since 1970; 0 if it can't be read.
fn time_of<H: SystemClock>(rt: &H) -> u64 {
    match rt.since_1970() {
        Ok(elapsed) => nanoseconds(elapsed).unwrap_or(u64::MAX),
        Err(_) => 0,
    }
}

/// Shows what a machine sees: twice a second until the program is ended or a line of standard input begins with `q`, or once. What can't be had at a later look is
/// tried again at the next one. Standard error says what a refusal is about: an address or a path.
///
/// Refuses as `serve` does where the configuration is refused, with 1803 where it names no `status`, with 1604 `ReadFailed`
/// where the status can't be read, with 1501 `LinkFailed` where nothing answers with it, with 2601 and 2602 where what is
/// read is not the status or the evidence of a machine, and with 1 `Memory`. With neither `once` nor `svg` it refuses the
/// configuration alone.
pub(crate) fn show<H: ServiceHost + Env + Screen, O: ByteWriter>(
    rt: &H,
    place: TopPlace<'_>,
    manner: Manner,
    output: &mut O,
) -> Result<(), Stop> {
    let sight = sight_of(rt, place)?;
    let form = Form {
        columns: manner.columns.unwrap_or(columns_of(rt)),
        ascii: manner.svg || !is_utf8(rt),
        colour: !manner.svg && is_coloured(rt),
        silent_after: sight.silent_after,
        max_width: sight.max_width,
        age: None,
        time: 0,
    };
    if !manner.once && !manner.svg {
        return show_on(rt, &sight.origin, &form, output);
    }
    match draw_once(rt, &sight.origin, &form, manner.svg) {
        Ok(text) => write(output, text.as_str().as_bytes()).map_err(|_| Stop::Unwritten),
        Err(fault) => {
            say(rt, &sight.origin, &fault);
            Err(Stop::Refused(fault.refusal()))
        }
    }
}

/// Draws a machine again and again. It ends where a line of standard input begins with `q`, or where the output fails.
fn show_on<H: ServiceHost + Env + Screen, O: ByteWriter>(
    rt: &H,
    origin: &Origin,
    form: &Form,
    output: &mut O,
) -> Result<(), Stop> {
    let ended = Arc::new(rt.alloc(), AtomicBool::new(false)).map_err(|_| memory())?;
    start_input(rt, &ended);
    let lines = number_in(rt, "LINES").unwrap_or(u64::MAX);
    let mut looks = Looks::new(rt);
    for _look in 0..u64::MAX {
        let did = match draw_next(rt, origin, form, &mut looks) {
            Ok(text) => {
                let bytes = text.as_str().as_bytes();
                write(output, &bytes[..lines_of(bytes, lines)])
            }
            Err(_) => write(output, NOTHING.as_bytes()),
        };
        if did.is_err() {
            return Err(Stop::Unwritten);
        }
        thread::sleep(rt, Duration::from_millis(PAUSE));
        if ended.load(Ordering::SeqCst) {
            break;
        }
    }
    Ok(())
}

/// What is refused where an allocation fails.
fn memory() -> Stop {
    Stop::Refused(ServiceFault::Memory)
}

/// Starts the thread that reads standard input. It is never joined. Without it, only the end of the program ends a picture.
fn start_input<H: ServiceHost + Screen>(rt: &H, ended: &Arc<AtomicBool, Global>) {
    let rt = *rt;
    let Ok(theirs) = Arc::try_clone(ended) else {
        return;
    };
    let _ = thread::spawn(&rt, move || {
        if rt.waits_for_end() {
            theirs.store(true, Ordering::SeqCst)
        }
    });
}

/// One look, as text or as SVG.
fn draw_once<H: Host>(
    rt: &H,
    origin: &Origin,
    form: &Form,
    svg: bool,
) -> Result<String, LookFault> {
    let view = view_of(rt, origin)?;
    let mut text = String::new(rt.alloc());
    let form = form_at(rt, origin, form, None);
    let mut past = Past::new(0);
    past.see(&view, 0);
    if svg {
        push_svg(&mut text, &view, &form, &[view.width.unwrap_or(0)])?;
    } else {
        push_view(&mut text, &view, &form, &[], &past)?;
    }
    Ok(text)
}

/// One look of many, on a clear screen.
fn draw_next<H: Host>(
    rt: &H,
    origin: &Origin,
    form: &Form,
    looks: &mut Looks,
) -> Result<String, LookFault> {
    let view = view_of(rt, origin)?;
    let now = monotonic_of(rt);
    looks.see(&view, now)?;
    let form = form_at(rt, origin, form, Some(now.saturating_sub(looks.since)));
    let mut text = String::from_str(rt.alloc(), CLEAR)?;
    push_view(
        &mut text,
        &view,
        &form,
        looks.widths.as_slice(),
        &looks.past,
    )?;
    Ok(text)
}

/// How a view is drawn now: with the age of the file that it is from, or that at an address since the first look that saw it,
/// and with the time.
fn form_at<H: Host>(rt: &H, origin: &Origin, form: &Form, seen: Option<u64>) -> Form {
    let age = match origin {
        Origin::Files { status, .. } => age_of(rt, status.as_str()),
        Origin::Port(_) => seen,
    };
    Form {
        columns: form.columns,
        ascii: form.ascii,
        colour: form.colour,
        silent_after: form.silent_after,
        max_width: form.max_width,
        age,
        time: time_of(rt),
    }
}

/// How long ago the file with this path was written, in nanoseconds: 0 where its time is ahead. None where that can't be seen.
fn age_of<H: Files<File = File> + SystemClock>(rt: &H, path: &str) -> Option<u64> {
    let metadata = fs::metadata(rt, path).ok()?;
    let seconds = u64::try_from(metadata.mtime()).ok()?;
    let nanos = u64::try_from(metadata.mtime_nsec()).ok()?;
    let written = seconds.saturating_mul(SECOND).saturating_add(nanos);
    let now = nanoseconds(rt.since_1970().ok()?)?;
    Some(now.saturating_sub(written))
}

/// What the texts of a machine show now.
fn view_of<H: Host>(rt: &H, origin: &Origin) -> Result<View, LookFault> {
    let texts = texts_of(rt, origin)?;
    let view = read_view(
        rt.alloc(),
        texts.status.as_slice(),
        texts.evidence.as_slice(),
    )?;
    Ok(view)
}

/// Where the texts of a machine are, and after how long a source is called silent.
fn sight_of<H: AllocGlobal + Files<File = File> + Eprint>(
    rt: &H,
    place: TopPlace<'_>,
) -> Result<Sight, ServiceFault> {
    match place {
        TopPlace::Port(port) => Ok(Sight {
            origin: Origin::Port(port),
            silent_after: SILENT_AFTER,
            max_width: None,
        }),
        TopPlace::File(path) => sight_in(rt, path),
    }
}

/// The files that the configuration with this path names. A source is called silent after three rounds.
fn sight_in<H: AllocGlobal + Files<File = File> + Eprint>(
    rt: &H,
    path: &str,
) -> Result<Sight, ServiceFault> {
    let settings = settings_of(rt, rt.alloc(), path)?;
    let Some(status) = settings.status() else {
        let _ = eprint!(rt;
            "ttd: {path}: status: nothing is shown without the path of a file here\n"
        );
        let fault = SettingsFault::MissingKey(Key::Status);
        return Err(ServiceFault::Settings(fault));
    };
    let evidence = match settings.evidence() {
        Some(evidence) => Some(String::from_str(rt.alloc(), evidence.as_str())?),
        None => {
            let _ = eprint!(rt;
                "ttd: {path}: evidence: there are no bars without the path of a file here\n"
            );
            None
        }
    };
    let pauses = settings.pauses();
    let round = pauses.poll.saturating_add(pauses.wait);
    let status = String::from_str(rt.alloc(), status.as_str())?;
    Ok(Sight {
        origin: Origin::Files { status, evidence },
        silent_after: round.saturating_mul(3),
        max_width: settings.max_width(),
    })
}

/// The texts of a machine now.
fn texts_of<H: Host>(rt: &H, origin: &Origin) -> Result<Texts, LookFault> {
    match origin {
        Origin::Files { status, evidence } => {
            let status = match bytes_of(rt, rt.alloc(), status.as_str()) {
                Ok(bytes) => bytes,
                Err(StartFault::Memory) => return Err(LookFault::Memory),
                Err(fault) => return Err(LookFault::Status(fault)),
            };
            let evidence = match evidence {
                Some(path) => match bytes_of(rt, rt.alloc(), path.as_str()) {
                    Ok(bytes) => bytes,
                    Err(_) => Vec::new(rt.alloc()),
                },
                None => Vec::new(rt.alloc()),
            };
            Ok(Texts { status, evidence })
        }
        Origin::Port(port) => {
            let status = fetch(rt, *port, b"GET /metrics HTTP/1.0\r\n\r\n")?;
            let evidence = match fetch(rt, *port, b"GET /evidence HTTP/1.0\r\n\r\n") {
                Ok(bytes) => bytes,
                Err(_) => Vec::new(rt.alloc()),
            };
            Ok(Texts { status, evidence })
        }
    }
}

/// The body of what this host answers to a request at this port, if its status is 200.
fn fetch<H: AllocGlobal + Net<Stream = TcpStream> + SystemClock>(
    rt: &H,
    port: u16,
    request: &[u8],
) -> Result<Vec<u8>, LookFault> {
    let wait = Duration::from_secs(LINK_WAIT);
    let address = SocketAddr::from((Ipv4Addr::LOCALHOST, port));
    let mut stream = TcpStream::connect_timeout(rt, &address, wait)?;
    stream.set_read_timeout(Some(wait))?;
    stream.set_write_timeout(Some(wait))?;
    stream.write_all(request)?;
    let mut clock = MachineClock::new(rt);
    let Ok(now) = clock.read() else {
        return Err(LookFault::Answer(ReadFault::Failed));
    };
    let deadline = Deadline {
        at: now.saturating_add(LINK_WAIT * 1_000_000_000),
        tries: u32::MAX,
    };
    let mut reader = DeadlineReader::new(Timed::new(&stream), clock, deadline);
    match read_to_end(rt.alloc(), &mut reader, MOST_ANSWER, MOST_ANSWER as u32 + 2) {
        Ok(answer) => body_of(rt.alloc(), answer.as_slice()),
        Err(ReadFault::Memory) => Err(LookFault::Memory),
        Err(fault) => Err(LookFault::Answer(fault)),
    }
}

/// The body of an answer with the status 200.
fn body_of(alloc: Global, answer: &[u8]) -> Result<Vec<u8>, LookFault> {
    if !answer.starts_with(b"HTTP/1.0 200") && !answer.starts_with(b"HTTP/1.1 200") {
        return Err(LookFault::Code);
    }
    for (at, _byte) in answer.iter().enumerate() {
        if answer[at..].starts_with(b"\r\n\r\n") {
            let body = &answer[at..];
            return Ok(Vec::from_slice(alloc, &body[4..])?);
        }
    }
    Err(LookFault::Code)
}

/// The number that a variable of the environment is, if it is one.
fn number_in<H: AllocGlobal + Env>(rt: &H, name: &str) -> Option<u64> {
    match env::var(rt, name) {
        Ok(text) => text.as_str().parse::<u64>().ok(),
        Err(_) => None,
    }
}

/// The columns of the terminal, as the environment has them.
fn columns_of<H: AllocGlobal + Env>(rt: &H) -> u64 {
    number_in(rt, "COLUMNS").unwrap_or(DEFAULT_COLUMNS)
}

/// Whether the picture has colours: on a terminal, unless NO_COLOR is set and not empty.
fn is_coloured<H: AllocGlobal + Env + Screen>(rt: &H) -> bool {
    let is_plain = match env::var(rt, "NO_COLOR") {
        Ok(text) => !text.as_str().is_empty(),
        Err(_) => false,
    };
    rt.is_terminal() && !is_plain
}

/// Whether the first of these variables that is set and not empty names UTF-8.
fn is_utf8<H: AllocGlobal + Env>(rt: &H) -> bool {
    for name in ["LC_ALL", "LC_CTYPE", "LANG"] {
        if let Ok(text) = env::var(rt, name) {
            if !text.as_str().is_empty() {
                return names_utf8(text.as_str());
            }
        }
    }
    false
}

/// Whether the name of a locale says that its characters are UTF-8.
fn names_utf8(name: &str) -> bool {
    name.ends_with("UTF-8")
        || name.ends_with("utf-8")
        || name.ends_with("UTF8")
        || name.ends_with("utf8")
}
