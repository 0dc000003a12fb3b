//! The service `ask`.

ghost use Rattle.std.specs.Prelude.{◌≡◌};
ghost use Rattle.ttd.specs.Asking.{ending_of, is_unheard, may_be_late, worse};

use crate::faults::ServiceFault;
use crate::lines::{Line, end, keep, read_line};
use crate::services::Stop;
use crate::showing::shown;
use std::fmt::Display;
use std::io::{self, Eprint, ErrorKind};
use std::net::{Ipv4Addr, Net, SocketAddr, TcpStream};
use std::os::fd::OwnedFd;
use std::os::unix::net::UnixStream;
use std::thread;
use std::time::{Clock as SystemClock, Duration};
use thiserror::Error;
use tt_clock::MachineClock;
use tt_host::Host;
use tt_live::{ExchangeFault, Meaning, Reply, exchange, meaning_of, refusal_in};
use tt_publish::Clock;
use tt_session::{Deadline, DeadlineReader, DeadlineWriter, Timed};
use tt_stream::{ByteReader, ByteWriter};
use ttd_words::{Peer, Status, explain, sentence_of, write};

/// The most times that one line is sent.
const MAX_ASKS: u32 = 10_000;

/// How long it waits for a connection, and for room to send a line, in seconds.
const LINK_WAIT: u64 = 30;

/// How long it waits for a whole reply, in nanoseconds. This is longer than a machine delays the reply to a commit.
const REPLY_WAIT: u64 = 30_000_000_000;

/// How long one read waits for bytes before the time is looked at, in milliseconds.
const READ_WAIT: u64 = 100;

/// How long it waits before it sends a line again while nothing is published, in milliseconds.
const PAUSE: u64 = 100;

/// Why no reply came. It is shown as a person reads it.
#[derive(Clone, Copy, Debug, Error)]
enum ReplyFault {
    #[error("no whole reply within 30 seconds")]
    Late,
    #[error("{0}")]
    Broken(ExchangeFault),
    #[error("the clock can't be read")]
    NoClock,
}

/// A connection to a machine, and how often a line is sent again while nothing is published.
#[derive(Drop)]
struct Link<'a> {
    peer: Peer<'a>,
    stream: TcpStream,
    retry: u64,
}

/// Says on standard error why a machine does not reply, behind its address or path.
fn say_unreached<H: Eprint, S: Display>(rt: &H, peer: Peer<'_>, why: &S) {
    let _ = match peer {
        Peer::Port(port) => eprint!(rt; "ttd: 127.0.0.1:{port}: {why}\n"),
        Peer::Path(path) => eprint!(rt; "ttd: {path}: {why}\n"),
    };
}

/// Whether nothing listens where a connection failed with an error of this kind.
fn is_unheard(kind: ErrorKind) -> bool
    ensures { result ≡ is_unheard kind }
{
    matches!(kind, ErrorKind::ConnectionRefused | ErrorKind::NotFound)
}

/// Says on standard error why there is no connection to an address or a path.
fn say_unconnected<H: Eprint>(rt: &H, peer: Peer<'_>, error: &io::Error) {
    if !is_unheard(error.kind()) {
        say_unreached(rt, peer, error);
        return;
    }
    let _ = match peer {
        Peer::Port(port) => eprint!(rt;
            "ttd: nothing answers at 127.0.0.1:{port}: {error}; does the machine run?\n"
        ),
        Peer::Path(path) => eprint!(rt;
            "ttd: nothing answers at {path}: {error}; does the machine run?\n"
        ),
    };
}

/// Sends lines to the machine at this address or Unix socket: the lines of `text`, or the lines of the input if there
/// is no text. It writes each reply as soon as it comes; a byte of it that is neither printable ASCII nor a line feed is
/// written as `\x` and two hexadecimal digits. Standard error says what a reply `refused N` means.
///
/// Refuses with 1501 `LinkFailed` where there is no connection, the connection failed, or no reply of at most 128 bytes
/// came in 30 seconds; and with 1604 `ReadFailed` where the input failed. Where a reply is `refused N`, the program ends
/// with status 2; else, where a reply is still `waiting`, with status 5.
pub(crate) fn ask<H: Host, I: ByteReader, O: ByteWriter>(
    rt: &H,
    peer: Peer<'_>,
    text: Option<&str>,
    retry: u64,
    input: &mut I,
    output: &mut O,
) -> Result<(), Stop> {
    let stream = match connect(rt, peer) {
        Ok(stream) => stream,
        Err(error) => {
            say_unconnected(rt, peer, &error);
            return Err(Stop::Refused(ServiceFault::LinkFailed));
        }
    };
    let link = Link {
        peer,
        stream,
        retry,
    };
    let ended = match text {
        Some(text) => ask_text(rt, &link, text, output)?,
        None => ask_input(rt, &link, input, output)?,
    };
    match ended {
        Status::Fine => Ok(()),
        other => Err(Stop::Told(other)),
    }
}

/// A connection to the machine there.
fn connect<H: Net<Stream = TcpStream>>(rt: &H, peer: Peer<'_>) -> io::Result<TcpStream> {
    let wait = Duration::from_secs(LINK_WAIT);
    let stream = match peer {
        Peer::Port(port) => {
            let address = SocketAddr::from((Ipv4Addr::LOCALHOST, port));
            let stream = TcpStream::connect_timeout(rt, &address, wait)?;
            stream.set_nodelay(true)?;
            stream
        }
        // The stream is used as a TCP stream, but only with calls that work on any stream socket.
        Peer::Path(path) => TcpStream::from(OwnedFd::from(UnixStream::connect(rt, path)?)),
    };
    stream.set_write_timeout(Some(wait))?;
    stream.set_read_timeout(Some(Duration::from_millis(READ_WAIT)))?;
    Ok(stream)
}

/// Sends the lines of a text. Answers how the program ends.
fn ask_text<H: AllocGlobal + SystemClock + Eprint, O: ByteWriter>(
    rt: &H,
    link: &Link<'_>,
    text: &str,
    output: &mut O,
) -> Result<Status, Stop> {
    let mut ended = Status::Fine;
    for part in text.split('\n') {
        let mut line = Line::new();
        for byte in part.as_bytes() {
            keep(&mut line, *byte);
        }
        end(&mut line);
        ended = worse(ended, ask_line(rt, link, &line, output)?);
    }
    Ok(ended)
}

/// Sends the lines of the input. Answers how the program ends.
fn ask_input<H: AllocGlobal + SystemClock + Eprint, I: ByteReader, O: ByteWriter>(
    rt: &H,
    link: &Link<'_>,
    input: &mut I,
    output: &mut O,
) -> Result<Status, Stop> {
    let mut ended = Status::Fine;
    for _ in 0..u64::MAX {
        let Ok(read) = read_line(input) else {
            let _ = eprint!(rt; "ttd: standard input can't be read\n");
            return Err(Stop::Refused(ServiceFault::ReadFailed));
        };
        let Some(mut line) = read else {
            break;
        };
        end(&mut line);
        ended = worse(ended, ask_line(rt, link, &line, output)?);
    }
    Ok(ended)
}

/// Of how the program ends after two lines, that which counts: a refused line before one that waits.
fn worse(one: Status, other: Status) -> Status
    ensures { result ≡ worse one other }
{
    match one {
        Status::Fine => other,
        Status::Pending if other == Status::Bad => other,
        _ => one,
    }
}

/// How the program ends after this last reply to a line.
fn ending_of(meaning: Meaning, refusal: Option<u64>) -> Status
    ensures { result ≡ ending_of meaning refusal }
{
    match (refusal, meaning) {
        (Some(_), _) => Status::Bad,
        (None, Meaning::Pending) => Status::Pending,
        (None, _) => Status::Fine,
    }
}

/// Sends one line, and writes its last reply, as [`shown`] has it. Answers how the program ends after it.
fn ask_line<H: AllocGlobal + SystemClock + Eprint, O: ByteWriter>(
    rt: &H,
    link: &Link<'_>,
    line: &[u8],
    output: &mut O,
) -> Result<Status, Stop> {
    let reply = match last_reply(rt, &link.stream, line, link.retry) {
        Ok(reply) => reply,
        Err(fault) => {
            say_unreached(rt, link.peer, &fault);
            return Err(Stop::Refused(ServiceFault::LinkFailed));
        }
    };
    let refusal = refusal_in(&reply);
    if let Some(number) = refusal {
        explain(rt, number, &sentence_of(number));
    }
    let text = match shown(rt.alloc(), &reply) {
        Ok(text) => text,
        Err(_) => return Err(Stop::Refused(ServiceFault::Memory)),
    };
    if write(output, text.as_slice()).is_err() {
        return Err(Stop::Unwritten);
    }
    Ok(ending_of(meaning_of(line, &reply), refusal))
}

/// Sends a line, and reads its reply. It sends the line again as long as the reply is the `waiting` of a commit, and at
/// most `retry` times while nothing is published, but at most [`MAX_ASKS`] times in all. Answers the last reply.
fn last_reply<H: SystemClock>(
    rt: &H,
    stream: &TcpStream,
    line: &[u8],
    retry: u64,
) -> Result<Reply, ReplyFault> {
    let mut left = retry;
    for _ in 1..MAX_ASKS {
        let reply = reply_to(rt, stream, line)?;
        match meaning_of(line, &reply) {
            Meaning::Final => return Ok(reply),
            Meaning::Pending => {}
            Meaning::NothingYet => {
                if left == 0 {
                    return Ok(reply);
                }
                left -= 1;
                thread::sleep(rt, Duration::from_millis(PAUSE));
            }
        }
    }
    reply_to(rt, stream, line)
}

/// Sends a line, and takes its reply, which has to come whole in 30 seconds.
fn reply_to<H: SystemClock>(rt: &H, stream: &TcpStream, line: &[u8]) -> Result<Reply, ReplyFault> {
    let mut clock = MachineClock::new(rt);
    let Ok(now) = clock.read() else {
        return Err(ReplyFault::NoClock);
    };
    let deadline = Deadline {
        at: now.saturating_add(REPLY_WAIT),
        tries: u32::MAX,
    };
    let mut writer = DeadlineWriter::new(Timed::new(stream), MachineClock::new(rt), deadline);
    let mut reader = DeadlineReader::new(Timed::new(stream), clock, deadline);
    match exchange(&mut reader, &mut writer, line) {
        Ok(reply) => Ok(reply),
        Err(fault) if may_be_late(fault) => match MachineClock::new(rt).read() {
            Ok(after) if after < deadline.at => Err(ReplyFault::Broken(fault)),
            Ok(_) => Err(ReplyFault::Late),
            Err(_) => Err(ReplyFault::NoClock),
        },
        Err(fault) => Err(ReplyFault::Broken(fault)),
    }
}

/// Whether this fault also comes where the time is over: a line that can't be sent, or a read that fails.
fn may_be_late(fault: ExchangeFault) -> bool
    ensures { result ≡ may_be_late fault }
{
    matches!(fault, ExchangeFault::Unsent | ExchangeFault::Failed)
}
