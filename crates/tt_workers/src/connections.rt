//! What a worker keeps of a connection beside its session, what comes of it, and what of that one turn hears.

ghost use Rattle.std.specs.Prelude.{◌≡◌, ◌<◌, ◌≤◌, length, take, IfOk};
ghost use Rattle.std.specs.Io.KnownBytes.{Consumes};

use memchr::memchr;
use std::alloc::Global;
use std::io::{self, ErrorKind, Read, Write};
use std::net::{Shutdown, TcpStream};
use std::rc::Rc;
use tt_connections::{Attendance, FirstLine, is_over};

/// The longest time of a session, in nanoseconds: a day.
const DAY: u64 = 86_400_000_000_000;

/// What is left of the wait of a commit when a turn may hear its line, in nanoseconds: a millisecond, for which the turn
/// waits then.
pub(crate) const SOON: u64 = 1_000_000;

/// A session is over.
#[derive(Clone, Copy, Drop)]
pub(crate) struct Over;

/// How many lines were answered, and how many of them were refused.
#[derive(Clone, Copy)]
pub(crate) struct LineCounts {
    pub(crate) lines: u64,
    pub(crate) refused: u64,
}

/// One end of a socket, by which it gives bytes or takes some.
#[derive(Drop)]
pub struct SharedStream {
    pub(crate) socket: Rc<TcpStream>,
}

impl SharedStream {
    /// An end of this socket. None if it is out of memory.
    pub(crate) fn new(alloc: Global, socket: TcpStream) -> Option<SharedStream> {
        let socket = Rc::new(alloc, socket).ok()?;
        Some(SharedStream { socket })
    }

    /// Another end of the same socket. None if there are 2^64 - 1.
    pub(crate) fn share(&self) -> Option<SharedStream> {
        let socket = self.socket.clone().ok()?;
        Some(SharedStream { socket })
    }
}

impl Read for SharedStream {
    fn read(&mut self, buffer: &mut [u8]) -> io::Result<usize> {
        let mut socket = &*self.socket;
        socket.read(buffer)
    }
}

impl Write for SharedStream {
    fn write(&mut self, bytes: &[u8]) -> io::Result<usize> {
        let mut socket = &*self.socket;
        socket.write(bytes)
    }

    fn flush(&mut self) -> io::Result<()> {
        Ok(())
    }
}

/// Reads what has come of this input, and answers how many bytes: 0 if nothing came in time. The session is over if the
/// input has ended, or failed.
pub(crate) fn read_from<I: Read>(input: &mut I, buffer: &mut [u8]) -> Result<usize, Over>
    ensures count { IfOk result (λ n. n ≤ length buffer.new) }
    ensures gave { IfOk result (λ n. Consumes (I.remaining input.old) (I.remaining input.new) (take n buffer.new)) }
{
    match input.read(buffer) {
        Ok(0) => Err(Over),
        Ok(count) => Ok(count),
        Err(error) => match error.kind() {
            ErrorKind::WouldBlock | ErrorKind::TimedOut | ErrorKind::Interrupted => Ok(0),
            _ => Err(Over),
        },
    }
}

/// What a worker keeps of a connection beside its session and its bytes.
#[derive(Drop)]
pub(crate) struct Connection {
    pub(crate) socket: Rc<TcpStream>,
    pub(crate) attendance: Attendance,
    /// Whether its reads and writes wait, each for its time at most.
    waits: bool,
    /// The clock reading at which the session began, in nanoseconds.
    began: u64,
    /// The clock reading at which the time of the current line began, in nanoseconds.
    pub(crate) since: u64,
    /// The clock reading at which bytes that are held are heard, in nanoseconds.
    pub(crate) due: u64,
    /// What is known of the first line of the session, until it has ended.
    first: Option<FirstLine>,
    /// Whether the last byte that was heard is within a line.
    is_within: bool,
    /// What of the session is counted.
    counted: LineCounts,
}

impl Connection {
    /// The connection of this socket, whose session begins when the clock shows `now`.
    pub(crate) fn new(socket: Rc<TcpStream>, now: u64) -> Connection {
        Connection {
            socket,
            attendance: Attendance::new(),
            waits: true,
            began: now,
            since: now,
            due: 0,
            first: Some(FirstLine::new()),
            is_within: false,
            counted: LineCounts {
                lines: 0,
                refused: 0,
            },
        }
    }

    /// Whether the client has had its time when the clock shows `now`: a line took longer than `idle`, or the session
    /// longer than a day.
    pub(crate) fn is_late(&self, idle: u64, now: u64) -> bool {
        is_over(self.since, idle, now) || is_over(self.began, DAY, now)
    }

    /// Whether bytes that are held have waited when the clock shows `now`, or can't be read.
    pub(crate) fn has_waited(&self, now: Option<u64>) -> bool {
        match now {
            Some(now) => self.due <= now.saturating_add(SOON),
            None => true,
        }
    }

    /// Has its reads and writes wait from now on, or not. A session that is alone may wait for its bytes. Of several none may: what
    /// makes a socket ready need not be bytes. It stays as it was where the system refuses.
    pub(crate) fn set_waits(&mut self, waits: bool) {
        if self.waits != waits && self.socket.set_nonblocking(!waits).is_ok() {
            self.waits = waits;
        }
    }

    /// Says that nothing more is sent, and that reads do not wait. Answers whether the system took it.
    pub(crate) fn shut(&mut self) -> bool {
        self.set_waits(false);
        self.socket.shutdown(Shutdown::Write).is_ok()
    }

    /// How many of these bytes, which have just come, are heard before the session ends, since its first line is that of an
    /// HTTP request: up to the end of that line. None if the session goes on.
    pub(crate) fn request_in(&mut self, bytes: &[u8]) -> Option<usize> {
        let mut first = self.first?;
        let end = memchr(b'\n', bytes);
        let (line, _) = bytes.split_at(end.unwrap_or(bytes.len()).min(bytes.len()));
        first.hear(line);
        match end {
            Some(place) => {
                self.first = None;
                if first.is_request() {
                    Some(place.saturating_add(1))
                } else {
                    None
                }
            }
            None => {
                self.first = Some(first);
                None
            }
        }
    }

    /// The time of a line begins anew at this clock reading, which may be an old one, if a line ended in these bytes, which
    /// have just come: never before that of the line before it.
    pub(crate) fn note_line(&mut self, bytes: &[u8], now: u64) {
        if bytes.last() != Some(&b'\n') && memchr(b'\n', bytes).is_none() {
            return;
        }
        self.since = self.since.max(now);
    }

    /// Which of these bytes are heard by the next turn.
    pub(crate) fn part_of(&self, bytes: &[u8]) -> Part
        ensures within { result.count ≤ length bytes.now }
        ensures some { 0 < length bytes.now → 0 < result.count }
    {
        part_of(self.is_within, bytes)
    }

    /// These bytes were heard by a turn. Adds to `untold` the lines that were answered since the last time, of so many in all.
    pub(crate) fn count(
        &mut self,
        bytes: &[u8],
        lines: u64,
        refused: u64,
        untold: &mut LineCounts,
    ) {
        self.is_within = bytes.last() != Some(&b'\n');
        let counted = self.counted;
        let more = lines.saturating_sub(counted.lines);
        untold.lines = untold.lines.saturating_add(more);
        let more = refused.saturating_sub(counted.refused);
        untold.refused = untold.refused.saturating_add(more);
        self.counted = LineCounts {
            lines: lines.max(counted.lines),
            refused: refused.max(counted.refused),
        };
    }
}

/// The first of some bytes that are heard by one turn.
#[derive(Clone, Copy)]
pub(crate) struct Part {
    /// How many these are.
    pub(crate) count: usize,
    /// Whether the line that ends in them may be one of a commit.
    pub(crate) may_commit: bool,
}

/// At most these bytes, and at least one if there is one: what of them is heard by one turn. That is all up to the end of
/// the first line that may be one of a commit, or all. Such a line has a `c`, or began in bytes before these if
/// `is_within` a line. So no turn hears the line of a commit and another line behind it.
fn part_of(is_within: bool, bytes: &[u8]) -> Part
    ensures within { result.count ≤ length bytes.now }
    ensures some { 0 < length bytes.now → 0 < result.count }
{
    let begins = if is_within {
        Some(0)
    } else {
        memchr(b'c', bytes)
    };
    let Some(begins) = begins else {
        return Part {
            count: bytes.len(),
            may_commit: false,
        };
    };
    let (_, line) = bytes.split_at(begins.min(bytes.len()));
    let count = match memchr(b'\n', line) {
        Some(end) => begins
            .saturating_add(end)
            .saturating_add(1)
            .min(bytes.len()),
        None => bytes.len(),
    };
    Part {
        count,
        may_commit: true,
    }
}
