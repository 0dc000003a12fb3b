//! One connection of the pages: the head of its request, its answer, and its end. No call here waits.

ghost use Rattle.std.specs.Prelude.{◌≡◌};
ghost use Rattle.tt_report.specs.Pages.{left_of};

use std::alloc::Global;
use std::io::{ErrorKind, Read, Write};
use std::net::{Shutdown, TcpStream};
use tt_pages::{Asked, MAX_HEAD, asked_in};

/// For how long a connection is served, in nanoseconds: two seconds in all.
const PATIENCE: u64 = 2_000_000_000;

/// How many bytes are read at a time.
const PIECE: usize = 512;

/// How many reads are made at most of what a client sends behind the head of its request.
const LAST_READS: u32 = 64;

/// What a connection gives or takes next.
#[derive(Clone, Copy)]
enum Stage {
    /// It gives the head of its request.
    Asks,
    /// It takes its answer.
    Takes,
    /// It has taken its answer, and ends.
    Ends,
}

/// What became of a turn.
#[derive(Clone, Copy)]
pub(crate) enum Turn {
    /// Nothing more comes or is taken now.
    Waits,
    /// It asks for this.
    Asks(Asked),
    /// It is over.
    Over,
}

/// How long a connection that was accepted at this clock reading is still served when the clock shows `now`, in
/// nanoseconds: until two seconds have passed.
pub(crate) fn left_of(began: u64, now: u64) -> u64
    ensures value { result ≡ left_of began now }
{
    PATIENCE.saturating_sub(now.saturating_sub(began))
}

/// A connection of the pages.
#[derive(Drop)]
pub(crate) struct Visitor {
    pub(crate) stream: TcpStream,
    /// The clock reading at which it was accepted, in nanoseconds.
    pub(crate) began: u64,
    stage: Stage,
    /// What has come of the head of its request.
    head: Vec<u8>,
    answer: String,
    /// How many bytes of the answer it has taken.
    taken: usize,
    /// How many reads were made behind the head.
    last_reads: u32,
}

impl Visitor {
    /// A connection that was accepted at this clock reading.
    pub(crate) fn new(alloc: Global, stream: TcpStream, began: u64) -> Visitor {
        Visitor {
            stream,
            began,
            stage: Stage::Asks,
            head: Vec::new(alloc),
            answer: String::new(alloc),
            taken: 0,
            last_reads: 0,
        }
    }

    /// Takes what came and gives what is taken.
    pub(crate) fn turn(&mut self) -> Turn {
        match self.stage {
            Stage::Asks => self.read_head(),
            Stage::Takes => self.send(),
            Stage::Ends => self.end(),
        }
    }

    /// The answer to what it asked for. Answers what became of a turn behind that.
    pub(crate) fn give(&mut self, answer: String) -> Turn {
        self.answer = answer;
        self.stage = Stage::Takes;
        self.send()
    }

    /// Reads the head of a request, and no more than its longest.
    fn read_head(&mut self) -> Turn {
        let mut buffer = [0; PIECE];
        for _ in 0..MAX_HEAD {
            let most = MAX_HEAD.saturating_sub(self.head.len()).min(PIECE);
            let count = match read_at(&self.stream, &mut buffer[..most]) {
                Ok(0) => return Turn::Over,
                Ok(count) => count.min(PIECE),
                Err(turn) => return turn,
            };
            if self.head.extend_from_slice(&buffer[..count]).is_err() {
                return Turn::Over;
            }
            if let Some(asked) = asked_in(self.head.as_slice()) {
                return Turn::Asks(asked);
            }
        }
        Turn::Over
    }

    /// Sends what of the answer was not taken. Behind the last byte the end of the connection begins.
    fn send(&mut self) -> Turn {
        let bytes = self.answer.as_bytes();
        for _ in 0..bytes.len() {
            if self.taken >= bytes.len() {
                break;
            }
            let mut device = &self.stream;
            match device.write(&bytes[self.taken..]) {
                Ok(0) => return Turn::Over,
                Ok(count) => self.taken = self.taken.saturating_add(count),
                Err(error) => return turn_of(error.kind()),
            }
        }
        if self.stream.shutdown(Shutdown::Write).is_err() {
            return Turn::Over;
        }
        self.stage = Stage::Ends;
        self.end()
    }

    /// Reads what the client has sent behind the head, until it has ended too, so that the answer is not lost with the
    /// connection.
    fn end(&mut self) -> Turn {
        let mut buffer = [0; PIECE];
        for _ in 0..LAST_READS {
            if self.last_reads >= LAST_READS {
                break;
            }
            match read_at(&self.stream, &mut buffer) {
                Ok(0) => return Turn::Over,
                Ok(_) => self.last_reads = self.last_reads.saturating_add(1),
                Err(turn) => return turn,
            }
        }
        Turn::Over
    }
}

/// Reads once. Else what becomes of the turn.
fn read_at(stream: &TcpStream, buffer: &mut [u8]) -> Result<usize, Turn> {
    let mut device = stream;
    match device.read(buffer) {
        Ok(count) => Ok(count),
        Err(error) => Err(turn_of(error.kind())),
    }
}

/// What becomes of a turn in which a call of a connection gave an error of this kind.
fn turn_of(kind: ErrorKind) -> Turn {
    match kind {
        ErrorKind::WouldBlock | ErrorKind::Interrupted => Turn::Waits,
        _ => Turn::Over,
    }
}
