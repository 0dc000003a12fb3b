//! Sessions worked out by hand, over devices that are whole, and that fail at each of their calls.

use std::alloc::Global;
use tt_publish::Reading;
use tt_session::{LineFault, ServeFault, Served, Service, Turns, serve};
use tt_span::Span;
use tt_stream::{MemoryReader, MemoryWriter};

/// The devices of a session and how it is served: the bytes that each read gives, the bytes that each write takes, the release steps for each
/// line, and the calls of the reader and of the writer that fail.
#[derive(Clone, Copy)]
pub(crate) struct Devices {
    pub(crate) read: usize,
    pub(crate) write: usize,
    pub(crate) waits: u32,
    pub(crate) read_fails: Option<u64>,
    pub(crate) write_fails: Option<u64>,
}

/// Each device gives and takes whatever it is asked for, and no call fails.
pub(crate) const WHOLE: Devices = Devices {
    read: 1000,
    write: 1000,
    waits: 1,
    read_fails: None,
    write_fails: None,
};

/// Serves the lines, and answers what `serve` did and what was written.
pub(crate) fn talk<S: Service>(
    alloc: Global,
    service: &mut S,
    lines: &[u8],
    how: Devices,
) -> (Result<Served, ServeFault>, MemoryWriter) {
    let mut reader = MemoryReader::new(lines, how.read.max(1), how.read_fails);
    let mut writer = MemoryWriter::new(alloc, how.write, how.write_fails);
    let turns = Turns {
        reads: 1000,
        waits: how.waits,
    };
    let served = serve(&mut reader, &mut writer, service, turns);
    (served, writer)
}

/// A service that stamps each commit with 200, and that releases at its fourth release step. It counts its readings.
#[derive(Drop)]
pub(crate) struct Fixed {
    steps: u8,
    readings: u8,
}

impl Fixed {
    /// A service that was not called so far.
    pub(crate) fn new() -> Fixed {
        Fixed {
            steps: 0,
            readings: 0,
        }
    }

    /// How often it was asked for a reading, at most 255.
    pub(crate) fn readings(&self) -> u8 {
        self.readings
    }
}

impl Service for Fixed {
    ghost allows = { λ _ _ _. Unit {0} };

    fn now(&mut self) -> Result<Reading, u16> {
        self.readings = self.readings.saturating_add(1);
        match Span::new(201, 301) {
            Ok(span) => Ok(Reading::of(span)),
            Err(fault) => Err(fault.number()),
        }
    }

    fn begin(&mut self, _number: u64, _floor: u64) -> Result<u64, u16> {
        Ok(200)
    }

    fn lease(&mut self, _lo: u64, _hi: u64) -> Result<(), u16> {
        Err(LineFault::BadLine.number())
    }

    fn pass(&mut self, _number: u64) -> Result<bool, u16> {
        self.steps = self.steps.saturating_add(1);
        Ok(self.steps > 3)
    }
}

#[test]
fn each_line_has_its_reply(rt: HostRuntime) {
    let lines =
        b"commit 1 0\ncommit 2 0\ncommit 1 0\ncommit 0 0\n12345678901234567890123456789012345678901234567890123456789012345\n\nafter 07\nnow";
    let replies =
        b"waiting 1 200\nrefused 1104\ncommitted 1 200\nrefused 1103\nrefused 1102\nrefused 1101\nrefused 1101\n";
    let mut service = Fixed::new();
    let how = Devices {
        read: 1,
        waits: 2,
        ..WHOLE
    };
    let (served, writer) = talk(rt.alloc(), &mut service, lines, how);
    assert!(rt; writer.taken() == replies.as_slice());
    let (lines, refused) = (7, 5);
    assert!(rt; served == Ok(Served { lines, refused }));
}

/// The lines and the replies of the failures below: each reply takes the writer three writes and a flush.
const LINES: &[u8] = b"now\nnow\n";

const REPLIES: &[u8] = b"now 201 301\nnow 201 301\n";

/// Serves these lines, byte by byte: what `serve` refuses with, and how many bytes of the replies were written, if these
/// are their front.
fn fails(
    alloc: Global,
    read_fails: Option<u64>,
    write_fails: Option<u64>,
) -> (Option<ServeFault>, Option<usize>) {
    let mut service = Fixed::new();
    let how = Devices {
        read: 1,
        write: 5,
        waits: 0,
        read_fails,
        write_fails,
    };
    let (served, writer) = talk(alloc, &mut service, LINES, how);
    let written = writer.taken();
    let front = if REPLIES.starts_with(written) {
        Some(written.len())
    } else {
        None
    };
    (served.err(), front)
}

#[test]
fn a_reader_fails_at_each_call(rt: HostRuntime) {
    // Each byte is one read, and the ninth read says that the input has ended.
    for call in 1..10 {
        let written = if call < 5 {
            0
        } else {
            if call < 9 { 12 } else { 24 }
        };
        let wanted = (Some(ServeFault::ReadFailed), Some(written));
        assert!(rt; fails(rt.alloc(), Some(call), None) == wanted);
    }
    assert!(rt; fails(rt.alloc(), Some(10), None) == (None, Some(24)));
}

#[test]
fn a_writer_fails_at_each_call(rt: HostRuntime) {
    for (call, written) in [
        (1, 0),
        (2, 5),
        (3, 10),
        (4, 12),
        (5, 12),
        (6, 17),
        (7, 22),
        (8, 24),
    ] {
        let wanted = (Some(ServeFault::WriteFailed), Some(written));
        assert!(rt; fails(rt.alloc(), None, Some(call)) == wanted);
    }
    assert!(rt; fails(rt.alloc(), None, Some(9)) == (None, Some(24)));
}
