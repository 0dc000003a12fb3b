//! The threads of a reporter: one for standard error, one for the status file, and one for the evidence.

ghost use Rattle.std.specs.Prelude.{◌≡◌};
ghost use Rattle.std.specs.IoError.{error_kind, raw_os_error};
ghost use Rattle.tt_files.specs.Reason.{number_in, reason_of};

use crate::clocks::clock_of;
use crate::files::{Disk, EvidenceFiles, WholeFile};
use crate::records::Records;
use crate::sources::Addresses;
use crate::tries::{evidence_event, status_event};
use crate::watches::Watch;
use std::alloc::Global;
use std::io::{self, Eprint};
use std::sync::Wait;
use std::sync::atomic::Ordering;
use std::time::Clock as SystemClock;
use tt_files::Reason;
use tt_status::{LogEvent, LogLine, LogStyle, push_event, words_of};

/// Writes lines in this style to standard error as they come. It looks at least once a second whether a publication is slow,
/// and whether lines that were left out can be told.
pub(crate) fn write_lines<R: Wait + SystemClock + Eprint>(
    rt: &R,
    alloc: Global,
    records: &Records,
    style: LogStyle,
    addresses: &Addresses,
) {
    let mut watch = Watch::new();
    for _ in rt.forever() {
        look(rt, records, &mut watch);
        records.release(rt);
        if let Some(line) = records.lines.take(rt) {
            write_line(rt, alloc, line, style, addresses);
            records.written();
        }
    }
    unreachable!()
}

/// Logs a publication that is slow, once.
fn look<R: Wait + SystemClock>(rt: &R, records: &Records, watch: &mut Watch) {
    let since = records.since.load(Ordering::SeqCst);
    let most = records.most.load(Ordering::SeqCst);
    if let Some(lasted) = watch.look(since, most, clock_of(rt)) {
        records.log(rt, LogEvent::PublicationSlow { lasted });
    }
}

/// Writes a line to standard error. If it is out of memory, or standard error fails, the line is lost.
fn write_line<R: Eprint>(
    rt: &R,
    alloc: Global,
    line: LogLine,
    style: LogStyle,
    addresses: &Addresses,
) {
    let mut text = String::new(alloc);
    let (words, address) = (words_of(line.event), addresses.of(line.event));
    if push_event(&mut text, style, line, words, address).is_ok() {
        let _ = eprint!(rt; "{text}");
    }
}

/// Writes the newest status, of sources with these addresses, to its file as they come. It logs where one was not written, and when one is written again.
pub(crate) fn write_statuses<R: Wait + SystemClock + Disk>(
    rt: &R,
    alloc: Global,
    records: &Records,
    file: &WholeFile,
    addresses: &Addresses,
) {
    let mut failed = false;
    for _ in rt.forever() {
        if let Some(status) = records.statuses.take(rt) {
            let errno = errno_in(&file.write_status(rt, alloc, &status, addresses.all()));
            say_some(rt, records, status_event(failed, errno));
            failed = errno.is_some();
            records.written();
        }
    }
    unreachable!()
}

/// Writes the evidence of breaks and the newest evidence to their files as they come. It logs where one was not written, and
/// when the newest is written again.
pub(crate) fn write_evidence<R: Wait + SystemClock + Disk>(
    rt: &R,
    records: &Records,
    files: &EvidenceFiles,
) {
    let mut failed = false;
    for _ in rt.forever() {
        if let Some(of) = records.evidence.breaks.take_waiting(rt) {
            let errno = errno_in(&files.write_break(rt, &of));
            say_some(rt, records, evidence_event(false, errno));
            records.written();
        }
        if let Some(text) = records.evidence.newest.take(rt) {
            let errno = errno_in(&files.write_newest(rt, text.as_str()));
            say_some(rt, records, evidence_event(failed, errno));
            failed = errno.is_some();
            records.written();
        }
    }
    unreachable!()
}

/// Logs an event, if there is one.
fn say_some<R: Wait + SystemClock>(rt: &R, records: &Records, event: Option<LogEvent>) {
    if let Some(event) = event {
        records.log(rt, event);
    }
}

/// The system's number for why a file was not written, if it was not.
fn errno_in(did: &io::Result<()>) -> Option<u64> {
    match did {
        Ok(_) => None,
        Err(error) => Some(errno_of(error)),
    }
}

/// The system's number for why a file was not written, errno, or 0 where it has none.
fn errno_of(error: &io::Error) -> u64
    ensures { result ≡ number_in (reason_of (raw_os_error error.now) (error_kind error.now)) }
{
    u64::from(Reason::of(error).number())
}
