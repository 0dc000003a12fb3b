//! The service `read`.

use crate::faults::ServiceFault;
use crate::services::Stop;
use arrayvec::ArrayVec;
use std::fs::{File, Files};
use std::io::Eprint;
use tt_clock::MachineClock;
use tt_host::{ByClocks, Host};
use tt_shared::{BOOT_LEN, FILE_LEN, HEAD_LEN, SharedFault, decode_head, open_view};
use tt_stream::ByteWriter;
use tt_text::put_line;
use ttd_masters::{StartFault, bytes_of};
use ttd_words::write;

/// Where the name of its boot stands in a shared file.
const BOOT_AT: usize = 24;

/// Where the system says the name of this boot, with a line feed.
const THIS_BOOT: &str = "/proc/sys/kernel/random/boot_id";

/// Writes the reading of a shared file. Standard error says if it is stale, and why a file can't be used.
///
/// Refuses with 1701 `CannotOpen` where the file can't be opened, with 1702 `BadFile` where it is not a shared file,
/// and then as the reader does: 801, 802, 803, 1701, 1703, 1704, 1708. It reads the clock that the file names.
pub(crate) fn read<H: Host + ByClocks + Copy, O: ByteWriter>(
    rt: &H,
    file: &str,
    output: &mut O,
) -> Result<(), Stop> {
    let mut reader = match open_view(rt, file) {
        Ok(reader) => reader,
        Err(fault) => return Err(refused(rt, file, fault)),
    };
    let by = rt.by(reader.clock());
    match reader.now(&mut MachineClock::new(&by)) {
        Ok(seen) => {
            let ends = [seen.reading.earliest(), seen.reading.latest()];
            let mut line = ArrayVec::<u8, 64>::new();
            put_line(&mut line, "now", &ends);
            if !seen.fresh {
                let _ = eprint!(rt; "stale\n");
            }
            write(output, line.as_slice()).map_err(|_| Stop::Unwritten)
        }
        Err(fault) => Err(refused(rt, file, fault)),
    }
}

/// Says on standard error why a shared file gives no reading, behind its path.
fn refused<H: AllocGlobal + Files<File = File> + Eprint>(
    rt: &H,
    file: &str,
    fault: SharedFault,
) -> Stop {
    match fault {
        SharedFault::CannotOpen | SharedFault::BadFile => say_unusable(rt, file, fault),
        _ => {
            let _ = eprint!(rt; "ttd: {file}: {fault}\n");
        }
    }
    Stop::Refused(ServiceFault::Shared(fault))
}

/// Says on standard error why a file can't be used, as far as another look at it shows.
fn say_unusable<H: AllocGlobal + Files<File = File> + Eprint>(
    rt: &H,
    file: &str,
    fault: SharedFault,
) {
    let _ = match bytes_of(rt, rt.alloc(), file) {
        Err(StartFault::ReadFailed(reason)) => {
            eprint!(rt; "ttd: {file}: it can't be opened or read: {reason}\n")
        }
        Ok(bytes) if fault == SharedFault::BadFile => {
            let why = why_bad(rt, bytes.as_slice());
            eprint!(rt; "ttd: {file}: {why}\n")
        }
        _ => eprint!(rt; "ttd: {file}: {fault}\n"),
    };
}

/// Why these bytes are no shared file that this process can use.
fn why_bad<H: AllocGlobal + Files<File = File>>(rt: &H, bytes: &[u8]) -> &'static str {
    if bytes.len() != FILE_LEN {
        return "it has not the 320 bytes of a shared file";
    }
    let head = bytes.split_at(HEAD_LEN).0;
    let mut boot = [0; BOOT_LEN];
    boot.copy_from_slice(&head[BOOT_AT..BOOT_AT + BOOT_LEN]);
    if decode_head(head, &boot).is_err() {
        return "it does not begin as a shared file does";
    }
    match bytes_of(rt, rt.alloc(), THIS_BOOT) {
        Ok(name) if !name.as_slice().starts_with(&boot) => "it is of another boot of this host",
        _ => "it is not of the clock of this process",
    }
}
