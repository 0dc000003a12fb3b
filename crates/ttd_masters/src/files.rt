//! The bytes of files.

use crate::faults::StartFault;
use std::alloc::Global;
use std::fs::{File, Files, OpenOptions};
use tt_files::{Reason, open_regular};
use tt_stream::{Counted, ReadFault, read_to_end};

/// The most bytes of a file: 1 MiB.
const MOST_FILE: usize = 1_048_576;

/// The bytes of a regular file. Refuses with 1604 `ReadFailed` where there is none at the path, or it can't be read; with 1603
/// `BadFile` where it is longer than 1 MiB; and with 1 `Memory`.
pub fn bytes_of<H: Files<File = File>>(
    rt: &H,
    alloc: Global,
    path: &str,
) -> Result<Vec<u8>, StartFault> {
    let mut how = OpenOptions::new();
    how.read(true);
    let file = match open_regular(rt, path, &how) {
        Ok(file) => file,
        Err(error) => return Err(StartFault::ReadFailed(Reason::of(&error))),
    };
    let mut reader = Counted::new(file);
    match read_to_end(alloc, &mut reader, MOST_FILE, MOST_FILE as u32 + 2) {
        Ok(bytes) => Ok(bytes),
        Err(ReadFault::Memory) => Err(StartFault::Memory),
        Err(ReadFault::TooLong) => Err(StartFault::BadFile),
        Err(_) => Err(StartFault::ReadFailed(Reason::Other)),
    }
}
