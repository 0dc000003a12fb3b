//! Files, and their first bytes.

ghost use Rattle.std.specs.Prelude.{◌≡◌, ◌≤◌, length, IfOk};

use std::fs::{File, Files, OpenOptions};
use std::io::{self, Error, ErrorKind, Read};
use std::os::unix::fs::MetadataExt;

/// The bits of a mode that say what a file is, and what they are for a FIFO.
const KIND: u32 = 0o170000;

const FIFO: u32 = 0o010000;

/// Opens a file to read it. An error for a FIFO, which could have it wait.
pub(crate) fn open_at<R: Files<File = File>>(rt: &R, path: &str) -> io::Result<File> {
    if rt.metadata(path)?.mode() & KIND == FIFO {
        return Err(Error::from(ErrorKind::InvalidInput));
    }
    let mut how = OpenOptions::new();
    how.read(true);
    how.open(rt, path)
}

/// Reads the first bytes of a file, as many as there is room for, or all that it has: one read may give fewer. Answers how
/// many.
pub fn read_start(file: &mut File, bytes: &mut [u8]) -> io::Result<usize>
    ensures within { IfOk result (λ count. count ≤ length bytes.new) }
    ensures len { length bytes.new ≡ length bytes.old }
{
    let mut count = 0;
    for _ in 0..bytes.len() {
        let more = file.read(&mut bytes[count..])?;
        if more == 0 {
            break;
        }
        count += more;
    }
    Ok(count)
}
