//! Whether a journal reads standard error.

use std::env;
use std::fs::{self, Files};
use std::os::unix::fs::MetadataExt;
use std::rt::Env;
use tt_status::is_journal;

/// The path of standard error.
const STANDARD_ERROR: &str = "/proc/self/fd/2";

/// A host whose standard error a journal may read. The runtime handle is one.
pub trait Journal {
    /// Whether a journal reads standard error: its device and inode are those of the variable `JOURNAL_STREAM` of the
    /// environment. False where that can't be known.
    fn reads_errors(&self) -> bool;
}

impl<R: Env + Files + AllocGlobal> Journal for R {
    fn reads_errors(&self) -> bool {
        let Ok(stream) = env::var(self, "JOURNAL_STREAM") else {
            return false;
        };
        let Ok(found) = fs::metadata(self, STANDARD_ERROR) else {
            return false;
        };
        is_journal(self.alloc(), stream.as_str(), found.dev(), found.ino()).unwrap_or(false)
    }
}
