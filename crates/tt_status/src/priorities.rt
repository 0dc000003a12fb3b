//! What a journal reads of a log.

ghost use Rattle.std.specs.Prelude.{◌≡◌, ◌↔◌, IsTrue, IfOk};
ghost use Rattle.tt_status.specs.Journal.{priority_of as priority_text, stream_name};

use crate::lines::LogFormat;
use std::alloc::{AllocError, Global};

/// How the lines of a log are written.
#[derive(Clone, Copy)]
pub struct LogStyle {
    /// Their form.
    pub format: LogFormat,
    /// Whether a journal reads them: then each begins with its priority, like `<4>`.
    pub is_journal: bool,
}

/// Whether a journal reads the file of this inode on this device: then `stream`, the variable `JOURNAL_STREAM` of the
/// environment, is both numbers in decimal digits, with a colon between them. Refuses only if it is out of memory.
pub fn is_journal(alloc: Global, stream: &str, device: u64, inode: u64) -> Result<bool, AllocError>
    ensures named { IfOk result (λ is. IsTrue is ↔ (stream.now ≡ stream_name device inode)) }
{
    let name = format!(in alloc; "{device}:{inode}")?;
    Ok(name.as_str() == stream)
}

/// The priority of a level, as a journal reads it before a line: `<3>` of an error, `<4>` of a warning, and `<6>` of what is
/// only told.
pub(crate) fn priority_of(level: &str) -> &'static str
    ensures value { result.now ≡ priority_text level.now }
{
    if level == "error" {
        return "<3>";
    }
    if level == "warn" {
        return "<4>";
    }
    "<6>"
}
