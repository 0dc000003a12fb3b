//! What the operating system has of this process.

use crate::opening::facts_at;
use crate::reasons::Reason;
use std::fs::Files;

/// What the operating system has of this process. Its owner is the user as whom the process acts.
const OF_PROCESS: &str = "/proc/self";

/// The user as whom this process acts: the owner of `/proc/self`. Else why that can't be looked at. Nothing is claimed of what
/// the system says.
pub fn process_owner<R: Files>(rt: &R) -> Result<u32, Reason> {
    match facts_at(rt, OF_PROCESS) {
        Ok(Some(process)) => Ok(process.owner),
        Ok(None) => Err(Reason::NOTHING),
        Err(error) => Err(Reason::of(&error)),
    }
}
