//! Who may write the files of a machine.

ghost use Rattle.std.specs.Prelude.{◌↔◌, IsTrue};
ghost use Rattle.tt_server.specs.Mode.{IsTight};

use crate::states::{ThreadContext, say};
use std::alloc::Global;
use std::fs::Files;
use std::os::unix::fs::PermissionsExt;
use std::sync::Wait;
use std::time::Clock as SystemClock;
use tt_settings::Settings;
use tt_status::LogEvent;

/// The bits of a mode that let the group of a file, and all others, write it.
const OTHERS_WRITE: u32 = 0o022;

/// Whether others than the owner may write the folder of the state and the file of the epoch, each as found at the start.
#[derive(Clone, Copy)]
pub(crate) struct Loose {
    state: bool,
    epoch: bool,
}

/// Whether nobody but its owner may write a file of this mode.
fn is_tight(mode: u32) -> bool
    ensures value { IsTrue result ↔ IsTight mode }
{
    mode & OTHERS_WRITE == 0
}

/// Whether others than its owner may write the file or folder at this path. False if nothing is there.
pub(crate) fn is_loose_at<R: Files>(rt: &R, path: &str) -> bool {
    match rt.metadata(path) {
        Ok(metadata) => !is_tight(metadata.permissions().mode()),
        Err(_) => false,
    }
}

impl Loose {
    /// What others may write now. If there is no memory for the path of the epoch's file, that file is not looked at.
    pub(crate) fn found<R: Files>(rt: &R, alloc: Global, settings: &Settings) -> Loose {
        let folder = settings.state();
        let epoch = match format!(in alloc; "{folder}/epoch") {
            Ok(path) => is_loose_at(rt, path.as_str()),
            Err(_) => false,
        };
        Loose {
            state: is_loose_at(rt, folder),
            epoch,
        }
    }

    /// Logs one line for each of them.
    pub(crate) fn say_in<R: Wait + SystemClock>(self, context: ThreadContext<'_, R>) {
        if self.state {
            say(context, LogEvent::StateLoose);
        }
        if self.epoch {
            say(context, LogEvent::EpochLoose);
        }
    }
}
