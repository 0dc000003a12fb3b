//! What a start would refuse of what it finds, without a start.

use crate::faults::ServerFault;
use crate::links::check_rings;
use std::alloc::Global;
use std::fs::{File, Files};
use tt_epoch::{check_epoch, check_folder};
use tt_files::{Facts, Reason, link_facts_at};
use tt_settings::Settings;

/// The part of a mode that is the type of the file, and that of a socket.
const TYPE: u32 = 0o170000;

const SOCKET: u32 = 0o140000;

/// Refuses what [`serve`](crate::serve) would refuse now of the files that it finds, in the same order and by the same
/// functions: `Keys` (2211 to 2216), 1827 `NoKey`, 1828 `MixedFamilies`, `Epoch` (1812), 1819 `NotSocket`, 1809
/// `CannotListenSocket` where what is at the path of the Unix socket can't be looked at, `Epoch` (1811, 1813, 1814), and 1
/// `Memory`.
///
/// It listens nowhere, locks nothing and changes nothing. So it is right while a machine with these settings runs, and says
/// nothing of what such a machine holds: its addresses, its folder and its Unix socket.
pub fn check_start<R: Files<File = File>>(
    rt: &R,
    alloc: Global,
    settings: &Settings,
) -> Result<(), ServerFault> {
    check_rings(rt, alloc, settings)?;
    if let Err(fault) = check_folder(rt, alloc, settings.state()) {
        return Err(ServerFault::Epoch(fault));
    }
    check_socket(rt, settings)?;
    match check_epoch(rt, alloc, settings.state()) {
        Ok(()) => Ok(()),
        Err(fault) => Err(ServerFault::Epoch(fault)),
    }
}

/// Refuses what is at the path of the Unix socket and is not a socket.
fn check_socket<R: Files>(rt: &R, settings: &Settings) -> Result<(), ServerFault> {
    let Some(path) = settings.socket() else {
        return Ok(());
    };
    match link_facts_at(rt, path.as_str()) {
        Ok(None) => Ok(()),
        Ok(Some(facts)) => {
            if is_socket(&facts) {
                Ok(())
            } else {
                Err(ServerFault::NotSocket)
            }
        }
        Err(error) => Err(ServerFault::CannotListenSocket(Reason::of(&error))),
    }
}

/// Whether a file is a socket.
fn is_socket(facts: &Facts) -> bool {
    facts.mode & TYPE == SOCKET
}
