//! The service `serve --check`: what a machine would do, and what a start would find.

ghost use Rattle.std.specs.Prelude.{◌≡◌};
ghost use Rattle.ttd.specs.Checking.{folder_fault, may_write};

use crate::faults::ServiceFault;
use crate::services::Stop;
use crate::serving::say_place;
use std::alloc::{AllocError, Global};
use std::fs::{File, Files};
use std::net::{Ipv4Addr, SocketAddr};
use thiserror::Error;
use tt_files::{Facts, facts_at, process_owner};
use tt_host::Host;
use tt_outline::outline;
use tt_server::{
    HostNames, MAX_FOUND, ServerFault, check_start, descriptor_limit, sessions_within,
};
use tt_settings::{FilePath, MasterSettings, Settings};
use tt_sharing::folder_and_name;
use tt_stream::ByteWriter;
use ttd_words::write;

/// Why a machine could write no file in a folder. It is shown as a person reads it.
#[derive(Clone, Copy, Debug, Error)]
enum FolderFault {
    #[error("there is no such folder")]
    Missing,
    #[error("it can't be looked at")]
    Unseen,
    #[error("it is not a folder")]
    NotFolder,
    #[error("this user may not write it")]
    Unwritable,
}

/// Whether the modes let this user write a folder with this mode and this owner. One whom neither owns may be of its group.
fn may_write(mode: u32, owner: u32, user: u32) -> bool
    ensures { result ≡ may_write mode owner user }
{
    if user == 0 {
        true
    } else if owner == user {
        mode / 128 % 2 == 1
    } else {
        mode / 16 % 2 == 1 || mode / 2 % 2 == 1
    }
}

/// Why this user could write no file in a folder, by what was found at its path.
fn folder_fault(found: Option<Facts>, user: u32) -> Option<FolderFault>
    ensures { result ≡ folder_fault found user }
{
    match found {
        None => Some(FolderFault::Missing),
        Some(facts) => {
            if facts.mode / 4096 == 4 {
                if may_write(facts.mode, facts.owner, user) {
                    None
                } else {
                    Some(FolderFault::Unwritable)
                }
            } else {
                Some(FolderFault::NotFolder)
            }
        }
    }
}

/// Adds a warning where this user could write no file at the path of a setting.
fn push_warning<H: Files<File = File>>(
    rt: &H,
    text: &mut String,
    word: &str,
    path: Option<&FilePath>,
    user: u32,
) -> Result<(), AllocError> {
    let Some(path) = path else {
        return Ok(());
    };
    let (folder, _) = folder_and_name(path.as_str());
    let fault = match facts_at(rt, folder) {
        Ok(found) => folder_fault(found, user),
        Err(_) => Some(FolderFault::Unseen),
    };
    match fault {
        Some(fault) => write!(text, "warning {word} {folder}: {fault}\n"),
        None => Ok(()),
    }
}

/// Adds what is found of the name of a master, if it has one.
fn push_name<H: HostNames>(
    rt: &H,
    text: &mut String,
    master: &MasterSettings,
) -> Result<(), AllocError> {
    let Some((host, port)) = master.address().host() else {
        return Ok(());
    };
    let mut found = [SocketAddr::from((Ipv4Addr::UNSPECIFIED, 0)); MAX_FOUND];
    let count = rt.look_up(host, port, &mut found);
    if count == 0 {
        return write!(text, "unresolved {host}\n");
    }
    write!(text, "resolved {host}")?;
    for place in 0..count.min(MAX_FOUND) {
        write!(text, " {}", found[place])?;
    }
    text.push_str("\n")
}

/// Adds how many descriptors this process may have, where that is known, and how many sessions they are enough for.
fn push_limit(text: &mut String, settings: &Settings) -> Result<(), AllocError> {
    let Some(limit) = descriptor_limit() else {
        return Ok(());
    };
    let sessions = sessions_within(Some(limit), settings.config().workers());
    write!(text, "limit {limit} {sessions}\n")
}

/// Adds the numbers of the keys that are used, the addresses of names, and what would not be written.
fn push_found<H: Files<File = File> + HostNames>(
    rt: &H,
    text: &mut String,
    settings: &Settings,
) -> Result<(), AllocError> {
    for master in settings.masters() {
        for number in master.keys() {
            write!(text, "key {number}\n")?;
        }
    }
    for master in settings.masters() {
        push_name(rt, text, master)?;
    }
    let user = process_owner(rt).unwrap_or(0);
    push_warning(rt, text, "socket", settings.socket(), user)?;
    push_warning(rt, text, "shared", settings.shared(), user)?;
    push_warning(rt, text, "status", settings.status(), user)?;
    push_warning(rt, text, "evidence", settings.evidence(), user)
}

/// What a machine would do, and what was found.
fn report<H: Files<File = File> + HostNames>(
    rt: &H,
    alloc: Global,
    settings: &Settings,
) -> Result<String, AllocError> {
    let mut text = outline(alloc, settings)?;
    push_limit(&mut text, settings)?;
    push_found(rt, &mut text, settings)?;
    Ok(text)
}

/// Writes what the machine of these settings would do, and what a start would find now: a line `limit` with the limit of
/// descriptors of this process and the sessions that it is enough for, where it is known; a line `key` for each key that it
/// uses, by its number; for each master with a name a line `resolved` with the name and its addresses, or `unresolved`; and
/// a line `warning` for each folder in which it could not write its Unix socket, its shared file, its status or its evidence.
///
/// Refuses what a start would refuse of what it finds, as [`check_start`]. It changes nothing, and a machine with these
/// settings may be running.
pub(crate) fn check<H: Host + HostNames, O: ByteWriter>(
    rt: &H,
    settings: &Settings,
    output: &mut O,
) -> Result<(), Stop> {
    match check_start(rt, rt.alloc(), settings) {
        Ok(()) => {}
        Err(ServerFault::Memory) => return Err(Stop::Refused(ServiceFault::Memory)),
        Err(fault) => {
            say_place(rt, settings, fault);
            return Err(Stop::Refused(ServiceFault::Server(fault)));
        }
    }
    match report(rt, rt.alloc(), settings) {
        Ok(text) => write(output, text.as_str().as_bytes()).map_err(|_| Stop::Unwritten),
        Err(_) => Err(Stop::Refused(ServiceFault::Memory)),
    }
}
