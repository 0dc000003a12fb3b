//! The service `serve`.

use crate::checking::check as check_settings;
use crate::faults::ServiceFault;
use crate::places::check_places;
use crate::services::Stop;
use std::alloc::Global;
use std::fs::{File, Files};
use std::io::Eprint;
use std::str;
use tt_epoch::EpochFault;
use tt_host::ByClocks;
use tt_server::{ServerFault, ServerHost, serve};
use tt_settings::{FilePath, OnBreak, Refusal, Settings, SettingsFault};
use tt_stream::ByteWriter;
use ttd_masters::{StartFault, bytes_of};
use ttd_words::Status;

/// The settings in a file. If the configuration is refused, standard error says why, and at which line.
pub(crate) fn settings_of<H: Files<File = File> + Eprint>(
    rt: &H,
    alloc: Global,
    path: &str,
) -> Result<Settings, ServiceFault> {
    let bytes = match bytes_of(rt, alloc, path) {
        Ok(bytes) => bytes,
        Err(fault) => {
            say_file(rt, path, fault);
            return Err(ServiceFault::from(fault));
        }
    };
    let Ok(text) = str::from_utf8(bytes.as_slice()) else {
        let _ = eprint!(rt; "ttd: {path}: it is not UTF-8\n");
        return Err(ServiceFault::BadFile);
    };
    match tt_settings::read(alloc, text) {
        Ok(settings) => Ok(settings),
        Err(refusal) => match refusal.fault() {
            SettingsFault::Memory => Err(ServiceFault::Memory),
            fault => {
                say_refusal(rt, path, &refusal);
                Err(ServiceFault::Settings(fault))
            }
        },
    }
}

/// Says on standard error why there are no bytes of a file, behind its path.
fn say_file<H: Eprint>(rt: &H, path: &str, fault: StartFault) {
    let _ = match fault {
        StartFault::ReadFailed(reason) => {
            eprint!(rt; "ttd: {path}: the configuration can't be read: {reason}\n")
        }
        StartFault::BadFile => eprint!(rt; "ttd: {path}: it is longer than 1048576 bytes\n"),
        _ => Ok(()),
    };
}

/// Says on standard error why a configuration is refused, behind its path and the line.
fn say_refusal<H: Eprint>(rt: &H, path: &str, refusal: &Refusal) {
    let _ = match refusal.line() {
        Some(line) => eprint!(rt; "{path}:{line}: {refusal}\n"),
        None => eprint!(rt; "{path}: {refusal}\n"),
    };
}

/// Refuses files of the settings that are one, and says on standard error which.
fn refuse_places<H: Files + Eprint>(
    rt: &H,
    alloc: Global,
    file: &str,
    settings: &Settings,
) -> Result<(), ServiceFault> {
    match check_places(rt, alloc, settings) {
        Ok(()) => Ok(()),
        Err(SettingsFault::Memory) => Err(ServiceFault::Memory),
        Err(fault) => {
            let _ = eprint!(rt; "{file}: {fault}, by another name of its folder\n");
            Err(ServiceFault::Settings(fault))
        }
    }
}

/// The text of a path, if there is one.
fn text_of(path: Option<&FilePath>) -> &str {
    match path {
        Some(path) => path.as_str(),
        None => "",
    }
}

/// The file in the folder of the state that a fault of the epoch is about.
fn file_of(fault: EpochFault) -> &'static str {
    match fault {
        EpochFault::FolderFailed(_) => "",
        EpochFault::LockFailed(_) | EpochFault::Locked => "/lock",
        _ => "/epoch",
    }
}

/// Says on standard error what a refusal of a machine is about, and why: an address, a path, or a path and a line.
pub(crate) fn say_place<H: Eprint>(rt: &H, settings: &Settings, fault: ServerFault) {
    let _ = match fault {
        ServerFault::CannotListen(_) => {
            let port = settings.listen();
            eprint!(rt; "ttd: 127.0.0.1:{port}: {fault}\n")
        }
        ServerFault::CannotServePages(_) => match settings.http() {
            Some(address) => eprint!(rt; "ttd: {address}: {fault}\n"),
            None => Ok(()),
        },
        ServerFault::CannotListenSocket(_) | ServerFault::NotSocket => {
            let path = text_of(settings.socket());
            eprint!(rt; "ttd: {path}: {fault}\n")
        }
        ServerFault::Epoch(inner) => {
            let (folder, file) = (settings.state(), file_of(inner));
            eprint!(rt; "ttd: {folder}{file}: {inner}\n")
        }
        ServerFault::Keys(inner) => {
            ttd_masters::say_refusal(rt, text_of(settings.keys()), inner);
            Ok(())
        }
        ServerFault::NoKey(number) => {
            say_no_key(rt, settings, number);
            Ok(())
        }
        _ => Ok(()),
    };
}

/// Says on standard error that the file of keys has no key with this number, behind its path, and which masters have it.
fn say_no_key<H: Eprint>(rt: &H, settings: &Settings, number: u32) {
    let path = text_of(settings.keys());
    for master in settings.masters() {
        if master.keys().contains(&number) {
            let address = master.address().as_str();
            let _ = eprint!(rt;
                "ttd: {path}: no key has the number {number}, which {address} has in the settings\n"
            );
        }
    }
}

/// How the program ends after a life that knew that an assumption is broken: the units start it again, unless it is to stay down, as standard
/// error then says.
fn status_after<H: Eprint>(rt: &H, on_break: OnBreak) -> Status {
    match on_break {
        OnBreak::Stay => {
            let _ = eprint!(rt;
                "ttd: an assumption is broken, and by on_break the machine stays down until it is started\n"
            );
            Status::Bad
        }
        _ => Status::Broken,
    }
}

/// Runs the machine of a configuration until it is ended. With `check` it only writes what the machine would do and what a
/// start would find. Where the machine ends because it knows that an assumption is broken, the program ends with status 3, or with 2 where
/// it is to stay down.
///
/// Refuses with 1604 `ReadFailed` where the file is not a regular one or can't be read, with 1603 `BadFile` where it is
/// longer than 1 MiB or is not UTF-8, with 1801 to 1806, 1810, 1817, 1818, 1825 or 1826 where the configuration is refused, with
/// 1817 where two of its files are one, as their folders are found now ([`check_places`]), and with what ended the server, or would refuse its start.
pub(crate) fn run_server<H: ServerHost + ByClocks, O: ByteWriter>(
    rt: &H,
    file: &str,
    check: bool,
    until_eof: bool,
    output: &mut O,
) -> Result<(), Stop> {
    let settings = settings_of(rt, rt.alloc(), file)?;
    refuse_places(rt, rt.alloc(), file, &settings)?;
    if !check {
        return match serve(&rt.by(settings.clock()), &settings, until_eof) {
            Ok(end) => {
                if end.broken.is_some() {
                    Err(Stop::Told(status_after(rt, settings.on_break())))
                } else {
                    Ok(())
                }
            }
            Err(ServerFault::Memory) => Err(Stop::Refused(ServiceFault::Memory)),
            Err(fault) => {
                say_place(rt, &settings, fault);
                Err(Stop::Refused(ServiceFault::Server(fault)))
            }
        };
    }
    check_settings(rt, &settings, output)
}
