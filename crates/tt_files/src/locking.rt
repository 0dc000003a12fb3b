//! Locks on files.

use crate::facts::{Facts, is_only_at};
use crate::opening::{TRIES, facts_of, link_facts_at, not_regular, open_regular};
use std::fs::{File, Files, OpenOptions, Permissions, TryLockError};
use std::io;
use std::os::unix::fs::{OpenOptionsExt, PermissionsExt};

/// Whether the path itself shows this file, and no other path does.
fn shows<R: Files>(rt: &R, path: &str, held: &Facts) -> io::Result<bool> {
    let seen = link_facts_at(rt, path)?;
    Ok(is_only_at(held, seen))
}

/// The file at the path, with this mode; it is made where nothing is there. None where it is not at the path itself: what a
/// symlink names keeps its mode.
fn open_lock<R: Files<File = File>>(rt: &R, path: &str, mode: u32) -> io::Result<Option<File>> {
    let mut how = OpenOptions::new();
    how.write(true).create(true).mode(mode);
    let file = open_regular(rt, path, &how)?;
    let facts = facts_of(&file)?;
    if !shows(rt, path, &facts)? {
        return Ok(None);
    }
    if facts.mode & 0o777 != mode {
        file.set_permissions(Permissions::from_mode(mode))?;
    }
    Ok(Some(file))
}

/// Whether the path itself still shows this file.
fn still_shows<R: Files>(rt: &R, path: &str, file: &File) -> io::Result<bool> {
    let facts = facts_of(file)?;
    shows(rt, path, &facts)
}

/// One try to lock the file at the path. None where the file is not at the path itself, or was replaced meanwhile.
fn try_lock_at<R: Files<File = File>>(
    rt: &R,
    path: &str,
    mode: u32,
) -> Result<Option<File>, TryLockError> {
    let opened = open_lock(rt, path, mode).map_err(TryLockError::Error)?;
    let Some(file) = opened else {
        return Ok(None);
    };
    file.try_lock()?;
    if still_shows(rt, path, &file).map_err(TryLockError::Error)? {
        Ok(Some(file))
    } else {
        Ok(None)
    }
}

/// Locks the file at this path for as long as the answer is open, and waits for nobody. A missing file is made. Its mode is
/// set to `mode` before it is locked, so that with 0600 nobody else can open it from then on to hold the lock. The file
/// that was locked is the one at the path.
///
/// Refuses with `WouldBlock` where another open file holds the lock, and with `Error` where the path is refused as
/// [`open_regular`] refuses it, where it is a symlink or the file has another name, where its mode can't be set, or where
/// each of four tries locked a file that was replaced meanwhile.
pub fn lock_at<R: Files<File = File>>(rt: &R, path: &str, mode: u32) -> Result<File, TryLockError> {
    for _ in 0..TRIES {
        if let Some(file) = try_lock_at(rt, path, mode)? {
            return Ok(file);
        }
    }
    Err(TryLockError::Error(not_regular()))
}
