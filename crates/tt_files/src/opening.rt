//! Opening and making files.

ghost use Rattle.std.specs.Prelude.{◌≡◌, ◌↔◌};
ghost use Rattle.std.specs.Fs.{metadata_mode, file_type, IsFile, IsSymlink};
ghost use Rattle.tt_files.specs.declared.facts.Kind.TheVariants.{Regular, Symlink};

use crate::facts::{Facts, Kind, Way, is_same_file, way_of};
use std::fs::{self, File, Files, Metadata, OpenOptions};
use std::io::{self, Error, ErrorKind, Write};
use std::os::unix::fs::{MetadataExt, OpenOptionsExt};

/// How often an opening is tried where the path changes meanwhile.
pub(crate) const TRIES: u32 = 4;

/// What a file is.
fn kind_in(metadata: &Metadata) -> Kind
    ensures regular { (result ≡ Regular) ↔ IsFile (file_type metadata.now) }
    ensures symlink { (result ≡ Symlink) ↔ IsSymlink (file_type metadata.now) }
{
    if metadata.is_file() {
        Kind::Regular
    } else if metadata.is_symlink() {
        Kind::Symlink
    } else {
        Kind::Other
    }
}

/// The facts in what the operating system says.
fn facts_in(metadata: &Metadata) -> Facts
    ensures regular { (result.kind ≡ Regular) ↔ IsFile (file_type metadata.now) }
    ensures symlink { (result.kind ≡ Symlink) ↔ IsSymlink (file_type metadata.now) }
    ensures mode { result.mode ≡ metadata_mode metadata.now }
{
    Facts {
        kind: kind_in(metadata),
        device: metadata.dev(),
        inode: metadata.ino(),
        owner: metadata.uid(),
        mode: metadata.mode(),
        links: metadata.nlink(),
    }
}

/// The facts of an open file.
pub fn facts_of(file: &File) -> io::Result<Facts> {
    let metadata = file.metadata()?;
    Ok(facts_in(&metadata))
}

/// The facts that were found, if anything was there.
fn facts_found(found: io::Result<Metadata>) -> io::Result<Option<Facts>> {
    match found {
        Ok(metadata) => Ok(Some(facts_in(&metadata))),
        Err(error) => {
            if error.kind() == ErrorKind::NotFound {
                Ok(None)
            } else {
                Err(error)
            }
        }
    }
}

/// The facts of what is at this path itself, if anything is there. A symlink is not followed.
pub fn link_facts_at<R: Files>(rt: &R, path: &str) -> io::Result<Option<Facts>> {
    facts_found(fs::symlink_metadata(rt, path))
}

/// The facts of what is at this path, if anything is there. A symlink is followed; one that names nothing has its own
/// facts.
pub fn facts_at<R: Files>(rt: &R, path: &str) -> io::Result<Option<Facts>> {
    match facts_found(fs::metadata(rt, path))? {
        Some(facts) => Ok(Some(facts)),
        None => link_facts_at(rt, path),
    }
}

/// Opens what is at the path, and makes nothing. None where it is not what was looked at.
fn open_found<R: Files<File = File>>(
    rt: &R,
    path: &str,
    how: &OpenOptions,
    expected: &Facts,
) -> io::Result<Option<File>> {
    let mut how = how.clone()?;
    how.create(false);
    let file = how.open(rt, path)?;
    let found = facts_of(&file)?;
    if is_same_file(expected, &found) {
        Ok(Some(file))
    } else {
        Ok(None)
    }
}

/// Makes a file at the path. None where something is there by now, or a symlink that names nothing.
fn make<R: Files<File = File>>(rt: &R, path: &str, how: &OpenOptions) -> io::Result<Option<File>> {
    let mut how = how.clone()?;
    how.create_new(true);
    match how.open(rt, path) {
        Ok(file) => Ok(Some(file)),
        Err(error) => {
            if error.kind() == ErrorKind::AlreadyExists {
                Ok(None)
            } else {
                Err(error)
            }
        }
    }
}

/// One try to open the path. None where it changed meanwhile.
fn try_open<R: Files<File = File>>(
    rt: &R,
    path: &str,
    how: &OpenOptions,
) -> io::Result<Option<File>> {
    let found = facts_at(rt, path)?;
    match (way_of(found, how.asks_create()), found) {
        (Way::Open, Some(expected)) => open_found(rt, path, how, &expected),
        (Way::Make, _) => make(rt, path, how),
        (Way::Missing, _) => Err(Error::from(ErrorKind::NotFound)),
        _ => Err(not_regular()),
    }
}

/// The refusal of what is not a regular file.
pub(crate) fn not_regular() -> Error {
    Error::new(ErrorKind::InvalidInput, "not a regular file")
}

/// Opens the regular file at this path as `how` says; a symlink to one is followed. With `create` a missing file is made.
///
/// Refuses with `InvalidInput` where the path is a FIFO, a device, a socket or a folder, or a symlink to one or to
/// nothing: it is not opened, so nothing waits. Refuses with `NotFound` where nothing is there and `how` makes nothing, with `InvalidInput`
/// where each of four tries met another file than it had looked at, and with what the operating system says else.
pub fn open_regular<R: Files<File = File>>(
    rt: &R,
    path: &str,
    how: &OpenOptions,
) -> io::Result<File> {
    for _ in 0..TRIES {
        if let Some(file) = try_open(rt, path, how)? {
            return Ok(file);
        }
    }
    Err(not_regular())
}

/// Makes an empty file at this path, for reading and writing, with these permissions less those that the process's umask
/// takes. What is left at the path is removed first: a file, or a FIFO or symlink itself, never what a symlink names.
/// Nothing that is there is opened.
///
/// Refuses where a folder is at the path, where something comes there meanwhile (`AlreadyExists`), or where the operating
/// system refuses.
pub fn create_new<R: Files<File = File>>(rt: &R, path: &str, mode: u32) -> io::Result<File> {
    if let Err(error) = fs::remove_file(rt, path) {
        if error.kind() != ErrorKind::NotFound {
            return Err(error);
        }
    }
    OpenOptions::new()
        .read(true)
        .write(true)
        .create_new(true)
        .mode(mode)
        .open(rt, path)
}

/// Puts a file with these bytes at the path, whole at once: a new file `draft` in the same folder, as [`create_new`]
/// makes it, is written, synced if asked, and renamed. A symlink at the path is replaced, and what it names is untouched.
///
/// Refuses where one of these calls is refused; then the path is as it was, and the draft may be left.
pub fn replace<R: Files<File = File>>(
    rt: &R,
    path: &str,
    draft: &str,
    bytes: &[u8],
    mode: u32,
    synced: bool,
) -> io::Result<()> {
    let mut file = create_new(rt, draft, mode)?;
    file.write_all(bytes)?;
    if synced {
        file.sync_all()?;
    }
    fs::rename(rt, draft, path)
}
