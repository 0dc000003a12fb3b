//! Files of the operating system: how a writer opens or makes one, and how a reader opens it.

ghost use Rattle.std.specs.Prelude.{◌≡◌, ◌⊎◌, ◌≤◌, false, length, IfOk, IfErr};

use crate::faults::{PlaceFault, SharedFault, WriteFault};
use crate::heads::{BOOT_LEN, Head, decode_head, encode_head};
use crate::holding::{Adoption, Held, Seen, adoption_of, still_there};
use crate::host::is_host_clock;
use crate::layout::{FILE_LEN, HEAD_LEN, SLOT_LEN};
use crate::places::{Place, ReadPlace};
use crate::readers::SharedReader;
use crate::teller::SharedTeller;
use std::alloc::{AllocError, Global};
use std::fs::{self, DirBuilder, File, Files, OpenFile, OpenOptions, TryLockError};
use std::io::{self, Error, ErrorKind, Read};
use std::os::unix::fs::{DirBuilderExt, FileExt};
use tt_files::{Facts, create_new, facts_of, is_same_file, link_facts_at, lock_at, open_regular};
use tt_host::{HostClock, read_start};

/// Where Linux names the boot of the machine.
const BOOT_PATH: &str = "/proc/sys/kernel/random/boot_id";

/// Where Linux says how far the clocks of the process are from those of the host.
const OFFSETS_PATH: &str = "/proc/self/timens_offsets";

/// How much of that file is read. It has two lines of about 30 bytes, and the first one counts.
const OFFSETS_LEN: usize = 128;

/// A file of the operating system, open for writing, and its lock, which is held as long as this lives. Before each
/// write it looks at both paths and at the length of the file: where a path does not show the file that is open, since it
/// was removed or replaced, or where the file was cut short, the write fails and writes nothing. Nothing is claimed of
/// what the file keeps.
#[derive(Drop)]
pub struct FilePlace<'a, R> {
    rt: &'a R,
    paths: Paths,
    held: Held,
    file: File,
    lock: File,
    failures: u64,
}

impl<'a, R: Files<File = File>> FilePlace<'a, R> {
    /// Whether both paths show the files that are open.
    fn is_there(&self) -> bool {
        let Ok(lock) = link_facts_at(self.rt, self.paths.lock.as_str()) else {
            return false;
        };
        let Ok(file) = link_facts_at(self.rt, self.paths.file.as_str()) else {
            return false;
        };
        still_there(&self.held, &Seen { lock, file })
    }

    /// Whether the file has its whole length.
    fn is_whole(&self) -> bool {
        match self.file.metadata() {
            Ok(metadata) => metadata.len() == FILE_LEN as u64,
            Err(_) => false,
        }
    }
}

impl<'a, R: Files<File = File>> Place for FilePlace<'a, R> {
    ghost does = { λ _ _ _ _. Unit {0} };

    ghost failed = { λ place. place.failures };

    fn write_all_at(&mut self, offset: u64, bytes: &[u8]) -> Result<(), PlaceFault> {
        let may_write = self.is_there() && self.is_whole();
        if !may_write || FileExt::write_all_at(&self.file, bytes, offset).is_err() {
            self.failures = self.failures.saturating_add(1);
            return Err(PlaceFault::Failed);
        }
        Ok(())
    }

    fn failures(&self) -> u64 {
        self.failures
    }
}

/// Which shared files a writer may go on in: those of this boot and by this clock.
#[derive(Clone, Copy)]
struct Kind {
    boot: [u8; BOOT_LEN],
    clock: HostClock,
}

/// The name of this boot of the machine.
fn boot_name<R: Files<File = File>>(rt: &R) -> io::Result<[u8; BOOT_LEN]> {
    let mut file = File::open(rt, BOOT_PATH)?;
    let mut name = [0; BOOT_LEN];
    file.read_exact(&mut name)?;
    Ok(name)
}

/// Whether the monotonic clock of this process is that of the host. It is where the kernel has no time namespaces, and so
/// no such file.
fn has_host_clock<R: Files<File = File>>(rt: &R) -> io::Result<bool> {
    let mut file = match File::open(rt, OFFSETS_PATH) {
        Ok(file) => file,
        Err(error) => {
            if error.kind() == ErrorKind::NotFound {
                return Ok(true);
            }
            return Err(error);
        }
    };
    let mut text = [0; OFFSETS_LEN];
    let count = read_start(&mut file, &mut text)?;
    Ok(is_host_clock(&text[..count]))
}

/// What the head of an open file says. None if it is not a shared file of this boot. This fails where its length or its
/// head can't be read.
fn head_of_file(file: &File, boot: &[u8; BOOT_LEN]) -> io::Result<Option<Head>> {
    if file.metadata()?.len() != FILE_LEN as u64 {
        return Ok(None);
    }
    let mut head = [0; HEAD_LEN];
    FileExt::read_exact_at(file, &mut head, 0)?;
    Ok(decode_head(&head, boot).ok())
}

/// The index of an open file. None if it is not a shared file of this boot and by this clock. This fails where its length or
/// its head can't be read.
fn index_of_file(file: &File, of: &Kind) -> io::Result<Option<[u8; 8]>> {
    match head_of_file(file, &of.boot)? {
        Some(head) => Ok(head.index_by(of.clock)),
        None => Ok(None),
    }
}

/// Opens the file that was found, if it is a shared file of this kind. None where a new one is to take its place.
fn adopted_at<R: Files<File = File>>(
    rt: &R,
    path: &str,
    found: &Facts,
    of: &Kind,
) -> io::Result<Option<File>> {
    let mut how = OpenOptions::new();
    how.read(true).write(true);
    let file = match open_regular(rt, path, &how) {
        Ok(file) => file,
        Err(error) => {
            if error.kind() == ErrorKind::PermissionDenied {
                return Ok(None);
            }
            return Err(error);
        }
    };
    if !is_same_file(found, &facts_of(&file)?) {
        return Ok(None);
    }
    match index_of_file(&file, of) {
        Ok(Some(_)) => Ok(Some(file)),
        _ => Ok(None),
    }
}

/// The file that is there, if a writer of this owner may go on in it. None where a new one may take its place.
fn found_at<R: Files<File = File>>(
    rt: &R,
    path: &str,
    owner: u32,
    of: &Kind,
) -> io::Result<Option<File>> {
    let found = link_facts_at(rt, path)?;
    match (adoption_of(found, owner), found) {
        (Adoption::Adopt, Some(facts)) => adopted_at(rt, path, &facts, of),
        (Adoption::Refuse, _) => Err(Error::from(ErrorKind::InvalidInput)),
        _ => Ok(None),
    }
}

/// Makes the draft, which is empty, a file without publications, syncs it and renames it.
fn install<R: Files<File = File>>(
    rt: &R,
    paths: &Paths,
    draft: File,
    of: &Kind,
) -> io::Result<File> {
    let mut bytes = [0; FILE_LEN];
    bytes[..HEAD_LEN].copy_from_slice(&encode_head(&[0; 8], &of.boot, of.clock));
    FileExt::write_all_at(&draft, &bytes, 0)?;
    draft.sync_all()?;
    fs::rename(rt, paths.draft.as_str(), paths.file.as_str())?;
    Ok(draft)
}

/// The file that is there, or the draft in its place. Who owns the draft, which was just made, has to own what is there.
fn chosen_at<R: Files<File = File>>(
    rt: &R,
    paths: &Paths,
    draft: File,
    of: &Kind,
) -> io::Result<File> {
    let owner = facts_of(&draft)?.owner;
    match found_at(rt, paths.file.as_str(), owner, of)? {
        Some(file) => Ok(file),
        None => install(rt, paths, draft, of),
    }
}

/// The file that is there, or a new one. No draft is left.
fn file_at<R: Files<File = File>>(rt: &R, paths: &Paths, of: &Kind) -> io::Result<File> {
    let draft = create_new(rt, paths.draft.as_str(), 0o644)?;
    let chosen = chosen_at(rt, paths, draft, of);
    // Where the draft took the place of the file, nothing is left to remove.
    let _ = fs::remove_file(rt, paths.draft.as_str());
    chosen
}

/// The lock file at this path, locked as long as it is open.
fn locked_at<R: Files<File = File>>(rt: &R, path: &str) -> Result<File, WriteFault>
    ensures refused { IfErr result (λ fault. (fault ≡ WriteFault.Locked) ⊎ (fault ≡ WriteFault.CannotOpen)) }
{
    match lock_at(rt, path, 0o600) {
        Ok(lock) => Ok(lock),
        Err(TryLockError::WouldBlock) => Err(WriteFault::Locked),
        Err(TryLockError::Error(_)) => Err(WriteFault::CannotOpen),
    }
}

/// Makes the folder if it is missing, so that all may read in it (mode 0755).
fn make_folder<R: Files>(rt: &R, folder: &str) -> io::Result<()> {
    let mut builder = DirBuilder::new();
    builder.recursive(true);
    builder.mode(0o755);
    builder.create(rt, folder)
}

/// The paths of the file, of its draft and of its lock.
#[derive(Drop)]
struct Paths {
    file: String,
    draft: String,
    lock: String,
}

/// The paths in the folder.
fn paths_in(alloc: Global, folder: &str, name: &str) -> Result<Paths, AllocError> {
    Ok(Paths {
        file: format!(in alloc; "{folder}/{name}")?,
        draft: format!(in alloc; "{folder}/{name}.new")?,
        lock: format!(in alloc; "{folder}/{name}.lock")?,
    })
}

/// The place of these open files, if both paths show them.
fn place_of<'a, R: Files<File = File>>(
    rt: &'a R,
    paths: Paths,
    file: File,
    lock: File,
) -> Option<FilePlace<'a, R>> {
    let held = Held {
        lock: facts_of(&lock).ok()?,
        file: facts_of(&file).ok()?,
    };
    let place = FilePlace {
        rt,
        paths,
        held,
        file,
        lock,
        failures: 0,
    };
    if place.is_there() { Some(place) } else { None }
}

/// Opens the file `name` in this folder for writing, for publications by this clock. A missing folder is made (mode 0755).
/// The writer locks `name.lock` (mode 0600) as long as it lives. A shared file of this boot and by this clock stays as it
/// is, and publications go on behind its last one, so readers that have mapped it go on: if it is a regular file without
/// another name, is owned by whom a new file is owned by, and may be written by nobody else. Otherwise a new file (mode
/// 0644) is made as `name.new`, synced, and renamed in the place of a file or symlink. So a file by the other clock is
/// replaced, and one of version 1 or 2, which is no shared file here: who has it mapped sees no further publication in it.
///
/// Refuses with 1702 `OtherClock` where the monotonic clock of this process is not that of the host, since it runs in a
/// time namespace that shifts it: nothing is made or locked then. Refuses with 1707 `Locked` where another process writes
/// the file, and with 1701 `CannotOpen` where the folder, the lock, the name of the boot, the offsets of the clocks or the
/// file can't be opened, read or made, where it is out of memory, or where a FIFO, a device, a socket or a folder is at the
/// path of the file or of the lock: that is left alone, and never waited for. Nothing stays open or locked then. It may be
/// called again at any time.
pub fn open_file<'a, R: Files<File = File>>(
    rt: &'a R,
    alloc: Global,
    folder: &str,
    name: &str,
    clock: HostClock,
) -> Result<SharedTeller<FilePlace<'a, R>>, WriteFault>
    ensures whole { IfOk result (λ teller. teller.broken ≡ false) }
    ensures refused { IfErr result (λ fault. (fault ≡ WriteFault.OtherClock) ⊎ ((fault ≡ WriteFault.Locked) ⊎ (fault ≡ WriteFault.CannotOpen))) }
{
    match has_host_clock(rt) {
        Ok(true) => {}
        Ok(false) => return Err(WriteFault::OtherClock),
        Err(_) => return Err(WriteFault::CannotOpen),
    }
    let Ok(paths) = paths_in(alloc, folder, name) else {
        return Err(WriteFault::CannotOpen);
    };
    if make_folder(rt, folder).is_err() {
        return Err(WriteFault::CannotOpen);
    }
    let lock = locked_at(rt, paths.lock.as_str())?;
    let Ok(boot) = boot_name(rt) else {
        return Err(WriteFault::CannotOpen);
    };
    let of = Kind { boot, clock };
    let Ok(file) = file_at(rt, &paths, &of) else {
        return Err(WriteFault::CannotOpen);
    };
    let Ok(Some(index)) = index_of_file(&file, &of) else {
        return Err(WriteFault::CannotOpen);
    };
    match place_of(rt, paths, file, lock) {
        Some(place) => Ok(SharedTeller::resume(place, &index)),
        None => Err(WriteFault::CannotOpen),
    }
}

/// A file of the operating system, open for reading. It is read by calls and never mapped, so a file that is truncated
/// meanwhile makes a look fail, and ends no process. Nothing is claimed of what the file shows.
#[derive(Drop)]
pub struct FileView {
    file: File,
    /// The clock of the file.
    pub(crate) clock: HostClock,
}

impl ReadPlace for FileView {
    ghost looks = { λ _ _ _. Unit {0} };

    fn index(&mut self) -> Option<[u8; 8]> {
        let mut index = [0; 8];
        FileExt::read_exact_at(&self.file, &mut index, 16).ok()?;
        Some(index)
    }

    fn slot(&mut self, offset: u64) -> Option<[u8; SLOT_LEN]> {
        let mut bytes = [0; SLOT_LEN];
        FileExt::read_exact_at(&self.file, &mut bytes, offset).ok()?;
        Some(bytes)
    }
}

/// Why there is no view where the opening failed with an error of this kind: what is there is not a regular file, or it
/// can't be opened.
fn fault_of(kind: ErrorKind) -> SharedFault
    ensures refused { (result ≡ SharedFault.CannotOpen) ⊎ (result ≡ SharedFault.BadFile) }
{
    match kind {
        ErrorKind::InvalidInput => SharedFault::BadFile,
        _ => SharedFault::CannotOpen,
    }
}

/// Opens the file at this path for reading, by whichever clock it is: [`SharedReader::clock`] tells it. The reader goes on
/// if the writer dies and another one goes on. If the file was made anew, it has to be opened again. If it was truncated, a reading is refused with 1701 `CannotOpen`, or with 801
/// or 1703 where it was made longer again.
///
/// Refuses with 1701 `CannotOpen` where the file, the name of the boot or the offsets of the clocks of this process can't
/// be opened or read; and with 1702 `BadFile` where the monotonic clock of this process is not that of the host, since it
/// runs in a time namespace that shifts it, or where the file is not a shared file of this boot, or not of its 320 bytes. A
/// FIFO, a device, a socket or a folder is refused so without being opened.
pub fn open_view<R: Files<File = File>>(
    rt: &R,
    path: &str,
) -> Result<SharedReader<FileView>, SharedFault>
    ensures refused { IfErr result (λ fault. (fault ≡ SharedFault.CannotOpen) ⊎ (fault ≡ SharedFault.BadFile)) }
{
    match has_host_clock(rt) {
        Ok(true) => {}
        Ok(false) => return Err(SharedFault::BadFile),
        Err(_) => return Err(SharedFault::CannotOpen),
    }
    let Ok(boot) = boot_name(rt) else {
        return Err(SharedFault::CannotOpen);
    };
    let mut how = OpenOptions::new();
    how.read(true);
    let file = match open_regular(rt, path, &how) {
        Ok(file) => file,
        Err(error) => return Err(fault_of(error.kind())),
    };
    match head_of_file(&file, &boot) {
        Ok(Some(head)) => Ok(SharedReader::new(FileView {
            file,
            clock: head.clock,
        })),
        Ok(None) => Err(SharedFault::BadFile),
        Err(_) => Err(SharedFault::CannotOpen),
    }
}
