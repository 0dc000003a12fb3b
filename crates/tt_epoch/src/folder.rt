//! The store in a folder of files, which one process holds at a time.

use crate::epochs::{after, last_of, unread};
use crate::faults::EpochFault;
use crate::stores::{ReadFault, Store};
use crate::text::{epoch_of, epoch_text};
use std::alloc::Global;
use std::fs::{self, DirBuilder, File, Files, OpenFile, OpenOptions, TryLockError};
use std::io::{self, ErrorKind, Read, Write};
use std::os::unix::fs::DirBuilderExt;
use tt_files::{Kind, Reason, create_new, facts_at, link_facts_at, lock_at, open_regular};

/// The greatest length of an epoch file, in bytes.
const MAX_LEN: usize = 32;

/// The part of a mode that is the type of the file, and that of a folder.
const TYPE: u32 = 0o170000;

const FOLDER: u32 = 0o040000;

/// A folder with the file `epoch`, its draft `epoch.new`, and the file `lock`. The lock is held as long as the store
/// lives, so no other process takes an epoch from this folder. `epoch` and `lock` are opened only where they are regular
/// files, so a FIFO there is refused and never waited for. `epoch.new` is made anew each time. Nothing is claimed of what
/// the calls of the operating system do.
#[derive(Drop)]
pub struct FolderStore<'a, R> {
    rt: &'a R,
    folder: &'a str,
    path: String,
    draft: String,
    lock: File,
}

impl<'a, R: Files<File = File>> FolderStore<'a, R> {
    /// The store in this folder. A missing folder is made, for its owner alone (mode 0700); its files have mode 0600.
    ///
    /// Refuses with 1 `Memory` where it is out of memory, with 1812 `FolderFailed` where the path is not a folder's and none
    /// can be made there, with 1812 `LockFailed` where the lock file can't be made or opened or is not a regular file, and
    /// with 1815 `Locked` where another process holds the folder. No epoch was read or taken then.
    pub fn open(rt: &'a R, alloc: Global, folder: &'a str) -> Result<Self, EpochFault> {
        let path = path_in(alloc, folder, "epoch")?;
        let draft = path_in(alloc, folder, "epoch.new")?;
        let lock_path = path_in(alloc, folder, "lock")?;
        make_folder(rt, folder)?;
        let lock = locked_at(rt, lock_path.as_str())?;
        Ok(FolderStore {
            rt,
            folder,
            path,
            draft,
            lock,
        })
    }

    /// The number in the file. None if there is no file.
    fn load(&self) -> Result<Option<u64>, ReadFault> {
        number_at(self.rt, self.path.as_str())
    }

    /// Writes the draft.
    fn save(&self, number: u64) -> io::Result<()> {
        let mut file = create_new(self.rt, self.draft.as_str(), 0o600)?;
        let text = epoch_text(number);
        file.write_all(text.as_str().as_bytes())
    }

    /// Syncs the draft.
    fn fix_draft(&self) -> io::Result<()> {
        let file = open_regular(self.rt, self.draft.as_str(), &reading())?;
        file.sync_all()
    }

    /// Syncs the folder.
    fn fix_folder(&self) -> io::Result<()> {
        let file = File::open(self.rt, self.folder)?;
        file.sync_all()
    }
}

/// Refuses a folder that [`FolderStore::open`] would refuse, as far as that shows without a change: with 1812
/// `FolderFailed` where its path is not a folder's, with 1812 `LockFailed` where `lock` in it is not a regular file that can
/// be opened for writing; and with 1 `Memory`. A missing folder and a missing `lock` would be made. It locks nothing, so another process may hold the folder.
pub fn check_folder<R: Files<File = File>>(
    rt: &R,
    alloc: Global,
    folder: &str,
) -> Result<(), EpochFault> {
    let lock = path_in(alloc, folder, "lock")?;
    look_at(rt, folder)?;
    check_lock(rt, lock.as_str())
}

/// Refuses what is at the path of a folder and is none.
fn look_at<R: Files>(rt: &R, folder: &str) -> Result<(), EpochFault> {
    match facts_at(rt, folder) {
        Ok(None) => Ok(()),
        Ok(Some(facts)) if facts.mode & TYPE == FOLDER => Ok(()),
        Ok(Some(_)) => Err(EpochFault::FolderFailed(Reason::NotFolder)),
        Err(error) => Err(EpochFault::FolderFailed(Reason::of(&error))),
    }
}

/// Refuses what is at the path of a lock file and is not a regular file that can be opened for writing.
fn check_lock<R: Files<File = File>>(rt: &R, path: &str) -> Result<(), EpochFault> {
    let mut how = OpenOptions::new();
    how.write(true);
    match link_facts_at(rt, path) {
        Ok(None) => Ok(()),
        Ok(Some(facts)) if facts.kind == Kind::Regular => match open_regular(rt, path, &how) {
            Ok(_) => Ok(()),
            Err(error) => Err(EpochFault::LockFailed(Reason::of(&error))),
        },
        Ok(Some(_)) => Err(EpochFault::LockFailed(Reason::NotRegular)),
        Err(error) => Err(EpochFault::LockFailed(Reason::of(&error))),
    }
}

/// Refuses an epoch file in this folder after which [`next_epoch`](crate::next_epoch) would give none: with 1811
/// `ReadFailed` where it can't be read, 1813 `NotAnEpochFile`, 1814 `UsedUp`, and 1 `Memory`. It locks and changes nothing.
pub fn check_epoch<R: Files<File = File>>(
    rt: &R,
    alloc: Global,
    folder: &str,
) -> Result<(), EpochFault> {
    let path = path_in(alloc, folder, "epoch")?;
    match number_at(rt, path.as_str()) {
        Err(fault) => Err(unread(&fault)),
        Ok(file) => match after(last_of(file)) {
            Some(_) => Ok(()),
            None => Err(EpochFault::UsedUp),
        },
    }
}

/// The number of the epoch file at this path. None if there is no file.
fn number_at<R: Files<File = File>>(rt: &R, path: &str) -> Result<Option<u64>, ReadFault> {
    match open_regular(rt, path, &reading()) {
        Ok(mut file) => number_in(&mut file),
        Err(error) => {
            if error.kind() == ErrorKind::NotFound {
                Ok(None)
            } else {
                Err(ReadFault::Failed(Reason::of(&error)))
            }
        }
    }
}

/// How a file is opened that is read and not made.
fn reading() -> OpenOptions {
    let mut how = OpenOptions::new();
    how.read(true);
    how
}

/// The path of a file in the folder.
fn path_in(alloc: Global, folder: &str, name: &str) -> Result<String, EpochFault> {
    match format!(in alloc; "{folder}/{name}") {
        Ok(path) => Ok(path),
        Err(_) => Err(EpochFault::Memory),
    }
}

/// Makes the folder if it is missing, for its owner alone.
fn make_folder<R: Files>(rt: &R, folder: &str) -> Result<(), EpochFault> {
    look_at(rt, folder)?;
    let mut builder = DirBuilder::new();
    builder.recursive(true);
    builder.mode(0o700);
    match builder.create(rt, folder) {
        Ok(()) => Ok(()),
        Err(error) => Err(EpochFault::FolderFailed(Reason::of(&error))),
    }
}

/// The lock file at this path, locked as long as it is open.
fn locked_at<R: Files<File = File>>(rt: &R, path: &str) -> Result<File, EpochFault> {
    match lock_at(rt, path, 0o600) {
        Ok(file) => Ok(file),
        Err(TryLockError::WouldBlock) => Err(EpochFault::Locked),
        Err(TryLockError::Error(error)) => Err(EpochFault::LockFailed(Reason::of(&error))),
    }
}

/// The number of an epoch file, whole.
fn number_in(file: &mut File) -> Result<Option<u64>, ReadFault> {
    let metadata = match file.metadata() {
        Ok(metadata) => metadata,
        Err(error) => return Err(ReadFault::Failed(Reason::of(&error))),
    };
    if metadata.len() > MAX_LEN as u64 {
        return Err(ReadFault::Foreign);
    }
    let mut bytes = [0; MAX_LEN];
    let text = &mut bytes[..metadata.len() as usize];
    if let Err(error) = file.read_exact(text) {
        return Err(ReadFault::Failed(Reason::of(&error)));
    }
    match epoch_of(text) {
        Some(number) => Ok(Some(number)),
        None => Err(ReadFault::Foreign),
    }
}

/// The answer of a store.
fn answer_of(done: io::Result<()>) -> Result<(), Reason> {
    match done {
        Ok(()) => Ok(()),
        Err(error) => Err(Reason::of(&error)),
    }
}

impl<'a, R: Files<File = File>> Store for FolderStore<'a, R> {
    ghost does = { λ _ _ _ _. Unit {0} };

    fn read(&mut self) -> Result<Option<u64>, ReadFault> {
        self.load()
    }

    fn write(&mut self, number: u64) -> Result<(), Reason> {
        answer_of(self.save(number))
    }

    fn sync_draft(&mut self) -> Result<(), Reason> {
        answer_of(self.fix_draft())
    }

    fn install(&mut self) -> Result<(), Reason> {
        answer_of(fs::rename(self.rt, self.draft.as_str(), self.path.as_str()))
    }

    fn sync_folder(&mut self) -> Result<(), Reason> {
        answer_of(self.fix_folder())
    }
}
