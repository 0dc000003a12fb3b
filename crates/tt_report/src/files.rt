//! The files that are replaced as a whole: the status file and those of the evidence.

ghost use Rattle.std.specs.Prelude.{◌≡◌, ◌++◌, OnOk, map, string_bytes};
ghost use Rattle.tt_report.specs.Shown.{shown_text};

use std::alloc::{AllocError, Global};
use std::fs::{File, Files};
use std::io;
use std::sync::Arc;
use tt_status::{MasterStatus, Status, push_master_status, push_status};

/// The permissions of a file: all may read it.
const MODE: u32 = 0o644;

/// A file system on which a file can be replaced. The runtime handle is one. A thread can be given it, since no type of
/// files belongs to it.
pub trait Disk {
    /// Replaces the file at a path as a whole by these bytes: a reader finds the file before or this one. The bytes are
    /// written to a new file at `draft`, which all may read (mode 0644) and which then takes the place of the file. What
    /// is left at `draft` is removed first, and never opened. Refuses where the operating system does.
    fn replace(&self, path: &str, draft: &str, bytes: &[u8]) -> io::Result<()>;
}

impl<R: Files<File = File>> Disk for R {
    fn replace(&self, path: &str, draft: &str, bytes: &[u8]) -> io::Result<()> {
        tt_files::replace(self, path, draft, bytes, MODE, false)
    }
}

/// The status that a status file shows.
#[derive(Drop)]
pub(crate) enum Shown {
    /// That of a machine.
    Machine(Status),
    /// That of a master.
    Master(Arc<MasterStatus, Global>),
}

impl Shown {
    /// Adds its text to a text: that of a machine whose sources have these addresses, or that of a master.
    fn push(&self, text: &mut String, addresses: &[String]) -> Result<(), AllocError>
        ensures written { OnOk result (string_bytes text.new ≡ string_bytes text.old ++ shown_text self.now (map string_bytes addresses.now)) }
    {
        match self {
            Shown::Machine(status) => push_status(text, status, addresses),
            Shown::Master(status) => push_master_status(text, &**status),
        }
    }
}

/// A file that is replaced as a whole, and the draft beside it.
#[derive(Drop)]
pub(crate) struct WholeFile {
    path: String,
    draft: String,
}

impl WholeFile {
    /// The file at this path. Its draft has the same path with `.new` behind it.
    fn at(alloc: Global, path: &str) -> Result<WholeFile, AllocError> {
        Ok(WholeFile {
            path: String::from_str(alloc, path)?,
            draft: format!(in alloc; "{path}.new")?,
        })
    }

    /// The file at this path, if there is a path.
    pub(crate) fn at_some(
        alloc: Global,
        path: Option<&str>,
    ) -> Result<Option<WholeFile>, AllocError> {
        match path {
            Some(path) => Ok(Some(WholeFile::at(alloc, path)?)),
            None => Ok(None),
        }
    }

    /// Replaces the file by a text.
    fn write<D: Disk>(&self, disk: &D, text: &str) -> io::Result<()> {
        disk.replace(self.path.as_str(), self.draft.as_str(), text.as_bytes())
    }

    /// Replaces the file by the text of a status, if these are the addresses of the sources.
    pub(crate) fn write_status<D: Disk>(
        &self,
        disk: &D,
        alloc: Global,
        status: &Shown,
        addresses: &[String],
    ) -> io::Result<()> {
        let mut text = String::new(alloc);
        status.push(&mut text, addresses)?;
        self.write(disk, text.as_str())
    }
}

/// The evidence before a break of an assumption, and that of it.
#[derive(Drop)]
pub(crate) struct Break {
    pub(crate) earlier: String,
    pub(crate) later: String,
}

/// The files of the evidence.
#[derive(Drop)]
pub(crate) struct EvidenceFiles {
    newest: WholeFile,
    earlier: WholeFile,
    later: WholeFile,
}

impl EvidenceFiles {
    /// The newest evidence at this path, and that of a break at this path with `.break-1` and `.break-2` behind it, if
    /// there is a path.
    pub(crate) fn at_some(
        alloc: Global,
        path: Option<&str>,
    ) -> Result<Option<EvidenceFiles>, AllocError> {
        match path {
            Some(path) => Ok(Some(EvidenceFiles::at(alloc, path)?)),
            None => Ok(None),
        }
    }

    /// The files of the evidence for this path.
    fn at(alloc: Global, path: &str) -> Result<EvidenceFiles, AllocError> {
        let first = format!(in alloc; "{path}.break-1")?;
        let second = format!(in alloc; "{path}.break-2")?;
        Ok(EvidenceFiles {
            newest: WholeFile::at(alloc, path)?,
            earlier: WholeFile::at(alloc, first.as_str())?,
            later: WholeFile::at(alloc, second.as_str())?,
        })
    }

    /// Replaces the file of the newest evidence by this text.
    pub(crate) fn write_newest<D: Disk>(&self, disk: &D, text: &str) -> io::Result<()> {
        self.newest.write(disk, text)
    }

    /// Replaces the two files of a break by these texts. Where one can't be written, the other one is still tried.
    pub(crate) fn write_break<D: Disk>(&self, disk: &D, of: &Break) -> io::Result<()> {
        let earlier = self.earlier.write(disk, of.earlier.as_str());
        self.later.write(disk, of.later.as_str())?;
        earlier
    }
}
