//! The file of keys of a master, which is looked at again and again.

ghost use Rattle.std.specs.Prelude.{◌≡◌, ◌↔◌, IfOk, IfSome, IsTrue};
ghost use Rattle.tt_seal.specs.Sealing.{HaveOwnNumbers};
ghost use Rattle.ttd_masters.specs.Keys.{IsAsBefore, is_of_file as is_of_the_file, line_in as line_of_fault};

use std::alloc::Global;
use std::fs::{File, Files};
use std::io::Eprint;
use tt_files::process_owner;
use tt_keys::{KeysFault, keys_of_text, text_at};
use tt_seal::Key;

/// The number of the line that a fault names, counted from 1, or 0.
pub(crate) fn line_in(fault: KeysFault) -> u64
    ensures { result ≡ line_of_fault fault }
{
    match fault {
        KeysFault::BadLine(line) | KeysFault::SameNumber(line) => line as u64,
        _ => 0,
    }
}

/// Says on standard error why a file of keys gives none, behind its path and the line.
pub fn say_refusal<H: Eprint>(rt: &H, path: &str, fault: KeysFault) {
    let _ = match line_in(fault) {
        0 => eprint!(rt; "{path}: {fault}\n"),
        line => eprint!(rt; "{path}:{line}: {fault}\n"),
    };
}

/// Whether a fault says something of the file, which stays so until the file changes.
fn is_of_file(fault: KeysFault) -> bool
    ensures { result ≡ is_of_the_file fault }
{
    !matches!(
        fault,
        KeysFault::CannotRead(_) | KeysFault::UnknownUser(_) | KeysFault::Memory
    )
}

/// What a look at a file of keys found: its text, or why it has none.
type Found = Result<Vec<u8>, KeysFault>;

/// Whether a look found the same as the one before: the same text, or the same fault of the file.
fn is_as_before(before: &Option<Found>, found: &Found) -> bool
    ensures { IsTrue result ↔ IsAsBefore before.now found.now }
{
    match (before, found) {
        (Some(Ok(known)), Ok(text)) => known.as_slice() == text.as_slice(),
        (Some(Err(known)), Err(fault)) => *known == *fault && is_of_file(*fault),
        _ => false,
    }
}

/// A file of keys, and what the last look at it found. Its whole text is read at each look: no time that a file shows tells
/// whether it was written since.
#[derive(Drop)]
pub(crate) struct KeyFile<'a> {
    path: &'a str,
    seen: Option<Found>,
}

impl<'a> KeyFile<'a> {
    /// The file at this path, which is still to be read.
    pub(crate) fn new(path: &'a str) -> Self {
        KeyFile { path, seen: None }
    }

    /// The text of the file, or why there is none.
    fn text<R: Files<File = File>>(&self, rt: &R, alloc: Global) -> Found {
        match process_owner(rt) {
            Ok(user) => text_at(rt, alloc, self.path, user),
            Err(reason) => Err(KeysFault::UnknownUser(reason)),
        }
    }

    /// The keys of the file. None if it has the text, or the fault, of the look before.
    ///
    /// Refuses with 2211 `CannotRead` where it can't be read, with 2211 `UnknownUser` where the user of this process is not
    /// known, with 2212 `Mode`, 2213 `Owner`, 2214 `TooLong`, 2215 `BadLine`, 2216 `SameNumber`, and 1 `Memory`. After 2211 and 1 it counts as
    /// changed.
    pub(crate) fn look<R: Files<File = File>>(
        &mut self,
        rt: &R,
        alloc: Global,
    ) -> Result<Option<Vec<Key>>, KeysFault>
        ensures numbers { IfOk result (λ found. IfSome found (λ keys. HaveOwnNumbers keys.items)) }
    {
        let found = self.text(rt, alloc);
        if is_as_before(&self.seen, &found) {
            return Ok(None);
        }
        self.seen = None;
        let keys = match &found {
            Ok(text) => keys_of_text(alloc, text.as_slice()),
            Err(fault) => Err(*fault),
        };
        match keys {
            Ok(keys) => {
                self.seen = Some(found);
                Ok(Some(keys))
            }
            Err(fault) => {
                if is_of_file(fault) {
                    self.seen = Some(found);
                }
                Err(fault)
            }
        }
    }

    /// It counts as changed from now on.
    pub(crate) fn forget(&mut self) {
        self.seen = None
    }
}
