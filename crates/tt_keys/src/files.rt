//! Files of keys.

ghost use Rattle.std.specs.Prelude.{◌≡◌, ◌<◌, length, IfOk, OnOk, IfSome, IsErrOf, Ok};
ghost use Rattle.tt_stream.specs.Counts.{HasFailed};
ghost use Rattle.tt_seal.specs.Sealing.{HaveOwnNumbers};
ghost use Rattle.tt_keys.specs.Access.{access_at};
ghost use Rattle.tt_keys.specs.Text.{IsKeysText};
ghost use Rattle.tt_files.specs.declared.reasons.Reason.TheVariants.{Other};

use crate::access::access_of;
use crate::faults::KeysFault;
use crate::texts::keys_of_text;
use std::alloc::Global;
use std::fs::{File, Files, OpenOptions};
use tt_files::{Facts, Reason, facts_of, open_regular};
use tt_seal::Key;
use tt_stream::{ByteReader, Counted, ReadFault, read_to_end};

/// The most bytes of a file of keys: 64 KiB.
const MAX_LEN: usize = 65_536;

/// The text that a device gives, for this user, where these are the facts of its file. Refuses with 2212 `Mode` and 2213
/// `Owner` as [`access_of`], then with 2211 `CannotRead` where the device failed, 2214 `TooLong` where it gives more than
/// 64 KiB, and 1 `Memory`.
pub fn text_from<R: ByteReader>(
    alloc: Global,
    reader: &mut R,
    facts: &Facts,
    user: u32,
) -> Result<Vec<u8>, KeysFault>
    ensures read { IfOk result (λ text. IfSome (R.left reader.old) (λ left. text.items ≡ left)) }
    ensures good { OnOk result (access_at facts.now.mode facts.now.owner user ≡ Ok tt) }
    ensures failed { IsErrOf result (KeysFault.CannotRead Other) → HasFailed (R.failed reader.old) (R.failed reader.new) }
    ensures too_long { IsErrOf result KeysFault.TooLong → IfSome (R.left reader.old) (λ text. 65536 < length text) }
{
    match access_of(facts.mode, facts.owner, user) {
        Ok(()) => {}
        Err(fault) => return Err(fault),
    }
    match read_to_end(alloc, reader, MAX_LEN, MAX_LEN as u32 + 2) {
        Ok(text) => Ok(text),
        Err(ReadFault::Failed) => Err(KeysFault::CannotRead(Reason::Other)),
        Err(ReadFault::Memory) => Err(KeysFault::Memory),
        Err(_) => Err(KeysFault::TooLong),
    }
}

/// The keys that a device gives, for this user, where these are the facts of its file. Refuses as [`text_from`], then as
/// [`keys_of_text`].
pub fn keys_from<R: ByteReader>(
    alloc: Global,
    reader: &mut R,
    facts: &Facts,
    user: u32,
) -> Result<Vec<Key>, KeysFault>
    ensures read { IfOk result (λ keys. IfSome (R.left reader.old) (λ text. IsKeysText text keys.items)) }
    ensures numbers { IfOk result (λ keys. HaveOwnNumbers keys.items) }
    ensures good { OnOk result (access_at facts.now.mode facts.now.owner user ≡ Ok tt) }
    ensures failed { IsErrOf result (KeysFault.CannotRead Other) → HasFailed (R.failed reader.old) (R.failed reader.new) }
    ensures too_long { IsErrOf result KeysFault.TooLong → IfSome (R.left reader.old) (λ text. 65536 < length text) }
{
    let text = text_from(alloc, reader, facts, user)?;
    keys_of_text(alloc, text.as_slice())
}

/// An open file and its facts. Refuses with 2211 `CannotRead` where the path is not a regular file's, or it can't be opened.
fn open_at<R: Files<File = File>>(rt: &R, path: &str) -> Result<(File, Facts), KeysFault> {
    let mut how = OpenOptions::new();
    how.read(true);
    let file = match open_regular(rt, path, &how) {
        Ok(file) => file,
        Err(error) => return Err(KeysFault::CannotRead(Reason::of(&error))),
    };
    match facts_of(&file) {
        Ok(facts) => Ok((file, facts)),
        Err(error) => Err(KeysFault::CannotRead(Reason::of(&error))),
    }
}

/// The text of the file of keys at this path, for this user. The mode and the owner are those of the file that is open.
///
/// Refuses with 2211 `CannotRead` where the path is not a regular file's, or it can't be opened, and as [`text_from`].
pub fn text_at<R: Files<File = File>>(
    rt: &R,
    alloc: Global,
    path: &str,
    user: u32,
) -> Result<Vec<u8>, KeysFault> {
    let (file, facts) = open_at(rt, path)?;
    text_from(alloc, &mut Counted::new(file), &facts, user)
}

/// The keys of the file at this path, for this user. The mode and the owner are those of the file that is open, so no other
/// file can take its place between the look and the reading. Nothing is claimed of what the file holds.
///
/// Refuses with 2211 `CannotRead` where the path is not a regular file's, or it can't be opened, and as [`keys_from`].
pub fn keys_at<R: Files<File = File>>(
    rt: &R,
    alloc: Global,
    path: &str,
    user: u32,
) -> Result<Vec<Key>, KeysFault>
    // No two of the keys have one number.
    ensures numbers { IfOk result (λ keys. HaveOwnNumbers keys.items) }
{
    let (file, facts) = open_at(rt, path)?;
    keys_from(alloc, &mut Counted::new(file), &facts, user)
}
