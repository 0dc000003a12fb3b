//! Which files paths name, as far as their texts tell.

ghost use Rattle.std.specs.Prelude.{◌≡◌, ◌++◌, IfOk, OnOk, string_bytes, option_copied};
ghost use Rattle.tt_settings.specs.Path.{is_of, is_same, meets, meets_record, meets_some, meets_state, next_of, plain, written};

use crate::texts::FilePath;
use std::alloc::{AllocError, Global};

/// Where a byte of a path stands.
#[derive(Clone, Copy)]
enum Place {
    /// At the start of a name.
    Start,
    /// Behind a dot that begins a name.
    Dot,
    /// Inside a name.
    Inside,
}

/// Where the byte behind this one stands.
fn next_of(place: Place, byte: u8) -> Place
    ensures { result ≡ next_of place byte }
{
    match (place, byte) {
        (_, b'/') => Place::Start,
        (Place::Start, b'.') => Place::Dot,
        _ => Place::Inside,
    }
}

/// Adds what a byte adds to the names before it.
fn push_byte(names: &mut Vec<u8>, place: Place, byte: u8) -> Result<(), AllocError>
    ensures { OnOk result (names.new.items ≡ names.old.items ++ written place byte) }
{
    match place {
        Place::Start => {
            if byte != b'/' && byte != b'.' {
                names.push(byte)?;
            }
        }
        Place::Dot => {
            if byte != b'/' {
                names.push(b'.')?;
                names.push(byte)?;
            }
        }
        Place::Inside => names.push(byte)?,
    }
    Ok(())
}

/// A path without doubled slashes and names that are a dot alone, and with one slash at its end.
fn plain(alloc: Global, path: &[u8]) -> Result<Vec<u8>, AllocError>
    ensures { IfOk result (λ names. names.items ≡ plain path.now) }
{
    let mut names = Vec::new(alloc);
    if path.first() == Some(&b'/') {
        names.push(b'/')?;
    }
    let mut place = Place::Start;
    for byte in path {
        push_byte(&mut names, place, *byte)?;
        place = next_of(place, *byte);
    }
    if let Place::Inside = place {
        names.push(b'/')?;
    }
    Ok(names)
}

/// Whether two paths name the same file.
#[tactic(auto, unfolding(crate::specs::Path::is_same))]
fn is_same(alloc: Global, one: &str, other: &str) -> Result<bool, AllocError>
    ensures { IfOk result (λ same. same ≡ is_same one.now other.now) }
{
    let one = plain(alloc, one.as_bytes())?;
    let other = plain(alloc, other.as_bytes())?;
    Ok(one.as_slice() == other.as_slice())
}

/// A path with an end.
pub(crate) fn ended(alloc: Global, path: &str, end: &str) -> Result<String, AllocError>
    ensures { IfOk result (λ whole. string_bytes whole ≡ path.now ++ end.now) }
{
    let mut whole = String::from_str(alloc, path)?;
    whole.push_str(end)?;
    Ok(whole)
}

/// Whether a file is the one at a path, its draft or its lock.
#[tactic(auto, unfolding(crate::specs::Path::is_of))]
fn is_of(alloc: Global, path: &str, file: &str) -> Result<bool, AllocError>
    ensures { IfOk result (λ of. of ≡ is_of path.now file.now) }
{
    let draft = ended(alloc, path, ".new")?;
    let lock = ended(alloc, path, ".lock")?;
    let at_path = is_same(alloc, path, file)?;
    let at_draft = is_same(alloc, draft.as_str(), file)?;
    let at_lock = is_same(alloc, lock.as_str(), file)?;
    Ok(at_path || at_draft || at_lock)
}

/// Whether two paths, with their drafts `.new` and locks `.lock`, have a file in common, by their texts as [`read`](crate::read)
/// compares them. None of both is looked at.
#[tactic(auto, unfolding(crate::specs::Path::meets))]
pub fn meets(alloc: Global, path: &str, other: &str) -> Result<bool, AllocError>
    ensures { IfOk result (λ met. met ≡ meets path.now other.now) }
{
    let draft = ended(alloc, other, ".new")?;
    let lock = ended(alloc, other, ".lock")?;
    let at_other = is_of(alloc, path, other)?;
    let at_draft = is_of(alloc, path, draft.as_str())?;
    let at_lock = is_of(alloc, path, lock.as_str())?;
    Ok(at_other || at_draft || at_lock)
}

/// Whether a path, with its draft and its lock, and a file with its draft have one in common.
#[tactic(auto, unfolding(crate::specs::Path::meets_record))]
fn meets_record(alloc: Global, path: &str, file: &str) -> Result<bool, AllocError>
    ensures { IfOk result (λ met. met ≡ meets_record path.now file.now) }
{
    let draft = ended(alloc, file, ".new")?;
    let at_file = is_of(alloc, path, file)?;
    let at_draft = is_of(alloc, path, draft.as_str())?;
    Ok(at_file || at_draft)
}

/// Whether a path, with its draft and its lock, and the folder of the epoch, with the files in it, have one in common, by their
/// texts as [`read`](crate::read) compares them. None of both is looked at.
#[tactic(auto, unfolding(crate::specs::Path::meets_state))]
pub fn meets_state(alloc: Global, path: &str, state: &str) -> Result<bool, AllocError>
    ensures { IfOk result (λ met. met ≡ meets_state path.now state.now) }
{
    let epoch = ended(alloc, state, "/epoch")?;
    let record = ended(alloc, state, "/break")?;
    let lock = ended(alloc, state, "/lock")?;
    let at_folder = is_of(alloc, path, state)?;
    let at_epoch = meets_record(alloc, path, epoch.as_str())?;
    let at_record = meets_record(alloc, path, record.as_str())?;
    let at_lock = is_of(alloc, path, lock.as_str())?;
    Ok(at_folder || at_epoch || at_record || at_lock)
}

/// Whether a path meets one that may be absent.
pub(crate) fn meets_some(
    alloc: Global,
    path: &str,
    other: Option<&FilePath>,
) -> Result<bool, AllocError>
    ensures { IfOk result (λ met. met ≡ meets_some path.now (option_copied other.entry)) }
{
    match other {
        Some(other) => meets(alloc, path, other.as_str()),
        None => Ok(false),
    }
}
