//! What a writer does with what it finds at its paths.

ghost use Rattle.std.specs.Prelude.{◌≡◌, ◌↔◌, true};
ghost use Rattle.tt_shared.specs.Holding.{is_adoptable, adoption_at, Shows, StillThere};

use tt_files::{Facts, Kind, is_same_file};

/// The permissions by which others than the owner write.
const OTHERS_WRITE: u32 = 0o022;

/// What is done with what is at the path of a shared file.
#[derive(Clone, Copy, Debug, PartialEq, Eq)]
pub enum Adoption {
    /// The writer goes on in it, if it is a shared file of this boot.
    Adopt,
    /// A new file takes its place.
    Replace,
    /// It is left alone, and no file is made.
    Refuse,
}

/// Whether a writer may go on in this file: a regular file without another name, owned by `owner`, which nobody else may
/// write.
pub fn may_be_adopted(found: &Facts, owner: u32) -> bool
    ensures value { result ≡ is_adoptable found.now owner }
{
    let regular = match found.kind {
        Kind::Regular => true,
        _ => false,
    };
    regular && found.owner == owner && found.links == 1 && found.mode & OTHERS_WRITE == 0
}

/// What a writer of this owner does where this is at the path, or nothing. A symlink is not followed: it is replaced. A
/// FIFO, a device, a socket and a folder are left alone.
pub fn adoption_of(found: Option<Facts>, owner: u32) -> Adoption
    ensures value { result ≡ adoption_at found owner }
{
    let Some(facts) = found else {
        return Adoption::Replace;
    };
    if may_be_adopted(&facts, owner) {
        return Adoption::Adopt;
    }
    match facts.kind {
        Kind::Regular => Adoption::Replace,
        Kind::Symlink => Adoption::Replace,
        Kind::Other => Adoption::Refuse,
    }
}

/// The lock file and the shared file that a writer has open.
#[derive(Clone, Copy, Debug, PartialEq, Eq)]
pub struct Held {
    /// The lock file.
    pub lock: Facts,
    /// The shared file.
    pub file: Facts,
}

/// What is at the path of the lock file and at that of the shared file, if anything is there.
#[derive(Clone, Copy, Debug, PartialEq, Eq)]
pub struct Seen {
    /// What is at the path of the lock file.
    pub lock: Option<Facts>,
    /// What is at the path of the shared file.
    pub file: Option<Facts>,
}

/// Whether what was seen at a path is the file that is open.
fn shows(seen: Option<Facts>, held: &Facts) -> bool
    ensures { (result ≡ true) ↔ Shows seen held.now }
{
    match seen {
        Some(found) => is_same_file(held, &found),
        None => false,
    }
}

/// Whether both paths still show the files that are open.
pub fn still_there(held: &Held, seen: &Seen) -> bool
    ensures there { (result ≡ true) ↔ StillThere held.now seen.now }
{
    shows(seen.lock, &held.lock) && shows(seen.file, &held.file)
}
