//! What is known of a file, and what is decided by it.

ghost use Rattle.std.specs.Prelude.{◌≡◌, ◌↔◌, true};
ghost use Rattle.tt_files.specs.Way.{way_at, IsSameFile, IsOnlyAt};

/// What a file is.
#[derive(Clone, Copy, Debug, PartialEq, Eq)]
pub enum Kind {
    /// A regular file.
    Regular,
    /// A symlink that was not followed, or that names nothing.
    Symlink,
    /// A FIFO, a device, a socket or a folder.
    Other,
}

/// What the operating system says of a file.
#[derive(Clone, Copy, Debug, PartialEq, Eq)]
pub struct Facts {
    /// What it is.
    pub kind: Kind,
    /// The number of its device.
    pub device: u64,
    /// The number of its inode on that device.
    pub inode: u64,
    /// The number of the user that owns it.
    pub owner: u32,
    /// Its type and permissions, as in `st_mode`.
    pub mode: u32,
    /// How many names it has in folders.
    pub links: u64,
}

/// What is done at a path to open it.
#[derive(Clone, Copy, Debug, PartialEq, Eq)]
pub enum Way {
    /// What is there is opened.
    Open,
    /// A new file is made, since nothing is there.
    Make,
    /// Nothing is there, and nothing is to be made.
    Missing,
    /// What is there is not a regular file. It is left unopened.
    Refuse,
}

/// What is done at a path where this was found, or nothing. `creates` says whether a missing file is to be made.
pub fn way_of(found: Option<Facts>, creates: bool) -> Way
    ensures value { result ≡ way_at found creates }
{
    match found {
        Some(facts) => match facts.kind {
            Kind::Regular => Way::Open,
            _ => Way::Refuse,
        },
        None => { if creates { Way::Make } else { Way::Missing } }
    }
}

/// Whether both are the same file: the same inode on the same device.
pub fn is_same_file(expected: &Facts, found: &Facts) -> bool
    ensures same { (result ≡ true) ↔ IsSameFile expected.now found.now }
{
    expected.device == found.device && expected.inode == found.inode
}

/// Whether a path itself shows the file that is open, and no other path does. So it is not what a symlink names.
pub fn is_only_at(held: &Facts, seen: Option<Facts>) -> bool
    ensures only { (result ≡ true) ↔ IsOnlyAt held.now seen }
{
    match seen {
        Some(found) => is_same_file(held, &found) && found.links == 1,
        None => false,
    }
}
