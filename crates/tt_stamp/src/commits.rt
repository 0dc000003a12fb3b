//! What a book keeps of a commit.

/// The id of a commit: the session that began it, and its number in that session.
#[derive(Clone, Copy, Debug, PartialEq, Eq, PartialOrd, Ord, Hash)]
pub struct Id {
    /// The session that began it.
    pub session: u32,
    /// Its number in that session.
    pub number: u64,
}

/// Evidence that a commit was released: its stamp was below the earliest of a reading, so the stamp has surely passed.
#[derive(Clone, Copy, Debug, PartialEq, Eq)]
pub struct Receipt {
    /// Which commit.
    pub id: Id,
    /// Its stamp, in nanoseconds.
    pub stamp: u64,
    /// The earliest of the reading that released it, in nanoseconds.
    pub earliest: u64,
}

/// An entry of the history of a book.
#[derive(Clone, Copy, Debug, PartialEq, Eq)]
pub enum Entry {
    /// A commit was queued.
    Queued {
        /// Which commit.
        id: Id,
        /// Its stamp, in nanoseconds.
        stamp: u64,
    },
    /// A commit was released.
    Passed(Receipt),
}

/// The standing of a commit that was queued: it is pending, or its receipt has this place in the history, oldest first.
#[derive(Clone, Copy)]
pub(crate) enum Standing {
    Waits,
    Released(usize),
}
