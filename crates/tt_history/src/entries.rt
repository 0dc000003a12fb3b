//! The entries of the log: one for each beginning of a history, one for each item, and one for each item that is shown.

/// An entry of the log. No value of this type is made.
pub struct Entry<T> {
    /// The chain of the entry, by the key of the pen that the chain began with. 0 if the entry only says that an item is
    /// shown.
    pub chain: u64,
    /// The key of the pen for the next item of the chain.
    pub next: u64,
    /// The item. None if the entry adds none.
    pub item: Option<T>,
    /// 1 if the entry says that one more item is shown, else 0.
    pub shown: u64,
}
