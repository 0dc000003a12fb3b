//! A store in memory.

use crate::stores::{ReadFault, Store};
use tt_files::Reason;

/// A store in memory, for tests: it fails at one of its calls, if it is told to, and keeps what a crash would leave.
#[derive(Drop)]
pub struct MemoryStore {
    /// The number that a read gives.
    shown: Option<u64>,
    /// The number that a loss of power leaves.
    kept: Option<u64>,
    /// The number of the draft.
    draft: Option<u64>,
    /// Whether the draft was synced.
    synced: bool,
    /// How many calls are left before the one that fails.
    left: Option<u32>,
}

impl MemoryStore {
    /// A store with this number, or none, that fails at the call after the first `good` ones, if that is given.
    pub fn new(number: Option<u64>, good: Option<u32>) -> MemoryStore {
        MemoryStore {
            shown: number,
            kept: number,
            draft: None,
            synced: false,
            left: good,
        }
    }

    /// The store after the power was lost: only what was synced is left, and no call fails.
    pub fn crashed(&self) -> MemoryStore {
        MemoryStore::new(self.kept, None)
    }

    /// Counts a call, and tells whether it is done.
    fn goes(&mut self) -> bool {
        match self.left {
            None => true,
            Some(0) => false,
            Some(left) => {
                self.left = Some(left - 1);
                true
            }
        }
    }
}

impl Store for MemoryStore {
    ghost does = { λ _ _ _ _. Unit {0} };

    fn read(&mut self) -> Result<Option<u64>, ReadFault> {
        if self.goes() {
            Ok(self.shown)
        } else {
            Err(ReadFault::Failed(Reason::Other))
        }
    }

    fn write(&mut self, number: u64) -> Result<(), Reason> {
        if !self.goes() {
            return Err(Reason::Other);
        }
        self.draft = Some(number);
        self.synced = false;
        Ok(())
    }

    fn sync_draft(&mut self) -> Result<(), Reason> {
        if !self.goes() {
            return Err(Reason::Other);
        }
        self.synced = true;
        Ok(())
    }

    fn install(&mut self) -> Result<(), Reason> {
        if !self.goes() {
            return Err(Reason::Other);
        }
        self.shown = if self.synced { self.draft } else { None };
        self.draft = None;
        Ok(())
    }

    fn sync_folder(&mut self) -> Result<(), Reason> {
        if !self.goes() {
            return Err(Reason::Other);
        }
        self.kept = self.shown;
        Ok(())
    }
}
