//! Stores: where the last epoch is kept.

ghost use Rattle.std.specs.Prelude.{ℕ};
ghost use Rattle.tt_epoch.specs.Disk.{Call, Gift, Read, Write, SyncDraft, Install, SyncFolder, gave_as, done_as};

use thiserror::Error;
use tt_files::Reason;

/// Why a store gave no epoch.
#[derive(Clone, Copy, Debug, PartialEq, Eq, Error)]
pub enum ReadFault {
    #[error("the store failed: {0}")]
    Failed(Reason),
    /// The file has a text that this store does not write. It is left as it is.
    #[error("the file is not an epoch file")]
    Foreign,
}

/// A file with one number, and a draft beside it that may take its place. A call that changes something says why it failed.
pub trait Store {
    /// The store before a call, the call, what it gave, and the store after it. A store in memory says here what it
    /// does; a real device claims nothing.
    ghost does: { Self → Call → Gift → Self → Type 0 };

    /// The number in the file. `None` if there is no file.
    fn read(&mut self) -> Result<Option<u64>, ReadFault>
        ensures { does self.old Read (gave_as result) self.new };

    /// Writes a draft with this number.
    fn write(&mut self, number: u64) -> Result<(), Reason>
        ensures { does self.old (Write number) (done_as result) self.new };

    /// Syncs the draft.
    fn sync_draft(&mut self) -> Result<(), Reason>
        ensures { does self.old SyncDraft (done_as result) self.new };

    /// Puts the draft in the place of the file.
    fn install(&mut self) -> Result<(), Reason>
        ensures { does self.old Install (done_as result) self.new };

    /// Syncs the folder of both.
    fn sync_folder(&mut self) -> Result<(), Reason>
        ensures { does self.old SyncFolder (done_as result) self.new };
}
