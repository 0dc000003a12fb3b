//! The next epoch.

ghost use Rattle.std.specs.Prelude.{◌≡◌, ℕ, List, MatchOption, Err};
ghost use Rattle.tt_epoch.specs.Disk.{Disk, Gift, Bound, number_of, gave_as};
ghost use Rattle.tt_epoch.specs.Course.{Reads, Writes, Over, next_of, step_of, Takes};
ghost use Rattle.tt_epoch.specs.Lives.{Lives, answers_of, Rises};

use crate::faults::EpochFault;
use crate::stores::{ReadFault, Store};

/// The number in a file, or 0 if there is no file.
pub(crate) fn last_of(file: Option<u64>) -> u64
    ensures { result ≡ number_of file }
{
    match file {
        Some(number) => number,
        None => 0,
    }
}

/// One more than this number, if it is below 2^64.
pub(crate) fn after(last: u64) -> Option<u64>
    ensures { MatchOption result (next_of last ≡ Over EpochFault.UsedUp) (λ next. next_of last ≡ Writes next) }
{
    if last == u64::MAX {
        None
    } else {
        Some(last + 1)
    }
}

/// The refusal of a start that could not read.
pub(crate) fn unread(fault: &ReadFault) -> EpochFault
    ensures { step_of Reads (gave_as (Err fault.now)) ≡ Over result }
{
    match fault {
        ReadFault::Failed(reason) => EpochFault::ReadFailed(*reason),
        ReadFault::Foreign => EpochFault::NotAnEpochFile,
    }
}

/// Takes the next epoch: one more than the last one in the store, or 1 if there is none. It answers the epoch only when
/// the store has it for good.
///
/// Refuses with 1811 `ReadFailed` where the store can't be read, with 1813 `NotAnEpochFile` where what it holds is
/// not its own, and with 1814 `UsedUp` after the epoch 2^64 - 1: then nothing was written. Refuses with 1812
/// `WriteFailed` where the store failed later: then no later start is given this epoch by way of this one, and
/// whether the next is one or two greater is not known.
pub fn next_epoch<S: Store>(store: &mut S) -> Result<u64, EpochFault>
    ensures course { Takes S.does Reads store.old store.new result }
{
    match store.read() {
        Err(fault) => Err(unread(&fault)),
        Ok(file) => match after(last_of(file)) {
            None => Err(EpochFault::UsedUp),
            Some(next) => keep(store, next),
        },
    }
}

/// Makes the store keep this epoch.
fn keep<S: Store>(store: &mut S, next: u64) -> Result<u64, EpochFault>
    ensures course { Takes S.does (Writes next) store.old store.new result }
{
    if let Err(reason) = store.write(next) {
        return Err(EpochFault::WriteFailed(reason));
    }
    if let Err(reason) = store.sync_draft() {
        return Err(EpochFault::WriteFailed(reason));
    }
    if let Err(reason) = store.install() {
        return Err(EpochFault::WriteFailed(reason));
    }
    if let Err(reason) = store.sync_folder() {
        return Err(EpochFault::WriteFailed(reason));
    }
    Ok(next)
}

/// A law of all lives of a machine. If the store keeps what it has synced, each epoch that is answered is greater than
/// all that were answered before, whatever ended each life, at any moment.
pub fn epoch_laws()
    ensures rises { (disk : Disk) (lives : List (List Gift)) (k : ℕ) → Bound k disk → Lives disk lives → Rises k (answers_of lives) }
{}
