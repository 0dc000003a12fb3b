//! The count of the readings of a run.

ghost use Rattle.std.specs.Prelude.{◌≡◌, IfOk, IfErr, length, not, count_by};
ghost use Rattle.tt_audit.specs.Live.{holds_some_time};
ghost use Rattle.tt_live.specs.Notes.{notes_of};

use std::alloc::{AllocError, Global};
use tt_audit::{LiveNote, LiveReport, audit_live};
use tt_node::WorkerEnd;

/// The notes of all workers, in the order of the workers.
fn notes_in(alloc: Global, workers: &[WorkerEnd]) -> Result<Vec<LiveNote>, AllocError>
    ensures { IfOk result (λ notes. notes.items ≡ notes_of workers.now) }
{
    let mut notes = Vec::new(alloc);
    for worker in workers {
        notes.extend_from_slice(&worker.notes)?;
    }
    Ok(notes)
}

/// How many readings the workers gave, and how many of them hold no time from the clock's reading just before to the
/// clock's reading just after.
pub(crate) fn report_of(alloc: Global, workers: &[WorkerEnd]) -> Result<LiveReport, AllocError>
    ensures readings { IfOk result (λ report. report.readings ≡ length (notes_of workers.now)) }
    ensures wrong { IfOk result (λ report. report.wrong ≡ count_by (λ note. not (holds_some_time note)) (notes_of workers.now)) }
{
    let notes = notes_in(alloc, workers)?;
    Ok(audit_live(&notes))
}
