//! The actions of one machine alone.

use crate::workers::Arrival;
use tt_span::Span;

/// An action that changes one machine alone.
#[derive(Clone, Copy)]
pub enum MachineAction {
    /// It restarts when its clock shows this, in nanoseconds.
    Restart(u64),
    /// It is granted this lease.
    Lease(Span),
    /// The worker with this number does this.
    Work(u8, WorkerAction),
}

/// An action of a worker.
#[derive(Clone, Copy)]
pub enum WorkerAction {
    /// It reads from the publication with this number when the clock shows this, in nanoseconds.
    Read { clock: u64, publication: u64 },
    /// It is asked for this commit.
    Arrive(Arrival),
    /// It stamps its task.
    Stamp,
    /// It queues its stamped task.
    Queue,
    /// It releases by its last reading.
    Release,
}
