//! The state of a worker.

ghost use Rattle.std.specs.Prelude.{◌≡◌};
ghost use Rattle.tt_world.specs.Private.Step.{new_worker};

use tt_publish::Reading;
use tt_stamp::Id;

/// A commit that a worker was asked for: its id, and its floor, the least that its stamp may be, in nanoseconds.
#[derive(Clone, Copy)]
pub struct Arrival {
    pub id: Id,
    pub floor: u64,
}

/// A worker's task: a commit that has no stamp yet, or one that has.
#[derive(Clone, Copy)]
pub enum Task {
    /// The commit was asked for.
    Arrived(Arrival),
    /// The commit has this stamp, in nanoseconds.
    Stamped { id: Id, stamp: u64 },
}

/// A worker: the number of the last publication that it read from (0 before the first), its task, its last reading, and
/// this reading again if it was taken after the last commit that the worker was asked for.
#[derive(Clone, Copy, Default)]
pub struct Worker {
    pub seen: u64,
    pub task: Option<Task>,
    pub reading: Option<Reading>,
    pub since: Option<Reading>,
}

impl Worker {
    /// A worker that has done nothing.
    pub fn new() -> Worker
        ensures { result ≡ new_worker }
    {
        Worker {
            seen: 0,
            task: None,
            reading: None,
            since: None,
        }
    }
}
