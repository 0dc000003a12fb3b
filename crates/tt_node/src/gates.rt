//! Gates, which may hold the calls of a worker.

ghost use Rattle.std.specs.Prelude.{◌≡◌, ℕ, Bool, true};

/// A gate may hold the calls of a worker's service. It is asked before each call whether the call may begin, and it is
/// told when the call was answered. So tests can put the calls of several threads in an order.
///
/// Calls are counted from 0 for each worker. Each worker has a gate of its own. The gates of one node may share the
/// data by which they decide.
pub trait Gate {
    /// What the gate may answer about this call of this worker, and the gate after that. A gate that other threads open
    /// may answer anything.
    ghost says: { Self → ℕ → ℕ → Bool → Self → Type 0 };

    /// The gate before and after it is told that this call of this worker was answered.
    ghost hears: { Self → ℕ → ℕ → Self → Type 0 };

    /// Whether this call of this worker may begin. The gate is asked at most [`MAX_TURNS`](crate::MAX_TURNS) times for
    /// one call. If it says no, it makes its own pause.
    fn may_pass(&mut self, worker: u32, call: u64) -> bool
        ensures said { says self.old worker call result self.new };

    /// Tells the gate that this call of this worker was answered. The gate is told once for each call, also for a call
    /// that it did not let pass.
    fn answered(&mut self, worker: u32, call: u64)
        ensures heard { hears self.old worker call self.new };
}

/// A gate that lets every call pass.
#[derive(Clone, Copy, Drop)]
pub struct OpenGate;

impl Gate for OpenGate {
    ghost says = { λ before _ _ passes after. (passes ≡ true) × (after ≡ before) };

    ghost hears = { λ before _ _ after. after ≡ before };

    fn may_pass(&mut self, _worker: u32, _call: u64) -> bool {
        true
    }

    fn answered(&mut self, _worker: u32, _call: u64) {}
}
