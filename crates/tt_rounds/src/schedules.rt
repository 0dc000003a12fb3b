//! How long a daemon goes on.

ghost use Rattle.std.specs.Prelude.{◌≡◌, ◌<◌, ◌↔◌, Bool, IsTrue};
ghost use Rattle.tt_rounds.specs.declared.rounds.Rounds.{Rounds};

use crate::rounds::Rounds;
use tt_daemon::Daemon;

/// A schedule is asked before each round of a daemon whether the round may begin.
pub trait Schedule {
    /// What the schedule may answer after what was done so far, and the schedule after that. A schedule that other threads end, or
    /// that uses a clock, may answer anything.
    ghost says: { Self → Rounds → Bool → Self → Type 0 };

    /// Whether another round may begin, after what was done so far in this call. The schedule makes its own pause. It may
    /// ask the daemon for its state, for instance to write a log, and leaves the daemon as it was.
    fn goes_on(&mut self, daemon: &mut Daemon, did: &Rounds) -> bool
        ensures said { says self.old did.now result self.new }
        ensures same { daemon.new ≡ daemon.old };
}

/// A schedule that lets a number of rounds begin, one right after the other.
#[derive(Drop)]
pub struct CountedSchedule {
    /// How many rounds may begin.
    pub rounds: u32,
}

impl Schedule for CountedSchedule {
    ghost says = { λ schedule did goes after. (IsTrue goes ↔ did.done < schedule.rounds) × (after ≡ schedule) };

    fn goes_on(&mut self, _daemon: &mut Daemon, did: &Rounds) -> bool {
        did.done < self.rounds
    }
}
