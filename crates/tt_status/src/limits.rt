//! How often a line of a kind is written.

ghost use Rattle.std.specs.Prelude.{◌≡◌, not, false, List, [], ◌∷◌};
ghost use Rattle.tt_status.specs.Limit.{Happened, StandsFor, answer_of, is_due, pause_at as pause_for, release_of, said_at};
ghost use Rattle.tt_status.specs.Limit.Happened.{asked, looked, turned};

/// For how long no second line of a kind is written at first, in nanoseconds: ten seconds.
pub const QUIET: u64 = 10_000_000_000;

/// The longest time for which no second line of a kind is written, in nanoseconds: ten minutes.
pub const LONGEST: u64 = 600_000_000_000;

/// A line that was written, as the reading of a clock, and for how long none of its kind follows it, in nanoseconds.
#[derive(Clone, Copy)]
struct Said {
    at: u64,
    pause: u64,
}

/// What is kept of one kind of line: the one that was written last, how many were left out since, and whether the newest of
/// them waits to be written.
#[derive(Clone, Copy)]
pub struct Limit {
    last: Option<Said>,
    left_out: u64,
    waits: bool,
}

impl Limit {
    /// No line was written so far.
    pub fn new() -> Limit
        ensures nothing { StandsFor [] result }
    {
        Limit {
            last: None,
            left_out: 0,
            waits: false,
        }
    }

    /// Whether a line of this kind is written now, at this reading of one clock in nanoseconds. `Some` says that it is,
    /// and how many were left out since the last one. `None` says that it is left out, and waits. It is written if none was
    /// written before, or if the pause behind the last one is over. The pause is [`QUIET`] behind a first line. It is twice as
    /// long behind each line that comes within a pause's length of the end of the pause before, up to [`LONGEST`], and [`QUIET`]
    /// behind one that comes later. The count stays at 2^64 - 1 once it is reached.
    pub fn admit(&mut self, now: u64) -> Option<u64>
        ensures says { (past : List Happened) → StandsFor past self.old → result ≡ answer_of past now }
        ensures stands { (past : List Happened) → StandsFor past self.old → StandsFor (asked now ∷ past) self.new }
    {
        if self.is_early(now) {
            self.left_out = self.left_out.saturating_add(1);
            self.waits = true;
            return None;
        }
        Some(self.say(now))
    }

    /// Whether the newest line that was left out is written now. `Some` says that it is, since it waits and the pause is over,
    /// and how many others were left out. `None` changes nothing.
    pub fn release(&mut self, now: u64) -> Option<u64>
        ensures says { (past : List Happened) → StandsFor past self.old → result ≡ release_of past now }
        ensures stands { (past : List Happened) → StandsFor past self.old → StandsFor (looked now ∷ past) self.new }
    {
        if !self.waits || self.is_early(now) {
            return None;
        }
        Some(self.say(now).saturating_sub(1))
    }

    /// What lines of this kind tell of has changed: none waits any more, and the pause is [`QUIET`] again.
    pub fn turn(&mut self)
        ensures stands { (past : List Happened) → StandsFor past self.old → StandsFor (turned ∷ past) self.new }
    {
        if let Some(last) = self.last {
            self.last = Some(Said {
                at: last.at,
                pause: QUIET,
            });
        }
        self.waits = false;
    }

    /// A line is written now. Answers how many were left out before.
    fn say(&mut self, now: u64) -> u64
        ensures counts { result ≡ self.old.left_out }
        ensures says { self.new ≡ record { last = said_at self.old.last now; left_out = 0; waits = false } }
    {
        let left_out = self.left_out;
        self.last = Some(Said {
            at: now,
            pause: pause_at(self.last, now),
        });
        self.left_out = 0;
        self.waits = false;
        left_out
    }

    /// Whether the pause behind the last line is not over.
    fn is_early(&self, now: u64) -> bool
        ensures value { result ≡ not (is_due self.now.last now) }
    {
        match self.last {
            Some(last) => now.saturating_sub(last.at) < last.pause,
            None => false,
        }
    }
}

/// The pause behind a line that is written now, where this one was written last.
fn pause_at(last: Option<Said>, now: u64) -> u64
    ensures value { result ≡ pause_for last now }
{
    match last {
        Some(last) => {
            let over = now.saturating_sub(last.at).saturating_sub(last.pause);
            if over < last.pause {
                last.pause.saturating_mul(2).min(LONGEST)
            } else {
                QUIET
            }
        }
        None => QUIET,
    }
}
