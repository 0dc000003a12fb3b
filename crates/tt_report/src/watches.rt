//! When a publication is slow.

ghost use Rattle.std.specs.Prelude.{◌≡◌, List, [], ◌∷◌};
ghost use Rattle.tt_report.specs.Watch.{StandsFor, Look, look_of, answer_of};

/// What is kept of publications: which one was told last as slow, as the clock reading at its beginning; 0 for none.
#[derive(Clone, Copy)]
pub(crate) struct Watch {
    told: u64,
}

impl Watch {
    /// No publication was told so far.
    pub(crate) fn new() -> Watch
        ensures nothing { StandsFor [] result }
    {
        Watch { told: 0 }
    }

    /// Looks at the publication that began at `since`, 0 for none, when the clock shows `now`. All are in nanoseconds.
    /// `Some` says that it is to be told now that it has lasted so long. It is told if it has lasted longer than
    /// `most`, and only once.
    pub(crate) fn look(&mut self, since: u64, most: u64, now: u64) -> Option<u64>
        ensures says { (past : List Look) → StandsFor past self.old → result ≡ answer_of past (look_of since most now) }
        ensures stands { (past : List Look) → StandsFor past self.old → StandsFor (look_of since most now ∷ past) self.new }
    {
        let lasted = now.saturating_sub(since);
        if since == 0 || since == self.told || lasted <= most {
            return None;
        }
        self.told = since;
        Some(lasted)
    }
}
