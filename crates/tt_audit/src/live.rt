//! Readings of a live service, judged by a reference.

ghost use Rattle.std.specs.Prelude.{◌≡◌, ◌↔◌, IsTrue, length, not, count_by};
ghost use Rattle.tt_span.specs.Interval.{IsInterval};
ghost use Rattle.tt_audit.specs.declared.live.LiveNote.{LiveNote};
ghost use Rattle.tt_audit.specs.Live.{HoldsSomeTime, holds_some_time};

use tt_publish::Reading;

/// A reading, and the times of a reference, in nanoseconds, just before and just after it was taken.
#[derive(Clone, Copy, Debug)]
pub struct LiveNote {
    pub before: u64,
    pub after: u64,
    pub reading: Reading,
}

/// How many readings were judged, and how many of them were wrong: they hold no time from the first reference time to
/// the second.
#[derive(Clone, Copy, Debug, PartialEq, Eq)]
pub struct LiveReport {
    pub readings: u64,
    pub wrong: u64,
}

impl LiveNote {
    /// Whether some time from `before` to `after` lies in the reading. False if `after` is below `before`: then no time
    /// lies between.
    pub fn is_right(&self) -> bool
        ensures { result ≡ holds_some_time self.now }
    {
        self.before <= self.after
            && self.before <= self.reading.latest()
            && self.reading.earliest() <= self.after
    }
}

/// Counts the notes, and the wrong ones: their readings hold no time from the first reference time to the second.
pub fn audit_live(notes: &[LiveNote]) -> LiveReport
    ensures readings { result.readings ≡ length notes.now }
    ensures wrong { result.wrong ≡ count_by (λ note. not (holds_some_time note)) notes.now }
{
    let wrong = notes.iter().filter(|note| !note.is_right()).count();
    LiveReport {
        readings: notes.len() as u64,
        wrong: wrong as u64,
    }
}

/// A law of notes: one is judged right exactly if some time from its first to its second reference time lies in its
/// reading.
pub fn live_laws()
    ensures right { (note : LiveNote) → IsInterval note.reading → IsTrue (holds_some_time note) ↔ HoldsSomeTime note }
{}
