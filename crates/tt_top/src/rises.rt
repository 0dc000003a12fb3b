//! When counts rose last, as seen at looks.

ghost use Rattle.std.specs.Prelude.{◌≡◌, ◌++◌, ◌≤◌, OnOk, [], length, string_bytes};
ghost use Rattle.tt_top.specs.Rise.{no_rise, no_rises, rise_next, rises_at, machine_next, source_next, sources_next, machine_seen, sources_seen, began_at, looked_at, since_text};

use crate::pieces::{Piece, push_pieces};
use crate::views::{SignCounts, SourceView, View};
use arrayvec::ArrayVec;
use std::alloc::AllocError;

/// A count as it was at the last look, and the clock reading of the last look at which it was less, if there was one.
#[derive(Clone, Copy, Default)]
pub(crate) struct Rise {
    count: u64,
    less_at: Option<u64>,
}

impl Rise {
    /// Of a count that was not seen so far.
    fn new() -> Rise
        ensures { result ≡ no_rise }
    {
        Rise {
            count: u64::MAX,
            less_at: None,
        }
    }

    /// The same once it is seen as `count`, where the look before was made at `before`.
    fn next(self, count: u64, before: u64) -> Rise
        ensures { result ≡ rise_next self count before }
    {
        let less_at = if self.count < count {
            Some(before)
        } else {
            self.less_at
        };
        Rise { count, less_at }
    }
}

/// Those of a machine.
#[derive(Clone, Copy)]
pub(crate) struct MachineRises {
    pub(crate) breaks: Rise,
    pub(crate) no_point: Rise,
    pub(crate) too_few: Rise,
    pub(crate) stale: Rise,
    pub(crate) left_out: Rise,
}

impl MachineRises {
    /// The same once these counts are seen, where the look before was made at `before`.
    fn next(&self, signs: &SignCounts, before: u64) -> MachineRises
        ensures { result ≡ machine_next self.now signs.now before }
    {
        MachineRises {
            breaks: self.breaks.next(signs.breaks, before),
            no_point: self.no_point.next(signs.no_point, before),
            too_few: self.too_few.next(signs.too_few, before),
            stale: self.stale.next(signs.stale, before),
            left_out: self.left_out.next(signs.left_out, before),
        }
    }
}

/// Those of a source.
#[derive(Clone, Copy, Default)]
pub(crate) struct SourceRises {
    pub(crate) unsent: Rise,
    pub(crate) unopened: Rise,
}

impl SourceRises {
    /// The same once this source is seen, where the look before was made at `before`.
    fn next(self, source: &SourceView, before: u64) -> SourceRises
        ensures { result ≡ source_next self source.now before }
    {
        SourceRises {
            unsent: self.unsent.next(source.unsent, before),
            unopened: self.unopened.next(source.unopened, before),
        }
    }
}

/// What was seen of a machine's counts at the looks so far.
#[derive(Drop)]
pub struct Past {
    /// When the first look was made, and when the last one, by a clock, in nanoseconds.
    began: u64,
    looked: u64,
    machine: MachineRises,
    sources: ArrayVec<SourceRises, 16>,
}

impl Past {
    /// No look was made so far; the first one is made when the clock shows `now`, in nanoseconds.
    pub fn new(now: u64) -> Past
        ensures began { began_at result ≡ now }
        ensures looked { looked_at result ≡ now }
        ensures machine { machine_seen result ≡ no_rises }
        ensures sources { sources_seen result ≡ [] }
    {
        let none = Rise::new();
        Past {
            began: now,
            looked: now,
            machine: MachineRises {
                breaks: none,
                no_point: none,
                too_few: none,
                stale: none,
                left_out: none,
            },
            sources: ArrayVec::new(),
        }
    }

    /// What was seen of the source with this number.
    pub(crate) fn source(&self, number: u64) -> SourceRises
        ensures { result ≡ rises_at self.now.sources.items number }
    {
        let known = self.sources.as_slice().get(number as usize).copied();
        match known {
            Some(rises) => rises,
            None => SourceRises {
                unsent: Rise::new(),
                unopened: Rise::new(),
            },
        }
    }

    /// What was seen of the machine.
    pub(crate) fn machine(&self) -> MachineRises
        ensures { result ≡ self.now.machine }
    {
        self.machine
    }

    /// What is seen of sources once they are seen.
    fn after(&self, sources: &[SourceView]) -> ArrayVec<SourceRises, 16>
        requires { length sources.now ≤ 16 }
        ensures { result.items ≡ sources_next self.now.sources.items self.now.looked sources.now }
    {
        let mut next = ArrayVec::new();
        for source in sources {
            next.push(self.source(source.number).next(source, self.looked));
        }
        next
    }

    /// A look at a machine, when the clock shows `now`.
    pub fn see(&mut self, view: &View, now: u64)
        ensures machine { machine_seen self.new ≡ machine_next (machine_seen self.old) view.now.signs (looked_at self.old) }
        ensures sources { sources_seen self.new ≡ sources_next (sources_seen self.old) (looked_at self.old) view.now.sources.items }
        ensures looked { looked_at self.new ≡ now }
        ensures began { began_at self.new ≡ began_at self.old }
    {
        let machine = self.machine.next(&view.signs, self.looked);
        let sources = self.after(view.sources.as_slice());
        self.machine = machine;
        self.sources = sources;
        self.looked = now;
    }

    /// Writes behind a count when it rose last: within what time, if that was seen; else that it did not in the time since
    /// the first look, or at the first look that it is of this life.
    pub(crate) fn push_since(&self, text: &mut String, rise: Rise) -> Result<(), AllocError>
        ensures { OnOk result (string_bytes text.new ≡ string_bytes text.old ++ since_text self.now.began self.now.looked rise) }
    {
        match rise.less_at {
            Some(at) => push_pieces(
                text,
                &[
                    Piece::Word(": the last within "),
                    Piece::Length(Some(self.looked.saturating_sub(at))),
                ],
            ),
            None if self.began < self.looked => push_pieces(
                text,
                &[
                    Piece::Word(" in this life: none within "),
                    Piece::Length(Some(self.looked.saturating_sub(self.began))),
                ],
            ),
            None => text.push_str(" in this life"),
        }
    }
}
