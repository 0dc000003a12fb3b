//! The watch, which reads the publications.

ghost use Rattle.std.specs.Prelude.{◌≡◌, ◌≤◌, length, Some, IfNone};
ghost use mathlib.Core.List.{IsPrefix};
ghost use Rattle.left_right.specs.Sides.{view};
ghost use Rattle.tt_publish.specs.Known.{IsLonger, seen_of};
ghost use Rattle.tt_publish.specs.Looks.{Looks};
ghost use Rattle.tt_publish.specs.Shown.{source_of};

use crate::clocks::Clock;
use crate::faults::ReadFault;
use crate::publications::Latest;
use crate::readings::Reading;
use crate::shows::{LatestReader, Looked, look};
use crate::teller::Told;
use std::marker::Model;
use tt_daemon::Fused;
use tt_history::ShownNumber;
use tt_span::Drift;

/// Reads the publications of a teller, in one thread. It keeps the last publication that it has seen.
///
/// In contracts it is its `source`, which says whose publications it reads, the drift of the clock that it reads by,
/// and the list of what it has seen, oldest first. It never waits and never allocates. It may be moved to another
/// thread.
#[derive(Drop)]
pub struct Watch {
    /// Present between calls.
    reader: Option<LatestReader>,
    number: ShownNumber<Fused>,
    latest: Latest,
    drift: Drift,
}

impl Model for Watch {
    ghost use Rattle.std.specs.Prelude.{◌≡◌, Some, MatchOption};
    ghost use Rattle.left_right.specs.Sides.{view as seen_at};
    ghost use Rattle.tt_publish.specs.Known.{WatchState};
    ghost use Rattle.tt_publish.specs.Shown.{source_of};

    ghost Value = { WatchState };

    ghost view = { λ w. record { source = w.latest.source; drift = w.drift; items = w.latest.items } };

    ghost invariant = { λ w. MatchOption w.reader ⊥ (λ reader. source_of (seen_at reader.place) ≡ Some w.latest.source) × (w.number.book ≡ w.latest.source.book) };
}

impl Watch {
    /// A watch that has seen what `latest` knows.
    pub(crate) fn over(
        reader: LatestReader,
        number: ShownNumber<Fused>,
        latest: Latest,
        drift: Drift,
    ) -> Watch
        requires source { source_of (view reader.place) ≡ Some latest.source }
        requires book { number.book ≡ latest.source.book }
        ensures { result ≡ record { source = latest.source; drift = drift; items = latest.items } }
    {
        Watch {
            reader: Some(reader),
            number,
            latest,
            drift,
        }
    }

    /// Learns what a teller told. From now on the watch reads no older publication. Requires: the watch and the teller
    /// came from one call of [`open`](crate::open).
    pub fn learn(&mut self, told: &Told)
        requires { told.now.source ≡ self.old.source }
        ensures same { (self.new.source ≡ self.old.source) × (self.new.drift ≡ self.old.drift) }
        ensures longer { IsLonger self.old.items told.now.items self.new.items }
    {
        self.latest.learn(told.latest());
    }

    /// What the watch has seen of the publications.
    pub fn seen(&self) -> Told
        ensures { result ≡ seen_of self.now }
    {
        Told::of(self.latest.copied())
    }

    /// The reading of the last publication at what the clock shows, aged by the drift that [`open`](crate::open) was
    /// given.
    ///
    /// First it looks at what is published: at the number of the last publication, and if it has not seen that one, at
    /// the publication. If the teller is closed, the watch keeps what it saw before. Refuses, in this order: 801 `Nothing`
    /// if nothing was published so far, and then the clock is not read; 803 `ClockFailed` if the clock gave no reading;
    /// 802 `ClockBack` if the clock reading is below the clock reading of the publication, or above the greatest time.
    /// After a refusal the watch may have seen more.
    pub fn now<C: Clock>(&mut self, clock: &mut C) -> Result<Reading, ReadFault>
        ensures looks { Looks C.gives C.failed self.old clock.old result self.new clock.new }
    {
        self.look();
        let Some(last) = self.latest.last() else {
            return Err(ReadFault::Nothing);
        };
        let Ok(time) = clock.read() else {
            return Err(ReadFault::ClockFailed);
        };
        last.read_at(self.drift, time)
    }

    /// Looks at what is published.
    fn look(&mut self)
        ensures same { (self.new.source ≡ self.old.source) × (self.new.drift ≡ self.old.drift) }
        ensures seen { IsPrefix self.old.items self.new.items }
    {
        let reader = self.reader.take().unwrap();
        let (reader, _looked) = renew(reader, &mut self.number, &mut self.latest);
        self.reader = Some(reader);
    }
}

/// Looks at how many publications are shown. If `latest` knows fewer, looks at what is shown, and learns it. So without
/// a sign of that second look, `latest` knows as many as were shown at the first.
fn renew(
    reader: LatestReader,
    number: &mut ShownNumber<Fused>,
    latest: &mut Latest,
) -> (LatestReader, Option<Looked>)
    requires source { source_of (view reader.place) ≡ Some latest.old.source }
    requires book { number.old.book ≡ latest.old.source.book }
    ensures place { source_of (view result.0.place) ≡ Some latest.old.source }
    ensures source { latest.new.source ≡ latest.old.source }
    ensures book { number.new.book ≡ latest.old.source.book }
    ensures seen { IsPrefix latest.old.items latest.new.items }
    ensures all { IfNone result.1 (number.new.number ≤ length latest.new.items) }
{
    if number.look() <= latest.number() {
        return (reader, None);
    }
    let (reader, looked) = look(reader, latest);
    (reader, Some(looked))
}
