//! The teller, which publishes, and what it tells.

ghost use Rattle.std.specs.Prelude.{◌≡◌, ◌<◌, ◌↔◌, ◌⊎◌, ◌++◌, ◌∷◌, [], length, vec_len, All, IfOk, OnOk, OnErr, IsErrOf, IsTrue};
ghost use mathlib.Core.List.{IsPrefix};
ghost use Rattle.tt_publish.specs.Known.{GoesBack, max_watches};

use crate::faults::PublishFault;
use crate::publications::Latest;
use crate::shows::{LatestWriter, reader_of, show, writer_of};
use crate::watch::Watch;
use std::alloc::Global;
use std::marker::Model;
use std::sync::Wait;
use tt_daemon::Fused;
use tt_history::{History, ShownNumber};
use tt_span::Drift;

/// The most watches that one teller can show its publications to.
pub const MAX_WATCHES: usize = 32;

/// Publishes the fusions of a machine. In contracts it is its `source`, which says whose publications these are, and
/// the list of what it has published, oldest first. Its invariant says that its watches are shown this list, and that
/// the number at which they look first counts all of it.
///
/// It has no `Drop`: end it by [`close`](Teller::close).
pub struct Teller {
    /// None once an allocation failed. Then the history has a publication that no watch is shown.
    history: Option<History<Fused>>,
    latest: Latest,
    number: ShownNumber<Fused>,
    /// Present between calls.
    writer: Option<LatestWriter>,
}

impl Model for Teller {
    ghost use Rattle.std.specs.Prelude.{◌≡◌, ◌≤◌, [], Some, MatchOption, drop, length};
    ghost use Rattle.left_right.specs.Sides.{view as seen_at};
    ghost use Rattle.tt_publish.specs.Known.{Known};
    ghost use Rattle.tt_publish.specs.Shown.{source_of};

    ghost Value = { Known };

    ghost view = { λ t. t.latest };

    ghost invariant = { λ t. MatchOption t.history (Unit {0}) (λ history. history ≡ t.latest)
        × MatchOption t.writer ⊥ (λ writer.
        (writer.desk.shown.value ≡ t.latest)
        × (drop writer.behind writer.log.items ≡ [])
        × (source_of (seen_at writer.desk.place) ≡ Some t.latest.source))
        × (t.number.book ≡ t.latest.source.book)
        × (length t.latest.items ≤ t.number.number) };
}

/// The first publications of a teller: those that it had published when it was asked, or those that a watch has seen.
/// In contracts it is the teller's `source` and the list, oldest first.
#[derive(Drop)]
pub struct Told {
    latest: Latest,
}

impl Model for Told {
    ghost use Rattle.tt_publish.specs.Known.{Known};

    ghost Value = { Known };

    ghost view = { λ t. t.latest };
}

/// A teller that has published nothing, and `readers` watches of it, for machines whose clock has this drift.
///
/// Refuses with 804 `Places` if `readers` is 0 or above [`MAX_WATCHES`], or if no reader slot is free, and with 1
/// `Memory` if an allocation failed. It waits for no other thread.
pub fn open<R: Wait>(
    rt: &R,
    alloc: Global,
    drift: Drift,
    readers: usize,
) -> Result<(Teller, Vec<Watch>), PublishFault>
    ensures places { (readers ≡ 0) ⊎ (max_watches < readers) → IsErrOf result PublishFault.Places }
    ensures faults { (¬ IsErrOf result PublishFault.ClockBack) × (¬ IsErrOf result PublishFault.UsedUp) }
    ensures nothing { IfOk result (λ opened. opened.0.items ≡ []) }
    ensures count { IfOk result (λ opened. vec_len opened.1 ≡ readers) }
    ensures watches { IfOk result (λ opened. All (λ watch. watch ≡ record { source = opened.0.source; drift = drift; items = [] }) opened.1.items) }
{
    if readers == 0 || readers > MAX_WATCHES {
        return Err(PublishFault::Places);
    }
    let Ok((history, latest, number)) = Latest::open(alloc) else {
        return Err(PublishFault::Memory);
    };
    let Ok(writer) = writer_of(rt, alloc, &latest, readers) else {
        return Err(PublishFault::Memory);
    };
    let mut teller = Teller {
        history: Some(history),
        latest,
        number,
        writer: Some(writer),
    };
    match teller.watches(alloc, drift, readers) {
        Ok(watches) => Ok((teller, watches)),
        Err(fault) => {
            teller.close(rt);
            Err(fault)
        }
    }
}

impl Teller {
    /// Publishes a fusion: from now on the watches read it.
    ///
    /// Refuses, in this order: 802 `ClockBack` if its clock reading is below the clock reading of the last publication,
    /// 805 `UsedUp` if 2^64 - 1 publications were made, 1 `Memory` if an allocation failed. After a refusal nothing is
    /// published, the watches are shown what they were shown before, and the fusion is dropped. It may wait for watches
    /// that are still looking at the publication before the last.
    ///
    /// Nobody else can have added a publication in between: that takes a pen, and only this teller has it. So the only
    /// cause of 1 is an allocation that failed, in this call or in an earlier one. After such a failure, each later
    /// call that is not rejected with 802 or 805 answers `Memory` too. [`open`](crate::open) takes the memory for the
    /// two operations that are ever kept, so `publish` does not allocate. No clause says so; runs with failing
    /// allocations show it.
    pub fn publish<R: Wait>(&mut self, rt: &R, fused: Fused) -> Result<(), PublishFault>
        ensures published { OnOk result (self.new ≡ record self.old { items = self.old.items ++ fused ∷ [] }) }
        ensures unchanged { OnErr result (self.new ≡ self.old) }
        ensures source { self.new.source ≡ self.old.source }
        ensures clock_back { IsErrOf result PublishFault.ClockBack ↔ GoesBack self.old.items fused }
        ensures used_up { IsErrOf result PublishFault.UsedUp ↔ ((¬ GoesBack self.old.items fused) × (length self.old.items ≡ 18446744073709551615)) }
        ensures no_places { ¬ IsErrOf result PublishFault.Places }
    {
        if self.latest.goes_back(&fused) {
            return Err(PublishFault::ClockBack);
        }
        if self.latest.number() == u64::MAX {
            return Err(PublishFault::UsedUp);
        }
        let Some(history) = self.history.take() else {
            return Err(PublishFault::Memory);
        };
        let (history, next) = self.latest.extended(history, &fused);
        let (writer, shown) = show(rt, self.writer.take().unwrap(), &next);
        // The writer was taken out above, so `replace` gives None. What it may give has no `Drop`, so this has to match
        // on it.
        if let Some(other) = self.writer.replace(writer) {
            other.take(rt);
        }
        if shown.is_err() {
            return Err(PublishFault::Memory);
        }
        self.history = Some(history);
        // Only now: a watch enters as soon as it finds a number that it does not know.
        self.number.raise(self.latest.number());
        self.latest = next;
        Ok(())
    }

    /// What is published so far.
    pub fn tell(&self) -> Told
        ensures { result ≡ self.now }
    {
        Told {
            latest: self.latest.copied(),
        }
    }

    /// Ends the teller. Its watches keep what they have seen. It waits for the watches that are looking.
    pub fn close<R: Wait>(self, rt: &R) {
        let Teller {
            history: _history,
            latest: _latest,
            number: _number,
            writer,
        } = self;
        writer.unwrap().take(rt);
    }

    /// `readers` watches. Each has seen what this teller has published.
    fn watches(
        &mut self,
        alloc: Global,
        drift: Drift,
        readers: usize,
    ) -> Result<Vec<Watch>, PublishFault>
        ensures same { self.new ≡ self.old }
        ensures faults { (¬ IsErrOf result PublishFault.ClockBack) × (¬ IsErrOf result PublishFault.UsedUp) }
        ensures count { IfOk result (λ watches. vec_len watches ≡ readers) }
        ensures watches { IfOk result (λ watches. All (λ watch. watch ≡ record { source = self.old.source; drift = drift; items = self.old.items }) watches.items) }
    {
        let Ok(mut watches) = Vec::with_capacity(alloc, readers) else {
            return Err(PublishFault::Memory);
        };
        for _ in 0..readers {
            let watch = self.watch(drift)?;
            watches.push_reserved(watch);
        }
        Ok(watches)
    }

    /// A watch that has seen what this teller has published.
    fn watch(&mut self, drift: Drift) -> Result<Watch, PublishFault>
        ensures same { self.new ≡ self.old }
        ensures faults { (¬ IsErrOf result PublishFault.ClockBack) × (¬ IsErrOf result PublishFault.UsedUp) }
        ensures watch { IfOk result (λ watch. watch ≡ record { source = self.old.source; drift = drift; items = self.old.items }) }
    {
        let Some(reader) = reader_of(self.writer.as_mut().unwrap()) else {
            return Err(PublishFault::Places);
        };
        let Ok(number) = self.number.again() else {
            return Err(PublishFault::Memory);
        };
        Ok(Watch::over(reader, number, self.latest.copied(), drift))
    }
}

impl Told {
    /// What `latest` knows.
    pub(crate) fn of(latest: Latest) -> Told
        ensures { result ≡ latest }
    {
        Told { latest }
    }

    /// Whether these publications are the first ones of the other's. If a watch has seen these, and a teller told the
    /// other's, then the watch has seen nothing that the teller had not published. Requires: both are of one call of
    /// [`open`](crate::open).
    pub fn is_within(&self, other: &Told) -> bool
        requires { other.now.source ≡ self.now.source }
        ensures within { IsTrue result ↔ IsPrefix self.now.items other.now.items }
    {
        self.latest.is_within(&other.latest)
    }

    /// What is known of these publications.
    pub(crate) fn latest(&self) -> &Latest
        ensures { result.now ≡ self.now }
    {
        &self.latest
    }
}
