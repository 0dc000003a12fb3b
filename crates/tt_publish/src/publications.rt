//! What is known of the publications: the last one, and the history up to it.
//!
//! The history has each publication, and exists in the proofs alone. In memory are only what is read of the last
//! publication, and how many publications there are. So this takes the same few bytes however long the list is.
//!
//! In contracts a `source` is one history: the publications of one teller. The teller has it.

ghost use Rattle.std.specs.Prelude.{◌≡◌, ◌-◌, ◌<◌, ◌^◌, ◌++◌, ◌∷◌, [], ◌↔◌, length, IfOk, IsTrue};
ghost use mathlib.Core.List.{IsPrefix};
ghost use Rattle.tt_publish.specs.Known.{last_read_of, GoesBack, IsLonger};

use crate::readings::FusedSpan;
use std::alloc::{AllocError, Global};
use std::marker::Model;
use tt_daemon::Fused;
use tt_history::{Glance, History, ShownNumber};

/// What is known of the publications of one source. In contracts it is the `source` and the list of these publications,
/// oldest first.
#[derive(Drop)]
pub struct Latest {
    last: Option<FusedSpan>,
    number: u64,
    glance: Glance<Fused>,
}

impl Model for Latest {
    ghost use Rattle.std.specs.Prelude.{◌≡◌, length};
    ghost use Rattle.tt_publish.specs.Known.{Known, last_read_of};

    ghost Value = { Known };

    ghost view = { λ f. f.glance };

    ghost invariant = { λ f. (f.number ≡ length f.glance.items) × (f.last ≡ last_read_of f.glance.items) };
}

impl Latest {
    /// A new source, which has no publication: its history, what is known of it, and the number of its publications that
    /// are shown.
    pub fn open(alloc: Global) -> Result<(History<Fused>, Latest, ShownNumber<Fused>), AllocError>
        ensures history { IfOk result (λ opened. opened.0 ≡ opened.1) }
        ensures none { IfOk result (λ opened. opened.1.items ≡ []) }
        ensures number { IfOk result (λ opened. opened.2.book ≡ opened.1.source.book) }
    {
        let (history, number) = History::open_shown(alloc)?;
        let latest = Latest {
            last: None,
            number: 0,
            glance: history.glance(),
        };
        Ok((history, latest, number))
    }

    /// What is read of the last publication.
    pub fn last(&self) -> Option<FusedSpan>
        ensures { result ≡ last_read_of self.now.items }
    {
        self.last
    }

    /// How many publications there are.
    pub fn number(&self) -> u64
        ensures { result ≡ length self.now.items }
    {
        self.number
    }

    /// Whether the clock reading of this publication is below the clock reading of the last one.
    pub fn goes_back(&self, next: &Fused) -> bool
        ensures { IsTrue result ↔ GoesBack self.now.items next.now }
    {
        match self.last {
            Some(last) => next.clock() < last.clock,
            None => false,
        }
    }

    /// An equal value.
    pub fn copied(&self) -> Latest
        ensures { result ≡ self.now }
    {
        Latest {
            last: self.last,
            number: self.number,
            glance: self.glance.again(),
        }
    }

    /// Learns what the other knows, if the other knows more.
    pub fn learn(&mut self, other: &Latest)
        requires { other.now.source ≡ self.old.source }
        ensures source { self.new.source ≡ self.old.source }
        ensures longer { IsLonger self.old.items other.now.items self.new.items }
        ensures seen { IsPrefix self.old.items self.new.items }
    {
        self.glance.compare(&other.glance);
        if self.number < other.number {
            *self = other.copied();
        }
    }

    /// Whether the publications that are known here are the first ones of those that the other knows.
    pub fn is_within(&self, other: &Latest) -> bool
        requires { other.now.source ≡ self.now.source }
        ensures { IsTrue result ↔ IsPrefix self.now.items other.now.items }
    {
        self.glance.compare(&other.glance);
        self.number <= other.number
    }

    /// The history with this publication at its end, and what is known then.
    pub fn extended(&self, mut history: History<Fused>, next: &Fused) -> (History<Fused>, Latest)
        requires history { history ≡ self.now }
        requires room { length self.now.items < 2 ^ 64 - 1 }
        ensures latest { result.1 ≡ record self.now { items = self.now.items ++ next.now ∷ [] } }
        ensures history { result.0 ≡ result.1 }
    {
        history.add(next);
        let latest = Latest {
            last: Some(FusedSpan {
                clock: next.clock(),
                span: next.span(),
            }),
            number: self.number + 1,
            glance: history.glance(),
        };
        (history, latest)
    }
}
