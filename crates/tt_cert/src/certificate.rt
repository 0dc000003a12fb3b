//! Certificates as values.

ghost use Rattle.std.specs.Prelude.{◌≡◌, ◌≤◌, [], length};
ghost use Rattle.tt_span.specs.Sources.{max_sources};
ghost use Rattle.tt_fuse.specs.Ends.{AreEndsOf};
ghost use Rattle.tt_cert.specs.Canonical.{IsCanonical};

use crate::certifying::name_least_sources;
use crate::inline_lists::InlineList;
use crate::sweeping::cut_stretches;
use arrayvec::ArrayVec;
use std::marker::Model;
use tt_fuse::SortedEnds;
use tt_span::{MAX_TIME, Span};

/// A stretch of time from `from` to `to`, both in nanoseconds and both in it, and how many sources are said to meet it.
/// The three numbers may be any: `check` judges them.
#[derive(Clone, Copy, Debug, Default, PartialEq, Eq)]
pub struct Stretch {
    pub from: u64,
    pub to: u64,
    pub depth: u8,
}

/// Evidence that a claimed span is the fusion: source numbers for each end of the claim, and stretches of time on each
/// side of it. They may be any: `check` judges them.
#[derive(Debug, Drop)]
pub struct Certificate {
    left: InlineList<u8, 16>,
    right: InlineList<u8, 16>,
    below: InlineList<Stretch, 33>,
    above: InlineList<Stretch, 33>,
}

impl Model for Certificate {
    ghost use Rattle.tt_cert.specs.Proof.{Proof};

    ghost Value = { Proof };

    ghost view = { λ c. record { left = c.left; right = c.right; below = c.below; above = c.above } };
}

impl Certificate {
    /// The certificate of these parts, each in the order in which it is given.
    pub fn new(
        left: ArrayVec<u8, 16>,
        right: ArrayVec<u8, 16>,
        below: ArrayVec<Stretch, 33>,
        above: ArrayVec<Stretch, 33>,
    ) -> Certificate
        ensures { result ≡ record { left = left.items; right = right.items; below = below.items; above = above.items } }
    {
        Certificate {
            left: InlineList::of(&left),
            right: InlineList::of(&right),
            below: InlineList::of(&below),
            above: InlineList::of(&above),
        }
    }

    /// A certificate with nothing in it.
    pub(crate) fn empty() -> Certificate
        ensures { result ≡ record { left = []; right = []; below = []; above = [] } }
    {
        Certificate {
            left: InlineList::new(),
            right: InlineList::new(),
            below: InlineList::new(),
            above: InlineList::new(),
        }
    }

    /// Makes this empty certificate the canonical one of the claim, by the ends of the spans. Each part is written
    /// where it stays, since a certificate is large.
    pub(crate) fn fill(&mut self, spans: &[Span], ends: &SortedEnds, faulty: usize, claim: &Span)
        requires empty { self.old ≡ record { left = []; right = []; below = []; above = [] } }
        requires few_faulty { faulty ≤ length spans.now }
        requires few { length spans.now ≤ max_sources }
        requires ends { AreEndsOf spans.now ends.now }
        ensures { IsCanonical spans.now faulty claim.now self.new }
    {
        let need = spans.len() - faulty;
        let lows = ends.lows();
        let highs = ends.highs();
        name_least_sources(&mut self.left, spans, need, claim.lo());
        name_least_sources(&mut self.right, spans, need, claim.hi());
        cut_stretches(&mut self.below, lows, highs, 0, claim.lo());
        cut_stretches(&mut self.above, lows, highs, claim.hi() + 1, MAX_TIME + 1);
    }

    /// The numbers of the sources that are said to hold the lower end of the claim.
    pub fn left(&self) -> &[u8]
        ensures value { result.now ≡ self.now.left }
        ensures few { length result.now ≤ max_sources }
    {
        self.left.as_slice()
    }

    /// The numbers of the sources that are said to hold the upper end of the claim.
    pub fn right(&self) -> &[u8]
        ensures value { result.now ≡ self.now.right }
        ensures few { length result.now ≤ max_sources }
    {
        self.right.as_slice()
    }

    /// The stretches below the claim.
    pub fn below(&self) -> &[Stretch]
        ensures value { result.now ≡ self.now.below }
        ensures few { length result.now ≤ 33 }
    {
        self.below.as_slice()
    }

    /// The stretches above the claim.
    pub fn above(&self) -> &[Stretch]
        ensures value { result.now ≡ self.now.above }
        ensures few { length result.now ≤ 33 }
    {
        self.above.as_slice()
    }

    /// An equal certificate.
    pub fn copied(&self) -> Certificate
        ensures { result ≡ self.now }
    {
        Certificate {
            left: self.left.copied(),
            right: self.right.copied(),
            below: self.below.copied(),
            above: self.above.copied(),
        }
    }
}
