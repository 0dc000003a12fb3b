//! One history and what is known of it.
//!
//! A pen is the right to add one item. Adding it uses up the pen, and names the pen for the next item. Pens exist in the
//! proofs alone. There is one pen for the next item of a history, and its owner has it. In contracts the `source` of a
//! history says which chain of the log it is.

ghost use Rattle.std.specs.Prelude.{◌≡◌, ◌≤◌, ◌++◌, ◌∷◌, [], ◌⊎◌, IfOk, length, drop};
ghost use mathlib.Core.List.{IsPrefix};

use crate::entries::Entry;
use crate::numbers::ShownNumber;
use crate::steps::{Add, Asked, Law, Look, Nothing, new_pen};
use logbook::{Offer, Pen, Seen, Start, Word};
use std::alloc::{AllocError, Global};
use std::marker::Model;

/// A history, with the pen for its next item. So nobody else can have added an item, and what is known of the history is
/// all of it. In contracts it is the `source` and the list of its items, oldest first. It takes the bytes of one word.
#[derive(Drop)]
pub struct History<T> {
    word: Word<Entry<T>, u64, Law>,
    pen: Pen,
    /// What was seen when the chain began.
    first: Seen<Entry<T>, u64, Law>,
    seen: Seen<Entry<T>, u64, Law>,
}

impl<T> Model for History<T> {
    ghost use Rattle.std.specs.Prelude.{◌≡◌};
    ghost use Rattle.logbook.specs.Pages.{may_write};
    ghost use Rattle.tt_history.specs.Known.{Known};
    ghost use Rattle.tt_history.specs.Chains.{chain_of, items_of, pen_of, word_of};

    ghost Value = { Known T };

    ghost view = { λ h. record { source = record { book = h.seen.book; chain = chain_of h.first.log }; items = items_of (chain_of h.first.log) h.seen.log } };

    ghost invariant = { λ h. (h.word ≡ word_of h.seen.book) × (h.pen.book ≡ h.seen.book) × (h.pen.nib.right ≡ may_write) × (h.pen.nib.key ≡ pen_of (chain_of h.first.log) h.seen.log) };
}

/// What was seen of one history. In contracts it is the `source` and the list of the items that were seen, oldest
/// first. It takes no bytes.
#[derive(Drop)]
pub struct Glance<T> {
    /// What was seen when the chain began.
    first: Seen<Entry<T>, u64, Law>,
    seen: Seen<Entry<T>, u64, Law>,
}

impl<T> Model for Glance<T> {
    ghost use Rattle.tt_history.specs.Known.{Known};
    ghost use Rattle.tt_history.specs.Chains.{chain_of, items_of};

    ghost Value = { Known T };

    ghost view = { λ g. record { source = record { book = g.seen.book; chain = chain_of g.first.log }; items = items_of (chain_of g.first.log) g.seen.log } };
}

impl<T> History<T> {
    /// A new history, which has no item.
    pub fn open() -> History<T>
        ensures { result.items ≡ [] }
    {
        let (mut seen, mut head, _second) = Seen::open(Start::alone(), 0, 0);
        let word = Word::tracked(0, &mut head);
        let pen = new_pen(&word, &mut seen);
        let first = seen.again();
        History {
            word,
            pen,
            first,
            seen,
        }
    }

    /// A new history, which has no item, and the number of its items that are shown.
    pub fn open_shown(alloc: Global) -> Result<(History<T>, ShownNumber<T>), AllocError>
        ensures none { IfOk result (λ opened. opened.0.items ≡ []) }
        ensures number { IfOk result (λ opened. opened.1.book ≡ opened.0.source.book) }
    {
        let (mut seen, mut head, mut second) = Seen::open(Start::alone(), 0, 0);
        let word = Word::tracked(0, &mut head);
        let number = ShownNumber::over(alloc, Word::tracked(0, &mut second), seen.again())?;
        let pen = new_pen(&word, &mut seen);
        let first = seen.again();
        let history = History {
            word,
            pen,
            first,
            seen,
        };
        Ok((history, number))
    }

    /// All items so far.
    pub fn glance(&self) -> Glance<T>
        ensures { result ≡ self.now }
    {
        Glance {
            first: self.first.again(),
            seen: self.seen.again(),
        }
    }

    /// A law: what was seen of this history is a beginning of it.
    pub fn catch_up(&mut self, other: &Glance<T>)
        requires { other.now.source ≡ self.old.source }
        ensures same { self.new ≡ self.old }
        ensures begins { IsPrefix other.now.items self.new.items }
    {
        self.seen.learn(&other.seen);
        let mut offer: Offer<Entry<T>, u64, Law, Nothing> = self
            .seen
            .plain::<Nothing, Seen<Entry<T>, u64, Law>, Look>(&self.first);
        self.word
            .compare_exchange::<Look, Nothing>(0, 0, &mut self.seen, &mut offer, &mut self.pen);
    }

    /// Adds an item at the end.
    pub fn add(&mut self, item: &T)
        ensures { self.new ≡ record self.old { items = self.old.items ++ item.now ∷ [] } }
    {
        let mut looked = self.seen.again();
        let next = new_pen(&self.word, &mut looked);
        let asked = Asked {
            item,
            first: &self.first,
            next: &next,
        };
        let mut offer: Offer<Entry<T>, u64, Law, Nothing> = self
            .seen
            .plain::<Nothing, Asked<T>, Add>(&asked);
        self.word
            .compare_exchange::<Add, Nothing>(0, 0, &mut self.seen, &mut offer, &mut self.pen);
        self.pen = next;
    }

    /// Adds the items after the first `count`, one after the other.
    pub fn add_behind(&mut self, items: &[T], count: usize)
        requires { count ≤ length items.now }
        ensures { self.new ≡ record self.old { items = self.old.items ++ drop count items.now } }
    {
        let (_, new) = items.split_at(count);
        for item in new {
            self.add(item);
        }
    }
}

impl<T> Glance<T> {
    /// An equal value.
    pub fn again(&self) -> Glance<T>
        ensures { result ≡ self.now }
    {
        Glance {
            first: self.first.again(),
            seen: self.seen.again(),
        }
    }

    /// A law: what one of the two has seen of the history is a beginning of what the other has seen.
    pub fn compare(&self, other: &Glance<T>)
        requires { other.now.source ≡ self.now.source }
        ensures { IsPrefix self.now.items other.now.items ⊎ IsPrefix other.now.items self.now.items }
    {
        let mut both = self.seen.again();
        both.learn(&other.seen);
    }
}
