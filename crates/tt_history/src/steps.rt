//! The rule of the log, and the steps on its first word.

ghost use Rattle.std.specs.Prelude.{◌≡◌};
ghost use Rattle.logbook.specs.Pages.{may_write};
ghost use Rattle.tt_history.specs.Chains.{Begins, word_of};

use crate::entries::Entry;
use logbook::{Gain, Offer, Pen, Plain, Play, Rule, Seen, Word};

/// The rule of the log: each item was added by the pen for it.
pub struct Law;

impl<T> Rule<Entry<T>, u64> for Law {
    ghost use Rattle.std.specs.Prelude.{[]};
    ghost use base.Fml.{ftrue};
    ghost use Rattle.tt_history.specs.Chains.{IsKept};

    ghost holds = { λ cells log. IsKept cells log };

    ghost first = { [] };

    ghost hinted = { λ n log. Unit {0} };

    ghost shows = { λ log. [] };

    ghost keeps = { λ names log. ftrue };

    ghost moves = { λ ask before after answer. Unit {0} };
}

/// What the update of a client gains: nothing.
pub struct Nothing;

impl<T> Gain<Entry<T>, u64> for Nothing {
    ghost use base.Fml.{ftrue};

    ghost after = { λ names about answer. ftrue };
}

/// The step that begins a chain, and gives the pen for its first item.
pub struct Begin;

impl<T> Play<Entry<T>, u64> for Begin {
    ghost use Rattle.tt_history.specs.Chains.{BeginsChain};

    ghost then = { BeginsChain };
}

impl<T> Plain<u64, Entry<T>, u64> for Begin {
    ghost use Rattle.std.specs.Prelude.{None};

    ghost ask = { λ key. record { chain = key; next = key; item = None; shown = 0 } };

    ghost state = { λ key. None };
}

/// The step that adds an item to its chain, by the pen for it.
pub struct Add;

impl<T> Play<Entry<T>, u64> for Add {
    ghost use Rattle.tt_history.specs.Chains.{Adds};

    ghost then = { Adds };
}

/// What the step [`Add`] asks: an item to add, what names its chain, and the pen for the next item.
#[derive(Drop)]
pub struct Asked<'a, T> {
    pub item: &'a T,
    pub first: &'a Seen<Entry<T>, u64, Law>,
    pub next: &'a Pen,
}

impl<'a, T> Plain<Asked<'a, T>, Entry<T>, u64> for Add {
    ghost use Rattle.std.specs.Prelude.{Some, None};
    ghost use Rattle.tt_history.specs.Chains.{chain_of};

    ghost ask = { λ asked. record { chain = chain_of asked.first.now.log; next = asked.next.now.nib.key; item = Some asked.item.now; shown = 0 } };

    ghost state = { λ asked. None };
}

/// The step that looks at a chain, by the pen for its next item. It keeps the pen.
pub struct Look;

impl<T> Play<Entry<T>, u64> for Look {
    ghost use Rattle.tt_history.specs.Chains.{Looks};

    ghost then = { Looks };
}

impl<T> Plain<Seen<Entry<T>, u64, Law>, Entry<T>, u64> for Look {
    ghost use Rattle.std.specs.Prelude.{None};
    ghost use Rattle.tt_history.specs.Chains.{chain_of};

    ghost ask = { λ first. record { chain = chain_of first.log; next = 0; item = None; shown = 0 } };

    ghost state = { λ first. None };
}

/// A pen for a new chain, which has no item.
pub(crate) fn new_pen<T>(
    word: &Word<Entry<T>, u64, Law>,
    seen: &mut Seen<Entry<T>, u64, Law>,
) -> Pen
    requires { word.now ≡ word_of seen.old.book }
    ensures book { (seen.new.book ≡ seen.old.book) × (result.book ≡ seen.old.book) }
    ensures right { result.nib.right ≡ may_write }
    ensures begins { Begins result.nib.key seen.new.log }
{
    let mut offer: Offer<Entry<T>, u64, Law, Nothing> = seen.plain::<Nothing, u64, Begin>(&0);
    let mut pen = seen.no_pen();
    word.compare_exchange::<Begin, Nothing>(0, 0, seen, &mut offer, &mut pen);
    let _made: Word<Entry<T>, u64, Law> = Word::tracked(0, &mut pen);
    pen
}
