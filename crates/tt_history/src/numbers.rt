//! How many items of a history are shown. The log says it, and one word holds this number.

ghost use Rattle.std.specs.Prelude.{◌≡◌, ◌-◌, ◌<◌, ◌≤◌, ◌^◌, IfOk};
ghost use Rattle.tt_history.specs.Chains.{number_word_of, shown_of};

use crate::entries::Entry;
use crate::steps::{Law, Nothing};
use crossbeam_utils::CachePadded;
use logbook::{Offer, Plain, Play, Seen, Word};
use std::alloc::{AllocError, Global};
use std::marker::Model;
use std::sync::Arc;

/// The step that looks at the number.
pub struct Find;

impl<T> Play<Entry<T>, u64> for Find {
    ghost use Rattle.tt_history.specs.Chains.{FindsNumber};

    ghost then = { FindsNumber };
}

impl<T> Plain<u64, Entry<T>, u64> for Find {
    ghost use Rattle.std.specs.Prelude.{None};

    ghost ask = { λ key. record { chain = 0; next = 0; item = None; shown = 0 } };

    ghost state = { λ key. None };
}

/// The step that raises the number by 1.
pub struct Raise;

impl<T> Play<Entry<T>, u64> for Raise {
    ghost use Rattle.tt_history.specs.Chains.{RaisesNumber};

    ghost then = { RaisesNumber };
}

impl<T> Plain<u64, Entry<T>, u64> for Raise {
    ghost use Rattle.std.specs.Prelude.{None};

    ghost ask = { λ key. record { chain = 0; next = 0; item = None; shown = 1 } };

    ghost state = { λ key. None };
}

/// How many items are shown, which many threads share. Nothing else is on its cache lines. In contracts it is the `book`
/// of the history, and the `number` when it was looked at or raised last.
#[derive(Drop)]
pub struct ShownNumber<T> {
    word: Arc<CachePadded<Word<Entry<T>, u64, Law>>, Global>,
    seen: Seen<Entry<T>, u64, Law>,
}

impl<T> Model for ShownNumber<T> {
    ghost use Rattle.std.specs.Prelude.{◌≡◌};
    ghost use Rattle.std.specs.Arc.{arc_value};
    ghost use Rattle.crossbeam_utils.specs.Padded.{padded_value};
    ghost use Rattle.tt_history.specs.Chains.{number_word_of, shown_of};
    ghost use Rattle.tt_history.specs.Known.{HistoryNumber};

    ghost Value = { HistoryNumber };

    ghost view = { λ n. record { book = n.seen.book; number = shown_of n.seen.log } };

    ghost invariant = { λ n. padded_value (arc_value n.word) ≡ number_word_of n.seen.book };
}

impl<T> ShownNumber<T> {
    /// The number that is in this word.
    pub(crate) fn over(
        alloc: Global,
        word: Word<Entry<T>, u64, Law>,
        seen: Seen<Entry<T>, u64, Law>,
    ) -> Result<ShownNumber<T>, AllocError>
        requires { word ≡ number_word_of seen.book }
        ensures { IfOk result (λ number. number ≡ record { book = seen.book; number = shown_of seen.log }) }
    {
        let word = Arc::new(alloc, CachePadded::new(word))?;
        Ok(ShownNumber { word, seen })
    }

    /// The same number, for one more thread.
    pub fn again(&self) -> Result<ShownNumber<T>, AllocError>
        ensures { IfOk result (λ number. number ≡ self.now) }
    {
        let word = Arc::try_clone(&self.word)?;
        Ok(ShownNumber {
            word,
            seen: self.seen.again(),
        })
    }

    /// Afterwards the number is above `number`. The call adds 1 if it is `number`. Requires: it was seen to be `number` or
    /// more, and `number` is below 2^64 - 1.
    pub fn raise(&mut self, number: u64)
        requires known { number ≤ self.old.number }
        requires room { number < 2 ^ 64 - 1 }
        ensures book { self.new.book ≡ self.old.book }
        ensures raised { number < self.new.number }
    {
        let mut offer: Offer<Entry<T>, u64, Law, Nothing> = self
            .seen
            .plain::<Nothing, u64, Raise>(&0);
        let mut pen = self.seen.no_pen();
        self.word
            .compare_exchange::<Raise, Nothing>(
                number,
                number + 1,
                &mut self.seen,
                &mut offer,
                &mut pen,
            );
    }

    /// Looks at the number. It never falls.
    pub fn look(&mut self) -> u64
        ensures book { self.new.book ≡ self.old.book }
        ensures number { result ≡ self.new.number }
        ensures rises { self.old.number ≤ self.new.number }
    {
        let mut offer: Offer<Entry<T>, u64, Law, Nothing> = self
            .seen
            .plain::<Nothing, u64, Find>(&0);
        self.word.load::<Find, Nothing>(&mut self.seen, &mut offer)
    }
}
