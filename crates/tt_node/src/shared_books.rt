//! One book of commits that many threads share, and what each of them knows of it.
//!
//! A [`SharedBook`] has a [`tt_stamp::Book`] under a lock. What happens in it is one legal history, as in any book.
//! Each thread has a [`BookView`], which takes no bytes. The view has seen all of this history, or an earlier state of
//! it.
//!
//! After each call the view has seen everything that had happened when the call gave the lock back. So a call says
//! exactly what it did: a queued commit is the last entry that the view has seen, a refusal is the first fault of the
//! history that the view has seen, and the receipt of a commit is the one in this history. What one of two views has
//! seen is an earlier state of what the other has seen.
//!
//! ```text
//! let (book, mut view) = opened.named::<J>(alloc);   // opened is OpenedBook::new(), and J names it
//! book.queue(rt, &mut view, id, 5)?;
//! let reading = Reading::of(Span::new(6, 20)?);
//! let receipt = book.release_and_ask(rt, &mut view, &reading, id);
//! // 5 is below 6, so the commit is released: its receipt has the stamp 5 and the earliest 6
//! ```
//!
//! The history exists in the proofs alone. A type, [`WhichBook`], says which book it is. [`OpenedBook::new`] makes the
//! history, and [`OpenedBook::named`] makes the shared book of that name with its first view.

ghost use Rattle.std.specs.Prelude.{◌≡◌, ◌∷◌, [], List, None, OnOk, OnErr, IfErr, ◌⊎◌};
ghost use Rattle.tt_stamp.specs.History.{IsLegalHistory, waiting_of, release_of, with_receipts, first_queue_fault, receipt_of};
ghost use Rattle.tt_stamp.specs.declared.commits.Entry.{Entry};
ghost use Rattle.tt_node.specs.SharedBooks.{GoesOn, AnswersFault};

use std::alloc::Global;
use std::marker::{Brand, Model, PhantomData};
use std::sync::{Mutex, Wait};
use tt_history::{Glance, History};
use tt_publish::Reading;
use tt_stamp::{Book, BookFault, Entry, Id, Receipt};

/// The name of a shared book: the `source` of its history. A program names a book when it opens it.
pub trait WhichBook {
    ghost use Rattle.tt_history.specs.Known.{Source};

    ghost source: { Source };
}

impl WhichBook for Brand {
    ghost source = { record { book = record { number = 0; log_name = 0; cells_name = 0 }; chain = 0 } };
}

/// The history of a book that was just opened and has no name yet. In contracts it is its `source`.
#[derive(Drop)]
pub struct OpenedBook {
    history: History<Entry>,
}

impl Model for OpenedBook {
    ghost use Rattle.std.specs.Prelude.{◌≡◌, []};
    ghost use Rattle.tt_history.specs.Known.{Source};

    ghost Value = { Source };

    ghost view = { λ o. o.history.source };

    ghost invariant = { λ o. o.history.items ≡ [] };
}

impl OpenedBook {
    /// A history in which nothing has happened.
    pub fn new() -> OpenedBook {
        OpenedBook {
            history: History::open(),
        }
    }

    /// The shared book, and a view of it. The view has seen that nothing has happened. Requires: `J` is the name of
    /// this book.
    pub fn named<J: WhichBook>(self, alloc: Global) -> (SharedBook<J>, BookView<J>)
        requires { self ≡ J.source }
        ensures none { result.1 ≡ [] }
    {
        let OpenedBook { history } = self;
        let kept: Kept<J> = Kept {
            book: Book::new(alloc),
            history,
            of: PhantomData,
        };
        let view = kept.view();
        (
            SharedBook {
                kept: Mutex::new(kept),
            },
            view,
        )
    }
}

/// What the lock protects: the book, and its history with the pen for the next entry. In contracts it is the history,
/// newest first.
#[derive(Drop)]
struct Kept<J: WhichBook> {
    book: Book,
    history: History<Entry>,
    of: PhantomData<J>,
}

impl<J: WhichBook> Model for Kept<J> {
    ghost use Rattle.std.specs.Prelude.{◌≡◌, List, reverse};
    ghost use Rattle.tt_stamp.specs.declared.commits.Entry.{Entry};

    ghost Value = { List Entry };

    ghost view = { λ k. k.book };

    ghost invariant = { λ k. (k.history.source ≡ J.source) × (k.history.items ≡ reverse k.book) };
}

/// What one thread has seen of the history of a shared book. In contracts it is the entries that were seen, newest
/// first. It takes no bytes.
#[derive(Drop)]
pub struct BookView<J: WhichBook> {
    glance: Glance<Entry>,
    of: PhantomData<J>,
}

impl<J: WhichBook> Model for BookView<J> {
    ghost use Rattle.std.specs.Prelude.{◌≡◌, List, reverse};
    ghost use Rattle.tt_stamp.specs.History.{IsLegalHistory};
    ghost use Rattle.tt_stamp.specs.declared.commits.Entry.{Entry};

    ghost Value = { List Entry };

    ghost view = { λ v. reverse v.glance.items };

    ghost invariant = { λ v. (v.glance.source ≡ J.source) × IsLegalHistory (reverse v.glance.items) };
}

impl<J: WhichBook> BookView<J> {
    /// An equal view, for another thread.
    pub fn again(&self) -> BookView<J>
        ensures { result ≡ self.now }
    {
        BookView {
            glance: self.glance.again(),
            of: PhantomData,
        }
    }

    /// A law: what the view has seen is a legal history.
    pub fn legal(&self)
        ensures { IsLegalHistory self.now }
    {
        let _ = &self.glance;
    }

    /// A law: what one of the two views has seen is an earlier state of what the other has seen, and both are legal
    /// histories.
    pub fn compare(&self, other: &BookView<J>)
        ensures one { GoesOn self.now other.now ⊎ GoesOn other.now self.now }
        ensures legal { IsLegalHistory self.now × IsLegalHistory other.now }
    {
        self.glance.compare(&other.glance);
    }
}

impl<J: WhichBook> Kept<J> {
    /// A view that has seen the whole history.
    fn view(&self) -> BookView<J>
        ensures { result ≡ self.now }
    {
        let _entries = self.book.history();
        BookView {
            glance: self.history.glance(),
            of: PhantomData,
        }
    }

    /// Queues a commit.
    fn queue(&mut self, view: &mut BookView<J>, id: Id, stamp: u64) -> Result<(), BookFault>
        ensures earlier { GoesOn view.old self.old }
        ensures ok { OnOk result ((first_queue_fault self.old id stamp ≡ None) × (self.new ≡ Entry.Queued id stamp ∷ self.old)) }
        ensures err { OnErr result (self.new ≡ self.old) }
        ensures fault { IfErr result (λ fault. AnswersFault (first_queue_fault self.old id stamp) fault) }
        ensures seen { view.new ≡ self.new }
    {
        self.history.catch_up(&view.glance);
        let answer = self.book.queue(id, stamp);
        if answer.is_ok() {
            self.history.add(&Entry::Queued { id, stamp });
        }
        *view = self.view();
        answer
    }

    /// Releases each commit whose stamp has surely passed by this reading.
    fn release(&mut self, reading: &Reading)
        ensures { self.new ≡ with_receipts (release_of (waiting_of self.old) reading.now.lo) self.old }
    {
        let before = self.book.history().len();
        self.book.release(reading);
        self.history.add_behind(self.book.history(), before);
    }

    /// Releases as `release` does, and then asks whether a commit is released.
    fn release_and_ask(
        &mut self,
        view: &mut BookView<J>,
        reading: &Reading,
        id: Id,
    ) -> Option<Receipt>
        ensures earlier { GoesOn view.old self.old }
        ensures released { self.new ≡ with_receipts (release_of (waiting_of self.old) reading.now.lo) self.old }
        ensures seen { view.new ≡ self.new }
        ensures answer { result ≡ receipt_of self.new id }
    {
        self.history.catch_up(&view.glance);
        self.release(reading);
        *view = self.view();
        self.book.is_released(id)
    }
}

/// A book of commits that many threads share.
#[derive(Drop)]
pub struct SharedBook<J: WhichBook> {
    kept: Mutex<Kept<J>>,
}

impl<J: WhichBook> SharedBook<J> {
    /// A view for another thread. It has seen everything that has happened in the book so far.
    pub fn view(&self, rt: &impl Wait) -> BookView<J>
        ensures legal { IsLegalHistory result }
    {
        let view = self.kept.lock(rt).view();
        view.legal();
        view
    }

    /// Queues a commit with its stamp, in nanoseconds. It makes one [`Book::queue`] while it holds the lock. Then the
    /// view has seen everything that had happened in the book, and the commit's entry as the last one.
    ///
    /// Refuses, in this order: 1001 `Full`, 1002 `IdThere`, 1003 `StampThere`, 1 `Memory`. A refusal with one of the
    /// first three names the first fault of the history that the view has seen then. `Memory` comes only if this
    /// history has no fault. After a refusal nothing is queued.
    pub fn queue(
        &self,
        rt: &impl Wait,
        view: &mut BookView<J>,
        id: Id,
        stamp: u64,
    ) -> Result<(), BookFault>
        ensures seen { GoesOn view.old view.new }
        ensures legal { IsLegalHistory view.new }
        ensures queued { OnOk result ((past : List Entry) × GoesOn view.old past × (first_queue_fault past id stamp ≡ None) × (view.new ≡ Entry.Queued id stamp ∷ past)) }
        ensures refused { IfErr result (λ fault. AnswersFault (first_queue_fault view.new id stamp) fault) }
    {
        let answer = self.kept.lock(rt).queue(view, id, stamp);
        view.legal();
        answer
    }

    /// Releases each commit whose stamp has surely passed by this reading, and then asks whether this commit is
    /// released. It makes one [`Book::release`] and one [`Book::is_released`], and keeps the lock in between. Then the
    /// view has seen everything that had happened in the book, and the receipts of this release as the last entries.
    /// The answer is the receipt of the commit in what the view has seen then, whichever thread released the commit. It
    /// takes no memory.
    pub fn release_and_ask(
        &self,
        rt: &impl Wait,
        view: &mut BookView<J>,
        reading: &Reading,
        id: Id,
    ) -> Option<Receipt>
        ensures seen { GoesOn view.old view.new }
        ensures legal { IsLegalHistory view.new }
        ensures released { (past : List Entry) × GoesOn view.old past × (view.new ≡ with_receipts (release_of (waiting_of past) reading.now.lo) past) }
        ensures answer { result ≡ receipt_of view.new id }
    {
        let receipt = self.kept.lock(rt).release_and_ask(view, reading, id);
        view.legal();
        receipt
    }
}
