//! Pending commits, and receipts of the released ones.

ghost use Rattle.std.specs.Prelude.{◌≡◌, ◌≢◌, ℕ, ◌+◌, ◌^◌, ◌<◌, ◌≤◌, ◌↔◌, true, false, IsTrue, List, [], ◌∷◌, ◌++◌, length, reverse, map, Contains, Some, None, Ok, Err, IsOk, OnOk, OnErr, IfOk, IfErr, IsErrOf, IfSome, IfNone, MatchOption, IsOkUnless, IsSome, vec_len, vec_capacity, nat_lt, if◌then◌else◌};
ghost use Rattle.std.specs.List.Sorted.{IsStrictlyIncreasing, IsNonDecreasing, IsNonDecreasingBy, IsPartitionPoint};
ghost use Rattle.std.specs.BTreeMap as tree;
ghost use Rattle.std.specs.BTreeMap.{is_at, insert_entry};
ghost use Rattle.std.specs.VecDeque.{deque_len, deque_capacity};
ghost use Rattle.std.specs.Ordering.{nat_cmp};
ghost use Rattle.tt_stamp.specs.History.{MayQueue, Waits, IsLegalHistory, IsRelease, IsIdThere, IsStampThere, waiting_of, released_of, release_of, with_receipts, first_queue_fault, receipt_of, has_stamp, max_waiting};
ghost use Rattle.tt_stamp.specs.History.{IsNextReceipt, MayFollow};
ghost use Rattle.tt_stamp.specs.Forgetting.{session_of as session_in, without_session, HasSession, WaitsIn};
ghost use Rattle.tt_stamp.specs.Book.{IsReleaseTurn, IsPlaceOf, is_among};
ghost use Rattle.tt_stamp.specs.Ids.{id_cmp};
ghost use Rattle.tt_stamp.specs.declared.commits.Id.{Id};
ghost use Rattle.tt_stamp.specs.declared.commits.Entry.{Entry};
ghost use Rattle.tt_stamp.specs.declared.commits.Receipt.{Receipt};

use crate::commits::{Entry, Id, Receipt, Standing};
use crate::faults::{BookFault, ForgetFault};
use crate::standings::Standings;
use std::alloc::{AllocError, Global};
use std::collections::VecDeque;
use std::marker::Model;
use tt_publish::Reading;

/// The most pending commits of a book.
pub const MAX_WAITING: usize = 65_536;

/// The commits of one machine: the pending ones, and the receipts of the released ones. In contracts a book is its
/// history, newest first.
///
/// Receipts are kept until their session is forgotten.
#[derive(Drop)]
pub struct Book {
    history: Vec<Entry>,
    // The pending commits, least stamp first.
    waiting: VecDeque<(u64, Id)>,
    standings: Standings,
    // The stamps of all commits that were queued, in order. A new one is mostly the greatest, and goes to the end.
    stamps: Vec<u64>,
}

impl Model for Book {
    ghost use Rattle.std.specs.Prelude.{List};
    ghost use Rattle.tt_stamp.specs.declared.commits.Entry.{Entry};

    ghost Value = { List Entry };

    ghost use Rattle.tt_stamp.specs.Book.{history_of, IsBook};

    ghost view = { history_of };

    ghost invariant = { IsBook };
}

impl Book {
    /// A book in which nothing has happened.
    pub fn new(alloc: Global) -> Book
        ensures { result ≡ [] }
    {
        Book {
            history: Vec::new(alloc),
            waiting: VecDeque::new(alloc),
            standings: Standings::new(alloc),
            stamps: Vec::new(alloc),
        }
    }

    /// Queues a commit with its stamp, in nanoseconds: it is pending from now on. Its one entry is appended to the
    /// history.
    ///
    /// Refuses, in this order: 1001 `Full` where [`MAX_WAITING`] commits are pending, 1002 `IdThere` where a commit
    /// with this id is pending or was released, 1003 `StampThere` where one with this stamp is or was, 1 `Memory`.
    /// After a refusal the book is as it was. Memory for the later receipt is taken here.
    pub fn queue(&mut self, id: Id, stamp: u64) -> Result<(), BookFault>
        ensures fault { MatchOption (first_queue_fault self.old id stamp)
            (IsOkUnless result BookFault.Memory) (λ fault. result ≡ Err fault) }
        ensures may { IsOk result → MayQueue self.old id stamp }
        ensures ok { OnOk result (self.new ≡ Entry.Queued id stamp ∷ self.old) }
        ensures err { OnErr result (self.new ≡ self.old) }
    {
        if self.waiting() >= MAX_WAITING {
            return Err(BookFault::Full);
        }
        if self.standings.get(id).is_some() {
            return Err(BookFault::IdThere);
        }
        let Some(place) = place_of(&self.stamps, stamp) else {
            return Err(BookFault::StampThere);
        };
        if make_room(&mut self.history, &mut self.waiting, &mut self.stamps).is_err() {
            return Err(BookFault::Memory);
        }
        if self.standings.add(id).is_err() {
            return Err(BookFault::Memory);
        }
        let _ = self.stamps.insert(place, stamp);
        put_in_order(&mut self.waiting, stamp, id);
        self.history.push_reserved(Entry::Queued { id, stamp });
        Ok(())
    }

    /// Releases each pending commit whose stamp is below the earliest of this reading, least stamp first, and answers
    /// how many these are. Such a stamp has surely passed (commit wait of Spanner, OSDI 2012, section 4.2.1). The
    /// receipts are appended to the history. It takes no memory.
    pub fn release(&mut self, reading: &Reading) -> usize
        ensures receipts { self.new ≡ with_receipts (release_of (waiting_of self.old) reading.now.lo) self.old }
        ensures count { result ≡ length (release_of (waiting_of self.old) reading.now.lo) }
        ensures exactly { (receipts : List Receipt) × IsRelease (waiting_of self.old) reading.now.lo receipts
            × (self.new ≡ with_receipts receipts self.old) × (result ≡ length receipts) }
    {
        let earliest = reading.earliest();
        let count = self.releasable(reading);
        for _ in 0..count {
            self.pass(earliest);
        }
        count
    }

    /// How many commits a release with this reading would release.
    pub fn releasable(&self, reading: &Reading) -> usize
        ensures value { result ≡ length (release_of (waiting_of self.now) reading.now.lo) }
    {
        count_below(&self.waiting, reading.earliest())
    }

    // Releases the pending commit with the least stamp, which is below the earliest.
    fn pass(&mut self, earliest: u64)
        requires { 0 < length (release_of (waiting_of self.old) earliest) }
        ensures turn { IsReleaseTurn self.old self.new earliest }
        ensures next { (receipt : Receipt) × (receipt.earliest ≡ earliest) × IsNextReceipt self.old receipt
            × (self.new ≡ Entry.Passed receipt ∷ self.old) }
    {
        let Some((stamp, id)) = self.waiting.pop_front() else {
            unreachable!()
        };
        let place = self.history.len();
        self.standings.set(id, Standing::Released(place));
        self.history.push_reserved(Entry::Passed(Receipt {
            id,
            stamp,
            earliest,
        }));
    }

    /// The receipt of a commit if it was released, None if it is pending or unknown.
    pub fn is_released(&self, id: Id) -> Option<Receipt>
        ensures value { result ≡ receipt_of self.now id }
        ensures found { IfSome result (λ receipt. (receipt.id ≡ id) × Contains (released_of self.now) receipt) }
        ensures none { IfNone result ((receipt : Receipt) → Contains (released_of self.now) receipt → receipt.id ≢ id) }
    {
        let Standing::Released(place) = self.standings.get(id)? else {
            return None;
        };
        let Entry::Passed(receipt) = self.history[place] else {
            unreachable!()
        };
        Some(receipt)
    }

    /// Forgets a session whose commits are all released: the entries of its commits leave the history, and their memory
    /// is freed. The pending commits and the receipts of other sessions stay. Ids and stamps of the session may be
    /// queued again.
    ///
    /// Refuses, in this order: 1004 `Waits` where a commit of the session is pending, 1 `Memory`. After a refusal the
    /// book is as it was. A new book is made of what stays, so until that is done both books take memory.
    pub fn forget(&mut self, alloc: Global, session: u32) -> Result<(), ForgetFault>
        ensures waits { IsErrOf result ForgetFault.Waits ↔ WaitsIn self.old session }
        ensures ok { OnOk result (self.new ≡ without_session session self.old) }
        ensures err { OnErr result (self.new ≡ self.old) }
        // So the pending commits stay, and each receipt of another session.
        ensures waiting { waiting_of self.new ≡ waiting_of self.old }
        ensures receipts { (id : Id) → id.session ≢ session → receipt_of self.new id ≡ receipt_of self.old id }
        ensures legal { IsLegalHistory self.new }
    {
        if has_session(&self.waiting, session) {
            return Err(ForgetFault::Waits);
        }
        let kept = self.without(alloc, session)?;
        *self = kept;
        Ok(())
    }

    // A book with the entries of the other sessions alone.
    fn without(&self, alloc: Global, session: u32) -> Result<Book, ForgetFault>
        ensures ok { IfOk result (λ kept. kept ≡ without_session session self.now) }
        ensures err { IfErr result (λ fault. fault ≡ ForgetFault.Memory) }
    {
        let mut kept = Book::new(alloc);
        for entry in self.history() {
            if session_of(entry) != session {
                kept.follow(entry)?;
            }
        }
        Ok(kept)
    }

    // Repeats what an entry says: queues its commit, or releases it.
    fn follow(&mut self, entry: &Entry) -> Result<(), ForgetFault>
        requires { MayFollow self.old entry.now }
        ensures ok { OnOk result (self.new ≡ entry.now ∷ self.old) }
        ensures err { IfErr result (λ fault. fault ≡ ForgetFault.Memory) }
    {
        match *entry {
            Entry::Queued { id, stamp } => match self.queue(id, stamp) {
                Ok(()) => Ok(()),
                Err(_) => Err(ForgetFault::Memory),
            },
            Entry::Passed(receipt) => {
                self.pass(receipt.earliest);
                Ok(())
            }
        }
    }

    /// How many commits are pending: at most [`MAX_WAITING`].
    pub fn waiting(&self) -> usize
        ensures value { result ≡ length (waiting_of self.now) }
        ensures bound { result ≤ max_waiting }
    {
        self.waiting.len()
    }

    /// What happened, oldest first.
    pub fn history(&self) -> &[Entry]
        ensures entries { result.now ≡ reverse self.now }
        ensures legal { IsLegalHistory self.now }
    {
        &self.history
    }
}

/// Laws of histories.
///
/// - A commit may be queued exactly where no fault is found. A fault is found exactly where its reason holds and no
///   reason before it in the order does.
/// - After a legal history a commit is pending if it was queued and no later receipt names it. No two pending commits
///   have the same stamp.
/// - A release gives one receipt for each pending commit whose stamp is below the earliest, least stamp first. They
///   stand at the end of the history, which stays legal.
pub fn book_laws()
    ensures queue { (past : List Entry) (id : Id) (stamp : ℕ) →
        (first_queue_fault past id stamp ≡ None) ↔ MayQueue past id stamp }
    ensures full { (past : List Entry) (id : Id) (stamp : ℕ) →
        (first_queue_fault past id stamp ≡ Some BookFault.Full) ↔ (max_waiting ≤ length (waiting_of past)) }
    ensures id_there { (past : List Entry) (id : Id) (stamp : ℕ) →
        (first_queue_fault past id stamp ≡ Some BookFault.IdThere)
        ↔ ((length (waiting_of past) < max_waiting) × IsIdThere past id) }
    ensures stamp_there { (past : List Entry) (id : Id) (stamp : ℕ) →
        (first_queue_fault past id stamp ≡ Some BookFault.StampThere)
        ↔ ((length (waiting_of past) < max_waiting) × (¬ IsIdThere past id) × IsStampThere past stamp) }
    ensures waiting { (past : List Entry) (id : Id) (stamp : ℕ) → IsLegalHistory past →
        Contains (waiting_of past) (stamp, id) ↔ Waits past id stamp }
    ensures rising { (past : List Entry) →
        IsStrictlyIncreasing (map (λ commit. commit.0) (waiting_of past)) }
    ensures release { (past : List Entry) (earliest : ℕ) →
        IsRelease (waiting_of past) earliest (release_of (waiting_of past) earliest) }
    ensures history { (past : List Entry) (receipts : List Receipt) →
        reverse (with_receipts receipts past) ≡ reverse past ++ map (λ receipt. Entry.Passed receipt) receipts }
    ensures legal { (past : List Entry) (earliest : ℕ) → IsLegalHistory past →
        IsLegalHistory (with_receipts (release_of (waiting_of past) earliest) past) }
{}

/// Laws of a history without the entries of one session.
///
/// What is left of a legal history is legal. An id is in it exactly if it was in the history and is of another session,
/// a stamp exactly if a commit of another session has it.
pub fn forget_laws()
    ensures legal { (past : List Entry) (session : ℕ) → IsLegalHistory past → IsLegalHistory (without_session session past) }
    ensures receipts { (past : List Entry) (session : ℕ) (id : Id) → id.session ≢ session →
        receipt_of (without_session session past) id ≡ receipt_of past id }
    ensures ids { (past : List Entry) (session : ℕ) (id : Id) →
        IsIdThere (without_session session past) id ↔ (IsIdThere past id × (id.session ≢ session)) }
    ensures stamps { (past : List Entry) (session stamp : ℕ) →
        IsStampThere (without_session session past) stamp
        ↔ ((id : Id) × Contains past (Entry.Queued id stamp) × (id.session ≢ session)) }
{}

// The session of the commit that an entry is of.
fn session_of(entry: &Entry) -> u32
    ensures { result ≡ session_in entry.now }
{
    match entry {
        Entry::Queued { id, stamp: _ } => id.session,
        Entry::Passed(receipt) => receipt.id.session,
    }
}

// The place of a new stamp among stamps in order. None where it is one of them.
fn place_of(stamps: &[u64], stamp: u64) -> Option<usize>
    requires { IsNonDecreasing stamps.now }
    ensures new { IfSome result (λ place. IsPlaceOf stamps.now stamp place) }
    ensures there { IfNone result (is_among stamps.now stamp ≡ true) }
{
    let end = stamps.len();
    if end == 0 {
        return Some(0);
    }
    if stamps[end - 1] < stamp {
        return Some(end);
    }
    stamps.binary_search(&stamp).err()
}

// Takes the memory for one more commit: its entry, its place among the pending ones, its stamp, and the receipts of all
// that are pending then.
fn make_room(
    history: &mut Vec<Entry>,
    waiting: &mut VecDeque<(u64, Id)>,
    stamps: &mut Vec<u64>,
) -> Result<(), AllocError>
    ensures same { (history.new.items ≡ history.old.items) × (waiting.new.items ≡ waiting.old.items) × (stamps.new.items ≡ stamps.old.items) }
    ensures len { (vec_len history.new ≡ vec_len history.old) × (deque_len waiting.new ≡ deque_len waiting.old) × (vec_len stamps.new ≡ vec_len stamps.old) }
    ensures capacity { vec_capacity history.old ≤ vec_capacity history.new }
    ensures ok { OnOk result ((vec_len history.new + deque_len waiting.new + 2 ≤ vec_capacity history.new) × (deque_len waiting.new < deque_capacity waiting.new) × (vec_len stamps.new < vec_capacity stamps.new)) }
{
    history.reserve(waiting.len() + 2)?;
    waiting.reserve(1)?;
    stamps.reserve(1)
}

// How many of these commits, which are in order, have a stamp below this one. Mostly all of them.
fn count_below(waiting: &VecDeque<(u64, Id)>, stamp: u64) -> usize
    requires { IsNonDecreasingBy (λ commit. commit.0) waiting.now.items }
    ensures within { result ≤ length waiting.now.items }
    ensures divided { IsPartitionPoint (λ commit. nat_lt commit.0 stamp ≡ true) (λ commit. nat_lt commit.0 stamp ≡ false) waiting.now.items result }
{
    if let Some(last) = waiting.back() {
        if last.0 < stamp {
            return waiting.len();
        }
    }
    waiting.partition_point(|commit| commit.0 < stamp)
}

// Whether one of these commits is of this session.
fn has_session(commits: &VecDeque<(u64, Id)>, session: u32) -> bool
    ensures { IsTrue result ↔ HasSession commits.now.items session }
{
    for place in 0..commits.len() {
        if commits[place].1.session == session {
            return true;
        }
    }
    false
}

// Puts a commit with a new stamp in its place among the pending ones. Memory for it has been taken.
fn put_in_order(waiting: &mut VecDeque<(u64, Id)>, stamp: u64, id: Id)
    requires room { deque_len waiting.old < deque_capacity waiting.old }
    requires order { (past : List Entry) × (waiting.old.items ≡ waiting_of past) × (has_stamp past stamp ≡ false) }
    ensures items { waiting.new.items ≡ insert_entry nat_cmp waiting.old.items stamp id }
    ensures len { deque_len waiting.new ≡ deque_len waiting.old + 1 }
{
    let place = count_below(waiting, stamp);
    let _ = waiting.insert(place, (stamp, id));
}
