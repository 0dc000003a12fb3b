//! Sessions by turns: what is kept of a session between two turns, and one turn of it.

ghost use Rattle.std.specs.Prelude.{◌≡◌, ◌+◌, ◌<◌, ◌≤◌, ◌↔◌, ◌^◌, ℕ, IsTrue, List, [], None, length, nat_lt, IfSome, OnOk, OnErr};
ghost use Rattle.tt_stream.specs.Counts.{HasFailed};
ghost use Rattle.tt_stamp.specs.History.{waiting_of};
ghost use Rattle.tt_session.specs.Commits.{max_pause, pause_margin};
ghost use Rattle.tt_session.specs.Session.{StaysFlushed};
ghost use Rattle.tt_connections.specs.Station.{PostState};
ghost use Rattle.tt_connections.specs.Together.{IsPartOfLine};
ghost use Rattle.tt_connections.specs.Turns.{PostGoesOn};
ghost use Rattle.tt_connections.specs.Visits.{BreaksTurn, StandsAt, TurnsOn, VisitState, new_visit, visit_of};

use crate::pages::Page;
use crate::posts::Post;
use crate::presence::Presence;
use crate::stations::Station;
use crate::together::go_on;
use std::alloc::Global;
use std::marker::Model;
use std::mem;
use std::sync::Wait;
use tt_publish::Clock;
use tt_session::{Replies, Served, Talk};
use tt_span::Span;
use tt_stream::{ByteWriter, DeviceFault};

/// What is kept of a session between two turns: the session between two of its bytes, the lease that the client set, and
/// the book. In contracts it is these three.
///
/// It is a value: between two turns of it, by [`Post::turn`], the same post may serve others.
#[derive(Drop)]
pub struct Visit {
    talk: Talk,
    lease: Span,
    book: Page,
}

impl Model for Visit {
    ghost use Rattle.tt_connections.specs.Together.{IsPartOfLine};
    ghost use Rattle.tt_connections.specs.Visits.{VisitState};

    ghost Value = { VisitState };

    ghost view = { λ v. record { talk = v.talk; lease = v.lease; book = v.book } };

    ghost invariant = { λ v. IsPartOfLine v.talk.line };
}

impl Visit {
    /// A session before its first turn.
    pub fn new(alloc: Global) -> Visit
        ensures made { result ≡ new_visit }
    {
        Visit {
            talk: Talk::new(),
            lease: Span::whole(),
            book: Page::new(alloc),
        }
    }

    /// Whether a commit of the session is pending.
    pub fn is_pending(&self) -> bool
        ensures pending { result ≡ nat_lt 0 (length (waiting_of self.now.book)) }
    {
        self.book.is_pending()
    }

    /// How many lines of the session were answered, and how many of them were refused.
    pub fn served(&self) -> Served
        ensures value { result ≡ self.now.talk.served }
    {
        self.talk.served()
    }

    /// Whether the lines that may end in this many further bytes can be counted: fewer than 2^64 lines are answered in a
    /// session.
    pub fn can_hear(&self, count: usize) -> bool
        ensures room { IsTrue result ↔ self.now.talk.served.lines + count < 2 ^ 64 }
    {
        count as u64 <= u64::MAX - self.talk.served().lines
    }

    /// At most a pause and its margin, and None if no commit is pending. So many nanoseconds the pending commit should
    /// still wait before its next release step, where the client's device shows this now: what is left of the pause behind
    /// the step before. None too if no release step of it was made, or if the device's clock could not be read at that step.
    pub fn left(&self, clock: Option<u64>) -> Option<u64>
        ensures none { length (waiting_of self.now.book) ≡ 0 → result ≡ None }
        ensures most { IfSome result (λ left. left ≤ max_pause + pause_margin) }
    {
        if !self.book.is_pending() {
            return None;
        }
        let missed = self.book.missed()?;
        missed.left_by(clock)
    }

    /// Ends the session. The client's device is told if a commit is still pending.
    pub fn finish<V: Presence>(self, client: &V) {
        if self.book.is_pending() {
            client.ended_waiting(false);
        }
    }
}

impl<'a, R: Wait, C: Clock> Post<'a, R, C> {
    /// One turn of a session of this client: takes further bytes, answers each line that ends in them by steps
    /// ([`Talk::step`]), and hands the replies of each step over by one write and one flush. Answers the post, which may
    /// serve others next; `visit` then is what is kept of the session. A pending commit gets at most `waits` release steps for each
    /// line that asks for it. Nothing of what `replies` has counts: it is room, which costs too much to make for each turn.
    ///
    /// Refuses as the writer does: then all replies but those of the last step are written, and a first part of these; the
    /// service was not called after it, and the session is over. Requires: the lines can be counted, as
    /// [`Visit::can_hear`] says.
    pub fn turn<O: ByteWriter, V: Presence>(
        self,
        client: &V,
        visit: &mut Visit,
        bytes: &[u8],
        writer: &mut O,
        replies: &mut Replies,
        waits: u32,
    ) -> (Self, Result<(), DeviceFault>)
        requires room { visit.old.talk.served.lines + length bytes.now < 2 ^ 64 }
        ensures more { visit.new.talk.served.lines ≤ visit.old.talk.served.lines + length bytes.now }
        ensures goes { PostGoesOn self.entry result.0 }
        ensures ok { OnOk result.1 (TurnsOn C.gives C.failed V.says waits (O.taken writer.old) (O.taken writer.new)
            client.now bytes.now visit.old self.entry visit.new result.0) }
        ensures err { OnErr result.1 (BreaksTurn C.gives C.failed V.says waits O.taken O.flushed writer.old writer.new
            client.now bytes.now visit.old self.entry visit.new result.0) }
        ensures flushed { OnOk result.1 (StaysFlushed O.flushed writer.old writer.new) }
        ensures sound { OnOk result.1 (O.failed writer.new ≡ O.failed writer.old) }
        ensures cause { OnErr result.1 (HasFailed (O.failed writer.old) (O.failed writer.new)) }
    {
        let book = mem::replace(&mut visit.book, Page::new(self.alloc));
        let mut station = Station::resume(self, client, visit.lease, book);
        let done = take_turn(bytes, writer, &mut station, waits, &mut visit.talk, replies);
        let (post, lease, book) = station.suspend();
        visit.lease = lease;
        visit.book = book;
        (post, done)
    }
}

/// A law of turns: before its first byte a session stands at the post at which it begins, and one that stands at a post
/// stands at each that this post becomes. A post becomes what it is, and what it becomes becomes. So whatever other
/// sessions a post serves between two turns of a session, that session stands at it.
pub fn visit_laws<C: Clock, V: Presence>()
    ensures first { (waits : ℕ) (client : V) (post : PostState C)
        → StandsAt C.gives C.failed V.says waits post client [] [] new_visit post }
    ensures later { (waits : ℕ) (client : V) (first : PostState C) (bytes text : List ℕ) (visit : VisitState) (post later : PostState C)
        → StandsAt C.gives C.failed V.says waits first client bytes text visit post → PostGoesOn post later
        → StandsAt C.gives C.failed V.says waits first client bytes text visit later }
    ensures same { (post : PostState C) → PostGoesOn post post }
    ensures both { (one two three : PostState C) → PostGoesOn one two → PostGoesOn two three → PostGoesOn one three }
{}

/// One turn of the session of a station: takes further bytes, answers each line that ends in them, and hands the replies
/// of each step over. Nothing of what `replies` has counts: it is room.
fn take_turn<'a, 'c, R: Wait, C: Clock, V: Presence, O: ByteWriter>(
    bytes: &[u8],
    writer: &mut O,
    station: &mut Station<'a, 'c, R, C, V>,
    waits: u32,
    talk: &mut Talk,
    replies: &mut Replies,
) -> Result<(), DeviceFault>
    requires part { IsPartOfLine talk.old.line }
    requires room { talk.old.served.lines + length bytes.now < 2 ^ 64 }
    ensures part { IsPartOfLine talk.new.line }
    ensures more { talk.new.served.lines ≤ talk.old.served.lines + length bytes.now }
    ensures goes { PostGoesOn station.old.post station.new.post }
    ensures ok { OnOk result (TurnsOn C.gives C.failed V.says waits (O.taken writer.old) (O.taken writer.new) station.old.client
        bytes.now (visit_of station.old talk.old) station.old.post (visit_of station.new talk.new) station.new.post) }
    ensures err { OnErr result (BreaksTurn C.gives C.failed V.says waits O.taken O.flushed writer.old writer.new station.old.client
        bytes.now (visit_of station.old talk.old) station.old.post (visit_of station.new talk.new) station.new.post) }
    ensures flushed { OnOk result (StaysFlushed O.flushed writer.old writer.new) }
    ensures sound { OnOk result (O.failed writer.new ≡ O.failed writer.old) }
    ensures cause { OnErr result (HasFailed (O.failed writer.old) (O.failed writer.new)) }
{
    let mut rest = bytes;
    while !rest.is_empty() {
        let taken = go_on(rest, writer, station, waits, talk, replies)?;
        rest = rest.split_at(taken).1;
    }
    Ok(())
}
