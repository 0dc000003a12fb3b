//! A worker: its post, and the sessions that are open. The post is lent to one of them at a time.

ghost use Rattle.std.specs.Prelude.{◌≡◌, ◌≢◌, ◌≤◌, ℕ, None, Some, IfSome, OnOk, OnErr};
ghost use Rattle.std.specs.Option.{option_copied};
ghost use Rattle.tt_workers.specs.Worker.{HasWorked, IsNew, Served, ServedLast, WorkerServed, max_sessions};
ghost use Rattle.slab.specs.Slab.{get, slab_len, Updates};

use crate::sessions::{After, MachinePost, PIECE, Session, Task};
use crate::states::ThreadState;
use slab::Slab;
use std::alloc::Global;
use std::io::{Read, Write};
use std::marker::Model;
use std::snapshot::Snapshot;
use std::sync::Wait;
use std::time::Clock as SystemClock;
use tt_publish::Watch;
use tt_stamp::Seat;

/// The most sessions of one worker. So 32 workers have over 10,000.
pub const MAX_SESSIONS: usize = 320;

/// A worker: its post, and each session that is open with its connection, at a place of its own. In contracts it is these
/// two, and the post with which it began.
///
/// Whatever turns there were: each led from the post that it found to the one that it left, and was a turn of one session.
/// What a session has heard is what its connection gave, in order and once, and its replies are what was written there.
#[derive(Drop)]
pub struct Worker<'a, R, I: Read, O: Write> {
    /// Its post, which is lent to a session by value. It is there between two loans.
    post: Option<MachinePost<'a, R>>,
    sessions: Slab<Session<'a, I, O>>,
    first: Snapshot<MachinePost<'a, R>>,
}

impl<'a, R, I: Read, O: Write> Model for Worker<'a, R, I, O> {
    ghost use Rattle.slab.specs.Slab.{get};
    ghost use Rattle.tt_workers.specs.Worker.{WorkerState, IsAt, post_or};

    ghost Value = { WorkerState };

    ghost view = { λ w. record { first = w.first.value; post = post_or w.first.value w.post; sessions = w.sessions } };

    ghost invariant = { λ w. IsAt w.first.value w.post (get w.sessions) };
}

impl<'a, R: Wait + SystemClock, I: Read + Drop, O: Write + Drop> Worker<'a, R, I, O> {
    /// A worker with this post, that has served no session.
    pub fn new(alloc: Global, post: MachinePost<'a, R>) -> Self
        ensures first { result.first ≡ post.entry }
        ensures post { result.post ≡ post.entry }
        ensures none { (place : ℕ) → get result.sessions place ≡ None }
    {
        let first = Snapshot::of(&post);
        Worker {
            post: Some(post),
            sessions: Slab::new(alloc),
            first,
        }
    }

    /// How many sessions are open.
    pub fn open_sessions(&self) -> usize
        ensures value { result ≡ slab_len self.now.sessions }
    {
        self.sessions.len()
    }

    /// All sessions that are open are at places below this.
    pub(crate) fn places(&self) -> usize {
        self.sessions.capacity()
    }

    /// The session at this place.
    pub(crate) fn session(&self, place: usize) -> Option<&Session<'a, I, O>>
        ensures value { option_copied result ≡ get self.now.sessions place }
    {
        self.sessions.get(place)
    }

    /// Opens this session, which begins. Answers its place. None, and all stays as it was, if [`MAX_SESSIONS`] are open, or
    /// if it is out of memory. Requires: it has heard nothing so far.
    pub(crate) fn begin(&mut self, session: Session<'a, I, O>) -> Option<usize>
        requires is_new { IsNew session }
        ensures first { self.new.first ≡ self.old.first }
        ensures post { self.new.post ≡ self.old.post }
        ensures free { IfSome result (λ place. get self.old.sessions place ≡ None) }
        ensures begun { IfSome result (λ place. Updates self.old.sessions self.new.sessions place (Some session.entry)) }
        ensures none { (result ≡ None) → (place : ℕ) → get self.new.sessions place ≡ get self.old.sessions place }
        ensures most { max_sessions ≤ slab_len self.old.sessions → result ≡ None }
    {
        if self.sessions.len() >= MAX_SESSIONS {
            return None;
        }
        match self.sessions.insert(session) {
            Ok(place) => Some(place),
            Err(_) => None,
        }
    }

    /// Lends the post to the session at this place for a task: see [`Session::perform`]. No other session changes, and no
    /// other connection. Refuses with the session if it is over, which has ended then. Where there is none, all stays as it was.
    pub(crate) fn lend(
        &mut self,
        place: usize,
        task: Task,
        state: &mut ThreadState<'a, R>,
        buffer: &mut [u8; PIECE],
    ) -> Result<After, Option<Session<'a, I, O>>>
        ensures first { self.new.first ≡ self.old.first }
        ensures others { (other : ℕ) → other ≢ place → get self.new.sessions other ≡ get self.old.sessions other }
        ensures served { OnOk result (Served (get self.old.sessions place) self.old.post (get self.new.sessions place) self.new.post) }
        ensures last { OnErr result (ServedLast (get self.old.sessions place) self.old.post self.new.post) }
        ensures ended { OnErr result (get self.new.sessions place ≡ None) }
    {
        let Some(session) = self.sessions.get_mut(place) else {
            return Ok(After::Done);
        };
        let Some(post) = self.post.take() else {
            unreachable!()
        };
        let (post, done) = session.perform(task, post, state, buffer);
        self.post = Some(post);
        match done {
            Ok(after) => Ok(after),
            Err(_) => Err(self.sessions.try_remove(place)),
        }
    }

    /// Ends the session at this place, and answers it, if there is one.
    pub(crate) fn end(&mut self, place: usize) -> Option<Session<'a, I, O>>
        ensures first { self.new.first ≡ self.old.first }
        ensures post { self.new.post ≡ self.old.post }
        ensures value { result ≡ get self.old.sessions place }
        ensures ended { Updates self.old.sessions self.new.sessions place None }
    {
        self.sessions.try_remove(place)
    }

    /// Ends the worker, and with it each session that is still open. Answers its watch and its seat.
    pub fn into_parts(self) -> (Watch, Seat)
        ensures served { WorkerServed self.entry.first result.0 result.1 }
    {
        let Worker {
            post,
            mut sessions,
            ..
        } = self;
        sessions.clear();
        match post {
            Some(post) => post.into_parts(),
            None => unreachable!(),
        }
    }

    /// A law of workers: from the post with which it began there were turns alone, of sessions that have ended since or are
    /// open. Each that is open stands by what its connection gave, and what was written there.
    pub fn law(&self)
        ensures worked { HasWorked self.now.first self.now.post (get self.now.sessions) }
    {
        let _ = &self.post;
    }
}
