//! A session that is open, with its connection: what it hears comes from there, and its replies go there.

ghost use Rattle.std.specs.Prelude.{◌≡◌, ◌<◌, ◌≤◌, ◌⊎◌, ◌++◌, [], length, take, true, IsFalse, IfOk, OnOk, OnErr};
ghost use Rattle.std.specs.Io.KnownBytes.{Consumes, Keeps, append_known};
ghost use Rattle.tt_clock.specs.Clock.{MachineGives};
ghost use Rattle.tt_stream.specs.Counts.{HasFailed};
ghost use Rattle.tt_connections.specs.Client.{ClientSays};
ghost use Rattle.tt_connections.specs.Turns.{PostGoesOn};
ghost use Rattle.tt_connections.specs.Visits.{BreaksTurn, TurnsOn};
ghost use Rattle.tt_workers.specs.Worker.{Hears, HearsLast, IsNew, IsSpent, Serves, ServesLast, clock_failures, max_waits};

use crate::connections::{Connection, Over, Part, SOON, read_from};
use crate::states::{ThreadState, Tools};
use crate::writers::ReplyWriter;
use std::alloc::Global;
use std::io::{Read, Write};
use std::marker::Model;
use std::mem;
use std::snapshot::Snapshot;
use std::sync::atomic::AtomicBool;
use std::sync::{Mutex, Wait};
use std::time::Clock as SystemClock;
use tt_clock::{MachineClock, reading_of};
use tt_connections::{Client, Post, Sight, Visit};

/// How many bytes one read asks for at most.
pub(crate) const PIECE: usize = 512;

/// How many reads are made at most of what a client sent behind a first line that ends its session.
const LAST_READS: u32 = 16;

/// The release steps of one line: a commit that is pending is answered at once, and its line waits when it comes again.
const WAITS: u32 = 1;

/// The post of a worker.
pub(crate) type MachinePost<'a, R> = Post<'a, R, MachineClock<'a, R>>;

/// What a session is lent the post for.
#[derive(Clone, Copy)]
pub(crate) enum Task {
    /// To wait for its next bytes, which it alone may, and to hear them.
    Alone,
    /// To send replies that its connection has not taken, or else to hear what has come. `closed` if its client sends no more.
    Ready { closed: bool },
    /// To hear the bytes that it holds.
    Held,
}

/// How a session that goes on stands after its task.
#[derive(Clone, Copy)]
pub(crate) enum After {
    /// All is done.
    Done,
    /// More may have come, or may be sent.
    More,
}

/// A session that is open: what is kept of it, its connection, and the bytes and replies on their way. In contracts it is
/// what is kept of it; its bytes that are held, and behind these those that its input still gives; what was written to it;
/// and what these two were when it began.
#[derive(Drop)]
pub(crate) struct Session<'a, I: Read, O: Write> {
    pub(crate) visit: Visit,
    pub(crate) connection: Connection,
    input: I,
    /// Bytes that came and wait, since a pending commit of the session has to wait first.
    held: Vec<u8>,
    writer: ReplyWriter<'a, O>,
    first_input: Snapshot<I>,
    first_output: Snapshot<O>,
}

impl<'a, I: Read, O: Write> Model for Session<'a, I, O> {
    ghost use Rattle.std.specs.Io.KnownBytes.{append_known};
    ghost use Rattle.tt_workers.specs.Worker.{SessionState};

    ghost Value = { SessionState };

    ghost view = { λ s. record {
      visit = s.visit;
      held = s.held.items;
      left = I.remaining s.input;
      written = append_known (O.contents s.writer.device) s.writer.unsent.items;
      first_left = I.remaining s.first_input.value;
      first_written = O.contents s.first_output.value;
    } };
}

/// The client of this connection.
fn client_of<'c, 'a, R: Wait + SystemClock>(
    connection: &'c Connection,
    tools: &'c Tools<'a, R>,
    sight: &'c Mutex<Sight>,
) -> Client<'c, R> {
    Client::new(
        tools.rt,
        &connection.socket,
        &tools.listeners.ended,
        &tools.listeners.broken,
        tools.idle,
        sight,
        tools.counts,
        &connection.attendance,
    )
}

/// Ends the session that this is kept of, whose connection this is.
fn end_visit<'a, R: Wait + SystemClock>(
    visit: Visit,
    connection: &Connection,
    state: &ThreadState<'a, R>,
) {
    visit.finish(&client_of(connection, &state.tools, &state.sight));
}

/// One turn of the session that this is kept of, over these bytes, by this post: see [`Post::turn`]. It is over if its lines
/// can't be counted any more, and then all stays as it was, or if the writer failed.
fn take_turn<'a, R: Wait + SystemClock, O: Write + Drop>(
    visit: &mut Visit,
    connection: &Connection,
    writer: &mut ReplyWriter<'a, O>,
    post: MachinePost<'a, R>,
    state: &mut ThreadState<'a, R>,
    bytes: &[u8],
) -> (MachinePost<'a, R>, Result<(), Over>)
    ensures goes { PostGoesOn post.entry result.0 }
    ensures on { OnOk result.1 (TurnsOn MachineGives clock_failures ClientSays max_waits
        (append_known (O.contents writer.old.device) writer.old.unsent.items) (append_known (O.contents writer.new.device) writer.new.unsent.items)
        tt bytes.now visit.old post.entry visit.new result.0) }
    ensures over { OnErr result.1 ((IsSpent (length bytes.now) visit.old × (visit.new ≡ visit.old) × (writer.new ≡ writer.old) × (result.0 ≡ post.entry))
        ⊎ (HasFailed writer.old.failures writer.new.failures
        × BreaksTurn MachineGives clock_failures ClientSays max_waits (λ w. append_known (O.contents w.device) w.unsent.items) (λ _. true)
        writer.old writer.new tt bytes.now visit.old post.entry visit.new result.0)) }
{
    if !visit.can_hear(bytes.len()) {
        return (post, Err(Over));
    }
    let client = client_of(connection, &state.tools, &state.sight);
    let (post, done) = post.turn(&client, visit, bytes, writer, &mut state.replies, WAITS);
    match done {
        Ok(()) => (post, Ok(())),
        Err(_) => (post, Err(Over)),
    }
}

/// Reads what still comes of this input, so that the last reply is not lost with the connection.
fn read_out<I: Read>(input: &mut I, buffer: &mut [u8]) {
    for _ in 0..LAST_READS {
        match read_from(input, buffer) {
            Ok(count) if count > 0 => {}
            _ => return,
        }
    }
}

impl<'a, I: Read + Drop, O: Write + Drop> Session<'a, I, O> {
    /// A session that begins, of this connection: it hears what this input gives, and its replies are written to this
    /// output. It is over once `ended`.
    pub(crate) fn new(
        alloc: Global,
        connection: Connection,
        input: I,
        output: O,
        ended: &'a AtomicBool,
    ) -> Self
        ensures is_new { IsNew result }
    {
        let first_input = Snapshot::of(&input);
        let first_output = Snapshot::of(&output);
        Session {
            visit: Visit::new(alloc),
            connection,
            input,
            held: Vec::new(alloc),
            writer: ReplyWriter::new(alloc, output, ended),
            first_input,
            first_output,
        }
    }

    /// Whether bytes are held.
    pub(crate) fn holds(&self) -> bool
        ensures value { IsFalse result → self.now.held ≡ [] }
    {
        !self.held.is_empty()
    }

    /// Whether the connection has not taken all replies.
    pub(crate) fn has_unsent(&self) -> bool {
        self.writer.has_unsent()
    }

    /// Which of these bytes are heard by the next turn.
    fn part_of(&self, bytes: &[u8]) -> Part
        ensures within { result.count ≤ length bytes.now }
        ensures some { 0 < length bytes.now → 0 < result.count }
    {
        self.connection.part_of(bytes)
    }

    /// Has its reads and writes wait from now on, or not: see [`Connection::set_waits`].
    fn set_waits(&mut self, waits: bool)
        ensures same { self.new ≡ self.old }
    {
        self.connection.set_waits(waits);
    }

    /// How many of these bytes end the first line with that of an HTTP request: see [`Connection::request_in`].
    fn request_in(&mut self, bytes: &[u8]) -> Option<usize>
        ensures same { self.new ≡ self.old }
    {
        self.connection.request_in(bytes)
    }

    /// Begins the time of a line anew, if one ended in these bytes: see [`Connection::note_line`].
    fn note_line(&mut self, bytes: &[u8], now: u64)
        ensures same { self.new ≡ self.old }
    {
        self.connection.note_line(bytes, now);
    }

    /// Reads what has come, and answers how many bytes: see [`read_from`].
    fn read(&mut self, buffer: &mut [u8; PIECE]) -> Result<usize, Over>
        ensures count { IfOk result (λ n. n ≤ length buffer.new) }
        ensures same { self.new ≡ record self.old { left = self.new.left } }
        ensures gave { IfOk result (λ n. Consumes self.old.left self.new.left (take n buffer.new)) }
    {
        read_from(&mut self.input, buffer)
    }

    /// Says that nothing more is sent, and reads what has come.
    fn shut(&mut self, buffer: &mut [u8; PIECE])
        ensures same { self.new ≡ record self.old { left = self.new.left } }
    {
        if self.connection.shut() {
            read_out(&mut self.input, buffer);
        }
    }

    /// Has the connection take more of the replies that it has not taken: see [`ReplyWriter::send`].
    fn send(&mut self, alloc: Global) -> bool
        ensures same { self.new ≡ record self.old { written = self.new.written } }
        ensures kept { Keeps self.old.written self.new.written }
    {
        self.writer.send(alloc)
    }

    /// The clock reading until which a line of the pending commit has to wait. None if a turn may hear it.
    fn due<R: Wait + SystemClock>(&self, state: &ThreadState<'a, R>) -> Option<u64> {
        let now = reading_of(state.tools.rt)?;
        let left = self.visit.left(Some(now))?;
        if left > SOON {
            Some(now.saturating_add(left))
        } else {
            None
        }
    }

    /// Holds these bytes, behind those that are held, until the clock shows `due`. It is over if there is no memory.
    fn hold<R>(
        &mut self,
        bytes: &[u8],
        due: u64,
        state: &mut ThreadState<'a, R>,
    ) -> Result<(), Over>
        ensures same { self.new ≡ record self.old { held = self.new.held } }
        ensures held { OnOk result (self.new.held ≡ self.old.held ++ bytes.now) }
    {
        self.connection.due = due;
        if self.held.extend_from_slice(bytes).is_err() {
            return Err(Over);
        }
        state.held = state.held.saturating_add(1);
        Ok(())
    }

    /// Takes the bytes that are held.
    fn take_held(&mut self, alloc: Global) -> Vec<u8>
        ensures value { result.items ≡ self.old.held }
        ensures same { self.new ≡ record self.old { held = [] } }
    {
        mem::replace(&mut self.held, Vec::new(alloc))
    }

    /// One turn over these bytes.
    fn hear<R: Wait + SystemClock>(
        &mut self,
        post: MachinePost<'a, R>,
        state: &mut ThreadState<'a, R>,
        bytes: &[u8],
    ) -> (MachinePost<'a, R>, Result<(), Over>)
        ensures held { self.new.held ≡ self.old.held }
        ensures on { OnOk result.1 (Hears bytes.now [] self.old post.entry self.new result.0) }
        ensures over { OnErr result.1 (HearsLast bytes.now self.old post.entry self.new result.0) }
    {
        let (post, heard) = take_turn(
            &mut self.visit,
            &self.connection,
            &mut self.writer,
            post,
            state,
            bytes,
        );
        let served = self.visit.served();
        self.connection
            .count(bytes, served.lines, served.refused, &mut state.untold);
        (post, heard)
    }

    /// Hears these bytes by turns. Where a line may be one of a commit that has to wait for longer than a turn may, it is held,
    /// with all behind it. Requires: nothing is held.
    fn feed<R: Wait + SystemClock>(
        &mut self,
        post: MachinePost<'a, R>,
        state: &mut ThreadState<'a, R>,
        bytes: &[u8],
    ) -> (MachinePost<'a, R>, Result<(), Over>)
        requires none { self.old.held ≡ [] }
        ensures on { OnOk result.1 (Hears bytes.now self.new.held self.old post.entry self.new result.0) }
        ensures over { OnErr result.1 (HearsLast bytes.now self.old post.entry self.new result.0) }
    {
        let mut lent = post;
        let mut rest = bytes;
        while !rest.is_empty() {
            let part = self.part_of(rest);
            if part.may_commit {
                if let Some(due) = self.due(state) {
                    let held = self.hold(rest, due, state);
                    return (lent, held);
                }
            }
            let (front, behind) = rest.split_at(part.count);
            let (next, heard) = self.hear(lent, state, front);
            lent = next;
            match heard {
                Ok(()) => rest = behind,
                Err(over) => return (lent, Err(over)),
            }
        }
        (lent, Ok(()))
    }

    /// Hears the first of these bytes, so many, and is over. Requires: nothing is held.
    fn feed_front<R: Wait + SystemClock>(
        &mut self,
        post: MachinePost<'a, R>,
        state: &mut ThreadState<'a, R>,
        bytes: &[u8],
        count: usize,
    ) -> MachinePost<'a, R>
        requires none { self.old.held ≡ [] }
        requires within { count ≤ length bytes.now }
        ensures over { HearsLast bytes.now self.old post.entry self.new result }
    {
        let (front, _) = bytes.split_at(count);
        let (post, _) = self.feed(post, state, front);
        post
    }

    /// How it stands after its task, for which as much had come as one read asks for if `is_full`.
    fn after(&self, task: Task, is_full: bool) -> After {
        let has_more = match task {
            Task::Held => !self.holds(),
            Task::Ready { closed } => closed || is_full || self.has_unsent(),
            Task::Alone => self.has_unsent(),
        };
        if has_more { After::More } else { After::Done }
    }

    /// Reads what has come, and hears it. Requires: nothing is held.
    fn serve<R: Wait + SystemClock>(
        &mut self,
        task: Task,
        post: MachinePost<'a, R>,
        state: &mut ThreadState<'a, R>,
        buffer: &mut [u8; PIECE],
    ) -> (MachinePost<'a, R>, Result<After, Over>)
        requires none { self.old.held ≡ [] }
        ensures on { OnOk result.1 (Serves self.old post.entry self.new result.0) }
        ensures over { OnErr result.1 (ServesLast self.old post.entry self.new result.0) }
    {
        let came = self.read(buffer);
        state.read_clock();
        let Ok(count) = came else {
            return (post, Err(Over));
        };
        if count == 0 {
            return (post, Ok(self.after(task, false)));
        }
        let (bytes, _) = buffer.split_at(count);
        if let Some(end) = self.request_in(bytes) {
            let post = self.feed_front(post, state, bytes, end.min(count));
            self.shut(buffer);
            return (post, Err(Over));
        }
        let (post, heard) = self.feed(post, state, bytes);
        self.note_line(bytes, state.clock);
        match heard {
            Ok(()) => (post, Ok(self.after(task, count == PIECE))),
            Err(over) => (post, Err(over)),
        }
    }

    /// Hears the bytes that are held.
    fn serve_held<R: Wait + SystemClock>(
        &mut self,
        post: MachinePost<'a, R>,
        state: &mut ThreadState<'a, R>,
    ) -> (MachinePost<'a, R>, Result<After, Over>)
        ensures on { OnOk result.1 (Serves self.old post.entry self.new result.0) }
        ensures over { OnErr result.1 (ServesLast self.old post.entry self.new result.0) }
    {
        let bytes = self.take_held(state.tools.alloc);
        state.held = state.held.saturating_sub(1);
        let (post, heard) = self.feed(post, state, bytes.as_slice());
        match heard {
            Ok(()) => (post, Ok(self.after(Task::Held, false))),
            Err(over) => (post, Err(over)),
        }
    }

    /// Does its task by this post, and answers the post: what it hears is what its connection gave, in order and once, and
    /// its replies are written to its connection, in order and once.
    pub(crate) fn perform<R: Wait + SystemClock>(
        &mut self,
        task: Task,
        post: MachinePost<'a, R>,
        state: &mut ThreadState<'a, R>,
        buffer: &mut [u8; PIECE],
    ) -> (MachinePost<'a, R>, Result<After, Over>)
        ensures on { OnOk result.1 (Serves self.old post.entry self.new result.0) }
        ensures over { OnErr result.1 (ServesLast self.old post.entry self.new result.0) }
    {
        self.set_waits(matches!(task, Task::Alone));
        match task {
            Task::Held => self.serve_held(post, state),
            Task::Ready { .. } if self.has_unsent() => {
                if self.send(state.tools.alloc) {
                    (post, Ok(After::More))
                } else {
                    (post, Err(Over))
                }
            }
            _ if self.holds() => (post, Ok(After::Done)),
            _ => self.serve(task, post, state, buffer),
        }
    }

    /// What is kept of it, and its connection.
    fn into_kept(self) -> (Visit, Connection) {
        (self.visit, self.connection)
    }

    /// Ends the session: its commit waits no more, and it is counted.
    pub(crate) fn finish<R: Wait + SystemClock>(self, state: &mut ThreadState<'a, R>) {
        state.tell();
        if self.holds() {
            state.held = state.held.saturating_sub(1);
        }
        let (visit, connection) = self.into_kept();
        end_visit(visit, &connection, state);
        state.leave();
    }
}
