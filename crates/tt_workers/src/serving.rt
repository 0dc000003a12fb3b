//! The thread of a worker: it waits for its connections, and serves their sessions by turns.

ghost use Rattle.std.specs.Prelude.{◌≡◌, IfSome};
ghost use Rattle.tt_workers.specs.Worker.{IsNew};

use crate::connections::{Connection, SharedStream};
use crate::sessions::{After, PIECE, Session, Task};
use crate::states::{ThreadState, Tools};
use crate::workers::Worker;
use std::net::TcpStream;
use std::sync::Wait;
use std::sync::atomic::Ordering;
use std::thread;
use std::time::{Clock as SystemClock, Duration};
use tt_clock::reading_of;
use tt_connections::{MAX_EVENTS, MAX_WAITING, SLICE, Sight, Watcher};

/// A millisecond, in nanoseconds.
const MILLISECOND: u64 = 1_000_000;

/// How often the worker looks for clients that have had their time, in nanoseconds: every second.
const LOOK: u64 = 1_000_000_000;

/// How often a busy worker adds the lines that it answered to the counts that all workers share, in nanoseconds: every
/// millisecond. Each addition takes the counts away from the other processors.
const TELL: u64 = MILLISECOND;

/// A session of a client that has connected.
type ClientSession<'a> = Session<'a, SharedStream, SharedStream>;

/// A worker that serves clients that have connected.
pub type ClientWorker<'a, R> = Worker<'a, R, SharedStream, SharedStream>;

/// The place of the only session, if there is one alone, no other has to share this worker, and nothing of it is held or
/// unsent. Its worker may wait for its next bytes.
fn only<'a, R: Wait + SystemClock>(
    worker: &ClientWorker<'a, R>,
    state: &ThreadState<'a, R>,
) -> Option<usize> {
    let tools = &state.tools;
    if state.open != 1 || tools.inbox.waiting() > 0 || tools.backlog.is_crowded() {
        return None;
    }
    for place in 0..worker.places() {
        if let Some(session) = worker.session(place) {
            return if session.holds() || session.has_unsent() {
                None
            } else {
                Some(place)
            };
        }
    }
    None
}

/// The place of the client that has been silent for longest, of those that have no reply to take and no commit pending.
fn most_silent<'a, R: Wait + SystemClock>(worker: &ClientWorker<'a, R>) -> Option<usize> {
    let mut found: Option<(usize, u64)> = None;
    for place in 0..worker.places() {
        if let Some(session) = worker.session(place) {
            let since = session.connection.since;
            let is_first = match found {
                Some((_, earlier)) => since < earlier,
                None => true,
            };
            if is_first && !session.has_unsent() && !session.visit.is_pending() {
                found = Some((place, since));
            }
        }
    }
    match found {
        Some((place, _)) => Some(place),
        None => None,
    }
}

/// How long the next wait is at most, in milliseconds: until held bytes are due, and a second if there are sessions. None
/// if it ends only when something comes.
fn longest_wait<'a, R: Wait + SystemClock>(
    worker: &ClientWorker<'a, R>,
    state: &mut ThreadState<'a, R>,
) -> Option<u64> {
    if state.open == 0 {
        return None;
    }
    let mut most = LOOK;
    if state.held > 0 {
        state.read_clock();
        for place in 0..worker.places() {
            if let Some(session) = worker.session(place) {
                if session.holds() {
                    most = most.min(session.connection.due.saturating_sub(state.clock));
                }
            }
        }
    }
    Some(most / MILLISECOND)
}

/// Has the watcher report again what is ready of the session at this place.
fn watch_again<'a, R: Wait + SystemClock>(
    worker: &ClientWorker<'a, R>,
    state: &ThreadState<'a, R>,
    place: usize,
) {
    if let Some(session) = worker.session(place) {
        let takes = session.has_unsent();
        let _ = state
            .watcher
            .watch_again(&session.connection.socket, place, takes);
    }
}

/// Ends the session at this place, and closes its connection.
fn close<'a, R: Wait + SystemClock>(
    worker: &mut ClientWorker<'a, R>,
    state: &mut ThreadState<'a, R>,
    place: usize,
)
    ensures first { worker.new.first ≡ worker.old.first }
{
    if let Some(session) = worker.end(place) {
        session.finish(state);
    }
}

/// The session of a client that has connected. None if there is no memory for it, or if the clock can't be read.
fn session_of<'a, R: Wait + SystemClock>(
    tools: &Tools<'a, R>,
    stream: TcpStream,
) -> Option<ClientSession<'a>>
    ensures is_new { IfSome result (λ session. IsNew session) }
{
    let now = reading_of(tools.rt)?;
    let input = SharedStream::new(tools.alloc, stream)?;
    let output = input.share()?;
    let third = input.share()?;
    let connection = Connection::new(third.socket, now);
    let ended = &tools.listeners.ended;
    Some(Session::new(tools.alloc, connection, input, output, ended))
}

/// Opens the session of a client that has connected, and waits for its bytes. Answers whether that was done.
fn open<'a, R: Wait + SystemClock>(
    worker: &mut ClientWorker<'a, R>,
    state: &ThreadState<'a, R>,
    stream: TcpStream,
) -> bool
    ensures first { worker.new.first ≡ worker.old.first }
{
    let Some(session) = session_of(&state.tools, stream) else {
        return false;
    };
    let Some(place) = worker.begin(session) else {
        return false;
    };
    let is_watched = match worker.session(place) {
        Some(session) => state
            .watcher
            .watch(&session.connection.socket, place, false)
            .is_ok(),
        None => false,
    };
    if !is_watched {
        drop(worker.end(place));
    }
    is_watched
}

/// Begins the session of this connection. Where the worker has as many as it may, the one that has been silent for longest
/// ends. The connection is closed, and counted, if none can end, if the clock can't be read, or if there is no memory for it.
fn begin<'a, R: Wait + SystemClock>(
    worker: &mut ClientWorker<'a, R>,
    state: &mut ThreadState<'a, R>,
    stream: TcpStream,
)
    ensures first { worker.new.first ≡ worker.old.first }
{
    if worker.open_sessions() >= state.tools.inbox.most_sessions() {
        let Some(place) = most_silent(worker) else {
            state.tools.backlog.turn_away(state.tools.inbox);
            return;
        };
        close(worker, state, place);
    }
    if open(worker, state, stream) {
        state.enter();
    } else {
        state.tools.backlog.turn_away(state.tools.inbox);
    }
}

/// Begins the sessions of the connections that wait for this worker.
fn begin_all<'a, R: Wait + SystemClock>(
    worker: &mut ClientWorker<'a, R>,
    state: &mut ThreadState<'a, R>,
)
    ensures first { worker.new.first ≡ worker.old.first }
{
    for _ in 0..MAX_WAITING {
        let Some(stream) = state
            .tools
            .listeners
            .next(state.tools.rt, state.tools.inbox)
        else {
            return;
        };
        begin(worker, state, stream);
    }
}

/// Serves the session at this place, and closes its connection once it is over.
fn serve<'a, R: Wait + SystemClock>(
    worker: &mut ClientWorker<'a, R>,
    state: &mut ThreadState<'a, R>,
    place: usize,
    task: Task,
    buffer: &mut [u8; PIECE],
)
    ensures first { worker.new.first ≡ worker.old.first }
{
    match worker.lend(place, task, state, buffer) {
        Ok(After::Done) => {}
        Ok(After::More) => watch_again(worker, state, place),
        Err(Some(session)) => session.finish(state),
        Err(None) => {}
    }
}

/// Waits until something is ready, and serves it.
fn serve_all<'a, R: Wait + SystemClock>(
    worker: &mut ClientWorker<'a, R>,
    state: &mut ThreadState<'a, R>,
    buffer: &mut [u8; PIECE],
)
    ensures first { worker.new.first ≡ worker.old.first }
{
    let most = longest_wait(worker, state);
    state.tell();
    if !state.watcher.wait(most) {
        thread::sleep(state.tools.rt, Duration::from_nanos(SLICE));
    }
    state.read_clock();
    let count = state.watcher.count().min(MAX_EVENTS);
    for number in 0..count {
        if let Some(ready) = state.watcher.ready(number) {
            let task = Task::Ready {
                closed: ready.closed,
            };
            serve(worker, state, ready.place, task, buffer);
        }
    }
}

/// Whether bytes of the session at this place are held, and a turn may hear them when the clock shows `now`, or can't be read.
fn is_due<'a, R: Wait + SystemClock>(
    worker: &ClientWorker<'a, R>,
    place: usize,
    now: Option<u64>,
) -> bool {
    match worker.session(place) {
        Some(session) => session.holds() && session.connection.has_waited(now),
        None => false,
    }
}

/// Hears the bytes that are held and due. If the clock can't be read, it hears all that are held: their sessions are told so.
fn serve_held<'a, R: Wait + SystemClock>(
    worker: &mut ClientWorker<'a, R>,
    state: &mut ThreadState<'a, R>,
    buffer: &mut [u8; PIECE],
)
    ensures first { worker.new.first ≡ worker.old.first }
{
    let now = state.read_clock();
    for place in 0..worker.places() {
        if is_due(worker, place, now) {
            serve(worker, state, place, Task::Held, buffer);
        }
    }
}

/// Ends the sessions whose clients have had their time at the last clock reading.
fn end_late<'a, R: Wait + SystemClock>(
    worker: &mut ClientWorker<'a, R>,
    state: &mut ThreadState<'a, R>,
)
    ensures first { worker.new.first ≡ worker.old.first }
{
    state.looked = state.clock;
    for place in 0..worker.places() {
        let is_late = match worker.session(place) {
            Some(session) => session.connection.is_late(state.tools.idle, state.clock),
            None => false,
        };
        if is_late {
            close(worker, state, place);
        }
    }
}

/// Answers a worker that began with the same post. It does so once the machine ends, and until then it serves its
/// sessions by turns. A worker whose only session need not share it waits for the next bytes of that session alone; else
/// it waits for all at once.
pub fn work<'a, R: Wait + SystemClock>(
    tools: Tools<'a, R>,
    watcher: Watcher,
    sight: Sight,
    worker: ClientWorker<'a, R>,
) -> ClientWorker<'a, R>
    ensures first { result.first ≡ worker.entry.first }
{
    let (rt, listeners) = (tools.rt, tools.listeners);
    let mut worker = worker;
    let mut state = ThreadState::new(tools, watcher, sight);
    let mut buffer = [0; PIECE];
    for _ in rt.forever() {
        if listeners.ended.load(Ordering::SeqCst) {
            state.tell();
            return worker;
        }
        begin_all(&mut worker, &mut state);
        match only(&worker, &state) {
            Some(place) => serve(&mut worker, &mut state, place, Task::Alone, &mut buffer),
            None => serve_all(&mut worker, &mut state, &mut buffer),
        }
        if state.held > 0 {
            serve_held(&mut worker, &mut state, &mut buffer);
        }
        if state.clock.saturating_sub(state.told) >= TELL {
            state.tell();
        }
        if state.clock.saturating_sub(state.looked) >= LOOK {
            end_late(&mut worker, &mut state);
        }
    }
    unreachable!()
}
