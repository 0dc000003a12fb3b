//! What the threads of a machine share.

ghost use Rattle.std.specs.Prelude.{◌≡◌};
ghost use Rattle.tt_server.specs.Thread.{terms_in, widest_in};

use mio::Waker;
use std::alloc::Global;
use std::sync::atomic::{AtomicBool, Ordering};
use std::sync::{Arc, Wait};
use std::thread::Parker;
use std::time::{Clock as SystemClock, Duration};
use tt_connections::{Counts, Listeners, Terms, WAIT_BOUNDS};
use tt_daemon::Config;
use tt_health::BreakRecord;
use tt_host::HostClock;
use tt_report::Reporter;
use tt_settings::{OnBreak, Pauses, Settings};
use tt_span::Span;
use tt_status::{Histogram, LogEvent};
use tt_telemetry::Work;

/// The number, the epoch and the settings of the machine in this life.
#[derive(Clone, Copy)]
pub(crate) struct Life {
    pub(crate) machine: u8,
    pub(crate) epoch: u64,
    pub(crate) config: Config,
    pub(crate) pauses: Pauses,
    pub(crate) lease: Span,
    /// The interval of the stampers, in which the sessions of the machine do not stamp, if there is one.
    pub(crate) stampers: Option<Span>,
    /// What follows a sign that an assumption is broken.
    pub(crate) on_break: OnBreak,
    /// The widest reading that is given, in nanoseconds; 2^64 - 1 if there is no limit.
    pub(crate) max_width: u64,
    /// The clock by which the machine measures.
    pub(crate) clock: HostClock,
    /// How much faster or slower `CLOCK_MONOTONIC` may go than that one, in parts per million, for readers that read it.
    pub(crate) slew: u32,
}

/// The widest reading that is given where the settings have this limit, or none.
fn widest_in(limit: Option<u64>) -> u64
    ensures { result ≡ widest_in limit }
{
    match limit {
        Some(width) => width,
        None => u64::MAX,
    }
}

impl Life {
    /// The life of this epoch, with these settings.
    pub(crate) fn of(settings: &Settings, epoch: u64) -> Life
        ensures value { result ≡ record { machine = settings.now.machine; epoch = epoch; config = settings.now.config; pauses = settings.now.pauses; lease = settings.now.lease; stampers = settings.now.stampers; on_break = settings.now.on_break; max_width = widest_in settings.now.max_width; clock = settings.now.clock; slew = settings.now.slew } }
    {
        Life {
            machine: settings.machine(),
            epoch,
            config: settings.config(),
            pauses: settings.pauses(),
            lease: settings.lease(),
            stampers: settings.stampers(),
            on_break: settings.on_break(),
            max_width: widest_in(settings.max_width()),
            clock: settings.clock(),
            slew: settings.slew(),
        }
    }

    /// The terms of the machine's stamps.
    pub(crate) fn terms(&self) -> Terms
        ensures value { result ≡ terms_in self.now }
    {
        Terms {
            lease: self.lease,
            stampers: self.stampers,
            ahead: self.pauses.floor_ahead,
            max_width: self.max_width,
        }
    }
}

/// How long commits have waited so far, by these counts.
fn waits_in(told: &Counts) -> Histogram {
    let mut counts = [0; 13];
    for place in 0..13 {
        counts[place] = told.waits[place].load(Ordering::SeqCst);
    }
    Histogram {
        bounds: WAIT_BOUNDS,
        counts,
        sum: told.waited.load(Ordering::SeqCst),
    }
}

/// What the threads of a machine share, besides the runtime handle.
#[derive(Drop)]
pub(crate) struct ServerState<'a> {
    pub(crate) life: Life,
    pub(crate) listeners: &'a Listeners,
    pub(crate) counts: Counts,
    /// Writes the log, the status and the evidence, in threads of its own.
    pub(crate) reporter: Reporter,
    /// Whether the settings name a file or pages for the evidence.
    pub(crate) has_evidence: bool,
    /// What was recorded of the last break, at the start.
    pub(crate) last_break: Option<BreakRecord>,
    /// Makes the pauses of the daemon, and ends them at the end of the machine.
    pub(crate) ending: Arc<Ending, Global>,
}

/// What the end of a machine is asked by: a thread that waits for the end of standard input holds it too, and is never
/// joined, since nothing ends that wait.
#[derive(Drop)]
pub(crate) struct Ending {
    asked: AtomicBool,
    /// Makes the pauses of the daemon.
    pause: Parker,
    /// Ends the wait of the daemon's link.
    link: Waker,
}

impl Ending {
    /// Nothing has asked for the end. `link` ends the waits of the daemon's link. None if it is out of memory.
    pub(crate) fn shared(alloc: Global, link: Waker) -> Option<Arc<Ending, Global>> {
        let ending = Ending {
            asked: AtomicBool::new(false),
            pause: Parker::new(),
            link,
        };
        Arc::new(alloc, ending).ok()
    }

    /// Asks for the end, and ends the daemon's waits.
    pub(crate) fn ask(&self) {
        self.asked.store(true, Ordering::SeqCst);
        let _ = self.link.wake();
        self.pause.unpark();
    }
}

impl<'a> ServerState<'a> {
    /// The state of the server of a machine whose clients connect at these listeners.
    pub(crate) fn new(
        life: Life,
        listeners: &'a Listeners,
        reporter: Reporter,
        has_evidence: bool,
        last_break: Option<BreakRecord>,
        ending: Arc<Ending, Global>,
    ) -> ServerState<'a>
        ensures life { result.life ≡ life }
        ensures last_break { result.last_break ≡ last_break }
    {
        ServerState {
            life,
            listeners,
            counts: Counts::new(),
            reporter,
            has_evidence,
            last_break,
            ending,
        }
    }

    /// Whether the machine has to end.
    pub(crate) fn has_ended(&self) -> bool {
        self.listeners.ended.load(Ordering::SeqCst) || self.ending.asked.load(Ordering::SeqCst)
    }

    /// Ends the machine: wakes the acceptor, the workers that wait for a client, and the daemon, also within a round.
    pub(crate) fn end(&self) {
        self.listeners.end();
        self.ending.ask();
    }

    /// A pause of the daemon, of `pause` nanoseconds. The end of the machine ends it.
    pub(crate) fn rest<R: Wait + SystemClock>(&self, rt: &R, pause: u64) {
        self.ending
            .pause
            .park_timeout(rt, Duration::from_nanos(pause));
    }

    /// What the sessions have done so far, what waits, and what was left out.
    pub(crate) fn work(&self) -> Work {
        Work {
            sessions: self.counts.sessions.load(Ordering::SeqCst),
            lines: self.counts.lines.load(Ordering::SeqCst),
            refused_lines: self.counts.refused.load(Ordering::SeqCst),
            waiting: self.listeners.waiting(),
            unserved: self.listeners.unserved(),
            busy: self.counts.busy.load(Ordering::SeqCst),
            open_sessions: self.counts.open.load(Ordering::SeqCst),
            commits_waiting: self.counts.commits_waiting.load(Ordering::SeqCst),
            commit_waits: waits_in(&self.counts),
            left_out: self.reporter.left_out(),
        }
    }
}

/// What each thread borrows.
pub(crate) struct ThreadContext<'a, R> {
    pub(crate) rt: &'a R,
    pub(crate) alloc: Global,
    pub(crate) server: &'a ServerState<'a>,
}

impl<'a, R> Clone for ThreadContext<'a, R> {
    fn clone(&self) -> Result<Self, std::alloc::AllocError> {
        Ok(ThreadContext {
            rt: self.rt,
            alloc: self.alloc,
            server: self.server,
        })
    }
}

impl<'a, R> Copy for ThreadContext<'a, R> {}

/// Hands an event to the reporter, which logs it. It does not wait.
pub(crate) fn say<R: Wait + SystemClock>(context: ThreadContext<'_, R>, event: LogEvent) {
    context.server.reporter.log(context.rt, event);
}

/// Logs an event, if there is one.
pub(crate) fn say_some<R: Wait + SystemClock>(
    context: ThreadContext<'_, R>,
    event: Option<LogEvent>,
) {
    if let Some(event) = event {
        say(context, event);
    }
}
