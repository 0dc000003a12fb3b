//! The threads of the workers: each serves its sessions by turns.

ghost use Rattle.std.specs.Prelude.{◌≡◌, IfSome};
ghost use Rattle.tt_server.specs.Life.{HandsBack};
ghost use Rattle.tt_server.specs.Thread.{IsServing, terms_in};

use crate::lives::WorkerEnd;
use crate::states::ThreadContext;
use std::alloc::Global;
use std::snapshot::Snapshot;
use std::sync::Wait;
use std::thread::{Promise, PromisedHandle, Scope};
use std::time::Clock as SystemClock;
use tt_clock::MachineClock;
use tt_connections::{Backlog, Inbox, Post, Sight, Terms, Watcher};
use tt_publish::Watch;
use tt_stamp::{Seat, Sequencer};
use tt_workers::{Tools, Worker, work};

/// A seat, and the sequencer that it belongs to.
#[derive(Drop)]
pub(crate) struct WorkerSeat<'a> {
    seat: Seat,
    sequencer: &'a Sequencer,
    ghost of_it: { seat.table ≡ sequencer.now },
}

/// What the thread of a worker does: it serves sessions by turns, with this watch, these terms and this seat. It hands the seat
/// back.
#[derive(Drop)]
pub(crate) struct ServesClients {
    watch: Snapshot<Watch>,
    terms: Terms,
    seat: Snapshot<Seat>,
}

impl Promise<(WorkerEnd, Seat)> for ServesClients {
    ghost use Rattle.tt_server.specs.Life.{HandsBack};

    ghost kept_by = { λ p result. HandsBack p.watch.value p.terms p.seat.value result.0 result.1 };
}

/// The thread of a worker.
pub(crate) type WorkerHandle = PromisedHandle<(WorkerEnd, Seat), ServesClients>;

/// A seat with its sequencer.
pub(crate) fn worker_seat_of<'a>(seat: Seat, sequencer: &'a Sequencer) -> WorkerSeat<'a>
    requires { seat.table ≡ sequencer.now }
    ensures { result.seat ≡ seat }
{
    WorkerSeat { seat, sequencer }
}

/// Serves sessions by turns, until the machine ends. Then it hands back what the watch has seen, and the seat.
fn serve<'a, R: Wait + SystemClock>(
    tools: Tools<'a, R>,
    worker_seat: WorkerSeat<'a>,
    watch: Watch,
    sight: Sight,
    watcher: Watcher,
    terms: Terms,
) -> (WorkerEnd, Seat)
    ensures { HandsBack watch terms worker_seat.entry.seat result.0 result.1 }
{
    let WorkerSeat { seat, sequencer } = worker_seat;
    let (rt, alloc) = (tools.rt, tools.alloc);
    let clock = MachineClock::new(rt);
    let post = Post::new(rt, alloc, watch, clock, seat, sequencer, terms);
    let begun = Worker::new(alloc, post);
    let worker = work(tools, watcher, sight, begun);
    let (watch, seat) = worker.into_parts();
    (WorkerEnd { seen: watch.seen() }, seat)
}

/// Starts the thread of a worker. None if the thread can't be started.
pub(crate) fn start_worker<'s, E, R: Wait + SystemClock + Sync>(
    scope: &Scope<'s, E>,
    context: ThreadContext<'s, R>,
    backlog: &'s Backlog,
    inbox: &'s Inbox,
    worker_seat: WorkerSeat<'s>,
    watch: Watch,
    sight: Sight,
) -> Option<WorkerHandle>
    ensures promise { IfSome result (λ handle. IsServing watch (terms_in context.entry.server.now.life) worker_seat.entry.seat handle.promise) }
{
    let (rt, alloc, server) = (context.rt, context.alloc, context.server);
    let WorkerSeat { seat, sequencer } = worker_seat;
    let promise = ServesClients {
        watch: Snapshot::of(&watch),
        terms: server.life.terms(),
        seat: Snapshot::of(&seat),
    };
    let terms = server.life.terms();
    let (listeners, counts, idle) = (server.listeners, &server.counts, server.life.pauses.idle);
    let watcher = inbox.take_watcher(rt)?;
    scope
        .spawn_with(
            promise,
            move || -> (WorkerEnd, Seat)
                requires { seat.table ≡ sequencer.now }
                ensures { HandsBack watch terms seat result.0 result.1 }
            {
                let tools = Tools {
                    rt,
                    alloc,
                    listeners,
                    backlog,
                    inbox,
                    counts,
                    idle,
                };
                serve(
                    tools,
                    WorkerSeat { seat, sequencer },
                    watch,
                    sight,
                    watcher,
                    terms,
                )
            },
        )
        .ok()
}
