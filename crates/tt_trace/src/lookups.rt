//! What is looked up in the events before an event.

ghost use Rattle.std.specs.Prelude.{◌≡◌};
ghost use Rattle.std.specs.List.{zip};
ghost use Rattle.tt_trace.specs.Lookups.{errand_of, errand_by, holder_of, holder_by, task_of, task_by, queued_by, times_of};

use tt_stamp::{Id, Receipt};
use tt_world::{Action, Event, Reply};

/// The machine of a packet, which sent it or gets it, and whether its bytes were made up.
#[derive(Clone, Copy, Debug, PartialEq, Eq)]
pub struct Errand {
    pub machine: u8,
    pub is_forged: bool,
}

/// The true times, in nanoseconds, at which a commit arrived and was queued.
#[derive(Clone, Copy, Debug, PartialEq, Eq)]
pub struct Times {
    pub arrived: u64,
    pub queued: u64,
}

/// What is known of a commit of a worker: when the worker was asked for it, if for nothing since and it did not queue
/// it, and the times of the last one that it queued.
#[derive(Clone, Copy, Debug, PartialEq, Eq)]
struct Task {
    asked: Option<u64>,
    times: Option<Times>,
}

/// What is known of a packet after an event and its reply, if it is a request or made up.
fn errand_next(packet: u64, found: Option<Errand>, action: &Action, reply: &Reply) -> Option<Errand>
    ensures { result ≡ errand_by packet found action.now reply.now }
{
    match (action, reply) {
        (Action::Send { machine, .. }, Reply::Sent(number)) => {
            if *number == packet {
                Some(Errand {
                    machine: *machine,
                    is_forged: false,
                })
            } else {
                found
            }
        }
        (Action::Forge { machine, .. }, Reply::Put(number)) => {
            if *number == packet {
                Some(Errand {
                    machine: *machine,
                    is_forged: true,
                })
            } else {
                found
            }
        }
        _ => found,
    }
}

/// What is known of a packet after these events, if it is a request or made up.
pub fn find_errand(packet: u64, events: &[Event], replies: &[Reply]) -> Option<Errand>
    ensures { result ≡ errand_of packet (zip events.now replies.now) }
{
    let mut found = None;
    for (event, reply) in events.iter().zip(replies) {
        found = errand_next(packet, found, &event.action, reply);
    }
    found
}

/// The worker to which this machine gave this stamp, if it did, after an event and its reply.
fn holder_next(
    machine: u8,
    stamp: u64,
    found: Option<u8>,
    action: &Action,
    reply: &Reply,
) -> Option<u8>
    ensures { result ≡ holder_by machine stamp found action.now reply.now }
{
    match (action, reply) {
        (
            Action::Stamp {
                machine: asked,
                worker,
            },
            Reply::Stamped(given),
        ) => {
            if *asked == machine && *given == stamp {
                Some(*worker)
            } else {
                found
            }
        }
        _ => found,
    }
}

/// The worker to which this machine last gave this stamp in these events, if it did.
fn find_holder(machine: u8, stamp: u64, events: &[Event], replies: &[Reply]) -> Option<u8>
    ensures { result ≡ holder_of machine stamp (zip events.now replies.now) }
{
    let mut found = None;
    for (event, reply) in events.iter().zip(replies) {
        found = holder_next(machine, stamp, found, &event.action, reply);
    }
    found
}

impl Task {
    /// The task once its worker has queued what it was last asked for, at this true time.
    fn queued(self, at: u64) -> Task
        ensures { result ≡ queued_by self.asked self at }
    {
        match self.asked {
            Some(arrived) => Task {
                asked: None,
                times: Some(Times {
                    arrived,
                    queued: at,
                }),
            },
            None => self,
        }
    }
}

/// What is known of a commit of this worker after an event at this true time and its reply.
fn task_next(
    machine: u8,
    worker: u8,
    id: Id,
    task: Task,
    at: u64,
    action: &Action,
    reply: &Reply,
) -> Task
    ensures { result ≡ task_by machine worker id task at action.now reply.now }
{
    match (action, reply) {
        (
            Action::Arrive {
                machine: asked,
                worker: other,
                id: number,
                ..
            },
            Reply::Arrived,
        ) => {
            if *asked == machine && *other == worker {
                Task {
                    asked: if *number == id { Some(at) } else { None },
                    ..task
                }
            } else {
                task
            }
        }
        (
            Action::Queue {
                machine: asked,
                worker: other,
            },
            Reply::Queued,
        ) => {
            if *asked == machine && *other == worker {
                task.queued(at)
            } else {
                task
            }
        }
        _ => task,
    }
}

/// What is known of a commit of this worker after these events.
fn find_task(machine: u8, worker: u8, id: Id, events: &[Event], replies: &[Reply]) -> Task
    ensures { result ≡ task_of machine worker id (zip events.now replies.now) }
{
    let mut task = Task {
        asked: None,
        times: None,
    };
    for (event, reply) in events.iter().zip(replies) {
        task = task_next(machine, worker, id, task, event.at, &event.action, reply);
    }
    task
}

/// When a commit with this receipt of this machine arrived and was queued, if these events have it. The worker that got
/// its stamp queued it, and was last asked for it before that.
pub fn find_times(
    machine: u8,
    receipt: &Receipt,
    events: &[Event],
    replies: &[Reply],
) -> Option<Times>
    ensures { result ≡ times_of machine receipt.now (zip events.now replies.now) }
{
    let worker = find_holder(machine, receipt.stamp, events, replies)?;
    find_task(machine, worker, receipt.id, events, replies).times
}
