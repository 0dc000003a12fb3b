//! Finds commits out of order.

ghost use Rattle.std.specs.Prelude.{◌≡◌, ◌<◌, ◌≤◌, ℕ, List, [], ◌∷◌, length, slice_get, Some, IfSome};
ghost use Rattle.tt_world.specs.declared.events.Event.{Event};
ghost use Rattle.tt_world.specs.declared.events.Reply.{Reply};
ghost use Rattle.tt_audit.specs.Violations.{Answered, answered_of, violations_of, is_late as is_late_after, receipts_in, asked_by as place_asked, stamped_by as stamping_in};
ghost use Rattle.tt_audit.specs.Ordering.{OrderState, KeepsOrder, IsPlace, IsPlaced, highest_after, is_reached, is_stamping_reached, marks_after};

use std::marker::Model;
use tt_daemon::MAX_WORKERS;
use tt_stamp::Receipt;
use tt_world::{Action, Event, MAX_MACHINES, Reply};

/// A worker of a machine.
#[derive(Clone, Copy)]
pub struct Position {
    pub machine: u8,
    pub worker: u8,
}

/// A stamp, in nanoseconds, and the worker that it was given to.
#[derive(Clone, Copy)]
pub struct Stamping {
    pub place: Position,
    pub stamp: u64,
}

/// The greatest stamp that was released so far, on whatever machine, and for each worker the greatest one that was
/// released before the worker was last asked for a commit.
#[derive(Drop)]
pub struct Order {
    released: Option<u64>,
    before: [[Option<u64>; MAX_WORKERS]; MAX_MACHINES],
}

impl Model for Order {
    ghost use Rattle.tt_audit.specs.Ordering.{OrderState};

    ghost Value = { OrderState };

    ghost view = { λ o. record { released = o.released; before = o.before } };
}

impl Order {
    /// Nothing was released, and nobody was asked.
    pub fn new() -> Order
        ensures { KeepsOrder [] result }
    {
        Order {
            released: None,
            before: [[None; MAX_WORKERS]; MAX_MACHINES],
        }
    }

    /// Adds an event and its reply, and tells whether they give a stamp that is out of order.
    pub fn note(&mut self, event: &Event, reply: &Reply) -> bool
        requires { IsPlaced event.now.action reply.now }
        ensures keeps { (past : List Answered) → KeepsOrder past self.old →
            KeepsOrder (record { event = event.now; reply = reply.now } ∷ past) self.new }
        ensures late { (past : List Answered) → KeepsOrder past self.old →
            result ≡ is_late_after past (stamping_in event.now.action reply.now) }
    {
        let late = self.is_late(&stamped_by(&event.action, reply));
        self.mark(&asked_by(&event.action, reply));
        self.released = highest(self.released, released_by(reply));
        late
    }

    /// The worker, if there is one, is asked for a commit.
    fn mark(&mut self, place: &Option<Position>)
        requires { IfSome place.now IsPlace }
        ensures { self.new ≡ record self.old { before = marks_after self.old.before place.now self.old.released } }
    {
        if let Some(place) = place {
            self.before[usize::from(place.machine)][usize::from(place.worker)] = self.released;
        }
    }

    /// Whether a stamp is no greater than one that was released before its worker was last asked for a commit.
    fn is_late(&self, stamping: &Option<Stamping>) -> bool
        requires { IfSome stamping.now (λ s. IsPlace s.place) }
        ensures { result ≡ is_stamping_reached self.now.before stamping.now }
    {
        match stamping {
            None => false,
            Some(stamping) => {
                let row = &self.before[usize::from(stamping.place.machine)];
                match row[usize::from(stamping.place.worker)] {
                    None => false,
                    Some(highest) => stamping.stamp <= highest,
                }
            }
        }
    }
}

/// The receipts of a reply.
pub fn released_by(reply: &Reply) -> &[Receipt]
    ensures { result.now ≡ receipts_in reply.now }
{
    match reply {
        Reply::Released(receipts) => receipts.as_slice(),
        _ => &[],
    }
}

/// The worker that an event asks for a commit, if it does and was not refused.
fn asked_by(action: &Action, reply: &Reply) -> Option<Position>
    ensures { result ≡ place_asked action.now reply.now }
{
    match (action, reply) {
        (
            Action::Arrive {
                machine,
                worker,
                ..
            },
            Reply::Arrived,
        ) => Some(Position {
            machine: *machine,
            worker: *worker,
        }),
        _ => None,
    }
}

/// The stamp that an event gives, and to which worker, if it does.
fn stamped_by(action: &Action, reply: &Reply) -> Option<Stamping>
    ensures { result ≡ stamping_in action.now reply.now }
{
    match (action, reply) {
        (Action::Stamp { machine, worker }, Reply::Stamped(stamp)) => Some(Stamping {
            place: Position {
                machine: *machine,
                worker: *worker,
            },
            stamp: *stamp,
        }),
        _ => None,
    }
}

/// The greatest of the stamps of these receipts and of one before, if there is one.
fn highest(before: Option<u64>, receipts: &[Receipt]) -> Option<u64>
    ensures { result ≡ highest_after before receipts.now }
{
    let mut so_far = before;
    for receipt in receipts {
        so_far = Some(receipt.stamp.max(so_far.unwrap_or(0)));
    }
    so_far
}

/// How many stamps are out of order: each is no greater than the stamp of a commit that was released before its own
/// commit arrived. Requires: the workers of the events that ask for commits and stamp them are there, and each event
/// has its reply.
pub fn violations(events: &[Event], replies: &[Reply]) -> usize
    requires long { length replies.now ≡ length events.now }
    requires placed { (k : ℕ) (event : Event) (reply : Reply) → slice_get events.now k ≡ Some event → slice_get replies.now k ≡ Some reply →
        IsPlaced event.action reply }
    ensures value { result ≡ violations_of (answered_of events.now replies.now) }
    ensures bound { result ≤ length events.now }
{
    let mut order = Order::new();
    let mut count = 0;
    for number in 0..events.len() {
        if order.note(&events[number], &replies[number]) {
            count += 1;
        }
    }
    count
}
