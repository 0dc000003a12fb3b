//! Events of a run, and the replies to them.

ghost use Rattle.std.specs.Prelude.{◌≡◌, ◌<◌, ◌≤◌, ◌↔◌, length, IsSome, IfSome};
ghost use Rattle.tt_world.specs.Headline.{IsAction};

use arrayvec::ArrayVec;
use std::marker::Model;
use tt_publish::Reading;
use tt_span::Span;
use tt_stamp::{Id, Receipt};

/// The most bytes of a forged packet.
pub const MAX_PAYLOAD: usize = 64;

/// The bytes of a forged packet, at most [`MAX_PAYLOAD`].
#[derive(Clone, Debug, Drop)]
pub struct Payload {
    bytes: ArrayVec<u8, MAX_PAYLOAD>,
}

impl Model for Payload {
    ghost use Rattle.std.specs.Prelude.{List, ℕ};

    ghost Value = { List ℕ };

    ghost view = { λ p. p.bytes.items };
}

impl Payload {
    /// The payload of these bytes, or None where there are more than [`MAX_PAYLOAD`].
    pub fn new(bytes: &[u8]) -> Option<Payload>
        ensures taken { IsSome result ↔ (length bytes.now ≤ 64) }
        ensures value { IfSome result (λ p. p ≡ bytes.now) }
    {
        if bytes.len() > MAX_PAYLOAD {
            return None;
        }
        let mut kept = ArrayVec::new();
        for byte in bytes {
            kept.push(*byte);
        }
        Some(Payload { bytes: kept })
    }

    /// The bytes.
    pub fn as_slice(&self) -> &[u8]
        ensures value { result.now ≡ self.now }
        ensures short { length result.now ≤ 64 }
    {
        self.bytes.as_slice()
    }
}

/// An action, and the true time at which it happens, in nanoseconds. The code of the machines is never told the true
/// time.
#[derive(Clone, Debug, Drop)]
pub struct Event {
    pub at: u64,
    pub action: Action,
}

impl Event {
    /// A law: the span of an answer is an interval, as every `Span` is. It does nothing. A proof about a list of events
    /// calls it for each event.
    pub fn recall(&self)
        ensures valid { IsAction self.now.action }
    {
        if let Action::Answer { span, .. } = &self.action {
            prove!(span.lo() <= span.hi());
        }
    }
}

/// What happens in an event. Machines, their sources and their workers are counted from 0. Packets are counted from 0,
/// in the order in which they were sent. Publications are counted from 1 in each life of a machine. Clock readings are
/// in nanoseconds.
#[derive(Clone, Debug, Drop)]
pub enum Action {
    /// The machine polls the source, and the request is sent.
    Send {
        machine: u8,
        source: u8,
        clock: u64,
    },
    /// The source answers the request `packet`, which asks it, and the answer is sent.
    Answer {
        packet: u64,
        span: Span,
    },
    /// The source sends any bytes to the machine.
    Forge {
        machine: u8,
        source: u8,
        payload: Payload,
    },
    /// The packet, an answer or a forged one, reaches its machine.
    Deliver {
        packet: u64,
        clock: u64,
    },
    /// The machine fuses what it knows, and publishes it.
    Fuse {
        machine: u8,
        clock: u64,
    },
    /// The worker reads the time from a publication.
    Read {
        machine: u8,
        worker: u8,
        clock: u64,
        publication: u64,
    },
    /// The worker is asked for the commit with this id, whose stamp is to be at least the floor. If the worker had a
    /// task, it is given up.
    Arrive {
        machine: u8,
        worker: u8,
        id: Id,
        floor: u64,
    },
    /// The worker stamps its task by its last reading, which it took after the arrival.
    Stamp {
        machine: u8,
        worker: u8,
    },
    /// The worker queues its stamped task, and has no task then.
    Queue {
        machine: u8,
        worker: u8,
    },
    /// The machine restarts and begins a new life: it knows nothing of its sources, has published and stamped nothing,
    /// its book is empty, its workers have no task and no reading, its nonces begin at 1 again, and its clock begins
    /// anew at this reading. Its lease stays, and so do the packets in transit.
    Restart {
        machine: u8,
        clock: u64,
    },
    /// The machine is granted this lease in place of the one that it had. Its stamps lie in its lease. Before the first
    /// grant the lease is the whole of time.
    Lease {
        machine: u8,
        lease: Span,
    },
    /// The worker releases the commits of its machine whose stamps have surely passed by its last reading.
    Release {
        machine: u8,
        worker: u8,
    },
}

/// The receipts of a release, least stamp first.
#[derive(Debug, Drop)]
pub struct Receipts {
    items: Vec<Receipt>,
}

impl Model for Receipts {
    ghost use Rattle.std.specs.Prelude.{List};
    ghost use Rattle.tt_stamp.specs.declared.commits.Receipt.{Receipt};

    ghost Value = { List Receipt };

    ghost view = { λ r. r.items.items };
}

impl PartialEq for Receipts {
    ghost use Rattle.std.specs.Cmp.Lexicographic.{pointwise, lists_per};
    ghost use Rattle.tt_stamp.specs.contracts.commits.ReceiptPartialEq.TheImpl as receipt;
    ghost use Rattle.tt_stamp.specs.contracts.commits.ReceiptPartialEq.TheImpl.Laws as receipt_laws;

    ghost eq = { λ a b. pointwise (receipt.ghosts).eq a b };

    ghost laws = { lists_per receipt_laws.laws-law };

    fn eq(&self, other: &Receipts) -> bool {
        self.as_slice() == other.as_slice()
    }
}

impl Receipts {
    /// These receipts, in this order, for a reply to compare with.
    pub fn of(items: Vec<Receipt>) -> Receipts
        ensures { result ≡ items.items }
    {
        Receipts { items }
    }

    /// The receipts, least stamp first.
    pub fn as_slice(&self) -> &[Receipt]
        ensures { result.now ≡ self.now }
    {
        self.items.as_slice()
    }
}

/// The reply to an event.
#[derive(Debug, PartialEq, Drop)]
pub enum Reply {
    /// The request was sent as the packet of this number.
    Sent(u64),
    /// The packet of this number was sent.
    Put(u64),
    /// The machine took the answer.
    Taken,
    /// The machine published this span, as the publication of this number.
    Published(u64, Span),
    /// The worker's reading.
    Read(Reading),
    /// The worker has the commit as its task.
    Arrived,
    /// The worker's task has this stamp, in nanoseconds.
    Stamped(u64),
    /// The worker's commit is pending in the machine's book.
    Queued,
    /// The machine began the life with this number.
    Restarted(u64),
    /// The machine has the lease.
    Leased,
    /// These commits were released.
    Released(Receipts),
    /// The event was refused with this number, of this crate or a lower one.
    Refused(u16),
}
