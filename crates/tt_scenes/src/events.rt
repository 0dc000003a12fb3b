//! Short calls that make machines, spans and events. Times and clock readings are in nanoseconds.

use tt_daemon::{Config, Fused};
use tt_span::{Drift, Span};
use tt_stamp::Id;
use tt_world::{Action, Event};

/// The configuration of a machine: how many sources it has, how many of them may be faulty, its drift in parts per
/// million, and how many workers it has. None where there is no such machine.
pub fn machine(sources: usize, faulty: usize, drift: u32, workers: usize) -> Option<Config> {
    Config::new(sources, faulty, Drift::new(drift)?, workers).ok()
}

/// The span with these ends, or the whole of time if there is no such span.
pub fn span(lo: u64, hi: u64) -> Span {
    Span::new(lo, hi).unwrap_or(Span::whole())
}

/// The fusion of one source that states this span, at clock reading 0.
pub fn fused(lo: u64, hi: u64) -> Option<Fused> {
    Fused::make(0, &[span(lo, hi)], 0).ok()
}

/// A machine polls a source.
pub fn send(at: u64, machine: u8, source: u8, clock: u64) -> Event {
    let action = Action::Send {
        machine,
        source,
        clock,
    };
    Event { at, action }
}

/// The source of a request answers it with a span.
pub fn answer(at: u64, packet: u64, lo: u64, hi: u64) -> Event {
    let action = Action::Answer {
        packet,
        span: span(lo, hi),
    };
    Event { at, action }
}

/// A packet reaches its machine.
pub fn deliver(at: u64, packet: u64, clock: u64) -> Event {
    let action = Action::Deliver { packet, clock };
    Event { at, action }
}

/// A machine fuses and publishes.
pub fn fuse(at: u64, machine: u8, clock: u64) -> Event {
    let action = Action::Fuse { machine, clock };
    Event { at, action }
}

/// A worker reads from a publication.
pub fn read(at: u64, machine: u8, worker: u8, clock: u64, publication: u64) -> Event {
    let action = Action::Read {
        machine,
        worker,
        clock,
        publication,
    };
    Event { at, action }
}

/// A commit of session 0 arrives at a worker.
pub fn arrive(at: u64, machine: u8, worker: u8, number: u64, floor: u64) -> Event {
    let action = Action::Arrive {
        machine,
        worker,
        id: Id { session: 0, number },
        floor,
    };
    Event { at, action }
}

/// A worker stamps the commit that arrived.
pub fn stamp(at: u64, machine: u8, worker: u8) -> Event {
    let action = Action::Stamp { machine, worker };
    Event { at, action }
}

/// A worker queues the commit that it stamped.
pub fn queue(at: u64, machine: u8, worker: u8) -> Event {
    let action = Action::Queue { machine, worker };
    Event { at, action }
}

/// A worker releases the commits that its last reading allows.
pub fn release(at: u64, machine: u8, worker: u8) -> Event {
    let action = Action::Release { machine, worker };
    Event { at, action }
}

/// A machine begins a new life, with any clock reading.
pub fn restart(at: u64, machine: u8, clock: u64) -> Event {
    let action = Action::Restart { machine, clock };
    Event { at, action }
}
