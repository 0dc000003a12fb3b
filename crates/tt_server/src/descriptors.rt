//! How many descriptors a machine wants, and how many sessions it takes within its limit.

ghost use Rattle.std.specs.Prelude.{◌≡◌, ◌+◌, ◌*◌, ◌<◌, ◌≤◌, IfSome};
ghost use Rattle.tt_server.specs.Descriptor.{IsShared, needed_of, own_descriptors, room_of, room_within, sessions_within};

use tt_connections::{MAX_WAITING, Room};
use tt_workers::MAX_SESSIONS;

/// What no client can take.
const RESERVE: u64 = 64;

/// What a machine has at most beside what its workers and its sessions have: the standard streams, listeners, sockets, what
/// it waits with, files, and the connections of pages.
const BASE: u64 = 32;

/// What each worker has: what it waits with, what wakes it, and what it looks at its clients with.
const EACH: u64 = 3;

/// What each worker takes beside its own where it has all its sessions: those, a quarter as many connections that wait, and
/// one in hand.
const FULL: u64 = 428;

/// How many descriptors a machine with `workers` workers has of its own, at most.
fn own_descriptors(workers: u64) -> u64
    requires few { workers ≤ 32 }
    ensures value { result ≡ own_descriptors workers }
{
    BASE + EACH * workers
}

/// How many descriptors a machine with `workers` workers wants, so that each may have all its sessions: its own, the reserve,
/// and for each worker 320 sessions, 107 connections that wait and one in hand.
pub fn needed_descriptors(workers: u64) -> u64
    requires few { workers ≤ 32 }
    ensures value { result ≡ needed_of workers }
{
    own_descriptors(workers) + RESERVE + FULL * workers
}

/// The room of a worker for whose sessions and connections that wait there are so many descriptors: a quarter of them, or
/// what sessions leave, is for those that wait. One session and one connection have room in any case.
fn room_within(share: u64) -> Room
    ensures value { result ≡ room_within share }
{
    let rest = share.saturating_sub(1);
    let waiting = rest
        .div_ceil(4)
        .max(rest.saturating_sub(MAX_SESSIONS as u64));
    let waiting = waiting.min(MAX_WAITING as u64).max(1);
    let sessions = rest.saturating_sub(waiting).min(MAX_SESSIONS as u64).max(1);
    Room {
        waiting: waiting as usize,
        sessions: sessions as usize,
    }
}

/// The room of each of `workers` workers where the process may have so many descriptors: what its own and the reserve leave
/// is shared by all workers alike. All of it where the limit is not known.
pub(crate) fn room_of(limit: Option<u64>, workers: usize) -> Room
    requires some { 0 < workers }
    requires few { workers ≤ 32 }
    ensures value { result ≡ room_of limit workers }
    // What clients can take, a connection in hand of each worker included, leaves what the machine needs and the reserve.
    ensures leaves { IfSome limit (λ most. IsShared most workers result) }
{
    let workers = workers as u64;
    match limit {
        Some(limit) => room_within(
            limit.saturating_sub(own_descriptors(workers) + RESERVE) / workers,
        ),
        None => Room {
            waiting: MAX_WAITING,
            sessions: MAX_SESSIONS,
        },
    }
}

/// How many sessions a machine with `workers` workers has room for where the process may have so many descriptors.
pub fn sessions_within(limit: Option<u64>, workers: usize) -> u64
    requires some { 0 < workers }
    requires few { workers ≤ 32 }
    ensures value { result ≡ sessions_within limit workers }
{
    room_of(limit, workers).sessions as u64 * workers as u64
}
