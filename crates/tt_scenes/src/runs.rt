//! Two worked runs as events, for programs that may not allocate memory for a script.

use crate::events::{answer, arrive, deliver, fuse, queue, read, release, send, stamp};
use tt_world::Event;

/// The events of [`COMMIT_WAIT`](crate::COMMIT_WAIT), of two machines with one source each.
pub fn commit_wait() -> [Event; 19] {
    [
        send(150, 0, 0, 0),
        answer(150, 0, 100, 200),
        deliver(150, 1, 0),
        fuse(150, 0, 0),
        arrive(150, 0, 0, 1, 0),
        read(150, 0, 0, 0, 1),
        stamp(150, 0, 0),
        queue(150, 0, 0),
        read(250, 0, 0, 100, 1),
        release(250, 0, 0),
        read(251, 0, 0, 101, 1),
        release(251, 0, 0),
        send(251, 1, 0, 0),
        answer(251, 2, 251, 251),
        deliver(251, 3, 0),
        fuse(251, 1, 0),
        arrive(251, 1, 0, 1, 0),
        read(251, 1, 0, 0, 1),
        stamp(251, 1, 0),
    ]
}

/// The events of [`ONE_LIAR`](crate::ONE_LIAR), of one machine with three sources.
pub fn one_liar() -> [Event; 11] {
    [
        send(50, 0, 0, 0),
        send(50, 0, 1, 0),
        send(50, 0, 2, 0),
        answer(50, 0, 40, 60),
        answer(50, 1, 45, 55),
        answer(50, 2, 100, 105),
        deliver(50, 3, 0),
        deliver(50, 4, 0),
        deliver(50, 5, 0),
        fuse(50, 0, 0),
        read(50, 0, 0, 0, 1),
    ]
}
