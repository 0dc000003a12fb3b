//! The way of records to the thread that writes them.

ghost use Rattle.std.specs.Prelude.{◌<◌};

use crossbeam_queue::ArrayQueue;
use std::alloc::{AllocError, Global};
use std::sync::Wait;
use std::thread::Parker;
use std::time::Duration;

/// The longest time for which a thread sleeps that waits for a record, in seconds.
const PERIOD: u64 = 1;

/// A bounded queue of records, and what wakes the one thread that takes them.
#[derive(Drop)]
pub struct Lane<T> {
    waiting: ArrayQueue<T>,
    came: Parker,
}

impl<T: Drop> Lane<T> {
    /// A lane for so many records that wait.
    pub fn new(alloc: Global, places: usize) -> Result<Lane<T>, AllocError>
        requires some { 0 < places }
    {
        Ok(Lane {
            waiting: ArrayQueue::new(alloc, places)?,
            came: Parker::new(),
        })
    }

    /// Hands over a record. False says that no place was free, and it is lost.
    pub(crate) fn push<R: Wait>(&self, rt: &R, record: T) -> bool {
        if self.waiting.push(rt, record).is_err() {
            return false;
        }
        self.came.unpark();
        true
    }

    /// Hands over a record. If no place is free, the oldest that waits gives its place to it: then it answers false, and
    /// that one is lost.
    pub fn push_newest<R: Wait>(&self, rt: &R, record: T) -> bool {
        let lost = self.waiting.force_push(rt, record).is_some();
        self.came.unpark();
        !lost
    }

    /// Wakes the thread that takes records, if it sleeps in [`Lane::take`].
    pub(crate) fn wake(&self) {
        self.came.unpark();
    }

    /// Takes the oldest record that waits, if there is one. It does not sleep.
    pub(crate) fn take_waiting<R: Wait>(&self, rt: &R) -> Option<T> {
        self.waiting.pop(rt)
    }

    /// Takes the oldest record that waits. If there is none, it sleeps until one comes, for at most a second.
    pub fn take<R: Wait>(&self, rt: &R) -> Option<T> {
        let record = self.take_waiting(rt);
        if record.is_none() {
            self.came.park_timeout(rt, Duration::from_secs(PERIOD));
        }
        record
    }
}
