//! The widths of the last ten minutes.

ghost use Rattle.std.specs.Prelude.{◌≡◌, IfOk, [], ◌∷◌};
ghost use Rattle.tt_top.specs.Width.{kept_by, next_of, slot_of, slot_at, later_of, seen_of, shown_by};

use arrayvec::ArrayVec;
use std::alloc::{AllocError, Global};

/// How long a width stands for, in nanoseconds: three seconds.
const SLOT: u64 = 3_000_000_000;

/// How many widths are kept beside the newest.
const PAST: usize = 199;

/// The greatest width of each three seconds, for ten minutes. It takes no memory and does not grow.
#[derive(Drop)]
pub struct Widths {
    past: ArrayVec<u64, 199>,
    newest: u64,
    /// In which three seconds of the clock the newest lies.
    slot: u64,
}

impl Widths {
    /// No width was seen so far, when the clock shows `now`, in nanoseconds.
    pub fn new(now: u64) -> Widths
        ensures value { shown_by result ≡ 0 ∷ [] }
        ensures slot { slot_of result ≡ slot_at now }
    {
        Widths {
            past: ArrayVec::new(),
            newest: 0,
            slot: now / SLOT,
        }
    }

    /// Three seconds go by.
    fn step(&mut self)
        ensures value { kept_by self.new ≡ next_of (kept_by self.old) }
        ensures slot { slot_of self.new ≡ slot_of self.old }
    {
        if self.past.len() >= PAST {
            let _oldest = self.past.remove(0);
        }
        self.past.push(self.newest);
        self.newest = 0;
    }

    /// A width, in nanoseconds, when the clock shows `now`. A clock that goes back counts as one that stands.
    pub fn see(&mut self, width: u64, now: u64)
        ensures value { kept_by self.new ≡ seen_of (kept_by self.old) (slot_of self.old) width now }
        ensures slot { slot_of self.new ≡ later_of (slot_of self.old) now }
    {
        let slot = now / SLOT;
        let steps = slot.saturating_sub(self.slot).min(200);
        for _step in 0..steps {
            self.step();
        }
        self.slot = self.slot.max(slot);
        self.newest = self.newest.max(width);
    }

    /// The widths, the oldest first: at most 200. 0 stands for three seconds without one.
    pub fn list(&self, alloc: Global) -> Result<Vec<u64>, AllocError>
        ensures value { IfOk result (λ widths. widths.items ≡ shown_by self.now) }
    {
        let mut widths = Vec::from_slice(alloc, self.past.as_slice())?;
        widths.push(self.newest)?;
        Ok(widths)
    }
}
