//! What the pages of a master show.

use crate::pages::{Now, Shows};
use crate::records::{PageLanes, PageShown};
use std::alloc::Global;
use std::net::TcpListener;
use std::sync::{Arc, Wait};
use tt_master::Silence;
use tt_pages::{Asked, MasterReport, push_master_answer};
use tt_status::MasterStatus;

/// Where the pages of a master are given.
#[derive(Drop)]
pub struct MasterPages {
    /// An address of this host.
    pub listener: TcpListener,
    /// Whether they are given to other hosts, too.
    pub is_open: bool,
}

/// What a master handed over last.
#[derive(Drop)]
pub(crate) struct NewestOfMaster {
    status: Option<Arc<MasterStatus, Global>>,
    /// Why it answered no poll then, if it did not.
    silence: Option<Silence>,
    /// When that was handed over, or the thread began: a reading of the monotonic clock, in nanoseconds.
    at: u64,
}

impl NewestOfMaster {
    /// Nothing was handed over so far, when the clock shows `now`.
    pub(crate) fn nothing(now: u64) -> NewestOfMaster {
        NewestOfMaster {
            status: None,
            silence: None,
            at: now,
        }
    }

    /// What it was at the last status, when the clock shows `now`.
    fn report(&self, now: u64) -> MasterReport<'_> {
        let status = match &self.status {
            Some(status) => Some(&**status),
            None => None,
        };
        MasterReport {
            status,
            silence: self.silence,
            age: now.saturating_sub(self.at),
        }
    }
}

impl Shows for NewestOfMaster {
    fn take<R: Wait>(&mut self, rt: &R, lanes: &PageLanes) {
        if let Some(taken) = lanes.status.take_waiting(rt) {
            let at = taken.at;
            if let PageShown::Master(status, silence) = taken.shown {
                self.status = Some(status);
                self.silence = silence;
                self.at = at;
            }
        }
    }

    fn answer(&mut self, alloc: Global, asked: Asked, now: Now) -> Option<String> {
        let mut text = String::new(alloc);
        match push_master_answer(&mut text, alloc, asked, &self.report(now.clock)) {
            Ok(()) => Some(text),
            Err(_) => None,
        }
    }
}
