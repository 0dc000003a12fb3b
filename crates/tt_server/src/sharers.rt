//! The thread that writes the shared file, and what the daemon's hands over to it.
//!
//! What is written was handed over, in the order in which it was. Of what waits the newest alone is written.

use crate::faults::ServerFault;
use crate::modes::is_loose_at;
use crate::states::ThreadContext;
use std::alloc::{AllocError, Global};
use std::fs::{File, Files};
use std::sync::atomic::{AtomicBool, AtomicU64, Ordering};
use std::sync::{Arc, Wait};
use std::thread::{self, Threads};
use std::time::{Clock as SystemClock, Duration};
use tt_clock::reading_of;
use tt_host::HostClock;
use tt_report::{Lane, Reporter};
use tt_shared::SharedSpan;
use tt_sharing::{Share, SharePath, Tried, ended_at, event_of_over, folder_and_name, hangs};
use tt_status::LogEvent;

/// For how long the end of a machine waits for the shared file, in nanoseconds: 190 ms, so that with its last sleep it
/// is at most 200 ms.
const END: u64 = 190_000_000;

/// How often the end of a machine looks at most.
const LOOKS: u32 = 200;

/// The pause between two looks, in milliseconds.
const PAUSE: u64 = 2;

/// What the clock shows, or 0 if it can't be read.
fn clock_of<R: SystemClock>(rt: &R) -> u64 {
    reading_of(rt).unwrap_or(0)
}

/// What is shared, and the clock reading at which it was handed over.
#[derive(Clone, Copy)]
struct Handed {
    span: SharedSpan,
    now: u64,
}

/// What the daemon's thread and the one that writes the shared file have in common.
#[derive(Drop)]
struct Outbox {
    /// One place, for the newest of what is shared.
    newest: Lane<Handed>,
    /// How many wait, or are being written.
    undone: AtomicU64,
    /// The clock reading at which the try began that lasts, in nanoseconds; 0 for none.
    since: AtomicU64,
    /// Whether the last try failed.
    failed: AtomicBool,
    /// Whether the log says that a try hangs.
    told: AtomicBool,
}

impl Outbox {
    /// Nothing was handed over. The file is opened from the clock reading `now` on.
    fn new(alloc: Global, now: u64) -> Result<Outbox, AllocError> {
        Ok(Outbox {
            newest: Lane::new(alloc, 1)?,
            undone: AtomicU64::new(0),
            since: AtomicU64::new(now.max(1)),
            failed: AtomicBool::new(false),
            told: AtomicBool::new(false),
        })
    }

    /// Hands over what is shared. What still waits gives its place to it. It does not wait for the file.
    fn put<R: Wait>(&self, rt: &R, handed: Handed) {
        self.undone.fetch_add(1, Ordering::SeqCst);
        if !self.newest.push_newest(rt, handed) {
            self.undone.fetch_sub(1, Ordering::SeqCst);
        }
    }

    /// Whether nothing waits and nothing is being written.
    fn is_done(&self) -> bool {
        self.undone.load(Ordering::SeqCst) == 0
    }

    /// Whether a try hangs when the clock shows `now`.
    fn hangs(&self, now: u64) -> bool {
        hangs(self.since.load(Ordering::SeqCst), now)
    }
}

/// The sharing of a machine, as the daemon's thread has it.
#[derive(Drop)]
pub(crate) struct Shares {
    /// The way to the thread that writes the shared file, if there is one.
    outbox: Option<Arc<Outbox, Global>>,
    /// What was to be shared last.
    last: Option<SharedSpan>,
}

impl Shares {
    /// Hands over what is shared when the clock shows `now`, if there is a shared file. It does not wait for the file.
    pub(crate) fn put<R: Wait>(&mut self, rt: &R, span: &SharedSpan, now: u64) {
        self.last = Some(*span);
        if let Some(outbox) = &self.outbox {
            outbox.put(rt, Handed { span: *span, now });
        }
    }

    /// Hands over that what was to be shared last is no longer fresh after the clock reading `now`.
    pub(crate) fn put_end<R: Wait>(&mut self, rt: &R, now: u64) {
        if let Some(last) = self.last {
            self.put(rt, &ended_at(&last, now), now);
        }
    }

    /// Whether there is a shared file, the last try to write it did not fail, and none hangs when the clock shows `now`.
    pub(crate) fn is_written(&self, now: u64) -> bool {
        match &self.outbox {
            Some(outbox) => !outbox.failed.load(Ordering::SeqCst) && !outbox.hangs(now),
            None => false,
        }
    }

    /// Whether it is to be logged that a try hangs when the clock shows `now`: once for each that does.
    pub(crate) fn tells_hang(&self, now: u64) -> bool {
        match &self.outbox {
            Some(outbox) => outbox.hangs(now) && !outbox.told.swap(true, Ordering::SeqCst),
            None => false,
        }
    }

    /// Waits until all that was handed over is written, for at most 200 ms.
    pub(crate) fn end<R: Wait + SystemClock>(&self, rt: &R) {
        let Some(outbox) = &self.outbox else {
            return;
        };
        let began = clock_of(rt);
        for _ in 0..LOOKS {
            if outbox.is_done() || clock_of(rt).saturating_sub(began) >= END {
                return;
            }
            thread::sleep(rt, Duration::from_millis(PAUSE));
        }
    }
}

/// What the thread that writes the shared file owns.
#[derive(Drop)]
pub struct Sharer {
    path: String,
    /// The clock of the file.
    clock: HostClock,
    /// The pause between rounds, in nanoseconds.
    poll: u64,
    outbox: Arc<Outbox, Global>,
    reporter: Reporter,
}

impl Sharer {
    /// What the thread owns for the file at this path, and the outbox for the daemon's thread.
    fn new<R: SystemClock>(
        context: ThreadContext<'_, R>,
        path: &str,
    ) -> Result<(Sharer, Arc<Outbox, Global>), AllocError> {
        let (alloc, server) = (context.alloc, context.server);
        let outbox = Arc::new(alloc, Outbox::new(alloc, clock_of(context.rt))?)?;
        let sharer = Sharer {
            path: String::from_str(alloc, path)?,
            clock: server.life.clock,
            poll: server.life.pauses.poll,
            outbox: Arc::try_clone(&outbox)?,
            reporter: server.reporter.try_clone()?,
        };
        Ok((sharer, outbox))
    }

    /// Keeps what came of a try that is over, and logs what is to be logged of it.
    fn settle<R: Wait + SystemClock>(&self, rt: &R, tried: &Tried, is_written: bool) {
        self.outbox.failed.store(!is_written, Ordering::SeqCst);
        self.outbox.since.store(0, Ordering::SeqCst);
        let was_told = self.outbox.told.swap(false, Ordering::SeqCst);
        if let Some(event) = event_of_over(tried, was_told) {
            self.reporter.log(rt, event);
        }
    }

    /// Opens the file. It is logged if others can write it.
    fn open<R: Wait + SystemClock + Files<File = File>>(&self, rt: &R, share: &mut Share<'_, R>) {
        if is_loose_at(rt, self.path.as_str()) {
            self.reporter.log(rt, LogEvent::SharedLoose);
        }
        let event = share.begin(self.poll, clock_of(rt));
        let written = share.is_written();
        self.settle(rt, &Tried { written, event }, written);
    }

    /// Writes what was handed over.
    fn write<R: Wait + SystemClock + Files<File = File>>(
        &self,
        rt: &R,
        share: &mut Share<'_, R>,
        handed: Handed,
    ) {
        self.outbox
            .since
            .store(clock_of(rt).max(1), Ordering::SeqCst);
        let tried = share.put(handed.span, self.poll, handed.now);
        self.settle(rt, &tried, share.is_written());
        self.outbox.undone.fetch_sub(1, Ordering::SeqCst);
    }
}

/// A file system with a shared file. The runtime handle is one. A thread can be given it, since no type of files belongs
/// to it.
pub trait SharesFile {
    /// Opens the shared file, and writes the newest of what is handed over as it comes. It runs until the process ends.
    fn share_all(&self, alloc: Global, sharer: &Sharer);
}

impl<R: Wait + SystemClock + Files<File = File>> SharesFile for R {
    fn share_all(&self, alloc: Global, sharer: &Sharer) {
        let (folder, name) = folder_and_name(sharer.path.as_str());
        let path = SharePath {
            folder,
            name,
            clock: sharer.clock,
        };
        let mut share = Share::new(self, alloc, Some(path));
        sharer.open(self, &mut share);
        for _ in self.forever() {
            if let Some(handed) = sharer.outbox.newest.take(self) {
                sharer.write(self, &mut share, handed);
            }
        }
        unreachable!()
    }
}

/// Starts the thread that writes the shared file at this path, if there is one. It runs until the process ends, and is
/// never joined, since nothing ends a write that hangs.
pub(crate) fn start_sharing<R: Threads + Wait + SystemClock + SharesFile + Copy + Send + 'static>(
    context: ThreadContext<'_, R>,
    path: Option<&str>,
) -> Result<Shares, ServerFault> {
    let Some(path) = path else {
        return Ok(Shares {
            outbox: None,
            last: None,
        });
    };
    let Ok((sharer, outbox)) = Sharer::new(context, path) else {
        return Err(ServerFault::Memory);
    };
    let (rt, alloc) = (*context.rt, context.alloc);
    if thread::spawn(&rt, move || rt.share_all(alloc, &sharer)).is_err() {
        return Err(ServerFault::NoThread);
    }
    Ok(Shares {
        outbox: Some(outbox),
        last: None,
    })
}
