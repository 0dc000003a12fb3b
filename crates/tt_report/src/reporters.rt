//! The reporter of a process.

use crate::clocks::clock_of;
use crate::faults::ReporterFault;
use crate::files::{Break, Disk, EvidenceFiles, Shown, WholeFile};
use crate::journals::Journal;
use crate::master_pages::{MasterPages, NewestOfMaster};
use crate::pages::{Newest, PageHost, Pages, Shows, give_pages};
use crate::records::{PageShown, Records};
use crate::sources::Addresses;
use crate::writers::{write_evidence, write_lines, write_statuses};
use std::alloc::{AllocError, Global};
use std::io::Eprint;
use std::net::Net;
use std::sync::atomic::Ordering;
use std::sync::{Arc, Wait};
use std::thread::{self, Threads};
use std::time::{Clock as SystemClock, Duration};
use tt_master::Silence;
use tt_status::{LogEvent, LogFormat, LogStyle, MasterStatus, Status};

/// For how long [`Reporter::end`] waits at most, in nanoseconds: 190 ms, so that with its last sleep it is at most
/// 200 ms.
const END: u64 = 190_000_000;

/// How often [`Reporter::end`] looks at most.
const LOOKS: u32 = 200;

/// The pause between two looks, in milliseconds.
const PAUSE: u64 = 2;

/// Writes the log, the status file and the evidence, and gives pages over HTTP, by threads of its own. No call of it waits for what they write to,
/// and only [`Reporter::end`] waits for them, for a bounded time. Threads use it by reference.
#[derive(Drop)]
pub struct Reporter {
    records: Arc<Records, Global>,
    addresses: Arc<Addresses, Global>,
    has_file: bool,
    has_evidence: bool,
    has_pages: bool,
}

impl Reporter {
    /// A reporter that writes lines in this form to standard error, with the priorities of a journal if one reads it and with
    /// these addresses beside numbers, and, if there is a path for them, the status, that of a machine with these addresses, and the
    /// evidence to the files at these paths. Its threads run until the process ends, and are never joined.
    ///
    /// Refuses with 1816 `NoThread` if a thread can't be started, and with 1 `Memory`.
    pub fn start<R>(
        rt: &R,
        alloc: Global,
        format: LogFormat,
        status: Option<&str>,
        evidence: Option<&str>,
        addresses: Addresses,
    ) -> Result<Reporter, ReporterFault>
    where
        R: Threads + Wait + SystemClock + Eprint + Disk + Journal + Copy + Send + 'static,
    {
        let rt = *rt;
        let file = WholeFile::at_some(alloc, status)?;
        let files = EvidenceFiles::at_some(alloc, evidence)?;
        let reporter = Reporter {
            records: shared_records(alloc)?,
            addresses: shared_addresses(alloc, addresses)?,
            has_file: file.is_some(),
            has_evidence: files.is_some(),
            has_pages: false,
        };
        let is_journal = rt.reads_errors();
        reporter.start_lines(rt, alloc, LogStyle { format, is_journal })?;
        if let Some(file) = file {
            reporter.start_statuses(rt, alloc, file)?;
        }
        if let Some(files) = files {
            reporter.start_evidence(rt, files)?;
        }
        Ok(reporter)
    }

    /// Starts the thread that writes the log.
    fn start_lines<R>(&self, rt: R, alloc: Global, style: LogStyle) -> Result<(), ReporterFault>
    where
        R: Threads + Wait + SystemClock + Eprint + Copy + Send + 'static,
    {
        let theirs = Arc::try_clone(&self.records)?;
        let addresses = Arc::try_clone(&self.addresses)?;
        if thread::spawn(
            &rt,
            move || write_lines(&rt, alloc, &theirs, style, &addresses),
        )
        .is_err()
        {
            return Err(ReporterFault::NoThread);
        }
        Ok(())
    }

    /// Starts the thread that writes the status.
    fn start_statuses<R>(&self, rt: R, alloc: Global, file: WholeFile) -> Result<(), ReporterFault>
    where
        R: Threads + Wait + SystemClock + Disk + Copy + Send + 'static,
    {
        let theirs = Arc::try_clone(&self.records)?;
        let addresses = Arc::try_clone(&self.addresses)?;
        if thread::spawn(
            &rt,
            move || write_statuses(&rt, alloc, &theirs, &file, &addresses),
        )
        .is_err()
        {
            return Err(ReporterFault::NoThread);
        }
        Ok(())
    }

    /// Starts the thread that writes the evidence.
    fn start_evidence<R>(&self, rt: R, files: EvidenceFiles) -> Result<(), ReporterFault>
    where
        R: Threads + Wait + SystemClock + Disk + Copy + Send + 'static,
    {
        let theirs = Arc::try_clone(&self.records)?;
        if thread::spawn(&rt, move || write_evidence(&rt, &theirs, &files)).is_err() {
            return Err(ReporterFault::NoThread);
        }
        Ok(())
    }

    /// Starts one more thread, which gives pages over HTTP at this address. It runs until the process ends, and is never
    /// joined.
    ///
    /// Refuses with 1816 `NoThread` if the thread can't be started, or has nothing to wait with, and with 1 `Memory`.
    pub fn give_pages<R>(
        &mut self,
        rt: &R,
        alloc: Global,
        pages: Pages,
    ) -> Result<(), ReporterFault>
    where
        R: Threads + Wait + SystemClock + Net + Copy + Send + 'static,
    {
        let limits = pages.limits;
        let Ok(host) = PageHost::new(rt, alloc, pages.listener, pages.is_open) else {
            return Err(ReporterFault::NoThread);
        };
        let addresses = Arc::try_clone(&self.addresses)?;
        let newest = Newest::nothing(clock_of(rt), limits, addresses);
        self.start_pages(*rt, host, newest)
    }

    /// As [`Reporter::give_pages`], of a master.
    pub fn give_master_pages<R>(
        &mut self,
        rt: &R,
        alloc: Global,
        pages: MasterPages,
    ) -> Result<(), ReporterFault>
    where
        R: Threads + Wait + SystemClock + Net + Copy + Send + 'static,
    {
        let Ok(host) = PageHost::new(rt, alloc, pages.listener, pages.is_open) else {
            return Err(ReporterFault::NoThread);
        };
        let newest = NewestOfMaster::nothing(clock_of(rt));
        self.start_pages(*rt, host, newest)
    }

    /// Starts the thread that gives pages.
    fn start_pages<R, S>(&mut self, rt: R, host: PageHost, newest: S) -> Result<(), ReporterFault>
    where
        R: Threads + Wait + SystemClock + Net + Copy + Send + 'static,
        S: Shows + Drop + Send + 'static,
    {
        let theirs = Arc::try_clone(&self.records)?;
        if thread::spawn(&rt, move || give_pages(&rt, &theirs, host, newest)).is_err() {
            return Err(ReporterFault::NoThread);
        }
        self.has_pages = true;
        Ok(())
    }

    /// Another handle of this reporter, for a thread that owns what it uses.
    pub fn try_clone(&self) -> Result<Reporter, AllocError> {
        Ok(Reporter {
            records: Arc::try_clone(&self.records)?,
            addresses: Arc::try_clone(&self.addresses)?,
            has_file: self.has_file,
            has_evidence: self.has_evidence,
            has_pages: self.has_pages,
        })
    }

    /// Hands over the line of an event, with the time of the real-time clock, unless the pause
    /// behind the line before of its kind is not over, or no place is free. The newest one that was left out is handed over
    /// within a second after that pause. It writes nothing itself and never waits for standard error.
    pub fn log<R: Wait + SystemClock>(&self, rt: &R, event: LogEvent) {
        self.records.log(rt, event)
    }

    /// Hands over the newest status, if there is a status file or an address for pages. A status that still waits gives
    /// its place to it. It writes nothing itself and never waits for the file or for a client.
    pub fn show<R: Wait + SystemClock>(&self, rt: &R, status: Status) {
        if self.has_pages {
            self.records.show_page(rt, PageShown::Machine(status))
        }
        if self.has_file {
            self.records.show(rt, Shown::Machine(status))
        }
    }

    /// Hands over the newest status of a master, and why it answers no poll, if it does not, as [`Reporter::show`] does the
    /// status of a machine. If it is out of memory, it hands over nothing.
    pub fn show_master<R: Wait + SystemClock>(
        &self,
        rt: &R,
        alloc: Global,
        status: MasterStatus,
        silence: Option<Silence>,
    ) {
        let Ok(shared) = Arc::new(alloc, status) else {
            return;
        };
        if self.has_pages {
            if let Ok(theirs) = Arc::try_clone(&shared) {
                self.records
                    .show_page(rt, PageShown::Master(theirs, silence))
            }
        }
        if self.has_file {
            self.records.show(rt, Shown::Master(shared))
        }
    }

    /// Hands over the newest evidence, if there is a path for it or an address for pages. A text that still waits gives
    /// its place to it. It writes nothing itself and never waits for the file or for a client. If there are both and it is
    /// out of memory, the pages keep the evidence before.
    pub fn prove<R: Wait>(&self, rt: &R, text: String) {
        if self.has_pages && self.has_evidence {
            if let Ok(copy) = text.clone() {
                self.records.prove_page(rt, copy)
            }
        }
        if self.has_evidence {
            self.records.prove(rt, text)
        } else if self.has_pages {
            self.records.prove_page(rt, text)
        }
    }

    /// Hands over the evidence before a break of an assumption and that of it, if there is a path for evidence. They are
    /// written to files of their own, at that path with `.break-1` and `.break-2` behind it, whatever evidence is handed
    /// over later; that of a break before gives its place to them. It writes nothing itself and never waits for a file.
    pub fn keep_break<R: Wait>(&self, rt: &R, earlier: String, later: String) {
        if self.has_evidence {
            self.records.keep_break(rt, Break { earlier, later })
        }
    }

    /// From now on a publication that lasts longer than this, in nanoseconds, is logged once, within a second after
    /// that. Before this call none is.
    pub fn watch_for(&self, most: u64) {
        self.records.most.store(most, Ordering::SeqCst)
    }

    /// A publication begins, at this reading of the monotonic clock in nanoseconds, not 0.
    pub fn busy(&self, since: u64) {
        self.records.since.store(since, Ordering::SeqCst)
    }

    /// The publication was made.
    pub fn idle(&self) {
        self.records.since.store(0, Ordering::SeqCst)
    }

    /// How many lines, statuses and texts of evidence found no place so far. They are lost.
    pub fn left_out(&self) -> u64 {
        self.records.left_out()
    }

    /// Waits until all that was handed over is written, for at most 200 ms, and says whether it is. What standard error
    /// or a file refused counts as written.
    pub fn end<R: Wait + SystemClock>(&self, rt: &R) -> bool {
        let began = clock_of(rt);
        for _ in 0..LOOKS {
            if self.records.all_written() || clock_of(rt).saturating_sub(began) >= END {
                break;
            }
            thread::sleep(rt, Duration::from_millis(PAUSE));
        }
        self.records.all_written()
    }
}

/// Records that threads share.
fn shared_records(alloc: Global) -> Result<Arc<Records, Global>, AllocError> {
    let records = Arc::new(alloc, Records::new(alloc)?)?;
    Ok(records)
}

/// Addresses that threads share.
fn shared_addresses(
    alloc: Global,
    addresses: Addresses,
) -> Result<Arc<Addresses, Global>, AllocError> {
    let shared = Arc::new(alloc, addresses)?;
    Ok(shared)
}

impl From<AllocError> for ReporterFault {
    fn from(_error: AllocError) -> ReporterFault {
        ReporterFault::Memory
    }
}
