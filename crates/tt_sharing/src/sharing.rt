//! The shared file, as long as it can be written, and when it is tried again.

ghost use Rattle.std.specs.Prelude.{◌≡◌, ◌≤◌, ℕ, true, false, Some, None, is_some, IfOk, IfSome, IsSome, OnOk, OnErr};
ghost use Rattle.tt_shared.specs.Writing.{TellerState};
ghost use Rattle.tt_sharing.specs.Share.{CannotWrite, IsOpen, Writes, broken_after, number_in, is_due, break_after, told_of, retry_after};

use std::alloc::Global;
use std::fs::{File, Files};
use tt_host::HostClock;
use tt_shared::{FilePlace, Place, SharedSpan, SharedTeller, WriteFault, open_file};
use tt_status::LogEvent;

/// The longest pause before the shared file is tried again, in nanoseconds: thirty seconds.
const MAX_RETRY: u64 = 30_000_000_000;

/// A break of the sharing: the file could not be opened or written.
#[derive(Clone, Copy)]
pub struct Break {
    /// The pause before it is tried again, in nanoseconds.
    pub pause: u64,
    /// The clock reading from which on it is tried again, in nanoseconds.
    pub again: u64,
}

/// The pause before the file is tried again, in nanoseconds, after a pause of `last`, or of 0 at first: a round's at
/// first, then twice the one before, and at most thirty seconds.
fn retry_after(last: u64, poll: u64) -> u64
    ensures value { result ≡ retry_after last poll }
    ensures bounded { result ≤ 30000000000 }
{
    last.saturating_mul(2).max(poll).min(MAX_RETRY)
}

/// Whether the file is written, or tried again, when the clock shows `now`.
fn is_due(broken: Option<Break>, now: u64) -> bool
    ensures value { result ≡ is_due broken now }
{
    match broken {
        Some(broken) => broken.again <= now,
        None => true,
    }
}

/// The break after a try at the clock reading `now` that failed.
fn break_after(broken: Option<Break>, poll: u64, now: u64) -> Break
    ensures value { result ≡ break_after broken poll now }
{
    let last = match broken {
        Some(broken) => broken.pause,
        None => 0,
    };
    let pause = retry_after(last, poll);
    Break {
        pause,
        again: now.saturating_add(pause),
    }
}

/// What is logged of a try that failed with this number, or did not fail: once that the sharing ended, and once that it is
/// resumed.
fn told_of(was_broken: bool, failed: Option<u16>) -> Option<LogEvent>
    ensures value { result ≡ told_of was_broken failed }
{
    match (was_broken, failed) {
        (false, Some(number)) => Some(LogEvent::SharingEnded {
            number: u64::from(number),
        }),
        (true, None) => Some(LogEvent::SharingResumed),
        _ => None,
    }
}

/// What came of a try to share a publication.
#[derive(Clone, Copy)]
pub struct Tried {
    /// Whether the publication was written.
    pub written: bool,
    /// What is logged of it.
    pub event: Option<LogEvent>,
}

/// What opens the place of what is shared.
pub trait Opener<P> {
    /// The writers that it may open.
    ghost opens: { Self → TellerState P → Type 0 };

    /// The writer of the place. It may be opened again at any time.
    fn open(&self) -> Result<SharedTeller<P>, WriteFault>
        ensures { IfOk result (λ teller. opens self.now teller) };
}

/// The writer of a place as long as it can be written, the last publication that was written, and the break after a try
/// that failed.
#[derive(Drop)]
pub struct Sharing<O, P> {
    opener: O,
    teller: Option<SharedTeller<P>>,
    last: Option<SharedSpan>,
    broken: Option<Break>,
}

impl<P: Place + Drop, O: Opener<P>> Sharing<O, P> {
    /// The sharing into a place that is not opened yet.
    fn new(opener: O) -> Sharing<O, P>
        ensures { result ≡ record { opener = opener; teller = None; last = None; broken = None } }
    {
        Sharing {
            opener,
            teller: None,
            last: None,
            broken: None,
        }
    }

    /// Takes the writer of the place, which is opened first if it is not open.
    fn take(&mut self) -> Result<SharedTeller<P>, WriteFault>
        ensures opened { IfOk result (λ teller. IsOpen (O.opens self.old.opener) self.old.teller teller) }
        ensures refused { OnErr result (self.old.teller ≡ None) }
        ensures taken { self.new ≡ record self.old { teller = None } }
    {
        match self.teller.take() {
            Some(teller) => Ok(teller),
            None => self.opener.open(),
        }
    }

    /// Writes a publication into the place, which is opened first if it is not open. If it can't be written, the place is
    /// closed.
    fn write(&mut self, span: SharedSpan) -> Result<(), WriteFault>
        ensures written { OnOk result ((before after : TellerState P) × IsOpen (O.opens self.old.opener) self.old.teller before
            × Writes P.does span before after × (self.new ≡ record self.old { teller = Some after; last = Some span })) }
        ensures unwritten { OnErr result (self.new ≡ record self.old { teller = None }) }
        // A place that is open is not closed without a cause.
        ensures cause { (before : TellerState P) → self.old.teller ≡ Some before → OnErr result (CannotWrite P.does P.failed span before) }
    {
        let mut teller = self.take()?;
        teller.publish(&span)?;
        self.teller = Some(teller);
        self.last = Some(span);
        Ok(())
    }

    /// Keeps when the place is tried again after a try at the clock reading `now` that failed with this number, or did not
    /// fail. Answers what is logged of it. The first pause is `poll` nanoseconds.
    fn settle(&mut self, failed: Option<u16>, poll: u64, now: u64) -> Option<LogEvent>
        ensures told { result ≡ told_of (is_some self.old.broken) failed }
        ensures kept { self.new ≡ record self.old { broken = broken_after self.old.broken failed poll now } }
    {
        let event = told_of(self.broken.is_some(), failed);
        self.broken = match failed {
            Some(_) => Some(break_after(self.broken, poll, now)),
            None => None,
        };
        event
    }

    /// Opens the place at the start. Answers what is logged of it.
    fn begin(&mut self, poll: u64, now: u64) -> Option<LogEvent> {
        let failed = match self.take() {
            Ok(teller) => {
                self.teller = Some(teller);
                None
            }
            Err(fault) => Some(fault.number()),
        };
        self.settle(failed, poll, now)
    }

    /// Shares a publication when the clock shows `now`: writes it into the place, which is opened again after a break once
    /// its pause is over. The first pause is `poll` nanoseconds.
    fn put(&mut self, span: SharedSpan, poll: u64, now: u64) -> Tried
        // In a pause nothing is done.
        ensures pause { is_due self.old.broken now ≡ false → (self.new ≡ self.old) × (result ≡ record { written = false; event = None }) }
        // Where it answers that the publication was written, the place went on by its two writes, and by nothing else.
        ensures written { result.written ≡ true → (before after : TellerState P) × IsOpen (O.opens self.old.opener) self.old.teller before
            × Writes P.does span before after × (self.new ≡ record self.old { teller = Some after; last = Some span; broken = None })
            × (result.event ≡ told_of (is_some self.old.broken) None) }
        // Else the place is closed, and tried again after the pause.
        ensures unwritten { result.written ≡ false → is_due self.old.broken now ≡ true → (number : ℕ)
            × (self.new ≡ record self.old { teller = None; broken = Some (break_after self.old.broken poll now) })
            × (result.event ≡ told_of (is_some self.old.broken) (Some number)) }
        ensures cause { result.written ≡ false → is_due self.old.broken now ≡ true → (before : TellerState P) → self.old.teller ≡ Some before →
            CannotWrite P.does P.failed span before }
    {
        if !is_due(self.broken, now) {
            return Tried {
                written: false,
                event: None,
            };
        }
        let failed = number_in(self.write(span));
        let event = self.settle(failed, poll, now);
        Tried {
            written: failed.is_none(),
            event,
        }
    }
}

/// The number of the fault of a try, if it failed.
fn number_in(tried: Result<(), WriteFault>) -> Option<u16>
    ensures { result ≡ number_in tried }
{
    match tried {
        Ok(()) => None,
        Err(fault) => Some(fault.number()),
    }
}

/// The folder and the name of the shared file, and the clock by which it is: that of the machine.
#[derive(Clone, Copy)]
pub struct SharePath<'a> {
    pub folder: &'a str,
    pub name: &'a str,
    pub clock: HostClock,
}

/// Opens the shared file.
#[derive(Drop)]
struct FileOpener<'a, R> {
    rt: &'a R,
    alloc: Global,
    path: SharePath<'a>,
}

impl<'a, R: Files<File = File>> Opener<FilePlace<'a, R>> for FileOpener<'a, R> {
    ghost opens = { λ _ teller. teller.broken ≡ false };

    fn open(&self) -> Result<SharedTeller<FilePlace<'a, R>>, WriteFault> {
        let path = &self.path;
        open_file(self.rt, self.alloc, path.folder, path.name, path.clock)
    }
}

/// The sharing into the shared file, if there is one.
#[derive(Drop)]
pub struct Share<'a, R> {
    sharing: Option<Sharing<FileOpener<'a, R>, FilePlace<'a, R>>>,
}

impl<'a, R: Files<File = File>> Share<'a, R> {
    /// The sharing into the file at this path, which is not opened yet. None is shared without a path.
    pub fn new(rt: &'a R, alloc: Global, path: Option<SharePath<'a>>) -> Share<'a, R> {
        Share {
            sharing: match path {
                Some(path) => Some(Sharing::new(FileOpener { rt, alloc, path })),
                None => None,
            },
        }
    }

    /// Whether the file is open and its last write went well.
    pub fn is_written(&self) -> bool {
        match &self.sharing {
            Some(sharing) => sharing.teller.is_some(),
            None => false,
        }
    }

    /// The last publication in the file, if the file is open.
    pub fn last(&self) -> Option<SharedSpan> {
        match &self.sharing {
            Some(sharing) if sharing.teller.is_some() => sharing.last,
            _ => None,
        }
    }
}

impl<'a, R: Files<File = File>> Share<'a, R> {
    /// Opens the file at the start. Answers what is logged of it. The first pause is `poll` nanoseconds.
    pub fn begin(&mut self, poll: u64, now: u64) -> Option<LogEvent> {
        match &mut self.sharing {
            Some(sharing) => sharing.begin(poll, now),
            None => None,
        }
    }

    /// Shares a publication when the clock shows `now`: writes it into the file, which is opened again after a break once
    /// its pause is over. The first pause is `poll` nanoseconds.
    pub fn put(&mut self, span: SharedSpan, poll: u64, now: u64) -> Tried
        ensures some { result.written ≡ true → IsSome self.new.sharing }
        ensures written { result.written ≡ true → IfSome self.new.sharing (λ sharing. sharing.last ≡ Some span) }
    {
        match &mut self.sharing {
            Some(sharing) => sharing.put(span, poll, now),
            None => Tried {
                written: false,
                event: None,
            },
        }
    }
}
