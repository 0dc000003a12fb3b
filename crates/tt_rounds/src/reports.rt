//! What a call of a daemon's rounds reports of its last round.

ghost use Rattle.std.specs.Prelude.{◌≡◌, Some, None};
ghost use Rattle.tt_rounds.specs.Reports.{Accepts, Begins, Fuses, Polls, Refuses, after_event, fusion_of, no_report, told_by};

use tt_daemon::{DaemonFault, Fused, MAX_SOURCES};
use tt_source::SourceFault;

/// What came from a source in a round. Clock readings are in nanoseconds.
#[derive(Clone, Copy, Debug, PartialEq, Eq)]
pub enum SourceOutcome {
    /// No packet came from it.
    Silent,
    /// A packet was taken as its answer when the clock showed `received`. Packets of the source that were refused are
    /// not reported then.
    Accepted { received: u64 },
    /// Packets came, and none was taken. The last one was refused for this reason when the clock showed `received`.
    Refused { received: u64, fault: SourceFault },
}

/// What a round did with a source.
#[derive(Clone, Copy, Debug, PartialEq, Eq)]
pub struct SourceReport {
    /// What the clock showed, in nanoseconds, when the daemon polled the source, also if the link then failed. `None` if
    /// it did not poll it: it refused the poll, or the round ended before, or there is no such source.
    pub polled: Option<u64>,
    /// What came from the source.
    pub outcome: SourceOutcome,
}

/// What the last round of a call did.
#[derive(Drop)]
pub struct RoundReport {
    /// What the round fused, or why the daemon refused to fuse. `None` if the round ended before it fused, or if there
    /// was no round.
    pub fusion: Option<Result<Fused, DaemonFault>>,
    /// What the round did with each source, by the number of the source.
    pub sources: [SourceReport; MAX_SOURCES],
}

/// The report of a source that was not polled, and of which nothing came.
const SILENT: SourceReport = SourceReport {
    polled: None,
    outcome: SourceOutcome::Silent,
};

impl RoundReport {
    /// The report of no round: nothing was fused, and no source was polled or heard.
    pub fn new() -> RoundReport
        ensures fresh { told_by result ≡ no_report }
        ensures nothing { result.fusion ≡ None }
    {
        RoundReport {
            fusion: None,
            sources: [SILENT; MAX_SOURCES],
        }
    }

    /// A round begins. What was reported before is forgotten.
    pub(crate) fn begin(&mut self)
        ensures begins { told_by self.new ≡ after_event Begins (told_by self.old) }
        ensures nothing { self.new.fusion ≡ None }
    {
        self.fusion = None;
        self.sources = [SILENT; MAX_SOURCES];
    }

    /// The daemon polls a source when the clock shows `clock`.
    pub(crate) fn poll(&mut self, source: u8, clock: u64)
        ensures { told_by self.new ≡ after_event (Polls source clock) (told_by self.old) }
    {
        let place = usize::from(source);
        if place < MAX_SOURCES {
            self.sources[place].polled = Some(clock);
        }
    }

    /// The daemon takes a packet from a source when the clock shows `clock`.
    pub(crate) fn accept(&mut self, source: u8, clock: u64)
        ensures { told_by self.new ≡ after_event (Accepts source clock) (told_by self.old) }
    {
        let place = usize::from(source);
        if place < MAX_SOURCES {
            self.sources[place].outcome = SourceOutcome::Accepted { received: clock };
        }
    }

    /// The daemon refuses a packet from a source when the clock shows `clock`. A packet of the source that was taken
    /// before in this round stays reported.
    pub(crate) fn refuse(&mut self, source: u8, clock: u64, fault: SourceFault)
        ensures { told_by self.new ≡ after_event (Refuses source clock fault) (told_by self.old) }
    {
        let place = usize::from(source);
        if place < MAX_SOURCES {
            let before = self.sources[place].outcome;
            self.sources[place].outcome = match before {
                SourceOutcome::Accepted { received } => SourceOutcome::Accepted { received },
                _ => SourceOutcome::Refused {
                    received: clock,
                    fault,
                },
            };
        }
    }

    /// The daemon fuses what it knows, or refuses to.
    pub(crate) fn fuse(&mut self, fusion: Result<Fused, DaemonFault>)
        ensures fuses { told_by self.new ≡ after_event (Fuses (fusion_of fusion)) (told_by self.old) }
        ensures value { self.new.fusion ≡ Some fusion }
    {
        self.fusion = Some(fusion);
    }
}
