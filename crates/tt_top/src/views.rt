//! What is shown of a machine.

use arrayvec::ArrayVec;
use tt_span::Span;

/// What is shown of one source.
#[derive(Clone, Copy, Default)]
pub struct SourceView {
    /// Its number, from 0 on.
    pub number: u64,
    /// Its span at the last publication; none if it has never answered, or where there is no evidence.
    pub span: Option<Span>,
    /// Whether it is a suspect of the last fusion.
    pub suspect: bool,
    /// How long ago its last accepted answer came, in nanoseconds; none before the first.
    pub age: Option<u64>,
    /// The round trip of that answer, in nanoseconds.
    pub round_trip: Option<u64>,
    /// Whether its span holds the lower end of the fused one.
    pub holds_lower: bool,
    /// Whether its span holds the upper end of the fused one.
    pub holds_upper: bool,
    /// How many packets to it could not be sent.
    pub unsent: u64,
    /// How many packets from it did not open.
    pub unopened: u64,
}

/// How often there was what an operator may have to act on, since this life of the machine began.
#[derive(Clone, Copy, Default)]
pub struct SignCounts {
    /// Signs of a broken assumption.
    pub breaks: u64,
    /// Fusions that were refused with 504: more than f sources are faulty.
    pub no_point: u64,
    /// Fusions that were refused with 701: too few sources are known.
    pub too_few: u64,
    /// Rounds after which fewer than n - f sources had answered within three periods.
    pub stale: u64,
    /// Lines of the log, statuses and texts of evidence for which no place was free.
    pub left_out: u64,
}

/// Which life of which machine is shown, and how far it is.
#[derive(Clone, Copy, Default)]
pub struct Life {
    /// The number of the machine.
    pub machine: u64,
    /// The epoch of this life.
    pub epoch: u64,
    /// How many rounds were made.
    pub rounds: u64,
    /// How many of the sources have answered in this life.
    pub known: u64,
}

/// The commits of a machine.
#[derive(Clone, Copy, Default)]
pub struct CommitCounts {
    /// How many wait.
    pub waiting: u64,
    /// How many have waited.
    pub waited: u64,
    /// How long these have waited together, in nanoseconds.
    pub together: u64,
}

/// How the life before this one ended.
#[derive(Clone, Copy, Default)]
pub struct Broke {
    /// When it noticed that an assumption was broken, in nanoseconds since 1970; 0 if it did not.
    pub at: u64,
    /// Whether its publications did not meet: `assumption_broken`.
    pub by_assumption: bool,
    /// Whether its host slept: `host_slept`.
    pub by_sleep: bool,
    /// Whether its guest was disrupted: `guest_disrupted`.
    pub by_guest: bool,
}

/// What a machine shows of itself at one moment.
#[derive(Drop)]
pub struct View {
    /// Which life of which machine it is, and how far that is.
    pub life: Life,
    /// How many of the sources may be wrong; none where there is no evidence.
    pub faulty: Option<u64>,
    /// What is shown of each source, by number.
    pub sources: ArrayVec<SourceView, 16>,
    /// The fused span of the last publication; none where there is no evidence.
    pub fused: Option<Span>,
    /// The width of a reading now, in nanoseconds; none before the first publication.
    pub width: Option<u64>,
    /// The commits.
    pub commits: CommitCounts,
    /// Whether a shared file is written.
    pub sharing: bool,
    /// What an operator may have to act on.
    pub signs: SignCounts,
    /// How the life before this one ended.
    pub broke: Broke,
}
