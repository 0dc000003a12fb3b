//! Which lines are logged, and how many were left out.

ghost use Rattle.std.specs.Prelude.{◌≡◌, ◌<◌, ◌∷◌, List, [], ℕ, IfSome};
ghost use Rattle.tt_report.specs.Log.{kind_of, one_kind, turned_by, two_kinds};
ghost use Rattle.tt_report.specs.Left.{Happened, KindStandsFor, StandsFor, of_kind, answer_of, released_of, after_turn, after_turns};
ghost use Rattle.tt_report.specs.Left.Happened.{asked, looked, turned, settled};

use tt_status::{Limit, LogEvent, LogLine, RefusedFusion};

/// The number of kinds of lines.
pub(crate) const KINDS: usize = 208;

/// The kind of the lines that say that source 0 is silent. The kinds of the other sources follow.
const SILENT: usize = 48;

/// The kind of the lines that say that source 0 is a suspect. The kinds of the other sources follow.
const SUSPECT: usize = 64;

/// The kind of the lines that say that a packet to source 0 could not be sent. The kinds of the other sources follow.
const UNSENT: usize = 80;

/// The kind of the lines that say that the name of source 0 has no address. The kinds of the other sources follow.
const UNRESOLVED: usize = 96;

/// The kind of the lines that say that the name of source 0 has an address. The kinds of the other sources follow.
const RESOLVED: usize = 112;

/// The kind of the lines that say that a reply of server 0 was refused. The kinds of the other servers follow.
const REFUSED: usize = 128;

/// The kind of the lines that say that no reply of server 0 came. The kinds of the other servers follow.
const UNHEARD: usize = 144;

/// The kind of the lines that say that source 0 answers again. The kinds of the other sources follow.
const ANSWERS: usize = 160;

/// The kind of the lines that say that source 0 is no suspect any more. The kinds of the other sources follow.
const AGREES: usize = 176;

/// The kind of the lines that say that server 0 answers again. The kinds of the other servers follow.
const HEARD: usize = 192;

/// The kind of an event. Of each kind a line is logged, and the next one after a pause. Each
/// reason for which a fusion is refused has a kind of its own, and each source and each server of a master has kinds of its own.
fn kind_of(event: LogEvent) -> usize
    ensures value { result ≡ kind_of event }
    ensures in_range { result < 208 }
{
    match event {
        LogEvent::Started { .. } => 0,
        LogEvent::FirstPublication { .. } => 1,
        LogEvent::Ended => 2,
        LogEvent::ClockBack => 3,
        LogEvent::FusionRefused {
            reason: RefusedFusion::NoPoint,
        } => 4,
        LogEvent::FusionRefused {
            reason: RefusedFusion::TooFewKnown,
        } => 5,
        LogEvent::AnswersRefused { .. } => 6,
        LogEvent::RoundFailed { .. } => 7,
        LogEvent::SharingEnded { .. } => 8,
        LogEvent::StatusUnwritten { .. } => 9,
        LogEvent::NotAccepted { .. } => 10,
        LogEvent::MasterStarted { .. } => 11,
        LogEvent::MasterFailed { .. } => 12,
        LogEvent::StateLoose => 13,
        LogEvent::EpochLoose => 14,
        LogEvent::SharedLoose => 15,
        LogEvent::SocketRenewed { .. } => 16,
        LogEvent::SharingResumed => 17,
        LogEvent::PublicationSlow { .. } => 18,
        LogEvent::AssumptionBroken { .. } => 19,
        LogEvent::HostSlept { .. } => 20,
        LogEvent::GuestDisrupted => 21,
        LogEvent::SleepUnseen => 22,
        LogEvent::SourcesStale { .. } => 23,
        LogEvent::StartPaused { .. } => 24,
        LogEvent::EvidenceUnwritten { .. } => 25,
        LogEvent::Stranger { .. } => 26,
        LogEvent::KeysRead { .. } => 27,
        LogEvent::KeysRefused { .. } => 28,
        LogEvent::AddressAwaited { .. } => 29,
        LogEvent::MasterSilent { .. } => 30,
        LogEvent::MasterAnswers => 31,
        LogEvent::WidthAbove { .. } => 32,
        LogEvent::ClockStepped => 33,
        LogEvent::PollsUnopened { .. } => 34,
        LogEvent::SlewTooFast { .. } => 35,
        LogEvent::SlewInBounds => 36,
        LogEvent::StatusWritten => 37,
        LogEvent::EvidenceWritten => 38,
        LogEvent::WidthInBounds => 39,
        LogEvent::Descriptors { .. } => 40,
        LogEvent::StoodStill { .. } => 41,
        LogEvent::FusionPublished => 42,
        LogEvent::SourcesFresh => 43,
        LogEvent::RoundsResumed => 44,
        LogEvent::SleepSeen => 45,
        LogEvent::MasterResumed => 46,
        LogEvent::SourceSilent { source } => SILENT + source.min(15) as usize,
        LogEvent::SourceSuspect { source } => SUSPECT + source.min(15) as usize,
        LogEvent::SourceUnsent { source } => UNSENT + source.min(15) as usize,
        LogEvent::SourceUnresolved { source } => UNRESOLVED + source.min(15) as usize,
        LogEvent::SourceResolved { source, .. } => RESOLVED + source.min(15) as usize,
        LogEvent::ServerRefused { server, .. } => REFUSED + server.min(15) as usize,
        LogEvent::ServerSilent { server } => UNHEARD + server.min(15) as usize,
        LogEvent::SourceAnswers { source } => ANSWERS + source.min(15) as usize,
        LogEvent::SourceAgrees { source } => AGREES + source.min(15) as usize,
        LogEvent::ServerAnswers { server } => HEARD + server.min(15) as usize,
    }
}

/// Up to three kinds of lines.
#[derive(Clone, Copy)]
struct Turned {
    first: Option<usize>,
    second: Option<usize>,
    third: Option<usize>,
}

/// No kind of lines.
const NOTHING: Turned = Turned {
    first: None,
    second: None,
    third: None,
};

/// One kind of lines.
fn one(kind: usize) -> Turned
    ensures { result ≡ one_kind kind }
{
    Turned {
        first: Some(kind),
        second: None,
        third: None,
    }
}

/// Two kinds of lines.
fn two(first: usize, second: usize) -> Turned
    ensures { result ≡ two_kinds first second }
{
    Turned {
        first: Some(first),
        second: Some(second),
        third: None,
    }
}

/// The kinds of the lines that tell of the contrary of an event: that a trouble is over, or that it has begun.
fn turned_by(event: LogEvent) -> Turned
    ensures value { result ≡ turned_by event }
    ensures first_in_range { IfSome result.first (λ kind. kind < 208) }
    ensures second_in_range { IfSome result.second (λ kind. kind < 208) }
    ensures third_in_range { IfSome result.third (λ kind. kind < 208) }
{
    match event {
        LogEvent::SharingEnded { .. } => one(17),
        LogEvent::SharingResumed => one(8),
        LogEvent::KeysRead { .. } => one(28),
        LogEvent::KeysRefused { .. } => one(27),
        LogEvent::MasterSilent { .. } => one(31),
        LogEvent::MasterAnswers => one(30),
        LogEvent::MasterFailed { .. } => one(46),
        LogEvent::MasterResumed => one(12),
        LogEvent::SlewTooFast { .. } => one(36),
        LogEvent::SlewInBounds => one(35),
        LogEvent::SourceUnresolved { source } => one(RESOLVED + source.min(15) as usize),
        LogEvent::SourceResolved { source, .. } => one(UNRESOLVED + source.min(15) as usize),
        LogEvent::SourceSilent { source } | LogEvent::SourceUnsent { source } => {
            one(ANSWERS + source.min(15) as usize)
        }
        LogEvent::SourceAnswers { source } => two(
            SILENT + source.min(15) as usize,
            UNSENT + source.min(15) as usize,
        ),
        LogEvent::SourceSuspect { source } => one(AGREES + source.min(15) as usize),
        LogEvent::SourceAgrees { source } => one(SUSPECT + source.min(15) as usize),
        LogEvent::FusionRefused { .. } => one(42),
        LogEvent::FusionPublished => two(4, 5),
        LogEvent::RoundFailed { .. } | LogEvent::SocketRenewed { .. } | LogEvent::ClockBack => {
            one(44)
        }
        LogEvent::RoundsResumed => Turned {
            first: Some(7),
            second: Some(16),
            third: Some(3),
        },
        LogEvent::SourcesStale { .. } => one(43),
        LogEvent::SourcesFresh => one(23),
        LogEvent::SleepUnseen => one(45),
        LogEvent::SleepSeen => one(22),
        LogEvent::ServerRefused { server, .. } | LogEvent::ServerSilent { server } => {
            one(HEARD + server.min(15) as usize)
        }
        LogEvent::ServerAnswers { server } => two(
            REFUSED + server.min(15) as usize,
            UNHEARD + server.min(15) as usize,
        ),
        LogEvent::StatusUnwritten { .. } => one(37),
        LogEvent::StatusWritten => one(9),
        LogEvent::EvidenceUnwritten { .. } => one(38),
        LogEvent::EvidenceWritten => one(25),
        LogEvent::WidthAbove { .. } => one(39),
        LogEvent::WidthInBounds => one(32),
        LogEvent::Started { .. }
        | LogEvent::FirstPublication { .. }
        | LogEvent::Ended
        | LogEvent::AnswersRefused { .. }
        | LogEvent::NotAccepted { .. }
        | LogEvent::MasterStarted { .. }
        | LogEvent::StateLoose
        | LogEvent::EpochLoose
        | LogEvent::SharedLoose
        | LogEvent::PublicationSlow { .. }
        | LogEvent::AssumptionBroken { .. }
        | LogEvent::HostSlept { .. }
        | LogEvent::GuestDisrupted
        | LogEvent::StartPaused { .. }
        | LogEvent::Stranger { .. }
        | LogEvent::AddressAwaited { .. }
        | LogEvent::ClockStepped
        | LogEvent::PollsUnopened { .. }
        | LogEvent::Descriptors { .. }
        | LogEvent::StoodStill { .. } => NOTHING,
    }
}

/// An event that was to be logged, and when, in nanoseconds since 1970.
#[derive(Clone, Copy)]
pub(crate) struct Asked {
    pub(crate) time: u64,
    pub(crate) event: LogEvent,
}

/// What is kept of one kind of line: its limit, the newest line that was to be logged, and how many lines found no place, with
/// those that they would have told of, since a line of the kind found one.
#[derive(Clone, Copy)]
struct Kind {
    limit: Limit,
    newest: Option<Asked>,
    missed: u64,
}

impl Kind {
    /// No line was logged so far.
    fn new() -> Kind
        ensures nothing { KindStandsFor [] result }
    {
        Kind {
            limit: Limit::new(),
            newest: None,
            missed: 0,
        }
    }

    /// Whether a line of this kind is handed over at this reading of one clock, and how many it says were left out.
    fn admit(&mut self, line: Asked, now: u64) -> Option<u64>
        ensures says { (past : List Happened) → KindStandsFor past self.old → result ≡ answer_of past now }
        ensures stands { (past : List Happened) → KindStandsFor past self.old → KindStandsFor (asked line now ∷ past) self.new }
    {
        self.newest = Some(line);
        let left_out = self.limit.admit(now)?;
        let told = left_out.saturating_add(self.missed);
        self.missed = 0;
        Some(told)
    }

    /// The newest line that was left out, if it is to be handed over now, with how many others it says were left out.
    fn release(&mut self, now: u64) -> Option<LogLine>
        ensures says { (past : List Happened) → KindStandsFor past self.old → result ≡ released_of past now }
        ensures stands { (past : List Happened) → KindStandsFor past self.old → KindStandsFor (looked now ∷ past) self.new }
    {
        let others = self.limit.release(now)?;
        let left_out = others.saturating_add(self.missed);
        self.missed = 0;
        let Asked { time, event } = self.newest?;
        Some(LogLine {
            time,
            event,
            left_out,
        })
    }

    /// What lines of this kind tell of has changed.
    fn turn(&mut self)
        ensures stands { (past : List Happened) → KindStandsFor past self.old → KindStandsFor (turned ∷ past) self.new }
    {
        self.limit.turn();
    }

    /// A line that said `told` were left out found a place if it `fits`. If not, it and those are told of later.
    fn settle(&mut self, told: u64, fits: bool)
        ensures stands { (past : List Happened) → KindStandsFor past self.old → KindStandsFor (settled told fits ∷ past) self.new }
    {
        if !fits {
            self.missed = self.missed.saturating_add(told).saturating_add(1);
        }
    }
}

/// The limit of each kind of line.
#[derive(Drop)]
pub(crate) struct LogLimits {
    kinds: [Kind; KINDS],
}

impl LogLimits {
    /// The limits when no line was logged so far.
    pub(crate) fn new() -> LogLimits
        ensures nothing { StandsFor [] result }
    {
        LogLimits {
            kinds: [Kind::new(); KINDS],
        }
    }

    /// Whether the line of an event is handed over when the clock shows `now`, in nanoseconds. `Some` says that it is,
    /// and how many lines of its kind were left out before. `None` says that it is left out, and waits.
    pub(crate) fn admit(&mut self, line: Asked, now: u64) -> Option<u64>
        ensures says { (past : List (ℕ × Happened)) → StandsFor past self.old → result ≡ answer_of (of_kind (kind_of line.event) past) now }
        ensures stands { (past : List (ℕ × Happened)) → StandsFor past self.old → StandsFor ((kind_of line.event, asked line now) ∷ past) self.new }
    {
        self.kinds[kind_of(line.event)].admit(line, now)
    }

    /// The newest line of a kind that was left out, if it is to be handed over when the clock shows `now`.
    pub(crate) fn release(&mut self, kind: usize, now: u64) -> Option<LogLine>
        requires in_range { kind < 208 }
        ensures says { (past : List (ℕ × Happened)) → StandsFor past self.old → result ≡ released_of (of_kind kind past) now }
        ensures stands { (past : List (ℕ × Happened)) → StandsFor past self.old → StandsFor ((kind, looked now) ∷ past) self.new }
    {
        self.kinds[kind].release(now)
    }

    /// An event is to be logged: of its contraries no line waits any more, and the pauses are as at first.
    pub(crate) fn turn(&mut self, event: LogEvent)
        ensures stands { (past : List (ℕ × Happened)) → StandsFor past self.old → StandsFor (after_turns (turned_by event) past) self.new }
    {
        let turned = turned_by(event);
        self.turn_kind(turned.first);
        self.turn_kind(turned.second);
        self.turn_kind(turned.third);
    }

    /// What lines of a kind tell of has changed, if there is one.
    fn turn_kind(&mut self, kind: Option<usize>)
        requires in_range { IfSome kind (λ kind. kind < 208) }
        ensures stands { (past : List (ℕ × Happened)) → StandsFor past self.old → StandsFor (after_turn kind past) self.new }
    {
        let Some(kind) = kind else {
            return;
        };
        self.kinds[kind].turn();
    }

    /// A line that was handed over and says that `told` were left out found a place if it `fits`. If not, the next line
    /// of its kind says `told` and one more.
    pub(crate) fn settle(&mut self, event: LogEvent, told: u64, fits: bool)
        ensures stands { (past : List (ℕ × Happened)) → StandsFor past self.old → StandsFor ((kind_of event, settled told fits) ∷ past) self.new }
    {
        self.kinds[kind_of(event)].settle(told, fits)
    }
}
