//! The records of a round: what is counted, logged, shown and shared of it.

ghost use Rattle.std.specs.Prelude.{◌≡◌, ◌+◌, ◌<◌, ◌≤◌, ◌++◌, ◌∷◌, [], Some, map, length};
ghost use Rattle.tt_span.specs.Sources.{max_sources};
ghost use Rattle.tt_telemetry.specs.Records.{Shows, answers_again, counted_source, difference_of, each_after, ends_at, ends_of, event_about, event_of, events_in, events_of, has_answered, has_link_failed, has_unsent, is_accepted, is_silent, numbers_where, outcome_of, published_in, refusal_event, refusals_after, refused_answers, refused_event, report_at, some_event, span_of, suspects_in, totals_after};

use arrayvec::ArrayVec;
use tt_daemon::{DaemonFault, Fused, MAX_SOURCES};
use tt_fuse::suspects;
use tt_publish::{FusedSpan, PublishFault};
use tt_rounds::{NodeFault, RoundReport, Rounds, SourceOutcome, SourceReport};
use tt_shared::SharedSpan;
use tt_sharing::{RoundTerms, shared_of};
use tt_source::SourceFault;
use tt_span::Span;
use tt_status::{Difference, LogEvent, REASONS, RefusedFusion, refusal_place};

/// The most events of one round: four of each source, one of what the round came to, and one of its refused answers.
const MAX_EVENTS: usize = 66;

/// What a round came to.
#[derive(Clone, Copy)]
pub enum Outcome {
    /// A fusion was published, of this width in nanoseconds.
    Published { width: u64 },
    /// The fusion was refused.
    Refused(DaemonFault),
    /// The round ended with a fault: a device failed, or the fusion was not published.
    Failed(NodeFault),
    /// There was no round.
    Nothing,
}

/// In how many rounds a source was heard or not. Each count stays at 2^64 - 1 once it is reached.
#[derive(Clone, Copy)]
pub struct SourceTally {
    /// An answer was accepted.
    pub accepted: u64,
    /// Answers came, and all were refused.
    pub refused: u64,
    /// No answer came.
    pub silent: u64,
    /// Of those in which all were refused, how many for each reason of the last refusal, by [`refusal_place`].
    pub refusals: [u64; REASONS],
    /// Whether no answer was accepted in the last round; false before the first.
    pub unheard: bool,
}

/// Counts of what the rounds of a life have done so far. Each count stays at 2^64 - 1 once it is reached.
#[derive(Clone, Copy)]
pub struct Totals {
    pub rounds: u64,
    pub published: u64,
    pub refused_answers: u64,
    pub no_point: u64,
    pub too_few: u64,
    /// By the number of the source.
    pub each: [SourceTally; MAX_SOURCES],
}

/// How far the ends of a source's span lie from those of the fused span, in nanoseconds.
#[derive(Clone, Copy)]
pub struct Ends {
    pub lower: Difference,
    pub upper: Difference,
}

/// A publication, as the status shows it.
#[derive(Drop)]
pub struct Shown {
    /// What its readers see.
    pub fused: FusedSpan,
    /// The numbers of its suspects, ascending.
    pub suspects: ArrayVec<u8, MAX_SOURCES>,
    /// The ends of the span of each source that it was fused of.
    pub ends: [Option<Ends>; MAX_SOURCES],
}

/// For each source, how many packets to it could not be sent before a round and after it.
#[derive(Clone, Copy)]
pub struct UnsentPackets {
    pub before: [u64; MAX_SOURCES],
    pub after: [u64; MAX_SOURCES],
}

/// What is logged about a source.
#[derive(Clone, Copy)]
pub enum About {
    /// It is a suspect of the fusion.
    Suspect,
    /// No answer came from it.
    Silent,
    /// A packet to it could not be sent.
    Unsent,
    /// An answer of it was accepted, and none was in the round before.
    Answers,
}

impl About {
    /// The event of this source.
    fn event(self, source: u8) -> LogEvent
        ensures { result ≡ event_about self source }
    {
        let source = u64::from(source);
        match self {
            About::Suspect => LogEvent::SourceSuspect { source },
            About::Silent => LogEvent::SourceSilent { source },
            About::Unsent => LogEvent::SourceUnsent { source },
            About::Answers => LogEvent::SourceAnswers { source },
        }
    }
}

/// The events of a round, in order.
#[derive(Drop)]
pub struct Events {
    all: [LogEvent; MAX_EVENTS],
    count: usize,
}

impl Events {
    /// No events.
    fn new() -> Events
        ensures none { events_in result ≡ [] }
        ensures count { result.count ≡ 0 }
    {
        Events {
            all: [LogEvent::ClockBack; MAX_EVENTS],
            count: 0,
        }
    }

    /// Adds an event. Requires: there is room.
    fn push(&mut self, event: LogEvent)
        requires room { self.old.count < 66 }
        ensures events { events_in self.new ≡ events_in self.old ++ event ∷ [] }
        ensures count { self.new.count ≡ self.old.count + 1 }
    {
        self.all[self.count] = event;
        self.count += 1;
    }

    /// Adds an event, if there is one. Requires: there is room.
    fn push_some(&mut self, event: Option<LogEvent>)
        requires room { self.old.count < 66 }
        ensures events { events_in self.new ≡ events_in self.old ++ some_event event }
        ensures count { self.new.count ≤ self.old.count + 1 }
    {
        if let Some(event) = event {
            self.push(event);
        }
    }

    /// Adds an event about each of these sources. Requires: there is room.
    fn push_each(&mut self, about: About, sources: &[u8])
        requires room { self.old.count + length sources.now ≤ 66 }
        ensures events { events_in self.new ≡ events_in self.old ++ map (event_about about) sources.now }
        ensures count { self.new.count ≡ self.old.count + length sources.now }
    {
        for source in sources {
            self.push(about.event(*source));
        }
    }

    /// The events. Requires: there are not more than have room.
    pub fn as_slice(&self) -> &[LogEvent]
        requires in_range { self.now.count ≤ 66 }
        ensures value { result.now ≡ events_in self.now }
    {
        &self.all[..self.count]
    }
}

/// The records of a round.
#[derive(Drop)]
pub struct RoundRecords {
    /// What is logged.
    pub events: Events,
    /// What is counted, after the round.
    pub totals: Totals,
    /// What the status shows of its publication, if it made one.
    pub shown: Option<Shown>,
    /// What other processes read of its publication, if it made one.
    pub span: Option<SharedSpan>,
    /// Whether the socket failed, so that it has to be made anew.
    pub link_failed: bool,
    /// What the round came to.
    pub outcome: Outcome,
}

/// What a round came to.
fn outcome_of(did: &Result<Rounds, NodeFault>, report: &RoundReport) -> Outcome
    ensures value { result ≡ outcome_of did.now report.now.fusion }
{
    match did {
        Err(fault) => Outcome::Failed(*fault),
        Ok(_) => match &report.fusion {
            Some(Ok(fused)) => {
                let span = fused.span();
                Outcome::Published {
                    width: span.hi() - span.lo(),
                }
            }
            Some(Err(fault)) => Outcome::Refused(*fault),
            None => Outcome::Nothing,
        },
    }
}

/// How many packets were refused in a round, at most 2^64 - 1; 0 if a fault ended the round.
fn refused_answers(did: &Result<Rounds, NodeFault>) -> u64
    ensures value { result ≡ refused_answers did.now }
{
    match did {
        Ok(did) => {
            let packets = &did.tally.packets;
            packets
                .no_source
                .saturating_add(packets.clock_back)
                .saturating_add(packets.nonces_used_up)
                .saturating_add(packets.bad_message)
                .saturating_add(packets.not_mine)
                .saturating_add(packets.not_outstanding)
                .saturating_add(packets.other_epoch)
        }
        Err(_) => 0,
    }
}

/// Whether the socket failed in a round, so that it has to be made anew.
fn has_link_failed(outcome: &Outcome) -> bool
    ensures { result ≡ has_link_failed outcome.now }
{
    matches!(outcome, Outcome::Failed(NodeFault::LinkFailed))
}

/// The counts of the reasons after one more refusal.
fn refusals_after(refusals: &[u64; REASONS], fault: SourceFault) -> [u64; REASONS]
    ensures { result ≡ refusals_after refusals.now fault }
{
    let mut next = *refusals;
    let place = refusal_place(fault);
    next[place] = refusals[place].saturating_add(1);
    next
}

impl SourceTally {
    /// The counts after one more round, in which this came of the source.
    fn after(&self, outcome: SourceOutcome) -> SourceTally
        ensures value { result ≡ counted_source outcome self.now }
    {
        let mut next = *self;
        next.unheard = !is_accepted(&outcome);
        match outcome {
            SourceOutcome::Silent => next.silent = next.silent.saturating_add(1),
            SourceOutcome::Accepted { .. } => next.accepted = next.accepted.saturating_add(1),
            SourceOutcome::Refused { fault, .. } => {
                next.refused = next.refused.saturating_add(1);
                next.refusals = refusals_after(&self.refusals, fault);
            }
        }
        next
    }
}

/// The counts of each source after one more round with this report.
fn each_after(
    each: &[SourceTally; MAX_SOURCES],
    sources: &[SourceReport; MAX_SOURCES],
) -> [SourceTally; MAX_SOURCES]
    ensures value { result ≡ each_after each.now sources.now }
{
    let mut next = *each;
    for source in 0..MAX_SOURCES {
        next[source] = each[source].after(sources[source].outcome);
    }
    next
}

/// No round of the source is counted.
const NO_ROUND: SourceTally = SourceTally {
    accepted: 0,
    refused: 0,
    silent: 0,
    refusals: [0; REASONS],
    unheard: false,
};

impl Totals {
    /// The counts at the start: all 0.
    pub fn new() -> Totals
        ensures nothing { result.published ≡ 0 }
    {
        Totals {
            rounds: 0,
            published: 0,
            refused_answers: 0,
            no_point: 0,
            too_few: 0,
            each: [NO_ROUND; MAX_SOURCES],
        }
    }

    /// The counts after one more round, in which `refused` answers were refused.
    fn after(
        &self,
        outcome: &Outcome,
        refused: u64,
        sources: &[SourceReport; MAX_SOURCES],
    ) -> Totals
        ensures { result ≡ totals_after self.now outcome.now refused sources.now }
    {
        let mut next = *self;
        next.each = each_after(&self.each, sources);
        next.rounds = next.rounds.saturating_add(1);
        next.refused_answers = next.refused_answers.saturating_add(refused);
        match outcome {
            Outcome::Published { .. } => next.published = next.published.saturating_add(1),
            Outcome::Refused(DaemonFault::NoPoint) => {
                next.no_point = next.no_point.saturating_add(1)
            }
            Outcome::Refused(DaemonFault::Unknown) => {
                next.too_few = next.too_few.saturating_add(1)
            }
            Outcome::Refused(DaemonFault::ClockBack) | Outcome::Failed(_) | Outcome::Nothing => {}
        }
        next
    }
}

/// How far a time lies from another one.
fn difference_of(time: u64, from: u64) -> Difference
    ensures { result ≡ difference_of time from }
{
    if time < from {
        Difference {
            below: true,
            size: from - time,
        }
    } else {
        Difference {
            below: false,
            size: time - from,
        }
    }
}

/// How far the ends of the span of source `k` lie from those of the fused span; none if there is no such source.
fn ends_at(spans: &[Span], fused: &Span, k: usize) -> Option<Ends>
    ensures value { result ≡ ends_at spans.now fused.now k }
{
    match spans.get(k) {
        Some(span) => Some(Ends {
            lower: difference_of(span.lo(), fused.lo()),
            upper: difference_of(span.hi(), fused.hi()),
        }),
        None => None,
    }
}

/// How far the ends of the span of each source lie from those of the fused span.
fn ends_of(spans: &[Span], fused: &Span) -> [Option<Ends>; MAX_SOURCES]
    ensures value { result ≡ ends_of spans.now fused.now }
{
    let mut ends = [None; MAX_SOURCES];
    for source in 0..MAX_SOURCES {
        ends[source] = ends_at(spans, fused, source);
    }
    ends
}

/// What the status shows of a publication.
fn shown_of(fused: &Fused) -> Shown
    ensures value { Shows (Some fused.now) (Some result) }
{
    let span = fused.span();
    Shown {
        fused: FusedSpan {
            clock: fused.clock(),
            span,
        },
        suspects: suspects(fused.spans(), &span),
        ends: ends_of(fused.spans(), &span),
    }
}

/// What is shown and shared of the publication of a round that comes after these rounds, if it made one. What it fused
/// is published where no fault ended it. It rests on answers as new as the clock reading `needed`.
fn publication_of(
    did: &Result<Rounds, NodeFault>,
    report: &RoundReport,
    totals: &Totals,
    terms: &RoundTerms,
    needed: u64,
) -> (Option<Shown>, Option<SharedSpan>)
    ensures shown { Shows (published_in did.now report.now.fusion) result.0 }
    ensures span { result.1 ≡ span_of (published_in did.now report.now.fusion) totals.now terms.now needed }
{
    match did {
        Err(_) => (None, None),
        Ok(_) => match &report.fusion {
            Some(Ok(fused)) => {
                let number = totals.published.saturating_add(1);
                let span = shared_of(fused, number, needed, terms);
                (Some(shown_of(fused)), Some(span))
            }
            Some(Err(_)) => (None, None),
            None => (None, None),
        },
    }
}

/// The suspects of what is shown.
pub fn suspects_in(shown: &Option<Shown>) -> &[u8]
    ensures value { result.now ≡ suspects_in shown.now }
    ensures few { length result.now ≤ max_sources }
{
    match shown {
        Some(shown) => shown.suspects.as_slice(),
        None => &[],
    }
}

/// The event of a fusion that was refused.
fn refusal_event(fault: DaemonFault) -> LogEvent
    ensures { result ≡ refusal_event fault }
{
    match fault {
        DaemonFault::ClockBack => LogEvent::ClockBack,
        DaemonFault::NoPoint => LogEvent::FusionRefused {
            reason: RefusedFusion::NoPoint,
        },
        DaemonFault::Unknown => LogEvent::FusionRefused {
            reason: RefusedFusion::TooFewKnown,
        },
    }
}

/// The event of what a round came to, after `published` publications.
fn event_of(outcome: &Outcome, published: u64) -> Option<LogEvent>
    ensures { result ≡ event_of outcome.now published }
{
    match outcome {
        Outcome::Published { width } => {
            if published == 0 {
                Some(LogEvent::FirstPublication { width: *width })
            } else {
                None
            }
        }
        Outcome::Refused(fault) => Some(refusal_event(*fault)),
        Outcome::Failed(NodeFault::ClockFailed) => Some(LogEvent::ClockBack),
        Outcome::Failed(NodeFault::Publish(PublishFault::ClockBack)) => Some(LogEvent::ClockBack),
        Outcome::Failed(fault) => Some(LogEvent::RoundFailed {
            number: u64::from(fault.number()),
        }),
        Outcome::Nothing => None,
    }
}

/// The event of the answers that were refused in a round, if there were any.
fn refused_event(refused: u64) -> Option<LogEvent>
    ensures { result ≡ refused_event refused }
{
    if refused > 0 {
        Some(LogEvent::AnswersRefused { count: refused })
    } else {
        None
    }
}

/// Whether an answer of a source was accepted.
fn is_accepted(outcome: &SourceOutcome) -> bool
    ensures { result ≡ is_accepted outcome.now }
{
    matches!(outcome, SourceOutcome::Accepted { .. })
}

/// Whether an answer of a source was accepted in a round with this report, and none in the round before, by what is counted
/// of it.
fn has_answered(tally: &SourceTally, source: &SourceReport) -> bool
    ensures { result ≡ has_answered tally.now source.now }
{
    tally.unheard && is_accepted(&source.outcome)
}

/// Those of the first `count` sources of which an answer was accepted, and none in the round before.
fn answering_sources(
    each: &[SourceTally; MAX_SOURCES],
    sources: &[SourceReport; MAX_SOURCES],
    count: usize,
) -> ArrayVec<u8, MAX_SOURCES>
    requires few { count ≤ max_sources }
    ensures value { result.items ≡ numbers_where (answers_again each.now sources.now) count }
{
    let mut answering = ArrayVec::new();
    for source in 0..count {
        if has_answered(&each[source], &sources[source]) {
            answering.push(source as u8);
        }
    }
    answering
}

/// Whether no packet came from a source.
fn is_silent(outcome: &SourceOutcome) -> bool
    ensures { result ≡ is_silent outcome.now }
{
    matches!(outcome, SourceOutcome::Silent)
}

/// Those of the first `count` sources from which no packet came.
fn silent_sources(sources: &[SourceReport; MAX_SOURCES], count: usize) -> ArrayVec<u8, MAX_SOURCES>
    requires few { count ≤ max_sources }
    ensures value { result.items ≡ numbers_where (λ k. is_silent (report_at sources.now k).outcome) count }
{
    let mut silent = ArrayVec::new();
    for source in 0..count {
        if is_silent(&sources[source].outcome) {
            silent.push(source as u8);
        }
    }
    silent
}

/// Those of the first `count` sources to which a packet could not be sent in a round.
fn unsent_sources(unsent: &UnsentPackets, count: usize) -> ArrayVec<u8, MAX_SOURCES>
    requires few { count ≤ max_sources }
    ensures value { result.items ≡ numbers_where (has_unsent unsent.now) count }
{
    let mut lost = ArrayVec::new();
    for source in 0..count {
        if unsent.before[source] < unsent.after[source] {
            lost.push(source as u8);
        }
    }
    lost
}

/// What is logged of a round: its suspects, what it came to, its refused answers, its silent sources, those to which
/// a packet could not be sent, and those that answer again.
fn events_of(
    suspects: &[u8],
    outcome: Option<LogEvent>,
    refused: Option<LogEvent>,
    silent: &[u8],
    unsent: &[u8],
    answering: &[u8],
) -> Events
    requires few_suspects { length suspects.now ≤ max_sources }
    requires few_silent { length silent.now ≤ max_sources }
    requires few_unsent { length unsent.now ≤ max_sources }
    requires few_answering { length answering.now ≤ max_sources }
    ensures value { events_in result ≡ events_of suspects.now outcome refused silent.now unsent.now answering.now }
    ensures in_range { result.count ≤ 66 }
{
    let mut events = Events::new();
    events.push_each(About::Suspect, suspects);
    events.push_some(outcome);
    events.push_some(refused);
    events.push_each(About::Silent, silent);
    events.push_each(About::Unsent, unsent);
    events.push_each(About::Answers, answering);
    events
}

/// All records of a round that comes after the rounds of `totals`: of what the call of the round answered, what it
/// reported, and the packets that could not be sent. What it published rests on answers as new as the clock reading
/// `needed`.
///
/// What the round fused counts as published only if the call answered no fault.
pub fn records_of(
    did: &Result<Rounds, NodeFault>,
    report: &RoundReport,
    unsent: &UnsentPackets,
    totals: &Totals,
    terms: &RoundTerms,
    needed: u64,
) -> RoundRecords
    ensures events { events_in result.events ≡ events_of (suspects_in result.shown)
        (event_of (outcome_of did.now report.now.fusion) totals.now.published)
        (refused_event (refused_answers did.now))
        (numbers_where (λ k. is_silent (report_at report.now.sources k).outcome) terms.now.config.sources)
        (numbers_where (has_unsent unsent.now) terms.now.config.sources)
        (numbers_where (answers_again totals.now.each report.now.sources) terms.now.config.sources) }
    ensures in_range { result.events.count ≤ 66 }
    ensures totals { result.totals ≡ totals_after totals.now (outcome_of did.now report.now.fusion) (refused_answers did.now) report.now.sources }
    ensures shown { Shows (published_in did.now report.now.fusion) result.shown }
    ensures span { result.span ≡ span_of (published_in did.now report.now.fusion) totals.now terms.now needed }
    ensures link_failed { result.link_failed ≡ has_link_failed (outcome_of did.now report.now.fusion) }
    ensures outcome { result.outcome ≡ outcome_of did.now report.now.fusion }
{
    let outcome = outcome_of(did, report);
    let refused = refused_answers(did);
    let (shown, span) = publication_of(did, report, totals, terms, needed);
    let sources = terms.config.sources();
    let silent = silent_sources(&report.sources, sources);
    let lost = unsent_sources(unsent, sources);
    let answering = answering_sources(&totals.each, &report.sources, sources);
    let events = events_of(
        suspects_in(&shown),
        event_of(&outcome, totals.published),
        refused_event(refused),
        silent.as_slice(),
        lost.as_slice(),
        answering.as_slice(),
    );
    RoundRecords {
        events,
        totals: totals.after(&outcome, refused, &report.sources),
        shown,
        span,
        link_failed: has_link_failed(&outcome),
        outcome,
    }
}
