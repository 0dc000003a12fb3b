//! How a master answers polls: honestly, or with acts for tests.

ghost use Rattle.std.specs.Prelude.{◌≡◌, None};
ghost use Rattle.ttd_masters.specs.Playing.{event_of, failure_event, is_wide_after, silence_after, silence_in, tells, widest_after, width_event, width_in};

use crate::clocks::RealTime;
use crate::hosts::AsksServers;
use crate::references::KnownTime;
use std::sync::Wait;
use std::thread;
use std::time::{Clock as SystemClock, Duration};
use tt_answers::{Tally, Turn, answer_turn};
use tt_master::{Act, Master, NoAnswer, Silence, SpanMaster};
use tt_poll::{Request, encode_request};
use tt_report::Reporter;
use tt_rounds::{Link, master_rounds};
use tt_status::LogEvent;

/// How long a master waits after a failure before it goes on, in milliseconds.
const PAUSE: u64 = 100;

/// Why a turn found nothing to answer with, if it did.
fn silence_in(turn: &Turn) -> Option<Silence>
    ensures { result ≡ silence_in turn.now }
{
    match turn {
        Turn::Unanswered(NoAnswer::Silent(silence)) => Some(*silence),
        _ => None,
    }
}

/// What is logged where a master has nothing to answer with.
fn event_of(silence: Silence) -> LogEvent
    ensures { result ≡ event_of silence }
{
    match silence {
        Silence::Stepped => LogEvent::ClockStepped,
        other => LogEvent::MasterSilent {
            number: u64::from(other.number()),
        },
    }
}

/// Why the master is silent after a turn that found nothing to answer with, or answered. A turn that did neither tells
/// nothing.
fn silence_after(
    before: Option<Silence>,
    silence: Option<Silence>,
    width: Option<u64>,
) -> Option<Silence>
    ensures { result ≡ silence_after before silence width }
{
    match (silence, width) {
        (Some(silence), _) => Some(silence),
        (None, Some(_)) => None,
        (None, None) => before,
    }
}

/// Whether a turn found nothing to answer with, or answered.
fn tells(silence: Option<Silence>, width: Option<u64>) -> bool
    ensures { result ≡ tells silence width }
{
    silence.is_some() || width.is_some()
}

/// How wide the answer of a turn is in nanoseconds, if a poll was answered.
fn width_in(turn: &Turn) -> Option<u64>
    ensures { result ≡ width_in turn.now }
{
    match turn {
        Turn::Answered(span) => Some(span.hi() - span.lo()),
        _ => None,
    }
}

/// The greatest width of the answers so far and one more, in nanoseconds.
fn widest_after(before: Option<u64>, width: Option<u64>) -> Option<u64>
    ensures { result ≡ widest_after before width }
{
    match (before, width) {
        (Some(widest), Some(width)) => Some(widest.max(width)),
        (None, width) => width,
        (widest, None) => widest,
    }
}

/// Whether the last answer was wider than the limit, if there is one, in nanoseconds, after a turn with an answer of this width or
/// with none.
fn is_wide_after(was_wide: bool, width: Option<u64>, limit: Option<u64>) -> bool
    ensures { result ≡ is_wide_after was_wide width limit }
{
    match (width, limit) {
        (Some(width), Some(limit)) => limit < width,
        _ => was_wide,
    }
}

/// What is logged of the width of an answer in nanoseconds, if there is one and a limit: that it is wider, each time; and the first
/// time after that, that it is not. `was_wide` says whether the answer before was.
fn width_event(was_wide: bool, width: Option<u64>, limit: Option<u64>) -> Option<LogEvent>
    ensures value { result ≡ width_event was_wide width limit }
{
    match (width, limit) {
        (Some(width), Some(limit)) if limit < width => Some(LogEvent::WidthAbove { width, limit }),
        (Some(_), Some(_)) if was_wide => Some(LogEvent::WidthInBounds),
        _ => None,
    }
}

/// What is logged of a turn: that it failed with this number, each time; and the first one after that that did not.
fn failure_event(had_failed: bool, number: Option<u64>) -> Option<LogEvent>
    ensures value { result ≡ failure_event had_failed number }
{
    match number {
        Some(number) => Some(LogEvent::MasterFailed { number }),
        None if had_failed => Some(LogEvent::MasterResumed),
        None => None,
    }
}

/// A master that answers what it knows.
#[derive(Drop)]
pub(crate) struct Honest<'a, H> {
    master: SpanMaster<KnownTime<'a, H>>,
    tally: Tally,
    /// The greatest width of an answer since the last status, in nanoseconds.
    widest: Option<u64>,
    /// Why it answers no poll, if it does not.
    silence: Option<Silence>,
    /// Whether a turn told that since the last look.
    has_told: bool,
    warn_width: Option<u64>,
    /// Whether the last answer was wider than that.
    is_wide: bool,
    /// Whether the last turn failed.
    has_failed: bool,
}

impl<'a, H: Wait + SystemClock + AsksServers> Honest<'a, H> {
    /// The master over this, which logs an answer that is wider than the limit in nanoseconds.
    pub(crate) fn new(master: SpanMaster<KnownTime<'a, H>>, warn_width: Option<u64>) -> Self {
        Honest {
            master,
            tally: Tally::new(),
            widest: None,
            silence: None,
            has_told: false,
            warn_width,
            is_wide: false,
            has_failed: false,
        }
    }

    /// What it did so far.
    pub(crate) fn tally(&self) -> &Tally
        ensures { result.now ≡ self.now.tally }
    {
        &self.tally
    }

    /// The greatest width of an answer since the last call, in nanoseconds.
    pub(crate) fn take_widest(&mut self) -> Option<u64>
        ensures taken { result ≡ self.old.widest }
        ensures after { self.new.widest ≡ None }
        ensures same { self.new.tally ≡ self.old.tally }
    {
        self.widest.take()
    }

    /// What it knows the time from.
    pub(crate) fn known(&self) -> &KnownTime<'a, H> {
        self.master.reference()
    }

    /// Counts a turn.
    fn count(&mut self, turn: Turn) {
        self.tally.count(turn)
    }

    /// Why it answers no poll, if it does not.
    pub(crate) fn silence(&self) -> Option<Silence>
        ensures { result ≡ self.now.silence }
    {
        self.silence
    }

    /// Looks what it would answer a poll with, unless a turn told that since the last look: asks itself, as this source.
    fn look<R: Wait + SystemClock>(&mut self, rt: &R, reporter: &Reporter, source: u8) {
        let has_told = self.has_told;
        self.has_told = false;
        let Ok(request) = Request::new(0, source, 1) else {
            return;
        };
        if has_told {
            return;
        }
        let turn = match self.master.answer(&encode_request(&request)) {
            Ok((span, _)) => Turn::Answered(span),
            Err(why) => Turn::Unanswered(why),
        };
        self.note_silence(rt, reporter, silence_in(&turn), width_in(&turn))
    }

    /// Logs why it answers no poll, and that it answers again.
    fn note_silence<R: Wait + SystemClock>(
        &mut self,
        rt: &R,
        reporter: &Reporter,
        silence: Option<Silence>,
        width: Option<u64>,
    ) {
        if let Some(silence) = silence {
            reporter.log(rt, event_of(silence))
        }
        if width.is_some() && self.silence.is_some() {
            reporter.log(rt, LogEvent::MasterAnswers)
        }
        self.silence = silence_after(self.silence, silence, width);
    }

    /// Logs what an operator may have to act on: why a turn found nothing to answer with, or how wide its answer was.
    fn note<R: Wait + SystemClock>(
        &mut self,
        rt: &R,
        reporter: &Reporter,
        silence: Option<Silence>,
        width: Option<u64>,
    ) {
        self.note_silence(rt, reporter, silence, width);
        if let Some(event) = width_event(self.is_wide, width, self.warn_width) {
            reporter.log(rt, event)
        }
        self.is_wide = is_wide_after(self.is_wide, width, self.warn_width);
        self.has_told |= tells(silence, width);
        self.widest = widest_after(self.widest, width)
    }
}

/// A master that plays acts, for tests.
#[derive(Drop)]
pub(crate) struct Acting<'a, H> {
    master: Master<RealTime<'a, H>>,
    acts: &'a [Act],
    played: usize,
    /// Whether the last turn failed.
    has_failed: bool,
}

impl<'a, H: Wait + SystemClock + AsksServers> Acting<'a, H> {
    /// The master that plays these acts, and the last of them for all further polls.
    pub(crate) fn new(master: Master<RealTime<'a, H>>, acts: &'a [Act]) -> Self {
        Acting {
            master,
            acts,
            played: 0,
            has_failed: false,
        }
    }
}

/// How a master answers polls.
#[derive(Drop)]
pub(crate) enum Player<'a, H> {
    /// With what it knows.
    Honest(Honest<'a, H>),
    /// With acts.
    Acting(Acting<'a, H>),
}

impl<'a, H: Wait + SystemClock + AsksServers> Player<'a, H> {
    /// Why it answers no poll, if it does not: it looks itself where nobody asked it for a second. One that plays acts answers.
    pub(crate) fn look(&mut self, rt: &H, reporter: &Reporter, source: u8) -> Option<Silence> {
        match self {
            Player::Honest(honest) => {
                honest.look(rt, reporter, source);
                honest.silence()
            }
            Player::Acting(_) => None,
        }
    }
}

/// Takes one turn: answers a poll that comes.
pub(crate) fn take_turn<H: Wait + SystemClock + AsksServers, L: Link>(
    rt: &H,
    reporter: &Reporter,
    link: &mut L,
    player: &mut Player<'_, H>,
) {
    match player {
        Player::Honest(honest) => answer(rt, reporter, link, honest),
        Player::Acting(acting) => act(rt, reporter, link, acting),
    }
}

/// Answers a poll that comes with what the master knows.
fn answer<H: Wait + SystemClock + AsksServers, L: Link>(
    rt: &H,
    reporter: &Reporter,
    link: &mut L,
    honest: &mut Honest<'_, H>,
) {
    match answer_turn(link, &mut honest.master) {
        Ok(turn) => {
            let silence = silence_in(&turn);
            let width = width_in(&turn);
            honest.count(turn);
            honest.note(rt, reporter, silence, width);
            end_turn(rt, reporter, &mut honest.has_failed, None)
        }
        Err(fault) => {
            let number = Some(u64::from(fault.number()));
            end_turn(rt, reporter, &mut honest.has_failed, number)
        }
    }
}

/// For a poll that comes it does the act that is next.
fn act<H: Wait + SystemClock + AsksServers, L: Link>(
    rt: &H,
    reporter: &Reporter,
    link: &mut L,
    acting: &mut Acting<'_, H>,
) {
    let Some(last) = acting.acts.len().checked_sub(1) else {
        return;
    };
    let left = &acting.acts[acting.played.min(last)..];
    let number = match master_rounds(link, &mut acting.master, left, 1) {
        Ok(played) => {
            if played > 0 {
                acting.played = acting.played.saturating_add(1);
            }
            None
        }
        Err(fault) => Some(u64::from(fault.number())),
    };
    end_turn(rt, reporter, &mut acting.has_failed, number)
}

/// Logs that a turn failed with this number, or that turns do not fail any more. After a failure it waits before it goes on.
fn end_turn<H: Wait + SystemClock + AsksServers>(
    rt: &H,
    reporter: &Reporter,
    has_failed: &mut bool,
    number: Option<u64>,
) {
    if let Some(event) = failure_event(*has_failed, number) {
        reporter.log(rt, event)
    }
    *has_failed = number.is_some();
    if *has_failed {
        thread::sleep(rt, Duration::from_millis(PAUSE))
    }
}
