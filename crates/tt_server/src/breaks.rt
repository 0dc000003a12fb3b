//! The record of the last break in the folder of the state, and the pause before a start that follows it. And what a break
//! means.

ghost use Rattle.std.specs.Prelude.{◌≡◌, ◌⊎◌, ℕ, ◌+◌, ◌-◌, ◌^◌, ◌<◌, ◌≤◌, List, [], ◌∷◌, ◌++◌, length, map, slice_get, Some, IfSome};
ghost use Rattle.tt_span.specs.Time.{max_time};
ghost use Rattle.tt_span.specs.Drift.{KeepsDrift};
ghost use Rattle.tt_publish.specs.Reading.{fused_span_of};
ghost use Rattle.tt_publish.specs.declared.readings.FusedSpan.{FusedSpan as TheFused};
ghost use Rattle.tt_health.specs.Break.{IsUnmet};
ghost use Rattle.tt_settings.specs.Settings.{Meaning};
ghost use Rattle.tt_status.specs.Reason.{number_of, reason_told};
ghost use Rattle.tt_telemetry.specs.Notice.{event_of_unmet};
ghost use Rattle.tt_consistency.specs.Calls.{RoundsCall, calls_steps, kept_after};
ghost use Rattle.tt_consistency.specs.Faulty.{FewFaulty};
ghost use Rattle.tt_consistency.specs.Lives.{begun_in};
ghost use Rattle.tt_consistency.specs.Timeline.{AreOfTime, IsTimeline, Timed, moments_told, steps_told};
ghost use Rattle.tt_server.specs.Break.{broken_by};
ghost use Rattle.tt_server.specs.Life.{ServerLife, TellsOf};
ghost use Rattle.tt_server.specs.declared.lives.LifeEnd.{LifeEnd as TheEnd};

use std::alloc::Global;
use std::fs::{File, Files, OpenOptions};
use std::sync::Wait;
use std::thread;
use std::time::{Clock as SystemClock, Duration};
use tt_clock::reading_of;
use tt_files::{open_regular, replace};
use tt_health::{
    BreakMoment, BreakRecord, breaks_in_a_row, pause_before_start, record_after, record_of,
    record_text,
};
use tt_host::{nanoseconds, read_start};
use tt_report::Reporter;
use tt_settings::OnBreak;
use tt_status::{BreakReason, LogEvent};
use tt_telemetry::Unmet;

/// The most bytes of a record that are read.
const MOST: usize = 120;

/// The permissions of a record: its owner alone may read and write it.
const MODE: u32 = 0o600;

/// The record of the last break, if there is one that can be read.
fn record_in<R: Files<File = File>>(rt: &R, alloc: Global, folder: &str) -> Option<BreakRecord> {
    let path = format!(in alloc; "{folder}/break").ok()?;
    let mut how = OpenOptions::new();
    how.read(true);
    let mut file = open_regular(rt, path.as_str(), &how).ok()?;
    let mut bytes = [0; MOST];
    let count = read_start(&mut file, &mut bytes).ok()?;
    record_of(bytes.get(..count)?)
}

/// Pauses before a start that follows breaks less than a minute ago: a tenth of a second after the first, twice as long
/// after each further one, and at most thirty seconds. It is logged. Answers what is recorded of the last break.
pub(crate) fn pause_after_breaks<R: Wait + SystemClock + Files<File = File>>(
    rt: &R,
    alloc: Global,
    reporter: &Reporter,
    folder: &str,
) -> Option<BreakRecord> {
    let last = record_in(rt, alloc, folder);
    if let Some(now) = reading_of(rt) {
        let breaks = breaks_in_a_row(last, now);
        let pause = pause_before_start(breaks);
        if pause > 0 {
            reporter.log(rt, LogEvent::StartPaused { pause, breaks });
            thread::sleep(rt, Duration::from_nanos(pause));
        }
    }
    last
}

/// When it is, if that can be read, and why a life broke.
fn moment_of<R: SystemClock>(rt: &R, reason: BreakReason) -> Option<BreakMoment>
    ensures { IfSome result (λ moment. moment.reason ≡ number_of reason) }
{
    let Ok(elapsed) = rt.since_1970() else {
        return None;
    };
    let Some(time) = nanoseconds(elapsed) else {
        return None;
    };
    Some(BreakMoment {
        time,
        reason: reason.number(),
    })
}

/// Records a break for this reason. If that fails, the next start does not pause, and does not count it.
pub(crate) fn record_break<R: SystemClock + Files<File = File>>(
    rt: &R,
    alloc: Global,
    folder: &str,
    reason: BreakReason,
) {
    let Some(now) = reading_of(rt) else {
        return;
    };
    let record = record_after(record_in(rt, alloc, folder), now, moment_of(rt, reason));
    let (Ok(path), Ok(draft)) = (
        format!(in alloc; "{folder}/break"),
        format!(in alloc; "{folder}/break.new"),
    ) else {
        return;
    };
    let text = record_text(&record);
    let _ = replace(
        rt,
        path.as_str(),
        draft.as_str(),
        text.as_slice(),
        MODE,
        true,
    );
}

/// Why a machine is broken after a sign, where it was broken so before. The last sign tells, unless the settings say that a
/// sign is only logged.
pub(crate) fn broken_by(
    on_break: OnBreak,
    event: &LogEvent,
    broken: Option<BreakReason>,
) -> Option<BreakReason>
    ensures value { result ≡ broken_by on_break (reason_told event.now) broken }
{
    match on_break {
        OnBreak::Warn => broken,
        OnBreak::End | OnBreak::Stay => Some(BreakReason::told_by(event)),
    }
}

/// The event of a publication that does not meet the last one.
pub(crate) fn event_of_unmet(unmet: &Unmet) -> LogEvent
    ensures { result ≡ event_of_unmet unmet.now }
{
    LogEvent::AssumptionBroken {
        clock: unmet.clock,
        lower: unmet.span.lo(),
        upper: unmet.span.hi(),
        last_lower: unmet.last.lo(),
        last_upper: unmet.last.hi(),
    }
}

/// Laws, not a call to make: what it means that two publications do not meet, which is what a machine looks for after each
/// round.
pub fn break_laws()
    // If two publications of a life do not meet, with the earlier one aged to the clock reading of the later one, then the
    // clock broke its drift bound in this life, or more than f sources were faulty at one of its fusions. So such
    // publications never come while the assumptions hold.
    ensures unmet_breaks { (settings : Meaning) (end : TheEnd) (life : ServerLife) (i k : ℕ) (earlier later : TheFused) (at clock lives : ℕ) (timeline : List Timed) →
        TellsOf settings end life → i < k → slice_get (map fused_span_of end.published.items) i ≡ Some earlier → slice_get (map fused_span_of end.published.items) k ≡ Some later →
        IsUnmet life.config.drift earlier later →
        at ≤ max_time → clock ≤ max_time → life.epoch ≡ lives + 1 → lives < 2 ^ 64 - 1 → steps_told timeline ≡ calls_steps life.calls →
        IsTimeline at clock timeline → AreOfTime timeline → length timeline < 2 ^ 64 →
        (¬ KeepsDrift life.config.drift (moments_told timeline ++ record { clock = clock; time = at } ∷ []))
        ⊎ (¬ FewFaulty life.config (record { machine = life.number; number = lives + 1 }) timeline) }

    // It broke by then: where the first calls of the daemon had published both, it is so of what happened in these calls
    // alone. What came later breaks nothing of it.
    ensures breaks_by_then { (settings : Meaning) (end : TheEnd) (life : ServerLife) (more calls : List RoundsCall) (i k : ℕ) (earlier later : TheFused) (at clock lives : ℕ) (timeline : List Timed) →
        TellsOf settings end life → life.calls ≡ more ++ calls → i < k → k < length (kept_after (begun_in life) calls).published →
        slice_get (map fused_span_of end.published.items) i ≡ Some earlier → slice_get (map fused_span_of end.published.items) k ≡ Some later →
        IsUnmet life.config.drift earlier later →
        at ≤ max_time → clock ≤ max_time → life.epoch ≡ lives + 1 → lives < 2 ^ 64 - 1 → steps_told timeline ≡ calls_steps calls →
        IsTimeline at clock timeline → AreOfTime timeline → length timeline < 2 ^ 64 →
        (¬ KeepsDrift life.config.drift (moments_told timeline ++ record { clock = clock; time = at } ∷ []))
        ⊎ (¬ FewFaulty life.config (record { machine = life.number; number = lives + 1 }) timeline) }
{}
