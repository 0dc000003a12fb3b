//! Judges whole runs.

ghost use Rattle.std.specs.Prelude.{◌≡◌, IfOk, IfErr, None};
ghost use Rattle.tt_world.specs.Trace.{IsTraceOf};
ghost use Rattle.tt_audit.specs.Report.{IsReportOf};

use crate::counting::{publications, readings, refusals, released, wrong_readings};
use crate::faults::AuditFault;
use crate::ordering::violations;
use crate::reports::Report;
use crate::suspecting::all_suspects;
use crate::watching::first_broken;
use std::alloc::{AllocError, Global};
use tt_daemon::Config;
use tt_world::{Event, Trace, run_laws};

/// Judges a run: its counts, the suspects of each publication, and the first event that breaks the assumptions. If none
/// does, no reading is wrong and no commit is out of order. Requires: the trace is what [`run`](tt_world::run) gives
/// for these events on these machines. Refuses with 1 `Memory` if it is out of memory, and with nothing else.
pub fn audit(
    alloc: Global,
    configs: &[Config],
    events: &[Event],
    trace: &Trace,
) -> Result<Report, AuditFault>
    requires { IsTraceOf configs.now events.now trace.now }

    // The counts, the suspects of each publication, and the first event that breaks the assumptions, all exact.
    ensures report { IfOk result (IsReportOf configs.now events.now trace.now) }

    // If the assumptions were kept, every reading holds the true time, and every commit is in order.
    ensures kept { IfOk result (λ report. report.broken ≡ None → (report.wrong ≡ 0) × (report.violations ≡ 0)) }

    ensures memory { IfErr result (λ fault. fault ≡ AuditFault.Memory) }
{
    audit_in(alloc, configs, events, trace).map_err(|_error| AuditFault::Memory)
}

/// The report, unless it is out of memory.
fn audit_in(
    alloc: Global,
    configs: &[Config],
    events: &[Event],
    trace: &Trace,
) -> Result<Report, AllocError>
    requires { IsTraceOf configs.now events.now trace.now }
    ensures report { IfOk result (IsReportOf configs.now events.now trace.now) }
    ensures kept { IfOk result (λ report. report.broken ≡ None → (report.wrong ≡ 0) × (report.violations ≡ 0)) }
{
    run_laws();
    let replies = trace.replies();
    Ok(Report {
        events: events.len() as u64,
        refused: refusals(replies) as u64,
        fusions: publications(replies) as u64,
        readings: readings(replies) as u64,
        wrong: wrong_readings(events, replies) as u64,
        released: released(replies) as u64,
        violations: violations(events, replies) as u64,
        suspects: all_suspects(alloc, trace.shown())?,
        broken: first_broken(alloc, configs, events, replies)?,
    })
}
