//! Reports as text.

ghost use Rattle.std.specs.Prelude.{◌≡◌, ◌++◌, IfOk, IfErr, OnOk, string_bytes, codes};
ghost use Rattle.std.specs.List.{flat_map};
ghost use Rattle.tt_audit.specs.Text.{report_text_of, happenings_text, outcomes_text, suspect_line, broken_line, verdict_line, breach_text};

use crate::faults::AuditFault;
use crate::reports::{Broken, Report, Suspect};
use std::alloc::{AllocError, Global};
use tt_text::push_line;
use tt_world::Breach;

/// The text of a report: a line for each of `events`, `refused`, `fusions`, `readings`, `wrong`, `released` and
/// `violations`, with its count, a line `suspect MACHINE PUBLICATION SOURCE` for each suspect, and at last `premise
/// kept`, or `premise broken EVENT MACHINE drift` (or `false`). Refuses with 1 `Memory` if it is out of memory, and
/// with nothing else.
pub fn report_text(alloc: Global, report: &Report) -> Result<String, AuditFault>
    ensures written { IfOk result (λ text. string_bytes text ≡ report_text_of report.now) }
    ensures memory { IfErr result (λ fault. fault ≡ AuditFault.Memory) }
{
    text_in(alloc, report).map_err(|_error| AuditFault::Memory)
}

/// The text, unless it is out of memory.
fn text_in(alloc: Global, report: &Report) -> Result<String, AllocError>
    ensures { IfOk result (λ text. string_bytes text ≡ report_text_of report.now) }
{
    let mut text = String::new(alloc);
    push_happenings(&mut text, report)?;
    push_outcomes(&mut text, report)?;
    push_suspects(&mut text, report.suspects.as_slice())?;
    push_verdict(&mut text, &report.broken)?;
    Ok(text)
}

/// Writes four lines at the end: `events`, `refused`, `fusions` and `readings`.
fn push_happenings(text: &mut String, report: &Report) -> Result<(), AllocError>
    ensures { OnOk result (string_bytes text.new ≡ string_bytes text.old ++ happenings_text report.now) }
{
    push_line(text, "events", &[report.events])?;
    push_line(text, "refused", &[report.refused])?;
    push_line(text, "fusions", &[report.fusions])?;
    push_line(text, "readings", &[report.readings])
}

/// Writes three lines at the end: `wrong`, `released` and `violations`.
fn push_outcomes(text: &mut String, report: &Report) -> Result<(), AllocError>
    ensures { OnOk result (string_bytes text.new ≡ string_bytes text.old ++ outcomes_text report.now) }
{
    push_line(text, "wrong", &[report.wrong])?;
    push_line(text, "released", &[report.released])?;
    push_line(text, "violations", &[report.violations])
}

/// Writes the line of each suspect at the end.
fn push_suspects(text: &mut String, suspects: &[Suspect]) -> Result<(), AllocError>
    ensures { OnOk result (string_bytes text.new ≡ string_bytes text.old ++ flat_map suspect_line suspects.now) }
{
    for suspect in suspects {
        let numbers = [
            u64::from(suspect.machine),
            suspect.publication,
            u64::from(suspect.source),
        ];
        push_line(text, "suspect", &numbers)?;
    }
    Ok(())
}

/// Writes the last line of a report at the end of the text: `premise kept`, or `premise broken EVENT MACHINE drift` (or
/// `false`). Refuses only if it is out of memory; then the text may have a part of the line at its end.
pub fn push_verdict(text: &mut String, broken: &Option<Broken>) -> Result<(), AllocError>
    ensures { OnOk result (string_bytes text.new ≡ string_bytes text.old ++ verdict_line broken.now) }
{
    match broken {
        None => text.push_str("premise kept\n"),
        Some(broken) => push_broken(text, broken),
    }
}

/// Writes the line of the first event that breaks the assumptions at the end.
fn push_broken(text: &mut String, broken: &Broken) -> Result<(), AllocError>
    ensures { OnOk result (string_bytes text.new ≡ string_bytes text.old ++ broken_line broken.now) }
{
    text.push_str("premise broken")?;
    write!(text, " {}", broken.event)?;
    push_breach(text, broken.breach)
}

/// Writes what was broken, and on which machine, which ends the line.
fn push_breach(text: &mut String, breach: Breach) -> Result<(), AllocError>
    ensures { OnOk result (string_bytes text.new ≡ string_bytes text.old ++ breach_text breach) }
{
    match breach {
        Breach::Drift(machine) => {
            write!(text, " {machine}")?;
            text.push_str(" drift\n")
        }
        Breach::FalseStatements(machine) => {
            write!(text, " {machine}")?;
            text.push_str(" false\n")
        }
    }
}
