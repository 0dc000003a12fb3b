//! The command `run`: what a script's run did, and whether it kept the assumptions.

ghost use Rattle.std.specs.Prelude.{◌≡◌, ◌≢◌, Err};
ghost use Rattle.tt_live.specs.declared.faults.LiveFault.{LiveFault};
ghost use Rattle.ttd_commands.specs.Answer.{answer_in};
ghost use Rattle.ttd_commands.specs.Command.{HasReply};
ghost use Rattle.ttd_commands.specs.Running.{IsRunReply, TellsRun, audit_fault_of, world_fault_of};

use crate::ending::CommandOutput;
use crate::faults::Fault;
use crate::scripts::script_from;
use std::alloc::Global;
use tt_audit::{AuditFault, Report, audit, report_text};
use tt_script::Script;
use tt_world::{WorldFault, run};

impl From<WorldFault> for Fault {
    ghost from_gives = { λ world fault. fault ≡ world_fault_of world };

    fn from(world: WorldFault) -> Fault {
        match world {
            WorldFault::Memory => Fault::Memory,
            _ => Fault::World(world),
        }
    }
}

impl From<AuditFault> for Fault {
    ghost from_gives = { λ audit fault. fault ≡ audit_fault_of audit };

    fn from(audit: AuditFault) -> Fault {
        match audit {
            AuditFault::Memory => Fault::Memory,
        }
    }
}

/// The answer of `run` to its input, a script: the report on its run. The program ends as fine if the run kept the
/// assumptions, otherwise as broken.
///
/// Refuses, in this order: 1603 `BadInput` where the input is not UTF-8; 1301 to 1305 where it is not a valid script;
/// and 1 `Memory`.
pub(crate) fn run_reply(
    alloc: Global,
    input: &[u8],
    notes: &mut String,
) -> Result<CommandOutput, Fault>
    ensures value { HasReply answer_in (IsRunReply input.now) result }
    ensures no_device { result ≢ Err Fault.ReadFailed }
    ensures no_run { (live : LiveFault) → result ≢ Err (Fault.Live live) }
{
    let script = script_from(alloc, input, notes)?;
    told(alloc, &script)
}

/// The report on a script's run, and how the program ends after it.
fn told(alloc: Global, script: &Script) -> Result<CommandOutput, Fault>
    ensures value { HasReply answer_in (TellsRun script.now) result }
    ensures no_device { result ≢ Err Fault.ReadFailed }
    ensures no_run { (live : LiveFault) → result ≢ Err (Fault.Live live) }
{
    let trace = run(alloc, script.configs(), script.to_events())?;
    let report = audit(alloc, script.configs(), script.to_events(), &trace)?;
    let text = report_text(alloc, &report)?;
    Ok(match report.broken {
        None => CommandOutput::Fine(text),
        Some(_) => CommandOutput::Broken(text),
    })
}
