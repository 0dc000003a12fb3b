//! The command `live`: the machine of a script, run in threads.

ghost use Rattle.std.specs.Prelude.{◌≡◌, ◌≢◌, [], ◌∷◌, codes, Err, IfOk, Ok, string_bytes};
ghost use Rattle.tt_audit.specs.declared.live.LiveReport.{LiveReport};
ghost use Rattle.ttd_words.specs.Reading.{AreForHelp, AreTaken, Request, asked_of};
ghost use Rattle.ttd_commands.specs.Answer.{answer_in};
ghost use Rattle.ttd_commands.specs.Command.{HasReply};
ghost use Rattle.ttd_commands.specs.Living.{IsLiveReply, TellsLive, report_answer};

use crate::causes::note_causes;
use crate::ending::CommandOutput;
use crate::faults::Fault;
use crate::scripts::script_from;
use std::alloc::{AllocError, Global};
use std::net::{Net, TcpListener, TcpStream};
use std::sync::Wait;
use std::thread::Threads;
use std::time::Clock;
use tt_audit::LiveReport;
use tt_live::{LiveEnd, live};
use tt_script::Script;
use ttd_words::Command;

/// The answer of `live` to its input, a script: the report on its run. The program ends as fine if no reading was
/// wrong, otherwise as broken.
///
/// Refuses, in this order: 1603 `BadInput` where the input is not UTF-8; 1301 to 1305 where it is not a valid script;
/// 1302 where the script has no part for a run in threads; 1303 where that part does not fit its machine; and then as
/// the run does. Adds to the notes why a run gave no reading, or why its daemon published nothing.
pub(crate) fn live_reply<
    H: Threads + Wait + Clock + Sync + Net<Listener = TcpListener, Stream = TcpStream>,
>(rt: &H, alloc: Global, input: &[u8], notes: &mut String) -> Result<CommandOutput, Fault>
    ensures value { HasReply answer_in (IsLiveReply input.now) result }
    ensures no_device { result ≢ Err Fault.ReadFailed }
{
    match script_from(alloc, input, notes) {
        Ok(script) => lived(rt, alloc, &script, notes),
        Err(fault) => Err(fault),
    }
}

/// The report on the run of a script's machine in threads. Adds to the notes why there is little to report.
fn lived<H: Threads + Wait + Clock + Sync + Net<Listener = TcpListener, Stream = TcpStream>>(
    rt: &H,
    alloc: Global,
    script: &Script,
    notes: &mut String,
) -> Result<CommandOutput, Fault>
    ensures value { HasReply answer_in (TellsLive script.now) result }
    ensures no_device { result ≢ Err Fault.ReadFailed }
{
    let report = match live(rt, alloc, script) {
        Ok(end) => noted(notes, end),
        Err(fault) => return Err(Fault::Live(fault)),
    };
    let Ok(text) = report_text(alloc, &report) else {
        return Err(Fault::Memory);
    };
    if report.wrong == 0 {
        Ok(CommandOutput::Fine(text))
    } else {
        Ok(CommandOutput::Broken(text))
    }
}

/// The report of a run. Adds to the notes why there is little to report.
fn noted(notes: &mut String, end: LiveEnd) -> LiveReport
    ensures { result ≡ end.report }
{
    note_causes(notes, &end);
    end.report
}

/// The text of a report.
fn report_text(alloc: Global, report: &LiveReport) -> Result<String, AllocError>
    ensures { IfOk result (λ text. string_bytes text ≡ (report_answer report.now).text) }
{
    let (readings, wrong) = (report.readings, report.wrong);
    format!(in alloc; "readings {readings}\nwrong {wrong}\n")
}

/// Laws of the arguments: `live` alone asks for the command, and `live --help` asks for help.
pub fn live_word_laws()
    ensures live { AreTaken (codes "live" ∷ []) × (asked_of (codes "live" ∷ []) ≡ Ok (Request.ToRun Command.Live)) }
    ensures help { AreForHelp (codes "live" ∷ codes "--help" ∷ []) }
{}
