//! The command `trace`: each event of a script's run, with its reply.

ghost use Rattle.std.specs.Prelude.{◌≡◌, ◌≢◌, ◌++◌, Err, IfOk, string_bytes};
ghost use Rattle.tt_audit.specs.Text.{verdict_line};
ghost use Rattle.tt_trace.specs.Trace.{trace_text_of};
ghost use Rattle.tt_live.specs.declared.faults.LiveFault.{LiveFault};
ghost use Rattle.ttd_commands.specs.Answer.{answer_in};
ghost use Rattle.ttd_commands.specs.Command.{HasReply};
ghost use Rattle.ttd_commands.specs.Tracing.{IsTraceReply, TellsTrace};

use crate::ending::CommandOutput;
use crate::faults::Fault;
use crate::scripts::script_from;
use std::alloc::{AllocError, Global};
use tt_audit::{Broken, audit, push_verdict};
use tt_script::Script;
use tt_trace::trace_text;
use tt_world::{Event, Reply, run};

/// The answer of `trace` to its input, a script: a line for each event of its run, with the event's number, the event
/// and its reply, and then the last line of the report that `run` gives. The program ends as fine, also if the run does
/// not keep the assumptions.
///
/// Refuses, in this order: 1603 `BadInput` where the input is not UTF-8; 1301 to 1305 where it is not a valid script;
/// and 1 `Memory`.
pub(crate) fn trace_reply(
    alloc: Global,
    input: &[u8],
    notes: &mut String,
) -> Result<CommandOutput, Fault>
    ensures value { HasReply answer_in (IsTraceReply input.now) result }
    ensures no_device { result ≢ Err Fault.ReadFailed }
    ensures no_run { (live : LiveFault) → result ≢ Err (Fault.Live live) }
{
    let script = script_from(alloc, input, notes)?;
    traced(alloc, &script)
}

/// The trace of a script's run, and whether it kept the assumptions.
fn traced(alloc: Global, script: &Script) -> Result<CommandOutput, Fault>
    ensures value { HasReply answer_in (TellsTrace script.now) result }
    ensures no_device { result ≢ Err Fault.ReadFailed }
    ensures no_run { (live : LiveFault) → result ≢ Err (Fault.Live live) }
{
    let trace = run(alloc, script.configs(), script.to_events())?;
    let report = audit(alloc, script.configs(), script.to_events(), &trace)?;
    let Ok(text) = text_of(alloc, script.to_events(), trace.replies(), &report.broken) else {
        return Err(Fault::Memory);
    };
    Ok(CommandOutput::Fine(text))
}

/// The text of a trace, and behind it the line that says whether the assumptions were kept, or which event breaks them
/// first.
fn text_of(
    alloc: Global,
    events: &[Event],
    replies: &[Reply],
    broken: &Option<Broken>,
) -> Result<String, AllocError>
    ensures { IfOk result (λ text. string_bytes text ≡ trace_text_of events.now replies.now ++ verdict_line broken.now) }
{
    let mut text = trace_text(alloc, events, replies)?;
    push_verdict(&mut text, broken)?;
    Ok(text)
}
