//! The command `twin`: the twin of a reading in a script's run.

ghost use Rattle.std.specs.Prelude.{◌≡◌, ◌≢◌, ◌++◌, ◌<◌, reverse, Err, IfOk, OnOk, Some, slice_get, string_bytes};
ghost use Rattle.tt_span.specs.Interval.{Interval};
ghost use Rattle.tt_twin.specs.Twin.{twin_of};
ghost use Rattle.tt_world.specs.declared.events.Reply.TheVariants as replies;
ghost use Rattle.tt_world.specs.Past.{time_of};
ghost use Rattle.tt_live.specs.declared.faults.LiveFault.{LiveFault};
ghost use Rattle.ttd_commands.specs.Answer.{answer_in};
ghost use Rattle.ttd_commands.specs.Command.{HasReply};
ghost use Rattle.ttd_commands.specs.Twinning.{IsTwinReply, TellsFound, truth_line, twin_fault_of, twin_side, twin_text};

use crate::ending::CommandOutput;
use crate::faults::Fault;
use crate::scripts::script_from;
use std::alloc::{AllocError, Global};
use tt_publish::Reading;
use tt_script::Script;
use tt_trace::push_event;
use tt_twin::{TwinFault, twin, twin_laws};
use tt_world::{Event, run};
use ttd_words::Side;

impl From<TwinFault> for Fault {
    ghost from_gives = { λ twin fault. fault ≡ twin_fault_of twin };

    fn from(twin: TwinFault) -> Fault {
        match twin {
            TwinFault::Memory => Fault::Memory,
            _ => Fault::Twin(twin),
        }
    }
}

/// This side, in the type that a call of `tt_twin::twin` takes.
fn side_of(side: Side) -> tt_twin::Side
    ensures { result ≡ twin_side side }
{
    match side {
        Side::Low => tt_twin::Side::Low,
        Side::High => tt_twin::Side::High,
    }
}

/// The answer of `twin` to its input, a script: the events of the twin of the reading of event `k` on this side, one on
/// each line, and then `reading LO HI truth T` with that reading and the true time at the end of the twin, in
/// nanoseconds.
///
/// Refuses, in this order: 1603 `BadInput` where the input is not UTF-8; 1301 to 1305 where it is not a valid script;
/// 1401 where there is no event `k` or it gives no reading; 1402 where the chosen end lies past the greatest time; and
/// 1 `Memory`.
pub(crate) fn twin_reply(
    alloc: Global,
    k: u64,
    side: Side,
    input: &[u8],
    notes: &mut String,
) -> Result<CommandOutput, Fault>
    ensures value { HasReply answer_in (IsTwinReply k side input.now) result }
    ensures no_device { result ≢ Err Fault.ReadFailed }
    ensures no_run { (live : LiveFault) → result ≢ Err (Fault.Live live) }
{
    let script = script_from(alloc, input, notes)?;
    found(alloc, &script, k as usize, side)
}

/// The answer with the twin of the reading of event `k` in the run of a script.
fn found(alloc: Global, script: &Script, k: usize, side: Side) -> Result<CommandOutput, Fault>
    ensures value { HasReply answer_in (TellsFound script.now k (twin_of script.now.configs script.now.events k (twin_side side))) result }
    ensures no_device { result ≢ Err Fault.ReadFailed }
    ensures no_run { (live : LiveFault) → result ≢ Err (Fault.Live live) }
{
    let twin = twin(
        alloc,
        script.configs(),
        script.to_events(),
        k,
        side_of(side),
    )?;
    let trace = run(alloc, script.configs(), script.to_events())?;
    twin_laws();
    let reading = reading_at(trace.replies(), k);
    let Ok(text) = text_of(alloc, twin.as_slice(), reading) else {
        return Err(Fault::Memory);
    };
    Ok(CommandOutput::Fine(text))
}

/// The reading in the reply to event `k`.
fn reading_at(given: &[tt_world::Reply], k: usize) -> &Reading
    requires { (reading : Interval) × (slice_get given.now k ≡ Some (replies.Read reading)) }
    ensures { slice_get given.now k ≡ Some (replies.Read result.now) }
{
    match given.get(k) {
        Some(tt_world::Reply::Read(reading)) => reading,
        _ => unreachable!(),
    }
}

/// The text of a twin, and of its reading.
fn text_of(alloc: Global, twin: &[Event], reading: &Reading) -> Result<String, AllocError>
    ensures { IfOk result (λ text. string_bytes text ≡ twin_text twin.now reading.now) }
{
    let mut text = String::new(alloc);
    for event in twin {
        push_event(alloc, &mut text, event)?;
    }
    push_truth(&mut text, reading, ended_at(twin))?;
    Ok(text)
}

/// The true time of the last event, in nanoseconds, or 0 if there is none.
fn ended_at(events: &[Event]) -> u64
    ensures { result ≡ time_of (reverse events.now) }
{
    match events.last() {
        Some(event) => event.at,
        None => 0,
    }
}

/// Writes the line of a reading and its true time at the end of the text.
fn push_truth(text: &mut String, reading: &Reading, truth: u64) -> Result<(), AllocError>
    ensures { OnOk result (string_bytes text.new ≡ string_bytes text.old ++ truth_line reading.now truth) }
{
    let (earliest, latest) = (reading.earliest(), reading.latest());
    write!(text, "reading {earliest} {latest} truth {truth}\n")
}
