//! The command `picture`: draws a script's run.

ghost use Rattle.std.specs.Prelude.{◌≡◌, ◌≢◌, Err};
ghost use Rattle.tt_live.specs.declared.faults.LiveFault.{LiveFault};
ghost use Rattle.ttd_commands.specs.Answer.{answer_in};
ghost use Rattle.ttd_commands.specs.Command.{HasReply};
ghost use Rattle.ttd_commands.specs.Picturing.{IsPictureReply, ShowsRun, picture_fault_of};

use crate::ending::CommandOutput;
use crate::faults::Fault;
use crate::scripts::script_from;
use std::alloc::Global;
use tt_script::Script;
use tt_trace::{PictureFault, picture};
use tt_world::run;

impl From<PictureFault> for Fault {
    ghost from_gives = { λ picture fault. fault ≡ picture_fault_of picture };

    fn from(picture: PictureFault) -> Fault {
        match picture {
            PictureFault::Memory => Fault::Memory,
        }
    }
}

/// The answer of `picture` to its input, a script: its run as a document in SVG. The program ends as fine, also if the
/// run does not keep the assumptions. The picture marks the lies and the wrong readings.
///
/// Refuses, in this order: 1603 `BadInput` where the input is not UTF-8; 1301 to 1305 where it is not a valid script;
/// and 1 `Memory`.
pub(crate) fn picture_reply(
    alloc: Global,
    input: &[u8],
    notes: &mut String,
) -> Result<CommandOutput, Fault>
    ensures value { HasReply answer_in (IsPictureReply input.now) result }
    ensures no_device { result ≢ Err Fault.ReadFailed }
    ensures no_run { (live : LiveFault) → result ≢ Err (Fault.Live live) }
{
    let script = script_from(alloc, input, notes)?;
    shown(alloc, &script)
}

/// The picture of a script's run.
fn shown(alloc: Global, script: &Script) -> Result<CommandOutput, Fault>
    ensures value { HasReply answer_in (ShowsRun script.now) result }
    ensures no_device { result ≢ Err Fault.ReadFailed }
    ensures no_run { (live : LiveFault) → result ≢ Err (Fault.Live live) }
{
    let trace = run(alloc, script.configs(), script.to_events())?;
    let text = picture(alloc, script.configs(), script.to_events(), &trace)?;
    Ok(CommandOutput::Fine(text))
}
