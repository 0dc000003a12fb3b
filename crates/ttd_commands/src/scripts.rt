//! Reads scripts from the input.

ghost use Rattle.std.specs.Prelude.{◌≡◌, ◌≢◌, Err, IfErr, IfOk, Ok};
ghost use Rattle.tt_live.specs.declared.faults.LiveFault.{LiveFault};
ghost use Rattle.tt_script.specs.Fault.{IsTextRefusal};
ghost use Rattle.tt_script.specs.Script.{script_in};
ghost use Rattle.ttd_commands.specs.Scripted.{IsScriptFault, IsScriptText, script_fault_of};

use crate::faults::Fault;
use std::alloc::Global;
use std::str;
use tt_script::{Script, ScriptFault, read_noting};

impl From<ScriptFault> for Fault {
    ghost from_gives = { λ script fault. fault ≡ script_fault_of script };

    fn from(script: ScriptFault) -> Fault {
        match script {
            ScriptFault::Memory => Fault::Memory,
            _ => Fault::Script(script),
        }
    }
}

/// The script in the input. Adds to the notes which of its keys no rule names.
///
/// Refuses, in this order: 1603 `BadInput` where the input is not UTF-8; 1301 to 1305 where it is not a valid script;
/// and 1 `Memory`.
pub(crate) fn script_from(alloc: Global, input: &[u8], notes: &mut String) -> Result<Script, Fault>
    ensures found { IfOk result (IsScriptText input.now) }
    ensures refused { IfErr result (IsScriptFault input.now) }
    ensures no_device { result ≢ Err Fault.ReadFailed }
    ensures no_run { (live : LiveFault) → result ≢ Err (Fault.Live live) }
{
    let Ok(text) = str::from_utf8(input) else {
        return Err(Fault::BadInput);
    };
    match read(alloc, text, notes) {
        Ok(script) => Ok(script),
        Err(fault) => Err(Fault::from(fault)),
    }
}

/// The script of a text, as `tt_script::read` gives it. Adds to the notes which of its keys no rule names.
fn read(alloc: Global, text: &str, notes: &mut String) -> Result<Script, ScriptFault>
    ensures found { IfOk result (λ script. script_in text.now ≡ Ok script) }
    ensures refused { IfErr result (IsTextRefusal (script_in text.now)) }
{
    let mut unknown = Vec::new(alloc);
    let script = read_noting(alloc, text, &mut unknown);
    note_unknown(notes, unknown.as_slice());
    script
}

/// Adds the keys that no rule names. If it is out of memory, fewer are added.
fn note_unknown(notes: &mut String, unknown: &[String]) {
    for key in unknown {
        let key = key.as_str();
        let _ = write!(notes, "ttd: warning: {key}\n");
    }
}
