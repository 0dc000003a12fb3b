//! The whole program, over any devices.

ghost use Rattle.std.specs.Prelude.{◌≡◌, ◌⊎◌, List, ℕ, map, string_bytes};
ghost use Rattle.clap.specs.Walk.{texts};
ghost use Rattle.ttd.specs.Answer.{Refuses, RefusesWords};
ghost use Rattle.ttd.specs.declared.faults.ServiceFault.TheVariants as service;
ghost use Rattle.ttd_words.specs.Reading.{AreForHelp, AreMistaken, AreTaken, IsForService, asked_of};
ghost use Rattle.ttd_commands.specs.Command.{IsReplyTo, most_to};
ghost use Rattle.ttd_commands.specs.Run.{Answers, GivesHelp, input_of, output_of};

use crate::arguments::as_texts;
use crate::commands::answer_command;
use crate::faults::ServiceFault;
use crate::services::serve;
use crate::watching::Screen;
use std::io::Eprint;
use std::rt::Env;
use tt_host::ByClocks;
use tt_server::ServerHost;
use tt_stream::{ByteReader, ByteWriter};
use ttd_commands::asked_by;
use ttd_masters::AsksServers;
use ttd_words::{Asked, Status, WordsFault, explain, mistake_text, refuse, usage_text};

/// Runs the program with these arguments: does what they ask for, and answers how the program ends. Standard error says
/// what a refusal means. What it keeps on the stack is taken when it is called.
#[inline(never)]
pub(crate) fn run<
    H: ServerHost + ByClocks + AsksServers + Env + Screen,
    I: ByteReader,
    O: ByteWriter,
>(rt: &H, words: &[String], input: &mut I, output: &mut O) -> Status
    ensures taken { AreTaken (map string_bytes words.now) → ¬ (IsForService (asked_of (map string_bytes words.now))) →
        Answers (most_to (asked_of (map string_bytes words.now))) (IsReplyTo (asked_of (map string_bytes words.now)))
        (input_of I.ByteReader input.old) (input_of I.ByteReader input.new)
        (output_of O.ByteWriter output.old) (output_of O.ByteWriter output.new) result
        ⊎ Refuses O.ByteWriter service.Memory output.old output.new result }
    ensures mistaken { AreMistaken (map string_bytes words.now) → RefusesWords O.ByteWriter (asked_of (map string_bytes words.now)) output.old output.new result }
    ensures helped { AreForHelp (map string_bytes words.now) → GivesHelp
        (input_of I.ByteReader input.old) (input_of I.ByteReader input.new)
        (output_of O.ByteWriter output.old) (output_of O.ByteWriter output.new) result }
{
    match as_texts(rt.alloc(), words) {
        Ok(texts) => answer(rt, texts.as_slice(), input, output),
        Err(_) => reject(rt, &[], WordsFault::Memory, output),
    }
}

/// Does what the arguments ask for, and answers how the program ends.
fn answer<H: ServerHost + ByClocks + AsksServers + Env + Screen, I: ByteReader, O: ByteWriter>(
    rt: &H,
    words: &[&str],
    input: &mut I,
    output: &mut O,
) -> Status
    ensures taken { AreTaken (texts words.now) → ¬ (IsForService (asked_of (texts words.now))) →
        Answers (most_to (asked_of (texts words.now))) (IsReplyTo (asked_of (texts words.now)))
        (input_of I.ByteReader input.old) (input_of I.ByteReader input.new)
        (output_of O.ByteWriter output.old) (output_of O.ByteWriter output.new) result
        ⊎ Refuses O.ByteWriter service.Memory output.old output.new result }
    ensures mistaken { AreMistaken (texts words.now) → RefusesWords O.ByteWriter (asked_of (texts words.now)) output.old output.new result }
    ensures helped { AreForHelp (texts words.now) → GivesHelp
        (input_of I.ByteReader input.old) (input_of I.ByteReader input.new)
        (output_of O.ByteWriter output.old) (output_of O.ByteWriter output.new) result }
{
    let asked = asked_by(rt.alloc(), words);
    match &asked {
        Ok(taken) => match taken {
            Asked::Serve(service) => serve(rt, service, input, output),
            _ => answer_command(rt, words, &asked, input, output).status,
        },
        Err(fault) => reject(rt, words, *fault, output),
    }
}

/// Writes the refusal of arguments. Standard error says which of them is wrong or, if there are no arguments, how the
/// program is used. If that can't be written, nothing more is done.
pub(crate) fn reject<H: AllocGlobal + Eprint, O: ByteWriter>(
    rt: &H,
    words: &[&str],
    fault: WordsFault,
    output: &mut O,
) -> Status
    ensures { Refuses O.ByteWriter (service.Words fault) output.old output.new result }
{
    let refusal = ServiceFault::Words(fault);
    explain(rt, u64::from(refusal.number()), &refusal);
    if fault != WordsFault::Memory {
        say_mistake(rt, words);
    }
    refuse(output, refusal.number(), refusal.status())
}

/// Says which argument the command line did not expect or, if there are no arguments, how the program is used.
fn say_mistake<H: AllocGlobal + Eprint>(rt: &H, words: &[&str]) {
    let said = if words.is_empty() {
        usage_text(rt.alloc()).map(Some)
    } else {
        mistake_text(rt.alloc(), words)
    };
    if let Ok(Some(text)) = said {
        let _ = eprint!(rt; "{text}");
    }
}
