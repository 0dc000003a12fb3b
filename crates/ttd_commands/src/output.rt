//! What is written, and how the program ends.

ghost use Rattle.std.specs.Prelude.{◌≡◌, Err, None, Some, IfErr, IfOk};
ghost use Rattle.std.specs.Result.{result_map_both};
ghost use Rattle.ttd_commands.specs.Answer.{answer_in, answer_of};
ghost use Rattle.ttd_commands.specs.Run.{Gives, IsWritten, memory_answer, output_of};

use crate::ending::{CommandOutput, Ended};
use crate::faults::Fault;
use tt_stream::ByteWriter;
use ttd_words::{Status, end_with, refuse};

/// Writes the one line of a refusal. It takes no memory.
fn refuse_by<W: ByteWriter>(output: &mut W, fault: &Fault) -> Status
    ensures { Gives (answer_of (Err fault.now)) (output_of W.ByteWriter output.old) (output_of W.ByteWriter output.new) result }
{
    refuse(output, fault.number(), fault.status())
}

/// Writes a reply. A text is written as it is, and the program ends as the reply says. For a refusal its one line is
/// written. This takes no memory, so no refusal is replaced by another.
pub fn give<W: ByteWriter>(output: &mut W, reply: Result<CommandOutput, Fault>) -> Ended
    ensures gives { Gives (answer_of (result_map_both answer_in (λ fault. fault) reply)) (output_of W.ByteWriter output.old) (output_of W.ByteWriter output.new) result.status }
    ensures memory { result.status ≡ Status.Memory → IsWritten memory_answer (output_of W.ByteWriter output.old) (output_of W.ByteWriter output.new) result.status }
    ensures refused { IfErr reply (λ fault. result.refusal ≡ Some fault) }
    ensures none { IfOk reply (λ text. result.refusal ≡ None) }
{
    match reply {
        Ok(CommandOutput::Fine(text)) => Ended {
            status: end_with(output, text.as_str(), Status::Fine),
            refusal: None,
        },
        Ok(CommandOutput::Broken(text)) => Ended {
            status: end_with(output, text.as_str(), Status::Broken),
            refusal: None,
        },
        Err(fault) => Ended {
            status: refuse_by(output, &fault),
            refusal: Some(fault),
        },
    }
}
