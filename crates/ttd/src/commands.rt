//! The commands that read their input and end, and what is said of one that has ended.

ghost use Rattle.std.specs.Prelude.{◌≡◌, ◌≢◌, ◌⊎◌, Some};
ghost use Rattle.clap.specs.Walk.{texts};
ghost use Rattle.tt_live.specs.declared.faults.LiveFault.{LiveFault};
ghost use Rattle.tt_stream.specs.Counts.{HasFailed};
ghost use Rattle.tt_stream.specs.DeviceBytes.{ReadsOn};
ghost use Rattle.ttd_words.specs.Reading.{AreForHelp, AreTaken, IsForService, asked_of, request_in};
ghost use Rattle.ttd_commands.specs.Command.{IsAskedBy, IsReplyTo, most_to};
ghost use Rattle.ttd_commands.specs.Run.{Answers, GivesHelp, IsWritten, input_of, memory_answer, output_of};

use std::io::Eprint;
use std::net::{Net, TcpListener, TcpStream};
use std::sync::Wait;
use std::thread::Threads;
use std::time::Clock;
use tt_stream::{ByteReader, ByteWriter};
use ttd_commands::{Ended, Fault, answer_asked};
use ttd_words::{Asked, Status, WordsFault, explain, explain_unwritten};

/// Gives the answer of the command that the arguments ask for, and says on standard error what was refused.
pub(crate) fn answer_command<
    H: AllocGlobal
        + Threads
        + Wait
        + Clock
        + Sync
        + Eprint
        + Net<Listener = TcpListener, Stream = TcpStream>,
    R: ByteReader,
    W: ByteWriter,
>(
    rt: &H,
    words: &[&str],
    asked: &Result<Asked<'_>, WordsFault>,
    input: &mut R,
    output: &mut W,
) -> Ended
    requires { IsAskedBy (texts words.now) (request_in asked.now) }
    ensures taken { AreTaken (texts words.now) → ¬ (IsForService (asked_of (texts words.now))) →
        Answers (most_to (asked_of (texts words.now))) (IsReplyTo (asked_of (texts words.now)))
        (input_of R.ByteReader input.old) (input_of R.ByteReader input.new)
        (output_of W.ByteWriter output.old) (output_of W.ByteWriter output.new) result.status }
    ensures helped { AreForHelp (texts words.now) → GivesHelp
        (input_of R.ByteReader input.old) (input_of R.ByteReader input.new)
        (output_of W.ByteWriter output.old) (output_of W.ByteWriter output.new) result.status }
    ensures device { result.status ≡ Status.Device → (HasFailed (R.failed input.old) (R.failed input.new)
        ⊎ HasFailed (W.failed output.old) (W.failed output.new)) ⊎ ((live : LiveFault) × (result.refusal ≡ Some (Fault.Live live))) }
    ensures sound { (result.status ≢ Status.Device) → (R.failed input.new ≡ R.failed input.old)
        × (W.failed output.new ≡ W.failed output.old) }
    ensures memory { result.status ≡ Status.Memory → IsWritten memory_answer (output_of W.ByteWriter output.old) (output_of W.ByteWriter output.new) result.status }
    ensures rest { ReadsOn (R.left input.old) (R.left input.new) }
{
    let mut notes = String::new(rt.alloc());
    let ended = answer_asked(rt, rt.alloc(), words, asked, input, output, &mut notes);
    say(rt, &ended, notes.as_str());
    ended
}

/// Says on standard error what was refused, or that the answer could not be written, and then the notes.
fn say<H: Eprint>(rt: &H, ended: &Ended, notes: &str) {
    match ended.refusal {
        Some(refusal) => explain(rt, u64::from(refusal.number()), &refusal),
        None if ended.status == Status::Device => explain_unwritten(rt),
        None => {}
    }
    let _ = eprint!(rt; "{notes}");
}
