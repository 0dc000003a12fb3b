//! The whole program, over any devices.

ghost use Rattle.std.specs.Prelude.{◌≡◌, ◌≢◌, ◌≤◌, ◌⊎◌, ◌↔◌, ℕ, List, Ok, Err, Some, IfSome, IsErrOf, IsTrue};
ghost use Rattle.std.specs.Result.{result_map_both};
ghost use Rattle.clap.specs.Walk.{texts};
ghost use Rattle.tt_live.specs.declared.faults.LiveFault.{LiveFault};
ghost use Rattle.tt_stream.specs.Counts.{HasFailed};
ghost use Rattle.tt_stream.specs.DeviceBytes.{ReadsOn};
ghost use Rattle.ttd_words.specs.Reading.{AreForHelp, AreMistaken, AreTaken, IsForService, Request, asked_of, request_in, request_of};
ghost use Rattle.ttd_commands.specs.Answer.{answer_in, answer_of, fine};
ghost use Rattle.ttd_commands.specs.Command.{HasReply, IsAskedBy, IsCommandReply, IsReply, IsReplyRead, IsReplyTo, most_of as most_input_of, most_to, words_fault_of};
ghost use Rattle.ttd_commands.specs.Input.{most_history};
ghost use Rattle.ttd_commands.specs.Run.{Answers, Gives, GivesHelp, IsWritten, RefusesOrHelps, RefusesWords, input_of, memory_answer, output_of};

use crate::age::{Ageing, age_text};
use crate::check::check_text;
use crate::ending::{CommandOutput, Ended, fine};
use crate::faults::Fault;
use crate::fuse::fuse_text;
use crate::input::{MOST_HISTORY, MOST_INPUT, read_input};
use crate::judging::judge_reply;
use crate::living::live_reply;
use crate::output::give;
use crate::picturing::picture_reply;
use crate::places::note;
use crate::running::run_reply;
use crate::tracing::trace_reply;
use crate::twinning::twin_reply;
use std::alloc::Global;
use std::net::{Net, TcpListener, TcpStream};
use std::sync::Wait;
use std::thread::Threads;
use std::time::Clock;
use tt_stream::{ByteReader, ByteWriter};
use ttd_words::{Asked, Command, Status, WordsFault, help_text, read_words};

impl From<WordsFault> for Fault {
    ghost from_gives = { λ words fault. fault ≡ words_fault_of words };

    fn from(words: WordsFault) -> Fault {
        match words {
            WordsFault::BadWords | WordsFault::BadValue(_) => Fault::BadWords,
            WordsFault::Memory => Fault::Memory,
        }
    }
}

/// The most bytes of input for a command.
fn most_of(command: &Command) -> usize
    ensures value { result ≡ most_input_of command.now }
    ensures few { result ≤ most_history }
{
    match command {
        Command::Judge => MOST_HISTORY,
        _ => MOST_INPUT,
    }
}

/// The answer to this input of a command that uses no threads. Adds to the notes which keys of a script no rule names.
fn reply_to(
    alloc: Global,
    command: &Command,
    input: &[u8],
    notes: &mut String,
) -> Result<CommandOutput, Fault>
    requires { command.now ≢ Command.Live }
    ensures value { HasReply answer_in (IsCommandReply command.now input.now) result }
    ensures no_device { result ≢ Err Fault.ReadFailed }
    ensures no_run { (live : LiveFault) → result ≢ Err (Fault.Live live) }
{
    match command {
        Command::Age {
            drift,
            sent,
            got,
            clock,
        } => {
            let ageing = Ageing {
                drift: *drift,
                sent: *sent,
                got: *got,
                clock: *clock,
            };
            fine(age_text(alloc, &ageing, input))
        }
        Command::Fuse => fine(fuse_text(alloc, input)),
        Command::Check => fine(check_text(alloc, input)),
        Command::Run => run_reply(alloc, input, notes),
        Command::Trace => trace_reply(alloc, input, notes),
        Command::Twin { event, side } => twin_reply(alloc, *event, *side, input, notes),
        Command::Picture => picture_reply(alloc, input, notes),
        Command::Judge => judge_reply(alloc, input),
        Command::Live => unreachable!(),
    }
}

/// Reads the input, and gives the answer of a command that uses no threads. Adds to the notes what has to be said on
/// standard error.
fn command_reply<R: ByteReader>(
    alloc: Global,
    command: &Command,
    input: &mut R,
    notes: &mut String,
) -> Result<CommandOutput, Fault>
    requires { command.now ≢ Command.Live }
    // The requirement again, for a caller that knows it only from a match.
    ensures other { command.now ≢ Command.Live }
    ensures value { IsReplyRead (most_input_of command.now) answer_in (IsReply command.now) (input_of R.ByteReader input.old) (input_of R.ByteReader input.new) result }
    ensures failed { IsErrOf result Fault.ReadFailed → HasFailed (R.failed input.old) (R.failed input.new) }
    ensures sound { (result ≢ Err Fault.ReadFailed) → R.failed input.new ≡ R.failed input.old }
    ensures no_run { (live : LiveFault) → result ≢ Err (Fault.Live live) }
    ensures rest { ReadsOn (R.left input.old) (R.left input.new) }
{
    let bytes = read_input(alloc, input, most_of(command))?;
    let text = bytes.as_slice();
    let reply = reply_to(alloc, command, text, notes);
    note(alloc, notes, command, text, &reply);
    reply
}

/// Reads the input, and gives the answer of `live`. Adds to the notes what has to be said on standard error.
fn live_command_reply<
    H: Threads + Wait + Clock + Sync + Net<Listener = TcpListener, Stream = TcpStream>,
    R: ByteReader,
>(rt: &H, alloc: Global, input: &mut R, notes: &mut String) -> Result<CommandOutput, Fault>
    ensures value { IsReplyRead (most_input_of Command.Live) answer_in (IsReply Command.Live)
        (input_of R.ByteReader input.old) (input_of R.ByteReader input.new) result }
    ensures failed { IsErrOf result Fault.ReadFailed → HasFailed (R.failed input.old) (R.failed input.new) }
    ensures sound { (result ≢ Err Fault.ReadFailed) → R.failed input.new ≡ R.failed input.old }
    ensures rest { ReadsOn (R.left input.old) (R.left input.new) }
{
    let bytes = read_input(alloc, input, MOST_INPUT)?;
    let text = bytes.as_slice();
    let reply = live_reply(rt, alloc, text, notes);
    note(alloc, notes, &Command::Live, text, &reply);
    reply
}

/// What the arguments ask for.
pub fn asked_by<'a>(alloc: Global, words: &'a [&'a str]) -> Result<Asked<'a>, WordsFault>
    ensures { IsAskedBy (texts words.entry.now) (request_in result) }
{
    read_words(alloc, words)
}

/// Whether these arguments ask for `live`.
fn asks_live(asked: &Result<Asked<'_>, WordsFault>) -> bool
    ensures { IsTrue result ↔ (request_in asked.now ≡ Ok (Request.ToRun Command.Live)) }
{
    matches!(asked, Ok(Asked::Run(Command::Live)))
}

/// The answer of a command that uses no threads. `live` is rejected like invalid arguments.
fn command_reply_unless_live<R: ByteReader>(
    alloc: Global,
    command: &Command,
    input: &mut R,
    notes: &mut String,
) -> Result<CommandOutput, Fault>
    ensures value { command.now ≢ Command.Live → IsReplyRead (most_input_of command.now) answer_in (IsReply command.now) (input_of R.ByteReader input.old) (input_of R.ByteReader input.new) result }
    ensures live { command.now ≡ Command.Live → (input_of R.ByteReader input.new ≡ input_of R.ByteReader input.old) × (result ≡ Err Fault.BadWords) }
    ensures failed { IsErrOf result Fault.ReadFailed → HasFailed (R.failed input.old) (R.failed input.new) }
    ensures sound { (result ≢ Err Fault.ReadFailed) → R.failed input.new ≡ R.failed input.old }
    ensures no_run { (live : LiveFault) → result ≢ Err (Fault.Live live) }
    ensures rest { ReadsOn (R.left input.old) (R.left input.new) }
{
    match command {
        Command::Live => Err(Fault::BadWords),
        _ => command_reply(alloc, command, input, notes),
    }
}

/// What the program has to write after the arguments were taken: the text that they ask for, or a refusal. Arguments
/// that ask for `live` or a service are rejected like invalid arguments.
fn reply_to_asked<R: ByteReader>(
    alloc: Global,
    words: &[&str],
    asked: &Asked<'_>,
    input: &mut R,
    notes: &mut String,
) -> Result<CommandOutput, Fault>
    requires { IsAskedBy (texts words.now) (Ok (request_of asked.now)) }
    ensures taken { AreTaken (texts words.now) → ¬ (IsForService (asked_of (texts words.now))) → asked_of (texts words.now) ≢ Ok (Request.ToRun Command.Live) →
        IsReplyRead (most_to (asked_of (texts words.now))) answer_in (IsReplyTo (asked_of (texts words.now)))
        (input_of R.ByteReader input.old) (input_of R.ByteReader input.new) result }
    ensures live { AreTaken (texts words.now) → asked_of (texts words.now) ≡ Ok (Request.ToRun Command.Live) →
        (input_of R.ByteReader input.new ≡ input_of R.ByteReader input.old) × ((result ≡ Err Fault.BadWords) ⊎ (result ≡ Err Fault.Memory)) }
    ensures service { AreTaken (texts words.now) → IsForService (asked_of (texts words.now)) →
        (input_of R.ByteReader input.new ≡ input_of R.ByteReader input.old) × ((result ≡ Err Fault.BadWords) ⊎ (result ≡ Err Fault.Memory)) }
    ensures mistaken { AreMistaken (texts words.now) → (input_of R.ByteReader input.new ≡ input_of R.ByteReader input.old)
        × ((result ≡ Err Fault.BadWords) ⊎ (result ≡ Err Fault.Memory)) }
    ensures helped { AreForHelp (texts words.now) → (input_of R.ByteReader input.new ≡ input_of R.ByteReader input.old)
        × (((text : List ℕ) × (result_map_both answer_in (λ fault. fault) result ≡ Ok (fine text))) ⊎ (result ≡ Err Fault.Memory)) }
    ensures untaken { ¬ (AreTaken (texts words.now)) → (input_of R.ByteReader input.new ≡ input_of R.ByteReader input.old)
        × (((result ≡ Err Fault.BadWords) ⊎ (result ≡ Err Fault.Memory))
        ⊎ ((text : List ℕ) × (result_map_both answer_in (λ fault. fault) result ≡ Ok (fine text)))) }
    ensures failed { IsErrOf result Fault.ReadFailed → HasFailed (R.failed input.old) (R.failed input.new) }
    ensures sound { (result ≢ Err Fault.ReadFailed) → R.failed input.new ≡ R.failed input.old }
    ensures no_run { (live : LiveFault) → result ≢ Err (Fault.Live live) }
    ensures rest { ReadsOn (R.left input.old) (R.left input.new) }
{
    match asked {
        Asked::Help => fine(Ok(help_text(alloc, words)?)),
        Asked::Serve(_) => Err(Fault::BadWords),
        Asked::Run(command) => command_reply_unless_live(alloc, command, input, notes),
    }
}

/// What the program has to write after the arguments were read: as `reply_to_asked` says, or why they are rejected.
fn reply<R: ByteReader>(
    alloc: Global,
    words: &[&str],
    asked: &Result<Asked<'_>, WordsFault>,
    input: &mut R,
    notes: &mut String,
) -> Result<CommandOutput, Fault>
    requires { IsAskedBy (texts words.now) (request_in asked.now) }
    ensures taken { AreTaken (texts words.now) → ¬ (IsForService (asked_of (texts words.now))) → asked_of (texts words.now) ≢ Ok (Request.ToRun Command.Live) →
        IsReplyRead (most_to (asked_of (texts words.now))) answer_in (IsReplyTo (asked_of (texts words.now)))
        (input_of R.ByteReader input.old) (input_of R.ByteReader input.new) result }
    ensures live { AreTaken (texts words.now) → asked_of (texts words.now) ≡ Ok (Request.ToRun Command.Live) →
        (input_of R.ByteReader input.new ≡ input_of R.ByteReader input.old) × ((result ≡ Err Fault.BadWords) ⊎ (result ≡ Err Fault.Memory)) }
    ensures service { AreTaken (texts words.now) → IsForService (asked_of (texts words.now)) →
        (input_of R.ByteReader input.new ≡ input_of R.ByteReader input.old) × ((result ≡ Err Fault.BadWords) ⊎ (result ≡ Err Fault.Memory)) }
    ensures mistaken { AreMistaken (texts words.now) → (input_of R.ByteReader input.new ≡ input_of R.ByteReader input.old)
        × ((result ≡ Err Fault.BadWords) ⊎ (result ≡ Err Fault.Memory)) }
    ensures helped { AreForHelp (texts words.now) → (input_of R.ByteReader input.new ≡ input_of R.ByteReader input.old)
        × (((text : List ℕ) × (result_map_both answer_in (λ fault. fault) result ≡ Ok (fine text))) ⊎ (result ≡ Err Fault.Memory)) }
    ensures untaken { ¬ (AreTaken (texts words.now)) → (input_of R.ByteReader input.new ≡ input_of R.ByteReader input.old)
        × (((result ≡ Err Fault.BadWords) ⊎ (result ≡ Err Fault.Memory))
        ⊎ ((text : List ℕ) × (result_map_both answer_in (λ fault. fault) result ≡ Ok (fine text)))) }
    ensures memory { request_in asked.now ≡ Err WordsFault.Memory → (input_of R.ByteReader input.new ≡ input_of R.ByteReader input.old) × (result ≡ Err Fault.Memory) }
    ensures failed { IsErrOf result Fault.ReadFailed → HasFailed (R.failed input.old) (R.failed input.new) }
    ensures sound { (result ≢ Err Fault.ReadFailed) → R.failed input.new ≡ R.failed input.old }
    ensures no_run { (live : LiveFault) → result ≢ Err (Fault.Live live) }
    ensures rest { ReadsOn (R.left input.old) (R.left input.new) }
{
    match asked {
        Ok(asked) => reply_to_asked(alloc, words, asked, input, notes),
        Err(fault) => Err(Fault::from(*fault)),
    }
}

/// As `reply`, but with threads. So arguments that ask for `live` are answered too.
fn reply_in_threads<
    H: Threads + Wait + Clock + Sync + Net<Listener = TcpListener, Stream = TcpStream>,
    R: ByteReader,
>(
    rt: &H,
    alloc: Global,
    words: &[&str],
    asked: &Result<Asked<'_>, WordsFault>,
    input: &mut R,
    notes: &mut String,
) -> Result<CommandOutput, Fault>
    requires { IsAskedBy (texts words.now) (request_in asked.now) }
    ensures taken { AreTaken (texts words.now) → ¬ (IsForService (asked_of (texts words.now))) →
        IsReplyRead (most_to (asked_of (texts words.now))) answer_in (IsReplyTo (asked_of (texts words.now)))
        (input_of R.ByteReader input.old) (input_of R.ByteReader input.new) result }
    ensures service { AreTaken (texts words.now) → IsForService (asked_of (texts words.now)) →
        (input_of R.ByteReader input.new ≡ input_of R.ByteReader input.old) × ((result ≡ Err Fault.BadWords) ⊎ (result ≡ Err Fault.Memory)) }
    ensures mistaken { AreMistaken (texts words.now) → (input_of R.ByteReader input.new ≡ input_of R.ByteReader input.old)
        × ((result ≡ Err Fault.BadWords) ⊎ (result ≡ Err Fault.Memory)) }
    ensures helped { AreForHelp (texts words.now) → (input_of R.ByteReader input.new ≡ input_of R.ByteReader input.old)
        × (((text : List ℕ) × (result_map_both answer_in (λ fault. fault) result ≡ Ok (fine text))) ⊎ (result ≡ Err Fault.Memory)) }
    ensures untaken { ¬ (AreTaken (texts words.now)) → (input_of R.ByteReader input.new ≡ input_of R.ByteReader input.old)
        × (((result ≡ Err Fault.BadWords) ⊎ (result ≡ Err Fault.Memory))
        ⊎ ((text : List ℕ) × (result_map_both answer_in (λ fault. fault) result ≡ Ok (fine text)))) }
    ensures failed { IsErrOf result Fault.ReadFailed → HasFailed (R.failed input.old) (R.failed input.new) }
    ensures sound { (result ≢ Err Fault.ReadFailed) → R.failed input.new ≡ R.failed input.old }
    ensures rest { ReadsOn (R.left input.old) (R.left input.new) }
{
    if asks_live(asked) {
        live_command_reply(rt, alloc, input, notes)
    } else {
        reply(alloc, words, asked, input, notes)
    }
}

/// Runs the program as [`main_with`] does. It also answers what was refused.
pub fn answer_with<R: ByteReader, W: ByteWriter>(
    alloc: Global,
    words: &[&str],
    input: &mut R,
    output: &mut W,
) -> Ended
    ensures taken { AreTaken (texts words.now) → ¬ (IsForService (asked_of (texts words.now))) → asked_of (texts words.now) ≢ Ok (Request.ToRun Command.Live) →
        Answers (most_to (asked_of (texts words.now))) (IsReplyTo (asked_of (texts words.now)))
        (input_of R.ByteReader input.old) (input_of R.ByteReader input.new)
        (output_of W.ByteWriter output.old) (output_of W.ByteWriter output.new) result.status }
    ensures live { AreTaken (texts words.now) → asked_of (texts words.now) ≡ Ok (Request.ToRun Command.Live) → RefusesWords
        (input_of R.ByteReader input.old) (input_of R.ByteReader input.new)
        (output_of W.ByteWriter output.old) (output_of W.ByteWriter output.new) result.status }
    ensures service { AreTaken (texts words.now) → IsForService (asked_of (texts words.now)) → RefusesWords
        (input_of R.ByteReader input.old) (input_of R.ByteReader input.new)
        (output_of W.ByteWriter output.old) (output_of W.ByteWriter output.new) result.status }
    ensures mistaken { AreMistaken (texts words.now) → RefusesWords
        (input_of R.ByteReader input.old) (input_of R.ByteReader input.new)
        (output_of W.ByteWriter output.old) (output_of W.ByteWriter output.new) result.status }
    ensures helped { AreForHelp (texts words.now) → GivesHelp
        (input_of R.ByteReader input.old) (input_of R.ByteReader input.new)
        (output_of W.ByteWriter output.old) (output_of W.ByteWriter output.new) result.status }
    ensures untaken { ¬ (AreTaken (texts words.now)) → RefusesOrHelps
        (input_of R.ByteReader input.old) (input_of R.ByteReader input.new)
        (output_of W.ByteWriter output.old) (output_of W.ByteWriter output.new) result.status }

    // For all arguments.
    ensures device { result.status ≡ Status.Device → HasFailed (R.failed input.old) (R.failed input.new)
        ⊎ HasFailed (W.failed output.old) (W.failed output.new) }
    ensures sound { (result.status ≢ Status.Device) → (R.failed input.new ≡ R.failed input.old)
        × (W.failed output.new ≡ W.failed output.old) }
    ensures memory { result.status ≡ Status.Memory → IsWritten memory_answer (output_of W.ByteWriter output.old) (output_of W.ByteWriter output.new) result.status }
    ensures rest { ReadsOn (R.left input.old) (R.left input.new) }
    ensures refused { IfSome result.refusal (λ told. Gives (answer_of (Err told)) (output_of W.ByteWriter output.old) (output_of W.ByteWriter output.new) result.status) }
    ensures no_run { (live : LiveFault) → result.refusal ≢ Some (Fault.Live live) }
{
    let asked = asked_by(alloc, words);
    let mut notes = String::new(alloc);
    let reply = reply(alloc, words, &asked, input, &mut notes);
    give(output, reply)
}

/// Runs the program as [`live_with`] does, after [`asked_by`] has read what the arguments ask for. It also answers what
/// was refused. Adds lines for standard error to the notes: where the input was refused, and which keys of a script no
/// rule names. A place is exact, or it is not said; the wording is not fixed.
pub fn answer_asked<
    H: Threads + Wait + Clock + Sync + Net<Listener = TcpListener, Stream = TcpStream>,
    R: ByteReader,
    W: ByteWriter,
>(
    rt: &H,
    alloc: Global,
    words: &[&str],
    asked: &Result<Asked<'_>, WordsFault>,
    input: &mut R,
    output: &mut W,
    notes: &mut String,
) -> Ended
    requires { IsAskedBy (texts words.now) (request_in asked.now) }
    ensures taken { AreTaken (texts words.now) → ¬ (IsForService (asked_of (texts words.now))) →
        Answers (most_to (asked_of (texts words.now))) (IsReplyTo (asked_of (texts words.now)))
        (input_of R.ByteReader input.old) (input_of R.ByteReader input.new)
        (output_of W.ByteWriter output.old) (output_of W.ByteWriter output.new) result.status }
    ensures service { AreTaken (texts words.now) → IsForService (asked_of (texts words.now)) → RefusesWords
        (input_of R.ByteReader input.old) (input_of R.ByteReader input.new)
        (output_of W.ByteWriter output.old) (output_of W.ByteWriter output.new) result.status }
    ensures mistaken { AreMistaken (texts words.now) → RefusesWords
        (input_of R.ByteReader input.old) (input_of R.ByteReader input.new)
        (output_of W.ByteWriter output.old) (output_of W.ByteWriter output.new) result.status }
    ensures helped { AreForHelp (texts words.now) → GivesHelp
        (input_of R.ByteReader input.old) (input_of R.ByteReader input.new)
        (output_of W.ByteWriter output.old) (output_of W.ByteWriter output.new) result.status }
    ensures untaken { ¬ (AreTaken (texts words.now)) → RefusesOrHelps
        (input_of R.ByteReader input.old) (input_of R.ByteReader input.new)
        (output_of W.ByteWriter output.old) (output_of W.ByteWriter output.new) result.status }

    // For all arguments. A run in threads may also say that one of its own devices failed.
    ensures device { result.status ≡ Status.Device → (HasFailed (R.failed input.old) (R.failed input.new)
        ⊎ HasFailed (W.failed output.old) (W.failed output.new)) ⊎ ((live : LiveFault) × (result.refusal ≡ Some (Fault.Live live))) }
    ensures sound { (result.status ≢ Status.Device) → (R.failed input.new ≡ R.failed input.old)
        × (W.failed output.new ≡ W.failed output.old) }
    ensures memory { result.status ≡ Status.Memory → IsWritten memory_answer (output_of W.ByteWriter output.old) (output_of W.ByteWriter output.new) result.status }
    ensures rest { ReadsOn (R.left input.old) (R.left input.new) }
    ensures refused { IfSome result.refusal (λ told. Gives (answer_of (Err told)) (output_of W.ByteWriter output.old) (output_of W.ByteWriter output.new) result.status) }
{
    let reply = reply_in_threads(rt, alloc, words, asked, input, notes);
    give(output, reply)
}

/// Runs the program with the arguments after its name: reads the input, writes one answer to the output, and says how
/// the program ends.
///
/// - `age --drift N --sent N --got N --clock N` writes `aged LO HI` for the poll answer in the input, which is in hex.
///   The drift is in parts per million, and 200 if it is left out. The other numbers are in nanoseconds.
/// - `fuse` writes the fusion of the spans in the input, which are text, with its canonical certificate and its
///   suspects.
/// - `check` writes `valid` if the certificate behind the spans proves its claim.
/// - `run` writes the report on the run of the script in the input.
/// - `trace` writes a line for each event of that run, with its reply, and then the last line of that report.
/// - `twin --event K --side low` (or `high`) writes the events of the twin of the reading of event K in that run, and
///   then that reading with the true time at the end of the twin.
/// - `picture` writes that run as a document in SVG.
/// - `judge` writes how many commits of the history in the input are violated, and the first of them; and if some commit
///   names a shard, how many are in conflict with another one of their shard by its terms or its stamp, and the first.
/// - `--help` writes the help.
///
/// After such an answer the program ends with [`Status::Fine`]. But `run` ends with [`Status::Broken`] if the run did
/// not keep the assumptions, and `judge` if a commit is violated or in conflict. `picture` ends with [`Status::Fine`]
/// whether the run kept the assumptions or not.
///
/// Each refusal is the one line `refused N`, with [`Status::Bad`]. N is the first number that applies: 1601 invalid
/// arguments, before any read; 1603 more than 1,048,576 bytes of input (`judge`: 1,073,741,824); and then the numbers
/// of the command.
///
/// - `age`: 1602 not hex, with one line feed allowed after it; 201 to 208 not a valid poll message; 405 a request; 402
///   an answer that came before its poll was sent, a clock reading before the answer came, or one past the greatest
///   time.
/// - `fuse`: 1603 not spans text; 501 no source, 502 more than 16, 503 fewer than `2 * f + 1` sources if f may be
///   wrong, 504 no possible time.
/// - `check`: 1603 not spans text before the first line that begins with `claim`; 606 not certificate text from there
///   on; 501 to 503 as `fuse`; 601 to 605 a certificate that does not prove its claim.
/// - `run`: 1603 not UTF-8; 1301 to 1305 not a valid script.
/// - `trace` and `picture`: as `run`.
/// - `judge`: 1603 a line that is not the line of a commit.
/// - `twin`: as `run`, then 1401 no reading at event K, 1402 the chosen end of the reading lies past the greatest time.
///
/// [`Status::Device`] comes only if a device failed: the reader, and then the answer is `refused 1604`, or the writer
/// (1605), which then has taken a prefix of the answer. Out of memory is `refused 1`, with [`Status::Memory`]; it takes
/// no memory to write a refusal. Nothing but the answer is ever written, and it is flushed.
///
/// `live` and the services are rejected with 1601, like other invalid arguments, before any read:
/// [`live_with`](crate::live_with) runs `live`.
pub fn main_with<R: ByteReader, W: ByteWriter>(
    alloc: Global,
    words: &[&str],
    input: &mut R,
    output: &mut W,
) -> Status
    ensures taken { AreTaken (texts words.now) → ¬ (IsForService (asked_of (texts words.now))) → asked_of (texts words.now) ≢ Ok (Request.ToRun Command.Live) →
        Answers (most_to (asked_of (texts words.now))) (IsReplyTo (asked_of (texts words.now)))
        (input_of R.ByteReader input.old) (input_of R.ByteReader input.new)
        (output_of W.ByteWriter output.old) (output_of W.ByteWriter output.new) result }
    ensures live { AreTaken (texts words.now) → asked_of (texts words.now) ≡ Ok (Request.ToRun Command.Live) → RefusesWords
        (input_of R.ByteReader input.old) (input_of R.ByteReader input.new)
        (output_of W.ByteWriter output.old) (output_of W.ByteWriter output.new) result }
    ensures service { AreTaken (texts words.now) → IsForService (asked_of (texts words.now)) → RefusesWords
        (input_of R.ByteReader input.old) (input_of R.ByteReader input.new)
        (output_of W.ByteWriter output.old) (output_of W.ByteWriter output.new) result }
    ensures mistaken { AreMistaken (texts words.now) → RefusesWords
        (input_of R.ByteReader input.old) (input_of R.ByteReader input.new)
        (output_of W.ByteWriter output.old) (output_of W.ByteWriter output.new) result }
    ensures helped { AreForHelp (texts words.now) → GivesHelp
        (input_of R.ByteReader input.old) (input_of R.ByteReader input.new)
        (output_of W.ByteWriter output.old) (output_of W.ByteWriter output.new) result }
    ensures untaken { ¬ (AreTaken (texts words.now)) → RefusesOrHelps
        (input_of R.ByteReader input.old) (input_of R.ByteReader input.new)
        (output_of W.ByteWriter output.old) (output_of W.ByteWriter output.new) result }

    // For all arguments.
    ensures device { result ≡ Status.Device → HasFailed (R.failed input.old) (R.failed input.new)
        ⊎ HasFailed (W.failed output.old) (W.failed output.new) }
    ensures sound { (result ≢ Status.Device) → (R.failed input.new ≡ R.failed input.old)
        × (W.failed output.new ≡ W.failed output.old) }
    ensures memory { result ≡ Status.Memory → IsWritten memory_answer (output_of W.ByteWriter output.old) (output_of W.ByteWriter output.new) result }
    ensures rest { ReadsOn (R.left input.old) (R.left input.new) }
{
    answer_with(alloc, words, input, output).status
}

/// Runs the program as [`main_with`] does, and also the command `live`, whose only argument is `live`. This command
/// reads a script from the input, runs its machine in threads ([`tt_live::live`]), and writes `readings N` and
/// `wrong N`: how many readings its workers gave, and how many of them were wrong. The program then ends with
/// [`Status::Fine`], or with [`Status::Broken`] if a reading was wrong. `live --help` writes the help. The services are
/// rejected with 1601, like other invalid arguments.
///
/// `live` writes each refusal as the one line `refused N`. N is the first number that applies: 1603 more than 1,048,576
/// bytes of input, 1604 reading failed; 1603 not UTF-8; 1301 to 1305 not a valid script; 1302 no part for a run in
/// threads; 1303 not exactly one machine, not one master for each source, or not one session for each worker; and then
/// what the run refused. The program ends with [`Status::Device`] after 1604, 1501, 1502 and 304, with
/// [`Status::Memory`] after 1, and otherwise with [`Status::Bad`].
pub fn live_with<
    H: Threads + Wait + Clock + Sync + Net<Listener = TcpListener, Stream = TcpStream>,
    R: ByteReader,
    W: ByteWriter,
>(rt: &H, alloc: Global, words: &[&str], input: &mut R, output: &mut W) -> Status
    ensures taken { AreTaken (texts words.now) → ¬ (IsForService (asked_of (texts words.now))) →
        Answers (most_to (asked_of (texts words.now))) (IsReplyTo (asked_of (texts words.now)))
        (input_of R.ByteReader input.old) (input_of R.ByteReader input.new)
        (output_of W.ByteWriter output.old) (output_of W.ByteWriter output.new) result }
    ensures service { AreTaken (texts words.now) → IsForService (asked_of (texts words.now)) → RefusesWords
        (input_of R.ByteReader input.old) (input_of R.ByteReader input.new)
        (output_of W.ByteWriter output.old) (output_of W.ByteWriter output.new) result }
    ensures mistaken { AreMistaken (texts words.now) → RefusesWords
        (input_of R.ByteReader input.old) (input_of R.ByteReader input.new)
        (output_of W.ByteWriter output.old) (output_of W.ByteWriter output.new) result }
    ensures helped { AreForHelp (texts words.now) → GivesHelp
        (input_of R.ByteReader input.old) (input_of R.ByteReader input.new)
        (output_of W.ByteWriter output.old) (output_of W.ByteWriter output.new) result }
    ensures untaken { ¬ (AreTaken (texts words.now)) → RefusesOrHelps
        (input_of R.ByteReader input.old) (input_of R.ByteReader input.new)
        (output_of W.ByteWriter output.old) (output_of W.ByteWriter output.new) result }

    // For all arguments.
    ensures sound { (result ≢ Status.Device) → (R.failed input.new ≡ R.failed input.old)
        × (W.failed output.new ≡ W.failed output.old) }
    ensures memory { result ≡ Status.Memory → IsWritten memory_answer (output_of W.ByteWriter output.old) (output_of W.ByteWriter output.new) result }
    ensures rest { ReadsOn (R.left input.old) (R.left input.new) }
{
    let asked = asked_by(alloc, words);
    let mut notes = String::new(alloc);
    answer_asked(rt, alloc, words, &asked, input, output, &mut notes).status
}
