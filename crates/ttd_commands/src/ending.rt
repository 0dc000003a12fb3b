//! What a command answers, and how the program ended.

ghost use Rattle.std.specs.Prelude.{◌≡◌};
ghost use Rattle.std.specs.Result.{result_map_both};
ghost use Rattle.ttd_commands.specs.declared.ending.CommandOutput.TheVariants.{Fine};

use crate::faults::Fault;
use ttd_words::Status;

/// What a command answers: a text to write, and how the program ends after it.
#[derive(Drop)]
pub enum CommandOutput {
    /// The answer. The program then ends as [`Status::Fine`].
    Fine(String),
    /// The report of something wrong. The program then ends as [`Status::Broken`].
    Broken(String),
}

/// How a run of the program ended.
#[derive(Clone, Copy)]
pub struct Ended {
    /// The status with which the program ends.
    pub status: Status,
    /// The refusal, if there was one to write.
    pub refusal: Option<Fault>,
}

/// The reply that is only a text. The program then ends as fine.
pub(crate) fn fine(text: Result<String, Fault>) -> Result<CommandOutput, Fault>
    ensures { result ≡ result_map_both Fine (λ fault. fault) text }
{
    Ok(CommandOutput::Fine(text?))
}
