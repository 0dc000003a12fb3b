//! How the program ends.

ghost use Rattle.std.specs.Prelude.{◌≡◌};
ghost use Rattle.std.specs.Process.{exit_status};
ghost use Rattle.ttd_words.specs.Answer.{code_of};

use std::process::ExitCode;

/// How the program ends.
#[derive(Clone, Copy)]
pub enum Status {
    /// The answer or the help was written: 0.
    Fine,
    /// Out of memory (`refused 1`): 1.
    Memory,
    /// The arguments, the input or a configuration were rejected, or a machine refused a line, and the refusal was
    /// written; or a life of `serve` ended as the next status says, and is to stay down: 2.
    Bad,
    /// A report was written of something wrong: a run that does not keep the assumptions, a wrong reading of `live`, or
    /// a history that is not consistent; or a life of `serve` ended itself, since one of its assumptions is broken: 3.
    Broken,
    /// A device failed: in reading (1604) or in writing (1605, which can't be written), a file, a connection or a
    /// clock: 4.
    Device,
    /// A commit is pending after all tries of `ask`: 5.
    Pending,
}

impl Status {
    /// The status as the number with which the process exits.
    pub fn code(self) -> u8
        ensures { result ≡ code_of self }
    {
        match self {
            Status::Fine => 0,
            Status::Memory => 1,
            Status::Bad => 2,
            Status::Broken => 3,
            Status::Device => 4,
            Status::Pending => 5,
        }
    }
}

impl From<Status> for ExitCode {
    ghost from_gives = { λ status code. exit_status code ≡ code_of status };

    fn from(status: Status) -> ExitCode {
        ExitCode::from(status.code())
    }
}
