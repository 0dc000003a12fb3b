//! Why the program refuses.

ghost use Rattle.std.specs.Prelude.{◌≡◌};
ghost use Rattle.ttd_commands.specs.declared.faults.Fault.TheVariants.{Certificate, Fusion};
ghost use Rattle.ttd_commands.specs.Fault.{number_of, status_at, status_of};

use thiserror::Error;
use tt_cert::CertFault;
use tt_fuse::FuseFault;
use tt_judge::HistoryFault;
use tt_live::LiveFault;
use tt_poll::PollFault;
use tt_rounds::NodeFault;
use tt_script::ScriptFault;
use tt_source::SourceFault;
use tt_twin::TwinFault;
use tt_world::WorldFault;
use ttd_words::Status;

/// Why the program prints a refusal in place of an answer.
#[derive(Clone, Copy, Debug, PartialEq, Eq, Error)]
pub enum Fault {
    /// The arguments after the program's name are invalid.
    #[error("invalid arguments")]
    BadWords,
    /// The input is not hex text.
    #[error("not hex")]
    BadHex,
    /// The input is longer than [`MOST_INPUT`](crate::input::MOST_INPUT) bytes, or is not spans text.
    #[error("invalid input")]
    BadInput,
    /// Reading the input failed.
    #[error("reading the input failed")]
    ReadFailed,
    /// The bytes are not a valid poll message.
    #[error("not a valid poll message: {0}")]
    Poll(PollFault),
    /// The message is not an answer, or the clock readings are out of order.
    #[error("not a statement of a source: {0}")]
    Source(SourceFault),
    /// The spans have no fusion.
    #[error("no fusion: {0}")]
    Fusion(FuseFault),
    /// The certificate does not prove its claim, or the text is not certificate text.
    #[error("not a valid certificate: {0}")]
    Certificate(CertFault),
    /// The text is not a history.
    #[error("not a history: {0}")]
    History(HistoryFault),
    /// The text is not a script.
    #[error("not a valid script: {0}")]
    Script(ScriptFault),
    /// The reading has no twin.
    #[error("no twin: {0}")]
    Twin(TwinFault),
    /// The machines can't be run. No script gives such machines.
    #[error("no run: {0}")]
    World(WorldFault),
    /// The script is not run in threads, or its run ended.
    #[error("no run in threads: {0}")]
    Live(LiveFault),
    /// Out of memory: an allocation failed.
    #[error("out of memory")]
    Memory,
}

impl From<FuseFault> for Fault {
    ghost from_gives = { λ fuse fault. fault ≡ Fusion fuse };

    fn from(fuse: FuseFault) -> Fault {
        Fault::Fusion(fuse)
    }
}

impl From<CertFault> for Fault {
    ghost from_gives = { λ cert fault. fault ≡ Certificate cert };

    fn from(cert: CertFault) -> Fault {
        Fault::Certificate(cert)
    }
}

impl Fault {
    /// The number of the refusal: 1601 `BadWords`, 1602 `BadHex`, 1603 `BadInput`, 1604 `ReadFailed`, the number of the
    /// inner fault for `Poll`, `Source`, `Fusion`, `Certificate`, `History`, `Script`, `Twin`, `World` and `Live`, and
    /// 1 for `Memory`.
    pub fn number(&self) -> u16
        ensures { result ≡ number_of self.now }
    {
        match self {
            Fault::BadWords => 1601,
            Fault::BadHex => 1602,
            Fault::BadInput => 1603,
            Fault::ReadFailed => 1604,
            Fault::Poll(fault) => fault.number(),
            Fault::Source(fault) => fault.number(),
            Fault::Fusion(fault) => fault.number(),
            Fault::Certificate(fault) => fault.number(),
            Fault::History(fault) => fault.number(),
            Fault::Script(fault) => fault.number(),
            Fault::Twin(fault) => fault.number(),
            Fault::World(fault) => fault.number(),
            Fault::Live(fault) => fault.number(),
            Fault::Memory => 1,
        }
    }

    /// How the program ends after this refusal.
    pub fn status(&self) -> Status
        ensures { result ≡ status_of self.now }
    {
        match self {
            Fault::ReadFailed => Status::Device,
            Fault::Memory => Status::Memory,
            Fault::Live(fault) => status_at(fault.number()),
            _ => Status::Bad,
        }
    }
}

/// How the program ends after a run in threads that was refused with this number.
fn status_at(number: u16) -> Status
    ensures { result ≡ status_at number }
{
    if number == 1 {
        Status::Memory
    } else if number == NodeFault::LinkFailed.number()
        || number == NodeFault::ClockFailed.number()
        || number == NodeFault::ReferenceFailed.number()
    {
        Status::Device
    } else {
        Status::Bad
    }
}
