//! Why a service refuses, and how the program ends after it.

ghost use Rattle.std.specs.Prelude.{◌≡◌};
ghost use Rattle.ttd.specs.Fault.{master_refused, number_of, status_of, status_of_epoch, status_of_keys, status_of_master, status_of_publish, status_of_server, status_of_settings, status_of_shared, status_of_view, status_of_words};
ghost use Rattle.ttd.specs.declared.faults.ServiceFault.TheVariants.{Memory};

use std::alloc::{AllocError, AllocFailed};
use thiserror::Error;
use tt_epoch::EpochFault;
use tt_keys::KeysFault;
use tt_publish::PublishFault;
use tt_rounds::LinkFault;
use tt_server::ServerFault;
use tt_settings::SettingsFault;
use tt_shared::SharedFault;
use tt_top::ViewFault;
use ttd_commands::Fault;
use ttd_masters::StartFault;
use ttd_words::{Status, WordsFault};

/// Why a service prints a refusal.
#[derive(Clone, Copy, Debug, Error)]
pub enum ServiceFault {
    /// The arguments after the program's name are rejected.
    #[error("{0}")]
    Words(WordsFault),
    /// The configuration file is longer than 1 MiB, or is not UTF-8.
    #[error("the file is longer than 1048576 bytes, or is not UTF-8")]
    BadFile,
    /// The configuration file or standard input can't be read.
    #[error("reading failed")]
    ReadFailed,
    /// A connection can't be had, or failed.
    #[error("the link failed")]
    LinkFailed,
    /// A master does not serve.
    #[error("{0}")]
    Master(StartFault),
    /// The system gives no random bytes.
    #[error("no random bytes")]
    NoRandom,
    /// The stack of the process is limited to less than 2 MiB.
    #[error("the stack is smaller than 2097152 bytes")]
    SmallStack,
    /// The configuration is refused.
    #[error("not a configuration")]
    Settings(SettingsFault),
    /// The shared file gives no reading.
    #[error("no reading: {0}")]
    Shared(SharedFault),
    /// The machine does not serve.
    #[error("the machine does not serve: {0}")]
    Server(ServerFault),
    /// What is read shows no machine.
    #[error("nothing to show: {0}")]
    View(ViewFault),
    /// Out of memory: an allocation failed.
    #[error("out of memory")]
    Memory,
}

impl ServiceFault {
    /// The number of the refusal: 1603 `BadFile`, 1604 `ReadFailed`, 1501 `LinkFailed`, 1829
    /// `NoRandom`, 1831 `SmallStack`, the number of the inner fault for `Words`, `Master`, `Settings`, `Shared`, `Server` and `View`, and 1
    /// `Memory`.
    pub fn number(&self) -> u16
        ensures { result ≡ number_of self.now }
    {
        match self {
            ServiceFault::Words(fault) => fault.number(),
            ServiceFault::BadFile => Fault::BadInput.number(),
            ServiceFault::ReadFailed => Fault::ReadFailed.number(),
            ServiceFault::LinkFailed => LinkFault::Failed.number(),
            ServiceFault::Master(fault) => fault.number(),
            ServiceFault::NoRandom => 1829,
            ServiceFault::SmallStack => 1831,
            ServiceFault::Settings(fault) => fault.number(),
            ServiceFault::Shared(fault) => fault.number(),
            ServiceFault::Server(fault) => fault.number(),
            ServiceFault::View(fault) => fault.number(),
            ServiceFault::Memory => 1,
        }
    }

    /// How the program ends after this refusal.
    pub fn status(&self) -> Status
        ensures { result ≡ status_of self.now }
    {
        match self {
            ServiceFault::Words(fault) => status_of_words(*fault),
            ServiceFault::ReadFailed | ServiceFault::LinkFailed | ServiceFault::NoRandom => {
                Status::Device
            }
            ServiceFault::Master(fault) => status_of_master(*fault),
            ServiceFault::Settings(fault) => status_of_settings(*fault),
            ServiceFault::Shared(fault) => status_of_shared(*fault),
            ServiceFault::Server(fault) => status_of_server(*fault),
            ServiceFault::View(fault) => status_of_view(*fault),
            ServiceFault::Memory => Status::Memory,
            _ => Status::Bad,
        }
    }
}

/// How the program ends if arguments are rejected.
fn status_of_words(fault: WordsFault) -> Status
    ensures { result ≡ status_of_words fault }
{
    match fault {
        WordsFault::Memory => Status::Memory,
        _ => Status::Bad,
    }
}

/// How the program ends if a file of keys gives none: as after a failed device where it can't be read.
fn status_of_keys(fault: KeysFault) -> Status
    ensures { result ≡ status_of_keys fault }
{
    match fault {
        KeysFault::CannotRead(_) | KeysFault::UnknownUser(_) => Status::Device,
        KeysFault::Memory => Status::Memory,
        _ => Status::Bad,
    }
}

/// How the program ends if a master does not serve: as after a failed device where it has not its sockets, its file or random
/// bytes.
fn status_of_master(fault: StartFault) -> Status
    ensures { result ≡ status_of_master fault }
{
    match fault {
        StartFault::ReadFailed(_)
        | StartFault::CannotListen(_, _)
        | StartFault::CannotServePages(_, _)
        | StartFault::CannotAsk(_, _)
        | StartFault::NoRandom => Status::Device,
        StartFault::Keys(fault) => status_of_keys(fault),
        StartFault::Memory => Status::Memory,
        _ => Status::Bad,
    }
}

/// How the program ends if a configuration is refused.
fn status_of_settings(fault: SettingsFault) -> Status
    ensures { result ≡ status_of_settings fault }
{
    match fault {
        SettingsFault::Memory => Status::Memory,
        _ => Status::Bad,
    }
}

/// How the program ends if a shared file gives no reading.
fn status_of_shared(fault: SharedFault) -> Status
    ensures { result ≡ status_of_shared fault }
{
    match fault {
        SharedFault::CannotOpen | SharedFault::ClockFailed => Status::Device,
        _ => Status::Bad,
    }
}

/// How the program ends if what is read shows no machine.
fn status_of_view(fault: ViewFault) -> Status
    ensures { result ≡ status_of_view fault }
{
    match fault {
        ViewFault::Memory => Status::Memory,
        _ => Status::Bad,
    }
}

/// How the program ends if a machine has no epoch: as after a failed device where its file can't be read or written.
fn status_of_epoch(fault: EpochFault) -> Status
    ensures { result ≡ status_of_epoch fault }
{
    match fault {
        EpochFault::ReadFailed(_)
        | EpochFault::FolderFailed(_)
        | EpochFault::LockFailed(_)
        | EpochFault::WriteFailed(_) => Status::Device,
        EpochFault::Memory => Status::Memory,
        _ => Status::Bad,
    }
}

/// How the program ends if nothing can be published.
fn status_of_publish(fault: PublishFault) -> Status
    ensures { result ≡ status_of_publish fault }
{
    match fault {
        PublishFault::Memory => Status::Memory,
        _ => Status::Bad,
    }
}

/// How the program ends if a machine does not serve: as after a failed device where it has not its sockets, and by what
/// is wrong with its epoch and its publications.
fn status_of_server(fault: ServerFault) -> Status
    ensures { result ≡ status_of_server fault }
{
    match fault {
        ServerFault::CannotListen(_)
        | ServerFault::CannotServePages(_)
        | ServerFault::CannotPoll(_)
        | ServerFault::CannotListenSocket(_)
        | ServerFault::NoRandom => Status::Device,
        ServerFault::Keys(fault) => status_of_keys(fault),
        ServerFault::Epoch(fault) => status_of_epoch(fault),
        ServerFault::Publish(fault) => status_of_publish(fault),
        ServerFault::Memory => Status::Memory,
        _ => Status::Bad,
    }
}

impl From<StartFault> for ServiceFault {
    ghost from_gives = { λ inner fault. fault ≡ master_refused inner };

    fn from(fault: StartFault) -> ServiceFault {
        match fault {
            StartFault::BadFile => ServiceFault::BadFile,
            StartFault::ReadFailed(_) => ServiceFault::ReadFailed,
            StartFault::Memory => ServiceFault::Memory,
            other => ServiceFault::Master(other),
        }
    }
}

impl From<AllocError> for ServiceFault {
    ghost from_gives = { λ _ fault. fault ≡ Memory };

    fn from(_error: AllocError) -> ServiceFault {
        ServiceFault::Memory
    }
}

impl<T: Drop> From<AllocFailed<T>> for ServiceFault {
    ghost from_gives = { λ _ fault. fault ≡ Memory };

    fn from(_error: AllocFailed<T>) -> ServiceFault {
        ServiceFault::Memory
    }
}
