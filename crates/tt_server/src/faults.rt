//! Why a machine does not serve.

ghost use Rattle.std.specs.Prelude.{◌≡◌};
ghost use Rattle.tt_server.specs.Fault.{number_of};

use thiserror::Error;
use tt_epoch::EpochFault;
use tt_files::Reason;
use tt_keys::KeysFault;
use tt_publish::PublishFault;
use tt_report::ReporterFault;

/// Why a machine does not serve. Each fault comes before the first client is served, and has the reason of the call that
/// failed, if one did.
#[derive(Clone, Copy, Debug, PartialEq, Eq, Error)]
pub enum ServerFault {
    #[error("the address can't be listened at: {0}")]
    CannotListen(Reason),
    #[error("the address for pages can't be listened at: {0}")]
    CannotServePages(Reason),
    #[error("the socket for polls can't be opened: {0}")]
    CannotPoll(Reason),
    #[error("the Unix socket can't be listened at: {0}")]
    CannotListenSocket(Reason),
    #[error("what is at the path of the Unix socket is not a socket")]
    NotSocket,
    #[error("no epoch: {0}")]
    Epoch(EpochFault),
    #[error("nothing can be published: {0}")]
    Publish(PublishFault),
    #[error("a thread could not be started")]
    NoThread,
    #[error("{0}")]
    Keys(KeysFault),
    #[error("the file of keys has no key with the number {0}")]
    NoKey(u32),
    #[error("masters of IPv4 and of IPv6, and a socket of IPv6 is for IPv6 alone")]
    MixedFamilies,
    #[error("no random bytes")]
    NoRandom,
    #[error("out of memory")]
    Memory,
}

impl ServerFault {
    /// The number of the fault: 1807 `CannotListen`, 1830 `CannotServePages`, 1808 `CannotPoll`, 1809 `CannotListenSocket`, 1819 `NotSocket`, the
    /// number of the inner fault for `Epoch` (1811 to 1815, 1), `Publish` and `Keys` (2211 to 2216), 1816 `NoThread`, 1827
    /// `NoKey`, 1828 `MixedFamilies`, 1829 `NoRandom`, 1 `Memory`.
    pub fn number(&self) -> u16
        ensures value { result ≡ number_of self.now }
    {
        match self {
            ServerFault::CannotListen(_) => 1807,
            ServerFault::CannotServePages(_) => 1830,
            ServerFault::CannotPoll(_) => 1808,
            ServerFault::CannotListenSocket(_) => 1809,
            ServerFault::NotSocket => 1819,
            ServerFault::Epoch(fault) => fault.number(),
            ServerFault::Publish(fault) => fault.number(),
            ServerFault::NoThread => ReporterFault::NoThread.number(),
            ServerFault::Keys(fault) => fault.number(),
            ServerFault::NoKey(_) => 1827,
            ServerFault::MixedFamilies => 1828,
            ServerFault::NoRandom => 1829,
            ServerFault::Memory => 1,
        }
    }
}
