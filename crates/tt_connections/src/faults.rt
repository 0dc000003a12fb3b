//! The refusals of a station itself. Its watch, its seat and its book have more.

ghost use Rattle.std.specs.Prelude.{◌≡◌};
ghost use Rattle.tt_connections.specs.Fault.{number_of};

use thiserror::Error;

/// Why a station refuses a call that its watch, its seat and its book do not refuse.
#[derive(Clone, Copy, Debug, PartialEq, Eq, Error)]
pub enum StationFault {
    #[error("the floor is further ahead than this server allows")]
    FloorAboveCap,
    #[error("the client has left")]
    ClientLeft,
    #[error("an assumption of the service is broken on this machine")]
    Broken,
    #[error("the reading is wider than this server allows")]
    TooWide,
}

impl StationFault {
    /// The fault's number: 1821 `FloorAboveCap`, 1822 `ClientLeft`, 1823 `Broken`, 1824 `TooWide`.
    pub fn number(&self) -> u16
        ensures { result ≡ number_of self.now }
    {
        match self {
            StationFault::FloorAboveCap => 1821,
            StationFault::ClientLeft => 1822,
            StationFault::Broken => 1823,
            StationFault::TooWide => 1824,
        }
    }
}
