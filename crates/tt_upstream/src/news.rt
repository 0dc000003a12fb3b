//! What a request and its reply leave.

use tt_ntp::Leap;
use tt_source::Statement;

/// A request that is awaited: its nonce, and the clock reading at which it was sent.
#[derive(Clone, Copy)]
pub(crate) struct Asking {
    pub(crate) nonce: u64,
    pub(crate) sent: u64,
}

/// What is known of a server: the statement of its last reply that was taken, and its stratum.
#[derive(Clone, Copy)]
pub(crate) struct Known {
    pub(crate) statement: Statement,
    pub(crate) stratum: u8,
}

/// What a reply tells: its statement and stratum, and its word on leap seconds.
#[derive(Clone, Copy)]
pub(crate) struct News {
    pub(crate) known: Known,
    pub(crate) leap: Leap,
}
