//! The calls of a conversation with a service. No value of this type is made: it is for contracts.

use tt_publish::Reading;

/// A call of a service with its answer. A refusal is its number.
pub enum Call {
    /// A reading was asked for.
    Now(Result<Reading, u16>),
    /// A commit was to begin. The answer is its stamp, in nanoseconds.
    Begin {
        /// Its number in the session.
        number: u64,
        /// The least stamp that the client accepts, in nanoseconds.
        floor: u64,
        /// Its stamp, in nanoseconds.
        answer: Result<u64, u16>,
    },
    /// The lease of the session was to be set.
    Lease {
        /// Its lower end, in nanoseconds.
        lo: u64,
        /// Its upper end, in nanoseconds.
        hi: u64,
        /// Whether it is set.
        answer: Result<(), u16>,
    },
    /// One release step; the answer is whether the commit is released.
    Pass {
        /// Its number in the session.
        number: u64,
        /// Whether it is released.
        answer: Result<bool, u16>,
    },
}
