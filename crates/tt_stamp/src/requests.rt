//! What a try for a stamp asks.

use tt_span::Span;

/// What a stamp is asked for: the latest of the reading and the floor, both in nanoseconds, and the lease.
#[derive(Clone, Copy)]
pub(crate) struct StampRequest {
    pub(crate) latest: u64,
    pub(crate) floor: u64,
    pub(crate) lease: Span,
}
