//! What the seats of a sequencer know of the stamps that it gave. No value of these types is made: they are for
//! contracts.

use std::collections::LinkedList;
use tt_span::Span;

/// A stamp that was given, and what it was asked for. Times are in nanoseconds.
pub struct Stamping {
    /// The number of the seat under which it was given.
    pub number: u64,
    /// The latest of the reading.
    pub latest: u64,
    /// The floor: the least stamp that was accepted.
    pub floor: u64,
    /// The lease.
    pub lease: Span,
    /// The stamp.
    pub stamp: u64,
}

/// The stamps that a seat with these numbers has seen, newest first.
pub(crate) struct Known {
    pub(crate) numbers: LinkedList<u64>,
    pub(crate) seen: LinkedList<Stamping>,
}

/// What a seat knows: how many seats were opened, its numbers, and what it has seen. A seat that was just joined of two
/// knows two lists, what each of the two had seen; any other seat knows one list.
pub(crate) struct View {
    pub(crate) seats: u64,
    pub(crate) numbers: LinkedList<u64>,
    pub(crate) first: Known,
    pub(crate) second: Known,
}
