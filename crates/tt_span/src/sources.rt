//! How many time sources a machine may ask.

/// The greatest number of time sources of a machine.
pub const MAX_SOURCES: usize = 16;
