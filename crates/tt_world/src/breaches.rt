//! What breaks the assumptions of a run.

/// The first assumption that an event breaks, with the machine on which it does.
#[derive(Clone, Copy, Debug, PartialEq, Eq)]
pub enum Breach {
    /// The clock of this machine has broken its drift bound.
    Drift(u8),
    /// This machine fuses while more than `faulty` of its statements are false.
    FalseStatements(u8),
}
