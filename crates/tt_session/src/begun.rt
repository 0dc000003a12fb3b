//! What a session keeps of a commit.

/// The last commit that the service began for a session.
#[derive(Clone, Copy, Debug, PartialEq, Eq)]
pub struct Begun {
    /// Its number in the session.
    pub number: u64,
    /// Its stamp, in nanoseconds.
    pub stamp: u64,
    /// Whether the service has answered the session that it is released.
    pub is_released: bool,
}
