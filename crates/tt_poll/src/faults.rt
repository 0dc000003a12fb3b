//! Why bytes, or the parts of a message, are not a poll message.

ghost use Rattle.std.specs.Prelude.{◌≡◌};
ghost use Rattle.tt_poll.specs.Fault.{number_of};

use thiserror::Error;

/// Why bytes, or the parts of a message, are refused. The reasons are tested in this order; `Epoch` is tested only in
/// TTP2.
#[derive(Clone, Copy, Debug, PartialEq, Eq, Error)]
pub enum PollFault {
    #[error("the length is neither a request's nor an answer's")]
    Length,
    #[error("the bytes do not begin with the name of the format")]
    Magic,
    #[error("the kind is unknown, or belongs to the other length")]
    Kind,
    #[error("the reserved byte is not 0")]
    Reserved,
    #[error("the machine is above 7, or the source is above 15")]
    Number,
    #[error("the nonce is 0")]
    Nonce,
    #[error("the epoch is 0")]
    Epoch,
    #[error("the two ends are not a valid span")]
    Span,
}

impl PollFault {
    /// The fault's number: 201 `Length`, 202 `Magic`, 203 `Kind`, 204 `Reserved`, 205 `Number`, 206 `Nonce`,
    /// 208 `Epoch`, 207 `Span`.
    pub fn number(&self) -> u16
        ensures { result ≡ number_of self.now }
    {
        match self {
            PollFault::Length => 201,
            PollFault::Magic => 202,
            PollFault::Kind => 203,
            PollFault::Reserved => 204,
            PollFault::Number => 205,
            PollFault::Nonce => 206,
            PollFault::Epoch => 208,
            PollFault::Span => 207,
        }
    }
}
