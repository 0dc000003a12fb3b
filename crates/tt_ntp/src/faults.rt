//! Why a reply is refused.

ghost use Rattle.std.specs.Prelude.{◌≡◌};
ghost use Rattle.tt_ntp.specs.Fault.{number_of};

use thiserror::Error;

/// Why a reply is refused. The reasons are tested in this order.
#[derive(Clone, Copy, Debug, PartialEq, Eq, Error)]
pub enum NtpFault {
    #[error("the length is not that of a reply")]
    Length,
    #[error("the key has another number")]
    OtherKey,
    #[error("the digest is not that of the reply")]
    WrongDigest,
    #[error("the version is not 4")]
    Version,
    #[error("the mode is not a server's")]
    Mode,
    #[error("the origin timestamp is not the nonce")]
    Origin,
    #[error("the server is asked too often")]
    Rate,
    #[error("the server gives this client no time")]
    Denied,
    #[error("by its rules the server gives this client no time")]
    Restricted,
    #[error("the server sends another kiss code")]
    Kiss,
    #[error("the server's clock is not set")]
    Unset,
    #[error("the stratum is 16 or above")]
    Stratum,
    #[error("the server follows nothing but its own clock")]
    Local,
    #[error("the transmit timestamp is 0")]
    NoTransmit,
    #[error("the transmit timestamp is before the receive timestamp")]
    Backwards,
    #[error("the transmit timestamp is before the reference timestamp")]
    Reference,
    #[error("the radius is above a second")]
    Distance,
    #[error("the upper end is above the greatest time")]
    PastMax,
}

impl NtpFault {
    /// The fault's number: 2301 `Length`, 2302 `OtherKey`, 2303 `WrongDigest`, 2304 `Version`, 2305 `Mode`, 2306 `Origin`,
    /// 2307 `Rate`, 2308 `Denied`, 2309 `Restricted`, 2310 `Kiss`, 2311 `Unset`, 2312 `Stratum`, 2313 `Local`,
    /// 2314 `NoTransmit`, 2315 `Backwards`, 2316 `Reference`, 2317 `Distance`, 2318 `PastMax`.
    pub fn number(&self) -> u16
        ensures { result ≡ number_of self.now }
    {
        match self {
            NtpFault::Length => 2301,
            NtpFault::OtherKey => 2302,
            NtpFault::WrongDigest => 2303,
            NtpFault::Version => 2304,
            NtpFault::Mode => 2305,
            NtpFault::Origin => 2306,
            NtpFault::Rate => 2307,
            NtpFault::Denied => 2308,
            NtpFault::Restricted => 2309,
            NtpFault::Kiss => 2310,
            NtpFault::Unset => 2311,
            NtpFault::Stratum => 2312,
            NtpFault::Local => 2313,
            NtpFault::NoTransmit => 2314,
            NtpFault::Backwards => 2315,
            NtpFault::Reference => 2316,
            NtpFault::Distance => 2317,
            NtpFault::PastMax => 2318,
        }
    }
}
