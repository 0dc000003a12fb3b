//! What a refusal means.

ghost use Rattle.std.specs.Prelude.{◌≡◌};
ghost use Rattle.tt_upstream.specs.Refusal.{meaning_of as meaning_of_fault, is_kiss_fault as is_kiss_of};

use tt_ntp::NtpFault;

/// What a refusal means for what is known of a server.
#[derive(Clone, Copy)]
pub(crate) enum Meaning {
    /// The bytes are no reply of the server to the request.
    Stray,
    /// The server is asked too often.
    TooOften,
    /// The server gives this client no time, now or later.
    Stop,
    /// The server has no time to give that can be taken.
    NoTime,
}

/// What this refusal means.
pub(crate) fn meaning_of(fault: NtpFault) -> Meaning
    ensures { result ≡ meaning_of_fault fault }
{
    match fault {
        NtpFault::Length => Meaning::Stray,
        NtpFault::OtherKey => Meaning::Stray,
        NtpFault::WrongDigest => Meaning::Stray,
        NtpFault::Version => Meaning::Stray,
        NtpFault::Mode => Meaning::Stray,
        NtpFault::Origin => Meaning::Stray,
        NtpFault::Rate => Meaning::TooOften,
        NtpFault::Denied => Meaning::Stop,
        NtpFault::Restricted => Meaning::Stop,
        NtpFault::Kiss => Meaning::NoTime,
        NtpFault::Unset => Meaning::NoTime,
        NtpFault::Stratum => Meaning::NoTime,
        NtpFault::Local => Meaning::NoTime,
        NtpFault::NoTransmit => Meaning::NoTime,
        NtpFault::Backwards => Meaning::NoTime,
        NtpFault::Reference => Meaning::NoTime,
        NtpFault::Distance => Meaning::NoTime,
        NtpFault::PastMax => Meaning::NoTime,
    }
}

/// Whether this refusal is a kiss code.
pub(crate) fn is_kiss(fault: NtpFault) -> bool
    ensures { result ≡ is_kiss_of fault }
{
    match fault {
        NtpFault::Rate => true,
        NtpFault::Denied => true,
        NtpFault::Restricted => true,
        NtpFault::Kiss => true,
        NtpFault::Length => false,
        NtpFault::OtherKey => false,
        NtpFault::WrongDigest => false,
        NtpFault::Version => false,
        NtpFault::Mode => false,
        NtpFault::Origin => false,
        NtpFault::Unset => false,
        NtpFault::Stratum => false,
        NtpFault::Local => false,
        NtpFault::NoTransmit => false,
        NtpFault::Backwards => false,
        NtpFault::Reference => false,
        NtpFault::Distance => false,
        NtpFault::PastMax => false,
    }
}
