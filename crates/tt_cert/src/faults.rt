//! Why a certificate, or its text, is refused.

ghost use Rattle.std.specs.Prelude.{◌≡◌};
ghost use Rattle.tt_cert.specs.Fault.{number_of, fault_of};

use thiserror::Error;
use tt_fuse::CountFault;

/// Why a certificate, or its text, is refused.
#[derive(Clone, Copy, Debug, PartialEq, Eq, Error)]
pub enum CertFault {
    #[error("there is no source")]
    NoSource,
    #[error("there are more sources than can be fused")]
    TooMany,
    #[error("there are too few sources for the number that may be wrong")]
    TooFew,
    #[error("the left set does not show that the lower end is possible")]
    LeftSet,
    #[error("the right set does not show that the upper end is possible")]
    RightSet,
    #[error("the stretches do not cover the times outside the claim side by side")]
    Cover,
    #[error("a stretch is met by enough sources for a possible time")]
    TooDeep,
    #[error("a stretch names another number than that of the sources that meet it")]
    Depth,
    #[error("the text is no certificate")]
    BadText,
    #[error("out of memory")]
    Memory,
}

impl CertFault {
    /// The fault's number: 501 for `NoSource`, 502 for `TooMany`, 503 for `TooFew`, 601 for `LeftSet`, 602 for
    /// `RightSet`, 603 for `Cover`, 604 for `TooDeep`, 605 for `Depth`, 606 for `BadText`, 1 for `Memory`.
    pub fn number(&self) -> u16
        ensures { result ≡ number_of self.now }
    {
        match self {
            CertFault::NoSource => 501,
            CertFault::TooMany => 502,
            CertFault::TooFew => 503,
            CertFault::LeftSet => 601,
            CertFault::RightSet => 602,
            CertFault::Cover => 603,
            CertFault::TooDeep => 604,
            CertFault::Depth => 605,
            CertFault::BadText => 606,
            CertFault::Memory => 1,
        }
    }
}

impl From<CountFault> for CertFault {
    ghost from_gives = { λ count fault. fault ≡ fault_of count };

    fn from(count: CountFault) -> CertFault {
        match count {
            CountFault::NoSource => CertFault::NoSource,
            CountFault::TooMany => CertFault::TooMany,
            CountFault::TooFew => CertFault::TooFew,
        }
    }
}
