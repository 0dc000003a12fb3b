//! Why a configuration is refused, and where.

ghost use Rattle.std.specs.Prelude.{◌≡◌};
ghost use Rattle.tt_settings.specs.Fault.{number_of, key_in};

use crate::keys::Key;
use std::alloc::{AllocError, AllocFailed};
use std::fmt::{self, Display, Formatter, Write};
use thiserror::Error;

impl Display for Key {
    fn fmt<W: Write>(&self, f: &mut Formatter<W>) -> fmt::Result {
        f.write_str(self.text())
    }
}

/// Why a configuration is refused. [`Refusal`](crate::Refusal) tells a person more.
#[derive(Clone, Copy, Debug, PartialEq, Eq, Error)]
pub enum SettingsFault {
    #[error("the text is not TOML")]
    NotToml,
    #[error("a key is not known")]
    UnknownKey,
    #[error("{0}: the key is missing")]
    MissingKey(Key),
    #[error("{0}: the value has another type, or is out of range")]
    WrongValue(Key),
    #[error("{0}: not an address of this host, as 127.0.0.1:7001; a master outside it needs a key")]
    NotLocal(Key),
    #[error("faulty: {faulty} of {masters} masters may be faulty at most {most}")]
    TooManyFaulty {
        masters: u64,
        faulty: u64,
        most: u64,
    },
    #[error("workers: a Unix socket takes one of at least two workers")]
    TooFewWorkers,
    #[error("{0}: the path, its draft or its lock has another purpose as well")]
    SamePath(Key),
    #[error("masters: one is named twice")]
    SameMaster,
    #[error("masters: there is also [[master]], and one of the two is enough")]
    BothForms,
    #[error("master: two have a key in common")]
    SameKey,
    #[error("out of memory")]
    Memory,
}

impl SettingsFault {
    /// The fault's number: 1801 `NotToml`, 1802 `UnknownKey`, 1803 `MissingKey`, 1804 `WrongValue`, 1805 `NotLocal`,
    /// 1806 `TooManyFaulty`, 1810 `TooFewWorkers`, 1817 `SamePath`, 1818 `SameMaster`, 1825 `BothForms`,
    /// 1826 `SameKey`, 1 `Memory`.
    pub fn number(&self) -> u16
        ensures { result ≡ number_of self.now }
    {
        match self {
            SettingsFault::NotToml => 1801,
            SettingsFault::UnknownKey => 1802,
            SettingsFault::MissingKey(_) => 1803,
            SettingsFault::WrongValue(_) => 1804,
            SettingsFault::NotLocal(_) => 1805,
            SettingsFault::TooManyFaulty { .. } => 1806,
            SettingsFault::TooFewWorkers => 1810,
            SettingsFault::SamePath(_) => 1817,
            SettingsFault::SameMaster => 1818,
            SettingsFault::BothForms => 1825,
            SettingsFault::SameKey => 1826,
            SettingsFault::Memory => 1,
        }
    }

    /// The key that is refused, if it is one that is known.
    pub fn key(&self) -> Option<Key>
        ensures { result ≡ key_in self.now }
    {
        match self {
            SettingsFault::MissingKey(key)
            | SettingsFault::WrongValue(key)
            | SettingsFault::NotLocal(key)
            | SettingsFault::SamePath(key) => Some(*key),
            SettingsFault::TooManyFaulty { .. } => Some(Key::Faulty),
            SettingsFault::TooFewWorkers => Some(Key::Workers),
            SettingsFault::SameMaster | SettingsFault::BothForms => Some(Key::Masters),
            SettingsFault::SameKey => Some(Key::Master),
            SettingsFault::NotToml | SettingsFault::UnknownKey | SettingsFault::Memory => None,
        }
    }
}

impl From<AllocError> for SettingsFault {
    ghost use Rattle.std.specs.Prelude.{◌≡◌};
    ghost use Rattle.tt_settings.specs.declared.faults.SettingsFault.TheVariants.{Memory};

    ghost from_gives = { λ _ e. e ≡ Memory };

    fn from(_error: AllocError) -> SettingsFault {
        SettingsFault::Memory
    }
}

impl<T: Drop> From<AllocFailed<T>> for SettingsFault {
    ghost use Rattle.std.specs.Prelude.{◌≡◌};
    ghost use Rattle.tt_settings.specs.declared.faults.SettingsFault.TheVariants.{Memory};

    ghost from_gives = { λ _ e. e ≡ Memory };

    fn from(_error: AllocFailed<T>) -> SettingsFault {
        SettingsFault::Memory
    }
}
