//! Why arguments are rejected.

ghost use Rattle.std.specs.Prelude.{◌≡◌};
ghost use Rattle.ttd_words.specs.Fault.{id_of, number_of, value_number};
ghost use Rattle.ttd_words.specs.declared.faults.WordsFault.TheVariants.{Memory};

use std::alloc::{AllocError, AllocFailed};
use thiserror::Error;

/// An option of `master` that only one kind of its time has. It is shown as it is written.
#[derive(Clone, Copy, Debug, PartialEq, Eq, Error)]
pub enum TimeOption {
    /// `--phc`, of a stated uncertainty.
    #[error("--phc")]
    Phc,
    /// `--tai-offset`, of a stated uncertainty.
    #[error("--tai-offset")]
    TaiOffset,
    /// `--offset`, of a stated uncertainty.
    #[error("--offset")]
    Offset,
    /// `--act`, of a stated uncertainty.
    #[error("--act")]
    Act,
    /// `--faulty`, of NTP servers.
    #[error("--faulty")]
    Faulty,
    /// `--margin`, of NTP servers.
    #[error("--margin")]
    Margin,
    /// `--every`, of NTP servers.
    #[error("--every")]
    Every,
    /// `--max-age`, of NTP servers.
    #[error("--max-age")]
    MaxAge,
    /// `--ntp-key`, of NTP servers.
    #[error("--ntp-key")]
    NtpKey,
    /// `--ntp-keys`, of NTP servers.
    #[error("--ntp-keys")]
    NtpKeys,
    /// `--local`, of NTP servers.
    #[error("--local")]
    Local,
}

/// An argument of which clap takes any text, though the program does not. It is shown as what it would have to be.
#[derive(Clone, Copy, Debug, PartialEq, Eq, Error)]
pub enum Given {
    /// `--side` of `twin`.
    #[error("invalid arguments: --side is low or high")]
    Side,
    /// `--listen` of `master`, which is no address.
    #[error("invalid arguments: --listen is an address and a port, as 10.0.0.1:7001 or [fd00::1]:7001")]
    Listen,
    /// `--listen` of `master`, which is outside this host, where it has no keys.
    #[error("outside this host a key is needed: --keys FILE, or --listen 127.0.0.1:PORT")]
    NotLocal,
    /// `--offset` of `master`.
    #[error("invalid arguments: --offset is nanoseconds without leading zeros, and behind a minus as --offset=-NS")]
    Offset,
    /// `--log` of `master`.
    #[error("invalid arguments: --log is text or json")]
    Log,
    /// `--act` of `master`.
    #[error("invalid arguments: --act is honest, silent, garbage, repeat, 'ahead N' or 'behind N'")]
    Act,
    /// Neither `--uncertainty` nor `--ntp` of `master`.
    #[error("invalid arguments: --uncertainty NS is needed, or --ntp ADDRESS:PORT")]
    NoTime,
    /// Both `--uncertainty` and `--ntp` of `master`.
    #[error("invalid arguments: --uncertainty goes without --ntp, and --ntp without --uncertainty")]
    BothTimes,
    /// An option of `master` that goes with `--uncertainty` alone, beside `--ntp`.
    #[error("invalid arguments: {0} goes with --uncertainty, and not with --ntp")]
    WithNtp(TimeOption),
    /// An option of `master` that goes with `--ntp` alone, beside `--uncertainty`.
    #[error("invalid arguments: {0} goes with --ntp, and not with --uncertainty")]
    WithoutNtp(TimeOption),
    /// An option of `master` that goes with this computer's real-time clock alone, beside `--phc`.
    #[error("invalid arguments: {0} goes without --phc")]
    WithPhc(TimeOption),
    /// `--phc` of `master` without `--tai-offset`.
    #[error("invalid arguments: --phc PATH needs --tai-offset N")]
    PhcAlone,
    /// `--tai-offset` of `master` without `--phc`.
    #[error("invalid arguments: --tai-offset N needs --phc PATH")]
    TaiOffsetAlone,
    /// `--ntp` of `master`, which is no address with a port above 0.
    #[error("invalid arguments: --ntp is an address and a port above 0, as 10.0.0.1:123 or [fd00::1]:123")]
    Ntp,
    /// `--ntp` of `master`, more often than 16 times.
    #[error("invalid arguments: --ntp is given at most 16 times")]
    ManyServers,
    /// `--ntp` of `master`, twice with one address.
    #[error("invalid arguments: each --ntp has an address of its own")]
    ServerTwice,
    /// `--faulty` of `master`, which is too great for its servers.
    #[error("invalid arguments: --faulty N needs --ntp at least 2 N + 1 times")]
    Faulty,
    /// `--every` of `master`.
    #[error("invalid arguments: --every is a time with its unit from 1ms to 86400s, as 64s")]
    Every,
    /// `--max-age` of `master`.
    #[error("invalid arguments: --max-age is a time with its unit from 1ms to 86400s, as 1024s")]
    MaxAge,
    /// `--ntp-key` of `master` without `--ntp-keys`.
    #[error("invalid arguments: --ntp-key N needs --ntp-keys FILE")]
    NtpKeyAlone,
    /// `--ntp-keys` of `master` without `--ntp-key`.
    #[error("invalid arguments: --ntp-keys FILE needs --ntp-key N")]
    NtpKeysAlone,
    /// `--http` of `master`, which is no address with a port above 0.
    #[error("invalid arguments: --http is an address and a port above 0, as 127.0.0.1:9561 or 10.0.0.1:9561")]
    Http,
    /// `--name` of `key`.
    #[error("invalid arguments: --name is printable characters of ASCII without blanks")]
    Name,
    /// The machine that `ask` asks, or the place of the status that `top` shows.
    #[error("neither an address of this host, as 127.0.0.1:7101, nor a path: a text with a slash, or without a colon")]
    Address,
}

impl TimeOption {
    /// The name of the option without its hyphens.
    pub(crate) fn id(self) -> &'static str
        ensures { result.now ≡ id_of self }
    {
        match self {
            TimeOption::Phc => "phc",
            TimeOption::TaiOffset => "tai-offset",
            TimeOption::Offset => "offset",
            TimeOption::Act => "act",
            TimeOption::Faulty => "faulty",
            TimeOption::Margin => "margin",
            TimeOption::Every => "every",
            TimeOption::MaxAge => "max-age",
            TimeOption::NtpKey => "ntp-key",
            TimeOption::NtpKeys => "ntp-keys",
            TimeOption::Local => "local",
        }
    }
}

impl Given {
    /// The number of the refusal of such a value: 1805 of one that is outside this host, else 1601.
    fn number(self) -> u16
        ensures { result ≡ value_number self }
    {
        match self {
            Given::NotLocal | Given::Address => 1805,
            _ => 1601,
        }
    }
}

/// Why arguments are rejected.
#[derive(Clone, Copy, Debug, PartialEq, Eq, Error)]
pub enum WordsFault {
    /// The command line does not take the arguments.
    #[error("invalid arguments")]
    BadWords,
    /// It takes them, but the value of this one is invalid.
    #[error("{0}")]
    BadValue(Given),
    /// Out of memory: an allocation failed.
    #[error("out of memory")]
    Memory,
}

impl WordsFault {
    /// The number of the refusal: 1601 `BadWords`, 1805 of a `BadValue` that is outside this host and 1601
    /// of any other, 1 `Memory`.
    pub fn number(&self) -> u16
        ensures { result ≡ number_of self.now }
    {
        match self {
            WordsFault::BadWords => 1601,
            WordsFault::BadValue(given) => given.number(),
            WordsFault::Memory => 1,
        }
    }
}

impl From<AllocError> for WordsFault {
    ghost from_gives = { λ _ fault. fault ≡ Memory };

    fn from(_error: AllocError) -> WordsFault {
        WordsFault::Memory
    }
}

impl<T: Drop> From<AllocFailed<T>> for WordsFault {
    ghost from_gives = { λ _ fault. fault ≡ Memory };

    fn from(_error: AllocFailed<T>) -> WordsFault {
        WordsFault::Memory
    }
}
