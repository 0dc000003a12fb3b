//! The configuration of a machine.

ghost use Rattle.std.specs.Prelude.{◌≡◌, ◌+◌, ◌*◌, ◌<◌, ◌≤◌, ◌↔◌, ◌⊎◌, IsOk, IfOk, IsErrOf};
ghost use Rattle.tt_span.specs.Sources.{max_sources};
ghost use Rattle.tt_daemon.specs.Config.{IsConfiguration, max_workers};
ghost use Rattle.tt_daemon.specs.Fault.{config_number_of, config_fault_of};

use std::marker::Model;
use thiserror::Error;
use tt_fuse::{CountFault, check_counts};
use tt_span::{Drift, MAX_DRIFT};

/// The most workers of a machine.
pub const MAX_WORKERS: usize = 32;

/// The drift of a machine's clock if no other is given, in parts per million. That is 200 microseconds in a second, far
/// more than a sound quartz clock gains or loses.
pub const DEFAULT_DRIFT: u32 = 200;

/// Why a configuration is refused.
#[derive(Clone, Copy, Debug, PartialEq, Eq, Error)]
pub enum ConfigFault {
    #[error("a machine asks one source at least")]
    NoSource,
    #[error("a machine asks sixteen sources at most")]
    TooManySources,
    #[error("too few sources for so many faulty ones")]
    TooFewSources,
    #[error("a machine has from one to thirty-two workers")]
    Workers,
}

impl ConfigFault {
    /// The fault's number: 501 `NoSource`, 502 `TooManySources`, 503 `TooFewSources`, 702 `Workers`.
    pub fn number(&self) -> u16
        ensures { result ≡ config_number_of self.now }
    {
        match self {
            ConfigFault::NoSource => 501,
            ConfigFault::TooManySources => 502,
            ConfigFault::TooFewSources => 503,
            ConfigFault::Workers => 702,
        }
    }
}

impl From<CountFault> for ConfigFault {
    ghost from_gives = { λ count fault. fault ≡ config_fault_of count };

    fn from(count: CountFault) -> ConfigFault {
        match count {
            CountFault::NoSource => ConfigFault::NoSource,
            CountFault::TooMany => ConfigFault::TooManySources,
            CountFault::TooFew => ConfigFault::TooFewSources,
        }
    }
}

/// The configuration of a machine: how many sources it asks, how many of them may be faulty, the drift of its clock,
/// and how many workers it has.
#[derive(Clone, Copy, Debug, PartialEq, Eq)]
pub struct Config {
    sources: usize,
    faulty: usize,
    drift: Drift,
    workers: usize,
}

impl Model for Config {
    ghost use Rattle.tt_daemon.specs.Config.{Configuration, IsConfiguration};

    ghost Value = { Configuration };

    ghost view = { λ c. record { sources = c.sources; faulty = c.faulty; drift = c.drift; workers = c.workers } };

    ghost invariant = { λ c. IsConfiguration (record { sources = c.sources; faulty = c.faulty; drift = c.drift; workers = c.workers }) };

    ghost inverse = { λ c. record { sources = c.sources; faulty = c.faulty; drift = c.drift; workers = c.workers } };
}

impl Config {
    /// The configuration of a machine with `sources` sources, `workers` workers, and a clock with this drift. At most
    /// `faulty` of the sources may be faulty. Refuses, in this order: 501 `NoSource` if there is no source, 502
    /// `TooManySources` if there are more than [`MAX_SOURCES`](crate::MAX_SOURCES), 503 `TooFewSources` if there are
    /// fewer than `2 * faulty + 1`, 702 `Workers` if there is no worker or more than [`MAX_WORKERS`].
    pub fn new(
        sources: usize,
        faulty: usize,
        drift: Drift,
        workers: usize,
    ) -> Result<Config, ConfigFault>
        ensures taken { IsOk result ↔ ((0 < sources) × (sources ≤ max_sources) × (2 * faulty + 1 ≤ sources) × (0 < workers) × (workers ≤ max_workers)) }
        ensures value { IfOk result (λ c. c ≡ record { sources = sources; faulty = faulty; drift = drift; workers = workers }) }
        ensures no_source { IsErrOf result ConfigFault.NoSource ↔ (sources ≡ 0) }
        ensures too_many { IsErrOf result ConfigFault.TooManySources ↔ (max_sources < sources) }
        ensures too_few { IsErrOf result ConfigFault.TooFewSources ↔ ((0 < sources) × (sources ≤ max_sources) × (sources < 2 * faulty + 1)) }
        ensures workers { IsErrOf result ConfigFault.Workers
            ↔ ((0 < sources) × (sources ≤ max_sources) × (2 * faulty + 1 ≤ sources) × ((workers ≡ 0) ⊎ (max_workers < workers))) }
    {
        check_counts(sources, faulty)?;
        if workers == 0 || workers > MAX_WORKERS {
            return Err(ConfigFault::Workers);
        }
        prove!(drift.ppm() <= MAX_DRIFT);
        Ok(Config {
            sources,
            faulty,
            drift,
            workers,
        })
    }

    /// How many sources the machine asks, from 1 to [`MAX_SOURCES`](crate::MAX_SOURCES).
    pub fn sources(&self) -> usize
        ensures value { result ≡ self.now.sources }
        ensures valid { IsConfiguration self.now }
    {
        self.sources
    }

    /// How many of its sources may be faulty, from 0 to 7.
    pub fn faulty(&self) -> usize
        ensures value { result ≡ self.now.faulty }
        ensures valid { IsConfiguration self.now }
    {
        self.faulty
    }

    /// The drift of its clock.
    pub fn drift(&self) -> Drift
        ensures value { result ≡ self.now.drift }
        ensures valid { IsConfiguration self.now }
    {
        self.drift
    }

    /// How many workers it has, from 1 to [`MAX_WORKERS`].
    pub fn workers(&self) -> usize
        ensures value { result ≡ self.now.workers }
        ensures valid { IsConfiguration self.now }
    {
        self.workers
    }
}
