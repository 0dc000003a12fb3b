//! The settings of a machine.

ghost use Rattle.std.specs.Prelude.{◌≡◌, ◌≤◌, option_copied, IfOk, IfErr, Ok, MatchResult};
ghost use Rattle.toml.specs.View.{table_view};
ghost use Rattle.tt_poll.specs.Message.{max_machine};
ghost use Rattle.tt_settings.specs.Fault.{IsRefusal};
ghost use Rattle.tt_settings.specs.Key.{max_slew};
ghost use Rattle.tt_settings.specs.Check.{all_fit};
ghost use Rattle.tt_settings.specs.Settings.{keys_of, paths_of, settings_of, settings_in};

use crate::addresses::{Ports, ports_in};
use crate::checks::{check_masters, check_paths, check_workers};
use crate::faults::SettingsFault;
use crate::forms::{Conduct, OnBreak, conduct_in};
use crate::keys::Key;
use crate::lookups::{amount_at, count_of, first_unknown};
use crate::masters::{MasterSettings, listed_in, masters_of};
use crate::plans::{
    Clocking, Pauses, clocking_in, configuration_in, lease_in, pauses_in, stampers_in,
};
use crate::refusals::Refusal;
use crate::texts::{FilePath, Paths, paths_in};
use std::alloc::Global;
use std::marker::Model;
use std::net::SocketAddr;
use toml::Table;
use tt_daemon::Config;
use tt_host::HostClock;
use tt_span::Span;
use tt_status::LogFormat;

/// The settings of a machine. In contracts they are their values.
#[derive(Drop)]
pub struct Settings {
    machine: u8,
    config: Config,
    clocking: Clocking,
    pauses: Pauses,
    lease: Span,
    stampers: Option<Span>,
    ports: Ports,
    conduct: Conduct,
    masters: Vec<MasterSettings>,
    paths: Paths,
}

impl Model for Settings {
    ghost use Rattle.std.specs.Prelude.{◌≤◌};
    ghost use Rattle.tt_poll.specs.Message.{max_machine};
    ghost use Rattle.tt_settings.specs.Key.{max_slew};
    ghost use Rattle.tt_settings.specs.Settings.{Meaning, meaning_of};

    ghost Value = { Meaning };

    ghost view = { λ s. meaning_of s.machine s.config s.clocking s.pauses s.lease s.stampers s.ports s.conduct s.masters.items s.paths };

    ghost invariant = { λ s. (s.machine ≤ max_machine) × (s.clocking.slew ≤ max_slew) };
}

impl Settings {
    /// The number of the machine, from 0 to 7.
    pub fn machine(&self) -> u8
        ensures value { result ≡ self.now.machine }
        ensures valid { self.now.machine ≤ max_machine }
    {
        self.machine
    }

    /// How many masters it asks, how many of them may be faulty, the drift of its clock, and its workers.
    pub fn config(&self) -> Config
        ensures value { result ≡ self.now.config }
    {
        self.config
    }

    /// The clock by which it measures. The drift is how far that one may be off.
    pub fn clock(&self) -> HostClock
        ensures value { result ≡ self.now.clock }
    {
        self.clocking.clock
    }

    /// How much faster or slower `CLOCK_MONOTONIC` may go than `CLOCK_MONOTONIC_RAW`, in parts per million, up to 90,000. If
    /// it goes farther off, readers that cannot read the raw clock are told nothing. They are told nothing at all where the
    /// drift d and this number s give them a drift above [`MAX_DRIFT`](tt_span::MAX_DRIFT): d + s, and d * s / 1,000,000,
    /// rounded up.
    pub fn slew(&self) -> u32
        ensures value { result ≡ self.now.slew }
        ensures bound { self.now.slew ≤ max_slew }
    {
        self.clocking.slew
    }

    /// How long its parts wait.
    pub fn pauses(&self) -> Pauses
        ensures value { result ≡ self.now.pauses }
    {
        self.pauses
    }

    /// The lease, in which stamps lie, in nanoseconds: the whole of time if none is given.
    pub fn lease(&self) -> Span
        ensures value { result ≡ self.now.lease }
    {
        self.lease
    }

    /// The interval in which the machine's sessions give no stamps, since a stamper in another process does, in
    /// nanoseconds. None if there is none.
    pub fn stampers(&self) -> Option<Span>
        ensures value { result ≡ self.now.stampers }
    {
        self.stampers
    }

    /// The port of 127.0.0.1 at which it serves clients.
    pub fn listen(&self) -> u16
        ensures value { result ≡ self.now.listen }
    {
        self.ports.listen
    }

    /// The address at which it gives its status over HTTP, with a port from 1. None if it does not. It may be any address.
    pub fn http(&self) -> Option<SocketAddr>
        ensures value { result ≡ self.now.http }
    {
        self.ports.http
    }

    /// The form of its log.
    pub fn log(&self) -> LogFormat
        ensures value { result ≡ self.now.log }
    {
        self.conduct.log
    }

    /// What it does when it knows that one of its assumptions is broken.
    pub fn on_break(&self) -> OnBreak
        ensures value { result ≡ self.now.on_break }
    {
        self.conduct.on_break
    }

    /// The greatest width of a reading that it answers, in nanoseconds, up to an hour. None if there is no limit.
    pub fn max_width(&self) -> Option<u64>
        ensures value { result ≡ self.now.max_width }
    {
        self.conduct.max_width
    }

    /// Its masters, in the order of the sources.
    pub fn masters(&self) -> &[MasterSettings]
        ensures value { result.now ≡ self.now.masters }
    {
        self.masters.as_slice()
    }

    /// The folder of its epoch.
    pub fn state(&self) -> &str
        ensures value { result.now ≡ self.now.state }
    {
        self.paths.state.as_str()
    }

    /// The path of the Unix socket at which it serves clients, if there is one.
    pub fn socket(&self) -> Option<&FilePath>
        ensures value { option_copied result ≡ self.now.socket }
    {
        self.paths.socket.as_ref()
    }

    /// The shared file, into which it writes each publication for other processes, if there is one.
    pub fn shared(&self) -> Option<&FilePath>
        ensures value { option_copied result ≡ self.now.shared }
    {
        self.paths.shared.as_ref()
    }

    /// The file into which it writes its status, if there is one.
    pub fn status(&self) -> Option<&FilePath>
        ensures value { option_copied result ≡ self.now.status }
    {
        self.paths.status.as_ref()
    }

    /// The file into which it writes the evidence for what it publishes, if there is one. Beside it stand the files in
    /// which it keeps that of its last breaks: the path with `.break-1` and `.break-2` behind it.
    pub fn evidence(&self) -> Option<&FilePath>
        ensures value { option_copied result ≡ self.now.evidence }
    {
        self.paths.evidence.as_ref()
    }

    /// The file or device in which its host counts the disruptions of the guest's clock, if there is one. It is only
    /// read.
    pub fn vmclock(&self) -> Option<&FilePath>
        ensures value { option_copied result ≡ self.now.vmclock }
    {
        self.paths.vmclock.as_ref()
    }

    /// The file of the keys that are shared with its masters, if there is one. It is only read.
    pub fn keys(&self) -> Option<&FilePath>
        ensures value { option_copied result ≡ self.now.keys }
    {
        self.paths.keys.as_ref()
    }
}

/// The settings of this text.
///
/// The keys `machine` (0 to 7), `masters` or `master` (from one to 16), `listen` (an address) and `state` (a folder) have
/// to be there. The others may be absent: `faulty` (default: as many as the number of masters allows), `workers` (1 to 32;
/// default 32), `drift` (parts per million; default 200), `clock` (`"raw"` or `"monotonic"`; default `"raw"`), `slew` (parts
/// per million, up to 90,000; default 1000), `poll` (default `"250ms"`), `wait` (default `"250ms"`), `floor_ahead` (default `"1s"`), `idle` (default `"60s"`), `lease_lo` and `lease_hi` (nanoseconds; default: the whole of time),
/// `stampers` (the two ends of an interval, as `[5, 6]`, in nanoseconds; default: none), `log` (`"text"` or `"json"`;
/// default `"text"`), `on_break` (`"end"` or `"warn"`; default `"end"`), `max_width` (from 0 to an hour, as `"10ms"`;
/// default: no limit), `socket`, `shared`, `status`, `evidence`, `vmclock` and `keys` (paths; default: none). `listen` is
/// `127.0.0.1:` and a port, `http` any address with a port from 1 (default: none); a length of time is as
/// [`duration_of`](crate::duration_of) reads it.
///
/// In the short form `masters` lists addresses. In the long form there is a table `[[master]]` for each, with `address` and,
/// for polls that are sealed, `key`: a number from 0 to 4294967295, or from one to four different ones in an array. An
/// address is as [`address_of`](crate::address_of) reads it, of one host: its port is not 0, and it is not unspecified, not
/// multicast, no IPv4 address that is mapped to IPv6, and has no scope. Without a key it is in 127.0.0.0/8 or is ::1. With
/// a key it may also be a name and a port, as [`host_of`](crate::host_of) reads them.
///
/// Refuses with the first that applies, in this order:
///
/// - 1801 `NotToml`: the text is not TOML.
/// - 1802 `UnknownKey`: a key has another name.
/// - Of the keys, in the order `machine`, `masters` or `master` (their number), `faulty`, `workers`, `drift`, `clock`,
///   `slew`, `poll`, `wait`, `floor_ahead`, `idle`, `lease_lo`, `lease_hi`, `stampers`, `listen`, `http`, `log`, `on_break`, `max_width`, `masters`
///   or `master` (each of them), `state`, `socket`, `shared`, `status`, `evidence`, `vmclock`, `keys`: 1803 `MissingKey` where
///   the key is absent, 1804 `WrongValue` where its value has another type or is out of range, 1805 `NotLocal` where a text
///   is not an address of this host and has to be; before their number, 1825 `BothForms` where there are `masters` and
///   `master`, and 1803 of `masters` where there is neither; and behind `drift`, 1806 `TooManyFaulty` where fewer than
///   `2 * faulty + 1` masters are listed. A lease that ends before it begins is refused with 1804 at `lease_hi`. `stampers`
///   is refused with 1804 where it has not two items, or one that is no whole number from 0 to
///   [`MAX_TIME`](tt_span::MAX_TIME), or the first is above the second.
/// - Of each master of the long form, in this order: 1804 of `master` where it is no table; 1802 where a key has another
///   name; 1803 or 1804 of `address` where it is absent or no text; 1804 of `key`; and 1804 or 1805 of `address`.
/// - 1818 `SameMaster`, where two masters have the same text as their address; 1826 `SameKey`, where two have a key in
///   common; 1803 `MissingKey` of `keys`, where a master has a key and `keys` is absent.
/// - 1810 `TooFewWorkers`: there is a Unix socket, and one worker.
/// - Of `state`, `socket`, `shared`, `status`, `keys` and `evidence`, in this order: 1804 `WrongValue` where the path is
///   empty or, before that, `socket` is longer than 107 bytes, and 1817 `SamePath` where it has a file in common with one before it. The files of a path are itself, its draft
///   `.new` and its lock `.lock`; those of `state` are the folder, and `epoch`, `epoch.new`, `break`, `break.new` and
///   `lock` in it; those of `evidence` are also the files of the paths with `.break-1` and `.break-2` behind it. Paths
///   are compared by their texts, without doubled slashes, slashes at the end, and names that are a dot alone; a `..` or
///   a link is not followed.
/// - 1804 `WrongValue` of `vmclock`, where the path is empty.
///
/// In place of each of these it may refuse with 1 `Memory`, if it is out of memory.
pub fn read(alloc: Global, text: &str) -> Result<Settings, Refusal>
    ensures found { IfOk result (λ settings. settings_in text.now ≡ Ok settings) }
    ensures refused { IfErr result (IsRefusal (settings_in text.now)) }
{
    let table = match toml::table_from_str(alloc, text) {
        Ok(table) => table,
        Err(error) if error.is_memory() => return Err(Refusal::of_memory(alloc)),
        Err(error) => return Err(Refusal::of_text(alloc, text, &error)),
    };
    match settings_of(alloc, &table) {
        Ok(settings) => Ok(settings),
        Err(fault) => Err(Refusal::of_table(alloc, text, &table, fault)),
    }
}

/// The settings of a document.
fn settings_of(alloc: Global, table: &Table) -> Result<Settings, SettingsFault>
    ensures { let defined = settings_of (table_view table.now) in
        MatchResult result (λ settings. defined ≡ Ok settings) (IsRefusal defined) }
{
    let settings = keys_of(alloc, table)?;
    check(alloc, &settings)?;
    Ok(settings)
}

/// Refuses settings of which the masters, the workers or the paths do not fit.
#[tactic(auto, unfolding(crate::specs::Check::all_fit))]
fn check(alloc: Global, settings: &Settings) -> Result<(), SettingsFault>
    ensures { let defined = all_fit settings.now.masters settings.now.config.workers (paths_of settings.now) in
        MatchResult result (λ done. defined ≡ Ok done) (IsRefusal defined) }
{
    check_masters(settings.masters(), settings.keys())?;
    check_workers(settings.config().workers(), settings.socket())?;
    check_paths(alloc, &settings.paths)
}

/// The settings that the keys of a document give, each by itself.
#[tactic(auto, unfolding(crate::specs::Settings::keys_of))]
fn keys_of(alloc: Global, table: &Table) -> Result<Settings, SettingsFault>
    ensures { let defined = keys_of (table_view table.now) in
        MatchResult result (λ settings. defined ≡ Ok settings) (IsRefusal defined) }
{
    if first_unknown(table).is_some() {
        return Err(SettingsFault::UnknownKey);
    }
    let machine = amount_at(table, Key::Machine)? as u8;
    let (key, items) = listed_in(table)?;
    let config = configuration_in(table, count_of(items))?;
    let clocking = clocking_in(table)?;
    let pauses = pauses_in(table)?;
    let lease = lease_in(table)?;
    let stampers = stampers_in(table)?;
    let ports = ports_in(table)?;
    let conduct = conduct_in(table)?;
    let masters = masters_of(alloc, key, items)?;
    let paths = paths_in(alloc, table)?;
    Ok(Settings {
        machine,
        config,
        clocking,
        pauses,
        lease,
        stampers,
        ports,
        conduct,
        masters,
        paths,
    })
}
