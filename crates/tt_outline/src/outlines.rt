//! What a machine with these settings would do, as text.

ghost use Rattle.std.specs.Prelude.{◌≡◌, ◌++◌, OnOk, IfOk, string_bytes, option_copied, ◌≤◌, ◌*◌};
ghost use Rattle.std.specs.List.{flat_map};
ghost use Rattle.tt_span.specs.Time.{max_time};
ghost use Rattle.tt_outline.specs.Outline.{outline_text, word_line, path_line, master_line, address_text, keys_text, numbers_text, files_text, growth_of, threads_of, memory_of, pauses_text, config_text, sums_text, lease_text, stampers_text, width_text, break_word, clock_word, clocks_text, setup_text, helpers_of, http_text, width_beyond, width_line, widths_text};

use crate::rates::{gain_covered, loss_covered};
use std::alloc::{AllocError, Global};
use std::net::SocketAddr;
use tt_daemon::Config;
use tt_host::HostClock;
use tt_server::{has_names, needed_descriptors};
use tt_settings::{FilePath, MasterSettings, OnBreak, Pauses, Settings};
use tt_sharing::period_of;
use tt_span::{Drift, Span};
use tt_text::push_line;

/// The memory that a machine takes apart from its workers, in bytes.
const BASE: u64 = 4_194_304;

/// The most memory that each of its workers takes while it serves, in bytes.
const EACH: u64 = 131_072;

/// Adds the line of a word and a text.
fn push_words(text: &mut String, word: &str, value: &str) -> Result<(), AllocError>
    ensures { OnOk result (string_bytes text.new ≡ string_bytes text.old ++ word_line word.now value.now) }
{
    text.push_str(word)?;
    text.push_str(" ")?;
    text.push_str(value)?;
    text.push_str("\n")
}

/// Adds the line of a word and an address of this host.
#[tactic(auto, unfolding(crate::specs::Outline::address_text))]
fn push_address(text: &mut String, word: &str, port: u16) -> Result<(), AllocError>
    ensures { OnOk result (string_bytes text.new ≡ string_bytes text.old ++ address_text word.now port) }
{
    text.push_str(word)?;
    text.push_str(" 127.0.0.1:")?;
    write!(text, "{port}")?;
    text.push_str("\n")
}

/// Adds the numbers of the keys of a master, if it has some.
fn push_keys(text: &mut String, numbers: &[u32]) -> Result<(), AllocError>
    ensures { OnOk result (string_bytes text.new ≡ string_bytes text.old ++ keys_text numbers.now) }
{
    if numbers.is_empty() {
        return Ok(());
    }
    text.push_str(" key")?;
    for number in numbers {
        write!(text, " {number}")?;
    }
    Ok(())
}

/// Adds the line of a master: its address, and the numbers of the keys that are shared with it, if there are some.
fn push_master(text: &mut String, master: &MasterSettings) -> Result<(), AllocError>
    ensures { OnOk result (string_bytes text.new ≡ string_bytes text.old ++ master_line master.now) }
{
    text.push_str("master ")?;
    text.push_str(master.address().as_str())?;
    push_keys(text, master.keys())?;
    text.push_str("\n")
}

/// Adds a line for each master.
fn push_masters(text: &mut String, masters: &[MasterSettings]) -> Result<(), AllocError>
    ensures { OnOk result (string_bytes text.new ≡ string_bytes text.old ++ flat_map master_line masters.now) }
{
    for master in masters {
        push_master(text, master)?;
    }
    Ok(())
}

/// Adds the line of a path, if there is one.
fn push_path(text: &mut String, word: &str, path: Option<&FilePath>) -> Result<(), AllocError>
    ensures { OnOk result (string_bytes text.new ≡ string_bytes text.old ++ path_line word.now (option_copied path.entry)) }
{
    match path {
        Some(path) => push_words(text, word, path.as_str()),
        None => Ok(()),
    }
}

/// The most by which a reading grows wider from one publication to the next, in nanoseconds.
fn growth_of(pauses: &Pauses, drift: Drift) -> u64
    ensures value { result ≡ growth_of pauses.now drift }
    ensures most { result ≤ 2 * max_time }
{
    2 * drift.widen(period_of(pauses))
}

/// How wide a reading is just before the next publication, beside what the master states: where the answer took `trip`
/// nanoseconds, at most 100 ms, that is the round trip, what the clock may be wrong by in it, and the growth.
fn width_beyond(pauses: &Pauses, drift: Drift, trip: u64) -> u64
    requires short { trip ≤ 100000000 }
    ensures { result ≡ width_beyond pauses.now drift trip }
{
    trip + drift.widen(trip) + growth_of(pauses, drift)
}

/// Adds the line of the width behind a round trip.
fn push_width_behind(
    text: &mut String,
    pauses: &Pauses,
    drift: Drift,
    trip: u64,
) -> Result<(), AllocError>
    requires short { trip ≤ 100000000 }
    ensures { OnOk result (string_bytes text.new ≡ string_bytes text.old ++ width_line pauses.now drift trip) }
{
    push_line(text, "width", &[trip, width_beyond(pauses, drift, trip)])
}

/// Adds the lines of the widths behind round trips of 100 us, 1 ms, 10 ms and 100 ms.
#[tactic(auto, unfolding(crate::specs::Outline::widths_text))]
fn push_widths(text: &mut String, pauses: &Pauses, drift: Drift) -> Result<(), AllocError>
    ensures { OnOk result (string_bytes text.new ≡ string_bytes text.old ++ widths_text pauses.now drift) }
{
    push_width_behind(text, pauses, drift, 100_000)?;
    push_width_behind(text, pauses, drift, 1_000_000)?;
    push_width_behind(text, pauses, drift, 10_000_000)?;
    push_width_behind(text, pauses, drift, 100_000_000)
}

/// How many threads there are for what only some settings have: one for the file of the status, one for that of the
/// evidence, one for the shared file, one for pages, and one for the names of masters.
fn helpers_of(
    has_status: bool,
    has_evidence: bool,
    has_shared: bool,
    has_http: bool,
    has_names: bool,
) -> u64
    ensures value { result ≡ helpers_of has_status has_evidence has_shared has_http has_names }
    ensures few { result ≤ 5 }
{
    u64::from(has_status)
        + u64::from(has_evidence)
        + u64::from(has_shared)
        + u64::from(has_http)
        + u64::from(has_names)
}

/// The most threads of a machine with `workers` workers: those of the workers, the thread of the daemon, the one that
/// accepts connections, the one that writes the log, those that write the status, the evidence and the shared file, serve pages
/// and look up names, and one that waits for the end of standard input.
fn threads_of(workers: u64, helpers: u64) -> u64
    requires few { workers ≤ 32 }
    requires few_helpers { helpers ≤ 5 }
    ensures { result ≡ threads_of workers helpers }
{
    workers + helpers + 4
}

/// The most memory that a machine with `workers` workers and one session of each takes, in bytes, as far as was observed.
fn memory_of(workers: u64) -> u64
    requires { workers ≤ 32 }
    ensures { result ≡ memory_of workers }
{
    BASE + EACH * workers
}

/// Adds the lines of the times for which the parts of a machine wait.
#[tactic(auto, unfolding(crate::specs::Outline::pauses_text))]
fn push_pauses(text: &mut String, pauses: &Pauses) -> Result<(), AllocError>
    ensures { OnOk result (string_bytes text.new ≡ string_bytes text.old ++ pauses_text pauses.now) }
{
    push_line(text, "poll", &[pauses.poll])?;
    push_line(text, "wait", &[pauses.wait])?;
    push_line(text, "floor_ahead", &[pauses.floor_ahead])?;
    push_line(text, "idle", &[pauses.idle])
}

/// Adds the lines of the configuration of a machine.
#[tactic(auto, unfolding(crate::specs::Outline::config_text))]
fn push_config(text: &mut String, config: &Config) -> Result<(), AllocError>
    ensures { OnOk result (string_bytes text.new ≡ string_bytes text.old ++ config_text config.now) }
{
    push_line(text, "faulty", &[config.faulty() as u64])?;
    push_line(text, "workers", &[config.workers() as u64])?;
    push_line(text, "drift", &[u64::from(config.drift().ppm())])?;
    let rates = [loss_covered(config.drift()), gain_covered(config.drift())];
    push_line(text, "rates", &rates)
}

/// The clock by which it measures, as the settings write it.
fn clock_word(clock: HostClock) -> &'static str
    ensures { result.now ≡ clock_word clock }
{
    match clock {
        HostClock::Raw => "raw",
        HostClock::Monotonic => "monotonic",
    }
}

/// Adds the lines of that clock, and of how far the slewed one may go beside the raw one.
#[tactic(auto, unfolding(crate::specs::Outline::clocks_text))]
fn push_clocks(text: &mut String, clock: HostClock, slew: u32) -> Result<(), AllocError>
    ensures { OnOk result (string_bytes text.new ≡ string_bytes text.old ++ clocks_text clock slew) }
{
    push_words(text, "clock", clock_word(clock))?;
    push_line(text, "slew", &[u64::from(slew)])
}

/// Adds the lines of the configuration, and those of the clocks.
#[tactic(auto, unfolding(crate::specs::Outline::setup_text))]
fn push_setup(
    text: &mut String,
    config: &Config,
    clock: HostClock,
    slew: u32,
) -> Result<(), AllocError>
    ensures { OnOk result (string_bytes text.new ≡ string_bytes text.old ++ setup_text config.now clock slew) }
{
    push_config(text, config)?;
    push_clocks(text, clock, slew)
}

/// Adds the lines that are computed from the settings: how readings grow and how wide they become, the threads, the memory,
/// and the descriptors.
#[tactic(auto, unfolding(crate::specs::Outline::sums_text))]
fn push_sums(
    text: &mut String,
    pauses: &Pauses,
    config: &Config,
    helpers: u64,
) -> Result<(), AllocError>
    requires few { helpers ≤ 5 }
    ensures { OnOk result (string_bytes text.new ≡ string_bytes text.old ++ sums_text pauses.now config.now helpers) }
{
    let growth = growth_of(pauses, config.drift());
    let workers = config.workers() as u64;
    push_line(text, "growth", &[growth])?;
    push_widths(text, pauses, config.drift())?;
    push_line(text, "threads", &[threads_of(workers, helpers)])?;
    push_line(text, "memory", &[memory_of(workers)])?;
    push_line(text, "descriptors", &[needed_descriptors(workers)])
}

/// Adds the line of the lease.
#[tactic(auto, unfolding(crate::specs::Outline::lease_text))]
fn push_lease(text: &mut String, lease: &Span) -> Result<(), AllocError>
    ensures { OnOk result (string_bytes text.new ≡ string_bytes text.old ++ lease_text lease.now) }
{
    push_line(text, "lease", &[lease.lo(), lease.hi()])
}

/// Adds the line of the interval of the stampers, if there is one.
fn push_stampers(text: &mut String, stampers: Option<Span>) -> Result<(), AllocError>
    ensures { OnOk result (string_bytes text.new ≡ string_bytes text.old ++ stampers_text stampers) }
{
    match stampers {
        Some(stampers) => push_line(text, "stampers", &[stampers.lo(), stampers.hi()]),
        None => Ok(()),
    }
}

/// Adds the line of the address at which pages are served, if they are.
fn push_http(text: &mut String, http: Option<SocketAddr>) -> Result<(), AllocError>
    ensures { OnOk result (string_bytes text.new ≡ string_bytes text.old ++ http_text http) }
{
    match http {
        Some(address) => write!(text, "http {address}\n"),
        None => Ok(()),
    }
}

/// Adds the line of the widest reading, if there is a limit.
fn push_width(text: &mut String, limit: Option<u64>) -> Result<(), AllocError>
    ensures { OnOk result (string_bytes text.new ≡ string_bytes text.old ++ width_text limit) }
{
    match limit {
        Some(width) => push_line(text, "max_width", &[width]),
        None => Ok(()),
    }
}

/// What follows a sign that an assumption is broken, as the settings write it.
fn break_word(on_break: OnBreak) -> &'static str
    ensures { result.now ≡ break_word on_break }
{
    match on_break {
        OnBreak::End => "end",
        OnBreak::Warn => "warn",
        OnBreak::Stay => "stay",
    }
}

/// Adds the lines of the numbers of a machine.
#[tactic(auto, unfolding(crate::specs::Outline::numbers_text))]
fn push_numbers(text: &mut String, settings: &Settings) -> Result<(), AllocError>
    ensures { OnOk result (string_bytes text.new ≡ string_bytes text.old ++ numbers_text settings.now) }
{
    let config = settings.config();
    let pauses = settings.pauses();
    push_setup(text, &config, settings.clock(), settings.slew())?;
    push_pauses(text, &pauses)?;
    push_lease(text, &settings.lease())?;
    push_stampers(text, settings.stampers())?;
    push_words(text, "on_break", break_word(settings.on_break()))?;
    push_width(text, settings.max_width())?;
    let helpers = helpers_of(
        settings.status().is_some(),
        settings.evidence().is_some(),
        settings.shared().is_some(),
        settings.http().is_some(),
        has_names(settings.masters()),
    );
    push_sums(text, &pauses, &config, helpers)
}

/// Adds the lines of the files of a machine.
#[tactic(auto, unfolding(crate::specs::Outline::files_text))]
fn push_files(text: &mut String, settings: &Settings) -> Result<(), AllocError>
    ensures { OnOk result (string_bytes text.new ≡ string_bytes text.old ++ files_text settings.now) }
{
    push_words(text, "state", settings.state())?;
    push_path(text, "socket", settings.socket())?;
    push_path(text, "shared", settings.shared())?;
    push_path(text, "status", settings.status())?;
    push_path(text, "evidence", settings.evidence())?;
    push_path(text, "vmclock", settings.vmclock())?;
    push_path(text, "keys", settings.keys())
}

/// What a machine with these settings would do, as text. There is one line for each of `machine`, `listen`, `http` (if there
/// is an address), `master` (one for each master, in the order of the sources: its address, and behind the word `key` the
/// numbers of its keys, if it has some), `faulty`, `workers`, `drift`, `rates`, `clock`, `slew`, `poll`, `wait`, `floor_ahead`,
/// `idle`, `lease`, `stampers` (if there are some), `on_break`, `max_width` (if there is a limit), `growth`, `width` (four
/// times), `threads`, `memory`, `descriptors`, `state`, and for each of `socket`, `shared`, `status`, `evidence`, `vmclock` and `keys` that the
/// settings have. Times are in nanoseconds. `rates` has the most that a clock may lose by the drift, and the most that it may
/// gain, in parts of a billion of true time. `descriptors` is the limit that a process wants for all sessions.
///
/// A reading is as wide as what the masters state, plus the time that the poll took. Until the next publication it
/// grows wider by at most `growth`, if no master fails. A line `width` has a round trip, of 100 us, 1 ms, 10 ms or 100 ms,
/// and how wide a reading is just before the next publication, beside what the master states: the round trip, what the
/// clock may be wrong by in it, and `growth`. `memory` is an estimate, in bytes. Refuses if it is out of memory.
pub fn outline(alloc: Global, settings: &Settings) -> Result<String, AllocError>
    ensures written { IfOk result (λ text. string_bytes text ≡ outline_text settings.now) }
{
    let mut text = String::new(alloc);
    push_line(&mut text, "machine", &[u64::from(settings.machine())])?;
    push_address(&mut text, "listen", settings.listen())?;
    push_http(&mut text, settings.http())?;
    push_masters(&mut text, settings.masters())?;
    push_numbers(&mut text, settings)?;
    push_files(&mut text, settings)?;
    Ok(text)
}
