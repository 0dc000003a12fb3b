//! The settings that are numbers.

ghost use Rattle.std.specs.Prelude.{◌≡◌, ◌<◌, ◌≤◌, IfOk};
ghost use Rattle.toml.specs.View.{view, table_view};
ghost use Rattle.tt_span.specs.Drift.{max_drift};
ghost use Rattle.tt_span.specs.Sources.{max_sources};
ghost use Rattle.tt_span.specs.Time.{max_time};
ghost use Rattle.tt_daemon.specs.Config.{max_workers};
ghost use Rattle.tt_settings.specs.Key.{max_slew};
ghost use Rattle.tt_settings.specs.Plan.{clocking_in, configuration_if, configuration_in, lease_in, pauses_in, span_if, span_in, stampers_in, time_in};

use crate::faults::SettingsFault;
use crate::forms::clock_at;
use crate::keys::{Key, MILLISECOND, SECOND};
use crate::lookups::{amount_or, found_at, items_in, whole_in, within};
use toml::{Table, Value};
use tt_daemon::{Config, DEFAULT_DRIFT, MAX_WORKERS};
use tt_host::HostClock;
use tt_span::{Drift, MAX_TIME, Span};

/// How much faster or slower the slewed clock may go if nothing else is given, in parts per million.
const DEFAULT_SLEW: u32 = 1000;

/// The pause between two rounds of polls if no other is given, in nanoseconds.
const DEFAULT_POLL: u64 = 250 * MILLISECOND;

/// How long a round waits for answers if nothing else is given, in nanoseconds.
const DEFAULT_WAIT: u64 = 250 * MILLISECOND;

/// How far a floor may lie ahead if nothing else is given, in nanoseconds.
const DEFAULT_FLOOR_AHEAD: u64 = SECOND;

/// After how long the connection of a silent client is closed if nothing else is given, in nanoseconds.
const DEFAULT_IDLE: u64 = 60 * SECOND;

/// By which clock a machine measures, and how far it trusts the slewed one.
#[derive(Clone, Copy)]
pub(crate) struct Clocking {
    /// The clock by which it measures.
    pub(crate) clock: HostClock,
    /// How much faster or slower than the raw clock the slewed one may go, in parts per million.
    pub(crate) slew: u32,
}

/// How long the parts of a machine wait, in nanoseconds.
#[derive(Clone, Copy)]
pub struct Pauses {
    /// The pause between two rounds of polls: from a millisecond to an hour.
    pub poll: u64,
    /// How long a round waits for answers: from a millisecond to ten seconds.
    pub wait: u64,
    /// How far a floor may lie ahead of the latest of a reading: at most ten seconds.
    pub floor_ahead: u64,
    /// After how long the connection of a silent client is closed: from a second to a day.
    pub idle: u64,
}

/// The configuration of a machine with this many masters.
#[tactic(auto, unfolding(crate::specs::Plan::configuration_in))]
pub(crate) fn configuration_in(table: &Table, masters: u64) -> Result<Config, SettingsFault>
    requires some { 0 < masters }
    requires few { masters ≤ max_sources }
    ensures { result ≡ configuration_in masters (table_view table.now) }
{
    let most = (masters - 1) / 2;
    let faulty = amount_or(table, Key::Faulty, most)?;
    let workers = amount_or(table, Key::Workers, MAX_WORKERS as u64)?;
    let drift = amount_or(table, Key::Drift, u64::from(DEFAULT_DRIFT))?;
    configuration_if(masters, faulty, workers, drift)
}

/// The configuration with these numbers. Refuses with 1806 `TooManyFaulty` if there are fewer than `2 * faulty + 1`
/// masters.
fn configuration_if(
    masters: u64,
    faulty: u64,
    workers: u64,
    drift: u64,
) -> Result<Config, SettingsFault>
    requires some { 0 < masters }
    requires few { masters ≤ max_sources }
    requires some_worker { 0 < workers }
    requires few_workers { workers ≤ max_workers }
    requires drift { drift ≤ max_drift }
    ensures { result ≡ configuration_if masters faulty workers drift }
{
    let most = (masters - 1) / 2;
    if faulty > most {
        return Err(SettingsFault::TooManyFaulty {
            masters,
            faulty,
            most,
        });
    }
    let Some(drift) = Drift::new(drift as u32) else {
        unreachable!()
    };
    match Config::new(masters as usize, faulty as usize, drift, workers as usize) {
        Ok(config) => Ok(config),
        Err(_) => unreachable!(),
    }
}

/// By which clock a machine measures, and how far it trusts the slewed one.
#[tactic(auto, unfolding(crate::specs::Plan::clocking_in))]
pub(crate) fn clocking_in(table: &Table) -> Result<Clocking, SettingsFault>
    ensures value { result ≡ clocking_in (table_view table.now) }
    ensures bound { IfOk result (λ clocking. clocking.slew ≤ max_slew) }
{
    let clock = clock_at(table)?;
    let slew = amount_or(table, Key::Slew, u64::from(DEFAULT_SLEW))? as u32;
    Ok(Clocking { clock, slew })
}

/// How long the parts of a machine wait.
#[tactic(auto, unfolding(crate::specs::Plan::pauses_in))]
pub(crate) fn pauses_in(table: &Table) -> Result<Pauses, SettingsFault>
    ensures { result ≡ pauses_in (table_view table.now) }
{
    let poll = amount_or(table, Key::Poll, DEFAULT_POLL)?;
    let wait = amount_or(table, Key::Wait, DEFAULT_WAIT)?;
    let floor_ahead = amount_or(table, Key::FloorAhead, DEFAULT_FLOOR_AHEAD)?;
    let idle = amount_or(table, Key::Idle, DEFAULT_IDLE)?;
    Ok(Pauses {
        poll,
        wait,
        floor_ahead,
        idle,
    })
}

/// The lease. If an end is not given, it is 0 or the greatest time.
#[tactic(auto, unfolding(crate::specs::Plan::lease_in))]
pub(crate) fn lease_in(table: &Table) -> Result<Span, SettingsFault>
    ensures { result ≡ lease_in (table_view table.now) }
{
    let lo = amount_or(table, Key::LeaseLo, 0)?;
    let hi = amount_or(table, Key::LeaseHi, MAX_TIME)?;
    span_if(Key::LeaseHi, lo, hi)
}

/// The span of two ends. Refuses with 1804 `WrongValue` of this key if the first is above the second.
fn span_if(key: Key, lo: u64, hi: u64) -> Result<Span, SettingsFault>
    requires in_time { hi ≤ max_time }
    ensures { result ≡ span_if key lo hi }
{
    match Span::new(lo, hi) {
        Ok(span) => Ok(span),
        Err(_) => Err(SettingsFault::WrongValue(key)),
    }
}

/// The time that a value is, in nanoseconds.
fn time_in(key: Key, value: &Value) -> Result<u64, SettingsFault>
    ensures value { result ≡ time_in key (view value.now) }
    ensures in_time { IfOk result (λ time. time ≤ max_time) }
{
    within(key, 0, MAX_TIME, whole_in(value))
}

/// The span whose ends a value lists: an array of two times, the first at most the second.
fn span_in(key: Key, value: &Value) -> Result<Span, SettingsFault>
    ensures { result ≡ span_in key (view value.now) }
{
    let items = items_in(key, value)?;
    let [first, second] = items.as_slice() else {
        return Err(SettingsFault::WrongValue(key));
    };
    let lo = time_in(key, first)?;
    let hi = time_in(key, second)?;
    span_if(key, lo, hi)
}

/// The interval that is left to stampers in other processes, if one is given.
pub(crate) fn stampers_in(table: &Table) -> Result<Option<Span>, SettingsFault>
    ensures { result ≡ stampers_in (table_view table.now) }
{
    match found_at(table, Key::Stampers) {
        Some(value) => {
            let span = span_in(Key::Stampers, value)?;
            Ok(Some(span))
        }
        None => Ok(None),
    }
}
