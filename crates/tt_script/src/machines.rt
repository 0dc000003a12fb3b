//! The machines of a script.

ghost use Rattle.std.specs.Prelude.{◌≡◌, ◌≤◌, Ok, Err, MatchResult};
ghost use Rattle.toml.specs.View.{view, table_view, array_view};
ghost use Rattle.tt_span.specs.Drift.{max_drift};
ghost use Rattle.tt_script.specs.Fault.{IsRefusal};
ghost use Rattle.tt_script.specs.Lookup.{each};
ghost use Rattle.tt_script.specs.Machines.{configuration_if, configuration_in, machine_in, machine_items_in, machines_in};

use crate::faults::{Part, ScriptFault, missing, wrong};
use crate::keys::Key;
use crate::lookups::{are_tables, has_few, has_none, items_in, number_at, table_in, value_at};
use std::alloc::Global;
use toml::value::Array;
use toml::{Table, Value};
use tt_daemon::{Config, ConfigFault};
use tt_span::Drift;

/// The machines of a document.
pub(crate) fn machines_in(alloc: Global, table: &Table) -> Result<Vec<Config>, ScriptFault>
    ensures { let defined = machines_in (table_view table.now) in
        MatchResult result (λ configs. defined ≡ Ok configs.items) (IsRefusal defined) }
{
    configurations_of(alloc, machine_items_in(table)?)
}

/// The tables of the machines: one to eight.
fn machine_items_in(table: &Table) -> Result<&Array, ScriptFault>
    ensures { let defined = machine_items_in (table_view table.now) in
        MatchResult result (λ items. defined ≡ Ok (array_view items.now)) (λ fault. defined ≡ Err fault) }
{
    let (part, key) = (Part::Document, Key::Machines);
    let items = items_in(part, key, value_at(part, table, key)?)?;
    if has_none(items) {
        return Err(missing(part, key));
    }
    if are_tables(items) && has_few(key, items) {
        Ok(items)
    } else {
        Err(wrong(part, key))
    }
}

/// The configurations of the machines.
fn configurations_of(alloc: Global, items: &Array) -> Result<Vec<Config>, ScriptFault>
    ensures { let defined = each machine_in 0 (array_view items.now) in
        MatchResult result (λ configs. defined ≡ Ok configs.items) (IsRefusal defined) }
{
    let mut configs = Vec::new(alloc);
    for item in items {
        configs.push(machine_in(configs.len(), item)?)?;
    }
    Ok(configs)
}

/// The configuration of the machine with this number.
fn machine_in(index: usize, value: &Value) -> Result<Config, ScriptFault>
    ensures { result ≡ machine_in index (view value.now) }
{
    let part = Part::Machine(index);
    configuration_in(part, table_in(part, Key::Machines, value)?)
}

/// The configuration of a machine, by its table.
fn configuration_in(part: Part, table: &Table) -> Result<Config, ScriptFault>
    ensures { result ≡ configuration_in part (table_view table.now) }
{
    let sources = number_at(part, table, Key::Sources)?;
    let faulty = number_at(part, table, Key::Faulty)?;
    let workers = number_at(part, table, Key::Workers)?;
    let drift = number_at(part, table, Key::Drift)?;
    configuration_if(part, sources, faulty, drift, workers)
}

/// The configuration with these numbers. Refuses with 1303 `WrongValue` if a machine cannot have it.
fn configuration_if(
    part: Part,
    sources: u64,
    faulty: u64,
    drift: u64,
    workers: u64,
) -> Result<Config, ScriptFault>
    requires { drift ≤ max_drift }
    ensures { result ≡ configuration_if part (record { sources = sources; faulty = faulty; drift = drift; workers = workers }) }
{
    let Some(drift) = Drift::new(drift as u32) else {
        unreachable!()
    };
    match Config::new(sources as usize, faulty as usize, drift, workers as usize) {
        Ok(config) => Ok(config),
        Err(ConfigFault::Workers) => Err(wrong(part, Key::Workers)),
        Err(_) => Err(wrong(part, Key::Sources)),
    }
}
