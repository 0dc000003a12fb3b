//! A whole script.

ghost use Rattle.std.specs.Prelude.{◌≡◌, ◌<◌, ◌≤◌, length, option_copied, IfOk, IfErr, Ok, MatchResult};
ghost use Rattle.toml.specs.View.{table_view};
ghost use Rattle.tt_script.specs.Fault.{IsRefusal, IsTextRefusal};
ghost use Rattle.tt_script.specs.Script.{document_in, script_of, script_in};

use crate::events::events_in;
use crate::faults::{ScriptFault, reason_of};
use crate::lives::{Live, live_at};
use crate::machines::machines_in;
use crate::unknown::push_unknown;
use std::alloc::Global;
use std::marker::Model;
use toml::Table;
use tt_daemon::Config;
use tt_world::Event;

/// A script: the machines of a run, its events, and perhaps a part for a run in threads.
#[derive(Drop)]
pub struct Script {
    configs: Vec<Config>,
    events: Vec<Event>,
    live: Option<Live>,
}

impl Model for Script {
    ghost use Rattle.tt_script.specs.Script.{Scenario, IsScenario};

    ghost Value = { Scenario };

    ghost view = { λ s. record { configs = s.configs.items; events = s.events.items; live = s.live } };

    ghost invariant = { λ s. IsScenario (record { configs = s.configs.items; events = s.events.items; live = s.live }) };
}

impl Script {
    /// The configurations of the machines, from one to eight. The first is the configuration of machine 0.
    pub fn configs(&self) -> &[Config]
        ensures value { result.now ≡ self.now.configs }
        ensures some { 0 < length result.now }
        ensures few { length result.now ≤ 8 }
    {
        self.configs.as_slice()
    }

    /// The events in their order, at most [`MAX_EVENTS`](crate::MAX_EVENTS).
    pub fn to_events(&self) -> &[Event]
        ensures value { result.now ≡ self.now.events }
        ensures few { length result.now ≤ 4096 }
    {
        self.events.as_slice()
    }

    /// The part for a run in threads, or None if the script has none.
    pub fn live(&self) -> Option<&Live>
        ensures value { option_copied result ≡ self.now.live }
    {
        self.live.as_ref()
    }
}

/// The script of this text.
///
/// Refuses with the first that applies, in this order:
///
/// - 1301 `NotToml`: the text is not TOML.
/// - Of the machines, in their order, and of the keys of each in the order `sources`, `faulty`, `workers`, `drift`:
///   1302 `MissingKey` where there is no machine or a key is absent, 1303 `WrongValue` where `machine` is not an array
///   of tables, has more than eight, or a key has a value of another type or out of range; and behind the keys of a
///   machine, 1303 where no machine can have this configuration.
/// - 1303 where `event` is not an array of tables, then 1305 `TooManyEvents` above [`MAX_EVENTS`](crate::MAX_EVENTS).
/// - Of the events, in their order: 1302 and 1303 for `do`, 1304 `UnknownStep` where it is not the word of an event,
///   then 1302 and 1303 for the keys of that word, in their order.
/// - Of the part `live`: 1303 where it is not a table, then 1302 and 1303 for its keys in the order `base`, `rounds`,
///   `turns`, `masters` (of each master `uncertainty`, then `acts`), `sessions`, `lease_lo`, `lease_hi`.
///
/// The fault says where that is. In place of each of these it may refuse with 1 `Memory`, if it is out of memory. Keys with other names are ignored,
/// whatever they hold.
#[tactic(auto, using(crate::proofs::Texts::document_refused, crate::proofs::Texts::script_refused))]
pub fn read(alloc: Global, text: &str) -> Result<Script, ScriptFault>
    ensures found { IfOk result (λ script. script_in text.now ≡ Ok script) }
    ensures refused { IfErr result (IsTextRefusal (script_in text.now)) }
{
    match document_in(alloc, text) {
        Ok(document) => script_of(alloc, &document),
        Err(fault) => Err(fault),
    }
}

/// As [`read`]. Adds the keys that no rule names, with their places, as
/// `event 3 (send): "clok": unknown key; did you mean clock?`: the first [`MAX_UNKNOWN`](crate::MAX_UNKNOWN) of them.
/// [`read`] ignores such a key, which may be a mistyped one. The wording is not fixed. If it is out of memory, fewer
/// are added.
#[tactic(auto, using(crate::proofs::Texts::document_refused, crate::proofs::Texts::script_refused))]
pub fn read_noting(
    alloc: Global,
    text: &str,
    unknown: &mut Vec<String>,
) -> Result<Script, ScriptFault>
    ensures found { IfOk result (λ script. script_in text.now ≡ Ok script) }
    ensures refused { IfErr result (IsTextRefusal (script_in text.now)) }
{
    match document_in(alloc, text) {
        Ok(document) => {
            let _ = push_unknown(unknown, alloc, &document);
            script_of(alloc, &document)
        }
        Err(fault) => Err(fault),
    }
}

/// The document that a text is. Refuses with 1301 `NotToml`, and with 1 `Memory`.
#[tactic(auto, using(crate::proofs::Texts::not_document))]
fn document_in(alloc: Global, text: &str) -> Result<Table, ScriptFault>
    ensures found { IfOk result (λ document. document_in text.now ≡ Ok (table_view document)) }
    ensures refused { IfErr result (IsTextRefusal (document_in text.now)) }
{
    match toml::table_from_str(alloc, text) {
        Ok(table) => Ok(table),
        Err(error) if error.is_memory() => Err(ScriptFault::Memory),
        Err(error) => Err(ScriptFault::NotToml(reason_of(&error))),
    }
}

/// The script of a document.
fn script_of(alloc: Global, table: &Table) -> Result<Script, ScriptFault>
    ensures { let defined = script_of (table_view table.now) in
        MatchResult result (λ script. defined ≡ Ok script) (IsRefusal defined) }
{
    Ok(Script {
        configs: machines_in(alloc, table)?,
        events: events_in(alloc, table)?,
        live: live_at(alloc, table)?,
    })
}
