//! The events of a script.

ghost use Rattle.std.specs.Prelude.{◌≡◌, ◌≤◌, Ok, Err, MatchResult};
ghost use Rattle.toml.specs.View.{view, table_view, array_view};
ghost use Rattle.hex.specs.Hex.{decode_of};
ghost use Rattle.tt_span.specs.Time.{max_time};
ghost use Rattle.tt_script.specs.Fault.{IsRefusal};
ghost use Rattle.tt_script.specs.Key.{rule_of};
ghost use Rattle.tt_script.specs.Lookup.{each};
ghost use Rattle.tt_script.specs.Events.{span_in, payload_if, send_in, answer_in, forge_in, deliver_in, clock_in, arrive_in, read_in, worker_in, lease_in, action_in, event_in, event_of, event_items_in, events_of, events_in};
ghost use Rattle.tt_world.specs.declared.events.Action.TheVariants as happens;

use crate::faults::{Part, ScriptFault, wrong};
use crate::keys::Key;
use crate::lookups::{
    are_tables, found_at, has_few, items_in, middle_at, number_at, small_at, table_in, text_at,
};
use crate::words::{Word, word_of};
use std::alloc::Global;
use toml::value::Array;
use toml::{Table, Value};
use tt_span::Span;
use tt_stamp::Id;
use tt_world::{Action, Event, MAX_PAYLOAD, Payload};

/// The most events of a script.
pub const MAX_EVENTS: usize = 4096;

/// The events of a document.
pub(crate) fn events_in(alloc: Global, table: &Table) -> Result<Vec<Event>, ScriptFault>
    ensures { let defined = events_in (table_view table.now) in
        MatchResult result (λ events. defined ≡ Ok events.items) (IsRefusal defined) }
{
    match found_at(table, Key::Events) {
        Some(value) => events_of(alloc, event_items_in(value)?),
        None => Ok(Vec::new(alloc)),
    }
}

/// The tables of the events, at most [`MAX_EVENTS`].
fn event_items_in(value: &Value) -> Result<&Array, ScriptFault>
    ensures { let defined = event_items_in (view value.now) in
        MatchResult result (λ items. defined ≡ Ok (array_view items.now)) (λ fault. defined ≡ Err fault) }
{
    let items = items_in(Part::Document, Key::Events, value)?;
    if !are_tables(items) {
        return Err(wrong(Part::Document, Key::Events));
    }
    if !has_few(Key::Events, items) {
        return Err(ScriptFault::TooManyEvents);
    }
    Ok(items)
}

/// The events, one after the other.
fn events_of(alloc: Global, items: &Array) -> Result<Vec<Event>, ScriptFault>
    ensures { let defined = each event_of 0 (array_view items.now) in
        MatchResult result (λ events. defined ≡ Ok events.items) (IsRefusal defined) }
{
    let mut events = Vec::new(alloc);
    for item in items {
        events.push(event_of(events.len(), item)?)?;
    }
    Ok(events)
}

/// The event with this number.
fn event_of(index: usize, value: &Value) -> Result<Event, ScriptFault>
    ensures { result ≡ event_of index (view value.now) }
{
    event_in(index, table_in(Part::Event(index), Key::Events, value)?)
}

/// One event, by its table: its word, its true time, and the keys of the word.
fn event_in(index: usize, table: &Table) -> Result<Event, ScriptFault>
    ensures { result ≡ event_in index (table_view table.now) }
{
    let Some(word) = word_of(text_at(Part::Event(index), table, Key::Do)?) else {
        return Err(ScriptFault::UnknownStep(index));
    };
    let part = Part::Action(index, word);
    Ok(Event {
        at: number_at(part, table, Key::At)?,
        action: action_in(word, part, table)?,
    })
}

/// The action of an event, by its word.
fn action_in(word: Word, part: Part, table: &Table) -> Result<Action, ScriptFault>
    ensures { result ≡ action_in word part (table_view table.now) }
{
    match word {
        Word::Send => send_in(part, table),
        Word::Answer => answer_in(part, table),
        Word::Forge => forge_in(part, table),
        Word::Deliver => deliver_in(part, table),
        Word::Fuse => fuse_in(part, table),
        Word::Arrive => arrive_in(part, table),
        Word::Read => read_in(part, table),
        Word::Stamp => stamp_in(part, table),
        Word::Queue => queue_in(part, table),
        Word::Release => release_in(part, table),
        Word::Lease => lease_in(part, table),
        Word::Restart => restart_in(part, table),
    }
}

fn send_in(part: Part, table: &Table) -> Result<Action, ScriptFault>
    ensures { result ≡ send_in part (table_view table.now) }
{
    Ok(Action::Send {
        machine: small_at(part, table, Key::Machine)?,
        source: small_at(part, table, Key::Source)?,
        clock: number_at(part, table, Key::Clock)?,
    })
}

fn answer_in(part: Part, table: &Table) -> Result<Action, ScriptFault>
    ensures { result ≡ answer_in part (table_view table.now) }
{
    Ok(Action::Answer {
        packet: number_at(part, table, Key::Packet)?,
        span: span_in(part, table, Key::Lo, Key::Hi)?,
    })
}

fn forge_in(part: Part, table: &Table) -> Result<Action, ScriptFault>
    ensures { result ≡ forge_in part (table_view table.now) }
{
    Ok(Action::Forge {
        machine: small_at(part, table, Key::Machine)?,
        source: small_at(part, table, Key::Source)?,
        payload: payload_of(part, text_at(part, table, Key::Bytes)?)?,
    })
}

fn deliver_in(part: Part, table: &Table) -> Result<Action, ScriptFault>
    ensures { result ≡ deliver_in part (table_view table.now) }
{
    Ok(Action::Deliver {
        packet: number_at(part, table, Key::Packet)?,
        clock: number_at(part, table, Key::Clock)?,
    })
}

fn fuse_in(part: Part, table: &Table) -> Result<Action, ScriptFault>
    ensures { result ≡ clock_in happens.Fuse part (table_view table.now) }
{
    Ok(Action::Fuse {
        machine: small_at(part, table, Key::Machine)?,
        clock: number_at(part, table, Key::Clock)?,
    })
}

fn arrive_in(part: Part, table: &Table) -> Result<Action, ScriptFault>
    ensures { result ≡ arrive_in part (table_view table.now) }
{
    Ok(Action::Arrive {
        machine: small_at(part, table, Key::Machine)?,
        worker: small_at(part, table, Key::Worker)?,
        id: Id {
            session: middle_at(part, table, Key::Session)?,
            number: number_at(part, table, Key::Number)?,
        },
        floor: number_at(part, table, Key::Floor)?,
    })
}

fn read_in(part: Part, table: &Table) -> Result<Action, ScriptFault>
    ensures { result ≡ read_in part (table_view table.now) }
{
    Ok(Action::Read {
        machine: small_at(part, table, Key::Machine)?,
        worker: small_at(part, table, Key::Worker)?,
        clock: number_at(part, table, Key::Clock)?,
        publication: number_at(part, table, Key::Publication)?,
    })
}

fn stamp_in(part: Part, table: &Table) -> Result<Action, ScriptFault>
    ensures { result ≡ worker_in happens.Stamp part (table_view table.now) }
{
    Ok(Action::Stamp {
        machine: small_at(part, table, Key::Machine)?,
        worker: small_at(part, table, Key::Worker)?,
    })
}

fn queue_in(part: Part, table: &Table) -> Result<Action, ScriptFault>
    ensures { result ≡ worker_in happens.Queue part (table_view table.now) }
{
    Ok(Action::Queue {
        machine: small_at(part, table, Key::Machine)?,
        worker: small_at(part, table, Key::Worker)?,
    })
}

fn release_in(part: Part, table: &Table) -> Result<Action, ScriptFault>
    ensures { result ≡ worker_in happens.Release part (table_view table.now) }
{
    Ok(Action::Release {
        machine: small_at(part, table, Key::Machine)?,
        worker: small_at(part, table, Key::Worker)?,
    })
}

fn lease_in(part: Part, table: &Table) -> Result<Action, ScriptFault>
    ensures { result ≡ lease_in part (table_view table.now) }
{
    Ok(Action::Lease {
        machine: small_at(part, table, Key::Machine)?,
        lease: span_in(part, table, Key::Lo, Key::Hi)?,
    })
}

fn restart_in(part: Part, table: &Table) -> Result<Action, ScriptFault>
    ensures { result ≡ clock_in happens.Restart part (table_view table.now) }
{
    Ok(Action::Restart {
        machine: small_at(part, table, Key::Machine)?,
        clock: number_at(part, table, Key::Clock)?,
    })
}

/// The span between the times at two keys. Refuses with 1303 `WrongValue` of the last if they are out of order.
pub(crate) fn span_in(part: Part, table: &Table, first: Key, last: Key) -> Result<Span, ScriptFault>
    requires { (rule_of last).range.most ≤ max_time }
    ensures { result ≡ span_in part first last (table_view table.now) }
{
    let lo = number_at(part, table, first)?;
    let hi = number_at(part, table, last)?;
    match Span::new(lo, hi) {
        Ok(span) => Ok(span),
        Err(_) => Err(wrong(part, last)),
    }
}

/// The payload of this hex text.
fn payload_of(part: Part, text: &str) -> Result<Payload, ScriptFault>
    ensures { result ≡ payload_if part (decode_of text.now) }
{
    let length = text.len() / 2;
    if length > MAX_PAYLOAD {
        return Err(wrong(part, Key::Bytes));
    }
    let mut bytes = [0; MAX_PAYLOAD];
    if hex::decode_to_slice(text, &mut bytes[..length]).is_err() {
        return Err(wrong(part, Key::Bytes));
    }
    match Payload::new(&bytes[..length]) {
        Some(payload) => Ok(payload),
        None => Err(wrong(part, Key::Bytes)),
    }
}
