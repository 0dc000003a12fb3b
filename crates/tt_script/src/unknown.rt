//! Keys that no rule names.

use crate::faults::Part;
use crate::keys::{DOCUMENT, Key, LIVE, MACHINE, MASTER, keys_of};
use crate::lookups::{found_at, text_at};
use crate::words::word_of;
use std::alloc::{AllocError, Global};
use toml::{Table, Value};

/// The most keys that [`read_noting`](crate::read_noting) adds.
pub const MAX_UNKNOWN: usize = 20;

/// Adds the keys of a document that no rule names.
pub(crate) fn push_unknown(
    found: &mut Vec<String>,
    alloc: Global,
    document: &Table,
) -> Result<(), AllocError> {
    note_table(found, alloc, Part::Document, document)?;
    note_items(found, alloc, document, Key::Machines)?;
    note_items(found, alloc, document, Key::Events)?;
    let Some(live) = found_at(document, Key::Live).and_then(Value::as_table) else {
        return Ok(());
    };
    note_table(found, alloc, Part::Live, live)?;
    note_items(found, alloc, live, Key::Masters)
}

/// Adds the keys of the tables in the array at this key.
fn note_items(
    found: &mut Vec<String>,
    alloc: Global,
    table: &Table,
    key: Key,
) -> Result<(), AllocError> {
    let Some(items) = found_at(table, key).and_then(Value::as_array) else {
        return Ok(());
    };
    for (index, item) in items.iter().enumerate() {
        if let Some(table) = item.as_table() {
            note_table(found, alloc, part_of(key, index, table), table)?;
        }
    }
    Ok(())
}

/// The part of a script that the table with this number in the array at this key is.
fn part_of(key: Key, index: usize, table: &Table) -> Part {
    match key {
        Key::Machines => Part::Machine(index),
        Key::Masters => Part::Master(index),
        _ => match text_at(Part::Event(index), table, Key::Do) {
            Ok(text) => match word_of(text) {
                Some(word) => Part::Action(index, word),
                None => Part::Event(index),
            },
            Err(_) => Part::Event(index),
        },
    }
}

/// The keys of a part beside `do` and `at`.
fn keys_in(part: Part) -> &'static [Key] {
    match part {
        Part::Document => &DOCUMENT,
        Part::Machine(_) => &MACHINE,
        Part::Action(_, word) => keys_of(word),
        Part::Live => &LIVE,
        Part::Master(_) => &MASTER,
        Part::Event(_) | Part::Session(_) => &[],
    }
}

/// Adds the keys of a table. A table of an event whose word is not known has none.
fn note_table(
    found: &mut Vec<String>,
    alloc: Global,
    part: Part,
    table: &Table,
) -> Result<(), AllocError> {
    let keys = keys_in(part);
    if keys.is_empty() {
        return Ok(());
    }
    for (name, _value) in table.iter() {
        let name = name.as_str();
        let is_event = matches!(part, Part::Action(_, _)) && matches!(name, "do" | "at");
        if found.len() < MAX_UNKNOWN && !is_event && !is_among(name, keys) {
            let note = match near(name, keys) {
                Some(key) => {
                    format!(in alloc; "{part}: {name:?}: unknown key; did you mean {key}?")?
                }
                None => format!(in alloc; "{part}: {name:?}: unknown key")?,
            };
            found.push(note)?;
        }
    }
    Ok(())
}

/// Whether a name is that of one of these keys.
fn is_among(name: &str, keys: &[Key]) -> bool {
    for key in keys {
        if key.rule().name == name {
            return true;
        }
    }
    false
}

/// The first of these keys whose name is almost this one.
fn near(name: &str, keys: &[Key]) -> Option<Key> {
    for key in keys {
        if is_near(name.as_bytes(), key.rule().name.as_bytes()) {
            return Some(*key);
        }
    }
    None
}

/// Whether two names differ in one place by at most two letters.
fn is_near(one: &[u8], other: &[u8]) -> bool {
    let front = same_front(one, other);
    let one = one.get(front..).unwrap_or_default();
    let other = other.get(front..).unwrap_or_default();
    let back = same_back(one, other);
    one.len().max(other.len()).saturating_sub(back) <= 2
}

/// How many letters are the same at the front of both names.
fn same_front(one: &[u8], other: &[u8]) -> usize {
    let most = one.len().min(other.len());
    for i in 0..most {
        if one[i] != other[i] {
            return i;
        }
    }
    most
}

/// How many letters are the same at the end of both names.
fn same_back(one: &[u8], other: &[u8]) -> usize {
    let most = one.len().min(other.len());
    for i in 0..most {
        if one[one.len() - 1 - i] != other[other.len() - 1 - i] {
            return i;
        }
    }
    most
}
