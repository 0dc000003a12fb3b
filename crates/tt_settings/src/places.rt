//! Where a document is at fault: the name, its value, and the line.

use crate::checks::{has_address, shares_with_any};
use crate::faults::SettingsFault;
use crate::keys::{KEYS, Key, MASTER_KEYS};
use crate::lookups::{first_unknown, found_at, unknown_among};
use crate::masters::{listed_in, member_in};
use std::alloc::{AllocError, Global};
use toml::value::Array;
use toml::{Table, Value};

/// A name of a document that is at fault.
#[derive(Clone, Copy)]
pub(crate) struct Place<'a> {
    /// The name.
    pub(crate) name: &'a str,
    /// The key that it is, if it is one.
    pub(crate) key: Option<Key>,
    /// The keys that could stand there.
    pub(crate) keys: &'static [Key],
    /// What it has, if it is there.
    pub(crate) value: Option<&'a Value>,
    /// The line at which it stands, counted from 1, if it is found.
    pub(crate) line: Option<usize>,
}

/// Where a document is at fault that is refused with this fault.
pub(crate) fn place_of<'a>(
    alloc: Global,
    text: &str,
    table: &'a Table,
    fault: SettingsFault,
) -> Result<Place<'a>, AllocError> {
    let unknown = first_unknown(table);
    match (fault.key(), unknown) {
        (None, Some(name)) => return Ok(place_in(text, table, None, name)),
        (None | Some(Key::Masters | Key::Master | Key::MasterAddress | Key::MasterKey), _) => {
            if let Ok((list, items)) = listed_in(table) {
                return place_among(alloc, text, list, items, fault);
            }
        }
        _ => {}
    }
    let key = fault.key().unwrap_or(Key::Master);
    Ok(place_in(text, table, Some(key), key.text()))
}

/// The place of a name of a document.
fn place_in<'a>(text: &str, table: &'a Table, key: Option<Key>, name: &'a str) -> Place<'a> {
    Place {
        name,
        key,
        keys: &KEYS,
        value: table.get(name),
        line: line_of(text, name),
    }
}

/// Where the masters are at fault that are listed under this key.
fn place_among<'a>(
    alloc: Global,
    text: &str,
    list: Key,
    items: &'a Array,
    fault: SettingsFault,
) -> Result<Place<'a>, AllocError> {
    let index = index_at_fault(alloc, list, items, fault)?;
    let value = items.get(index);
    if let Some(Value::Table(master)) = value {
        return Ok(place_of_master(text, index, master, fault));
    }
    Ok(Place {
        name: list.text(),
        key: Some(list),
        keys: &KEYS,
        value,
        line: line_of(text, list.text()),
    })
}

/// The place, counted from 0, of the first master that is refused by itself, or has what one before it has.
fn index_at_fault(
    alloc: Global,
    list: Key,
    items: &Array,
    fault: SettingsFault,
) -> Result<usize, AllocError> {
    let mut before = Vec::new(alloc);
    for index in 0..items.len() {
        let Ok(master) = member_in(alloc, list, &items[index]) else {
            return Ok(index);
        };
        let is_met = match fault {
            SettingsFault::SameMaster => has_address(master.address().as_str(), before.as_slice()),
            SettingsFault::SameKey => shares_with_any(&master, before.as_slice()),
            _ => false,
        };
        if is_met {
            return Ok(index);
        }
        before.push(master)?;
    }
    Ok(0)
}

/// Where the table of a master is at fault.
fn place_of_master<'a>(
    text: &str,
    index: usize,
    master: &'a Table,
    fault: SettingsFault,
) -> Place<'a> {
    let key = match fault {
        SettingsFault::UnknownKey => None,
        SettingsFault::SameKey => Some(Key::MasterKey),
        SettingsFault::SameMaster => Some(Key::MasterAddress),
        _ => fault.key(),
    };
    let name = match key {
        Some(key) => key.text(),
        None => unknown_among(master, &MASTER_KEYS).unwrap_or(""),
    };
    Place {
        name,
        key,
        keys: &MASTER_KEYS,
        value: master.get(name),
        line: line_in(text, Key::Master.text(), index, name),
    }
}

/// The line, counted from 1, in which this place of a text lies.
pub(crate) fn line_at(text: &str, place: usize) -> usize {
    let mut line = 1usize;
    for (at, byte) in text.as_bytes().iter().enumerate() {
        if at < place && *byte == b'\n' {
            line = line.saturating_add(1);
        }
    }
    line
}

/// The line, counted from 1, that begins with a key of this name, or with the header of a table of this name.
fn line_of(text: &str, name: &str) -> Option<usize> {
    for (index, line) in text.lines().enumerate() {
        if begins_with(line, name) {
            return Some(index.saturating_add(1));
        }
    }
    None
}

/// The line, counted from 1, that begins with a key of this name in a table. The table is the one at this place, counted
/// from 0, of those with this header. If the key is not found, it is the line of the header, and if that is not found
/// either, the line of a key with the header's name.
fn line_in(text: &str, header: &str, place: usize, name: &str) -> Option<usize> {
    let mut before = 0usize;
    let mut at = None;
    for (index, line) in text.lines().enumerate() {
        if line.trim_start().starts_with('[') {
            if at.is_some() {
                return at;
            }
            if begins_with(line, header) {
                if before == place {
                    at = Some(index.saturating_add(1));
                }
                before = before.saturating_add(1);
            }
        } else if at.is_some() && begins_with(line, name) {
            return Some(index.saturating_add(1));
        }
    }
    match at {
        Some(line) => Some(line),
        None => line_of(text, header),
    }
}

/// Whether a line begins with a key of this name, plain or in quotes.
fn begins_with(line: &str, name: &str) -> bool {
    let line = without(without(line.trim_start(), "["), "[").trim_start();
    let plain = without(without(line, "\""), "'");
    match plain.strip_prefix(name) {
        Some(rest) => match rest.as_bytes().first() {
            Some(next) => !is_plain(*next),
            None => true,
        },
        None => false,
    }
}

/// A text without this beginning, if it has it.
fn without<'a>(text: &'a str, beginning: &str) -> &'a str {
    match text.strip_prefix(beginning) {
        Some(rest) => rest,
        None => text,
    }
}

/// Whether a byte may stand in the name of a key without quotes.
pub(crate) fn is_plain(byte: u8) -> bool {
    byte.is_ascii_alphanumeric() || byte == b'_' || byte == b'-'
}
