//! What is wrong in a document, in words for a person: the value, and what would be right.

use crate::checks::MAX_SOCKET_PATH;
use crate::faults::SettingsFault;
use crate::keys::{Key, MILLISECOND, SECOND, ValueKind};
use crate::places::{Place, is_plain};
use std::alloc::{AllocError, Global};
use toml::Value;
use tt_span::{MAX_SOURCES, MAX_TIME};

/// The most characters of a value that are shown.
const MOST_SHOWN: usize = 80;

/// What is wrong at this place of a document that is refused with this fault.
pub(crate) fn words_of(
    alloc: Global,
    place: &Place<'_>,
    fault: SettingsFault,
) -> Result<String, AllocError> {
    let mut words = String::new(alloc);
    let Some(key) = place.key else {
        push_name(&mut words, alloc, place.name)?;
        words.push_str(": unknown key")?;
        if let Some(key) = nearest_among(place.name, place.keys) {
            write!(words, "; did you mean {key}?")?;
        }
        return Ok(words);
    };
    match place.value {
        Some(value) => push_value(&mut words, alloc, value)?,
        None => words.push_str("missing")?,
    }
    words.push_str(": ")?;
    match fault {
        SettingsFault::TooManyFaulty { masters, most, .. } => {
            write!(words, "at most {most} of {masters} masters")?;
        }
        _ => match text_of(fault) {
            Some(text) => words.push_str(text)?,
            None => push_right(&mut words, key)?,
        },
    }
    Ok(words)
}

/// What would be right, if the fault tells it.
fn text_of(fault: SettingsFault) -> Option<&'static str> {
    match fault {
        SettingsFault::TooFewWorkers => Some("at least 2, since socket takes one of its own"),
        SettingsFault::SamePath(_) => {
            Some("the path, its draft or its lock has another purpose as well")
        }
        SettingsFault::SameMaster => Some("a master before it has this address as well"),
        SettingsFault::BothForms => Some(
            "there is [[master]] as well, and one of the two is enough",
        ),
        SettingsFault::SameKey => Some("a master before it has one of these keys as well"),
        _ => None,
    }
}

/// Adds what the value of a key has to be.
fn push_right(words: &mut String, key: Key) -> Result<(), AllocError> {
    if let Key::Masters | Key::Master = key {
        write!(words, "from 1 to {MAX_SOURCES} ")?;
    }
    match key.kind() {
        ValueKind::Number { least, most } => {
            write!(words, "a whole number from {least} to {most}")?;
        }
        ValueKind::Duration { least, most } => {
            words.push_str("a whole number and ns, us, ms or s in quotes, from ")?;
            push_time(words, least)?;
            words.push_str(" to ")?;
            push_time(words, most)?;
        }
        ValueKind::Form(form) => write!(words, "\"{}\" or \"{}\"", form.first(), form.second())?,
        ValueKind::Ends => {
            write!(
                words,
                "two whole numbers from 0 to {MAX_TIME} in brackets, the first at most the second"
            )?;
        }
        kind => words.push_str(text_of_kind(&kind))?,
    }
    match key {
        Key::LeaseHi => words.push_str(", at least lease_lo"),
        Key::Http => words.push_str(", with a port from 1"),
        Key::Keys => words.push_str(", needed where a master has a key"),
        Key::Socket => write!(words, ", of at most {MAX_SOCKET_PATH} bytes"),
        _ => Ok(()),
    }
}

/// What a value of this kind has to be, if no number belongs to it.
fn text_of_kind(kind: &ValueKind) -> &'static str {
    match kind {
        ValueKind::Address => "an address of this host, as \"127.0.0.1:7001\"",
        ValueKind::Addresses => {
            "addresses of this host in brackets, each with a port from 1; a master outside it stands in [[master]], with a key"
        }
        ValueKind::Tables => "tables [[master]], each with address, and key where there is one",
        ValueKind::Place => {
            "an address of one host and a port from 1, as \"10.1.0.1:5701\", or a name and a port; without a key an address of this host"
        }
        ValueKind::KeyNumbers => {
            "a whole number from 0 to 4294967295, or from 1 to 4 different ones in brackets"
        }
        ValueKind::Act => "\"end\", \"warn\" or \"stay\"",
        _ => "a path in quotes, not empty",
    }
}

/// Adds a length of time, in nanoseconds.
fn push_time(words: &mut String, time: u64) -> Result<(), AllocError> {
    if time % SECOND == 0 {
        write!(words, "{}s", time / SECOND)
    } else {
        write!(words, "{}ms", time / MILLISECOND)
    }
}

/// Adds a value as the file may write it, in one line. Of a long one only its beginning is shown.
fn push_value(words: &mut String, alloc: Global, value: &Value) -> Result<(), AllocError> {
    let shown = match value {
        Value::String(text) => format!(in alloc; "{text:?}")?,
        _ => format!(in alloc; "{value}")?,
    };
    push_shown(words, shown.as_str())
}

/// Adds a name as a file may write it: in quotes, unless each byte of it may stand without.
fn push_name(words: &mut String, alloc: Global, name: &str) -> Result<(), AllocError> {
    let quoted = format!(in alloc; "{name:?}")?;
    for byte in name.as_bytes() {
        if !is_plain(*byte) {
            return push_shown(words, quoted.as_str());
        }
    }
    push_shown(words, if name.is_empty() { "\"\"" } else { name })
}

/// Adds the beginning of a text, without its control characters.
fn push_shown(words: &mut String, text: &str) -> Result<(), AllocError> {
    for (place, part) in text.chars().enumerate() {
        if place == MOST_SHOWN {
            return words.push_str("..");
        }
        words.push(if part.is_control() { ' ' } else { part })?;
    }
    Ok(())
}

/// The key of these that a name may stand for: that from which it differs least, in at most two fifths of it.
fn nearest_among(name: &str, keys: &[Key]) -> Option<Key> {
    let mut nearest = None;
    let mut least = usize::MAX;
    for key in keys {
        let gap = gap_of(name.as_bytes(), key.text().as_bytes());
        let longer = name.len().max(key.text().len());
        if gap < least && gap.saturating_mul(5) <= longer.saturating_mul(2) {
            nearest = Some(*key);
            least = gap;
        }
    }
    nearest
}

/// How many bytes of the longer text stand between what two texts have in common at their beginnings and their ends.
fn gap_of(one: &[u8], other: &[u8]) -> usize {
    one.len()
        .max(other.len())
        .saturating_sub(common_front(one, other))
        .saturating_sub(common_back(one, other))
}

/// How many bytes two texts have in common at their beginnings.
fn common_front(one: &[u8], other: &[u8]) -> usize {
    for place in 0..one.len() {
        if place >= other.len() || one[place] != other[place] {
            return place;
        }
    }
    one.len()
}

/// How many bytes two texts have in common at their ends.
fn common_back(one: &[u8], other: &[u8]) -> usize {
    for place in 0..one.len() {
        if place >= other.len() || one[one.len() - 1 - place] != other[other.len() - 1 - place] {
            return place;
        }
    }
    one.len()
}
