//! Values of a table by their keys.

ghost use Rattle.std.specs.Prelude.{◌≡◌, Ok, Err, MatchResult, nat_le, option_map, option_copied};
ghost use Rattle.toml.specs.Data.{get_member, as_array, as_str};
ghost use Rattle.toml.specs.View.{view, table_view, array_view};
ghost use Rattle.tt_settings.specs.Key.{text_of, first_unknown, unknown_among};
ghost use Rattle.tt_settings.specs.Lookup.{value_at, whole_in, within, amount_in, amount_at, amount_or, optional_amount, count_of, typed_value};

use crate::durations::duration_of;
use crate::faults::SettingsFault;
use crate::keys::{KEYS, Key, ValueKind, key_among};
use toml::value::Array;
use toml::{Table, Value};

/// The value under a name, if it is there.
fn member_at<'a>(table: &'a Table, name: &str) -> Option<&'a Value>
    ensures { option_map (λ value. view value.now) result ≡ get_member name.now (table_view table.now) }
{
    table.get(name)
}

/// The value at a key, if it is there.
pub(crate) fn found_at(table: &Table, key: Key) -> Option<&Value>
    ensures { option_map (λ value. view value.now) result ≡ get_member (text_of key) (table_view table.now) }
{
    member_at(table, key.text())
}

/// The value at a key that has to be there.
pub(crate) fn value_at(table: &Table, key: Key) -> Result<&Value, SettingsFault>
    ensures { let defined = value_at key (table_view table.now) in
        MatchResult result (λ value. defined ≡ Ok (view value.now)) (λ fault. defined ≡ Err fault) }
{
    match found_at(table, key) {
        Some(value) => Ok(value),
        None => Err(SettingsFault::MissingKey(key)),
    }
}

/// The whole number that a value is, if it is one and not below 0.
pub(crate) fn whole_in(value: &Value) -> Option<u64>
    ensures { result ≡ whole_in (view value.now) }
{
    match value.as_integer() {
        Some(number) => match u64::try_from(number) {
            Ok(number) => Some(number),
            Err(_) => None,
        },
        None => None,
    }
}

/// An amount from the least to the greatest, if there is one.
pub(crate) fn within(
    key: Key,
    least: u64,
    most: u64,
    amount: Option<u64>,
) -> Result<u64, SettingsFault>
    ensures { result ≡ within key least most amount }
{
    match amount {
        Some(amount) if least <= amount && amount <= most => Ok(amount),
        _ => Err(SettingsFault::WrongValue(key)),
    }
}

/// The amount that the value of a key is: a number, or the nanoseconds of a length of time.
pub(crate) fn amount_in(key: Key, value: &Value) -> Result<u64, SettingsFault>
    ensures { result ≡ amount_in key (view value.now) }
{
    match key.kind() {
        ValueKind::Number { least, most } => within(key, least, most, whole_in(value)),
        ValueKind::Duration { least, most } => {
            within(key, least, most, duration_of(text_in(key, value)?))
        }
        _ => Err(SettingsFault::WrongValue(key)),
    }
}

/// The amount at a key.
pub(crate) fn amount_at(table: &Table, key: Key) -> Result<u64, SettingsFault>
    ensures { result ≡ amount_at key (table_view table.now) }
{
    amount_in(key, value_at(table, key)?)
}

/// The amount at a key, or the default if the key is absent.
pub(crate) fn amount_or(table: &Table, key: Key, default: u64) -> Result<u64, SettingsFault>
    ensures { result ≡ amount_or key default (table_view table.now) }
{
    match found_at(table, key) {
        Some(value) => amount_in(key, value),
        None => Ok(default),
    }
}

/// The amount at a key, if the key is there.
pub(crate) fn optional_amount(table: &Table, key: Key) -> Result<Option<u64>, SettingsFault>
    ensures { result ≡ optional_amount key (table_view table.now) }
{
    match found_at(table, key) {
        Some(value) => {
            let amount = amount_in(key, value)?;
            Ok(Some(amount))
        }
        None => Ok(None),
    }
}

/// A text.
pub(crate) fn text_in(key: Key, value: &Value) -> Result<&str, SettingsFault>
    ensures { let defined = typed_value key (as_str (view value.now)) in
        MatchResult result (λ text. defined ≡ Ok text.now) (λ fault. defined ≡ Err fault) }
{
    match value.as_str() {
        Some(text) => Ok(text),
        None => Err(SettingsFault::WrongValue(key)),
    }
}

/// The items of an array.
pub(crate) fn items_in(key: Key, value: &Value) -> Result<&Array, SettingsFault>
    ensures { let defined = typed_value key (as_array (view value.now)) in
        MatchResult result (λ items. defined ≡ Ok (array_view items.now)) (λ fault. defined ≡ Err fault) }
{
    match value.as_array() {
        Some(items) => Ok(items),
        None => Err(SettingsFault::WrongValue(key)),
    }
}

/// Whether there are no items.
pub(crate) fn has_none(items: &Array) -> bool
    ensures { result ≡ nat_le (count_of (array_view items.now)) 0 }
{
    items.is_empty()
}

/// Whether there are at most `most` items.
pub(crate) fn has_at_most(items: &Array, most: usize) -> bool
    ensures { result ≡ nat_le (count_of (array_view items.now)) most }
{
    items.len() <= most
}

/// How many items there are.
pub(crate) fn count_of(items: &Array) -> u64
    ensures { result ≡ count_of (array_view items.now) }
{
    items.len() as u64
}

/// The first name of a table that is none of these keys.
pub(crate) fn unknown_among<'a>(table: &'a Table, keys: &[Key]) -> Option<&'a str>
    ensures { option_copied result ≡ unknown_among keys.now (table_view table.now) }
{
    for (name, _value) in table.iter() {
        if key_among(name.as_str(), keys).is_none() {
            return Some(name.as_str());
        }
    }
    None
}

/// The first name of a document that is no key.
pub(crate) fn first_unknown(table: &Table) -> Option<&str>
    ensures { option_copied result ≡ first_unknown (table_view table.now) }
{
    unknown_among(table, &KEYS)
}
