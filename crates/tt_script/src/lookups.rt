//! Values of a table by their keys.

ghost use Rattle.std.specs.Prelude.{◌≡◌, ◌≤◌, ◌<◌, ◌^◌, Ok, Err, IfOk, MatchResult, nat_le, option_map};
ghost use Rattle.toml.specs.Data.{get_member, as_array, as_table};
ghost use Rattle.toml.specs.View.{view, table_view, array_view};
ghost use Rattle.tt_script.specs.Key.{InRange, rule_of};
ghost use Rattle.tt_script.specs.Lookup.{found_at, value_at, number_at, within, text_at, count_of, is_in, has_few, are_tables, typed_value};

use crate::faults::{Misfit, Part, ScriptFault, missing, wrong};
use crate::keys::{Key, Range};
use toml::value::Array;
use toml::{Table, Value};

/// The value under a name, if it is there.
fn member_at<'a>(table: &'a Table, name: &str) -> Option<&'a Value>
    ensures { option_map (λ value. view value.now) result ≡ get_member name.now (table_view table.now) }
{
    table.get(name)
}

/// The value at a key, if it is there.
pub(crate) fn found_at(table: &Table, key: Key) -> Option<&Value>
    ensures { option_map (λ value. view value.now) result ≡ found_at key (table_view table.now) }
{
    member_at(table, key.rule().name)
}

/// The value at a key that has to be there.
pub(crate) fn value_at(part: Part, table: &Table, key: Key) -> Result<&Value, ScriptFault>
    ensures { let defined = value_at part key (table_view table.now) in
        MatchResult result (λ value. defined ≡ Ok (view value.now)) (λ fault. defined ≡ Err fault) }
{
    match found_at(table, key) {
        Some(value) => Ok(value),
        None => Err(missing(part, key)),
    }
}

/// A whole number that the key takes.
fn number_in(part: Part, key: Key, found: Option<i64>) -> Result<u64, ScriptFault>
    ensures value { result ≡ within part key found }
    ensures range { IfOk result (InRange (rule_of key).range) }
{
    let range = key.rule().range;
    match found {
        Some(number) => match u64::try_from(number) {
            Ok(number) if range.least <= number && number <= range.most => Ok(number),
            _ => Err(ScriptFault::WrongValue(Misfit { part, key, found })),
        },
        None => Err(wrong(part, key)),
    }
}

/// The number at a key, or its default.
pub(crate) fn number_at(part: Part, table: &Table, key: Key) -> Result<u64, ScriptFault>
    ensures value { result ≡ number_at part key (table_view table.now) }
    ensures range { IfOk result (InRange (rule_of key).range) }
{
    match found_at(table, key) {
        Some(value) => number_in(part, key, value.as_integer()),
        None => match key.rule().range.default {
            Some(default) => Ok(default),
            None => Err(missing(part, key)),
        },
    }
}

/// The number at a key that takes at most 255.
pub(crate) fn small_at(part: Part, table: &Table, key: Key) -> Result<u8, ScriptFault>
    requires { (rule_of key).range.most ≤ 255 }
    ensures { result ≡ number_at part key (table_view table.now) }
{
    match number_at(part, table, key) {
        Ok(number) => Ok(number as u8),
        Err(fault) => Err(fault),
    }
}

/// The number at a key that takes at most 4294967295.
pub(crate) fn middle_at(part: Part, table: &Table, key: Key) -> Result<u32, ScriptFault>
    requires { (rule_of key).range.most < 2 ^ 32 }
    ensures value { result ≡ number_at part key (table_view table.now) }
    ensures range { IfOk result (InRange (rule_of key).range) }
{
    match number_at(part, table, key) {
        Ok(number) => Ok(number as u32),
        Err(fault) => Err(fault),
    }
}

/// The text at a key.
pub(crate) fn text_at(part: Part, table: &Table, key: Key) -> Result<&str, ScriptFault>
    ensures { let defined = text_at part key (table_view table.now) in
        MatchResult result (λ text. defined ≡ Ok text.now) (λ fault. defined ≡ Err fault) }
{
    match value_at(part, table, key)?.as_str() {
        Some(text) => Ok(text),
        None => Err(wrong(part, key)),
    }
}

/// The table in a value of the key.
pub(crate) fn table_in(part: Part, key: Key, value: &Value) -> Result<&Table, ScriptFault>
    ensures { let defined = typed_value part key (as_table (view value.now)) in
        MatchResult result (λ table. defined ≡ Ok (table_view table.now)) (λ fault. defined ≡ Err fault) }
{
    match value.as_table() {
        Some(table) => Ok(table),
        None => Err(wrong(part, key)),
    }
}

/// The items of an array.
pub(crate) fn items_in(part: Part, key: Key, value: &Value) -> Result<&Array, ScriptFault>
    ensures { let defined = typed_value part key (as_array (view value.now)) in
        MatchResult result (λ items. defined ≡ Ok (array_view items.now)) (λ fault. defined ≡ Err fault) }
{
    match value.as_array() {
        Some(items) => Ok(items),
        None => Err(wrong(part, key)),
    }
}

/// How many items there are.
fn count_of(items: &Array) -> u64
    ensures { result ≡ count_of (array_view items.now) }
{
    items.len() as u64
}

/// Whether there are no items.
pub(crate) fn has_none(items: &Array) -> bool
    ensures { result ≡ nat_le (count_of (array_view items.now)) 0 }
{
    items.is_empty()
}

/// Whether a number is in a range.
fn is_in(range: Range, number: u64) -> bool
    ensures { result ≡ is_in range number }
{
    range.least <= number && number <= range.most
}

/// Whether there are as many items as the key takes.
pub(crate) fn has_few(key: Key, items: &Array) -> bool
    ensures { result ≡ has_few key (array_view items.now) }
{
    is_in(key.rule().range, count_of(items))
}

/// Whether each item is a table.
pub(crate) fn are_tables(items: &Array) -> bool
    ensures { result ≡ are_tables (array_view items.now) }
{
    for item in items {
        if !item.is_table() {
            return false;
        }
    }
    true
}
