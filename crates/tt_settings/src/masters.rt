//! The masters of a machine: where they answer, and which keys are shared with them.

ghost use Rattle.std.specs.Prelude.{◌≡◌, ◌<◌, ◌≤◌, List, ℕ, [], Some, Ok, Err, IfOk, IfSome, IfNone, IsSome, IsTrue, MatchResult, option_map};
ghost use Rattle.std.specs.Net.Text.{socket_text};
ghost use Rattle.toml.specs.View.{view, table_view, array_view};
ghost use Rattle.tt_span.specs.Sources.{max_sources};
ghost use Rattle.tt_settings.specs.Fault.{IsRefusal};
ghost use Rattle.tt_settings.specs.declared.faults.SettingsFault.TheVariants.{Memory};
ghost use Rattle.tt_settings.specs.Lookup.{count_of};
ghost use Rattle.tt_settings.specs.Socket.{address_of, host_of, is_usable};
ghost use Rattle.tt_settings.specs.Master.{any_place, can_be_asked, has_twice, is_local, listed_if, listed_in, local_in, local_place, master_of, masters_of, member_in, number_in, numbers_at, numbers_in, numbers_of, place_for, table_in};

use crate::faults::SettingsFault;
use crate::keys::{Key, MASTER_KEYS};
use crate::lookups::{
    found_at, has_at_most, has_none, items_in, text_in, unknown_among, value_at, whole_in, within,
};
use crate::names::host_of;
use crate::sockets::{address_of, is_loopback, is_usable};
use std::alloc::Global;
use std::marker::Model;
use std::net::SocketAddr;
use toml::value::Array;
use toml::{Table, Value};
use tt_span::MAX_SOURCES;

/// The most keys that are shared with one master.
const MAX_KEYS: usize = 4;

/// Where a master answers: at a socket address, or at a port of a host with a name. In contracts it is its text.
#[derive(Drop)]
pub struct MasterAddress {
    text: String,
}

impl Model for MasterAddress {
    ghost use Rattle.std.specs.Prelude.{List, ℕ, IsTrue, string_bytes};
    ghost use Rattle.tt_settings.specs.Master.{can_be_asked};

    ghost Value = { List ℕ };

    ghost view = { λ a. string_bytes a.text };

    ghost invariant = { λ a. IsTrue (can_be_asked (string_bytes a.text)) };
}

impl MasterAddress {
    /// The text, as the file has it.
    pub fn as_str(&self) -> &str
        ensures value { result.now ≡ self.now }
        ensures asked { IsTrue (can_be_asked self.now) }
    {
        self.text.as_str()
    }

    /// The socket address. None if there is a name in its place.
    pub fn socket(&self) -> Option<SocketAddr>
        ensures value { result ≡ address_of self.now }
        ensures printed { IfSome result (λ a. socket_text a ≡ self.now) }
        ensures usable { IfSome result (λ a. IsTrue (is_usable a)) }
        ensures named { IfNone result (IsSome (host_of self.now)) }
    {
        address_of(self.text.as_str())
    }

    /// The name of the host and the port. None if there is a socket address in their place.
    pub fn host(&self) -> Option<(&str, u16)>
        ensures value { option_map (λ h. (h.0.now, h.1)) result ≡ host_of self.now }
    {
        host_of(self.text.as_str())
    }
}

/// A master: where it answers, and the keys that are shared with it. In contracts it is a [`Master`].
#[derive(Drop)]
pub struct MasterSettings {
    address: MasterAddress,
    keys: Vec<u32>,
}

impl Model for MasterSettings {
    ghost use Rattle.std.specs.Prelude.{◌≡◌, [], IsTrue};
    ghost use Rattle.tt_settings.specs.Master.{Master, is_local};

    ghost Value = { Master };

    ghost view = { λ m. record { address = m.address; keys = m.keys.items } };

    ghost invariant = { λ m. m.keys.items ≡ [] → IsTrue (is_local m.address) };
}

impl MasterSettings {
    /// Where it answers.
    pub fn address(&self) -> &MasterAddress
        ensures value { result.now ≡ self.now.address }
    {
        &self.address
    }

    /// The numbers of the keys that are shared with it, at most four. The first seals, and all open. If there are none, its
    /// polls are open, and it is on this host.
    pub fn keys(&self) -> &[u32]
        ensures value { result.now ≡ self.now.keys }
        ensures local { result.now ≡ [] → IsTrue (is_local self.now.address) }
    {
        self.keys.as_slice()
    }
}

/// Whether a text names a place that can be asked: an address, or a name with a port.
#[tactic(auto, unfolding(crate::specs::Master::can_be_asked))]
fn can_be_asked(text: &str) -> bool
    ensures { result ≡ can_be_asked text.now }
{
    match address_of(text) {
        Some(address) => is_usable(address),
        None => host_of(text).is_some(),
    }
}

/// A master at this place, which can be asked, with these keys.
fn master_at(alloc: Global, text: &str, keys: Vec<u32>) -> Result<MasterSettings, SettingsFault>
    requires asked { IsTrue (can_be_asked text.now) }
    requires local { keys.items ≡ [] → IsTrue (is_local text.now) }
    ensures { MatchResult result (λ m. m ≡ record { address = text.now; keys = keys.items }) (λ fault. fault ≡ Memory) }
{
    Ok(MasterSettings {
        address: MasterAddress {
            text: String::from_str(alloc, text)?,
        },
        keys,
    })
}

/// Refuses a text that names no place that can be asked, for a master with a key.
fn check_any(text: &str) -> Result<(), SettingsFault>
    ensures value { MatchResult result (λ _. any_place text.now ≡ Ok text.now) (λ fault. any_place text.now ≡ Err fault) }
    ensures asked { IfOk result (λ _. IsTrue (can_be_asked text.now)) }
{
    if !can_be_asked(text) {
        return Err(SettingsFault::WrongValue(Key::MasterAddress));
    }
    Ok(())
}

/// Refuses a text that is no address of this host, for a master without a key.
#[tactic(auto, unfolding(crate::specs::Master::can_be_asked, crate::specs::Master::is_local, crate::specs::Master::local_place))]
fn check_local(key: Key, text: &str) -> Result<(), SettingsFault>
    ensures value { MatchResult result (λ _. local_place key text.now ≡ Ok text.now) (λ fault. local_place key text.now ≡ Err fault) }
    ensures asked { IfOk result (λ _. IsTrue (can_be_asked text.now)) }
    ensures local { IfOk result (λ _. IsTrue (is_local text.now)) }
{
    match address_of(text) {
        Some(address) => {
            if !is_usable(address) {
                return Err(SettingsFault::WrongValue(key));
            }
            if !is_loopback(address) {
                return Err(SettingsFault::NotLocal(key));
            }
            Ok(())
        }
        None => Err(SettingsFault::NotLocal(key)),
    }
}

/// Whether a number is among these twice.
pub(crate) fn has_twice(numbers: &[u32]) -> bool
    ensures { result ≡ has_twice numbers.now }
{
    for place in 0..numbers.len() {
        if numbers[place + 1..].contains(&numbers[place]) {
            return true;
        }
    }
    false
}

/// The number of a key.
fn number_in(value: &Value) -> Result<u32, SettingsFault>
    ensures { result ≡ number_in (view value.now) }
{
    let number = within(Key::MasterKey, 0, u64::from(u32::MAX), whole_in(value))?;
    Ok(number as u32)
}

/// The numbers that these items list: from one to four different ones.
fn numbers_of(alloc: Global, items: &Array) -> Result<Vec<u32>, SettingsFault>
    ensures { let defined = numbers_of (array_view items.now) in
        MatchResult result (λ numbers. defined ≡ Ok numbers.items) (IsRefusal defined) }
{
    if has_none(items) || !has_at_most(items, MAX_KEYS) {
        return Err(SettingsFault::WrongValue(Key::MasterKey));
    }
    let mut numbers = Vec::new(alloc);
    for item in items {
        numbers.push(number_in(item)?)?;
    }
    if has_twice(numbers.as_slice()) {
        return Err(SettingsFault::WrongValue(Key::MasterKey));
    }
    Ok(numbers)
}

/// The numbers that a value lists, or the one that it is.
fn numbers_in(alloc: Global, value: &Value) -> Result<Vec<u32>, SettingsFault>
    ensures { let defined = numbers_in (view value.now) in
        MatchResult result (λ numbers. defined ≡ Ok numbers.items) (IsRefusal defined) }
{
    match value.as_array() {
        Some(items) => numbers_of(alloc, items),
        None => {
            let mut numbers = Vec::new(alloc);
            numbers.push(number_in(value)?)?;
            Ok(numbers)
        }
    }
}

/// The numbers of the keys that a table names: none, if it has no key.
fn numbers_at(alloc: Global, table: &Table) -> Result<Vec<u32>, SettingsFault>
    ensures { let defined = numbers_at (table_view table.now) in
        MatchResult result (λ numbers. defined ≡ Ok numbers.items) (IsRefusal defined) }
{
    match found_at(table, Key::MasterKey) {
        Some(value) => numbers_in(alloc, value),
        None => Ok(Vec::new(alloc)),
    }
}

/// Refuses a text that is no place for a master with these keys.
fn check_place(text: &str, numbers: &[u32]) -> Result<(), SettingsFault>
    ensures value { let defined = place_for numbers.now text.now in
        MatchResult result (λ _. defined ≡ Ok text.now) (λ fault. defined ≡ Err fault) }
    ensures asked { IfOk result (λ _. IsTrue (can_be_asked text.now)) }
    ensures local { IfOk result (λ _. numbers.now ≡ [] → IsTrue (is_local text.now)) }
{
    if numbers.is_empty() {
        check_local(Key::MasterAddress, text)
    } else {
        check_any(text)
    }
}

/// The master that a table describes.
#[tactic(auto, unfolding(crate::specs::Master::master_of))]
fn master_of(alloc: Global, table: &Table) -> Result<MasterSettings, SettingsFault>
    ensures { let defined = master_of (table_view table.now) in
        MatchResult result (λ master. defined ≡ Ok master) (IsRefusal defined) }
{
    if unknown_among(table, &MASTER_KEYS).is_some() {
        return Err(SettingsFault::UnknownKey);
    }
    let text = text_in(Key::MasterAddress, value_at(table, Key::MasterAddress)?)?;
    let numbers = numbers_at(alloc, table)?;
    check_place(text, numbers.as_slice())?;
    master_at(alloc, text, numbers)
}

/// A master of the long form: a table.
fn table_in(alloc: Global, value: &Value) -> Result<MasterSettings, SettingsFault>
    ensures { let defined = table_in (view value.now) in
        MatchResult result (λ master. defined ≡ Ok master) (IsRefusal defined) }
{
    match value.as_table() {
        Some(table) => master_of(alloc, table),
        None => Err(SettingsFault::WrongValue(Key::Master)),
    }
}

/// A master of the short form: an address of this host.
#[tactic(auto, unfolding(crate::specs::Master::local_in))]
fn local_in(alloc: Global, value: &Value) -> Result<MasterSettings, SettingsFault>
    ensures { let defined = local_in (view value.now) in
        MatchResult result (λ master. defined ≡ Ok master) (IsRefusal defined) }
{
    let text = text_in(Key::Masters, value)?;
    check_local(Key::Masters, text)?;
    master_at(alloc, text, Vec::new(alloc))
}

/// The value that lists the masters, and its key.
fn listed_if<'a>(
    short: Option<&'a Value>,
    long: Option<&'a Value>,
) -> Result<(Key, &'a Value), SettingsFault>
    ensures { let defined = listed_if (option_map (λ value. view value.now) short.entry) (option_map (λ value. view value.now) long.entry) in
        MatchResult result (λ found. defined ≡ Ok (found.0, view found.1.now)) (λ fault. defined ≡ Err fault) }
{
    match (short, long) {
        (Some(_), Some(_)) => Err(SettingsFault::BothForms),
        (Some(value), None) => Ok((Key::Masters, value)),
        (None, Some(value)) => Ok((Key::Master, value)),
        (None, None) => Err(SettingsFault::MissingKey(Key::Masters)),
    }
}

/// The items of the masters, from one to [`MAX_SOURCES`], and their key.
#[tactic(auto, unfolding(crate::specs::Master::listed_in))]
pub(crate) fn listed_in(table: &Table) -> Result<(Key, &Array), SettingsFault>
    ensures value { let defined = listed_in (table_view table.now) in
        MatchResult result (λ listed. defined ≡ Ok (listed.0, array_view listed.1.now)) (λ fault. defined ≡ Err fault) }
    ensures count { IfOk result (λ listed. (0 < count_of (array_view listed.1.now)) × (count_of (array_view listed.1.now) ≤ max_sources)) }
{
    let (key, value) = listed_if(found_at(table, Key::Masters), found_at(table, Key::Master))?;
    let items = items_in(key, value)?;
    if has_none(items) || !has_at_most(items, MAX_SOURCES) {
        return Err(SettingsFault::WrongValue(key));
    }
    Ok((key, items))
}

/// A master of the form that this key lists.
pub(crate) fn member_in(
    alloc: Global,
    list: Key,
    value: &Value,
) -> Result<MasterSettings, SettingsFault>
    ensures { let defined = member_in list (view value.now) in
        MatchResult result (λ master. defined ≡ Ok master) (IsRefusal defined) }
{
    match list {
        Key::Masters => local_in(alloc, value),
        _ => table_in(alloc, value),
    }
}

/// The masters that these items are, under their key, one after the other.
pub(crate) fn masters_of(
    alloc: Global,
    list: Key,
    items: &Array,
) -> Result<Vec<MasterSettings>, SettingsFault>
    ensures { let defined = masters_of (list, array_view items.now) in
        MatchResult result (λ masters. defined ≡ Ok masters.items) (IsRefusal defined) }
{
    let mut masters = Vec::new(alloc);
    for item in items {
        masters.push(member_in(alloc, list, item)?)?;
    }
    Ok(masters)
}
