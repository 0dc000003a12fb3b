//! Addresses of this host.

ghost use Rattle.std.specs.Prelude.{◌≡◌};
ghost use Rattle.toml.specs.View.{view, table_view};
ghost use Rattle.tt_settings.specs.Address.{port_of, address_in, address_at, open_in, http_in, ports_in};

use crate::faults::SettingsFault;
use crate::keys::Key;
use crate::lookups::{found_at, text_in, value_at};
use crate::numerals::number_of;
use crate::sockets::address_of;
use std::net::SocketAddr;
use toml::{Table, Value};

/// Where a machine answers.
#[derive(Clone, Copy)]
pub(crate) struct Ports {
    /// The port of 127.0.0.1 of its sessions.
    pub(crate) listen: u16,
    /// The address of its pages over HTTP, if it has some.
    pub(crate) http: Option<SocketAddr>,
}

/// The port of an address of this host. The text is `127.0.0.1:` and the port, from 0 to 65535, in decimal digits
/// without leading zeros. None for any other text.
pub fn port_of(text: &str) -> Option<u16>
    ensures { result ≡ port_of text.now }
{
    match text.strip_prefix("127.0.0.1:") {
        Some(digits) => match number_of(65535, digits) {
            Some(port) => Some(port as u16),
            None => None,
        },
        None => None,
    }
}

/// The port of the address that a value is.
fn address_in(key: Key, value: &Value) -> Result<u16, SettingsFault>
    ensures { result ≡ address_in key (view value.now) }
{
    match port_of(text_in(key, value)?) {
        Some(port) => Ok(port),
        None => Err(SettingsFault::NotLocal(key)),
    }
}

/// The port of the address at a key.
fn address_at(table: &Table, key: Key) -> Result<u16, SettingsFault>
    ensures { result ≡ address_at key (table_view table.now) }
{
    address_in(key, value_at(table, key)?)
}

/// The address that a value is, in its one spelling. Refuses port 0 with 1804 `WrongValue` of this key, since no one could
/// know which port it became.
fn open_in(key: Key, value: &Value) -> Result<SocketAddr, SettingsFault>
    ensures { result ≡ open_in key (view value.now) }
{
    match address_of(text_in(key, value)?) {
        Some(address) => {
            if address.port() == 0 {
                return Err(SettingsFault::WrongValue(key));
            }
            Ok(address)
        }
        None => Err(SettingsFault::NotLocal(key)),
    }
}

/// The address for pages over HTTP, if one is given. It may be any of this host, or 0.0.0.0 or [::] for all of them.
fn http_in(table: &Table) -> Result<Option<SocketAddr>, SettingsFault>
    ensures { result ≡ http_in (table_view table.now) }
{
    match found_at(table, Key::Http) {
        Some(value) => {
            let address = open_in(Key::Http, value)?;
            Ok(Some(address))
        }
        None => Ok(None),
    }
}

/// Where a machine answers.
#[tactic(auto, unfolding(crate::specs::Address::ports_in))]
pub(crate) fn ports_in(table: &Table) -> Result<Ports, SettingsFault>
    ensures { result ≡ ports_in (table_view table.now) }
{
    let listen = address_at(table, Key::Listen)?;
    let http = http_in(table)?;
    Ok(Ports { listen, http })
}
