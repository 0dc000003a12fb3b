//! The settings of a machine: what its configuration file means.
//!
//! The file is a TOML document (toml.io, version 1.1). [`read`] gives the settings of such a text, or the first refusal
//! in a fixed order. It opens no file and no socket. These four keys are enough, since the others have defaults:
//!
//! ```text
//! machine = 0
//! masters = ["127.0.0.1:5701", "127.0.0.1:5702", "127.0.0.1:5703"]
//! listen = "127.0.0.1:5601"
//! state = "state"
//! ```
//!
//! Masters on other hosts stand in tables, each with the number of a key, which the file `keys` has:
//!
//! ```text
//! keys = "/etc/truetime/keys"
//!
//! [[master]]
//! address = "10.1.0.1:5701"
//! key = 1
//! ```
//!
//! - `settings`: [`Settings`], and [`read`].
//! - `masters`: [`MasterSettings`]. `sockets`: socket addresses as texts. `prints`: what is printed of one. `names`: names of hosts with a port.
//! - `plans`: the settings that are numbers, and the clock. `texts`: the settings that are paths.
//! - `forms`: the settings that are one of two words. `addresses`: addresses of this host. `durations`: lengths of time with a unit. `numerals`: decimal numbers.
//! - `checks`: what is refused of settings that can be read. `paths`: which files paths name.
//! - `keys`: the keys of the file. `lookups`: values of a table by their keys.
//! - `faults`: why a text is refused. `refusals`: the same for a person, in the words of `wordings`. `places`: where a document is at fault.
#![tactic(auto)]

mod addresses;
mod checks;
mod durations;
mod faults;
mod forms;
mod keys;
mod lookups;
mod masters;
mod names;
mod numerals;
mod paths;
mod places;
mod plans;
mod prints;
mod refusals;
mod settings;
mod sockets;
mod texts;
mod wordings;

pub use addresses::port_of;
pub use durations::duration_of;
pub use faults::SettingsFault;
pub use forms::{OnBreak, log_format_of};
pub use keys::{Key, MAX_SLEW};
pub use masters::{MasterAddress, MasterSettings};
pub use names::host_of;
pub use numerals::number_of;
pub use paths::{meets, meets_state};
pub use plans::Pauses;
pub use refusals::Refusal;
pub use settings::{Settings, read};
pub use sockets::{address_of, is_loopback};
pub use texts::FilePath;
