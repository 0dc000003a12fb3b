//! The settings that are paths.

ghost use Rattle.std.specs.Prelude.{◌≡◌, Ok, Err, MatchResult};
ghost use Rattle.toml.specs.View.{view, table_view};
ghost use Rattle.tt_settings.specs.Fault.{IsRefusal};
ghost use Rattle.tt_settings.specs.Text.{text_in, text_at, optional_text, paths_in};

use crate::faults::SettingsFault;
use crate::keys::Key;
use crate::lookups::{found_at, text_in as str_in, value_at};
use std::alloc::Global;
use std::marker::Model;
use toml::{Table, Value};

/// A path as the file has it. In contracts it is its bytes.
#[derive(Drop)]
pub struct FilePath {
    text: String,
}

impl Model for FilePath {
    ghost use Rattle.std.specs.Prelude.{List, ℕ, string_bytes};

    ghost Value = { List ℕ };

    ghost view = { λ p. string_bytes p.text };
}

impl FilePath {
    /// The text of the path.
    pub fn as_str(&self) -> &str
        ensures value { result.now ≡ self.now }
    {
        self.text.as_str()
    }
}

/// The paths of a machine.
#[derive(Drop)]
pub(crate) struct Paths {
    /// The folder of its epoch.
    pub(crate) state: FilePath,
    /// Its Unix socket.
    pub(crate) socket: Option<FilePath>,
    /// The shared file.
    pub(crate) shared: Option<FilePath>,
    /// Its status.
    pub(crate) status: Option<FilePath>,
    /// The evidence.
    pub(crate) evidence: Option<FilePath>,
    /// What counts the disruptions of its clock.
    pub(crate) vmclock: Option<FilePath>,
    /// The file of the keys that are shared with its masters.
    pub(crate) keys: Option<FilePath>,
}

/// The path in this value.
fn path_in(alloc: Global, key: Key, value: &Value) -> Result<FilePath, SettingsFault>
    ensures { let defined = text_in key (view value.now) in
        MatchResult result (λ path. defined ≡ Ok path) (IsRefusal defined) }
{
    let text = str_in(key, value)?;
    Ok(FilePath {
        text: String::from_str(alloc, text)?,
    })
}

/// The path at a key that has to be there.
fn path_at(alloc: Global, table: &Table, key: Key) -> Result<FilePath, SettingsFault>
    ensures { let defined = text_at key (table_view table.now) in
        MatchResult result (λ path. defined ≡ Ok path) (IsRefusal defined) }
{
    path_in(alloc, key, value_at(table, key)?)
}

/// The path at a key, or None if the key is absent.
fn optional_path(alloc: Global, table: &Table, key: Key) -> Result<Option<FilePath>, SettingsFault>
    ensures { let defined = optional_text key (table_view table.now) in
        MatchResult result (λ path. defined ≡ Ok path) (IsRefusal defined) }
{
    match found_at(table, key) {
        Some(value) => Ok(Some(path_in(alloc, key, value)?)),
        None => Ok(None),
    }
}

/// The paths of a document.
#[tactic(auto, unfolding(crate::specs::Text::paths_in))]
pub(crate) fn paths_in(alloc: Global, table: &Table) -> Result<Paths, SettingsFault>
    ensures { let defined = paths_in (table_view table.now) in
        MatchResult result (λ paths. defined ≡ Ok paths) (IsRefusal defined) }
{
    let state = path_at(alloc, table, Key::State)?;
    let socket = optional_path(alloc, table, Key::Socket)?;
    let shared = optional_path(alloc, table, Key::Shared)?;
    let status = optional_path(alloc, table, Key::Status)?;
    let evidence = optional_path(alloc, table, Key::Evidence)?;
    let vmclock = optional_path(alloc, table, Key::Vmclock)?;
    let keys = optional_path(alloc, table, Key::Keys)?;
    Ok(Paths {
        state,
        socket,
        shared,
        status,
        evidence,
        vmclock,
        keys,
    })
}
