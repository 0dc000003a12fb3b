//! Why a text is refused, for a program and for a person.

ghost use Rattle.std.specs.Prelude.{◌≡◌, ◌⊎◌};
ghost use Rattle.tt_settings.specs.declared.faults.SettingsFault.TheVariants.{NotToml, Memory};
ghost use Rattle.tt_settings.specs.Fault.{number_of};

use crate::faults::SettingsFault;
use crate::keys::Key;
use crate::places::{line_at, place_of};
use crate::wordings::words_of;
use std::alloc::{AllocError, Global};
use std::fmt::{self, Display, Formatter, Write};
use std::marker::Model;
use toml::Table;

/// Why a text is refused, and for a person where. In contracts it is its fault.
///
/// It is printed as one line without its line feed: the key, if there is one, and behind it the value and what would be
/// right, as `machine: 8: a whole number from 0 to 7`. The wording is not fixed.
#[derive(Drop)]
pub struct Refusal {
    fault: SettingsFault,
    key: Option<Key>,
    line: Option<usize>,
    words: String,
}

impl Model for Refusal {
    ghost use Rattle.tt_settings.specs.declared.faults.SettingsFault.{SettingsFault};

    ghost Value = { SettingsFault };

    ghost view = { λ r. r.fault };
}

impl Refusal {
    /// Why the text is refused.
    pub fn fault(&self) -> SettingsFault
        ensures value { result ≡ self.now }
    {
        self.fault
    }

    /// The number of the refusal, as [`SettingsFault::number`] has it.
    pub fn number(&self) -> u16
        ensures { result ≡ number_of self.now }
    {
        self.fault.number()
    }

    /// The line at which the refused key stands, or the text is no TOML, counted from 1. None if it is not found.
    pub fn line(&self) -> Option<usize> {
        self.line
    }

    /// The refusal without memory.
    pub(crate) fn of_memory(alloc: Global) -> Refusal
        ensures { result ≡ Memory }
    {
        Refusal {
            fault: SettingsFault::Memory,
            key: None,
            line: None,
            words: String::new(alloc),
        }
    }

    /// The refusal of a text that is not TOML.
    pub(crate) fn of_text(alloc: Global, text: &str, error: &toml::de::Error) -> Refusal
        ensures { (result ≡ Memory) ⊎ (result ≡ NotToml) }
    {
        let line = match error.span() {
            Some(span) => Some(line_at(text, span.start)),
            None => None,
        };
        match String::from_str(alloc, error.message()) {
            Ok(words) => Refusal {
                fault: SettingsFault::NotToml,
                key: None,
                line,
                words,
            },
            Err(_) => Refusal::of_memory(alloc),
        }
    }

    /// The refusal of this document with this fault.
    pub(crate) fn of_table(
        alloc: Global,
        text: &str,
        table: &Table,
        fault: SettingsFault,
    ) -> Refusal
        ensures { (result ≡ Memory) ⊎ (result ≡ fault) }
    {
        match told_of(alloc, text, table, fault) {
            Ok((key, line, words)) => Refusal {
                fault,
                key,
                line,
                words,
            },
            Err(_) => Refusal::of_memory(alloc),
        }
    }
}

/// What a refusal tells a person of a document with this fault: the key, the line, and what is wrong.
fn told_of(
    alloc: Global,
    text: &str,
    table: &Table,
    fault: SettingsFault,
) -> Result<(Option<Key>, Option<usize>, String), AllocError> {
    let place = place_of(alloc, text, table, fault)?;
    let words = words_of(alloc, &place, fault)?;
    Ok((place.key, place.line, words))
}

impl Display for Refusal {
    fn fmt<W: Write>(&self, f: &mut Formatter<W>) -> fmt::Result {
        if let Some(key) = self.key {
            f.write_str(key.text())?;
            f.write_str(": ")?;
        }
        if let SettingsFault::NotToml = self.fault {
            f.write_str("not TOML: ")?;
        }
        f.write_str(self.words.as_str())
    }
}
