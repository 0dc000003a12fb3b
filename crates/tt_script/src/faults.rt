//! Why and where a text is refused.

ghost use Rattle.std.specs.Prelude.{◌≡◌};
ghost use Rattle.tt_script.specs.Fault.{number_of, missing, wrong};

use crate::keys::Key;
use crate::words::Word;
use arrayvec::ArrayString;
use std::alloc::{AllocError, AllocFailed};
use std::fmt::{self, Display, Formatter, Write};
use thiserror::Error;

/// The most bytes of a [`Reason`].
const REASON: usize = 160;

/// Why a text is not TOML, with line and column, in one line without its line feed. The wording is not fixed.
pub type Reason = ArrayString<160>;

/// A part of a script, for a person. Machines, events, masters and sessions are counted from 0.
#[derive(Clone, Copy, Debug, PartialEq, Eq)]
pub enum Part {
    /// The whole script.
    Document,
    Machine(usize),
    /// An event whose word is not known.
    Event(usize),
    /// An event with its word.
    Action(usize, Word),
    /// The part for a run in threads.
    Live,
    Master(usize),
    Session(usize),
}

impl Display for Part {
    fn fmt<W: Write>(&self, f: &mut Formatter<W>) -> fmt::Result {
        match self {
            Part::Document => f.write_str("script"),
            Part::Machine(index) => write!(f, "machine {index}"),
            Part::Event(index) => write!(f, "event {index}"),
            Part::Action(index, word) => write!(f, "event {index} ({word})"),
            Part::Live => f.write_str("live"),
            Part::Master(index) => write!(f, "live: master {index}"),
            Part::Session(index) => write!(f, "live: session {index}"),
        }
    }
}

/// Where a key is missing.
#[derive(Clone, Copy, Debug, PartialEq, Eq)]
pub struct Place {
    pub part: Part,
    pub key: Key,
}

impl Display for Place {
    fn fmt<W: Write>(&self, f: &mut Formatter<W>) -> fmt::Result {
        let (part, key) = (self.part, self.key);
        write!(f, "{part}: {key}")
    }
}

/// Where a value is wrong, and the number that it is, if it is a whole number.
#[derive(Clone, Copy, Debug, PartialEq, Eq)]
pub struct Misfit {
    pub part: Part,
    pub key: Key,
    pub found: Option<i64>,
}

impl Display for Misfit {
    fn fmt<W: Write>(&self, f: &mut Formatter<W>) -> fmt::Result {
        let (part, key, rule) = (self.part, self.key, self.key.rule());
        match self.found {
            Some(found) => write!(f, "{part}: {key}: {found}: it takes {rule}"),
            None => write!(f, "{part}: {key}: it takes {rule}"),
        }
    }
}

/// Why and where a text is refused. The message says both; its wording is not fixed.
#[derive(Clone, Copy, Debug, PartialEq, Eq, Error)]
pub enum ScriptFault {
    #[error("{0}")]
    NotToml(Reason),
    #[error("{0}: the key is missing")]
    MissingKey(Place),
    #[error("{0}")]
    WrongValue(Misfit),
    /// The number of the event.
    #[error("event {0}: do: no event is called so")]
    UnknownStep(usize),
    #[error("there are more than 4096 events")]
    TooManyEvents,
    #[error("out of memory")]
    Memory,
}

impl ScriptFault {
    /// The fault's number: 1301 `NotToml`, 1302 `MissingKey`, 1303 `WrongValue`, 1304 `UnknownStep`,
    /// 1305 `TooManyEvents`, 1 `Memory`.
    pub fn number(&self) -> u16
        ensures { result ≡ number_of self.now }
    {
        match self {
            ScriptFault::NotToml(_) => 1301,
            ScriptFault::MissingKey(_) => 1302,
            ScriptFault::WrongValue(_) => 1303,
            ScriptFault::UnknownStep(_) => 1304,
            ScriptFault::TooManyEvents => 1305,
            ScriptFault::Memory => 1,
        }
    }
}

/// The refusal of an absent key.
pub(crate) fn missing(part: Part, key: Key) -> ScriptFault
    ensures { result ≡ missing part key }
{
    ScriptFault::MissingKey(Place { part, key })
}

/// The refusal of a value that is no number, or whose number is not to be blamed alone.
pub(crate) fn wrong(part: Part, key: Key) -> ScriptFault
    ensures { result ≡ wrong part key }
{
    ScriptFault::WrongValue(Misfit {
        part,
        key,
        found: None,
    })
}

/// Why a text is not TOML, by the error that says so.
pub(crate) fn reason_of(error: &toml::de::Error) -> Reason {
    let mut lines = ArrayString::<REASON>::new();
    let _ = write!(lines, "{error}");
    let mut reason = ArrayString::new();
    for line in lines.as_str().lines() {
        if !reason.as_str().is_empty() {
            let _ = reason.try_push_str(": ");
        }
        let _ = reason.try_push_str(line);
    }
    reason
}

impl From<AllocError> for ScriptFault {
    ghost use Rattle.std.specs.Prelude.{◌≡◌};
    ghost use Rattle.tt_script.specs.declared.faults.ScriptFault.TheVariants.{Memory};

    ghost from_gives = { λ _ e. e ≡ Memory };

    fn from(_error: AllocError) -> ScriptFault {
        ScriptFault::Memory
    }
}

impl<T: Drop> From<AllocFailed<T>> for ScriptFault {
    ghost use Rattle.std.specs.Prelude.{◌≡◌};
    ghost use Rattle.tt_script.specs.declared.faults.ScriptFault.TheVariants.{Memory};

    ghost from_gives = { λ _ e. e ≡ Memory };

    fn from(_error: AllocFailed<T>) -> ScriptFault {
        ScriptFault::Memory
    }
}
