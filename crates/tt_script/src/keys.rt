//! The keys of a script: what each is called, what it takes, and which each table has.

ghost use Rattle.std.specs.Prelude.{◌≡◌, ◌≤◌, IfSome, None, Some};
ghost use Rattle.tt_script.specs.Key.{InRange, rule_of};

use crate::lives::MAX_LIMIT;
use crate::words::Word;
use std::fmt::{self, Display, Formatter, Write};
use tt_daemon::DEFAULT_DRIFT;
use tt_span::{MAX_DRIFT, MAX_TIME};

/// A key of a script.
#[derive(Clone, Copy, Debug, PartialEq, Eq)]
pub enum Key {
    Machines,
    Events,
    Live,
    Sources,
    Faulty,
    Workers,
    Drift,
    Do,
    At,
    Machine,
    Source,
    Worker,
    Packet,
    Publication,
    Clock,
    Lo,
    Hi,
    Bytes,
    Session,
    Number,
    Floor,
    Base,
    Rounds,
    Turns,
    Masters,
    Sessions,
    LeaseLo,
    LeaseHi,
    Uncertainty,
    Acts,
}

/// The numbers that a key takes, or how many items, and what stands for it where it is absent.
#[derive(Clone, Copy)]
pub(crate) struct Range {
    pub(crate) least: u64,
    pub(crate) most: u64,
    pub(crate) default: Option<u64>,
}

/// What a key is called, and what it takes.
#[derive(Clone, Copy)]
pub(crate) struct Rule {
    pub(crate) name: &'static str,
    pub(crate) takes: &'static str,
    pub(crate) range: Range,
}

/// The greatest number that a key can hold.
const ANY: u64 = u64::MAX;

const NUMBER: &str = "a whole number";

const NOT_NEGATIVE: &str = "a whole number that is not negative";

const ENOUGH: &str = "a whole number from 1 to 16, not below 2 * faulty + 1";

const ABOVE_LO: &str = "a whole number, not below lo,";

const ABOVE_LEASE_LO: &str = "a whole number, not below lease_lo,";

const HEX: &str = "two hex digits for each of at most 64 bytes";

/// The rule of a key that has to be there.
fn required(name: &'static str, takes: &'static str, least: u64, most: u64) -> Rule
    ensures name { result.name.now ≡ name.now }
    ensures range { result.range ≡ record { least = least; most = most; default = None } }
{
    let range = Range {
        least,
        most,
        default: None,
    };
    Rule { name, takes, range }
}

/// The rule of a key that may be absent.
fn optional(name: &'static str, takes: &'static str, most: u64, default: u64) -> Rule
    ensures name { result.name.now ≡ name.now }
    ensures range { result.range ≡ record { least = 0; most = most; default = Some default } }
{
    let range = Range {
        least: 0,
        most,
        default: Some(default),
    };
    Rule { name, takes, range }
}

impl Key {
    /// What the key is called, and what it takes.
    pub(crate) fn rule(self) -> Rule
        ensures name { result.name.now ≡ (rule_of self).name }
        ensures range { result.range ≡ (rule_of self).range }
        ensures default { IfSome result.range.default (InRange result.range) }
    {
        match self {
            Key::Machines => required("machine", "an array of tables,", 1, 8),
            Key::Events => required("event", "an array of tables,", 0, 4096),
            Key::Live => required("live", "a table", 0, ANY),
            Key::Sources => required("sources", ENOUGH, 0, ANY),
            Key::Faulty => required("faulty", NOT_NEGATIVE, 0, ANY),
            Key::Workers => required("workers", "a whole number from 1 to 32", 0, ANY),
            Key::Drift => optional("drift", NUMBER, MAX_DRIFT as u64, DEFAULT_DRIFT as u64),
            Key::Do => required("do", "the word of an event", 0, ANY),
            Key::At => required("at", NUMBER, 0, MAX_TIME),
            Key::Machine => required("machine", NUMBER, 0, 255),
            Key::Source => required("source", NUMBER, 0, 255),
            Key::Worker => required("worker", NUMBER, 0, 255),
            Key::Packet => required("packet", NOT_NEGATIVE, 0, ANY),
            Key::Publication => required("publication", NOT_NEGATIVE, 0, ANY),
            Key::Clock => required("clock", NUMBER, 0, MAX_TIME),
            Key::Lo => required("lo", NUMBER, 0, MAX_TIME),
            Key::Hi => required("hi", ABOVE_LO, 0, MAX_TIME),
            Key::Bytes => required("bytes", HEX, 0, ANY),
            Key::Session => required("session", NUMBER, 0, 4_294_967_295),
            Key::Number => required("number", NOT_NEGATIVE, 0, ANY),
            Key::Floor => required("floor", NOT_NEGATIVE, 0, ANY),
            Key::Base => required("base", NUMBER, 0, MAX_TIME),
            Key::Rounds => required("rounds", NUMBER, 1, MAX_LIMIT),
            Key::Turns => required("turns", NUMBER, 1, MAX_LIMIT),
            Key::Masters => required("masters", "an array of tables", 0, ANY),
            Key::Sessions => required("sessions", "an array of arrays of texts", 0, ANY),
            Key::LeaseLo => optional("lease_lo", NUMBER, MAX_TIME, 0),
            Key::LeaseHi => optional("lease_hi", ABOVE_LEASE_LO, MAX_TIME, MAX_TIME),
            Key::Uncertainty => required("uncertainty", NUMBER, 0, MAX_TIME),
            Key::Acts => required("acts", "an array of acts,", 1, 64),
        }
    }
}

impl Display for Key {
    fn fmt<W: Write>(&self, f: &mut Formatter<W>) -> fmt::Result {
        f.write_str(self.rule().name)
    }
}

/// What the key takes, in words.
impl Display for Rule {
    fn fmt<W: Write>(&self, f: &mut Formatter<W>) -> fmt::Result {
        let (takes, range) = (self.takes, self.range);
        if range.most == ANY {
            return f.write_str(takes);
        }
        write!(f, "{takes} from {} to {}", range.least, range.most)
    }
}

/// The keys of a document.
pub(crate) const DOCUMENT: [Key; 3] = [Key::Machines, Key::Events, Key::Live];

/// The keys of a machine.
pub(crate) const MACHINE: [Key; 4] = [Key::Sources, Key::Faulty, Key::Workers, Key::Drift];

/// The keys of the part for a run in threads.
pub(crate) const LIVE: [Key; 7] = [
    Key::Base,
    Key::Rounds,
    Key::Turns,
    Key::Masters,
    Key::Sessions,
    Key::LeaseLo,
    Key::LeaseHi,
];

/// The keys of a master.
pub(crate) const MASTER: [Key; 2] = [Key::Uncertainty, Key::Acts];

/// The keys of an event behind `do` and `at`.
pub(crate) fn keys_of(word: Word) -> &'static [Key] {
    match word {
        Word::Send => &[Key::Machine, Key::Source, Key::Clock],
        Word::Answer => &[Key::Packet, Key::Lo, Key::Hi],
        Word::Forge => &[Key::Machine, Key::Source, Key::Bytes],
        Word::Deliver => &[Key::Packet, Key::Clock],
        Word::Fuse | Word::Restart => &[Key::Machine, Key::Clock],
        Word::Stamp | Word::Queue | Word::Release => &[Key::Machine, Key::Worker],
        Word::Lease => &[Key::Machine, Key::Lo, Key::Hi],
        Word::Arrive => &[
            Key::Machine,
            Key::Worker,
            Key::Session,
            Key::Number,
            Key::Floor,
        ],
        Word::Read => &[Key::Machine, Key::Worker, Key::Clock, Key::Publication],
    }
}
