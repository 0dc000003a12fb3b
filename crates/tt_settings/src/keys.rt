//! The keys of a configuration file.

ghost use Rattle.std.specs.Prelude.{◌≡◌};
ghost use Rattle.tt_settings.specs.Key.{text_of, kind_of, key_among};

use std::marker::Model;
use tt_daemon::MAX_WORKERS;
use tt_poll::MAX_MACHINE;
use tt_span::{MAX_DRIFT, MAX_TIME};

/// A millisecond, in nanoseconds.
pub(crate) const MILLISECOND: u64 = 1_000_000;

/// A second, in nanoseconds.
pub(crate) const SECOND: u64 = 1_000_000_000;

/// An hour, in nanoseconds.
const HOUR: u64 = 3600 * SECOND;

/// A day, in nanoseconds.
const DAY: u64 = 24 * HOUR;

/// The most of the setting `slew`, in parts per million.
pub const MAX_SLEW: u32 = 90_000;

/// A key of a configuration file. The last two stand in the table of a master.
#[derive(Clone, Copy, Debug, PartialEq, Eq)]
pub enum Key {
    Machine,
    Masters,
    Faulty,
    Workers,
    Drift,
    Clock,
    Slew,
    Poll,
    Wait,
    FloorAhead,
    Idle,
    LeaseLo,
    LeaseHi,
    Stampers,
    Listen,
    Http,
    Log,
    OnBreak,
    MaxWidth,
    Socket,
    State,
    Shared,
    Status,
    Evidence,
    Vmclock,
    Keys,
    Master,
    MasterAddress,
    MasterKey,
}

/// All keys of a document.
pub(crate) const KEYS: [Key; 27] = [
    Key::Machine,
    Key::Masters,
    Key::Faulty,
    Key::Workers,
    Key::Drift,
    Key::Clock,
    Key::Slew,
    Key::Poll,
    Key::Wait,
    Key::FloorAhead,
    Key::Idle,
    Key::LeaseLo,
    Key::LeaseHi,
    Key::Stampers,
    Key::Listen,
    Key::Http,
    Key::Log,
    Key::OnBreak,
    Key::MaxWidth,
    Key::Socket,
    Key::State,
    Key::Shared,
    Key::Status,
    Key::Evidence,
    Key::Vmclock,
    Key::Keys,
    Key::Master,
];

/// All keys of the table of a master.
pub(crate) const MASTER_KEYS: [Key; 2] = [Key::MasterAddress, Key::MasterKey];

/// The two words of which the value of a key is one. In contracts they are their bytes.
#[derive(Drop)]
pub(crate) struct Words {
    first: &'static str,
    second: &'static str,
}

impl Model for Words {
    ghost use Rattle.std.specs.Prelude.{List, ℕ};

    ghost Value = { List ℕ × List ℕ };

    ghost view = { λ w. (w.first.now, w.second.now) };
}

impl Words {
    /// The word that stands for the key where it is absent.
    pub(crate) fn first(&self) -> &'static str
        ensures { result.now ≡ self.now.0 }
    {
        self.first
    }

    /// The other word.
    pub(crate) fn second(&self) -> &'static str
        ensures { result.now ≡ self.now.1 }
    {
        self.second
    }
}

/// What the value of a key has to be.
#[derive(Drop)]
pub(crate) enum ValueKind {
    /// A whole number, from the least to the greatest.
    Number { least: u64, most: u64 },
    /// The text of a length of time, from the least to the greatest, in nanoseconds.
    Duration { least: u64, most: u64 },
    /// The ends of an interval of time, in nanoseconds: an array of two whole numbers, the first at most the second.
    Ends,
    /// The text of an address of this host.
    Address,
    /// Addresses of this host.
    Addresses,
    /// Tables of masters.
    Tables,
    /// The text of an address of any host.
    Place,
    /// The number of a key, or several.
    KeyNumbers,
    /// One of two words.
    Form(Words),
    /// One of the words of [`OnBreak`](crate::OnBreak).
    Act,
    /// A path.
    Path,
}

/// What is to be known of a key.
#[derive(Drop)]
struct Description {
    /// The key as the file writes it.
    text: &'static str,
    /// What its value has to be.
    kind: ValueKind,
}

/// The description of a key whose value is a number.
fn number(text: &'static str, least: u64, most: u64) -> Description
    ensures { (result.text.now ≡ text.now) × (result.kind ≡ ValueKind.Number least most) }
{
    let kind = ValueKind::Number { least, most };
    Description { text, kind }
}

/// The description of a key whose value is a length of time.
fn duration(text: &'static str, least: u64, most: u64) -> Description
    ensures { (result.text.now ≡ text.now) × (result.kind ≡ ValueKind.Duration least most) }
{
    let kind = ValueKind::Duration { least, most };
    Description { text, kind }
}

/// The description of a key whose value is one of two words. The first stands for it where it is absent.
fn form(text: &'static str, first: &'static str, second: &'static str) -> Description
    ensures { (result.text.now ≡ text.now) × (result.kind ≡ ValueKind.Form (first.now, second.now)) }
{
    let kind = ValueKind::Form(Words { first, second });
    Description { text, kind }
}

/// The description of a key whose value is of this kind.
fn plain(text: &'static str, kind: ValueKind) -> Description
    ensures { (result.text.now ≡ text.now) × (result.kind ≡ kind) }
{
    Description { text, kind }
}

impl Key {
    /// What is to be known of each key: this is all that reading and refusing it need.
    fn described(self) -> Description
        ensures text { result.text.now ≡ text_of self }
        ensures kind { result.kind ≡ kind_of self }
    {
        match self {
            Key::Machine => number("machine", 0, MAX_MACHINE as u64),
            Key::Masters => plain("masters", ValueKind::Addresses),
            Key::Faulty => number("faulty", 0, MAX_TIME),
            Key::Workers => number("workers", 1, MAX_WORKERS as u64),
            Key::Drift => number("drift", 0, MAX_DRIFT as u64),
            Key::Clock => form("clock", "raw", "monotonic"),
            Key::Slew => number("slew", 0, MAX_SLEW as u64),
            Key::Poll => duration("poll", MILLISECOND, HOUR),
            Key::Wait => duration("wait", MILLISECOND, 10 * SECOND),
            Key::FloorAhead => duration("floor_ahead", 0, 10 * SECOND),
            Key::Idle => duration("idle", SECOND, DAY),
            Key::LeaseLo => number("lease_lo", 0, MAX_TIME),
            Key::LeaseHi => number("lease_hi", 0, MAX_TIME),
            Key::Stampers => plain("stampers", ValueKind::Ends),
            Key::Listen => plain("listen", ValueKind::Address),
            Key::Http => plain("http", ValueKind::Address),
            Key::Log => form("log", "text", "json"),
            Key::OnBreak => plain("on_break", ValueKind::Act),
            Key::MaxWidth => duration("max_width", 0, HOUR),
            Key::Socket => plain("socket", ValueKind::Path),
            Key::State => plain("state", ValueKind::Path),
            Key::Shared => plain("shared", ValueKind::Path),
            Key::Status => plain("status", ValueKind::Path),
            Key::Evidence => plain("evidence", ValueKind::Path),
            Key::Vmclock => plain("vmclock", ValueKind::Path),
            Key::Keys => plain("keys", ValueKind::Path),
            Key::Master => plain("master", ValueKind::Tables),
            Key::MasterAddress => plain("address", ValueKind::Place),
            Key::MasterKey => plain("key", ValueKind::KeyNumbers),
        }
    }

    /// The key as the file writes it.
    pub fn text(self) -> &'static str
        ensures { result.now ≡ text_of self }
    {
        self.described().text
    }

    /// What the value of the key has to be.
    pub(crate) fn kind(self) -> ValueKind
        ensures { result ≡ kind_of self }
    {
        self.described().kind
    }
}

/// The first of these keys that a text is.
pub(crate) fn key_among(text: &str, keys: &[Key]) -> Option<Key>
    ensures { result ≡ key_among text.now keys.now }
{
    for key in keys {
        if key.text() == text {
            return Some(*key);
        }
    }
    None
}
