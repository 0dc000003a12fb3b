//! The part of a script for a run in threads.

ghost use Rattle.std.specs.Prelude.{◌≡◌, ◌<◌, ◌≤◌, length, Ok, Err, MatchResult};
ghost use Rattle.toml.specs.View.{view, table_view, array_view};
ghost use Rattle.tt_span.specs.Time.{max_time};
ghost use Rattle.tt_span.specs.Interval.{IsInterval};
ghost use Rattle.tt_script.specs.Fault.{IsRefusal};
ghost use Rattle.tt_script.specs.Lookup.{each};
ghost use Rattle.tt_script.specs.Lives.{master_in, master_of, masters_in, line_at, line_in, session_in, sessions_in, live_in, live_at};

use crate::acts::{Acts, acts_in};
use crate::events::span_in;
use crate::faults::{Part, ScriptFault, wrong};
use crate::keys::Key;
use crate::lookups::{are_tables, found_at, items_in, middle_at, number_at, table_in, value_at};
use std::alloc::Global;
use std::marker::Model;
use toml::value::Array;
use toml::{Table, Value};
use tt_master::Act;
use tt_span::Span;

/// The most rounds of a run in threads, and the most turns of a round.
pub const MAX_LIMIT: u64 = 1000;

/// One line of a session, as the script has it. It may be any text, also one that holds line feeds.
#[derive(Drop)]
pub struct Line {
    text: String,
}

impl Model for Line {
    ghost use Rattle.std.specs.Prelude.{List, ℕ, string_bytes};

    ghost Value = { List ℕ };

    ghost view = { λ l. string_bytes l.text };
}

impl Line {
    /// The text of the line.
    pub fn as_str(&self) -> &str
        ensures value { result.now ≡ self.now }
    {
        self.text.as_str()
    }
}

/// The lines of a session, in the order in which they are sent.
#[derive(Drop)]
pub struct Session {
    lines: Vec<Line>,
}

impl Model for Session {
    ghost use Rattle.std.specs.Prelude.{List, ℕ};

    ghost Value = { List (List ℕ) };

    ghost view = { λ s. s.lines.items };
}

impl Session {
    /// The lines, in their order.
    pub fn lines(&self) -> &[Line]
        ensures value { result.now ≡ self.now }
    {
        self.lines.as_slice()
    }
}

/// A master of a run in threads: its uncertainty, and its acts, one for each request in order.
#[derive(Drop)]
pub struct LiveMaster {
    uncertainty: u64,
    acts: Acts,
}

impl Model for LiveMaster {
    ghost use Rattle.std.specs.Prelude.{◌≤◌};
    ghost use Rattle.tt_span.specs.Time.{max_time};
    ghost use Rattle.tt_script.specs.Lives.{MasterPlan};

    ghost Value = { MasterPlan };

    ghost view = { λ m. record { uncertainty = m.uncertainty; acts = m.acts } };

    ghost invariant = { λ m. m.uncertainty ≤ max_time };
}

impl LiveMaster {
    /// How far its reference may be off, in nanoseconds, at most [`MAX_TIME`].
    pub fn uncertainty(&self) -> u64
        ensures value { result ≡ self.now.uncertainty }
        ensures in_time { result ≤ max_time }
    {
        self.uncertainty
    }

    /// Its acts in their order: from one to [`MAX_ACTS`](crate::MAX_ACTS).
    pub fn acts(&self) -> &[Act]
        ensures value { result.now ≡ self.now.acts }
        ensures some { 0 < length result.now }
    {
        self.acts.as_slice()
    }
}

/// The part of a script for a run in threads.
#[derive(Drop)]
pub struct Live {
    base: u64,
    rounds: u32,
    turns: u32,
    masters: Vec<LiveMaster>,
    sessions: Vec<Session>,
    lease: Span,
}

impl Model for Live {
    ghost use Rattle.std.specs.Prelude.{◌<◌, ◌≤◌};
    ghost use Rattle.tt_span.specs.Time.{max_time};
    ghost use Rattle.tt_script.specs.Lives.{LiveRun};

    ghost Value = { LiveRun };

    ghost view = { λ l. record { base = l.base; rounds = l.rounds; turns = l.turns; masters = l.masters.items; sessions = l.sessions.items; lease = l.lease } };

    ghost invariant = { λ l. (l.base ≤ max_time) × (0 < l.rounds) × (l.rounds ≤ 1000) × (0 < l.turns) × (l.turns ≤ 1000) };
}

impl Live {
    /// The time at which the clocks begin, in nanoseconds, at most [`MAX_TIME`].
    pub fn base(&self) -> u64
        ensures value { result ≡ self.now.base }
        ensures in_time { result ≤ max_time }
    {
        self.base
    }

    /// How many rounds the daemon makes: from 1 to [`MAX_LIMIT`].
    pub fn rounds(&self) -> u32
        ensures value { result ≡ self.now.rounds }
        ensures some { 0 < result }
        ensures few { result ≤ 1000 }
    {
        self.rounds
    }

    /// How often the daemon receives in a round: from 1 to [`MAX_LIMIT`].
    pub fn turns(&self) -> u32
        ensures value { result ≡ self.now.turns }
        ensures some { 0 < result }
        ensures few { result ≤ 1000 }
    {
        self.turns
    }

    /// The masters, in the order in which the script lists them. The first is the master of source 0. There may be more
    /// or fewer than the machine has sources.
    pub fn masters(&self) -> &[LiveMaster]
        ensures value { result.now ≡ self.now.masters }
    {
        self.masters.as_slice()
    }

    /// The sessions, in the order in which the script lists them. The first is the session of worker 0. There may be
    /// more or fewer than the machine has workers.
    pub fn sessions(&self) -> &[Session]
        ensures value { result.now ≡ self.now.sessions }
    {
        self.sessions.as_slice()
    }

    /// The lease of the machine, in nanoseconds: the whole of time if the script gives none.
    pub fn lease(&self) -> Span
        ensures value { result ≡ self.now.lease }
    {
        self.lease
    }
}

/// The part of a document for a run in threads, if it has one.
pub(crate) fn live_at(alloc: Global, table: &Table) -> Result<Option<Live>, ScriptFault>
    ensures { let defined = live_at (table_view table.now) in
        MatchResult result (λ live. defined ≡ Ok live) (IsRefusal defined) }
{
    let Some(value) = found_at(table, Key::Live) else {
        return Ok(None);
    };
    let table = table_in(Part::Document, Key::Live, value)?;
    Ok(Some(live_in(alloc, table)?))
}

/// The part for a run in threads, by its table.
fn live_in(alloc: Global, table: &Table) -> Result<Live, ScriptFault>
    ensures { let defined = live_in (table_view table.now) in
        MatchResult result (λ live. defined ≡ Ok live) (IsRefusal defined) }
{
    Ok(Live {
        base: number_at(Part::Live, table, Key::Base)?,
        rounds: middle_at(Part::Live, table, Key::Rounds)?,
        turns: middle_at(Part::Live, table, Key::Turns)?,
        masters: masters_in(alloc, table)?,
        sessions: sessions_in(alloc, table)?,
        lease: span_in(Part::Live, table, Key::LeaseLo, Key::LeaseHi)?,
    })
}

/// The masters.
fn masters_in(alloc: Global, table: &Table) -> Result<Vec<LiveMaster>, ScriptFault>
    ensures { let defined = masters_in (table_view table.now) in
        MatchResult result (λ masters. defined ≡ Ok masters.items) (IsRefusal defined) }
{
    let value = value_at(Part::Live, table, Key::Masters)?;
    let items = items_in(Part::Live, Key::Masters, value)?;
    if !are_tables(items) {
        return Err(wrong(Part::Live, Key::Masters));
    }
    masters_of(alloc, items)
}

/// The masters, one after the other.
fn masters_of(alloc: Global, items: &Array) -> Result<Vec<LiveMaster>, ScriptFault>
    ensures { let defined = each master_of 0 (array_view items.now) in
        MatchResult result (λ masters. defined ≡ Ok masters.items) (IsRefusal defined) }
{
    let mut masters = Vec::new(alloc);
    for item in items {
        masters.push(master_of(alloc, masters.len(), item)?)?;
    }
    Ok(masters)
}

/// The master with this number.
fn master_of(alloc: Global, index: usize, value: &Value) -> Result<LiveMaster, ScriptFault>
    ensures { let defined = master_of index (view value.now) in
        MatchResult result (λ master. defined ≡ Ok master) (IsRefusal defined) }
{
    let part = Part::Master(index);
    master_in(alloc, part, table_in(part, Key::Masters, value)?)
}

/// A master, by its table.
fn master_in(alloc: Global, part: Part, table: &Table) -> Result<LiveMaster, ScriptFault>
    ensures { let defined = master_in part (table_view table.now) in
        MatchResult result (λ master. defined ≡ Ok master) (IsRefusal defined) }
{
    Ok(LiveMaster {
        uncertainty: number_at(part, table, Key::Uncertainty)?,
        acts: acts_in(alloc, part, value_at(part, table, Key::Acts)?)?,
    })
}

/// The sessions.
fn sessions_in(alloc: Global, table: &Table) -> Result<Vec<Session>, ScriptFault>
    ensures { let defined = sessions_in (table_view table.now) in
        MatchResult result (λ sessions. defined ≡ Ok sessions.items) (IsRefusal defined) }
{
    let value = value_at(Part::Live, table, Key::Sessions)?;
    sessions_of(alloc, items_in(Part::Live, Key::Sessions, value)?)
}

/// The sessions, one after the other.
fn sessions_of(alloc: Global, items: &Array) -> Result<Vec<Session>, ScriptFault>
    ensures { let defined = each session_in 0 (array_view items.now) in
        MatchResult result (λ sessions. defined ≡ Ok sessions.items) (IsRefusal defined) }
{
    let mut sessions = Vec::new(alloc);
    for item in items {
        sessions.push(session_in(alloc, sessions.len(), item)?)?;
    }
    Ok(sessions)
}

/// The lines of the session with this number.
fn session_in(alloc: Global, index: usize, value: &Value) -> Result<Session, ScriptFault>
    ensures { let defined = session_in index (view value.now) in
        MatchResult result (λ session. defined ≡ Ok session) (IsRefusal defined) }
{
    let part = Part::Session(index);
    let lines = lines_of(alloc, part, items_in(part, Key::Sessions, value)?)?;
    Ok(Session { lines })
}

/// The lines, one after the other.
fn lines_of(alloc: Global, part: Part, items: &Array) -> Result<Vec<Line>, ScriptFault>
    ensures { let defined = each (line_at part) 0 (array_view items.now) in
        MatchResult result (λ lines. defined ≡ Ok lines.items) (IsRefusal defined) }
{
    let mut lines = Vec::new(alloc);
    for item in items {
        lines.push(line_in(alloc, part, item)?)?;
    }
    Ok(lines)
}

/// The line of this text.
fn line_in(alloc: Global, part: Part, value: &Value) -> Result<Line, ScriptFault>
    ensures { let defined = line_in part (view value.now) in
        MatchResult result (λ line. defined ≡ Ok line) (IsRefusal defined) }
{
    match value.as_str() {
        Some(text) => Ok(Line {
            text: String::from_str(alloc, text)?,
        }),
        None => Err(wrong(part, Key::Sessions)),
    }
}
