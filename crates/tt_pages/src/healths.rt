//! Whether a machine is well.

ghost use Rattle.std.specs.Prelude.{◌≡◌, ◌++◌, OnOk, string_bytes, nat_lt};
ghost use Rattle.tt_pages.specs.Health.{ago_text, broke_line, broke_text, health_of, is_stale, is_well, is_wide, last_break_in, limits_of, line_if, reason_text, reasons_text, judged_text, told_text};

use std::alloc::AllocError;
use tt_status::{BreakReason, LastBreak, Status};

/// A second, in nanoseconds.
const SECOND: u64 = 1_000_000_000;

/// For how long it is told that the life before broke, in nanoseconds: ten minutes.
const TOLD: u64 = 600_000_000_000;

/// By what a machine is judged.
#[derive(Clone, Copy)]
pub struct Limits {
    /// The widest reading that clients are given, in nanoseconds, if there is a limit.
    pub max_width: Option<u64>,
    /// Within what time n - f sources have to have answered, in nanoseconds.
    pub fresh: u64,
    /// How old a status may be, in nanoseconds.
    pub recent: u64,
    /// Whether the machine has a shared file.
    pub shares: bool,
}

impl Limits {
    /// The limits of a machine with this greatest width of a reading, if there is one, that pauses for `poll` between its
    /// rounds, each of which waits for `wait`, all in nanoseconds: three rounds for answers, and ten rounds and a second
    /// for a status. `shares` says whether it has a shared file.
    pub fn of(max_width: Option<u64>, poll: u64, wait: u64, shares: bool) -> Limits
        ensures value { result ≡ limits_of max_width poll wait shares }
    {
        let period = poll.saturating_add(wait);
        Limits {
            max_width,
            fresh: period.saturating_mul(3),
            recent: period.saturating_mul(10).saturating_add(SECOND),
            shares,
        }
    }
}

/// Why a machine is not well.
#[derive(Clone, Copy)]
pub struct Health {
    /// It has published nothing: its clients are refused with 801.
    pub unpublished: bool,
    /// It has seen a sign that an assumption is broken: 1823.
    pub broken: bool,
    /// Its readings are wider than its limit: its clients are refused with 1824.
    pub wide: bool,
    /// Fewer than n - f of its sources have answered within three rounds.
    pub stale: bool,
    /// It has a shared file, and does not write it.
    pub unshared: bool,
    /// Its status is older than ten rounds and a second: the thread of its rounds stands still.
    pub still: bool,
}

/// Whether a reading of this width, if there is one, is wider than this limit, if there is one.
fn is_wide(width: Option<u64>, most: Option<u64>) -> bool
    ensures { result ≡ is_wide width most }
{
    match width {
        Some(width) => match most {
            Some(most) => most < width,
            None => false,
        },
        None => false,
    }
}

/// Whether enough sources have not answered within this time. They answered last so long ago, if they ever did.
fn is_stale(needed: Option<u64>, fresh: u64) -> bool
    ensures { result ≡ is_stale needed fresh }
{
    match needed {
        Some(age) => fresh < age,
        None => true,
    }
}

/// Whether a machine is well whose last status is this one, if there is one, and `age` nanoseconds old.
pub fn health_of(status: &Option<Status>, age: u64, limits: &Limits) -> Health
    ensures value { result ≡ health_of status.now age limits.now }
{
    match status {
        Some(status) => Health {
            unpublished: status.published == 0,
            broken: status.breaks > 0,
            wide: is_wide(status.width, limits.max_width),
            stale: is_stale(status.needed, limits.fresh),
            unshared: limits.shares && !status.sharing,
            still: age > limits.recent,
        },
        None => Health {
            unpublished: true,
            broken: false,
            wide: false,
            stale: true,
            unshared: limits.shares,
            still: age > limits.recent,
        },
    }
}

impl Health {
    /// Whether there is no reason for which it is not well.
    pub fn is_well(&self) -> bool
        ensures value { result ≡ is_well self.now }
    {
        !self.unpublished
            && !self.broken
            && !self.wide
            && !self.stale
            && !self.unshared
            && !self.still
    }
}

/// Adds a text.
pub(crate) fn push_word(text: &mut String, word: &str) -> Result<(), AllocError>
    ensures { OnOk result (string_bytes text.new ≡ string_bytes text.old ++ word.now) }
{
    text.push_str(word)
}

/// Adds a line, if it is so.
pub(crate) fn push_if(text: &mut String, is_so: bool, line: &str) -> Result<(), AllocError>
    ensures { OnOk result (string_bytes text.new ≡ string_bytes text.old ++ line_if is_so line.now) }
{
    if is_so { text.push_str(line) } else { Ok(()) }
}

/// Adds a line for each reason.
pub(crate) fn push_reasons(text: &mut String, health: &Health) -> Result<(), AllocError>
    ensures { OnOk result (string_bytes text.new ≡ string_bytes text.old ++ reasons_text health.now) }
{
    push_if(text, health.unpublished, "801: nothing is published\n")?;
    push_if(text, health.broken, "1823: an assumption is broken\n")?;
    push_if(
        text,
        health.wide,
        "1824: readings are wider than max_width\n",
    )?;
    push_if(
        text,
        health.stale,
        "sources_stale: fewer than n - f sources have answered within three rounds\n",
    )?;
    push_if(
        text,
        health.unshared,
        "sharing_ended: the shared file is not written\n",
    )?;
    push_if(
        text,
        health.still,
        "status_old: the last round was made ten rounds ago\n",
    )
}

/// What a status says of the last life that broke.
pub(crate) fn last_break_in(status: &Option<Status>) -> Option<LastBreak>
    ensures { result ≡ last_break_in status.now }
{
    match status {
        Some(status) => status.last_break,
        None => None,
    }
}

/// Adds why a life broke, if that is known.
fn push_reason(text: &mut String, reason: Option<BreakReason>) -> Result<(), AllocError>
    ensures { OnOk result (string_bytes text.new ≡ string_bytes text.old ++ reason_text reason) }
{
    match reason {
        Some(reason) => {
            let word = reason.word();
            write!(text, ": {word}\n")
        }
        None => text.push_str("\n"),
    }
}

/// Adds that a life broke so long ago.
fn push_ago(text: &mut String, ago: u64) -> Result<(), AllocError>
    ensures { OnOk result (string_bytes text.new ≡ string_bytes text.old ++ ago_text ago) }
{
    let seconds = ago / SECOND;
    write!(text, "last_life_broke {seconds} s ago")
}

/// Adds the line that a life broke so long ago.
fn push_broke_line(
    text: &mut String,
    ago: u64,
    reason: Option<BreakReason>,
) -> Result<(), AllocError>
    ensures { OnOk result (string_bytes text.new ≡ string_bytes text.old ++ broke_line ago reason) }
{
    push_ago(text, ago)?;
    push_reason(text, reason)
}

/// Adds a line that the last life broke, for ten minutes after that. It is `time` nanoseconds since 1970.
fn push_broke(text: &mut String, last: Option<LastBreak>, time: u64) -> Result<(), AllocError>
    ensures { OnOk result (string_bytes text.new ≡ string_bytes text.old ++ broke_text last time) }
{
    match last {
        Some(last) if time.saturating_sub(last.time) <= TOLD => {
            push_broke_line(text, time.saturating_sub(last.time), last.reason)
        }
        _ => Ok(()),
    }
}

/// Adds that the machine is well, or a line for each reason for which it is not.
fn push_judged(text: &mut String, health: &Health) -> Result<(), AllocError>
    ensures { OnOk result (string_bytes text.new ≡ string_bytes text.old ++ judged_text health.now) }
{
    if health.is_well() {
        push_word(text, "ok\n")
    } else {
        push_reasons(text, health)
    }
}

/// Adds whether the machine is well, and then whether the life before was not.
pub(crate) fn push_health(
    text: &mut String,
    health: &Health,
    last: Option<LastBreak>,
    time: u64,
) -> Result<(), AllocError>
    ensures { OnOk result (string_bytes text.new ≡ string_bytes text.old ++ told_text health.now last time) }
{
    push_judged(text, health)?;
    push_broke(text, last, time)
}
