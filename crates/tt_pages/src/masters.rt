//! Whether a master is well, and what it is answered with.

ghost use Rattle.std.specs.Prelude.{◌≡◌, ◌++◌, OnOk, IfOk, option_map, is_some, string_bytes};
ghost use Rattle.tt_pages.specs.Answer.{reply_of};
ghost use Rattle.tt_pages.specs.Master.{content_of, health_code, health_content, is_well, judged_text, master_answer_text, master_health_of, metrics_content, reason_text, reasons_text, silence_text, wanted_text};

use crate::answers::{Code, Content, content_with, push_reply};
use crate::healths::{push_if, push_word};
use crate::requests::{Asked, Page, Wanted};
use std::alloc::{AllocError, Global};
use tt_master::Silence;
use tt_status::{MasterStatus, push_master_status};

/// How old the status of a master may be, in nanoseconds: ten seconds.
const RECENT: u64 = 10_000_000_000;

/// The number of [`Silence::Stepped`].
const STEPPED: u16 = 2408;

/// Why a master is not well.
#[derive(Clone, Copy)]
pub struct MasterHealth {
    /// It has told nothing of itself so far.
    pub untold: bool,
    /// Why it answers no poll, if it does not.
    pub silence: Option<Silence>,
    /// It told of itself more than ten seconds ago: the thread that answers polls stands still.
    pub still: bool,
}

/// What a master was when it told of itself last.
#[derive(Clone, Copy)]
pub struct MasterReport<'a> {
    /// Its last status, if there was one.
    pub status: Option<&'a MasterStatus>,
    /// Why it answered no poll then, if it did not.
    pub silence: Option<Silence>,
    /// How old that is, in nanoseconds.
    pub age: u64,
}

/// Whether a master is well that has told of itself, if `is_told`, `age` nanoseconds ago, and then answered no poll for this
/// reason, if there was one.
pub fn master_health_of(is_told: bool, silence: Option<Silence>, age: u64) -> MasterHealth
    ensures value { result ≡ master_health_of is_told silence age }
{
    MasterHealth {
        untold: !is_told,
        silence,
        still: age > RECENT,
    }
}

impl MasterHealth {
    /// Whether there is no reason for which it is not well.
    pub fn is_well(&self) -> bool
        ensures value { result ≡ is_well self.now }
    {
        !self.untold && self.silence.is_none() && !self.still
    }
}

/// Adds a line that says why a master answers no poll, by the number of the reason.
fn push_reason(text: &mut String, number: u16) -> Result<(), AllocError>
    ensures { OnOk result (string_bytes text.new ≡ string_bytes text.old ++ reason_text number) }
{
    if number == STEPPED {
        push_word(
            text,
            "clock_stepped: a clock was stepped, or is off by more than was stated\n",
        )
    } else {
        write!(
            text,
            "{number}: no poll is answered; ttd explain says why\n"
        )
    }
}

/// Adds the same, if it answers none.
fn push_silence(text: &mut String, silence: Option<Silence>) -> Result<(), AllocError>
    ensures { OnOk result (string_bytes text.new ≡ string_bytes text.old ++ silence_text silence) }
{
    match silence {
        Some(silence) => push_reason(text, silence.number()),
        None => Ok(()),
    }
}

/// Adds a line for each reason.
fn push_reasons(text: &mut String, health: &MasterHealth) -> Result<(), AllocError>
    ensures { OnOk result (string_bytes text.new ≡ string_bytes text.old ++ reasons_text health.now) }
{
    push_if(text, health.untold, "status_none: no status yet\n")?;
    push_silence(text, health.silence)?;
    push_if(
        text,
        health.still,
        "status_old: the last status is older than ten seconds\n",
    )
}

/// Adds that the master is well, or a line for each reason for which it is not.
fn push_judged(text: &mut String, health: &MasterHealth) -> Result<(), AllocError>
    ensures { OnOk result (string_bytes text.new ≡ string_bytes text.old ++ judged_text health.now) }
{
    if health.is_well() {
        push_word(text, "ok\n")
    } else {
        push_reasons(text, health)
    }
}

/// The code for a master of this health.
fn code_of(health: &MasterHealth) -> Code
    ensures { result ≡ health_code health.now }
{
    if health.is_well() {
        Code::Found
    } else {
        Code::NotReady
    }
}

/// The status.
fn metrics_content(alloc: Global, status: Option<&MasterStatus>) -> Result<Content, AllocError>
    ensures { IfOk result (λ content. (content.code, string_bytes content.text) ≡ metrics_content (option_map (λ s. s.now) status.entry)) }
{
    let Some(status) = status else {
        return content_with(alloc, Code::NotReady, "no status yet\n");
    };
    let mut text = String::new(alloc);
    push_master_status(&mut text, status)?;
    Ok(Content {
        code: Code::FoundMetrics,
        text,
    })
}

/// Whether the master is well.
fn health_content(alloc: Global, health: &MasterHealth) -> Result<Content, AllocError>
    ensures { IfOk result (λ content. (content.code, string_bytes content.text) ≡ health_content health.now) }
{
    let mut text = String::new(alloc);
    push_judged(&mut text, health)?;
    let code = code_of(health);
    Ok(Content { code, text })
}

/// The code and the text of a page, or that there is no such page.
fn page_content(
    alloc: Global,
    page: Option<Page>,
    report: &MasterReport<'_>,
) -> Result<Content, AllocError>
    ensures { IfOk result (λ content. (content.code, string_bytes content.text) ≡ content_of page (option_map (λ s. s.now) report.now.status) (master_health_of (is_some report.now.status) report.now.silence report.now.age)) }
{
    match page {
        Some(Page::Start) => {
            content_with(alloc, Code::Found, "a time master: /metrics and /health\n")
        }
        Some(Page::Metrics) => metrics_content(alloc, report.status),
        Some(Page::Health) => {
            let health = master_health_of(report.status.is_some(), report.silence, report.age);
            health_content(alloc, &health)
        }
        Some(Page::Evidence) | None => content_with(alloc, Code::Unknown, "no such page\n"),
    }
}

/// Adds the answer with a page, or its head alone.
fn push_page(
    text: &mut String,
    alloc: Global,
    page: Option<Page>,
    report: &MasterReport<'_>,
    is_whole: bool,
) -> Result<(), AllocError>
    ensures { OnOk result (string_bytes text.new ≡ string_bytes text.old
        ++ reply_of (content_of page (option_map (λ s. s.now) report.now.status) (master_health_of (is_some report.now.status) report.now.silence report.now.age)) is_whole) }
{
    let content = page_content(alloc, page, report)?;
    push_reply(text, content.code, content.text.as_str(), is_whole)
}

/// Adds the answer to a request.
fn push_wanted(
    text: &mut String,
    alloc: Global,
    wanted: Wanted,
    report: &MasterReport<'_>,
) -> Result<(), AllocError>
    ensures { OnOk result (string_bytes text.new ≡ string_bytes text.old
        ++ wanted_text wanted (option_map (λ s. s.now) report.now.status) (master_health_of (is_some report.now.status) report.now.silence report.now.age)) }
{
    match wanted {
        Wanted::Whole(page) => push_page(text, alloc, page, report, true),
        Wanted::Head(page) => push_page(text, alloc, page, report, false),
        Wanted::OtherMethod => push_reply(text, Code::OtherMethod, "only GET and HEAD\n", true),
    }
}

/// Adds the answer of a master to what is asked. `/` says in a line which pages there are: `/metrics` and `/health`, which is
/// well while polls are answered. If it is out of memory, the text has a part of it.
pub fn push_master_answer(
    text: &mut String,
    alloc: Global,
    asked: Asked,
    report: &MasterReport<'_>,
) -> Result<(), AllocError>
    ensures answer { OnOk result (string_bytes text.new ≡ string_bytes text.old
        ++ master_answer_text asked (option_map (λ s. s.now) report.now.status) (master_health_of (is_some report.now.status) report.now.silence report.now.age)) }
{
    match asked {
        Asked::Wants(wanted) => push_wanted(text, alloc, wanted, report),
        Asked::Invalid => push_reply(text, Code::Invalid, "not a request\n", true),
        Asked::TooLong => push_reply(text, Code::TooLong, "the head is too long\n", true),
    }
}
