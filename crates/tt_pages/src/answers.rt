//! The bytes of an answer.

ghost use Rattle.std.specs.Prelude.{◌≡◌, ◌++◌, OnOk, IfOk, map, option_map, string_bytes};
ghost use Rattle.tt_pages.specs.Answer.{answer_text, content_of, end_text, evidence_content, health_code, health_content, length_text, line_text, metrics_content, more_of, page_text, reply_text, shown_of, start_content, type_of, type_text, wanted_text, words_of, words_text};
ghost use Rattle.tt_pages.specs.Health.{health_of};
ghost use Rattle.tt_pages.specs.Start.{start_text};

use crate::healths::{Health, Limits, health_of, last_break_in, push_health};
use crate::requests::{Asked, Page, Wanted};
use crate::starts::push_start;
use std::alloc::{AllocError, Global};
use tt_status::{Status, push_status};

/// What a machine was when it told of itself last.
#[derive(Drop)]
pub struct Report<'a> {
    /// Its last status, if there was one.
    pub status: &'a Option<Status>,
    /// The addresses of its sources in their order, as the settings have them.
    pub addresses: &'a [String],
    /// How old that is, in nanoseconds.
    pub age: u64,
    /// The evidence of its last publication, if there is any.
    pub evidence: &'a Option<String>,
    /// The part of a page of HTML that shows its last status, if that was drawn.
    pub drawing: &'a Option<String>,
    /// The time since 1970 by the real-time clock of the host, in nanoseconds.
    pub time: u64,
    /// By what it is judged.
    pub limits: Limits,
}

/// How a request is answered.
#[derive(Clone, Copy)]
pub(crate) enum Code {
    Found,
    FoundMetrics,
    FoundStart,
    Invalid,
    Unknown,
    OtherMethod,
    TooLong,
    NotReady,
}

impl Code {
    /// The code and its words.
    fn words(self) -> &'static str
        ensures { result.now ≡ words_of self }
    {
        match self {
            Code::Found | Code::FoundMetrics | Code::FoundStart => "200 OK",
            Code::Invalid => "400 Bad Request",
            Code::Unknown => "404 Not Found",
            Code::OtherMethod => "405 Method Not Allowed",
            Code::TooLong => "431 Request Header Fields Too Large",
            Code::NotReady => "503 Service Unavailable",
        }
    }

    /// The type of the text.
    fn kind(self) -> &'static str
        ensures { result.now ≡ type_of self }
    {
        match self {
            Code::FoundMetrics => "text/plain; version=0.0.4; charset=utf-8",
            Code::FoundStart => "text/html; charset=utf-8",
            _ => "text/plain; charset=utf-8",
        }
    }

    /// Fields of its own. A browser fetches nothing for the page, runs nothing in it, and keeps no copy.
    fn more(self) -> &'static str
        ensures { result.now ≡ more_of self }
    {
        match self {
            Code::OtherMethod => "Allow: GET, HEAD\r\n",
            Code::FoundStart => {
                "Content-Security-Policy: default-src 'none'; style-src 'unsafe-inline'\r\nCache-Control: no-store\r\n"
            }
            _ => "",
        }
    }
}

/// The code and the text of an answer.
#[derive(Drop)]
pub(crate) struct Content {
    pub(crate) code: Code,
    pub(crate) text: String,
}

/// These words as the text of an answer.
pub(crate) fn content_with(alloc: Global, code: Code, words: &str) -> Result<Content, AllocError>
    ensures code { IfOk result (λ content. content.code ≡ code) }
    ensures text { IfOk result (λ content. string_bytes content.text ≡ words.now) }
{
    let text = String::from_str(alloc, words)?;
    Ok(Content { code, text })
}

/// The status, with the addresses of the sources.
fn metrics_content(
    alloc: Global,
    status: &Option<Status>,
    addresses: &[String],
) -> Result<Content, AllocError>
    ensures { IfOk result (λ content. (content.code, string_bytes content.text) ≡ metrics_content status.now (map string_bytes addresses.now)) }
{
    let Some(status) = status else {
        return content_with(alloc, Code::NotReady, "no status yet\n");
    };
    let mut text = String::new(alloc);
    push_status(&mut text, status, addresses)?;
    Ok(Content {
        code: Code::FoundMetrics,
        text,
    })
}

/// The evidence.
fn evidence_content(alloc: Global, evidence: &Option<String>) -> Result<Content, AllocError>
    ensures { IfOk result (λ content. (content.code, string_bytes content.text) ≡ evidence_content (option_map string_bytes evidence.now)) }
{
    match evidence {
        Some(text) => content_with(alloc, Code::Found, text.as_str()),
        None => content_with(alloc, Code::Unknown, "no evidence\n"),
    }
}

/// Whether the machine is well.
fn health_content(alloc: Global, report: &Report<'_>) -> Result<Content, AllocError>
    ensures { IfOk result (λ content. (content.code, string_bytes content.text) ≡ health_content (health_of report.now.status.now report.now.age report.now.limits) report.now.status.now report.now.time) }
{
    let health = health_of(report.status, report.age, &report.limits);
    let mut text = String::new(alloc);
    push_health(
        &mut text,
        &health,
        last_break_in(report.status),
        report.time,
    )?;
    let code = code_of(&health);
    Ok(Content { code, text })
}

/// The code for a machine of this health.
fn code_of(health: &Health) -> Code
    ensures { result ≡ health_code health.now }
{
    if health.is_well() {
        Code::Found
    } else {
        Code::NotReady
    }
}

/// The page for people.
fn start_content(alloc: Global, report: &Report<'_>) -> Result<Content, AllocError>
    ensures { IfOk result (λ content. (content.code, string_bytes content.text) ≡ start_content (start_text (health_of report.now.status.now report.now.age report.now.limits) report.now.age (option_map string_bytes report.now.drawing.now))) }
{
    let health = health_of(report.status, report.age, &report.limits);
    let mut text = String::new(alloc);
    push_start(&mut text, &health, report.age, report.drawing)?;
    Ok(Content {
        code: Code::FoundStart,
        text,
    })
}

/// The code and the text of a page, or that there is no such page.
fn page_content(
    alloc: Global,
    page: Option<Page>,
    report: &Report<'_>,
) -> Result<Content, AllocError>
    ensures { IfOk result (λ content. (content.code, string_bytes content.text) ≡ content_of page report.now.status.now (map string_bytes report.now.addresses.now) (health_of report.now.status.now report.now.age report.now.limits) report.now.time (option_map string_bytes report.now.evidence.now) (start_text (health_of report.now.status.now report.now.age report.now.limits) report.now.age (option_map string_bytes report.now.drawing.now))) }
{
    match page {
        Some(Page::Metrics) => metrics_content(alloc, report.status, report.addresses),
        Some(Page::Evidence) => evidence_content(alloc, report.evidence),
        Some(Page::Health) => health_content(alloc, report),
        Some(Page::Start) => start_content(alloc, report),
        None => content_with(alloc, Code::Unknown, "no such page\n"),
    }
}

/// Adds a line of two parts.
fn push_line(text: &mut String, first: &str, second: &str) -> Result<(), AllocError>
    ensures { OnOk result (string_bytes text.new ≡ string_bytes text.old ++ line_text first.now second.now) }
{
    write!(text, "{first}{second}\r\n")
}

/// Adds the first line of an answer.
fn push_words(text: &mut String, code: Code) -> Result<(), AllocError>
    ensures { OnOk result (string_bytes text.new ≡ string_bytes text.old ++ words_text code) }
{
    push_line(text, "HTTP/1.1 ", code.words())
}

/// Adds the field that says the type of the text.
fn push_type(text: &mut String, code: Code) -> Result<(), AllocError>
    ensures { OnOk result (string_bytes text.new ≡ string_bytes text.old ++ type_text code) }
{
    push_line(text, "Content-Type: ", code.kind())
}

/// Adds the field that says how long the text is.
fn push_length(text: &mut String, length: u64) -> Result<(), AllocError>
    ensures { OnOk result (string_bytes text.new ≡ string_bytes text.old ++ length_text length) }
{
    write!(text, "Content-Length: {length}\r\n")
}

/// Adds the last fields.
fn push_end(text: &mut String, code: Code) -> Result<(), AllocError>
    ensures { OnOk result (string_bytes text.new ≡ string_bytes text.old ++ end_text code) }
{
    push_line(text, code.more(), "Connection: close\r\n")
}

/// Adds the text, or nothing if only the head is asked for.
fn push_shown(text: &mut String, content: &str, is_whole: bool) -> Result<(), AllocError>
    ensures { OnOk result (string_bytes text.new ≡ string_bytes text.old ++ shown_of content.now is_whole) }
{
    if is_whole {
        text.push_str(content)
    } else {
        Ok(())
    }
}

/// Adds an answer with this text, or its head alone.
pub(crate) fn push_reply(
    text: &mut String,
    code: Code,
    content: &str,
    is_whole: bool,
) -> Result<(), AllocError>
    ensures { OnOk result (string_bytes text.new ≡ string_bytes text.old ++ reply_text code content.now is_whole) }
{
    push_words(text, code)?;
    push_type(text, code)?;
    push_length(text, content.len() as u64)?;
    push_end(text, code)?;
    push_shown(text, content, is_whole)
}

/// Adds the answer with a page, or its head alone.
fn push_page(
    text: &mut String,
    alloc: Global,
    page: Option<Page>,
    report: &Report<'_>,
    is_whole: bool,
) -> Result<(), AllocError>
    ensures { OnOk result (string_bytes text.new ≡ string_bytes text.old
        ++ page_text page report.now.status.now (map string_bytes report.now.addresses.now) (health_of report.now.status.now report.now.age report.now.limits) report.now.time (option_map string_bytes report.now.evidence.now) (start_text (health_of report.now.status.now report.now.age report.now.limits) report.now.age (option_map string_bytes report.now.drawing.now)) is_whole) }
{
    let content = page_content(alloc, page, report)?;
    push_reply(text, content.code, content.text.as_str(), is_whole)
}

/// Adds the answer to a request.
fn push_wanted(
    text: &mut String,
    alloc: Global,
    wanted: Wanted,
    report: &Report<'_>,
) -> Result<(), AllocError>
    ensures { OnOk result (string_bytes text.new ≡ string_bytes text.old
        ++ wanted_text wanted report.now.status.now (map string_bytes report.now.addresses.now) (health_of report.now.status.now report.now.age report.now.limits) report.now.time (option_map string_bytes report.now.evidence.now) (start_text (health_of report.now.status.now report.now.age report.now.limits) report.now.age (option_map string_bytes report.now.drawing.now))) }
{
    match wanted {
        Wanted::Whole(page) => push_page(text, alloc, page, report, true),
        Wanted::Head(page) => push_page(text, alloc, page, report, false),
        Wanted::OtherMethod => push_reply(text, Code::OtherMethod, "only GET and HEAD\n", true),
    }
}

/// Adds the answer of a machine to what is asked. If it is out of memory, the text has a part of it.
pub fn push_answer(
    text: &mut String,
    alloc: Global,
    asked: Asked,
    report: &Report<'_>,
) -> Result<(), AllocError>
    ensures answer { OnOk result (string_bytes text.new ≡ string_bytes text.old
        ++ answer_text asked report.now.status.now (map string_bytes report.now.addresses.now) (health_of report.now.status.now report.now.age report.now.limits) report.now.time (option_map string_bytes report.now.evidence.now) (start_text (health_of report.now.status.now report.now.age report.now.limits) report.now.age (option_map string_bytes report.now.drawing.now))) }
{
    match asked {
        Asked::Wants(wanted) => push_wanted(text, alloc, wanted, report),
        Asked::Invalid => push_reply(text, Code::Invalid, "not a request\n", true),
        Asked::TooLong => push_reply(text, Code::TooLong, "the head is too long\n", true),
    }
}
