//! What a request asks for.

ghost use Rattle.std.specs.Prelude.{◌≡◌, MatchOption, position};
ghost use Rattle.tt_pages.specs.Request.{Asks, Goes, is_mark, page_named, path_of, wanted_by};

use httparse::spans::{EMPTY_HEADER_SPAN, parse_request};
use httparse::{Error, Status};

/// The longest head of a request, in bytes.
pub const MAX_HEAD: usize = 4096;

/// How many fields the head of a request may have.
pub const MAX_FIELDS: usize = 64;

/// A page.
#[derive(Clone, Copy)]
pub enum Page {
    /// `/`: what the machine sees, for people.
    Start,
    /// `/metrics`: the status.
    Metrics,
    /// `/evidence`: the evidence of the last publication.
    Evidence,
    /// `/health`: whether the machine is well.
    Health,
}

/// What a request is for.
#[derive(Clone, Copy)]
pub enum Wanted {
    /// This page. None is a page that there is not.
    Whole(Option<Page>),
    /// The head alone of the answer with this page.
    Head(Option<Page>),
    /// Anything by another method than GET and HEAD.
    OtherMethod,
}

/// What the bytes of a client ask for.
#[derive(Clone, Copy)]
pub enum Asked {
    /// What the request is for that they begin with.
    Wants(Wanted),
    /// Nothing: no request begins with them.
    Invalid,
    /// The head of their request is too long, or has too many fields.
    TooLong,
}

/// The place of the first `?`, if there is one.
fn mark_in(target: &[u8]) -> Option<usize>
    ensures { result ≡ position is_mark target.now }
{
    target.iter().position(|byte| *byte == b'?')
}

/// The path of a target: what stands before its first `?`.
fn path_of(target: &[u8]) -> &[u8]
    ensures { result.now ≡ path_of target.now }
{
    match mark_in(target) {
        Some(place) => &target[..place],
        None => target,
    }
}

/// The page at a path.
fn page_named(path: &[u8]) -> Option<Page>
    ensures { result ≡ page_named path.now }
{
    if path == b"/".as_slice() {
        return Some(Page::Start);
    }
    if path == b"/metrics".as_slice() {
        return Some(Page::Metrics);
    }
    if path == b"/evidence".as_slice() {
        return Some(Page::Evidence);
    }
    if path == b"/health".as_slice() {
        return Some(Page::Health);
    }
    None
}

/// What a request of this method and this target is for.
fn wanted_by(method: &[u8], target: &[u8]) -> Wanted
    ensures { result ≡ wanted_by method.now target.now }
{
    if method == b"GET".as_slice() {
        return Wanted::Whole(page_named(path_of(target)));
    }
    if method == b"HEAD".as_slice() {
        return Wanted::Head(page_named(path_of(target)));
    }
    Wanted::OtherMethod
}

/// What the bytes that a client has sent so far ask for. None says that the head of its request goes on, and that there
/// are fewer than [`MAX_HEAD`] bytes so far.
pub fn asked_in(bytes: &[u8]) -> Option<Asked>
    ensures asks { MatchOption result (Goes bytes.now) (Asks bytes.now) }
{
    let mut fields = [EMPTY_HEADER_SPAN; MAX_FIELDS];
    match parse_request(bytes, &mut fields) {
        Ok(Status::Complete(head)) => {
            let wanted = wanted_by(head.method.of(bytes), head.path.of(bytes));
            Some(Asked::Wants(wanted))
        }
        Ok(Status::Partial) if bytes.len() < MAX_HEAD => None,
        Ok(Status::Partial) => Some(Asked::TooLong),
        Err(Error::TooManyHeaders) => Some(Asked::TooLong),
        Err(_) => Some(Asked::Invalid),
    }
}
