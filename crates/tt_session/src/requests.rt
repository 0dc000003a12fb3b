//! What a line asks for.

ghost use Rattle.std.specs.Prelude.{◌≡◌, ◌≢◌, ℕ, Some, IfSome, IfNone};
ghost use Rattle.tt_text.specs.Reading.{IsNumber};
ghost use Rattle.tt_session.specs.Requests.{Spells, IsRequest, spelling_of, is_commit};
ghost use Rattle.tt_session.specs.declared.requests.Request.{Request};

use tt_text::numbers_behind;

/// What a line asks for.
#[derive(Clone, Copy, Debug, PartialEq, Eq)]
pub enum Request {
    /// `now`: the time.
    Now,
    /// `after T`: whether the time T, in nanoseconds, has surely passed.
    After(u64),
    /// `before T`: whether the time T, in nanoseconds, has surely not arrived.
    Before(u64),
    /// `commit ID FLOOR`: begins the commit with this number, or goes on with it.
    Commit {
        /// Its number in the session.
        number: u64,
        /// The least stamp that the client accepts, in nanoseconds. It counts only when the commit begins.
        floor: u64,
    },
    /// `lease LO HI`: from now on the stamps of the session lie in this lease.
    Lease {
        /// Its lower end, in nanoseconds.
        lo: u64,
        /// Its upper end, in nanoseconds.
        hi: u64,
    },
}

impl Request {
    /// Whether it is a commit.
    pub(crate) fn is_commit(&self) -> bool
        ensures { result ≡ is_commit self.now }
    {
        matches!(self, Request::Commit { .. })
    }
}

/// The request of this line, which ends with its line feed. None where the line is not the one spelling of a request.
pub(crate) fn request_of(ended: &[u8]) -> Option<Request>
    ensures { Spells ended.now result }
{
    match ended.first() {
        Some(b'n') => now_of(ended),
        Some(b'a') => after_of(ended),
        Some(b'b') => before_of(ended),
        Some(b'c') => commit_of(ended),
        Some(b'l') => lease_of(ended),
        _ => None,
    }
}

/// The request `now`, if the line is that.
fn now_of(ended: &[u8]) -> Option<Request>
    ensures none { IfNone result (ended.now ≢ spelling_of Request.Now) }
    ensures some { IfSome result (λ request. Spells ended.now (Some request)) }
{
    match ended {
        [b'n', b'o', b'w', b'\n'] => Some(Request::Now),
        _ => None,
    }
}

/// The request `after`, if the line is that word and one number.
fn after_of(ended: &[u8]) -> Option<Request>
    ensures none { IfNone result ((t : ℕ) → IsNumber t → ended.now ≢ spelling_of (Request.After t)) }
    ensures some { IfSome result (λ request. Spells ended.now (Some request)) }
{
    let Some(numbers) = numbers_behind(b"after", ended) else {
        return None;
    };
    match numbers.as_slice() {
        [time] => Some(Request::After(*time)),
        _ => None,
    }
}

/// The request `before`, if the line is that word and one number.
fn before_of(ended: &[u8]) -> Option<Request>
    ensures none { IfNone result ((t : ℕ) → IsNumber t → ended.now ≢ spelling_of (Request.Before t)) }
    ensures some { IfSome result (λ request. Spells ended.now (Some request)) }
{
    let Some(numbers) = numbers_behind(b"before", ended) else {
        return None;
    };
    match numbers.as_slice() {
        [time] => Some(Request::Before(*time)),
        _ => None,
    }
}

/// The request `commit`, if the line is that word and two numbers.
fn commit_of(ended: &[u8]) -> Option<Request>
    ensures none { IfNone result ((number floor : ℕ) → IsNumber number → IsNumber floor →
        ended.now ≢ spelling_of (Request.Commit number floor)) }
    ensures some { IfSome result (λ request. Spells ended.now (Some request)) }
{
    let Some(numbers) = numbers_behind(b"commit", ended) else {
        return None;
    };
    match numbers.as_slice() {
        [number, floor] => Some(Request::Commit {
            number: *number,
            floor: *floor,
        }),
        _ => None,
    }
}

/// The request `lease`, if the line is that word and two numbers.
fn lease_of(ended: &[u8]) -> Option<Request>
    ensures none { IfNone result ((lo hi : ℕ) → IsNumber lo → IsNumber hi →
        ended.now ≢ spelling_of (Request.Lease lo hi)) }
    ensures some { IfSome result (λ request. Spells ended.now (Some request)) }
{
    let Some(numbers) = numbers_behind(b"lease", ended) else {
        return None;
    };
    match numbers.as_slice() {
        [lo, hi] => Some(Request::Lease { lo: *lo, hi: *hi }),
        _ => None,
    }
}

/// A law of spellings: no two requests have the same one.
pub fn request_laws()
    ensures one_request { (first second : Request) → IsRequest first → IsRequest second →
        spelling_of first ≡ spelling_of second → first ≡ second }
{}
