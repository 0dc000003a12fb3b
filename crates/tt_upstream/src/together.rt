//! What several servers say.

ghost use Rattle.std.specs.Prelude.{◌≡◌, ◌+◌, ◌<◌, ◌≤◌, length, take, map, Some, None, IsErr, IfErr, MatchResult};
ghost use Rattle.tt_span.specs.Sources.{max_sources};
ghost use Rattle.tt_fuse.specs.Fusion.{CanBeFused, IsFusion, HasNoPossibleTime};
ghost use Rattle.tt_upstream.specs.Fused.{span_for as span_for_said, speaking as speaking_of, first_reason as first_reason_of};

use tt_fuse::fuse;
use tt_master::Silence;
use tt_span::{MAX_SOURCES, Span};

/// The span that stands for what a server says: where it says nothing, the whole of time.
fn span_for(said: &Result<Span, Silence>) -> Span
    ensures { result ≡ span_for_said said.now }
{
    match said {
        Ok(span) => *span,
        Err(_) => Span::whole(),
    }
}

/// The spans that stand for what servers say, at the front of the array.
fn spans_for(said: &[Result<Span, Silence>]) -> [Span; MAX_SOURCES]
    requires { length said.now ≤ max_sources }
    ensures { take (length said.now) result ≡ map span_for_said said.now }
{
    let mut spans = [Span::whole(); MAX_SOURCES];
    for (place, one) in said.iter().enumerate() {
        spans[place] = span_for(one);
    }
    spans
}

/// How many servers say something.
fn speaking(said: &[Result<Span, Silence>]) -> usize
    ensures value { result ≡ speaking_of said.now }
    ensures bound { result ≤ length said.now }
{
    said.iter().filter(|one| one.is_ok()).count()
}

/// The first silence, if a server is silent.
fn first_reason(said: &[Result<Span, Silence>]) -> Option<Silence>
    ensures value { result ≡ first_reason_of said.now }
    ensures all { result ≡ None → speaking_of said.now ≡ length said.now }
{
    for one in said {
        if let Err(silence) = one {
            return Some(*silence);
        }
    }
    None
}

/// What servers say together of the true time, where at most `faulty` of them are wrong: the least span that holds every
/// time that is then possible. A server that says nothing stands as the whole of time. Where fewer than all but `faulty` say
/// something, it is the first silence; where no time is possible, 2407 `Disagreed`. Requires: there are 1 to 16 servers, and
/// at least `2 * faulty + 1`.
pub fn fused(said: &[Result<Span, Silence>], faulty: usize) -> Result<Span, Silence>
    requires { CanBeFused (length said.now) faulty }
    ensures silent { speaking_of said.now + faulty < length said.now → IsErr result }
    ensures reason { speaking_of said.now + faulty < length said.now → IfErr result (λ silence. first_reason_of said.now ≡ Some silence) }
    ensures fused { length said.now ≤ speaking_of said.now + faulty → MatchResult result (λ span. IsFusion (map span_for_said said.now) faulty span)
        (λ silence. (silence ≡ Silence.Disagreed) × HasNoPossibleTime (map span_for_said said.now) faulty) }
{
    if speaking(said) + faulty < said.len() {
        if let Some(silence) = first_reason(said) {
            return Err(silence);
        }
    }
    let spans = spans_for(said);
    fuse(&spans[..said.len()], faulty).map_err(|_| Silence::Disagreed)
}
