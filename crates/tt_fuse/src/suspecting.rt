//! The suspects of a fusion: the sources whose span does not meet it.

ghost use Rattle.std.specs.Prelude.{◌≡◌, ◌≤◌, ℕ, List, length, slice_index_or};
ghost use Rattle.tt_span.specs.Interval.{Interval, Holds};
ghost use Rattle.tt_span.specs.Sources.{max_sources};
ghost use Rattle.tt_fuse.specs.Fusion.{IsPossibleTime, IsFusion};
ghost use Rattle.tt_fuse.specs.Suspect.{IsSuspect, AreSuspects};

use arrayvec::ArrayVec;
use tt_span::Span;

/// The numbers of the sources whose span does not meet `fused`, ascending. A source's number is its place in `spans`,
/// from 0. Spans that touch at one point meet. Requires: there are at most [`MAX_SOURCES`](crate::MAX_SOURCES) spans.
pub fn suspects(spans: &[Span], fused: &Span) -> ArrayVec<u8, 16>
    requires { length spans.now ≤ max_sources }
    ensures exact { AreSuspects spans.now fused.now result.items }
{
    let mut found = ArrayVec::new();
    for (source, span) in spans.iter().enumerate() {
        if !span.meets(fused) {
            found.push(source as u8);
        }
    }
    found
}

/// A law of suspects. The span of a suspect of a fusion holds no possible time. So what the suspect said is false if at
/// most as many sources are wrong as the fusion allows.
pub fn suspect_laws()
    ensures no_possible_time { (spans : List Interval) (f : ℕ) (fused : Interval) → IsFusion spans f fused → (k : ℕ) → IsSuspect spans fused k →
        (span : Interval) → slice_index_or spans k span ≡ span → (x : ℕ) → IsPossibleTime spans f x → Holds span x → ⊥ }
{}
