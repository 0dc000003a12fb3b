//! A reference of intervals in memory, for tests and for proofs over runs.

ghost use Rattle.std.specs.Prelude.{◌≡◌, List, Result};
ghost use Rattle.tt_span.specs.Interval.{Interval};
ghost use Rattle.tt_master.specs.declared.silences.Silence.{Silence as TheSilence};
ghost use Rattle.tt_master.specs.SpanReference.{GivesNextSpan};

use crate::silences::Silence;
use crate::span_references::SpanReference;
use std::marker::Model;
use tt_span::Span;

/// A reference over a list of what it gives. In contracts it is what is still to come.
#[derive(Drop)]
pub struct MemorySpanReference<'a> {
    left: &'a [Result<Span, Silence>],
}

impl<'a> Model for MemorySpanReference<'a> {
    ghost Value = { List (Result Interval TheSilence) };

    ghost view = { λ r. r.left.now };
}

impl<'a> MemorySpanReference<'a> {
    /// A reference that gives these one after the other, and then says 2402 `Unanswered`.
    pub fn new(given: &'a [Result<Span, Silence>]) -> Self
        ensures { result ≡ given.entry.now }
    {
        MemorySpanReference { left: given }
    }
}

impl<'a> SpanReference for MemorySpanReference<'a> {
    ghost gives = { GivesNextSpan };

    /// The next of the list, which is then gone. At its end 2402 `Unanswered`.
    fn read(&mut self) -> Result<Span, Silence>
        ensures gave { GivesNextSpan self.old result self.new }
    {
        match self.left.split_first() {
            Some((next, rest)) => {
                self.left = rest;
                *next
            }
            None => Err(Silence::Unanswered),
        }
    }
}
