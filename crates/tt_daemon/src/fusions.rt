//! Fusions, each with everything that it was made of.

ghost use Rattle.std.specs.Prelude.{◌≡◌, ℕ, ◌+◌, ◌*◌, ◌<◌, ◌≤◌, ◌↔◌, length, take, All, IsOk, IfOk, IsErrOf, MatchResult};
ghost use Rattle.tt_span.specs.Interval.{IsInterval};
ghost use Rattle.tt_span.specs.Sources.{max_sources};
ghost use Rattle.tt_fuse.specs.Fusion.{IsPossibleTime, HasNoPossibleTime, CanBeFused};
ghost use Rattle.tt_fuse.specs.Ends.{AreEndsOf};
ghost use Rattle.tt_daemon.specs.Publication.{IsPublication};

use std::marker::Model;
use tt_cert::{Certificate, certify_by};
use tt_fuse::{FuseFault, SortedEnds, check_counts};
use tt_span::{MAX_SOURCES, Span};

/// A fusion with everything that it was made of, as a machine publishes it: the clock reading at which it was made, the
/// spans of the sources, how many of the sources may be wrong, the fusion of the spans, and the canonical certificate
/// of this fusion. Anybody can check the fusion by the certificate.
///
/// It is a value of its own: nothing that its machine does later changes it. It takes no memory beyond its own bytes.
#[derive(Debug, Drop)]
pub struct Fused {
    clock: u64,
    span: Span,
    /// The spans of the sources, at the front of the array.
    spans: [Span; MAX_SOURCES],
    sources: usize,
    faulty: usize,
    certificate: Certificate,
}

impl Model for Fused {
    ghost use Rattle.std.specs.Prelude.{◌≤◌, take};
    ghost use Rattle.tt_span.specs.Sources.{max_sources};
    ghost use Rattle.tt_daemon.specs.Publication.{Publication, IsPublication};

    ghost Value = { Publication };

    ghost view = { λ f. record { clock = f.clock; span = f.span; spans = take f.sources f.spans; faulty = f.faulty; certificate = f.certificate } };

    ghost invariant = { λ f. (f.sources ≤ max_sources)
        × IsPublication (record { clock = f.clock; span = f.span; spans = take f.sources f.spans; faulty = f.faulty; certificate = f.certificate }) };
}

impl Fused {
    /// The fusion of the spans when at most `faulty` of the sources are wrong, made when the clock showed `clock`,
    /// which may be any reading. Refuses as [`fuse`](tt_fuse::fuse) does, in this order: 501 `NoSource` if there is no
    /// span, 502 `TooMany` if there are more than [`MAX_SOURCES`], 503 `TooFew` if there are fewer than
    /// `2 * faulty + 1`, 504 `NoPoint` if no time is possible.
    pub fn make(clock: u64, spans: &[Span], faulty: usize) -> Result<Fused, FuseFault>
        ensures no_source { IsErrOf result FuseFault.NoSource ↔ (length spans.now ≡ 0) }
        ensures too_many { IsErrOf result FuseFault.TooMany ↔ (max_sources < length spans.now) }
        ensures too_few { IsErrOf result FuseFault.TooFew
            ↔ ((0 < length spans.now) × (length spans.now ≤ max_sources) × (length spans.now < 2 * faulty + 1)) }
        ensures no_point { IsErrOf result FuseFault.NoPoint
            ↔ (CanBeFused (length spans.now) faulty × HasNoPossibleTime spans.now faulty) }
        ensures answered { IsOk result
            ↔ (CanBeFused (length spans.now) faulty × ((x : ℕ) × IsPossibleTime spans.now faulty x)) }
        ensures value { IfOk result (λ p. (p.clock ≡ clock) × (p.spans ≡ spans.now) × (p.faulty ≡ faulty)) }
        // So its span is the fusion of the spans, and its certificate is the canonical one.
        ensures valid { IfOk result (λ p. IsPublication p) }
    {
        check_counts(spans.len(), faulty)?;
        let ends = SortedEnds::of(spans);
        Fused::of(clock, spans, &ends, faulty, FuseFault::NoPoint)
    }

    /// As [`Fused::make`], from the ends of the spans in order. Refuses with `no_point` if no time is possible.
    pub(crate) fn of<E: Drop>(
        clock: u64,
        spans: &[Span],
        ends: &SortedEnds,
        faulty: usize,
        no_point: E,
    ) -> Result<Fused, E>
        requires can { CanBeFused (length spans.now) faulty }
        requires ends { AreEndsOf spans.now ends.now }
        ensures { MatchResult result
            (λ p. (p.clock ≡ clock) × (p.spans ≡ spans.now) × (p.faulty ≡ faulty) × IsPublication p)
            (λ e. (e ≡ no_point) × HasNoPossibleTime spans.now faulty) }
    {
        let Some(span) = ends.fused(faulty) else {
            return Err(no_point);
        };
        Ok(Fused {
            clock,
            span,
            spans: in_front(spans),
            sources: spans.len(),
            faulty,
            certificate: certify_by(spans, ends, faulty, &span),
        })
    }

    /// What the clock showed when the fusion was made, in nanoseconds.
    pub fn clock(&self) -> u64
        ensures value { result ≡ self.now.clock }
        ensures valid { IsPublication self.now }
    {
        self.clock
    }

    /// The fusion: the least span that holds every time that is possible when at most `faulty` of the sources are
    /// wrong.
    pub fn span(&self) -> Span
        ensures value { result ≡ self.now.span }
        ensures valid { IsPublication self.now }
    {
        self.span
    }

    /// The spans of the sources, from 1 to [`MAX_SOURCES`] of them.
    pub fn spans(&self) -> &[Span]
        ensures value { result.now ≡ self.now.spans }
        ensures valid { IsPublication self.now }
    {
        &self.spans[..self.sources]
    }

    /// How many of the sources may be wrong, from 0 to 7.
    pub fn faulty(&self) -> usize
        ensures value { result ≡ self.now.faulty }
        ensures valid { IsPublication self.now }
    {
        self.faulty
    }

    /// The canonical certificate of the fusion.
    pub fn certificate(&self) -> &Certificate
        ensures value { result.now ≡ self.now.certificate }
        ensures valid { IsPublication self.now }
    {
        &self.certificate
    }

    /// An equal fusion.
    pub fn copied(&self) -> Fused
        ensures value { result ≡ self.now }
        ensures valid { IsPublication self.now }
    {
        Fused {
            clock: self.clock,
            span: self.span,
            spans: self.spans,
            sources: self.sources,
            faulty: self.faulty,
            certificate: self.certificate.copied(),
        }
    }
}

/// An array with these spans at its front. There are at most [`MAX_SOURCES`] spans.
fn in_front(spans: &[Span]) -> [Span; MAX_SOURCES]
    requires { length spans.now ≤ max_sources }
    ensures value { take (length spans.now) result ≡ spans.now }
    ensures valid { All IsInterval spans.now }
{
    let mut kept = [Span::whole(); MAX_SOURCES];
    for (place, span) in spans.iter().enumerate() {
        prove!(span.lo() <= span.hi());
        kept[place] = *span;
    }
    kept
}
