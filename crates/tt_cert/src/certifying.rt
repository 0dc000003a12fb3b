//! The canonical certificate of a fusion.

ghost use Rattle.std.specs.Prelude.{◌≡◌, ◌≤◌, [], length, take};
ghost use Rattle.tt_span.specs.Sources.{max_sources};
ghost use Rattle.tt_fuse.specs.Fusion.{IsFusion, CanBeFused};
ghost use Rattle.tt_fuse.specs.Ends.{AreEndsOf};
ghost use Rattle.tt_cert.specs.Valid.{IsCertificate};
ghost use Rattle.tt_cert.specs.Canonical.{IsCanonical, sources_at};

use crate::certificate::Certificate;
use crate::inline_lists::InlineList;
use tt_fuse::{SortedEnds, fusion_laws};
use tt_span::Span;

/// The canonical certificate of the fusion of the spans. It is valid. For each end of the claim it names the least
/// numbers of sources that hold this end, ascending. Its stretches are cut where the span of a source begins and just
/// after a span ends, and nowhere else. Requires: `claim` is what `fuse` answers for these spans.
pub fn certify(spans: &[Span], faulty: usize, claim: &Span) -> Certificate
    requires fusible { CanBeFused (length spans.now) faulty }
    requires fused { IsFusion spans.now faulty claim.now }
    ensures canonical { IsCanonical spans.now faulty claim.now result }
    ensures valid { IsCertificate spans.now faulty claim.now result }
{
    certify_by(spans, &SortedEnds::of(spans), faulty, claim)
}

/// As [`certify`], for a caller that has the ends of the spans in their order from the fusion. Requires: `claim` is
/// what `fuse` answers for these spans, and `ends` are their ends.
pub fn certify_by(spans: &[Span], ends: &SortedEnds, faulty: usize, claim: &Span) -> Certificate
    requires fusible { CanBeFused (length spans.now) faulty }
    requires fused { IsFusion spans.now faulty claim.now }
    requires ends { AreEndsOf spans.now ends.now }
    ensures canonical { IsCanonical spans.now faulty claim.now result }
    ensures valid { IsCertificate spans.now faulty claim.now result }
{
    fusion_laws();
    let mut certificate = Certificate::empty();
    certificate.fill(spans, ends, faulty, claim);
    certificate
}

/// Puts into `found` the `need` least numbers of the sources that hold `time`, ascending, or all of them if there are
/// fewer.
pub(crate) fn name_least_sources(
    found: &mut InlineList<u8, 16>,
    spans: &[Span],
    need: usize,
    time: u64,
)
    requires empty { found.old ≡ [] }
    requires few { length spans.now ≤ max_sources }
    ensures { found.new ≡ take need (sources_at spans.now time) }
{
    for (source, span) in spans.iter().enumerate() {
        if found.len() < need && span.contains(time) {
            found.push(source as u8);
        }
    }
}
