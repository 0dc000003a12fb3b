//! Whether a certificate proves its claim.

ghost use Rattle.std.specs.Prelude.{◌≡◌, ℕ, ◌+◌, ◌-◌, ◌*◌, ◌<◌, ◌≤◌, ◌↔◌, List, length, IsTrue, IsOk, IfErr, OnOk, MatchResult};
ghost use Rattle.std.specs.List.{HoldsAt};
ghost use Rattle.tt_span.specs.Time.{max_time};
ghost use Rattle.tt_span.specs.Interval.{Interval, IsInterval, Holds, Meets};
ghost use Rattle.tt_fuse.specs.Fusion.{IsFusion, CanBeFused};
ghost use Rattle.tt_cert.specs.declared.certificate.Stretch.{Stretch};
ghost use Rattle.tt_cert.specs.Proof.{Proof};
ghost use Rattle.tt_cert.specs.Canonical.{IsCanonical};
ghost use Rattle.tt_cert.specs.Valid.{IsSetAt, IsMemberAt, AreSideBySide, meets, meeting, AreShallow, NameDepths, HasLeftSet, HasRightSet, Covers, IsCertificate, IsFirstFault, IsVerdict, IsDepthVerdict};

use crate::certificate::{Certificate, Stretch};
use crate::faults::CertFault;
use tt_fuse::{check_counts, fusion_laws};
use tt_span::{MAX_TIME, Span};

/// Whether the certificate proves that the claim is the fusion of the spans when at most `faulty` of the sources are
/// wrong. It says Ok exactly if the certificate is valid, and then the claim is the fusion. The maker of the
/// certificate need not be trusted.
///
/// With n spans a certificate is valid if
///
/// - `left` names n - `faulty` sources, each once, and all of them hold the lower end of the claim,
/// - `right` is such a set for the upper end,
/// - the stretches lie side by side, in the order in which they are written, from 0 to just below the claim and from
///   just above it to [`MAX_TIME`],
/// - each stretch names the number of sources that meet it, and that is below n - `faulty`.
///
/// Refuses, in this order: 501 `NoSource` where there is no span, 502 `TooMany` where there are more than 16, 503
/// `TooFew` where there are fewer than `2 * faulty + 1`, 601 `LeftSet` and 602 `RightSet` where that set is not such a
/// set, 603 `Cover` where the stretches do not lie in this way, 604 `TooDeep` where n - `faulty` sources or more meet a
/// stretch on either side, 605 `Depth` where a stretch names another number of sources than meet it.
pub fn check(
    spans: &[Span],
    faulty: usize,
    claim: &Span,
    certificate: &Certificate,
) -> Result<(), CertFault>
    ensures valid { IsOk result ↔ IsCertificate spans.now faulty claim.now certificate.now }
    ensures first { IfErr result (λ fault. IsFirstFault spans.now faulty claim.now certificate.now fault) }
    ensures fused { OnOk result (IsFusion spans.now faulty claim.now) }
{
    // `lo` says that the claim is an interval, which the law `proves` asks for.
    let _lower_end = claim.lo();
    certificate_laws();
    verdict(spans, faulty, claim, certificate)
}

/// The first thing that is wrong with the certificate, if there is any.
fn verdict(
    spans: &[Span],
    faulty: usize,
    claim: &Span,
    certificate: &Certificate,
) -> Result<(), CertFault>
    ensures { IsVerdict spans.now faulty claim.now certificate.now result }
{
    check_counts(spans.len(), faulty)?;
    let need = spans.len() - faulty;
    if !is_set_at(spans, need, claim.lo(), certificate.left()) {
        return Err(CertFault::LeftSet);
    }
    if !is_set_at(spans, need, claim.hi(), certificate.right()) {
        return Err(CertFault::RightSet);
    }
    if !covers(claim, certificate) {
        return Err(CertFault::Cover);
    }
    depth_verdict(spans, need, certificate)
}

/// Whether these are `count` sources, each named once, that all hold `time`.
fn is_set_at(spans: &[Span], count: usize, time: u64, sources: &[u8]) -> bool
    ensures { IsTrue result ↔ IsSetAt spans.now count time sources.now }
{
    if sources.len() != count {
        return false;
    }
    for k in 0..sources.len() {
        if !is_member_at(spans, time, sources, k) {
            return false;
        }
    }
    true
}

/// Whether the `k`-th source is there, holds `time`, and is not named before.
fn is_member_at(spans: &[Span], time: u64, sources: &[u8], k: usize) -> bool
    requires { k < length sources.now }
    ensures { IsTrue result ↔ IsMemberAt spans.now time sources.now k }
{
    let source = usize::from(sources[k]);
    source < spans.len() && spans[source].contains(time) && !sources[..k].contains(&sources[k])
}

/// Whether the stretches lie side by side below the claim and above it.
fn covers(claim: &Span, certificate: &Certificate) -> bool
    ensures { IsTrue result ↔ Covers claim.now certificate.now }
{
    lie_side_by_side(certificate.below(), 0, claim.lo())
        && lie_side_by_side(certificate.above(), claim.hi() + 1, MAX_TIME + 1)
}

/// Whether the stretches lie side by side from `start` up to just before `stop`.
fn lie_side_by_side(stretches: &[Stretch], start: u64, stop: u64) -> bool
    ensures { IsTrue result ↔ AreSideBySide stretches.now start stop }
{
    let mut next = start;
    for stretch in stretches {
        if stretch.from != next || stretch.to < stretch.from || stretch.to >= stop {
            return false;
        }
        next = stretch.to + 1;
    }
    next == stop
}

/// The first thing that is wrong with the depths of the stretches, if there is any, where `need` of the spans hold a
/// possible time.
fn depth_verdict(spans: &[Span], need: usize, certificate: &Certificate) -> Result<(), CertFault>
    ensures { IsDepthVerdict spans.now need certificate.now result }
{
    let below_named = are_named(spans, need, certificate.below())?;
    let above_named = are_named(spans, need, certificate.above())?;
    if below_named && above_named {
        Ok(())
    } else {
        Err(CertFault::Depth)
    }
}

/// How many of the spans meet the stretch. It counts without a branch, which no processor could predict.
fn met_by(spans: &[Span], stretch: &Stretch) -> usize
    ensures { result ≡ meeting spans.now stretch.now }
{
    let mut met = 0;
    for span in spans {
        let begun = span.lo() <= stretch.to;
        let lasting = stretch.from <= span.hi();
        met += usize::from(begun & lasting);
    }
    met
}

/// Whether each stretch names the number of spans that meet it. Refuses with 604 `TooDeep` where `need` of the spans
/// or more meet one of them.
fn are_named(spans: &[Span], need: usize, stretches: &[Stretch]) -> Result<bool, CertFault>
    ensures { MatchResult result
        (λ named. AreShallow spans.now need stretches.now × (IsTrue named ↔ NameDepths spans.now stretches.now))
        (λ fault. (fault ≡ CertFault.TooDeep) × (AreShallow spans.now need stretches.now → ⊥)) }
{
    let mut named = true;
    for stretch in stretches {
        let met = met_by(spans, stretch);
        if met >= need {
            return Err(CertFault::TooDeep);
        }
        named = named && usize::from(stretch.depth) == met;
    }
    Ok(named)
}

/// Laws of certificates.
///
/// If a certificate is valid, its claim is the fusion. The number that a stretch has to name counts the spans that have
/// a time in common with it. For the same spans and claim there is at most one canonical certificate.
pub fn certificate_laws()
    ensures proves { (spans : List Interval) (f : ℕ) (claim : Interval) (proof : Proof) → IsInterval claim →
        IsCertificate spans f claim proof → IsFusion spans f claim }
    ensures met { (span : Interval) (s : Stretch) → span.lo ≤ span.hi → s.from ≤ s.to →
        IsTrue (meets s span) ↔ Meets span (record { lo = s.from; hi = s.to }) }
    ensures one_canonical { (spans : List Interval) (f : ℕ) (claim : Interval) (proof other : Proof) →
        IsCanonical spans f claim proof → IsCanonical spans f claim other → proof ≡ other }
{
    fusion_laws();
}
