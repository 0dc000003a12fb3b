//! The evidence of a publication: the spans that it was fused of and its certificate, as text that `ttd check` judges.

ghost use Rattle.std.specs.Prelude.{◌≡◌, ◌++◌, OnOk, IfOk, string_bytes};
ghost use Rattle.std.specs.List.{flat_map};
ghost use Rattle.tt_server.specs.Evidence.{span_line};
ghost use Rattle.tt_telemetry.specs.Records.{published_in};

use crate::states::ThreadContext;
use std::alloc::{AllocError, Global};
use std::sync::Wait;
use std::time::Clock as SystemClock;
use tt_cert::write_text;
use tt_daemon::Fused;
use tt_rounds::{NodeFault, RoundReport, Rounds};
use tt_span::Span;
use tt_text::push_line;

/// The publication of a round, if it made one.
pub(crate) fn published_in(did: &Result<Rounds, NodeFault>, report: &RoundReport) -> Option<Fused>
    ensures value { result ≡ published_in did.now report.now.fusion }
{
    match did {
        Err(_) => None,
        Ok(_) => match &report.fusion {
            Some(Ok(fused)) => Some(fused.copied()),
            Some(Err(_)) => None,
            None => None,
        },
    }
}

/// Adds the lines of the sources' spans.
fn push_spans(text: &mut String, spans: &[Span]) -> Result<(), AllocError>
    ensures { OnOk result (string_bytes text.new ≡ string_bytes text.old ++ flat_map span_line spans.now) }
{
    for span in spans {
        push_line(text, "span", &[span.lo(), span.hi()])?;
    }
    Ok(())
}

/// The evidence of a publication. None if it is out of memory.
fn evidence_of(alloc: Global, fused: &Fused) -> Option<String> {
    let Ok(certificate) = write_text(alloc, &fused.span(), fused.certificate()) else {
        return None;
    };
    let mut text = String::new(alloc);
    push_evidence(&mut text, fused, certificate.as_str()).ok()?;
    Some(text)
}

/// Adds the lines of a publication: how many sources may be wrong, the spans of the sources, and its certificate.
fn push_evidence(text: &mut String, fused: &Fused, certificate: &str) -> Result<(), AllocError> {
    push_line(text, "faulty", &[fused.faulty() as u64])?;
    push_spans(text, fused.spans())?;
    text.push_str(certificate)
}

/// Hands the evidence of a publication to the reporter, if the settings name a file or pages for it.
pub(crate) fn show_evidence<R: Wait + SystemClock>(context: ThreadContext<'_, R>, fused: &Fused) {
    let server = context.server;
    if !server.has_evidence {
        return;
    }
    if let Some(text) = evidence_of(context.alloc, fused) {
        server.reporter.prove(context.rt, text);
    }
}

/// Hands the evidence of two publications that do not meet to the reporter, which keeps it if the settings name a file.
pub(crate) fn keep_break<R: Wait + SystemClock>(
    context: ThreadContext<'_, R>,
    last: &Option<Fused>,
    published: &Option<Fused>,
) {
    let server = context.server;
    if !server.has_evidence {
        return;
    }
    if let (Some(last), Some(published)) = (last, published) {
        let earlier = evidence_of(context.alloc, last);
        let later = evidence_of(context.alloc, published);
        if let (Some(earlier), Some(later)) = (earlier, later) {
            server.reporter.keep_break(context.rt, earlier, later);
        }
    }
}
