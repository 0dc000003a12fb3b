//! A view from the texts of a status and of evidence.

ghost use Rattle.std.specs.Prelude.{◌≡◌, ◌⊎◌, ◌≤◌, IfOk, IfErr};
ghost use Rattle.std.specs.Option.{option_map};
ghost use Rattle.tt_top.specs.Field.{value_of};
ghost use Rattle.tt_top.specs.View.{count_of, source_label, holds, unopened_for, unopened_of, span_if, span_of_source, source_of, sources_of, life_of, commits_of, signs_of, broke_of, fused_of, view_with, result_of};

use crate::faults::ViewFault;
use crate::fields::{nth, number_at, span_at, value};
use crate::views::{Broke, CommitCounts, Life, SignCounts, SourceView, View};
use arrayvec::ArrayVec;
use std::alloc::{AllocError, Global};
use tt_span::{MAX_TIME, Span};

/// The texts that are read.
#[derive(Clone, Copy)]
struct Texts<'a> {
    status: &'a [u8],
    evidence: &'a [u8],
    machine: u64,
}

impl Texts<'_> {
    /// The value of a metric; 0 where there is none.
    fn count(&self, alloc: Global, name: &str, labels: &str) -> Result<u64, AllocError>
        ensures { IfOk result (λ n. n ≡ count_of self.now.status.now self.now.machine name.now labels.now) }
    {
        let value = value(alloc, self.status, self.machine, name, labels)?;
        Ok(value.unwrap_or(0))
    }

    /// The value of a source's metric.
    fn source_value(
        &self,
        alloc: Global,
        name: &str,
        source: u64,
    ) -> Result<Option<u64>, AllocError>
        ensures { IfOk result (λ value. value ≡ value_of self.now.status.now self.now.machine name.now (source_label source)) }
    {
        let label = format!(in alloc; ",source=\"{source}\"")?;
        value(alloc, self.status, self.machine, name, label.as_str())
    }

    /// The value of a source's metric; 0 where there is none.
    fn source_count(&self, alloc: Global, name: &str, source: u64) -> Result<u64, AllocError>
        ensures { IfOk result (λ n. n ≡ count_of self.now.status.now self.now.machine name.now (source_label source)) }
    {
        let value = self.source_value(alloc, name, source)?;
        Ok(value.unwrap_or(0))
    }

    /// How many packets of a source did not open for the reason of this number.
    fn unopened_for(&self, alloc: Global, source: u64, number: &str) -> Result<u64, AllocError>
        ensures { IfOk result (λ n. n ≡ unopened_for self.now.status.now self.now.machine source number.now) }
    {
        let labels = format!(in alloc; ",source=\"{source}\",number=\"{number}\"")?;
        self.count(
            alloc,
            "truetime_source_packets_unopened_total",
            labels.as_str(),
        )
    }

    /// How many packets of a source did not open.
    fn unopened(&self, alloc: Global, source: u64) -> Result<u64, AllocError>
        ensures { IfOk result (λ n. n ≡ unopened_of self.now.status.now self.now.machine source) }
    {
        let short = self.unopened_for(alloc, source, "2201")?;
        let unknown = self.unopened_for(alloc, source, "2202")?;
        let wrong = self.unopened_for(alloc, source, "2203")?;
        Ok(short.saturating_add(unknown).saturating_add(wrong))
    }

    /// The span of a source; none if it has never answered, so that its span is all of time.
    fn span(&self, source: u64) -> Option<Span>
        ensures { result ≡ span_of_source self.now.evidence.now source }
    {
        let span = span_in(nth(b"span ", source, self.evidence))?;
        if span.lo() == 0 && span.hi() == MAX_TIME {
            None
        } else {
            Some(span)
        }
    }

    /// What is shown of a source.
    fn source(
        &self,
        alloc: Global,
        number: u64,
        fused: &Option<Span>,
    ) -> Result<SourceView, AllocError>
        ensures { IfOk result (λ source. source ≡ source_of self.now.status.now self.now.evidence.now self.now.machine fused.now number) }
    {
        let suspect = self.source_count(alloc, "truetime_source_suspect", number)?;
        let age = self.source_value(alloc, "truetime_source_answer_age_seconds", number)?;
        let round_trip = self.source_value(alloc, "truetime_source_round_trip_seconds", number)?;
        let unsent = self.source_count(alloc, "truetime_source_packets_unsent_total", number)?;
        let unopened = self.unopened(alloc, number)?;
        let span = self.span(number);
        Ok(SourceView {
            number,
            span,
            suspect: suspect == 1,
            age,
            round_trip,
            holds_lower: holds(&span, fused, false),
            holds_upper: holds(&span, fused, true),
            unsent,
            unopened,
        })
    }

    /// What is shown of the first sources, so many of them.
    fn sources(
        &self,
        alloc: Global,
        count: u64,
        fused: &Option<Span>,
    ) -> Result<ArrayVec<SourceView, 16>, AllocError>
        requires { count ≤ 16 }
        ensures { IfOk result (λ sources. sources.items ≡ sources_of self.now.status.now self.now.evidence.now self.now.machine fused.now count) }
    {
        let mut sources = ArrayVec::new();
        for number in 0..count {
            let source = self.source(alloc, number, fused)?;
            sources.push(source);
        }
        Ok(sources)
    }

    /// Which life it is, and how far that is.
    fn life(&self, alloc: Global) -> Result<Life, AllocError>
        ensures { IfOk result (λ life. life ≡ life_of self.now.status.now self.now.machine) }
    {
        let epoch = self.count(alloc, "truetime_epoch", "")?;
        let rounds = self.count(alloc, "truetime_rounds_total", "")?;
        let known = self.count(alloc, "truetime_sources_known", "")?;
        Ok(Life {
            machine: self.machine,
            epoch,
            rounds,
            known,
        })
    }

    /// The commits.
    fn commits(&self, alloc: Global) -> Result<CommitCounts, AllocError>
        ensures { IfOk result (λ commits. commits ≡ commits_of self.now.status.now self.now.machine) }
    {
        let waiting = self.count(alloc, "truetime_commits_waiting", "")?;
        let waited = self.count(alloc, "truetime_commit_wait_seconds_count", "")?;
        let together = self.count(alloc, "truetime_commit_wait_seconds_sum", "")?;
        Ok(CommitCounts {
            waiting,
            waited,
            together,
        })
    }

    /// What an operator may have to act on.
    fn signs(&self, alloc: Global) -> Result<SignCounts, AllocError>
        ensures { IfOk result (λ signs. signs ≡ signs_of self.now.status.now self.now.machine) }
    {
        let breaks = self.count(alloc, "truetime_assumption_breaks_total", "")?;
        let no_point = self.count(alloc, "truetime_fusions_refused_total", ",number=\"504\"")?;
        let too_few = self.count(alloc, "truetime_fusions_refused_total", ",number=\"701\"")?;
        let stale = self.count(alloc, "truetime_rounds_stale_total", "")?;
        let left_out = self.count(alloc, "truetime_records_left_out_total", "")?;
        Ok(SignCounts {
            breaks,
            no_point,
            too_few,
            stale,
            left_out,
        })
    }

    /// How the life before ended.
    fn broke(&self, alloc: Global) -> Result<Broke, AllocError>
        ensures { IfOk result (λ broke. broke ≡ broke_of self.now.status.now self.now.machine) }
    {
        let at = self.count(alloc, "truetime_last_break_timestamp_seconds", "")?;
        let name = "truetime_last_break_info";
        let unmet = self.count(alloc, name, ",event=\"assumption_broken\"")?;
        let slept = self.count(alloc, name, ",event=\"host_slept\"")?;
        let disrupted = self.count(alloc, name, ",event=\"guest_disrupted\"")?;
        Ok(Broke {
            at,
            by_assumption: unmet == 1,
            by_sleep: slept == 1,
            by_guest: disrupted == 1,
        })
    }

    /// All that is shown.
    fn view(&self, alloc: Global) -> Result<View, AllocError>
        ensures { IfOk result (λ view. view ≡ view_with self.now.status.now self.now.evidence.now self.now.machine) }
    {
        let fused = fused(self.evidence);
        let faulty = number_at(self.evidence, b"faulty ", b'\n');
        let count = self.count(alloc, "truetime_sources", "")?;
        let width = value(
            alloc,
            self.status,
            self.machine,
            "truetime_width_seconds",
            "",
        )?;
        let sharing = self.count(alloc, "truetime_sharing", "")?;
        let life = self.life(alloc)?;
        let commits = self.commits(alloc)?;
        let signs = self.signs(alloc)?;
        let broke = self.broke(alloc)?;
        match self.sources(alloc, count.min(16), &fused) {
            Ok(sources) => Ok(View {
                life,
                faulty,
                sources,
                fused,
                width,
                commits,
                sharing: sharing == 1,
                signs,
                broke,
            }),
            Err(error) => Err(error),
        }
    }
}

/// Whether a span holds an end of the fused one: the upper one, or the lower one.
fn holds(span: &Option<Span>, fused: &Option<Span>, upper: bool) -> bool
    ensures { result ≡ holds span.now fused.now upper }
{
    match (span, fused) {
        (Some(span), Some(fused)) => {
            let end = if upper { fused.hi() } else { fused.lo() };
            span.lo() <= end && end <= span.hi()
        }
        _ => false,
    }
}

/// The span of a line, if there is one.
fn span_in(line: Option<&[u8]>) -> Option<Span>
    ensures { result ≡ span_if (option_map (λ text. text.now) line.entry) }
{
    match line {
        Some(text) => span_at(text),
        None => None,
    }
}

/// The fused span, of which the evidence has a line.
fn fused(evidence: &[u8]) -> Option<Span>
    ensures { result ≡ fused_of evidence.now }
{
    span_in(nth(b"claim ", 0, evidence))
}

/// What the texts of a machine's status and of its evidence show. The evidence may be empty where there is none: then
/// there are no spans.
///
/// A number that the status has not counts as 0, or as not known. Refuses with 2601 `NotStatus` a status that has no
/// epoch of a machine, with 2602 `NotEvidence` an evidence that is not empty and has no span on a line `claim`, and with
/// 1 `Memory`.
pub fn read_view(alloc: Global, status: &[u8], evidence: &[u8]) -> Result<View, ViewFault>
    ensures value { IfOk result (λ view. result_of status.now evidence.now ≡ Ok view) }
    ensures refused { IfErr result (λ fault. (result_of status.now evidence.now ≡ Err fault) ⊎ (fault ≡ ViewFault.Memory)) }
{
    let Some(machine) = number_at(status, b"truetime_epoch{machine=\"", b'"') else {
        return Err(ViewFault::NotStatus);
    };
    if !evidence.is_empty() && fused(evidence).is_none() {
        return Err(ViewFault::NotEvidence);
    }
    let texts = Texts {
        status,
        evidence,
        machine,
    };
    Ok(texts.view(alloc)?)
}
