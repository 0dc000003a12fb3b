//! The command `fuse`: the fusion of the spans that are read, with its certificate.

ghost use Rattle.std.specs.Prelude.{◌≡◌, ◌≢◌, ◌++◌, length, Err, IfErr, IfOk, OnOk, string_bytes};
ghost use Rattle.tt_fuse.specs.Fusion.{CanBeFused, IsFusion};
ghost use Rattle.tt_live.specs.declared.faults.LiveFault.{LiveFault};
ghost use Rattle.ttd_commands.specs.Command.{HasReply};
ghost use Rattle.ttd_commands.specs.Fuse.{IsFuseReply, IsFused, IsFusionText, suspects_line};

use crate::faults::Fault;
use crate::spans_text::{SpansText, read_spans};
use std::alloc::{AllocError, Global};
use tt_cert::{certify, write_text};
use tt_fuse::{FuseFault, fuse, suspects};
use tt_span::Span;
use tt_text::push_line;

/// The answer of `fuse` to its input, a spans text: the text of the fusion with its canonical certificate, and then the
/// line `suspects none`, or `suspects I I ..` with the numbers of the sources whose spans do not meet the fusion,
/// ascending.
///
/// Refuses, in this order: 1603 `BadInput` where the input is not spans text; 501 to 504 where the spans have no
/// fusion; and 1 `Memory`.
pub(crate) fn fuse_text(alloc: Global, input: &[u8]) -> Result<String, Fault>
    ensures value { HasReply string_bytes (IsFuseReply input.now) result }
    ensures no_device { result ≢ Err Fault.ReadFailed }
    ensures no_run { (live : LiveFault) → result ≢ Err (Fault.Live live) }
{
    let read = read_spans(alloc, input)?;
    let claim = fusion_of(&read)?;
    fusion_text(alloc, &read, &claim)
}

/// The fusion of the spans.
fn fusion_of(read: &SpansText) -> Result<Span, FuseFault>
    ensures { IsFused read.now.spans.items read.now.faulty result }
{
    fuse(read.spans.as_slice(), read.faulty)
}

/// The text of the fusion with its canonical certificate, and then the line of its suspects.
fn fusion_text(alloc: Global, read: &SpansText, claim: &Span) -> Result<String, Fault>
    requires fusible { CanBeFused (length read.now.spans.items) read.now.faulty }
    requires fused { IsFusion read.now.spans.items read.now.faulty claim.now }
    ensures ok { IfOk result (λ text. IsFusionText read.now.spans.items read.now.faulty claim.now (string_bytes text)) }
    ensures memory { IfErr result (λ fault. fault ≡ Fault.Memory) }
{
    let spans = read.spans.as_slice();
    let certificate = certify(spans, read.faulty, claim);
    let mut text = write_text(alloc, claim, &certificate).map_err(|_| Fault::Memory)?;
    let found = suspects(spans, claim);
    push_suspects(alloc, &mut text, found.as_slice()).map_err(|_| Fault::Memory)?;
    Ok(text)
}

/// Writes the line of the suspects at the end of the text.
fn push_suspects(alloc: Global, text: &mut String, suspects: &[u8]) -> Result<(), AllocError>
    ensures { OnOk result (string_bytes text.new ≡ string_bytes text.old ++ suspects_line suspects.now) }
{
    if suspects.is_empty() {
        return text.push_str("suspects none\n");
    }
    let numbers = numbers_of(alloc, suspects)?;
    push_line(text, "suspects", numbers.as_slice())
}

/// The numbers of the sources, as numbers of a line.
fn numbers_of(alloc: Global, sources: &[u8]) -> Result<Vec<u64>, AllocError>
    ensures { IfOk result (λ numbers. numbers.items ≡ sources.now) }
{
    let mut numbers = Vec::new(alloc);
    for source in sources {
        numbers.push(u64::from(*source))?;
    }
    Ok(numbers)
}
