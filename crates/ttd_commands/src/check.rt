//! The command `check`: whether a certificate proves its claim for the spans that are read.

ghost use Rattle.std.specs.Prelude.{◌≡◌, ◌≢◌, ◌≤◌, ◌<◌, ◌↔◌, length, Err, IfErr, IfOk, IsTrue, string_bytes};
ghost use Rattle.std.specs.Result.{result_map_both};
ghost use Rattle.tt_cert.specs.Valid.{IsVerdict};
ghost use Rattle.tt_live.specs.declared.faults.LiveFault.{LiveFault};
ghost use Rattle.ttd_commands.specs.Command.{HasReply};
ghost use Rattle.ttd_commands.specs.Check.{IsCheckReply, IsClaimLine, IsClaimPlace, JudgesText, valid_line};

use crate::faults::Fault;
use crate::spans_text::{SpansText, read_spans};
use std::alloc::Global;
use tt_cert::{CertFault, Certificate, check, read_text};
use tt_span::Span;

/// The answer of `check` to its input, a spans text with a certificate text behind it. The certificate text begins at
/// the first line that begins with `claim`. The answer is the line `valid` if the certificate proves that the claim is
/// the fusion of the spans.
///
/// Refuses, in this order: 1603 `BadInput` where the text before that line is not spans text, or the whole input if
/// there is no such line; 606 where the rest is not certificate text; 501 to 503 where this number of spans has no
/// fusion, whatever the spans are; 601 to 605 where the certificate does not prove its claim; and 1 `Memory`.
pub(crate) fn check_text(alloc: Global, input: &[u8]) -> Result<String, Fault>
    ensures value { HasReply string_bytes (IsCheckReply input.now) result }
    ensures no_device { result ≢ Err Fault.ReadFailed }
    ensures no_run { (live : LiveFault) → result ≢ Err (Fault.Live live) }
{
    let (front, rest) = input.split_at(claim_place(input));
    let read = read_spans(alloc, front)?;
    judge(&read, rest)?;
    valid_text(alloc)
}

/// The line that says that a certificate proves its claim.
fn valid_text(alloc: Global) -> Result<String, Fault>
    ensures ok { IfOk result (λ text. string_bytes text ≡ valid_line) }
    ensures memory { IfErr result (λ fault. fault ≡ Fault.Memory) }
{
    format!(in alloc; "valid\n").map_err(|_| Fault::Memory)
}

/// The place of the first line that begins with `claim`, or the end of the text if there is none.
pub(crate) fn claim_place(text: &[u8]) -> usize
    ensures place { IsClaimPlace text.now result }
    ensures within { result ≤ length text.now }
{
    for at in 0..text.len() {
        if is_claim_line(text, at) {
            return at;
        }
    }
    text.len()
}

/// Whether a line that begins with `claim` begins at this place.
fn is_claim_line(text: &[u8], at: usize) -> bool
    requires { at < length text.now }
    ensures { IsTrue result ↔ IsClaimLine text.now at }
{
    (at == 0 || text[at - 1] == b'\n') && text[at..].starts_with(b"claim")
}

/// Whether the text is a certificate that proves its claim for the spans.
fn judge(read: &SpansText, text: &[u8]) -> Result<(), Fault>
    ensures judged { JudgesText read.now.spans.items read.now.faulty text.now (result_map_both (λ _. valid_line) (λ fault. fault) result) }
    ensures refused { IfErr result (λ fault. (fault ≢ Fault.ReadFailed) × ((live : LiveFault) → fault ≢ Fault.Live live) × (fault ≢ Fault.Memory)) }
{
    let (claim, certificate) = read_text(text)?;
    verdict_on(read, &claim, &certificate)?;
    Ok(())
}

/// The answer of `tt_cert::check` for this certificate.
fn verdict_on(read: &SpansText, claim: &Span, certificate: &Certificate) -> Result<(), CertFault>
    ensures { IsVerdict read.now.spans.items read.now.faulty claim.now certificate.now result }
{
    check(read.spans.as_slice(), read.faulty, claim, certificate)
}
