//! Certificates to text.

ghost use Rattle.std.specs.Prelude.{◌≡◌, ℕ, ◌≤◌, List, length, ◌++◌, All, IfOk, IfErr, OnOk, string_bytes};
ghost use Rattle.std.specs.List.{flat_map};
ghost use Rattle.tt_span.specs.Sources.{max_sources};
ghost use Rattle.tt_cert.specs.Text.{stretch_line, text_of, HasText, IsReadable};

use crate::certificate::{Certificate, Stretch};
use crate::faults::CertFault;
use arrayvec::ArrayVec;
use std::alloc::{AllocError, Global};
use tt_span::Span;
use tt_text::push_line;

/// The text of a claim and its certificate, which `read_text` reads: the line `claim LO HI`, a line `left I I ..`,
/// a line `right I I ..`, a line `below FROM TO DEPTH` for each stretch below the claim, and a line
/// `above FROM TO DEPTH` for each above it, all in the order of the certificate. If neither set is empty and each
/// stretch is a span, `read_text` takes this text, and gives the same claim and certificate. Refuses with 1 `Memory` if
/// it is out of memory, and with nothing else.
pub fn write_text(
    alloc: Global,
    claim: &Span,
    certificate: &Certificate,
) -> Result<String, CertFault>
    ensures written { IfOk result (λ text. string_bytes text ≡ text_of claim.now certificate.now) }
    ensures reads_back { IsReadable certificate.now → OnOk result (HasText claim.now certificate.now) }
    ensures memory { IfErr result (λ fault. fault ≡ CertFault.Memory) }
{
    text_in(alloc, claim, certificate).map_err(|_error| CertFault::Memory)
}

/// The text, unless it is out of memory.
fn text_in(alloc: Global, claim: &Span, certificate: &Certificate) -> Result<String, AllocError>
    ensures written { IfOk result (λ text. string_bytes text ≡ text_of claim.now certificate.now) }
    ensures reads_back { IsReadable certificate.now → OnOk result (HasText claim.now certificate.now) }
{
    let mut text = String::new(alloc);
    push_line(&mut text, "claim", &[claim.lo(), claim.hi()])?;
    push_line(&mut text, "left", &widened(certificate.left()))?;
    push_line(&mut text, "right", &widened(certificate.right()))?;
    push_stretches(&mut text, "below", certificate.below())?;
    push_stretches(&mut text, "above", certificate.above())?;
    Ok(text)
}

/// Source numbers as numbers of a line. Each of them is a byte.
fn widened(sources: &[u8]) -> ArrayVec<u64, 16>
    requires { length sources.now ≤ max_sources }
    ensures same { result.items ≡ sources.now }
    ensures bytes { All (λ source. source ≤ 255) sources.now }
{
    let mut numbers = ArrayVec::new();
    for source in sources {
        numbers.push(u64::from(*source));
    }
    numbers
}

/// Writes the line of each stretch at the end. Each depth is a byte.
fn push_stretches(text: &mut String, word: &str, stretches: &[Stretch]) -> Result<(), AllocError>
    ensures written { OnOk result (string_bytes text.new ≡ string_bytes text.old ++ flat_map (stretch_line word.now) stretches.now) }
    ensures bytes { OnOk result (All (λ s. s.depth ≤ 255) stretches.now) }
{
    for stretch in stretches {
        let numbers = [stretch.from, stretch.to, u64::from(stretch.depth)];
        push_line(text, word, &numbers)?;
    }
    Ok(())
}
