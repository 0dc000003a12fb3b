//! The addresses of the sources of a machine, as a metric.

ghost use Rattle.std.specs.Prelude.{◌≡◌, ◌++◌, OnOk, codes, map, string_bytes};
ghost use Rattle.tt_status.specs.Metric.{label_text};
ghost use Rattle.tt_status.specs.Info.{begun_text, escaped_char, escaped_text, info_text, infos_text, source_infos_text};

use crate::metrics::{Kind, push_head, push_number};
use std::alloc::AllocError;

/// Adds the metric of the addresses of a machine's sources, which are numbered from 0.
pub(crate) fn push_source_infos(
    text: &mut String,
    machine: u64,
    addresses: &[String],
) -> Result<(), AllocError>
    ensures { OnOk result (string_bytes text.new ≡ string_bytes text.old ++ source_infos_text machine (map string_bytes addresses.now)) }
{
    push_head(
        text,
        "truetime_source_info",
        "The address of a source, as the settings have it.",
        Kind::Gauge,
    )?;
    push_infos(text, machine, addresses)
}

/// Adds the samples of the sources with these addresses.
fn push_infos(text: &mut String, machine: u64, addresses: &[String]) -> Result<(), AllocError>
    ensures { OnOk result (string_bytes text.new ≡ string_bytes text.old ++ infos_text machine (map string_bytes addresses.now)) }
{
    for (source, address) in addresses.iter().enumerate() {
        push_info(text, machine, source as u64, address.as_str())?;
    }
    Ok(())
}

/// Adds the sample of a source.
fn push_info(text: &mut String, machine: u64, source: u64, address: &str) -> Result<(), AllocError>
    ensures { OnOk result (string_bytes text.new ≡ string_bytes text.old ++ info_text machine source address.now) }
{
    push_begun(text, machine)?;
    push_number(text, "source", source)?;
    push_address_label(text, address)?;
    text.push_str("} 1\n")
}

/// Adds the beginning of a sample.
fn push_begun(text: &mut String, machine: u64) -> Result<(), AllocError>
    ensures { OnOk result (string_bytes text.new ≡ string_bytes text.old ++ begun_text machine) }
{
    write!(text, "truetime_source_info{{machine=\"{machine}\"")
}

/// Adds the label of an address.
fn push_address_label(text: &mut String, address: &str) -> Result<(), AllocError>
    ensures { OnOk result (string_bytes text.new ≡ string_bytes text.old ++ label_text (codes "address") (escaped_text address.now)) }
{
    text.push_str(",address=\"")?;
    push_escaped(text, address)?;
    text.push_str("\"")
}

/// Adds a text as a label has it.
fn push_escaped(text: &mut String, plain: &str) -> Result<(), AllocError>
    ensures { OnOk result (string_bytes text.new ≡ string_bytes text.old ++ escaped_text plain.now) }
{
    for letter in plain.chars() {
        push_letter(text, letter)?;
    }
    Ok(())
}

/// Adds a character as a label has it.
fn push_letter(text: &mut String, letter: char) -> Result<(), AllocError>
    ensures { OnOk result (string_bytes text.new ≡ string_bytes text.old ++ escaped_char letter) }
{
    match letter {
        '\\' => text.push_str("\\\\"),
        '"' => text.push_str("\\\""),
        '\n' => text.push_str("\\n"),
        _ => text.push(letter),
    }
}
