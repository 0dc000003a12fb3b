//! Names of hosts with a port.

ghost use Rattle.std.specs.Prelude.{◌≡◌, option_map};
ghost use Rattle.std.specs.List.{list_all, list_any, slice_split};
ghost use Rattle.tt_settings.specs.Socket.{are_labels, host_of, is_dot, is_label, is_label_byte, is_letter, is_name, port_number};

use crate::numerals::number_of;

/// The most bytes of a name.
const MAX_NAME: usize = 253;

/// Whether a byte is a letter of ASCII.
fn is_letter(byte: u8) -> bool
    ensures { result ≡ is_letter byte }
{
    (b'a' <= byte && byte <= b'z') || (b'A' <= byte && byte <= b'Z')
}

/// Whether a byte may stand in a label.
fn is_label_byte(byte: u8) -> bool
    ensures { result ≡ is_label_byte byte }
{
    is_letter(byte) || (b'0' <= byte && byte <= b'9') || byte == b'-'
}

/// Whether each byte may stand in a label.
fn are_label_bytes(label: &[u8]) -> bool
    ensures { result ≡ list_all is_label_byte label.now }
{
    for byte in label {
        if !is_label_byte(*byte) {
            return false;
        }
    }
    true
}

/// Whether there is a letter.
fn has_letter(label: &[u8]) -> bool
    ensures { result ≡ list_any is_letter label.now }
{
    for byte in label {
        if is_letter(*byte) {
            return true;
        }
    }
    false
}

/// Whether this is a label: letters, digits and hyphens, at least one, and neither the first nor the last is a hyphen.
fn is_label(label: &[u8]) -> bool
    ensures { result ≡ is_label label.now }
{
    !label.is_empty()
        && are_label_bytes(label)
        && label[0] != b'-'
        && label[label.len() - 1] != b'-'
}

/// Whether these are labels with dots between them, the last with a letter.
fn are_labels(text: &str) -> bool
    ensures { result ≡ are_labels (slice_split is_dot text.now) }
{
    let mut rest = text;
    'labels: while let Some((label, more)) = rest.split_once('.') {
        if !is_label(label.as_bytes()) {
            return false;
        }
        rest = more;
    }
    is_label(rest.as_bytes()) && has_letter(rest.as_bytes())
}

/// Whether this is the name of a host.
#[tactic(auto, unfolding(crate::specs::Socket::is_name))]
fn is_name(name: &str) -> bool
    ensures { result ≡ is_name name.now }
{
    name.len() <= MAX_NAME && are_labels(name)
}

/// The port of these digits, from 1 to 65535.
fn port_number(digits: &str) -> Option<u16>
    ensures { result ≡ port_number digits.now }
{
    match number_of(65535, digits) {
        Some(port) if port > 0 => Some(port as u16),
        _ => None,
    }
}

/// The name of a host and the port behind it, with a colon between them, as `clock.example:5701`. The name has labels with
/// dots between them, of letters, digits and hyphens of ASCII. No label is empty, or begins or ends with a hyphen; the last
/// has a letter; and the name has at most 253 characters. The port is from 1 to 65535, in decimal digits without leading
/// zeros. None for any other text.
#[tactic(auto, unfolding(crate::specs::Socket::host_of))]
pub fn host_of(text: &str) -> Option<(&str, u16)>
    ensures { option_map (λ h. (h.0.now, h.1)) result ≡ host_of text.now }
{
    let (name, digits) = text.split_once(':')?;
    if !is_name(name) {
        return None;
    }
    match port_number(digits) {
        Some(port) => Some((name, port)),
        None => None,
    }
}
