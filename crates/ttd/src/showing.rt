//! How bytes that another process sent are shown, so that none of them controls a terminal.

ghost use Rattle.std.specs.Prelude.{◌≡◌, ◌<◌, ◌++◌, IfOk, OnOk};
ghost use Rattle.ttd.specs.Shown.{digit_of, is_plain, shown, shown_as};

use std::alloc::{AllocError, Global};

/// Whether a byte is shown as it is: a printable character of ASCII, or a line feed.
fn is_plain(byte: u8) -> bool
    ensures { result ≡ is_plain byte }
{
    byte == b'\n' || (32 <= byte && byte < 127)
}

/// A hexadecimal digit in lower case.
fn digit_of(number: u8) -> u8
    requires { number < 16 }
    ensures { result ≡ digit_of number }
{
    if number < 10 {
        48 + number
    } else {
        87 + number
    }
}

/// Adds what is shown of a byte: itself, or `\x` and its two hexadecimal digits.
fn push_shown(text: &mut Vec<u8>, byte: u8) -> Result<(), AllocError>
    ensures { OnOk result (text.new.items ≡ text.old.items ++ shown_as byte) }
{
    if is_plain(byte) {
        text.push(byte)?;
        return Ok(());
    }
    text.push(b'\\')?;
    text.push(b'x')?;
    text.push(digit_of(byte / 16))?;
    text.push(digit_of(byte % 16))?;
    Ok(())
}

/// What is shown of bytes.
pub(crate) fn shown(alloc: Global, bytes: &[u8]) -> Result<Vec<u8>, AllocError>
    ensures value { IfOk result (λ text. text.items ≡ shown bytes.now) }
{
    let mut text = Vec::new(alloc);
    for byte in bytes {
        push_shown(&mut text, *byte)?;
    }
    Ok(text)
}
