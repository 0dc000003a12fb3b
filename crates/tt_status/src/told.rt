//! What stands in a line beside the fields of its event: the words of its number, and the address of its source.

ghost use Rattle.std.specs.Prelude.{◌≡◌, ◌++◌, OnOk, None, [], string_bytes};
ghost use Rattle.std.specs.List.{list_all};
ghost use Rattle.tt_status.specs.Event.{number_told};
ghost use Rattle.tt_status.specs.Told.{is_plain_byte, is_plain, words_field, words_text, place_field, place_text};

use crate::lines::{LogEvent, LogFormat};
use std::alloc::AllocError;
use tt_refusals::refusal_of;

/// The least byte of words: a space.
const SPACE: u8 = 32;

/// What the program says of the number of a refusal among the fields of an event; empty if it has none.
pub fn words_of(event: LogEvent) -> &'static str
    ensures none { number_told event ≡ None → result.now ≡ [] }
{
    let Some(number) = event.number() else {
        return "";
    };
    match refusal_of(number) {
        Some(refusal) => refusal.sentence,
        None => "",
    }
}

/// Whether a byte is plain.
fn is_plain_byte(least: u8, byte: u8) -> bool
    ensures { result ≡ is_plain_byte least byte }
{
    byte >= least && byte != b'"' && byte != b'\\'
}

/// Whether all these bytes are plain.
fn all_plain(least: u8, bytes: &[u8]) -> bool
    ensures { result ≡ list_all (is_plain_byte least) bytes.now }
{
    for byte in bytes {
        if !is_plain_byte(least, *byte) {
            return false;
        }
    }
    true
}

/// Whether there is something, and all of it is plain.
fn is_plain(least: u8, text: &str) -> bool
    ensures { result ≡ is_plain least text.now }
{
    all_plain(least, text.as_bytes()) && !text.is_empty()
}

/// Adds words between quotation marks, if they are plain.
pub(crate) fn push_words(
    text: &mut String,
    format: LogFormat,
    words: &str,
) -> Result<(), AllocError>
    ensures { OnOk result (string_bytes text.new ≡ string_bytes text.old ++ words_text format words.now) }
{
    if is_plain(SPACE, words) {
        return push_words_field(text, format, words);
    }
    Ok(())
}

/// Adds words between quotation marks.
fn push_words_field(text: &mut String, format: LogFormat, words: &str) -> Result<(), AllocError>
    ensures { OnOk result (string_bytes text.new ≡ string_bytes text.old ++ words_field format words.now) }
{
    match format {
        LogFormat::Text => write!(text, " text=\"{words}\""),
        LogFormat::Json => write!(text, ",\"text\":\"{words}\""),
    }
}

/// Adds an address, if it is plain.
pub(crate) fn push_place(
    text: &mut String,
    format: LogFormat,
    address: &str,
) -> Result<(), AllocError>
    ensures { OnOk result (string_bytes text.new ≡ string_bytes text.old ++ place_text format address.now) }
{
    if is_plain(SPACE + 1, address) {
        return push_place_field(text, format, address);
    }
    Ok(())
}

/// Adds an address.
fn push_place_field(text: &mut String, format: LogFormat, address: &str) -> Result<(), AllocError>
    ensures { OnOk result (string_bytes text.new ≡ string_bytes text.old ++ place_field format address.now) }
{
    match format {
        LogFormat::Text => write!(text, " address={address}"),
        LogFormat::Json => write!(text, ",\"address\":\"{address}\""),
    }
}
