//! The text of a file of keys.

ghost use Rattle.std.specs.Prelude.{◌≡◌, List, ℕ, Contains, Some, IfOk, IfErr, OnOk};
ghost use Rattle.tt_seal.specs.Sealing.{SealKey, key_with as key_among};
ghost use Rattle.tt_keys.specs.Line.{IsSkipped, IsKeyLine};
ghost use Rattle.tt_keys.specs.Text.{AreKeysOf, IsKeysText, Adds, IsRefused, IsTextFault};

use crate::faults::KeysFault;
use crate::lines::{cut, is_skipped, key_of_line};
use std::alloc::Global;
use tt_seal::{Key, key_with};

/// Adds the key of the line with this number, counted from 1, to the keys of the lines before it, unless it is skipped.
fn add_line(keys: &mut Vec<Key>, line: &[u8], number: usize) -> Result<(), KeysFault>
    ensures added { OnOk result (Adds keys.old.items line.now keys.new.items) }
    ensures refused { IfErr result (IsRefused keys.old.items line.now number) }
{
    if is_skipped(line) {
        return Ok(());
    }
    let Some(key) = key_of_line(line) else {
        return Err(KeysFault::BadLine(number));
    };
    if key_with(keys, key.number()).is_some() {
        return Err(KeysFault::SameNumber(number));
    }
    let Ok(()) = keys.push(key) else {
        return Err(KeysFault::Memory);
    };
    Ok(())
}

/// The keys of a text, in the order of their lines, each of which [`key_of_line`] reads. A line ends at a line feed or at
/// the end of the text. Empty lines, and lines that begin with `#`, are skipped. [`key_with`] finds each of the keys by its
/// number.
///
/// Refuses at the first line, counted from 1, that is neither skipped nor a key's, with 2215 `BadLine`, or whose key has
/// the number of an earlier one, with 2216 `SameNumber`; and with 1 `Memory` where it is out of memory for a key before
/// that line.
pub fn keys_of_text(alloc: Global, text: &[u8]) -> Result<Vec<Key>, KeysFault>
    ensures found { IfOk result (λ keys. IsKeysText text.now keys.items) }
    ensures only { IfOk result (λ keys. (others : List SealKey) → IsKeysText text.now others → others ≡ keys.items) }
    ensures by_number { IfOk result (λ keys. (key : SealKey) → Contains keys.items key → key_among keys.items key.number ≡ Some key) }
    ensures refused { IfErr result (IsTextFault text.now) }
{
    let mut keys = Vec::new(alloc);
    let mut rest = text;
    let mut number = 1;
    'lines: while let Some((line, more)) = cut(rest, b'\n') {
        match add_line(&mut keys, line, number) {
            Ok(()) => {}
            Err(fault) => return Err(fault),
        }
        rest = more;
        number += 1;
    }
    match add_line(&mut keys, rest, number) {
        Ok(()) => Ok(keys),
        Err(fault) => Err(fault),
    }
}

/// Laws of texts of keys. A line has one key at most, and none if it is skipped. So a text has one list of keys at most.
pub fn keys_laws()
    ensures one_key { (line : List ℕ) (key other : SealKey) → IsKeyLine line key → IsKeyLine line other → key ≡ other }
    ensures no_key { (line : List ℕ) (key : SealKey) → IsSkipped line → IsKeyLine line key → ⊥ }
    ensures one_list { (lines : List (List ℕ)) (keys others : List SealKey) → AreKeysOf lines keys → AreKeysOf lines others → keys ≡ others }
{}
