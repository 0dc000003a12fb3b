//! The service `key`.

ghost use Rattle.std.specs.Prelude.{◌≡◌, ◌++◌, IfOk, IfSome, OnOk, option_map};
ghost use Rattle.tt_keys.specs.Line.{IsKeyLine, IsName, line_of as line_with};
ghost use Rattle.ttd.specs.Keys.{ending_of, named_line};

use crate::faults::ServiceFault;
use crate::services::Stop;
use std::alloc::{AllocError, Global};
use std::random::RandomSource;
use tt_keys::line_of;
use tt_seal::KEY_LEN;
use tt_stream::ByteWriter;
use ttd_words::write;

/// Adds what follows the digits of a key: a blank and its name, if it has one.
fn add_ending(text: &mut Vec<u8>, name: Option<&str>) -> Result<(), AllocError>
    ensures { OnOk result (text.new.items ≡ text.old.items ++ ending_of (option_map (λ n. n.now) name.entry)) }
{
    match name {
        Some(name) => {
            text.push(b' ')?;
            text.extend_from_slice(name.as_bytes())
        }
        None => Ok(()),
    }
}

/// The line of a key and its name, with a line feed.
fn line_for(
    alloc: Global,
    number: u32,
    bytes: &[u8; KEY_LEN],
    name: Option<&str>,
) -> Result<Vec<u8>, AllocError>
    ensures value { IfOk result (λ text. text.items ≡ named_line (record { number = number; bytes = bytes.now }) (option_map (λ n. n.now) name.entry)) }
    // Without its line feed it is a line of this key in a file of keys.
    ensures reads_back { IfSome (option_map (λ n. n.now) name.entry) IsName →
        IsKeyLine (line_with (record { number = number; bytes = bytes.now }) ++ ending_of (option_map (λ n. n.now) name.entry)) (record { number = number; bytes = bytes.now }) }
{
    let mut text = Vec::from_slice(alloc, line_of(number, bytes).as_slice())?;
    add_ending(&mut text, name)?;
    text.push(b'\n')?;
    Ok(text)
}

/// Prints the line of a new key, of random bytes of the system, with this name. Without a number that is random too.
/// Nothing is claimed of the bytes.
///
/// Refuses with 1829 `NoRandom` where the system gives no random bytes.
pub(crate) fn make_key<H: RandomSource + AllocGlobal, O: ByteWriter>(
    rt: &H,
    id: Option<u32>,
    name: Option<&str>,
    output: &mut O,
) -> Result<(), Stop> {
    let mut bytes = [0; KEY_LEN];
    let mut drawn = [0; 4];
    if rt.fill_bytes(&mut bytes).is_err() || rt.fill_bytes(&mut drawn).is_err() {
        return Err(Stop::Refused(ServiceFault::NoRandom));
    }
    let number = match id {
        Some(number) => number,
        None => u32::from_be_bytes(drawn),
    };
    let Ok(line) = line_for(rt.alloc(), number, &bytes, name) else {
        return Err(Stop::Refused(ServiceFault::Memory));
    };
    write(output, line.as_slice()).map_err(|_| Stop::Unwritten)
}
