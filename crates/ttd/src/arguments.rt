//! The arguments with which the program was started.

ghost use Rattle.std.specs.Prelude.{◌≡◌, IfOk, map, string_bytes};
ghost use Rattle.clap.specs.Walk.{texts};

use std::alloc::{AllocError, Global};
use std::env;
use std::io::{self, ErrorKind};
use std::rt::Env;

/// The arguments after the program's name. This fails if one of them is not UTF-8.
fn words_or_error(rt: &(impl Env + AllocGlobal)) -> io::Result<Vec<String>> {
    Ok(env::args(rt)?.skip(1).collect(rt.alloc())?)
}

/// The arguments after the program's name. If one of them is not UTF-8, it answers no arguments, which are invalid
/// arguments.
pub(crate) fn words_given(rt: &(impl Env + AllocGlobal)) -> Result<Vec<String>, AllocError> {
    match words_or_error(rt) {
        Ok(words) => Ok(words),
        Err(error) if error.kind() == ErrorKind::OutOfMemory => Err(AllocError),
        Err(_) => Ok(Vec::new(rt.alloc())),
    }
}

/// The arguments as texts.
pub(crate) fn as_texts(alloc: Global, words: &[String]) -> Result<Vec<&str>, AllocError>
    ensures { IfOk result (λ all. texts all.items ≡ map string_bytes words.entry.now) }
{
    let mut all = Vec::new(alloc);
    for word in words {
        all.push(word.as_str())?;
    }
    Ok(all)
}
