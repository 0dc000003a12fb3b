//! The command `explain`, which says what the number of a refusal means. It stands beside the command line of clap, which knows
//! nothing of it.

use std::io::Eprint;
use tt_refusals::{Refusal, refusal_of};
use tt_stream::ByteWriter;
use ttd_words::{Status, end_with, explain, refuse};

/// How `explain` is called, and what for.
const HELP: &str = "\
Says what the number of a refusal means, and what to do.

Usage: ttd explain <NUMBER>

Arguments:
  <NUMBER>  The number, as in `refused 1601`
";

/// What is asked of `explain`.
#[derive(Clone, Copy)]
pub(crate) enum Explaining<'a> {
    /// What this word means, the number of a refusal.
    Number(&'a str),
    /// How it is called.
    Help,
    /// What it does not know.
    Other,
}

/// What is asked of `explain`, if these arguments are for it.
pub(crate) fn asked_of(words: &[String]) -> Option<Explaining<'_>> {
    match words {
        [command, word] if command.as_str() == "help" && word.as_str() == "explain" => Some(
            Explaining::Help,
        ),
        [command, word] if command.as_str() == "explain" => Some(asked_by(word.as_str())),
        [command, ..] if command.as_str() == "explain" => Some(Explaining::Other),
        _ => None,
    }
}

/// What one word behind `explain` asks.
fn asked_by(word: &str) -> Explaining<'_> {
    match word {
        "--help" | "-h" => Explaining::Help,
        _ => Explaining::Number(word),
    }
}

/// Does what is asked. Refuses with 1601 what it does not know.
pub(crate) fn explain_asked<H: AllocGlobal + Eprint, O: ByteWriter>(
    rt: &H,
    asked: Explaining<'_>,
    output: &mut O,
) -> Status {
    match asked {
        Explaining::Number(word) => explain_number(rt, word, output),
        Explaining::Help => end_with(output, HELP, Status::Fine),
        Explaining::Other => {
            explain(rt, 1601, &"invalid arguments");
            let _ = eprint!(rt; "error: one number is wanted\n\nUsage: ttd explain <NUMBER>\n");
            refuse(output, 1601, Status::Bad)
        }
    }
}

/// Prints the number, its name, what the program says of it, and what to do, each but the first two on a line of its own. Refuses
/// with 1601 what is no number of a refusal.
fn explain_number<H: AllocGlobal + Eprint, O: ByteWriter>(
    rt: &H,
    word: &str,
    output: &mut O,
) -> Status {
    let known = match word.parse::<u64>() {
        Ok(number) => refusal_of(number),
        Err(_) => None,
    };
    let Some(row) = known else {
        explain(rt, 1601, &"invalid arguments");
        let _ = eprint!(rt; "error: no refusal has the number '{word}'\n");
        return refuse(output, 1601, Status::Bad);
    };
    let Refusal {
        number,
        name,
        sentence,
        meaning,
    } = row;
    match format!(in rt.alloc(); "{number} {name}\n{sentence}\n{meaning}\n") {
        Ok(text) => end_with(output, text.as_str(), Status::Fine),
        Err(_) => {
            explain(rt, 1, &"out of memory");
            refuse(output, 1, Status::Memory)
        }
    }
}
