//! The page for people.

ghost use Rattle.std.specs.Prelude.{◌≡◌, ◌++◌, OnOk, option_map, string_bytes};
ghost use Rattle.tt_pages.specs.Start.{age_text, drawing_text, state_text, start_text, wrong_text};

use crate::healths::{Health, push_reasons, push_word};
use std::alloc::AllocError;

/// A millisecond, in nanoseconds.
const MILLISECOND: u64 = 1_000_000;

/// What the page begins with. It is read again every two seconds.
const HEAD: &str = "<!DOCTYPE html>
<html lang=\"en\">
<head>
<meta charset=\"utf-8\"/>
<meta name=\"viewport\" content=\"width=device-width, initial-scale=1\"/>
<meta http-equiv=\"refresh\" content=\"2\"/>
<title>truetime</title>
<style>
:root { color-scheme: light dark; --ink: #1c2128; --paper: #ffffff; --line: #d0d7de; --bad: #c4262e }
@media (prefers-color-scheme: dark) { :root { --ink: #e6edf3; --paper: #11151a; --line: #30363d; --bad: #ff7b72 } }
body { font: 15px sans-serif; color: var(--ink); background: var(--paper); max-width: 1180px; margin: 0 auto; padding: 8px }
h1 { font-size: 18px; margin: 8px 0 }
p, pre { margin: 8px 0 }
pre { font: 14px monospace; white-space: pre-wrap }
.wrong, .signs, .suspect, .silent, .never { color: var(--bad) }
body > svg { display: block; width: 100%; height: auto }
table { border-collapse: collapse; width: 100%; font-variant-numeric: tabular-nums }
th, td { text-align: right; padding: 3px 2px; border-top: 1px solid var(--line); white-space: nowrap; font-size: 14px }
th { font-weight: normal }
table ~ p { clear: both }
@media (min-width: 1000px) { body > svg { float: left; width: 62% } table { width: 36%; margin-left: 64% } }
</style>
</head>
<body>
";

/// What the page ends with.
const END: &str =
    "<p>A bar is the span of a source: the time lies in it if the source is right. The band is the fused span. Ends: which ends of it a source holds. Suspect: its span misses the fused one. Silent: no answer for three rounds.</p>
</body>
</html>
";

/// Adds a line for each reason for which the machine is not well.
fn push_wrong(text: &mut String, health: &Health) -> Result<(), AllocError>
    ensures { OnOk result (string_bytes text.new ≡ string_bytes text.old ++ wrong_text health.now) }
{
    push_word(text, "<pre class=\"wrong\">")?;
    push_reasons(text, health)?;
    push_word(text, "</pre>\n")
}

/// Adds whether the machine is well, and why not.
fn push_state(text: &mut String, health: &Health) -> Result<(), AllocError>
    ensures { OnOk result (string_bytes text.new ≡ string_bytes text.old ++ state_text health.now) }
{
    if health.is_well() {
        push_word(text, "<p>ok</p>\n")
    } else {
        push_wrong(text, health)
    }
}

/// Adds the drawing, or that there is none.
fn push_drawing(text: &mut String, drawing: &Option<String>) -> Result<(), AllocError>
    ensures { OnOk result (string_bytes text.new ≡ string_bytes text.old ++ drawing_text (option_map string_bytes drawing.now)) }
{
    match drawing {
        Some(drawing) => push_word(text, drawing.as_str()),
        None => push_word(text, "<p>no status yet</p>\n"),
    }
}

/// Adds how old the status is.
fn push_age(text: &mut String, age: u64) -> Result<(), AllocError>
    ensures { OnOk result (string_bytes text.new ≡ string_bytes text.old ++ age_text age) }
{
    let age = age / MILLISECOND;
    write!(text, "<p>status {age} ms old</p>\n")
}

/// Adds the page for people of a machine of this health: whether it is well, the drawing of its last status, and how old
/// that is, in nanoseconds.
pub(crate) fn push_start(
    text: &mut String,
    health: &Health,
    age: u64,
    drawing: &Option<String>,
) -> Result<(), AllocError>
    ensures { OnOk result (string_bytes text.new ≡ string_bytes text.old ++ start_text health.now age (option_map string_bytes drawing.now)) }
{
    push_word(text, HEAD)?;
    push_state(text, health)?;
    push_age(text, age)?;
    push_drawing(text, drawing)?;
    push_word(text, END)
}
