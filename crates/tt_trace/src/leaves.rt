//! Elements as text.

ghost use Rattle.std.specs.Prelude.{◌≡◌, [], ◌∷◌, ◌++◌, OnOk, string_bytes, codes};
ghost use Rattle.tt_trace.specs.Tree.{leaf_text, opening_then, closing_then};
ghost use Rattle.tt_trace.specs.Drawing.{band_title, course_title, flag_title, rectangle, line, label, measure, dot, word_attribute};

use crate::marks::{Band, Course, Flag};
use std::alloc::{AllocError, Global};

/// Writes words at the end of the text.
pub fn push_words(text: &mut String, words: &str) -> Result<(), AllocError>
    ensures { OnOk result (string_bytes text.new ≡ string_bytes text.old ++ words.now) }
{
    text.push_str(words)
}

/// Writes the opening of a group of a class at the end of the text.
pub fn push_opening(alloc: Global, text: &mut String, class: &str) -> Result<(), AllocError>
    ensures { OnOk result (string_bytes text.new ≡ string_bytes text.old ++ opening_then (codes "g") (word_attribute (codes "class") class.now ∷ []) (codes "\n")) }
{
    let part = format!(in alloc; "<g class=\"{}\">\n", class)?;
    text.push_str(part.as_str())
}

/// Writes the closing of a group at the end of the text.
pub fn push_closing(text: &mut String) -> Result<(), AllocError>
    ensures { OnOk result (string_bytes text.new ≡ string_bytes text.old ++ closing_then (codes "g") []) }
{
    text.push_str("</g>\n")
}

/// Writes a rectangle at the end of the text.
pub fn push_rectangle(
    alloc: Global,
    text: &mut String,
    x: u64,
    y: u64,
    width: u64,
    height: u64,
) -> Result<(), AllocError>
    ensures { OnOk result (string_bytes text.new ≡ string_bytes text.old ++ leaf_text (rectangle x y width height)) }
{
    let part = format!(in alloc;
        "<rect x=\"{}\" y=\"{}\" width=\"{}\" height=\"{}\"></rect>\n",
        x, y, width, height
    )?;
    text.push_str(part.as_str())
}

/// Writes a line at the end of the text.
pub fn push_line(
    alloc: Global,
    text: &mut String,
    x1: u64,
    y1: u64,
    x2: u64,
    y2: u64,
) -> Result<(), AllocError>
    ensures { OnOk result (string_bytes text.new ≡ string_bytes text.old ++ leaf_text (line x1 y1 x2 y2)) }
{
    let part = format!(in alloc;
        "<line x1=\"{}\" y1=\"{}\" x2=\"{}\" y2=\"{}\"></line>\n",
        x1, y1, x2, y2
    )?;
    text.push_str(part.as_str())
}

/// Writes a word with a number behind it at a place, at the end of the text.
pub fn push_label(
    alloc: Global,
    text: &mut String,
    x: u64,
    y: u64,
    word: &str,
    number: u64,
) -> Result<(), AllocError>
    ensures { OnOk result (string_bytes text.new ≡ string_bytes text.old ++ leaf_text (label x y word.now number)) }
{
    let part = format!(in alloc; "<text x=\"{}\" y=\"{}\">{}{}</text>\n", x, y, word, number)?;
    text.push_str(part.as_str())
}

/// Writes a time in nanoseconds at a place, behind a word, at the end of the text.
pub fn push_measure(
    alloc: Global,
    text: &mut String,
    x: u64,
    y: u64,
    word: &str,
    time: u64,
) -> Result<(), AllocError>
    ensures { OnOk result (string_bytes text.new ≡ string_bytes text.old ++ leaf_text (measure x y word.now time)) }
{
    let part = format!(in alloc;
        "<text x=\"{}\" y=\"{}\">{}{} ns</text>\n",
        x, y, word, time
    )?;
    text.push_str(part.as_str())
}

/// Writes a dot at the end of the text.
pub fn push_dot(alloc: Global, text: &mut String, x: u64, y: u64) -> Result<(), AllocError>
    ensures { OnOk result (string_bytes text.new ≡ string_bytes text.old ++ leaf_text (dot x y)) }
{
    let part = format!(in alloc; "<circle cx=\"{}\" cy=\"{}\" r=\"3\"></circle>\n", x, y)?;
    text.push_str(part.as_str())
}

/// Writes the title of a band at the end of the text.
pub fn push_band_title(
    alloc: Global,
    text: &mut String,
    verb: &str,
    band: &Band,
) -> Result<(), AllocError>
    ensures { OnOk result (string_bytes text.new ≡ string_bytes text.old ++ leaf_text (band_title verb.now band.now)) }
{
    let part = format!(in alloc;
        "<title>machine {} {} {} to {} at {}</title>\n",
        band.machine, verb, band.lo, band.hi, band.at
    )?;
    text.push_str(part.as_str())
}

/// Writes the title of made up bytes at the end of the text.
pub fn push_flag_title(alloc: Global, text: &mut String, flag: &Flag) -> Result<(), AllocError>
    ensures { OnOk result (string_bytes text.new ≡ string_bytes text.old ++ leaf_text (flag_title flag.now)) }
{
    let part = format!(in alloc;
        "<title>machine {} takes forged bytes at {}</title>\n",
        flag.machine, flag.at
    )?;
    text.push_str(part.as_str())
}

/// Writes the title of a commit at the end of the text.
pub fn push_course_title(
    alloc: Global,
    text: &mut String,
    course: &Course,
) -> Result<(), AllocError>
    ensures { OnOk result (string_bytes text.new ≡ string_bytes text.old ++ leaf_text (course_title course.now)) }
{
    let part = format!(in alloc;
        "<title>commit {} of session {}: stamp {}, arrived {}, released {}</title>\n",
        course.id.number, course.id.session, course.stamp, course.arrived, course.released
    )?;
    text.push_str(part.as_str())
}
