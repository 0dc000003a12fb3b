//! Whole pictures.

ghost use Rattle.std.specs.Prelude.{List, ◌≡◌, ◌≤◌, ◌++◌, true, IfOk, IfErr, OnOk, length, string_bytes};
ghost use Rattle.std.specs.List.{flat_map};
ghost use Rattle.tt_daemon.specs.Config.{Configuration};
ghost use Rattle.tt_world.specs.Trace.{IsTraceOf, RunTrace};
ghost use Rattle.tt_world.specs.declared.events.Event.{Event};
ghost use Rattle.tt_world.specs.declared.events.Reply.{Reply};
ghost use Rattle.tt_trace.specs.Marks.{marks_of};
ghost use Rattle.tt_trace.specs.Bands.{bands_of, readings_of};
ghost use Rattle.tt_trace.specs.Tree.{branch_text, is_well_formed};
ghost use Rattle.tt_trace.specs.Drawing.{group_of};
ghost use Rattle.tt_trace.specs.Picture.{picture_of, picture_text_of, sheet_text};

use crate::drawing::push_mark;
use crate::faults::PictureFault;
use crate::framing::{push_head, push_lanes, push_legend, push_ticks};
use crate::leaves::push_words;
use crate::marks::{Mark, find_marks};
use crate::sheets::Sheet;
use std::alloc::{AllocError, Global};
use tt_daemon::Config;
use tt_world::{Event, Trace};

/// Draws a run as SVG. Requires: the trace is what [`run`](tt_world::run) gives for these events on these machines.
/// Refuses with 1 `Memory` if it is out of memory, and with nothing else.
pub fn picture(
    alloc: Global,
    configs: &[Config],
    events: &[Event],
    trace: &Trace,
) -> Result<String, PictureFault>
    requires { IsTraceOf configs.now events.now trace.now }
    ensures text { IfOk result (λ text. string_bytes text ≡ picture_text_of configs.now events.now trace.now) }
    ensures memory { IfErr result (λ fault. fault ≡ PictureFault.Memory) }
{
    picture_in(alloc, configs, events, trace).map_err(|_error| PictureFault::Memory)
}

/// The picture, unless it is out of memory.
fn picture_in(
    alloc: Global,
    configs: &[Config],
    events: &[Event],
    trace: &Trace,
) -> Result<String, AllocError>
    requires { IsTraceOf configs.now events.now trace.now }
    ensures { IfOk result (λ text. string_bytes text ≡ picture_text_of configs.now events.now trace.now) }
{
    let replies = trace.replies();
    let marks = find_marks(alloc, events, replies)?;
    let drawn = marks.as_slice();
    let sheet = Sheet::of(drawn);
    let mut text = String::new(alloc);
    push_sheet(alloc, &mut text, configs, &sheet, drawn)?;
    Ok(text)
}

/// Writes the whole document at the end of the text.
fn push_sheet(
    alloc: Global,
    text: &mut String,
    configs: &[Config],
    sheet: &Sheet,
    marks: &[Mark],
) -> Result<(), AllocError>
    requires { length configs.now ≤ 8 }
    ensures { OnOk result (string_bytes text.new ≡ string_bytes text.old ++ sheet_text configs.now sheet.now marks.now) }
{
    let machines = configs.len() as u64;
    push_head(alloc, text, machines)?;
    push_legend(text)?;
    push_lanes(alloc, text, configs, sheet)?;
    push_ticks(alloc, text, machines, sheet)?;
    push_all(alloc, text, sheet, marks)?;
    push_words(text, "</svg>\n")
}

/// Writes all marks at the end of the text.
fn push_all(
    alloc: Global,
    text: &mut String,
    sheet: &Sheet,
    marks: &[Mark],
) -> Result<(), AllocError>
    ensures { OnOk result (string_bytes text.new ≡ string_bytes text.old ++ flat_map (λ mark. branch_text (group_of sheet.now mark)) marks.now) }
{
    for mark in marks {
        push_mark(alloc, text, sheet, mark)?;
    }
    Ok(())
}

/// Laws of the definitions of a picture, for every run. Each mark is one branch of the picture. The bands of readings
/// among the marks are the readings of the run, each once and in the order of the events, with machine, true time and
/// ends. Every picture is well-formed: tags have names, and attributes with different names and plain values; words are
/// plain.
pub fn picture_laws()
    ensures drawn_once { (events : List Event) (replies : List Reply) → bands_of (marks_of events replies) ≡ readings_of events replies }
    ensures well_formed { (configs : List Configuration) (events : List Event) (trace : RunTrace) → is_well_formed (picture_of configs events trace) ≡ true }
{}
