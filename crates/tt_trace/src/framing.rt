//! The text around the marks: the opening of the document, its legend, the lanes and the ticks.

ghost use Rattle.std.specs.Prelude.{◌≡◌, ◌<◌, ◌≤◌, ◌++◌, [], OnOk, length, string_bytes};
ghost use Rattle.std.specs.List.{flat_map, range_with_len};
ghost use Rattle.tt_trace.specs.Tree.{branch_text, leaf_text, leaves_then};
ghost use Rattle.tt_trace.specs.Framing.{opening_of, style_group, legend_group, lanes_of, lane_group, lane_title, set_up_title, lane_shapes, tick_group, tick_shapes, ticks_of};

use crate::leaves::{
    push_closing, push_label, push_line, push_measure, push_opening, push_rectangle,
};
use crate::sheets::{Sheet, middle};
use std::alloc::{AllocError, Global};
use tt_daemon::Config;

/// How the classes look.
const STYLE: &str =
    "<g class=\"style\">\n<style>svg { background: #ffffff } text { font: 11px sans-serif; fill: #444444 } .lane rect { fill: #f7f7f5 } .lane line { stroke: #999999; stroke-width: 1 } .lane text { text-anchor: end } .tick line { stroke: #dddddd } .tick text { text-anchor: middle } .fusion rect, rect.fusion { fill: #b9d6ee } .reading rect, rect.reading { fill: #2f6fa8 } .wrong rect, rect.wrong { fill: #d62728 } .commit rect, rect.commit { fill: #a8d5a2 } .commit line, rect.queued { stroke: #2c7a2c; stroke-width: 2; fill: #2c7a2c } circle { fill: #174f17 } .lie rect, rect.lie { fill: #e6821e }</style>\n</g>\n";

/// What the classes mean.
const LEGEND: &str =
    "<g class=\"legend\">\n<text x=\"170\" y=\"24\">line: the true time</text>\n<rect class=\"fusion\" x=\"308\" y=\"14\" width=\"13\" height=\"12\"></rect>\n<text x=\"328\" y=\"24\">fusion</text>\n<rect class=\"reading\" x=\"382\" y=\"14\" width=\"5\" height=\"12\"></rect>\n<text x=\"392\" y=\"24\">reading</text>\n<rect class=\"wrong\" x=\"457\" y=\"14\" width=\"5\" height=\"12\"></rect>\n<text x=\"467\" y=\"24\">wrong reading</text>\n<rect class=\"commit\" x=\"574\" y=\"15\" width=\"24\" height=\"10\"></rect>\n<text x=\"604\" y=\"24\">commit: arrival to release</text>\n<rect class=\"queued\" x=\"792\" y=\"15\" width=\"1\" height=\"10\"></rect>\n<text x=\"801\" y=\"24\">queued</text>\n<circle cx=\"862\" cy=\"20\" r=\"3\"></circle>\n<text x=\"871\" y=\"24\">stamp</text>\n<rect class=\"lie\" x=\"924\" y=\"17\" width=\"9\" height=\"6\"></rect>\n<text x=\"938\" y=\"24\">lie</text>\n<text x=\"974\" y=\"24\">bands: earliest to latest</text>\n</g>\n";

/// Writes the opening of the document at the end of the text: its size.
pub fn push_head(alloc: Global, text: &mut String, machines: u64) -> Result<(), AllocError>
    requires { machines ≤ 8 }
    ensures { OnOk result (string_bytes text.new ≡ string_bytes text.old ++ opening_of machines) }
{
    let height = 72 + 190 * machines;
    let part = format!(in alloc;
        "<svg xmlns=\"http://www.w3.org/2000/svg\" width=\"1200\" height=\"{}\">\n",
        height
    )?;
    text.push_str(part.as_str())
}

/// Writes the style and the legend at the end of the text.
pub fn push_legend(text: &mut String) -> Result<(), AllocError>
    ensures { OnOk result (string_bytes text.new ≡ string_bytes text.old ++ (branch_text style_group ++ branch_text legend_group)) }
{
    text.push_str(STYLE)?;
    text.push_str(LEGEND)
}

/// Writes the lanes of these machines at the end of the text.
pub fn push_lanes(
    alloc: Global,
    text: &mut String,
    configs: &[Config],
    sheet: &Sheet,
) -> Result<(), AllocError>
    requires { length configs.now ≤ 8 }
    ensures { OnOk result (string_bytes text.new ≡ string_bytes text.old ++ flat_map branch_text (lanes_of configs.now sheet.now)) }
{
    for number in 0..configs.len() {
        push_lane(alloc, text, number as u64, &configs[number], sheet)?;
    }
    Ok(())
}

/// Writes the lane of a machine at the end of the text.
fn push_lane(
    alloc: Global,
    text: &mut String,
    machine: u64,
    config: &Config,
    sheet: &Sheet,
) -> Result<(), AllocError>
    requires { machine < 8 }
    ensures { OnOk result (string_bytes text.new ≡ string_bytes text.old ++ branch_text (lane_group sheet.now machine config.now)) }
{
    let middle = middle(machine);
    push_opening(alloc, text, "lane")?;
    push_lane_title(alloc, text, machine, config)?;
    push_lane_shapes(alloc, text, machine, middle, sheet.reach)?;
    push_closing(text)
}

/// Writes the shapes of the lane of a machine at the end of the text.
fn push_lane_shapes(
    alloc: Global,
    text: &mut String,
    machine: u64,
    middle: u64,
    reach: u64,
) -> Result<(), AllocError>
    requires low { 100 ≤ middle }
    requires high { middle ≤ 50000 }
    ensures { OnOk result (string_bytes text.new ≡ string_bytes text.old ++ leaves_then (lane_shapes machine middle reach) []) }
{
    push_rectangle(alloc, text, 10, middle - 66, 1180, 184)?;
    push_line(alloc, text, 160, middle, 1180, middle)?;
    push_label(alloc, text, 154, middle + 4, "machine ", machine)?;
    push_measure(alloc, text, 154, middle - 46, "+", reach)?;
    push_measure(alloc, text, 154, middle + 54, "-", reach)
}

/// Writes what a machine is set up with as a title at the end of the text.
fn push_lane_title(
    alloc: Global,
    text: &mut String,
    machine: u64,
    config: &Config,
) -> Result<(), AllocError>
    ensures { OnOk result (string_bytes text.new ≡ string_bytes text.old ++ leaf_text (lane_title machine config.now)) }
{
    let drift = config.drift();
    push_set_up(
        alloc,
        text,
        machine,
        config.sources(),
        config.faulty(),
        drift.ppm(),
    )
}

/// Writes the title of a machine at the end of the text: how many sources it has, how many of them may lie, and the
/// drift of its clock.
fn push_set_up(
    alloc: Global,
    text: &mut String,
    machine: u64,
    sources: usize,
    faulty: usize,
    ppm: u32,
) -> Result<(), AllocError>
    ensures { OnOk result (string_bytes text.new ≡ string_bytes text.old ++ leaf_text (set_up_title machine sources faulty ppm)) }
{
    let part = format!(in alloc;
        "<title>machine {}: {} sources, {} may lie, drift {} ppm</title>\n",
        machine, sources, faulty, ppm
    )?;
    text.push_str(part.as_str())
}

/// Writes six ticks at the end, each a line across all lanes with its true time.
pub fn push_ticks(
    alloc: Global,
    text: &mut String,
    machines: u64,
    sheet: &Sheet,
) -> Result<(), AllocError>
    requires { machines ≤ 8 }
    ensures { OnOk result (string_bytes text.new ≡ string_bytes text.old ++ flat_map branch_text (ticks_of machines sheet.now)) }
{
    for number in 0..6 {
        push_tick(alloc, text, machines, sheet, number)?;
    }
    Ok(())
}

/// Writes a tick at the end of the text.
fn push_tick(
    alloc: Global,
    text: &mut String,
    machines: u64,
    sheet: &Sheet,
    number: u64,
) -> Result<(), AllocError>
    requires few { machines ≤ 8 }
    requires tick { number ≤ 5 }
    ensures { OnOk result (string_bytes text.new ≡ string_bytes text.old ++ branch_text (tick_group machines sheet.now number)) }
{
    push_opening(alloc, text, "tick")?;
    push_tick_shapes(alloc, text, machines, sheet, number)?;
    push_closing(text)
}

/// Writes the shapes of a tick at the end of the text.
fn push_tick_shapes(
    alloc: Global,
    text: &mut String,
    machines: u64,
    sheet: &Sheet,
    number: u64,
) -> Result<(), AllocError>
    requires few { machines ≤ 8 }
    requires tick { number ≤ 5 }
    ensures { OnOk result (string_bytes text.new ≡ string_bytes text.old ++ leaves_then (tick_shapes machines sheet.now number) []) }
{
    let time = sheet.tick(number);
    let across = sheet.across(time);
    push_line(alloc, text, across, 60, across, 64 + 190 * machines)?;
    push_measure(alloc, text, across, 54, "at ", time)
}
