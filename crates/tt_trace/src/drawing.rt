//! What is drawn, as text.

ghost use Rattle.std.specs.Prelude.{◌≡◌, ◌≤◌, [], ◌++◌, OnOk, string_bytes};
ghost use Rattle.tt_trace.specs.Tree.{branch_text, leaf_text, leaves_then};
ghost use Rattle.tt_trace.specs.Drawing.{group_of, band_shape, band_group, reading_class, lie_group, forgery_group, course_group, course_shapes, bar_shapes, stamp_labels};

use crate::leaves::{
    push_band_title, push_closing, push_course_title, push_dot, push_flag_title, push_label,
    push_line, push_opening, push_rectangle,
};
use crate::marks::{Band, Course, Flag, Mark};
use crate::sheets::{Sheet, middle};
use std::alloc::{AllocError, Global};

/// Where the shapes of a commit are drawn, in pixels, and its stamp.
#[derive(Clone, Copy)]
struct Bar {
    /// The left end of the bar.
    from: u64,
    /// The top of the bar.
    top: u64,
    /// The width of the bar.
    width: u64,
    /// Where the line is.
    over: u64,
    /// Where the dot is.
    spot: u64,
    /// The stamp, in nanoseconds.
    stamp: u64,
}

/// Writes a mark at the end of the text: a group with a title and shapes.
pub fn push_mark(
    alloc: Global,
    text: &mut String,
    sheet: &Sheet,
    mark: &Mark,
) -> Result<(), AllocError>
    ensures { OnOk result (string_bytes text.new ≡ string_bytes text.old ++ branch_text (group_of sheet.now mark.now)) }
{
    match mark {
        Mark::Fusion(band) => push_band(alloc, text, "fusion", "publishes", 13, sheet, band),
        Mark::Reading(band) => { push_band(alloc, text, class_of(band), "reads", 5, sheet, band) }
        Mark::Commit(course) => push_course(alloc, text, sheet, course),
        Mark::Lie(band) => push_lie(alloc, text, sheet, band),
        Mark::Forgery(flag) => push_forgery(alloc, text, sheet, flag),
    }
}

/// The class of a reading: whether it holds the true time.
fn class_of(band: &Band) -> &'static str
    ensures { result.now ≡ reading_class band.now }
{
    if band.is_right() {
        "reading"
    } else {
        "reading wrong"
    }
}

/// Writes a band at the end of the text: upright from the latest to the earliest, with its middle at the true time.
fn push_band(
    alloc: Global,
    text: &mut String,
    class: &str,
    verb: &str,
    width: u64,
    sheet: &Sheet,
    band: &Band,
) -> Result<(), AllocError>
    ensures { OnOk result (string_bytes text.new ≡ string_bytes text.old ++ branch_text (band_group class.now verb.now width sheet.now band.now)) }
{
    push_opening(alloc, text, class)?;
    push_band_title(alloc, text, verb, band)?;
    push_band_shape(alloc, text, width, sheet, band)?;
    push_closing(text)
}

/// Writes the rectangle of a band at the end of the text.
fn push_band_shape(
    alloc: Global,
    text: &mut String,
    width: u64,
    sheet: &Sheet,
    band: &Band,
) -> Result<(), AllocError>
    ensures { OnOk result (string_bytes text.new ≡ string_bytes text.old ++ leaf_text (band_shape width sheet.now band.now)) }
{
    let machine = u64::from(band.machine);
    let across = sheet.across(band.at);
    let top = sheet.upright(machine, band.at, band.hi);
    let bottom = sheet.upright(machine, band.at, band.lo);
    let height = bottom.saturating_sub(top) + 3;
    let left = across.saturating_sub(width / 2);
    push_rectangle(alloc, text, left, top.saturating_sub(1), width, height)
}

/// Writes a lying answer at the end of the text: a flag above the bands.
fn push_lie(alloc: Global, text: &mut String, sheet: &Sheet, band: &Band) -> Result<(), AllocError>
    ensures { OnOk result (string_bytes text.new ≡ string_bytes text.old ++ branch_text (lie_group sheet.now band.now)) }
{
    let machine = u64::from(band.machine);
    let across = sheet.across(band.at);
    let top = middle(machine) - 60;
    push_opening(alloc, text, "lie")?;
    push_band_title(alloc, text, "is answered", band)?;
    push_rectangle(alloc, text, across.saturating_sub(4), top, 9, 6)?;
    push_closing(text)
}

/// Writes made up bytes that were taken at the end of the text: a flag above the bands.
fn push_forgery(
    alloc: Global,
    text: &mut String,
    sheet: &Sheet,
    flag: &Flag,
) -> Result<(), AllocError>
    ensures { OnOk result (string_bytes text.new ≡ string_bytes text.old ++ branch_text (forgery_group sheet.now flag.now)) }
{
    let machine = u64::from(flag.machine);
    let across = sheet.across(flag.at);
    let top = middle(machine) - 60;
    push_opening(alloc, text, "lie")?;
    push_flag_title(alloc, text, flag)?;
    push_rectangle(alloc, text, across.saturating_sub(4), top, 9, 6)?;
    push_closing(text)
}

/// Writes a commit at the end of the text: a bar from its arrival to its release, a line where it was queued, and a dot
/// at its stamp.
fn push_course(
    alloc: Global,
    text: &mut String,
    sheet: &Sheet,
    course: &Course,
) -> Result<(), AllocError>
    ensures { OnOk result (string_bytes text.new ≡ string_bytes text.old ++ branch_text (course_group sheet.now course.now)) }
{
    push_opening(alloc, text, "commit")?;
    push_course_title(alloc, text, course)?;
    push_bar(alloc, text, sheet, course)?;
    push_closing(text)
}

/// Writes the shapes of a commit at the end of the text.
fn push_bar(
    alloc: Global,
    text: &mut String,
    sheet: &Sheet,
    course: &Course,
) -> Result<(), AllocError>
    ensures { OnOk result (string_bytes text.new ≡ string_bytes text.old ++ leaves_then (course_shapes sheet.now course.now) []) }
{
    let machine = u64::from(course.machine);
    let number = course.id.number;
    let top = middle(machine) + 62 + 14 * (number % 4);
    let from = sheet.across(course.arrived);
    let over = sheet.across(course.queued);
    let width = sheet.across(course.released).saturating_sub(from) + 2;
    let spot = sheet.across(course.stamp);
    let bar = Bar {
        from,
        top,
        width,
        over,
        spot,
        stamp: course.stamp,
    };
    push_shapes(alloc, text, bar)
}

/// Writes the shapes of a commit at these places at the end of the text.
fn push_shapes(alloc: Global, text: &mut String, bar: Bar) -> Result<(), AllocError>
    requires left { bar.from ≤ 1100 }
    requires high { bar.top ≤ 60000 }
    ensures { OnOk result (string_bytes text.new ≡ string_bytes text.old ++ leaves_then (bar_shapes bar.from bar.top bar.width bar.over bar.spot bar.stamp) []) }
{
    let Bar {
        from,
        top,
        width,
        over,
        spot,
        stamp,
    } = bar;
    push_rectangle(alloc, text, from, top, width, 10)?;
    push_line(alloc, text, over, top, over, top + 10)?;
    push_dot(alloc, text, spot, top + 5)?;
    push_stamp(alloc, text, from, top, width, stamp)
}

/// Writes the stamp of a commit at the end, where its bar is wide enough.
fn push_stamp(
    alloc: Global,
    text: &mut String,
    from: u64,
    top: u64,
    width: u64,
    stamp: u64,
) -> Result<(), AllocError>
    requires left { from ≤ 1100 }
    requires high { top ≤ 60000 }
    ensures { OnOk result (string_bytes text.new ≡ string_bytes text.old ++ leaves_then (stamp_labels from top width stamp) []) }
{
    if width >= 180 {
        push_label(alloc, text, from + 4, top + 9, "stamp ", stamp)?;
    }
    Ok(())
}
