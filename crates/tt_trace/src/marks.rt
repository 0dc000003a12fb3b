//! What is drawn of a run.

ghost use Rattle.std.specs.Prelude.{◌≡◌, ◌++◌, ◌<◌, length, take, IfOk, OnOk, slice_get, Some};
ghost use Rattle.std.specs.List.{zip};
ghost use Rattle.tt_trace.specs.Marks.{marks_of, marks_by, course_marks, courses_of, lie_marks, forgery_marks, is_right};
ghost use Rattle.tt_span.specs.Interval.{Interval};

use crate::lookups::{find_errand, find_times};
use std::alloc::{AllocError, Global};
use tt_stamp::{Id, Receipt};
use tt_world::{Action, Event, Reply};

/// A span, from `lo` to `hi`, that a machine had at a true time. All times are in nanoseconds.
#[derive(Clone, Copy, Debug, PartialEq, Eq)]
pub struct Band {
    pub machine: u8,
    pub at: u64,
    pub lo: u64,
    pub hi: u64,
}

impl Band {
    /// Whether the span holds the true time.
    pub fn is_right(&self) -> bool
        ensures { result ≡ is_right self.now }
    {
        self.lo <= self.at && self.at <= self.hi
    }
}

/// A commit: the true times of its arrival, its queueing and its release, in nanoseconds, and its stamp.
#[derive(Clone, Copy, Debug, PartialEq, Eq)]
pub struct Course {
    pub machine: u8,
    pub id: Id,
    pub stamp: u64,
    pub arrived: u64,
    pub queued: u64,
    pub released: u64,
}

/// A machine at a true time, in nanoseconds.
#[derive(Clone, Copy, Debug, PartialEq, Eq)]
pub struct Flag {
    pub machine: u8,
    pub at: u64,
}

/// One thing that is drawn.
#[derive(Clone, Copy, Debug, PartialEq, Eq)]
pub enum Mark {
    /// The machine published this span.
    Fusion(Band),
    /// A worker of the machine read this span.
    Reading(Band),
    /// The machine released a commit.
    Commit(Course),
    /// A source of the machine answered this span, which did not hold the true time.
    Lie(Band),
    /// The machine took made up bytes for an answer.
    Forgery(Flag),
}

/// What is drawn of a run: the marks of each event and its reply, in order.
pub fn find_marks(
    alloc: Global,
    events: &[Event],
    replies: &[Reply],
) -> Result<Vec<Mark>, AllocError>
    requires long { length replies.now ≡ length events.now }
    ensures { IfOk result (λ marks. marks.items ≡ marks_of events.now replies.now) }
{
    let mut marks = Vec::new(alloc);
    for number in 0..events.len() {
        let passed = &events[..number];
        let answered = &replies[..number];
        push_marks(
            &mut marks,
            &events[number],
            &replies[number],
            passed,
            answered,
        )?;
    }
    Ok(marks)
}

/// Adds the marks of an event and its reply, after these events with their replies.
fn push_marks(
    marks: &mut Vec<Mark>,
    event: &Event,
    reply: &Reply,
    events: &[Event],
    replies: &[Reply],
) -> Result<(), AllocError>
    ensures { OnOk result (marks.new.items ≡ marks.old.items ++ marks_by (zip events.now replies.now) event.now.at event.now.action reply.now) }
{
    let at = event.at;
    match (&event.action, reply) {
        (Action::Fuse { machine, .. }, Reply::Published(_, span)) => {
            let band = Band {
                machine: *machine,
                at,
                lo: span.lo(),
                hi: span.hi(),
            };
            marks.push(Mark::Fusion(band))?;
            Ok(())
        }
        (Action::Read { machine, .. }, Reply::Read(reading)) => {
            let band = Band {
                machine: *machine,
                at,
                lo: reading.earliest(),
                hi: reading.latest(),
            };
            marks.push(Mark::Reading(band))?;
            Ok(())
        }
        (Action::Answer { packet, span }, Reply::Put(_)) => {
            push_lie(marks, at, *packet, span.lo(), span.hi(), events, replies)
        }
        (Action::Deliver { packet, .. }, Reply::Taken) => {
            push_forgery(marks, at, *packet, events, replies)
        }
        (Action::Release { machine, .. }, Reply::Released(receipts)) => {
            push_courses(marks, *machine, at, receipts.as_slice(), events, replies)
        }
        _ => Ok(()),
    }
}

/// Adds the mark of a lie, if the answer to this packet is one.
fn push_lie(
    marks: &mut Vec<Mark>,
    at: u64,
    packet: u64,
    lo: u64,
    hi: u64,
    events: &[Event],
    replies: &[Reply],
) -> Result<(), AllocError>
    ensures { OnOk result (marks.new.items ≡ marks.old.items ++ lie_marks (zip events.now replies.now) at packet lo hi) }
{
    if let Some(errand) = find_errand(packet, events, replies) {
        let band = Band {
            machine: errand.machine,
            at,
            lo,
            hi,
        };
        if !band.is_right() {
            marks.push(Mark::Lie(band))?;
        }
    }
    Ok(())
}

/// Adds the mark of made up bytes, if this packet has such bytes.
fn push_forgery(
    marks: &mut Vec<Mark>,
    at: u64,
    packet: u64,
    events: &[Event],
    replies: &[Reply],
) -> Result<(), AllocError>
    ensures { OnOk result (marks.new.items ≡ marks.old.items ++ forgery_marks (zip events.now replies.now) at packet) }
{
    if let Some(errand) = find_errand(packet, events, replies) {
        if errand.is_forged {
            marks.push(Mark::Forgery(Flag {
                machine: errand.machine,
                at,
            }))?;
        }
    }
    Ok(())
}

/// Adds the courses of the commits that are released at this true time.
fn push_courses(
    marks: &mut Vec<Mark>,
    machine: u8,
    at: u64,
    receipts: &[Receipt],
    events: &[Event],
    replies: &[Reply],
) -> Result<(), AllocError>
    ensures { OnOk result (marks.new.items ≡ marks.old.items ++ courses_of (zip events.now replies.now) machine at receipts.now) }
{
    for receipt in receipts {
        push_course(marks, machine, at, receipt, events, replies)?;
    }
    Ok(())
}

/// Adds the course of a commit that is released at this true time.
fn push_course(
    marks: &mut Vec<Mark>,
    machine: u8,
    at: u64,
    receipt: &Receipt,
    events: &[Event],
    replies: &[Reply],
) -> Result<(), AllocError>
    ensures { OnOk result (marks.new.items ≡ marks.old.items ++ course_marks (zip events.now replies.now) machine at receipt.now) }
{
    if let Some(times) = find_times(machine, receipt, events, replies) {
        marks.push(Mark::Commit(Course {
            machine,
            id: receipt.id,
            stamp: receipt.stamp,
            arrived: times.arrived,
            queued: times.queued,
            released: at,
        }))?;
    }
    Ok(())
}
