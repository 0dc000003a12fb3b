//! The text of a histogram.

ghost use Rattle.std.specs.Prelude.{◌≡◌, ◌++◌, OnOk, slice_get, string_bytes};
ghost use Rattle.tt_status.specs.Metric.{metric_text};
ghost use Rattle.tt_status.specs.Histogram.{histogram_metric};

use crate::metrics::{Kind, Subject, Value, push_head, push_sample};
use std::alloc::AllocError;

/// How many bounds a histogram has.
pub const BOUNDS: usize = 12;

/// How many times of each length there were, in nanoseconds.
#[derive(Clone, Copy)]
pub struct Histogram {
    /// The bounds, ascending.
    pub bounds: [u64; BOUNDS],
    /// How many were at most the first bound, how many above it and at most the next one, and so on; the last one is how
    /// many were above all bounds.
    pub counts: [u64; BOUNDS + 1],
    /// The sum of all.
    pub sum: u64,
}

impl Histogram {
    /// The bound with this number; none behind the last one.
    fn bound(&self, number: usize) -> Option<u64>
        ensures { result ≡ slice_get self.now.bounds number }
    {
        self.bounds.get(number).copied()
    }
}

/// Adds a histogram as a metric of the machine.
pub(crate) fn push_histogram(
    text: &mut String,
    machine: u64,
    name: &str,
    help: &str,
    histogram: &Histogram,
) -> Result<(), AllocError>
    ensures { OnOk result (string_bytes text.new ≡ string_bytes text.old
        ++ metric_text machine (histogram_metric name.now help.now histogram.now)) }
{
    push_head(text, name, help, Kind::Histogram)?;
    let mut so_far = 0;
    for number in 0..BOUNDS + 1 {
        so_far = histogram.counts[number].saturating_add(so_far);
        let bound = Subject::AtMost(histogram.bound(number));
        push_sample(text, name, machine, bound, Value::Whole(so_far))?;
    }
    push_sample(
        text,
        name,
        machine,
        Subject::Sum,
        Value::Nanos(Some(histogram.sum)),
    )?;
    push_sample(text, name, machine, Subject::Count, Value::Whole(so_far))
}
