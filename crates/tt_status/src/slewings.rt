//! What the status of a machine shows of the slewed clock.

ghost use Rattle.std.specs.Prelude.{◌≡◌, ◌++◌, OnOk, string_bytes};
ghost use Rattle.std.specs.List.{flat_map};
ghost use Rattle.tt_status.specs.Metric.{metric_text};
ghost use Rattle.tt_status.specs.Slewing.{slewing_metrics};

use crate::digits::Difference;
use crate::metrics::{Kind, Row, Value, push_rows};
use std::alloc::AllocError;

/// What a machine on the raw clock has seen of the slewed one, `CLOCK_MONOTONIC`, and what its readers by that are told.
#[derive(Clone, Copy)]
pub struct Slewing {
    /// What the slewed clock gained against the raw one in the last round, in parts per billion of what the raw one went on:
    /// above 0 where it went faster, below 0 where it went slower. None where they were not compared.
    pub rate: Option<Difference>,
    /// Whether readers by the slewed clock are told nothing, since it went faster or slower than the setting `slew` allows.
    pub is_withdrawn: bool,
    /// How often they were told nothing, after they had been told something.
    pub withdrawals: u64,
}

/// Adds how the slewed clock goes, and whether readers by it are told something.
pub(crate) fn push_slewing(
    text: &mut String,
    machine: u64,
    slewing: &Slewing,
) -> Result<(), AllocError>
    ensures { OnOk result (string_bytes text.new ≡ string_bytes text.old
        ++ flat_map (metric_text machine) (slewing_metrics slewing.now)) }
{
    push_rows(
        text,
        machine,
        &[
            Row {
                name: "truetime_slewed_clock_rate_ratio",
                help: "What CLOCK_MONOTONIC gained against CLOCK_MONOTONIC_RAW in the last round, as a part of the latter; NaN where they were not compared.",
                kind: Kind::Gauge,
                value: Value::Signed(slewing.rate),
            },
            Row {
                name: "truetime_slewed_base_withdrawn",
                help: "1 as long as readers of the shared file by CLOCK_MONOTONIC are told nothing, since it is slewed too fast, else 0.",
                kind: Kind::Gauge,
                value: Value::Flag(slewing.is_withdrawn),
            },
            Row {
                name: "truetime_slewed_base_withdrawals_total",
                help: "How often that began.",
                kind: Kind::Counter,
                value: Value::Whole(slewing.withdrawals),
            },
        ],
    )
}
