//! Values worked out by hand.

use std::test::Fail;
use tt_span::{Drift, MAX_TIME, Span};

#[test]
fn widens_by_the_drift_rounded_up(rt: HostRuntime) -> Result<(), Fail> {
    for (ppm, d, want) in [
        (200, 0, 0),
        (200, 1, 1),
        (200, 5000, 1),
        (200, 5001, 2),
        (200, 30_000_000_000, 6_000_000),
        (100_000, 10, 1),
        (100_000, 11, 2),
    ] {
        let drift = Drift::new(ppm).ok_or("a drift")?;
        assert!(rt; drift.widen(d) == want);
    }
    assert!(rt; Drift::new(100_001).is_none());
    Ok(())
}

/// The number by which a span is refused, or 0.
fn number_of(lo: u64, hi: u64) -> u16 {
    match Span::new(lo, hi) {
        Ok(_) => 0,
        Err(fault) => fault.number(),
    }
}

#[test]
fn refuses_what_is_no_span(rt: HostRuntime) {
    assert!(rt; number_of(9, 5) == 101);
    assert!(rt; number_of(0, MAX_TIME + 1) == 102);
}
