//! Fusion over scaled keys: values worked out by hand.

ghost use Rattle.std.specs.Prelude.{◌≡◌, ℕ, ◌<◌, is_some, slice_index_or, None};
ghost use Rattle.tt_fuse.specs.Stated.{statement_of, AreGotBy, AreAmongFirst};

use std::marker::Model;
use std::test::Fail;
use tt_fuse::{Ends, FuseFault, MAX_SOURCES};
use tt_span::{Drift, MAX_TIME, Span};

fn span(lo: u64, hi: u64) -> Result<Span, Fail> {
    Ok(Span::new(lo, hi)?)
}

/// The ends of statements and their spans. They are asked for only as the contracts allow.
#[derive(Drop)]
struct Asked {
    ends: Ends,
    said: [Option<Span>; MAX_SOURCES],
    /// No statement came later.
    latest: u64,
    /// Only the first so many sources have made statements.
    sources: usize,
}

impl Model for Asked {
    ghost Value = { ℕ };

    ghost view = { λ a. a.sources };

    ghost invariant = { λ a. AreGotBy a.ends a.latest × AreAmongFirst a.ends a.sources
        × ((i : ℕ) → i < 16 → is_some (slice_index_or a.said i None) ≡ is_some (statement_of a.ends i)) };
}

impl Asked {
    fn new(ppm: u32) -> Result<Asked, Fail> {
        let drift = Drift::new(ppm).ok_or("a drift")?;
        Ok(Asked {
            ends: Ends::new(drift),
            said: [None; MAX_SOURCES],
            latest: 0,
            sources: 0,
        })
    }

    /// Source `i` makes a statement.
    fn state(&mut self, i: u8, span: Span, sent: u64, got: u64) -> Result<(), Fail> {
        if i >= 16 || sent > got || got > MAX_TIME {
            return Err(Fail::new("no statement"));
        }
        if self.said[usize::from(i)].is_some() {
            self.ends.replace(i, &span, sent, got);
        } else {
            self.ends.insert(i, &span, sent, got);
        }
        self.said[usize::from(i)] = Some(span);
        self.latest = self.latest.max(got);
        self.sources = self.sources.max(usize::from(i) + 1);
        Ok(())
    }

    /// The ends of the fusion, or the number of the refusal.
    fn fused(
        &self,
        clock: u64,
        sources: usize,
        faulty: usize,
    ) -> Result<Result<(u64, u64), u16>, Fail> {
        if clock < self.latest || clock > MAX_TIME || sources < self.sources {
            return Err(Fail::new("no question"));
        }
        Ok(numbered(self.ends.fuse(clock, sources, faulty)))
    }
}

/// The ends of the fusion, or the number of the refusal.
fn numbered(fused: Result<Span, FuseFault>) -> Result<(u64, u64), u16> {
    match fused {
        Ok(found) => Ok((found.lo(), found.hi())),
        Err(fault) => Err(fault.number()),
    }
}

#[test]
fn fuses_what_was_stated(rt: HostRuntime) -> Result<(), Fail> {
    let mut asked = Asked::new(200)?;
    asked.state(0, span(1000, 1000)?, 0, 0)?;
    asked.state(1, span(6000, 6000)?, 5000, 5000)?;
    for (clock, ends) in [(5000, (6000, 6000)), (10001, (10999, 11003))] {
        assert!(rt; asked.fused(clock, 2, 0)? == Ok(ends));
    }
    asked.state(0, span(11000, 11000)?, 10001, 10001)?;
    for (sources, faulty, ends) in [(2, 0, (11000, 11000)), (3, 1, (10999, 11003))] {
        assert!(rt; asked.fused(10001, sources, faulty)? == Ok(ends));
    }
    let mut one = Asked::new(200)?;
    one.state(1, span(1_000_000_000, 1_000_001_000)?, 500, 900)?;
    let aged = (30_994_000_000, 31_006_001_401);
    assert!(rt; one.fused(30_000_000_900, 2, 0)? == Ok(aged));
    Ok(())
}
