//! Values worked out by hand.

use std::test::Fail;
use tt_daemon::{Config, ConfigFault, Daemon, DaemonFault, Fused};
use tt_poll::{Answer2, encode_answer2};
use tt_span::{Drift, Span};

/// Source `i` is polled, and answers at once.
fn state(daemon: &mut Daemon, i: u8, clock: u64, (lo, hi): (u64, u64)) -> Result<(), Fail> {
    daemon.poll(i, clock)?;
    let answer = Answer2::new(0, i, daemon.last(), 1, Span::new(lo, hi)?)?;
    daemon.take(i, clock, &encode_answer2(&answer))?;
    Ok(())
}

/// The number of the refusal, or 0.
fn number_of(fused: Result<Fused, DaemonFault>) -> u16 {
    match fused {
        Ok(_) => 0,
        Err(fault) => fault.number(),
    }
}

#[test]
fn fuses_what_is_known(rt: HostRuntime) -> Result<(), Fail> {
    let exact = Drift::new(0).ok_or("a drift")?;
    let mut daemon = Daemon::new(0, &Config::new(3, 1, exact, 1)?, 1);
    state(&mut daemon, 0, 0, (40, 60))?;
    assert!(rt; number_of(daemon.fuse(0)) == 701);
    state(&mut daemon, 1, 0, (50, 70))?;
    let fused = daemon.fuse(0)?;
    assert!(rt; fused.certificate().left() == [0, 2].as_slice());
    assert!(rt; fused.certificate().right() == [1, 2].as_slice());
    for (i, span) in [(0, (0, 1)), (1, (3, 4)), (2, (6, 7))] {
        state(&mut daemon, i, 10, span)?;
    }
    assert!(rt; number_of(daemon.fuse(10)) == 504);
    assert!(rt; (fused.span().lo(), fused.span().hi()) == (40, 70));
    assert!(rt; Config::new(3, 1, exact, 0).err() == Some(ConfigFault::Workers));
    assert!(rt; ConfigFault::Workers.number() == 702);
    Ok(())
}
