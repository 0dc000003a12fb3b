//! Rounds of a daemon, worked out by hand.

use crate::devices::MasterLink;
use std::test::Fail;
use tt_daemon::{Config, Daemon};
use tt_publish::{MemoryClock, ReadFault, Reading, open};
use tt_rounds::{RefusedFusions, RefusedPackets, Rounds, Tally, daemon_rounds};
use tt_span::Drift;

/// No packet was refused.
const NO_PACKETS: RefusedPackets = RefusedPackets {
    no_source: 0,
    clock_back: 0,
    nonces_used_up: 0,
    bad_message: 0,
    not_mine: 0,
    not_outstanding: 0,
    other_epoch: 0,
};

/// No fusion was refused.
const NO_FUSIONS: RefusedFusions = RefusedFusions {
    clock_back: 0,
    no_point: 0,
    unknown: 0,
};

/// A machine of one source, in its first life.
fn one_source(ppm: u32) -> Result<(Daemon, Drift), Fail> {
    let drift = Drift::new(ppm).ok_or("a drift")?;
    Ok((Daemon::new(0, &Config::new(1, 0, drift, 1)?, 1), drift))
}

fn ends(answer: Result<Reading, ReadFault>) -> Result<(u64, u64), u16> {
    match answer {
        Ok(reading) => Ok((reading.earliest(), reading.latest())),
        Err(fault) => Err(fault.number()),
    }
}

#[test]
fn each_packet_is_taken_at_a_reading_of_its_own(rt: HostRuntime) -> Result<(), Fail> {
    let (mut daemon, drift) = one_source(200)?;
    let mut link = MasterLink::new(rt.alloc(), 500, &[1_000_000_500], None);
    let mut clock = MemoryClock::new(&[1000, 2000, 3000], None);
    let (mut teller, mut watches) = open(&rt, rt.alloc(), drift, 1)?;
    let did = daemon_rounds(&rt, &mut daemon, &mut link, &mut clock, &mut teller, 1, 4);
    let read = match watches.pop() {
        Some(mut watch) => ends(watch.now(&mut MemoryClock::new(&[3000], None))),
        None => Err(0),
    };
    teller.close(&rt);
    let done = Rounds {
        done: 1,
        published: 1,
        refused: 0,
        tally: Tally {
            polls: 1,
            taken: 1,
            packets: NO_PACKETS,
            fusions: NO_FUSIONS,
        },
    };
    assert!(rt; did == Ok(done));
    assert!(rt; read == Ok((1_000_000_999, 1_000_003_001)));
    Ok(())
}

#[test]
fn what_is_refused_is_counted(rt: HostRuntime) -> Result<(), Fail> {
    let (mut daemon, drift) = one_source(200)?;
    let mut link = MasterLink::new(rt.alloc(), 0, &[1000, 1000], None);
    for _ in 0..4 {
        assert!(rt; link.forge(&[0xFF; 32]), "no memory");
    }
    let mut clock = MemoryClock::new(&[0; 32], None);
    let (mut teller, _watches) = open(&rt, rt.alloc(), drift, 1)?;
    let did = daemon_rounds(&rt, &mut daemon, &mut link, &mut clock, &mut teller, 2, 4);
    teller.close(&rt);
    let done = Rounds {
        done: 2,
        published: 1,
        refused: 6,
        tally: Tally {
            polls: 2,
            taken: 1,
            packets: RefusedPackets {
                bad_message: 4,
                not_outstanding: 1,
                ..NO_PACKETS
            },
            fusions: RefusedFusions {
                unknown: 1,
                ..NO_FUSIONS
            },
        },
    };
    assert!(rt; did == Ok(done));
    Ok(())
}
