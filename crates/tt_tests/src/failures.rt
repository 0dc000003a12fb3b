//! Links, clocks and references that fail at each of their calls.

use crate::devices::{ListLink, MasterLink};
use std::alloc::Global;
use std::sync::Wait;
use std::test::Fail;
use tt_daemon::{Config, Daemon};
use tt_master::{Act, Master, MemoryReference};
use tt_publish::{MemoryClock, ReadFault, Reading, Watch, open};
use tt_rounds::{NodeFault, daemon_rounds, master_rounds};
use tt_span::Drift;

/// What the watch reads at clock 0.
fn seen(watch: &mut Watch) -> Result<(u64, u64), u16> {
    match watch.now(&mut MemoryClock::new(&[0], None)) {
        Ok(reading) => Ok((reading.earliest(), reading.latest())),
        Err(fault) => Err(fault.number()),
    }
}

/// Does a round whose link and clock fail at these calls, and then one more: what both answer, and what is read after
/// each.
fn two_rounds<R: Wait>(
    rt: &R,
    alloc: Global,
    link_fails: Option<u64>,
    clock_fails: Option<u64>,
) -> Result<[(Option<NodeFault>, Result<(u64, u64), u16>); 2], Fail> {
    let drift = Drift::new(0).ok_or("a drift")?;
    let mut daemon = Daemon::new(0, &Config::new(1, 0, drift, 1)?, 1);
    let mut link = MasterLink::new(alloc, 0, &[1000; 8], link_fails);
    let mut clock = MemoryClock::new(&[0; 32], clock_fails);
    let (mut teller, mut watches) = open(rt, alloc, drift, 1)?;
    let mut came = [(None, Err(0)); 2];
    if let Some(mut watch) = watches.pop() {
        for one in came.iter_mut() {
            let did = daemon_rounds(rt, &mut daemon, &mut link, &mut clock, &mut teller, 1, 4);
            *one = (did.err(), seen(&mut watch));
        }
    }
    teller.close(rt);
    Ok(came)
}

#[test]
fn rounds_end_where_a_device_fails_and_may_be_done_again(rt: HostRuntime) -> Result<(), Fail> {
    let good = (None, Ok((1000, 1000)));
    // A round sends once and receives four times; it reads the clock when it polls, when it takes and when it fuses.
    for call in 1..6 {
        let came = two_rounds(&rt, rt.alloc(), Some(call), None)?;
        assert!(rt; came == [(Some(NodeFault::LinkFailed), Err(801)), good]);
    }
    for call in 1..4 {
        let came = two_rounds(&rt, rt.alloc(), None, Some(call))?;
        assert!(rt; came == [(Some(NodeFault::ClockFailed), Err(801)), good]);
    }
    assert!(rt; two_rounds(&rt, rt.alloc(), None, None)? == [good, good]);
    Ok(())
}

/// The request of machine 0 to source 0, with the nonce 1 in life 1.
const REQUEST: [u8; 24] = [
    0x54, 0x54, 0x50, 0x32, 1, 0, 0, 0, 0, 0, 0, 0, 0, 0, 0, 1, 0, 0, 0, 0, 0, 0, 0, 1,
];

/// What a master plays in three turns, on a link on which that request comes eight times and whose call of this number
/// fails, as that of the reference does; how often it sent; and what it plays in three turns more.
fn six_turns(
    link_fails: Option<u64>,
    reference_fails: Option<u64>,
) -> (Result<u32, NodeFault>, usize, Result<u32, NodeFault>) {
    let packets: [(u8, &[u8]); 8] = [(3, &REQUEST); 8];
    let mut link = ListLink::new(&packets, link_fails);
    let mut master = Master::new(0, 0, MemoryReference::new(&[1000; 8], reference_fails));
    let played = master_rounds(&mut link, &mut master, &[Act::Honest], 3);
    let sent = link.sent().len();
    let again = master_rounds(&mut link, &mut master, &[Act::Honest], 3);
    (played, sent, again)
}

#[test]
fn a_master_ends_where_a_device_fails_and_goes_on_when_it_is_called_again(rt: HostRuntime) {
    // Each of three turns receives, reads the reference and sends.
    for (call, sent) in [(1, 0), (2, 0), (3, 1), (4, 1), (5, 2), (6, 2)] {
        let wanted = (Err(NodeFault::LinkFailed), sent, Ok(3));
        assert!(rt; six_turns(Some(call), None) == wanted);
    }
    for (call, sent) in [(1, 0), (2, 1), (3, 2)] {
        let wanted = (Err(NodeFault::ReferenceFailed), sent, Ok(3));
        assert!(rt; six_turns(None, Some(call)) == wanted);
    }
    assert!(rt; six_turns(None, None) == (Ok(3), 3, Ok(3)));
}
