//! Values worked out by hand.

use std::test::Fail;
use tt_source::{SourceFault, Table};
use tt_span::{Drift, Span};

/// The request of machine 0 to source 1 under nonce 1, in the machine's first life.
const REQUEST: [u8; 24] = [
    0x54, 0x54, 0x50, 0x32, 0x01, 0x00, 0x01, 0x00, 0x00, 0x00, 0x00, 0x00, 0x00, 0x00, 0x00, 0x01,
    0x00, 0x00, 0x00, 0x00, 0x00, 0x00, 0x00, 0x01,
];

/// The answer of source 1 to it: from 1000000000 to 1000001000.
const ANSWER: [u8; 40] = [
    0x54, 0x54, 0x50, 0x32, 0x02, 0x00, 0x01, 0x00, 0x00, 0x00, 0x00, 0x00, 0x00, 0x00, 0x00, 0x01,
    0x00, 0x00, 0x00, 0x00, 0x00, 0x00, 0x00, 0x01, 0x00, 0x00, 0x00, 0x00, 0x3b, 0x9a, 0xca, 0x00,
    0x00, 0x00, 0x00, 0x00, 0x3b, 0x9a, 0xcd, 0xe8,
];

/// The same request under another nonce.
fn request(nonce: u8) -> [u8; 24] {
    let mut bytes = REQUEST;
    bytes[15] = nonce;
    bytes
}

/// The same answer in another life, under another nonce.
fn answer(epoch: u8, nonce: u8) -> [u8; 40] {
    let mut bytes = ANSWER;
    bytes[15] = nonce;
    bytes[23] = epoch;
    bytes
}

/// The number of the refusal, or 0.
fn number_of(taken: Result<(), SourceFault>) -> u16 {
    match taken {
        Ok(()) => 0,
        Err(fault) => fault.number(),
    }
}

#[test]
fn takes_the_answer_to_the_last_poll_once(rt: HostRuntime) -> Result<(), Fail> {
    let drift = Drift::new(200).ok_or("a drift")?;
    let mut table = Table::new(0, 3, drift, 1);
    for (clock, nonce) in [(500, 1), (600, 2)] {
        assert!(rt; table.poll(1, clock) == Ok(request(nonce)));
    }
    for (source, clock, bytes, wanted) in [
        (1, 900, answer(1, 1), 406),
        (1, 900, answer(2, 2), 407),
        (1, 900, answer(1, 2), 0),
        (1, 900, answer(1, 2), 406),
        (1, 899, answer(1, 2), 402),
        (2, 900, answer(1, 2), 405),
        (3, 900, answer(1, 2), 401),
        (1, 900, [0; 40], 404),
    ] {
        assert!(rt; number_of(table.take(source, clock, &bytes)) == wanted);
    }
    assert!(rt; table.poll(3, 900) == Err(SourceFault::NoSource));
    let aged = table.aged(1, 900)?;
    assert!(rt; (aged.lo(), aged.hi()) == (1_000_000_000, 1_000_001_301));
    assert!(rt; table.aged(0, 900) == Ok(Span::whole()));
    let mut table = Table::resume(7, 16, drift, u64::MAX, 1);
    assert!(rt; table.poll(0, 0) == Err(SourceFault::NoncesUsedUp));
    assert!(rt; SourceFault::NoncesUsedUp.number() == 403);
    Ok(())
}
